//! The requests of all scripts, for every service, and which rules decide them with every label.
ghost use Rattle.std.specs.Prelude.{◌≡◌, ◌++◌, ◌∷◌, [], All, IfOk, OnOk, Some, map, true};
ghost use Rattle.std.specs.List.{slice_get};
ghost use Rattle.own_model.specs.Listed.{services_of};
ghost use Rattle.list_reach.specs.Paths.{is_chosen};
ghost use Rattle.list_reach.specs.ScriptDecisions.{AddsDecisions, AreAllDecisions, AreDecisionsOn, AreEntryDecisions, IsAsking, IsDecided, askings, entry_askings};

use crate::component_numbers::{ComponentKind, is_sought};
use crate::reach_filter::ReachFilter;
use crate::route_decisions::RouteDecisions;
use crate::services::service_name;
use list_labels::SessionRequests;
use list_parser::{ListEntry, StartList};
use std::alloc::{AllocError, Global};
use std::marker::Model;

/// The requests of a script for a service.
#[derive(Drop)]
pub(crate) struct ScriptRequests<'a> {
    /// The number of the script.
    pub(crate) client: usize,
    /// The script.
    pub(crate) entry: &'a ListEntry,
    /// The service.
    pub(crate) service: &'a str,
}

impl<'a> Model for ScriptRequests<'a> {
    ghost use Rattle.list_reach.specs.ScriptDecisions.{Asking};

    ghost Value = { Asking };

    ghost view = { λ asked. record {
      client = asked.client;
      entry = asked.entry.now;
      service = asked.service.now;
    } };
}

/// Returns the requests of each selected script for each service, script by script. Fails if the host is out of memory.
pub(crate) fn requests_of<'a>(
    alloc: Global,
    list: &'a StartList,
    chosen: &ReachFilter,
) -> Result<Vec<ScriptRequests<'a>>, AllocError>
    ensures { IfOk result
        (λ asked. asked.items ≡ askings list.now (is_chosen chosen.now.from.items)) }
{
    let mut asked = Vec::new(alloc);
    let entries = list.entries();
    for (client, entry) in entries.iter().enumerate() {
        if chosen.has_script(client) {
            add_requests(&mut asked, list, client, entry)?;
        }
    }
    Ok(asked)
}

// Adds the requests of an entry for each service, if the entry is a script.
fn add_requests<'a>(
    asked: &mut Vec<ScriptRequests<'a>>,
    list: &'a StartList,
    client: usize,
    entry: &'a ListEntry,
) -> Result<(), AllocError>
    ensures { OnOk result (asked.new.items ≡ asked.old.items
        ++ entry_askings (services_of list.now.entries) (λ client. true) (client, entry.now)) }
{
    if is_sought(entry, ComponentKind::Script) {
        add_services(asked, list, client, entry)
    } else {
        Ok(())
    }
}

// Adds the requests of a script for each service.
fn add_services<'a>(
    asked: &mut Vec<ScriptRequests<'a>>,
    list: &'a StartList,
    client: usize,
    entry: &'a ListEntry,
) -> Result<(), AllocError>
    ensures { OnOk result (asked.new.items ≡ asked.old.items
        ++ map (λ service. record { client = client; entry = entry.now; service = service })
        (services_of list.now.entries)) }
{
    for number in 0..list.service_count() {
        let service = service_name(list, number);
        asked.push(ScriptRequests {
            client,
            entry,
            service,
        })?;
    }
    Ok(())
}

/// The decisions on the requests of a script for a service.
#[derive(Drop)]
pub struct ScriptDecisions<'a> {
    /// The number of the script.
    pub client: usize,
    /// The script.
    pub entry: &'a ListEntry,
    /// The service.
    pub service: &'a str,
    /// The decisions, each once, with the shorter labels first.
    pub decisions: RouteDecisions,
}

impl<'a> ScriptDecisions<'a> {
    /// Decides the requests of each selected script for each service, script by script. Fails if the host is out of memory.
    pub fn all(
        alloc: Global,
        list: &'a StartList,
        chosen: &ReachFilter,
    ) -> Result<Vec<ScriptDecisions<'a>>, AllocError>
        ensures { IfOk result
            (λ found. AreAllDecisions list.now (is_chosen chosen.now.from.items) found.items) }
    {
        let asked = requests_of(alloc, list, chosen)?;
        decisions_on(alloc, list, asked.as_slice())
    }

    /// Decides the requests of the entry of a number for each service, or nothing if the entry isn't a script. Fails if the host
    /// is out of memory.
    pub fn of_entry(
        alloc: Global,
        list: &'a StartList,
        client: usize,
        entry: &'a ListEntry,
    ) -> Result<Vec<ScriptDecisions<'a>>, AllocError>
        requires entry { slice_get list.now.entries client ≡ Some entry.now }
        ensures { IfOk result
            (λ found. AreEntryDecisions list.now (client, entry.now) found.items) }
    {
        let mut asked = Vec::new(alloc);
        add_requests(&mut asked, list, client, entry)?;
        decisions_on(alloc, list, asked.as_slice())
    }
}

// Decides requests, one after another.
#[tactic(auto, using(crate::proofs::AdditionLemmas::adds_none, crate::proofs::AdditionLemmas::adds_then))]
fn decisions_on<'a>(
    alloc: Global,
    list: &'a StartList,
    asked: &[ScriptRequests<'a>],
) -> Result<Vec<ScriptDecisions<'a>>, AllocError>
    requires asked { All (IsAsking list.now) asked.now }
    ensures { IfOk result (λ found. AreDecisionsOn list.now asked.now found.items) }
{
    let mut found = Vec::new(alloc);
    for place in 0..asked.len() {
        add_decisions(alloc, &mut found, list, &asked[place])?;
    }
    Ok(found)
}

// Adds the decisions on the requests of a script for a service.
fn add_decisions<'a>(
    alloc: Global,
    found: &mut Vec<ScriptDecisions<'a>>,
    list: &'a StartList,
    asked: &ScriptRequests<'a>,
) -> Result<(), AllocError>
    requires asked { IsAsking list.now asked.now }
    requires decided { All (IsDecided list.now) found.old.items }
    ensures { OnOk result
        (AddsDecisions list.now found.old.items (asked.now ∷ []) found.new.items) }
{
    let decisions = RouteDecisions::of(
        alloc,
        SessionRequests {
            list,
            client: asked.client,
            service: asked.service.as_bytes(),
        },
    )?;
    found.push(ScriptDecisions {
        client: asked.client,
        entry: asked.entry,
        service: asked.service,
        decisions,
    })?;
    Ok(())
}
