//! The route decisions on the requests of all scripts, for each service, for each name that a rule asks for, and for any other
//! name.
ghost use Rattle.std.specs.Prelude.{◌≡◌, ◌<◌, [], ◌∷◌, ◌++◌, length, All, IfOk, OnOk, Some};
ghost use Rattle.std.specs.List.{list_any};
ghost use Rattle.std.specs.Option.{option_copied};
ghost use Rattle.std.specs.Str.{bytes_eq};
ghost use Rattle.own_model.specs.Listed.{services_of, with_name};
ghost use Rattle.list_findings.specs.Views.{IsShown, ShowAll, Shows, asking_by, askings_for, names_asked, with_entry, with_rules};

use crate::finding::FindingText;
use list_labels::SessionRequests;
use list_parser::{ListEntry, Name, Rule, StartList};
use list_reach::{RouteDecisions, service_name};
use std::alloc::{AllocError, Global};
use std::marker::Model;

/// The route decisions on the requests of a script for a service.
#[derive(Drop)]
pub(crate) struct DecisionView {
    /// The number of the script.
    pub(crate) client: usize,
    service: FindingText,
    /// The decisions, for every label that the script can give.
    pub(crate) trails: RouteDecisions,
}

impl Model for DecisionView {
    ghost use Rattle.list_findings.specs.Views.{ViewOf};

    ghost Value = { ViewOf };

    ghost view = { λ view. record {
      client = view.client;
      service = view.service;
      trails = view.trails;
    } };
}

/// A start list with the route decisions on the requests of all its scripts.
#[derive(Clone, Copy)]
pub(crate) struct DecidedList<'a> {
    /// The start list.
    pub(crate) list: &'a StartList,
    /// The decisions, service by service.
    pub(crate) views: &'a [DecisionView],
}

/// Returns the decisions on the requests of all scripts of a list, service by service. Fails if the host is out of memory.
#[tactic(auto, using(crate::proofs::ViewLemmas::show_all))]
pub(crate) fn views_of(alloc: Global, list: &StartList) -> Result<Vec<DecisionView>, AllocError>
    ensures { IfOk result (λ views. ShowAll list.now views.items) }
{
    let services = names_asked(alloc, list)?;
    let mut views = Vec::new(alloc);
    for place in 0..services.len() {
        add_service(alloc, &mut views, list, &services[place])?;
    }
    Ok(views)
}

// Adds those of all scripts that ask for a service.
#[tactic(auto, using(list_reach::proofs::AdditionLemmas::adds_none, list_reach::proofs::AdditionLemmas::adds_then))]
fn add_service(
    alloc: Global,
    views: &mut Vec<DecisionView>,
    list: &StartList,
    service: &FindingText,
) -> Result<(), AllocError>
    requires shown { All (IsShown list.now) views.old.items }
    ensures { OnOk result
        (Shows list.now views.old.items (askings_for list.now service.now) views.new.items) }
{
    let entries = list.entries();
    for (client, entry) in entries.iter().enumerate() {
        add_script(alloc, views, list, client, entry, service)?;
    }
    Ok(())
}

// Adds that of an entry, if it is a script's.
#[tactic(auto, using(list_reach::proofs::AdditionLemmas::adds_none))]
fn add_script(
    alloc: Global,
    views: &mut Vec<DecisionView>,
    list: &StartList,
    client: usize,
    entry: &ListEntry,
    service: &FindingText,
) -> Result<(), AllocError>
    requires client { client < length list.now.entries }
    requires shown { All (IsShown list.now) views.old.items }
    ensures { OnOk result (Shows list.now views.old.items
        (asking_by service.now (client, entry.now)) views.new.items) }
{
    if entry.is_script() {
        add_view(alloc, views, list, client, service)
    } else {
        Ok(())
    }
}

// Adds that of a script.
#[tactic(auto, using(list_reach::proofs::AdditionLemmas::adds_one))]
fn add_view(
    alloc: Global,
    views: &mut Vec<DecisionView>,
    list: &StartList,
    client: usize,
    service: &FindingText,
) -> Result<(), AllocError>
    requires client { client < length list.now.entries }
    requires shown { All (IsShown list.now) views.old.items }
    ensures { OnOk result (Shows list.now views.old.items
        (record { client = client; service = service.now } ∷ []) views.new.items) }
{
    let wishes = SessionRequests {
        list,
        client,
        service: service.as_str().as_bytes(),
    };
    let trails = RouteDecisions::of(alloc, wishes)?;
    let service = FindingText::copy_of(alloc, service.as_str())?;
    views.push(DecisionView {
        client,
        service,
        trails,
    })?;
    Ok(())
}

// An empty name, which no rule asks for, the services of the list, and those that some rule asks for.
fn names_asked(alloc: Global, list: &StartList) -> Result<Vec<FindingText>, AllocError>
    ensures { IfOk result (λ services. services.items ≡ names_asked list.now) }
{
    let mut services = Vec::new(alloc);
    add_text(alloc, &mut services, "")?;
    add_services(alloc, &mut services, list)?;
    add_rules(alloc, &mut services, list.default_route())?;
    for entry in list.entries() {
        add_entry(alloc, &mut services, entry)?;
    }
    Ok(services)
}

// With those of the list.
fn add_services(
    alloc: Global,
    found: &mut Vec<FindingText>,
    list: &StartList,
) -> Result<(), AllocError>
    ensures { OnOk result
        (found.new.items ≡ found.old.items ++ services_of list.now.entries) }
{
    for number in 0..list.service_count() {
        let service = service_name(list, number);
        add_text(alloc, found, service)?;
    }
    Ok(())
}

// With a text.
fn add_text(alloc: Global, found: &mut Vec<FindingText>, text: &str) -> Result<(), AllocError>
    ensures { OnOk result (found.new.items ≡ found.old.items ++ text.now ∷ []) }
{
    found.push(FindingText::copy_of(alloc, text)?)?;
    Ok(())
}

// With those that an entry's rules ask for.
fn add_entry(
    alloc: Global,
    services: &mut Vec<FindingText>,
    entry: &ListEntry,
) -> Result<(), AllocError>
    ensures { OnOk result (services.new.items ≡ with_entry services.old.items entry.now) }
{
    if let Some(rules) = entry.route() {
        add_rules(alloc, services, rules)?;
    }
    add_rules(alloc, services, entry.inner_route())
}

// With those that rules ask for.
fn add_rules(
    alloc: Global,
    services: &mut Vec<FindingText>,
    rules: &[Rule],
) -> Result<(), AllocError>
    ensures { OnOk result (services.new.items ≡ with_rules services.old.items rules.now) }
{
    for rule in rules {
        add_asked(alloc, services, rule.service())?;
    }
    Ok(())
}

// With the one that a rule asks for, if it asks for one.
fn add_asked(
    alloc: Global,
    services: &mut Vec<FindingText>,
    asked: Option<&Name>,
) -> Result<(), AllocError>
    ensures { OnOk result
        (services.new.items ≡ with_name services.old.items (option_copied asked.entry)) }
{
    match asked {
        Some(service) => add_name(alloc, services, service),
        None => Ok(()),
    }
}

// With one, unless it is there.
fn add_name(
    alloc: Global,
    services: &mut Vec<FindingText>,
    service: &Name,
) -> Result<(), AllocError>
    ensures { OnOk result
        (services.new.items ≡ with_name services.old.items (Some service.now)) }
{
    if !is_there(services, service) {
        add_text(alloc, services, service.as_str())?;
    }
    Ok(())
}

// Whether a service is among them.
fn is_there(services: &[FindingText], service: &Name) -> bool
    ensures { result ≡ list_any (bytes_eq service.now) services.now }
{
    services
        .iter()
        .any(|other| service.as_bytes() == other.as_str().as_bytes())
}
