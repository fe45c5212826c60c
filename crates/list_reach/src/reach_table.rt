//! Which scripts reach which servers, as a table.
ghost use Rattle.std.specs.Prelude.{◌≡◌, ◌<◌, [], ◌∷◌, ◌++◌, length, map, All, IfOk, OnOk, None};
ghost use Rattle.std.specs.List.{enumerate_from, flat_map};
ghost use Rattle.list_labels.specs.GivenLabels.{leads_to};
ghost use Rattle.list_reach.specs.Comparisons.{Compares};
ghost use Rattle.list_reach.specs.Paths.{is_chosen};
ghost use Rattle.list_reach.specs.RoutedLabels.{routed_on};
ghost use Rattle.list_reach.specs.Rows.{AddsRows, asking_rows, provider_rows, row_of, rows};
ghost use Rattle.list_reach.specs.ScriptDecisions.{IsAsking};
ghost use Rattle.list_reach.specs.Table.{IsTrue};

use crate::comparison::RouteComparison;
use crate::reach_cell::ReachCell;
use crate::reach_filter::ReachFilter;
use crate::script_decisions::{ScriptRequests, requests_of};
use list_labels::SessionRequests;
use list_parser::StartList;
use std::alloc::{AllocError, Global};

/// A table of reach: a cell for each script and each server, script by script, and for each script service by service in the
/// order of the list's services: the log servers, the file servers, then those of each declared service.
#[derive(Drop)]
pub struct ReachTable<'a> {
    pub(crate) list: &'a StartList,
    cells: Vec<ReachCell<'a>>,
}

// The reach of a client's requests for a service to all servers of a start list.
#[derive(Drop)]
struct ServiceReach<'a> {
    alloc: Global,
    list: &'a StartList,
    client: usize,
    service: &'a str,
    sets: RouteComparison,
}

impl<'a> ReachTable<'a> {
    /// Returns the table of all scripts and servers of a start list. Fails if the host is out of memory.
    pub fn of(alloc: Global, list: &'a StartList) -> Result<ReachTable<'a>, AllocError>
        ensures list { IfOk result (λ table. table.list.now ≡ list.now) }
        ensures rows { IfOk result (λ table. map row_of table.cells.items
            ≡ rows list.now (is_chosen []) (is_chosen [])) }
        ensures cells { IfOk result (λ table. All (IsTrue list.now) table.cells.items) }
    {
        ReachTable::narrowed(alloc, list, &ReachFilter::all(alloc))
    }

    /// Returns the table of the scripts and servers of a start list that a filter selects. Fails if the host is out of memory.
    pub fn narrowed(
        alloc: Global,
        list: &'a StartList,
        chosen: &ReachFilter,
    ) -> Result<ReachTable<'a>, AllocError>
        ensures list { IfOk result (λ table. table.list.now ≡ list.now) }
        ensures rows { IfOk result (λ table. map row_of table.cells.items
            ≡ rows list.now (is_chosen chosen.now.from.items) (is_chosen chosen.now.to.items)) }
        ensures cells { IfOk result (λ table. All (IsTrue list.now) table.cells.items) }
    {
        let asked = requests_of(alloc, list, chosen)?;
        let mut cells = Vec::new(alloc);
        for place in 0..asked.len() {
            add_service(alloc, &mut cells, list, chosen, &asked[place])?;
        }
        Ok(ReachTable { list, cells })
    }

    /// Returns the cells, script by script, and for each script server by server.
    pub fn cells(&self) -> &[ReachCell<'a>]
        ensures { result.now ≡ self.now.cells.items }
    {
        self.cells.as_slice()
    }
}

// Adds the cells of a script for one service.
fn add_service<'a>(
    alloc: Global,
    cells: &mut Vec<ReachCell<'a>>,
    list: &'a StartList,
    chosen: &ReachFilter,
    asked: &ScriptRequests<'a>,
) -> Result<(), AllocError>
    requires asked { IsAsking list.now asked.now }
    requires cells { All (IsTrue list.now) cells.old.items }
    ensures { OnOk result (AddsRows list.now cells.old.items
        (asking_rows list.now (is_chosen chosen.now.to.items) asked.now) cells.new.items) }
{
    let wishes = SessionRequests {
        list,
        client: asked.client,
        service: asked.service.as_bytes(),
    };
    let found = ServiceReach {
        alloc,
        list,
        client: asked.client,
        service: asked.service,
        sets: RouteComparison::of(alloc, None, Some(wishes))?,
    };
    add_cells(cells, chosen, &found)
}

// Adds the cells of a script for one service, by the reach of its requests.
#[tactic(auto, using(crate::proofs::AdditionLemmas::adds_none, crate::proofs::AdditionLemmas::adds_then))]
fn add_cells<'a>(
    cells: &mut Vec<ReachCell<'a>>,
    chosen: &ReachFilter,
    found: &ServiceReach<'a>,
) -> Result<(), AllocError>
    requires sets { Compares (routed_on None) (leads_to found.now.list.now found.now.client
        found.now.service.now) found.now.sets }
    requires cells { All (IsTrue found.now.list.now) cells.old.items }
    ensures { OnOk result (AddsRows found.now.list.now cells.old.items
        (flat_map (provider_rows (is_chosen chosen.now.to.items) found.now.client
        found.now.service.now) (enumerate_from 0 found.now.list.now.entries)) cells.new.items) }
{
    let entries = found.list.entries();
    for (server, entry) in entries.iter().enumerate() {
        if chosen.has_server(server) && entry.offers(entry.home(), found.service.as_bytes()) {
            add_cell(cells, found, server)?;
        }
    }
    Ok(())
}

// Adds the cell of a script and a server.
#[tactic(auto, using(crate::proofs::AdditionLemmas::adds_one))]
fn add_cell<'a>(
    cells: &mut Vec<ReachCell<'a>>,
    found: &ServiceReach<'a>,
    server: usize,
) -> Result<(), AllocError>
    requires sets { Compares (routed_on None) (leads_to found.now.list.now found.now.client
        found.now.service.now) found.now.sets }
    requires cells { All (IsTrue found.now.list.now) cells.old.items }
    ensures { OnOk result (AddsRows found.now.list.now cells.old.items
        (record { client = found.now.client; service = found.now.service.now; server = server }
        ∷ []) cells.new.items) }
{
    let gained = found.sets.gained(found.alloc, None, Some(server))?;
    let labels = gained.labels;
    let reach = found.sets.reach(server, gained.witness);
    cells.push(ReachCell {
        client: found.client,
        service: found.service,
        server,
        reach,
        labels,
    })?;
    Ok(())
}
