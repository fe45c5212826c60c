//! Which labels of a script's requests are routed to a server after a change and weren't before, or were before and aren't after.
ghost use Rattle.std.specs.Prelude.{◌≡◌, ◌++◌, find, IfOk, IfSome, OnOk};
ghost use Rattle.std.specs.List.{flat_map};
ghost use Rattle.std.specs.Option.{option_copied, option_map, option_to_list};
ghost use Rattle.list_reach.specs.Comparisons.{Compares};
ghost use Rattle.list_diff.specs.Changes.{place_of};
ghost use Rattle.list_diff.specs.Reaches.{AreReachChanges, HasRows, IsCompared, IsRowOf, Shows, cell_at, compared_pairs, is_cell, moves_some, new_pairs, old_pairs, pair_at, reach_of};
ghost use Rattle.list_diff.specs.Routes.{routes};

use crate::moved_labels::{MovedLabels, requests_of};
use list_parser::{ListEntry, StartList};
use list_reach::{Reach, ReachCell, RouteComparison};
use std::alloc::{AllocError, Global};
use std::marker::Model;

/// A start list with the cells of its table.
#[derive(Clone, Copy)]
pub struct ReachSide<'a> {
    /// The start list.
    pub list: &'a StartList,
    /// The cells of its table.
    pub cells: &'a [ReachCell<'a>],
}

/// The labels of a client's requests for a service that are routed to a server on one of two start lists alone.
#[derive(Drop)]
pub struct ReachChange<'a> {
    /// The client.
    pub client: &'a ListEntry,
    /// The service.
    pub service: &'a str,
    /// The server.
    pub server: &'a ListEntry,
    /// With which labels the client reached the server before, if both were there.
    pub was: Option<&'a Reach>,
    /// With which labels the client reaches the server after, if both are there.
    pub now: Option<&'a Reach>,
    /// The labels that are routed to the server after and weren't before.
    pub gained: MovedLabels<'a>,
    /// The labels that were routed to the server before and aren't after.
    pub lost: MovedLabels<'a>,
}

/// Compares where requests are routed on two start lists, by the paths of scripts and servers. The pairs of a script and a server
/// of the table before are first, in order, and then the pairs that only the table after has. Those without a difference are left
/// out. Fails if the host is out of memory.
pub fn leads<'a>(
    alloc: Global,
    before: ReachSide<'a>,
    after: ReachSide<'a>,
) -> Result<Vec<ReachChange<'a>>, AllocError>
    ensures { IfOk result (λ found. AreReachChanges before.entry after.entry found.items) }
{
    let pairs = compared_pairs(alloc, before, after)?;
    rows_of(alloc, before, after, pairs.as_slice())
}

/// A script, and a server of a service.
#[derive(Drop)]
pub(crate) struct CellPair<'a> {
    pub(crate) client: &'a ListEntry,
    pub(crate) service: &'a str,
    pub(crate) server: &'a ListEntry,
}

impl<'a> Model for CellPair<'a> {
    ghost use Rattle.list_diff.specs.Routes.{Pair};

    ghost Value = { Pair };

    ghost view = { λ pair. record {
      client = pair.client.now;
      service = pair.service.now;
      server = pair.server.now;
    } };
}

// The pairs of the table before, and then those that only the table after has.
fn compared_pairs<'a>(
    alloc: Global,
    before: ReachSide<'a>,
    after: ReachSide<'a>,
) -> Result<Vec<CellPair<'a>>, AllocError>
    ensures { IfOk result (λ pairs. pairs.items ≡ compared_pairs before.entry after.entry) }
{
    let mut pairs = Vec::new(alloc);
    add_old(&mut pairs, before)?;
    add_new(&mut pairs, before, after)?;
    Ok(pairs)
}

// Adds the pairs of the table before.
fn add_old<'a>(pairs: &mut Vec<CellPair<'a>>, before: ReachSide<'a>) -> Result<(), AllocError>
    ensures { OnOk result (pairs.new.items ≡ pairs.old.items
        ++ flat_map (old_pairs before.entry) before.entry.cells.now) }
{
    for cell in before.cells {
        add_old_pair(pairs, before, cell)?;
    }
    Ok(())
}

// Adds the pairs that only the table after has.
fn add_new<'a>(
    pairs: &mut Vec<CellPair<'a>>,
    before: ReachSide<'a>,
    after: ReachSide<'a>,
) -> Result<(), AllocError>
    ensures { OnOk result (pairs.new.items ≡ pairs.old.items
        ++ flat_map (new_pairs before.entry after.entry) after.entry.cells.now) }
{
    for cell in after.cells {
        add_new_pair(pairs, before, after, cell)?;
    }
    Ok(())
}

// Adds the pair of a cell before.
fn add_old_pair<'a>(
    pairs: &mut Vec<CellPair<'a>>,
    before: ReachSide<'a>,
    cell: &ReachCell<'a>,
) -> Result<(), AllocError>
    ensures { OnOk result
        (pairs.new.items ≡ pairs.old.items ++ old_pairs before.entry cell.now) }
{
    if let Some(pair) = pair_at(before, cell) {
        pairs.push(pair)?;
    }
    Ok(())
}

// Adds the pair of a cell after, unless the table before has it.
fn add_new_pair<'a>(
    pairs: &mut Vec<CellPair<'a>>,
    before: ReachSide<'a>,
    after: ReachSide<'a>,
    cell: &ReachCell<'a>,
) -> Result<(), AllocError>
    ensures { OnOk result
        (pairs.new.items ≡ pairs.old.items ++ new_pairs before.entry after.entry cell.now) }
{
    if let Some(pair) = pair_at(after, cell) {
        if reach_of(before, &pair).is_none() {
            pairs.push(pair)?;
        }
    }
    Ok(())
}

// The script and the server of a cell.
fn pair_at<'a>(side: ReachSide<'a>, cell: &ReachCell<'a>) -> Option<CellPair<'a>>
    ensures { result ≡ pair_at side.entry cell.now }
{
    let client = side.list.entries().get(cell.client)?;
    let server = side.list.entries().get(cell.server)?;
    Some(CellPair {
        client,
        service: cell.service,
        server,
    })
}

// With which labels a pair's script reaches its server by a table, if the table has them.
fn reach_of<'a>(side: ReachSide<'a>, pair: &CellPair<'_>) -> Option<&'a Reach>
    ensures { option_copied result ≡ reach_of side.entry pair.now }
{
    reach_in(cell_at(
        side.cells,
        pair,
        client_in(side.list, pair),
        server_in(side.list, pair),
    ))
}

// The number of a pair's script on a list, if the list has it.
fn client_in(list: &StartList, pair: &CellPair<'_>) -> Option<usize>
    ensures { result ≡ place_of list.now pair.now.client.path }
{
    list.find(pair.client.path())
}

// The number of a pair's server on a list, if the list has it.
fn server_in(list: &StartList, pair: &CellPair<'_>) -> Option<usize>
    ensures { result ≡ place_of list.now pair.now.server.path }
{
    list.find(pair.server.path())
}

// With which labels the script of a cell reaches the server.
fn reach_in<'a>(cell: Option<&'a ReachCell<'_>>) -> Option<&'a Reach>
    ensures { option_copied result ≡ option_map (λ cell. cell.reach) (option_copied cell.entry) }
{
    match cell {
        Some(cell) => Some(&cell.reach),
        None => None,
    }
}

// The cell of a script and a server, by their numbers, if both are there.
fn cell_at<'a>(
    cells: &'a [ReachCell<'a>],
    pair: &CellPair<'_>,
    client: Option<usize>,
    server: Option<usize>,
) -> Option<&'a ReachCell<'a>>
    ensures { option_copied result ≡ cell_at cells.now pair.now.service client server }
{
    match (client, server) {
        (Some(client), Some(server)) => cell_with(cells, client, pair.service, server),
        _ => None,
    }
}

// The cell of this script, service and server.
fn cell_with<'a>(
    cells: &'a [ReachCell<'a>],
    client: usize,
    service: &str,
    server: usize,
) -> Option<&'a ReachCell<'a>>
    ensures { option_copied result ≡ find (is_cell client service.now server) cells.now }
{
    for cell in cells {
        if is_cell(cell, client, service, server) {
            return Some(cell);
        }
    }
    None
}

// Whether a cell is of this script, service and server.
fn is_cell(cell: &ReachCell<'_>, client: usize, service: &str, server: usize) -> bool
    ensures { result ≡ is_cell client service.now server cell.now }
{
    cell.client == client && cell.server == server && cell.service == service
}

/// The requests of a script for a service, compared.
#[derive(Drop)]
pub(crate) struct ServiceComparison<'a> {
    pub(crate) client: &'a ListEntry,
    pub(crate) service: &'a str,
    pub(crate) compared: RouteComparison,
}

// Compares the requests of a script for a service, unless they were compared last.
fn comparison<'a>(
    alloc: Global,
    before: ReachSide<'_>,
    after: ReachSide<'_>,
    pair: &CellPair<'a>,
    last: Option<ServiceComparison<'a>>,
) -> Result<ServiceComparison<'a>, AllocError>
    requires { IfSome last (IsCompared before.list.now after.list.now) }
    ensures compared { IfOk result (IsCompared before.entry.list.now after.entry.list.now) }
    ensures client { IfOk result (λ one. one.client.now.path ≡ pair.now.client.path) }
    ensures service { IfOk result (λ one. one.service.now ≡ pair.now.service) }
{
    if let Some(last) = last {
        if last.client.path() == pair.client.path() && last.service == pair.service {
            return Ok(last);
        }
    }
    Ok(ServiceComparison {
        client: pair.client,
        service: pair.service,
        compared: compared(alloc, before.list, after.list, pair.client, pair.service)?,
    })
}

// Compares the requests of a script, by its path, for a service on both lists.
fn compared(
    alloc: Global,
    before: &StartList,
    after: &StartList,
    client: &ListEntry,
    service: &str,
) -> Result<RouteComparison, AllocError>
    ensures { IfOk result (Compares (routes before.now client.now.path service.now)
        (routes after.now client.now.path service.now)) }
{
    let was = requests_of(before, client, service);
    let now = requests_of(after, client, service);
    RouteComparison::of(alloc, was, now)
}

// The rows of pairs. Requests are compared once for pairs that are next to each other.
fn rows_of<'a>(
    alloc: Global,
    before: ReachSide<'a>,
    after: ReachSide<'a>,
    pairs: &[CellPair<'a>],
) -> Result<Vec<ReachChange<'a>>, AllocError>
    ensures { IfOk result (λ found. HasRows before.entry after.entry pairs.now found.items) }
{
    let mut found = Vec::new(alloc);
    let mut last = None;
    for place in 0..pairs.len() {
        let pair = &pairs[place];
        let one = comparison(alloc, before, after, pair, last)?;
        let row = row_of(alloc, before, after, pair, &one.compared)?;
        add_row(&mut found, row)?;
        last = Some(one);
    }
    Ok(found)
}

// The row of a pair, if its server gains or loses labels.
fn row_of<'a>(
    alloc: Global,
    before: ReachSide<'a>,
    after: ReachSide<'a>,
    pair: &CellPair<'a>,
    compared: &RouteComparison,
) -> Result<Option<ReachChange<'a>>, AllocError>
    requires { Compares (routes before.list.now pair.now.client.path pair.now.service)
        (routes after.list.now pair.now.client.path pair.now.service) compared.now }
    ensures { IfOk result (Shows before.entry after.entry pair.now) }
{
    let was = server_in(before.list, pair);
    let now = server_in(after.list, pair);
    let gains = compared.gained(alloc, was, now)?;
    let gained = MovedLabels::of(alloc, before.list, after.list, pair, gains)?;
    let losses = compared.lost(alloc, was, now)?;
    let lost = MovedLabels::of(alloc, before.list, after.list, pair, losses)?;
    Ok(row_with(before, after, pair, gained, lost))
}

// The row of a pair with the labels that are gained and lost, if there are some.
fn row_with<'a>(
    before: ReachSide<'a>,
    after: ReachSide<'a>,
    pair: &CellPair<'a>,
    gained: MovedLabels<'a>,
    lost: MovedLabels<'a>,
) -> Option<ReachChange<'a>>
    ensures { IsRowOf before.entry after.entry pair.now gained.entry lost.entry result }
{
    if has_some(&gained, &lost) {
        return Some(change_of(before, after, pair, gained, lost));
    }
    None
}

// Whether a label is gained or lost.
fn has_some(gained: &MovedLabels<'_>, lost: &MovedLabels<'_>) -> bool
    ensures { result ≡ moves_some gained.entry.now lost.entry.now }
{
    gained.set.witness.is_some() || lost.set.witness.is_some()
}

// The row of a pair with the labels that are gained and lost.
fn change_of<'a>(
    before: ReachSide<'a>,
    after: ReachSide<'a>,
    pair: &CellPair<'a>,
    gained: MovedLabels<'a>,
    lost: MovedLabels<'a>,
) -> ReachChange<'a>
    ensures client { result.client.now ≡ pair.now.client }
    ensures service { result.service.now ≡ pair.now.service }
    ensures server { result.server.now ≡ pair.now.server }
    ensures was { option_copied result.was ≡ reach_of before.entry pair.now }
    ensures now { option_copied result.now ≡ reach_of after.entry pair.now }
    ensures gained { result.gained ≡ gained.entry }
    ensures lost { result.lost ≡ lost.entry }
{
    ReachChange {
        client: pair.client,
        service: pair.service,
        server: pair.server,
        was: reach_of(before, pair),
        now: reach_of(after, pair),
        gained,
        lost,
    }
}

// Adds a row, if there is one.
fn add_row<'a>(
    found: &mut Vec<ReachChange<'a>>,
    row: Option<ReachChange<'a>>,
) -> Result<(), AllocError>
    ensures { OnOk result (found.new.items ≡ found.old.items ++ option_to_list row.entry) }
{
    if let Some(row) = row {
        found.push(row)?;
    }
    Ok(())
}
