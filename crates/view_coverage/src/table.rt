//! The rows of a machine, none of them met.
ghost use Rattle.std.specs.Prelude.{◌≡◌, ◌++◌, OnOk, IfOk};
ghost use Rattle.own_model.specs.Listed.{services_of};
ghost use Rattle.view_coverage.specs.Covered.{is_provided, route_rows, rows_of, rows_of_entries, rows_of_entry, script_rows, scripts_rows, service_rows, services_rows, unmet};

use crate::event::{CoverageEvent, RouteOwner, RulePlace, ScriptService};
use crate::row::CoverageRow;
use list_parser::{ListEntry, StartList};
use list_reach::service_name;
use std::alloc::{AllocError, Global};

/// Returns the rows of a machine: of each rule of its start list, and of each script by service. Fails if the host is out of memory.
pub(crate) fn rows_of(alloc: Global, list: &StartList) -> Result<Vec<CoverageRow>, AllocError>
    ensures { IfOk result (λ rows. rows.items ≡ rows_of list.now) }
{
    let mut rows = Vec::new(alloc);
    add_rules(&mut rows, RouteOwner::Machine, list.default_route().len())?;
    add_entries(&mut rows, list.entries())?;
    add_scripts(&mut rows, list)?;
    Ok(rows)
}

// A row that isn't met.
fn unmet(event: CoverageEvent) -> CoverageRow
    ensures { result ≡ unmet event }
{
    CoverageRow { event, met: false }
}

// Adds so many rules of a route.
fn add_rules(rows: &mut Vec<CoverageRow>, route: RouteOwner, count: usize) -> Result<(), AllocError>
    ensures { OnOk result (rows.new.items ≡ rows.old.items ++ route_rows route count) }
{
    for place in 0..count {
        rows.push(unmet(CoverageEvent::Decided(RulePlace { route, place })))?;
    }
    Ok(())
}

// Adds the rules that entries have.
fn add_entries(rows: &mut Vec<CoverageRow>, entries: &[ListEntry]) -> Result<(), AllocError>
    ensures { OnOk result (rows.new.items ≡ rows.old.items ++ rows_of_entries 0 entries.now) }
{
    for number in 0..entries.len() {
        add_entry(rows, number, &entries[number])?;
    }
    Ok(())
}

// Adds the rules of an entry: its own route, and the default route of its list.
fn add_entry(
    rows: &mut Vec<CoverageRow>,
    number: usize,
    entry: &ListEntry,
) -> Result<(), AllocError>
    ensures { OnOk result (rows.new.items ≡ rows.old.items ++ rows_of_entry number entry.now) }
{
    if let Some(rules) = entry.route() {
        add_rules(rows, RouteOwner::Own(number), rules.len())?;
    }
    add_rules(rows, RouteOwner::Inner(number), entry.inner_route().len())
}

// Adds the session requests of scripts.
fn add_scripts(rows: &mut Vec<CoverageRow>, list: &StartList) -> Result<(), AllocError>
    ensures { OnOk result
        (rows.new.items ≡ rows.old.items ++ scripts_rows list.now.entries 0 list.now.entries) }
{
    let entries = list.entries();
    for number in 0..entries.len() {
        add_script(rows, list, number, &entries[number])?;
    }
    Ok(())
}

// Adds the session requests of an entry: of a script one for each service that is provided.
fn add_script(
    rows: &mut Vec<CoverageRow>,
    list: &StartList,
    number: usize,
    entry: &ListEntry,
) -> Result<(), AllocError>
    ensures { OnOk result
        (rows.new.items ≡ rows.old.items ++ script_rows list.now.entries number entry.now) }
{
    if entry.is_script() {
        add_services(rows, list, number)
    } else {
        Ok(())
    }
}

// Adds the session requests of a script, one for each service of the list that is provided.
fn add_services(
    rows: &mut Vec<CoverageRow>,
    list: &StartList,
    client: usize,
) -> Result<(), AllocError>
    ensures { OnOk result (rows.new.items ≡ rows.old.items
        ++ services_rows list.now.entries client 0 (services_of list.now.entries)) }
{
    for service in 0..list.service_count() {
        let name = service_name(list, service);
        add_service(rows, list, ScriptService { client, service }, name)?;
    }
    Ok(())
}

// Adds the session requests of a script for a service of this name, if the service is provided.
fn add_service(
    rows: &mut Vec<CoverageRow>,
    list: &StartList,
    asked: ScriptService,
    name: &str,
) -> Result<(), AllocError>
    ensures { OnOk result (rows.new.items ≡ rows.old.items
        ++ service_rows list.now.entries asked.client asked.service name.now) }
{
    if is_provided(list.entries(), name) {
        rows.push(unmet(CoverageEvent::Requested(asked)))?;
    }
    Ok(())
}

// Returns whether an entry provides a service.
fn is_provided(entries: &[ListEntry], service: &str) -> bool
    ensures { result ≡ is_provided entries.now service.now }
{
    let name = service.as_bytes();
    entries.iter().any(|entry| entry.offers(entry.home(), name))
}
