//! The command `reach`: the servers of a start list that each script reaches.
ghost use Rattle.std.specs.Prelude.{◌≡◌, ◌⊎◌, false, is_err, IfErr, OnOk, IfOk};
ghost use Rattle.cli_base.specs.Statuses.{EndsAs, IsZero};
ghost use Rattle.cli_lists.specs.ListStatus.{EndsNamed, NamesNone, ReachEnds, named_by, unnamed_status};
ghost use Rattle.cli_lists.specs.ReachDocuments.{IsReachText};

use crate::reach_documents::reach_text;
use crate::review::list_at;
use cli_base::{
    Host, REFUSED, Settings, Spot, UNWRITTEN, made_or_status, print_documents, report_error,
    status_of,
};
use cli_options::ReachOptions;
use list_parser::StartList;
use list_reach::{ReachFilter, ReachPathList, ReachTable, ReachText, Unnamed};
use std::alloc::{AllocError, Global};
use view_diagnostics::DiagnosticForm;

/// Prints which scripts reach which servers, as a table or documents of JSON. Returns the exit status: 0, or 2 if the list or a
/// path is refused.
pub fn show_reach<H: Host>(host: &H, asked: &ReachOptions<'_>, settings: Settings<'_>) -> u8
    ensures { ReachEnds (H.text_at host.now) asked.now settings.entry result }
{
    match list_at(host, asked.list, settings) {
        Ok(list) => reach_in(host.rt(), settings.form, &list, asked),
        Err(status) => status,
    }
}

// Prints which scripts of a start list reach which servers, and returns the exit status.
fn reach_in(
    rt: &HostRuntime,
    form: DiagnosticForm,
    list: &StartList,
    asked: &ReachOptions<'_>,
) -> u8
    ensures { EndsAs (NamesNone asked.now list.now) (EndsNamed asked.now list.now) result }
{
    match filter_of(rt, form, list, asked) {
        Ok(filter) => print_reach(rt, list, &filter, asked),
        Err(status) => status,
    }
}

// Returns the filter that selects the scripts and servers that the command line names. If a path is unknown, prints that and
// returns the exit status: 1 if the host is out of memory, else 2.
fn filter_of(
    rt: &HostRuntime,
    form: DiagnosticForm,
    list: &StartList,
    asked: &ReachOptions<'_>,
) -> Result<ReachFilter, u8>
    ensures named { OnOk result (is_err (named_by asked.now list.now) ≡ false) }
    ensures failed { IfErr result
        (λ status. (status ≡ 1) ⊎ (status ≡ 2) × NamesNone asked.now list.now) }
{
    let (from, to) = (asked.from.as_slice(), asked.to.as_slice());
    match ReachFilter::read(rt.alloc(), list, from, to) {
        Ok(filter) => Ok(filter),
        Err(fault) => {
            report_error(rt, form, Spot::file(asked.list), &fault);
            Err(unnamed_status(&fault))
        }
    }
}

// Returns the exit status of a path that denotes no component: 1 if the host is out of memory, else 2.
fn unnamed_status(fault: &Unnamed<'_>) -> u8
    ensures { result ≡ unnamed_status fault.now }
{
    match fault {
        Unnamed::Nobody(_, _) | Unnamed::NoScript(_) | Unnamed::NoServer(_) => REFUSED,
        Unnamed::NoMemory => UNWRITTEN,
    }
}

// Prints which of the selected scripts reach which of the selected servers as the command line asks, and returns the exit status.
fn print_reach(
    rt: &HostRuntime,
    list: &StartList,
    filter: &ReachFilter,
    asked: &ReachOptions<'_>,
) -> u8
    ensures { EndsAs ⊥ IsZero result }
{
    if asked.json {
        return print_documents(rt, reach_documents(rt.alloc(), list, filter));
    }
    match made_or_status(rt, ReachTable::narrowed(rt.alloc(), list, filter)) {
        Ok(table) => print_table(rt, list, filter, &table),
        Err(status) => status,
    }
}

// Prints a table, and then each route path of scripts and servers that are named. Returns the exit status.
fn print_table(
    rt: &HostRuntime,
    list: &StartList,
    filter: &ReachFilter,
    table: &ReachTable<'_>,
) -> u8
    ensures { EndsAs ⊥ IsZero result }
{
    let status = print_text(rt, table);
    if status == 0 && filter.is_narrow() {
        print_paths(rt, list, filter)
    } else {
        status
    }
}

// Prints a table as text, and returns the exit status.
fn print_text(rt: &HostRuntime, table: &ReachTable<'_>) -> u8
    ensures { EndsAs ⊥ IsZero result }
{
    match made_or_status(rt, ReachText::of(rt.alloc(), table)) {
        Ok(text) => status_of(rt, print!(rt; "{text}")),
        Err(status) => status,
    }
}

// Prints each route path from the selected scripts to the selected servers, and returns the exit status.
fn print_paths(rt: &HostRuntime, list: &StartList, filter: &ReachFilter) -> u8
    ensures { EndsAs ⊥ IsZero result }
{
    match made_or_status(rt, ReachPathList::of(rt.alloc(), list, filter)) {
        Ok(paths) => status_of(rt, print!(rt; "{paths}")),
        Err(status) => status,
    }
}

// Returns a list with a document for each cell of the table of the selected scripts and servers.
fn reach_documents(
    alloc: Global,
    list: &StartList,
    filter: &ReachFilter,
) -> Result<Vec<u8>, AllocError>
    ensures { IfOk result (λ text. IsReachText list.now filter.now text.items) }
{
    let table = ReachTable::narrowed(alloc, list, filter)?;
    reach_text(alloc, list, &table)
}
