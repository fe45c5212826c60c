//! The report as records.
ghost use Rattle.std.specs.Prelude.{◌≡◌, ◌∷◌, ◌++◌, [], IfOk, OnOk, map};
ghost use Rattle.std.specs.List.{slice_get};
ghost use Rattle.std.specs.Option.{option_copied, option_map};
ghost use Rattle.budget_meter.specs.Needs.{amounts_of};
ghost use Rattle.view_records.specs.Cells.{cell_data};
ghost use Rattle.view_records.specs.JsonTexts.{list_data};
ghost use Rattle.view_records.specs.Lists.{records_of};
ghost use Rattle.view_records.specs.Records.{if_number, null_if_absent};
ghost use Rattle.cli_budgets.specs.ReportRecords.{account_records, interval_record, machine_record, named_lines, unmeasured_record, IsReportRecords};

use budget_least::{Budget, BudgetReport, MachineSize, UnmeasuredLine};
use budget_search::{AccountBudgets, BudgetInterval, SessionKey};
use list_parser::{ListEntry, StartList};
use std::alloc::{AllocError, Global};
use view_records::{Cell, RecordList};

/// Returns a record for each interval of each account, except those of servers, and then one for the machine. The error is that the
/// host is out of memory.
pub(crate) fn report_records(
    alloc: Global,
    report: &BudgetReport<'_>,
) -> Result<RecordList, AllocError>
    ensures { IfOk result (λ records. IsReportRecords report.now (records_of records)) }
{
    let mut records = RecordList::new(alloc);
    for account in report.accounts() {
        add_account(alloc, &mut records, report, account)?;
    }
    add_machine(&mut records, report.sum(), report.machine())?;
    Ok(records)
}

// Adds the intervals of an account, unless it is a server's.
fn add_account(
    alloc: Global,
    records: &mut RecordList,
    report: &BudgetReport<'_>,
    account: &AccountBudgets,
) -> Result<(), AllocError>
    ensures { OnOk result (records_of records.new
        ≡ records_of records.old ++ account_records report.now account.now) }
{
    let Some(entry) = entry_at(report.list(), account.component()) else {
        return Ok(());
    };
    if entry.is_server() {
        return Ok(());
    }
    let unmeasured = unmeasured_records(alloc, report.unmeasured(), account)?;
    add_intervals(records, entry.path(), account, &unmeasured)
}

// Returns the entry of a component, if there is one.
fn entry_at(list: &StartList, component: usize) -> Option<&ListEntry>
    ensures { option_copied result ≡ slice_get list.now.entries component }
{
    list.entries().get(component)
}

// Returns the account's lines that aren't measured, each with the reason.
fn unmeasured_records(
    alloc: Global,
    lines: &[UnmeasuredLine],
    account: &AccountBudgets,
) -> Result<RecordList, AllocError>
    ensures { IfOk result
        (λ records. records_of records ≡ map unmeasured_record (named_lines account.now lines.now)) }
{
    let mut records = RecordList::new(alloc);
    for line in lines {
        if line.is_named_with(account) {
            let reason = line.reason().to_string(alloc)?;
            records.add(&[
                ("line", Cell::Number(line.number)),
                ("reason", Cell::Text(reason.as_bytes())),
            ])?;
        }
    }
    Ok(records)
}

// Adds the intervals of an account of the component of this path.
fn add_intervals<'a>(
    records: &mut RecordList,
    path: &'a [u8],
    account: &'a AccountBudgets,
    unmeasured: &'a RecordList,
) -> Result<(), AllocError>
    ensures { OnOk result (records_of records.new ≡ records_of records.old
        ++ map (interval_record path.now (list_data (records_of unmeasured.now)) account.now) account.now.found.rows.items) }
{
    for row in account.rows() {
        add_interval(records, path, account, row, unmeasured)?;
    }
    Ok(())
}

// Adds an interval of an account of the component of this path.
fn add_interval<'a>(
    records: &mut RecordList,
    path: &'a [u8],
    account: &AccountBudgets,
    row: &BudgetInterval,
    unmeasured: &'a RecordList,
) -> Result<(), AllocError>
    ensures { OnOk result (records_of records.new ≡ records_of records.old
        ++ interval_record path.now (list_data (records_of unmeasured.now)) account.now row.now ∷ []) }
{
    let (selector, line) = session_cells(account.session());
    let (safe_ram, safe_caps) = budget_cells(account.safe());
    records.add(&[
        ("kind", Cell::Word("interval")),
        ("component", Cell::Text(path)),
        ("session", selector),
        ("line", line),
        ("ram_from", Cell::Number(row.ram_from)),
        ("ram_below", Cell::if_number(row.ram_below).or_null()),
        ("caps_from", Cell::Number(row.caps_from)),
        ("unmeasured", Cell::List(unmeasured)),
        ("safe_ram", safe_ram),
        ("safe_caps", safe_caps),
        ("count", Cell::Number(account.count())),
    ])
}

// Adds the sum of the budgets that are written, and the smallest machine for them.
fn add_machine(
    records: &mut RecordList,
    sum: Option<Budget>,
    machine: Option<MachineSize>,
) -> Result<(), AllocError>
    ensures { OnOk result (records_of records.new ≡ records_of records.old
        ++ machine_record (option_map amounts_of sum) machine ∷ []) }
{
    let (ram, caps) = budget_cells(sum);
    let (pages, machine_caps) = size_cells(machine);
    records.add(&[
        ("kind", Cell::Word("machine")),
        ("ram", ram),
        ("caps", caps),
        ("machine_pages", pages),
        ("machine_caps", machine_caps),
    ])
}

// Returns the selector of a session and the line that opens it, or null without a session.
fn session_cells<'a>(session: Option<SessionKey>) -> (Cell<'a>, Cell<'a>)
    ensures selector { cell_data result.0
        ≡ null_if_absent (if_number (option_map (λ key. key.selector) session)) }
    ensures line { cell_data result.1
        ≡ null_if_absent (if_number (option_map (λ key. key.line) session)) }
{
    match session {
        Some(SessionKey { selector, line }) => (Cell::Number(selector), Cell::Number(line)),
        None => (Cell::Null, Cell::Null),
    }
}

// Returns the RAM in bytes and the capabilities of a budget, or null without one.
fn budget_cells<'a>(budget: Option<Budget>) -> (Cell<'a>, Cell<'a>)
    ensures ram { cell_data result.0
        ≡ null_if_absent (if_number (option_map (λ a. a.ram) (option_map amounts_of budget))) }
    ensures caps { cell_data result.1
        ≡ null_if_absent (if_number (option_map (λ a. a.caps) (option_map amounts_of budget))) }
{
    match budget {
        Some(Budget { ram, caps }) => (Cell::Number(ram), Cell::Number(caps)),
        None => (Cell::Null, Cell::Null),
    }
}

// Returns the pages and the capabilities of a machine, or null without one.
fn size_cells<'a>(size: Option<MachineSize>) -> (Cell<'a>, Cell<'a>)
    ensures pages { cell_data result.0
        ≡ null_if_absent (if_number (option_map (λ (s : MachineSize). s.pages) size)) }
    ensures caps { cell_data result.1
        ≡ null_if_absent (if_number (option_map (λ (s : MachineSize). s.caps) size)) }
{
    match size {
        Some(MachineSize { pages, caps }) => (Cell::Number(pages), Cell::Number(caps)),
        None => (Cell::Null, Cell::Null),
    }
}
