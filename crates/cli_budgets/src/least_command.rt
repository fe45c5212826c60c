//! The command `least`: the sufficient budgets of a scenario's accounts.
ghost use Rattle.std.specs.Prelude.{◌≡◌, IfOk};
ghost use Rattle.std.specs.List.{list_all};
ghost use Rattle.cli_base.specs.Statuses.{EndsAs, IsZero};
ghost use Rattle.cli_base.specs.Unfolding.{EndsUnfolded};
ghost use Rattle.cli_budgets.specs.BudgetPrinting.{IsReportIn, format_asked};
ghost use Rattle.cli_budgets.specs.BudgetStatus.{BudgetsEnd, EndsMeasured, LacksReport, is_budgeted, least_status, written_choice};

use crate::budget_records::report_records;
use crate::budget_text::BudgetText;
use budget_least::{
    AccountBudgets, BudgetChoice, BudgetQuery, BudgetReport, JudgeFault, SessionKey,
    UnmeasuredReason,
};
use cli_base::{
    Host, Machine, MachineChoice, OutputStream, Settings, Spot, UNWRITTEN, made_or_status,
    no_memory, plain_writer, report_boot_fault, report_error, scenario_text, status_after,
    status_of, summarize_errors, unfolded,
};
use cli_options::LeastOptions;
use list_parser::{BootFault, StartList};
use run_lines::LineRunFault;
use std::alloc::Global;
use std::io;
use std::io::Write;
use view_diagnostics::{DiagnosticForm, Subject};

// The exit status of a report with an error, a line that isn't measured, or an account without a budget.
const INCOMPLETE: u8 = 3;

// The message about a line that isn't measured although it can be read.
const UNSETTLED: &str = "a name in this line has another value with the minimum budgets";

// The form in which a report is printed.
#[derive(Clone, Copy)]
enum BudgetFormat {
    /// As text.
    Text,
    /// As records of JSON.
    Records,
    /// As the start list with its budgets in place.
    List,
    /// As the scenario with its donations in place.
    Scenario,
    /// Not at all.
    Nothing,
}

impl BudgetFormat {
    ghost use Rattle.std.specs.Prelude.{◌≡◌};
    ghost use Rattle.cli_budgets.specs.BudgetPrinting.{format_asked};

    // Returns the form that the flags of a command line ask for, of a report with this exit status. The first flag that is set decides.
    // A list or a scenario is only printed without an error.
    fn asked(asked: &LeastOptions<'_>, status: u8) -> BudgetFormat
        ensures { result ≡ format_asked asked.now status }
    {
        if asked.json {
            BudgetFormat::Records
        } else if !asked.list && !asked.donations {
            BudgetFormat::Text
        } else if status != 0 {
            BudgetFormat::Nothing
        } else if asked.list {
            BudgetFormat::List
        } else {
            BudgetFormat::Scenario
        }
    }
}

// Returns which of the sufficient budgets a command line asks for.
fn choice_asked(asked: &LeastOptions<'_>) -> BudgetChoice
    ensures { result ≡ written_choice asked.now }
{
    if asked.safe {
        BudgetChoice::Safe
    } else {
        BudgetChoice::Minimum
    }
}

/// Prints the sufficient budgets of a scenario's accounts on its machine. Returns the
/// exit status: 0, 3 if a line isn't measured, 2 if the list is refused.
pub fn print_minimum_budgets<H: Host>(
    host: &H,
    asked: &LeastOptions<'_>,
    settings: Settings<'_>,
) -> u8
    ensures { BudgetsEnd (H.text_at host.now) asked.now settings.entry result }
{
    let list = match MachineChoice::of(host, settings.form, asked.machine, asked.scenario) {
        Ok(list) => list,
        Err(status) => return status,
    };
    let machine = match Machine::read(host, list.path(), settings) {
        Ok(machine) => machine,
        Err(status) => return status,
    };
    match scenario_text(host, settings.form, asked.scenario) {
        Ok(scenario) => least_on(host.rt(), &machine, scenario.as_slice(), asked, settings),
        Err(status) => status,
    }
}

// Computes and prints the budgets for a scenario of a text on a machine. Returns the exit status.
fn least_on(
    rt: &HostRuntime,
    machine: &Machine<'_>,
    text: &[u8],
    asked: &LeastOptions<'_>,
    settings: Settings<'_>,
) -> u8
    ensures { EndsAs (LacksReport machine.now)
        (EndsUnfolded settings.entry text.now
        (EndsMeasured asked.now settings.entry machine.now text.now)) result }
{
    let lines = match unfolded(rt, asked.scenario, text, settings) {
        Ok(lines) => lines,
        Err(status) => return status,
    };
    let start = match settings.start_or_status(rt, lines.marks()) {
        Ok(start) => start,
        Err(status) => return status,
    };
    let again = match made_or_status(rt, start.copy(rt.alloc())) {
        Ok(again) => again,
        Err(status) => return status,
    };
    let question = BudgetQuery {
        list: machine.list(),
        scenario: lines.bytes(),
        choice: choice_asked(asked),
        as_donated: asked.as_donated,
    };
    let report = match BudgetReport::of(rt.alloc(), question, start) {
        Ok(report) => report,
        Err(fault) => return report_boot_fault(rt, settings.form, machine, &fault),
    };
    let subject = Subject {
        file: asked.scenario.as_bytes(),
        form: settings.form,
    };
    let mut stderr = plain_writer(rt, OutputStream::Complained(rt.stderr()));
    match report.write_errors(rt.alloc(), lines.bytes(), again, subject, &mut stderr) {
        Ok(errors) => {
            let status = report_status(rt, settings.form, asked, &report, errors);
            print_report(rt, machine.text(), text, asked, &report, status)
        }
        Err(JudgeFault::Boot(fault)) => report_boot_fault(rt, settings.form, machine, &fault),
        Err(JudgeFault::Run(LineRunFault::NoMemory)) => no_memory(rt),
        Err(JudgeFault::Run(_)) => UNWRITTEN,
    }
}

// Prints which names have other values, which accounts no budget suffices for, and how many errors there are with those that are
// written already. Returns the exit status of the report.
fn report_status(
    rt: &HostRuntime,
    form: DiagnosticForm,
    asked: &LeastOptions<'_>,
    report: &BudgetReport<'_>,
    errors: u64,
) -> u8
    ensures { result ≡ least_status asked.now errors report.now }
{
    let choice = choice_asked(asked);
    let is_complete = errors == 0
        && report.unmeasured().is_empty()
        && have_budgets(report.accounts(), choice);
    let mut reported = errors;
    for line in report.unmeasured() {
        if line.why == UnmeasuredReason::Unsettled {
            let spot = Spot::byte(asked.scenario, line.number, 1);
            report_error(rt, form, spot, &UNSETTLED);
            reported = reported.saturating_add(1);
        }
    }
    for account in report.accounts() {
        if !has_budget(account, choice) {
            report_lacking(rt, form, asked.scenario, report.list(), account);
            reported = reported.saturating_add(1);
        }
    }
    summarize_errors(rt, form, reported);
    if is_complete { 0 } else { INCOMPLETE }
}

// Returns whether each account has a budget that is written.
fn have_budgets(accounts: &[AccountBudgets], choice: BudgetChoice) -> bool
    ensures { result ≡ list_all (is_budgeted choice) accounts.now }
{
    accounts.iter().all(|account| has_budget(account, choice))
}

// Returns whether an account has a budget that is written.
fn has_budget(account: &AccountBudgets, choice: BudgetChoice) -> bool
    ensures { result ≡ is_budgeted choice account.now }
{
    account.chosen(choice).is_some()
}

// Prints that an account has no budget that can be written.
fn report_lacking(
    rt: &HostRuntime,
    form: DiagnosticForm,
    scenario: &str,
    list: &StartList,
    account: &AccountBudgets,
) {
    let Some(entry) = list.entries().get(account.component()) else {
        return;
    };
    let path = entry.to_path();
    let verb = if account.least().is_some() {
        "is safe"
    } else {
        "suffices"
    };
    match account.session() {
        Some(SessionKey { selector, line }) => report_error(
            rt,
            form,
            Spot::byte(scenario, line, 1),
            &format_args!("no budget {verb} for session {selector} of `{path}`"),
        ),
        None => report_error(
            rt,
            form,
            Spot::file(scenario),
            &format_args!("no budget {verb} for `{path}`"),
        ),
    }
}

// Prints a report of this status. Returns the exit status.
fn print_report(
    rt: &HostRuntime,
    machine: &[u8],
    text: &[u8],
    asked: &LeastOptions<'_>,
    report: &BudgetReport<'_>,
    status: u8,
) -> u8
    ensures { EndsAs ⊥ (λ printed. printed ≡ status) result }
{
    let format = BudgetFormat::asked(asked, status);
    let printed = match rendered(rt.alloc(), format, report, machine, text) {
        Ok(text) => status_of(rt, io::writer(rt).write_all(text.as_slice())),
        Err(BootFault::NoMemory) => no_memory(rt),
        Err(fault) => {
            let message = format_args!("the list with these budgets: {fault}");
            report_error(rt, DiagnosticForm::Text, Spot::nowhere(), &message);
            UNWRITTEN
        }
    };
    status_after(printed, status)
}

// Renders a report in a form: as a text of its own, in a start list of this text, or in a scenario of this text. The error is the
// reason why that fails.
fn rendered(
    alloc: Global,
    format: BudgetFormat,
    report: &BudgetReport<'_>,
    machine: &[u8],
    scenario: &[u8],
) -> Result<Vec<u8>, BootFault>
    ensures { IfOk result (λ text. IsReportIn format report.now machine.now scenario.now text.items) }
{
    match format {
        BudgetFormat::Text => Ok(BudgetText(report).to_string(alloc)?.into_bytes()),
        BudgetFormat::Records => Ok(report_records(alloc, report)?.to_json()?),
        BudgetFormat::List => report.start_list(alloc, machine),
        BudgetFormat::Scenario => Ok(report.scenario(alloc, scenario)?),
        BudgetFormat::Nothing => Ok(Vec::new(alloc)),
    }
}
