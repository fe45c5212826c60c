//! The runs of scenarios on two start lists: needs that aren't covered any more, and replies that differ.
ghost use Rattle.std.specs.Prelude.{◌≡◌, ◌++◌, map, None, IfErr, IfOk, OnOk};
ghost use Rattle.std.specs.List.{flat_map};
ghost use Rattle.std.specs.Option.{option_copied, option_map};
ghost use Rattle.budget_least.specs.Report.{accounts_of};
ghost use Rattle.budget_least.specs.ComponentAccounts.{amounts_of};
ghost use Rattle.budget_search.specs.BudgetIntervals.{lowest_of};
ghost use Rattle.line_rounds.specs.Views.{whole_view};
ghost use Rattle.list_diff.specs.LineResults.{call_in};
ghost use Rattle.cli_lists.specs.ComparedRuns.{AreNeedsOn, answers_on, need_at, need_if, need_of, needs_by, quota_of, results_by, start_by};

use crate::diff_files::ListFile;
use budget_least::{AccountBudgets, Budget, BudgetChoice, BudgetQuery, BudgetReport};
use cli_base::{
    Host, Origin, OutputStream, Printing, Settings, Spot, StopMessage, UNWRITTEN, made_or_status,
    plain_writer, report_error, spot_of, watched_reader,
};
use line_rounds::UnfoldedText;
use line_steps::RunPosition;
use list_diff::{BreachChange, ComponentNeed, LineResult, QuotaAmounts, line_results};
use list_parser::{BootFault, ListEntry, StartList};
use list_reach::pieces;
use run_exchanges::Exchange;
use run_lines::LineRunFault;
use run_scenario::ScenarioInput;
use std::alloc::{AllocError, Global};
use view_diagnostics::DiagnosticForm;
use view_runs::{AnswerList, answers};

/// What is run on one side: a scenario, by its path and its unfolded text, on a start list.
#[derive(Clone, Copy)]
pub(crate) struct RunInput<'a> {
    /// The start list.
    pub(crate) file: ListFile<'a>,
    /// The path of the scenario.
    pub(crate) path: &'a str,
    /// The unfolded text of the scenario.
    pub(crate) lines: &'a UnfoldedText<'a>,
}

impl<'a> RunInput<'a> {
    /// Returns what is run: a scenario on a start list.
    pub(crate) fn new(
        file: ListFile<'a>,
        path: &'a str,
        lines: &'a UnfoldedText<'a>,
    ) -> RunInput<'a>
        ensures list { result.file.list.now ≡ file.entry.list.now }
        ensures lines { result.lines.now ≡ lines.now }
    {
        RunInput { file, path, lines }
    }

    // Returns the state before the first line. If the host is out of memory, prints that and returns the exit status 1.
    fn start(self, rt: &HostRuntime, settings: Settings<'_>) -> Result<RunPosition<'a>, u8>
        ensures start { IfOk result
            (λ start. start ≡ start_by settings.entry (whole_view self.entry.lines.now)) }
        ensures failed { IfErr result (λ status. status ≡ 1) }
    {
        settings.start_or_status(rt, self.lines.marks())
    }
}

/// What is run on both sides, and the breaches of a policy that one list alone has.
#[derive(Clone, Copy)]
pub(crate) struct RunPair<'a> {
    /// What is run before the change.
    pub(crate) was: RunInput<'a>,
    /// What is run after the change.
    pub(crate) now: RunInput<'a>,
    /// The breaches that one list alone has.
    pub(crate) breaches: &'a [BreachChange<'a>],
}

impl<'a> RunPair<'a> {
    /// Returns what is run on both sides, with these breaches.
    pub(crate) fn new(
        was: RunInput<'a>,
        now: RunInput<'a>,
        breaches: &'a [BreachChange<'a>],
    ) -> RunPair<'a>
        ensures before { result.was.file.list.now ≡ was.entry.file.list.now }
        ensures was { result.was.lines.now ≡ was.entry.lines.now }
        ensures after { result.now.file.list.now ≡ now.entry.file.list.now }
        ensures now { result.now.lines.now ≡ now.entry.lines.now }
        ensures breaches { result.breaches.now ≡ breaches.now }
    {
        RunPair { was, now, breaches }
    }
}

/// Returns the calls of a scenario with their replies on a list that boots. If the scenario can't be run to its end, prints why and
/// returns the exit status 1. Expectations of the scenario are ignored.
pub(crate) fn answers_on<'a, H: Host>(
    host: &'a H,
    run: RunInput<'a>,
    settings: Settings<'_>,
) -> Result<Vec<Exchange>, u8>
    ensures answers { IfOk result (λ answered. answered.items ≡
        answers_on settings.entry run.entry.file.list.now (whole_view run.entry.lines.now)) }
    ensures failed { IfErr result (λ status. status ≡ 1) }
{
    let rt = host.rt();
    let start = run.start(rt, settings)?;
    let input = ScenarioInput {
        list: run.file.list,
        scenario: settings.subject(run.path),
        start,
    };
    let origin: Origin<'_, H::File> = Origin::Held(run.lines.bytes());
    let mut reader = watched_reader(rt, origin, Printing::Afterwards);
    let mut nowhere = plain_writer(rt, OutputStream::Dropped);
    let mut complaints = plain_writer(rt, OutputStream::Dropped);
    let form = settings.form;
    match answers(
        rt.alloc(),
        input,
        &mut reader,
        &mut nowhere,
        &mut complaints,
    ) {
        Ok(answered) => all_answered(rt, form, run.path, answered),
        Err(fault) => Err(report_unbooted(rt, form, run.file.path, &fault)),
    }
}

// Returns the answered calls of a run to its end. If the run stopped before, prints why and returns the exit status 1.
fn all_answered(
    rt: &HostRuntime,
    form: DiagnosticForm,
    path: &str,
    answered: AnswerList,
) -> Result<Vec<Exchange>, u8>
    ensures ended { IfOk result (λ found.
        (answered.ending.fault ≡ None) × (found.items ≡ answered.exchanges.items)) }
    ensures failed { IfErr result (λ status. status ≡ 1) }
{
    match answered.ending.fault {
        Some(fault) => Err(report_stopped(rt, form, path, answered.ending.lines, fault)),
        None => Ok(answered.exchanges),
    }
}

/// Returns what came of each line of a scenario on a list, by its answered calls there. If the host is out of memory, prints that
/// and returns the exit status.
pub(crate) fn results_on<'a>(
    rt: &HostRuntime,
    run: RunInput<'a>,
    exchanges: &'a [Exchange],
    settings: Settings<'_>,
) -> Result<Vec<LineResult<'a>>, u8>
    ensures results { IfOk result (λ results. map call_in results.items ≡
        results_by settings.entry (whole_view run.entry.lines.now) exchanges.now) }
    ensures failed { IfErr result (λ status. status ≡ 1) }
{
    let start = run.start(rt, settings)?;
    let lines = made_or_status(rt, pieces(rt.alloc(), run.lines.bytes(), b'\n'))?;
    let results = line_results(rt.alloc(), start, lines.as_slice(), exchanges);
    made_or_status(rt, results)
}

/// Returns the minimum budgets that the components of a list that boots need for a scenario. If they can't be computed, prints why and
/// returns the exit status 1. The scenario itself states the donations of sessions, so they aren't computed.
pub(crate) fn needs<'a>(
    rt: &HostRuntime,
    run: RunInput<'a>,
    settings: Settings<'_>,
) -> Result<Vec<ComponentNeed<'a>>, u8>
    ensures needs { IfOk result (λ needs. AreNeedsOn settings.entry run.entry.file.list.now
        (whole_view run.entry.lines.now) needs.items) }
    ensures failed { IfErr result (λ status. status ≡ 1) }
{
    let alloc = rt.alloc();
    let list = run.file.list;
    let start = run.start(rt, settings)?;
    let question = BudgetQuery {
        list,
        scenario: run.lines.bytes(),
        choice: BudgetChoice::Minimum,
        as_donated: true,
    };
    match BudgetReport::of(alloc, question, start) {
        Ok(report) => made_or_status(rt, component_needs(alloc, &report, list)),
        Err(fault) => Err(report_unbooted(rt, settings.form, run.file.path, &fault)),
    }
}

// Returns the needs of the components' own accounts by a report.
fn component_needs<'a>(
    alloc: Global,
    report: &BudgetReport<'_>,
    list: &'a StartList,
) -> Result<Vec<ComponentNeed<'a>>, AllocError>
    ensures { IfOk result
        (λ needs. map need_at needs.items ≡ flat_map (needs_by list.now) (accounts_of report.now)) }
{
    let mut needs = Vec::new(alloc);
    let accounts = report.accounts();
    for account in accounts {
        add_need(&mut needs, account, list)?;
    }
    Ok(needs)
}

// Adds the need of a component by its own account. Adds nothing if the account is that of a session.
fn add_need<'a>(
    needs: &mut Vec<ComponentNeed<'a>>,
    account: &AccountBudgets,
    list: &'a StartList,
) -> Result<(), AllocError>
    ensures { OnOk result
        (map need_at needs.new.items ≡ map need_at needs.old.items ++ needs_by list.now account.now) }
{
    let entry = list.entries().get(account.component());
    add_need_if(needs, account, account.session().is_some(), entry)
}

// Adds the need of a component by an account, if the component is there. Adds nothing if the account is that of a session.
fn add_need_if<'a>(
    needs: &mut Vec<ComponentNeed<'a>>,
    account: &AccountBudgets,
    is_session: bool,
    entry: Option<&'a ListEntry>,
) -> Result<(), AllocError>
    ensures { OnOk result (map need_at needs.new.items ≡ map need_at needs.old.items
        ++ need_if account.now is_session (option_copied entry.entry)) }
{
    if is_session {
        return Ok(());
    }
    match entry {
        Some(entry) => {
            needs.push(need_of(account, entry))?;
            Ok(())
        }
        None => Ok(()),
    }
}

// Returns the budget and the need of a component's account.
fn need_of<'a>(account: &AccountBudgets, entry: &'a ListEntry) -> ComponentNeed<'a>
    ensures { need_at result ≡ need_of account.now entry.now }
{
    let given = account.given();
    ComponentNeed {
        name: entry.path(),
        has: quota_of(given.budget),
        needs: least_of(account),
        is_covered: given.refused.is_none(),
    }
}

// Returns the minimum budget of an account in the form of differences, if there is one.
fn least_of(account: &AccountBudgets) -> Option<QuotaAmounts>
    ensures { result ≡ option_map quota_of (lowest_of account.now.found.rows.items) }
{
    account.least().map(quota_of)
}

// Returns a budget in the form of differences.
fn quota_of(budget: Budget) -> QuotaAmounts
    ensures { result ≡ quota_of (amounts_of budget) }
{
    QuotaAmounts {
        ram: budget.ram,
        caps: budget.caps,
    }
}

// Prints why runs on a list that boots can't begin, and returns the exit status.
fn report_unbooted(rt: &HostRuntime, form: DiagnosticForm, path: &str, fault: &BootFault) -> u8
    ensures { result ≡ 1 }
{
    report_error(rt, form, Spot::file(path), fault);
    UNWRITTEN
}

// Prints the fault that stopped a run after so many lines, and returns the exit status.
fn report_stopped(
    rt: &HostRuntime,
    form: DiagnosticForm,
    path: &str,
    lines: u64,
    fault: LineRunFault,
) -> u8
    ensures { result ≡ 1 }
{
    report_error(rt, form, spot_of(path, lines, fault), &StopMessage(fault));
    UNWRITTEN
}
