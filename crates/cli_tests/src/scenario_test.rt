//! Scenarios that are run as tests, each on its machine.
ghost use Rattle.std.specs.Prelude.{◌≡◌, ◌&&◌, ◌==◌, false, map, ℕ, List, IfOk};
ghost use Rattle.std.specs.Borrow.{Bor};
ghost use Rattle.std.specs.List.{list_any, slice_split};
ghost use Rattle.std.specs.Option.{option_copied};
ghost use Rattle.line_rounds.specs.Views.{whole_view};
ghost use Rattle.cli_base.specs.ListFailures.{lacks_memory};
ghost use Rattle.cli_tests.specs.ScenarioTest.{IsFileResult, IsFound, IsMachineResult, IsScenarioResult, IsTextResult, IsUnfoldedResult, IsUnreadResult, has_call, is_call};

use crate::coverage_printer::CoveragePrinter;
use crate::file_presence::may_exist;
use crate::policy_test::add_error;
use crate::scenario_run::{TestCase, failed, test_lines};
use cli_base::{
    Host, Machine, Origin, ReadFailure, Settings, Spot, StartListFailure, UNWRITTEN,
    diagnostic_line, error_line, machine_path, read_whole, rounds_spot, rounds_token,
};
use cli_options::TestOptions;
use line_friendly::trimmed_line;
use line_rounds::{UnfoldError, UnfoldedText, unfold};
use std::alloc::{AllocError, Global};
use view_diagnostics::Severity;
use view_test_report::TestResult;

/// The note on a scenario that runs on the built-in machine.
const BUILT_IN: &str = "no start list is next to this scenario, so it runs on the built-in machine";

/// What all tests have in common.
#[derive(Clone, Copy)]
pub(crate) struct TestConditions<'a> {
    /// The arguments of the command line.
    pub(crate) asked: &'a TestOptions<'a>,
    /// The settings of the command line.
    pub(crate) settings: Settings<'a>,
    /// The machine of scenarios without a start list of their own.
    pub(crate) other: &'a Result<Machine<'a>, StartListFailure<'a>>,
}

/// Runs a scenario on its machine: the one of the start list next to it if there is one, else the other one. Adds its coverage if
/// that is asked for. The error is out of memory.
pub(crate) fn test_scenario<H: Host>(
    host: &H,
    scenario: &str,
    conditions: TestConditions<'_>,
    coverings: &mut CoveragePrinter,
) -> Result<TestResult, AllocError>
    requires { IsFound (H.text_at host.now) conditions.settings
        (option_copied conditions.asked.now.machine) conditions.other.now }
    ensures { IfOk result (λ test. IsScenarioResult (H.text_at host.now) conditions.entry.settings
        (option_copied conditions.entry.asked.now.machine) scenario.now test.passed) }
{
    let list = machine_path(host.rt().alloc(), scenario)?;
    if !may_exist(host, list.as_str()) {
        let trial = test_on(host, scenario, conditions.other, conditions, coverings)?;
        return noted(host.rt(), conditions.asked.machine, trial);
    }
    let machine = Machine::find(host, Some(list.as_str()), conditions.settings);
    test_on(host, scenario, &machine, conditions, coverings)
}

// Returns the result of a scenario without a start list next to it, with a note if the command line names none.
fn noted(
    rt: &HostRuntime,
    machine: Option<&str>,
    trial: TestResult,
) -> Result<TestResult, AllocError>
    ensures { IfOk result (λ test. test.passed ≡ trial.passed) }
{
    if machine.is_some() {
        return Ok(trial);
    }
    let told = noted_report(rt, &trial)?;
    Ok(TestResult {
        name: trial.name,
        passed: trial.passed,
        told,
    })
}

// Returns the report on a run, and the note that it is one on the built-in machine.
fn noted_report(rt: &HostRuntime, trial: &TestResult) -> Result<Vec<u8>, AllocError> {
    let mut report = Vec::new(rt.alloc());
    report.extend_from_slice(trial.told.as_slice())?;
    let spot = Spot::file(trial.name.as_str());
    let note = diagnostic_line(rt, Severity::Note, spot, &BUILT_IN)?;
    report.extend_from_slice(note.as_slice())?;
    Ok(report)
}

// Runs a scenario on a machine. The test fails if the machine's start list has a fault.
fn test_on<H: Host>(
    host: &H,
    scenario: &str,
    machine: &Result<Machine<'_>, StartListFailure<'_>>,
    conditions: TestConditions<'_>,
    coverings: &mut CoveragePrinter,
) -> Result<TestResult, AllocError>
    ensures { IfOk result (λ test. IsMachineResult (H.text_at host.now) conditions.entry.settings
        machine.now scenario.now test.passed) }
{
    match machine {
        Ok(machine) => {
            let case = TestCase {
                scenario,
                machine,
                list: machine.list(),
                settings: conditions.settings,
            };
            test_file(host, case, coverings)
        }
        Err(failure) => without_machine(host.rt(), scenario, failure),
    }
}

// Returns the result of a scenario whose machine's start list has a fault. Fails if the host was out of memory for the list.
fn without_machine(
    rt: &HostRuntime,
    scenario: &str,
    failure: &StartListFailure<'_>,
) -> Result<TestResult, AllocError>
    ensures { IfOk result (λ test. (lacks_memory failure.now ≡ false) × (test.passed ≡ false)) }
{
    if lacks_memory(failure) {
        return Err(AllocError);
    }
    failed(rt, scenario, error_line(rt, failure.spot(), failure)?)
}

/// Returns whether the host was out of memory for a start list.
pub(crate) fn lacks_memory(failure: &StartListFailure<'_>) -> bool
    ensures { result ≡ lacks_memory failure.now }
{
    failure.exit_status() == UNWRITTEN
}

// Runs the scenario of a file.
fn test_file<H: Host>(
    host: &H,
    case: TestCase<'_>,
    coverings: &mut CoveragePrinter,
) -> Result<TestResult, AllocError>
    ensures { IfOk result (λ test. IsFileResult (H.text_at host.now) case.entry.settings
        case.entry.list.now case.entry.scenario.now test.passed) }
{
    match read_whole(host, case.scenario)? {
        Some(text) => test_text(host, case, &text, coverings),
        None => test_unread(host, case, coverings),
    }
}

// Runs the lines of a file that isn't read whole, without its rounds unfolded.
fn test_unread<H: Host>(
    host: &H,
    case: TestCase<'_>,
    coverings: &mut CoveragePrinter,
) -> Result<TestResult, AllocError>
    ensures { IfOk result (λ test. IsUnreadResult (H.text_at host.now) case.entry.settings
        case.entry.list.now case.entry.scenario.now test.passed) }
{
    let rt = host.rt();
    let scenario = case.scenario;
    match host.open(scenario) {
        Ok(file) => test_lines(rt, case, Origin::File(file), &[], coverings),
        Err(error) => {
            let unread = ReadFailure::Closed(error);
            let report = error_line(rt, Spot::nowhere(), &unread.about(scenario))?;
            failed(rt, scenario, report)
        }
    }
}

// Runs a scenario of a text, with its rounds unfolded.
#[tactic(auto, unfolding(cli_base::specs::Unfolding::rounds_of))]
fn test_text<H: Host>(
    host: &H,
    case: TestCase<'_>,
    text: &[u8],
    coverings: &mut CoveragePrinter,
) -> Result<TestResult, AllocError>
    ensures { IfOk result (λ test. IsTextResult case.entry.settings case.entry.list.now
        text.now test.passed) }
{
    let rt = host.rt();
    let scenario = case.scenario;
    match unfold(rt.alloc(), text, case.settings.known(rt.alloc())?) {
        Ok(lines) => test_unfolded(host, case, &lines, coverings),
        Err(UnfoldError::Fault(fault)) => {
            let token = rounds_token(rt, text, fault)?;
            let message = fault.reason.about(token.as_str());
            let report = error_line(rt, rounds_spot(scenario, fault), &message)?;
            failed(rt, scenario, report)
        }
        Err(UnfoldError::NoMemory) => Err(AllocError),
    }
}

// Runs the unfolded lines of a scenario's text.
fn test_unfolded<H: Host>(
    host: &H,
    case: TestCase<'_>,
    lines: &UnfoldedText<'_>,
    coverings: &mut CoveragePrinter,
) -> Result<TestResult, AllocError>
    ensures { IfOk result (λ test. IsUnfoldedResult case.entry.settings case.entry.list.now
        (whole_view lines.now) test.passed) }
{
    let rt = host.rt();
    let origin: Origin<'_, H::File> = Origin::Held(lines.bytes());
    let run = test_lines(rt, case, origin, lines.marks(), coverings)?;
    with_call(rt, lines.bytes(), run)
}

// Returns the result of a scenario of unfolded lines. The test fails if no line is a call.
fn with_call(rt: &HostRuntime, text: &[u8], trial: TestResult) -> Result<TestResult, AllocError>
    ensures { IfOk result (λ test. test.passed ≡ (trial.passed && has_call text.now)) }
{
    let found = has_call(rt.alloc(), text)?;
    let told = report_of(rt, &trial, found)?;
    Ok(TestResult {
        name: trial.name,
        passed: trial.passed && found,
        told,
    })
}

// Returns the report on a run, after an error if no line is a call.
fn report_of(rt: &HostRuntime, trial: &TestResult, found: bool) -> Result<Vec<u8>, AllocError> {
    let mut report = Vec::new(rt.alloc());
    if !found {
        let message = "expected at least one call, found none";
        add_error(rt, &mut report, Spot::file(trial.name.as_str()), &message)?;
    }
    report.extend_from_slice(trial.told.as_slice())?;
    Ok(report)
}

// Returns whether a line of a text is a call. The error is out of memory.
fn has_call(alloc: Global, text: &[u8]) -> Result<bool, AllocError>
    ensures { IfOk result (λ found. found ≡ has_call text.now) }
{
    let lines = lines_of(alloc, text)?;
    Ok(any_call(&lines))
}

// Returns the lines of a text, without newlines. The error is out of memory.
fn lines_of(alloc: Global, text: &[u8]) -> Result<Vec<&[u8]>, AllocError>
    ensures { IfOk result (λ lines. map (λ line. line.now) lines.items ≡ slice_split (λ b. b == 10) text.now) }
{
    text.split(|byte| *byte == b'\n').collect(alloc)
}

// Returns whether one of these lines is a call.
fn any_call(lines: &[&[u8]]) -> bool
    ensures { result ≡ list_any (λ (line : Bor (List ℕ)). is_call line.now) lines.now }
{
    lines.iter().any(|line| is_call(line))
}

// Returns whether a line is a call: neither blank nor a comment, a directive or an expected log line.
fn is_call(line: &[u8]) -> bool
    ensures { result ≡ is_call line.now }
{
    let text = trimmed_line(line);
    match text.first() {
        None | Some(b'#' | b'@' | b'\r') => false,
        Some(_) => !text.starts_with(b"=> "),
    }
}
