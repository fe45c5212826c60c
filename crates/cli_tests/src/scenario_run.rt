//! The run of a scenario's lines as a test: how it ends, its diagnostics and its coverage.
ghost use Rattle.std.specs.Prelude.{◌≡◌, false, IfOk};
ghost use Rattle.cli_base.specs.Origins.{origin_bytes};
ghost use Rattle.cli_tests.specs.ScenarioTest.{EndsRun, PassesBy, fault_lacks_memory, run_lacks_memory, start_by};

use crate::coverage_printer::CoveragePrinter;
use crate::policy_test::add_error;
use cli_base::{
    Machine, Origin, OutputStream, Settings, Spot, StopMessage, fault_spot, plain_writer,
    silent_reader, spot_of, text_of,
};
use line_names::RoundMark;
use list_parser::{BootFault, StartList};
use list_review::Review;
use run_lines::LineRunFault;
use run_scenario::{ScenarioEnd, ScenarioInput, exit_status};
use std::alloc::AllocError;
use std::io::Read;
use view_diagnostics::DiagnosticForm;
use view_runs::{TranscriptOptions, answers, run};
use view_test_report::TestResult;

/// The view of a run that a test takes: all replies, without accounts and line numbers.
const REPLIES: TranscriptOptions<'static> = TranscriptOptions {
    only: None,
    accounts: false,
    numbers: false,
};

/// A scenario, on a machine.
#[derive(Clone, Copy)]
pub(crate) struct TestCase<'a> {
    /// The path of the scenario.
    pub(crate) scenario: &'a str,
    /// The machine.
    pub(crate) machine: &'a Machine<'a>,
    /// The start list of the machine.
    pub(crate) list: &'a StartList,
    /// The settings of the command line.
    pub(crate) settings: Settings<'a>,
}

// A run whose diagnostics are kept.
#[derive(Drop)]
struct TestRun {
    // The ending of the run.
    ended: Result<ScenarioEnd, BootFault>,
    // The diagnostics of the run.
    text: Vec<u8>,
}

impl TestRun {
    ghost use Rattle.std.specs.Prelude.{◌≡◌, false, IfOk};
    ghost use Rattle.cli_tests.specs.ScenarioTest.{is_answered, run_lacks_memory};

    // Returns a run that ended, with its diagnostics. Fails if the host was out of memory for the run.
    fn new(ended: Result<ScenarioEnd, BootFault>, text: Vec<u8>) -> Result<TestRun, AllocError>
        ensures ended { IfOk result (λ run. run.ended ≡ ended) }
        ensures memory { IfOk result (λ run. run_lacks_memory ended ≡ false) }
    {
        if lacks_memory(&ended) {
            return Err(AllocError);
        }
        Ok(TestRun { ended, text })
    }

    // Returns the result of the test of this name.
    fn into_result(self, name: String) -> TestResult
        ensures { result.passed ≡ is_answered self.ended }
    {
        TestResult {
            name,
            passed: exit_status(&self.ended) == 0,
            told: self.text,
        }
    }
}

// Returns whether the host was out of memory for a run: its machine, its lines or its diagnostics.
fn lacks_memory(ended: &Result<ScenarioEnd, BootFault>) -> bool
    ensures { result ≡ run_lacks_memory ended.now }
{
    match ended {
        Ok(ending) => fault_lacks_memory(ending.fault),
        Err(fault) => matches!(fault, BootFault::NoMemory),
    }
}

// Returns whether a run was stopped since the host is out of memory. What a test writes is kept in memory.
fn fault_lacks_memory(fault: Option<LineRunFault>) -> bool
    ensures { result ≡ fault_lacks_memory fault }
{
    match fault {
        Some(LineRunFault::WriteFault | LineRunFault::NoMemory) => true,
        Some(LineRunFault::ReadFault | LineRunFault::TooManyLines) | None => false,
    }
}

/// Runs the lines of a source with these round marks as a test. Adds the coverage if that is asked for. The error is out of memory.
pub(crate) fn test_lines<F: Read + Drop>(
    rt: &HostRuntime,
    case: TestCase<'_>,
    origin: Origin<'_, F>,
    marks: &[RoundMark],
    coverings: &mut CoveragePrinter,
) -> Result<TestResult, AllocError>
    ensures { IfOk result (λ test. PassesBy case.entry.settings case.entry.list.now marks.now
        (origin_bytes F.remaining origin.entry) test.passed) }
{
    let mut run = run_lines(rt, case, origin, marks, coverings)?;
    add_end(rt, case, &run.ended, &mut run.text)?;
    let name = String::from_str(rt.alloc(), case.scenario)?;
    Ok(run.into_result(name))
}

// Runs the lines of a source, and keeps its diagnostics. Adds the coverage if that is asked for.
fn run_lines<F: Read + Drop>(
    rt: &HostRuntime,
    case: TestCase<'_>,
    origin: Origin<'_, F>,
    marks: &[RoundMark],
    coverings: &mut CoveragePrinter,
) -> Result<TestRun, AllocError>
    ensures ends { IfOk result (λ run. EndsRun case.entry.list.now (start_by case.entry.settings marks.now)
        (origin_bytes F.remaining origin.entry) run.ended) }
    ensures memory { IfOk result (λ run. run_lacks_memory run.ended ≡ false) }
{
    let input = ScenarioInput {
        list: case.list,
        scenario: Settings::without_values(DiagnosticForm::Text).subject(case.scenario),
        start: case.settings.start(rt.alloc(), marks)?,
    };
    let mut reader = silent_reader(origin);
    let mut complaints = plain_writer(rt, OutputStream::text(rt));
    let mut nowhere = plain_writer(rt, OutputStream::Dropped);
    if !coverings.are_asked() {
        let ended = run(
            rt.alloc(),
            input,
            REPLIES,
            &mut reader,
            &mut nowhere,
            &mut complaints,
        );
        return TestRun::new(ended, text_of(rt, complaints));
    }
    match answers(
        rt.alloc(),
        input,
        &mut reader,
        &mut nowhere,
        &mut complaints,
    ) {
        Ok(answered) => {
            let exchanges = answered.exchanges.as_slice();
            coverings.add(rt, case, exchanges)?;
            TestRun::new(Ok(answered.ending), text_of(rt, complaints))
        }
        Err(fault) => TestRun::new(Err(fault), text_of(rt, complaints)),
    }
}

// Adds the fault of a run that didn't begin or was stopped.
fn add_end(
    rt: &HostRuntime,
    case: TestCase<'_>,
    ended: &Result<ScenarioEnd, BootFault>,
    report: &mut Vec<u8>,
) -> Result<(), AllocError> {
    match ended {
        Ok(ending) => match ending.fault {
            Some(fault) => {
                let spot = spot_of(case.scenario, ending.lines, fault);
                add_error(rt, report, spot, &StopMessage(fault))
            }
            None => Ok(()),
        },
        Err(fault) => add_unbooted(rt, case.machine, fault, report),
    }
}

// Adds why no machine was booted, with the place in its start list if that is a file's.
fn add_unbooted(
    rt: &HostRuntime,
    machine: &Machine<'_>,
    fault: &BootFault,
    report: &mut Vec<u8>,
) -> Result<(), AllocError> {
    if let Some(path) = machine.path() {
        if let Err(fault) = Review::read(rt.alloc(), machine.text()) {
            return add_error(rt, report, fault_spot(path, &fault), &fault);
        }
    }
    add_error(rt, report, Spot::nowhere(), &format_args!("boot: {fault}"))
}

/// Returns the result of a scenario that failed before its first line, with this report. The error is out of memory.
pub(crate) fn failed(
    rt: &HostRuntime,
    scenario: &str,
    report: Vec<u8>,
) -> Result<TestResult, AllocError>
    ensures { IfOk result (λ test. test.passed ≡ false) }
{
    Ok(TestResult {
        name: String::from_str(rt.alloc(), scenario)?,
        passed: false,
        told: report,
    })
}
