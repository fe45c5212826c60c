//! The command `test`: scenarios are run and policies are checked as tests, and their results are printed.
ghost use Rattle.std.specs.Prelude.{◌≡◌, ◌⊎◌, ◌<◌, ◌++◌, false, length, map, IfErr, IfNone, IfOk, IfSome, IsSomeAnd, OnErr, OnOk};
ghost use Rattle.std.specs.Option.{option_copied};
ghost use Rattle.cli_base.specs.Given.{HasUnread};
ghost use Rattle.cli_base.specs.Statuses.{EndsAs};
ghost use Rattle.cli_tests.specs.Outcome.{AreResults, AsksFor, HasResults, IsNoPercentage, IsPercentage, IsResultOf, IsShortBy, LacksTests, TestsEnd, given_paths, outcome_status, search_lacks_memory};
ghost use Rattle.cli_tests.specs.Plan.{AreSelected, path_of};
ghost use Rattle.cli_tests.specs.ScenarioTest.{IsFound};

use crate::coverage_printer::CoveragePrinter;
use crate::file_search::{SearchFailure, files_at};
use crate::input_check::check_inputs;
use crate::list_test::test_list;
use crate::other_files::OtherFiles;
use crate::planned_test::{PlannedTest, planned_tests, select_tests};
use crate::policy_test::test_policy;
use crate::scenario_test::{TestConditions, test_scenario};
use cli_base::{
    Host, Machine, REFUSED, Settings, Spot, UNWRITTEN, report_error, report_write_failure,
    status_of, unread_argument, write_file,
};
use cli_options::TestOptions;
use std::alloc::{AllocError, Global};
use std::io;
use std::io::{IsTerminal, Write};
use std::time::{Duration, Instant};
use view_colors::{Lines, paint};
use view_diagnostics::DiagnosticForm;
use view_test_report::{TestResult, TimedResult, failures, junit_document, tap_plan, tap_point};

/// The exit status if a scenario isn't answered as it expects, or a policy isn't kept.
const FAILED: u8 = 3;

// The options of a run of tests.
#[derive(Clone, Copy)]
struct TestSettings<'a> {
    // The arguments of the command line.
    asked: &'a TestOptions<'a>,
    // The settings of the command line.
    settings: Settings<'a>,
    // Whether lines are coloured.
    colored: bool,
    // The percentage of rules and session requests that scenarios must cover, or none.
    threshold: Option<u8>,
    // The files of folders that no test uses.
    others: &'a OtherFiles,
}

// The results of all tests, and whether scenarios cover less than the options ask for.
#[derive(Drop)]
struct TestOutcome {
    trials: Vec<TimedResult>,
    falls_short: bool,
}

impl TestOutcome {
    ghost use Rattle.std.specs.Prelude.{◌≡◌};
    ghost use Rattle.cli_tests.specs.Outcome.{outcome_status};

    // Returns the exit status: 3 if a test failed or less is covered than asked for, else 0.
    fn exit_status(&self) -> u8
        ensures { result ≡ outcome_status self.now }
    {
        if failures(self.trials.as_slice()) > 0 || self.falls_short {
            FAILED
        } else {
            0
        }
    }
}

/// Runs the scenarios of all paths, each on the start list next to it or on that of `--machine`, and checks each policy against the
/// start list next to it. With filters only the tests are run whose paths have one of their texts. Prints a line for each test, and
/// writes a JUnit document if one is asked for. Returns the exit status: 0, 3 if a test failed or less is covered than asked for, 2 if
/// no test is found or the threshold is refused, 1 if the host is out of memory or a result can't be written, 141 if nobody reads the
/// results.
pub fn run_tests<'a, H: Host>(
    host: &H,
    asked: &'a TestOptions<'a>,
    settings: Settings<'a>,
    colored: bool,
) -> u8
    ensures { TestsEnd (H.text_at host.now) asked.now settings.entry result }
{
    let rt = host.rt();
    let threshold = match threshold_in(rt, settings.form, asked.threshold) {
        Ok(threshold) => threshold,
        Err(status) => return status,
    };
    let mut others = OtherFiles::new(rt.alloc());
    match tests_at(host, asked, settings.given, &mut others) {
        Ok(tests) => {
            let options = TestSettings {
                asked,
                settings,
                colored,
                threshold,
                others: &others,
            };
            run_selected(host, tests.as_slice(), options)
        }
        Err(failure) => failure.report(rt, settings.form),
    }
}

// Runs tests, and returns the exit status.
fn run_selected<H: Host>(host: &H, tests: &[PlannedTest], options: TestSettings<'_>) -> u8
    ensures { EndsAs ⊥ (HasResults (H.text_at host.now) options.entry.asked.now options.entry.settings
        options.entry.threshold tests.now) result }
{
    match run_all(host, tests, options) {
        Ok(outcome) => end(
            host.rt(),
            options.settings.form,
            &outcome,
            options.asked.junit,
        ),
        Err(error) => status_of(host.rt(), Err(error)),
    }
}

// Returns the percentage that the text of a threshold denotes, if there is one. If the text is no percentage, prints that and returns
// the exit status 2.
fn threshold_in(
    rt: &HostRuntime,
    form: DiagnosticForm,
    text: Option<&str>,
) -> Result<Option<u8>, u8>
    ensures ok { IfOk result (AsksFor text.entry) }
    ensures err { IfErr result (λ status. status ≡ 2) }
    ensures refused { OnErr result (IsSomeAnd text.entry (λ given. IsNoPercentage given.now)) }
{
    let Some(text) = text else {
        return Ok(None);
    };
    let Some(percent) = percent_of(text) else {
        return Err(refuse_threshold(rt, form, text));
    };
    Ok(Some(percent))
}

// Returns the percentage that a text denotes: a number from 0 to 100.
fn percent_of(text: &str) -> Option<u8>
    ensures some { IfSome result (IsPercentage text.now) }
    ensures none { IfNone result (IsNoPercentage text.now) }
{
    match text.parse::<u8>() {
        Ok(percent) => { if percent <= 100 { Some(percent) } else { None } }
        Err(_) => None,
    }
}

// Prints that a text is no percentage, and returns the exit status.
fn refuse_threshold(rt: &HostRuntime, form: DiagnosticForm, text: &str) -> u8
    ensures { result ≡ 2 }
{
    let message = format_args!("--threshold: expected a number from 0 to 100, found `{text}`");
    report_error(rt, form, Spot::nowhere(), &message);
    REFUSED
}

// Returns the tests of the paths that the filters select, and keeps the files of folders that none of the tests uses. Errors: those
// of the search and of the inputs; the filters select none; no test reads a name that an argument of `--set` gives.
fn tests_at<'a, H: Host>(
    host: &H,
    asked: &'a TestOptions<'a>,
    given: &'a [&'a str],
    others: &mut OtherFiles,
) -> Result<Vec<PlannedTest>, SearchFailure<'a>>
    ensures selected { IfOk result (λ tests. AreSelected (H.text_at host.now) asked.now tests.items) }
    ensures some { IfOk result (λ tests. 0 < length tests.items) }
    ensures failed { IfErr result (λ failure. search_lacks_memory failure ≡ false
        → LacksTests (H.text_at host.now) asked.now given.now) }
{
    let files = files_at(host, asked.paths.as_slice(), others)?;
    let mut tests = planned_tests(host, asked, files)?;
    others.leave_unused(tests.as_slice(), asked.machine);
    check_inputs(host, tests.as_slice(), asked.machine, asked.junit)?;
    select_tests(&mut tests, asked.filters.as_slice());
    if tests.is_empty() {
        return Err(SearchFailure::Unselected(asked.filters.as_slice()));
    }
    check_names(host, tests.as_slice(), asked.machine, given)?;
    Ok(tests)
}

// Refuses an argument of `--set` whose name none of the tests reads, nor the start list that the command line names.
fn check_names<'a, H: Host>(
    host: &H,
    tests: &[PlannedTest],
    machine: Option<&str>,
    given: &'a [&'a str],
) -> Result<(), SearchFailure<'a>>
    ensures { IfErr result (λ failure. search_lacks_memory failure ≡ false
        → HasUnread (H.text_at host.now) (given_paths machine.entry ++ map path_of tests.now) given.now) }
{
    let paths = paths_of(host.rt().alloc(), tests, machine)?;
    match unread_argument(host, given, paths.as_slice()) {
        Some(argument) => Err(SearchFailure::Unread(argument)),
        None => Ok(()),
    }
}

// Returns the path of the start list that the command line names, if it names one, and those of tests.
fn paths_of<'a>(
    alloc: Global,
    tests: &'a [PlannedTest],
    machine: Option<&'a str>,
) -> Result<Vec<&'a str>, AllocError>
    ensures { IfOk result (λ paths. map (λ path. path.now) paths.items
        ≡ given_paths machine.entry ++ map path_of tests.now) }
{
    let mut paths = named_path(alloc, machine)?;
    for test in tests {
        paths.push(test.path())?;
    }
    Ok(paths)
}

// Returns the path of the start list that the command line names, if it names one.
fn named_path(alloc: Global, machine: Option<&str>) -> Result<Vec<&str>, AllocError>
    ensures { IfOk result (λ paths. map (λ path. path.now) paths.items ≡ given_paths machine.entry) }
{
    match machine {
        Some(machine) => Ok(vec![in alloc; machine]?),
        None => Ok(Vec::new(alloc)),
    }
}

// Writes the JUnit document if one is asked for, and returns the exit status.
fn end(rt: &HostRuntime, form: DiagnosticForm, outcome: &TestOutcome, junit: Option<&str>) -> u8
    ensures written { (result ≡ 1) ⊎ (result ≡ outcome_status outcome.now) }
    ensures plain { IfNone junit.entry (result ≡ outcome_status outcome.now) }
{
    let trials = outcome.trials.as_slice();
    if let Some(path) = junit {
        if let Err(error) = write_document(rt, path, trials) {
            report_write_failure(rt, form, path, &error);
            return UNWRITTEN;
        }
    }
    outcome.exit_status()
}

// Writes the JUnit document of these results.
fn write_document(rt: &HostRuntime, path: &str, trials: &[TimedResult]) -> io::Result<()> {
    let document = junit_document(rt.alloc(), trials)?;
    write_file(rt, path, document.as_slice())
}

// Runs tests, and prints a line for each. After the lines prints the coverage if it is asked for.
fn run_all<H: Host>(
    host: &H,
    tests: &[PlannedTest],
    options: TestSettings<'_>,
) -> io::Result<TestOutcome>
    ensures each { IfOk result (λ outcome. AreResults (H.text_at host.now) options.entry.asked.now
        options.entry.settings tests.now outcome.trials.items) }
    ensures short { IfOk result (λ outcome. IsShortBy options.entry.threshold outcome.falls_short) }
{
    let rt = host.rt();
    let mut coverings = CoveragePrinter::new(rt, options.asked);
    let printer = TestPrinter::new(rt, options.colored, coverings.is_document(), tests.len());
    printer.plan(rt)?;
    let other = Machine::find(host, options.asked.machine, options.settings);
    let conditions = TestConditions {
        asked: options.asked,
        settings: options.settings,
        other: &other,
    };
    let trials = run_each(host, tests, conditions, printer, &mut coverings)?;
    printer.print(rt, options.others.notes(rt)?.as_slice())?;
    coverings.print(rt)?;
    let falls_short = coverings.falls_short(rt, options.settings.form, options.threshold);
    Ok(TestOutcome {
        trials,
        falls_short,
    })
}

// Runs all tests, and returns the result of each.
fn run_each<H: Host>(
    host: &H,
    tests: &[PlannedTest],
    conditions: TestConditions<'_>,
    printer: TestPrinter,
    coverings: &mut CoveragePrinter,
) -> io::Result<Vec<TimedResult>>
    requires { IsFound (H.text_at host.now) conditions.settings
        (option_copied conditions.asked.now.machine) conditions.other.now }
    ensures { IfOk result (λ trials. AreResults (H.text_at host.now) conditions.entry.asked.now
        conditions.entry.settings tests.now trials.items) }
{
    let mut trials = Vec::new(host.rt().alloc());
    for place in 0..tests.len() {
        let trial = run_timed(host, &tests[place], conditions, coverings)?;
        printer.point(host.rt(), place.saturating_add(1), &trial.result)?;
        trials.push(trial)?;
        printer.progress(host.rt(), trials.len());
    }
    Ok(trials)
}

// Runs a test, and returns its result with its time.
fn run_timed<H: Host>(
    host: &H,
    test: &PlannedTest,
    conditions: TestConditions<'_>,
    coverings: &mut CoveragePrinter,
) -> io::Result<TimedResult>
    requires { IsFound (H.text_at host.now) conditions.settings
        (option_copied conditions.asked.now.machine) conditions.other.now }
    ensures { IfOk result (λ trial. IsResultOf (H.text_at host.now) conditions.entry.asked.now
        conditions.entry.settings test.now trial.result.passed) }
{
    let rt = host.rt();
    let start = Instant::now(rt)?;
    let result = run_test(host, test, conditions, coverings)?;
    Ok(TimedResult {
        result,
        milliseconds: milliseconds_of(start.elapsed(rt)?),
    })
}

// Runs a test. The error is out of memory.
fn run_test<H: Host>(
    host: &H,
    test: &PlannedTest,
    conditions: TestConditions<'_>,
    coverings: &mut CoveragePrinter,
) -> Result<TestResult, AllocError>
    requires { IsFound (H.text_at host.now) conditions.settings
        (option_copied conditions.asked.now.machine) conditions.other.now }
    ensures { IfOk result (λ trial. IsResultOf (H.text_at host.now) conditions.entry.asked.now
        conditions.entry.settings test.now trial.passed) }
{
    match test {
        PlannedTest::Scenario(path) => test_scenario(host, path.as_str(), conditions, coverings),
        PlannedTest::Policy(path) => test_policy(
            host,
            path.as_str(),
            conditions.asked.strict,
            conditions.settings,
        ),
        PlannedTest::List(path) => test_list(host, path.as_str(), conditions),
    }
}

// Returns the milliseconds of a time, at most the largest number of 64 bits.
fn milliseconds_of(time: Duration) -> u64 {
    u64::try_from(time.as_millis()).unwrap_or(u64::MAX)
}

// The form in which results are printed.
#[derive(Clone, Copy)]
struct TestPrinter {
    colored: bool,
    // Whether a document is printed in place of lines.
    silent: bool,
    // Whether the progress is printed on standard error: if that is a terminal, and standard output isn't.
    progress: bool,
    all: usize,
}

impl TestPrinter {
    fn new(rt: &HostRuntime, colored: bool, silent: bool, all: usize) -> TestPrinter {
        TestPrinter {
            colored,
            silent,
            progress: rt.stderr().is_terminal() && !rt.stdout().is_terminal(),
            all,
        }
    }

    // Prints how many tests are run.
    fn plan(self, rt: &HostRuntime) -> io::Result<()> {
        self.print(rt, tap_plan(rt.alloc(), self.all)?.as_bytes())
    }

    // Prints the result of the test with this number.
    fn point(self, rt: &HostRuntime, number: usize, trial: &TestResult) -> io::Result<()> {
        self.print(rt, tap_point(rt.alloc(), number, trial)?.as_slice())
    }

    // Prints lines, unless a document takes their place.
    fn print(self, rt: &HostRuntime, lines: &[u8]) -> io::Result<()> {
        if self.silent {
            return Ok(());
        }
        let mut writer = io::writer(rt);
        if self.colored {
            return writer.write_all(paint(rt.alloc(), Lines::Tests, lines)?.as_slice());
        }
        writer.write_all(lines)
    }

    // Prints how many tests were run, over the last such line. Clears the line after the last test.
    fn progress(self, rt: &HostRuntime, done: usize) {
        if !self.progress {
            return;
        }
        let all = self.all;
        let _ = if done < all {
            eprint!(rt; "\r{done} of {all}")
        } else {
            eprint!(rt; "\r\x1b[K")
        };
    }
}
