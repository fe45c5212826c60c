//! The coverage of the scenarios that are run as tests.
use crate::scenario_run::TestCase;
use cli_base::{Spot, report_error};
use cli_options::TestOptions;
use run_exchanges::Exchange;
use std::alloc::AllocError;
use std::io;
use std::io::Write;
use view_coverage::{CoverageReport, cover};
use view_diagnostics::DiagnosticForm;
use view_test_report::printed_path;

/// The name of the machine of scenarios without a start list.
const BUILT_IN: &str = "built-in machine";

/// The coverage of all scenarios, and the form in which it is printed.
#[derive(Drop)]
pub(crate) struct CoveragePrinter {
    report: CoverageReport,
    // Whether coverage is asked for. Else no scenario is added.
    asked: bool,
    json: bool,
}

impl CoveragePrinter {
    ghost use Rattle.std.specs.Prelude.{◌≡◌, ◌||◌, is_some};
    ghost use Rattle.cli_tests.specs.Outcome.{is_short_by};

    /// Returns the coverage of no scenario yet. If the options don't ask for coverage, none is added later.
    pub(crate) fn new(rt: &HostRuntime, asked: &TestOptions<'_>) -> CoveragePrinter
        ensures { result.asked
            ≡ (asked.now.coverage || is_some asked.now.threshold) }
    {
        CoveragePrinter {
            report: CoverageReport::new(rt.alloc()),
            asked: asked.coverage || asked.threshold.is_some(),
            json: asked.json,
        }
    }

    /// Returns whether the command line asks for coverage, as text or as a document.
    pub(crate) fn are_asked(&self) -> bool {
        self.asked
    }

    /// Returns whether the coverage is printed as a document in place of all lines.
    pub(crate) fn is_document(&self) -> bool {
        self.json && self.asked
    }

    /// Adds the coverage of a scenario on its machine, by its calls with their replies. A scenario whose machine doesn't boot has
    /// no coverage: it fails as a test. The error is out of memory.
    pub(crate) fn add(
        &mut self,
        rt: &HostRuntime,
        case: TestCase<'_>,
        exchanges: &[Exchange],
    ) -> Result<(), AllocError> {
        let alloc = rt.alloc();
        let coverage = cover(alloc, case.list, exchanges)?;
        let name = case.machine.path().unwrap_or(BUILT_IN);
        if self.json {
            return self.report.add(case.list, name, case.scenario, coverage);
        }
        let name = printed_path(alloc, name)?;
        let scenario = printed_path(alloc, case.scenario)?;
        self.report
            .add(case.list, name.as_str(), scenario.as_str(), coverage)
    }

    /// Prints the coverage as lines of comments, or as a document, if it is asked for. Returns the error of a write that fails.
    pub(crate) fn print(&self, rt: &HostRuntime) -> io::Result<()> {
        let alloc = rt.alloc();
        let report = &self.report;
        if !self.asked {
            return Ok(());
        }
        if self.json {
            return io::writer(rt).write_all(report.document(alloc)?.as_slice());
        }
        let text = format!(in alloc; "{report}")?;
        io::writer(rt).write_all(text.as_bytes())
    }

    /// Returns whether less is covered than this percentage, and then prints how much on standard error.
    pub(crate) fn falls_short(
        &self,
        rt: &HostRuntime,
        form: DiagnosticForm,
        threshold: Option<u8>,
    ) -> bool
        ensures { result ≡ is_short_by self.now.report threshold }
    {
        let Some(percent) = threshold else {
            return false;
        };
        let count = self.report.count();
        if !count.falls_short(percent) {
            return false;
        }
        let message = format_args!(
            "--threshold: expected {percent} percent of the rules and session requests covered, found {} of {}",
            count.covered, count.all
        );
        report_error(rt, form, Spot::nowhere(), &message);
        true
    }
}
