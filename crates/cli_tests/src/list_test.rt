//! Start lists that are checked by themselves as tests.
ghost use Rattle.std.specs.Prelude.{◌≡◌, ◌==◌, length, IfOk, Some};
ghost use Rattle.std.specs.Option.{option_copied};
ghost use Rattle.cli_base.specs.Texts.{bytes_of};
ghost use Rattle.cli_tests.specs.PolicyTest.{HasNoFindings, IsCheckResult, IsListResult};
ghost use Rattle.cli_tests.specs.ScenarioTest.{IsFound};

use crate::other_files::is_named;
use crate::policy_test::{unbooted, without_list};
use crate::scenario_test::TestConditions;
use cli_base::{
    FindingMessage, Host, Machine, Settings, StartListFailure, diagnostic_line, finding_spot,
};
use list_review::{Finding, Review};
use std::alloc::AllocError;
use view_diagnostics::Severity;
use view_test_report::TestResult;

/// Checks a start list by itself. The test fails if the list isn't read, doesn't boot or has a finding. The list of the command line
/// isn't read again. The error is out of memory.
pub(crate) fn test_list<H: Host>(
    host: &H,
    path: &str,
    conditions: TestConditions<'_>,
) -> Result<TestResult, AllocError>
    requires { IsFound (H.text_at host.now) conditions.settings
        (option_copied conditions.asked.now.machine) conditions.other.now }
    ensures { IfOk result (λ test.
        IsCheckResult (H.text_at host.now) conditions.entry.settings path.now test.passed) }
{
    if is_named(conditions.asked.machine, path) {
        return test_machine(host, path, conditions.settings, conditions.other);
    }
    let machine = Machine::find(host, Some(path), conditions.settings);
    test_machine(host, path, conditions.settings, &machine)
}

// Checks the list of a machine that was read from a path.
fn test_machine<H: Host>(
    host: &H,
    path: &str,
    settings: Settings<'_>,
    machine: &Result<Machine<'_>, StartListFailure<'_>>,
) -> Result<TestResult, AllocError>
    requires { IsFound (H.text_at host.now) settings (Some path.now) machine.now }
    ensures { IfOk result (λ test.
        IsCheckResult (H.text_at host.now) settings.entry path.now test.passed) }
{
    let rt = host.rt();
    let name = String::from_str(rt.alloc(), path)?;
    match machine {
        Ok(machine) => test_text(rt, name, path, machine),
        Err(failure) => without_list(rt, name, failure),
    }
}

// Checks the text of a machine's list that was read from a path.
fn test_text(
    rt: &HostRuntime,
    name: String,
    path: &str,
    machine: &Machine<'_>,
) -> Result<TestResult, AllocError>
    ensures { IfOk result (λ test. IsListResult (HasNoFindings (bytes_of machine.now.text))
        (bytes_of machine.now.text) test.passed) }
{
    match Review::read(rt.alloc(), machine.text()) {
        Ok(review) => reviewed(rt, name, path, review.findings()),
        Err(fault) => unbooted(rt, name, machine, &fault),
    }
}

// Returns the result of a test of a list with these findings.
fn reviewed(
    rt: &HostRuntime,
    name: String,
    path: &str,
    findings: &[Finding],
) -> Result<TestResult, AllocError>
    ensures { IfOk result (λ test. test.passed ≡ (length findings.now == 0)) }
{
    let told = finding_lines(rt, path, findings)?;
    Ok(TestResult {
        name,
        passed: findings.is_empty(),
        told,
    })
}

// Returns the lines about findings.
fn finding_lines(
    rt: &HostRuntime,
    path: &str,
    findings: &[Finding],
) -> Result<Vec<u8>, AllocError> {
    let mut report = Vec::new(rt.alloc());
    for finding in findings {
        let spot = finding_spot(path, finding);
        let line = diagnostic_line(rt, Severity::Warning, spot, &FindingMessage(finding))?;
        report.extend_from_slice(line.as_slice())?;
    }
    Ok(report)
}
