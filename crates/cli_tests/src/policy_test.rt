//! Start lists that are checked against the policies next to them as tests.
ghost use Rattle.std.specs.Prelude.{false, ◌≡◌, IfOk};
ghost use Rattle.cli_base.specs.ListFailures.{boot_lacks_memory, lacks_memory};
ghost use Rattle.cli_base.specs.Texts.{bytes_of};
ghost use Rattle.cli_tests.specs.PolicyTest.{IsKeptBy, IsListResult, IsPolicyResult, is_kept};

use crate::file_presence::may_exist;
use crate::scenario_test::lacks_memory;
use cli_base::{
    Host, Machine, PolicyDiagnostic, PolicyRemark, PolicyVerdict, Settings, Spot, StartListFailure,
    check_policy, diagnostic_line, error_line, fault_spot, machine_path,
};
use list_parser::BootFault;
use list_review::{PlacedFault, Review};
use std::alloc::AllocError;
use std::fmt::Display;
use view_test_report::TestResult;

/// Checks the start list next to a policy against it: `NAME.json` for `NAME.policy`. The test fails if there is no such list, the
/// list doesn't boot, the policy has a fault or isn't read, or the list breaks a line. The error is out of memory.
/// If findings count, a line that speaks of nothing does.
pub(crate) fn test_policy<H: Host>(
    host: &H,
    policy: &str,
    strict: bool,
    settings: Settings<'_>,
) -> Result<TestResult, AllocError>
    ensures { IfOk result (λ test.
        IsPolicyResult (H.text_at host.now) strict settings.entry policy.now test.passed) }
{
    let rt = host.rt();
    let list = machine_path(rt.alloc(), policy)?;
    let name = format!(in rt.alloc(); "{list} keeps {policy}")?;
    if !may_exist(host, list.as_str()) {
        let message = format_args!(
            "expected the start list `{list}` next to the policy, found none"
        );
        let report = error_line(rt, Spot::file(policy), &message)?;
        return Ok(unchecked(name, report));
    }
    match Machine::find(host, Some(list.as_str()), settings) {
        Ok(machine) => test_list(host, name, policy, strict, &machine),
        Err(failure) => without_list(rt, name, &failure),
    }
}

/// Returns the result of a test whose list isn't read. Fails if the host was out of memory for the list.
pub(crate) fn without_list(
    rt: &HostRuntime,
    name: String,
    failure: &StartListFailure<'_>,
) -> Result<TestResult, AllocError>
    ensures memory { IfOk result (λ test. lacks_memory failure.now ≡ false) }
    ensures failed { IfOk result (λ test. test.passed ≡ false) }
{
    if lacks_memory(failure) {
        return Err(AllocError);
    }
    let report = error_line(rt, failure.spot(), failure)?;
    Ok(unchecked(name, report))
}

// Checks the list of a machine against a policy, if the list boots.
fn test_list<H: Host>(
    host: &H,
    name: String,
    policy: &str,
    strict: bool,
    machine: &Machine<'_>,
) -> Result<TestResult, AllocError>
    ensures { IfOk result (λ test. IsListResult (IsKeptBy (H.text_at host.now) strict policy.now)
        (bytes_of machine.now.text) test.passed) }
{
    let rt = host.rt();
    match Review::read(rt.alloc(), machine.text()) {
        Ok(review) => checked(host, name, policy, strict, &review),
        Err(fault) => unbooted(rt, name, machine, &fault),
    }
}

/// Returns the result of a test whose list doesn't boot. Fails if the host was out of memory for the boot.
pub(crate) fn unbooted(
    rt: &HostRuntime,
    name: String,
    machine: &Machine<'_>,
    fault: &PlacedFault,
) -> Result<TestResult, AllocError>
    ensures memory { IfOk result (λ test. boot_lacks_memory fault.now.fault ≡ false) }
    ensures failed { IfOk result (λ test. test.passed ≡ false) }
{
    if matches!(&fault.fault, BootFault::NoMemory) {
        return Err(AllocError);
    }
    let spot = fault_spot(machine.path().unwrap_or(""), fault);
    let report = error_line(rt, spot, fault)?;
    Ok(unchecked(name, report))
}

// Returns the result of a test whose list isn't checked.
fn unchecked(name: String, report: Vec<u8>) -> TestResult
    ensures { result.passed ≡ false }
{
    TestResult {
        name,
        passed: false,
        told: report,
    }
}

// Checks a list that boots against a policy.
fn checked<H: Host>(
    host: &H,
    name: String,
    policy: &str,
    strict: bool,
    review: &Review,
) -> Result<TestResult, AllocError>
    ensures { IfOk result (λ test.
        IsKeptBy (H.text_at host.now) strict policy.now review.now.list test.passed) }
{
    let verdict = check_policy(host, review.list(), policy)?;
    let report = verdict_lines(host.rt(), policy, &verdict)?;
    Ok(result_of(name, strict, &verdict, report))
}

// Returns the result of a check, with its report.
fn result_of(name: String, strict: bool, verdict: &PolicyVerdict, report: Vec<u8>) -> TestResult
    ensures { result.passed ≡ is_kept strict verdict.now }
{
    TestResult {
        name,
        passed: verdict.exit_status(strict) == 0,
        told: report,
    }
}

// Returns the diagnostics of a check against the policy of a path.
fn verdict_lines(
    rt: &HostRuntime,
    policy: &str,
    verdict: &PolicyVerdict,
) -> Result<Vec<u8>, AllocError> {
    let mut report = Vec::new(rt.alloc());
    match verdict {
        PolicyVerdict::Held(found) => {
            for remark in found.remarks.as_slice() {
                add_remark(rt, &mut report, policy, remark)?;
            }
            add_notes(rt, &mut report, policy, found.broken.as_slice())?;
        }
        PolicyVerdict::Faulty(notes) => add_notes(rt, &mut report, policy, notes.as_slice())?,
        PolicyVerdict::ReadFailure(why) => add_error(rt, &mut report, Spot::nowhere(), why)?,
    }
    Ok(report)
}

// Adds a remark on a policy's line, unless it is about a part of the line's pairs.
fn add_remark(
    rt: &HostRuntime,
    report: &mut Vec<u8>,
    policy: &str,
    remark: &PolicyRemark,
) -> Result<(), AllocError> {
    if remark.is_partial {
        return Ok(());
    }
    let noted = &remark.diagnostic;
    let line = diagnostic_line(rt, remark.severity, noted.spot(policy), &noted.text)?;
    report.extend_from_slice(line.as_slice())
}

// Adds errors of a policy.
fn add_notes(
    rt: &HostRuntime,
    report: &mut Vec<u8>,
    policy: &str,
    notes: &[PolicyDiagnostic],
) -> Result<(), AllocError> {
    for noted in notes {
        add_error(rt, report, noted.spot(policy), &noted.text)?;
    }
    Ok(())
}

/// Adds an error to the report of a test. The error is out of memory.
pub(crate) fn add_error<D: Display>(
    rt: &HostRuntime,
    report: &mut Vec<u8>,
    spot: Spot<'_>,
    message: &D,
) -> Result<(), AllocError> {
    report.extend_from_slice(error_line(rt, spot, message)?.as_slice())
}
