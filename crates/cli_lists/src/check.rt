//! The command `check`: findings of a start list, and its breaches of a policy.
ghost use Rattle.std.specs.Prelude.{◌≡◌, ◌&&◌, nat_lt};
ghost use Rattle.cli_base.specs.PolicyVerdict.{verdict_status};
ghost use Rattle.cli_base.specs.Statuses.{EndsAs};
ghost use Rattle.cli_lists.specs.ListStatus.{CheckEnds, EndsReviewed, EndsVerdict};

use crate::check_documents::check_documents;
use crate::review::review;
use cli_base::{
    FindingMessage, Host, PolicyDiagnostic, PolicyVerdict, REFUSED, Settings, Spot, check_policy,
    finding_spot, no_memory, report, report_error, status_of, summarize, summarize_errors,
};
use cli_options::CheckOptions;
use list_review::Review;
use std::alloc::AllocError;
use view_diagnostics::{Counts, DiagnosticForm, Severity};

/// Checks a start list, also against a policy if one is named, and prints what is found. Returns the exit status: 0, 2 if the
/// list or the policy is refused, 3 if the list breaks the policy.
pub fn check_list<H: Host>(host: &H, asked: &CheckOptions<'_>, settings: Settings<'_>) -> u8
    ensures { CheckEnds (H.text_at host.now) asked.now settings.entry result }
{
    if asked.json {
        return check_documents(host, asked, settings);
    }
    match review(host, asked.list, settings) {
        Ok(review) => check_review(host, asked, settings.form, &review),
        Err(status) => {
            summarize_errors(host.rt(), settings.form, 1);
            status
        }
    }
}

// Prints the findings and the advice of a start list on standard error. If findings count, the list is refused; they count in a
// strict check, and advice never does. Else checks the list against the policy, if there is one. Prints `ok` if nothing is broken.
// Returns the exit status.
fn check_review<H: Host>(
    host: &H,
    asked: &CheckOptions<'_>,
    form: DiagnosticForm,
    review: &Review,
) -> u8
    ensures { EndsReviewed (H.text_at host.now) asked.now review.now result }
{
    let rt = host.rt();
    report_review(rt, form, asked.list, review);
    if is_refused(asked.strict, review.findings().len()) {
        summarize(rt, form, counts_of(review, 0, 0));
        return REFUSED;
    }
    match asked.policy {
        Some(policy) => check_kept(host, asked.strict, form, review, policy),
        None => {
            summarize(rt, form, counts_of(review, 0, 0));
            status_of(rt, println!(rt; "ok"))
        }
    }
}

// Returns the number of findings of a start list, next to these numbers of errors and warnings about a policy.
fn counts_of(review: &Review, errors: usize, warnings: usize) -> Counts {
    Counts {
        errors: errors as u64,
        warnings: (review.findings().len() as u64).saturating_add(warnings as u64),
    }
}

/// Returns whether a list with so many findings is refused: only by a strict check.
pub(crate) fn is_refused(strict: bool, findings: usize) -> bool
    ensures { result ≡ (strict && nat_lt 0 findings) }
{
    strict && findings > 0
}

// Prints the findings and the advice of a start list.
fn report_review(rt: &HostRuntime, form: DiagnosticForm, path: &str, review: &Review) {
    for finding in review.findings() {
        let spot = finding_spot(path, finding);
        report(rt, form, Severity::Warning, spot, &FindingMessage(finding));
    }
    if let Some(advice) = review.advice() {
        report(rt, form, Severity::Note, Spot::file(path), &advice);
    }
}

// Checks a reviewed list against the policy of a path. Prints the policy's faults, or its remarks and each of its lines that the list
// breaks, and `ok` if the status is 0. Returns the exit status.
fn check_kept<H: Host>(
    host: &H,
    strict: bool,
    form: DiagnosticForm,
    review: &Review,
    path: &str,
) -> u8
    ensures { EndsAs ⊥ (EndsVerdict (H.text_at host.now) strict path.now review.now.list) result }
{
    let rt = host.rt();
    match check_policy(host, review.list(), path) {
        Ok(verdict) => {
            let (errors, warnings) = report_verdict(rt, form, path, &verdict);
            summarize(rt, form, counts_of(review, errors, warnings));
            print_ok(rt, strict, &verdict)
        }
        Err(AllocError) => no_memory(rt),
    }
}

// Prints the faults of a policy, or its remarks and its broken lines. Returns the numbers of errors and of warnings.
fn report_verdict(
    rt: &HostRuntime,
    form: DiagnosticForm,
    path: &str,
    verdict: &PolicyVerdict,
) -> (usize, usize) {
    match verdict {
        PolicyVerdict::Held(found) => {
            for remark in found.remarks.as_slice() {
                if !remark.is_partial {
                    let spot = remark.diagnostic.spot(path);
                    report(rt, form, remark.severity, spot, &remark.diagnostic.text);
                }
            }
            report_notes(rt, form, path, found.broken.as_slice());
            (found.broken.len(), found.void)
        }
        PolicyVerdict::Faulty(notes) => {
            report_notes(rt, form, path, notes.as_slice());
            (notes.len(), 0)
        }
        PolicyVerdict::ReadFailure(why) => {
            report_error(rt, form, Spot::nowhere(), why);
            (1, 0)
        }
    }
}

// Prints `ok` if a policy is kept, and returns the exit status.
fn print_ok(rt: &HostRuntime, strict: bool, verdict: &PolicyVerdict) -> u8
    ensures { EndsAs ⊥ (λ status. status ≡ verdict_status strict verdict.now) result }
{
    match verdict.exit_status(strict) {
        0 => status_of(rt, println!(rt; "ok")),
        status => status,
    }
}

// Prints errors of a policy.
fn report_notes(rt: &HostRuntime, form: DiagnosticForm, path: &str, notes: &[PolicyDiagnostic]) {
    for note in notes {
        report_error(rt, form, note.spot(path), &note.text);
    }
}
