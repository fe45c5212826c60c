//! The results of a check of a start list, as a list of JSON.
ghost use Rattle.std.specs.Prelude.{List, IfOk, OnErr, OnOk, ◌≡◌, ◌++◌};
ghost use Rattle.view_records.specs.Lists.{records_of};
ghost use Rattle.view_records.specs.Records.{Record};
ghost use Rattle.cli_base.specs.Statuses.{EndsAs};
ghost use Rattle.cli_lists.specs.CheckDocuments.{AreOfPolicy, ListsCheck, ListsReview};
ghost use Rattle.cli_lists.specs.ListStatus.{CheckEnds, EndsKept, EndsOnText, EndsPolicy, EndsReviewed, HasRefused};

use crate::check::is_refused;
use crate::check_records::{add_fault, add_review, add_verdict};
use cli_base::{
    Host, REFUSED, Settings, boot_status, check_policy, no_memory, print_documents, start_list,
    status_after,
};
use cli_options::CheckOptions;
use list_parser::StartList;
use list_review::Review;
use std::alloc::AllocError;
use view_records::RecordList;

/// Checks a start list as `check_list` does, and prints a list of JSON documents. Returns the exit status.
pub(crate) fn check_documents<H: Host>(
    host: &H,
    check: &CheckOptions<'_>,
    settings: Settings<'_>,
) -> u8
    ensures { CheckEnds (H.text_at host.now) check.now settings.entry result }
{
    let rt = host.rt();
    let mut records = RecordList::new(rt.alloc());
    match start_list(host, check.list, settings) {
        Ok(text) => {
            let added = add_all(host, check, text.as_slice(), &mut records);
            printed(rt, added, records)
        }
        Err(status) => status,
    }
}

// Adds the documents of a start list's text, and returns the exit status.
fn add_all<H: Host>(
    host: &H,
    check: &CheckOptions<'_>,
    text: &[u8],
    records: &mut RecordList,
) -> Result<u8, AllocError>
    ensures status { IfOk result (EndsOnText text.now
        (HasRefused check.now) (EndsKept (H.text_at host.now) check.now)) }
    ensures listed { OnOk result (ListsCheck (H.text_at host.now) check.now text.now
        records.old records.new) }
{
    let alloc = host.rt().alloc();
    match Review::read(alloc, text) {
        Ok(review) => add_reviewed(host, check, &review, records),
        Err(placed) => {
            add_fault(alloc, records, check.list, &placed)?;
            Ok(boot_status(&placed.fault))
        }
    }
}

// Adds the findings and the advice of a start list, and its breaches of a policy. Returns the exit status.
fn add_reviewed<H: Host>(
    host: &H,
    check: &CheckOptions<'_>,
    review: &Review,
    records: &mut RecordList,
) -> Result<u8, AllocError>
    ensures status { IfOk result (EndsReviewed (H.text_at host.now) check.now review.now) }
    ensures listed { OnOk result (ListsReview (H.text_at host.now) check.now review.now
        records.old records.new) }
{
    add_review(host.rt().alloc(), records, check.list, review)?;
    if is_refused(check.strict, review.findings().len()) {
        return Ok(REFUSED);
    }
    add_policy(host, check.strict, check.policy, review.list(), records)
}

// Adds the verdict on a list by the policy of a path, if one is named. Returns the exit status.
fn add_policy<H: Host>(
    host: &H,
    strict: bool,
    policy: Option<&str>,
    list: &StartList,
    records: &mut RecordList,
) -> Result<u8, AllocError>
    ensures status { IfOk result (EndsPolicy (H.text_at host.now) strict policy.entry list.now) }
    ensures listed { OnOk result ((more : List Record)
        × AreOfPolicy (H.text_at host.now) policy.entry list.now more
        × (records_of records.new ≡ records_of records.old ++ more)) }
{
    let Some(path) = policy else {
        return Ok(0);
    };
    let verdict = check_policy(host, list, path)?;
    add_verdict(records, path, &verdict)?;
    Ok(verdict.exit_status(strict))
}

// Prints a list of documents, and returns its exit status, or that of a failed write.
fn printed(rt: &HostRuntime, added: Result<u8, AllocError>, records: RecordList) -> u8
    ensures ended { IfOk added (λ status. EndsAs ⊥ (λ ended. ended ≡ status) result) }
    ensures failed { OnErr added (result ≡ 1) }
{
    let status = match added {
        Ok(status) => status,
        Err(AllocError) => return no_memory(rt),
    };
    status_after(print_documents(rt, records.to_json()), status)
}
