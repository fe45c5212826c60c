//! All differences of two start lists as records.
ghost use Rattle.std.specs.Prelude.{◌≡◌, ◌∷◌, ◌++◌, [], IfOk, OnOk};
ghost use Rattle.std.specs.Option.{option_copied, option_map};
ghost use Rattle.view_records.specs.Cells.{cell_data};
ghost use Rattle.view_records.specs.JsonTexts.{json_text};
ghost use Rattle.view_records.specs.Lists.{records_of};
ghost use Rattle.view_records.specs.Records.{if_number, null_if_absent};
ghost use Rattle.list_diff.specs.Breaches.{change_at};
ghost use Rattle.list_diff.specs.Records.{answer_in, breach_record, breach_sign, difference_records, fault_text, machine_records, need_record, number_of, reason_cell, reason_in, reply_cell, reply_record, reply_records};
ghost use Rattle.list_diff.specs.declared.need_changes.QuotaAmounts.{QuotaAmounts as Quota};

use crate::differences::{ListDifferences, has_same_machine};
use crate::entry_records::add_change;
use crate::line_outcomes::{LineOutcome, LineResult, ResolutionFault};
use crate::need_changes::{NeedChange, QuotaAmounts};
use crate::policy_breaches::BreachChange;
use crate::reach_records::add_reach;
use crate::reply_changes::ReplyChange;
use line_names::token_at;
use list_parser::StartList;
use run_exchanges::Exchange;
use std::alloc::{AllocError, Global};
use view_records::{Cell, RecordList};

/// Returns differences as a JSON list, with a record for each line that is printed of them. Fails if the host is out of memory.
pub fn difference_documents(
    alloc: Global,
    found: &ListDifferences<'_>,
) -> Result<Vec<u8>, AllocError>
    ensures { IfOk result (λ text. text.items ≡ json_text (difference_records found.now)) }
{
    let mut records = RecordList::new(alloc);
    add_machine(&mut records, found.before, found.after)?;
    for change in found.changes {
        add_change(alloc, &mut records, found.before, found.after, *change)?;
    }
    for reached in found.leads {
        add_reach(alloc, &mut records, reached)?;
    }
    for breach in found.breaches {
        add_breach(&mut records, breach)?;
    }
    for need in found.lacks {
        add_need(&mut records, need)?;
    }
    for reply in found.replies {
        add_reply(alloc, &mut records, reply)?;
    }
    records.to_json()
}

// Adds the machine of the list after, and that of the list before, unless they are the same.
fn add_machine(records: &mut RecordList, was: &StartList, now: &StartList) -> Result<(), AllocError>
    ensures { OnOk result
        (records_of records.new ≡ records_of records.old ++ machine_records was.now now.now) }
{
    if has_same_machine(was, now) {
        return Ok(());
    }
    records.add(&[
        ("kind", Cell::Word("machine")),
        ("change", Cell::Word("~")),
        ("pages", Cell::Number(u64::from(now.pages()))),
        ("caps", Cell::Number(u64::from(now.caps()))),
        ("was_pages", Cell::Number(u64::from(was.pages()))),
        ("was_caps", Cell::Number(u64::from(was.caps()))),
    ])
}

// Adds a breach that one list alone has, with its place in the policy.
fn add_breach(records: &mut RecordList, change: &BreachChange<'_>) -> Result<(), AllocError>
    ensures { OnOk result (records_of records.new
        ≡ records_of records.old ++ breach_record (change_at change.now) ∷ []) }
{
    let breach = change.breach();
    records.add(&[
        ("kind", Cell::Word("breach")),
        ("change", Cell::Word(sign_of(change))),
        ("line", Cell::Number(breach.line as u64)),
        ("column", Cell::Number(breach.column as u64)),
        ("text", Cell::Word(breach.text.as_str())),
    ])
}

/// Returns the sign of the change of a breach.
pub(crate) fn sign_of(change: &BreachChange<'_>) -> &'static str
    ensures { result.now ≡ breach_sign (change_at change.now).is_new }
{
    match change {
        BreachChange::Gone(_) => "-",
        BreachChange::Came(_) => "+",
    }
}

// Adds a component that falls short, with its need and its budgets.
fn add_need(records: &mut RecordList, change: &NeedChange<'_>) -> Result<(), AllocError>
    ensures { OnOk result
        (records_of records.new ≡ records_of records.old ++ need_record change.entry.now ∷ []) }
{
    let (now, had) = (change.now, change.had);
    let (ram, caps) = needed(now.needs);
    records.add(&[
        ("kind", Cell::Word("need")),
        ("change", Cell::Word("~")),
        ("name", Cell::Text(now.name)),
        ("needs_ram", ram),
        ("needs_caps", caps),
        ("ram", Cell::Number(now.has.ram)),
        ("caps", Cell::Number(now.has.caps)),
        ("was_ram", Cell::Number(had.ram)),
        ("was_caps", Cell::Number(had.caps)),
    ])
}

// Returns the RAM and the capabilities of a need, or null for both if no budget suffices.
fn needed<'a>(needs: Option<QuotaAmounts>) -> (Cell<'a>, Cell<'a>)
    ensures ram { cell_data result.0
        ≡ null_if_absent (if_number (option_map (λ (needs : Quota). needs.ram) needs)) }
    ensures caps { cell_data result.1
        ≡ null_if_absent (if_number (option_map (λ (needs : Quota). needs.caps) needs)) }
{
    match needs {
        Some(needs) => (Cell::Number(needs.ram), Cell::Number(needs.caps)),
        None => (Cell::Null, Cell::Null),
    }
}

// Adds a line that is answered differently, if a machine answers it.
fn add_reply(
    alloc: Global,
    records: &mut RecordList,
    change: &ReplyChange<'_>,
) -> Result<(), AllocError>
    ensures { OnOk result
        (records_of records.new ≡ records_of records.old ++ reply_records change.entry.now) }
{
    match (answer_to(change.was), answer_to(change.now)) {
        (Some(_), Some(now)) => add_call(alloc, records, "~", change, now),
        (None, Some(now)) => add_call(alloc, records, "+", change, now),
        (Some(was), None) => add_call(alloc, records, "-", change, was),
        (None, None) => Ok(()),
    }
}

// Adds a call with a sign.
fn add_call(
    alloc: Global,
    records: &mut RecordList,
    sign: &'static str,
    change: &ReplyChange<'_>,
    made: &Exchange,
) -> Result<(), AllocError>
    ensures { OnOk result (records_of records.new
        ≡ records_of records.old ++ reply_record sign.now change.entry.now made.now ∷ []) }
{
    let reason = reason_of(alloc, change.now)?;
    let old_reason = reason_of(alloc, change.was)?;
    add_answers(
        records,
        sign,
        change,
        made,
        (reason.as_slice(), old_reason.as_slice()),
    )
}

// Adds a call with a sign, by the reasons of the machine after and of the machine before.
fn add_answers<'a>(
    records: &mut RecordList,
    sign: &'static str,
    change: &'a ReplyChange<'a>,
    made: &'a Exchange,
    reasons: (&'a [u8], &'a [u8]),
) -> Result<(), AllocError>
    requires now { reasons.0.now ≡ reason_in change.now.now }
    requires was { reasons.1.now ≡ reason_in change.now.was }
    ensures { OnOk result (records_of records.new
        ≡ records_of records.old ++ reply_record sign.now change.entry.now made.now ∷ []) }
{
    let (reply, reason) = reply_cells(answer_to(change.now), reasons.0);
    let (old_reply, old_reason) = reply_cells(answer_to(change.was), reasons.1);
    records.add(&[
        ("kind", Cell::Word("reply")),
        ("change", Cell::Word(sign)),
        ("line", Cell::Number(number_of(change.now, change.was))),
        ("name", Cell::Text(made.name())),
        ("call", Cell::Text(made.call())),
        ("reply", reply),
        ("reason", reason),
        ("was_reply", old_reply),
        ("was_reason", old_reason),
    ])
}

// Returns the reply of a machine, or null and the reason.
fn reply_cells<'a>(made: Option<&'a Exchange>, why: &'a [u8]) -> (Cell<'a>, Cell<'a>)
    ensures reply { cell_data result.0 ≡ reply_cell (option_copied made.entry) }
    ensures reason { cell_data result.1 ≡ reason_cell (option_copied made.entry) why.now }
{
    match made {
        Some(made) => (Cell::Text(made.answer().text), Cell::Absent),
        None => (Cell::Null, Cell::Text(why)),
    }
}

/// Returns the number of the line in the scenario after, or in the one before if that alone has the line.
pub(crate) fn number_of(now: Option<LineResult<'_>>, was: Option<LineResult<'_>>) -> u64
    ensures { result ≡ number_of now.entry was.entry }
{
    match (now, was) {
        (Some(line), _) | (None, Some(line)) => line.number,
        (None, None) => 0,
    }
}

/// Returns the answered call of a line, if there is one.
pub(crate) fn answer_to<'a>(line: Option<LineResult<'a>>) -> Option<&'a Exchange>
    ensures { option_copied result ≡ answer_in line.entry }
{
    match line {
        Some(line) => match line.outcome {
            LineOutcome::Answered(exchange) => Some(exchange),
            LineOutcome::Faulty(_) | LineOutcome::Silent => None,
        },
        None => None,
    }
}

/// Returns why a machine doesn't answer a line.
pub(crate) fn reason_of(alloc: Global, line: Option<LineResult<'_>>) -> Result<Vec<u8>, AllocError>
    ensures { IfOk result (λ reason. reason.items ≡ reason_in line.entry) }
{
    match line {
        Some(line) => match line.outcome {
            LineOutcome::Faulty(fault) => message_of(alloc, line.line, fault),
            LineOutcome::Answered(_) | LineOutcome::Silent => Vec::from_slice(alloc, b"no call"),
        },
        None => Vec::from_slice(alloc, b"no such line"),
    }
}

// Returns the message about the fault of a line.
fn message_of(alloc: Global, line: &[u8], fault: ResolutionFault) -> Result<Vec<u8>, AllocError>
    ensures { IfOk result (λ text. text.items ≡ fault_text line.now fault) }
{
    match fault {
        ResolutionFault::TooLong => Vec::from_slice(alloc, b"line of more than 8192 bytes"),
        ResolutionFault::Misplaced(why) => Vec::from_slice(alloc, why.words().as_bytes()),
        ResolutionFault::Name(fault) => {
            let token = String::from_utf8_lossy(alloc, token_at(line, fault.column))?;
            let message = fault.reason.about(token.as_str()).to_string(alloc)?;
            Vec::from_slice(alloc, message.as_bytes())
        }
        ResolutionFault::Line(fault) => {
            let token = String::from_utf8_lossy(alloc, token_at(line, fault.column))?;
            let message = fault.reason.about(token.as_str()).to_string(alloc)?;
            Vec::from_slice(alloc, message.as_bytes())
        }
    }
}
