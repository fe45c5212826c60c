//! What a check of a start list finds, as records: findings and advice, the list's fault, and the breaches of a policy.
ghost use Rattle.std.specs.Prelude.{◌≡◌, ◌∷◌, ◌++◌, [], map, string_bytes, OnOk, IfOk};
ghost use Rattle.view_records.specs.Cells.{cell_data};
ghost use Rattle.view_records.specs.Lists.{records_of};
ghost use Rattle.view_records.specs.Records.{absent, number};
ghost use Rattle.list_findings.specs.Spare.{if_any};
ghost use Rattle.cli_lists.specs.CheckDocuments.{ListsFault, advice_records, faulty_part, file_record, finding_at, finding_record, note_record, noted_record, placed_at, remark_record, review_records, verdict_records};

use cli_base::{PolicyDiagnostic, PolicyRemark, PolicyVerdict};
use list_review::{FaultSite, Finding, ListPart, PlacedFault, Review, member_name};
use std::alloc::{AllocError, Global};
use view_records::{Cell, RecordList};

/// Adds the findings and the advice of a start list of a path. Fails if the host is out of memory.
pub(crate) fn add_review(
    alloc: Global,
    records: &mut RecordList,
    path: &str,
    review: &Review,
) -> Result<(), AllocError>
    ensures { OnOk result
        (records_of records.new ≡ records_of records.old ++ review_records path.now review.now) }
{
    for finding in review.findings() {
        add_finding(alloc, records, path, finding)?;
    }
    add_advice(alloc, records, path, review)
}

// Adds a finding, at its place or with its part.
fn add_finding(
    alloc: Global,
    records: &mut RecordList,
    path: &str,
    finding: &Finding,
) -> Result<(), AllocError>
    ensures { OnOk result
        (records_of records.new ≡ records_of records.old ++ finding_record path.now finding.now ∷ []) }
{
    let text = finding.remark.to_string(alloc)?;
    add_found(alloc, records, path, &finding.part, text.as_str())
}

// Adds the text of a finding, at its place or with its part.
fn add_found(
    alloc: Global,
    records: &mut RecordList,
    path: &str,
    part: &ListPart,
    text: &str,
) -> Result<(), AllocError>
    ensures { OnOk result (records_of records.new
        ≡ records_of records.old ++ finding_at path.now part.now text.now ∷ []) }
{
    if let ListPart::Text(line, column) = part {
        return add_noted(records, "finding", path, at(*line, *column), text);
    }
    let part = part.to_string(alloc)?;
    let place = (Cell::Absent, Cell::Absent, Cell::Word(part.as_str()));
    add_noted(records, "finding", path, place, text)
}

// Adds the advice on servers with unused budgets, if there is any.
fn add_advice(
    alloc: Global,
    records: &mut RecordList,
    path: &str,
    review: &Review,
) -> Result<(), AllocError>
    ensures { OnOk result (records_of records.new ≡ records_of records.old
        ++ advice_records path.now (if_any review.now.spare.items)) }
{
    let Some(advice) = review.advice() else {
        return Ok(());
    };
    let text = advice.to_string(alloc)?;
    add_text(records, "advice", path, text.as_str())
}

/// Adds the fault of a start list of a path. Fails if the host is out of memory.
pub(crate) fn add_fault(
    alloc: Global,
    records: &mut RecordList,
    path: &str,
    fault: &PlacedFault,
) -> Result<(), AllocError>
    ensures { OnOk result (ListsFault path.now fault.now.place records.old records.new) }
{
    let text = fault.to_string(alloc)?;
    if let Some(start) = placed_at(&fault.place) {
        return add_noted(records, "fault", path, at(start.0, start.1), text.as_str());
    }
    let part = faulty_part(alloc, &fault.place)?;
    let place = (Cell::Null, Cell::Null, Cell::Word(part.as_str()));
    add_noted(records, "fault", path, place, text.as_str())
}

// Returns the line and the column of a fault in the text.
fn placed_at(place: &FaultSite) -> Option<(usize, usize)>
    ensures { result ≡ placed_at place.now }
{
    match place {
        FaultSite::Text(line, column, _) => Some((*line, *column)),
        FaultSite::Value(_) | FaultSite::Budget(_) | FaultSite::Size(_) | FaultSite::Nowhere => {
            None
        }
    }
}

// Returns the part of a list at a place, with its member as a finding names it. The part is empty if the place is in no list.
fn faulty_part(alloc: Global, place: &FaultSite) -> Result<String, AllocError>
    ensures { IfOk result (λ part. string_bytes part ≡ faulty_part place.now) }
{
    match place {
        FaultSite::Value(flaw) => match flaw.place.member {
            Some(member) => format!(in alloc; "{}: {}", flaw.part, member_name(member)),
            None => flaw.part.to_string(alloc),
        },
        FaultSite::Budget(lack) => lack.steps.to_string(alloc),
        FaultSite::Text(_, _, _) | FaultSite::Size(_) | FaultSite::Nowhere => {
            Ok(String::new(alloc))
        }
    }
}

/// Adds the remarks on the policy of a path and its breaches, its faults, or why it isn't read. Fails if the host is out of memory.
pub(crate) fn add_verdict(
    records: &mut RecordList,
    path: &str,
    verdict: &PolicyVerdict,
) -> Result<(), AllocError>
    ensures { OnOk result
        (records_of records.new ≡ records_of records.old ++ verdict_records path.now verdict.now) }
{
    match verdict {
        PolicyVerdict::Held(found) => {
            add_remarks(records, path, found.remarks.as_slice())?;
            add_notes(records, "breach", path, found.broken.as_slice())
        }
        PolicyVerdict::Faulty(faults) => add_notes(records, "fault", path, faults.as_slice()),
        PolicyVerdict::ReadFailure(why) => add_text(records, "fault", path, why.as_str()),
    }
}

// Adds remarks on lines of a policy.
fn add_remarks<'a>(
    records: &mut RecordList,
    path: &'a str,
    remarks: &'a [PolicyRemark],
) -> Result<(), AllocError>
    ensures { OnOk result (records_of records.new
        ≡ records_of records.old ++ map (remark_record path.now) remarks.now) }
{
    for remark in remarks {
        add_note(records, remark.severity.name(), path, &remark.diagnostic)?;
    }
    Ok(())
}

// Adds breaches or faults of lines of a policy.
fn add_notes<'a>(
    records: &mut RecordList,
    kind: &'static str,
    path: &'a str,
    notes: &'a [PolicyDiagnostic],
) -> Result<(), AllocError>
    ensures { OnOk result (records_of records.new
        ≡ records_of records.old ++ map (note_record kind.now path.now) notes.now) }
{
    for noted in notes {
        add_note(records, kind, path, noted)?;
    }
    Ok(())
}

// Adds a note on a line of a policy, or on all of it.
fn add_note(
    records: &mut RecordList,
    kind: &'static str,
    path: &str,
    noted: &PolicyDiagnostic,
) -> Result<(), AllocError>
    ensures { OnOk result (records_of records.new
        ≡ records_of records.old ++ note_record kind.now path.now noted.now ∷ []) }
{
    let text = noted.text.as_str();
    if noted.line == 0 {
        return add_text(records, kind, path, text);
    }
    add_noted(records, kind, path, at(noted.line, noted.column), text)
}

// Adds a text about a whole file.
fn add_text(
    records: &mut RecordList,
    kind: &'static str,
    path: &str,
    text: &str,
) -> Result<(), AllocError>
    ensures { OnOk result (records_of records.new
        ≡ records_of records.old ++ file_record kind.now path.now text.now ∷ []) }
{
    add_noted(
        records,
        kind,
        path,
        (Cell::Absent, Cell::Absent, Cell::Absent),
        text,
    )
}

// Returns the cells of a line and a column.
fn at<'a>(line: usize, column: usize) -> (Cell<'a>, Cell<'a>, Cell<'a>)
    ensures line { cell_data result.0 ≡ number line }
    ensures column { cell_data result.1 ≡ number column }
    ensures part { cell_data result.2 ≡ absent }
{
    (
        Cell::Number(line as u64),
        Cell::Number(column as u64),
        Cell::Absent,
    )
}

// Adds a text about a file at a place: a line, a column, and a part of the list.
fn add_noted<'a>(
    records: &mut RecordList,
    kind: &'static str,
    path: &'a str,
    place: (Cell<'a>, Cell<'a>, Cell<'a>),
    text: &'a str,
) -> Result<(), AllocError>
    ensures { OnOk result (records_of records.new ≡ records_of records.old
        ++ noted_record kind.now path.now (cell_data place.entry.0) (cell_data place.entry.1)
        (cell_data place.entry.2) text.now ∷ []) }
{
    let (line, column, part) = place;
    records.add(&[
        ("kind", Cell::Word(kind)),
        ("file", Cell::Word(path)),
        ("line", line),
        ("column", column),
        ("part", part),
        ("text", Cell::Word(text)),
    ])
}
