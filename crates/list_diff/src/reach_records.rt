//! Labels that are routed elsewhere, as records.
ghost use Rattle.std.specs.Prelude.{◌≡◌, ◌∷◌, ◌++◌, [], string_bytes, IfOk, OnOk};
ghost use Rattle.std.specs.Option.{option_and_then, option_copied, option_map};
ghost use Rattle.list_reach.specs.RuleTexts.{summary_text};
ghost use Rattle.view_records.specs.Cells.{cell_data};
ghost use Rattle.view_records.specs.Lists.{records_of};
ghost use Rattle.view_records.specs.Records.{if_text, null_if_absent};
ghost use Rattle.list_diff.specs.ReachRecords.{AreTextsOf, reach_label, reach_record, reach_word, target_path};

use crate::label_sets::label_records;
use crate::moved_labels::MovedLabels;
use crate::reach_changes::ReachChange;
use list_labels::ClientLabel;
use list_reach::{Reach, RoutePath, RouteSummary};
use std::alloc::{AllocError, Global};
use view_records::{Cell, RecordList};

/// Adds the record of a script and a server, with the labels that the server gains and loses. Fails if the host is out of memory.
pub(crate) fn add_reach(
    alloc: Global,
    records: &mut RecordList,
    change: &ReachChange<'_>,
) -> Result<(), AllocError>
    ensures { OnOk result
        (records_of records.new ≡ records_of records.old ++ reach_record change.entry.now ∷ []) }
{
    let gained = MovedTexts::of(alloc, &change.gained)?;
    let lost = MovedTexts::of(alloc, &change.lost)?;
    add_change(records, change, &gained, &lost)
}

// The records of moved labels, and the rules by which a request with their witness is routed, as text.
#[derive(Drop)]
pub(crate) struct MovedTexts {
    pub(crate) labels: RecordList,
    pub(crate) rules: Option<String>,
    pub(crate) old_rules: Option<String>,
}

impl MovedTexts {
    // Returns the texts of moved labels.
    fn of(alloc: Global, moved: &MovedLabels<'_>) -> Result<MovedTexts, AllocError>
        ensures { IfOk result (AreTextsOf moved.entry.now) }
    {
        let labels = label_records(alloc, &moved.set.labels)?;
        let rules = rules_of(alloc, moved.now.as_ref())?;
        let old_rules = rules_of(alloc, moved.was.as_ref())?;
        Ok(MovedTexts {
            labels,
            rules,
            old_rules,
        })
    }
}

// Returns the rules of a route path as text, if there is a path.
fn rules_of(alloc: Global, course: Option<&RoutePath<'_>>) -> Result<Option<String>, AllocError>
    ensures { IfOk result (λ text. option_map string_bytes text
        ≡ option_map summary_text (option_copied course.entry)) }
{
    match course {
        Some(course) => {
            let text = RouteSummary::of(course).to_string(alloc)?;
            Ok(Some(text))
        }
        None => Ok(None),
    }
}

// Adds a change with these texts of the labels that the server gains and loses.
fn add_change<'a>(
    records: &mut RecordList,
    change: &'a ReachChange<'a>,
    gained: &'a MovedTexts,
    lost: &'a MovedTexts,
) -> Result<(), AllocError>
    requires gained { AreTextsOf change.now.gained gained.now }
    requires lost { AreTextsOf change.now.lost lost.now }
    ensures { OnOk result
        (records_of records.new ≡ records_of records.old ++ reach_record change.entry.now ∷ []) }
{
    records.add(&[
        ("kind", Cell::Word("reach")),
        ("change", Cell::Word("~")),
        ("name", Cell::Text(change.client.path())),
        ("service", Cell::Word(change.service)),
        ("to", Cell::Text(change.server.path())),
        ("reach", Cell::Word(word_of(change.now))),
        ("label", label_of(change.now)),
        ("was_reach", Cell::Word(word_of(change.was))),
        ("was_label", label_of(change.was)),
        ("gained", Cell::List(&gained.labels)),
        (
            "gained_witness",
            witness_of(change.gained.set.witness.as_ref()),
        ),
        ("gained_by", text_of(gained.rules.as_ref())),
        ("gained_to", path_of(change.gained.now.as_ref())),
        ("gained_was_by", text_of(gained.old_rules.as_ref())),
        ("gained_was_to", path_of(change.gained.was.as_ref())),
        ("lost", Cell::List(&lost.labels)),
        ("lost_witness", witness_of(change.lost.set.witness.as_ref())),
        ("lost_by", text_of(lost.rules.as_ref())),
        ("lost_to", path_of(change.lost.now.as_ref())),
        ("lost_was_by", text_of(lost.old_rules.as_ref())),
        ("lost_was_to", path_of(change.lost.was.as_ref())),
    ])
}

// Returns a label, or null if there is none.
fn witness_of(label: Option<&ClientLabel>) -> Cell<'_>
    ensures { cell_data result ≡ null_if_absent (if_text (option_copied label.entry)) }
{
    match label {
        Some(label) => Cell::Text(label.as_bytes()),
        None => Cell::Null,
    }
}

// Returns a text, or null if there is none.
fn text_of(text: Option<&String>) -> Cell<'_>
    ensures { cell_data result
        ≡ null_if_absent (if_text (option_map string_bytes (option_copied text.entry))) }
{
    match text {
        Some(text) => Cell::Word(text.as_str()),
        None => Cell::Null,
    }
}

// Returns the path of the component to which a request is routed, or null if there is none.
fn path_of<'a>(course: Option<&'a RoutePath<'_>>) -> Cell<'a>
    ensures { cell_data result
        ≡ null_if_absent (if_text (option_and_then target_path (option_copied course.entry))) }
{
    let Some(course) = course else {
        return Cell::Null;
    };
    match target_path(course) {
        Some(path) => Cell::Text(path),
        None => Cell::Null,
    }
}

// Returns the path of the component to which a request is routed, if it is routed to one.
fn target_path<'a>(course: &'a RoutePath<'_>) -> Option<&'a [u8]>
    ensures { option_map (λ path. path.now) result ≡ target_path course.entry.now }
{
    let child = course.child()?;
    let entry = course.list().entries().get(child)?;
    Some(entry.path())
}

// Returns the word for how many labels are routed there.
fn word_of(reach: Option<&Reach>) -> &'static str
    ensures { result.now ≡ reach_word (option_copied reach.entry) }
{
    match reach {
        Some(Reach::Always) => "always",
        Some(Reach::By(_)) => "some",
        Some(Reach::Never) | None => "none",
    }
}

// Returns one of the labels, if some are routed there and others aren't.
fn label_of(reach: Option<&Reach>) -> Cell<'_>
    ensures { cell_data result ≡ null_if_absent (if_text (reach_label (option_copied reach.entry))) }
{
    match reach {
        Some(Reach::By(label)) => Cell::Text(label.as_bytes()),
        Some(Reach::Always | Reach::Never) | None => Cell::Null,
    }
}
