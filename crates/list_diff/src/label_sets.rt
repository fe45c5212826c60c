//! Sets of labels as records.
ghost use Rattle.std.specs.Prelude.{◌≡◌, ◌∷◌, ◌++◌, [], map, IfOk, OnOk};
ghost use Rattle.std.specs.Option.{option_copied, option_map};
ghost use Rattle.view_records.specs.Cells.{cell_data};
ghost use Rattle.view_records.specs.JsonTexts.{list_data};
ghost use Rattle.view_records.specs.Lists.{records_of};
ghost use Rattle.view_records.specs.Records.{if_list};
ghost use Rattle.list_diff.specs.LabelRecords.{label_records, part_cell, pattern_record, plain_record, shape_record};

use list_labels::{LabelSet, Pattern, Shape};
use std::alloc::{AllocError, Global};
use view_records::{Cell, RecordList};

/// Returns a record for each shape of a set of labels. Fails if the host is out of memory.
pub fn label_records(alloc: Global, labels: &LabelSet) -> Result<RecordList, AllocError>
    ensures { IfOk result (λ records. records_of records ≡ label_records labels.now) }
{
    let mut records = RecordList::new(alloc);
    for shape in labels.shapes() {
        add_shape(alloc, &mut records, shape)?;
    }
    Ok(records)
}

// Adds a shape: its pattern, and those whose labels aren't of the shape.
fn add_shape(alloc: Global, records: &mut RecordList, shape: &Shape) -> Result<(), AllocError>
    ensures { OnOk result
        (records_of records.new ≡ records_of records.old ++ shape_record shape.now ∷ []) }
{
    let mut except = RecordList::new(alloc);
    for pattern in shape.except() {
        add_pattern(&mut except, pattern, None)?;
    }
    add_pattern(records, shape.pattern(), Some(&except))
}

// Adds a pattern with its exceptions, if it can have some. A text that excludes no label is null.
fn add_pattern<'a>(
    records: &mut RecordList,
    pattern: &'a Pattern,
    except: Option<&'a RecordList>,
) -> Result<(), AllocError>
    ensures { OnOk result (records_of records.new ≡ records_of records.old
        ++ pattern_record pattern.now (if_list
        (option_map (λ list. list_data (records_of list)) (option_copied except.entry))) ∷ []) }
{
    match pattern {
        Pattern::Exactly(label) => records.add(&[
            ("exactly", Cell::Text(label.as_bytes())),
            ("beginning", Cell::Null),
            ("ending", Cell::Null),
            ("except", Cell::if_list(except)),
        ]),
        Pattern::Between(front, end) => records.add(&[
            ("exactly", Cell::Null),
            ("beginning", part_cell(front.as_bytes())),
            ("ending", part_cell(end.as_bytes())),
            ("except", Cell::if_list(except)),
        ]),
    }
}

// Returns a text, or null if it is empty.
fn part_cell(text: &[u8]) -> Cell<'_>
    ensures { cell_data result ≡ part_cell text.now }
{
    match text {
        [] => Cell::Null,
        _ => Cell::Text(text),
    }
}
