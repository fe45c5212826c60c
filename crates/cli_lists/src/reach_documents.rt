//! A table of reach as records.
ghost use Rattle.std.specs.Prelude.{◌≡◌, ◌++◌, IfOk, OnOk};
ghost use Rattle.std.specs.Option.{option_copied};
ghost use Rattle.view_records.specs.Cells.{cell_data};
ghost use Rattle.view_records.specs.JsonTexts.{json_text};
ghost use Rattle.view_records.specs.Lists.{records_of};
ghost use Rattle.list_diff.specs.LabelRecords.{label_records};
ghost use Rattle.cli_lists.specs.ReachDocuments.{cell_records, label_cell, reach_records, reach_word, record_by, witness_cell};

use list_diff::label_records;
use list_parser::{ListEntry, StartList};
use list_reach::{Reach, ReachCell, ReachTable};
use std::alloc::{AllocError, Global};
use view_records::{Cell, RecordList};

/// Returns a list with a record for each cell of a start list's table. Fails if the host is out of memory.
pub(crate) fn reach_text(
    alloc: Global,
    list: &StartList,
    table: &ReachTable<'_>,
) -> Result<Vec<u8>, AllocError>
    ensures { IfOk result
        (λ text. text.items ≡ json_text (reach_records list.now table.now.cells.items)) }
{
    let mut records = RecordList::new(alloc);
    for cell in table.cells() {
        add_cell(alloc, &mut records, list, cell)?;
    }
    records.to_json()
}

// Adds a cell of a table, with the records of its labels.
fn add_cell(
    alloc: Global,
    records: &mut RecordList,
    list: &StartList,
    cell: &ReachCell<'_>,
) -> Result<(), AllocError>
    ensures { OnOk result
        (records_of records.new ≡ records_of records.old ++ cell_records list.now cell.now) }
{
    let labels = label_records(alloc, &cell.labels)?;
    let entries = list.entries();
    add_pair(
        records,
        entries.get(cell.client),
        cell,
        entries.get(cell.server),
        &labels,
    )
}

// Adds a cell of a script and a server with these records of its labels, if both are there.
fn add_pair<'a>(
    records: &mut RecordList,
    client: Option<&'a ListEntry>,
    cell: &'a ReachCell<'_>,
    server: Option<&'a ListEntry>,
    labels: &'a RecordList,
) -> Result<(), AllocError>
    requires { records_of labels.now ≡ label_records cell.now.labels }
    ensures { OnOk result (records_of records.new ≡ records_of records.old
        ++ record_by (option_copied client.entry) cell.now (option_copied server.entry)) }
{
    let (Some(client), Some(server)) = (client, server) else {
        return Ok(());
    };
    records.add(&[
        ("from", Cell::Text(client.path())),
        ("service", Cell::Word(cell.service)),
        ("to", Cell::Text(server.path())),
        ("reach", Cell::Word(reach_word(&cell.reach))),
        ("label", label_of(&cell.reach)),
        ("labels", Cell::List(labels)),
        ("witness", witness_of(&cell.reach)),
    ])
}

// Returns whether all, some or no labels reach the server.
fn reach_word(reach: &Reach) -> &'static str
    ensures { result.now ≡ reach_word reach.now }
{
    match reach {
        Reach::Always => "always",
        Reach::By(_) => "some",
        Reach::Never => "none",
    }
}

// Returns a shortest label, if not all labels or none reach the server.
fn label_of(reach: &Reach) -> Cell<'_>
    ensures { cell_data result ≡ label_cell reach.now }
{
    match reach {
        Reach::By(label) => Cell::Text(label.as_bytes()),
        Reach::Always | Reach::Never => Cell::Null,
    }
}

// Returns a shortest label, if a label reaches the server.
fn witness_of(reach: &Reach) -> Cell<'_>
    ensures { cell_data result ≡ witness_cell reach.now }
{
    match reach {
        Reach::Always => Cell::Text(b""),
        Reach::By(label) => Cell::Text(label.as_bytes()),
        Reach::Never => Cell::Null,
    }
}
