//! Records that aren't kept: the object of each as text.
ghost use Rattle.std.specs.Prelude.{◌≡◌, ◌∷◌, ◌++◌, [], decimal, IfOk, IsTrue, OnOk};
ghost use Rattle.std.specs.Str.Lossy.{utf8_lossy};
ghost use Rattle.std.specs.List.{list_all};
ghost use Rattle.json.specs.Print.{quoted};
ghost use Rattle.json.specs.Run.{is_plain};
ghost use Rattle.serde_json.specs.Data.{Members};
ghost use Rattle.serde_json.specs.Written.{comma_if, compact_text, members_text};
ghost use Rattle.view_records.specs.Cells.{cell_data, cells_data};
ghost use Rattle.view_records.specs.JsonTexts.{list_data, object_of, value_of};
ghost use Rattle.view_records.specs.Lists.{records_of};
ghost use Rattle.view_records.specs.ObjectTexts.{cell_text, member_if, names_ascend};

use crate::cell::Cell;
use crate::record_list::RecordList;
use itoa::Buffer;
use json::Writer;
use std::alloc::{AllocError, Global};

/// Appends the object of a record to a text, without spaces: the text of the object that a `RecordList` renders. The cells are in
/// the order of their names. The error is out of memory.
pub fn add_object(
    alloc: Global,
    text: Vec<u8>,
    cells: &[(&'static str, Cell<'_>)],
) -> Result<Vec<u8>, AllocError>
    requires { IsTrue (names_ascend (cells_data cells.now)) }
    ensures { IfOk result (λ more. more.items
        ≡ text.items ++ compact_text (object_of (cells_data cells.now))) }
{
    let mut object = ObjectText {
        alloc,
        text,
        has_members: false,
    };
    object.text.push(b'{')?;
    for (name, cell) in cells {
        object.add(*name, *cell)?;
    }
    let mut text = object.text;
    text.push(b'}')?;
    Ok(text)
}

// The text of an object that has begun.
#[derive(Drop)]
struct ObjectText {
    alloc: Global,
    text: Vec<u8>,
    has_members: bool,
}

impl ObjectText {
    // Appends the member of a cell, if the cell is there.
    fn add(&mut self, name: &str, cell: Cell<'_>) -> Result<(), AllocError>
        ensures { OnOk result ((rest : Members) →
            self.new.text.items ++ members_text self.new.has_members rest
            ≡ self.old.text.items ++ members_text self.old.has_members
            (member_if name.now (value_of (cell_data cell.entry)) rest)) }
    {
        if let Cell::Absent = cell {
            return Ok(());
        }
        put_name(self.alloc, &mut self.text, self.has_members, name)?;
        put_cell(self.alloc, &mut self.text, cell)?;
        self.has_members = true;
        Ok(())
    }
}

// Appends the name of a member, with a comma before it if it isn't the first one.
fn put_name(alloc: Global, text: &mut Vec<u8>, is_later: bool, name: &str) -> Result<(), AllocError>
    ensures { OnOk result (text.new.items
        ≡ text.old.items ++ (comma_if is_later ++ (quoted name.now ++ 58 ∷ []))) }
{
    put_comma(text, is_later)?;
    put_text(alloc, text, name)?;
    text.extend_from_slice(b":")
}

// Appends a comma, if a member is before the next one.
fn put_comma(text: &mut Vec<u8>, is_later: bool) -> Result<(), AllocError>
    ensures { OnOk result (text.new.items ≡ text.old.items ++ comma_if is_later) }
{
    if is_later {
        text.extend_from_slice(b",")
    } else {
        Ok(())
    }
}

// Appends the value of a cell.
fn put_cell(alloc: Global, text: &mut Vec<u8>, cell: Cell<'_>) -> Result<(), AllocError>
    ensures { OnOk result (text.new.items ≡ text.old.items ++ cell_text (cell_data cell.entry)) }
{
    match cell {
        Cell::Absent => Ok(()),
        Cell::Null => text.extend_from_slice(b"null"),
        Cell::Word(word) => put_bytes(alloc, text, word.as_bytes()),
        Cell::Text(bytes) => put_bytes(alloc, text, bytes),
        Cell::Number(number) => put_number(text, number),
        Cell::List(records) => put_list(alloc, text, records),
    }
}

// Appends a number.
fn put_number(text: &mut Vec<u8>, number: u64) -> Result<(), AllocError>
    ensures { OnOk result (text.new.items ≡ text.old.items ++ decimal number) }
{
    let mut digits = Buffer::new();
    text.extend_from_slice(digits.format(number).as_bytes())
}

// Appends bytes in quotes, of which those that aren't UTF-8 are replaced.
#[tactic(auto, using(crate::proofs::TokenLemmas::lossy_text))]
fn put_bytes(alloc: Global, text: &mut Vec<u8>, bytes: &[u8]) -> Result<(), AllocError>
    ensures { OnOk result (text.new.items ≡ text.old.items ++ quoted (utf8_lossy bytes.now)) }
{
    match std::str::from_utf8(bytes) {
        Ok(valid) => put_text(alloc, text, valid),
        Err(_) => {
            let replaced = String::from_utf8_lossy(alloc, bytes)?;
            put_text(alloc, text, replaced.as_str())
        }
    }
}

// Appends a text in quotes.
fn put_text(alloc: Global, text: &mut Vec<u8>, shown: &str) -> Result<(), AllocError>
    ensures { OnOk result (text.new.items ≡ text.old.items ++ quoted shown.now) }
{
    if is_plain(shown.as_bytes()) {
        put_plain(text, shown.as_bytes())
    } else {
        put_escaped(alloc, text, shown)
    }
}

// Returns whether no byte of a text needs an escape.
fn is_plain(text: &[u8]) -> bool
    ensures { result ≡ list_all is_plain text.now }
{
    text.iter()
        .all(|byte| !(*byte == b'"' || *byte == b'\\' || *byte < 32))
}

// Appends a text that needs no escapes in quotes.
fn put_plain(text: &mut Vec<u8>, shown: &[u8]) -> Result<(), AllocError>
    requires { IsTrue (list_all is_plain shown.now) }
    ensures { OnOk result (text.new.items ≡ text.old.items ++ quoted shown.now) }
{
    text.extend_from_slice(b"\"")?;
    text.extend_from_slice(shown)?;
    text.extend_from_slice(b"\"")
}

// Appends a text in quotes, with escapes.
#[tactic(auto, using(crate::proofs::TokenLemmas::print_one))]
fn put_escaped(alloc: Global, text: &mut Vec<u8>, shown: &str) -> Result<(), AllocError>
    ensures { OnOk result (text.new.items ≡ text.old.items ++ quoted shown.now) }
{
    let mut writer = Writer::new(Vec::new(alloc));
    writer.string(shown)?;
    text.extend_from_slice(writer.into_inner().as_slice())
}

// Appends a list of records.
#[tactic(auto, using(crate::proofs::MemberLemmas::list_whole))]
fn put_list(alloc: Global, text: &mut Vec<u8>, records: &RecordList) -> Result<(), AllocError>
    ensures { OnOk result (text.new.items
        ≡ text.old.items ++ compact_text (list_data (records_of records.now))) }
{
    let list = records.to_value()?.to_vec(alloc)?;
    text.extend_from_slice(list.as_slice())
}
