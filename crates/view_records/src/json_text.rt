//! Lists of records as JSON.
ghost use Rattle.std.specs.Prelude.{◌≡◌, IfOk, OnOk, map, option_map};
ghost use Rattle.serde_json.specs.Data.{no_members};
ghost use Rattle.serde_json.specs.View.{members_view, view};
ghost use Rattle.serde_json.specs.Written.{compact_text};
ghost use Rattle.view_records.specs.JsonTexts.{json_text, list_data, members_with, object_of, value_of, with_value};
ghost use Rattle.view_records.specs.Lists.{records_of};
ghost use Rattle.view_records.specs.Stored.{record_data, stored_data};

use crate::record_list::RecordList;
use crate::stored_cell::{NamedCell, StoredCell};
use serde_json::{Map, Value};
use std::alloc::{AllocError, Global};

impl RecordList {
    /// Renders the records as an array of objects, one on a line. The error is out of memory.
    pub fn to_json(&self) -> Result<Vec<u8>, AllocError>
        ensures { IfOk result (λ text. text.items ≡ json_text (records_of self.now)) }
    {
        let mut text = Vec::from_slice(self.alloc, b"[")?;
        let mut before: &[u8] = b"";
        for record in &self.records {
            let object = object_text(self.alloc, record.as_slice())?;
            text.extend_from_slice(before)?;
            text.extend_from_slice(object.as_slice())?;
            before = b",\n";
        }
        text.extend_from_slice(b"]\n")?;
        Ok(text)
    }

    /// Returns the records as a value of JSON. The error is out of memory.
    pub(crate) fn to_value(&self) -> Result<Value, AllocError>
        ensures { IfOk result (λ value. view value ≡ list_data (records_of self.now)) }
    {
        Ok(Value::Array(self.objects()?))
    }

    // Returns the object of each record.
    fn objects(&self) -> Result<Vec<Value>, AllocError>
        ensures { IfOk result (λ objects. map view objects.items ≡ map object_of (records_of self.now)) }
    {
        let mut objects = Vec::new(self.alloc);
        for record in &self.records {
            objects.push(object_of(self.alloc, record.as_slice())?)?;
        }
        Ok(objects)
    }
}

// Returns the text of a record's object. The error is out of memory.
#[tactic(auto, using(crate::proofs::MemberLemmas::object_whole))]
fn object_text(alloc: Global, cells: &[NamedCell]) -> Result<Vec<u8>, AllocError>
    ensures { IfOk result (λ text. text.items ≡ compact_text (object_of (record_data cells.now))) }
{
    object_of(alloc, cells)?.to_vec(alloc)
}

// Returns the object of a record. The error is out of memory.
fn object_of(alloc: Global, cells: &[NamedCell]) -> Result<Value, AllocError>
    ensures { IfOk result (λ value. view value ≡ object_of (record_data cells.now)) }
{
    Ok(Value::Object(members_of(alloc, cells)?))
}

// Returns the members of a record's object. The error is out of memory.
fn members_of(alloc: Global, cells: &[NamedCell]) -> Result<Map<String, Value>, AllocError>
    ensures { IfOk result (λ members. members_view members.entries
        ≡ members_with no_members (record_data cells.now)) }
{
    let mut members = Map::new(alloc);
    for (name, cell) in cells {
        put_cell(&mut members, alloc, *name, cell)?;
    }
    Ok(members)
}

// Adds the member of a cell, if the cell is there. The error is out of memory.
fn put_cell(
    members: &mut Map<String, Value>,
    alloc: Global,
    name: &str,
    cell: &StoredCell,
) -> Result<(), AllocError>
    ensures { OnOk result (members_view members.new.entries
        ≡ with_value name.now (value_of (stored_data cell.now)) (members_view members.old.entries)) }
{
    match value_of(alloc, cell)? {
        Some(value) => serde_json::put(members, alloc, name, value),
        None => Ok(()),
    }
}

// Returns the value of a cell, if it is there. The error is out of memory.
fn value_of(alloc: Global, cell: &StoredCell) -> Result<Option<Value>, AllocError>
    ensures { IfOk result (λ value. option_map view value ≡ value_of (stored_data cell.now)) }
{
    match cell {
        StoredCell::Absent => Ok(None),
        StoredCell::Null => Ok(Some(Value::Null)),
        StoredCell::Text(text) => {
            let text = String::from_utf8_lossy(alloc, text.as_slice())?;
            Ok(Some(Value::String(text)))
        }
        StoredCell::Number(number) => Ok(Some(Value::from(*number))),
        StoredCell::List(nested) => Ok(Some(nested.value.clone()?)),
    }
}
