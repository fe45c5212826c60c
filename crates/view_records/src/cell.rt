//! Cells as a view writes them.
ghost use Rattle.std.specs.Prelude.{◌≡◌, IfOk};
ghost use Rattle.std.specs.Option.{option_copied, option_map};
ghost use Rattle.view_records.specs.Cells.{cell_data};
ghost use Rattle.view_records.specs.JsonTexts.{list_data};
ghost use Rattle.view_records.specs.Lists.{records_of};
ghost use Rattle.view_records.specs.Records.{if_list, if_number, if_text, null_if_absent};
ghost use Rattle.view_records.specs.Stored.{stored_data};

use crate::record_list::RecordList;
use crate::stored_cell::{NestedList, StoredCell};
use std::alloc::{AllocError, Global};

/// A value of a record.
#[derive(Clone, Copy)]
pub enum Cell<'a> {
    /// Not there: left out of JSON.
    Absent,
    /// Known to be nothing: `null` in JSON.
    Null,
    /// A text.
    Word(&'a str),
    /// A text of bytes. JSON has U+FFFD in place of bytes that aren't UTF-8.
    Text(&'a [u8]),
    /// A number.
    Number(u64),
    /// A list of records.
    List(&'a RecordList),
}

impl<'a> Cell<'a> {
    /// Returns a text, or an absent cell.
    pub fn if_text(text: Option<&'a [u8]>) -> Cell<'a>
        ensures { cell_data result ≡ if_text (option_copied text.entry) }
    {
        match text {
            Some(text) => Cell::Text(text),
            None => Cell::Absent,
        }
    }

    /// Returns a number, or an absent cell.
    pub fn if_number(count: Option<u64>) -> Cell<'a>
        ensures { cell_data result ≡ if_number count }
    {
        match count {
            Some(count) => Cell::Number(count),
            None => Cell::Absent,
        }
    }

    /// Returns a list of records, or an absent cell.
    pub fn if_list(records: Option<&'a RecordList>) -> Cell<'a>
        ensures { cell_data result
            ≡ if_list (option_map (λ list. list_data (records_of list)) (option_copied records.entry)) }
    {
        match records {
            Some(records) => Cell::List(records),
            None => Cell::Absent,
        }
    }

    /// Returns the cell, or null if it is absent.
    pub fn or_null(self) -> Cell<'a>
        ensures { cell_data result ≡ null_if_absent (cell_data self.entry) }
    {
        match self {
            Cell::Absent => Cell::Null,
            there => there,
        }
    }

    /// Returns the cell with texts of its own. The error is out of memory.
    #[tactic(auto, using(crate::proofs::MemberLemmas::list_whole))]
    pub(crate) fn stored(self, alloc: Global) -> Result<StoredCell, AllocError>
        ensures { IfOk result (λ cell. stored_data cell ≡ cell_data self.entry) }
    {
        match self {
            Cell::Absent => Ok(StoredCell::Absent),
            Cell::Null => Ok(StoredCell::Null),
            Cell::Word(word) => Ok(StoredCell::Text(Vec::from_slice(alloc, word.as_bytes())?)),
            Cell::Text(text) => Ok(StoredCell::Text(Vec::from_slice(alloc, text)?)),
            Cell::Number(number) => Ok(StoredCell::Number(number)),
            Cell::List(records) => Ok(StoredCell::List(NestedList {
                value: records.to_value()?,
            })),
        }
    }
}
