//! Records, rows of named cells, and their texts: JSON, and tables for people. Members of an object are in the order of their
//! names, and bytes that aren't UTF-8 are U+FFFD.
//!
//! Views call it: `records.add(&[("name", Cell::Text(name)), ("caps", Cell::Number(caps))])` adds a record to a `RecordList`, and
//! `records.to_json()` is the list's text.
#![tactic(auto)]

mod cell;
mod json_text;
mod object_text;
mod record_list;
mod stored_cell;
mod table;

pub use cell::Cell;
pub use object_text::add_object;
pub use record_list::RecordList;
pub use table::table_text;
