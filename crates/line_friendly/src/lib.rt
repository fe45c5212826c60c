//! The friendly form of a scenario's lines: comments, blanks, text in quotes, sizes, and the replies that are expected.
//!
//! `line_names`, `line_rounds`, `run_scenario`, `budget_least` and `run_record` call it. For example `read_friendly(line, room)?` makes the
//! engine's line `alice alloc 4096` and the expected reply `cap 1` of `alice alloc 4K => cap 1`.
#![tactic(auto)]

mod call_fault;
mod call_parts;
mod expected;
mod fault;
mod forms;
mod line_buffer;
mod plain;
mod quoted_bytes;
mod quotes;
mod reading;
mod requests;
mod theorems;
mod words;

pub use expected::{can_pass, is_misread, matched_by, meets};
pub use fault::{FriendlyFault, LineMessage, LineReason};
pub use forms::is_one_edit;
pub use line_buffer::LineBuffer;
pub use line_grammar::CallForm;
pub use plain::plain_call;
pub use quotes::arrow_of;
pub use reading::{
    FriendlyLine, end_of, is_call_line, is_meant, is_passed, read_friendly, trimmed_line,
};
pub use theorems::calls_are_calls;
pub use words::{next_word, skip_blanks};
