//! Names in a scenario: their values, the filling of lines, the bindings of replies, and the lines that begin with `@`. How much a
//! reply has bound after the host refused memory isn't stated.
//!
//! `line_steps`, `run_scenario`, `budget_least` and `run_record` call it for each line. For example `fill(line, known, room)?` makes
//! `alice free 3` of `alice free $page`, if the value of `page` is 3.
#![tactic(auto)]

mod bound_names;
mod braces;
mod digits;
mod directive_fault;
mod directives;
mod fault;
mod filling;
mod learning;
mod list_filling;
mod name_table;
mod names;
mod pieces;
mod round_mark;
mod sums;
mod texts;
mod theorems;
mod tokens;

pub use bound_names::BoundName;
pub use directive_fault::DirectiveFault;
pub use directives::{Directive, NameValue, directive_of};
pub use fault::{NameFault, NameMessage, NameReason};
pub use filling::{FilledLine, fill, source_column};
pub use list_filling::{Unfilled, UnknownName, fill_list};
pub use name_table::NameTable;
pub use names::is_name;
pub use round_mark::{Border, RoundMark};
pub use theorems::{
    bound_names_stand, given_names_count, marked_lines_stay, plain_lines_stay, rounds_are_forgotten,
};
pub use tokens::token_at;
