//! Colours for lines that are written to a terminal.
//!
//! `cli_base`, `cli_runs` and `cli_tests` call it. For example `paint(alloc, Lines::Replies, text)?` is a transcript whose
//! refusals are red.
#![tactic(auto)]

mod color_sink;
mod shade;

pub use color_sink::{ColorSink, paint};
pub use shade::{Lines, Shade};
