//! Rounds of a scenario: the lines between `@repeat` and `@end` are run several times.
//!
//! `cli_base`, `cli_runs`, `cli_lists` and `cli_tests` call it before a run. For example `unfold(alloc, text, given)?` writes a
//! line between `@repeat 3` and `@end` three times.
#![tactic(auto)]

mod fault;
mod lines;
mod round_head;
mod structure;
mod theorems;
mod unfolded_text;
mod unfolding;

pub use fault::{RoundPlace, RoundsFault, RoundsMessage, RoundsReason, UnfoldError};
pub use theorems::plain_texts_stay;
pub use unfolded_text::{UnfoldedText, unfold};
