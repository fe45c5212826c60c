//! Faults of start lists for people who write them: the part of the list, what was expected there, and what was found.
//! `list_review` calls it for `check`.
//!
//! ```text
//! start[1] archive: caps: expected a whole number of at most 4294967295, found "8"
//! ```
#![tactic(auto)]

mod expected_text;
mod found_value;
mod json_advice;
mod list_fault;
mod value_flaw;
mod values;

pub use found_value::FoundValue;
pub use list_fault::{FaultSite, JsonFlaw, PlacedFault};
pub use value_flaw::{ValueFlaw, member_name};
pub use values::{EntryValue, elements, find_entries, member, runs};
