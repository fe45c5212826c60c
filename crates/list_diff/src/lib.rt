//! The differences between two start lists: entries that were added, removed or have another budget, who reaches whom, needs, and
//! replies; as values, as lines that people read, and as JSON documents for programs. `diff` calls it, as
//! `changes(alloc, &before, &after)?` and `difference_lines(alloc, &found)?`.
#![tactic(auto)]

mod differences;
mod entry_changes;
mod entry_records;
mod label_sets;
mod line_outcomes;
mod lines;
mod moved_labels;
mod need_changes;
mod placed_breach;
mod policy_breaches;
mod reach_changes;
mod reach_records;
mod records;
mod reply_changes;
mod theorems;

pub use differences::{ListDifferences, has_same_machine};
pub use entry_changes::{EntryChange, changes};
pub use label_sets::label_records;
pub use line_outcomes::{LineOutcome, LineResult, ResolutionFault, line_results};
pub use lines::difference_lines;
pub use moved_labels::MovedLabels;
pub use need_changes::{ComponentNeed, NeedChange, QuotaAmounts, lacks};
pub use placed_breach::{PlacedBreach, placed_breaches};
pub use policy_breaches::{BreachChange, breach_changes};
pub use reach_changes::{ReachChange, ReachSide, leads};
pub use records::difference_documents;
pub use reply_changes::{ComparedLines, ReplyChange, compared_lines};
pub use theorems::{breaches_of_one_list_are_reported, changed_access_is_reported};
