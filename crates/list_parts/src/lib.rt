//! Parts of a start list, as diagnostics name them, the kinds of declared servers, and what inits have left while a machine starts.
//! The crates that find faults, findings and the tree of a list use it.
//!
//! ```text
//! start[2] alice: route[0]
//! ```
#![tactic(auto)]

mod budget_amount;
mod kinds;
mod list_part;
mod quoted_text;
mod start_quota;

pub use budget_amount::BudgetAmount;
pub use kinds::{KindsText, binary_word, kinds_of, provided_cell, reserve_cells};
pub use list_part::{EntryStep, EntrySteps, ListPart, PartId, RuleOwner, rule_at};
pub use quoted_text::{QuotedText, show_escaped, show_quoted, show_within};
pub use start_quota::{
    Amount, EntryShortfall, InitQuotas, StartQuota, first_shortfall, kept, left_of,
};
