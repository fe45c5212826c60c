//! Start lists for people who write them: the list of a text with its findings, or the fault and its place. `check`
//! calls it; `tree`, `reach`, `route` and `diff` read the list alone.
//!
//! ```text
//! let review = Review::read(alloc, text)?;
//! ```
#![tactic(auto)]

mod review;

pub use list_faults::{FaultSite, FoundValue, JsonFlaw, PlacedFault, ValueFlaw, member_name};
pub use list_findings::{
    Advice, Finding, FindingText, Remark, StaticName, UnusedBudget, unreachable_rules_never_decide,
};
pub use list_parts::{EntryShortfall, EntryStep, EntrySteps, ListPart};
pub use list_tree::{ListGraph, ListTree};
pub use review::{Review, bootable_list};
