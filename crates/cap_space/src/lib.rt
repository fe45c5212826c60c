//! The capability space of a component: each capability is stored under the selector by which the component names it.
//!
//! `pd_core` has one space for each script. For example, the first `insert` into an empty space returns `Selector(1)`.
#![tactic(auto)]

mod cap;
mod place_bitmap;
mod space;

pub use cap::Cap;
pub use space::CapSpace;
