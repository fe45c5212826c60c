//! Memory in dataspaces: each dataspace has whole pages, for which an account is charged.
//!
//! `pd_core`, the heaps and the file service allocate here. For example, `memory.alloc(memory.root(), 5000)` returns the
//! key of a dataspace of two pages.
#![tactic(auto)]

mod copy;
mod dataspace;
mod memory;
mod page_runs;
mod spaces;
mod theorems;

pub use memory::Memory;
pub use theorems::accounts_find_places;
