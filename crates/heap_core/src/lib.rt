//! The heap of an account: best fit in chunks that the account pays for, and large blocks with pages of their own.
//!
//! `pd_core` has one for each script, and each file session has one. For example, the first `heap.alloc(memory, map,
//! 100)` charges a chunk of 4 pages and one capability.
#![tactic(auto)]

mod blocks;
mod clear;
mod growth;
mod heap;
mod links;
mod loads;
mod lookup;
mod release;
mod theorems;
mod walk;
mod words;

pub use heap::Heap;
pub use loads::Loads;
pub use theorems::{blocks_are_regions, heaps_stay, maps_stay, payloads_are_memory};
