//! A heap in which each block is a dataspace of its own, attached in the heap window. The blocks of one heap form a
//! doubly linked list through their headers.
//!
//! `pd_core` has one for each script, and the servers allocate session objects in it. For example, `heap.alloc(memory,
//! map, 1)` charges one page and one capability.
#![tactic(auto)]

mod header;
mod heap;
mod links;
mod theorems;

pub use heap::SlicedHeap;
pub use theorems::{blocks_are_regions, heaps_stay, maps_stay, payloads_are_memory};
