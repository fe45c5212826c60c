//! Region maps: the addresses at which dataspaces are attached, in the user window and in the heap window.
//!
//! Each script and each server has one map, and the heaps attach their blocks in it. For example, `map.attach(ds, 1)` on
//! an empty map returns the first address of the user window.
#![tactic(auto)]

mod known_rows;
mod map;
mod region_span;
mod row;
mod rows;
mod search;
mod table;

pub use map::{HEAP_LOW, RegionMap};
