//! A balanced search tree inside memory that its user owns. `avl_alloc` keeps its free blocks in it.
//!
//! The user implements [`Nodes`]. [`find`], [`insert`] and [`remove`] allocate nothing; a tree is the number of its root, or 0. Fewer
//! than `2^n` nodes have a height of at most `2n + 1`, which bounds the loads of a call. Example:
//! `insert(&nodes, memory, 0, key, node)` makes a tree of one node.
#![tactic(auto)]

mod node;
mod rotations;
mod subtree;
mod theorems;
mod tree;

pub use node::{Links, Nodes, SearchStep};
pub use theorems::{
    found_node_is_first, insertion_adds_one, order_is_kept, removal_takes_one, trees_are_low,
};
pub use tree::{find, insert, remove};
