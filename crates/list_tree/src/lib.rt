//! The components of a start list with their budgets, and the servers to which their session requests are routed. They are
//! printed as text, as JSON documents, and as a graph. `list_review` calls it for `tree`.
//!
//! ```text
//! alice: 64K, 16 caps
//! ```
#![tactic(auto)]

mod graph;
mod records;
mod rules_text;
mod tree;

pub use graph::ListGraph;
pub use tree::ListTree;
