//! What a session has under names: nodes in a heap, in a tree by name and in the order of creation, their contents in a
//! sliced heap, and a buffer that it lends its client. Services of named things, as `file_service`, are over it. Example:
//! `NodeList::new(heap)` has no node yet.
#![tactic(auto)]

mod buffer_requests;
mod contents;
mod links;
mod name_tree;
mod node;
mod node_changes;
mod node_list;
mod nodes;
mod recent;
mod session_buffer;
mod session_heaps;
mod write_source;

pub use buffer_requests::error_of;
pub use contents::ContentRange;
pub use node::{LONGEST_NAME, NODE_SIZE, Node};
pub use node_list::{FoundNode, NodeList};
pub use server_frame::{Effect, Memory, RegionMap, Service, SlicedHeap};
pub use session_buffer::SessionBuffer;
pub use session_heaps::SessionHeaps;
pub use write_source::WriteSource;
