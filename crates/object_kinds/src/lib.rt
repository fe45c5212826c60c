//! The kinds of objects that a declared server offers. `list_parser` reads them, and `object_service` answers by them.
//! Example: `ObjectKind::new("view", 160, 0)` is a kind whose objects have a block and no contents.
#![tactic(auto)]

mod kind;

pub use kind::{LEAST_BLOCK, MOST_KINDS, ObjectKind, copy_kinds};
