//! The word that may have been meant by a misspelt one: the first at one edit, or else at two. An edit adds, removes or replaces a
//! character, or exchanges two neighbouring ones; the edits are fewer than half of the bytes of the word that is meant. Reviews of
//! start lists call it for names, members and paths that are unknown: `nearest(alloc, &["label", "service"], "servise")` is
//! `service`.
#![tactic(auto)]

mod near;

pub use near::{is_away, nearest, word_away};
