//! Theorems about servers that pay for their sessions from accounts of their own, as servers do in Genode.
//!
//! The theorems are about the one-client model of `own_model` and do nothing at run time; no crate uses them. A server with a guard
//! and a heap for each session answers as the model does: `guarded_servers_answer_alike`. One heap for all sessions of a server isn't
//! modelled.
#![tactic(auto)]

mod debts;
mod guarded;
mod rows;

pub use debts::no_debts_no_difference;
pub use guarded::guarded_servers_answer_alike;
pub use rows::guards_decide_an_attack;
