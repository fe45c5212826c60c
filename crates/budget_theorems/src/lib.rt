//! Theorems on budgets: how a budget determines the answers of a component and of a session.
//!
//! The theorems are about the one-client model of `own_model` and do nothing at run time. The crates that measure budgets
//! depend on them; for example, `cells_are_exact` states that a cell is a rectangle of budgets.
#![tactic(auto)]

mod accounts;
mod clients;
mod intervals;
mod rows;
mod sessions;

pub use accounts::{
    cells_are_exact, replies_show_shortfalls, same_answers_in_a_cell, shortfall_by_cells,
};
pub use clients::{client_shortfall_by_cells, same_answers_of_a_client};
pub use intervals::intervals_are_exact;
pub use rows::budgets_are_worked;
pub use sessions::{same_answers_of_a_session, session_shortfall_by_cells};
