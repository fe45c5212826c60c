//! The accounts after a run: use, limit, need and peak of each, and of each closed session; as a table, and as JSON.
//!
//! `cli_runs` calls it. For example `accounts(alloc, play, reader, writer, complaints)?` runs a scenario, and returns its rows.
#![tactic(auto)]

mod account_list;
mod account_records;
mod account_rows;
mod account_table;
mod accounting;
mod needs;
mod peaks;
mod session_needs;
mod session_outcome;
mod session_table;

pub use account_list::{AccountList, accounts};
pub use account_rows::AccountRows;
