//! The command `least` of `nethrywel`: the budgets that suffice for a scenario are computed and printed.
//!
//! `nethrywel` calls `print_minimum_budgets(host, asked, settings)` with what the command line says, and ends with the exit status that
//! this returns.
#![tactic(auto)]

mod budget_records;
mod budget_text;
mod least_command;

pub use least_command::print_minimum_budgets;
