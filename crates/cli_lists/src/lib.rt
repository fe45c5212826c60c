//! The commands `check`, `tree`, `reach`, `route` and `diff` of `nethrywel`: start lists are read, and what is asked for is
//! printed.
//!
//! `nethrywel` calls a function for each command with its options, and exits with the status that the function returns. For
//! example `show_tree(host, asked, settings)` prints the components of a start list.
#![tactic(auto)]

mod check;
mod check_documents;
mod check_records;
mod diff;
mod diff_files;
mod diff_misread;
mod diff_policy;
mod diff_runs;
mod diff_text;
mod reach_command;
mod reach_documents;
mod review;
mod route;
mod tree;

pub use check::check_list;
pub use diff::compare_lists;
pub use reach_command::show_reach;
pub use route::show_route;
pub use tree::show_tree;
