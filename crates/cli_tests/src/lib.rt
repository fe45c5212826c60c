//! The command `test` of `nethrywel`: scenarios are run and policies are checked as tests, and their results are printed.
//!
//! `nethrywel` calls `run_tests(host, asked, settings, colored)` with what the command line says, and ends with the exit status
//! that this returns.
#![tactic(auto)]

mod coverage_printer;
mod file_presence;
mod file_search;
mod input_check;
mod list_test;
mod other_files;
mod planned_test;
mod policy_test;
mod scenario_run;
mod scenario_test;
mod test;

pub use test::run_tests;
