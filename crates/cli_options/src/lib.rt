//! The command line of `nethrywel`: its commands with their arguments and options, and its help.
//!
//! `nethrywel` calls it: `CommandLine::read(alloc, arguments)` returns the command with its options, or the error that `clap`
//! reports.
#![tactic(auto)]

mod command;
mod command_options;
mod command_table;
mod commands;
mod help;
mod input_files;

pub use command::{Command, CommandLine};
pub use command_options::{
    AccountsOptions, AloneOptions, CheckOptions, Color, DiffOptions, LeastOptions, ReachOptions,
    RecordOptions, RouteOptions, RunOptions, TestOptions, TraceOptions, TreeOptions,
};
pub use commands::{
    alone_usage_error, color_value_error, diff_usage_error, missing_command_error, words_given,
};
pub use help::CALLS;
