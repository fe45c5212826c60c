//! The program `scenario_run` as a library: reads lines of calls from standard input and writes each reply to standard
//! output. `scenario_run` calls it. Example: `run_program(&rt)` does the task of the command line.
#![tactic(auto)]

mod config;
mod host;
mod options;
mod program;

pub use config::{ConfigFault, LONGEST_CONFIG_READ, read_config, read_config_at};
pub use host::{ProgramEnd, run_program};
pub use options::{Options, words_given};
pub use program::{
    Task, TaskFailure, UnfinishedTask, boot_and_run, exit_status, run_bytes, task_of,
};
pub use run_engine::{Summary, run, run_only};
pub use run_lines::{
    DeviceFault, Input, MAX_LINES, Output, RunFault, Sink, Source, read_line, write_accounts,
};
