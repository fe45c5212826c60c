//! The program `scenario_run`: reads a scenario's lines from standard input and prints each reply on standard output. Example:
//! `scenario_run LIST <SCENARIO`. Its root exports what a user of the engine as a library needs, all of it from `cli_engine`.
#![tactic(auto)]

pub use cli_engine::{
    ConfigFault, DeviceFault, Input, LONGEST_CONFIG_READ, MAX_LINES, Options, Output, ProgramEnd,
    RunFault, Sink, Source, Summary, Task, TaskFailure, UnfinishedTask, boot_and_run, exit_status,
    read_config, read_config_at, read_line, run, run_bytes, run_only, run_program, task_of,
    write_accounts,
};

fn main(rt: HostRuntime) -> ProgramEnd {
    run_program(&rt)
}
