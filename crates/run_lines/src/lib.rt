//! The lines of a scenario: parses and answers each line, runs all of them in order, and writes the account list.
//! `run_engine` runs scenarios with a line handler of its own. Example: `write_accounts(&core, &list, &mut writer)` writes
//! the account list.
#![tactic(auto)]

mod account_list;
mod account_sums;
mod account_text;
mod line_answer;
mod line_dispatcher;
mod line_handler;
mod line_run;
mod line_run_fault;
mod lines;
mod read_buffer;
mod run_fault;

pub use account_list::write_accounts;
pub use account_sums::{Sums, sum_all};
pub use line_answer::LineAnswer;
pub use line_dispatcher::LineDispatcher;
pub use line_grammar::{LONGEST_LINE, NamedCall, call_in, read_line};
pub use line_handler::LineHandler;
pub use line_run::{LineRunResult, MAX_LINES, play};
pub use line_run_fault::LineRunFault;
pub use lines::{Buffers, LineFault, NextLine};
pub use pd_core::{Core, Router};
pub use read_buffer::ReadBuffer;
pub use run_devices::{DeviceFault, Input, Output, Sink, Source, WriteBuffer, write_out};
pub use run_fault::RunFault;
