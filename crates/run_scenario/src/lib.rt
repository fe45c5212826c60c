//! Runs a scenario in the friendly form: each line is resolved, its call is answered and shown to an observer, and the reply is
//! compared with the expected one.
//!
//! `view_runs` and `view_accounts` have the observers. For example `play(&mut runner, &mut core, b"", reader, writer)` runs the lines
//! from a reader, and returns how the run ended.
#![tactic(auto)]

mod booted_scenario;
mod call_observer;
mod complaint;
mod csv_row;
mod expected_log;
mod line_step;
mod misreading;
mod near_names;
mod printable_hex;
mod reply_checker;
mod running;
mod scenario_end;
mod scenario_input;
mod scenario_runner;
mod scenario_state;
mod source_line;
mod step_position;
mod text;
mod theorems;
mod unknown_names;

pub use booted_scenario::BootedScenario;
pub use call_observer::{CallObserver, ObservedCall};
pub use csv_row::{add_account, add_cell, put_cell};
pub use line_step::{CallBuffers, LineStep, answer_in, take_step};
pub use misreading::{LineError, misread_error};
pub use near_names::near_component;
pub use printable_hex::PrintableHex;
pub use reply_checker::ReplyChecker;
pub use running::play;
pub use scenario_end::{ScenarioEnd, exit_status};
pub use scenario_input::ScenarioInput;
pub use scenario_runner::ScenarioRunner;
pub use scenario_state::ScenarioState;
pub use source_line::{JudgedLine, SourceLine, is_meant_line};
pub use step_position::move_past;
pub use text::{caller_of, put_number, put_three, said_in, word_at};
pub use text_codec::{add, add_number};
pub use theorems::bare_lines_stay;
pub use unknown_names::names_unknown;
