//! The engine's run: runs a scenario and writes its transcript, of all lines or of one name's lines alone. The program
//! `scenario_run` calls it. Example: `run(&mut core, &list, &mut reply, &mut reader, &mut writer, MAX_LINES)?.lines` is the
//! number of lines.
#![tactic(auto)]

mod engine;
mod one_component;

pub use engine::{Summary, run, run_selected};
pub use one_component::run_only;
