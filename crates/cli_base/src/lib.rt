//! What the commands of `nethrywel` share: files and streams, settings, machines, diagnostics and exit statuses. A command is given
//! its `Host`; a proof may use one that states its arguments and the bytes of its files.
//!
//! The crates `cli_lists`, `cli_runs`, `cli_budgets` and `cli_tests` and the program `nethrywel` call it.
//! `scenario_text(host, form, path)` reads a scenario, or prints why it can't and returns the exit status.
#![tactic(auto)]

mod coloring;
mod files;
mod finding;
mod host;
mod lines;
mod list_fault;
mod list_file;
mod machine;
mod machine_choice;
mod paths;
mod policy_verdict;
mod replacing;
mod reports;
mod scenario_reader;
mod settings;
mod status;
mod streams;
mod unfolding;
mod unread_names;

pub use coloring::Coloring;
pub use files::{FileReadMessage, read_list, read_whole, scenario_text};
pub use finding::{FindingMessage, finding_spot};
pub use host::{FileKind, Host, ReadFailure, STANDARD_INPUT};
pub use lines::LineStarts;
pub use list_fault::{fault_spot, tell_fault};
pub use list_file::{StartListFailure, start_list};
pub use machine::{Machine, report_boot_fault};
pub use machine_choice::MachineChoice;
pub use paths::{is_list, is_policy, is_scenario, machine_path, policy_path};
pub use policy_verdict::{
    PolicyDiagnostic, PolicyFindings, PolicyReadFailure, PolicyRemark, PolicyVerdict, check_policy,
    policy_spot, policy_text,
};
pub use replacing::{replace_file, write_file};
pub use reports::{
    Spot, diagnostic_line, error_line, print_refusal, report, report_error, report_write_failure,
    summarize, summarize_errors,
};
pub use scenario_reader::{Printing, Reader, silent_reader, watched_reader};
pub use settings::{Settings, names_given, refuse_unread};
pub use status::{
    OUT_OF_MEMORY, REFUSED, StopMessage, UNREAD, UNWRITTEN, boot_status, made_or_status, no_memory,
    print_documents, spot_of, status_after, status_of, unread_status,
};
pub use streams::{Origin, OutputStream, Writer, plain_writer, text_of, writer};
pub use unfolding::{rounds_spot, rounds_token, unfolded};
pub use unread_names::unread_argument;
