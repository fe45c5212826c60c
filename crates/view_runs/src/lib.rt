//! Shows a run: the transcript, the trace, the answers of its calls, and the replies to one component alone.
//!
//! `cli_runs`, `cli_lists` and `cli_tests` call it. For example `run(alloc, play, showing, reader, writer, complaints)?` writes a
//! transcript, and returns how the run ended.
#![tactic(auto)]

mod alone_run;
mod answer_list;
mod byte_text;
mod csv_rows;
mod json_rows;
mod printed_bytes;
mod row_format;
mod trace_row;
mod tracing;
mod transcript;

pub use alone_run::{AloneComparison, alone};
pub use answer_list::{AnswerList, answers};
pub use csv_rows::CsvRows;
pub use json_rows::JsonRows;
pub use row_format::RowFormat;
pub use trace_row::{SessionAccount, TraceRow};
pub use tracing::trace;
pub use transcript::{TranscriptOptions, run};
