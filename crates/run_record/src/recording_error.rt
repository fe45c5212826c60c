//! Errors of the lines of a scenario that is recorded.

use line_steps::UnreadLine;
use run_scenario::LineError;

/// An error of a scenario's line.
#[derive(Drop)]
pub enum RecordingError {
    /// The line can't be parsed.
    Unread(UnreadLine),
    /// The call of the line isn't understood.
    Misread(LineError),
}
