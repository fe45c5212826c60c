//! Lines that can't be parsed.
ghost use Rattle.std.specs.Prelude.{◌≡◌, Some, is_some};
ghost use Rattle.line_steps.specs.Messages.{unread_message};
ghost use Rattle.line_steps.specs.ResolvedLines.{is_unread};
ghost use Rattle.line_steps.specs.ResolvedViews.{resolved_view};

use crate::resolved_line::ResolvedLine;
use line_friendly::FriendlyFault;
use line_names::{DirectiveFault, NameFault};
use std::fmt;

/// The reason why a line can't be parsed.
#[derive(Clone, Copy, PartialEq, Eq)]
pub enum UnreadReason {
    /// The line is too long.
    TooLong,
    /// The line has a fault.
    Fault(FriendlyFault),
    /// A name in the line has a fault.
    Name(NameFault),
    /// The line is a directive that can't be followed, with its column: it became one when it was filled, or it begins with `@`
    /// and is none.
    Misplaced(usize, DirectiveFault),
}

impl UnreadReason {
    ghost use Rattle.std.specs.Prelude.{◌≡◌};
    ghost use Rattle.line_steps.specs.ResolvedViews.{reason_column};

    /// Returns the column of the fault in its line, from 1 on.
    pub fn column(self) -> usize
        ensures { result ≡ reason_column self }
    {
        match self {
            UnreadReason::TooLong => 1,
            UnreadReason::Fault(fault) => fault.column,
            UnreadReason::Name(fault) => fault.column,
            UnreadReason::Misplaced(column, _) => column,
        }
    }

    /// Returns the message about this text of the line, which begins at the column.
    pub fn about(self, text: &str) -> UnreadMessage<'_>
        ensures why { result.why ≡ self }
        ensures text { result.text.now ≡ text.now }
    {
        UnreadMessage { why: self, text }
    }
}

/// The reason why a line can't be parsed, as text for people.
#[derive(Clone, Copy)]
pub struct UnreadMessage<'a> {
    why: UnreadReason,
    text: &'a str,
}

impl fmt::Display for UnreadMessage<'_> {
    ghost output = { λ message. Some (unread_message message.why message.text.now) };

    fn fmt<W: fmt::Write>(&self, f: &mut fmt::Formatter<W>) -> fmt::Result {
        match self.why {
            UnreadReason::TooLong => f.write_str("line of more than 8192 bytes"),
            UnreadReason::Fault(fault) => write!(f, "{}", fault.reason.about(self.text)),
            UnreadReason::Name(fault) => write!(f, "{}", fault.reason.about(self.text)),
            UnreadReason::Misplaced(_, why) => write!(f, "{why}"),
        }
    }
}

/// A line that can't be parsed.
#[derive(Clone, Copy, PartialEq, Eq)]
pub struct UnreadLine {
    /// The number of the scenario's line, from 1 on.
    pub number: u64,
    /// The reason why it can't be parsed.
    pub why: UnreadReason,
}

impl ResolvedLine<'_> {
    /// Returns the reason why the line can't be parsed, or nothing if it can.
    pub fn unread(&self) -> Option<UnreadReason>
        ensures { is_some result ≡ is_unread (resolved_view self.now) }
    {
        match self {
            ResolvedLine::TooLong => Some(UnreadReason::TooLong),
            ResolvedLine::BadName(fault) => Some(UnreadReason::Name(*fault)),
            ResolvedLine::Misplaced(column, why) => Some(UnreadReason::Misplaced(*column, *why)),
            ResolvedLine::BadLine(fault) => Some(UnreadReason::Fault(*fault)),
            ResolvedLine::Skipped
            | ResolvedLine::Directive(_)
            | ResolvedLine::Nothing
            | ResolvedLine::Log(_)
            | ResolvedLine::Call(_) => None,
        }
    }
}
