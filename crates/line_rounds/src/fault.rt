//! The faults of a scenario's rounds.

ghost use Rattle.std.specs.Prelude.{◌≡◌, Some};
ghost use Rattle.line_rounds.specs.Messages.{rounds_message};
ghost use Rattle.line_rounds.specs.declared.fault.UnfoldError.TheVariants.{Fault as AFault, NoMemory};

use line_names::NameReason;
use std::alloc::{AllocError, AllocFailed};
use std::fmt;

/// The fault of a scenario's rounds.
#[derive(Clone, Copy, PartialEq, Eq)]
pub enum RoundsReason {
    /// `@end` without a `@repeat` before it.
    EndAlone,
    /// Text after `@end`.
    EndTakesNothing,
    /// `@repeat` without an `@end` after it.
    NoEnd,
    /// Rounds within too many other rounds.
    TooDeep,
    /// The text after `@repeat` is no count, or more than a count and a counter.
    NoCount,
    /// Too many lines of all rounds, each round without lines counted as one.
    TooMany,
    /// A name in the line of `@repeat` has no value before the run.
    Name(NameReason),
}

impl RoundsReason {
    /// Returns the message about this text of the line, which begins at the fault's column.
    pub fn about(self, text: &str) -> RoundsMessage<'_>
        ensures reason { result.reason ≡ self }
        ensures text { result.text.now ≡ text.now }
    {
        RoundsMessage { reason: self, text }
    }
}

/// The fault of a scenario's rounds, as text for people.
#[derive(Clone, Copy)]
pub struct RoundsMessage<'a> {
    reason: RoundsReason,
    text: &'a str,
}

impl fmt::Display for RoundsMessage<'_> {
    ghost output = { λ message. Some (rounds_message message.reason message.text.now) };

    fn fmt<W: fmt::Write>(&self, f: &mut fmt::Formatter<W>) -> fmt::Result {
        match self.reason {
            RoundsReason::EndAlone => f.write_str("`@end` without `@repeat`"),
            RoundsReason::EndTakesNothing => f.write_str("unexpected argument; expected `@end`"),
            RoundsReason::NoEnd => f.write_str("`@repeat` without `@end`"),
            RoundsReason::TooDeep => f.write_str("rounds nest more than 4 deep"),
            RoundsReason::NoCount => f.write_str("expected `@repeat N [as NAME]`"),
            RoundsReason::TooMany => f.write_str("more than 1000000 lines with all rounds"),
            RoundsReason::Name(reason) => write!(f, "{}", reason.about(self.text)),
        }
    }
}

/// A place in a scenario, from 1 on.
#[derive(Clone, Copy, PartialEq, Eq)]
pub struct RoundPlace {
    /// The number of a line.
    pub line: usize,
    /// The number of a byte in it.
    pub column: usize,
}

/// The fault of a scenario's rounds, and its place.
#[derive(Clone, Copy, PartialEq, Eq)]
pub struct RoundsFault {
    /// The place of the fault.
    pub at: RoundPlace,
    /// The fault.
    pub reason: RoundsReason,
}

/// The error of unfolding a scenario.
#[derive(Clone, Copy, PartialEq, Eq)]
pub enum UnfoldError {
    /// Its rounds have a fault.
    Fault(RoundsFault),
    /// The host is out of memory.
    NoMemory,
}

impl From<RoundsFault> for UnfoldError {
    ghost from_gives = { λ fault unfit. unfit ≡ AFault fault };

    fn from(fault: RoundsFault) -> UnfoldError {
        UnfoldError::Fault(fault)
    }
}

impl From<AllocError> for UnfoldError {
    ghost from_gives = { λ _ unfit. unfit ≡ NoMemory };

    fn from(_want: AllocError) -> UnfoldError {
        UnfoldError::NoMemory
    }
}

impl<T: Drop> From<AllocFailed<T>> for UnfoldError {
    ghost from_gives = { λ _ unfit. unfit ≡ NoMemory };

    fn from(_want: AllocFailed<T>) -> UnfoldError {
        UnfoldError::NoMemory
    }
}
