//! The faults of names in lines.
ghost use Rattle.std.specs.Prelude.{◌≡◌, Some};
ghost use Rattle.line_names.specs.Messages.{first_words, name_message};

use std::fmt;

/// The fault of a name in a line.
#[derive(Clone, Copy, PartialEq, Eq)]
pub enum NameReason {
    /// No value is known for the name.
    UnknownName,
    /// A brace after a `$` begins no name, or isn't closed after it.
    OpenBrace,
    /// The value of the name is no number, so nothing can be added to it.
    NoNumber,
    /// The summand is no number.
    NoSum,
    /// The sum has more than 64 bits.
    SumTooLarge,
    /// The line is too long with the values of its names.
    TooLong,
    /// One reply would bind the name twice.
    Twice,
    /// One reply would bind too many names.
    TooMany,
}

impl NameReason {
    /// Returns the message about this text of the line, which begins with the name's `$`.
    pub fn about(self, text: &str) -> NameMessage<'_>
        ensures reason { result.reason ≡ self }
        ensures text { result.text.now ≡ text.now }
    {
        NameMessage { reason: self, text }
    }

    // Returns the words before the text.
    fn first_words(self) -> &'static str
        ensures { result.now ≡ first_words self }
    {
        match self {
            NameReason::UnknownName => "unknown name",
            NameReason::OpenBrace => "expected a name in braces, found",
            NameReason::NoNumber => "expected a number as the value of",
            NameReason::NoSum => "expected a number after the + of",
            NameReason::SumTooLarge => "sum of more than 64 bits at",
            NameReason::TooLong => "line of more than 8192 bytes with the value of",
            NameReason::Twice => "this expectation binds the name twice:",
            NameReason::TooMany => "this expectation binds more than 16 names; the next is",
        }
    }
}

/// The fault of a name in a line, as text for people.
#[derive(Clone, Copy)]
pub struct NameMessage<'a> {
    reason: NameReason,
    text: &'a str,
}

impl fmt::Display for NameMessage<'_> {
    ghost output = { λ message. Some (name_message message.reason message.text.now) };

    fn fmt<W: fmt::Write>(&self, f: &mut fmt::Formatter<W>) -> fmt::Result {
        write!(f, "{} `{}`", self.reason.first_words(), self.text)
    }
}

/// The fault of a name in a line, and its place.
#[derive(Clone, Copy, PartialEq, Eq)]
pub struct NameFault {
    /// The fault.
    pub reason: NameReason,
    /// The byte of the line at which the name begins, with its `$`, from 1 on.
    pub column: usize,
}
