//! Lines of a scenario before substitution.
ghost use Rattle.std.specs.Prelude.{◌≡◌};
ghost use Rattle.run_scenario.specs.LineSteps.{is_meant_line};

use line_friendly::{is_meant, is_passed};
use line_names::{NameTable, source_column};

/// A line of a scenario before substitution.
#[derive(Clone, Copy)]
pub struct SourceLine<'a> {
    /// The number of the line, from 1 on.
    pub number: u64,
    /// The bytes of the line.
    pub line: &'a [u8],
}

/// A place in a line of a scenario.
#[derive(Clone, Copy)]
pub(crate) struct LinePlace {
    /// The number of the line, from 1 on.
    pub(crate) number: u64,
    /// The column, from 1 on.
    pub(crate) column: usize,
}

impl LinePlace {
    /// Returns the place of the first byte of the line with this number.
    pub(crate) fn first(number: u64) -> LinePlace
        ensures { result.number ≡ number }
    {
        LinePlace { number, column: 1 }
    }
}

impl SourceLine<'_> {
    /// Returns the place at a column of the line.
    pub(crate) fn at(self, column: usize) -> LinePlace
        ensures { result.number ≡ self.entry.number }
    {
        LinePlace {
            number: self.number,
            column,
        }
    }
}

/// A line that is checked: before and after substitution, with its expected reply, if it has one.
#[derive(Clone, Copy)]
pub struct JudgedLine<'a> {
    /// The line before substitution.
    pub given: SourceLine<'a>,
    /// The line after substitution.
    pub line: &'a [u8],
    /// The expected reply.
    pub reply: Option<&'a [u8]>,
}

impl<'a> JudgedLine<'a> {
    /// Returns the column, before substitution, of the text at a column of the filled line. `known` holds the names that the line was
    /// filled with.
    pub(crate) fn column(self, known: &NameTable, column: usize) -> usize {
        source_column(self.given.line, known, column)
    }
}

/// Returns whether a line may have any reply: it is passed to the engine unchanged after a `!`, or its expectation ends in a `!`.
pub fn is_meant_line(line: &[u8]) -> bool
    ensures { result ≡ is_meant_line line.now }
{
    is_passed(line) || is_meant(line)
}
