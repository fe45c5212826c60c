//! A scenario with its rounds unfolded.
ghost use Rattle.std.specs.Prelude.{◌≡◌};
ghost use Rattle.line_rounds.specs.Unfolding.{has_rounds, unfolded};
ghost use Rattle.line_rounds.specs.Views.{Unfolds, texts, whole_view};

use crate::fault::{RoundPlace, RoundsFault, RoundsReason, UnfoldError};
use crate::lines::{RoundLineKind, kind_of, lines_of};
use crate::structure::check_structure;
use crate::unfolding::{MOST_LINES, Unfolding};
use line_names::{NameTable, RoundMark};
use std::alloc::Global;

/// A scenario with its rounds unfolded.
#[derive(Drop)]
pub enum UnfoldedText<'a> {
    /// The unchanged text, which has no rounds.
    Same(&'a [u8]),
    /// The text of the lines that are run, and the marks between them.
    New {
        text: Vec<u8>,
        marks: Vec<RoundMark>,
    },
}

impl UnfoldedText<'_> {
    /// Returns the text of the lines that are run, whether or not there are rounds.
    pub fn bytes(&self) -> &[u8]
        ensures { result.now ≡ (whole_view self.now).text }
    {
        match self {
            UnfoldedText::Same(text) => text,
            UnfoldedText::New { text, .. } => text.as_slice(),
        }
    }

    /// Returns the marks of rounds that begin and end between these lines.
    pub fn marks(&self) -> &[RoundMark]
        ensures { result.now ≡ (whole_view self.now).marks }
    {
        match self {
            UnfoldedText::Same(_) => &[],
            UnfoldedText::New { marks, .. } => marks.as_slice(),
        }
    }
}

/// Unfolds the rounds of a scenario, with the names that are given from outside. Each line is written as often as it is run. The
/// marks are one for each round that begins, and one for the end of the last. A mark has the round's counter, and the numbers of
/// the scenario's lines between which it is. The error is a fault of the rounds, or that the host is out of memory.
pub fn unfold<'a>(
    alloc: Global,
    text: &'a [u8],
    given: NameTable,
) -> Result<UnfoldedText<'a>, UnfoldError>
    ensures { Unfolds result (unfolded given text.now) }
{
    let lines = lines_of(alloc, text)?;
    if !has_rounds(lines.as_slice()) {
        return Ok(UnfoldedText::Same(text));
    }
    if lines.len() > MOST_LINES {
        return Err(UnfoldError::Fault(RoundsFault {
            at: RoundPlace {
                line: MOST_LINES + 1,
                column: 1,
            },
            reason: RoundsReason::TooMany,
        }));
    }
    check_structure(alloc, lines.as_slice())?;
    let mut unfolding = Unfolding {
        alloc,
        text: Vec::new(alloc),
        count: 0,
        marks: Vec::new(alloc),
        known: given,
    };
    unfolding.put_lines(5, 1, lines.as_slice())?;
    Ok(UnfoldedText::New {
        text: unfolding.text,
        marks: unfolding.marks,
    })
}

// Returns whether a line begins or ends rounds.
fn has_rounds(lines: &[&[u8]]) -> bool
    ensures { result ≡ has_rounds (texts lines.now) }
{
    for line in lines {
        if kind_of(line) != RoundLineKind::Plain {
            return true;
        }
    }
    false
}
