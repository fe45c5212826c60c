//! The line of `@repeat`.
ghost use Rattle.std.specs.Prelude.{◌≡◌};
ghost use Rattle.line_rounds.specs.Unfolding.{counted_by, head_by, head_of, head_said};
ghost use Rattle.line_rounds.specs.Views.{head_seen, head_told};

use crate::fault::{RoundPlace, RoundsFault, RoundsReason};
use crate::lines::words_of;
use crate::structure::fault_at;
use line_friendly::{LineBuffer, next_word, skip_blanks};
use line_names::{NameTable, fill, is_name};
use trade_base::read_number;

/// The number of rounds, and the name of their counter, if they have one.
#[derive(Clone, Copy)]
pub(crate) struct RoundHead<'a> {
    pub count: u64,
    pub counter: Option<&'a [u8]>,
}

/// Parses the line of `@repeat` with the values of its names, which are filled in `room`. The error is a fault of a name, or of
/// the count.
pub(crate) fn head_of<'a>(
    known: &NameTable,
    number: usize,
    line: &'a [u8],
    room: &'a mut LineBuffer,
) -> Result<RoundHead<'a>, RoundsFault>
    ensures { head_told result ≡ head_of known.now number line.now }
{
    let filled = match fill(line, known, room) {
        Ok(filled) => filled.line,
        Err(fault) => {
            return Err(RoundsFault {
                at: RoundPlace {
                    line: number,
                    column: fault.column,
                },
                reason: RoundsReason::Name(fault.reason),
            });
        }
    };
    let (_, rest) = next_word(words_of(filled));
    match head_said(rest) {
        Some(head) => Ok(head),
        None => Err(fault_at(number, line, RoundsReason::NoCount)),
    }
}

// Parses the text after `@repeat`.
fn head_said(text: &[u8]) -> Option<RoundHead<'_>>
    ensures { head_seen result ≡ head_said text.now }
{
    let (word, rest) = next_word(text);
    head_by(rest, read_number(word)?)
}

// Parses the text after a count.
fn head_by(text: &[u8], count: u64) -> Option<RoundHead<'_>>
    ensures { head_seen result ≡ head_by text.now count }
{
    if skip_blanks(text).is_empty() {
        return Some(RoundHead {
            count,
            counter: None,
        });
    }
    let (word, rest) = next_word(text);
    if word == b"as".as_slice() {
        counted_by(count, rest)
    } else {
        None
    }
}

// Parses the text after `as`.
fn counted_by(count: u64, text: &[u8]) -> Option<RoundHead<'_>>
    ensures { head_seen result ≡ counted_by count text.now }
{
    let (name, rest) = next_word(text);
    if is_name(name) && skip_blanks(rest).is_empty() {
        Some(RoundHead {
            count,
            counter: Some(name),
        })
    } else {
        None
    }
}
