//! The structure of rounds: their first and last lines.
ghost use Rattle.std.specs.Prelude.{◌≡◌, ◌≤◌, length, take};
ghost use Rattle.line_rounds.specs.Structure.{body_length, fault_at, kind_of, opens_after, place_of};
ghost use Rattle.line_rounds.specs.Unfolding.{is_whole};
ghost use Rattle.line_rounds.specs.Views.{Makes, texts};

use crate::fault::{RoundPlace, RoundsFault, RoundsReason, UnfoldError};
use crate::lines::{RoundLineKind, column_of, kind_of, words_of};
use line_friendly::{next_word, skip_blanks};
use std::alloc::Global;

/// The maximum depth of rounds within rounds.
const DEEPEST: usize = 4;

/// Checks that all rounds begin, end and are nested at most 4 deep. The error is the first fault, or that the host is out of
/// memory.
pub(crate) fn check_structure(alloc: Global, lines: &[&[u8]]) -> Result<(), UnfoldError>
    ensures { Makes result (is_whole (texts lines.now)) tt }
{
    let mut opens = Vec::new(alloc);
    for (i, line) in lines.iter().enumerate() {
        keep_open(&mut opens, i + 1, line)?;
    }
    match opens.first() {
        Some(open) => Err(UnfoldError::Fault(*open)),
        None => Ok(()),
    }
}

// Opens or closes the rounds that a line begins or ends.
fn keep_open(opens: &mut Vec<RoundsFault>, number: usize, line: &[u8]) -> Result<(), UnfoldError>
    ensures { Makes result (opens_after number line.now (kind_of line.now) opens.old.items)
        opens.new.items }
{
    match kind_of(line) {
        RoundLineKind::Plain => Ok(()),
        RoundLineKind::Repeats => {
            if opens.len() < DEEPEST {
                opens.push(fault_at(number, line, RoundsReason::NoEnd))?;
                Ok(())
            } else {
                Err(UnfoldError::Fault(fault_at(number, line, RoundsReason::TooDeep)))
            }
        }
        RoundLineKind::Ends => {
            let (_, rest) = next_word(words_of(line));
            if !skip_blanks(rest).is_empty() {
                return Err(UnfoldError::Fault(fault_at(
                    number,
                    line,
                    RoundsReason::EndTakesNothing,
                )));
            }
            match opens.pop() {
                Some(_) => Ok(()),
                None => Err(UnfoldError::Fault(fault_at(number, line, RoundsReason::EndAlone))),
            }
        }
    }
}

/// Returns the lines before the `@end` of rounds that began before these lines.
#[tactic(auto, using(crate::proofs::RoundLemmas::texts_of_first))]
pub(crate) fn body_of<'a, 'l>(lines: &'l [&'a [u8]]) -> &'l [&'a [u8]]
    ensures value { texts result.now ≡ take (body_length 0 (texts lines.now)) (texts lines.now) }
    ensures count { length result.now ≡ body_length 0 (texts lines.now) }
    ensures within { length result.now ≤ length lines.now }
{
    let mut within = 0usize;
    for (i, line) in lines.iter().enumerate() {
        match kind_of(line) {
            RoundLineKind::Repeats => within += 1,
            RoundLineKind::Ends => {
                if within == 0 {
                    return &lines[..i];
                }
                within -= 1;
            }
            RoundLineKind::Plain => {}
        }
    }
    lines
}

/// Returns the place of a line's first character.
pub(crate) fn place_of(number: usize, line: &[u8]) -> RoundPlace
    ensures { result ≡ place_of number line.now }
{
    RoundPlace {
        line: number,
        column: column_of(line),
    }
}

/// Returns a fault at the first character of a line.
pub(crate) fn fault_at(number: usize, line: &[u8], reason: RoundsReason) -> RoundsFault
    ensures { result ≡ fault_at number line.now reason }
{
    RoundsFault {
        at: place_of(number, line),
        reason,
    }
}
