//! The position of a run in its scenario, and the values of names there.
ghost use Rattle.std.specs.Prelude.{◌≡◌, IfOk, OnErr, OnOk, true};
ghost use Rattle.line_names.specs.Learning.{learnt};
ghost use Rattle.line_names.specs.Views.{directive_view, filled_view};
ghost use Rattle.line_steps.specs.RunPosition.{arrived, arrived_at, first_position, position_following, is_due, passed};

use line_names::{Directive, FilledLine, NameTable, RoundMark};
use std::alloc::{AllocError, Global};
use std::marker::Model;

/// The position of a run in its scenario: the number of the next line, the values of names, and the marks of rounds that are
/// still ahead.
#[derive(Drop)]
pub struct RunPosition<'m> {
    number: u64,
    known: NameTable,
    ahead: &'m [RoundMark],
}

impl<'m> Model for RunPosition<'m> {
    ghost use Rattle.line_steps.specs.RunPosition.{RunPosition};

    ghost Value = { RunPosition };

    ghost view = { λ position. record {
      number = position.number;
      known = position.known;
      ahead = position.ahead.now;
    } };
}

impl<'m> RunPosition<'m> {
    /// Returns the position before the first line of a scenario with these marks of rounds, with the names that are given. The
    /// error is that the host is out of memory.
    pub fn new(given: NameTable, marks: &'m [RoundMark]) -> Result<RunPosition<'m>, AllocError>
        ensures { IfOk result (λ position. position ≡ first_position given marks.now) }
    {
        let mut known = given;
        let (number, ahead) = cross_due(&mut known, 1, marks)?;
        Ok(RunPosition {
            number,
            known,
            ahead,
        })
    }

    /// Returns a copy of the position, from which the same scenario can be run again. The error is that the host is out of memory.
    pub fn copy(&self, alloc: Global) -> Result<RunPosition<'m>, AllocError>
        ensures { IfOk result (λ copy. copy ≡ self.now) }
    {
        Ok(RunPosition {
            number: self.number,
            known: self.known.copy(alloc)?,
            ahead: self.ahead,
        })
    }

    /// Returns the number of the next line, from 1 on.
    pub fn number(&self) -> u64
        ensures { result ≡ self.now.number }
    {
        self.number
    }

    /// Returns the values of names at this position.
    pub fn known(&self) -> &NameTable
        ensures { result.now ≡ self.now.known }
    {
        &self.known
    }

    /// Moves the position to the next line, and returns the number of the line that it passes.
    pub fn pass(&mut self) -> u64
        ensures number { result ≡ self.old.number }
        ensures passed { self.new ≡ passed self.old }
    {
        let number = self.number;
        self.number = number.saturating_add(1);
        number
    }

    /// Enters and leaves the rounds that begin and end before the next line. The error is that the host is out of memory.
    #[tactic(auto, using(crate::proofs::StandLemmas::stays))]
    pub fn arrive(&mut self) -> Result<(), AllocError>
        ensures arrived { OnOk result (self.new ≡ arrived self.old) }
        ensures takes { OnErr result (is_due self.old.number self.old.ahead ≡ true) }
    {
        // Most lines have no mark.
        if !is_due(self.number, self.ahead) {
            return Ok(());
        }
        let (number, ahead) = cross_due(&mut self.known, self.number, self.ahead)?;
        self.number = number;
        self.ahead = ahead;
        Ok(())
    }

    /// Follows a directive, which may set a name. The error is that the host is out of memory.
    pub fn follow(&mut self, directive: Directive<'_>) -> Result<(), AllocError>
        ensures { OnOk result (self.new ≡ position_following self.old (directive_view directive.entry)) }
    {
        self.known.follow(directive)
    }

    /// Binds the names of a filled line that its reply binds. The error is that the host is out of memory.
    pub fn learn(&mut self, filled: &FilledLine<'_>, reply: &[u8]) -> Result<(), AllocError>
        ensures { OnOk result (self.new ≡ record self.old {
          known = learnt self.old.known (filled_view filled.now) reply.now;
        }) }
    {
        self.known.learn(filled, reply)
    }
}

// Returns whether the first mark is due before the line of a number.
fn is_due(number: u64, marks: &[RoundMark]) -> bool
    ensures { result ≡ is_due number marks.now }
{
    match marks.first() {
        Some(mark) => mark.at() == number,
        None => false,
    }
}

// Crosses the marks that are due before the line of a number. Returns the number of the line that is next then, and the remaining
// marks.
fn cross_due<'m>(
    known: &mut NameTable,
    number: u64,
    marks: &'m [RoundMark],
) -> Result<(u64, &'m [RoundMark]), AllocError>
    ensures { IfOk result (λ left. record {
      number = left.0;
      known = known.new;
      ahead = left.1.now;
    } ≡ arrived_at number known.old marks.now) }
{
    let mut at = number;
    let mut ahead = marks;
    while let Some((mark, behind)) = ahead.split_first() {
        if mark.at() != at {
            return Ok((at, ahead));
        }
        known.cross(mark)?;
        at = mark.next();
        ahead = behind;
    }
    Ok((at, ahead))
}
