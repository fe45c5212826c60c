//! Marks at which the rounds of a scenario begin and end.
ghost use Rattle.std.specs.Prelude.{◌≡◌, decimal, IfOk, OnOk};
ghost use Rattle.line_names.specs.NameTable.{with_bound};
ghost use Rattle.line_names.specs.RoundMarks.{bordered, counter_in, crossed, with_counter};

use crate::name_table::NameTable;
use itoa::Buffer;
use std::alloc::{AllocError, Global};
use std::marker::Model;

/// The effect of a mark.
#[derive(Clone, Copy, PartialEq, Eq)]
pub enum Border {
    /// A round begins.
    Enter,
    /// A round ends, and the next one of the same lines begins.
    Again,
    /// The last round of its lines ends.
    Leave,
}

// The counter of a round: its name, and its number in the round.
#[derive(Drop)]
pub(crate) struct Counter {
    name: Vec<u8>,
    count: u64,
}

/// A mark between two of the lines that are run, at which a round of a scenario begins or ends.
#[derive(Drop)]
pub struct RoundMark {
    at: u64,
    border: Border,
    next: u64,
    counter: Option<Counter>,
}

impl Model for RoundMark {
    ghost use Rattle.line_names.specs.RoundMarks.{RoundMark, counter_in};

    ghost Value = { RoundMark };

    ghost view = { λ mark. record {
      at = mark.at;
      border = mark.border;
      next = mark.next;
      counter = counter_in mark.counter;
    } };
}

impl RoundMark {
    ghost use Rattle.std.specs.Prelude.{◌≡◌, IfOk, None, Some};

    /// Returns a mark that is due before the line `at` of the scenario, and after which the line `next` is run.
    pub fn new(at: u64, border: Border, next: u64) -> RoundMark
        ensures { result ≡ record { at = at; border = border; next = next; counter = None } }
    {
        RoundMark {
            at,
            border,
            next,
            counter: None,
        }
    }

    /// Returns the same mark with a counter of this name, which has the value `count` in the round. The error is that the host is
    /// out of memory.
    pub fn counting(self, alloc: Global, name: &[u8], count: u64) -> Result<RoundMark, AllocError>
        ensures { IfOk result (λ mark. mark ≡ record self {
          counter = Some (record { name = name.now; count = count });
        }) }
    {
        let name = Vec::from_slice(alloc, name)?;
        Ok(RoundMark {
            at: self.at,
            border: self.border,
            next: self.next,
            counter: Some(Counter { name, count }),
        })
    }

    /// Returns the number of the line before which the mark is due.
    pub fn at(&self) -> u64
        ensures { result ≡ self.now.at }
    {
        self.at
    }

    /// Returns the number of the line that is run after the mark.
    pub fn next(&self) -> u64
        ensures { result ≡ self.now.next }
    {
        self.next
    }
}

impl NameTable {
    /// Begins and ends rounds as a mark does, and binds the counter of the round that begins. The error is that the host is out
    /// of memory.
    pub fn cross(&mut self, mark: &RoundMark) -> Result<(), AllocError>
        ensures { OnOk result (self.new ≡ crossed self.old mark.now) }
    {
        self.pass_border(mark.border)?;
        self.count(&mark.counter)
    }

    // Begins and ends rounds.
    fn pass_border(&mut self, border: Border) -> Result<(), AllocError>
        ensures { OnOk result (self.new ≡ bordered self.old border) }
    {
        match border {
            Border::Enter => self.enter(),
            Border::Again => {
                self.leave();
                self.enter()
            }
            Border::Leave => {
                self.leave();
                Ok(())
            }
        }
    }

    // Binds a round's counter, if it has one.
    fn count(&mut self, counter: &Option<Counter>) -> Result<(), AllocError>
        ensures { OnOk result (self.new ≡ with_counter self.old (counter_in counter.now)) }
    {
        match counter {
            Some(counter) => {
                let mut digits = Buffer::new();
                self.bind(
                    counter.name.as_slice(),
                    digits.format(counter.count).as_bytes(),
                )
            }
            None => Ok(()),
        }
    }
}
