//! Numbers of lines.

use std::alloc::{AllocError, Global};

/// Numbers of a scenario's lines.
#[derive(Drop)]
pub struct LineNumbers {
    /// Whether the line of each number, from 0 on, is among them.
    has: Vec<bool>,
}

impl LineNumbers {
    ghost use Rattle.std.specs.Prelude.{◌≡◌, ◌||◌, ℕ, false, nat_eq, IfOk, OnOk};
    ghost use Rattle.budget_search.specs.LineNumbers.{has_number};

    /// Returns no numbers.
    pub fn new(alloc: Global) -> LineNumbers
        ensures { (number : ℕ) → has_number result number ≡ false }
    {
        LineNumbers {
            has: Vec::new(alloc),
        }
    }

    /// Adds a number, and returns whether it was there. The error is that the host is out of memory.
    pub fn add(&mut self, number: u64) -> Result<bool, AllocError>
        ensures was { IfOk result (λ was. was ≡ has_number self.old number) }
        ensures added { OnOk result ((other : ℕ) →
            has_number self.new other ≡ (has_number self.old other || nat_eq other number)) }
    {
        let place = number as usize;
        let count = self.has.len();
        for end in count..place.saturating_add(1) {
            self.has.push(false)?;
        }
        let was = self.has[place];
        self.has[place] = true;
        Ok(was)
    }
}
