//! The log lines that the next call is expected to finish.
ghost use Rattle.std.specs.Prelude.{◌≡◌, OnOk};
ghost use Rattle.run_scenario.specs.Judging.{awaited_more, nothing_awaited};

use std::alloc::{AllocError, Global};
use std::marker::Model;

/// The log lines that the next call is expected to finish.
#[derive(Drop)]
pub struct ExpectedLog {
    /// The log lines as printed, each with its newline.
    lines: Vec<u8>,
    /// The number of the scenario's line with the first of them.
    first: Option<u64>,
}

impl Model for ExpectedLog {
    ghost use Rattle.run_scenario.specs.Judging.{Awaited};

    ghost Value = { Awaited };

    ghost view = { λ expected. record { lines = expected.lines.items; first = expected.first } };
}

impl ExpectedLog {
    /// Returns an expectation without any log line, for this allocator.
    pub fn new(alloc: Global) -> ExpectedLog
        ensures { result ≡ nothing_awaited }
    {
        ExpectedLog {
            lines: Vec::new(alloc),
            first: None,
        }
    }

    /// Adds a log line, which the line of this number in the scenario expects. The error is that the host is out of memory.
    pub fn add(&mut self, number: u64, text: &[u8]) -> Result<(), AllocError>
        ensures { OnOk result (self.new ≡ awaited_more self.old number text.now) }
    {
        self.lines.extend_from_slice(text)?;
        self.lines.push(b'\n')?;
        if self.first.is_none() {
            self.first = Some(number);
        }
        Ok(())
    }

    /// Returns the expected log lines, each with its newline, in one text.
    pub fn lines(&self) -> &[u8]
        ensures { result.now ≡ self.now.lines }
    {
        self.lines.as_slice()
    }

    /// Returns the number of the scenario's line with the first expected log line, if there is one.
    pub fn first(&self) -> Option<u64>
        ensures { result ≡ self.now.first }
    {
        self.first
    }

    /// Removes all expected log lines, also their first line's number.
    pub fn clear(&mut self)
        ensures { self.new ≡ nothing_awaited }
    {
        self.lines.clear();
        self.first = None;
    }
}
