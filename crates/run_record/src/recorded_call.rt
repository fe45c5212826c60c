//! An answered call of a line, and whether a recorded line would hold for it.
ghost use Rattle.std.specs.Prelude.{◌≡◌, IfOk};
ghost use Rattle.std.specs.Option.{option_copied};
ghost use Rattle.run_record.specs.Bare.{is_bare_with, is_expected};
ghost use Rattle.run_record.specs.Recorded.{expecting, holds, is_met};
ghost use Rattle.run_record.specs.Views.{IsOfLine, recorded_call_view};

use crate::bare::{fits, is_bare, is_bare_line};
use crate::writing::expecting;
use line_friendly::meets;
use line_names::NameTable;
use line_steps::{LineBuffers, ResolvedLine, resolve};
use std::alloc::{AllocError, Global};

/// An answered call of a line.
#[derive(Clone, Copy)]
pub(crate) struct RecordedCall<'k, 'a> {
    /// The values of names before the call.
    pub known: &'k NameTable,
    /// Whether the reply binds a name.
    pub binds: bool,
    /// The line that was run.
    pub line: &'a [u8],
    /// The reply that the line expects.
    pub expected: Option<&'a [u8]>,
    /// Whether the call isn't understood, and the line isn't meant.
    pub lost: bool,
    /// The engine's line.
    pub call: &'a [u8],
    pub reply: &'a [u8],
    /// The log lines to be expected of the call, each with its newline.
    pub lines: &'a [u8],
}

impl RecordedCall<'_, '_> {
    /// Returns whether a line in place of this one holds with the names of then, and whether the log lines before it are these.
    #[tactic(auto, unfolding(crate::specs::Recorded::holds))]
    pub(crate) fn holds(&self, lines: &[u8], line: &[u8], buffers: &mut LineBuffers) -> bool
        requires { IsOfLine self.now }
        ensures { result ≡ holds lines.now line.now (recorded_call_view self.now) }
    {
        self.lines == lines && self.is_met(line, buffers)
    }

    /// Returns the same of a line with this expected reply in place of its own. The error is that the host is out of memory.
    #[tactic(auto, using(crate::proofs::BareCallLemmas::bare_holds))]
    pub(crate) fn holds_with(
        &self,
        alloc: Global,
        lines: &[u8],
        line: &[u8],
        reply: &[u8],
        buffers: &mut LineBuffers,
    ) -> Result<bool, AllocError>
        requires { IsOfLine self.now }
        ensures { IfOk result (λ is. is
            ≡ holds lines.now (expecting line.now reply.now) (recorded_call_view self.now)) }
    {
        // Most lines and replies are bare.
        if self.is_bare_with(line, reply) {
            return Ok(self.lines == lines && meets(self.reply, reply));
        }
        let new = expecting(alloc, line, reply)?;
        Ok(self.holds(lines, new.as_slice(), buffers))
    }

    // Returns whether a line is the one that was run, which expects no reply, and is bare with this reply.
    fn is_bare_with(&self, line: &[u8], reply: &[u8]) -> bool
        ensures { result ≡ is_bare_with (option_copied self.now.expected) self.now.line.now line.now reply.now }
    {
        let is_run = self.expected.is_none() && line == self.line;
        is_run && fits(line, reply) && is_bare_line(line) && is_bare(reply)
    }

    // Returns whether a line in place of this one is the same call, and its expectation holds.
    #[tactic(auto, using(crate::proofs::BareCallLemmas::run_met))]
    fn is_met(&self, line: &[u8], buffers: &mut LineBuffers) -> bool
        requires { IsOfLine self.now }
        ensures { result ≡ is_met (recorded_call_view self.now) line.now }
    {
        if line == self.line {
            return self.is_expected();
        }
        self.is_met_anew(line, buffers)
    }

    // Returns whether the reply meets the one that the line expects.
    fn is_expected(&self) -> bool
        ensures { result ≡ is_expected self.now.reply.now (option_copied self.now.expected) }
    {
        match self.expected {
            Some(expected) => meets(self.reply, expected),
            None => false,
        }
    }

    // Returns whether a line is the same call, and its expectation holds. The line is resolved for it.
    fn is_met_anew(&self, line: &[u8], buffers: &mut LineBuffers) -> bool
        ensures { result ≡ is_met (recorded_call_view self.now) line.now }
    {
        match resolve(None, self.known, line, buffers) {
            ResolvedLine::Call(call) => match call.reply {
                Some(expected) => call.line == self.call && meets(self.reply, expected),
                None => false,
            },
            _ => false,
        }
    }
}
