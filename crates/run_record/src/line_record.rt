//! The record of all steps of a line.
ghost use Rattle.std.specs.Prelude.{◌≡◌, ◌++◌, ℕ, List, IfOk, OnOk, Some};
ghost use Rattle.run_record.specs.LineRecords.{record_of_first, record_of_more};
ghost use Rattle.run_record.specs.Recorded.{anew, expecting, stays, verdict, written_anew};
ghost use Rattle.run_record.specs.Views.{IsOfLine, recorded_call_view, line_by, note_view};

use crate::recorded_call::RecordedCall;
use crate::writing::{put_expected, put_expecting, put_kept};
use line_friendly::meets;
use line_steps::LineBuffers;
use std::alloc::{AllocError, Global};

/// The record of all steps of a line.
#[derive(Drop)]
pub(crate) struct LineRecord {
    /// The first reply, and its log lines.
    reply: Vec<u8>,
    lines: Vec<u8>,
    /// Whether a reply is expected in any of them.
    expects: bool,
    /// Whether a reply binds a name in any of them.
    binds: bool,
    /// Whether a call isn't understood in any of them.
    lost: bool,
    /// Whether the line holds in all steps unchanged; with the reply; and with `granted` or `refused`.
    own: bool,
    exact: bool,
    told: bool,
}

/// The way in which a line is written.
#[derive(Clone, Copy, PartialEq, Eq)]
pub(crate) enum RecordedForm {
    /// Unchanged, with its expectation.
    Stays,
    /// Unchanged, after new log lines.
    Own,
    /// With the reply as its expectation.
    Exact,
    /// With `granted` or `refused` as its expectation.
    Told,
}

impl LineRecord {
    /// Returns the record before the first step of a line, with the first reply. The error is that the host is out of memory.
    pub(crate) fn new(
        alloc: Global,
        hearing: &RecordedCall<'_, '_>,
    ) -> Result<LineRecord, AllocError>
        ensures { IfOk result (λ note. note_view note ≡ record_of_first (recorded_call_view hearing.now)) }
    {
        Ok(LineRecord {
            reply: Vec::from_slice(alloc, hearing.reply)?,
            lines: Vec::from_slice(alloc, hearing.lines)?,
            expects: false,
            binds: false,
            lost: false,
            own: true,
            exact: true,
            told: true,
        })
    }

    /// Adds one more step of the line. The error is that the host is out of memory.
    pub(crate) fn hear(
        &mut self,
        alloc: Global,
        line: &[u8],
        hearing: &RecordedCall<'_, '_>,
        buffers: &mut LineBuffers,
    ) -> Result<(), AllocError>
        requires { IsOfLine hearing.now }
        ensures { OnOk result (note_view self.new
            ≡ record_of_more line.now (note_view self.old) (recorded_call_view hearing.now)) }
    {
        let (lines, reply) = (self.lines.as_slice(), self.reply.as_slice());
        let own_holds = self.own && hearing.holds(lines, line, buffers);
        let exact_holds = self.exact && hearing.holds_with(alloc, lines, line, reply, buffers)?;
        let told_holds = self.told
            && hearing.holds_with(alloc, lines, line, verdict(reply), buffers)?;
        self.expects = self.expects || hearing.expected.is_some();
        self.binds = self.binds || hearing.binds;
        self.lost = self.lost || hearing.lost;
        self.own = own_holds;
        self.exact = exact_holds;
        self.told = told_holds;
        Ok(())
    }

    /// Returns whether the line and its expectation stay unchanged.
    pub(crate) fn stays(&self, all: bool) -> bool
        ensures { (line : List ℕ) → result ≡ stays all line (note_view self.now) }
    {
        self.expects && self.form(all) == RecordedForm::Stays
    }

    /// Writes the line: a new one after its log lines, or the old one. The error is that the host is out of memory.
    pub(crate) fn put(&self, all: bool, line: &[u8], text: &mut Vec<u8>) -> Result<(), AllocError>
        ensures { OnOk result (text.new.items ≡ text.old.items ++ written_anew line.now
            (note_view self.now).lines (anew all line.now (note_view self.now))) }
    {
        let reply = self.reply.as_slice();
        match self.form(all) {
            RecordedForm::Stays => put_kept(text, line),
            RecordedForm::Own => {
                put_expected(text, self.lines.as_slice(), line)?;
                put_kept(text, line)
            }
            RecordedForm::Exact => self.put_new(text, line, reply),
            RecordedForm::Told => self.put_new(text, line, verdict(reply)),
        }
    }

    // Writes a line with this expected reply, after its log lines.
    fn put_new(&self, text: &mut Vec<u8>, line: &[u8], reply: &[u8]) -> Result<(), AllocError>
        ensures { OnOk result (text.new.items ≡ text.old.items ++ written_anew line.now
            (note_view self.now).lines (Some (expecting line.now reply.now))) }
    {
        put_expected(text, self.lines.as_slice(), line)?;
        put_expecting(text, line, reply)?;
        text.push(b'\n')?;
        Ok(())
    }

    // Returns the way in which the line is written.
    #[tactic(auto, unfolding(crate::specs::Recorded::anew))]
    fn form(&self, all: bool) -> RecordedForm
        ensures { (line : List ℕ) →
            line_by line (note_view self.now) result ≡ anew all line (note_view self.now) }
    {
        if (self.expects && !all) || self.lost {
            return RecordedForm::Stays;
        }
        if self.binds {
            return if self.own {
                RecordedForm::Own
            } else {
                RecordedForm::Stays
            };
        }
        if self.exact {
            RecordedForm::Exact
        } else if self.told {
            RecordedForm::Told
        } else {
            RecordedForm::Stays
        }
    }
}

// Returns whether a reply refuses, as an expectation.
#[tactic(auto, unfolding(crate::specs::Recorded::verdict))]
fn verdict(reply: &[u8]) -> &[u8]
    ensures { result.now ≡ verdict reply.now }
{
    if meets(reply, b"refused") {
        b"refused"
    } else {
        b"granted"
    }
}
