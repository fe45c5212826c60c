//! Compares answers with expectations.
ghost use Rattle.std.specs.Prelude.{◌≡◌, ◌&&◌, Some, false, true, not, is_some, IfErr, IfOk, IfSome, OnOk};
ghost use Rattle.std.specs.Option.{option_copied};
ghost use Rattle.line_friendly.specs.Expected.{can_pass};
ghost use Rattle.line_grammar.specs.Read.{IsReadAs};
ghost use Rattle.run_lines.specs.Faults.{Fails};
ghost use Rattle.view_diagnostics.specs.Diagnostics.{subject_at};
ghost use Rattle.run_scenario.specs.Complaints.{WritesUnless};
ghost use Rattle.run_scenario.specs.Judging.{answer_text, awaited_more, differs, is_other, nothing_awaited, text_in};
ghost use Rattle.run_scenario.specs.LineSteps.{is_meant_line};
ghost use Rattle.run_scenario.specs.Reports.{Reports, left_over_report};
ghost use Rattle.run_scenario.specs.UnknownNames.{names_unknown};
ghost use Rattle.run_lines.specs.declared.line_run_fault.LineRunFault.TheVariants.{NoMemory as NoRoom};

use crate::call_observer::ObservedCall;
use crate::complaint::{report, report_reply};
use crate::expected_log::ExpectedLog;
use crate::misreading::Misreading;
use crate::source_line::{JudgedLine, LinePlace, SourceLine, is_meant_line};
use crate::text::word_at;
use crate::unknown_names::names_unknown;
use line_friendly::{FriendlyFault, can_pass, end_of, meets};
use line_names::{DirectiveFault, NameFault, NameTable, token_at};
use list_parser::StartList;
use run_lines::{LineAnswer, LineRunFault, Sink};
use std::alloc::Global;
use view_diagnostics::{FilePlace, Subject};

/// Compares answers with expectations, and writes an error for each difference. Each method returns whether it wrote an error.
#[derive(Drop)]
pub struct ReplyChecker<'a> {
    alloc: Global,
    expected: ExpectedLog,
    scenario: Subject<'a>,
}

impl<'a> ReplyChecker<'a> {
    /// Returns a checker of a scenario by its name, without any expectation.
    pub fn new(alloc: Global, scenario: Subject<'a>) -> ReplyChecker<'a>
        ensures expects { result.expected ≡ nothing_awaited }
        ensures scenario { subject_at result.scenario ≡ subject_at scenario.entry }
    {
        ReplyChecker {
            alloc,
            expected: ExpectedLog::new(alloc),
            scenario,
        }
    }

    /// Adds a log line to the expectation of the next call. The error is that the host is out of memory.
    pub fn expect_line(&mut self, number: u64, text: &[u8]) -> Result<bool, LineRunFault>
        ensures fault { IfErr result (λ fault. fault ≡ NoRoom) }
        ensures silent { IfOk result (λ complained. complained ≡ false) }
        ensures expects { OnOk result
            (self.new.expected ≡ awaited_more self.old.expected number text.now) }
        ensures same { subject_at self.new.scenario ≡ subject_at self.old.scenario }
    {
        self.expected.add(number, text)?;
        Ok(false)
    }

    /// Checks the answer of a line's call on the machine of a list, and writes an error if the line has one. A line has one that isn't
    /// understood, as its reply says or by a name in its call, unless the line expects this whole reply or is meant. With an expected
    /// reply, the reply and the log lines are compared. Without one, no log lines may be expected. A skipped call has no error. The
    /// line is given as filled with `known`. The error returned is a failed write.
    #[inline(always)]
    pub fn judge<E: Sink>(
        &mut self,
        list: &StartList,
        asked: JudgedLine<'_>,
        known: &NameTable,
        heard: &Option<ObservedCall<'_>>,
        sink: &mut E,
    ) -> Result<bool, LineRunFault>
        requires read { IfSome heard.now (λ it. IsReadAs it.line.now it.call) }
        requires works { E.has_failed sink.old ≡ false }
        ensures judged { IfOk result (λ complained. complained
            ≡ is_other (is_meant_line asked.entry.given.line.now) (option_copied asked.entry.reply)
            (text_in list.now heard.now) self.old.expected) }
        ensures reports { Reports (subject_at self.old.scenario) asked.entry.given.number result
            (E.contents sink.old) (E.contents sink.new) }
        ensures forgets { self.new.expected ≡ nothing_awaited }
        ensures same { subject_at self.new.scenario ≡ subject_at self.old.scenario }
        ensures works { OnOk result (E.has_failed sink.new ≡ false) }
        ensures failing { Fails result (E.has_failed sink.new) false }
    {
        let judged = match heard {
            Some(heard) => self.check(list, asked, known, heard, sink),
            None => Ok(false),
        };
        self.forget_expected();
        judged
    }

    // Checks the answer of a line's call in the same way.
    #[inline(always)]
    fn check<E: Sink>(
        &self,
        list: &StartList,
        asked: JudgedLine<'_>,
        known: &NameTable,
        heard: &ObservedCall<'_>,
        sink: &mut E,
    ) -> Result<bool, LineRunFault>
        requires read { IsReadAs heard.now.line.now heard.now.call }
        requires works { E.has_failed sink.old ≡ false }
        ensures judged { IfOk result (λ complained. complained
            ≡ is_other (is_meant_line asked.entry.given.line.now) (option_copied asked.entry.reply)
            (Some (answer_text list.now heard.now)) self.now.expected) }
        ensures reports { Reports (subject_at self.now.scenario) asked.entry.given.number result
            (E.contents sink.old) (E.contents sink.new) }
        ensures works { OnOk result (E.has_failed sink.new ≡ false) }
        ensures failing { Fails result (E.has_failed sink.new) false }
    {
        if !(is_understood(list, asked.reply, heard) || is_meant_line(asked.given.line)) {
            return self.report_misread(list, asked, known, heard, sink);
        }
        match asked.reply {
            Some(reply) => self.check_reply(asked, known, reply, heard.answer, sink),
            None => self.check_silent(asked.given.number, sink),
        }
    }

    // Writes an error if log lines are expected of a call without an expected reply.
    fn check_silent<E: Sink>(&self, number: u64, sink: &mut E) -> Result<bool, LineRunFault>
        requires { E.has_failed sink.old ≡ false }
        ensures judged { IfOk result (λ complained. complained ≡ is_some self.now.expected.first) }
        ensures reports { Reports (subject_at self.now.scenario) number result
            (E.contents sink.old) (E.contents sink.new) }
        ensures works { OnOk result (E.has_failed sink.new ≡ false) }
        ensures failing { Fails result (E.has_failed sink.new) false }
    {
        if self.expected.first().is_some() {
            self.complain(
                LinePlace::first(number),
                &[b"log lines are expected, but no reply"],
                sink,
            )
        } else {
            Ok(false)
        }
    }

    // Writes an error if a reply differs from the expected one, or else if its log lines do.
    fn check_reply<E: Sink>(
        &self,
        asked: JudgedLine<'_>,
        known: &NameTable,
        reply: &[u8],
        answer: LineAnswer<'_>,
        sink: &mut E,
    ) -> Result<bool, LineRunFault>
        requires { E.has_failed sink.old ≡ false }
        ensures judged { IfOk result (λ complained. complained
            ≡ differs (Some reply.now) answer.entry.reply.now answer.entry.lines.now self.now.expected) }
        ensures reports { Reports (subject_at self.now.scenario) asked.entry.given.number result
            (E.contents sink.old) (E.contents sink.new) }
        ensures works { OnOk result (E.has_failed sink.new ≡ false) }
        ensures failing { Fails result (E.has_failed sink.new) false }
    {
        let number = asked.given.number;
        if !meets(answer.reply, reply) {
            let column = asked.column(known, column_of(asked.line, reply));
            return self.complain_of_reply(LinePlace { number, column }, answer, reply, sink);
        }
        let expected = self.expected.lines();
        if answer.lines != expected {
            let column = asked.column(known, column_of(asked.line, reply));
            let expected = without_last(expected);
            let found = without_last(answer.lines);
            let pieces: &[&[u8]] = &[
                b"expected the log lines `",
                expected,
                b"`, found `",
                found,
                b"`",
            ];
            return self.complain(LinePlace { number, column }, pieces, sink);
        }
        Ok(false)
    }

    // Writes that a line wasn't understood, or that its caller has exited. Returns true.
    #[inline(never)]
    fn report_misread<E: Sink>(
        &self,
        list: &StartList,
        asked: JudgedLine<'_>,
        known: &NameTable,
        heard: &ObservedCall<'_>,
        sink: &mut E,
    ) -> Result<bool, LineRunFault>
        requires { E.has_failed sink.old ≡ false }
        ensures told { IfOk result (λ complained. complained ≡ true) }
        ensures reports { Reports (subject_at self.now.scenario) asked.entry.given.number result
            (E.contents sink.old) (E.contents sink.new) }
        ensures works { OnOk result (E.has_failed sink.new ≡ false) }
        ensures failing { Fails result (E.has_failed sink.new) false }
    {
        let number = asked.given.number;
        match Misreading::of(list, asked, heard.call, heard.answer.reply) {
            Some(found) => {
                let column = asked.column(known, found.column);
                let near = found.near(self.alloc, list);
                let at = LinePlace { number, column };
                self.complain_of_text(at, found.words(), found.text, near, sink)
            }
            None => {
                let reply = asked.reply.unwrap_or(b"");
                let column = asked.column(known, column_of(asked.line, reply));
                self.complain_of_reply(LinePlace { number, column }, heard.answer, reply, sink)
            }
        }
    }

    /// Removes the expected log lines, after a call that was answered or skipped.
    pub fn forget_expected(&mut self)
        ensures forgets { self.new.expected ≡ nothing_awaited }
        ensures same { subject_at self.new.scenario ≡ subject_at self.old.scenario }
    {
        self.expected.clear();
    }

    /// Writes why a line can't be parsed. Returns true. The error is a failed write or that the host is out of memory.
    pub fn report_bad_line<E: Sink>(
        &self,
        given: SourceLine<'_>,
        fault: FriendlyFault,
        sink: &mut E,
    ) -> Result<bool, LineRunFault>
        requires { E.has_failed sink.old ≡ false }
        ensures told { IfOk result (λ complained. complained ≡ true) }
        ensures reports { Reports (subject_at self.now.scenario) given.entry.number result
            (E.contents sink.old) (E.contents sink.new) }
        ensures works { OnOk result (E.has_failed sink.new ≡ false) }
        ensures failing { Fails result (E.has_failed sink.new) true }
    {
        let token = String::from_utf8_lossy(self.alloc, word_at(given.line, fault.column))?;
        let message = fault.reason.about(token.as_str()).to_string(self.alloc)?;
        self.complain(given.at(fault.column), &[message.as_bytes()], sink)
    }

    /// Writes what is wrong with a name in a line. Returns true. The error is a failed write or that the host is out of memory.
    pub fn report_bad_name<E: Sink>(
        &self,
        given: SourceLine<'_>,
        fault: NameFault,
        sink: &mut E,
    ) -> Result<bool, LineRunFault>
        requires { E.has_failed sink.old ≡ false }
        ensures told { IfOk result (λ complained. complained ≡ true) }
        ensures reports { Reports (subject_at self.now.scenario) given.entry.number result
            (E.contents sink.old) (E.contents sink.new) }
        ensures works { OnOk result (E.has_failed sink.new ≡ false) }
        ensures failing { Fails result (E.has_failed sink.new) true }
    {
        let token = String::from_utf8_lossy(self.alloc, token_at(given.line, fault.column))?;
        let message = fault.reason.about(token.as_str()).to_string(self.alloc)?;
        self.complain(given.at(fault.column), &[message.as_bytes()], sink)
    }

    /// Writes why the directive at a column can't be followed. Returns true. The error is a failed write.
    pub fn report_misplaced<E: Sink>(
        &self,
        given: SourceLine<'_>,
        column: usize,
        why: DirectiveFault,
        sink: &mut E,
    ) -> Result<bool, LineRunFault>
        requires { E.has_failed sink.old ≡ false }
        ensures told { IfOk result (λ complained. complained ≡ true) }
        ensures reports { Reports (subject_at self.now.scenario) given.entry.number result
            (E.contents sink.old) (E.contents sink.new) }
        ensures works { OnOk result (E.has_failed sink.new ≡ false) }
        ensures failing { Fails result (E.has_failed sink.new) false }
    {
        self.complain(given.at(column), &[why.words().as_bytes()], sink)
    }

    /// Writes that a line has more than 8192 bytes. Returns true. The error is a failed write.
    pub fn report_too_long<E: Sink>(&self, number: u64, sink: &mut E) -> Result<bool, LineRunFault>
        requires { E.has_failed sink.old ≡ false }
        ensures told { IfOk result (λ complained. complained ≡ true) }
        ensures reports { Reports (subject_at self.now.scenario) number result
            (E.contents sink.old) (E.contents sink.new) }
        ensures works { OnOk result (E.has_failed sink.new ≡ false) }
        ensures failing { Fails result (E.has_failed sink.new) false }
    {
        self.complain(
            LinePlace::first(number),
            &[b"line of more than 8192 bytes"],
            sink,
        )
    }

    /// Writes an error for an expected log line without a call after it, if there is one. Returns whether there is one. The error
    /// returned is a failed write.
    pub fn report_left_over<E: Sink>(&self, sink: &mut E) -> Result<bool, LineRunFault>
        requires { E.has_failed sink.old ≡ false }
        ensures told { IfOk result (λ complained. complained ≡ is_some self.now.expected.first) }
        ensures writes { WritesUnless result (E.contents sink.old) (E.contents sink.new)
            (left_over_report (subject_at self.now.scenario) self.now.expected) }
        ensures works { OnOk result (E.has_failed sink.new ≡ false) }
        ensures failing { Fails result (E.has_failed sink.new) false }
    {
        match self.expected.first() {
            Some(line) => {
                let place = FilePlace::Byte(line, 1);
                report(
                    self.scenario,
                    sink,
                    place,
                    &[b"no call follows this log line"],
                )?;
                Ok(true)
            }
            None => Ok(false),
        }
    }

    // Writes an error in a line with a message of these pieces. Returns true.
    fn complain<E: Sink>(
        &self,
        at: LinePlace,
        pieces: &[&[u8]],
        sink: &mut E,
    ) -> Result<bool, LineRunFault>
        requires { E.has_failed sink.old ≡ false }
        ensures told { IfOk result (λ complained. complained ≡ true) }
        ensures reports { Reports (subject_at self.now.scenario) at.number result
            (E.contents sink.old) (E.contents sink.new) }
        ensures works { OnOk result (E.has_failed sink.new ≡ false) }
        ensures failing { Fails result (E.has_failed sink.new) false }
    {
        let place = FilePlace::Byte(at.number, at.column as u64);
        report(self.scenario, sink, place, pieces)?;
        Ok(true)
    }

    // Writes the error of a text that isn't understood, with the text that may be meant. Returns true.
    fn complain_of_text<E: Sink>(
        &self,
        at: LinePlace,
        words: &[u8],
        text: &[u8],
        near: Option<&[u8]>,
        sink: &mut E,
    ) -> Result<bool, LineRunFault>
        requires { E.has_failed sink.old ≡ false }
        ensures told { IfOk result (λ complained. complained ≡ true) }
        ensures reports { Reports (subject_at self.now.scenario) at.number result
            (E.contents sink.old) (E.contents sink.new) }
        ensures works { OnOk result (E.has_failed sink.new ≡ false) }
        ensures failing { Fails result (E.has_failed sink.new) false }
    {
        match near {
            Some(near) => {
                let pieces: &[&[u8]] = &[words, b" `", text, b"`; did you mean `", near, b"`?"];
                self.complain(at, pieces, sink)
            }
            None if text.is_empty() => self.complain(at, &[words, b" nothing"], sink),
            None => self.complain(at, &[words, b" `", text, b"`"], sink),
        }
    }

    // Writes the error of a reply that differs from the expected one. Returns true.
    fn complain_of_reply<E: Sink>(
        &self,
        at: LinePlace,
        answer: LineAnswer<'_>,
        expected: &[u8],
        sink: &mut E,
    ) -> Result<bool, LineRunFault>
        requires { E.has_failed sink.old ≡ false }
        ensures told { IfOk result (λ complained. complained ≡ true) }
        ensures reports { Reports (subject_at self.now.scenario) at.number result
            (E.contents sink.old) (E.contents sink.new) }
        ensures works { OnOk result (E.has_failed sink.new ≡ false) }
        ensures failing { Fails result (E.has_failed sink.new) false }
    {
        let place = FilePlace::Byte(at.number, at.column as u64);
        report_reply(self.scenario, sink, place, answer, expected)?;
        Ok(true)
    }
}

// Returns whether a call is understood, as its reply and its names say, on the machine of a list.
#[inline(always)]
fn is_understood(list: &StartList, expected: Option<&[u8]>, heard: &ObservedCall<'_>) -> bool
    requires { IsReadAs heard.now.line.now heard.now.call }
    ensures { result ≡ (can_pass (option_copied expected.entry) heard.now.answer.reply.now
        && not (names_unknown list.now heard.now.line.now)) }
{
    can_pass(expected, heard.answer.reply) && !names_unknown(list, heard.line, heard.call)
}

// Returns the column at which the reply at the end of a line begins.
fn column_of(line: &[u8], reply: &[u8]) -> usize {
    end_of(line).saturating_sub(reply.len()) + 1
}

// Returns log lines without the last newline.
fn without_last(lines: &[u8]) -> &[u8] {
    &lines[..lines.len().saturating_sub(1)]
}
