//! The results of each line of a scenario.
ghost use Rattle.std.specs.Prelude.{◌≡◌, IfOk, OnOk};
ghost use Rattle.run_record.specs.Marked.{marked, marks_after, unmarked};
ghost use Rattle.run_record.specs.RecordedCalls.Meeting.{Hears, Logs};
ghost use Rattle.run_record.specs.Recorded.{pieces_of, written_lines};
ghost use Rattle.run_record.specs.Views.{IsOfLine, recorded_call_view, mark_view, marks_view};

use crate::line_record::LineRecord;
use crate::pieces::first_piece;
use crate::recorded_call::RecordedCall;
use crate::recorded_text::RecordedText;
use line_steps::LineBuffers;
use std::alloc::{AllocError, Global};

/// A line of a scenario, and its results.
#[derive(Drop)]
pub(crate) struct LineMark<'a> {
    pub line: &'a [u8],
    /// Whether a step of the line is a log line.
    pub logs: bool,
    /// The record of its steps as a call.
    pub note: Option<LineRecord>,
}

/// The lines of a scenario, and the results of each.
#[derive(Drop)]
pub(crate) struct LineMarks<'a> {
    alloc: Global,
    marks: Vec<LineMark<'a>>,
    // Buffers for lines that are written and then checked.
    buffers: LineBuffers,
}

impl<'a> LineMarks<'a> {
    /// Returns the lines of a scenario without any result. The error is that the host is out of memory.
    pub(crate) fn new(alloc: Global, scenario: &'a [u8]) -> Result<LineMarks<'a>, AllocError>
        ensures { IfOk result
            (λ marks. marks_view marks.marks.items ≡ unmarked (pieces_of scenario.now)) }
    {
        let mut marks = Vec::new(alloc);
        let mut rest = Some(scenario);
        while let Some(text) = rest {
            let (line, behind) = first_piece(text);
            marks.push(LineMark {
                line,
                logs: false,
                note: None,
            })?;
            rest = behind;
        }
        Ok(LineMarks {
            alloc,
            marks,
            buffers: LineBuffers::new(),
        })
    }

    /// Records that the line of a number, from 1 on, is a log line.
    pub(crate) fn log(&mut self, number: u64)
        ensures { marks_view self.new.marks.items ≡ marks_after 1 (record {
          number = number;
          meeting = Logs;
        }) (marks_view self.old.marks.items) }
    {
        let Some(place) = number.checked_sub(1) else {
            return;
        };
        if let Some(mark) = self.marks.get_mut(place as usize) {
            mark.logs = true;
        }
    }

    /// Records an answered call in the line of a number, from 1 on. The error is that the host is out of memory.
    pub(crate) fn hear(
        &mut self,
        number: u64,
        hearing: &RecordedCall<'_, '_>,
    ) -> Result<(), AllocError>
        requires { IsOfLine hearing.now }
        ensures { OnOk result (marks_view self.new.marks.items ≡ marks_after 1 (record {
          number = number;
          meeting = Hears (recorded_call_view hearing.now);
        }) (marks_view self.old.marks.items)) }
    {
        let Some(place) = number.checked_sub(1) else {
            return Ok(());
        };
        match self.marks.get_mut(place as usize) {
            Some(mark) => mark.hear(self.alloc, hearing, &mut self.buffers),
            None => Ok(()),
        }
    }

    /// Writes the lines with their results; with `all` each reply is written again. The error is that the host is out of memory.
    pub(crate) fn write(&self, all: bool) -> Result<Vec<u8>, AllocError>
        ensures { IfOk result
            (λ text. text.items ≡ written_lines all (marks_view self.now.marks.items)) }
    {
        let mut sheet = RecordedText::new(self.alloc, all);
        for mark in self.marks.as_slice() {
            sheet.put(mark)?;
        }
        sheet.into_text()
    }
}

impl LineMark<'_> {
    // Records an answered call in the line.
    fn hear(
        &mut self,
        alloc: Global,
        hearing: &RecordedCall<'_, '_>,
        buffers: &mut LineBuffers,
    ) -> Result<(), AllocError>
        requires { IsOfLine hearing.now }
        ensures { OnOk result (mark_view self.new
            ≡ marked (mark_view self.old) (Hears (recorded_call_view hearing.now))) }
    {
        let mut note = match self.note.take() {
            Some(note) => note,
            None => LineRecord::new(alloc, hearing)?,
        };
        note.hear(alloc, self.line, hearing, buffers)?;
        self.note = Some(note);
        Ok(())
    }
}
