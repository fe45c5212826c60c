//! The lines of a source, one after another.
ghost use Rattle.std.specs.Prelude.{◌≡◌, ◌<◌, ◌≤◌, [], length, OnOk};
ghost use Rattle.run_devices.specs.Lines.{line_length, to_come};
ghost use Rattle.run_lines.specs.Next.{BeginsIn, BothWork, FailsAs, FindsLine, GrowsOrStops, OutputsOrStops};
ghost use Rattle.run_lines.specs.Reach.{ReadsBehind, longest_ahead, reach};

use crate::read_buffer::ReadBuffer;
use line_grammar::LONGEST_LINE;
use run_devices::{DeviceFault, Sink, Source, WriteBuffer};

/// The longest line that is read to its end, in bytes and without its newline.
const LONGEST_READ: usize = 1_048_576;

/// The buffers of a run, in addition to its devices.
#[derive(Drop)]
pub struct Buffers {
    /// Bytes that were read and not yet passed.
    pub ahead: ReadBuffer,
    /// Bytes that are still to be written.
    pub gathered: WriteBuffer,
}

/// What a source has next: a line or the end.
pub enum NextLine {
    /// A line of this many bytes at the front of the bytes ahead. It is not passed yet.
    Line(usize),
    /// A line of more than `LONGEST_LINE` bytes and at most `LONGEST_READ`. It is passed.
    TooLong,
    /// The source has no more lines.
    End,
}

/// A fault that prevents the next line.
pub enum LineFault {
    /// A read failed.
    Read,
    /// The gathered bytes could not be written before a read.
    Write,
    /// The line has more than `LONGEST_READ` bytes.
    Endless,
}

impl Buffers {
    /// Creates empty buffers, with nothing read ahead and nothing gathered.
    pub fn new() -> Self
        ensures ahead { result.ahead ≡ [] }
        ensures gathered { result.gathered ≡ [] }
    {
        Buffers {
            ahead: ReadBuffer::new(),
            gathered: WriteBuffer::new(),
        }
    }

    /// Writes the gathered bytes, then reads once, and returns the number of bytes read. Returns `LineFault::Write` if the
    /// write fails, then `LineFault::Read` if the read fails.
    pub fn read_more<S: Source, K: Sink>(
        &mut self,
        source: &mut S,
        sink: &mut K,
    ) -> Result<usize, LineFault>
        requires room { length self.old.ahead ≤ LONGEST_LINE }
        requires works { BothWork (S.has_failed source.old) (K.has_failed sink.old) }
        ensures grows { GrowsOrStops result
            self.old.ahead (S.remaining source.old) self.new.ahead (S.remaining source.new) }
        ensures told { OutputsOrStops result
            (K.contents sink.old) self.old.gathered (K.contents sink.new) self.new.gathered [] }
        ensures empty { OnOk result (self.new.gathered ≡ []) }
        ensures behind { ReadsBehind (λ _. longest_ahead)
            (to_come self.old.ahead (S.remaining source.old)) self.old.gathered
            (K.contents sink.old) (S.remaining source.old)
            (K.contents sink.new) (S.remaining source.new) }
        ensures failing { FailsAs result (S.has_failed source.new) (K.has_failed sink.new) }
    {
        match self.gathered.flush(sink) {
            Ok(()) => match self.ahead.fill(source, &self.gathered) {
                Ok(count) => Ok(count),
                Err(DeviceFault) => Err(LineFault::Read),
            },
            Err(DeviceFault) => Err(LineFault::Write),
        }
    }

    /// Finds the next line or the end, with as many reads as it takes. Gathered bytes are written before each read. Returns
    /// `LineFault::Write` or `LineFault::Read` if a device fails, and `LineFault::Endless` if the line is too long.
    pub fn next_line<S: Source, K: Sink>(
        &mut self,
        source: &mut S,
        sink: &mut K,
    ) -> Result<NextLine, LineFault>
        requires works { BothWork (S.has_failed source.old) (K.has_failed sink.old) }
        ensures finds { FindsLine result
            self.old (S.remaining source.old) (K.contents sink.old)
            self.new (S.remaining source.new) (K.contents sink.new) }
        ensures failing { FailsAs result (S.has_failed source.new) (K.has_failed sink.new) }
    {
        let mut seen = 0;
        loop {
            seen = self.ahead.line_length(seen);
            if seen > LONGEST_LINE {
                return self.pass_long_line(source, sink);
            }
            if seen < self.ahead.len() {
                return Ok(NextLine::Line(seen));
            }
            if self.read_more(source, sink)? == 0 {
                return Ok(if seen == 0 {
                    NextLine::End
                } else {
                    NextLine::Line(seen)
                });
            }
        }
    }

    /// Returns whether one more line begins, and writes the gathered bytes before. Returns `LineFault::Write` if the write
    /// fails, then `LineFault::Read` if the read fails.
    pub fn begins_line<S: Source, K: Sink>(
        &mut self,
        source: &mut S,
        sink: &mut K,
    ) -> Result<bool, LineFault>
        requires works { BothWork (S.has_failed source.old) (K.has_failed sink.old) }
        ensures begins { BeginsIn result
            self.old.ahead (S.remaining source.old) (S.remaining source.new) }
        ensures behind { ReadsBehind reach (to_come self.old.ahead (S.remaining source.old))
            self.old.gathered (K.contents sink.old) (S.remaining source.old)
            (K.contents sink.new) (S.remaining source.new) }
        ensures told { OutputsOrStops result
            (K.contents sink.old) self.old.gathered (K.contents sink.new) [] [] }
        ensures failing { FailsAs result (S.has_failed source.new) (K.has_failed sink.new) }
    {
        if self.ahead.len() > 0 {
            return match self.gathered.flush(sink) {
                Ok(()) => Ok(true),
                Err(DeviceFault) => Err(LineFault::Write),
            };
        }
        Ok(self.read_more(source, sink)? > 0)
    }

    // Passes a line of more than `LONGEST_LINE` bytes, and keeps none of them.
    fn pass_long_line<S: Source, K: Sink>(
        &mut self,
        source: &mut S,
        sink: &mut K,
    ) -> Result<NextLine, LineFault>
        requires long { LONGEST_LINE < line_length self.old.ahead }
        requires works { BothWork (S.has_failed source.old) (K.has_failed sink.old) }
        ensures finds { FindsLine result
            self.old (S.remaining source.old) (K.contents sink.old)
            self.new (S.remaining source.new) (K.contents sink.new) }
        ensures failing { FailsAs result (S.has_failed source.new) (K.has_failed sink.new) }
    {
        let mut passed = 0;
        loop {
            let length = self.ahead.line_length(0);
            let is_whole = length < self.ahead.len();
            if passed + length > LONGEST_READ {
                return Err(LineFault::Endless);
            }
            passed += length;
            self.ahead.pass(length + 1);
            if is_whole {
                return Ok(NextLine::TooLong);
            }
            if self.read_more(source, sink)? == 0 {
                return Ok(NextLine::TooLong);
            }
        }
    }
}
