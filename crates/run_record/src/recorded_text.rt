//! The text of a scenario that is written line by line.
ghost use Rattle.std.specs.Prelude.{◌≡◌, ◌++◌, Bool, [], false, IfOk, OnOk, if◌then◌else◌};
ghost use Rattle.run_record.specs.Recorded.{kept, stays_by, written_by};
ghost use Rattle.run_record.specs.Views.{mark_view, settled};

use crate::line_marks::LineMark;
use crate::writing::put_kept;
use std::alloc::{AllocError, Global};

/// The text of a scenario so far. The part after the last call is stored twice: log lines that are expected of a call stay or are
/// left out with its expectation.
#[derive(Drop)]
pub(crate) struct RecordedText {
    /// Whether each reply is written again.
    all: bool,
    /// The text up to the last call.
    text: Vec<u8>,
    /// The text after the last call, if the next call stays.
    staying: Vec<u8>,
    /// The text after the last call, if the next call is written again.
    going: Vec<u8>,
}

impl RecordedText {
    /// Returns an empty text; with `all` each reply is written again.
    pub(crate) fn new(alloc: Global, all: bool) -> RecordedText
        ensures all { result.all ≡ all }
        ensures empty { (stays : Bool) → settled result stays ≡ [] }
    {
        RecordedText {
            all,
            text: Vec::new(alloc),
            staying: Vec::new(alloc),
            going: Vec::new(alloc),
        }
    }

    /// Writes a line with its results. The error is that the host is out of memory.
    pub(crate) fn put(&mut self, mark: &LineMark<'_>) -> Result<(), AllocError>
        ensures all { self.new.all ≡ self.old.all }
        ensures written { (later : Bool) → OnOk result (settled self.new later
            ≡ settled self.old (stays_by self.old.all (mark_view mark.now) (mark_view mark.now).note later)
            ++ written_by self.old.all later (mark_view mark.now) (mark_view mark.now).note) }
    {
        match &mark.note {
            Some(note) => {
                self.settle(note.stays(self.all))?;
                note.put(self.all, mark.line, &mut self.text)
            }
            None => self.put_aside(mark.line, mark.logs && self.all),
        }
    }

    // Writes a line after the last call, which is left out with an old expectation, or stays.
    fn put_aside(&mut self, line: &[u8], goes: bool) -> Result<(), AllocError>
        ensures all { self.new.all ≡ self.old.all }
        ensures text { self.new.text ≡ self.old.text }
        ensures staying { OnOk result
            (self.new.staying.items ≡ self.old.staying.items ++ kept line.now) }
        ensures going { OnOk result (self.new.going.items
            ≡ self.old.going.items ++ (if goes then [] else kept line.now)) }
    {
        put_kept(&mut self.staying, line)?;
        if goes {
            Ok(())
        } else {
            put_kept(&mut self.going, line)
        }
    }

    // Writes the part after the last call, for a next call that stays or one that doesn't.
    fn settle(&mut self, stays: bool) -> Result<(), AllocError>
        ensures all { self.new.all ≡ self.old.all }
        ensures text { OnOk result (self.new.text.items ≡ settled self.old stays) }
        ensures staying { OnOk result (self.new.staying.items ≡ []) }
        ensures going { OnOk result (self.new.going.items ≡ []) }
    {
        if stays {
            self.text.extend_from_slice(self.staying.as_slice())?;
        } else {
            self.text.extend_from_slice(self.going.as_slice())?;
        }
        self.staying.clear();
        self.going.clear();
        Ok(())
    }

    /// Returns the whole text. The error is that the host is out of memory.
    pub(crate) fn into_text(self) -> Result<Vec<u8>, AllocError>
        ensures { IfOk result (λ text. text.items ≡ settled self false) }
    {
        let mut sheet = self;
        sheet.settle(false)?;
        Ok(sheet.text)
    }
}
