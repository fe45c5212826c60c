//! Lines of a scenario's text by their numbers.
use std::alloc::AllocError;

/// The positions at which the lines of a text begin.
#[derive(Drop)]
pub struct LineStarts<'a> {
    text: &'a [u8],
    starts: Vec<usize>,
}

impl<'a> LineStarts<'a> {
    /// Finds the first bytes of all lines of a text. Returns an error if the host is out of memory.
    pub fn of(rt: &HostRuntime, text: &'a [u8]) -> Result<LineStarts<'a>, AllocError> {
        let mut starts = vec![in rt.alloc(); 0]?;
        for (place, byte) in text.iter().enumerate() {
            if *byte == b'\n' {
                starts.push(place.saturating_add(1))?;
            }
        }
        Ok(LineStarts { text, starts })
    }

    /// Returns the line with this number, from 1 on, without its newline. The line is empty if no line has the number.
    pub fn line(&self, number: u64) -> &'a [u8] {
        let place = number.saturating_sub(1) as usize;
        let Some(start) = self.starts.get(place) else {
            return b"";
        };
        let Some((_, rest)) = self.text.split_at_checked(*start) else {
            return b"";
        };
        match rest.iter().position(|byte| *byte == b'\n') {
            Some(end) => &rest[..end],
            None => rest,
        }
    }
}
