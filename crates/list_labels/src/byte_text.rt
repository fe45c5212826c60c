//! Bytes as characters.
use std::fmt;

/// Bytes as text, each a character that can be printed.
#[derive(Clone, Copy)]
pub struct ByteText<'a> {
    bytes: &'a [u8],
}

impl<'a> ByteText<'a> {
    /// Returns the bytes of a text as characters.
    pub fn of(bytes: &'a [u8]) -> ByteText<'a> {
        ByteText { bytes }
    }
}

impl fmt::Display for ByteText<'_> {
    fn fmt<W: fmt::Write>(&self, f: &mut fmt::Formatter<W>) -> fmt::Result {
        for byte in self.bytes {
            f.write_char(char::from(*byte))?;
        }
        Ok(())
    }
}
