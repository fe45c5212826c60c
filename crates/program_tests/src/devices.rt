//! A reader and a writer in memory, which are slow, or fail.
use std::alloc::Global;
use std::io;
use std::io::{Error, ErrorKind, Read, Write};

/// A reader that returns its bytes in pieces. One of its reads can fail.
#[derive(Drop)]
pub struct TestReader<'a> {
    /// The bytes that aren't read yet.
    pub bytes: &'a [u8],
    /// The most bytes that a read returns.
    pub size: usize,
    /// The number of the read that fails, from 1 on, or 0 for none.
    pub failing: usize,
    /// The kind of the error.
    pub kind: ErrorKind,
    /// The number of reads so far.
    pub reads: usize,
}

impl<'a> TestReader<'a> {
    /// Returns a reader of these bytes that doesn't fail.
    pub fn new(bytes: &'a [u8], size: usize) -> TestReader<'a> {
        TestReader {
            bytes,
            size,
            failing: 0,
            kind: ErrorKind::Other,
            reads: 0,
        }
    }
}

impl Read for TestReader<'_> {
    fn read(&mut self, buffer: &mut [u8]) -> io::Result<usize> {
        self.reads = self.reads.saturating_add(1);
        if self.reads == self.failing {
            return Err(Error::from(self.kind));
        }
        let count = self.size.min(buffer.len()).min(self.bytes.len());
        buffer[..count].copy_from_slice(&self.bytes[..count]);
        self.bytes = &self.bytes[count..];
        Ok(count)
    }
}

/// A writer that accepts a few bytes at a time, up to a limit. Then it fails once, and after that it accepts all bytes.
#[derive(Drop)]
pub struct TestWriter {
    /// The bytes that were written.
    pub bytes: Vec<u8>,
    /// The most bytes that a write accepts.
    pub size: usize,
    /// The number of bytes that are accepted before the failure.
    pub room: usize,
    /// The kind of the error; without a kind the failing write accepts no bytes.
    pub kind: Option<ErrorKind>,
    /// The number of writes so far.
    pub writes: usize,
}

impl TestWriter {
    /// Returns a writer that doesn't fail, and accepts all bytes.
    pub fn new(alloc: Global) -> TestWriter {
        TestWriter {
            bytes: Vec::new(alloc),
            size: usize::MAX,
            room: usize::MAX,
            kind: None,
            writes: 0,
        }
    }
}

impl Write for TestWriter {
    fn write(&mut self, buffer: &[u8]) -> io::Result<usize> {
        self.writes = self.writes.saturating_add(1);
        if self.room == 0 {
            self.room = usize::MAX;
            return match self.kind {
                Some(kind) => Err(Error::from(kind)),
                None => Ok(0),
            };
        }
        let count = self.size.min(buffer.len()).min(self.room);
        self.bytes.extend_from_slice(&buffer[..count])?;
        self.room -= count;
        Ok(count)
    }

    fn flush(&mut self) -> io::Result<()> {
        Ok(())
    }
}
