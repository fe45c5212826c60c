//! The buffer of bytes that are gathered before they are written.
ghost use Rattle.std.specs.Prelude.{◌≡◌, ℕ, ◌+◌, ◌-◌, ◌<◌, ◌≤◌, List, [], ◌++◌, length, nat_lt, take, drop, false, OnOk, is_err};
ghost use Rattle.std.specs.Io.KnownBytes.{Appends};
ghost use Rattle.run_devices.specs.RunOutput.{OutputsUnless, line_with};

use crate::device::{DeviceFault, Sink};
use std::marker::Model;

/// The most bytes that are gathered.
const CAPACITY: usize = 8192;

/// A buffer of bytes that are still to be written.
#[derive(Drop)]
pub struct WriteBuffer {
    bytes: [u8; CAPACITY],
    start: usize,
    end: usize,
}

impl Model for WriteBuffer {
    ghost use Rattle.std.specs.Prelude.{ℕ, ◌<◌, ◌≤◌, List, slice_range};

    ghost Value = { List ℕ };

    ghost view = { λ gather. slice_range gather.bytes gather.start gather.end };

    ghost invariant = { λ gather. (gather.start ≤ gather.end) × (gather.end ≤ 8192) × (gather.start < 8192) };
}

impl WriteBuffer {
    /// Creates an empty buffer, with no bytes gathered yet.
    pub fn new() -> Self
        ensures { result ≡ [] }
    {
        WriteBuffer {
            bytes: [0; CAPACITY],
            start: 0,
            end: 0,
        }
    }

    /// States that the gathered bytes fit in the buffer. It does nothing at run time.
    #[inline(always)]
    pub fn fits(&self)
        ensures { length self.now ≤ CAPACITY }
    {
        let _ = &self.bytes;
    }

    /// Gathers `bytes`, and writes out what is gathered each time the buffer is full. Returns a `DeviceFault` if a write
    /// fails; a part is written then, from the front.
    #[inline]
    pub fn put<K: Sink>(&mut self, sink: &mut K, bytes: &[u8]) -> Result<(), DeviceFault>
        requires { K.has_failed sink.old ≡ false }
        ensures told { OutputsUnless result (K.contents sink.old) self.old
            (K.contents sink.new) self.new bytes.now }
        ensures failing { K.has_failed sink.new ≡ is_err result }
    {
        if bytes.len() > CAPACITY - self.end {
            return self.put_in_pieces(sink, bytes);
        }
        let end = self.end + bytes.len();
        self.bytes[self.end..end].copy_from_slice(bytes);
        self.end = end;
        Ok(())
    }

    /// Gathers a name and its reply as one line. Returns a `DeviceFault` if a write fails, as in `put`.
    #[inline]
    pub fn put_reply<K: Sink>(
        &mut self,
        sink: &mut K,
        name: &[u8],
        reply: &[u8],
    ) -> Result<(), DeviceFault>
        requires { K.has_failed sink.old ≡ false }
        ensures told { OutputsUnless result (K.contents sink.old) self.old
            (K.contents sink.new) self.new (line_with name.now reply.now) }
        ensures failing { K.has_failed sink.new ≡ is_err result }
    {
        // One test for the room of all parts, which a line mostly finds.
        let room = CAPACITY - self.end;
        if name.len() > room || reply.len() + 3 > room - name.len() {
            return self.put_parts(sink, name, reply);
        }
        let len = name.len() + (reply.len() + 3);
        let end = self.end + len;
        write_line(&mut self.bytes[self.end..end], name, reply);
        self.end = end;
        Ok(())
    }

    // Gathers a name and its reply, one part after another.
    #[inline(never)]
    fn put_parts<K: Sink>(
        &mut self,
        sink: &mut K,
        name: &[u8],
        reply: &[u8],
    ) -> Result<(), DeviceFault>
        requires { K.has_failed sink.old ≡ false }
        ensures told { OutputsUnless result (K.contents sink.old) self.old
            (K.contents sink.new) self.new (line_with name.now reply.now) }
        ensures failing { K.has_failed sink.new ≡ is_err result }
    {
        self.put(sink, name)?;
        self.put(sink, b": ")?;
        self.put(sink, reply)?;
        self.put(sink, b"\n")
    }

    /// Gathers finished log lines, unchanged, and then a name and its reply. Returns a `DeviceFault` if a write fails, as in
    /// `put`.
    #[inline(always)]
    pub fn put_answer<K: Sink>(
        &mut self,
        sink: &mut K,
        lines: &[u8],
        name: &[u8],
        reply: &[u8],
    ) -> Result<(), DeviceFault>
        requires { K.has_failed sink.old ≡ false }
        ensures told { OutputsUnless result (K.contents sink.old) self.old
            (K.contents sink.new) self.new (lines.now ++ line_with name.now reply.now) }
        ensures failing { K.has_failed sink.new ≡ is_err result }
    {
        if lines.is_empty() {
            return self.put_reply(sink, name, reply);
        }
        self.put(sink, lines)?;
        self.put_reply(sink, name, reply)
    }

    // Gathers bytes for which there is no room yet.
    #[inline(never)]
    fn put_in_pieces<K: Sink>(&mut self, sink: &mut K, bytes: &[u8]) -> Result<(), DeviceFault>
        requires { K.has_failed sink.old ≡ false }
        ensures told { OutputsUnless result (K.contents sink.old) self.old
            (K.contents sink.new) self.new bytes.now }
        ensures failing { K.has_failed sink.new ≡ is_err result }
    {
        let mut done = self.take_in(bytes);
        while done < bytes.len() {
            self.flush(sink)?;
            done += self.take_in(&bytes[done..]);
        }
        Ok(())
    }

    // Gathers as many of `bytes` as fit and returns their number.
    fn take_in(&mut self, bytes: &[u8]) -> usize
        ensures count { result ≤ length bytes.now }
        ensures grown { self.new ≡ self.old ++ take result bytes.now }
        ensures some { self.old ≡ [] → 0 < length bytes.now → 0 < result }
    {
        let count = bytes.len().min(CAPACITY - self.end);
        self.bytes[self.end..self.end + count].copy_from_slice(&bytes[..count]);
        self.end += count;
        count
    }

    /// Writes out all gathered bytes, and resumes a write that took only a part. Returns a `DeviceFault` if a write fails.
    pub fn flush<K: Sink>(&mut self, sink: &mut K) -> Result<(), DeviceFault>
        requires { K.has_failed sink.old ≡ false }
        ensures told { OutputsUnless result (K.contents sink.old) self.old
            (K.contents sink.new) self.new [] }
        ensures empty { OnOk result (self.new ≡ []) }
        ensures failing { K.has_failed sink.new ≡ is_err result }
    {
        let count = write_out(sink, &self.bytes[self.start..self.end]);
        self.start += count;
        if self.start < self.end {
            return Err(DeviceFault);
        }
        self.start = 0;
        self.end = 0;
        Ok(())
    }
}

/// Writes a name and its reply as a line over as many bytes, from the end backwards.
#[inline]
fn write_line(line: &mut [u8], name: &[u8], reply: &[u8])
    requires { length line.old ≡ length name.now + length reply.now + 3 }
    ensures { line.new ≡ line_with name.now reply.now }
{
    let end = line.len();
    let end = put_before(line, end, b"\n");
    let end = put_before(line, end, reply);
    let end = put_before(line, end, b": ");
    put_before(line, end, name);
}

/// Writes a piece over the bytes of a line before a place, and returns where the piece starts.
#[inline]
fn put_before(line: &mut [u8], end: usize, piece: &[u8]) -> usize
    requires fits { length piece.now ≤ end }
    requires within { end ≤ length line.old }
    ensures start { result + length piece.now ≡ end }
    ensures written { drop result line.new ≡ piece.now ++ drop end line.old }
{
    let start = end - piece.len();
    line[start..end].copy_from_slice(piece);
    start
}

/// Writes bytes until all are written or a write fails, and returns the number written.
#[tactic(auto, using(crate::proofs::GatheredLemmas::written_on))]
pub fn write_out<K: Sink>(sink: &mut K, bytes: &[u8]) -> usize
    requires { K.has_failed sink.old ≡ false }
    ensures count { result ≤ length bytes.now }
    ensures written { Appends (K.contents sink.old) (K.contents sink.new) (take result bytes.now) }
    ensures failing { K.has_failed sink.new ≡ nat_lt result (length bytes.now) }
{
    let mut done = 0;
    while done < bytes.len() {
        match sink.write(&bytes[done..]) {
            Ok(0) | Err(_) => return done,
            Ok(count) => done += count,
        }
    }
    done
}
