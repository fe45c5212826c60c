//! The buffer of bytes that were read ahead.
ghost use Rattle.std.specs.Prelude.{◌≡◌, ℕ, ◌+◌, ◌-◌, ◌<◌, ◌≤◌, List, [], false, length, drop, slice_range, is_err};
ghost use Rattle.run_devices.specs.Lines.{is_newline, line_length, GrowsUnless};

use line_grammar::LONGEST_LINE;
use run_devices::{DeviceFault, Source, WriteBuffer};
use std::marker::Model;
use text_codec::find_byte;

/// The most bytes that are read ahead. The longest line fills half of them, so that there is always room to read the rest of
/// it.
const CAPACITY: usize = 16384;

/// A buffer of bytes that were read from a source and not yet passed.
#[derive(Drop)]
pub struct ReadBuffer {
    bytes: [u8; CAPACITY],
    start: usize,
    end: usize,
}

impl Model for ReadBuffer {
    ghost use Rattle.std.specs.Prelude.{ℕ, ◌≤◌, List, slice_range};

    ghost Value = { List ℕ };

    ghost view = { λ block. slice_range block.bytes block.start block.end };

    ghost invariant = { λ block. (block.start ≤ block.end) × (block.end ≤ 16384) };
}

impl ReadBuffer {
    /// Creates an empty buffer, with nothing read ahead.
    pub fn new() -> Self
        ensures { result ≡ [] }
    {
        ReadBuffer {
            bytes: [0; CAPACITY],
            start: 0,
            end: 0,
        }
    }

    /// Returns the bytes that are ahead, in order.
    pub fn ahead(&self) -> &[u8]
        ensures { result.now ≡ self.now }
    {
        &self.bytes[self.start..self.end]
    }

    /// Returns the number of bytes that are ahead.
    pub fn len(&self) -> usize
        ensures value { result ≡ length self.now }
        ensures fits { length self.now ≤ CAPACITY }
    {
        self.end - self.start
    }

    /// Returns the number of bytes before the first newline, or of all bytes if there is none. The first `seen` bytes are
    /// known to have no newline.
    #[tactic(auto, using(run_devices::proofs::LineLemmas::line_lengths))]
    pub fn line_length(&self, seen: usize) -> usize
        requires { seen ≤ line_length self.now }
        ensures value { result ≡ line_length self.now }
        ensures fits { result ≤ length self.now }
    {
        seen + line_length_of(&self.ahead()[seen..])
    }

    /// Removes the first `count` bytes, or all if there are fewer.
    #[tactic(auto, using(run_devices::proofs::BlockLemmas::front_passed))]
    pub fn pass(&mut self, count: usize)
        ensures { self.new ≡ drop count self.old }
    {
        if count < self.end - self.start {
            self.start += count;
        } else {
            self.start = 0;
            self.end = 0;
        }
    }

    /// Reads once from the source, after the bytes ahead, and returns the number of bytes read. It is 0 only at the end. All
    /// gathered bytes must be written before. Returns a `DeviceFault` if the read fails.
    pub fn fill<S: Source>(
        &mut self,
        source: &mut S,
        gathered: &WriteBuffer,
    ) -> Result<usize, DeviceFault>
        requires room { length self.old ≤ LONGEST_LINE }
        requires written { gathered.now ≡ [] }
        requires reads { S.has_failed source.old ≡ false }
        ensures grows { GrowsUnless result
            self.old (S.remaining source.old) self.new (S.remaining source.new) }
        ensures fits { length self.new ≤ CAPACITY }
        ensures failing { S.has_failed source.new ≡ is_err result }
    {
        (self.start, self.end) = move_to_front(&mut self.bytes, self.start, self.end);
        let count = source.read(&mut self.bytes[self.end..])?;
        self.end += count;
        Ok(count)
    }
}

// Moves the bytes from `start` up to `end` to the front, if the two ranges do not overlap. Afterwards half of the buffer is
// free, and otherwise some of it. Returns the range in which they are now.
fn move_to_front(bytes: &mut [u8; CAPACITY], start: usize, end: usize) -> (usize, usize)
    requires order { start ≤ end }
    requires within { end ≤ 16384 }
    requires half { end ≤ start + LONGEST_LINE }
    ensures kept { slice_range bytes.new result.0 result.1 ≡ slice_range bytes.old start end }
    ensures order { result.0 ≤ result.1 }
    ensures room { result.1 < 16384 }
{
    let count = end - start;
    if start < count {
        return (start, end);
    }
    let (front, back) = bytes.split_at_mut(start);
    front[..count].copy_from_slice(&back[..count]);
    (0, count)
}

// The number of bytes before the first newline, or of all bytes if there is none.
#[tactic(auto, using(run_devices::proofs::LineLemmas::line_lengths))]
fn line_length_of(bytes: &[u8]) -> usize
    ensures value { result ≡ line_length bytes.now }
    ensures fits { result ≤ length bytes.now }
{
    match find_byte(b'\n', bytes) {
        Some(place) => place,
        None => bytes.len(),
    }
}
