//! Copying of bytes from one dataspace to another.
ghost use Rattle.std.specs.Prelude.{◌≡◌, ◌≢◌, ◌+◌, ◌%◌, ◌<◌, ◌≤◌, length, slice_range};
ghost use Rattle.dataspace_core.specs.Store.{Exists, PartBecomes, part, part_with_bytes, space_at, with_bytes_at};

use crate::memory::Memory;
use trade_base::{DsId, PAGE};

impl Memory {
    /// Copies `count` bytes of a dataspace from `from_offset` on to another dataspace from `to_offset` on. Nothing else
    /// changes.
    ///
    /// The bytes are copied in pieces, each within one page of both dataspaces.
    pub fn copy(&mut self, from: DsId, from_offset: u64, to: DsId, to_offset: u64, count: u64)
        requires apart { from.0 ≢ to.0 }
        requires source { Exists self.old from.0 }
        requires target { Exists self.old to.0 }
        requires there { from_offset + count ≤ length (space_at self.old from.0).bytes }
        requires room { to_offset + count ≤ length (space_at self.old to.0).bytes }
        ensures copied { let bytes = (space_at self.old from.0).bytes in
            self.new ≡ with_bytes_at self.old to.0 to_offset
            (slice_range bytes from_offset (from_offset + count)) }
        ensures part { let payer = (space_at self.old to.0).payer in
            let bytes = slice_range (space_at self.old from.0).bytes from_offset
            (from_offset + count) in
            PartBecomes payer
            (part_with_bytes (part payer self.old) to.0 to_offset bytes) self.old self.new }
    {
        // Both ends are at most a dataspace's size, so no offset before them exceeds 64 bits.
        let _source_end = self.size(from);
        let _target_end = self.size(to);
        let mut done = 0;
        while done < count {
            let (source, target) = (from_offset + done, to_offset + done);
            let size = piece(source, target, count - done);
            self.copy_piece(from, source, to, target, size);
            done += size;
        }
    }
}

/// Returns the number of bytes, at least one and at most `left`, that lie within one page at both offsets.
fn piece(source: u64, target: u64, left: u64) -> u64
    requires { 0 < left }
    ensures some { 0 < result }
    ensures within { result ≤ left }
    ensures source { source % 4096 + result ≤ 4096 }
    ensures target { target % 4096 + result ≤ 4096 }
{
    (PAGE - source % PAGE).min(PAGE - target % PAGE).min(left)
}
