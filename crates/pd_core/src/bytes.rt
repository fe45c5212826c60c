//! The bytes of peeks and pokes, as bytes and in hexadecimal digits.
ghost use Rattle.std.specs.Prelude.{◌≡◌, ◌+◌, ◌/◌, ◌≤◌, length, codes, ◌++◌, slice_range, Some};
ghost use Rattle.dataspace_core.specs.Store.{Exists, space_at};
ghost use Rattle.own_model.specs.Reply.{hex_text};
ghost use Rattle.own_model.specs.Text.{bytes_of_hex, hex_bytes};
ghost use Rattle.pd_core.specs.Bytes.{PutsBytes};
ghost use Rattle.pd_core.specs.Answer.{told_alone};

use core_calls::Reply;
use dataspace_core::Memory;
use text_codec::decode_hex;
use trade_base::DsId;

/// The most bytes of a peek or a poke.
pub(crate) const MOST_BYTES: usize = 1024;

/// The most bytes of a peek or poke through a small buffer, because a large one takes long to clear.
const FEW_BYTES: usize = 128;

/// Sets the reply to `count` bytes of a dataspace from an offset on.
pub(crate) fn write_range(
    reply: &mut Reply,
    memory: &Memory,
    space: DsId,
    offset: u64,
    count: usize,
)
    requires exists { Exists memory.now space.0 }
    requires range { offset + count ≤ length (space_at memory.now space.0).bytes }
    requires few { count ≤ MOST_BYTES }
    ensures { reply.new ≡ told_alone (codes "data "
        ++ hex_text (slice_range (space_at memory.now space.0).bytes offset (offset + count))) }
{
    if count <= FEW_BYTES {
        tell_by::<FEW_BYTES>(reply, memory, space, offset, count);
    } else {
        tell_by::<MOST_BYTES>(reply, memory, space, offset, count);
    }
}

/// Sets the same reply through a buffer of `N` bytes. It is not inlined, because each call would clear its buffer.
#[inline(never)]
fn tell_by<const N: usize>(
    reply: &mut Reply,
    memory: &Memory,
    space: DsId,
    offset: u64,
    count: usize,
)
    requires exists { Exists memory.now space.0 }
    requires range { offset + count ≤ length (space_at memory.now space.0).bytes }
    requires few { count ≤ N }
    requires small { N ≤ MOST_BYTES }
    ensures { reply.new ≡ told_alone (codes "data "
        ++ hex_text (slice_range (space_at memory.now space.0).bytes offset (offset + count))) }
{
    let mut buffer = [0; N];
    let bytes = &mut buffer[..count];
    memory.read(space, offset, bytes);
    reply.write_bytes(bytes);
}

/// Writes the bytes that hexadecimal digits denote into a dataspace from an offset on.
pub(crate) fn put_hex(memory: &mut Memory, space: DsId, offset: u64, hex: &[u8])
    requires hex { bytes_of_hex hex.now ≡ Some (hex_bytes hex.now) }
    requires exists { Exists memory.old space.0 }
    requires range { offset + length hex.now / 2 ≤ length (space_at memory.old space.0).bytes }
    requires few { length hex.now / 2 ≤ MOST_BYTES }
    ensures { PutsBytes space.0 offset (hex_bytes hex.now) memory.old memory.new }
{
    if hex.len() / 2 <= FEW_BYTES {
        put_by::<FEW_BYTES>(memory, space, offset, hex);
    } else {
        put_by::<MOST_BYTES>(memory, space, offset, hex);
    }
}

/// Writes the same bytes through a buffer of `N` bytes, as `tell_by` does.
#[tactic(auto, using(text_codec::proofs::HexLemmas::decodings))]
#[inline(never)]
fn put_by<const N: usize>(memory: &mut Memory, space: DsId, offset: u64, hex: &[u8])
    requires hex { bytes_of_hex hex.now ≡ Some (hex_bytes hex.now) }
    requires exists { Exists memory.old space.0 }
    requires range { offset + length hex.now / 2 ≤ length (space_at memory.old space.0).bytes }
    requires few { length hex.now / 2 ≤ N }
    requires small { N ≤ MOST_BYTES }
    ensures { PutsBytes space.0 offset (hex_bytes hex.now) memory.old memory.new }
{
    let mut buffer = [0; N];
    let bytes = &mut buffer[..hex.len() / 2];
    decode_hex(hex, bytes);
    memory.write(space, offset, bytes);
}
