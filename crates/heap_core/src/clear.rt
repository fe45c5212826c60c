//! Clearing of a part of a dataspace.
ghost use Rattle.std.specs.Prelude.{◌≡◌, ◌+◌, ◌^◌, ◌<◌, ◌≤◌, length, replicate};
ghost use Rattle.own_model.specs.OwnState.{zeros};
ghost use Rattle.dataspace_core.specs.Store.{Exists, space_at, with_bytes_at};

use dataspace_core::Memory;
use trade_base::DsId;

/// The zeros that one write copies.
static BLANK: [u8; 1024] = [0; 1024];

/// Writes zeros to `count` bytes of a dataspace from `offset` on. Nothing else changes.
pub fn clear(memory: &mut Memory, ds: DsId, offset: u64, count: u64)
    requires exists { Exists memory.old ds.0 }
    requires range { offset + count ≤ length (space_at memory.old ds.0).bytes }
    requires short { offset + count < 2 ^ 64 }
    ensures { memory.new ≡ with_bytes_at memory.old ds.0 offset (zeros count) }
{
    let mut done = 0;
    while done < count {
        let piece = (count - done).min(BLANK.len() as u64);
        memory.write(ds, offset + done, &BLANK[..piece as usize]);
        done += piece;
    }
}
