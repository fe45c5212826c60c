//! The header of a block: the 32 bytes before its payload, which no access to a payload reaches.
ghost use Rattle.std.specs.Prelude.{◌≡◌, ◌+◌, ◌%◌, ◌≤◌, ◌<◌, ◌^◌, ◌==◌, true, cond, ℕ, IsSome, IfSome, IfNone};
ghost use Rattle.dataspace_core.specs.Store.{part, PartBecomes, part_with_bytes};
ghost use Rattle.trade_base.specs.Word.{word_bytes};
ghost use Rattle.sliced_heap.specs.Chain.{link_to};
ghost use Rattle.sliced_heap.specs.Sliced.{word_at, HasHeader, IsField, IsStored};

use dataspace_core::Memory;
use trade_base::{AccountId, DsId};

/// The offset in a header of the link to the next block.
pub const NEXT: u64 = 0;

/// The offset in a header of the link to the previous block.
pub const PREVIOUS: u64 = 8;

/// The offset in a header of the start address of the block's region.
pub const START: u64 = 16;

/// Returns the dataspace of the block that a link denotes, or `None` for the link 0. A link is the dataspace's key plus
/// one.
pub fn linked(link: u64) -> Option<DsId>
    ensures some { IfSome result (λ ds. link ≡ link_to ds.0) }
    ensures none { IfNone result (link ≡ 0) }
{
    let key = link.checked_sub(1)?;
    Some(DsId(key as usize))
}

/// Loads a word of the header of a dataspace that the account pays for.
pub fn load(memory: &Memory, account: AccountId, ds: DsId, field: u64) -> u64
    requires header { HasHeader (part account.0 memory.now) ds.0 }
    requires field { IsField field }
    ensures { result ≡ word_at (part account.0 memory.now) field ds.0 }
{
    // The contract is about the account's part of the memory; the dataspace alone locates the word.
    let _ = account;
    memory.load_word(ds, field)
}

/// Stores a word in the header of a dataspace that the account pays for.
pub fn store(memory: &mut Memory, account: AccountId, ds: DsId, field: u64, word: u64)
    requires header { HasHeader (part account.0 memory.old) ds.0 }
    requires field { IsField field }
    ensures becomes { PartBecomes account.0 (part account.0 memory.new) memory.old memory.new }
    ensures stored { IsStored ds.0 field word (part account.0 memory.old)
        (part account.0 memory.new) }
{
    // The account is unused, as in `load`.
    let _ = account;
    memory.store_word(ds, field, word)
}
