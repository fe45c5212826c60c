//! The doubly linked list of a heap's blocks.
ghost use Rattle.std.specs.Prelude.{◌≡◌, ◌≢◌, ◌+◌, ◌<◌, ◌^◌, ◌==◌, true, cond, ℕ, List};
ghost use Rattle.dataspace_core.specs.Store.{part, PartBecomes};
ghost use Rattle.sliced_heap.specs.Chain.{link_to, is_listed};
ghost use Rattle.sliced_heap.specs.Sliced.{next_in, previous_in, HasHeader, LeadsToHeader, HeadersChange};
ghost use Rattle.sliced_heap.specs.Sliced.{ChangesLinked, LinkedBack, LinkedAhead, PutFirst, TakenOut};

use crate::header::{NEXT, PREVIOUS, START, linked, load, store};
use dataspace_core::Memory;
use trade_base::{AccountId, DsId};

/// Inserts a block, whose region starts at `start`, before the block that `first` denotes. Returns the link to the
/// inserted block.
pub fn put_first(memory: &mut Memory, account: AccountId, first: u64, ds: DsId, start: u64) -> u64
    requires small { ds.0 + 1 < 2 ^ 64 }
    requires header { HasHeader (part account.0 memory.old) ds.0 }
    requires next { LeadsToHeader first (part account.0 memory.old) }
    requires apart { first ≢ link_to ds.0 }
    ensures link { result ≡ link_to ds.0 }
    ensures becomes { PartBecomes account.0 (part account.0 memory.new) memory.old memory.new }
    ensures put { PutFirst first ds.0 start (part account.0 memory.old)
        (part account.0 memory.new) }
    ensures headers { (blocks : List ℕ) → is_listed blocks ds.0 ≡ true →
        ((b : ℕ) → first ≡ link_to b → is_listed blocks b ≡ true) →
        HeadersChange blocks (part account.0 memory.old) (part account.0 memory.new) }
{
    let link = ds.0 as u64 + 1;
    store(memory, account, ds, START, start);
    store(memory, account, ds, NEXT, first);
    store(memory, account, ds, PREVIOUS, 0);
    link_back(memory, account, first, link);
    link
}

/// Removes a block from the list: links its neighbours to each other. Returns the link to the first remaining block.
pub fn take_out(memory: &mut Memory, account: AccountId, first: u64, ds: DsId) -> u64
    requires header { HasHeader (part account.0 memory.old) ds.0 }
    requires next { let p = part account.0 memory.old in LeadsToHeader (next_in p ds.0) p }
    requires previous { let p = part account.0 memory.old in LeadsToHeader (previous_in p ds.0) p }
    ensures link { let p = part account.0 memory.old in result
        ≡ cond (0 == previous_in p ds.0) (next_in p ds.0) first }
    ensures becomes { PartBecomes account.0 (part account.0 memory.new) memory.old memory.new }
    ensures out { TakenOut ds.0 (part account.0 memory.old) (part account.0 memory.new) }
    ensures headers { (blocks : List ℕ) →
        ((b : ℕ) → next_in (part account.0 memory.old) ds.0 ≡ link_to b
        → is_listed blocks b ≡ true) →
        ((b : ℕ) → previous_in (part account.0 memory.old) ds.0 ≡ link_to b
        → is_listed blocks b ≡ true) →
        HeadersChange blocks (part account.0 memory.old) (part account.0 memory.new) }
{
    let next = load(memory, account, ds, NEXT);
    let previous = load(memory, account, ds, PREVIOUS);
    link_back(memory, account, next, previous);
    link_ahead(memory, account, previous, next);
    if previous == 0 { next } else { first }
}

// Sets the back link of the block that `link` denotes, if any, to `back`.
fn link_back(memory: &mut Memory, account: AccountId, link: u64, back: u64)
    requires { LeadsToHeader link (part account.0 memory.old) }
    ensures changes { ChangesLinked account.0 link memory.old memory.new }
    ensures linked { LinkedBack link back (part account.0 memory.old) (part account.0 memory.new) }
{
    if let Some(ds) = linked(link) {
        store(memory, account, ds, PREVIOUS, back);
    }
}

// Sets the forward link of the block that `link` denotes, if any, to `ahead`.
fn link_ahead(memory: &mut Memory, account: AccountId, link: u64, ahead: u64)
    requires { LeadsToHeader link (part account.0 memory.old) }
    ensures changes { ChangesLinked account.0 link memory.old memory.new }
    ensures linked { LinkedAhead link ahead (part account.0 memory.old)
        (part account.0 memory.new) }
{
    if let Some(ds) = linked(link) {
        store(memory, account, ds, NEXT, ahead);
    }
}
