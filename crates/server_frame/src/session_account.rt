//! The account of a session: opened with a donation of its client, and closed again.
ghost use Rattle.std.specs.Prelude.{◌≡◌, ◌≢◌, ℕ, ◌<◌, None, IsSome, IfOk, OnErr};
ghost use Rattle.std.specs.Result.{result_err};
ghost use Rattle.std.specs.FinMap.{get};
ghost use Rattle.own_model.specs.Account.{shortage};
ghost use Rattle.own_model.specs.Session.{donation_refusal, too_small};
ghost use Rattle.dataspace_core.specs.Store.{account_in, IsOpenIn, IsChildIn, IsLeafIn, room_in, parents_in, parent_in, ClosesPart};
ghost use Rattle.sliced_heap.specs.Heap.{MapsMemory, payer_of, share_at};
ghost use Rattle.server_frame.specs.Session.{IsSessionHeap, HasBlocksAlone, holding, holding_of};
ghost use Rattle.server_frame.specs.Frame.{OpensChargedAccount};

use dataspace_core::Memory;
use region_map::RegionMap;
use sliced_heap::SlicedHeap;
use trade_base::{AccountId, Caps, PAGE, Ram, Refusal};

/// The bytes of the object that denotes a session: a block of its sliced heap.
const OBJECT: u64 = 256;

/// The minimum RAM of a donation in bytes: the object's page.
const LEAST_RAM: Ram = Ram(PAGE);

/// The minimum of capabilities of a donation: one for the session and one for its object.
const LEAST_CAPS: Caps = Caps(2);

/// Tests whether a client's account can make a donation. Refuses with `OutOfRam`, then `OutOfCaps`, if the account does not
/// cover it. Then refuses with `InsufficientRamQuota` or `InsufficientCapQuota` if the donation is too small for a session.
pub(crate) fn test_donation(
    memory: &Memory,
    client: AccountId,
    ram: Ram,
    caps: Caps,
) -> Result<(), Refusal>
    requires { IsOpenIn memory.now client.0 }
    ensures { result_err result ≡ donation_refusal (account_in memory.now client.0) ram.0 caps.0 }
{
    let (ram_limit, caps_limit) = memory.limits(client);
    let (ram_used, caps_used) = memory.used(client);
    if ram.0 > ram_limit.0 - ram_used.0 {
        return Err(Refusal::OutOfRam);
    }
    if caps.0 > caps_limit.0 - caps_used.0 {
        return Err(Refusal::OutOfCaps);
    }
    if ram < LEAST_RAM {
        return Err(Refusal::InsufficientRamQuota);
    }
    if caps < LEAST_CAPS {
        return Err(Refusal::InsufficientCapQuota);
    }
    Ok(())
}

/// Opens an account for a session below its client's account, with a donation that suffices. Charges it for the session and
/// its object, a block of the returned sliced heap.
///
/// Refuses with `OutOfRam`, then `OutOfCaps`, if the client's account does not cover the donation.
pub(crate) fn open_session_account(
    memory: &mut Memory,
    map: &mut RegionMap,
    client: AccountId,
    ram: Ram,
    caps: Caps,
) -> Result<(AccountId, SlicedHeap), Refusal>
    requires client { IsOpenIn memory.old client.0 }
    requires maps { MapsMemory memory.old map.old }
    requires room { 0 < room_in memory.old }
    requires enough { too_small ram.0 caps.0 ≡ None }
    ensures refusal { result_err result ≡ shortage (account_in memory.old client.0) ram.0 caps.0 }
    ensures furnished { IfOk result (λ session.
        OpensChargedAccount client.0 ram.0 caps.0 session.0.0 session.1
        memory.old memory.new map.old map.new) }
    ensures memory_err { OnErr result (memory.new ≡ memory.old) }
    ensures map_err { OnErr result (map.new ≡ map.old) }
{
    let account = memory.open(client, ram, caps)?;
    let mut heap = SlicedHeap::new(account);
    // The donation covers both.
    let _ = memory.charge_cap(account);
    let _ = heap.alloc(memory, map, OBJECT);
    Ok((account, heap))
}

/// Frees all blocks of a session's sliced heap, which must be all that its account has, and closes the account.
pub(crate) fn close_session_account(
    memory: &mut Memory,
    map: &mut RegionMap,
    account: AccountId,
    mut heap: SlicedHeap,
)
    requires payer { payer_of heap ≡ account.0 }
    requires heap { IsSessionHeap heap memory.old map.old }
    requires alone { HasBlocksAlone (holding_of heap memory.old map.old) }
    requires child { IsSome (get (parents_in memory.old) account.0) }
    requires leaf { IsLeafIn memory.old account.0 }
    ensures closes { ClosesPart account.0 (parent_in memory.old account.0) memory.old memory.new }
    ensures maps { MapsMemory memory.new map.new }
    ensures holdings { (other : ℕ) → other ≢ account.0 →
        holding (share_at other memory.new map.new) ≡ holding (share_at other memory.old map.old) }
    ensures rest { map.new ≡ record map.old { heap = map.new.heap; tags = map.new.tags } }
{
    heap.end(memory, map);
    memory.credit_cap(account);
    memory.close(account);
}
