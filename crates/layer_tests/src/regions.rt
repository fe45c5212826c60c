//! Regions of a heap window: each keeps the number with which it was attached, after any others are detached.
ghost use Rattle.std.specs.Prelude.{◌≡◌, ℕ, ◌+◌, ◌<◌, ◌≤◌, IsSome};
ghost use Rattle.std.specs.FinMap.{get, len};
ghost use Rattle.own_model.specs.HeapWindow.{pages_of_all};

use region_map::RegionMap;
use std::alloc::Global;
use std::process::Abort;
use trade_base::DsId;

const FIRST: DsId = DsId(1);

const SECOND: DsId = DsId(2);

/// A block attached, after which it is known how many there are and of how many pages, so another may follow.
fn attach_block(map: &mut RegionMap, ds: DsId, pages: u64, tag: u64) -> u64
    requires some { 1 ≤ pages }
    requires room { len map.old.heap < map.old.heap_most }
    requires fits { pages_of_all map.old.heap + pages ≤ map.old.pages }
    ensures count { len map.new.heap ≡ len map.old.heap + 1 }
    ensures used { pages_of_all map.new.heap ≡ pages_of_all map.old.heap + pages }
    ensures most { map.new.heap_most ≡ map.old.heap_most }
    ensures pages { map.new.pages ≡ map.old.pages }
    ensures there { IsSome (get map.new.heap result) }
    ensures kept { (start : ℕ) → IsSome (get map.old.heap start) →
        IsSome (get map.new.heap start) }
{
    map.attach_block(ds, pages, tag)
}

/// A block detached, after which there are no more than before.
fn detach_block(map: &mut RegionMap, address: u64)
    requires { IsSome (get map.old.heap address) }
    ensures count { len map.new.heap ≤ len map.old.heap }
    ensures used { pages_of_all map.new.heap ≤ pages_of_all map.old.heap }
    ensures most { map.new.heap_most ≡ map.old.heap_most }
    ensures pages { map.new.pages ≡ map.old.pages }
{
    map.detach_heap(address);
}

/// A map on a machine of 64 pages, with no region yet.
fn booted(rt: &impl Abort, alloc: Global) -> RegionMap
    ensures pages { result.pages ≡ 64 }
    ensures count { len result.heap ≡ 0 }
    ensures used { pages_of_all result.heap ≡ 0 }
    ensures most { result.heap_most ≡ 64 }
{
    RegionMap::boot(alloc, 128, 64, 64).expect(rt, "memory for the regions")
}

/// The region at an address: its start, its dataspace and its number.
type RegionInfo = Option<(u64, DsId, u64)>;

/// Checks the region at each address.
fn check_found(rt: &impl Abort, map: &RegionMap, rows: &[(u64, RegionInfo)]) {
    for (address, found) in rows {
        assert!(rt; map.heap_region(*address) == *found, "at {address}");
    }
}

#[test]
fn heap_regions_keep_their_numbers(rt: HostRuntime) {
    let mut map = booted(&rt, rt.alloc());
    let one = attach_block(&mut map, FIRST, 1, 10);
    let two = attach_block(&mut map, SECOND, 2, 20);
    let three = attach_block(&mut map, FIRST, 1, 30);
    assert!(rt; one == 0x1_0000_0000 && three == 0x1_0000_3000);
    detach_block(&mut map, two);
    check_found(&rt, &map, &[(0x1_0000_1000, None)]);
    assert!(rt; attach_block(&mut map, SECOND, 1, 50) == 0x1_0000_1000);
    check_found(
        &rt,
        &map,
        &[
            (0x1_0000_0fff, Some((0x1_0000_0000, FIRST, 10))),
            (0x1_0000_1fff, Some((0x1_0000_1000, SECOND, 50))),
            (0x1_0000_3000, Some((0x1_0000_3000, FIRST, 30))),
        ],
    );
    // A region outside of heaps has a number of its own.
    assert!(rt; map.attach_heap(FIRST, 2) == 0x1_0000_4000);
    check_found(
        &rt,
        &map,
        &[(0x1_0000_5000, Some((0x1_0000_4000, FIRST, 65)))],
    );
}
