//! The region map: one table for each window.
ghost use Rattle.std.specs.Prelude.{◌≡◌, ◌+◌, ◌<◌, ◌≤◌, None, Some, IfOk, IfSome, IsSome, OnOk, OnErr};
ghost use Rattle.std.specs.Option.{option_map};
ghost use Rattle.std.specs.Result.{result_err};
ghost use Rattle.std.specs.FinMap.{get, len};
ghost use Rattle.own_model.specs.HeapWindow.{largest_machine, heap_gap, pages_of_all};
ghost use Rattle.own_model.specs.Region.{user_low, user_high, first_gap, resolved, IsFirstGap, attach_refusal, attach_at_refusal, detach_refusal};
ghost use Rattle.region_map.specs.Regions.{fresh_regions, attached, detached, all_detached, of_no_heap, heap_attached, heap_detached, heap_found, either_resolved, AreSound};

use super::table::RegionTable;
use std::alloc::Global;
use std::marker::Model;
use trade_base::{DsId, NoMemory, PAGE, Refusal};

/// The first address of the user window.
const USER_LOW: u64 = 0x1000_0000;

/// The first address after the user window.
const USER_HIGH: u64 = 0x2000_0000;

/// The first address of the heap window. Every user region ends before it.
pub const HEAP_LOW: u64 = 0x1_0000_0000;

/// The number stored with a heap region that belongs to no heap. It differs from those of chunks (0 to 63), large blocks
/// (64) and sliced blocks (2^64 - 1).
const OF_NO_HEAP: u64 = 65;

/// The user regions and the heap regions of a component. Contracts see the regions of each window by their start
/// addresses, each with its dataspace's key. They also see the numbers stored with heap regions, the maximum numbers of
/// regions, and the machine's pages.
#[derive(Drop)]
pub struct RegionMap {
    user: RegionTable,
    heap: RegionTable,
    /// The number of the machine's pages, which only contracts read.
    pages: usize,
}

impl Model for RegionMap {
    ghost use Rattle.region_map.specs.Regions.{Regions, coded_regions};
    ghost use Rattle.region_map.specs.Window.{AreWindows};

    ghost Value = { Regions };

    ghost coded = { coded_regions };

    ghost view = { λ m.
        record {
          user = m.user.regions;
          most = m.user.most;
          heap = m.heap.regions;
          tags = m.heap.tags;
          heap_most = m.heap.most;
          pages = m.pages;
        } };

    ghost invariant = { λ m. AreWindows m.user m.heap m.pages };
}

impl RegionMap {
    /// Creates a map of at most `user_regions` user regions and `heap_regions` heap regions, for dataspaces of at most
    /// `pages` pages. Fails with `NoMemory` if the host has too little memory. No later call allocates memory.
    pub fn boot(
        alloc: Global,
        user_regions: usize,
        heap_regions: usize,
        pages: usize,
    ) -> Result<RegionMap, NoMemory>
        requires few_user { user_regions ≤ 4096 }
        requires few_heap { heap_regions ≤ 4096 }
        requires few_pages { pages ≤ 4096 }
        ensures { IfOk result (λ map. map ≡ fresh_regions user_regions heap_regions pages) }
    {
        let heap_high = HEAP_LOW + pages as u64 * (pages as u64 + 2) * PAGE;
        let user = RegionTable::boot(alloc, USER_LOW, USER_HIGH, user_regions)?;
        let heap = RegionTable::boot(alloc, HEAP_LOW, heap_high, heap_regions)?;
        Ok(RegionMap { user, heap, pages })
    }

    /// Attaches `pages` pages of a dataspace at the first gap of the user window, and returns the start address.
    ///
    /// Refuses with `TooManyRegions` if the map has its maximum number of user regions, then with `RegionConflict` if no
    /// gap has enough pages.
    #[tactic(auto, using(own_model::proofs::RegionLemmas::first_gap_least))]
    pub fn attach(&mut self, ds: DsId, pages: u64) -> Result<u64, Refusal>
        requires some { 1 ≤ pages }
        requires few { pages ≤ self.old.pages }
        ensures refusal { result_err result ≡ attach_refusal self.old.most self.old.user pages }
        ensures gap { IfOk result
            (λ address. first_gap user_low user_high self.old.user pages ≡ Some address) }
        ensures attached { IfOk result
            (λ address. self.new ≡ attached self.old ds.0 pages address) }
        ensures free { IfOk result (λ address. get self.old.user address ≡ None) }
        ensures err { OnErr result (self.new ≡ self.old) }

        // This clause defines the first gap.
        ensures least { IsFirstGap user_low user_high self.old.user pages
            (first_gap user_low user_high self.old.user pages) }
    {
        if self.user.is_full() {
            return Err(Refusal::TooManyRegions);
        }
        let start = self
            .user
            .attach(ds, pages, 0)
            .ok_or(Refusal::RegionConflict)?;
        Ok(start)
    }

    /// Attaches `pages` pages of a dataspace at an address in the user window, and returns the address.
    ///
    /// Refuses with `TooManyRegions` if the map has its maximum number of user regions. Then refuses with
    /// `RegionConflict` if the address is not a multiple of a page, or the pages leave the user window or overlap a
    /// region.
    pub fn attach_at(&mut self, ds: DsId, pages: u64, address: u64) -> Result<u64, Refusal>
        requires some { 1 ≤ pages }
        requires few { pages ≤ self.old.pages }
        ensures refusal { result_err result
            ≡ attach_at_refusal self.old.most self.old.user pages address }
        ensures attached { OnOk result (self.new ≡ attached self.old ds.0 pages address) }
        ensures address { IfOk result (λ told. told ≡ address) }
        ensures free { OnOk result (get self.old.user address ≡ None) }
        ensures err { OnErr result (self.new ≡ self.old) }
    {
        if self.user.is_full() {
            return Err(Refusal::TooManyRegions);
        }
        if !self.user.can_attach(pages, address) {
            return Err(Refusal::RegionConflict);
        }
        self.user.add(ds, pages, 0, address);
        Ok(address)
    }

    /// Detaches the user region that starts at an address. Refuses with `PageFault` if no user region starts there.
    pub fn detach(&mut self, address: u64) -> Result<(), Refusal>
        ensures refusal { result_err result ≡ detach_refusal self.old.user address }
        ensures ok { OnOk result (self.new ≡ detached self.old address) }
        ensures err { OnErr result (self.new ≡ self.old) }
    {
        if self.user.remove(address) {
            Ok(())
        } else {
            Err(Refusal::PageFault)
        }
    }

    /// Detaches all regions of a dataspace in the user window.
    pub fn detach_all(&mut self, ds: DsId)
        ensures { self.new ≡ all_detached self.old ds.0 }
    {
        self.user.remove_all(ds);
    }

    /// Attaches `pages` pages of a dataspace at the first gap of the heap window, stores a number with the region, and
    /// returns the start address. It never fails: regions that a machine can hold always leave a gap.
    pub fn attach_block(&mut self, ds: DsId, pages: u64, tag: u64) -> u64
        requires some { 1 ≤ pages }
        requires room { len self.old.heap < self.old.heap_most }
        requires fits { pages_of_all self.old.heap + pages ≤ self.old.pages }
        ensures gap { heap_gap self.old.pages self.old.heap pages ≡ Some result }
        ensures attached { self.new ≡ heap_attached self.old ds.0 pages tag result }
        ensures free { get self.old.heap result ≡ None }

        // The gap has the same address on the largest machine.
        ensures lowest { heap_gap largest_machine self.old.heap pages ≡ Some result }
    {
        self.heap.attach(ds, pages, tag).unwrap()
    }

    /// Attaches `pages` pages of a dataspace at the first gap of the heap window, and returns the start address. The
    /// region belongs to no heap. The number stored with the region is 65, which no heap uses.
    pub fn attach_heap(&mut self, ds: DsId, pages: u64) -> u64
        requires some { 1 ≤ pages }
        requires room { len self.old.heap < self.old.heap_most }
        requires fits { pages_of_all self.old.heap + pages ≤ self.old.pages }
        ensures gap { heap_gap self.old.pages self.old.heap pages ≡ Some result }
        ensures attached { self.new ≡ heap_attached self.old ds.0 pages of_no_heap result }
        ensures free { get self.old.heap result ≡ None }
        ensures lowest { heap_gap largest_machine self.old.heap pages ≡ Some result }
    {
        self.attach_block(ds, pages, OF_NO_HEAP)
    }

    /// Detaches the heap region that starts at an address.
    pub fn detach_heap(&mut self, address: u64)
        requires { IsSome (get self.old.heap address) }
        ensures { self.new ≡ heap_detached self.old address }
    {
        self.heap.remove(address);
    }

    /// States for callers that the regions of every map do not overlap. It does nothing at run time.
    pub fn lies_apart(&self)
        ensures sound { AreSound self.now }
    {
        let _heap = &self.heap;
    }

    /// Returns the start address, the dataspace and the stored number of the heap region that contains an address, or
    /// `None` if no heap region does.
    pub fn heap_region(&self, address: u64) -> Option<(u64, DsId, u64)>
        ensures found { option_map (λ region. (region.0, region.1.0, region.2)) result
            ≡ heap_found self.now address }
        ensures sound { AreSound self.now }
    {
        let row = self.heap.holding(address, 1)?;
        Some((row.start, row.ds, row.tag))
    }

    /// Returns the dataspace of the region of either window that contains the whole range, and the range's offset in it,
    /// in bytes. Returns `None` if no region contains the range.
    pub fn resolve(&self, address: u64, length: u64) -> Option<(DsId, u64)>
        requires { 1 ≤ length }
        ensures found { option_map (λ found. (found.0.0, found.1)) result
            ≡ either_resolved self.now address length }
        ensures sound { AreSound self.now }
    {
        match resolve_in(&self.user, address, length) {
            Some(found) => Some(found),
            None => resolve_in(&self.heap, address, length),
        }
    }
}

/// Returns the dataspace and the offset, as `resolve` does, for the regions of one table.
fn resolve_in(table: &RegionTable, address: u64, length: u64) -> Option<(DsId, u64)>
    requires { 1 ≤ length }
    ensures { option_map (λ found. (found.0.0, found.1)) result
        ≡ resolved table.now.regions address length }
{
    let row = table.holding(address, length)?;
    Some((row.ds, address - row.start))
}
