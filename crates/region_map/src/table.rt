//! The table of one window: its regions in the order of their start addresses, which a binary search finds.
ghost use Rattle.std.specs.Prelude.{◌≡◌, ◌+◌, ◌*◌, ◌%◌, ◌^◌, ◌≤◌, ◌==◌, ◌&&◌, true, false, None, Some, IfOk, IfSome, is_some, nat_le};
ghost use Rattle.std.specs.Bool.{OnTrue, OnFalse};
ghost use Rattle.std.specs.Option.{option_map};
ghost use Rattle.std.specs.FinMap.{get, len};
ghost use Rattle.own_model.specs.Region.{meets, can_attach, first_gap as gap_in, region_at, without};
ghost use Rattle.region_map.specs.Window.{fresh_window, window_with, window_without};

use super::known_rows::KnownRows;
use super::row::RegionRow;
use super::rows::RegionRows;
use std::alloc::Global;
use std::marker::Model;
use trade_base::{DsId, NoMemory, PAGE};

/// The regions in a window of addresses. Contracts see them by their start addresses.
#[derive(Drop)]
pub struct RegionTable {
    /// One row for each region, in the order of the start addresses. The capacity is the maximum number of regions.
    rows: RegionRows,
    /// The gaps that are known to be too small for one page.
    single: KnownRows,
    /// The gaps that are known to be too small for the last request of several pages.
    several: KnownRows,
    /// The first address of the window.
    low: u64,
    /// The first address after the window.
    high: u64,
}

impl Model for RegionTable {
    ghost use Rattle.region_map.specs.RegionRows.{map_of, region_of, tag_of};
    ghost use Rattle.region_map.specs.KnownRows.{IsKept};
    ghost use Rattle.region_map.specs.Window.{Window, coded_window};

    ghost Value = { Window };

    ghost coded = { coded_window };

    ghost view = { λ t.
        record {
          low = t.low;
          high = t.high;
          regions = map_of region_of t.rows.items;
          tags = map_of tag_of t.rows.items;
          most = t.rows.capacity;
        } };

    ghost invariant = { λ t. IsKept t.low t.high t.rows.items t.rows.capacity t.single t.several };
}

impl RegionTable {
    ghost use Rattle.region_map.specs.RegionRows.{region_of};
    ghost use Rattle.region_map.specs.Window.{IsWindow};

    /// Creates an empty table for at most `most` regions within a window, or fails with `NoMemory` if the host has too
    /// little memory. No later call allocates memory.
    pub fn boot(alloc: Global, low: u64, high: u64, most: usize) -> Result<RegionTable, NoMemory>
        requires few { most ≤ 4096 }
        requires aligned { low % 4096 ≡ 0 }
        requires within { low ≤ high }
        requires small { high ≤ 2 ^ 40 }
        ensures fresh { IfOk result (λ table. table ≡ fresh_window low high most) }
        ensures sound { IfOk result IsWindow }
    {
        let rows = RegionRows::boot(alloc, most)?;
        Ok(RegionTable {
            rows,
            single: KnownRows::none(1),
            several: KnownRows::none(2),
            low,
            high,
        })
    }

    /// Returns whether the table has its maximum number of regions.
    pub fn is_full(&self) -> bool
        ensures { result ≡ nat_le self.now.most (len self.now.regions) }
    {
        self.rows.is_full()
    }

    /// Adds a region at the first gap, and returns its start address. Returns `None` if no gap has enough pages.
    pub fn attach(&mut self, ds: DsId, pages: u64, tag: u64) -> Option<u64>
        requires some { 1 ≤ pages }
        requires few { pages ≤ 4096 }
        requires room { nat_le self.old.most (len self.old.regions) ≡ false }
        ensures gap { result ≡ gap_in self.old.low self.old.high self.old.regions pages }
        ensures added { IfSome result
            (λ address. self.new ≡ window_with self.old ds.0 pages tag address) }
        ensures free { IfSome result (λ address. get self.old.regions address ≡ None) }
        ensures none { result ≡ None → self.new ≡ self.old }
        ensures low { self.new.low ≡ self.old.low }
        ensures high { self.new.high ≡ self.old.high }
        ensures sound { IsWindow self.new }
    {
        let known = KnownRows::of(self.single, self.several, pages).raised(&self.rows, self.low);
        self.single = KnownRows::single_of(self.single, known);
        self.several = KnownRows::several_of(self.several, known);
        let start = known.gap(&self.rows, self.low, self.high)?;
        let row = RegionRow {
            start,
            pages,
            ds,
            tag,
        };
        self.rows.insert(known.count, row);
        self.single = self.single.with_row(known.count, &self.rows, self.low);
        self.several = self.several.with_row(known.count, &self.rows, self.low);
        Some(start)
    }

    /// Returns whether a region of `pages` pages can be at an address: aligned, within the window and without an overlap.
    pub fn can_attach(&self, pages: u64, address: u64) -> bool
        requires some { 1 ≤ pages }
        requires few { pages ≤ 4096 }
        ensures { result ≡ can_attach self.now.low self.now.high self.now.regions pages address }
    {
        self.is_within(pages, address) && !self.meets(pages, address)
    }

    /// Returns whether an address is a multiple of a page, and `pages` pages from there lie within the window.
    fn is_within(&self, pages: u64, address: u64) -> bool
        requires { pages ≤ 4096 }
        ensures within { result
            ≡ (address % 4096 == 0 &&
            (nat_le self.now.low address && nat_le (address + pages * 4096) self.now.high)) }
        ensures small { self.now.high ≤ 2 ^ 40 }
    {
        address % PAGE == 0
            && self.low <= address
            && address <= self.high
            && pages * PAGE <= self.high - address
    }

    /// Returns whether the pages at an address overlap a region. It tests only the last region that starts before their
    /// end.
    fn meets(&self, pages: u64, address: u64) -> bool
        requires some { 1 ≤ pages }
        requires few { pages ≤ 4096 }
        requires small { address ≤ 2 ^ 40 }
        ensures { result ≡ meets self.now.regions address pages }
    {
        match self.rows.last_to(address + pages * PAGE - 1) {
            Some(row) => address < row.end(),
            None => false,
        }
    }

    /// Adds a region that starts at an address at which its pages can be.
    pub fn add(&mut self, ds: DsId, pages: u64, tag: u64, address: u64)
        requires sound { IsWindow self.old }
        requires some { 1 ≤ pages }
        requires few { pages ≤ 4096 }
        requires room { nat_le self.old.most (len self.old.regions) ≡ false }
        requires place { can_attach self.old.low self.old.high self.old.regions pages address
            ≡ true }
        ensures added { self.new ≡ window_with self.old ds.0 pages tag address }
        ensures free { get self.old.regions address ≡ None }
        ensures sound { IsWindow self.new }
    {
        self.put(RegionRow {
            start: address,
            pages,
            ds,
            tag,
        });
    }

    /// Inserts a row at its place in the order.
    fn put(&mut self, row: RegionRow)
        requires few { row.pages ≤ 4096 }
        requires room { nat_le self.old.most (len self.old.regions) ≡ false }
        requires place { can_attach self.old.low self.old.high self.old.regions row.pages row.start
            ≡ true }
        ensures added { self.new ≡ window_with self.old row.ds.0 row.pages row.tag row.start }
        ensures free { get self.old.regions row.start ≡ None }
        ensures sound { IsWindow self.new }
    {
        let at = self.rows.count_to(row.start);
        self.rows.insert(at, row);
        self.single = self.single.with_row(at, &self.rows, self.low);
        self.several = self.several.with_row(at, &self.rows, self.low);
    }

    /// Removes the region that starts at an address, and returns whether there was one.
    pub fn remove(&mut self, address: u64) -> bool
        ensures found { result ≡ is_some (get self.old.regions address) }
        ensures removed { OnTrue result (self.new ≡ window_without self.old address) }
        ensures kept { OnFalse result (self.new ≡ self.old) }
        ensures sound { IsWindow self.new }
    {
        let count = self.rows.count_to(address);
        if count == 0 {
            return false;
        }
        let row = self.rows.row(count - 1);
        if row.start != address {
            return false;
        }
        self.rows.remove(count - 1);
        self.single = self.single.without_row(count - 1, &self.rows, self.low);
        self.several = self.several.without_row(count - 1, &self.rows, self.low);
        true
    }

    /// Removes all regions of a dataspace from the table.
    pub fn remove_all(&mut self, ds: DsId)
        ensures regions { self.new.regions ≡ without ds.0 self.old.regions }
        ensures most { self.new.most ≡ self.old.most }
        ensures low { self.new.low ≡ self.old.low }
        ensures high { self.new.high ≡ self.old.high }
        ensures sound { IsWindow self.new }
    {
        self.single = KnownRows::none(1);
        self.several = KnownRows::none(2);
        self.rows.remove_of(ds);
    }

    /// Returns the row of the region that contains the whole range, or `None` if no region does.
    pub fn holding(&self, address: u64, length: u64) -> Option<RegionRow>
        requires { 1 ≤ length }
        ensures found { option_map (λ row. (row.start, region_of row)) result
            ≡ region_at self.now.regions address length }
        ensures tagged { IfSome result (λ row. get self.now.tags row.start ≡ Some row.tag) }
    {
        let row = self.rows.last_to(address)?;
        if row.holds(address, length) {
            Some(row)
        } else {
            None
        }
    }
}
