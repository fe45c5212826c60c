//! The rows of a table, in the order of their start addresses. An insertion or removal moves only the small place of each
//! later row. The rest of a row stays in its slot.
ghost use Rattle.std.specs.Prelude.{◌≡◌, ℕ, ◌+◌, ◌^◌, ◌<◌, ◌≤◌, ◌==◌, [], drop, length, not, nat_le, slice_index_or, vec_capacity, IfOk};
ghost use Rattle.std.specs.Bool.{OnTrue, OnFalse};
ghost use Rattle.std.specs.List.{insert, remove, filter};
ghost use Rattle.std.specs.List.Sorted.{IsNonDecreasingBy};
ghost use Rattle.region_map.specs.declared.row.RegionRow.{RegionRow as AnyRow};
ghost use Rattle.region_map.specs.RegionRows.{count_to as counted_to, last_to as last_of};
ghost use Rattle.region_map.specs.KnownRows.{IsCloseAt, close_to, end_before as end_to};
ghost use Rattle.region_map.specs.Places.{IsSlot};

use super::region_span::RegionSpan;
use super::row::RegionRow;
use super::search::{behind, close_count, count_to};
use std::alloc::Global;
use std::marker::Model;
use trade_base::{DsId, NoMemory, PAGE};

/// The part of a row that an insertion or removal does not move.
#[derive(Clone, Copy)]
struct SlotData {
    ds: DsId,
    tag: u64,
}

/// The rows of a table with a fixed capacity. Contracts see them as a list.
#[derive(Drop)]
pub struct RegionRows {
    /// The address range of each region, in the order of the start addresses, with the row's slot.
    places: Vec<RegionSpan>,
    /// The parts of rows that do not move, by slot. A slot is created when a row is inserted and no slot is free, so boot
    /// touches none.
    kept: Vec<SlotData>,
    /// The slots to which no place refers.
    free: Vec<u16>,
}

impl Model for RegionRows {
    ghost use Rattle.std.specs.Prelude.{vec_capacity};
    ghost use Rattle.region_map.specs.contracts.row.RegionRow as row;
    ghost use Rattle.region_map.specs.Places.{RowList, coded_rows, rows_of, AreStored};

    ghost Value = { RowList };

    ghost coded = { coded_rows row.the_row.coded };

    ghost view = { λ r.
        record {
          items = rows_of r.kept.items r.places.items;
          capacity = vec_capacity r.places;
        } };

    ghost invariant = { λ r. AreStored r.places.items r.kept.items r.free.items
        (vec_capacity r.places) (vec_capacity r.kept) (vec_capacity r.free) };
}

impl RegionRows {
    /// Creates an empty list with capacity for `most` rows, or fails with `NoMemory` if the host has too little memory.
    /// No later call allocates memory.
    pub fn boot(alloc: Global, most: usize) -> Result<RegionRows, NoMemory>
        requires { most ≤ 4096 }
        ensures none { IfOk result (λ rows. rows.items ≡ []) }
        ensures room { IfOk result (λ rows. rows.capacity ≡ most) }
    {
        let places = Vec::with_capacity(alloc, most).map_err(|_| NoMemory)?;
        let kept = Vec::with_capacity(alloc, most).map_err(|_| NoMemory)?;
        let free = Vec::with_capacity(alloc, most).map_err(|_| NoMemory)?;
        Ok(RegionRows { places, kept, free })
    }

    /// Returns whether the number of rows equals the capacity.
    pub fn is_full(&self) -> bool
        ensures { result ≡ nat_le self.now.capacity (length self.now.items) }
    {
        self.places.len() >= self.places.capacity()
    }

    /// Returns the number of rows.
    pub fn len(&self) -> usize
        ensures { result ≡ length self.now.items }
    {
        self.places.len()
    }

    /// Returns the row at an index of the list.
    pub fn row(&self, at: usize) -> RegionRow
        requires { at < length self.now.items }
        ensures { result ≡ slice_index_or self.now.items at result }
    {
        let place = self.places[at];
        let kept = self.kept[place.slot as usize];
        RegionRow {
            start: place.start(),
            pages: place.pages as u64,
            ds: kept.ds,
            tag: kept.tag,
        }
    }

    /// Inserts a row at an index of the list.
    pub fn insert(&mut self, at: usize, row: RegionRow)
        requires there { at ≤ length self.old.items }
        requires room { length self.old.items < self.old.capacity }
        requires few { row.pages < 2 ^ 16 }
        requires small { row.start < 2 ^ 44 }
        ensures items { self.new.items ≡ insert self.old.items at row }
        ensures capacity { self.new.capacity ≡ self.old.capacity }
    {
        let slot = free_slot(&mut self.kept, &mut self.free);
        self.kept[slot as usize] = SlotData {
            ds: row.ds,
            tag: row.tag,
        };

        // The capacity suffices, so `insert` never fails.
        let _ = self.places.insert(at, RegionSpan::of(row, slot));
    }

    /// Removes the row at an index of the list.
    pub fn remove(&mut self, at: usize)
        requires { at < length self.old.items }
        ensures items { self.new.items ≡ remove self.old.items at }
        ensures capacity { self.new.capacity ≡ self.old.capacity }
    {
        let place = self.places.remove(at);
        self.free.push_reserved(place.slot);
    }

    /// Removes all rows of a dataspace, the last one first.
    pub fn remove_of(&mut self, ds: DsId)
        ensures items { self.new.items
            ≡ filter (λ (row : AnyRow). not (row.ds.0 == ds.0)) self.old.items }
        ensures capacity { self.new.capacity ≡ self.old.capacity }
    {
        let mut at = self.places.len();
        while at > 0 {
            at -= 1;
            if self.row(at).ds.0 == ds.0 {
                self.remove(at);
            }
        }
    }

    /// Returns the number of rows that start at an address or before it.
    pub fn count_to(&self, address: u64) -> usize
        requires { IsNonDecreasingBy (λ (row : AnyRow). row.start) self.now.items }
        ensures count { result ≡ counted_to address self.now.items }
        ensures within { result ≤ length self.now.items }
    {
        count_to(&self.places, address)
    }

    /// Returns the last row that starts at an address or before it, or `None` if there is none.
    pub fn last_to(&self, address: u64) -> Option<RegionRow>
        requires { IsNonDecreasingBy (λ (row : AnyRow). row.start) self.now.items }
        ensures { result ≡ last_of address self.now.items }
    {
        let count = self.count_to(address);
        if count == 0 {
            return None;
        }
        Some(self.row(count - 1))
    }

    /// Returns the address after the row before an index, or `low` for index 0.
    pub fn end_before(&self, low: u64, at: usize) -> u64
        requires { at ≤ length self.now.items }
        ensures value { result ≡ end_to low at self.now.items }
        ensures small { low ≤ 2 ^ 45 → result ≤ 2 ^ 45 }
    {
        if at == 0 {
            low
        } else {
            self.places[at - 1].end()
        }
    }

    /// Returns whether there is a row at an index that has fewer than `pages` pages before it, where `low` is before the
    /// first row.
    pub fn is_close(&self, low: u64, at: usize, pages: u64) -> bool
        requires few { pages ≤ 4096 }
        requires small { low ≤ 2 ^ 45 }
        ensures close { OnTrue result (IsCloseAt low pages at self.now.items) }
        ensures far { OnFalse result (¬ IsCloseAt low pages at self.now.items) }
    {
        if at >= self.places.len() {
            return false;
        }
        self.places[at].start() < self.end_before(low, at) + pages * PAGE
    }

    /// Returns the number of rows from an index on that have fewer than `pages` pages before them, up to the first row
    /// that has more.
    pub fn close_behind(&self, low: u64, from: usize, pages: u64) -> usize
        requires there { from ≤ length self.now.items }
        requires few { pages ≤ 4096 }
        requires small { low ≤ 2 ^ 45 }
        ensures count { result
            ≡ close_to (end_to low from self.now.items) pages (drop from self.now.items) }
        ensures short { from + result < 2 ^ 64 }
    {
        close_count(
            self.end_before(low, from),
            behind(&self.places, from),
            pages,
        )
    }
}

/// Returns a free slot, or creates one if none is free.
fn free_slot(kept: &mut Vec<SlotData>, free: &mut Vec<u16>) -> u16
    requires room { length free.old.items ≡ 0
        → length kept.old.items < vec_capacity kept.old }
    requires few { length kept.old.items ≤ 4096 }
    ensures slot { IsSlot kept.old.items free.old.items result kept.new.items free.new.items }
    ensures kept_room { vec_capacity kept.new ≡ vec_capacity kept.old }
    ensures free_room { vec_capacity free.new ≡ vec_capacity free.old }
{
    if let Some(slot) = free.pop() {
        return slot;
    }
    let slot = kept.len() as u16;
    kept.push_reserved(SlotData {
        ds: DsId(0),
        tag: 0,
    });
    slot
}
