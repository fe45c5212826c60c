//! The address range of a region, and the slot with the rest of its row.
ghost use Rattle.std.specs.Prelude.{◌≡◌, ◌+◌, ◌*◌, ◌^◌, ◌<◌, ◌≤◌};

use super::row::RegionRow;
use trade_base::PAGE;

/// The place of a region. Insertions and removals move places, so a place is small.
#[derive(Clone, Copy)]
pub struct RegionSpan {
    /// The page at which the region starts: its start address divided by the size of a page.
    pub page: u32,
    /// The number of pages of the region.
    pub pages: u16,
    /// The slot with the rest of the region's row.
    pub slot: u16,
    pub ghost some: { 1 ≤ pages },
    pub ghost fits: { page * 4096 + pages * 4096 ≤ 2 ^ 45 },
}

impl RegionSpan {
    ghost use Rattle.region_map.specs.Places.{start_in};

    /// Returns the place of a row whose rest is in a slot.
    pub fn of(row: RegionRow, slot: u16) -> RegionSpan
        requires small { row.start < 2 ^ 44 }
        requires few { row.pages < 2 ^ 16 }
        ensures start { start_in result ≡ row.start }
        ensures pages { result.pages ≡ row.pages }
        ensures slot { result.slot ≡ slot }
    {
        RegionSpan {
            page: (row.start / PAGE) as u32,
            pages: row.pages as u16,
            slot,
        }
    }

    /// Returns the address at which the region starts.
    pub fn start(&self) -> u64
        ensures { result ≡ start_in self.now }
    {
        self.page as u64 * PAGE
    }

    /// Returns the first address after the end of the region.
    pub fn end(&self) -> u64
        ensures { result ≡ start_in self.now + self.now.pages * 4096 }
    {
        self.start() + self.pages as u64 * PAGE
    }
}
