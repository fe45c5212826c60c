//! One row of a table.
ghost use Rattle.std.specs.Prelude.{◌≡◌, ◌+◌, ◌*◌, ◌%◌, ◌^◌, ◌<◌, ◌≤◌};

use trade_base::{DsId, PAGE};

/// A region: its start address, its number of pages, its dataspace, and a number stored with it.
#[derive(Clone, Copy)]
pub struct RegionRow {
    pub start: u64,
    pub pages: u64,
    pub ds: DsId,
    pub tag: u64,
    pub ghost aligned: { start % 4096 ≡ 0 },
    pub ghost some: { 1 ≤ pages },
    pub ghost fits: { start + pages * 4096 < 2 ^ 63 },
}

impl RegionRow {
    ghost use Rattle.own_model.specs.Region.{holds};
    ghost use Rattle.region_map.specs.RegionRows.{region_of};

    /// Returns the first address after the end of the region.
    pub fn end(&self) -> u64
        ensures { result ≡ self.now.start + self.now.pages * 4096 }
    {
        self.start + self.pages * PAGE
    }

    /// Returns whether the region contains the whole range.
    pub fn holds(&self, address: u64, length: u64) -> bool
        ensures { result ≡ holds address length (self.now.start, region_of self.now) }
    {
        self.start <= address && address <= self.end() && length <= self.end() - address
    }
}
