//! The rows that are known to have a small gap before them, which a search for a gap skips.
ghost use Rattle.std.specs.Prelude.{◌≡◌, ◌≢◌, ℕ, ◌+◌, ◌^◌, ◌<◌, ◌≤◌, List, length, IfSome};

use super::rows::RegionRows;
use trade_base::PAGE;

/// What is known of the gaps before the rows of a table. A gap of fewer than `pages` pages is small. A large gap may be
/// before one row among the known rows, so that a gap that one region leaves and another fills needs no search.
#[derive(Clone, Copy)]
pub struct KnownRows {
    pub pages: u64,
    /// The gaps before the first `count` rows are small.
    pub count: usize,
    /// The gaps before the rows after index `count` and before index `until` are small.
    pub until: usize,
    pub ghost few: { pages ≤ 4096 },
    pub ghost order: { count ≤ until },
}

impl KnownRows {
    ghost use Rattle.std.specs.List.{remove};
    ghost use Rattle.region_map.specs.declared.row.RegionRow.{RegionRow as AnyRow};
    ghost use Rattle.region_map.specs.RegionRows.{gap_from};
    ghost use Rattle.region_map.specs.KnownRows.{AreKnown, IsInserted, IsRemoved, IsCloseAt, end_before};

    /// Returns what is known of gaps of fewer than `pages` pages, where `single` is about gaps of no page.
    pub fn of(single: KnownRows, several: KnownRows, pages: u64) -> KnownRows
        requires one { single.pages ≤ 1 }
        requires some { 1 ≤ pages }
        requires few { pages ≤ 4096 }
        ensures known { (low : ℕ) (rows : List AnyRow) → AreKnown low single rows
            → AreKnown low several rows → AreKnown low result rows }
        ensures pages { result.pages ≡ pages }
    {
        if pages < several.pages {
            single.of_size(pages)
        } else {
            several.of_size(pages)
        }
    }

    /// Returns `known` if it is about requests of one page, and otherwise `single`.
    pub fn single_of(single: KnownRows, known: KnownRows) -> KnownRows
        requires one { single.pages ≤ 1 }
        ensures known { (low : ℕ) (rows : List AnyRow) → AreKnown low single rows
            → AreKnown low known rows → AreKnown low result rows }
        ensures one { result.pages ≤ 1 }
        ensures taken { known.pages ≡ 1 → result ≡ known }
        ensures kept { known.pages ≢ 1 → result ≡ single }
    {
        if known.pages == 1 { known } else { single }
    }

    /// Returns `known` if it is about requests of several pages, and otherwise `several`.
    pub fn several_of(several: KnownRows, known: KnownRows) -> KnownRows
        ensures known { (low : ℕ) (rows : List AnyRow) → AreKnown low several rows
            → AreKnown low known rows → AreKnown low result rows }
        ensures taken { known.pages ≢ 1 → result ≡ known }
        ensures kept { known.pages ≡ 1 → result ≡ several }
    {
        if known.pages == 1 { several } else { known }
    }

    /// Returns that no row is known to have a gap of fewer than `pages` pages.
    pub fn none(pages: u64) -> KnownRows
        requires { pages ≤ 4096 }
        ensures known { (low : ℕ) (rows : List AnyRow) → AreKnown low result rows }
        ensures pages { result.pages ≡ pages }
    {
        KnownRows {
            pages,
            count: 0,
            until: 0,
        }
    }

    /// Returns what is known of gaps of fewer than `pages` pages, which are at least as many.
    pub fn of_size(self, pages: u64) -> KnownRows
        requires less { self.pages ≤ pages }
        requires few { pages ≤ 4096 }
        ensures known { (low : ℕ) (rows : List AnyRow) → AreKnown low self rows
            → AreKnown low result rows }
        ensures pages { result.pages ≡ pages }
    {
        KnownRows {
            pages,
            count: self.count,
            until: self.until,
        }
    }

    /// Returns what is known after a test of the gap before the row at index `count`.
    pub fn joined(self, rows: &RegionRows, low: u64) -> KnownRows
        requires small { low ≤ 2 ^ 45 }
        requires known { AreKnown low self rows.now.items }
        ensures known { AreKnown low result rows.now.items }
        ensures pages { result.pages ≡ self.pages }
    {
        if self.count >= self.until {
            return self;
        }
        if !rows.is_close(low, self.count, self.pages) {
            return self;
        }
        KnownRows {
            pages: self.pages,
            count: self.until,
            until: self.until,
        }
    }

    /// Returns what is known after a walk to the first row whose gap is not small.
    pub fn raised(self, rows: &RegionRows, low: u64) -> KnownRows
        requires small { low ≤ 2 ^ 45 }
        requires known { AreKnown low self rows.now.items }
        ensures known { AreKnown low result rows.now.items }
        ensures gap { result.count < length rows.now.items
            → ¬ IsCloseAt low result.pages result.count rows.now.items }
        ensures pages { result.pages ≡ self.pages }
    {
        let known = self.joined(rows, low);
        let count = known.count + rows.close_behind(low, known.count, known.pages);
        KnownRows {
            pages: known.pages,
            count,
            until: known.until.max(count),
        }
    }

    /// Returns the address of the gap before the row at index `count`, or of the one after the last row. Returns `None` if
    /// that one has fewer than `pages` pages before `high`.
    pub fn gap(self, rows: &RegionRows, low: u64, high: u64) -> Option<u64>
        requires small { low ≤ 2 ^ 45 }
        requires known { AreKnown low self rows.now.items }
        requires gap { self.count < length rows.now.items
            → ¬ IsCloseAt low self.pages self.count rows.now.items }
        ensures first { result ≡ gap_from low high rows.now.items self.pages }
        ensures place { IfSome result
            (λ address. address ≡ end_before low self.count rows.now.items) }
    {
        let address = rows.end_before(low, self.count);
        if self.count < rows.len() {
            return Some(address);
        }
        if address + self.pages * PAGE <= high {
            Some(address)
        } else {
            None
        }
    }

    /// Returns what is known after an insertion of a row that overlaps no other row.
    pub fn with_row(self, at: usize, rows: &RegionRows, low: u64) -> KnownRows
        requires short { self.until + 1 < 2 ^ 64 }
        requires small { low ≤ 2 ^ 45 }
        requires known { IsInserted low self at rows.now.items }
        ensures known { AreKnown low result rows.now.items }
        ensures pages { result.pages ≡ self.pages }
    {
        if self.count < at {
            if self.until <= at {
                return self;
            }
            return KnownRows {
                pages: self.pages,
                count: self.count,
                until: self.until + 1,
            };
        }
        let next = KnownRows {
            pages: self.pages,
            count: self.count + 1,
            until: self.until + 1,
        };
        if at < self.count {
            return next;
        }
        if rows.is_close(low, at, self.pages) {
            return next.joined(rows, low);
        }
        KnownRows {
            pages: self.pages,
            count: self.count,
            until: self.count,
        }
    }

    /// Returns what is known after the removal of the row at an index.
    pub fn without_row(self, at: usize, rows: &RegionRows, low: u64) -> KnownRows
        requires small { low ≤ 2 ^ 45 }
        requires known { IsRemoved low self at rows.now.items }
        ensures known { AreKnown low result rows.now.items }
        ensures pages { result.pages ≡ self.pages }
    {
        if at >= self.until {
            return self;
        }
        if rows.is_close(low, at, self.pages) {
            if at < self.count {
                return KnownRows {
                    pages: self.pages,
                    count: self.count - 1,
                    until: self.until - 1,
                };
            }
            return KnownRows {
                pages: self.pages,
                count: self.count,
                until: self.until - 1,
            };
        }
        if at < self.count {
            return KnownRows {
                pages: self.pages,
                count: at,
                until: self.count - 1,
            };
        }
        KnownRows {
            pages: self.pages,
            count: self.count,
            until: at,
        }
    }
}
