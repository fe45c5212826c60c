//! Searches among places in the order of their start addresses.
ghost use Rattle.std.specs.Prelude.{◌≡◌, ℕ, ◌^◌, ◌≤◌, List, drop, length};
ghost use Rattle.std.specs.List.Sorted.{IsNonDecreasingBy};
ghost use Rattle.region_map.specs.declared.rows.SlotData.{SlotData as AnyKept};
ghost use Rattle.region_map.specs.Places.{start_in, rows_of};
ghost use Rattle.region_map.specs.RegionRows.{count_to as counted_to};
ghost use Rattle.region_map.specs.KnownRows.{close_to};

use super::region_span::RegionSpan;
use trade_base::PAGE;

/// Returns the number of regions that start at an address or before it.
pub fn count_to(places: &[RegionSpan], address: u64) -> usize
    requires { IsNonDecreasingBy start_in places.now }
    ensures count { (kept : List AnyKept)
        → result ≡ counted_to address (rows_of kept places.now) }
    ensures within { result ≤ length places.now }
{
    places.partition_point(|place| place.start() <= address)
}

/// Returns the places of a slice from an index on.
pub fn behind<'a>(places: &'a [RegionSpan], from: usize) -> &'a [RegionSpan]
    requires { from ≤ length places.now }
    ensures { result.now ≡ drop from places.now }
{
    &places[from..]
}

/// Returns how many of the first places have fewer than `pages` pages before them, where `low` is before the first place.
pub fn close_count(low: u64, places: &[RegionSpan], pages: u64) -> usize
    requires few { pages ≤ 4096 }
    requires small { low ≤ 2 ^ 45 }
    ensures { (kept : List AnyKept) → result ≡ close_to low pages (rows_of kept places.now) }
{
    let mut address = low;
    let mut count = 0;
    for place in places {
        if address + pages * PAGE <= place.start() {
            return count;
        }
        address = place.end();
        count += 1;
    }
    count
}
