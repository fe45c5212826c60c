//! The growth of a heap.
ghost use Rattle.std.specs.Prelude.{◌≡◌, ◌<◌, ◌&&◌, ◌+◌, if◌then◌else◌, nat_le, nat_lt};
ghost use Rattle.own_model.specs.Growth.{Shape, larger_growth};
ghost use Rattle.core_calls.specs.Quotas.{quotas_account};
ghost use Rattle.budget_theorems.specs.Test.{growth_tests};
ghost use Rattle.budget_meter.specs.Needs.{amounts_of, shown_in, shown_of, together};

use crate::budget::Budget;
use crate::meter::Meter;
use crate::needed_amounts::least_chunk;
use pd_core::Quotas;
use trade_base::PAGE;

/// The growth number of an empty heap. The largest growth number is `MOST_PAGES`.
pub(crate) const FIRST_PAGES: u32 = 4;

const MOST_PAGES: u32 = 64;

/// Measures the tests of a heap with this growth number that must grow for `n` bytes: the larger chunk, and then the minimum
/// chunk if the account does not cover the larger one's bytes. Returns the growth number afterwards.
pub(crate) fn take_growth(
    meter: &mut Meter,
    pages: u32,
    n: u64,
    account: Quotas,
    after: Quotas,
) -> u32
    ensures shown { (shape : Shape) → pages ≡ shape.growth → n < 65536 →
        shown_in meter.new ≡ together (shown_in meter.old)
        (shown_of (amounts_of meter.old.start) (quotas_account account)
        (growth_tests n shape (quotas_account account))) }
    ensures start { meter.new.start ≡ meter.old.start }
    ensures pages { (shape : Shape) → pages ≡ shape.growth → n < 65536 →
        result ≡ (if nat_lt account.caps_used.0 after.caps_used.0
        && nat_le (account.ram_used.0 + (larger_growth n shape).bytes) account.ram_limit.0
        then (larger_growth n shape).next else shape.growth) }
{
    let Some(least) = least_chunk(n) else {
        return pages;
    };
    let larger = least.ram.max(u64::from(pages) * PAGE);
    let asked = Budget {
        ram: larger,
        caps: 1,
    };
    meter.take(account, asked, least.ram < larger);
    if !has_room(account, larger) {
        meter.take(account, least, false);
        return pages;
    }
    if account.caps_used < after.caps_used {
        return pages.saturating_mul(2).min(MOST_PAGES);
    }
    pages
}

// Whether an account covers `ram` bytes more.
fn has_room(account: Quotas, ram: u64) -> bool
    ensures { result ≡ nat_le (account.ram_used.0 + ram) account.ram_limit.0 }
{
    match account.ram_used.0.checked_add(ram) {
        Some(used) => used <= account.ram_limit.0,
        None => false,
    }
}
