//! Page rounding.
ghost use Rattle.std.specs.Prelude.{◌≡◌, ◌^◌, ◌<◌, ◌↔◌, IsSome, IfSome};
ghost use Rattle.trade_base.specs.Page.{page_of, IsLeastPageSize, PageRoundingIsLeast};

/// The size of a page, in bytes.
pub const PAGE: u64 = 4096;

/// Returns `n` bytes rounded up to whole pages of 4096 bytes, or `None` if the result exceeds 64 bits.
pub fn page_round(n: u64) -> Option<u64>
    ensures some { IsSome result ↔ (page_of n < 2 ^ 64) }
    ensures value { IfSome result (λ size. size ≡ page_of n) }
    ensures least { IfSome result (IsLeastPageSize n) }
{
    n.checked_next_multiple_of(PAGE)
}

/// States that page rounding returns the least multiple of a page that is at least the given number of bytes. It does
/// nothing at run time.
pub fn page_rounding_is_least()
    ensures { PageRoundingIsLeast }
{}
