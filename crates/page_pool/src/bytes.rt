//! Bytes of host memory, read and written by ranges, by words and by pages.
ghost use Rattle.std.specs.Prelude.{◌≡◌, ◌+◌, ◌<◌, ◌≤◌, length, slice_range};
ghost use Rattle.trade_base.specs.Bytes.{with_bytes};
ghost use Rattle.trade_base.specs.Word.{word_bytes};
ghost use Rattle.page_pool.specs.Pages.{zero_page};
ghost use Rattle.page_pool.specs.Layout.{word_at};

use trade_base::PAGE;

/// The size of a page in bytes, as a length.
pub(crate) const PAGE_BYTES: usize = PAGE as usize;

/// Fills `buffer` with the bytes from `start` on.
pub(crate) fn read(bytes: &[u8], start: usize, buffer: &mut [u8])
    requires { start + length buffer.old ≤ length bytes.now }
    ensures { buffer.new ≡ slice_range bytes.now start (start + length buffer.old) }
{
    buffer.copy_from_slice(&bytes[start..start + buffer.len()]);
}

/// Writes `part` to `bytes` from `start` on.
pub(crate) fn write(bytes: &mut [u8], start: usize, part: &[u8])
    requires { start + length part.now ≤ length bytes.old }
    ensures { bytes.new ≡ with_bytes bytes.old start part.now }
{
    bytes[start..start + part.len()].copy_from_slice(part);
}

/// Copies the `count` bytes at `from` to `to`. The two ranges do not overlap.
pub(crate) fn copy(bytes: &mut [u8], from: usize, to: usize, count: usize)
    requires source { from + count ≤ length bytes.old }
    requires target { to + count ≤ length bytes.old }
    requires apart { to < from + count → to + count ≤ from }
    ensures { bytes.new ≡ with_bytes bytes.old to (slice_range bytes.old from (from + count)) }
{
    if from < to {
        let (front, back) = bytes.split_at_mut(to);
        back[..count].copy_from_slice(&front[from..from + count]);
    } else {
        let (front, back) = bytes.split_at_mut(from);
        front[to..to + count].copy_from_slice(&back[..count]);
    }
}

/// Loads the little-endian word of 8 bytes at `start`.
#[tactic(auto, unfolding(crate::specs::Layout::word_at, trade_base::specs::Word::word_of))]
pub(crate) fn load(bytes: &[u8], start: usize) -> u64
    requires { start + 8 ≤ length bytes.now }
    ensures { result ≡ word_at bytes.now start }
{
    let mut word = [0; 8];
    read(bytes, start, &mut word);
    u64::from_le_bytes(word)
}

/// Stores `word` as 8 little-endian bytes at `start`.
#[tactic(auto, unfolding(trade_base::specs::Word::word_bytes))]
pub(crate) fn store(bytes: &mut [u8], start: usize, word: u64)
    requires { start + 8 ≤ length bytes.old }
    ensures { bytes.new ≡ with_bytes bytes.old start (word_bytes word) }
{
    write(bytes, start, &word.to_le_bytes());
}

/// Clears the page that begins at `start`.
pub(crate) fn clear_page(bytes: &mut [u8], start: usize)
    requires { start + 4096 ≤ length bytes.old }
    ensures { bytes.new ≡ with_bytes bytes.old start zero_page }
{
    bytes[start..start + PAGE_BYTES].fill(0);
}
