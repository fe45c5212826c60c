//! Runs of pages: one table has the page numbers of all dataspaces, those of each dataspace contiguous.
ghost use Rattle.std.specs.Prelude.{◌≡◌, ℕ, ◌+◌, ◌*◌, ◌/◌, ◌%◌, ◌^◌, ◌<◌, ◌≤◌, ◌++◌, [], length, slice_range, vec_len, vec_capacity, IfOk};
ghost use Rattle.page_pool.specs.Pages.{free_count};
ghost use Rattle.trade_base.specs.Word.{word_of, word_bytes};
ghost use Rattle.dataspace_core.specs.Layout.{AreApart, IsRun, IsNewRun, IsGiven, IsClosed, IsPieceIn, IsWordIn, IsWritten, run_bytes};

use page_pool::{PageNo, Pool};
use std::alloc::Global;
use trade_base::{NoMemory, PAGE};

/// The size of a page in bytes, as a length.
const PAGE_BYTES: usize = PAGE as usize;

/// The pages of a dataspace: the index of the first in the table, and their number.
#[derive(Clone, Copy)]
pub(crate) struct PageRun {
    pub(crate) start: usize,
    pub(crate) count: usize,
}

/// A place in a run: the offset of a byte from the run's start.
#[derive(Clone, Copy)]
pub(crate) struct RunPlace {
    pub(crate) run: PageRun,
    pub(crate) offset: usize,
}

/// Creates an empty table with space for `pages` page numbers, or fails with `NoMemory`.
pub(crate) fn no_pages(alloc: Global, pages: usize) -> Result<Vec<PageNo>, NoMemory>
    ensures none { IfOk result (λ table. table.items ≡ []) }
    ensures room { IfOk result (λ table. vec_capacity table ≡ pages) }
{
    Vec::with_capacity(alloc, pages).map_err(|_| NoMemory)
}

/// Takes `count` zero pages from the pool and appends them to the table as a run.
pub(crate) fn take_run(pool: &mut Pool, table: &mut Vec<PageNo>, count: usize) -> PageRun
    requires free { count ≤ free_count pool.old }
    requires room { vec_len table.old + count ≤ vec_capacity table.old }
    ensures run { IsNewRun pool.old table.old.items pool.new table.new.items result.start count }
    ensures count { result.count ≡ count }
    ensures capacity { vec_capacity table.new ≡ vec_capacity table.old }
{
    let start = table.len();
    for _index in 0..count {
        table.push_reserved(pool.take().unwrap());
    }
    PageRun { start, count }
}

/// Returns the pages of a run to the pool.
pub(crate) fn give_run(pool: &mut Pool, table: &Vec<PageNo>, run: PageRun)
    requires { IsRun pool.old table.now.items run.start run.count }
    ensures { IsGiven pool.old pool.new table.now.items run.start run.count }
{
    for index in 0..run.count {
        pool.give(table[run.start + index]);
    }
}

/// Removes a run from the table. Later entries move down.
pub(crate) fn close_gap(table: &mut Vec<PageNo>, gap: PageRun)
    requires { gap.start + gap.count ≤ vec_len table.old }
    ensures closed { IsClosed table.old.items table.new.items gap.start gap.count }
    ensures capacity { vec_capacity table.new ≡ vec_capacity table.old }
{
    if gap.count == 1 {
        // `remove` moves all later entries at once. `copy_within` is a loop.
        let _page = table.remove(gap.start);
        return;
    }
    table.copy_within(gap.start + gap.count.., gap.start);
    table.truncate(table.len() - gap.count);
}

/// Fills `buffer` with the bytes of a run from `offset` on.
pub(crate) fn read_run(
    pool: &Pool,
    table: &Vec<PageNo>,
    run: PageRun,
    offset: usize,
    buffer: &mut [u8],
)
    requires run { IsRun pool.now table.now.items run.start run.count }
    requires small { run.count * 4096 < 2 ^ 64 }
    requires range { offset + length buffer.old ≤ run.count * 4096 }
    ensures { let bytes = run_bytes pool.now table.now.items run.start run.count in
        buffer.new ≡ slice_range bytes offset (offset + length buffer.old) }
{
    let mut done = 0;
    while done < buffer.len() {
        let at = offset + done;
        let count = (PAGE_BYTES - at % PAGE_BYTES).min(buffer.len() - done);
        let page = table[run.start + at / PAGE_BYTES];
        pool.read(page, at % PAGE_BYTES, &mut buffer[done..done + count]);
        done += count;
    }
}

/// Writes `part` to a run from `offset` on.
pub(crate) fn write_run(
    pool: &mut Pool,
    table: &Vec<PageNo>,
    run: PageRun,
    offset: usize,
    part: &[u8],
)
    requires run { IsRun pool.old table.now.items run.start run.count }
    requires small { run.count * 4096 < 2 ^ 64 }
    requires range { offset + length part.now ≤ run.count * 4096 }
    ensures { IsWritten pool.old pool.new table.now.items run.start run.count offset part.now }
{
    let mut done = 0;
    while done < part.len() {
        let at = offset + done;
        let count = (PAGE_BYTES - at % PAGE_BYTES).min(part.len() - done);
        let page = table[run.start + at / PAGE_BYTES];
        pool.write(page, at % PAGE_BYTES, &part[done..done + count]);
        done += count;
    }
}

/// Copies `count` bytes that lie in one page of a run into one page of another run.
pub(crate) fn copy_piece(
    pool: &mut Pool,
    table: &Vec<PageNo>,
    from: RunPlace,
    to: RunPlace,
    count: usize,
)
    requires source { IsRun pool.old table.now.items from.run.start from.run.count }
    requires target { IsRun pool.old table.now.items to.run.start to.run.count }
    requires apart { AreApart table.now.items from.run.start from.run.count to.run.start to.run.count }
    requires there { IsPieceIn from.run.count from.offset count }
    requires room { IsPieceIn to.run.count to.offset count }
    ensures { let bytes = run_bytes pool.old table.now.items from.run.start from.run.count in
        let part = slice_range bytes from.offset (from.offset + count) in
        IsWritten pool.old pool.new table.now.items to.run.start to.run.count to.offset part }
{
    let source = table[from.run.start + from.offset / PAGE_BYTES];
    let target = table[to.run.start + to.offset / PAGE_BYTES];
    pool.copy(
        source,
        from.offset % PAGE_BYTES,
        target,
        to.offset % PAGE_BYTES,
        count,
    );
}

/// Returns the bytes of the page that contains `offset` of the run that starts at `start`.
pub(crate) fn run_page<'a>(
    pool: &'a Pool,
    table: &Vec<PageNo>,
    start: usize,
    offset: usize,
) -> &'a [u8]
    requires { (count : ℕ) × IsRun pool.now table.now.items start count × (offset < count * 4096) }
    ensures bytes { (count : ℕ) → IsRun pool.now table.now.items start count → offset < count * 4096 →
        let bytes = run_bytes pool.now table.now.items start count in
        let from = offset / 4096 * 4096 in
        result.now ≡ slice_range bytes from (from + 4096) }
    ensures size { length result.now ≡ 4096 }
{
    pool.part(table[start + offset / PAGE_BYTES], 0, PAGE_BYTES)
}

/// Loads the word at `offset` of the run that starts at `start`.
pub(crate) fn load_run(pool: &Pool, table: &Vec<PageNo>, start: usize, offset: usize) -> u64
    requires { (count : ℕ) × IsRun pool.now table.now.items start count × IsWordIn count offset }
    ensures { (count : ℕ) → IsRun pool.now table.now.items start count → IsWordIn count offset →
        let bytes = run_bytes pool.now table.now.items start count in
        result ≡ word_of (slice_range bytes offset (offset + 8)) }
{
    let page = table[start + offset / PAGE_BYTES];
    pool.load(page, offset % PAGE_BYTES)
}

/// Stores `word` at `offset` of the run that starts at `start`.
pub(crate) fn store_run(
    pool: &mut Pool,
    table: &Vec<PageNo>,
    start: usize,
    offset: usize,
    word: u64,
)
    requires { (count : ℕ) × IsRun pool.old table.now.items start count × IsWordIn count offset }
    ensures { (count : ℕ) → IsRun pool.old table.now.items start count → IsWordIn count offset →
        IsWritten pool.old pool.new table.now.items start count offset (word_bytes word) }
{
    let page = table[start + offset / PAGE_BYTES];
    pool.store(page, offset % PAGE_BYTES, word);
}

/// Stores three words that lie in one page, at `offset` of the run that starts at `start`.
pub(crate) fn store_run_words(
    pool: &mut Pool,
    table: &Vec<PageNo>,
    start: usize,
    offset: usize,
    words: (u64, u64, u64),
)
    requires { (count : ℕ) × IsRun pool.old table.now.items start count ×
        IsPieceIn count offset 24 × (offset % 8 ≡ 0) }
    ensures { (count : ℕ) → IsRun pool.old table.now.items start count → IsPieceIn count offset 24 →
        let bytes = word_bytes words.0 ++ word_bytes words.1 ++ word_bytes words.2 in
        IsWritten pool.old pool.new table.now.items start count offset bytes }
{
    let page = table[start + offset / PAGE_BYTES];
    let place = offset % PAGE_BYTES;
    pool.store(page, place, words.0);
    pool.store(page, place + 8, words.1);
    pool.store(page, place + 16, words.2);
}
