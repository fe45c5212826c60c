//! Best fit: the number of words that a call loads.
ghost use Rattle.std.specs.Prelude.{◌≡◌, ℕ, ◌<◌, ◌≤◌, length};
ghost use Rattle.layer_tests.specs.Cells.{cell_at, cell_bytes, IsTrial};
ghost use Rattle.own_model.specs.Heap.{IsBlockSize};

use avl_alloc::{BestFit, BlockAddr, WordMemory};
use std::marker::{Brand, Model};
use std::process::Abort;
use std::sync::ledger::{Blank, Book, Ledger, Share};

/// The words of a chunk.
const CHUNK_WORDS: usize = 32_768;

/// The bytes of a chunk.
const CHUNK_BYTES: u64 = 262_144;

/// Adjacent chunks, and a count of the words loaded: at run time by `count`, in contracts by the ledger.
#[derive(Drop)]
struct Cells<L: Ledger> {
    words: Vec<u64>,
    count: u64,
    book: Book<L>,
    share: Share<L>,
    ghost some: { 0 < share.parts },
}

impl<L: Ledger> WordMemory for Cells<L> {
    ghost Rest = { ℕ };

    ghost rest = { λ cells. length cells.words.items };

    ghost bytes = { cell_bytes };

    ghost word = { λ cells. cell_at cells.words.items };

    ghost loads = { λ cells. cells.book.total };

    fn load(&mut self, chunk: usize, offset: u64) -> u64 {
        let Cells {
            words,
            count,
            book,
            share,
        } = self;
        book.add(share, 1);
        *count = count.wrapping_add(1);
        words[chunk * CHUNK_WORDS + (offset / 8) as usize]
    }

    fn store(&mut self, chunk: usize, offset: u64, value: u64) {
        self.words[chunk * CHUNK_WORDS + (offset / 8) as usize] = value;
    }
}

/// A heap in these chunks.
#[derive(Drop)]
struct HeapTrial<L: Ledger> {
    fit: BestFit,
    cells: Cells<L>,
    chunks: usize,
}

impl<L: Ledger> Model for HeapTrial<L> {
    ghost Value = { ℕ };

    ghost view = { λ trial. trial.chunks };

    ghost invariant = { λ trial. IsTrial trial.fit trial.cells.words.items trial.chunks };
}

impl<L: Ledger> HeapTrial<L> {
    /// Adds a chunk, if there are words for it.
    fn add_chunk(&mut self, bytes: u64)
        requires { IsBlockSize bytes × (bytes ≤ 262144) }
    {
        if self.chunks < 64 && (self.chunks + 1) * CHUNK_WORDS <= self.cells.words.len() {
            self.fit.add_chunk(&mut self.cells, self.chunks, bytes);
            self.chunks += 1;
        }
    }

    fn alloc(&mut self, bytes: u64) -> Option<BlockAddr>
        requires { bytes < 65536 }
    {
        self.fit.alloc(&mut self.cells, bytes)
    }

    fn free(&mut self, addr: BlockAddr) -> Option<u64> {
        self.fit.free(&mut self.cells, addr)
    }
}

/// A heap without a chunk, over so many words.
fn empty_heap<L: Ledger>(blank: Blank, words: Vec<u64>) -> HeapTrial<L>
    requires name { blank.name ≡ L.name }
    requires parts { blank.parts ≡ L.parts }
    requires some { 0 < L.parts }
{
    let (book, share) = blank.open();
    HeapTrial {
        fit: BestFit::new(),
        cells: Cells {
            words,
            count: 0,
            book,
            share,
        },
        chunks: 0,
    }
}

/// Returns the maximum number of words that each of 32 calls loads. Before the calls, every second one of 5400 adjacent blocks of
/// 48 bytes is freed, from the last down.
fn most_loads<L: Ledger>(rt: &impl Abort, blank: Blank, words: Vec<u64>) -> u64
    requires name { blank.name ≡ L.name }
    requires parts { blank.parts ≡ L.parts }
    requires some { 0 < L.parts }
{
    let mut trial = empty_heap::<L>(blank, words);
    trial.add_chunk(CHUNK_BYTES);
    for _ in 0..5400 {
        trial.alloc(1).expect(rt, "a hole for each");
    }
    for i in 0..2700u64 {
        let size = trial.free(BlockAddr {
            chunk: 0,
            offset: (2699 - i) * 96 + 48,
        });
        assert_eq!(rt; size, Some(48));
    }
    let mut most = 0;
    for _ in 0..32 {
        trial.cells.count = 0;
        trial.alloc(1).expect(rt, "a hole for each");
        most = trial.cells.count.max(most);
    }
    most
}

#[test]
fn a_call_after_many_holes_loads_few_words(rt: HostRuntime) {
    let words = vec![in rt.alloc(); 7; CHUNK_WORDS].expect(&rt, "memory for a chunk");
    let most = most_loads::<Brand>(&rt, Blank::new(1), words);
    assert!(rt; most <= 3584);
    assert_eq!(rt; most, 76);
}
