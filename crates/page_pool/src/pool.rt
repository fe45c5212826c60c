//! The pool over one block of host memory. Each free page that was in use before begins with the number of the next free
//! page. Pages that were never in use are not touched.
ghost use Rattle.std.specs.Prelude.{◌≡◌, ◌≢◌, ◌+◌, ◌%◌, ◌≤◌, length, IsTrue, IfOk, IfSome, IfNone, Some, None, is_some, nat_lt, slice_get, slice_set, slice_range};
ghost use Rattle.trade_base.specs.Bytes.{with_bytes};
ghost use Rattle.trade_base.specs.Word.{word_bytes, word_of};
ghost use Rattle.page_pool.specs.Pages.{fresh_pages, free_count, is_taken, page_bytes, zero_page};

use crate::block::{HostBlock, Lease};
use crate::bytes::{self, PAGE_BYTES};
use std::alloc::Global;
use std::marker::Model;
use trade_base::NoMemory;

/// The number of a page, below 4096. It has 16 bits, which keeps tables of page numbers small.
#[derive(Clone, Copy, PartialEq, Eq)]
pub struct PageNo(pub u16);

/// Pages, each free or taken. Contracts see them as a list that has, for each page number, `None` for a free page and the
/// 4096 bytes of a taken one.
pub struct Pool {
    /// The pages that were in use at least once, in order; boot reserves the space for all pages. The first word of a
    /// free page is the number of the next free one.
    block: HostBlock,
    /// The right to return the block to `alloc`.
    lease: Lease<Global>,
    alloc: Global,
    /// The first page of the list of free pages, if `free` is not 0.
    head: usize,
    /// The number of pages in the list of free pages.
    free: usize,
    /// The number of pages that were never in use. They follow the other pages.
    fresh: usize,
    ghost leased: { (lease.alloc ≡ alloc) × (lease.ptr ≡ block.ptr) × (lease.size ≡ block.size) },
}

impl Model for Pool {
    ghost use Rattle.std.specs.Prelude.{List, Option, ℕ};
    ghost use Rattle.page_pool.specs.Layout.{linked, pool_of, IsPool};

    ghost Value = { List (Option (List ℕ)) };

    ghost view = { λ p.
        pool_of (linked p.block.bytes p.free p.head) p.block.bytes p.fresh };

    ghost invariant = { λ p.
        IsPool (linked p.block.bytes p.free p.head) p.block.bytes p.fresh p.block.size };
}

impl Drop for Pool {
    fn drop(self) {
        let Pool {
            block,
            lease,
            alloc,
            head: _,
            free: _,
            fresh: _,
        } = self;
        block.free(lease, &alloc);
    }
}

impl Pool {
    /// Creates a pool of `pages` pages, all free, or fails with `NoMemory` if the host has too little memory.
    pub fn boot(alloc: Global, pages: usize) -> Result<Pool, NoMemory>
        requires { pages ≤ 4096 }
        ensures fresh { IfOk result (λ pool. pool ≡ fresh_pages pages) }
        ensures count { IfOk result (λ pool. free_count pool ≡ pages) }
    {
        match HostBlock::new(&alloc, pages * PAGE_BYTES) {
            Some((block, lease)) => Ok(Pool {
                block,
                lease,
                alloc,
                head: 0,
                free: 0,
                fresh: pages,
            }),
            None => Err(NoMemory),
        }
    }

    /// Takes a free page and clears it, or returns `None` if no page is free.
    pub fn take(&mut self) -> Option<PageNo>
        ensures some { is_some result ≡ nat_lt 0 (free_count self.old) }
        ensures was_free { IfSome result (λ page. slice_get self.old page.0 ≡ Some None) }
        ensures cleared { IfSome result (λ page.
            self.new ≡ slice_set self.old page.0 (Some zero_page)) }
        ensures count { IfSome result (λ _. free_count self.new + 1 ≡ free_count self.old) }
        ensures none { IfNone result (self.new ≡ self.old) }
    {
        if self.free > 0 {
            let page = self.head;
            let start = page * PAGE_BYTES;
            self.head = bytes::load(self.block.bytes(), start) as usize;
            self.free -= 1;
            bytes::clear_page(self.block.bytes_mut(), start);
            return Some(PageNo(page as u16));
        }
        if self.fresh == 0 {
            return None;
        }
        let known = self.block.bytes().len();
        self.block.grow(known + PAGE_BYTES);
        self.fresh -= 1;
        Some(PageNo((known / PAGE_BYTES) as u16))
    }

    /// Frees a taken page. It allocates no memory; the next `take` of the page clears it.
    pub fn give(&mut self, page: PageNo)
        requires { IsTrue (is_taken self.old page.0) }
        ensures freed { self.new ≡ slice_set self.old page.0 None }
        ensures count { free_count self.new ≡ free_count self.old + 1 }
    {
        let start = page.0 as usize * PAGE_BYTES;
        bytes::store(self.block.bytes_mut(), start, self.head as u64);
        self.head = page.0 as usize;
        self.free += 1;
    }

    /// Returns `count` bytes of a taken page from `offset` on.
    pub fn part(&self, page: PageNo, offset: usize, count: usize) -> &[u8]
        requires taken { IsTrue (is_taken self.now page.0) }
        requires range { offset + count ≤ 4096 }
        ensures bytes { result.now ≡ slice_range (page_bytes self.now page.0) offset (offset + count) }
        ensures size { length (page_bytes self.now page.0) ≡ 4096 }
    {
        let start = page.0 as usize * PAGE_BYTES + offset;
        &self.block.bytes()[start..start + count]
    }

    /// Fills `buffer` with the bytes of a taken page from `offset` on.
    pub fn read(&self, page: PageNo, offset: usize, buffer: &mut [u8])
        requires taken { IsTrue (is_taken self.now page.0) }
        requires range { offset + length buffer.old ≤ 4096 }
        ensures bytes { let end = offset + length buffer.old in
            buffer.new ≡ slice_range (page_bytes self.now page.0) offset end }
        ensures size { length (page_bytes self.now page.0) ≡ 4096 }
    {
        buffer.copy_from_slice(self.part(page, offset, buffer.len()));
    }

    /// Writes `part` to a taken page at `offset`, in bytes. Nothing else changes.
    pub fn write(&mut self, page: PageNo, offset: usize, part: &[u8])
        requires taken { IsTrue (is_taken self.old page.0) }
        requires range { offset + length part.now ≤ 4096 }
        ensures written { let bytes = with_bytes (page_bytes self.old page.0) offset part.now in
            self.new ≡ slice_set self.old page.0 (Some bytes) }
        ensures size { length (page_bytes self.old page.0) ≡ 4096 }
        ensures count { free_count self.new ≡ free_count self.old }
    {
        let start = page.0 as usize * PAGE_BYTES + offset;
        bytes::write(self.block.bytes_mut(), start, part);
    }

    /// Copies `count` bytes of a taken page from `from_offset` on to another taken page from `to_offset` on. Nothing else
    /// changes.
    pub fn copy(
        &mut self,
        from: PageNo,
        from_offset: usize,
        to: PageNo,
        to_offset: usize,
        count: usize,
    )
        requires source { IsTrue (is_taken self.old from.0) }
        requires target { IsTrue (is_taken self.old to.0) }
        requires apart { from.0 ≢ to.0 }
        requires there { from_offset + count ≤ 4096 }
        requires room { to_offset + count ≤ 4096 }
        ensures copied { let end = from_offset + count in
            let part = slice_range (page_bytes self.old from.0) from_offset end in
            let bytes = with_bytes (page_bytes self.old to.0) to_offset part in
            self.new ≡ slice_set self.old to.0 (Some bytes) }
        ensures count { free_count self.new ≡ free_count self.old }
    {
        let source = from.0 as usize * PAGE_BYTES + from_offset;
        let target = to.0 as usize * PAGE_BYTES + to_offset;
        bytes::copy(self.block.bytes_mut(), source, target, count);
    }

    /// Loads the little-endian word of 8 bytes at `offset` of a taken page. `offset` is a multiple of 8.
    #[tactic(auto, unfolding(trade_base::specs::Word::word_of))]
    pub fn load(&self, page: PageNo, offset: usize) -> u64
        requires taken { IsTrue (is_taken self.now page.0) }
        requires aligned { offset % 8 ≡ 0 }
        requires range { offset + 8 ≤ 4096 }
        ensures word { let bytes = page_bytes self.now page.0 in
            result ≡ word_of (slice_range bytes offset (offset + 8)) }
        ensures size { length (page_bytes self.now page.0) ≡ 4096 }
    {
        let mut bytes = [0; 8];
        self.read(page, offset, &mut bytes);
        u64::from_le_bytes(bytes)
    }

    /// Stores `word` as 8 little-endian bytes at `offset` of a taken page. Nothing else changes.
    #[tactic(auto, unfolding(trade_base::specs::Word::word_bytes))]
    pub fn store(&mut self, page: PageNo, offset: usize, word: u64)
        requires taken { IsTrue (is_taken self.old page.0) }
        requires aligned { offset % 8 ≡ 0 }
        requires range { offset + 8 ≤ 4096 }
        ensures written { let bytes = with_bytes (page_bytes self.old page.0) offset
            (word_bytes word) in
            self.new ≡ slice_set self.old page.0 (Some bytes) }
        ensures size { length (page_bytes self.old page.0) ≡ 4096 }
        ensures count { free_count self.new ≡ free_count self.old }
    {
        self.write(page, offset, &word.to_le_bytes());
    }

    /// Returns the number of free pages of the pool.
    pub fn free_pages(&self) -> usize
        ensures { result ≡ free_count self.now }
    {
        self.free + self.fresh
    }
}
