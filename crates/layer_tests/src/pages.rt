//! Pages: calls succeed if there is memory, and what an owner of pages sees.
ghost use Rattle.std.specs.Prelude.{◌≡◌, ◌≢◌, ◌<◌, ◌≤◌, ℕ, IsTrue, slice_index};
ghost use Rattle.page_pool.specs.Pages.{is_taken};

use page_pool::{PageNo, Pool};
use std::alloc::Global;
use std::process::Abort;

/// Allocates a page, checks that it is zero, and fills it with ones.
#[tactic(auto, using(page_pool::proofs::PageLaws::page_laws))]
fn take_and_fill(rt: &impl Abort, pool: &mut Pool) -> PageNo
    ensures taken { IsTrue (is_taken pool.new result.0) }
    ensures others { (page : ℕ) → IsTrue (is_taken pool.old page)
        → IsTrue (is_taken pool.new page) }
    ensures apart { (page : ℕ) → IsTrue (is_taken pool.old page) → page ≢ result.0 }
{
    let page = pool.take().expect(rt, "a free page");
    fill(rt, pool, page);
    page
}

/// Checks that a page is zero, and fills it with ones.
#[tactic(auto, using(page_pool::proofs::PageLaws::page_laws))]
fn fill(rt: &impl Abort, pool: &mut Pool, page: PageNo)
    requires { IsTrue (is_taken pool.old page.0) }
    ensures { (page : ℕ) → is_taken pool.new page ≡ is_taken pool.old page }
{
    let mut bytes = [1; 4096];
    pool.read(page, 0, &mut bytes);
    assert!(rt; bytes.iter().all(|byte| *byte == 0));
    pool.write(page, 0, &[1; 4096]);
}

/// Sixteen pages of ones.
fn take_sixteen(rt: &impl Abort, pool: &mut Pool) -> [u16; 16]
    ensures taken { (k : ℕ) → k < 16 → IsTrue (is_taken pool.new (slice_index result k)) }
    ensures apart { (j k : ℕ) → j < k → k < 16 →
        slice_index result j ≢ slice_index result k }
{
    let mut pages = [0; 16];
    for k in 0..16 {
        pages[k] = take_and_fill(rt, pool).0;
    }
    pages
}

/// Frees every second page, and then the others.
#[tactic(auto, using(page_pool::proofs::PageLaws::page_laws))]
fn give_sixteen(pool: &mut Pool, pages: &[u16; 16])
    requires taken { (k : ℕ) → k < 16 → IsTrue (is_taken pool.old (slice_index pages.now k)) }
    requires apart { (j k : ℕ) → j < k → k < 16
        → slice_index pages.now j ≢ slice_index pages.now k }
{
    for k in 0..8 {
        pool.give(PageNo(pages[2 * k]));
    }
    for k in 0..8 {
        pool.give(PageNo(pages[2 * k + 1]));
    }
}

#[test]
#[tactic(auto, using(page_pool::proofs::PageLaws::page_laws))]
fn pages_come_back_zero(rt: HostRuntime) {
    let mut pool = Pool::boot(rt.alloc(), 16).expect(&rt, "memory for sixteen pages");
    let pages = take_sixteen(&rt, &mut pool);
    assert!(rt; pool.take().is_none());
    give_sixteen(&mut pool, &pages);
    assert!(rt; pool.free_pages() == 16);
    take_sixteen(&rt, &mut pool);
    assert!(rt; pool.take().is_none());
    assert!(rt; pool.free_pages() == 0);
}

/// A pool of so many pages has them all.
fn check_boot(rt: &impl Abort, alloc: Global, pages: usize)
    requires { pages ≤ 4096 }
{
    let mut pool = Pool::boot(alloc, pages).expect(rt, "memory for the pages");
    assert!(rt; pool.free_pages() == pages);
    assert!(rt; pool.take().is_some() == (pages > 0));
}

#[test]
fn boots_at_its_least_and_most(rt: HostRuntime) {
    check_boot(&rt, rt.alloc(), 0);
    check_boot(&rt, rt.alloc(), 4096);
}

#[test]
#[tactic(auto, using(page_pool::proofs::PageLaws::page_laws))]
fn words_begin_with_their_lowest_byte(rt: HostRuntime) {
    let mut pool = Pool::boot(rt.alloc(), 1).expect(&rt, "memory for a page");
    let page = pool.take().expect(&rt, "a free page");
    pool.store(page, 4088, 0x0807060504030201);
    let mut bytes = [9; 10];
    pool.read(page, 4086, &mut bytes);
    assert!(rt; bytes == [0, 0, 1, 2, 3, 4, 5, 6, 7, 8]);
    assert!(rt; pool.load(page, 4088) == 0x0807060504030201);
}
