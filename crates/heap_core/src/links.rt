//! The links of a free block, in the bytes of a chunk's dataspace. One look-up of a page serves all three words, unless
//! the height begins the next page.
ghost use Rattle.std.specs.Prelude.{◌≡◌, ◌+◌, ◌%◌, ◌^◌, ◌<◌, ◌≤◌, ◌++◌, length};
ghost use Rattle.trade_base.specs.Word.{word_bytes};
ghost use Rattle.avl_alloc.specs.FreeBlocks.{links_at};
ghost use Rattle.dataspace_core.specs.Store.{Exists, space_at, with_bytes_at};
ghost use Rattle.heap_core.specs.Words.{word_from};
ghost use Rattle.heap_core.specs.Links.{page_links};

use crate::loads::Loads;
use crate::walk::word_at;
use avl_alloc::{HIGH, LEFT, RIGHT};
use avl_tree::Links;
use dataspace_core::Memory;
use std::sync::ledger::Ledger;
use trade_base::{DsId, PAGE};

/// The bytes of the two links and the height.
const LINKS_BYTES: u64 = 24;

/// Loads the links and the height of the free block at an offset of a chunk's dataspace.
pub(crate) fn load_links<L: Ledger>(
    memory: &Memory,
    ds: DsId,
    offset: u64,
    loads: &mut Loads<L>,
) -> Links
    requires exists { Exists memory.now ds.0 }
    requires even { offset % 16 ≡ 0 }
    requires range { offset + 40 ≤ length (space_at memory.now ds.0).bytes }
    requires short { offset < 2 ^ 32 }
    ensures links { result ≡ links_at (word_from (space_at memory.now ds.0).bytes) offset }
    ensures loads { loads.new ≡ loads.old + 3 }
{
    loads.tick();
    loads.tick();
    loads.tick();
    let place = (offset + LEFT) % PAGE;
    if place + LINKS_BYTES > PAGE {
        return Links {
            left: memory.load_word(ds, offset + LEFT),
            right: memory.load_word(ds, offset + RIGHT),
            high: memory.load_word(ds, offset + HIGH),
        };
    }
    links_in_page(memory.page(ds, offset + LEFT), place)
}

/// Loads the links and the height at an offset of a page.
fn links_in_page(page: &[u8], offset: u64) -> Links
    requires { offset + 24 ≤ length page.now }
    ensures { result ≡ page_links page.now offset }
{
    Links {
        left: word_at(page, offset),
        right: word_at(page, offset + 8),
        high: word_at(page, offset + 16),
    }
}

/// Stores the links and the height of the free block at an offset of a chunk's dataspace. Nothing else changes.
pub(crate) fn store_links(
    memory: &mut Memory,
    ds: DsId,
    offset: u64,
    left: u64,
    right: u64,
    high: u64,
)
    requires exists { Exists memory.old ds.0 }
    requires even { offset % 16 ≡ 0 }
    requires range { offset + 40 ≤ length (space_at memory.old ds.0).bytes }
    requires short { offset < 2 ^ 32 }
    ensures stored { let bytes = word_bytes left ++ word_bytes right ++ word_bytes high in
        memory.new ≡ with_bytes_at memory.old ds.0 (offset + 16) bytes }
    ensures left { left < 2 ^ 64 }
    ensures right { right < 2 ^ 64 }
    ensures high { high < 2 ^ 64 }
{
    if (offset + LEFT) % PAGE + LINKS_BYTES > PAGE {
        memory.store_word(ds, offset + LEFT, left);
        memory.store_word(ds, offset + RIGHT, right);
        memory.store_word(ds, offset + HIGH, high);
        return;
    }
    memory.store_words(ds, offset + LEFT, (left, right, high));
}
