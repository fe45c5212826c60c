//! Words of a dataspace, on both sides of a page's end.
ghost use Rattle.std.specs.Prelude.{◌≡◌, ◌+◌, ◌%◌, ◌≤◌, length};
ghost use Rattle.dataspace_core.specs.Store.{Exists, space_at};

use dataspace_core::Memory;
use trade_base::{Caps, DsId};

/// Stores a word. The dataspace remains, with the same size.
fn store(memory: &mut Memory, ds: DsId, offset: u64, word: u64)
    requires exists { Exists memory.old ds.0 }
    requires aligned { offset % 8 ≡ 0 }
    requires range { offset + 8 ≤ length (space_at memory.old ds.0).bytes }
    ensures exists { Exists memory.new ds.0 }
    ensures size { length (space_at memory.new ds.0).bytes
        ≡ length (space_at memory.old ds.0).bytes }
{
    memory.store_word(ds, offset, word);
}

#[test]
fn words_stand_on_both_sides_of_a_page_end(rt: HostRuntime) {
    let mut memory = Memory::boot(rt.alloc(), 2, Caps(1), 1).expect(&rt, "memory for two pages");
    let root = memory.root();
    let ds = memory.alloc(root, 8192).expect(&rt, "the root has it");
    store(&mut memory, ds, 4088, 0x0102_0304_0506_0708);
    store(&mut memory, ds, 4096, 0x1112_1314_1516_1718);
    assert!(rt; memory.load_word(ds, 4088) == 0x0102_0304_0506_0708);
    assert!(rt; memory.load_word(ds, 4096) == 0x1112_1314_1516_1718);
    let mut buffer = [9; 4];
    memory.read(ds, 4094, &mut buffer);
    assert!(rt; buffer == [2, 1, 0x18, 0x17]);
}
