//! Heaps: which of two equal free blocks is taken, over two heaps on one map.
ghost use Rattle.layer_tests.specs.Heaps.{AreBeside};

use dataspace_core::Memory;
use heap_core::Heap;
use region_map::RegionMap;
use std::alloc::Global;
use std::mem;
use std::process::Abort;
use trade_base::{Caps, PAGE, Ram, Refusal};

/// A call of one of two heaps on one map, and its reply.
enum HeapCall {
    /// A block for so many bytes is allocated: its payload starts at this address.
    Take(u64, u64),
    /// The block whose payload starts at this address is freed.
    Give(u64),
    /// The other heap is called from here on.
    Swap,
}

/// A machine with two heaps on one map: `heap`, of the root, and `other`, of an account below it.
#[derive(Drop)]
struct TwoHeaps {
    memory: Memory,
    map: RegionMap,
    heap: Heap,
    other: Heap,
}

impl TwoHeaps {
    /// A machine of 64 pages and capabilities, of which the other heap's account has 32 and 16.
    fn boot(rt: &impl Abort, alloc: Global) -> TwoHeaps
        ensures { AreBeside result.heap result.other result.memory result.map }
    {
        let mut memory = Memory::boot(alloc, 64, Caps(64), 2).expect(rt, "memory for the pages");
        let map = RegionMap::boot(alloc, 0, 64, 64).expect(rt, "memory for the regions");
        let root = memory.root();
        let account = memory
            .open(root, Ram(32 * PAGE), Caps(16))
            .expect(rt, "the machine has as much");
        TwoHeaps {
            memory,
            map,
            heap: Heap::new(root),
            other: Heap::new(account),
        }
    }

    /// Exchanges the two heaps of the machine.
    fn swap(&mut self)
        requires { AreBeside self.old.heap self.old.other self.old.memory self.old.map }
        ensures { AreBeside self.new.heap self.new.other self.new.memory self.new.map }
    {
        mem::swap(&mut self.heap, &mut self.other);
    }

    /// Allocates a block, or returns the refusal.
    fn take(&mut self, bytes: u64) -> Result<u64, Refusal>
        requires { AreBeside self.old.heap self.old.other self.old.memory self.old.map }
        ensures { AreBeside self.new.heap self.new.other self.new.memory self.new.map }
    {
        self.heap.alloc(&mut self.memory, &mut self.map, bytes)
    }

    /// Frees a block, or returns the refusal.
    fn give(&mut self, address: u64) -> Result<(), Refusal>
        requires { AreBeside self.old.heap self.old.other self.old.memory self.old.map }
        ensures { AreBeside self.new.heap self.new.other self.new.memory self.new.map }
    {
        self.heap.free(&mut self.memory, &mut self.map, address)
    }

    /// Makes a call, and returns whether its reply is the expected one.
    fn carry_out(&mut self, step: &HeapCall) -> bool
        requires { AreBeside self.old.heap self.old.other self.old.memory self.old.map }
        ensures { AreBeside self.new.heap self.new.other self.new.memory self.new.map }
    {
        match *step {
            HeapCall::Take(bytes, address) => self.take(bytes) == Ok(address),
            HeapCall::Give(address) => self.give(address).is_ok(),
            HeapCall::Swap => {
                self.swap();
                true
            }
        }
    }

    /// Checks that each call has the expected reply.
    fn run(&mut self, rt: &impl Abort, steps: &[HeapCall])
        requires { AreBeside self.old.heap self.old.other self.old.memory self.old.map }
        ensures { AreBeside self.new.heap self.new.other self.new.memory self.new.map }
    {
        for (place, step) in steps.iter().enumerate() {
            assert!(rt; self.carry_out(step), "at step {place}");
        }
    }
}

/// Checks that each call has the expected reply on a machine of 64 pages, of which each heap's account has half.
fn check(rt: &impl Abort, alloc: Global, steps: &[HeapCall]) {
    let mut machine = TwoHeaps::boot(rt, alloc);
    machine.run(rt, steps);
}

#[test]
fn ties_go_to_the_older_chunk(rt: HostRuntime) {
    check(
        &rt,
        rt.alloc(),
        &[
            HeapCall::Swap,
            HeapCall::Take(65536, 0x1_0000_0000),
            HeapCall::Swap,
            HeapCall::Take(100, 0x1_0001_0010),
            HeapCall::Take(16240, 0x1_0001_0090),
            HeapCall::Swap,
            HeapCall::Give(0x1_0000_0000),
            HeapCall::Swap,
            HeapCall::Take(100, 0x1_0000_0010),
            HeapCall::Take(32624, 0x1_0000_0090),
            HeapCall::Give(0x1_0000_0010),
            HeapCall::Give(0x1_0001_0010),
            // The older chunk is at the higher address.
            HeapCall::Take(100, 0x1_0001_0010),
        ],
    );
    check(
        &rt,
        rt.alloc(),
        &[
            HeapCall::Take(100, 0x1_0000_0010),
            HeapCall::Take(16240, 0x1_0000_0090),
            HeapCall::Take(100, 0x1_0000_4010),
            HeapCall::Take(32624, 0x1_0000_4090),
            HeapCall::Give(0x1_0000_4010),
            HeapCall::Give(0x1_0000_0010),
            HeapCall::Take(100, 0x1_0000_0010),
        ],
    );
}
