//! The end of a script: all that it holds is freed, and then its account closes.

use crate::script::Script;
use cap_space::Cap;
use dataspace_core::Memory;

impl Script {
    ghost use Rattle.std.specs.Prelude.{◌≡◌, ℕ, None, IsSome};
    ghost use Rattle.std.specs.FinMap.{get};
    ghost use Rattle.dataspace_core.specs.Store.{parents_in, parent_in, IsLeafIn, AreRelatedIn, ClosesPart, ram_limits_in, caps_limits_in};
    ghost use Rattle.pd_core.specs.Release.{IsCleared};
    ghost use Rattle.pd_core.specs.Sound.{session_at, buffer_at, IsSoundScript, OthersStay, Keeps};

    /// Frees all that a script without sessions and buffers holds: dataspaces with their regions, RPC objects and heaps.
    /// Then closes its account and returns the limits to the account above.
    pub(crate) fn end(mut self, memory: &mut Memory)
        requires sound { IsSoundScript memory.old self }
        requires none { (selector : ℕ) → session_at (get self.caps.caps selector) ≡ None }
        requires unlent { (selector : ℕ) → buffer_at (get self.caps.caps selector) ≡ None }
        requires child { IsSome (get (parents_in memory.old) self.account.0) }
        requires leaf { IsLeafIn memory.old self.account.0 }
        ensures closes { ClosesPart self.account.0 (parent_in memory.old self.account.0) memory.old
            memory.new }
        ensures related { AreRelatedIn memory.old self.account.0
            (parent_in memory.old self.account.0) }
        ensures machine { ram_limits_in memory.new ≡ ram_limits_in memory.old }
        ensures caps { caps_limits_in memory.new ≡ caps_limits_in memory.old }
    {
        self.release_all(memory);
        self.end_heaps(memory);
        memory.close(self.account);
    }

    // Frees what the selectors name.
    fn release_all(&mut self, memory: &mut Memory)
        requires sound { IsSoundScript memory.old self.old }
        requires none { (selector : ℕ) → session_at (get self.old.caps.caps selector) ≡ None }
        requires unlent { (selector : ℕ) → buffer_at (get self.old.caps.caps selector)
            ≡ None }
        ensures keeps { Keeps memory.old self.old memory.new self.new }
        ensures others { OthersStay self.old.account.0 memory.old memory.new }
        ensures none { (selector : ℕ) → get self.new.caps.caps selector ≡ None }
    {
        for place in 0..self.caps.places() {
            self.release(memory, place as u64 + 1);
        }
    }

    // Frees what a selector names, unless it is a session or a buffer.
    fn release(&mut self, memory: &mut Memory, selector: u64)
        requires sound { IsSoundScript memory.old self.old }
        requires plain { session_at (get self.old.caps.caps selector) ≡ None }
        requires own { buffer_at (get self.old.caps.caps selector) ≡ None }
        ensures keeps { Keeps memory.old self.old memory.new self.new }
        ensures others { OthersStay self.old.account.0 memory.old memory.new }
        ensures gone { get self.new.caps.caps selector ≡ None }
        ensures fewer { (other : ℕ) → IsSome (get self.new.caps.caps other) →
            IsSome (get self.old.caps.caps other) }
    {
        match self.caps.get(selector) {
            Some(Cap::Dataspace(_)) => {
                let _ = self.free(memory, selector);
            }
            Some(Cap::RpcObject) => {
                let _ = self.capfree(memory, selector);
            }
            None => {}
            // Sessions are closed before, and their buffers are freed with them.
            Some(Cap::Session { .. } | Cap::Buffer { .. }) => unreachable!(),
        }
    }

    // Frees all blocks of both heaps. The account of a script without a selector then uses nothing.
    fn end_heaps(&mut self, memory: &mut Memory)
        requires sound { IsSoundScript memory.old self.old }
        requires none { (selector : ℕ) → get self.old.caps.caps selector ≡ None }
        ensures cleared { IsCleared self.old.account.0 memory.old memory.new }
        ensures account { self.new.account ≡ self.old.account }
    {
        self.sliced.end(memory, &mut self.regions);
        self.heap.end(memory, &mut self.regions);
    }
}
