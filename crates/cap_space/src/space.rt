//! The capability space: a table with one place for each selector.
ghost use Rattle.std.specs.Prelude.{◌≡◌, ℕ, [], ◌<◌, ◌≤◌, ◌↔◌, Some, None, IsTrue, IsFalse, IsSome, IfOk, IfSome, IfNone, slice_set, vec_len, vec_capacity};
ghost use Rattle.std.specs.FinMap.{get, len};
ghost use Rattle.own_model.specs.OwnState.{new_selector, IsLeastUnused};
ghost use Rattle.cap_space.specs.Space.{dataspace_of, is_rpc_object, session_of, is_buffer, fresh_space, with_cap, without_cap};
ghost use Rattle.cap_space.specs.Slots.{IsTakenBefore, padded};

use crate::cap::Cap;
use crate::place_bitmap::PlaceBitmap;
use std::alloc::Global;
use std::marker::Model;
use trade_base::{DsId, NoMemory, Selector, SessionId};

/// The capabilities of one component, each under its selector, a positive number.
///
/// Boot reserves all memory, so that no later call fails for lack of host memory.
#[derive(Drop)]
pub struct CapSpace {
    // The places that were in use at least once; the capacity is that of all places. The place of a selector is the
    // selector minus 1.
    slots: Vec<Option<Cap>>,
    // The set of used places. Places after the last slot are free.
    taken: PlaceBitmap,
    // The number of places in use.
    used: usize,
}

impl Model for CapSpace {
    ghost use Rattle.cap_space.specs.Space.{Space, coded_space};

    ghost Value = { Space };

    ghost coded = { coded_space };

    ghost use Rattle.std.specs.Prelude.{vec_capacity};
    ghost use Rattle.cap_space.specs.Slots.{padded, space_of, IsKept};

    ghost view = { λ s. space_of (padded s.slots.items (vec_capacity s.slots)) };

    ghost invariant = { λ s.
        IsKept (padded s.slots.items (vec_capacity s.slots)) (vec_capacity s.slots) s.taken.words s.used };
}

#[tactic(auto, using(crate::proofs::SlotsLemmas::slots))]
impl CapSpace {
    /// Creates an empty space of `places` places.
    ///
    /// Fails with `NoMemory` if the host has too little memory.
    pub fn boot(alloc: Global, places: usize) -> Result<CapSpace, NoMemory>
        requires { places ≤ 4096 }
        ensures { IfOk result (λ space. space ≡ fresh_space places) }
    {
        let slots = no_slots(alloc, places)?;
        Ok(CapSpace {
            slots,
            taken: PlaceBitmap::all_free(),
            used: 0,
        })
    }

    /// Stores a capability under a new selector, the least positive number that is not in use, and returns the selector.
    pub fn insert(&mut self, cap: Cap) -> Selector
        requires room { len self.old.caps < self.old.places }
        ensures least { result.0 ≡ new_selector self.old.caps }
        ensures least_unused { IsLeastUnused self.old.caps result.0 }
        ensures fresh { get self.old.caps result.0 ≡ None }
        ensures taken { self.new ≡ with_cap self.old result.0 cap }
    {
        let place = self.taken.least_free();
        put(&mut self.slots, place, cap);
        self.taken.take(place);
        self.used += 1;
        Selector((place + 1) as u32)
    }

    /// Returns the capability under a selector, or `None` if the selector is not in use.
    ///
    /// Accepts any number, as a line may contain any: 0 and numbers above the number of places are never in use.
    pub fn get(&self, selector: u64) -> Option<Cap>
        ensures found { result ≡ get self.now.caps selector }
        ensures within { IfSome result (λ _. (1 ≤ selector) × (selector ≤ self.now.places)) }
    {
        let slots = &self.slots;
        let place = selector.checked_sub(1)?;
        *slots.get(place as usize)?
    }

    /// Removes the capability under a selector and returns it, which frees the selector. Returns `None` and changes
    /// nothing if the selector is not in use. Accepts any number, as `get` does.
    pub fn remove(&mut self, selector: u64) -> Option<Cap>
        ensures found { result ≡ get self.old.caps selector }
        ensures gone { IfSome result (λ _. self.new ≡ without_cap self.old selector) }
        ensures none { IfNone result (self.new ≡ self.old) }
    {
        let cap = self.get(selector)?;
        let place = (selector - 1) as usize;
        let slots = &mut self.slots;
        slots[place] = None;
        self.taken.free(place);
        self.used -= 1;
        Some(cap)
    }

    /// Removes the dataspace under a selector and returns its key, which frees the selector. Returns `None` and changes
    /// nothing if the selector names no dataspace. Accepts any number, as `get` does.
    pub fn take_dataspace(&mut self, selector: u64) -> Option<DsId>
        ensures found { result ≡ dataspace_of (get self.old.caps selector) }
        ensures gone { IfSome result (λ _. self.new ≡ without_cap self.old selector) }
        ensures none { IfNone result (self.new ≡ self.old) }
    {
        match self.get(selector) {
            Some(Cap::Dataspace(space)) => {
                self.remove(selector);
                Some(space)
            }
            _ => None,
        }
    }

    /// Removes the RPC object under a selector and returns true, which frees the selector. Returns false and changes
    /// nothing if the selector names no RPC object. Accepts any number.
    pub fn take_rpc_object(&mut self, selector: u64) -> bool
        ensures found { result ≡ is_rpc_object (get self.old.caps selector) }
        ensures gone { IsTrue result → self.new ≡ without_cap self.old selector }
        ensures none { IsFalse result → self.new ≡ self.old }
    {
        match self.get(selector) {
            Some(Cap::RpcObject) => {
                self.remove(selector);
                true
            }
            _ => false,
        }
    }

    /// Removes the session under a selector, which frees the selector. Returns its server's entry and its key in the
    /// server's table, or `None` without a change if the selector names no session. Accepts any number.
    pub fn take_session(&mut self, selector: u64) -> Option<(usize, SessionId)>
        ensures found { result ≡ session_of (get self.old.caps selector) }
        ensures gone { IfSome result (λ _. self.new ≡ without_cap self.old selector) }
        ensures none { IfNone result (self.new ≡ self.old) }
    {
        match self.get(selector) {
            Some(Cap::Session { server, session }) => {
                self.remove(selector);
                Some((server, session))
            }
            _ => None,
        }
    }

    /// Removes the buffer with this dataspace and returns its selector, the least if there are several. Returns `None`
    /// and changes nothing if there is none. The search tests each selector in order.
    pub fn take_buffer(&mut self, space: DsId) -> Option<Selector>
        ensures found { IfSome result (λ s. IsTrue (is_buffer space.0 (get self.old.caps s.0))) }
        ensures first { IfSome result
            (λ s. (other : ℕ) → other < s.0
            → IsFalse (is_buffer space.0 (get self.old.caps other))) }
        ensures gone { IfSome result (λ s. self.new ≡ without_cap self.old s.0) }
        ensures none { IfNone result
            ((s : ℕ) → IsFalse (is_buffer space.0 (get self.old.caps s))) }
        ensures same { IfNone result (self.new ≡ self.old) }
    {
        let selector = self.buffer(space)?;
        self.remove(selector as u64);
        Some(Selector(selector))
    }

    // Returns the least selector of a buffer with this dataspace.
    fn buffer(&self, space: DsId) -> Option<u32>
        ensures found { IfSome result (λ s. IsTrue (is_buffer space.0 (get self.now.caps s))) }
        ensures first { IfSome result
            (λ s. (other : ℕ) → other < s → IsFalse (is_buffer space.0 (get self.now.caps other))) }
        ensures none { IfNone result
            ((s : ℕ) → IsFalse (is_buffer space.0 (get self.now.caps s))) }
    {
        let places = self.slots.capacity();
        let mut selector = 0;
        while selector < places {
            selector += 1;
            if let Some(Cap::Buffer { space: of, .. }) = self.get(selector as u64) {
                if of == space {
                    return Some(selector as u32);
                }
            }
        }
        None
    }

    /// Returns the number of places, at most 4096. Each selector in use is between 1 and this number.
    pub fn places(&self) -> usize
        ensures count { result ≡ self.now.places }
        ensures most { result ≤ 4096 }
        ensures within { (selector : ℕ) → IsSome (get self.now.caps selector)
            → (1 ≤ selector)
            × (selector ≤ self.now.places) }
    {
        self.slots.capacity()
    }

    /// Returns whether each place of the space has a capability.
    pub fn is_full(&self) -> bool
        ensures full { IsTrue result ↔ (len self.now.caps ≡ self.now.places) }
        ensures within { len self.now.caps ≤ self.now.places }
    {
        self.used == self.slots.capacity()
    }
}

// Allocates an empty table with space for `places` slots.
fn no_slots(alloc: Global, places: usize) -> Result<Vec<Option<Cap>>, NoMemory>
    ensures none { IfOk result (λ slots. slots.items ≡ []) }
    ensures room { IfOk result (λ slots. vec_capacity slots ≡ places) }
{
    Vec::with_capacity(alloc, places).map_err(|_| NoMemory)
}

// Stores a capability at a place that was in use before, or at the next new place.
#[tactic(auto, using(crate::proofs::PaddedLemmas::padded_slots))]
fn put(slots: &mut Vec<Option<Cap>>, place: usize, cap: Cap)
    requires next { place ≤ vec_len slots.old }
    requires room { place < vec_capacity slots.old }
    ensures put { padded slots.new.items (vec_capacity slots.new)
        ≡ slice_set (padded slots.old.items (vec_capacity slots.old)) place (Some cap) }
    ensures capacity { vec_capacity slots.new ≡ vec_capacity slots.old }
{
    if place < slots.len() {
        slots[place] = Some(cap);
    } else {
        slots.push_reserved(Some(cap));
    }
}
