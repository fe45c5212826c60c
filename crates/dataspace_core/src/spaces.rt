//! The table of dataspaces, by their keys.
ghost use Rattle.std.specs.Prelude.{◌≡◌, ◌+◌, ◌^◌, ◌<◌, ◌≤◌, [], Some, None, IfOk, length};
ghost use Rattle.std.specs.Option.{option_map};
ghost use Rattle.slab.specs.Slab.{ContainsKey, HasRoomFor, Updates, get};
ghost use Rattle.dataspace_core.specs.Layout.{HasMovedDown, NoneLiesAfter, NoneLiesIn};
ghost use Rattle.dataspace_core.specs.Spaces.{HaveMoved, start_after as after};

use crate::dataspace::Dataspace;
use crate::page_runs::PageRun;
use slab::Slab;
use std::alloc::Global;
use std::marker::Model;
use trade_base::{AccountId, NoMemory};

/// The number of starts that the compiler moves in one step of a loop.
const BLOCK: usize = 16;

/// The part of a dataspace's entry other than the start of its run.
#[derive(Clone, Copy)]
struct DataspaceEntry {
    payer: AccountId,
    count: usize,
}

/// The dataspaces, which contracts see as one slab. The starts of their runs are stored in a separate compact array.
/// Closing a gap moves all later starts, which is one pass over this array.
#[derive(Drop)]
pub(crate) struct Spaces {
    kept: Slab<DataspaceEntry>,
    /// The start of each dataspace's run in the table of pages, by key.
    starts: Vec<u16>,
    /// No key from this one on was ever in use.
    used: usize,
}

impl Model for Spaces {
    ghost use Rattle.slab.specs.Slab.{Slab, slab_code};
    ghost use Rattle.dataspace_core.specs.contracts.dataspace.Dataspace as dataspace;
    ghost use Rattle.dataspace_core.specs.declared.dataspace.Dataspace.{Dataspace as Placed};
    ghost use Rattle.dataspace_core.specs.Spaces.{placed, IsPlaced};

    ghost Value = { Slab Placed };

    ghost coded = { slab_code dataspace.the_row.coded };

    ghost view = { λ s. placed s.kept s.starts.items };

    ghost invariant = { λ s. IsPlaced s.kept s.starts.items s.used };
}

impl Spaces {
    /// Creates an empty table with at least `places` places, or fails with `NoMemory` if the host has too little memory.
    pub(crate) fn boot(alloc: Global, places: usize) -> Result<Spaces, NoMemory>
        ensures none { IfOk result (λ spaces. spaces.slots ≡ []) }
        ensures room { IfOk result (λ spaces. places ≤ spaces.capacity) }
    {
        let kept = Slab::with_capacity(alloc, places).map_err(|_| NoMemory)?;
        let starts = Vec::from_elem(alloc, 0, kept.capacity()).map_err(|_| NoMemory)?;
        Ok(Spaces {
            kept,
            starts,
            used: 0,
        })
    }

    /// Returns the number of places of the table.
    pub(crate) fn capacity(&self) -> usize
        ensures value { result ≡ self.now.capacity }
    {
        self.kept.capacity()
    }

    /// Returns the dataspace stored under a key.
    pub(crate) fn under(&self, key: usize) -> Dataspace
        requires { ContainsKey self.now key }
        ensures { get self.now key ≡ Some result }
    {
        let kept = kept_under(&self.kept, key);
        Dataspace {
            payer: kept.payer,
            run: PageRun {
                start: self.starts[key] as usize,
                count: kept.count,
            },
        }
    }

    /// Returns the start of the run of the dataspace stored under a key.
    pub(crate) fn start(&self, key: usize) -> usize
        requires { ContainsKey self.now key }
        ensures { option_map (λ space. space.run.start) (get self.now key) ≡ Some result }
    {
        self.starts[key] as usize
    }

    /// Stores a dataspace under a new key and returns the key.
    pub(crate) fn insert_reserved(&mut self, space: Dataspace) -> usize
        requires room { HasRoomFor self.old 1 }
        requires small { space.run.start < 2 ^ 16 }
        ensures was_vacant { get self.old result ≡ None }
        ensures updates { Updates self.old self.new result (Some space) }
        ensures key_in_range { result < self.new.capacity }
        ensures capacity { self.new.capacity ≡ self.old.capacity }
    {
        let key = self.kept.insert_reserved(DataspaceEntry {
            payer: space.payer,
            count: space.run.count,
        });
        self.starts[key] = space.run.start as u16;
        self.used = self.used.max(key + 1);
        key
    }

    /// Removes the dataspace under a key and returns it.
    pub(crate) fn remove(&mut self, key: usize) -> Dataspace
        requires { ContainsKey self.old key }
        ensures value { get self.old key ≡ Some result }
        ensures updates { Updates self.old self.new key None }
        ensures capacity { self.new.capacity ≡ self.old.capacity }
    {
        let space = self.under(key);
        let _kept = self.kept.remove(key);
        space
    }

    /// Moves the starts of all runs after a closed gap down. `entries` is the number of entries of the page table after
    /// the gap was closed.
    pub(crate) fn move_down(&mut self, gap: PageRun, entries: usize)
        requires none { entries ≤ gap.start → NoneLiesAfter gap self.old }
        requires within { NoneLiesIn gap self.old }
        requires small { gap.start + gap.count < 2 ^ 16 }
        ensures moved { HasMovedDown gap self.old self.new }
        ensures capacity { self.new.capacity ≡ self.old.capacity }
    {
        if gap.start < entries {
            let used = block_end(self.used, self.starts.len());
            move_starts(&mut self.starts, used, gap.start as u16, gap.count as u16);
        }
    }
}

/// Returns `used` or more, up to a multiple of the number of starts that the compiler moves at once, but at most `len`.
fn block_end(used: usize, len: usize) -> usize
    requires { used ≤ len }
    ensures some { used ≤ result }
    ensures within { result ≤ len }
{
    let missing = (BLOCK - used % BLOCK) % BLOCK;
    used + missing.min(len - used)
}

/// Returns the stored part of the dataspace under a key.
fn kept_under(kept: &Slab<DataspaceEntry>, key: usize) -> DataspaceEntry
    requires { ContainsKey kept.now key }
    ensures { get kept.now key ≡ Some result }
{
    *kept.get(key).unwrap()
}

/// Moves those of the first `used` starts that are greater than `from` down by `by`, but not below `from`.
fn move_starts(starts: &mut [u16], used: usize, from: u16, by: u16)
    requires { used ≤ length starts.old }
    ensures { HaveMoved from by used starts.old starts.new }
{
    for key in 0..used {
        starts[key] = start_after(from, by, starts[key]);
    }
}

/// Returns a run's start after a gap is closed. It has no branch and no selection, so that the compiler moves eight
/// starts at once by three operations.
fn start_after(from: u16, by: u16, start: u16) -> u16
    ensures { result ≡ after from by start }
{
    start - start.saturating_sub(from).min(by)
}
