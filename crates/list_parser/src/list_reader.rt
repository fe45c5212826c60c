//! The reader of the entries of lists, each with the entries that it starts.
ghost use Rattle.std.specs.Prelude.{◌≡◌, ◌≢◌, ◌+◌, ◌<◌, ◌≤◌, [], length, map, true, IfOk, IfErr, OnOk, Ok, Err};
ghost use Rattle.serde_json.specs.View.{view};
ghost use Rattle.list_parser.specs.Depth.{Grow, HaveParentInits, IsBelow, IsWithin, is_list, reads_below};
ghost use Rattle.list_parser.specs.Entries.{all_read, read_within};
ghost use Rattle.list_parser.specs.View.{so_far};
ghost use Rattle.list_parser.specs.declared.fault.BootFault.TheVariants.{NoMemory};

use crate::entry::ListEntry;
use crate::entry_head::EntryHead;
use crate::list_fault::ListFault;
use crate::list_place::ListPlace;
use serde_json::Value;
use std::alloc::Global;

/// The entries that were read so far, and the number of entries of all lists that were met.
#[derive(Drop)]
pub(crate) struct ListReader {
    pub(crate) entries: Vec<ListEntry>,
    pub(crate) met: usize,
}

/// The list of an entry: its place, and the JSON values of its entries.
#[derive(Drop)]
struct InnerList<'v> {
    place: ListPlace,
    starts: &'v [Value],
}

impl ListReader {
    /// Creates a reader that has read no entry of a list of `met` entries.
    pub(crate) fn new(alloc: Global, met: usize) -> ListReader
        ensures { so_far result ≡ record { entries = []; met = met } }
    {
        ListReader {
            entries: Vec::new(alloc),
            met,
        }
    }

    /// Reads the entries of a list in which inits may nest `deeper` times, each with those that it starts.
    pub(crate) fn read_list(
        &mut self,
        alloc: Global,
        place: &ListPlace,
        deeper: usize,
        starts: &[Value],
    ) -> Result<(), ListFault>
        requires place { IsWithin deeper place.now }
        requires list { is_list self.old.entries.items place.now.init ≡ true }
        requires homes { HaveParentInits self.old.entries.items }
        requires count { length self.old.entries.items + length starts.now ≤ self.old.met }
        requires most { self.old.met ≤ 32 }
        ensures ok { OnOk result
            (all_read (read_within deeper) place.now (so_far self.old) (map view starts.now)
            ≡ Ok (so_far self.new)) }
        ensures err { IfErr result (λ fault. fault.fault ≢ NoMemory
            → all_read (read_within deeper) place.now (so_far self.old) (map view starts.now)
            ≡ Err fault) }
        ensures grow { Grow self.old.entries.items self.new.entries.items }
        ensures count { OnOk result (length self.new.entries.items + self.old.met
            ≡ length self.old.entries.items + length starts.now + self.new.met) }
        ensures most { self.new.met ≤ 32 }
    {
        for value in starts {
            let below = self.read_entry(alloc, place, deeper, value)?;
            if !below.starts.is_empty() {
                self.read_list(alloc, &below.place, deeper - 1, below.starts)?;
            }
        }
        Ok(())
    }

    /// Reads one entry of a list, before the entries that it starts.
    fn read_entry<'v>(
        &mut self,
        alloc: Global,
        place: &ListPlace,
        deeper: usize,
        value: &'v Value,
    ) -> Result<InnerList<'v>, ListFault>
        requires place { IsWithin deeper place.now }
        requires list { is_list self.old.entries.items place.now.init ≡ true }
        requires homes { HaveParentInits self.old.entries.items }
        requires count { length self.old.entries.items < self.old.met }
        requires most { self.old.met ≤ 32 }
        ensures ok { IfOk result (λ below.
            read_within deeper place.now (so_far self.old) (view value.now)
            ≡ all_read (reads_below deeper) below.place (so_far self.new) (map view below.starts.now)) }
        ensures err { IfErr result (λ fault. fault.fault ≢ NoMemory
            → read_within deeper place.now (so_far self.old) (view value.now)
            ≡ Err fault) }
        ensures grow { Grow self.old.entries.items self.new.entries.items }
        ensures count { OnOk result
            (length self.new.entries.items ≡ length self.old.entries.items + 1) }
        ensures met { IfOk result
            (λ below. self.new.met ≡ self.old.met + length below.starts.now) }
        ensures most { self.new.met ≤ 32 }
        ensures some { IfOk result (λ below. 0 < length below.starts.now
            → IsBelow deeper self.new.entries.items below.place) }
    {
        let met = self.met;
        let head = match EntryHead::read(
            alloc,
            place,
            deeper,
            self.entries.as_slice(),
            met,
            value,
        ) {
            Ok(head) => head,
            Err(fault) => return Err(fault.of_entry(self.entries.len())),
        };
        let below = InnerList {
            place: ListPlace::within(self.entries.len(), &head.entry),
            starts: head.starts,
        };
        self.entries.push(head.entry)?;
        self.met = met + below.starts.len();
        Ok(below)
    }
}
