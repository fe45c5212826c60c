//! The requests that read objects.
ghost use Rattle.std.specs.Prelude.{◌≡◌, ◌<◌, ◌≤◌, List, length, map, slice_get, IfSome};
ghost use Rattle.std.specs.List.{position};
ghost use Rattle.std.specs.Option.{option_map};
ghost use Rattle.own_model.specs.ObjectKinds as model;
ghost use Rattle.own_model.specs.ObjectKinds.{AreObjectKinds, is_kind};
ghost use Rattle.own_model.specs.ObjectText.ObjectReply.{Counted, Named};
ghost use Rattle.own_model.specs.ObjectText.ObjectRequest.{Count, CountKind};
ghost use Rattle.session_nodes.specs.SessionHeaps.{stock_of, AreSoundHeaps};
ghost use Rattle.session_nodes.specs.SoundHeaps.{Stock};
ghost use Rattle.object_service.specs.Kinds.{kind_at};
ghost use Rattle.object_service.specs.Session.{counted_reply, named_reply, objects_in, HasObjects, IsTold};

use crate::object_requests::{KIND, UNIT_LIMIT, UNITS};
use crate::session::ObjectSession;
use object_kinds::ObjectKind;
use session_nodes::{Memory, Node, RegionMap};
use session_proto::ObjectError;

/// An object that is found.
#[derive(Drop)]
pub(crate) struct FoundObject {
    /// Its node, with its name.
    pub(crate) node: Node,
    /// The number of its kind.
    pub(crate) number: u64,
    /// Its units.
    pub(crate) units: u64,
}

impl ObjectSession {
    /// Returns the number of objects, by a counter.
    pub(crate) fn count(&self) -> u64
        ensures { (kinds : List model.ObjectKind) (stock : Stock) → HasObjects self.now stock →
            IsTold kinds Count (Counted result) self.now stock }
    {
        self.counts.all
    }

    /// Returns the number of objects of a kind, by a counter. Refuses with `BadKind` if the server offers no kind of this
    /// name.
    pub(crate) fn count_kind(&self, kinds: &[ObjectKind], kind: &[u8]) -> Result<u64, ObjectError>
        requires kinds { AreObjectKinds kinds.now }
        requires counted { length self.now.counts.each ≡ 16 }
        ensures { (stock : Stock) → HasObjects self.now stock →
            IsTold kinds.now (CountKind kind.now) (counted_reply result) self.now stock }
    {
        let number = number_of(kinds, kind).ok_or(ObjectError::BadKind)?;
        Ok(self.counts.each[number])
    }

    /// Returns the object at a place in the order of creation, and remembers it, or `None`. The memory is unchanged.
    pub(crate) fn object_at(
        &mut self,
        memory: &mut Memory,
        map: &RegionMap,
        place: u64,
    ) -> Option<FoundObject>
        requires furnished { AreSoundHeaps self.old.nodes.heaps memory.old map.now }
        requires objects { HasObjects self.old (stock_of self.old.nodes.heaps memory.old map.now) }
        ensures object { (kinds : List model.ObjectKind) → option_map (λ found. Named
            (kind_at kinds found.number).name found.node.name.items found.units) result
            ≡ option_map named_reply (slice_get (objects_in kinds self.old
            (stock_of self.old.nodes.heaps memory.old map.now)).objects place) }
        ensures kept { HasObjects self.new (stock_of self.new.nodes.heaps memory.old map.now) }
        ensures same { self.new ≡ record self.old {
          nodes = record self.old.nodes { recent = self.new.nodes.recent };
        } }
        ensures memory { memory.new ≡ memory.old }
    {
        let found = self.nodes.at_place(memory, map, place)?;
        let heaps = &self.nodes.heaps;
        let word = heaps.load_block_word(memory, map, found.address, KIND);
        let units = heaps.load_block_word(memory, map, found.address, UNITS);
        Some(FoundObject {
            node: found.node,
            number: word / UNIT_LIMIT,
            units,
        })
    }
}

/// Returns the number of the kind with a name, or `None` if there is none.
pub(crate) fn number_of(kinds: &[ObjectKind], name: &[u8]) -> Option<usize>
    ensures place { result ≡ position (is_kind name.now) kinds.now }
    ensures low { IfSome result (λ number. number < length kinds.now) }
{
    kinds.iter().position(|kind| kind.name().as_bytes() == name)
}

/// Returns the name of the kind of a number, or no bytes if there is none.
pub(crate) fn name_of(kinds: &[ObjectKind], number: u64) -> &[u8]
    ensures name { result.now ≡ (kind_at kinds.now number).name }
    ensures short { length result.now ≤ 32 }
{
    match kinds.get(number as usize) {
        Some(kind) => kind.name().as_bytes(),
        None => b"",
    }
}
