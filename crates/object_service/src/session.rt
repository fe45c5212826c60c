//! A session of a declared server.

use crate::counts::ObjectCounts;
use arrayvec::ArrayVec;
use core_calls::LONGEST_LABEL;
use session_nodes::{NodeList, SessionBuffer, SlicedHeap};

/// What a declared server stores for a session. Each object has a node, and two words after it in the node's block: the
/// number of the kind times 65,536 plus the bytes of a unit, and the units.
#[derive(Drop)]
pub struct ObjectSession {
    pub(crate) label: ArrayVec<u8, LONGEST_LABEL>,
    /// The nodes of its objects in the order of creation.
    pub(crate) nodes: NodeList,
    /// The counters of its objects.
    pub(crate) counts: ObjectCounts,
    /// The buffer that it shares with its client, if it has one.
    pub(crate) buffer: Option<SessionBuffer>,
}

impl ObjectSession {
    ghost use Rattle.std.specs.Prelude.{◌≡◌, ◌≤◌, List, length, None};
    ghost use Rattle.session_nodes.specs.Frame.{Share, payer_of, IsLinked, HasBlocksAlone};
    ghost use Rattle.own_model.specs.ObjectKinds.{ObjectKind};
    ghost use Rattle.own_model.specs.Offer.Offer.{OffersObjects};
    ghost use Rattle.own_model.specs.Session.{state_at_first};
    ghost use Rattle.object_service.specs.Session.{value_of, IsSession};

    /// Creates a session without objects and without a buffer.
    pub(crate) fn open(heap: SlicedHeap, label: &[u8]) -> ObjectSession
        requires { length label.now ≤ LONGEST_LABEL }
        ensures first { (kinds : List ObjectKind) (share : Share) → HasBlocksAlone share
            → value_of kinds result share ≡ record {
              label = label.now;
              state = state_at_first (OffersObjects kinds);
            } }
        ensures kept { (share : Share) → HasBlocksAlone share → IsLinked share heap.first
            → IsSession result (payer_of heap) share }
        ensures lends { result.buffer ≡ None }
    {
        let mut copy = ArrayVec::new();
        let _ = copy.try_extend_from_slice(label);
        ObjectSession {
            label: copy,
            nodes: NodeList::new(heap),
            counts: ObjectCounts::new(),
            buffer: None,
        }
    }
}
