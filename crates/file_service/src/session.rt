//! A session of the file service.

use arrayvec::ArrayVec;
use core_calls::LONGEST_LABEL;
use session_nodes::{FoundNode, Memory, NodeList, RegionMap, SessionBuffer, SlicedHeap};

/// What the file service stores for a session. Each file has a node.
#[derive(Drop)]
pub struct FileSession {
    pub(crate) label: ArrayVec<u8, LONGEST_LABEL>,
    /// The nodes of its files, each with the file's content.
    pub(crate) nodes: NodeList,
    /// The buffer that it shares with its client, if it has one.
    pub(crate) buffer: Option<SessionBuffer>,
}

/// A range of a file, as a request gives it: the file's name, the offset of the first byte, and the number of bytes.
#[derive(Clone, Copy)]
pub(crate) struct FileRange<'a> {
    pub(crate) file: &'a [u8],
    pub(crate) offset: u64,
    pub(crate) len: u64,
}

impl FileSession {
    ghost use Rattle.std.specs.Prelude.{◌≡◌, ◌≤◌, length, IfSome, IfNone, None};
    ghost use Rattle.session_nodes.specs.Frame.{Share, payer_of, IsLinked, HasBlocksAlone};
    ghost use Rattle.own_model.specs.FileService.{file_named};
    ghost use Rattle.own_model.specs.Offer.Offer.{OffersFiles};
    ghost use Rattle.own_model.specs.Session.{state_at_first};
    ghost use Rattle.session_nodes.specs.NodeList.{Finds};
    ghost use Rattle.session_nodes.specs.SessionHeaps.{stock_of, AreSoundHeaps};
    ghost use Rattle.file_service.specs.Session.{value_of, files_in, HasFiles, IsSession};

    /// Creates a session without files and without a buffer.
    pub(crate) fn open(heap: SlicedHeap, label: &[u8]) -> FileSession
        requires { length label.now ≤ LONGEST_LABEL }
        ensures first { (share : Share) → HasBlocksAlone share
            → value_of result share ≡ record { label = label.now; state = state_at_first OffersFiles } }
        ensures kept { (share : Share) → HasBlocksAlone share → IsLinked share heap.first
            → IsSession result (payer_of heap) share }
        ensures lends { result.buffer ≡ None }
    {
        let mut copy = ArrayVec::new();
        let _ = copy.try_extend_from_slice(label);
        FileSession {
            label: copy,
            nodes: NodeList::new(heap),
            buffer: None,
        }
    }

    /// Finds the node of the file of a name, if there is one. The memory is unchanged.
    pub(crate) fn find(
        &self,
        memory: &mut Memory,
        map: &RegionMap,
        name: &[u8],
    ) -> Option<FoundNode>
        requires furnished { AreSoundHeaps self.now.nodes.heaps memory.old map.now }
        requires files { HasFiles self.now (stock_of self.now.nodes.heaps memory.old map.now) }
        ensures some { IfSome result
            (Finds self.now.nodes (stock_of self.now.nodes.heaps memory.old map.now) name.now) }
        ensures none { IfNone result
            (file_named name.now
            (files_in self.now (stock_of self.now.nodes.heaps memory.old map.now)) ≡ None) }
        ensures memory { memory.new ≡ memory.old }
    {
        self.nodes.find(memory, map, name)
    }
}
