//! The requests of a session's buffer.
ghost use Rattle.std.specs.Prelude.{◌≡◌, List, Some};
ghost use Rattle.own_model.specs.BufferService.BufferRequest.{Make, GiveBack};
ghost use Rattle.own_model.specs.ObjectKinds as model;
ghost use Rattle.own_model.specs.ObjectSession.HoldingRequest.{OfBuffer};
ghost use Rattle.own_model.specs.ObjectText.ObjectReply.{Done, Lent};
ghost use Rattle.session_nodes.specs.Frame.{IsEffect};
ghost use Rattle.session_nodes.specs.SessionHeaps.{StaySoundHeaps};
ghost use Rattle.session_nodes.specs.SessionBuffer.{buffer_key, lent_effect, gone_effect};
ghost use Rattle.object_service.specs.Session.{Answers, IsReady, buffer_reply, session_served};

use crate::session::ObjectSession;
use session_nodes::{Memory, RegionMap};
use session_proto::FileError;
use trade_base::DsId;

impl ObjectSession {
    /// Creates the buffer of a session, with this number of bytes in whole pages, all zero, and returns its dataspace.
    ///
    /// Refuses with `InvalidSize` for no bytes or more than 64 bits count, then `Exists` if the session has a buffer. Then
    /// refuses with `OutOfRam` or `OutOfCaps` if the account does not cover it.
    pub(crate) fn lend(
        &mut self,
        memory: &mut Memory,
        map: &mut RegionMap,
        bytes: u64,
    ) -> Result<DsId, FileError>
        requires ready { IsReady self.old memory.old map.old }
        ensures answers { (kinds : List model.ObjectKind) → Answers kinds
            (session_served kinds (Some (OfBuffer (Make bytes))) self.old memory.old map.old)
            (buffer_reply Lent result) self.old self.new memory.new map.new }
        ensures effect { IsEffect (lent_effect result)
            (buffer_key self.old.buffer) (buffer_key self.new.buffer) }
        ensures stays { StaySoundHeaps self.old.nodes.heaps self.new.nodes.heaps
            memory.old memory.new map.old map.new }
    {
        self.nodes.heaps.lend(memory, map, &mut self.buffer, bytes)
    }

    /// Frees the session's buffer and returns its dataspace. Refuses with `NoBuffer` if there is none.
    pub(crate) fn take_back(
        &mut self,
        memory: &mut Memory,
        map: &mut RegionMap,
    ) -> Result<DsId, FileError>
        requires ready { IsReady self.old memory.old map.old }
        ensures answers { (kinds : List model.ObjectKind) → Answers kinds
            (session_served kinds (Some (OfBuffer GiveBack)) self.old memory.old map.old)
            (buffer_reply Done result) self.old self.new memory.new map.new }
        ensures effect { IsEffect (gone_effect result)
            (buffer_key self.old.buffer) (buffer_key self.new.buffer) }
        ensures stays { StaySoundHeaps self.old.nodes.heaps self.new.nodes.heaps
            memory.old memory.new map.old map.new }
    {
        self.nodes.heaps.take_back(memory, map, &mut self.buffer)
    }
}
