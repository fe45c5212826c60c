//! The requests of a session's buffer.
ghost use Rattle.std.specs.Prelude.{◌≡◌, IfOk, IfSome, Some};
ghost use Rattle.std.specs.Option.{option_map};
ghost use Rattle.std.specs.Result.{result_err};
ghost use Rattle.own_model.specs.BufferService.{range_refusal};
ghost use Rattle.own_model.specs.BufferService.BufferRequest.{Make, GiveBack, Put, Get};
ghost use Rattle.own_model.specs.BufferService.SessionRequest.{OfBuffer};
ghost use Rattle.session_nodes.specs.Frame.{Exists, IsEffect, bytes_lent};
ghost use Rattle.session_proto.specs.FileReply.{model_error};
ghost use Rattle.session_nodes.specs.SessionHeaps.{StaySoundHeaps};
ghost use Rattle.session_nodes.specs.SessionBuffer.{buffer_key, lent_effect, gone_effect};
ghost use Rattle.file_service.specs.Session.{Answers, IsReady, session_served, counted_reply, done_reply, lent_reply};

use crate::session::{FileRange, FileSession};
use session_nodes::{ContentRange, Memory, RegionMap, SessionBuffer, WriteSource};
use session_proto::FileError;
use trade_base::DsId;

impl FileSession {
    /// Creates the buffer of a session, with this number of bytes in whole pages, all zero, and returns its dataspace.
    ///
    /// Refuses with `InvalidSize` for no bytes or more than 64 bits count, then `Exists` if the session has a buffer. Then
    /// refuses with `OutOfRam` or `OutOfCaps` if the account does not cover it.
    pub(crate) fn lend(
        &mut self,
        memory: &mut Memory,
        map: &mut RegionMap,
        bytes: u64,
    ) -> Result<DsId, FileError>
        requires ready { IsReady self.old memory.old map.old }
        ensures answers { Answers
            (session_served (Some (OfBuffer (Make bytes))) self.old memory.old map.old)
            (lent_reply result) self.old self.new memory.new map.new }
        ensures effect { IsEffect (lent_effect result)
            (buffer_key self.old.buffer) (buffer_key self.new.buffer) }
        ensures stays { StaySoundHeaps self.old.nodes.heaps self.new.nodes.heaps
            memory.old memory.new map.old map.new }
    {
        self.nodes.heaps.lend(memory, map, &mut self.buffer, bytes)
    }

    /// Frees the session's buffer and returns its dataspace. Refuses with `NoBuffer` if there is none.
    pub(crate) fn take_back(
        &mut self,
        memory: &mut Memory,
        map: &mut RegionMap,
    ) -> Result<DsId, FileError>
        requires ready { IsReady self.old memory.old map.old }
        ensures answers { Answers
            (session_served (Some (OfBuffer GiveBack)) self.old memory.old map.old)
            (done_reply result) self.old self.new memory.new map.new }
        ensures effect { IsEffect (gone_effect result)
            (buffer_key self.old.buffer) (buffer_key self.new.buffer) }
        ensures stays { StaySoundHeaps self.old.nodes.heaps self.new.nodes.heaps
            memory.old memory.new map.old map.new }
    {
        self.nodes.heaps.take_back(memory, map, &mut self.buffer)
    }

    /// Writes the bytes of the buffer from a place on over a range of a file, and returns their number.
    ///
    /// Refuses with `NotFound`, `Gap`, `NoBuffer`, then `BadRange` if the bytes are not all in the buffer. Then refuses if
    /// the account does not cover a longer content.
    pub(crate) fn put(
        &mut self,
        memory: &mut Memory,
        map: &mut RegionMap,
        range: &FileRange<'_>,
        place: u64,
    ) -> Result<u64, FileError>
        requires ready { IsReady self.old memory.old map.old }
        ensures answers { Answers
            (session_served (Some (OfBuffer
            (Put range.now.file.now range.now.offset place range.now.len)))
            self.old memory.old map.old)
            (counted_reply result) self.old self.new memory.new map.new }
        ensures same { buffer_key self.new.buffer ≡ buffer_key self.old.buffer }
        ensures stays { StaySoundHeaps self.old.nodes.heaps self.new.nodes.heaps
            memory.old memory.new map.old map.new }
    {
        let found = self
            .find(memory, map, range.file)
            .ok_or(FileError::NotFound)?;
        if range.offset > found.node.size {
            return Err(FileError::Gap);
        }
        let count = range.len;
        let lent = self.range(memory, place, count)?;
        let source = WriteSource::Buffer { lent, place, count };
        self.overwrite(memory, map, found, range.offset, source)
    }

    /// Copies the bytes that a file has in a range into the buffer from a place on, and returns their number.
    ///
    /// Refuses with `NotFound`, `Gap`, `NoBuffer`, then `BadRange` if the buffer has no room for the range.
    pub(crate) fn get(
        &self,
        memory: &mut Memory,
        map: &RegionMap,
        range: &FileRange<'_>,
        place: u64,
    ) -> Result<u64, FileError>
        requires ready { IsReady self.now memory.old map.now }
        ensures answers { Answers
            (session_served (Some (OfBuffer
            (Get range.now.file.now range.now.offset place range.now.len)))
            self.now memory.old map.now)
            (counted_reply result) self.now self.now memory.new map.now }
        ensures stays { StaySoundHeaps self.now.nodes.heaps self.now.nodes.heaps
            memory.old memory.new map.now map.now }
    {
        let found = self
            .find(memory, map, range.file)
            .ok_or(FileError::NotFound)?;
        let size = found.node.size;
        if range.offset > size {
            return Err(FileError::Gap);
        }
        let lent = self.range(memory, place, range.len)?;
        let part = range.len.min(size - range.offset);
        if part > 0 {
            let content = ContentRange {
                address: found.node.content,
                offset: range.offset,
                count: part,
            };
            self.nodes
                .heaps
                .fill_buffer(memory, map, lent, place, content);
        }
        Ok(part)
    }

    // The buffer, if it has `count` bytes from a place on. Refuses with `NoBuffer`, then `BadRange`.
    fn range(&self, memory: &Memory, place: u64, count: u64) -> Result<SessionBuffer, FileError>
        requires { IfSome self.now.buffer (λ lent. Exists memory.now lent.space.0) }
        ensures refusal { option_map model_error (result_err result)
            ≡ range_refusal place count (bytes_lent memory.now (buffer_key self.now.buffer)) }
        ensures lent { IfOk result (λ lent. self.now.buffer ≡ Some lent) }
    {
        let lent = self.buffer.ok_or(FileError::NoBuffer)?;
        let size = memory.size(lent.space);
        if place > size || count > size - place {
            return Err(FileError::BadRange);
        }
        Ok(lent)
    }
}
