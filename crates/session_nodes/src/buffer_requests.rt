//! The requests for a session's buffer, which services of named things have in common.
ghost use Rattle.std.specs.Prelude.{◌≡◌, None, Some, is_some, if◌then◌else◌, IfOk, OnErr};
ghost use Rattle.std.specs.Option.{option_map};
ghost use Rattle.std.specs.Result.{result_err};
ghost use Rattle.trade_base.specs.Page.{is_valid_size};
ghost use Rattle.own_model.specs.BufferService.{make_refusal};
ghost use Rattle.own_model.specs.FileService.{error_of as model_error_of};
ghost use Rattle.own_model.specs.FileText.FileError.{NoBuffer};
ghost use Rattle.core_calls.specs.FileError.{model_error};
ghost use Rattle.server_frame.specs.Session.{holding_of};
ghost use Rattle.server_frame.specs.SessionBuffer.{IsEffect, bytes_lent};
ghost use Rattle.session_nodes.specs.SessionHeaps.{stock_of, AreSoundHeaps, StaySoundHeaps};
ghost use Rattle.session_nodes.specs.SessionBuffer.{buffer_key, lent_effect, gone_effect, FreesBuffer, HasBuffer, LendsBuffer};

use crate::session_buffer::SessionBuffer;
use crate::session_heaps::SessionHeaps;
use core_calls::FileError;
use dataspace_core::Memory;
use region_map::RegionMap;
use trade_base::{DsId, Refusal, page_round};

impl SessionHeaps {
    /// Creates the buffer of a session, with this number of bytes in whole pages, all zero, and returns its dataspace.
    ///
    /// Refuses with `InvalidSize` for no bytes or more than 64 bits count, then `Exists` if the session has a buffer. Then
    /// refuses with `OutOfRam` or `OutOfCaps` if the account does not cover it. A refused call changes nothing.
    pub fn lend(
        &self,
        memory: &mut Memory,
        map: &mut RegionMap,
        buffer: &mut Option<SessionBuffer>,
        bytes: u64,
    ) -> Result<DsId, FileError>
        requires furnished { AreSoundHeaps self.now memory.old map.old }
        requires lent { HasBuffer buffer.old (holding_of self.now.contents memory.old map.old) }
        ensures refusal { option_map model_error (result_err result)
            ≡ make_refusal bytes (bytes_lent memory.old (buffer_key buffer.old))
            (stock_of self.now memory.old map.old).account }
        ensures lends { IfOk result (λ space. LendsBuffer bytes space buffer.new
            (stock_of self.now memory.old map.old) (stock_of self.now memory.new map.new)
            (holding_of self.now.contents memory.new map.new) memory.new) }
        ensures effect { IsEffect (lent_effect result)
            (buffer_key buffer.old) (buffer_key buffer.new) }
        ensures stays { StaySoundHeaps self.now self.now
            memory.old memory.new map.old map.new }
        ensures err { OnErr result (buffer.new ≡ buffer.old) }
        ensures memory_err { OnErr result (memory.new ≡ memory.old) }
        ensures map_err { OnErr result (map.new ≡ map.old) }
    {
        if !is_size(bytes) {
            return Err(FileError::InvalidSize);
        }
        if buffer.is_some() {
            return Err(FileError::Exists);
        }
        let lent = self.take_buffer(memory, map, bytes).map_err(error_of)?;
        *buffer = Some(lent);
        Ok(lent.space)
    }

    /// Frees a session's buffer and returns its dataspace. Refuses with `NoBuffer` if there is none, and then changes
    /// nothing.
    pub fn take_back(
        &self,
        memory: &mut Memory,
        map: &mut RegionMap,
        buffer: &mut Option<SessionBuffer>,
    ) -> Result<DsId, FileError>
        requires furnished { AreSoundHeaps self.now memory.old map.old }
        requires lent { HasBuffer buffer.old (holding_of self.now.contents memory.old map.old) }
        ensures refusal { option_map model_error (result_err result)
            ≡ (if is_some buffer.old then None else Some NoBuffer) }
        ensures frees { IfOk result (λ space. FreesBuffer space buffer.old buffer.new
            (stock_of self.now memory.old map.old) (stock_of self.now memory.new map.new)
            (holding_of self.now.contents memory.new map.new) memory.old) }
        ensures effect { IsEffect (gone_effect result)
            (buffer_key buffer.old) (buffer_key buffer.new) }
        ensures stays { StaySoundHeaps self.now self.now
            memory.old memory.new map.old map.new }
        ensures err { OnErr result (buffer.new ≡ buffer.old) }
        ensures memory_err { OnErr result (memory.new ≡ memory.old) }
        ensures map_err { OnErr result (map.new ≡ map.old) }
    {
        let lent = buffer.ok_or(FileError::NoBuffer)?;
        self.give_buffer(memory, map, lent);
        *buffer = None;
        Ok(lent.space)
    }
}

/// Returns whether a dataspace can have this number of bytes, in whole pages.
fn is_size(bytes: u64) -> bool
    ensures { result ≡ is_valid_size bytes }
{
    bytes != 0 && page_round(bytes).is_some()
}

/// Returns the error of a reply for a refusal of a heap, or of a buffer whose size is valid.
pub fn error_of(refusal: Refusal) -> FileError
    ensures { model_error result ≡ model_error_of refusal }
{
    match refusal {
        Refusal::TooManyChunks => FileError::TooManyChunks,
        Refusal::OutOfCaps => FileError::OutOfCaps,
        _ => FileError::OutOfRam,
    }
}
