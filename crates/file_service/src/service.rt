//! The file service: its replies to the requests of a session.
ghost use Rattle.std.specs.Prelude.{◌≡◌, ◌*◌, ◌/◌, ◌≤◌, length, [], Some, None};
ghost use Rattle.own_model.specs.BufferService.{session_request};
ghost use Rattle.own_model.specs.FileText as model;
ghost use Rattle.own_model.specs.FileText.{file_reply};
ghost use Rattle.own_model.specs.FileText.{FileReply as Answered};
ghost use Rattle.own_model.specs.FileText.FileError.{BadRequest};
ghost use Rattle.own_model.specs.FileText.FileReply.{Refused};
ghost use Rattle.own_model.specs.FileText.FileRequest.{Name, Read, Write};
ghost use Rattle.own_model.specs.Offer.Offer.{OffersFiles};
ghost use Rattle.own_model.specs.Session.{Labelled, state_at_first};
ghost use Rattle.own_model.specs.Text.{bytes_of_hex, hex_bytes};
ghost use Rattle.session_nodes.specs.Frame.{account_in, IsOpenIn, payer_of, service_step, Nothing};
ghost use Rattle.file_service.specs.SeparateBuffer.{lends_aside};
ghost use Rattle.session_nodes.specs.SessionHeaps.{stock_of, AreSoundHeaps, KeepsHeaps};
ghost use Rattle.session_nodes.specs.SessionBuffer.{buffer_key, lent_effect, gone_effect};
ghost use Rattle.file_service.specs.Session.{HasFiles, IsReady, IsAnswered, IsTold, Serves, done_reply, counted_reply, lent_reply, served_in, session_served};

use crate::session::{FileRange, FileSession};
use core_calls::Reply;
use session_nodes::{Effect, Memory, RegionMap, Service, SessionHeaps, SlicedHeap};
use session_proto::{FileError, FileReply, FileRequest};
use text_codec::decode_hex;
use trade_base::DsId;

/// The most bytes that a request writes.
const MOST_WRITTEN: usize = 4096;

/// The most bytes that are written through a small buffer, because a large one takes long to clear.
const FEW_WRITTEN: usize = 128;

/// The most bytes that are written through a buffer of medium size.
const MORE_WRITTEN: usize = 1024;

/// The most bytes that a request reads.
const MOST_READ: usize = 1024;

/// The most bytes that are read through a small buffer, because a large one takes long to clear.
const FEW_READ: usize = 128;

/// The file service. It stores nothing except its sessions.
#[derive(Clone, Copy, Drop)]
pub struct FileService;

impl Service for FileService {
    ghost use Rattle.file_service.specs.Session.{value_of, IsSession};

    type State = FileSession;

    ghost Value = { Labelled };

    ghost value = { λ service. value_of };

    ghost buffer = { λ session. buffer_key session.buffer };

    ghost payer = { λ session. payer_of session.nodes.heaps.contents };

    ghost IsKept = { IsSession };

    ghost first = { λ service label. record { label = label; state = state_at_first OffersFiles } };

    ghost step = { λ service. service_step };

    fn open(&self, heap: SlicedHeap, label: &[u8]) -> FileSession {
        FileSession::open(heap, label)
    }

    fn buffer(&self, session: &FileSession) -> Option<DsId> {
        let lent = session.buffer?;
        Some(lent.space)
    }

    fn serve(
        &self,
        session: &mut FileSession,
        memory: &mut Memory,
        map: &mut RegionMap,
        request: &[u8],
        reply: &mut Reply,
    ) -> Effect {
        map.lies_apart();
        answer(session, memory, map, request, reply)
    }

    fn end(
        &self,
        session: &mut FileSession,
        memory: &mut Memory,
        map: &mut RegionMap,
    ) -> SlicedHeap {
        map.lies_apart();
        session.nodes.heaps.give_any(memory, map, session.buffer);
        session.nodes.heaps.end(memory, map)
    }

    ghost pays = { λ session account share kept. kept.heaps.payer };

    ghost lends_aside = { λ service. lends_aside };
}

/// Answers a request of a session and returns its effect on the session's buffer.
fn answer(
    session: &mut FileSession,
    memory: &mut Memory,
    map: &mut RegionMap,
    request: &[u8],
    reply: &mut Reply,
) -> Effect
    requires ready { IsReady session.old memory.old map.old }
    requires reply { reply.old.lines ≡ [] }
    ensures answered { IsAnswered
        (session_served (session_request request.now) session.old memory.old map.old)
        result reply.new session.old session.new
        memory.old memory.new map.old map.new }
{
    let Some(request) = FileRequest::read(request) else {
        return refuse(reply);
    };
    match request {
        FileRequest::Create(name) => reply_done(session.create(memory, map, name), reply),
        FileRequest::Write { file, offset, hex } => {
            reply_count(write(session, memory, map, file, offset, hex), reply);
        }
        FileRequest::Read { file, offset, len } => {
            let range = FileRange { file, offset, len };
            answer_read(session, memory, map, &range, reply);
        }
        FileRequest::Size(name) => reply_count(session.size(memory, map, name), reply),
        FileRequest::Clear(name) => reply_done(session.clear(memory, map, name), reply),
        FileRequest::Drop(name) => reply_done(session.remove(memory, map, name), reply),
        FileRequest::Name(place) => answer_name(session, memory, map, place, reply),
        FileRequest::Stat => answer_stat(&session.nodes.heaps, memory, reply),
        FileRequest::Buffer(bytes) => return reply_lent(session.lend(memory, map, bytes), reply),
        FileRequest::Unbuffer => return reply_gone(session.take_back(memory, map), reply),
        FileRequest::Put {
            file,
            offset,
            place,
            len,
        } => {
            let range = FileRange { file, offset, len };
            reply_count(session.put(memory, map, &range, place), reply);
        }
        FileRequest::Get {
            file,
            offset,
            place,
            len,
        } => {
            let range = FileRange { file, offset, len };
            reply_count(session.get(memory, map, &range, place), reply);
        }
    }
    Effect::Nothing
}

/// Writes the reply to a text that is no request, and returns that the buffer is unchanged.
fn refuse(reply: &mut Reply) -> Effect
    ensures told { reply.new ≡ record reply.old { text = file_reply (Refused BadRequest) } }
    ensures effect { result ≡ Nothing }
{
    FileReply::Refused(FileError::BadRequest).write(reply);
    Effect::Nothing
}

/// Writes the reply with the bytes that a file has in a range, or with the error.
fn answer_read(
    session: &FileSession,
    memory: &mut Memory,
    map: &RegionMap,
    range: &FileRange<'_>,
    reply: &mut Reply,
)
    requires furnished { AreSoundHeaps session.now.nodes.heaps memory.old map.now }
    requires files { HasFiles session.now (stock_of session.now.nodes.heaps memory.old map.now) }
    ensures told { (answer : Answered)
        × ((IsTold (Read range.now.file.now range.now.offset range.now.len) answer session.now
        (stock_of session.now.nodes.heaps memory.old map.now))
        × (reply.new ≡ record reply.old { text = file_reply answer })) }
    ensures memory { memory.new ≡ memory.old }
{
    if range.len <= FEW_READ as u64 {
        answer_read_by::<FEW_READ>(session, memory, map, range, reply);
    } else {
        answer_read_by::<MOST_READ>(session, memory, map, range, reply);
    }
}

/// Writes the same reply through a buffer of `N` bytes. It is not inlined, because each request would clear its buffer.
#[inline(never)]
fn answer_read_by<const N: usize>(
    session: &FileSession,
    memory: &mut Memory,
    map: &RegionMap,
    range: &FileRange<'_>,
    reply: &mut Reply,
)
    requires few { range.now.len ≤ MOST_READ → range.now.len ≤ N }
    requires small { N ≤ MOST_READ }
    requires furnished { AreSoundHeaps session.now.nodes.heaps memory.old map.now }
    requires files { HasFiles session.now (stock_of session.now.nodes.heaps memory.old map.now) }
    ensures told { (answer : Answered)
        × ((IsTold (Read range.now.file.now range.now.offset range.now.len) answer session.now
        (stock_of session.now.nodes.heaps memory.old map.now))
        × (reply.new ≡ record reply.old { text = file_reply answer })) }
    ensures memory { memory.new ≡ memory.old }
{
    let mut buffer = [0; N];
    match session.read(memory, map, range, &mut buffer) {
        Ok(count) => FileReply::Bytes(&buffer[..count]).write(reply),
        Err(error) => FileReply::Refused(error).write(reply),
    }
}

/// Writes the bytes that hexadecimal digits denote over a file's from an offset on, and returns their number.
fn write(
    session: &mut FileSession,
    memory: &mut Memory,
    map: &mut RegionMap,
    file: &[u8],
    offset: u64,
    hex: &[u8],
) -> Result<u64, FileError>
    requires hex { bytes_of_hex hex.now ≡ Some (hex_bytes hex.now) }
    requires few { length hex.now ≤ 2 * MOST_WRITTEN }
    requires furnished { AreSoundHeaps session.old.nodes.heaps memory.old map.old }
    requires files { HasFiles session.old (stock_of session.old.nodes.heaps memory.old map.old) }
    ensures serves { Serves
        (served_in (Write file.now offset (hex_bytes hex.now)) session.old
        (stock_of session.old.nodes.heaps memory.old map.old))
        (counted_reply result) session.old session.new
        (stock_of session.new.nodes.heaps memory.new map.new) }
    ensures keeps { KeepsHeaps session.old.nodes.heaps session.new.nodes.heaps
        memory.old memory.new map.old map.new }
{
    if hex.len() <= 2 * FEW_WRITTEN {
        write_by::<FEW_WRITTEN>(session, memory, map, file, offset, hex)
    } else if hex.len() <= 2 * MORE_WRITTEN {
        write_by::<MORE_WRITTEN>(session, memory, map, file, offset, hex)
    } else {
        write_by::<MOST_WRITTEN>(session, memory, map, file, offset, hex)
    }
}

/// Writes the same bytes through a buffer of `N` bytes. It is not inlined, because each request would clear its buffer.
#[tactic(auto, using(text_codec::proofs::HexLemmas::decodings))]
#[inline(never)]
fn write_by<const N: usize>(
    session: &mut FileSession,
    memory: &mut Memory,
    map: &mut RegionMap,
    file: &[u8],
    offset: u64,
    hex: &[u8],
) -> Result<u64, FileError>
    requires hex { bytes_of_hex hex.now ≡ Some (hex_bytes hex.now) }
    requires few { length hex.now ≤ 2 * N }
    requires small { N ≤ MOST_WRITTEN }
    requires furnished { AreSoundHeaps session.old.nodes.heaps memory.old map.old }
    requires files { HasFiles session.old (stock_of session.old.nodes.heaps memory.old map.old) }
    ensures serves { Serves
        (served_in (Write file.now offset (hex_bytes hex.now)) session.old
        (stock_of session.old.nodes.heaps memory.old map.old))
        (counted_reply result) session.old session.new
        (stock_of session.new.nodes.heaps memory.new map.new) }
    ensures keeps { KeepsHeaps session.old.nodes.heaps session.new.nodes.heaps
        memory.old memory.new map.old map.new }
{
    let mut buffer = [0; N];
    let bytes = &mut buffer[..hex.len() / 2];
    decode_hex(hex, bytes);
    session.write(memory, map, file, offset, bytes)
}

/// Writes the reply with the name of the file at a place in the order of creation, or that there are no more.
fn answer_name(
    session: &mut FileSession,
    memory: &mut Memory,
    map: &RegionMap,
    place: u64,
    reply: &mut Reply,
)
    requires furnished { AreSoundHeaps session.old.nodes.heaps memory.old map.now }
    requires files { HasFiles session.old (stock_of session.old.nodes.heaps memory.old map.now) }
    ensures told { (answer : Answered)
        × ((Serves (served_in (Name place) session.old
        (stock_of session.old.nodes.heaps memory.old map.now)) answer session.old session.new
        (stock_of session.new.nodes.heaps memory.new map.now))
        × (reply.new ≡ record reply.old { text = file_reply answer })) }
    ensures heaps { session.new.nodes.heaps ≡ session.old.nodes.heaps }
    ensures memory { memory.new ≡ memory.old }
{
    match session.file_at(memory, map, place) {
        Some(node) => FileReply::Named(&node.name).write(reply),
        None => FileReply::Refused(FileError::End).write(reply),
    }
}

/// Writes the reply with use and limits of the session's account.
fn answer_stat(heaps: &SessionHeaps, memory: &Memory, reply: &mut Reply)
    requires open { IsOpenIn memory.now (payer_of heaps.now.contents) }
    ensures { reply.new ≡ record reply.old {
      text = file_reply (model.FileReply.Quotas
          (account_in memory.now (payer_of heaps.now.contents)));
    } }
{
    FileReply::Quotas(heaps.quotas(memory)).write(reply);
}

/// Writes the reply of a request that is done or refused.
fn reply_done(outcome: Result<(), FileError>, reply: &mut Reply)
    ensures { reply.new ≡ record reply.old {
      text = file_reply (done_reply outcome);
    } }
{
    match outcome {
        Ok(()) => FileReply::Done.write(reply),
        Err(error) => FileReply::Refused(error).write(reply),
    }
}

/// Writes the reply with a count, or with the error.
fn reply_count(outcome: Result<u64, FileError>, reply: &mut Reply)
    ensures { reply.new ≡ record reply.old {
      text = file_reply (counted_reply outcome);
    } }
{
    match outcome {
        Ok(count) => FileReply::Count(count).write(reply),
        Err(error) => FileReply::Refused(error).write(reply),
    }
}

/// Writes the reply of a created buffer, or the error, and returns the effect on the buffer. The selector is appended later.
fn reply_lent(outcome: Result<DsId, FileError>, reply: &mut Reply) -> Effect
    ensures told { reply.new ≡ record reply.old {
      text = file_reply (lent_reply outcome);
    } }
    ensures effect { result ≡ lent_effect outcome }
{
    match outcome {
        Ok(space) => {
            FileReply::Lent.write(reply);
            Effect::Buffer(space)
        }
        Err(error) => {
            FileReply::Refused(error).write(reply);
            Effect::Nothing
        }
    }
}

/// Writes the reply of a freed buffer, or the error, and returns the effect on the buffer.
fn reply_gone(outcome: Result<DsId, FileError>, reply: &mut Reply) -> Effect
    ensures told { reply.new ≡ record reply.old {
      text = file_reply (done_reply outcome);
    } }
    ensures effect { result ≡ gone_effect outcome }
{
    match outcome {
        Ok(space) => {
            FileReply::Done.write(reply);
            Effect::Gone(space)
        }
        Err(error) => {
            FileReply::Refused(error).write(reply);
            Effect::Nothing
        }
    }
}
