//! The service of a declared server: its replies to the requests of a session.
ghost use Rattle.std.specs.Prelude.{◌≡◌, [], List};
ghost use Rattle.own_model.specs.ObjectKinds.{ObjectKind as ModelKind, AreObjectKinds};
ghost use Rattle.own_model.specs.ObjectSession.{holding_request};
ghost use Rattle.own_model.specs.ObjectText as model;
ghost use Rattle.own_model.specs.ObjectText.{object_reply};
ghost use Rattle.own_model.specs.ObjectText.{ObjectReply as Answered};
ghost use Rattle.own_model.specs.ObjectText.ObjectReply.{Done, Lent};
ghost use Rattle.own_model.specs.ObjectText.ObjectRequest.{Name};
ghost use Rattle.session_nodes.specs.Frame.{account_in, IsOpenIn, payer_of};
ghost use Rattle.session_nodes.specs.SessionBuffer.{lent_effect, gone_effect};
ghost use Rattle.session_nodes.specs.SessionHeaps.{stock_of, AreSoundHeaps};
ghost use Rattle.object_service.specs.Session.{HasObjects, IsReady, IsAnswered, Serves, buffer_reply, counted_reply, done_reply, served_in, session_served};

use crate::read_requests::name_of;
use crate::session::ObjectSession;
use core_calls::Reply;
use object_kinds::ObjectKind;
use session_nodes::{Effect, Memory, RegionMap, Service, SessionHeaps, SlicedHeap};
use session_proto::{FileError, ObjectError, ObjectReply, ObjectRequest};
use std::marker::Model;
use trade_base::DsId;

/// The service of a declared server, as the kinds that it offers. It stores nothing except these and its sessions.
#[derive(Drop)]
pub struct ObjectService {
    kinds: Vec<ObjectKind>,
}

impl Model for ObjectService {
    ghost use Rattle.std.specs.Prelude.{List};
    ghost use Rattle.own_model.specs.ObjectKinds.{ObjectKind as ModelKind, AreObjectKinds};

    ghost Value = { List ModelKind };

    ghost view = { λ service. service.kinds.items };

    ghost invariant = { λ service. AreObjectKinds service.kinds.items };
}

impl ObjectService {
    /// Returns a service that offers these kinds, which a start list can declare.
    pub fn new(kinds: Vec<ObjectKind>) -> ObjectService
        requires { AreObjectKinds kinds.items }
        ensures { result ≡ kinds.items }
    {
        ObjectService { kinds }
    }

    /// Returns the kinds that the service offers.
    pub fn kinds(&self) -> &[ObjectKind]
        ensures { result.now ≡ self.now }
    {
        self.kinds.as_slice()
    }
}

impl Service for ObjectService {
    ghost use Rattle.std.specs.Prelude.{◌≡◌};
    ghost use Rattle.own_model.specs.Offer.Offer.{OffersObjects};
    ghost use Rattle.own_model.specs.Session.{Labelled, state_at_first};
    ghost use Rattle.session_nodes.specs.Frame.{service_step, payer_of};
    ghost use Rattle.session_nodes.specs.SessionBuffer.{buffer_key};
    ghost use Rattle.object_service.specs.SeparateBuffer.{lends_aside};
    ghost use Rattle.object_service.specs.Session.{value_of, IsSession};

    type State = ObjectSession;

    ghost Value = { Labelled };

    ghost value = { λ kinds. value_of kinds };

    ghost buffer = { λ session. buffer_key session.buffer };

    ghost payer = { λ session. payer_of session.nodes.heaps.contents };

    ghost IsKept = { IsSession };

    ghost first = { λ kinds label. record {
      label = label;
      state = state_at_first (OffersObjects kinds);
    } };

    ghost step = { λ kinds. service_step };

    fn open(&self, heap: SlicedHeap, label: &[u8]) -> ObjectSession {
        ObjectSession::open(heap, label)
    }

    fn buffer(&self, session: &ObjectSession) -> Option<DsId> {
        let lent = session.buffer?;
        Some(lent.space)
    }

    fn serve(
        &self,
        session: &mut ObjectSession,
        memory: &mut Memory,
        map: &mut RegionMap,
        request: &[u8],
        reply: &mut Reply,
    ) -> Effect {
        map.lies_apart();
        answer(&self.kinds, session, memory, map, request, reply)
    }

    fn end(
        &self,
        session: &mut ObjectSession,
        memory: &mut Memory,
        map: &mut RegionMap,
    ) -> SlicedHeap {
        map.lies_apart();
        session.nodes.heaps.give_any(memory, map, session.buffer);
        session.nodes.heaps.end(memory, map)
    }

    ghost pays = { λ session account share kept. kept.heaps.payer };

    ghost lends_aside = { λ kinds. lends_aside kinds };
}

/// Answers a request of a session and returns its effect on the session's buffer.
fn answer(
    kinds: &[ObjectKind],
    session: &mut ObjectSession,
    memory: &mut Memory,
    map: &mut RegionMap,
    request: &[u8],
    reply: &mut Reply,
) -> Effect
    requires kinds { AreObjectKinds kinds.now }
    requires ready { IsReady session.old memory.old map.old }
    requires reply { reply.old.lines ≡ [] }
    ensures answered { IsAnswered kinds.now
        (session_served kinds.now (holding_request request.now) session.old memory.old map.old)
        result reply.new session.old session.new
        memory.old memory.new map.old map.new }
{
    match ObjectRequest::read(request) {
        None => ObjectReply::Refused(ObjectError::Shared(FileError::BadRequest)).write(reply),
        Some(ObjectRequest::Make { kind, name }) => {
            reply_done(session.make(memory, map, kinds, kind, name), reply);
        }
        Some(ObjectRequest::Resize { name, units }) => {
            reply_done(session.resize(memory, map, name, units), reply);
        }
        Some(ObjectRequest::Drop(name)) => reply_done(session.remove(memory, map, name), reply),
        Some(ObjectRequest::Count) => ObjectReply::Counted(session.count()).write(reply),
        Some(ObjectRequest::CountKind(kind)) => {
            reply_count(session.count_kind(kinds, kind), reply);
        }
        Some(ObjectRequest::Name(place)) => {
            answer_name(kinds, session, memory, map, place, reply);
        }
        Some(ObjectRequest::Stat) => answer_stat(&session.nodes.heaps, memory, reply),
        Some(ObjectRequest::Buffer(bytes)) => {
            return reply_lent(session.lend(memory, map, bytes), reply);
        }
        Some(ObjectRequest::Unbuffer) => return reply_gone(session.take_back(memory, map), reply),
    }
    Effect::Nothing
}

/// Writes the reply with kind, name and units of the object at a place in the order of creation, or that there are no more.
fn answer_name(
    kinds: &[ObjectKind],
    session: &mut ObjectSession,
    memory: &mut Memory,
    map: &RegionMap,
    place: u64,
    reply: &mut Reply,
)
    requires furnished { AreSoundHeaps session.old.nodes.heaps memory.old map.now }
    requires objects { HasObjects session.old (stock_of session.old.nodes.heaps memory.old map.now) }
    ensures told { (answer : Answered)
        × ((Serves kinds.now (served_in kinds.now (Name place) session.old
        (stock_of session.old.nodes.heaps memory.old map.now)) answer session.old session.new
        (stock_of session.new.nodes.heaps memory.new map.now))
        × (reply.new ≡ record reply.old { text = object_reply answer })) }
    ensures heaps { session.new.nodes.heaps ≡ session.old.nodes.heaps }
    ensures memory { memory.new ≡ memory.old }
{
    match session.object_at(memory, map, place) {
        Some(found) => {
            let kind = name_of(kinds, found.number);
            let name = &found.node.name;
            let units = found.units;
            ObjectReply::Named { kind, name, units }.write(reply);
        }
        None => ObjectReply::Refused(ObjectError::Shared(FileError::End)).write(reply),
    }
}

/// Writes the reply with use and limits of the session's account.
fn answer_stat(heaps: &SessionHeaps, memory: &Memory, reply: &mut Reply)
    requires open { IsOpenIn memory.now (payer_of heaps.now.contents) }
    ensures { reply.new ≡ record reply.old {
      text = object_reply (model.ObjectReply.Quotas
          (account_in memory.now (payer_of heaps.now.contents)));
    } }
{
    ObjectReply::Quotas(heaps.quotas(memory)).write(reply);
}

/// Writes the reply of a request that is done or refused.
fn reply_done(outcome: Result<(), ObjectError>, reply: &mut Reply)
    ensures { reply.new ≡ record reply.old {
      text = object_reply (done_reply outcome);
    } }
{
    match outcome {
        Ok(()) => ObjectReply::Done.write(reply),
        Err(error) => ObjectReply::Refused(error).write(reply),
    }
}

/// Writes the reply with a number of objects, or with the error.
fn reply_count(outcome: Result<u64, ObjectError>, reply: &mut Reply)
    ensures { reply.new ≡ record reply.old {
      text = object_reply (counted_reply outcome);
    } }
{
    match outcome {
        Ok(count) => ObjectReply::Counted(count).write(reply),
        Err(error) => ObjectReply::Refused(error).write(reply),
    }
}

/// Writes the reply of a created buffer, or the error, and returns the effect on the buffer. The selector is appended later.
fn reply_lent(outcome: Result<DsId, FileError>, reply: &mut Reply) -> Effect
    ensures told { reply.new ≡ record reply.old {
      text = object_reply (buffer_reply Lent outcome);
    } }
    ensures effect { result ≡ lent_effect outcome }
{
    match outcome {
        Ok(space) => {
            ObjectReply::Lent.write(reply);
            Effect::Buffer(space)
        }
        Err(error) => {
            ObjectReply::Refused(ObjectError::Shared(error)).write(reply);
            Effect::Nothing
        }
    }
}

/// Writes the reply of a freed buffer, or the error, and returns the effect on the buffer.
fn reply_gone(outcome: Result<DsId, FileError>, reply: &mut Reply) -> Effect
    ensures told { reply.new ≡ record reply.old {
      text = object_reply (buffer_reply Done outcome);
    } }
    ensures effect { result ≡ gone_effect outcome }
{
    match outcome {
        Ok(space) => {
            ObjectReply::Done.write(reply);
            Effect::Gone(space)
        }
        Err(error) => {
            ObjectReply::Refused(ObjectError::Shared(error)).write(reply);
            Effect::Nothing
        }
    }
}
