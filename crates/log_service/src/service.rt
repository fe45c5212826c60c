//! The log service: its replies to the requests of a session.
ghost use Rattle.std.specs.Prelude.{◌≡◌, [], None};
ghost use Rattle.own_model.specs.LogService.{log_served};
ghost use Rattle.own_model.specs.Session.{Labelled};
ghost use Rattle.own_model.specs.Services.ServiceState.{Logging};
ghost use Rattle.log_service.specs.Session.{lines_text, as_kept, IsSession};
ghost use Rattle.server_frame.proofs.LentLaws.{lends_nothing};
ghost use Rattle.server_frame.specs.Session.{service_step};
ghost use Rattle.server_frame.specs.Memory.{payer_of};

use crate::session::LogSession;
use core_calls::Reply;
use server_frame::{Effect, Memory, RegionMap, Service, SlicedHeap};
use session_proto::{LogReply, LogRequest};
use trade_base::DsId;

/// The log service. It stores nothing except its sessions.
#[derive(Clone, Copy)]
pub struct LogService;

impl LogService {
    /// Answers a request of a session: `OK` with the number of bytes written, or `ERR BAD_REQUEST`. Finished lines are added
    /// to the reply, and the rest of the line remains in the session.
    pub fn answer(&self, session: &mut LogSession, request: &[u8], reply: &mut Reply)
        requires { reply.old.lines ≡ [] }
        ensures session { session.new
            ≡ record session.old {
              partial =
                  (log_served session.old.partial request.now).partial;
            } }
        ensures lines { reply.new.lines
            ≡ lines_text session.old.label (log_served session.old.partial request.now).lines }
        ensures text { reply.new.text ≡ (log_served session.old.partial request.now).reply }
    {
        match LogRequest::read(request) {
            Some(request) => {
                session.write(request.hex, reply);
                LogReply::Wrote(request.hex.len() as u64 / 2).write(reply);
            }
            None => LogReply::BadRequest.write(reply),
        }
    }
}

impl Service for LogService {
    type State = LogSession;

    ghost Value = { Labelled };

    ghost value = { λ service session share. as_kept session };

    ghost buffer = { λ session. None };

    ghost payer = { λ session. payer_of session.heap };

    ghost IsKept = { IsSession };

    ghost first = { λ service label. record { label = label; state = Logging [] } };

    ghost step = { λ service. service_step };

    fn open(&self, heap: SlicedHeap, label: &[u8]) -> LogSession {
        LogSession::open(heap, label)
    }

    fn buffer(&self, _session: &LogSession) -> Option<DsId> {
        None
    }

    fn serve(
        &self,
        session: &mut LogSession,
        _memory: &mut Memory,
        _map: &mut RegionMap,
        request: &[u8],
        reply: &mut Reply,
    ) -> Effect {
        self.answer(session, request, reply);
        Effect::Nothing
    }

    fn end(
        &self,
        session: &mut LogSession,
        _memory: &mut Memory,
        _map: &mut RegionMap,
    ) -> SlicedHeap {
        session.take_heap()
    }

    ghost pays = { λ session account share kept. kept.payer };

    ghost lends_aside = { λ service. lends_nothing };
}
