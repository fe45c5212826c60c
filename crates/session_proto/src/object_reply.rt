//! The replies of declared servers.
ghost use Rattle.std.specs.Prelude.{◌≡◌, ◌≤◌};
ghost use Rattle.own_model.specs.ObjectText.{object_reply};
ghost use Rattle.session_proto.specs.ObjectReply.{model_reply, room_for};

use core_calls::{ObjectError, Quotas, Reply};

/// The reply of a declared server to a request.
#[derive(Clone, Copy)]
pub enum ObjectReply<'a> {
    /// The request succeeded.
    Done,
    /// The number of objects.
    Counted(u64),
    /// An object's kind, name and units.
    Named {
        kind: &'a [u8],
        name: &'a [u8],
        units: u64,
    },
    /// Use and limit of the session's account.
    Quotas(Quotas),
    /// A buffer was created; its selector is appended later.
    Lent,
    /// The request failed with this error.
    Refused(ObjectError),
}

impl<'a> ObjectReply<'a> {
    /// Writes this reply after the log lines of `reply`, which has enough capacity.
    pub fn write(self, reply: &mut Reply)
        requires { room_for self ≤ 2100 }
        ensures { reply.new ≡ record reply.old { text = object_reply (model_reply self.entry) } }
    {
        match self {
            ObjectReply::Done => reply.serve_done(),
            ObjectReply::Counted(count) => reply.serve_count(count),
            ObjectReply::Named { kind, name, units } => reply.serve_object(kind, name, units),
            ObjectReply::Quotas(quotas) => reply.serve_quotas(quotas),
            ObjectReply::Lent => reply.serve_buffer(),
            ObjectReply::Refused(error) => reply.serve_object_error(error),
        }
    }
}
