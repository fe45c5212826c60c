//! The replies of the file service.
ghost use Rattle.std.specs.Prelude.{◌≡◌, ◌≤◌};
ghost use Rattle.own_model.specs.FileText.{file_reply};
ghost use Rattle.session_proto.specs.FileReply.{model_reply, room_for};

use core_calls::{FileError, Quotas, Reply};

/// The reply of the file service to a request.
#[derive(Clone, Copy)]
pub enum FileReply<'a> {
    /// The request succeeded.
    Done,
    /// The request succeeded with a number of bytes.
    Count(u64),
    /// The bytes that were read.
    Bytes(&'a [u8]),
    /// The name of a file.
    Named(&'a [u8]),
    /// Use and limit of the session's account.
    Quotas(Quotas),
    /// A buffer was created; its selector is appended later.
    Lent,
    /// The request failed with this error.
    Refused(FileError),
}

impl<'a> FileReply<'a> {
    /// Writes this reply after the log lines of `reply`, which has enough capacity.
    pub fn write(self, reply: &mut Reply)
        requires { room_for self ≤ 2100 }
        ensures { reply.new ≡ record reply.old { text = file_reply (model_reply self.entry) } }
    {
        match self {
            FileReply::Done => reply.serve_done(),
            FileReply::Count(count) => reply.serve_count(count),
            FileReply::Bytes(bytes) => reply.serve_bytes(bytes),
            FileReply::Named(name) => reply.serve_name(name),
            FileReply::Quotas(quotas) => reply.serve_quotas(quotas),
            FileReply::Lent => reply.serve_buffer(),
            FileReply::Refused(error) => reply.serve_error(error),
        }
    }
}
