//! The requests and replies of the log service.
ghost use Rattle.std.specs.Prelude.{◌≡◌, None, Some, IfSome, IfNone, IsSome};
ghost use Rattle.own_model.specs.Text.{bytes_of_hex, hex_bytes};
ghost use Rattle.own_model.specs.LogText.{log_request};
ghost use Rattle.session_proto.specs.LogReply.{log_reply_text};

use crate::hex_text::hex_or_nothing;
use core_calls::{FileError, Reply};
use text_codec::split_first_word;

/// The maximum number of bytes of a request.
pub(crate) const LONGEST_REQUEST: usize = 8192;

/// A request to write bytes, given as hexadecimal digits of either case, two for each byte.
#[derive(Clone, Copy)]
pub struct LogRequest<'a> {
    pub hex: &'a [u8],
}

impl<'a> LogRequest<'a> {
    /// Parses a request, or returns `None` if the text is longer than 8192 bytes or has another form.
    pub fn read(text: &'a [u8]) -> Option<LogRequest<'a>>
        ensures bytes { IfSome result
            (λ request. log_request text.now ≡ Some (hex_bytes request.hex.now)) }
        ensures hex { IfSome result (λ request. IsSome (bytes_of_hex request.hex.now)) }
        ensures none { IfNone result (log_request text.now ≡ None) }
    {
        if text.len() > LONGEST_REQUEST {
            return None;
        }
        let (form, hex) = split_first_word(text);
        if form != b"WRITE".as_slice() {
            return None;
        }
        let Some(hex) = hex_or_nothing(hex) else {
            return None;
        };
        Some(LogRequest { hex })
    }
}

/// The reply of the log service to a request.
#[derive(Clone, Copy)]
pub enum LogReply {
    /// This number of bytes was written.
    Wrote(u64),
    /// The text is not a request.
    BadRequest,
}

impl LogReply {
    /// Writes this reply after the log lines of `reply`.
    pub fn write(self, reply: &mut Reply)
        ensures { reply.new ≡ record reply.old { text = log_reply_text self } }
    {
        match self {
            LogReply::Wrote(count) => reply.serve_count(count),
            LogReply::BadRequest => reply.serve_error(FileError::BadRequest),
        }
    }
}
