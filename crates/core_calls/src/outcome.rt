//! The outcome of a call, as a value.

use crate::file_error::FileError;
use crate::quotas::Quotas;
use crate::reserve::Reserve;
use trade_base::{Refusal, Selector};

/// The outcome of a call. The reply's text is its rendering; only the text has the bytes and names that were read.
#[derive(Clone, Copy)]
pub enum Outcome {
    /// A new capability has this selector.
    Selected(Selector),
    /// A new region or block starts at this address.
    Attached(u64),
    /// Bytes of the caller's memory were read.
    Bytes,
    /// The call is done.
    Done,
    /// The use and the limits of the caller's account.
    Quotas(Quotas),
    /// What the caller has in reserve.
    Reserved(Reserve),
    /// A service replied to a request.
    Served(ServiceOutcome),
    /// The call is refused and changed nothing.
    Refused(Refusal),
}

/// The outcome of a request to a service.
#[derive(Clone, Copy)]
pub enum ServiceOutcome {
    /// The request is done.
    Done,
    /// The number of bytes that were written, or of objects.
    Count(u64),
    /// At least one byte of a file was read.
    Bytes,
    /// A file's name.
    Name,
    /// An object's kind, name and units.
    Object,
    /// Use and limits of the session's account.
    Quotas(Quotas),
    /// A buffer was created. The selector is missing until the client has one.
    Lent(Option<Selector>),
    /// The request is refused.
    Refused(FileError),
    /// The request is refused, because the server offers no kind of the name.
    BadKind,
}
