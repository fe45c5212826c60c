//! The capabilities that selectors name.

use trade_base::{DsId, Selector, SessionId};

/// A capability: the right to use the named object.
#[derive(Clone, Copy, PartialEq, Eq)]
pub enum Cap {
    /// A dataspace.
    Dataspace(DsId),
    /// An RPC object: one capability without memory.
    RpcObject,
    /// A session, denoted by its server's entry in the start list and its key in the server's table.
    Session { server: usize, session: SessionId },
    /// The buffer that the client shares with a session, denoted by its dataspace and the session's selector.
    Buffer { space: DsId, session: Selector },
}
