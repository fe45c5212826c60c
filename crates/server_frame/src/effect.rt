//! The effect of a request on the buffer that a session shares with its client.

use trade_base::DsId;

/// The effect of a request on a session's buffer, a dataspace of the session's account that its client may attach.
#[derive(Clone, Copy)]
pub enum Effect {
    /// The session's buffer, if any, is the same as before.
    Nothing,
    /// The session had no buffer and has this dataspace now.
    Buffer(DsId),
    /// The session had this dataspace as its buffer and has none now.
    Gone(DsId),
}
