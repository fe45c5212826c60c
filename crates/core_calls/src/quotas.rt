//! Use and limits of an account, as replies print them.

use trade_base::{Caps, Ram};

/// The use and the limits of an account.
#[derive(Clone, Copy)]
pub struct Quotas {
    /// Bytes of RAM in use.
    pub ram_used: Ram,
    /// The most bytes of RAM that can be in use.
    pub ram_limit: Ram,
    /// Capabilities in use.
    pub caps_used: Caps,
    /// The most capabilities that can be in use.
    pub caps_limit: Caps,
}
