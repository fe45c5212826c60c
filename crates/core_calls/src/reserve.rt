//! The reserve of a component, in addition to its account.

use trade_base::{Caps, Ram};

/// The reserve of a component: limits of which nothing is in use.
#[derive(Clone, Copy)]
pub struct Reserve {
    /// Bytes of RAM.
    pub ram: Ram,
    /// Capabilities.
    pub caps: Caps,
}
