//! The calls of a component.

/// A call of a component. Its texts are slices of the line that made it.
#[derive(Clone, Copy)]
pub enum Call<'a> {
    /// Allocates a dataspace for this number of bytes.
    Alloc(u64),
    /// Frees the dataspace that a selector names.
    Free(u64),
    /// Attaches the dataspace that a selector names at the first gap.
    Attach(u64),
    /// Attaches the dataspace that a selector names at an address.
    AttachAt { selector: u64, address: u64 },
    /// Detaches the region that starts at an address.
    Detach(u64),
    /// Reads `count` bytes from an address on.
    Peek { address: u64, count: u64 },
    /// Writes bytes, given in hexadecimal digits, from an address on.
    Poke { address: u64, hex: &'a [u8] },
    /// Allocates an RPC object.
    Capalloc,
    /// Frees the RPC object that a selector names.
    Capfree(u64),
    /// Allocates a block of the heap for this number of bytes.
    New(u64),
    /// Frees the block of the heap whose payload starts at an address.
    Del(u64),
    /// Allocates a sliced block for this number of bytes.
    Snew(u64),
    /// Frees the sliced block whose payload starts at an address.
    Sdel(u64),
    /// Reads the use and the limits of the caller's account.
    Quota,
    /// Reads what the caller has in reserve.
    Reserve,
    /// Moves limits from the reserve to the account, by the amounts in these arguments.
    Request(&'a [u8]),
    /// Moves limits from the account to the reserve, by the amounts in these arguments.
    Yield(&'a [u8]),
    /// Opens a session of the service with these arguments.
    Open { service: &'a [u8], args: &'a [u8] },
    /// Upgrades the donation of the session that a selector names.
    Upgrade { selector: u64, args: &'a [u8] },
    /// Sends a request to the session that a selector names.
    CallSession { selector: u64, request: &'a [u8] },
    /// Closes the session that a selector names.
    Close(u64),
    /// Ends the component and frees all that it has.
    Exit,
}
