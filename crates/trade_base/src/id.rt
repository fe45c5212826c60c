//! Units of quota, and the keys by which crates refer to accounts, dataspaces, sessions and capabilities.

/// An amount of RAM, in bytes.
#[derive(Clone, Copy, PartialEq, Eq, PartialOrd)]
pub struct Ram(pub u64);

/// A number of capabilities.
#[derive(Clone, Copy, PartialEq, Eq, PartialOrd)]
pub struct Caps(pub u32);

/// The key of an account of RAM and capabilities in the books.
#[derive(Clone, Copy, PartialEq, Eq)]
pub struct AccountId(pub usize);

/// The key of a dataspace in the memory.
#[derive(Clone, Copy, PartialEq, Eq)]
pub struct DsId(pub usize);

/// The key of a session in its server's table.
#[derive(Clone, Copy, PartialEq, Eq)]
pub struct SessionId(pub usize);

/// The positive number by which a component names one of its capabilities.
#[derive(Clone, Copy, PartialEq, Eq)]
pub struct Selector(pub u32);
