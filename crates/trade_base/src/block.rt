//! Sizes of heap blocks, in bytes.

/// The size of the header of a block in a chunk: 16 bytes. The payload follows the header.
pub const BLOCK_HEADER: u64 = 16;

/// The minimum size of a block in a chunk, with its header: 48 bytes.
pub const LEAST_BLOCK: u64 = 48;

/// The minimum payload, in bytes, that has a dataspace of its own instead of a block in a chunk.
pub const LEAST_LARGE: u64 = 65_536;

/// The size of a sliced block's header: 32 bytes. The payload follows the header.
pub const SLICED_HEADER: u64 = 32;

/// The payload of a file's node, in bytes.
pub const FILE_NODE: u64 = 96;
