//! The node of what a session has under a name: a file, or an object.
ghost use Rattle.std.specs.Prelude.{◌≡◌, ℕ, ◌+◌, ◌-◌, ◌*◌, ◌^◌, ◌<◌, ◌++◌, ◌≤◌, length, slice_index};
ghost use Rattle.trade_base.specs.Word.{word_bytes};
ghost use Rattle.own_model.specs.OwnState.{zeros};
ghost use Rattle.session_nodes.specs.Node.{value_of, node_of, bytes_of, name_bytes, rank_by, rank_of, word_from, IsNode};

use arrayvec::ArrayVec;

/// The most bytes of a name.
pub const LONGEST_NAME: usize = 32;

/// The bytes of a node. Its block holds the links of the tree after them, and then the link to the previous node.
pub(crate) const NODE_BYTES: usize = 64;

/// The bytes of a block that a node takes. Words after them are its user's.
pub const NODE_SIZE: usize = 96;

/// The offset of the address of the next node.
pub const NEXT: u64 = 0;

/// The offset of the address of the content, which is followed by the number of its bytes.
pub(crate) const CONTENT: u64 = 8;

/// The offset of the length of the name, which is followed by the name.
pub(crate) const NAME_LENGTH: usize = 24;

const NAME: usize = 32;

/// A node: a name, and the content that belongs to it.
#[derive(Drop)]
pub struct Node {
    /// The address of the next node in the order of creation, or 0.
    pub next: u64,
    /// The address of the content, or 0 if there is none.
    pub content: u64,
    /// The bytes of the content.
    pub size: u64,
    /// The name, of at most 32 bytes.
    pub name: ArrayVec<u8, LONGEST_NAME>,
}

impl Node {
    /// Decodes a node from the bytes at the front of its block.
    pub(crate) fn from_bytes(bytes: &[u8; NODE_BYTES]) -> Node
        ensures value { value_of result ≡ node_of bytes.now }
        ensures node { IsNode (value_of result) }
    {
        let length = word_in(bytes, NAME_LENGTH).min(LONGEST_NAME as u64) as usize;
        let name = copied(&bytes[NAME..NAME + length]);
        Node {
            next: word_in(bytes, 0),
            content: word_in(bytes, 8),
            size: word_in(bytes, 16),
            name,
        }
    }

    /// Encodes the node as bytes, with room for the links after them.
    fn to_bytes(&self) -> ArrayVec<u8, NODE_SIZE>
        ensures bytes { result.items ≡ bytes_of (value_of self.now) }
        ensures len { length result.items ≡ 64 }
        ensures node { IsNode (value_of self.now) }
    {
        let mut bytes = ArrayVec::new();
        append_word(&mut bytes, self.next);
        append_word(&mut bytes, self.content);
        append_word(&mut bytes, self.size);
        append_word(&mut bytes, self.name.len() as u64);
        append(&mut bytes, &self.name);
        append_zeros(&mut bytes, LONGEST_NAME - self.name.len());
        bytes
    }

    /// Encodes the block of a new node, which is linked back to another one and has no links of the tree yet.
    pub(crate) fn to_block(&self, previous: u64) -> ArrayVec<u8, NODE_SIZE>
        ensures bytes { result.items
            ≡ bytes_of (value_of self.now) ++ (zeros 24 ++ word_bytes previous) }
        ensures len { length result.items ≡ 96 }
        ensures node { IsNode (value_of self.now) }
    {
        let mut bytes = self.to_bytes();
        append_zeros(&mut bytes, 24);
        append_word(&mut bytes, previous);
        bytes
    }
}

/// The key by which nodes are ordered in the tree: the length of the name, and the words of its bytes.
#[derive(Clone, Copy)]
pub(crate) struct NameKey {
    pub(crate) words: [u64; 5],
}

impl NameKey {
    /// Returns the key by which the tree orders a name.
    pub(crate) fn of(name: &[u8]) -> NameKey
        requires { length name.now ≤ LONGEST_NAME }
        ensures { rank_by (slice_index result.words) ≡ rank_of name.now }
    {
        let mut bytes = ArrayVec::new();
        append_word(&mut bytes, name.len() as u64);
        append(&mut bytes, name);
        append_zeros(&mut bytes, LONGEST_NAME - name.len());
        let words = [
            word_in(&bytes, 0),
            word_in(&bytes, 8),
            word_in(&bytes, 16),
            word_in(&bytes, 24),
            word_in(&bytes, 32),
        ];
        NameKey { words }
    }
}

/// Encodes a content as bytes: its address, and the number of its bytes.
pub(crate) fn content_bytes(content: u64, size: u64) -> ArrayVec<u8, NODE_SIZE>
    ensures bytes { result.items ≡ word_bytes content ++ word_bytes size }
    ensures len { length result.items ≡ 16 }
    ensures content { content < 2 ^ 64 }
    ensures size { size < 2 ^ 64 }
{
    let mut bytes = ArrayVec::new();
    append_word(&mut bytes, content);
    append_word(&mut bytes, size);
    bytes
}

/// Copies the bytes of a name of at most 32 bytes.
pub fn copied(bytes: &[u8]) -> ArrayVec<u8, LONGEST_NAME>
    requires { length bytes.now ≤ LONGEST_NAME }
    ensures { result.items ≡ bytes.now }
{
    let mut copy = ArrayVec::new();
    let _ = copy.try_extend_from_slice(bytes);
    copy
}

/// Returns the word of 8 bytes at an offset, lowest byte first.
#[tactic(auto, unfolding(trade_base::specs::Word::word_of))]
pub(crate) fn word_in(bytes: &[u8], offset: usize) -> u64
    requires { offset + 8 ≤ length bytes.now }
    ensures { result ≡ word_from bytes.now offset }
{
    let mut word = [0; 8];
    word.copy_from_slice(&bytes[offset..offset + 8]);
    u64::from_le_bytes(word)
}

/// Appends a word of 8 bytes, lowest byte first.
#[tactic(auto, unfolding(trade_base::specs::Word::word_bytes))]
pub(crate) fn append_word(bytes: &mut ArrayVec<u8, NODE_SIZE>, word: u64)
    requires { length bytes.old.items + 8 ≤ 96 }
    ensures items { bytes.new.items ≡ bytes.old.items ++ word_bytes word }
    ensures len { length bytes.new.items ≡ length bytes.old.items + 8 }
{
    append(bytes, &word.to_le_bytes());
}

/// Appends this number of zeros.
fn append_zeros(bytes: &mut ArrayVec<u8, NODE_SIZE>, count: usize)
    requires few { count ≤ 32 }
    requires room { length bytes.old.items + count ≤ 96 }
    ensures items { bytes.new.items ≡ bytes.old.items ++ zeros count }
    ensures len { length bytes.new.items ≡ length bytes.old.items + count }
{
    let zeros = [0; 32];
    append(bytes, &zeros[..count]);
}

/// Appends bytes to the block of a node.
fn append(bytes: &mut ArrayVec<u8, NODE_SIZE>, part: &[u8])
    requires { length bytes.old.items + length part.now ≤ 96 }
    ensures items { bytes.new.items ≡ bytes.old.items ++ part.now }
    ensures len { length bytes.new.items ≡ length bytes.old.items + length part.now }
{
    let _ = bytes.try_extend_from_slice(part);
}
