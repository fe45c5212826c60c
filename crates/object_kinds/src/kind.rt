//! A kind of objects: its name, the bytes of a block, and the bytes of a unit.
ghost use Rattle.std.specs.Prelude.{◌≡◌, ◌≤◌, length, IfOk};

use arrayvec::ArrayString;
use std::alloc::{AllocError, Global};
use std::marker::Model;
use text_codec::LONGEST_NAME;

/// The most kinds of a server.
pub const MOST_KINDS: usize = 16;

/// The minimum of bytes by which the block of an object is requested: the block has the object's node.
pub const LEAST_BLOCK: u16 = 112;

/// A kind of objects.
#[derive(Drop)]
pub struct ObjectKind {
    name: ArrayString<LONGEST_NAME>,
    block: u16,
    bytes: u16,
}

impl Model for ObjectKind {
    ghost use Rattle.own_model.specs.ObjectKinds as model;

    ghost Value = { model.ObjectKind };

    ghost view = { λ kind. record {
      name = kind.name.bytes;
      block = kind.block;
      bytes = kind.bytes;
    } };
}

impl ObjectKind {
    /// Returns the kind of a name, of at most 32 bytes, whose objects each request a block of `block` bytes and have
    /// `bytes` bytes of contents a unit.
    pub fn new(name: &str, block: u16, bytes: u16) -> ObjectKind
        requires { length name.now ≤ LONGEST_NAME }
        ensures { result ≡ record { name = name.now; block = block; bytes = bytes } }
    {
        let mut text = ArrayString::new();
        text.push_str(name);
        ObjectKind {
            name: text,
            block,
            bytes,
        }
    }

    /// Returns the name of the kind, of at most 32 bytes.
    pub fn name(&self) -> &str
        ensures text { result.now ≡ self.now.name }
        ensures short { length result.now ≤ 32 }
    {
        self.name.as_str()
    }

    /// Returns the number of bytes by which each object's block is requested.
    pub fn block(&self) -> u16
        ensures { result ≡ self.now.block }
    {
        self.block
    }

    /// Returns the number of bytes of contents of a unit.
    pub fn bytes(&self) -> u16
        ensures { result ≡ self.now.bytes }
    {
        self.bytes
    }

    /// Copies the kind into a new value of its own.
    pub fn copy(&self) -> ObjectKind
        ensures { result ≡ self.now }
    {
        ObjectKind {
            name: self.name,
            block: self.block,
            bytes: self.bytes,
        }
    }
}

/// Copies kinds. Returns an error if the host is out of memory.
pub fn copy_kinds(alloc: Global, kinds: &[ObjectKind]) -> Result<Vec<ObjectKind>, AllocError>
    ensures { IfOk result (λ copies. copies.items ≡ kinds.now) }
{
    let mut copies = Vec::new(alloc);
    for kind in kinds {
        copies.push(kind.copy())?;
    }
    Ok(copies)
}
