//! A block of host memory: initialized bytes, followed by uninitialized space. No other module holds a pointer.
ghost use Rattle.std.specs.Prelude.{◌≡◌, ℕ, List, ◌-◌, ◌^◌, ◌<◌, ◌≤◌, ◌++◌, [], length, replicate, IfSome};
ghost use Rattle.std.specs.Borrow.{sem};
ghost use denote.RawPtr.{Ptr};
ghost use Rattle.page_pool.specs.Ownership.{block_owns, block_shares, bytes_of};

use std::alloc::Allocator;
use std::marker::{Model, PhantomData};
use std::slice;

/// A host memory block of `size` bytes, of which the first `len` are initialized.
pub(crate) struct HostBlock {
    ptr: *mut u8,
    len: usize,
    size: usize,
    ghost bytes: { List ℕ },
    ghost fits: { (len ≤ size) × (size < 2 ^ 63) },
}

impl Model for HostBlock {
    ghost also_owns = { λ b. block_owns b.ptr b.len b.size b.bytes };

    ghost also_shares = { λ b _ κ. block_shares b.ptr b.len b.bytes κ };
}

/// The right to return the `size` bytes at `ptr` to the allocator that allocated them.
pub(crate) struct Lease<A: Allocator> {
    marker: PhantomData<A>,
    ghost alloc: { A },
    ghost ptr: { Ptr },
    ghost size: { ℕ },
}

impl<A: Allocator> Model for Lease<A> {
    ghost also_owns = { λ l. A.dealloc_token l.alloc (bytes_of l.size) l.ptr };
}

impl HostBlock {
    ghost use Rattle.page_pool.specs.Lends.{LendsBytes};

    /// Allocates a block of `size` bytes, none of them initialized, or returns `None` if the host has too little memory.
    pub(crate) fn new<A: Allocator>(alloc: &A, size: usize) -> Option<(HostBlock, Lease<A>)>
        requires { size < 2 ^ 63 }
        ensures { IfSome result (λ m. (m.0.size ≡ size) × (m.0.len ≡ 0) × (m.0.bytes ≡ [])
            × (m.1.alloc ≡ alloc.now) × (m.1.ptr ≡ m.0.ptr) × (m.1.size ≡ size)) }
    {
        match alloc.allocate(size, 1) {
            Ok(ptr) => {
                let marker = PhantomData;
                Some((HostBlock { ptr, len: 0, size }, Lease { marker }))
            }
            Err(_) => None,
        }
    }

    /// Returns the initialized bytes of the block.
    pub(crate) fn bytes(&self) -> &[u8]
        ensures value { result.now ≡ self.now.bytes }
        ensures len { length result.now ≡ self.now.len }
    {
        unsafe { slice::from_raw_parts(self.ptr, self.len) }
    }

    /// Returns the initialized bytes of the block for writing.
    pub(crate) fn bytes_mut(&mut self) -> &mut [u8]
        ensures* writes_back { sem 𝓛 (LendsBytes self.entry result) }
        ensures value { result.now ≡ self.old.bytes }
        ensures len { length result.now ≡ self.old.len }
    {
        unsafe { slice::from_raw_parts_mut(self.ptr, self.len) }
    }

    /// Writes zeros to the uninitialized space up to `end`, so that the first `end` bytes are initialized.
    pub(crate) fn grow(&mut self, end: usize)
        requires { (self.old.len ≤ end) × (end ≤ self.old.size) }
        ensures { (self.new.ptr ≡ self.old.ptr) × (self.new.size ≡ self.old.size)
            × (self.new.len ≡ end)
            × (self.new.bytes ≡ self.old.bytes ++ replicate (end - self.old.len) 0) }
    {
        let ptr = self.ptr;
        let mut next = self.len;
        while next < end {
            unsafe { *ptr.add(next) = 0 };
            next += 1;
        }
        self.len = end;
    }

    /// Returns the block's memory to the allocator of the host.
    pub(crate) fn free<A: Allocator>(self, lease: Lease<A>, alloc: &A)
        requires { (lease.alloc ≡ alloc.now) × (lease.ptr ≡ self.ptr) × (lease.size ≡ self.size) }
    {
        let HostBlock { ptr, len: _, size } = self;
        let Lease { marker: _ } = lease;
        unsafe { alloc.deallocate(ptr, size, 1) }
    }
}
