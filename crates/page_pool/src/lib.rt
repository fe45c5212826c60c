//! A pool of pages of 4096 bytes, over one block of host memory. `dataspace_core` takes its pages here.
//!
//! Each page is zero when `take` returns it; its owner reads and writes it until `give` returns it to the pool. For
//! example, `Pool::boot(Global, 16)` returns a pool of 16 free pages.
#![tactic(auto)]

mod block;
mod bytes;
mod pool;

pub use pool::{PageNo, Pool};
