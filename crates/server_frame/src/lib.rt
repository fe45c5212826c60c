//! The frame of a server: sessions on accounts of their own, below their clients' accounts. `init_core` starts the servers
//! and `pd_core` calls them. Example: `Server::boot(alloc, service, sessions, pages)?` is a server without sessions.
#![tactic(auto)]

mod effect;
mod server;
mod service;
mod session_account;
mod theorems;

pub use core_calls::{LONGEST_LABEL, MOST_LINES, Quotas, Reply};
pub use dataspace_core::Memory;
pub use effect::Effect;
pub use region_map::RegionMap;
pub use server::Server;
pub use service::Service;
pub use sliced_heap::SlicedHeap;
pub use theorems::{lent_bytes_are_the_clients, sessions_find_places};
