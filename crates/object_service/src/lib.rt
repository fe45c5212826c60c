//! The service of a declared server: each session has objects of the kinds that the server offers. The nodes of objects are
//! linked blocks of a heap, and their contents are sliced blocks. `init_core` starts its servers and `pd_core` calls them.
//! Example: `Server::boot(alloc, ObjectService::new(kinds), sessions, pages)?`.
#![tactic(auto)]

mod buffer_requests;
mod counts;
mod object_requests;
mod read_requests;
mod service;
mod session;

pub use service::ObjectService;
pub use session::ObjectSession;
