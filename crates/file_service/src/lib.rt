//! The file service: each session has files, whose nodes are linked blocks of a heap and whose contents are sliced blocks.
//! `init_core` starts its servers and `pd_core` calls them. Example: `Server::boot(alloc, FileService, sessions, pages)?`.
#![tactic(auto)]

mod buffer_requests;
mod file_requests;
mod read_requests;
mod service;
mod session;

pub use service::FileService;
pub use session::FileSession;
