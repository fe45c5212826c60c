//! The log service: each session has a partial line, and finished lines are printed with the session's label. `init_core`
//! starts its servers and `pd_core` calls them. Example: `Server::boot(alloc, LogService, sessions, pages)?`.
#![tactic(auto)]

mod service;
mod session;

pub use service::LogService;
pub use session::LogSession;
