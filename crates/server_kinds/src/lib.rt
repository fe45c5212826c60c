//! The services: a server of any of them is one value. `init_core` creates the servers and `pd_core` calls them. Example:
//! after `host.open(memory, client, label, ram, caps)?`, the session can be served.
#![tactic(auto)]

mod any_server;

pub use any_server::AnyServer;
pub use file_service::FileService;
pub use log_service::LogService;
pub use object_service::ObjectService;
