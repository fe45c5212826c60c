//! The texts of sessions: session arguments, and the requests and replies of the services.
//!
//! `pd_core` parses the arguments, and the services parse requests and write replies. For example,
//! `SessionArgs::read(b"ram_quota=8K, cap_quota=2")` returns arguments with 8192 bytes and 2 capabilities.
#![tactic(auto)]

mod args;
mod buffer;
mod file;
mod file_reply;
mod form;
mod hex_text;
mod log;
mod object;
mod object_form;
mod object_reply;
mod pair;
mod plain;
mod text;

pub use args::SessionArgs;
pub use core_calls::{FileError, ObjectError};
pub use file::FileRequest;
pub use file_reply::FileReply;
pub use log::{LogReply, LogRequest};
pub use object::ObjectRequest;
pub use object_reply::ObjectReply;
