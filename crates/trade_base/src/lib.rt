//! The vocabulary that every crate shares: units, keys, refusals, services, and page rounding. All other crates of the
//! machine depend on it. For example, `page_round(1)` returns `Some(4096)`.
#![tactic(auto)]

mod amount;
mod block;
mod id;
mod page;
mod refusal;
mod service;

pub use amount::{read_amount, read_number};
pub use block::{BLOCK_HEADER, FILE_NODE, LEAST_BLOCK, LEAST_LARGE, SLICED_HEADER};
pub use id::{AccountId, Caps, DsId, Ram, Selector, SessionId};
pub use page::{PAGE, page_round, page_rounding_is_least};
pub use refusal::{NoMemory, Refusal};
pub use service::{BuiltInService, SERVICES};
