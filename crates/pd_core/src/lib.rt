//! The core: the components, and what their calls do to the machine. `init_core` boots it and `run_lines` calls it for
//! each line. Example: `core.step(component, Call::Alloc(4096), &mut reply)`.
#![tactic(auto)]

mod accounts;
mod bytes;
mod call_value;
mod component;
mod exit;
mod machine;
mod release;
mod reserves;
mod router;
mod script;
mod session_calls;

pub use component::Component;
pub use core_calls::{Call, LONGEST_CLIENT, Quotas, Reply, Reserve, label_of};
pub use machine::Core;
pub use router::Router;
pub use server_kinds::AnyServer;
