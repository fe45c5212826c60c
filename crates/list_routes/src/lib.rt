//! Routes of session requests, by the rules of a start list. `init_core` and `list_findings` ask which child a target
//! selects. Example: `route(&list, client, b"LOG", b"")` is the number of the server, if any.
#![tactic(auto)]

mod routing;

pub use routing::{MOST_LISTS, route, target_child};
