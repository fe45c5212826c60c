//! Boots a machine: opens its inits, starts the components of its start list, and builds the table of its routes. The engine
//! and the commands of nethrywel call it. Example: `boot(alloc, &list)?` is the core of a start list.
#![tactic(auto)]

mod resolve;
mod rule;
mod startup;
mod table;

pub use list_parser::{
    Binary, BootFault, ConfigField, ListEntry, MACHINE_A, Name, Path, Rule, StartList, Target,
    inits_give_their_own, lists_are_listed, machine_a_is_read, quota_faults_are_of_lacks,
};
pub use list_routes::{MOST_LISTS, route, target_child};
pub use pd_core::{Core, Router};
pub use startup::boot;
pub use table::RouteTable;
