//! Start lists: parses a JSON text into a machine and its components. `init_core` boots the list and resolves its rules.
//! Example: `StartList::read(alloc, text)?.count()` is the number of components.
#![tactic(auto)]

mod binary;
mod binary_word;
mod budgets;
mod declared_service;
mod entry;
mod entry_head;
mod fault;
mod kinds;
mod label_test;
mod list;
mod list_config;
mod list_fault;
mod list_place;
mod list_reader;
mod list_service;
mod machine_a;
mod member;
mod name;
mod path_index;
mod reserve;
mod rule;
mod theorems;

pub use binary::Binary;
pub use declared_service::DeclaredService;
pub use entry::ListEntry;
pub use fault::{BootFault, ConfigField};
pub use label_test::LabelTest;
pub use list::{DEEPEST, LONGEST_TEXT, StartList, read_json};
pub use list_fault::{ExpectedValue, FaultPart, FaultPlace, JsonFault, ListFault, ListMember};
pub use list_service::ListService;
pub use machine_a::{MACHINE_A, machine_a_is_read};
pub use name::{Name, Path};
pub use rule::{Rule, Target};
pub use theorems::{inits_give_their_own, lists_are_listed, quota_faults_are_of_lacks};
