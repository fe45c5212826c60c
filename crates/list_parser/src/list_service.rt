//! The services of a start list.
ghost use Rattle.std.specs.Prelude.{◌≡◌, ◌++◌, ◌≤◌, length, map, IfOk, OnOk, Some};
ghost use Rattle.std.specs.List.{list_any};
ghost use Rattle.std.specs.Str.{bytes_eq};
ghost use Rattle.own_model.specs.Listed.{service_in, with_name};
ghost use Rattle.list_parser.specs.Services.{AreServices, names_with, service_text};
ghost use Rattle.list_parser.specs.View.{model_binary};

use crate::binary::Binary;
use crate::entry::ListEntry;
use crate::kinds::is_built_in;
use crate::name::Name;
use std::alloc::{AllocError, Global};
use trade_base::BuiltInService;

/// A service of a start list.
#[derive(Clone, Copy)]
pub enum ListService<'a> {
    /// A service that the machine has built in.
    BuiltIn(BuiltInService),
    /// A service that a server of the list declares, by its name.
    Declared(&'a Name),
}

impl<'a> ListService<'a> {
    /// Returns the name by which clients request the service, and by which its servers provide it.
    pub fn name(self) -> &'a str
        ensures text { result.now ≡ service_text self.entry }
        ensures short { length result.now ≤ 32 }
    {
        match self {
            ListService::BuiltIn(service) => service.name(),
            ListService::Declared(name) => name.as_str(),
        }
    }
}

/// Collects the names of the services that entries declare: each by its first entry. Allocates nothing if no entry declares
/// one. Returns an error if the host is out of memory.
pub(crate) fn declared_names(alloc: Global, entries: &[ListEntry]) -> Result<Vec<Name>, AllocError>
    ensures { IfOk result (λ declared. AreServices declared.items entries.now) }
{
    let mut declared = Vec::new(alloc);
    for entry in entries {
        add_service(&mut declared, entry.binary())?;
    }
    Ok(declared)
}

/// Adds the name of a binary's service, unless the machine has the service built in or the name is there.
#[tactic(auto, using(crate::proofs::ServiceLemmas::none_new))]
fn add_service(declared: &mut Vec<Name>, binary: &Binary) -> Result<(), AllocError>
    ensures { OnOk result (names_with declared.new.items
        ≡ with_name (names_with declared.old.items) (service_in (model_binary binary.now))) }
{
    match binary {
        Binary::Script | Binary::Server(_) | Binary::Init => Ok(()),
        Binary::Declared(service) => add_name(declared, service.name()),
    }
}

/// Adds a name, unless the machine has a service of the name built in or the name is there.
fn add_name(declared: &mut Vec<Name>, name: &Name) -> Result<(), AllocError>
    ensures { OnOk result (names_with declared.new.items
        ≡ with_name (names_with declared.old.items) (Some name.now)) }
{
    if !has_name(declared.as_slice(), name.as_bytes()) {
        declared.push(name.copy())?;
    }
    Ok(())
}

/// Returns whether a name is that of a service which the machine has built in, or one of these.
#[tactic(auto, using(crate::proofs::ServiceLemmas::any_of_names))]
fn has_name(declared: &[Name], name: &[u8]) -> bool
    ensures { result ≡ list_any (bytes_eq name.now) (names_with declared.now) }
{
    is_built_in(name) || is_declared(declared, name)
}

/// Returns whether a name is one of these.
fn is_declared(declared: &[Name], name: &[u8]) -> bool
    ensures { result ≡ list_any (bytes_eq name.now) declared.now }
{
    declared.iter().any(|other| name == other.as_bytes())
}

/// Copies names. Returns an error if the host is out of memory.
pub(crate) fn copy_names(alloc: Global, names: &[Name]) -> Result<Vec<Name>, AllocError>
    ensures { IfOk result (λ copies. copies.items ≡ names.now) }
{
    let mut copies = Vec::new(alloc);
    for name in names {
        copies.push(name.copy())?;
    }
    Ok(copies)
}
