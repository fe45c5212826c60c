//! The components that the paths of a line denote, path by path.
ghost use Rattle.std.specs.Prelude.{◌≡◌, ◌++◌, ℕ, List, map, IfErr, IfOk, OnOk, Result, Ok};
ghost use Rattle.std.specs.Result.{result_map_both};
ghost use Rattle.list_reach.specs.Paths.{GivesReason, PathFault, pieces};
ghost use Rattle.list_policy.specs.Components.{any_at, any_for, any_of, fault_at, fault_in, faults_in, flaw_in, flawed, found_in, next_place, numbers_in, read_at};
ghost use Rattle.list_policy.specs.Statement.{flaw_at};

use crate::cuts::{blanks, plus};
use crate::fault::{PolicyFault, PolicyFlaw};
use list_parser::StartList;
use list_reach::{ComponentKind, Unnamed, numbers, pieces, selects, trimmed};
use std::alloc::{AllocError, Global};

/// The kind of components that a path of a line is to denote.
#[derive(Clone, Copy)]
pub enum NamedKind {
    /// Scripts.
    Scripts,
    /// Servers that provide their service.
    Servers,
    /// Components of any kind.
    Any,
}

/// A place of a policy's text: a line and a column in bytes, both from 1 on.
#[derive(Clone, Copy)]
pub(crate) struct PolicyPlace {
    pub(crate) line: usize,
    pub(crate) column: usize,
}

impl PolicyPlace {
    /// Returns a flaw at the place.
    pub(crate) fn fault(self, flaw: PolicyFlaw<'_>) -> PolicyFault<'_>
        ensures { fault_at result ≡ flaw_in self (flaw_at flaw.entry) }
    {
        PolicyFault {
            line: self.line,
            column: self.column,
            flaw,
        }
    }

    // The place so many bytes later.
    fn after(self, bytes: usize) -> PolicyPlace
        ensures { result ≡ next_place self bytes }
    {
        PolicyPlace {
            line: self.line,
            column: plus(self.column, bytes),
        }
    }
}

/// Returns the numbers of all components of a kind that paths denote, of which the first begins at a place; commas separate the
/// paths. Adds a fault for each path that denotes none. Fails if the host is out of memory.
#[tactic(auto, using(crate::proofs::ReadingLemmas::numbers_more, crate::proofs::ReadingLemmas::faults_more))]
pub(crate) fn components<'a>(
    alloc: Global,
    list: &StartList,
    faults: &mut Vec<PolicyFault<'a>>,
    kind: NamedKind,
    place: PolicyPlace,
    paths: &'a [u8],
) -> Result<Vec<usize>, AllocError>
    ensures found { IfOk result (λ found. found.items ≡ found_in list.now kind (pieces 44 paths.now)) }
    ensures faults { OnOk result (map fault_at faults.new.items ≡ map fault_at faults.old.items
        ++ faults_in list.now kind place (pieces 44 paths.now)) }
{
    let pieces = pieces(alloc, paths, b',')?;
    let mut found = Vec::new(alloc);
    let mut here = place;
    for number in 0..pieces.len() {
        let piece = pieces[number];
        let read = named_at(alloc, list, kind, piece)?;
        add_path(&mut found, faults, here.after(blanks(piece)), read)?;
        here = here.after(piece.len() + 1);
    }
    Ok(found)
}

// Adds the numbers of a path, or its flaw at a place.
fn add_path<'a>(
    found: &mut Vec<usize>,
    faults: &mut Vec<PolicyFault<'a>>,
    place: PolicyPlace,
    read: Result<Vec<usize>, PolicyFlaw<'a>>,
) -> Result<(), AllocError>
    ensures found { OnOk result (found.new.items ≡ found.old.items ++ numbers_in
        (result_map_both (λ numbers. numbers.items) flaw_at read.entry)) }
    ensures faults { OnOk result (map fault_at faults.new.items ≡ map fault_at faults.old.items
        ++ fault_in place (result_map_both (λ numbers. numbers.items) flaw_at read.entry)) }
{
    match read {
        Ok(more) => found.extend_from_slice(more.as_slice()),
        Err(flaw) => {
            faults.push(place.fault(flaw))?;
            Ok(())
        }
    }
}

// The numbers of all that a path denotes, or its flaw.
fn named_at<'a>(
    alloc: Global,
    list: &StartList,
    kind: NamedKind,
    path: &'a [u8],
) -> Result<Result<Vec<usize>, PolicyFlaw<'a>>, AllocError>
    ensures { IfOk result (λ read. result_map_both (λ found. found.items) flaw_at read
        ≡ read_at list.now kind path.now) }
{
    match kind {
        NamedKind::Scripts => flawed(kind, numbers(alloc, list, path, ComponentKind::Script)),
        NamedKind::Servers => flawed(kind, numbers(alloc, list, path, ComponentKind::Server)),
        NamedKind::Any => flawed(kind, any_of(alloc, list, trimmed(path))),
    }
}

// The numbers of a path, or its flaw, unless the host is out of memory.
#[tactic(auto, using(crate::proofs::ReadingLemmas::path_flaw, crate::proofs::ReadingLemmas::path_found))]
fn flawed<'a>(
    kind: NamedKind,
    read: Result<Vec<usize>, Unnamed<'a>>,
) -> Result<Result<Vec<usize>, PolicyFlaw<'a>>, AllocError>
    ensures { (named : Result (List ℕ) PathFault) → IfOk read.entry (λ found. named ≡ Ok found.items)
        → IfErr read.entry (GivesReason named)
        → IfOk result (λ read. result_map_both (λ found. found.items) flaw_at read ≡ flawed named) }
{
    match read {
        Ok(found) => Ok(Ok(found)),
        Err(Unnamed::NoMemory) => Err(AllocError),
        Err(Unnamed::Nobody(path, near)) => {
            Ok(Err(PolicyFlaw::Unnamed(kind, Unnamed::Nobody(path, near))))
        }
        Err(Unnamed::NoScript(path)) => Ok(Err(PolicyFlaw::Unnamed(kind, Unnamed::NoScript(path)))),
        Err(Unnamed::NoServer(path)) => Ok(Err(PolicyFlaw::Unnamed(kind, Unnamed::NoServer(path)))),
    }
}

// The numbers of all components of any kind that a path denotes. Errors: the path denotes none, out of memory.
fn any_of<'a>(alloc: Global, list: &StartList, path: &'a [u8]) -> Result<Vec<usize>, Unnamed<'a>>
    ensures found { IfOk result (λ found. any_of list.now path.now ≡ Ok found.items) }
    ensures fault { IfErr result (GivesReason (any_of list.now path.now)) }
{
    let found = any_for(alloc, list, path)?;
    if found.is_empty() {
        Err(Unnamed::Nobody(path, None))
    } else {
        Ok(found)
    }
}

// The numbers of all components of any kind that a path denotes, none if it denotes none.
#[tactic(auto, using(crate::proofs::ReadingLemmas::below_kept, crate::proofs::ReadingLemmas::below_left))]
fn any_for(alloc: Global, list: &StartList, path: &[u8]) -> Result<Vec<usize>, AllocError>
    ensures { IfOk result (λ found. found.items ≡ any_for list.now path.now) }
{
    let mut found = Vec::new(alloc);
    for number in 0..list.entries().len() {
        if any_at(list, path, number) {
            found.push(number)?;
        }
    }
    Ok(found)
}

// Whether a path denotes the component of a number.
fn any_at(list: &StartList, path: &[u8], number: usize) -> bool
    ensures { result ≡ any_at list.now path.now number }
{
    match list.entries().get(number) {
        Some(entry) => selects(path, entry.path()),
        None => false,
    }
}
