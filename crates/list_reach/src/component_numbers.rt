//! The numbers of scripts and servers, by the paths that people write.
ghost use Rattle.std.specs.Prelude.{◌≡◌, Ok, IfErr, IfOk, IfSome};
ghost use Rattle.list_reach.specs.Paths.{GivesReason, as_text, denotes_at, fault_of, is_sought, numbers_for, numbers_of, numbers_of_path, why_unnamed};
ghost use Rattle.list_reach.specs.declared.component_numbers.Unnamed.TheVariants.{NoMemory as NoRoom};

use crate::near_path::near_path;
use crate::paths::{pieces, selects, trimmed};
use list_parser::{ListEntry, Path, StartList};
use std::alloc::{AllocError, Global};
use std::{fmt, str};

/// The kind of components that a path is to denote.
#[derive(Clone, Copy)]
pub enum ComponentKind {
    /// Scripts.
    Script,
    /// Servers that provide their service.
    Server,
}

/// Why a path denotes no component of the kind.
#[derive(Drop)]
pub enum Unnamed<'a> {
    /// No component has this path. The other path, if there is one, is near and is a component's.
    Nobody(&'a [u8], Option<Path>),
    /// The component of this path is no script.
    NoScript(&'a [u8]),
    /// The component of this path is no server that provides its service.
    NoServer(&'a [u8]),
    /// The host is out of memory.
    NoMemory,
}

impl fmt::Display for Unnamed<'_> {
    fn fmt<W: fmt::Write>(&self, f: &mut fmt::Formatter<W>) -> fmt::Result {
        match self {
            Unnamed::Nobody(path, near) => {
                write!(f, "unknown component `{}`", as_text(*path))?;
                match near {
                    Some(near) => write!(f, "; did you mean `{}`?", near.as_str()),
                    None => Ok(()),
                }
            }
            Unnamed::NoScript(path) => write!(f, "expected a script, found `{}`", as_text(*path)),
            Unnamed::NoServer(path) => write!(
                f,
                "expected a server that provides its service, found `{}`",
                as_text(*path)
            ),
            Unnamed::NoMemory => f.write_str("out of memory"),
        }
    }
}

impl<'a> From<AllocError> for Unnamed<'a> {
    ghost from_gives = { λ _ fault. fault ≡ NoRoom };

    fn from(_fault: AllocError) -> Unnamed<'a> {
        Unnamed::NoMemory
    }
}

// A path as text, which is empty if it isn't UTF-8.
#[tactic(auto, using(crate::proofs::NamedLemmas::is_text, crate::proofs::NamedLemmas::is_no_text))]
fn as_text(path: &[u8]) -> &str
    ensures { result.now ≡ as_text path.now }
{
    match str::from_utf8(path) {
        Ok(text) => text,
        Err(_) => "",
    }
}

/// Returns the numbers of all components of a kind that paths denote; commas separate the paths. Errors in order: the first path
/// that denotes no component of the kind; out of memory.
pub fn numbers<'a>(
    alloc: Global,
    list: &StartList,
    paths: &'a [u8],
    sought: ComponentKind,
) -> Result<Vec<usize>, Unnamed<'a>>
    ensures found { IfOk result (λ found. numbers_of list.now sought paths.now ≡ Ok found.items) }
    ensures fault { IfErr result (GivesReason (numbers_of list.now sought paths.now)) }
{
    let pieces = pieces(alloc, paths, b',')?;
    let mut found = Vec::new(alloc);
    for place in 0..pieces.len() {
        let more = numbers_of_path(alloc, list, trimmed(pieces[place]), sought)?;
        found.extend_from_slice(more.as_slice())?;
    }
    Ok(found)
}

// The numbers of all that a path denotes.
fn numbers_of_path<'a>(
    alloc: Global,
    list: &StartList,
    path: &'a [u8],
    sought: ComponentKind,
) -> Result<Vec<usize>, Unnamed<'a>>
    ensures found { IfOk result (λ found. numbers_of_path list.now sought path.now ≡ Ok found.items) }
    ensures fault { IfErr result (GivesReason (numbers_of_path list.now sought path.now)) }
{
    let found = numbers_for(alloc, list, path, sought)?;
    if found.is_empty() {
        Err(why_unnamed(alloc, list, path, sought))
    } else {
        Ok(found)
    }
}

// The numbers of all that a path denotes, none if it denotes no component of the kind.
fn numbers_for(
    alloc: Global,
    list: &StartList,
    path: &[u8],
    sought: ComponentKind,
) -> Result<Vec<usize>, AllocError>
    ensures { IfOk result (λ found. found.items ≡ numbers_for list.now sought path.now) }
{
    let mut found = Vec::new(alloc);
    for number in 0..list.entries().len() {
        if denotes_at(list, sought, path, number) {
            found.push(number)?;
        }
    }
    Ok(found)
}

// Whether a path denotes the component of a number, and it is of the kind.
fn denotes_at(list: &StartList, sought: ComponentKind, path: &[u8], number: usize) -> bool
    ensures { result ≡ denotes_at list.now sought path.now number }
{
    match list.entries().get(number) {
        Some(entry) => selects(path, entry.path()) && is_sought(entry, sought),
        None => false,
    }
}

// Why a path denotes no component of the kind.
fn why_unnamed<'a>(
    alloc: Global,
    list: &StartList,
    path: &'a [u8],
    sought: ComponentKind,
) -> Unnamed<'a>
    ensures { IfSome (fault_of result) (λ why. why ≡ why_unnamed list.now sought path.now) }
{
    match (list.find(path), sought) {
        (Some(_), ComponentKind::Script) => Unnamed::NoScript(path),
        (Some(_), ComponentKind::Server) => Unnamed::NoServer(path),
        (None, _) => match near_path(alloc, list.entries(), as_text(path), sought) {
            Ok(near) => Unnamed::Nobody(path, near),
            Err(_) => Unnamed::NoMemory,
        },
    }
}

/// Returns whether an entry is a component of the kind that a path is to denote.
pub(crate) fn is_sought(entry: &ListEntry, sought: ComponentKind) -> bool
    ensures { result ≡ is_sought entry.now sought }
{
    match sought {
        ComponentKind::Script => entry.is_script(),
        ComponentKind::Server => entry.is_server() && entry.provides(),
    }
}
