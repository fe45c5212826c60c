//! The scripts and servers that a command selects.
ghost use Rattle.std.specs.Prelude.{◌≡◌, ◌==◌, ◌||◌, not, [], length, Ok, IfErr, IfOk};
ghost use Rattle.list_reach.specs.Paths.{GivesReason, is_chosen, joined, names, numbers_of_all, same_number};
ghost use Rattle.list_reach.specs.declared.component_numbers.ComponentKind.TheVariants.{Script as Scripts, Server as Servers};

use crate::component_numbers::{ComponentKind, Unnamed, numbers};
use list_parser::StartList;
use std::alloc::Global;

/// A filter: scripts and servers of a start list by their numbers, or all of them if none are named.
#[derive(Drop)]
pub struct ReachFilter {
    from: Vec<usize>,
    to: Vec<usize>,
}

impl ReachFilter {
    /// Returns the filter that selects all scripts and all servers.
    pub fn all(alloc: Global) -> ReachFilter
        ensures from { result.from.items ≡ [] }
        ensures to { result.to.items ≡ [] }
    {
        ReachFilter {
            from: Vec::new(alloc),
            to: Vec::new(alloc),
        }
    }

    /// Returns the filter that selects the scripts and the servers that paths denote. Errors in order: the first path of scripts,
    /// then the first path of servers that denotes none; out of memory.
    pub fn read<'a>(
        alloc: Global,
        list: &StartList,
        from: &[&'a str],
        to: &[&'a str],
    ) -> Result<ReachFilter, Unnamed<'a>>
        ensures from { IfOk result (λ filter.
            numbers_of_all list.now Scripts from.now
            ≡ Ok filter.from.items) }
        ensures to { IfOk result (λ filter.
            numbers_of_all list.now Servers to.now
            ≡ Ok filter.to.items) }
        ensures fault { IfErr result (λ fault. GivesReason (joined
            (numbers_of_all list.now Scripts from.now)
            (numbers_of_all list.now Servers to.now)) fault) }
    {
        Ok(ReachFilter {
            from: all_numbers(alloc, list, from, ComponentKind::Script)?,
            to: all_numbers(alloc, list, to, ComponentKind::Server)?,
        })
    }

    /// Returns whether the filter names some scripts or some servers.
    pub fn is_narrow(&self) -> bool
        ensures { result ≡ (not (length self.now.from.items == 0) || not (length self.now.to.items == 0)) }
    {
        !self.from.is_empty() || !self.to.is_empty()
    }

    /// Returns whether the filter selects the script of a number.
    pub(crate) fn has_script(&self, number: usize) -> bool
        ensures { result ≡ is_chosen self.now.from.items number }
    {
        is_chosen(self.from.as_slice(), number)
    }

    /// Returns whether the filter selects the server of a number.
    pub(crate) fn has_server(&self, number: usize) -> bool
        ensures { result ≡ is_chosen self.now.to.items number }
    {
        is_chosen(self.to.as_slice(), number)
    }
}

// The numbers of all components of a kind that some texts denote, each with paths that commas separate.
fn all_numbers<'a>(
    alloc: Global,
    list: &StartList,
    texts: &[&'a str],
    sought: ComponentKind,
) -> Result<Vec<usize>, Unnamed<'a>>
    ensures found { IfOk result (λ found. numbers_of_all list.now sought texts.now ≡ Ok found.items) }
    ensures fault { IfErr result (GivesReason (numbers_of_all list.now sought texts.now)) }
{
    let mut found = Vec::new(alloc);
    for place in 0..texts.len() {
        let more = numbers(alloc, list, texts[place].as_bytes(), sought)?;
        found.extend_from_slice(more.as_slice())?;
    }
    Ok(found)
}

// Whether a number is one of these, or there are none.
fn is_chosen(numbers: &[usize], number: usize) -> bool
    ensures { result ≡ is_chosen numbers.now number }
{
    numbers.is_empty() || names(numbers, number)
}

// Whether a number is one of these.
fn names(numbers: &[usize], number: usize) -> bool
    ensures { result ≡ names numbers.now number }
{
    numbers.iter().any(|other| same_number(number, *other))
}

// Whether both are one number.
fn same_number(one: usize, other: usize) -> bool
    ensures { result ≡ same_number one other }
{
    one == other
}
