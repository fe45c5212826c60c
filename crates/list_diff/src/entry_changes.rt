//! Entries that were added, were removed or have another budget.
ghost use Rattle.std.specs.Prelude.{◌≡◌, ◌++◌, IfOk, OnOk};
ghost use Rattle.std.specs.List.{enumerate_from, flat_map, list_all};
ghost use Rattle.list_diff.specs.Changes.{arrival, changes_of, fate, has_kind, same_binary, same_flag, same_kind, same_kinds, same_means, same_reserves};
ghost use Rattle.std.specs.Option.{option_map};
ghost use Rattle.list_parser.specs.View.{model_binary};
ghost use Rattle.core_calls.specs.Quotas.{reserve_amounts};

use core_calls::Reserve;
use list_parser::{Binary, ListEntry, StartList};
use object_kinds::ObjectKind;
use std::alloc::{AllocError, Global};

/// A change of an entry. Numbers are those of the start lists, in which each init is directly before its own entries.
#[derive(Clone, Copy)]
pub enum EntryChange {
    /// Removed: the entry of this number before has no entry of its path after.
    Gone(usize),
    /// Changed: the entry of the first number before has another binary, other kinds or another budget than the entry of the second number after, of
    /// the same path.
    Changed(usize, usize),
    /// Added: the entry of this number after had no entry of its path before.
    Came(usize),
}

/// Returns the changes of the entries: those of the list before in order, and then the added ones. Fails if the host is out of
/// memory.
pub fn changes(
    alloc: Global,
    before: &StartList,
    after: &StartList,
) -> Result<Vec<EntryChange>, AllocError>
    ensures { IfOk result (λ changes. changes.items ≡ changes_of before.now after.now) }
{
    let mut found = Vec::new(alloc);
    add_fates(&mut found, before.entries(), after)?;
    add_arrivals(&mut found, before, after.entries())?;
    Ok(found)
}

// Adds the changes of these entries.
fn add_fates(
    found: &mut Vec<EntryChange>,
    entries: &[ListEntry],
    after: &StartList,
) -> Result<(), AllocError>
    ensures { OnOk result (found.new.items ≡ found.old.items
        ++ flat_map (fate after.now) (enumerate_from 0 entries.now)) }
{
    for (number, entry) in entries.iter().enumerate() {
        add_fate(found, after, number, entry)?;
    }
    Ok(())
}

// Adds the change of an entry, if there is one.
fn add_fate(
    found: &mut Vec<EntryChange>,
    after: &StartList,
    number: usize,
    entry: &ListEntry,
) -> Result<(), AllocError>
    ensures { OnOk result
        (found.new.items ≡ found.old.items ++ fate after.now (number, entry.now)) }
{
    match after.find(entry.path()) {
        None => found.push(EntryChange::Gone(number))?,
        Some(place) => {
            if !has_same_means(entry, &after.entries()[place]) {
                found.push(EntryChange::Changed(number, place))?;
            }
        }
    }
    Ok(())
}

// Adds those of these entries that were added.
fn add_arrivals(
    found: &mut Vec<EntryChange>,
    before: &StartList,
    entries: &[ListEntry],
) -> Result<(), AllocError>
    ensures { OnOk result (found.new.items ≡ found.old.items
        ++ flat_map (arrival before.now) (enumerate_from 0 entries.now)) }
{
    for (number, entry) in entries.iter().enumerate() {
        add_arrival(found, before, number, entry)?;
    }
    Ok(())
}

// Adds an entry, if it was added.
fn add_arrival(
    found: &mut Vec<EntryChange>,
    before: &StartList,
    number: usize,
    entry: &ListEntry,
) -> Result<(), AllocError>
    ensures { OnOk result
        (found.new.items ≡ found.old.items ++ arrival before.now (number, entry.now)) }
{
    if before.find(entry.path()).is_none() {
        found.push(EntryChange::Came(number))?;
    }
    Ok(())
}

// Whether two entries run the same binary, with the same budget.
#[tactic(auto, unfolding(crate::specs::Changes::same_means))]
fn has_same_means(one: &ListEntry, other: &ListEntry) -> bool
    ensures { result ≡ same_means one.now other.now }
{
    has_same_binary(one.binary(), other.binary())
        && one.ram() == other.ram()
        && one.caps() == other.caps()
        && same_flag(one.provides(), other.provides())
        && are_same(one.reserve(), other.reserve())
}

// Whether two binaries are the same: servers are, if they are of one service and offer the same.
#[tactic(auto, using(crate::proofs::BinaryLemmas::same_built_in, crate::proofs::BinaryLemmas::built_in_differs, crate::proofs::BinaryLemmas::declared_differs))]
fn has_same_binary(one: &Binary, other: &Binary) -> bool
    ensures { result ≡ same_binary (model_binary one.now) (model_binary other.now) }
{
    match (one, other) {
        (Binary::Script, Binary::Script) | (Binary::Init, Binary::Init) => true,
        (Binary::Server(service), Binary::Server(server)) => {
            service.name().as_bytes() == server.name().as_bytes()
        }
        (Binary::Declared(service), Binary::Declared(server)) => {
            service.name().as_bytes() == server.name().as_bytes()
                && has_same_kinds(service.kinds(), server.kinds())
        }
        _ => false,
    }
}

// Whether two servers have the same kinds, in any order.
fn has_same_kinds(one: &[ObjectKind], other: &[ObjectKind]) -> bool
    ensures { result ≡ same_kinds one.now other.now }
{
    one.len() == other.len() && are_among(other, one)
}

// Whether each of some kinds is one of these.
fn are_among(kinds: &[ObjectKind], some: &[ObjectKind]) -> bool
    ensures { result ≡ list_all (has_kind kinds.now) some.now }
{
    some.iter().all(|kind| has_kind(kinds, kind))
}

// Whether a kind is one of these.
fn has_kind(kinds: &[ObjectKind], kind: &ObjectKind) -> bool
    ensures { result ≡ has_kind kinds.now kind.now }
{
    kinds.iter().any(|other| is_same_kind(other, kind))
}

// Whether two kinds have one name and the same sizes.
fn is_same_kind(one: &ObjectKind, other: &ObjectKind) -> bool
    ensures { result ≡ same_kind one.now other.now }
{
    one.name().as_bytes() == other.name().as_bytes()
        && one.block() == other.block()
        && one.bytes() == other.bytes()
}

// Whether both flags are equal.
fn same_flag(one: bool, other: bool) -> bool
    ensures { result ≡ same_flag one other }
{
    if one { other } else { !other }
}

// Whether two reserves are the same.
fn are_same(one: Option<Reserve>, other: Option<Reserve>) -> bool
    ensures { result ≡ same_reserves (option_map reserve_amounts one)
        (option_map reserve_amounts other) }
{
    match (one, other) {
        (None, None) => true,
        (Some(one), Some(other)) => one.ram.0 == other.ram.0 && one.caps.0 == other.caps.0,
        _ => false,
    }
}
