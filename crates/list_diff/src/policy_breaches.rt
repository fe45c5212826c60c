//! Breaches of a policy that one of two start lists alone has.
ghost use Rattle.std.specs.Prelude.{◌≡◌, ◌++◌, map, IfOk, OnOk};
ghost use Rattle.std.specs.Option.{option_copied};
ghost use Rattle.list_diff.specs.Breaches.{alone, breach_changes, change_at, has, same_breach, same_server};

use crate::placed_breach::PlacedBreach;
use std::alloc::{AllocError, Global};

/// A breach that one start list alone has.
#[derive(Clone, Copy)]
pub enum BreachChange<'a> {
    /// The list before has the breach, and the list after doesn't.
    Gone(&'a PlacedBreach<'a>),
    /// The list after has the breach, and the list before doesn't.
    Came(&'a PlacedBreach<'a>),
}

/// Returns the breaches that one of two start lists alone has: those of the list before in order, and then those of the list after.
/// Breaches of one line by the same components are one breach, by any label. Fails if the host is out of memory.
pub fn breach_changes<'a>(
    alloc: Global,
    before: &'a [PlacedBreach<'a>],
    after: &'a [PlacedBreach<'a>],
) -> Result<Vec<BreachChange<'a>>, AllocError>
    ensures { IfOk result (λ found.
        map change_at found.items ≡ breach_changes before.now after.now) }
{
    let mut found = Vec::new(alloc);
    for gone in before {
        add_unless(&mut found, after, BreachChange::Gone(gone))?;
    }
    for came in after {
        add_unless(&mut found, before, BreachChange::Came(came))?;
    }
    Ok(found)
}

// Adds a breach of one list, unless the other list has it.
fn add_unless<'a>(
    found: &mut Vec<BreachChange<'a>>,
    others: &[PlacedBreach<'_>],
    change: BreachChange<'a>,
) -> Result<(), AllocError>
    ensures { OnOk result (map change_at found.new.items
        ≡ map change_at found.old.items ++ alone others.now (change_at change.entry)) }
{
    if !has(others, change.breach()) {
        found.push(change)?;
    }
    Ok(())
}

// Whether one of some breaches is this one.
fn has(breaches: &[PlacedBreach<'_>], breach: &PlacedBreach<'_>) -> bool
    ensures { result ≡ has breaches.now breach.now }
{
    breaches.iter().any(|other| is_same(breach, other))
}

// Whether two breaches are of one line and by the same components.
fn is_same(one: &PlacedBreach<'_>, other: &PlacedBreach<'_>) -> bool
    ensures { result ≡ same_breach one.now other.now }
{
    one.line == other.line && one.client == other.client && is_same_server(one.server, other.server)
}

// Whether both servers are the same, or there is none.
fn is_same_server(one: Option<&[u8]>, other: Option<&[u8]>) -> bool
    ensures { result ≡ same_server (option_copied one.entry) (option_copied other.entry) }
{
    match (one, other) {
        (Some(one), Some(other)) => one == other,
        (None, None) => true,
        _ => false,
    }
}

impl<'a> BreachChange<'a> {
    /// Returns the breach.
    pub fn breach(&self) -> &'a PlacedBreach<'a>
        ensures { result.now ≡ (change_at self.now).breach }
    {
        match self {
            BreachChange::Gone(breach) | BreachChange::Came(breach) => breach,
        }
    }
}
