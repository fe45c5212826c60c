//! Whether a client's requests for a service are routed to a server, and a shortest label of a range that is.
ghost use Rattle.std.specs.Prelude.{◌≡◌, ◌<◌, ◌++◌, ◌∷◌, [], List, Some, length, IfOk, MatchOption};
ghost use Rattle.std.specs.Option.{option_copied};
ghost use Rattle.list_classes.specs.declared.label_class.LabelClass.{LabelClass as Class};
ghost use Rattle.list_reach.specs.RangeReach.{IsShortestInRange, NoneRoutedInRange, is_routed_in, witness_length};
ghost use Rattle.list_reach.specs.RoutedLabels.{routed_on};
ghost use Rattle.list_reach.specs.Shortest.{IsShortest, is_shorter};

use crate::comparison::{child_of, is_to};
use list_classes::{LabelClass, LabelClasses};
use list_labels::{ClientLabel, LabelCondition, SessionRequests};
use std::alloc::{AllocError, Global};

/// The reach from a client to a server: whether requests for a service are routed there.
#[derive(Drop)]
pub enum Reach {
    /// Every label is routed to the server.
    Always,
    /// This label is routed to the server, and no shorter one. Some other labels aren't.
    By(ClientLabel),
    /// No label is routed to the server.
    Never,
}

/// Returns a shortest label of those that match a condition and with which the requests are routed to the component of a number, or
/// none if there is none. Fails if the host is out of memory.
pub fn shortest_in_range(
    alloc: Global,
    wishes: SessionRequests<'_>,
    range: &LabelCondition,
    server: usize,
) -> Result<Option<ClientLabel>, AllocError>
    requires client { wishes.client < length wishes.list.now.entries }
    ensures { IfOk result (λ found. MatchOption found
        (NoneRoutedInRange range.now wishes.entry.list.now wishes.entry.client
        wishes.entry.service.now server)
        (IsShortestInRange range.now wishes.entry.list.now wishes.entry.client
        wishes.entry.service.now server)) }
{
    let classes = LabelClasses::of(alloc, range, Some(wishes), None)?;
    match shortest(classes.as_slice(), wishes, range, server) {
        Some(class) => Ok(Some(class.witness.copy())),
        None => Ok(None),
    }
}

// One of the classes with the shortest label of those in a range that are routed to a server.
fn shortest<'a>(
    classes: &'a [LabelClass],
    wishes: SessionRequests<'_>,
    range: &LabelCondition,
    server: usize,
) -> Option<&'a LabelClass>
    requires client { wishes.client < length wishes.list.now.entries }
    ensures { IsShortest witness_length (is_routed_in range.now (routed_on (Some wishes.entry)) server)
        classes.now (option_copied result) }
{
    let mut best = None;
    for place in 0..classes.len() {
        best = better(best, &classes[place], wishes, range, server);
    }
    best
}

// The best so far, or the next class if that has a shorter label that is in a range and is routed to a server.
#[tactic(auto, using(crate::proofs::ShortestLemmas::best_taken, crate::proofs::ShortestLemmas::best_shorter, crate::proofs::ShortestLemmas::best_alone))]
fn better<'a>(
    best: Option<&'a LabelClass>,
    class: &'a LabelClass,
    wishes: SessionRequests<'_>,
    range: &LabelCondition,
    server: usize,
) -> Option<&'a LabelClass>
    requires client { wishes.client < length wishes.list.now.entries }
    ensures { (seen : List Class)
        → IsShortest witness_length (is_routed_in range.now (routed_on (Some wishes.entry)) server)
        seen (option_copied best.entry)
        → IsShortest witness_length (is_routed_in range.now (routed_on (Some wishes.entry)) server)
        (seen ++ class.now ∷ []) (option_copied result) }
{
    if !is_shorter(class, best) {
        return best;
    }
    if is_routed_in(class, wishes, range, server) {
        return Some(class);
    }
    best
}

// Whether a label is shorter than that of another class, or there is no other class.
fn is_shorter(class: &LabelClass, best: Option<&LabelClass>) -> bool
    ensures { result ≡ is_shorter witness_length class.now (option_copied best.entry) }
{
    match best {
        Some(other) => class.witness.as_bytes().len() < other.witness.as_bytes().len(),
        None => true,
    }
}

// Whether the label of a class is in a range and is routed to a server.
fn is_routed_in(
    class: &LabelClass,
    wishes: SessionRequests<'_>,
    range: &LabelCondition,
    server: usize,
) -> bool
    requires client { wishes.client < length wishes.list.now.entries }
    ensures { result
        ≡ is_routed_in range.now (routed_on (Some wishes.entry)) server class.now }
{
    range.matches(class.witness.as_bytes())
        && is_to(child_of(Some(wishes), &class.witness), Some(server))
}
