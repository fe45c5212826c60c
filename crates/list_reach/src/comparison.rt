//! Which labels of a client's requests for a service are routed to a server on one of two start lists alone.
ghost use Rattle.std.specs.Prelude.{◌≡◌, ◌<◌, ◌++◌, ◌∷◌, [], ℕ, List, length, map, None, Option, Some, IfOk, IfSome, OnOk};
ghost use Rattle.std.specs.List.{list_all};
ghost use Rattle.std.specs.Option.{option_copied};
ghost use Rattle.own_model.specs.Listed.{Listed};
ghost use Rattle.list_labels.specs.GivenLabels.{leads_to};
ghost use Rattle.list_reach.specs.ClientReach.{DescribesReach};
ghost use Rattle.list_reach.specs.Comparisons.{Compares, IsSetBy, IsShortestBy};
ghost use Rattle.list_reach.specs.RoutedLabels.{IsWitness, RoutedLabel, class_routes, is_gained, is_lost, is_moved, is_to, routed_length, routed_on, routes_of};
ghost use Rattle.list_reach.specs.Shortest.{IsShortest, is_shorter};

use crate::client_reach::Reach;
use list_classes::{LabelClass, LabelClasses, described};
use list_labels::{ClientLabel, LabelCondition, LabelSet, SessionRequests};
use list_routes::route;
use std::alloc::{AllocError, Global};
use std::marker::Model;

/// A set of labels, with one of the shortest.
#[derive(Drop)]
pub struct WitnessedSet {
    /// The set.
    pub labels: LabelSet,
    /// One of the shortest labels, if there is a label.
    pub witness: Option<ClientLabel>,
}

/// A label, with the components to which requests with the label are routed on two start lists.
#[derive(Drop)]
struct LabelRoutes {
    label: ClientLabel,
    before: Option<usize>,
    after: Option<usize>,
}

impl Model for LabelRoutes {
    ghost use Rattle.list_reach.specs.RoutedLabels.{RoutedLabel};

    ghost Value = { RoutedLabel };

    ghost view = { λ routed. record {
      label = routed.label;
      before = routed.before;
      after = routed.after;
    } };
}

/// Where requests of a client for a service are routed on two start lists, by a shortest label of each class of labels.
#[derive(Drop)]
pub struct RouteComparison {
    classes: LabelClasses,
    routed: Vec<LabelRoutes>,
}

/// Whether labels are those that a server gains or those that it loses, by the server's numbers on both lists.
#[derive(Clone, Copy)]
pub(crate) struct LabelMove {
    pub(crate) is_gain: bool,
    pub(crate) was: Option<usize>,
    pub(crate) now: Option<usize>,
}

impl RouteComparison {
    /// Compares requests on a start list with requests on another one; on a list without the client no request is routed. Fails
    /// if the host is out of memory.
    pub fn of(
        alloc: Global,
        before: Option<SessionRequests<'_>>,
        after: Option<SessionRequests<'_>>,
    ) -> Result<RouteComparison, AllocError>
        requires before { IfSome before (λ wishes. wishes.client < length wishes.list.now.entries) }
        requires after { IfSome after (λ wishes. wishes.client < length wishes.list.now.entries) }
        ensures { IfOk result (Compares (routed_on before.entry) (routed_on after.entry)) }
    {
        let classes = LabelClasses::of(alloc, &LabelCondition::none(), before, after)?;
        let mut routed = Vec::new(alloc);
        add_classes(&mut routed, before, after, classes.as_slice())?;
        Ok(RouteComparison { classes, routed })
    }

    /// Returns the labels that are routed to a server after and not before, with a shortest one. The server had the number `was`
    /// and has the number `now`, if the list has it. Fails if the host is out of memory.
    pub fn gained(
        &self,
        alloc: Global,
        was: Option<usize>,
        now: Option<usize>,
    ) -> Result<WitnessedSet, AllocError>
        ensures { IfOk result (λ found. (before after : List ℕ → Option ℕ)
            → Compares before after self.now → IsSetBy before after (is_gained was now) found) }
    {
        let is_gain = true;
        self.moved(alloc, LabelMove { is_gain, was, now })
    }

    /// Returns the labels that are routed to a server before and not after, with a shortest one; the server's numbers are as in
    /// `gained`. Fails if the host is out of memory.
    pub fn lost(
        &self,
        alloc: Global,
        was: Option<usize>,
        now: Option<usize>,
    ) -> Result<WitnessedSet, AllocError>
        ensures { IfOk result (λ found. (before after : List ℕ → Option ℕ)
            → Compares before after self.now → IsSetBy before after (is_lost was now) found) }
    {
        let is_gain = false;
        self.moved(alloc, LabelMove { is_gain, was, now })
    }

    /// Returns with which labels requests are routed to a server after, by the server's number and a shortest of these labels. It
    /// is the reach on one list, if no request is routed before.
    pub(crate) fn reach(&self, server: usize, witness: Option<ClientLabel>) -> Reach
        ensures { (list : Listed) (client : ℕ) (service : List ℕ)
            → Compares (routed_on None) (leads_to list client service) self.now
            → IsShortestBy (routed_on None) (leads_to list client service) (is_gained None (Some server)) witness
            → DescribesReach list client service server result }
    {
        let moves = LabelMove {
            is_gain: true,
            was: None,
            now: Some(server),
        };
        match witness {
            None => Reach::Never,
            Some(_) if all_moved(moves, self.routed.as_slice()) => Reach::Always,
            Some(label) => Reach::By(label),
        }
    }

    // The labels that a server gains or loses.
    fn moved(&self, alloc: Global, moves: LabelMove) -> Result<WitnessedSet, AllocError>
        ensures { IfOk result (λ found. (before after : List ℕ → Option ℕ)
            → Compares before after self.now → IsSetBy before after (is_moved moves) found) }
    {
        let routed = self.routed.as_slice();
        let inside = moved_classes(alloc, moves, routed)?;
        Ok(WitnessedSet {
            labels: described(alloc, &self.classes, inside.as_slice())?,
            witness: shortest_label(moves, routed),
        })
    }
}

// Whether a server gains or loses the label of each class.
fn all_moved(moves: LabelMove, routed: &[LabelRoutes]) -> bool
    ensures { result ≡ list_all (is_moved moves) routed.now }
{
    routed.iter().all(|one| is_moved(moves, one))
}

// Of each class whether a server gains or loses its labels.
fn moved_classes(
    alloc: Global,
    moves: LabelMove,
    routed: &[LabelRoutes],
) -> Result<Vec<bool>, AllocError>
    ensures { IfOk result (λ inside. inside.items ≡ map (is_moved moves) routed.now) }
{
    let mut inside = Vec::new(alloc);
    for one in routed {
        inside.push(is_moved(moves, one))?;
    }
    Ok(inside)
}

// The first of the shortest labels that a server gains or loses.
fn shortest_label(moves: LabelMove, routed: &[LabelRoutes]) -> Option<ClientLabel>
    ensures { IsWitness (is_moved moves) routed.now result }
{
    match shortest(routed, moves) {
        Some(one) => Some(one.label.copy()),
        None => None,
    }
}

// Adds the labels of classes.
fn add_classes(
    routed: &mut Vec<LabelRoutes>,
    before: Option<SessionRequests<'_>>,
    after: Option<SessionRequests<'_>>,
    classes: &[LabelClass],
) -> Result<(), AllocError>
    requires before { IfSome before (λ wishes. wishes.client < length wishes.list.now.entries) }
    requires after { IfSome after (λ wishes. wishes.client < length wishes.list.now.entries) }
    ensures { OnOk result (routed.new.items ≡ routed.old.items
        ++ map (class_routes (routed_on before.entry) (routed_on after.entry)) classes.now) }
{
    for place in 0..classes.len() {
        add_routed(routed, before, after, &classes[place].witness)?;
    }
    Ok(())
}

// Adds a label, with the components to which its requests are routed.
fn add_routed(
    routed: &mut Vec<LabelRoutes>,
    before: Option<SessionRequests<'_>>,
    after: Option<SessionRequests<'_>>,
    label: &ClientLabel,
) -> Result<(), AllocError>
    requires before { IfSome before (λ wishes. wishes.client < length wishes.list.now.entries) }
    requires after { IfSome after (λ wishes. wishes.client < length wishes.list.now.entries) }
    ensures { OnOk result (routed.new.items ≡ routed.old.items
        ++ routes_of (routed_on before.entry) (routed_on after.entry) label.now ∷ []) }
{
    routed.push(LabelRoutes {
        label: label.copy(),
        before: child_of(before, label),
        after: child_of(after, label),
    })?;
    Ok(())
}

/// Returns the component to which a request with a label is routed, if the client is there.
pub(crate) fn child_of(wishes: Option<SessionRequests<'_>>, label: &ClientLabel) -> Option<usize>
    requires { IfSome wishes (λ wishes. wishes.client < length wishes.list.now.entries) }
    ensures { result ≡ routed_on wishes.entry label.now }
{
    match wishes {
        Some(wishes) => route(wishes.list, wishes.client, wishes.service, label.as_bytes()),
        None => None,
    }
}

// Whether a label is one of those that a server gains or loses.
fn is_moved(moves: LabelMove, one: &LabelRoutes) -> bool
    ensures { result ≡ is_moved moves one.now }
{
    if moves.is_gain {
        is_to(one.after, moves.now) && !is_to(one.before, moves.was)
    } else {
        is_to(one.before, moves.was) && !is_to(one.after, moves.now)
    }
}

/// Returns whether a request is routed to a server, if the server is there.
pub(crate) fn is_to(child: Option<usize>, server: Option<usize>) -> bool
    ensures { result ≡ is_to child server }
{
    match (child, server) {
        (Some(child), Some(server)) => child == server,
        _ => false,
    }
}

// One of the shortest labels that a server gains or loses.
fn shortest(routed: &[LabelRoutes], moves: LabelMove) -> Option<&LabelRoutes>
    ensures { IsShortest routed_length (is_moved moves) routed.now (option_copied result) }
{
    let mut best = None;
    for place in 0..routed.len() {
        best = better(moves, best, &routed[place]);
    }
    best
}

// The shorter of the best so far and the next one, if a server gains or loses that.
#[tactic(auto, using(crate::proofs::ShortestLemmas::best_taken, crate::proofs::ShortestLemmas::best_shorter, crate::proofs::ShortestLemmas::best_alone))]
fn better<'a>(
    moves: LabelMove,
    best: Option<&'a LabelRoutes>,
    one: &'a LabelRoutes,
) -> Option<&'a LabelRoutes>
    ensures { (seen : List RoutedLabel)
        → IsShortest routed_length (is_moved moves) seen (option_copied best.entry)
        → IsShortest routed_length (is_moved moves) (seen ++ one.now ∷ []) (option_copied result) }
{
    if !is_moved(moves, one) {
        return best;
    }
    if is_shorter(one, best) {
        return Some(one);
    }
    best
}

// Whether a label is shorter than another one, or there is no other one.
fn is_shorter(one: &LabelRoutes, best: Option<&LabelRoutes>) -> bool
    ensures { result ≡ is_shorter routed_length one.now (option_copied best.entry) }
{
    match best {
        Some(other) => one.label.as_bytes().len() < other.label.as_bytes().len(),
        None => true,
    }
}
