//! Which rules decide a client's requests for a service, list by list outward, for every label that the client can give.
ghost use Rattle.std.specs.Prelude.{◌≡◌, ◌+◌, ◌<◌, length, true, All, IfOk, OnOk};
ghost use Rattle.std.specs.List.{list_any};
ghost use Rattle.list_reach.specs.Deciding.{AreDecisions, IsDecision, KeepsDecision, is_same};
ghost use Rattle.list_reach.specs.DecisionOrder.{AreSeen};
ghost use Rattle.list_labels.specs.Asked.{is_given};

use crate::comparison::child_of;
use list_classes::{LabelClass, LabelClasses};
use list_labels::{ClientLabel, LONGEST_GIVEN, LabelCondition, SessionRequests, rules_for};
use std::alloc::{AllocError, Global};
use std::marker::Model;

/// A route decision: the rules that decide requests of a client, list by list outward, with the label of one of these requests.
#[derive(Drop)]
pub struct RouteDecision {
    label: ClientLabel,
    rules: Vec<usize>,
    child: Option<usize>,
}

impl Model for RouteDecision {
    ghost use Rattle.list_reach.specs.Deciding.{DecisionAt};

    ghost Value = { DecisionAt };

    ghost view = { λ trail. record {
      label = trail.label;
      rules = trail.rules.items;
      child = trail.child;
    } };
}

impl RouteDecision {
    /// Returns the label of one of the requests that the rules decide.
    pub fn label(&self) -> &ClientLabel
        ensures { result.now ≡ self.now.label }
    {
        &self.label
    }

    /// Returns the rules' places, list by list outward. If the last rule routes outward to a list without a matching rule, that
    /// list has no place here.
    pub fn rules(&self) -> &[usize]
        ensures { result.now ≡ self.now.rules }
    {
        self.rules.as_slice()
    }

    /// Returns the number of the component to which the rules route, or none if they deny the request.
    pub fn child(&self) -> Option<usize>
        ensures { result ≡ self.now.child }
    {
        self.child
    }
}

/// The route decisions on a client's requests for a service, for every label that the client can give.
#[derive(Drop)]
pub struct RouteDecisions {
    trails: Vec<RouteDecision>,
}

impl Model for RouteDecisions {
    ghost use Rattle.std.specs.Prelude.{List};
    ghost use Rattle.list_reach.specs.Deciding.{DecisionAt};

    ghost Value = { List DecisionAt };

    ghost view = { λ trails. trails.trails.items };
}

impl RouteDecisions {
    /// Computes the decisions on a client's requests for a service. Fails if the host is out of memory.
    pub fn of(alloc: Global, wishes: SessionRequests<'_>) -> Result<RouteDecisions, AllocError>
        requires client { wishes.client < length wishes.list.now.entries }
        ensures { IfOk result (λ trails.
            AreDecisions wishes.entry.list.now wishes.entry.client wishes.entry.service.now trails) }
    {
        let classes = LabelClasses::of(alloc, &LabelCondition::none(), Some(wishes), None)?;
        let mut trails = Vec::new(alloc);
        for size in 0..LONGEST_GIVEN + 1 {
            keep_all_of(alloc, &mut trails, wishes, classes.as_slice(), size)?;
        }
        Ok(RouteDecisions { trails })
    }

    /// Returns the decisions, each once, with the shorter labels first.
    pub fn as_slice(&self) -> &[RouteDecision]
        ensures { result.now ≡ self.now }
    {
        self.trails.as_slice()
    }
}

// Keeps the decisions on the witnesses of so many bytes, after those on shorter ones. So each decision is kept once, with a
// shortest label.
fn keep_all_of(
    alloc: Global,
    trails: &mut Vec<RouteDecision>,
    wishes: SessionRequests<'_>,
    classes: &[LabelClass],
    size: usize,
) -> Result<(), AllocError>
    requires client { wishes.client < length wishes.list.now.entries }
    requires seen { AreSeen wishes.list.now wishes.client wishes.service.now classes.now size 0
        trails.old.items }
    ensures { OnOk result (AreSeen wishes.entry.list.now wishes.entry.client
        wishes.entry.service.now classes.now (size + 1) 0 trails.new.items) }
{
    for place in 0..classes.len() {
        keep_if(alloc, trails, wishes, classes, size, place)?;
    }
    Ok(())
}

// The same for the witness at a place, if it has so many bytes.
fn keep_if(
    alloc: Global,
    trails: &mut Vec<RouteDecision>,
    wishes: SessionRequests<'_>,
    classes: &[LabelClass],
    size: usize,
    place: usize,
) -> Result<(), AllocError>
    requires client { wishes.client < length wishes.list.now.entries }
    requires within { place < length classes.now }
    requires seen { AreSeen wishes.list.now wishes.client wishes.service.now classes.now size place
        trails.old.items }
    ensures { OnOk result (AreSeen wishes.entry.list.now wishes.entry.client
        wishes.entry.service.now classes.now size (place + 1) trails.new.items) }
{
    let label = &classes[place].witness;
    if label.as_bytes().len() != size {
        return Ok(());
    }
    keep(alloc, trails, wishes, label)?;
    Ok(())
}

// Keeps the decision on a label, unless one by the same rules is kept with a label that is no longer.
#[tactic(auto, using(crate::proofs::TrailLemmas::keeps_known, crate::proofs::TrailLemmas::keeps_new))]
fn keep(
    alloc: Global,
    trails: &mut Vec<RouteDecision>,
    wishes: SessionRequests<'_>,
    label: &ClientLabel,
) -> Result<(), AllocError>
    requires client { wishes.client < length wishes.list.now.entries }
    requires given { is_given label.now ≡ true }
    requires trails { All (IsDecision wishes.list.now wishes.client wishes.service.now)
        trails.old.items }
    ensures { OnOk result (KeepsDecision wishes.entry.list.now wishes.entry.client
        wishes.entry.service.now label.now trails.old.items trails.new.items) }
{
    let rules = rules_for(alloc, wishes, label)?;
    if is_known(trails, label, rules.as_slice()) {
        return Ok(());
    }
    let child = child_of(Some(wishes), label);
    trails.push(RouteDecision {
        label: label.copy(),
        rules,
        child,
    })?;
    Ok(())
}

// Whether a decision by these rules is kept, with a label that is no longer.
fn is_known(trails: &[RouteDecision], label: &ClientLabel, rules: &[usize]) -> bool
    ensures { result ≡ list_any (is_same label.now rules.now) trails.now }
{
    trails.iter().any(|trail| is_same(label, rules, trail))
}

// Whether a decision is by these rules, with a label that is no longer.
fn is_same(label: &ClientLabel, rules: &[usize], trail: &RouteDecision) -> bool
    ensures { result ≡ is_same label.now rules.now trail.now }
{
    trail.rules.as_slice() == rules && trail.label.as_bytes().len() <= label.as_bytes().len()
}
