//! The steps of a route path: which rules decide one session request, list by list outward.
ghost use Rattle.std.specs.Prelude.{◌≡◌, ◌+◌, ◌*◌, ◌≤◌, ◌++◌, length, position, IfOk, OnOk};
ghost use Rattle.own_model.specs.Listed.{asks_for};
ghost use Rattle.list_labels.specs.RouteSteps.{route_steps_of, route_steps_within, leads_out};

use crate::label::{LONGEST_SEEN, MOST_LISTS, label_with};
use arrayvec::ArrayVec;
use list_parser::{ListEntry, Rule, StartList};
use std::alloc::{AllocError, Global};
use std::marker::Model;

/// A step of a route path: the label as one list sees it, and the rule of the list that decides the request.
#[derive(Drop)]
pub struct RouteStep {
    seen: ArrayVec<u8, LONGEST_SEEN>,
    rule: Option<usize>,
}

impl Model for RouteStep {
    ghost use Rattle.list_labels.specs.RouteSteps.{RouteStepAt};

    ghost Value = { RouteStepAt };

    ghost view = { λ hop. record {
      seen = hop.seen.items;
      rule = hop.rule;
    } };
}

impl RouteStep {
    ghost use Rattle.std.specs.Prelude.{◌≡◌};

    /// Returns the bytes of the label as the list sees it.
    pub fn seen(&self) -> &[u8]
        ensures { result.now ≡ self.now.seen }
    {
        self.seen.as_slice()
    }

    /// Returns the place of the rule that decides, from 0 on, or none if no rule matches.
    pub fn rule(&self) -> Option<usize>
        ensures { result ≡ self.now.rule }
    {
        self.rule
    }
}

/// Returns the steps of a client's request for a service with a label of at most 64 bytes: what each list decides, from the
/// client's own list outward. Fails if the host is out of memory.
#[tactic(auto, unfolding(crate::specs::RouteSteps::route_steps_of))]
pub fn route_steps_of(
    alloc: Global,
    list: &StartList,
    client: usize,
    service: &[u8],
    label: &[u8],
) -> Result<Vec<RouteStep>, AllocError>
    requires label { length label.now ≤ 64 }
    ensures { IfOk result (λ hops. hops.items
        ≡ route_steps_of list.now client service.now label.now) }
{
    let mut hops = Vec::new(alloc);
    if let Some(entry) = list.entries().get(client) {
        add_hops(&mut hops, list, MOST_LISTS, entry, service, label)?;
    }
    Ok(hops)
}

// The decisions of the rules for an entry and, if these route outward, of the rules for the inits above it.
fn add_hops(
    hops: &mut Vec<RouteStep>,
    list: &StartList,
    lists: usize,
    entry: &ListEntry,
    service: &[u8],
    seen: &[u8],
) -> Result<(), AllocError>
    requires seen { length seen.now + lists * 36 ≤ 208 }
    ensures { OnOk result (hops.new.items
        ≡ hops.old.items ++ route_steps_within lists list.now entry.now service.now seen.now) }
{
    if lists == 0 {
        return Ok(());
    }
    let rules = list.rules_of(entry);
    let rule = first_match(rules, service, seen);
    hops.push(RouteStep {
        seen: copied(seen),
        rule,
    })?;
    if !leads_out(rules, rule) {
        return Ok(());
    }
    match list.init_entry(entry.home()) {
        Some(init) => {
            let outer = label_with(entry.name(), seen);
            add_hops(hops, list, lists - 1, init, service, outer.as_slice())
        }
        None => Ok(()),
    }
}

// The place of the first rule that matches.
fn first_match(rules: &[Rule], service: &[u8], seen: &[u8]) -> Option<usize>
    ensures { result ≡ position (λ rule. asks_for rule service.now seen.now) rules.now }
{
    rules.iter().position(|rule| rule.matches(service, seen))
}

// Whether the rule at a place routes outward.
fn leads_out(rules: &[Rule], place: Option<usize>) -> bool
    ensures { result ≡ leads_out rules.now place }
{
    let Some(place) = place else {
        return false;
    };
    match rules.get(place) {
        Some(rule) => rule.target().is_parent(),
        None => false,
    }
}

// A copy of the bytes of a label.
fn copied(seen: &[u8]) -> ArrayVec<u8, LONGEST_SEEN>
    requires { length seen.now ≤ 208 }
    ensures { result.items ≡ seen.now }
{
    let mut text = ArrayVec::<u8, LONGEST_SEEN>::new();
    let _ = text.try_extend_from_slice(seen);
    text
}
