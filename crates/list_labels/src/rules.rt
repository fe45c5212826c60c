//! The rules that decide a session request.
ghost use Rattle.std.specs.Prelude.{◌≡◌, ◌<◌, ◌++◌, length, IfOk, OnOk};
ghost use Rattle.list_labels.specs.DecidingRules.{decided, decision_of};

use crate::label::ClientLabel;
use crate::route_steps::{RouteStep, route_steps_of};
use crate::session_requests::SessionRequests;
use std::alloc::{AllocError, Global};

/// Returns the places of the rules that decide a request with a label, list by list outward. Fails if the host is out of memory.
pub fn rules_for(
    alloc: Global,
    wishes: SessionRequests<'_>,
    label: &ClientLabel,
) -> Result<Vec<usize>, AllocError>
    requires client { wishes.client < length wishes.list.now.entries }
    ensures { IfOk result (λ rules. rules.items
        ≡ decision_of wishes.entry.list.now wishes.entry.client wishes.entry.service.now label.now) }
{
    let steps = route_steps_of(
        alloc,
        wishes.list,
        wishes.client,
        wishes.service,
        label.as_bytes(),
    )?;
    let mut rules = Vec::new(alloc);
    for hop in steps.as_slice() {
        add_decided(&mut rules, hop)?;
    }
    Ok(rules)
}

// Adds the place of the rule that decides, if one does.
fn add_decided(rules: &mut Vec<usize>, hop: &RouteStep) -> Result<(), AllocError>
    ensures { OnOk result (rules.new.items ≡ rules.old.items ++ decided hop.now.rule) }
{
    match hop.rule() {
        Some(place) => {
            rules.push(place)?;
            Ok(())
        }
        None => Ok(()),
    }
}
