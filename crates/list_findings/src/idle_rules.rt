//! Rules that decide nothing.
ghost use Rattle.std.specs.Prelude.{◌≡◌};
ghost use Rattle.std.specs.List.{list_any, slice_get};
ghost use Rattle.std.specs.Option.{option_copied};
ghost use Rattle.list_reach.specs.Deciding.{DecisionAt};
ghost use Rattle.list_findings.specs.Idle.{is_among, is_idle, is_of};
ghost use Rattle.list_findings.specs.Views.{ShowAll, ViewOf};

use crate::decision_views::{DecidedList, DecisionView};
use list_parser::{ListEntry, StartList};
use list_parts::RuleOwner;

/// Returns whether the rule at a place of an owner's list decides no request of any script, for any service and with any label.
pub(crate) fn is_idle(decided: DecidedList<'_>, owner: RuleOwner, place: usize) -> bool
    requires views { ShowAll decided.list.now decided.views.now }
    ensures { result ≡ is_idle decided.entry.list.now owner place }
{
    !any_decides(decided.list, decided.views, owner, place)
}

// Whether it decides some requests of some view.
fn any_decides(list: &StartList, views: &[DecisionView], owner: RuleOwner, place: usize) -> bool
    ensures { result ≡ list_any (λ (view : ViewOf). list_any (λ (trail : DecisionAt).
        is_among list.now owner place view.client trail.rules) view.trails) views.now }
{
    views.iter().any(|view| decides(list, owner, place, view))
}

// Whether it decides some requests of a view.
fn decides(list: &StartList, owner: RuleOwner, place: usize, view: &DecisionView) -> bool
    ensures { result
        ≡ list_any (λ (trail : DecisionAt). is_among list.now owner place view.now.client trail.rules)
        view.now.trails }
{
    view.trails.as_slice().iter().any(|trail| is_among(
        list,
        owner,
        place,
        view.client,
        trail.rules(),
    ))
}

// Whether one of the rules that decide a request of a client, list by list outward, is at a place of an owner's list.
fn is_among(
    list: &StartList,
    owner: RuleOwner,
    place: usize,
    client: usize,
    rules: &[usize],
) -> bool
    ensures { result ≡ is_among list.now owner place client rules.now }
{
    let mut number = client;
    for rule in rules {
        let Some(entry) = entry_at(list, number) else {
            return false;
        };
        if is_of(owner, number, entry) && *rule == place {
            return true;
        }
        if entry.home() == 0 {
            return false;
        }
        number = entry.home() - 1;
    }
    false
}

// The entry of a number.
fn entry_at(list: &StartList, number: usize) -> Option<&ListEntry>
    ensures { option_copied result ≡ slice_get list.now.entries number }
{
    list.entries().get(number)
}

/// Returns whether an owner's rules are those for an entry, by the entry's number.
pub(crate) fn is_of(owner: RuleOwner, number: usize, entry: &ListEntry) -> bool
    ensures { result ≡ is_of owner number entry.now }
{
    match owner {
        RuleOwner::Default => entry.route().is_none() && entry.home() == 0,
        RuleOwner::Entry(own) => entry.route().is_some() && number == own,
        RuleOwner::Inner(init) => {
            entry.route().is_none() && entry.home() > init && entry.home() - 1 == init
        }
    }
}
