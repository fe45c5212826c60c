//! The targets of rules.
ghost use Rattle.std.specs.Prelude.{◌≡◌, take};
ghost use Rattle.list_findings.specs.RuleTargets.{is_provided};

use list_parser::{Rule, StartList};

/// Returns whether some entry of an init's list provides a service.
pub(crate) fn is_provided(list: &StartList, init: usize, service: &[u8]) -> bool
    ensures { result ≡ is_provided list.now.entries init service.now }
{
    list.entries()
        .iter()
        .any(|entry| entry.offers(init, service))
}

/// Returns the rules of a list before a place.
pub(crate) fn before(rules: &[Rule], place: usize) -> &[Rule]
    ensures { result.now ≡ take place rules.now }
{
    &rules[..place.min(rules.len())]
}
