//! Rules that earlier rules make unreachable.
ghost use Rattle.std.specs.Prelude.{◌≡◌, nat_eq, true, position};
ghost use Rattle.std.specs.List.{starts_with, ends_with};
ghost use Rattle.std.specs.Option.{is_none, option_copied};
ghost use Rattle.list_parts.specs.Texts.{has};
ghost use Rattle.list_findings.specs.UnreachableRules.{covers, covers_labels, covers_prefix, covers_suffix, decides_some, hides, is_decided_before, UnreachableNeverDecide};

use list_parser::{Name, Rule};

/// Returns whether the label conditions of the earlier rule are implied by those of the later rule.
pub(crate) fn covers_labels(earlier: &Rule, later: &Rule) -> bool
    ensures { result ≡ covers_labels earlier.now later.now }
{
    covers_label(earlier, later) && covers_prefix(earlier, later) && covers_suffix(earlier, later)
}

// The same for the whole label.
fn covers_label(earlier: &Rule, later: &Rule) -> bool
    ensures { result ≡ covers earlier.now.label later.now.label }
{
    match (earlier.label(), later.label()) {
        (None, _) => true,
        (Some(asked), Some(label)) => asked.as_bytes() == label.as_bytes(),
        (Some(_), None) => false,
    }
}

// The same for how the label begins.
fn covers_prefix(earlier: &Rule, later: &Rule) -> bool
    ensures { result ≡ covers_prefix earlier.now later.now }
{
    match earlier.label_prefix() {
        None => true,
        Some(asked) => begins(later.label(), asked) || begins(later.label_prefix(), asked),
    }
}

// The same for how the label ends.
fn covers_suffix(earlier: &Rule, later: &Rule) -> bool
    ensures { result ≡ covers_suffix earlier.now later.now }
{
    match earlier.label_suffix() {
        None => true,
        Some(asked) => ends(later.label(), asked) || ends(later.label_suffix(), asked),
    }
}

// Whether there is a text, and it begins so.
fn begins(text: Option<&str>, asked: &str) -> bool
    ensures { result
        ≡ has (λ text. starts_with nat_eq text asked.now) (option_copied text.entry) }
{
    match text {
        Some(text) => text.as_bytes().starts_with(asked.as_bytes()),
        None => false,
    }
}

// Whether there is a text, and it ends so.
fn ends(text: Option<&str>, asked: &str) -> bool
    ensures { result ≡ has (λ text. ends_with nat_eq text asked.now) (option_copied text.entry) }
{
    match text {
        Some(text) => text.as_bytes().ends_with(asked.as_bytes()),
        None => false,
    }
}

/// Returns whether an earlier rule makes a later one unreachable: the earlier rule matches any request that the later one
/// matches.
pub(crate) fn hides(earlier: &Rule, later: &Rule) -> bool
    ensures { result ≡ hides earlier.now later.now }
{
    covers_service(earlier.service(), later.service()) && covers_labels(earlier, later)
}

// Whether what is asked of the service is implied by what the later rule asks.
fn covers_service(earlier: Option<&Name>, later: Option<&Name>) -> bool
    ensures { result ≡ covers (option_copied earlier.entry) (option_copied later.entry) }
{
    match (earlier, later) {
        (None, _) => true,
        (Some(earlier), Some(later)) => earlier.as_bytes() == later.as_bytes(),
        (Some(_), None) => false,
    }
}

/// Returns the place of the first earlier rule that makes a rule unreachable, or none if no rule does.
pub(crate) fn hidden_by(earlier: &[Rule], rule: &Rule) -> Option<usize>
    ensures { result ≡ position (λ before. hides before rule.now) earlier.now }
{
    earlier.iter().position(|before| hides(before, rule))
}

/// Returns whether a rule decides some requests for a service: it asks for the service, and no earlier rule decides all of these
/// requests.
pub(crate) fn decides_some(earlier: &[Rule], rule: &Rule, service: &[u8]) -> bool
    ensures { result ≡ decides_some earlier.now rule.now service.now }
{
    rule.asks_service(service) && !is_decided_before(earlier, rule, service)
}

// Whether one of the earlier rules decides any request for a service that the rule matches.
fn is_decided_before(earlier: &[Rule], rule: &Rule, service: &[u8]) -> bool
    ensures { result ≡ is_decided_before earlier.now rule.now service.now }
{
    earlier.iter().any(|before| before.asks_service(service) && covers_labels(before, rule))
}

/// Proves that an unreachable rule never decides: an earlier rule matches any request that it matches.
#[tactic(auto, using(crate::proofs::HidingLemmas::hidden_never_decide))]
pub fn unreachable_rules_never_decide()
    ensures { UnreachableNeverDecide }
{}
