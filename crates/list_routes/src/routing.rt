//! The route of a client's session request.
ghost use Rattle.std.specs.Prelude.{◌≡◌, ◌+◌, ◌*◌, ◌<◌, ◌≤◌, None, count_by, length, position};
ghost use Rattle.std.specs.List.{slice_get};
ghost use Rattle.std.specs.Option.{option_and_then};
ghost use Rattle.own_model.specs.Listed.{end_of, named_provider, offers, only_provider, route_of, route_within, way_by, way_to};
ghost use Rattle.list_parser.specs.View.{model_target};
ghost use Rattle.list_routes.specs.RoutingStep.{model_way};

use core_calls::label_of;
use list_parser::{ListEntry, Rule, StartList, Target};

/// The most lists between a client and the machine, including both of theirs.
pub const MOST_LISTS: usize = 4;

/// A step of a route: a rule selects a child or none, or routes the request out of its init.
#[derive(Clone, Copy, PartialEq, Eq)]
enum RoutingStep {
    /// To the child of this number, or to none.
    Inside(Option<usize>),
    /// Out of the init, to the list that has the init.
    Outside,
}

/// Routes a client's session request and returns the number of the child, or `None` if the request is denied. The first rule
/// that matches the service and the given label decides: of the client's own route, or else of its list's default route. If
/// that rule routes outward, its init makes the request, with the client's name before the label.
pub fn route(list: &StartList, client: usize, service: &[u8], label: &[u8]) -> Option<usize>
    requires client { client < length list.now.entries }
    requires label { length label.now ≤ 64 }
    ensures { result ≡ route_of list.now client service.now label.now }
{
    route_within(list, MOST_LISTS, client, service, label)
}

/// Routes the same request through this number of lists at most.
fn route_within(
    list: &StartList,
    lists: usize,
    client: usize,
    service: &[u8],
    label: &[u8],
) -> Option<usize>
    requires client { client < length list.now.entries }
    requires label { length label.now + lists * 36 ≤ 208 }
    ensures { result
        ≡ option_and_then (λ entry. route_within lists list.now entry service.now label.now)
        (slice_get list.now.entries client) }
{
    if lists == 0 {
        return None;
    }
    let entry = &list.entries()[client];
    let home = list.home(client);
    match way_by(list.entries(), home, list.rules_for(client), service, label) {
        RoutingStep::Inside(child) => child,
        RoutingStep::Outside => if home == 0 {
            None
        } else {
            let label = label_of(entry.name(), label);
            route_within(list, lists - 1, home - 1, service, label.as_slice())
        },
    }
}

/// Returns the step of the first rule that matches, or a step to no child if none matches.
fn way_by(
    entries: &[ListEntry],
    init: usize,
    rules: &[Rule],
    service: &[u8],
    label: &[u8],
) -> RoutingStep
    ensures { model_way result ≡ way_by entries.now init rules.now service.now label.now }
{
    for rule in rules {
        if rule.matches(service, label) {
            return way_to(entries, init, rule.target(), service);
        }
    }
    RoutingStep::Inside(None)
}

/// Returns the number of the child of an init that a target selects for a service, or `None`.
pub fn target_child(list: &StartList, init: usize, target: &Target, service: &[u8]) -> Option<usize>
    ensures { result
        ≡ end_of (way_to list.now.entries init (model_target target.now) service.now) None }
{
    match way_to(list.entries(), init, target, service) {
        RoutingStep::Inside(child) => child,
        RoutingStep::Outside => None,
    }
}

/// Returns the step that a target takes for a service.
fn way_to(entries: &[ListEntry], init: usize, target: &Target, service: &[u8]) -> RoutingStep
    ensures { model_way result ≡ way_to entries.now init (model_target target.now) service.now }
{
    match target {
        Target::Child(name) => RoutingStep::Inside(named_provider(
            entries,
            init,
            name.as_bytes(),
            service,
        )),
        Target::AnyChild => RoutingStep::Inside(only_provider(entries, init, service)),
        Target::Parent => RoutingStep::Outside,
    }
}

/// Returns the child of a name, if it provides the service.
fn named_provider(entries: &[ListEntry], init: usize, name: &[u8], service: &[u8]) -> Option<usize>
    ensures { result ≡ named_provider entries.now init name.now service.now }
{
    entries.iter().position(|entry| entry.name() == name && entry.offers(init, service))
}

/// Returns the only child that provides the service, if there is exactly one.
fn only_provider(entries: &[ListEntry], init: usize, service: &[u8]) -> Option<usize>
    ensures { result ≡ only_provider entries.now init service.now }
{
    if provider_count(entries, init, service) == 1 {
        first_provider(entries, init, service)
    } else {
        None
    }
}

/// Counts the children of an init that provide a service.
fn provider_count(entries: &[ListEntry], init: usize, service: &[u8]) -> usize
    ensures { result ≡ count_by (offers init service.now) entries.now }
{
    entries
        .iter()
        .filter(|entry| entry.offers(init, service))
        .count()
}

/// Returns the first child of an init that provides a service.
fn first_provider(entries: &[ListEntry], init: usize, service: &[u8]) -> Option<usize>
    ensures { result ≡ position (offers init service.now) entries.now }
{
    entries.iter().position(|entry| entry.offers(init, service))
}
