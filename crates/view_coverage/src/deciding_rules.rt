//! The session request of an answered call, and the rules that decide it.
ghost use Rattle.std.specs.Prelude.{◌≡◌, ◌∷◌, ◌++◌, ◌<◌, ◌≤◌, [], length, IfOk, IfSome, IfNone, OnOk, Some, None};
ghost use Rattle.std.specs.List.{slice_get};
ghost use Rattle.std.specs.Option.{option_and_then, option_map};
ghost use Rattle.std.specs.Str.{bytes_eq};
ghost use Rattle.trade_base.specs.Refusal.{refusal_name};
ghost use Rattle.core_calls.specs.Call.{model_call};
ghost use Rattle.own_model.specs.Listed.{services_of};
ghost use Rattle.own_model.specs.Session.{given};
ghost use Rattle.view_coverage.specs.Covered.{asked_in, service_number};
ghost use Rattle.view_coverage.specs.Rules.{default_of, init_of, init_place, is_turned_away, request_by, request_of, route_by, route_for, rule_in, rules_from, rules_of_request};
ghost use Rattle.view_coverage.specs.Views.{request_view};

use crate::event::{RouteOwner, RulePlace, ScriptService};
use core_calls::{Answer, Call, Outcome};
use list_labels::RouteStep;
use list_parser::{ListEntry, StartList};
use list_reach::{RoutePath, service_name};
use session_proto::SessionArgs;
use std::alloc::{AllocError, Global};
use trade_base::Refusal;

/// The refusals of a call that is refused before any rule is asked.
const TURNED_AWAY: [Refusal; 5] = [
    Refusal::BadLine,
    Refusal::UnknownComponent,
    Refusal::NotAScript,
    Refusal::Gone,
    Refusal::BadArgs,
];

/// A session request of a component, by the component's number, the service and the label.
#[derive(Clone, Copy)]
pub(crate) struct SessionRequest<'a> {
    pub(crate) client: usize,
    pub(crate) service: &'a [u8],
    pub(crate) label: &'a [u8],
}

/// Returns the session request of a component's call with this reply. A call that was refused before any rule was asked has none.
pub(crate) fn request_of<'a>(
    list: &StartList,
    name: &[u8],
    call: Call<'a>,
    answer: Answer<'_>,
) -> Option<SessionRequest<'a>>
    ensures value { option_map request_view result ≡ request_of list.now
        (record { name = name.now; call = model_call call.entry }) answer.entry.text.now }
    ensures client { IfSome result (λ request. request.client < length list.now.entries) }
    ensures label { IfSome result (λ request. length request.label.now ≤ 64) }
{
    if is_turned_away(answer) {
        return None;
    }
    request_by(list, name, call)
}

// Returns whether an answer is one of those refusals.
fn is_turned_away(answer: Answer<'_>) -> bool
    ensures { result ≡ is_turned_away answer.entry.text.now }
{
    TURNED_AWAY
        .iter()
        .any(|refusal| is_refused(answer, *refusal))
}

// Returns whether a reply is a call's refusal of this kind.
fn is_refused(answer: Answer<'_>, refusal: Refusal) -> bool
    ensures { result ≡ bytes_eq answer.entry.text.now (refusal_name refusal) }
{
    matches!(answer.outcome, Outcome::Refused(other) if other == refusal)
}

// Returns the session request of a component's call, if it makes one.
fn request_by<'a>(list: &StartList, name: &[u8], call: Call<'a>) -> Option<SessionRequest<'a>>
    ensures value { option_map request_view result
        ≡ request_by list.now name.now (model_call call.entry) }
    ensures client { IfSome result (λ request. request.client < length list.now.entries) }
    ensures label { IfSome result (λ request. length request.label.now ≤ 64) }
{
    let Call::Open { service, args } = call else {
        return None;
    };
    match list.find(name) {
        Some(client) => Some(SessionRequest {
            client,
            service,
            label: label_given(args),
        }),
        None => None,
    }
}

/// Returns the script and the service of a session request, if there is one and the list has the service.
pub(crate) fn asked_in(
    list: &StartList,
    request: Option<SessionRequest<'_>>,
) -> Option<ScriptService>
    ensures { result ≡ asked_in list.now (option_map request_view request.entry) }
{
    let request = request?;
    match service_number(list, request.service) {
        Some(service) => Some(ScriptService {
            client: request.client,
            service,
        }),
        None => None,
    }
}

// Returns the number of a service of a list, given by its name, if the list has the service.
#[tactic(auto, using(crate::proofs::ServiceLemmas::service_found, crate::proofs::ServiceLemmas::service_passed))]
fn service_number(list: &StartList, name: &[u8]) -> Option<usize>
    ensures { result
        ≡ service_number name.now 0 (services_of list.now.entries) }
{
    for number in 0..list.service_count() {
        if service_name(list, number).as_bytes() == name {
            return Some(number);
        }
    }
    None
}

/// Returns the rules that decide a session request, if there is one, list by list outward. Fails if the host is out of memory.
pub(crate) fn rules_of_request(
    alloc: Global,
    list: &StartList,
    request: Option<SessionRequest<'_>>,
) -> Result<Vec<RulePlace>, AllocError>
    requires client { IfSome request (λ asked. asked.client < length list.now.entries) }
    requires label { IfSome request (λ asked. length asked.label.now ≤ 64) }
    ensures { IfOk result (λ rules. rules.items
        ≡ rules_of_request list.now (option_map request_view request.entry)) }
{
    let Some(asked) = request else {
        return Ok(Vec::new(alloc));
    };
    rules_of(alloc, list, asked)
}

// The rules that decide the request of a client.
fn rules_of(
    alloc: Global,
    list: &StartList,
    asked: SessionRequest<'_>,
) -> Result<Vec<RulePlace>, AllocError>
    requires client { asked.client < length list.now.entries }
    requires label { length asked.label.now ≤ 64 }
    ensures { IfOk result (λ rules. rules.items
        ≡ rules_of_request list.now (Some (request_view asked.entry))) }
{
    let client = asked.client;
    let course = RoutePath::of(alloc, list, client, asked.service, asked.label)?;
    let mut rules = Vec::new(alloc);
    add_rules(&mut rules, list, client, course.hops())?;
    Ok(rules)
}

// Adds the rules of route steps, from those for an entry on outward.
fn add_rules(
    rules: &mut Vec<RulePlace>,
    list: &StartList,
    client: usize,
    hops: &[RouteStep],
) -> Result<(), AllocError>
    ensures { OnOk result (rules.new.items
        ≡ rules.old.items ++ rules_from list.now (Some client) hops.now) }
{
    let mut asks = Some(client);
    for hop in hops {
        if let Some(rule) = rule_in(route_of(list, asks), hop.rule()) {
            rules.push(rule)?;
        }
        asks = outward(list, asks);
    }
    Ok(())
}

// A rule of a route, if one decides.
fn rule_in(route: Option<RouteOwner>, place: Option<usize>) -> Option<RulePlace>
    ensures some { IfSome result (λ rule. rule_in route place ≡ rule ∷ []) }
    ensures none { IfNone result (rule_in route place ≡ []) }
{
    Some(RulePlace {
        route: route?,
        place: place?,
    })
}

// The rules for the component that asks.
fn route_of(list: &StartList, asks: Option<usize>) -> Option<RouteOwner>
    ensures { result ≡ option_and_then (route_for list.now) asks }
{
    let client = asks?;
    let entry = list.entries().get(client)?;
    Some(route_by(client, entry))
}

// The rules for an entry by its number.
fn route_by(client: usize, entry: &ListEntry) -> RouteOwner
    ensures { result ≡ route_by client entry.now }
{
    if entry.route().is_some() {
        RouteOwner::Own(client)
    } else {
        default_of(init_place(entry.home()))
    }
}

// The default route of the list of an init.
fn default_of(init: Option<usize>) -> RouteOwner
    ensures { result ≡ default_of init }
{
    match init {
        None => RouteOwner::Machine,
        Some(place) => RouteOwner::Inner(place),
    }
}

// The parent init of the component that asks, if it is a component itself.
fn outward(list: &StartList, asks: Option<usize>) -> Option<usize>
    ensures { result ≡ option_and_then (init_of list.now) asks }
{
    let entry = list.entries().get(asks?)?;
    init_place(entry.home())
}

// The number of an init's own entry.
fn init_place(init: usize) -> Option<usize>
    ensures { result ≡ init_place init }
{
    if init == 0 { None } else { Some(init - 1) }
}

// The label of a session's arguments.
fn label_given(args: &[u8]) -> &[u8]
    ensures label { result.now ≡ (given args.now).label }
    ensures short { length result.now ≤ 64 }
{
    match SessionArgs::read(args) {
        Ok(args) => args.label(),
        Err(_) => b"",
    }
}
