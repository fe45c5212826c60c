//! Resolves the rules of a start list: for each service, the server to which a rule routes.
ghost use Rattle.std.specs.Prelude.{◌≡◌, ◌++◌, IfOk, OnOk};
ghost use Rattle.std.specs.Option.{option_map};
ghost use Rattle.own_model.specs.Listed.{lead_of, lead_to, lead_without, offer_in, own_rules, own_rules_asking, server_at, way_to};
ghost use Rattle.list_parser.specs.View.{model_binary, model_target};
ghost use Rattle.init_core.specs.Rows.{model_lead};

use crate::rule::{ResolvedRule, ResolvedTarget, ServiceTest};
use list_parser::{Binary, ListEntry, Rule, StartList, Target};
use list_routes::target_child;
use std::alloc::{AllocError, Global};

/// Resolves the rules of the list of an init, given by its number. Returns an error if the host is out of memory.
pub(crate) fn rules_of(
    alloc: Global,
    list: &StartList,
    init: usize,
    rules: &[Rule],
) -> Result<Vec<ResolvedRule>, AllocError>
    ensures { IfOk result
        (λ resolved. resolved.items ≡ own_rules list.now.entries init rules.now) }
{
    let mut resolved = Vec::new(alloc);
    for rule in rules {
        add_rule(&mut resolved, alloc, list, init, rule)?;
    }
    Ok(resolved)
}

/// Appends the resolved rules of a rule: one if it asks for a service. Otherwise there is one for each known service and one
/// for all others.
fn add_rule(
    resolved: &mut Vec<ResolvedRule>,
    alloc: Global,
    list: &StartList,
    init: usize,
    rule: &Rule,
) -> Result<(), AllocError>
    ensures { OnOk result
        (resolved.new.items
        ≡ resolved.old.items
        ++ own_rules_asking list.now.entries init rule.now rule.now.service) }
{
    match rule.service() {
        Some(service) => {
            let to = lead_for(list, init, rule.target(), service.as_bytes())?;
            resolved.push(ResolvedRule::new(alloc, rule, ServiceTest::of_name(service), to)?)?;
        }
        None => {
            for number in 0..list.service_count() {
                let service = list.service(number);
                let to = lead_for(list, init, rule.target(), service.name().as_bytes())?;
                let test = ServiceTest::of_service(service);
                resolved.push(ResolvedRule::new(alloc, rule, test, to)?)?;
            }
            let to = lead_without(rule.target());
            resolved.push(ResolvedRule::new(alloc, rule, ServiceTest::Any, to)?)?;
        }
    }
    Ok(())
}

/// Returns where a target in the list of an init routes a service. Returns an error if the host is out of memory.
fn lead_for(
    list: &StartList,
    init: usize,
    target: &Target,
    service: &[u8],
) -> Result<ResolvedTarget, AllocError>
    ensures { IfOk result (λ to. model_lead to
        ≡ lead_of list.now.entries
        (way_to list.now.entries init (model_target target.now) service.now)) }
{
    match target {
        Target::Parent => Ok(ResolvedTarget::Outward),
        Target::Child(_) | Target::AnyChild => match target_child(list, init, target, service) {
            Some(place) => lead_to(list.entries(), place),
            None => Ok(ResolvedTarget::Nowhere),
        },
    }
}

/// Returns where a target routes a service that no child provides.
fn lead_without(target: &Target) -> ResolvedTarget
    ensures { model_lead result ≡ lead_without (model_target target.now) }
{
    match target {
        Target::Parent => ResolvedTarget::Outward,
        Target::Child(_) | Target::AnyChild => ResolvedTarget::Nowhere,
    }
}

/// Returns the route to the child at a place, if it is a server. Returns an error if the host is out of memory.
fn lead_to(entries: &[ListEntry], place: usize) -> Result<ResolvedTarget, AllocError>
    ensures { IfOk result (λ to. model_lead to ≡ lead_to (server_at entries.now place)) }
{
    match entries.get(place) {
        Some(entry) => lead_to_binary(entry.binary(), place),
        None => Ok(ResolvedTarget::Nowhere),
    }
}

/// Returns the route to a component that runs a binary, if it is a server, by its place. Returns an error if the host is out
/// of memory.
fn lead_to_binary(binary: &Binary, place: usize) -> Result<ResolvedTarget, AllocError>
    ensures { IfOk result (λ to. model_lead to ≡ lead_to (option_map
        (λ offer. record { kind = offer; place = place }) (offer_in (model_binary binary.now)))) }
{
    match binary {
        Binary::Script | Binary::Init => Ok(ResolvedTarget::Nowhere),
        Binary::Server(service) => Ok(ResolvedTarget::ToBuiltIn(*service, place)),
        Binary::Declared(service) => Ok(ResolvedTarget::ToDeclared(service.clone()?, place)),
    }
}
