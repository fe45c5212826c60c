//! Rules that route to no child: the child isn't there, or doesn't provide the service that it is asked for.
ghost use Rattle.std.specs.Prelude.{◌≡◌, ◌++◌, IfOk, OnOk, None};
ghost use Rattle.list_parser.specs.Services.{service_text};
ghost use Rattle.list_parser.specs.View.{model_target};
ghost use Rattle.list_findings.specs.Findings.{has_name, misled, no_child, stray_findings, strays, strays_if_provided, strays_of, target_findings};
ghost use Rattle.list_parts.specs.Steps.{part_of};
ghost use Rattle.list_parts.specs.declared.list_part.PartId.TheVariants as about;

use crate::finding::{Finding, Remark};
use crate::findings::add_remark;
use crate::near::near_name;
use crate::placed_rule::PlacedRule;
use crate::rule_targets::is_provided;
use crate::service_names::name_of;
use crate::unreachable_rules::decides_some;
use list_parser::{ListEntry, ListService, Name, StartList, Target};
use list_routes::target_child;
use std::alloc::{AllocError, Global};

/// Adds the finding that the child of a rule of an init's list isn't there. If it is there, adds the findings for which services
/// the rule routes to no child. Fails if the host is out of memory.
pub(crate) fn add_target_findings(
    found: &mut Vec<Finding>,
    alloc: Global,
    list: &StartList,
    placed: PlacedRule<'_>,
) -> Result<(), AllocError>
    ensures { OnOk result (found.new.items ≡ found.old.items
        ++ target_findings list.now.entries placed.entry.init
        (part_of list.now.entries (about.Rule placed.entry.owner placed.entry.place))
        placed.entry.earlier.now placed.entry.rule.now
        (no_child list.now.entries placed.entry.init placed.entry.rule.now.target)) }
{
    match no_child(alloc, list, placed.init, placed.rule.target())? {
        Some(remark) => add_remark(found, alloc, list, placed.part(), Some(remark)),
        None => add_stray_findings(found, alloc, list, placed),
    }
}

// Whether no entry of an init's list has the name of a target's child.
fn no_child(
    alloc: Global,
    list: &StartList,
    init: usize,
    target: &Target,
) -> Result<Option<Remark>, AllocError>
    ensures { IfOk result
        (λ remark. remark ≡ no_child list.now.entries init (model_target target.now)) }
{
    match target {
        Target::Child(name) => if has_name(list.entries(), init, name.as_bytes()) {
            Ok(None)
        } else {
            let near = near_name(alloc, list.entries(), init, name.as_str())?;
            Ok(Some(Remark::NoChild(name.copy(), near)))
        },
        Target::AnyChild | Target::Parent => Ok(None),
    }
}

// Whether some entry of an init's list has a name.
fn has_name(entries: &[ListEntry], init: usize, name: &[u8]) -> bool
    ensures { result ≡ has_name entries.now init name.now }
{
    entries
        .iter()
        .any(|entry| entry.home() == init && entry.name() == name)
}

// Adds the findings for which services a rule routes to no child.
fn add_stray_findings(
    found: &mut Vec<Finding>,
    alloc: Global,
    list: &StartList,
    placed: PlacedRule<'_>,
) -> Result<(), AllocError>
    ensures { OnOk result (found.new.items
        ≡ found.old.items ++ stray_findings list.now.entries placed.entry.init
        (part_of list.now.entries (about.Rule placed.entry.owner placed.entry.place))
        placed.entry.earlier.now placed.entry.rule.now placed.entry.rule.now.service) }
{
    match placed.rule.service() {
        Some(service) => {
            let remark = strays(list, placed, service);
            add_remark(found, alloc, list, placed.part(), remark)
        }
        None => add_all_stray_findings(found, alloc, list, placed),
    }
}

// Adds the findings for which of all services a rule of any service routes to no child.
fn add_all_stray_findings(
    found: &mut Vec<Finding>,
    alloc: Global,
    list: &StartList,
    placed: PlacedRule<'_>,
) -> Result<(), AllocError>
    ensures { OnOk result (found.new.items
        ≡ found.old.items ++ stray_findings list.now.entries placed.entry.init
        (part_of list.now.entries (about.Rule placed.entry.owner placed.entry.place))
        placed.entry.earlier.now placed.entry.rule.now None) }
{
    for number in 0..list.service_count() {
        let service = list.service(number);
        add_stray_finding(found, alloc, list, placed, service)?;
    }
    Ok(())
}

// Adds the finding that a rule of any service routes to no child for one service.
fn add_stray_finding(
    found: &mut Vec<Finding>,
    alloc: Global,
    list: &StartList,
    placed: PlacedRule<'_>,
    service: ListService<'_>,
) -> Result<(), AllocError>
    ensures { OnOk result (found.new.items
        ≡ found.old.items ++ strays_of list.now.entries placed.entry.init
        (part_of list.now.entries (about.Rule placed.entry.owner placed.entry.place))
        placed.entry.earlier.now placed.entry.rule.now (service_text service.entry)) }
{
    let remark = strays_if_provided(list, placed, service);
    add_remark(found, alloc, list, placed.part(), remark)
}

// The remark that a rule of any service routes to no child for a service that some entry of its list provides.
fn strays_if_provided(
    list: &StartList,
    placed: PlacedRule<'_>,
    service: ListService<'_>,
) -> Option<Remark>
    ensures { result ≡ strays_if_provided list.now.entries placed.entry.init
        placed.entry.earlier.now placed.entry.rule.now (service_text service.entry) }
{
    match name_of(service) {
        Some(name) if is_provided(list, placed.init, name.as_bytes()) => {
            strays(list, placed, &name)
        }
        _ => None,
    }
}

// The remark that a rule decides some requests for a service, and routes them to no child.
fn strays(list: &StartList, placed: PlacedRule<'_>, service: &Name) -> Option<Remark>
    ensures { result ≡ strays list.now.entries placed.entry.init placed.entry.earlier.now
        placed.entry.rule.now service.now }
{
    let asked = service.as_bytes();
    let target = placed.rule.target();
    if decides_some(placed.earlier, placed.rule, asked)
        && target_child(list, placed.init, target, asked).is_none()
    {
        misled(list, placed.init, target, service)
    } else {
        None
    }
}

// Why a target routes a service to no child, unless it routes outward.
fn misled(list: &StartList, init: usize, target: &Target, service: &Name) -> Option<Remark>
    ensures { result ≡ misled list.now.entries init (model_target target.now) service.now }
{
    match target {
        Target::Child(child) => Some(Remark::NotProvided(child.copy(), service.copy())),
        Target::AnyChild => if is_provided(list, init, service.as_bytes()) {
            Some(Remark::SeveralProviders(service.copy()))
        } else {
            Some(Remark::NoProvider(service.copy()))
        },
        Target::Parent => None,
    }
}
