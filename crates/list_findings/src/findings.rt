//! The findings of a start list in the order of its parts. The first parts are the rules of the machine's default route. Each
//! entry follows with its own route and the default route of what it starts.
ghost use Rattle.std.specs.Prelude.{◌≡◌, ◌<◌, ◌++◌, is_some, OnOk};
ghost use Rattle.std.specs.Option.{option_copied};
ghost use Rattle.list_findings.specs.Findings.{entry_findings, finding_on, findings_of, hidden, label_findings, low_caps, low_ram, machines_name, missed, pages_findings, part_pages, part_reserve, route_findings, rule_findings, rules_findings, unreached, use_findings, useless};
ghost use Rattle.list_findings.specs.Outer.{chosen_end, outer_init, wide_front};
ghost use Rattle.list_parts.specs.Steps.{part_of};
ghost use Rattle.list_findings.specs.Views.{ShowAll};
ghost use Rattle.list_parts.specs.declared.list_part.PartId.TheVariants as about;

use crate::decision_views::{DecidedList, views_of};
use crate::finding::{Finding, Remark};
use crate::idle_rules::is_idle;
use crate::missing_targets::add_target_findings;
use crate::near::other_case;
use crate::outer_lists::{chosen_end, idle_remark, outer_init, wide_front};
use crate::placed_rule::PlacedRule;
use crate::reached::{is_routed_at_all, is_routed_to};
use crate::rule_targets::before;
use crate::service_names::built_in_name;
use crate::unreachable_rules::hidden_by;
use list_parser::{Binary, ListEntry, Name, Rule, StartList};
use list_parts::{PartId, RuleOwner};
use std::alloc::{AllocError, Global};

/// The minimum RAM in bytes that suffices for a session.
const SESSION_RAM: u64 = 4096;

/// The minimum number of capabilities that suffices for a session.
const SESSION_CAPS: u32 = 2;

/// Adds the findings of a start list, in the order of its parts. Fails if the host is out of memory.
pub(crate) fn add_findings(
    found: &mut Vec<Finding>,
    alloc: Global,
    list: &StartList,
) -> Result<(), AllocError>
    ensures { OnOk result (found.new.items ≡ found.old.items ++ findings_of list.now) }
{
    let views = views_of(alloc, list)?;
    let decided = DecidedList {
        list,
        views: views.as_slice(),
    };
    let rules = list.default_route();
    add_rules_findings(found, alloc, decided, 0, RuleOwner::Default, rules)?;
    let entries = list.entries();
    let count = list.count();
    prove!(count <= 32);
    for (number, entry) in entries.iter().enumerate() {
        add_entry_findings(found, alloc, decided, number, entry)?;
    }
    Ok(())
}

// Adds the findings of an entry, of its own route, and of the default route of what it starts.
fn add_entry_findings(
    found: &mut Vec<Finding>,
    alloc: Global,
    decided: DecidedList<'_>,
    number: usize,
    entry: &ListEntry,
) -> Result<(), AllocError>
    requires number { number < 32 }
    requires views { ShowAll decided.list.now decided.views.now }
    ensures { OnOk result
        (found.new.items ≡ found.old.items ++ entry_findings decided.entry.list.now (number, entry.now)) }
{
    let name = machines_name(entry);
    add_remark(found, alloc, decided.list, PartId::Entry(number), name)?;
    add_pages_findings(found, alloc, decided.list, number, entry)?;
    add_use_findings(found, alloc, decided, number, entry)?;
    add_route_findings(found, alloc, decided, number, entry)?;
    let owner = RuleOwner::Inner(number);
    add_rules_findings(
        found,
        alloc,
        decided,
        number + 1,
        owner,
        entry.inner_route(),
    )
}

// Adds the findings of an entry's own route, if it has one.
fn add_route_findings(
    found: &mut Vec<Finding>,
    alloc: Global,
    decided: DecidedList<'_>,
    number: usize,
    entry: &ListEntry,
) -> Result<(), AllocError>
    requires views { ShowAll decided.list.now decided.views.now }
    ensures { OnOk result (found.new.items
        ≡ found.old.items ++ route_findings decided.entry.list.now (number, entry.now) entry.now.route) }
{
    match entry.route() {
        Some(rules) => {
            let owner = RuleOwner::Entry(number);
            add_rules_findings(found, alloc, decided, entry.home(), owner, rules)
        }
        None => Ok(()),
    }
}

// Adds the finding that an entry's RAM, or its reserve's, isn't whole pages.
fn add_pages_findings(
    found: &mut Vec<Finding>,
    alloc: Global,
    list: &StartList,
    number: usize,
    entry: &ListEntry,
) -> Result<(), AllocError>
    ensures { OnOk result (found.new.items ≡ found.old.items
        ++ pages_findings (part_of list.now.entries (about.Entry number)) entry.now) }
{
    let about = PartId::Entry(number);
    add_remark(found, alloc, list, about, part_pages(entry))?;
    add_remark(found, alloc, list, about, part_reserve(entry))
}

// Adds the findings on a script's budget, or the finding that a server isn't reached.
fn add_use_findings(
    found: &mut Vec<Finding>,
    alloc: Global,
    decided: DecidedList<'_>,
    number: usize,
    entry: &ListEntry,
) -> Result<(), AllocError>
    requires views { ShowAll decided.list.now decided.views.now }
    ensures { OnOk result (found.new.items ≡ found.old.items
        ++ use_findings decided.entry.list.now
        (part_of decided.entry.list.now.entries (about.Entry number))
        (number, entry.now) entry.now.binary) }
{
    let about = PartId::Entry(number);
    let list = decided.list;
    match entry.binary() {
        Binary::Script => {
            add_remark(found, alloc, list, about, low_ram(decided, number, entry))?;
            add_remark(found, alloc, list, about, low_caps(decided, number, entry))
        }
        Binary::Server(service) => match built_in_name(*service) {
            Some(name) => add_missed(found, alloc, decided, number, entry, name),
            None => Ok(()),
        },
        Binary::Declared(service) => {
            let name = service.name().copy();
            add_missed(found, alloc, decided, number, entry, name)
        }
        Binary::Init => Ok(()),
    }
}

// Adds the finding that a server of a service doesn't provide it, or isn't reached.
fn add_missed(
    found: &mut Vec<Finding>,
    alloc: Global,
    decided: DecidedList<'_>,
    number: usize,
    entry: &ListEntry,
    service: Name,
) -> Result<(), AllocError>
    requires views { ShowAll decided.list.now decided.views.now }
    ensures { OnOk result (found.new.items ≡ found.old.items
        ++ finding_on (part_of decided.entry.list.now.entries (about.Entry number))
        (missed decided.entry.list.now service (number, entry.now))) }
{
    let remark = missed(decided, service, number, entry);
    add_remark(found, alloc, decided.list, PartId::Entry(number), remark)
}

// Whether an entry of the outermost list has the name of the machine's own account.
fn machines_name(entry: &ListEntry) -> Option<Remark>
    ensures { result ≡ machines_name entry.now }
{
    if entry.home() == 0 && entry.name() == b"init".as_slice() {
        Some(Remark::MachinesName)
    } else {
        None
    }
}

// Whether an entry's RAM isn't whole pages.
fn part_pages(entry: &ListEntry) -> Option<Remark>
    ensures { result ≡ part_pages entry.now }
{
    if entry.ram() % 4096 == 0 {
        None
    } else {
        Some(Remark::PartPages(entry.ram()))
    }
}

// The same for its reserve.
fn part_reserve(entry: &ListEntry) -> Option<Remark>
    ensures { result ≡ part_reserve entry.now }
{
    let kept = entry.reserve_at_start().ram.0;
    if kept % 4096 == 0 {
        None
    } else {
        Some(Remark::PartReserve(kept))
    }
}

// The remark that a client whose requests are routed to a server has insufficient RAM for a session, in its account and its
// reserve together.
fn low_ram(decided: DecidedList<'_>, number: usize, entry: &ListEntry) -> Option<Remark>
    requires views { ShowAll decided.list.now decided.views.now }
    ensures { result ≡ low_ram decided.entry.list.now (number, entry.now) }
{
    let kept = entry.reserve_at_start().ram.0;
    if is_routed_at_all(decided.views, number) && entry.ram().saturating_add(kept) < SESSION_RAM {
        Some(Remark::LowRam(entry.ram(), kept))
    } else {
        None
    }
}

// The same for capabilities.
fn low_caps(decided: DecidedList<'_>, number: usize, entry: &ListEntry) -> Option<Remark>
    requires views { ShowAll decided.list.now decided.views.now }
    ensures { result ≡ low_caps decided.entry.list.now (number, entry.now) }
{
    let kept = entry.reserve_at_start().caps.0;
    if is_routed_at_all(decided.views, number) && entry.caps().saturating_add(kept) < SESSION_CAPS {
        Some(Remark::LowCaps(entry.caps(), kept))
    } else {
        None
    }
}

// Whether a server doesn't provide its service, or isn't reached.
fn missed(
    decided: DecidedList<'_>,
    service: Name,
    number: usize,
    entry: &ListEntry,
) -> Option<Remark>
    requires views { ShowAll decided.list.now decided.views.now }
    ensures { result
        ≡ missed decided.entry.list.now service (number, entry.now) }
{
    if entry.provides() {
        unreached(decided, number)
    } else {
        Some(Remark::NotProviding(service))
    }
}

// The remark that no script's request is routed to a server.
fn unreached(decided: DecidedList<'_>, number: usize) -> Option<Remark>
    requires views { ShowAll decided.list.now decided.views.now }
    ensures { result ≡ unreached decided.entry.list.now number }
{
    if is_routed_to(decided.views, number) {
        None
    } else {
        Some(Remark::Unreached)
    }
}

// Adds the findings of an owner's rules, which belong to an init's list.
fn add_rules_findings(
    found: &mut Vec<Finding>,
    alloc: Global,
    decided: DecidedList<'_>,
    init: usize,
    owner: RuleOwner,
    rules: &[Rule],
) -> Result<(), AllocError>
    requires views { ShowAll decided.list.now decided.views.now }
    ensures { OnOk result (found.new.items
        ≡ found.old.items ++ rules_findings decided.entry.list.now init owner rules.now) }
{
    for (place, rule) in rules.iter().enumerate() {
        let placed = PlacedRule {
            init,
            owner,
            place,
            earlier: before(rules, place),
            rule,
        };
        add_label_findings(found, alloc, decided, placed)?;
        add_rule_findings(found, alloc, decided.list, placed)?;
    }
    Ok(())
}

// Adds the findings on the label of a rule.
fn add_label_findings(
    found: &mut Vec<Finding>,
    alloc: Global,
    decided: DecidedList<'_>,
    placed: PlacedRule<'_>,
) -> Result<(), AllocError>
    requires views { ShowAll decided.list.now decided.views.now }
    ensures { OnOk result (found.new.items ≡ found.old.items
        ++ label_findings decided.entry.list.now
        (part_of decided.entry.list.now.entries (about.Rule placed.entry.owner placed.entry.place))
        placed.entry.owner (outer_init decided.entry.list.now placed.entry.owner)
        placed.entry.earlier.now (placed.entry.place, placed.entry.rule.now)) }
{
    let init = outer_init(decided.list, placed.owner);
    let remark = useless(decided, init.is_some(), placed);
    add_remark(found, alloc, decided.list, placed.part(), remark)?;
    add_text_findings(found, alloc, decided.list, init, placed)
}

// Adds the findings on labels that a rule's texts match unintentionally. `init` is the first init that asks the rule, if one
// does.
fn add_text_findings(
    found: &mut Vec<Finding>,
    alloc: Global,
    list: &StartList,
    init: Option<&ListEntry>,
    placed: PlacedRule<'_>,
) -> Result<(), AllocError>
    ensures { OnOk result (found.new.items ≡ found.old.items
        ++ (finding_on
        (part_of list.now.entries (about.Rule placed.entry.owner placed.entry.place))
        (wide_front list.now.entries (option_copied init.entry)
        placed.entry.rule.now.label_prefix)
        ++ finding_on
        (part_of list.now.entries (about.Rule placed.entry.owner placed.entry.place))
        (chosen_end (is_some (option_copied init.entry)) placed.entry.rule.now))) }
{
    let rule = placed.rule;
    let remark = wide_front(alloc, list.entries(), init, rule.label_prefix())?;
    add_remark(found, alloc, list, placed.part(), remark)?;
    add_remark(
        found,
        alloc,
        list,
        placed.part(),
        chosen_end(init.is_some(), rule),
    )
}

// Why a rule decides nothing, if it does. `outer` is whether an init asks it.
fn useless(decided: DecidedList<'_>, outer: bool, placed: PlacedRule<'_>) -> Option<Remark>
    requires views { ShowAll decided.list.now decided.views.now }
    ensures { result ≡ useless decided.entry.list.now placed.entry.owner outer
        placed.entry.earlier.now (placed.entry.place, placed.entry.rule.now) }
{
    match hidden(placed.earlier, placed.rule) {
        Some(remark) => Some(remark),
        None if is_idle(decided, placed.owner, placed.place) => {
            Some(idle_remark(outer, placed.rule))
        }
        None => None,
    }
}

// Adds the findings on the service and the target of a rule.
fn add_rule_findings(
    found: &mut Vec<Finding>,
    alloc: Global,
    list: &StartList,
    placed: PlacedRule<'_>,
) -> Result<(), AllocError>
    ensures { OnOk result (found.new.items
        ≡ found.old.items ++ rule_findings list.now.entries placed.entry.init
        (part_of list.now.entries (about.Rule placed.entry.owner placed.entry.place))
        placed.entry.earlier.now placed.entry.rule.now) }
{
    let remark = other_case(list, placed.rule.service());
    add_remark(found, alloc, list, placed.part(), remark)?;
    add_target_findings(found, alloc, list, placed)
}

// The remark that an earlier rule makes a rule unreachable.
fn hidden(earlier: &[Rule], rule: &Rule) -> Option<Remark>
    ensures { result ≡ hidden earlier.now rule.now }
{
    match hidden_by(earlier, rule) {
        Some(place) => Some(Remark::Hidden(place)),
        None => None,
    }
}

/// Adds a remark on a part, if there is one. Fails if the host is out of memory.
pub(crate) fn add_remark(
    found: &mut Vec<Finding>,
    alloc: Global,
    list: &StartList,
    about: PartId,
    remark: Option<Remark>,
) -> Result<(), AllocError>
    ensures { OnOk result
        (found.new.items ≡ found.old.items ++ finding_on (part_of list.now.entries about) remark) }
{
    if let Some(remark) = remark {
        let part = about.part(alloc, list)?;
        found.push(Finding { part, remark })?;
    }
    Ok(())
}
