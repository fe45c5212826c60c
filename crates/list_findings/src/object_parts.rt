//! The objects of a start list that have members, each with the part of the list that it is.
ghost use Rattle.std.specs.Prelude.{◌≡◌, ◌++◌, map, IfOk, OnOk};
ghost use Rattle.std.specs.Option.{option_map};
ghost use Rattle.serde_json.specs.View.{view};
ghost use Rattle.list_faults.specs.Values.{seen};
ghost use Rattle.list_findings.specs.Objects.{entry_owner, kind_parts, parts_in, parts_of_entry, rule_parts, seen_part};

use crate::members::MemberOwner;
use list_faults::{EntryValue, elements, find_entries, member, runs};
use list_parts::{EntrySteps, ListPart, RuleOwner, rule_at};
use serde_json::Value;
use std::alloc::{AllocError, Global};

/// An object of a start list: which members it has, the part that it is, and its value, which may be missing or no object.
#[derive(Drop)]
pub(crate) struct ObjectPart<'v> {
    pub(crate) owner: MemberOwner,
    pub(crate) part: ListPart,
    pub(crate) value: Option<&'v Value>,
}

/// Returns the objects of the value of a start list, in the order of its parts: the list, its machine, the rules of its default
/// route, and each entry with the rules and the kinds of objects that it has. Fails if the host is out of memory.
pub(crate) fn object_parts(alloc: Global, list: &Value) -> Result<Vec<ObjectPart<'_>>, AllocError>
    ensures { IfOk result (λ parts. map seen_part parts.items ≡ parts_in (view list.now)) }
{
    let mut parts = Vec::new(alloc);
    parts.push(ObjectPart {
        owner: MemberOwner::List,
        part: ListPart::List,
        value: Some(list),
    })?;
    parts.push(ObjectPart {
        owner: MemberOwner::Machine,
        part: ListPart::Machine,
        value: list.get("machine"),
    })?;
    let rules = list.get("default-route");
    add_rules(
        &mut parts,
        alloc,
        RuleOwner::Default,
        &EntrySteps::none(alloc),
        rules,
    )?;
    let entries = find_entries(alloc, list)?;
    for (number, entry) in entries.iter().enumerate() {
        add_entry(&mut parts, alloc, number, entry)?;
    }
    Ok(parts)
}

// Adds an entry, by its number, the rules of its route, and what it starts if it is an init, or its kinds if it is a server that
// declares them.
fn add_entry<'v>(
    parts: &mut Vec<ObjectPart<'v>>,
    alloc: Global,
    number: usize,
    entry: &EntryValue<'v>,
) -> Result<(), AllocError>
    ensures { OnOk result (map seen_part parts.new.items
        ≡ map seen_part parts.old.items ++ parts_of_entry (number, seen entry.now)) }
{
    let value = entry.value;
    let owner = entry_owner(value);
    parts.push(ObjectPart {
        owner,
        part: ListPart::Entry(number, entry.steps.copy(alloc)?),
        value: Some(value),
    })?;
    let rules = value.get("route");
    add_rules(parts, alloc, RuleOwner::Entry(number), &entry.steps, rules)?;
    match owner {
        MemberOwner::Init => {
            let config = value.get("config");
            parts.push(ObjectPart {
                owner: MemberOwner::Config,
                part: ListPart::Config(number, entry.steps.copy(alloc)?),
                value: config,
            })?;
            let rules = member(config, "default-route");
            add_rules(parts, alloc, RuleOwner::Inner(number), &entry.steps, rules)
        }
        MemberOwner::Server => add_kinds(parts, alloc, number, &entry.steps, value.get("kinds")),
        _ => Ok(()),
    }
}

// Which object an entry is, by its binary.
fn entry_owner(entry: &Value) -> MemberOwner
    ensures { result ≡ entry_owner (view entry.now) }
{
    if runs(entry, "init") {
        MemberOwner::Init
    } else if runs(entry, "server") {
        MemberOwner::Server
    } else {
        MemberOwner::Entry
    }
}

// Adds the kinds of objects that a server declares, with the steps to the server's entry.
fn add_kinds<'v>(
    parts: &mut Vec<ObjectPart<'v>>,
    alloc: Global,
    number: usize,
    steps: &EntrySteps,
    kinds: Option<&'v Value>,
) -> Result<(), AllocError>
    ensures { OnOk result (map seen_part parts.new.items ≡ map seen_part parts.old.items
        ++ kind_parts number steps.now (option_map (λ value. view value.now) kinds.entry)) }
{
    for (place, kind) in elements(kinds).iter().enumerate() {
        parts.push(ObjectPart {
            owner: MemberOwner::Kind,
            part: ListPart::Kind(number, steps.copy(alloc)?, place),
            value: Some(kind),
        })?;
    }
    Ok(())
}

// Adds an owner's rules, with the steps to the owner's entry.
fn add_rules<'v>(
    parts: &mut Vec<ObjectPart<'v>>,
    alloc: Global,
    owner: RuleOwner,
    steps: &EntrySteps,
    rules: Option<&'v Value>,
) -> Result<(), AllocError>
    ensures { OnOk result (map seen_part parts.new.items ≡ map seen_part parts.old.items
        ++ rule_parts owner steps.now (option_map (λ value. view value.now) rules.entry)) }
{
    for (place, rule) in elements(rules).iter().enumerate() {
        parts.push(ObjectPart {
            owner: MemberOwner::Rule,
            part: rule_at(alloc, owner, steps, place)?,
            value: Some(rule),
        })?;
    }
    Ok(())
}
