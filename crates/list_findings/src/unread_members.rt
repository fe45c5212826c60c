//! The members of a start list's objects that nothing reads.
ghost use Rattle.std.specs.Prelude.{◌≡◌, ◌++◌, flat_map, map, OnOk};
ghost use Rattle.std.specs.Option.{option_and_then, option_map};
ghost use Rattle.serde_json.specs.Find.{as_object};
ghost use Rattle.serde_json.specs.View.{members_view, view};
ghost use Rattle.list_findings.specs.Findings.{finding_on};
ghost use Rattle.list_findings.specs.Objects.{seen_part};
ghost use Rattle.list_findings.specs.Unread.{unread_in};

use crate::finding::{Finding, Remark};
use crate::object_parts::ObjectPart;
use list_parts::ListPart;
use serde_json::{Map, Value};
use std::alloc::{AllocError, Global};

/// Adds a finding for each member of these objects that nothing reads. Fails if the host is out of memory.
pub(crate) fn add_unread(
    found: &mut Vec<Finding>,
    alloc: Global,
    parts: &[ObjectPart<'_>],
) -> Result<(), AllocError>
    ensures { OnOk result
        (found.new.items ≡ found.old.items ++ flat_map unread_in (map seen_part parts.now)) }
{
    for part in parts {
        add_members(found, alloc, part)?;
    }
    Ok(())
}

// Adds the findings of the members of one object.
fn add_members(
    found: &mut Vec<Finding>,
    alloc: Global,
    part: &ObjectPart<'_>,
) -> Result<(), AllocError>
    ensures { OnOk result (found.new.items ≡ found.old.items ++ unread_in (seen_part part.now)) }
{
    let Some(members) = object_of(part.value) else {
        return Ok(());
    };
    for key in members.keys() {
        let remark = part.owner.unread(alloc, key.as_str())?;
        add_remark(found, alloc, &part.part, remark)?;
    }
    Ok(())
}

// The object that a value is, if it is one.
fn object_of(value: Option<&Value>) -> Option<&Map<String, Value>>
    ensures { option_map (λ members. members_view members.now.entries) result
        ≡ option_and_then as_object (option_map (λ value. view value.now) value.entry) }
{
    value?.as_object()
}

// Adds a remark on a part, if there is one.
fn add_remark(
    found: &mut Vec<Finding>,
    alloc: Global,
    part: &ListPart,
    remark: Option<Remark>,
) -> Result<(), AllocError>
    ensures { OnOk result (found.new.items ≡ found.old.items ++ finding_on part.now remark) }
{
    if let Some(remark) = remark {
        found.push(Finding {
            part: part.copy(alloc)?,
            remark,
        })?;
    }
    Ok(())
}
