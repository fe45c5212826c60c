//! The keys of a JSON value, in the order of its text.
ghost use Rattle.std.specs.Prelude.{◌≡◌, ◌++◌, map, OnOk, IfOk, [], take};
ghost use Rattle.std.specs.List.{list_any};
ghost use Rattle.std.specs.Str.{bytes_eq};
ghost use Rattle.json.specs.Value.{items_view, members_view, value_view};
ghost use Rattle.list_findings.specs.JsonKeys.{keys_behind, keys_in, keys_of, seen};

use json::Value;
use std::alloc::{AllocError, Global};

/// A key, and whether an earlier member of its object has it, too.
#[derive(Clone, Copy, Drop)]
pub(crate) struct JsonKey<'a> {
    /// The name.
    pub(crate) name: &'a str,
    /// Whether an earlier member of the same object has the name.
    pub(crate) again: bool,
}

/// Returns the keys of a JSON value, in the order of its text. Fails if the host is out of memory.
pub(crate) fn keys_of<'a>(alloc: Global, value: &Value<'a>) -> Result<Vec<JsonKey<'a>>, AllocError>
    ensures { IfOk result (λ keys. map seen keys.items ≡ keys_of (value_view value.now)) }
{
    let mut found = Vec::new(alloc);
    add_value(&mut found, value)?;
    Ok(found)
}

// Adds the keys of a value.
#[cycle(adds)]
fn add_value<'a>(found: &mut Vec<JsonKey<'a>>, value: &Value<'a>) -> Result<(), AllocError>
    ensures { OnOk result (map seen found.new.items
        ≡ map seen found.old.items ++ keys_of (value_view value.now)) }
{
    match value {
        Value::Array(items) => add_items(found, items),
        Value::Object(members) => add_members(found, members),
        _ => Ok(()),
    }
}

// Adds the keys of the elements of an array.
#[cycle(adds)]
fn add_items<'a>(found: &mut Vec<JsonKey<'a>>, items: &Vec<Value<'a>>) -> Result<(), AllocError>
    ensures { OnOk result (map seen found.new.items
        ≡ map seen found.old.items ++ keys_in (items_view items.now.items)) }
{
    for item in items {
        add_value(found, item)?;
    }
    Ok(())
}

// Adds the keys of the members of an object.
#[cycle(adds)]
fn add_members<'a>(
    found: &mut Vec<JsonKey<'a>>,
    members: &Vec<(&'a str, Value<'a>)>,
) -> Result<(), AllocError>
    ensures { OnOk result (map seen found.new.items
        ≡ map seen found.old.items ++ keys_behind [] (members_view members.now.items)) }
{
    for (place, member) in members.iter().enumerate() {
        let again = is_among(&members[..place], member.0);
        found.push(JsonKey {
            name: member.0,
            again,
        })?;
        add_value(found, &member.1)?;
    }
    Ok(())
}

// Whether some member has a name.
fn is_among(members: &[(&str, Value<'_>)], name: &str) -> bool
    ensures { result
        ≡ list_any (bytes_eq name.now) (map (λ member. member.0.now) members.now) }
{
    for member in members {
        if member.0 == name {
            return true;
        }
    }
    false
}
