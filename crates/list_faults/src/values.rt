//! The values of the entries of all lists, as the text has them: an init's own are in the `start` of its `config`.
ghost use Rattle.std.specs.Prelude.{◌≡◌, ◌∷◌, ◌++◌, [], codes, map, IfOk, OnOk};
ghost use Rattle.std.specs.Option.{option_and_then, option_copied, option_map};
ghost use Rattle.serde_json.specs.Find.{as_array, as_str, get};
ghost use Rattle.serde_json.specs.View.{items_view, view};
ghost use Rattle.list_parser.specs.Entries.{deepest};
ghost use Rattle.list_parser.specs.Members.{name_at};
ghost use Rattle.list_faults.specs.Values.{elements_in, found_at, found_in, found_within, runs, seen, starts_in, step_down};

use list_parser::Name;
use list_parts::{EntryStep, EntrySteps};
use serde_json::Value;
use std::alloc::{AllocError, Global};

/// The maximum depth of inits below the machine's.
const DEEPEST: usize = 3;

/// An entry's value, and the steps to it.
#[derive(Drop)]
pub struct EntryValue<'v> {
    pub steps: EntrySteps,
    pub value: &'v Value,
}

/// Returns the values of the entries of all lists, each init directly before its own. Fails if the host is out of memory.
pub fn find_entries(alloc: Global, list: &Value) -> Result<Vec<EntryValue<'_>>, AllocError>
    ensures { IfOk result (λ found. map seen found.items ≡ found_in (view list.now)) }
{
    let mut found = Vec::new(alloc);
    find_within(
        &mut found,
        alloc,
        DEEPEST,
        &EntrySteps::none(alloc),
        Some(list),
    )?;
    Ok(found)
}

// The entries of a list in which inits may nest so deep, with the steps to the list.
fn find_within<'v>(
    found: &mut Vec<EntryValue<'v>>,
    alloc: Global,
    deeper: usize,
    above: &EntrySteps,
    list: Option<&'v Value>,
) -> Result<(), AllocError>
    ensures { OnOk result (map seen found.new.items ≡ map seen found.old.items
        ++ found_within deeper above.now
        (starts_in (option_map (λ value. view value.now) list.entry))) }
{
    for (place, entry) in starts(list).iter().enumerate() {
        let steps = find(found, alloc, above, place, entry)?;
        if deeper > 0 && runs(entry, "init") {
            find_within(found, alloc, deeper - 1, &steps, entry.get("config"))?;
        }
    }
    Ok(())
}

// One entry, and the steps to it.
fn find<'v>(
    found: &mut Vec<EntryValue<'v>>,
    alloc: Global,
    above: &EntrySteps,
    place: usize,
    entry: &'v Value,
) -> Result<EntrySteps, AllocError>
    ensures steps { IfOk result (λ steps. steps ≡ step_down above.now (place, view entry.now)) }
    ensures found { OnOk result (map seen found.new.items
        ≡ map seen found.old.items ++ found_at above.now (place, view entry.now) ∷ []) }
{
    let mut steps = above.copy(alloc)?;
    steps.push(EntryStep {
        place,
        name: name_at(entry, "name"),
    })?;
    found.push(EntryValue {
        steps: steps.copy(alloc)?,
        value: entry,
    })?;
    Ok(steps)
}

// The values of a list's entries.
fn starts(list: Option<&Value>) -> &[Value]
    ensures { map view result.now ≡ starts_in (option_map (λ value. view value.now) list.entry) }
{
    elements(member(list, "start"))
}

/// Returns the elements of a value, or none if the value is missing or no list.
pub fn elements(value: Option<&Value>) -> &[Value]
    ensures { map view result.now
        ≡ elements_in (option_map (λ value. view value.now) value.entry) }
{
    match array_of(value) {
        Some(values) => values.as_slice(),
        None => &[],
    }
}

// The list that a value is, if it is one.
fn array_of(value: Option<&Value>) -> Option<&Vec<Value>>
    ensures { option_map (λ values. items_view values.now.items) result
        ≡ option_and_then as_array (option_map (λ value. view value.now) value.entry) }
{
    value?.as_array()
}

/// Returns whether an entry runs a binary. Without the member `binary`, it runs the binary that has its name.
pub fn runs(entry: &Value, binary: &str) -> bool
    ensures { result ≡ runs binary.now (view entry.now) }
{
    match text_of(entry.get("binary").or(entry.get("name"))) {
        Some(told) => binary.as_bytes() == told.as_bytes(),
        None => false,
    }
}

// The text that a value is, if it is one.
fn text_of(value: Option<&Value>) -> Option<&str>
    ensures { option_copied result
        ≡ option_and_then as_str (option_map (λ value. view value.now) value.entry) }
{
    value?.as_str()
}

/// Returns the name in a member of an object, if the member is the text of one.
pub(crate) fn name_at(object: &Value, key: &str) -> Option<Name>
    ensures { result ≡ name_at key.now (view object.now) }
{
    Name::read(object.get(key)?.as_str()?)
}

/// Returns the member of a value that has a key, or none if the value or the member is missing.
pub fn member<'v>(value: Option<&'v Value>, key: &str) -> Option<&'v Value>
    ensures { option_map (λ value. view value.now) result
        ≡ option_and_then (get key.now) (option_map (λ value. view value.now) value.entry) }
{
    value?.get(key)
}
