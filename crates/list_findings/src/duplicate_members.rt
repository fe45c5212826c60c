//! Duplicate members: an earlier member of the same object of a start list's text has the name, too.
ghost use Rattle.std.specs.Prelude.{◌≡◌, ◌++◌, map, IfOk, OnOk};
ghost use Rattle.std.specs.Option.{option_map};
ghost use Rattle.json.specs.Value.{value_view};
ghost use Rattle.list_findings.specs.JsonKeys.{seen};
ghost use Rattle.list_findings.specs.Repeated.{repeat_of, repeated_in, repeats_of, value_in};

use crate::finding::{Finding, FindingText, Remark};
use crate::json_keys::{JsonKey, keys_of};
use crate::key_places::{KeyPlace, key_places};
use json::{Error, Scratch, Value};
use list_parts::ListPart;
use std::alloc::{AllocError, Global};

/// Adds a finding for each duplicate member, in the order of the text. A text that is no JSON has none. Fails if the host is out
/// of memory.
pub(crate) fn add_duplicates(
    found: &mut Vec<Finding>,
    alloc: Global,
    text: &[u8],
) -> Result<(), AllocError>
    ensures { OnOk result (found.new.items ≡ found.old.items ++ repeated_in text.now) }
{
    let mut scratch = Scratch::new(alloc);
    match value_of(alloc, text, &mut scratch)? {
        Some(value) => add_repeats(found, alloc, text, &value),
        None => Ok(()),
    }
}

// The value of a text, if it is UTF-8 and JSON.
fn value_of<'a>(
    alloc: Global,
    text: &'a [u8],
    scratch: &'a mut Scratch,
) -> Result<Option<Value<'a>>, AllocError>
    ensures { IfOk result (λ value. option_map (λ value. value_view value) value
        ≡ value_in text.now) }
{
    match Value::from_slice(alloc, text, scratch) {
        Ok(value) => Ok(Some(value)),
        Err(error) => match error {
            Error::OutOfMemory => Err(AllocError),
            Error::Invalid | Error::TooLong | Error::DuplicateKey => Ok(None),
        },
    }
}

// Adds the duplicate members of a text that is a value.
fn add_repeats(
    found: &mut Vec<Finding>,
    alloc: Global,
    text: &[u8],
    value: &Value<'_>,
) -> Result<(), AllocError>
    ensures { OnOk result
        (found.new.items ≡ found.old.items ++ repeats_of text.now (value_view value.now)) }
{
    let keys = keys_of(alloc, value)?;
    let places = key_places(alloc, text)?;
    let places = places.as_slice();
    for (number, key) in keys.iter().enumerate() {
        add_repeat(found, alloc, places, number, key)?;
    }
    Ok(())
}

// Adds a key, by its number, if it is a duplicate.
fn add_repeat(
    found: &mut Vec<Finding>,
    alloc: Global,
    places: &[KeyPlace],
    number: usize,
    key: &JsonKey<'_>,
) -> Result<(), AllocError>
    ensures { OnOk result (found.new.items
        ≡ found.old.items ++ repeat_of places.now (number, seen key.now)) }
{
    if !key.again {
        return Ok(());
    }
    let place = match places.get(number) {
        Some(place) => *place,
        None => KeyPlace::first(),
    };
    found.push(Finding {
        part: ListPart::Text(place.line, place.column),
        remark: Remark::GivenTwice(FindingText::copy_of(alloc, key.name)?),
    })?;
    Ok(())
}
