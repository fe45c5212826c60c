//! Readers of the members of a JSON object.
ghost use Rattle.std.specs.Prelude.{◌≡◌, ◌≤◌, map, vec_len, IfSome};
ghost use Rattle.std.specs.Option.{option_map};
ghost use Rattle.serde_json.specs.View.{view};
ghost use Rattle.list_parser.specs.Members.{amount_at, amount_in, is_true, name_at, name_of, short_list, text_at, optional_text, whole_at, whole_in};
ghost use Rattle.serde_json.specs.Find.{get};

use crate::name::Name;
use serde_json::Value;
use trade_base::read_amount;

/// The most elements of a list.
const LONGEST_LIST: usize = 32;

/// Returns the text of a member, if the member is a text.
pub(crate) fn text_at<'v>(object: &'v Value, key: &str) -> Option<&'v str>
    ensures { option_map (λ text. text.now) result ≡ text_at key.now (view object.now) }
{
    object.get(key)?.as_str()
}

/// Returns the name in a value, if the value is the text of one.
pub(crate) fn name_of(value: &Value) -> Option<Name>
    ensures { result ≡ name_of (view value.now) }
{
    Name::read(value.as_str()?)
}

/// Returns the name in a member, if the member is the text of one.
pub(crate) fn name_at(object: &Value, key: &str) -> Option<Name>
    ensures { result ≡ name_at key.now (view object.now) }
{
    name_of(object.get(key)?)
}

/// Returns whether a JSON value is the boolean `true`.
pub(crate) fn is_true(value: &Value) -> bool
    ensures { result ≡ is_true (view value.now) }
{
    value.as_bool() == Some(true)
}

/// Returns the amount in a value, if the value is the text of one.
pub(crate) fn amount_in(value: &Value) -> Option<u64>
    ensures { result ≡ amount_in (view value.now) }
{
    read_amount(value.as_str()?.as_bytes())
}

/// Returns the amount in a member, if the member is the text of one.
pub(crate) fn amount_at(object: &Value, key: &str) -> Option<u64>
    ensures { result ≡ amount_at key.now (view object.now) }
{
    amount_in(object.get(key)?)
}

/// Returns the whole number from `low` to `high` in a value, if the value is one.
pub(crate) fn whole_in(value: &Value, low: u32, high: u32) -> Option<u32>
    ensures value { result ≡ whole_in low high (view value.now) }
    ensures range { IfSome result (λ number. (low ≤ number) × (number ≤ high)) }
{
    let number = u32::try_from(value.as_u64()?).ok()?;
    if low <= number && number <= high {
        Some(number)
    } else {
        None
    }
}

/// Returns the whole number from `low` to `high` in a member, if the member is one.
pub(crate) fn whole_at(object: &Value, key: &str, low: u32, high: u32) -> Option<u32>
    ensures value { result ≡ whole_at key.now low high (view object.now) }
    ensures range { IfSome result (λ number. (low ≤ number) × (number ≤ high)) }
{
    whole_in(object.get(key)?, low, high)
}

/// Returns the text of a member that may be missing, or `None` if the member is there and is no text.
pub(crate) fn optional_text<'v>(object: &'v Value, key: &str) -> Option<Option<&'v str>>
    ensures { option_map (option_map (λ text. text.now)) result
        ≡ optional_text (get key.now (view object.now)) }
{
    match object.get(key) {
        Some(value) => Some(Some(value.as_str()?)),
        None => Some(None),
    }
}

/// Returns the list in a value, if the value is a list of at most 32 elements.
pub(crate) fn short_list(value: &Value) -> Option<&Vec<Value>>
    ensures value { option_map (λ list. map view list.now.items) result
        ≡ short_list (view value.now) }
    ensures len { IfSome result (λ list. vec_len list.now ≤ LONGEST_LIST) }
{
    let list = value.as_array()?;
    if list.len() <= LONGEST_LIST {
        Some(list)
    } else {
        None
    }
}
