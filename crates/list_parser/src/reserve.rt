//! The reserve of a component in a start list.
ghost use Rattle.std.specs.Prelude.{◌≡◌};
ghost use Rattle.std.specs.Option.{option_map};
ghost use Rattle.std.specs.Result.{result_map_both};
ghost use Rattle.serde_json.specs.View.{view};
ghost use Rattle.core_calls.specs.Quotas.{reserve_amounts};
ghost use Rattle.list_parser.specs.Entries.{if_script, if_script_expected, reserve_of_entry, reserve_with};
ghost use Rattle.list_parser.specs.Members.{amount_in, whole_in};
ghost use Rattle.list_parser.specs.View.{model_named_binary};

use crate::binary_word::NamedBinary;
use crate::fault::ConfigField;
use crate::list_fault::{ExpectedValue, ListFault};
use crate::member::{amount_in, whole_in};
use core_calls::Reserve;
use serde_json::Value;
use trade_base::{Caps, Ram};

/// Reads the reserve of an entry of a binary, if it is given one. Refuses with `BadConfig` for the RAM, then for the
/// capabilities.
pub(crate) fn read_reserve(
    binary: &NamedBinary,
    entry: &Value,
) -> Result<Option<Reserve>, ListFault>
    ensures { result_map_both (option_map reserve_amounts) (λ fault. fault) result
        ≡ reserve_of_entry (model_named_binary binary.now) (view entry.now) }
{
    let Some(ram) = reserve_ram(binary, entry.get("reserve")) else {
        let expected = if_script(binary, ExpectedValue::Amount);
        return Err(ListFault::bad(ConfigField::Reserve, expected));
    };
    let Some(caps) = reserve_caps(binary, entry.get("reserve-caps")) else {
        let expected = if_script(binary, ExpectedValue::Caps);
        return Err(ListFault::bad(ConfigField::ReserveCaps, expected));
    };
    Ok(reserve_with(ram, caps))
}

/// Returns what is expected of a member of a reserve, which only a script has.
fn if_script(binary: &NamedBinary, expected: ExpectedValue) -> ExpectedValue
    ensures { result ≡ if_script_expected expected (model_named_binary binary.now) }
{
    if binary.is_script() {
        expected
    } else {
        ExpectedValue::NoReserve
    }
}

/// Reads the RAM of a script's reserve, if the member is there. Returns `None` if the member is no amount or the entry is no
/// script.
fn reserve_ram(binary: &NamedBinary, member: Option<&Value>) -> Option<Option<u64>>
    ensures { result
        ≡ if_script amount_in (model_named_binary binary.now) (option_map (λ value. view value.now) member.entry) }
{
    match member {
        None => Some(None),
        Some(value) if binary.is_script() => Some(Some(amount_in(value)?)),
        Some(_) => None,
    }
}

/// Reads the capabilities of a script's reserve in the same way, as a whole number.
fn reserve_caps(binary: &NamedBinary, member: Option<&Value>) -> Option<Option<u32>>
    ensures { result
        ≡ if_script (whole_in 0 4294967295) (model_named_binary binary.now) (option_map (λ value. view value.now) member.entry) }
{
    match member {
        None => Some(None),
        Some(value) if binary.is_script() => Some(Some(whole_in(value, 0, u32::MAX)?)),
        Some(_) => None,
    }
}

/// Returns a reserve by the members that are given, or `None` if neither is.
fn reserve_with(ram: Option<u64>, caps: Option<u32>) -> Option<Reserve>
    ensures { option_map reserve_amounts result ≡ reserve_with ram caps }
{
    if ram.is_none() && caps.is_none() {
        return None;
    }
    Some(Reserve {
        ram: Ram(ram.unwrap_or(0)),
        caps: Caps(caps.unwrap_or(0)),
    })
}
