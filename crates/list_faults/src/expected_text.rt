//! The texts of values that are expected in place of bad ones.
use list_parser::{ExpectedValue, FaultPlace};

/// Returns the text of the value that is expected at a place. An amount is a text, so its suffixes are said in place of a text.
pub(crate) fn expected_text(place: &FaultPlace, found_text: bool) -> &'static str {
    match place.expected {
        ExpectedValue::Object => "an object",
        ExpectedValue::MachineSize => "a whole number from 16 to 4096",
        ExpectedValue::Rules => "a list of at most 32 rules",
        ExpectedValue::Entries if place.in_config => {
            "a list of entries, at most 32 with those of all other lists"
        }
        ExpectedValue::Entries => "a list of at most 32 entries",
        ExpectedValue::NoInit => "no init, since inits nest at most 3 deep",
        ExpectedValue::Name => "a name as text: 1 to 32 letters, digits, `_`, `-` and `.`",
        ExpectedValue::NewName => "a name that no earlier entry has",
        ExpectedValue::Binary => "`script`, `log`, `files`, `server` or `init`",
        ExpectedValue::Amount if found_text => "an amount with K, M, G or no suffix",
        ExpectedValue::Amount => "an amount as text",
        ExpectedValue::Caps => "a whole number from 0 to 4294967295",
        ExpectedValue::NoReserve => "no reserve, since only a script has one",
        ExpectedValue::Provides => {
            "a list of at most the binary's service: `LOG` of `log`, `File_system` of `files`"
        }
        ExpectedValue::DeclaredService => {
            "a list of one service's name, neither `LOG` nor `File_system`"
        }
        ExpectedValue::Kinds => "a list of at most 16 kinds",
        ExpectedValue::NewKind => "a name that no earlier kind has",
        ExpectedValue::BlockBytes => "a whole number from 112 to 65535",
        ExpectedValue::UnitBytes => "a whole number from 0 to 65535",
        ExpectedValue::True => "true",
        ExpectedValue::Text => "a text",
        ExpectedValue::OneService => "one of `service` and `any-service`",
        ExpectedValue::OneTarget => "one of `child`, `any-child` and `parent`",
    }
}
