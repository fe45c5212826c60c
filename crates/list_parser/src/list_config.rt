//! The configuration of a list of entries: two members of the text for the machine's list, or of an entry's `config` for an
//! init's.
ghost use Rattle.std.specs.Prelude.{◌≡◌, ◌≢◌, ◌+◌, ◌<◌, ◌≤◌, true, length, map, IfOk, IfErr, IfSome, Ok, Err};
ghost use Rattle.std.specs.Option.{option_map};
ghost use Rattle.serde_json.specs.View.{view};
ghost use Rattle.list_parser.specs.Depth.{runs_init};
ghost use Rattle.list_parser.specs.Entries.{config_of, default_route, own_of, list_of_entry, starts_in};
ghost use Rattle.list_parser.specs.View.{model_named_binary, model_own};
ghost use Rattle.list_parser.specs.declared.fault.BootFault.TheVariants.{NoMemory};

use crate::binary_word::NamedBinary;
use crate::fault::ConfigField;
use crate::list_fault::{ExpectedValue, ListFault};
use crate::member::short_list;
use crate::rule::{Rule, read_rules};
use serde_json::Value;
use std::alloc::Global;

/// The most entries of all lists together.
const MOST_ENTRIES: usize = 32;

/// The default route of a list, and the JSON values of its entries.
#[derive(Drop)]
pub(crate) struct ListConfig<'v> {
    pub(crate) route: Vec<Rule>,
    pub(crate) starts: &'v [Value],
}

/// Reads what an entry of a binary starts, which is nothing unless the binary is `init`. Refuses with `BadConfig config` if
/// the member is no object or inits may not nest deeper. Otherwise refuses as `read_own`, within the member.
pub(crate) fn read_config<'v>(
    alloc: Global,
    binary: &NamedBinary,
    deeper: bool,
    met: usize,
    member: Option<&'v Value>,
) -> Result<ListConfig<'v>, ListFault>
    requires { met ≤ 32 }
    ensures ok { IfOk result (λ own. list_of_entry (model_named_binary binary.now) deeper met
        (option_map (λ value. view value.now) member.entry) ≡ Ok (model_own own)) }
    ensures err { IfErr result
        (λ fault. fault.fault ≢ NoMemory → list_of_entry (model_named_binary binary.now) deeper met
        (option_map (λ value. view value.now) member.entry) ≡ Err fault) }
    ensures few { IfOk result (λ own. met + length own.starts.now ≤ 32) }
    ensures some { IfOk result (λ own. 0 < length own.starts.now
        → (deeper ≡ true) × (runs_init (model_named_binary binary.now) ≡ true)) }
{
    if !binary.is_init() {
        return Ok(ListConfig {
            route: Vec::new(alloc),
            starts: &[],
        });
    }
    match member {
        Some(config) if config.is_object() => if deeper {
            match read_own(alloc, met, config) {
                Ok(own) => Ok(own),
                Err(fault) => Err(fault.of_config()),
            }
        } else {
            Err(ListFault::bad(ConfigField::Config, ExpectedValue::NoInit))
        },
        _ => Err(ListFault::bad(ConfigField::Config, ExpectedValue::Object)),
    }
}

/// Reads the default route and the entries' values from two members of an object. `met` is the number of entries of all
/// lists so far. Refuses with `BadConfig` for `default-route`, then for `start`.
pub(crate) fn read_own(
    alloc: Global,
    met: usize,
    object: &Value,
) -> Result<ListConfig<'_>, ListFault>
    requires { met ≤ 32 }
    ensures ok { IfOk result (λ own. own_of met (view object.now) ≡ Ok (model_own own)) }
    ensures err { IfErr result
        (λ fault. fault.fault ≢ NoMemory → own_of met (view object.now) ≡ Err fault) }
    ensures few { IfOk result (λ own. met + length own.starts.now ≤ 32) }
{
    let route = read_default_route(alloc, object.get("default-route"))?;
    match starts_in(met, object.get("start")) {
        Some(starts) => Ok(ListConfig { route, starts }),
        None => Err(ListFault::bad(ConfigField::Start, ExpectedValue::Entries)),
    }
}

/// Returns the values of a list's entries, or `None` if there are none or too many for all lists together.
fn starts_in(met: usize, member: Option<&Value>) -> Option<&[Value]>
    requires { met ≤ 32 }
    ensures value { option_map (λ starts. map view starts.now) result
        ≡ starts_in met (option_map (λ value. view value.now) member.entry) }
    ensures few { IfSome result (λ starts. met + length starts.now ≤ 32) }
{
    let starts = short_list(member?)?;
    if met + starts.len() <= MOST_ENTRIES {
        Some(starts.as_slice())
    } else {
        None
    }
}

/// Reads the rules for entries without a route of their own, which are none without the member.
fn read_default_route(alloc: Global, member: Option<&Value>) -> Result<Vec<Rule>, ListFault>
    ensures ok { IfOk result
        (λ rules. default_route (option_map (λ value. view value.now) member.entry)
        ≡ Ok rules.items) }
    ensures err { IfErr result (λ fault. fault.fault ≢ NoMemory
        → default_route (option_map (λ value. view value.now) member.entry) ≡ Err fault) }
{
    match member {
        Some(value) => read_rules(alloc, ConfigField::DefaultRoute, value),
        None => Ok(Vec::new(alloc)),
    }
}
