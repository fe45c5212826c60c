//! The parse of one entry of a list.
ghost use Rattle.std.specs.Prelude.{◌≡◌, ◌≢◌, ◌+◌, ◌<◌, ◌≤◌, length, map, nat_lt, IfOk, IfErr, Ok, Err};
ghost use Rattle.std.specs.Option.{option_map};
ghost use Rattle.std.specs.Result.{result_map_both};
ghost use Rattle.serde_json.specs.View.{view};
ghost use Rattle.list_parser.specs.Depth.{IsWithin, Starts};
ghost use Rattle.list_parser.specs.Entries.{is_service_of, is_taken, new_name, own_route, place_within, provided, provided_in, provider_of, word_of_entry};
ghost use Rattle.list_parser.specs.HeadParts.{head_in_parts, named_of, shares_of};
ghost use Rattle.list_parser.specs.View.{model_head, model_known, model_named, model_provider, model_resources, model_word};
ghost use Rattle.list_parser.specs.declared.fault.BootFault.TheVariants.{NoMemory};

use crate::binary_word::{BinaryWord, KnownBinary, NamedBinary};
use crate::entry::ListEntry;
use crate::fault::{BootFault, ConfigField};
use crate::kinds::service_declared;
use crate::list_config::read_config;
use crate::list_fault::{ExpectedValue, FaultPart, ListFault, ListMember};
use crate::list_place::ListPlace;
use crate::member::{amount_at, name_at, whole_at};
use crate::name::Name;
use crate::reserve::read_reserve;
use crate::rule::{Rule, read_rules};
use serde_json::Value;
use std::alloc::Global;

/// An entry, and the JSON values of the entries that it starts.
#[derive(Drop)]
pub(crate) struct EntryHead<'v> {
    pub(crate) entry: ListEntry,
    pub(crate) starts: &'v [Value],
}

impl<'v> EntryHead<'v> {
    /// Parses the entry of a value, which follows the entries before it. Inits may nest `deeper` times in its list, and
    /// `met` is the number of entries of all lists so far.
    ///
    /// Refuses with `BadConfig start` if the value is no object. Then refuses with the fault of the first bad member: name,
    /// binary, RAM, capabilities, `provides`, route, reserve, `config`, `kinds`.
    pub(crate) fn read(
        alloc: Global,
        place: &ListPlace,
        deeper: usize,
        before: &[ListEntry],
        met: usize,
        value: &'v Value,
    ) -> Result<EntryHead<'v>, ListFault>
        requires place { IsWithin deeper place.now }
        requires met { met ≤ 32 }
        ensures ok { IfOk result (λ head. head_in_parts place.now (nat_lt 0 deeper) (record {
          entries = before.now;
          met = met;
        }) (view value.now) ≡ Ok (model_head head)) }
        ensures err { IfErr result (λ fault. fault.fault ≢ NoMemory
            → head_in_parts place.now (nat_lt 0 deeper) (record { entries = before.now; met = met })
            (view value.now) ≡ Err fault) }
        ensures home { IfOk result (λ head. head.entry.home ≡ place.now.init) }
        ensures few { IfOk result (λ head. met + length head.starts.now ≤ 32) }
        ensures some { IfOk result
            (λ head. 0 < length head.starts.now → Starts deeper head.entry) }
    {
        if !value.is_object() {
            return Err(ListFault::at(
                BootFault::BadConfig(ConfigField::Start),
                FaultPart::Whole,
                None,
                ExpectedValue::Object,
            ));
        }
        let init = usize::from(place.init);
        let EntryIdentity { name, word } = EntryIdentity::read(before, init, value)?;
        let EntryResources {
            ram,
            caps,
            provider: Provider { binary, provides },
        } = EntryResources::read(word, value)?;
        let route = read_route(alloc, value.get("route"))?;
        let reserve = read_reserve(&binary, value)?;
        let own = read_config(alloc, &binary, deeper > 0, met, value.get("config"))?;
        let binary = binary.with_kinds(alloc, value.get("kinds"))?;
        let entry = ListEntry {
            path: place.path.join(&name),
            label: place.label.join(&name),
            name,
            binary,
            ram,
            caps,
            home: place.init,
            provides,
            route,
            reserve,
            inner_route: own.route,
        };
        Ok(EntryHead {
            entry,
            starts: own.starts,
        })
    }
}

/// The name of an entry, and the word of its binary.
struct EntryIdentity {
    name: Name,
    word: BinaryWord,
}

impl EntryIdentity {
    /// Parses the name and the binary's word of a value. The name must be new in the list of an init.
    fn read(before: &[ListEntry], init: usize, value: &Value) -> Result<EntryIdentity, ListFault>
        ensures { result_map_both model_named (λ fault. fault) result
            ≡ named_of before.now init (view value.now) }
    {
        let Some(name) = name_at(value, "name") else {
            return Err(ListFault::bad(ConfigField::Name, ExpectedValue::Name));
        };
        let name = new_name(before, init, name)?;
        let word = read_word(&name, value.get("binary"))?;
        Ok(EntryIdentity { name, word })
    }
}

/// The budget of an entry, and what it provides.
struct EntryResources {
    ram: u64,
    caps: u32,
    provider: Provider,
}

impl EntryResources {
    /// Parses the budget of a value for a binary, and what the entry provides.
    fn read(word: BinaryWord, value: &Value) -> Result<EntryResources, ListFault>
        ensures { result_map_both model_resources (λ fault. fault) result
            ≡ shares_of (model_word word) (view value.now) }
    {
        let Some(ram) = amount_at(value, "quantum") else {
            return Err(ListFault::bad(ConfigField::Quantum, ExpectedValue::Amount));
        };
        let Some(caps) = whole_at(value, "caps", 0, u32::MAX) else {
            return Err(ListFault::bad(ConfigField::Caps, ExpectedValue::Caps));
        };
        let Some(provider) = Provider::read(word, value.get("provides")) else {
            let expected = word.provides_expected();
            return Err(ListFault::bad(ConfigField::Provides, expected));
        };
        Ok(EntryResources {
            ram,
            caps,
            provider,
        })
    }
}

/// The binary of an entry with its service, and whether the entry provides the service.
struct Provider {
    binary: NamedBinary,
    provides: bool,
}

impl Provider {
    /// Reads the service of a binary. A server that declares its service provides it. Returns `None` if the member is bad.
    fn read(word: BinaryWord, member: Option<&Value>) -> Option<Provider>
        ensures { option_map model_provider result
            ≡ provider_of (model_word word) (option_map (λ value. view value.now) member.entry) }
    {
        match word {
            BinaryWord::Known(binary) => Some(Provider {
                binary: NamedBinary::Known(binary),
                provides: provided(binary, member)?,
            }),
            BinaryWord::Declares => Some(Provider {
                binary: NamedBinary::Declared(service_declared(member)?),
                provides: true,
            }),
        }
    }
}

/// Returns the name, unless an earlier entry of the list of an init has it.
fn new_name(before: &[ListEntry], init: usize, name: Name) -> Result<Name, ListFault>
    ensures { result ≡ new_name before.now init name }
{
    if is_taken(before, init, name.as_bytes()) {
        Err(ListFault::at(
            BootFault::DuplicateName(name),
            FaultPart::Whole,
            Some(ListMember::Field(ConfigField::Name)),
            ExpectedValue::NewName,
        ))
    } else {
        Ok(name)
    }
}

/// Returns whether an earlier entry of the list of an init has a name.
fn is_taken(before: &[ListEntry], init: usize, name: &[u8]) -> bool
    ensures { result ≡ is_taken before.now init name.now }
{
    before
        .iter()
        .any(|entry| entry.home() == init && entry.name() == name)
}

/// Reads the word of the binary that an entry runs. Without the member it is the entry's name.
fn read_word(name: &Name, member: Option<&Value>) -> Result<BinaryWord, ListFault>
    ensures { result_map_both model_word (λ fault. fault) result
        ≡ word_of_entry name.now (option_map (λ value. view value.now) member.entry) }
{
    match member {
        Some(value) => BinaryWord::read(
            value
                .as_str()
                .ok_or(ListFault::bad(ConfigField::Binary, ExpectedValue::Binary))?,
        ),
        None => BinaryWord::read(name.as_str()),
    }
}

/// Reads whether an entry provides the service of its binary, which it does not without the member. Returns `None` if the
/// member is not a list of at most that service.
#[tactic(auto, using(crate::proofs::MemberLemmas::elements_of_items))]
fn provided(binary: KnownBinary, member: Option<&Value>) -> Option<bool>
    ensures { result
        ≡ provided (model_known binary) (option_map (λ value. view value.now) member.entry) }
{
    let Some(value) = member else {
        return Some(false);
    };
    provided_in(binary, value.as_array()?.as_slice())
}

/// Reads the same from the elements of a list.
#[tactic(auto, using(crate::proofs::EntryLemmas::provides_too_many))]
fn provided_in(binary: KnownBinary, services: &[Value]) -> Option<bool>
    ensures { result ≡ provided_in (model_known binary) (map view services.now) }
{
    match services {
        [] => Some(false),
        [service] => if is_service_of(binary, service) {
            Some(true)
        } else {
            None
        },
        _ => None,
    }
}

/// Returns whether a value is the text of a binary's service.
fn is_service_of(binary: KnownBinary, value: &Value) -> bool
    ensures { result ≡ is_service_of (model_known binary) (view value.now) }
{
    match value.as_str() {
        Some(service) => binary.serves(service.as_bytes()),
        None => false,
    }
}

/// Reads an entry's own route, if it has one.
fn read_route(alloc: Global, member: Option<&Value>) -> Result<Option<Vec<Rule>>, ListFault>
    ensures ok { IfOk result
        (λ route. own_route (option_map (λ value. view value.now) member.entry)
        ≡ Ok (option_map (λ rules. rules.items) route)) }
    ensures err { IfErr result (λ fault. fault.fault ≢ NoMemory
        → own_route (option_map (λ value. view value.now) member.entry) ≡ Err fault) }
{
    match member {
        Some(value) => Ok(Some(read_rules(alloc, ConfigField::Route, value)?)),
        None => Ok(None),
    }
}
