//! Start lists, parsed from JSON.
ghost use Rattle.std.specs.Prelude.{◌≡◌, ◌≢◌, ◌<◌, ◌≤◌, is_some, length, IfOk, IfErr, Ok, Err, Some, None};
ghost use Rattle.std.specs.Option.{option_copied, option_map};
ghost use Rattle.std.specs.List.{position, slice_get};
ghost use Rattle.std.specs.Result.{result_map_both};
ghost use Rattle.std.specs.Str.{bytes_eq};
ghost use Rattle.serde_json.specs.View.{view};
ghost use Rattle.own_model.specs.Listed.{default_of, init_entry, rules_for, services_of, start_list_of};
ghost use Rattle.own_model.specs.StartList.{entries_of};
ghost use Rattle.own_model.specs.Transcript.{entry_at};
ghost use Rattle.list_parser.specs.Depth.{IsParentInit, is_init};
ghost use Rattle.list_parser.specs.ListTheorems.{IsListed};
ghost use Rattle.list_parser.specs.Services.{service_text};
ghost use Rattle.list_parser.specs.StartText.{bad_size, json_in, list_in, list_of, machine_of, placed_list};
ghost use Rattle.list_parser.specs.declared.fault.BootFault.TheVariants.{NoMemory};
ghost use Rattle.list_parser.specs.declared.list_fault.JsonFault.TheVariants.{NoMemory as NoText};

use crate::entry::ListEntry;
use crate::fault::{BootFault, ConfigField};
use crate::list_config::read_own;
use crate::list_fault::{ExpectedValue, FaultPart, JsonFault, ListFault, ListMember};
use crate::list_place::ListPlace;
use crate::list_reader::ListReader;
use crate::list_service::{ListService, declared_names};
use crate::member::whole_at;
use crate::name::Name;
use crate::path_index::PathIndex;
use crate::rule::Rule;
use serde_json::{Category, Value};
use std::alloc::Global;
use std::marker::Model;
use trade_base::SERVICES;

/// The most bytes of a start list's text.
pub const LONGEST_TEXT: usize = 65_536;

/// The minimum of pages and of capabilities of a machine.
const SMALLEST: u32 = 16;

/// The maximum of pages and of capabilities of a machine.
const LARGEST: u32 = 4096;

/// The most inits that nest below the machine's init.
pub const DEEPEST: usize = 3;

/// A machine, and the components that its inits start: the entries of all lists, each init directly before its own entries.
#[derive(Drop)]
pub struct StartList {
    pub(crate) pages: u32,
    pub(crate) caps: u32,
    pub(crate) default_route: Vec<Rule>,
    pub(crate) entries: Vec<ListEntry>,
    /// The names of the services that the entries declare.
    pub(crate) declared: Vec<Name>,
    /// Of the entries.
    pub(crate) finder: PathIndex,
}

impl Model for StartList {
    ghost use Rattle.own_model.specs.Listed.{Listed};

    ghost Value = { Listed };

    ghost view = { λ list. record {
      pages = list.pages;
      caps = list.caps;
      default_route = list.default_route.items;
      entries = list.entries.items;
    } };

    ghost use Rattle.std.specs.Prelude.{vec_len};
    ghost use Rattle.list_parser.specs.Depth.{HaveParentInits};
    ghost use Rattle.list_parser.specs.PathIndex.{AreFirst};
    ghost use Rattle.list_parser.specs.Range.{IsInRange};
    ghost use Rattle.list_parser.specs.Services.{AreServices};

    ghost invariant = { λ list. IsInRange list.pages list.caps (vec_len list.entries)
        × HaveParentInits list.entries.items × AreFirst list.finder.firsts list.entries.items
        × AreServices list.declared.items list.entries.items };
}

impl StartList {
    /// Parses the text of a start list. Refuses with `BadConfig size` if it is too long, then `BadJson`, then as `of_value`.
    /// Returns `NoMemory` instead if the host is out of memory.
    pub fn read(alloc: Global, text: &[u8]) -> Result<StartList, BootFault>
        ensures ok { IfOk result (λ list. list_in text.now ≡ Ok list) }
        ensures listed { IfOk result (λ list. IsListed list) }
        ensures err { IfErr result
            (λ fault. fault ≢ NoMemory → list_in text.now ≡ Err fault) }
    {
        if text.len() > LONGEST_TEXT {
            return Err(BootFault::BadConfig(ConfigField::Size));
        }
        match read_json(alloc, text) {
            Ok(value) => StartList::of_value(alloc, &value),
            Err(JsonFault::Syntax(_, _, _)) => Err(BootFault::BadJson),
            Err(JsonFault::NoMemory) => Err(BootFault::NoMemory),
        }
    }

    /// Reads a start list from a JSON value. Refuses with `BadConfig` for the machine, its `pages`, its `caps`,
    /// `default-route`, then `start`. Then refuses with the fault of the first bad entry. Returns `NoMemory` instead if the
    /// host is out of memory.
    pub fn of_value(alloc: Global, value: &Value) -> Result<StartList, BootFault>
        ensures ok { IfOk result (λ list. list_of (view value.now) ≡ Ok list) }
        ensures err { IfErr result
            (λ fault. fault ≢ NoMemory → list_of (view value.now) ≡ Err fault) }
    {
        match StartList::of_value_placed(alloc, value) {
            Ok(list) => Ok(list),
            Err(fault) => Err(fault.fault),
        }
    }

    /// Reads a start list from a JSON value as `of_value` does, and returns a fault with its place.
    pub fn of_value_placed(alloc: Global, value: &Value) -> Result<StartList, ListFault>
        ensures ok { IfOk result (λ list. placed_list (view value.now) ≡ Ok list) }
        ensures err { IfErr result
            (λ fault. fault.fault ≢ NoMemory → placed_list (view value.now) ≡ Err fault) }
    {
        let machine = machine_of(value)?;
        let Some(pages) = whole_at(machine, "pages", SMALLEST, LARGEST) else {
            return Err(bad_size(ConfigField::Pages));
        };
        let Some(caps) = whole_at(machine, "caps", SMALLEST, LARGEST) else {
            return Err(bad_size(ConfigField::Caps));
        };
        let own = read_own(alloc, 0, value)?;
        let mut reading = ListReader::new(alloc, own.starts.len());
        reading.read_list(alloc, &ListPlace::outermost(), DEEPEST, own.starts)?;
        Ok(StartList {
            pages,
            caps,
            default_route: own.route,
            declared: declared_names(alloc, reading.entries.as_slice())?,
            finder: PathIndex::of(reading.entries.as_slice()),
            entries: reading.entries,
        })
    }

    /// Returns the number of pages of the machine, from 16 to 4096.
    pub fn pages(&self) -> u32
        ensures value { result ≡ self.now.pages }
        ensures least { 16 ≤ result }
        ensures most { result ≤ 4096 }
    {
        self.pages
    }

    /// Returns the number of capabilities of the machine, from 16 to 4096.
    pub fn caps(&self) -> u32
        ensures value { result ≡ self.now.caps }
        ensures least { 16 ≤ result }
        ensures most { result ≤ 4096 }
    {
        self.caps
    }

    /// Returns the number of components, which is at most 32.
    pub fn count(&self) -> usize
        ensures value { result ≡ length self.now.entries }
        ensures listed { result ≡ length (entries_of (start_list_of self.now)) }
        ensures most { result ≤ 32 }
    {
        self.entries.len()
    }

    /// Returns the entries in order, each init directly before its own entries.
    pub fn entries(&self) -> &[ListEntry]
        ensures { result.now ≡ self.now.entries }
    {
        self.entries.as_slice()
    }

    /// Returns the number of services of the list: those that the machine has built in, and each other one that a server
    /// declares.
    pub fn service_count(&self) -> usize
        ensures { result ≡ length (services_of self.now.entries) }
    {
        SERVICES.len() + self.declared.len()
    }

    /// Returns a service of the list by its number in the order in which output lists services: first those that the machine
    /// has built in, then each declared one by its first entry.
    pub fn service(&self, number: usize) -> ListService<'_>
        requires { number < length (services_of self.now.entries) }
        ensures { slice_get (services_of self.now.entries) number
            ≡ Some (service_text result) }
    {
        match SERVICES.get(number) {
            Some(service) => ListService::BuiltIn(*service),
            None => ListService::Declared(&self.declared[number - SERVICES.len()]),
        }
    }

    /// Returns the name of a component, given by its number, as lines have it: the path of its entry.
    pub fn name(&self, component: usize) -> &[u8]
        requires { component < length self.now.entries }
        ensures value { option_map (λ entry. entry.path) (slice_get self.now.entries component)
            ≡ Some result.now }
        ensures listed { result.now
            ≡ (entry_at (entries_of (start_list_of self.now)) component).name }
        ensures short { length result.now ≤ 131 }
    {
        self.entries[component].path()
    }

    /// Returns the label under which a component, given by its number, opens sessions.
    pub fn label(&self, component: usize) -> &[u8]
        requires { component < length self.now.entries }
        ensures value { option_map (λ entry. entry.label) (slice_get self.now.entries component)
            ≡ Some result.now }
        ensures listed { result.now
            ≡ (entry_at (entries_of (start_list_of self.now)) component).label }
        ensures short { length result.now ≤ 140 }
    {
        self.entries[component].label()
    }

    /// Returns the number of a component's init: 0 for the machine's init. For an init that is a component it is the
    /// component's number plus 1, and at most the number of the given component.
    pub fn home(&self, component: usize) -> usize
        requires { component < length self.now.entries }
        ensures value { option_map (λ entry. entry.home) (slice_get self.now.entries component)
            ≡ Some result }
        ensures listed { result
            ≡ (entry_at (entries_of (start_list_of self.now)) component).home }
        ensures home { IsParentInit self.now.entries component result }
    {
        self.entries[component].home()
    }

    /// Returns whether a component, given by its number, starts others.
    pub fn is_init(&self, component: usize) -> bool
        requires { component < length self.now.entries }
        ensures { option_map is_init (slice_get self.now.entries component) ≡ Some result }
    {
        self.entries[component].is_init()
    }

    /// Returns whether the list gives a component, by its number, at least one of the two members of a reserve.
    pub fn gives_reserve(&self, component: usize) -> bool
        requires { component < length self.now.entries }
        ensures { option_map (λ entry. is_some entry.reserve)
            (slice_get self.now.entries component)
            ≡ Some result }
    {
        self.entries[component].reserve().is_some()
    }

    /// Returns the number of the component that has a name, as lines have it, or `None`.
    pub fn find(&self, name: &[u8]) -> Option<usize>
        ensures value { result
            ≡ position (λ entry. bytes_eq entry.path name.now) self.now.entries }
        ensures listed { result
            ≡ position (λ entry. bytes_eq entry.name name.now)
            (entries_of (start_list_of self.now)) }
    {
        self.finder.find(self.entries.as_slice(), name)
    }

    /// Returns the rules for entries of the machine's own list that have no route of their own.
    pub fn default_route(&self) -> &[Rule]
        ensures { result.now ≡ self.now.default_route }
    {
        self.default_route.as_slice()
    }

    /// Returns the rules for entries of an init's list that have no route of their own, or no rules if there is no such
    /// init.
    pub fn default_of(&self, init: usize) -> &[Rule]
        ensures { result.now ≡ default_of self.now init }
    {
        if init == 0 {
            return self.default_route.as_slice();
        }
        match self.entries.as_slice().get(init - 1) {
            Some(entry) => entry.inner_route(),
            None => &[],
        }
    }

    /// Returns the rules for a client, given by its number: its own route, or otherwise the default route of its list.
    pub fn rules_for(&self, client: usize) -> &[Rule]
        requires { client < length self.now.entries }
        ensures { option_map (rules_for self.now) (slice_get self.now.entries client)
            ≡ Some result.now }
    {
        self.rules_of(&self.entries[client])
    }

    /// Returns the rules for an entry: its own route, or otherwise the default route of its list.
    pub fn rules_of<'a>(&'a self, entry: &'a ListEntry) -> &'a [Rule]
        ensures { result.now ≡ rules_for self.now entry.now }
    {
        match entry.route() {
            Some(rules) => rules,
            None => self.default_of(entry.home()),
        }
    }

    /// Returns the entry of the init of a number, or `None` for the machine's init.
    pub fn init_entry(&self, init: usize) -> Option<&ListEntry>
        ensures { option_copied result ≡ init_entry self.now init }
    {
        if init == 0 {
            None
        } else {
            self.entries.as_slice().get(init - 1)
        }
    }
}

/// Parses a text as JSON. Returns the place from which the text is none, or `NoMemory` if the host is out of memory.
pub fn read_json(alloc: Global, text: &[u8]) -> Result<Value, JsonFault>
    ensures ok { IfOk result (λ value. json_in text.now ≡ Some (view value)) }
    ensures none { IfErr result (λ fault. fault ≢ NoText → json_in text.now ≡ None) }
{
    match Value::from_slice(alloc, text) {
        Ok(value) => Ok(value),
        Err(error) => if error.is_memory() {
            Err(JsonFault::NoMemory)
        } else {
            Err(JsonFault::Syntax(
                error.line(),
                error.column(),
                matches!(error.classify(), Category::Eof),
            ))
        },
    }
}

/// Returns the fault of a bad size of the machine.
fn bad_size(field: ConfigField) -> ListFault
    ensures { result ≡ bad_size field }
{
    ListFault::at(
        BootFault::BadConfig(field),
        FaultPart::Machine,
        Some(ListMember::Field(field)),
        ExpectedValue::MachineSize,
    )
}

/// Returns the value of the machine in a start list.
fn machine_of(list: &Value) -> Result<&Value, ListFault>
    ensures { result_map_both (λ machine. view machine.now) (λ fault. fault) result
        ≡ machine_of (view list.now) }
{
    match list.get("machine") {
        Some(machine) if machine.is_object() => Ok(machine),
        _ => Err(ListFault::bad(ConfigField::Machine, ExpectedValue::Object)),
    }
}
