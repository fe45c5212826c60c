//! Entries of a start list.
ghost use Rattle.std.specs.Prelude.{◌≡◌, ◌≤◌, length, IfOk};
ghost use Rattle.std.specs.Option.{option_copied, option_map};
ghost use Rattle.own_model.specs.Listed.{offers, reserve_of, service_in};
ghost use Rattle.list_parser.specs.Depth.{is_init, runs_script, runs_server};
ghost use Rattle.list_parser.specs.Labels.{route_name};
ghost use Rattle.list_parser.specs.View.{model_binary};
ghost use Rattle.core_calls.specs.Quotas.{reserve_amounts};
ghost use Rattle.list_parser.specs.declared.fault.BootFault.TheVariants.{QuotaExceeded};

use crate::binary::Binary;
use crate::fault::BootFault;
use crate::name::{Label, Name, Path};
use crate::rule::{Rule, copy_rules};
use core_calls::Reserve;
use std::alloc::{AllocError, Global};
use std::marker::Model;
use trade_base::{Caps, Ram};

/// A component of the machine, as the start list describes it: its name, its path and its label, the number of its init, and
/// its budget. It states whether the component provides the service of its binary, and has its own route and its reserve, if
/// they are given. An init also has the default route of its list.
#[derive(Drop)]
pub struct ListEntry {
    pub(crate) name: Name,
    pub(crate) path: Path,
    pub(crate) label: Label,
    pub(crate) binary: Binary,
    pub(crate) ram: u64,
    pub(crate) caps: u32,
    pub(crate) home: u8,
    pub(crate) provides: bool,
    pub(crate) route: Option<Vec<Rule>>,
    pub(crate) reserve: Option<Reserve>,
    pub(crate) inner_route: Vec<Rule>,
}

impl Model for ListEntry {
    ghost use Rattle.std.specs.Option.{option_map};
    ghost use Rattle.own_model.specs.Listed.{ListedEntry};

    ghost Value = { ListedEntry };

    ghost use Rattle.list_parser.specs.View.{model_binary};
    ghost use Rattle.core_calls.specs.Quotas.{reserve_amounts};

    ghost view = { λ entry. record {
      name = entry.name;
      path = entry.path;
      label = entry.label;
      home = entry.home;
      binary = model_binary entry.binary;
      ram = entry.ram;
      caps = entry.caps;
      provides = entry.provides;
      route = option_map (λ rules. rules.items) entry.route;
      reserve = option_map reserve_amounts entry.reserve;
      inner_route = entry.inner_route.items;
    } };
}

impl ListEntry {
    /// Returns the component's name in its list, without the inits above.
    pub fn name(&self) -> &[u8]
        ensures name { result.now ≡ self.now.name }
        ensures short { length result.now ≤ 32 }
    {
        self.name.as_bytes()
    }

    /// Copies the component's name into a value of its own.
    pub fn to_name(&self) -> Name
        ensures { result ≡ self.now.name }
    {
        self.name.copy()
    }

    /// Returns the path by which lines call the component: the names of the inits above it and its own, separated by `/`.
    pub fn path(&self) -> &[u8]
        ensures path { result.now ≡ self.now.path }
        ensures short { length result.now ≤ 131 }
    {
        self.path.as_bytes()
    }

    /// Copies the component's path into a value of its own.
    pub fn to_path(&self) -> Path
        ensures { result ≡ self.now.path }
    {
        self.path.copy()
    }

    /// Returns the label under which the component opens sessions: the names of its path, separated by ` -> `.
    pub fn label(&self) -> &[u8]
        ensures label { result.now ≡ self.now.label }
        ensures short { length result.now ≤ 140 }
    {
        self.label.as_bytes()
    }

    /// Copies the component's label into a value of its own.
    pub(crate) fn to_label(&self) -> Label
        ensures { result ≡ self.now.label }
    {
        self.label.copy()
    }

    /// Returns the number of the component's init: 0 for the machine's init, and otherwise the place of the init's entry
    /// plus 1.
    pub fn home(&self) -> usize
        ensures { result ≡ self.now.home }
    {
        usize::from(self.home)
    }

    /// Returns the fault of a boot in which the rest of its init's account does not cover the entry.
    pub fn quota_exceeded(&self) -> BootFault
        ensures { result ≡ QuotaExceeded self.now.path }
    {
        BootFault::QuotaExceeded(self.path.copy())
    }

    /// Returns the binary that the component runs: script, server or init.
    pub fn binary(&self) -> &Binary
        ensures { model_binary result.now ≡ self.now.binary }
    {
        &self.binary
    }

    /// Returns whether the component is a script.
    pub fn is_script(&self) -> bool
        ensures { result ≡ runs_script self.now.binary }
    {
        self.binary.is_script()
    }

    /// Returns whether the component is a server.
    pub fn is_server(&self) -> bool
        ensures { result ≡ runs_server self.now.binary }
    {
        self.binary.is_server()
    }

    /// Returns whether the component starts entries of its own.
    pub fn is_init(&self) -> bool
        ensures { result ≡ is_init self.now }
    {
        self.binary.is_init()
    }

    /// Returns the name of the service that the component's binary can provide, if it is a server.
    pub fn service(&self) -> Option<&str>
        ensures { option_copied result ≡ service_in self.now.binary }
    {
        self.binary.service()
    }

    /// Returns the RAM of the component's budget in bytes.
    pub fn ram(&self) -> u64
        ensures { result ≡ self.now.ram }
    {
        self.ram
    }

    /// Returns the number of capabilities of the component's budget.
    pub fn caps(&self) -> u32
        ensures { result ≡ self.now.caps }
    {
        self.caps
    }

    /// Returns the component's own route, if it has one.
    pub fn route(&self) -> Option<&[Rule]>
        ensures { option_map (λ rules. rules.now) result ≡ self.now.route }
    {
        match &self.route {
            Some(rules) => Some(rules.as_slice()),
            None => None,
        }
    }

    /// Returns the name of the member that has the rules for the component.
    pub fn route_name(&self) -> &'static str
        ensures { result.now ≡ route_name self.now }
    {
        match &self.route {
            Some(_) => "route",
            None => "default-route",
        }
    }

    /// Returns the default route of the list that the component starts, which is empty unless it is an init.
    pub fn inner_route(&self) -> &[Rule]
        ensures { result.now ≡ self.now.inner_route }
    {
        self.inner_route.as_slice()
    }

    /// Returns the reserve that the list gives the component, if it has one of the two members.
    pub fn reserve(&self) -> Option<Reserve>
        ensures { option_map reserve_amounts result ≡ self.now.reserve }
    {
        self.reserve
    }

    /// Returns the reserve with which the component starts: what the list gives a script, and otherwise nothing.
    pub fn reserve_at_start(&self) -> Reserve
        ensures { reserve_amounts result ≡ reserve_of self.now }
    {
        match (&self.binary, self.reserve) {
            (Binary::Script, Some(reserve)) => reserve,
            _ => Reserve {
                ram: Ram(0),
                caps: Caps(0),
            },
        }
    }

    /// Returns whether the component provides the service of its binary.
    pub fn provides(&self) -> bool
        ensures { result ≡ self.now.provides }
    {
        self.provides
    }

    /// Returns whether the component is in the list of an init, given by its number, and provides a service.
    pub fn offers(&self, init: usize, service: &[u8]) -> bool
        ensures { result ≡ offers init service.now self.now }
    {
        self.home() == init && (self.provides && self.binary.serves(service))
    }

    /// Copies the entry.
    pub(crate) fn copy(&self, alloc: Global) -> Result<ListEntry, AllocError>
        ensures { IfOk result (λ copy. copy ≡ self.now) }
    {
        let route = copy_route(alloc, self.route())?;
        let inner_route = copy_rules(alloc, self.inner_route.as_slice())?;
        let binary = self.binary.copy()?;
        Ok(ListEntry {
            name: self.name.copy(),
            path: self.path.copy(),
            label: self.label.copy(),
            binary,
            ram: self.ram,
            caps: self.caps,
            home: self.home,
            provides: self.provides,
            route,
            reserve: self.reserve,
            inner_route,
        })
    }
}

/// Copies a route, if there is one.
fn copy_route(alloc: Global, route: Option<&[Rule]>) -> Result<Option<Vec<Rule>>, AllocError>
    ensures { IfOk result (λ copy. option_map (λ rules. rules.items) copy
        ≡ option_map (λ rules. rules.now) route.entry) }
{
    match route {
        Some(rules) => Ok(Some(copy_rules(alloc, rules)?)),
        None => Ok(None),
    }
}
