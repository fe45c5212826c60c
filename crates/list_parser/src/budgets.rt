//! Copies of start lists, with other budgets, reserves and sizes of the machine.
ghost use Rattle.std.specs.Prelude.{◌≡◌, ◌<◌, ◌≤◌, length, IfOk};
ghost use Rattle.std.specs.Option.{option_map};
ghost use Rattle.core_calls.specs.Quotas.{reserve_amounts};
ghost use Rattle.list_parser.specs.Budgets.{with_budget, with_reserve, with_size};

use crate::entry::ListEntry;
use crate::list::StartList;
use crate::list_service::copy_names;
use crate::rule::copy_rules;
use core_calls::Reserve;
use std::alloc::{AllocError, Global};
use trade_base::{Caps, Ram};

impl StartList {
    /// Copies the list.
    pub fn copy(&self, alloc: Global) -> Result<StartList, AllocError>
        ensures { IfOk result (λ copy. copy ≡ self.now) }
    {
        let default_route = copy_rules(alloc, self.default_route.as_slice())?;
        let entries = copy_entries(alloc, self.entries.as_slice())?;
        Ok(StartList {
            pages: self.pages,
            caps: self.caps,
            default_route,
            entries,
            declared: copy_names(alloc, self.declared.as_slice())?,
            finder: self.finder.copy(),
        })
    }

    /// Sets the size of the machine: so many pages, and so many capabilities, each 16 to 4096.
    pub fn set_size(&mut self, pages: u32, caps: u32)
        requires least_pages { 16 ≤ pages }
        requires most_pages { pages ≤ 4096 }
        requires least_caps { 16 ≤ caps }
        requires most_caps { caps ≤ 4096 }
        ensures { self.new ≡ with_size self.old pages caps }
    {
        self.pages = pages;
        self.caps = caps;
    }

    /// Sets what a component starts with, by its number: so many bytes, and so many capabilities.
    pub fn set_budget(&mut self, component: usize, ram: Ram, caps: Caps)
        requires { component < length self.old.entries }
        ensures { self.new ≡ with_budget self.old component (record { ram = ram.0; caps = caps.0 }) }
    {
        let entry = &mut self.entries[component];
        entry.ram = ram.0;
        entry.caps = caps.0;
    }

    /// Sets the reserve that the list gives a component by its number, if it gives it one.
    pub fn set_reserve(&mut self, component: usize, reserve: Option<Reserve>)
        requires { component < length self.old.entries }
        ensures { self.new
            ≡ with_reserve self.old component (option_map reserve_amounts reserve) }
    {
        let entry = &mut self.entries[component];
        entry.reserve = reserve;
    }
}

/// Copies entries.
fn copy_entries(alloc: Global, entries: &[ListEntry]) -> Result<Vec<ListEntry>, AllocError>
    ensures { IfOk result (λ copies. copies.items ≡ entries.now) }
{
    let mut copies = Vec::new(alloc);
    for entry in entries {
        copies.push(entry.copy(alloc)?)?;
    }
    Ok(copies)
}
