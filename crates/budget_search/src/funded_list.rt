//! Machines on which one component alone has a budget.
ghost use Rattle.std.specs.Prelude.{◌≡◌, ◌-◌, ◌<◌, ◌^◌, true, length, slice_get, IfOk, None};
ghost use Rattle.budget_meter.specs.Needs.{amounts_of};
ghost use Rattle.list_parser.specs.Budgets.{but_budgets, with_size};
ghost use Rattle.list_parser.specs.Quota.{quota_fault};
ghost use Rattle.budget_search.specs.Alike.{most_in, reserve_in, HasAlone, IsFunded};
ghost use Rattle.budget_search.specs.NoBudgets.{has_room};

use budget_meter::Budget;
use list_parser::StartList;
use std::alloc::{AllocError, Global};
use trade_base::{Caps, PAGE, Ram};

/// The most pages of a machine, and the most capabilities.
pub const LARGEST: u32 = 4096;

/// Returns a copy of a list on the largest machine, in which a component has a budget, its reserve as it was, and each init above
/// it so much in all. No other component has a budget or a reserve. The copy boots if the largest machine has the budget and the
/// reserve.
pub fn funded(
    alloc: Global,
    list: &StartList,
    component: usize,
    budget: Budget,
) -> Result<StartList, AllocError>
    requires there { component < length list.now.entries }
    requires few { budget.caps < 2 ^ 32 }
    ensures funded { IfOk result
        (λ machine. IsFunded machine list.now component (amounts_of budget)) }
    ensures boots { IfOk result (λ machine.
        has_room list.now component (amounts_of budget) ≡ true → quota_fault machine ≡ None) }
{
    let entry = &list.entries()[component];
    let (ram, caps) = (Ram(budget.ram), Caps(budget.caps as u32));
    let beside = entry.reserve_at_start();
    let mut machine = list.copy(alloc)?;
    take_all(&mut machine);
    machine.set_budget(component, ram, caps);
    machine.set_reserve(component, entry.reserve());
    fund_inits(
        &mut machine,
        component,
        Ram(ram.0.saturating_add(beside.ram.0)),
        Caps(caps.0.saturating_add(beside.caps.0)),
    );
    Ok(machine)
}

// Takes all budgets and reserves away, and makes the machine the largest.
fn take_all(machine: &mut StartList)
    ensures { machine.new ≡ with_size (but_budgets machine.old) 4096 4096 }
{
    machine.set_size(LARGEST, LARGEST);
    let count = machine.count();
    for component in 0..count {
        machine.set_budget(component, Ram(0), Caps(0));
        machine.set_reserve(component, None);
    }
}

// Gives each init above a component so much.
fn fund_inits(machine: &mut StartList, component: usize, ram: Ram, caps: Caps)
    requires { component < length machine.old.entries }
    ensures alike { but_budgets machine.new ≡ but_budgets machine.old }
    ensures own { slice_get machine.new.entries component ≡ slice_get machine.old.entries component }
    ensures boots { HasAlone machine.old component (record { ram = ram.0; caps = caps.0 }) →
        quota_fault machine.new ≡ None }
{
    let mut init = machine.home(component);
    while init > 0 {
        machine.set_budget(init - 1, ram, caps);
        init = machine.home(init - 1);
    }
}

/// Returns a copy of a list on the largest machine, in which a component has the whole machine, less its reserve. No other component
/// has a budget or a reserve.
pub fn ample(alloc: Global, list: &StartList, component: usize) -> Result<StartList, AllocError>
    requires { component < length list.now.entries }
    ensures funded { IfOk result
        (λ machine. IsFunded machine list.now component (most_in list.now component)) }
    ensures boots { IfOk result (λ machine.
        has_room list.now component (most_in list.now component) ≡ true → quota_fault machine ≡ None) }
{
    let most = most_of(list, component);
    funded(alloc, list, component, most)
}

/// Returns the most that a component of a list can have in addition to its reserve: the largest machine's.
pub fn most_of(list: &StartList, component: usize) -> Budget
    requires { component < length list.now.entries }
    ensures amounts { amounts_of result ≡ most_in list.now component }
    ensures few { result.caps < 2 ^ 32 }
{
    most_beside(reserve_of(list, component))
}

/// Returns the most that a component can have in addition to its reserve: the largest machine's.
pub(crate) fn most_beside(reserve: Budget) -> Budget
    ensures ram { result.ram ≡ 16777216 - reserve.ram }
    ensures caps { result.caps ≡ 4096 - reserve.caps }
{
    Budget {
        ram: (u64::from(LARGEST) * PAGE).saturating_sub(reserve.ram),
        caps: u64::from(LARGEST).saturating_sub(reserve.caps),
    }
}

/// Returns what a component of a list has in reserve at the start.
pub(crate) fn reserve_of(list: &StartList, component: usize) -> Budget
    requires { component < length list.now.entries }
    ensures { amounts_of result ≡ reserve_in list.now component }
{
    let reserve = list.entries()[component].reserve_at_start();
    Budget {
        ram: reserve.ram.0,
        caps: u64::from(reserve.caps.0),
    }
}
