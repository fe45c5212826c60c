//! The sums of all limits, which the account list prints last.
ghost use Rattle.std.specs.Prelude.{◌≡◌, ◌+◌, ◌*◌, ◌^◌, ◌<◌, ◌≤◌, length};
ghost use Rattle.own_model.specs.Limits.{ram_limits, caps_limits};
ghost use Rattle.own_model.specs.Transcript.{state_at};
ghost use Rattle.own_model.specs.StartList.{init_at};
ghost use Rattle.own_model.specs.World.{all_ram, all_caps};
ghost use Rattle.core_calls.specs.Quotas.{quotas_account};
ghost use Rattle.core_calls.specs.Quotas.{reserve_amounts};

use core_calls::{Quotas, Reserve};
use pd_core::{Core, Router};

/// Limits of several accounts together: RAM in bytes, and capabilities. They are wider than an account's, so that no sum of
/// accounts overflows.
#[derive(Clone, Copy, PartialEq, Eq)]
pub struct Sums {
    pub ram: u128,
    pub caps: u128,
}

impl Sums {
    ghost use Rattle.std.specs.Prelude.{◌≡◌, ◌+◌, ◌*◌, ◌^◌, ◌<◌, ◌≤◌};
    ghost use Rattle.core_calls.specs.Quotas.{quotas_account};
    ghost use Rattle.core_calls.specs.Quotas.{reserve_amounts};

    // The limits of one account.
    fn of(account: Quotas) -> Sums
        ensures ram { result.ram ≡ (quotas_account account).ram_limit }
        ensures caps { result.caps ≡ (quotas_account account).caps_limit }
        ensures ram_fits { result.ram < 2 ^ 64 }
        ensures caps_fits { result.caps < 2 ^ 64 }
    {
        Sums {
            ram: u128::from(account.ram_limit.0),
            caps: u128::from(account.caps_limit.0),
        }
    }

    // The amounts of a reserve.
    fn kept(reserve: Reserve) -> Sums
        ensures ram { result.ram ≡ (reserve_amounts reserve).ram }
        ensures caps { result.caps ≡ (reserve_amounts reserve).caps }
        ensures ram_fits { result.ram < 2 ^ 64 }
        ensures caps_fits { result.caps < 2 ^ 64 }
    {
        Sums {
            ram: u128::from(reserve.ram.0),
            caps: u128::from(reserve.caps.0),
        }
    }

    // The sums of these limits and others.
    fn plus(self, more: Sums) -> Sums
        requires ram { self.ram + more.ram < 2 ^ 128 }
        requires caps { self.caps + more.caps < 2 ^ 128 }
        ensures ram { result.ram ≡ self.ram + more.ram }
        ensures caps { result.caps ≡ self.caps + more.caps }
    {
        Sums {
            ram: self.ram + more.ram,
            caps: self.caps + more.caps,
        }
    }
}

/// Returns the sums of the limits of all accounts: the machine's init, at most 32 components with their reserves, and their
/// open sessions.
pub fn sum_all<R: Router + Drop>(core: &Core<R>) -> Sums
    requires few { length core.now.entries ≤ 32 }
    ensures ram { result.ram ≡ all_ram core.now }
    ensures caps { result.caps ≡ all_caps core.now }
{
    let mut sums = Sums::of(core.init_account());
    for component in 0..core.count() {
        sums = sums.plus(sum_of(core, component));
    }
    sums
}

// The limits of a component's account, of its reserve and of its open sessions.
fn sum_of<R: Router + Drop>(core: &Core<R>, component: usize) -> Sums
    requires { component < length core.now.entries }
    ensures ram { result.ram ≡ (init_at core.now.inits (component + 1)).ram_limit
        + ram_limits (state_at core.now.states component) }
    ensures caps { result.caps ≡ (init_at core.now.inits (component + 1)).caps_limit
        + caps_limits (state_at core.now.states component) }
    ensures ram_fits { result.ram < 2 ^ 80 }
    ensures caps_fits { result.caps < 2 ^ 80 }
{
    let mut sums = Sums::of(core.account(component)).plus(Sums::kept(core.reserve(component)));
    for selector in 0..core.last_selector(component) + 1 {
        if let Some(account) = core.session_account(component, selector) {
            sums = sums.plus(Sums::of(account));
        }
    }
    sums
}
