//! The calls of a reserve: it is read, and limits move between it and its script's account.
ghost use Rattle.std.specs.Prelude.{◌≡◌};
ghost use Rattle.own_model.specs.Call.Call.{Reserve as ModelledReserve};
ghost use Rattle.pd_core.specs.Core.{Places, IsCoreAt};
ghost use Rattle.pd_core.specs.SessionCalls.{GoesWith};
ghost use Rattle.pd_core.specs.ReserveDirection.{call_by, giver, taker};

use crate::call_value::CallValue;
use crate::component::{Component, Role};
use crate::script::Script;
use dataspace_core::Memory;
use session_proto::SessionArgs;
use trade_base::{AccountId, Refusal};

/// The direction in which limits move between a script's reserve and its account.
#[derive(Clone, Copy)]
pub(crate) enum ReserveDirection {
    /// From the reserve to the account: a `request`.
    FromReserve,
    /// From the account to the reserve: a `yield`.
    ToReserve,
}

impl ReserveDirection {
    // The account of a script that gives limits, and the one that receives them.
    fn ends(self, script: &Script) -> (AccountId, AccountId)
        ensures giver { result.0.0 ≡ giver self script.now }
        ensures taker { result.1.0 ≡ taker self script.now }
    {
        match self {
            ReserveDirection::FromReserve => (script.reserve, script.account),
            ReserveDirection::ToReserve => (script.account, script.reserve),
        }
    }
}

/// Returns what the component at a place has in reserve. Refuses with `NotAScript`, then `Gone`.
#[inline(never)]
pub(crate) fn reserve(
    memory: &Memory,
    components: &[Component],
    caller: usize,
) -> Result<CallValue, Refusal>
    requires { IsCoreAt caller memory.now components.now }
    ensures { (places : Places) → GoesWith places ModelledReserve caller result
        memory.now components.now memory.now components.now }
{
    let component = &components[caller];
    let Role::Script(_) = &component.role else {
        return Err(component.refusal());
    };
    Ok(CallValue::Reserved(component.reserve(memory)))
}

/// Moves limits between the reserve and the account of the component at a place, by the text of arguments. Refuses with
/// `NotAScript`, then `Gone`, then `BadArgs`. Then refuses with `OutOfRam`, then `OutOfCaps`, if the giver does not cover
/// them: a reserve can give all, an account what it does not use.
#[inline(never)]
pub(crate) fn shift(
    memory: &mut Memory,
    components: &[Component],
    caller: usize,
    way: ReserveDirection,
    text: &[u8],
) -> Result<CallValue, Refusal>
    requires { IsCoreAt caller memory.old components.now }
    ensures { (places : Places) → GoesWith places (call_by way text.now) caller result
        memory.old components.now memory.new components.now }
{
    let component = &components[caller];
    let Role::Script(script) = &component.role else {
        return Err(component.refusal());
    };
    let more = SessionArgs::read(text)?;
    let (giver, taker) = way.ends(script);
    memory.shift(giver, taker, more.ram(), more.caps())?;
    Ok(CallValue::Done)
}
