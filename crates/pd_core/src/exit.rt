//! The exit of a component.
ghost use Rattle.std.specs.Prelude.{get_or};
ghost use Rattle.own_model.specs.Call.Call.{Exit as ModelledExit};
ghost use Rattle.pd_core.specs.Core.{Places, IsCoreAt};
ghost use Rattle.pd_core.specs.Exit.{ClosesTo, IsScriptRole};
ghost use Rattle.pd_core.specs.SessionCalls.{AreBelowParents, GoesWith};
ghost use Rattle.pd_core.specs.declared.component.Component.{Component as AnyComponent};

use crate::call_value::CallValue;
use crate::component::Component;
use crate::session_calls::close;
use dataspace_core::Memory;
use trade_base::Refusal;

/// Ends the component at a place: closes its sessions, frees all that it holds, closes its account, and returns the limits
/// to its init's account. Its name remains. Refuses with `NotAScript`, then `Gone`.
#[inline(never)]
pub(crate) fn exit(
    memory: &mut Memory,
    components: &mut [Component],
    caller: usize,
) -> Result<CallValue, Refusal>
    requires { IsCoreAt caller memory.old components.old }
    ensures { (places : Places) → AreBelowParents places memory.old components.old →
        GoesWith places ModelledExit caller result
        memory.old components.old memory.new components.new }
{
    let places = components[caller].places()?;
    close_all(memory, components, caller, places);
    components[caller].leave(memory);
    Ok(CallValue::Done)
}

// Closes the sessions of a script that the first `selectors` selectors name.
fn close_all(memory: &mut Memory, components: &mut [Component], caller: usize, selectors: usize)
    requires at { IsCoreAt caller memory.old components.old }
    requires script { (d : AnyComponent) → IsScriptRole (get_or components.old caller d).role }
    ensures { ClosesTo caller selectors memory.old components.old memory.new components.new }
{
    for place in 0..selectors {
        // A selector that names no session is refused.
        let _ = close(memory, components, caller, place as u64 + 1);
    }
}
