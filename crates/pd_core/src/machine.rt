//! The core: the memory, and the components whose calls it carries out.
ghost use Rattle.core_calls.specs.Call.{model_call, IsWellFormed};
ghost use Rattle.pd_core.specs.Core.{IsCoreAt};
ghost use Rattle.pd_core.specs.SessionCalls.{Agrees, Goes};

use crate::call_value::tell;
use crate::component::Component;
use crate::exit::exit;
use crate::reserves::{ReserveDirection, reserve, shift};
use crate::router::Router;
use crate::session_calls::{self, close, open, upgrade};
use core_calls::{Call, Reply};
use dataspace_core::Memory;
use std::boxed::BoxedSlice;
use std::marker::Model;

/// The machine's memory with its components. Contracts see the entries of the start list, the accounts of inits, and each
/// component's own state.
#[derive(Drop)]
pub struct Core<R: Router + Drop> {
    pub(crate) memory: Memory,
    /// A boxed slice, so that no call can lengthen it.
    pub(crate) components: BoxedSlice<Component>,
    /// The router, which agrees with the components' routes.
    routes: R,
}

impl<R: Router + Drop> Model for Core<R> {
    ghost use Rattle.own_model.specs.World.{World};
    ghost use Rattle.pd_core.specs.CodedWorld.{coded_world};

    ghost Value = { World };

    ghost coded = { coded_world };

    ghost use Rattle.pd_core.specs.Core.{world_of, IsCore};
    ghost use Rattle.pd_core.specs.SessionCalls.{Agrees};
    ghost use Rattle.std.specs.Box.{boxed_slice_items};

    ghost view = { λ core.
        world_of (R.places core.routes) core.memory (boxed_slice_items core.components) };

    ghost invariant = { λ core. IsCore core.memory (boxed_slice_items core.components)
        × Agrees (R.places core.routes) (R.leads core.routes) core.memory (boxed_slice_items core.components) };
}

impl<R: Router + Drop> Core<R> {
    ghost use Rattle.std.specs.Prelude.{◌≡◌, ◌<◌, ℕ, length};
    ghost use Rattle.std.specs.List.{flat_map};
    ghost use Rattle.own_model.specs.Reply.{reply_text, log_text};
    ghost use Rattle.own_model.specs.StartList.{StartList};
    ghost use Rattle.own_model.specs.World.{outcome_at, with_state, IsBalanced, IsBalancedFor};
    ghost use Rattle.core_calls.specs.Call.{model_call, IsWellFormed};
    ghost use Rattle.pd_core.specs.Fresh.{started_world, AreFresh};
    ghost use Rattle.pd_core.specs.SessionCalls.{Agrees};

    /// Creates a core from a memory and components that have made no call. Each component has an account of its own, with no
    /// use, and empty tables. Its budget is the account's limits. The memory must have room for the accounts of sessions.
    /// The router must route requests as the components' routes do.
    pub fn from_parts(memory: Memory, components: Vec<Component>, routes: R) -> Core<R>
        requires fresh { AreFresh memory components.items }
        requires leads { Agrees (R.places routes) (R.leads routes) memory components.items }
        ensures started { result ≡ started_world (R.places routes) memory components.items }
    {
        Core {
            memory,
            components: components.into_boxed_slice(),
            routes,
        }
    }

    /// Carries out a call of the component at a place. Sets the reply to the log lines that the call finishes, the text, and
    /// the outcome whose rendering the text is (`Reply::outcome`). Every other component's own state is unchanged.
    pub fn step(&mut self, component: usize, call: Call<'_>, reply: &mut Reply)
        requires component { component < length self.old.entries }
        requires call { IsWellFormed call }
        ensures answered { reply.new.text
            ≡ reply_text (outcome_at self.old component (model_call call.entry)).reply }
        ensures lines { reply.new.lines
            ≡ flat_map log_text (outcome_at self.old component (model_call call.entry)).lines }
        ensures stepped { self.new
            ≡ with_state self.old component
            (outcome_at self.old component (model_call call.entry)).next }
        ensures balance { (pages caps : ℕ) → IsBalanced pages caps self.old →
            IsBalanced pages caps self.new }
        ensures balance_for { (list : StartList) → IsBalancedFor list self.old →
            IsBalancedFor list self.new }
    {
        carry_out(
            &mut self.memory,
            self.components.as_mut_slice(),
            &self.routes,
            component,
            call,
            reply,
        );
    }
}

// Carries out a call of the component at a place, and sets the reply to its log lines and its result. Calls that change more
// than the component's own part are selected here: those of sessions, of the reserve, and an exit. Each of them is a
// function that is not inlined, because each call would clear its places.
fn carry_out<R: Router>(
    memory: &mut Memory,
    components: &mut [Component],
    routes: &R,
    caller: usize,
    call: Call<'_>,
    reply: &mut Reply,
)
    requires at { IsCoreAt caller memory.old components.old }
    requires routes { Agrees (R.places routes.now) (R.leads routes.now) memory.old components.old }
    requires call { IsWellFormed call }
    ensures { Goes (R.places routes.now) (model_call call.entry) caller reply.new
        memory.old components.old memory.new components.new }
{
    let outcome = match call {
        Call::Open { service, args } => open(memory, components, routes, caller, service, args),
        Call::Upgrade { selector, args } => upgrade(memory, components, caller, selector, args),
        Call::Close(selector) => close(memory, components, caller, selector),
        Call::Reserve => reserve(memory, components, caller),
        Call::Request(args) => shift(
            memory,
            components,
            caller,
            ReserveDirection::FromReserve,
            args,
        ),
        Call::Yield(args) => shift(
            memory,
            components,
            caller,
            ReserveDirection::ToReserve,
            args,
        ),
        Call::Exit => exit(memory, components, caller),
        Call::CallSession { selector, request } => {
            return session_calls::call(memory, components, caller, selector, request, reply);
        }
        _ => return components[caller].step(memory, call, reply),
    };
    tell(outcome, reply);
}
