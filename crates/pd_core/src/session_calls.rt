//! The calls of sessions in the core: each finds the calling component and the serving one.
ghost use Rattle.own_model.specs.Call.Call.{Open as ModelledOpen, Upgrade as ModelledUpgrade};
ghost use Rattle.own_model.specs.Call.Call.{CallSession as ModelledCallSession, Close as ModelledClose};
ghost use Rattle.pd_core.specs.Core.{Places, IsCoreAt};
ghost use Rattle.pd_core.specs.SessionCalls.{Agrees, Goes, GoesWith};

use crate::call_value::CallValue;
use crate::component::{Component, Role};
use crate::router::Router;
use core_calls::{Reply, label_of};
use dataspace_core::Memory;
use server_frame::Effect;
use session_proto::SessionArgs;
use trade_base::{Refusal, Selector};

/// Closes the session that a selector of the component at a place names, with the capability and the regions of its buffer.
/// Refuses with `NotAScript`, then `Gone`, then `InvalidSession`.
#[inline(never)]
pub(crate) fn close(
    memory: &mut Memory,
    components: &mut [Component],
    caller: usize,
    selector: u64,
) -> Result<CallValue, Refusal>
    requires { IsCoreAt caller memory.old components.old }
    ensures { (places : Places) → GoesWith places (ModelledClose selector) caller result
        memory.old components.old memory.new components.new }
{
    let (entry, session) = components[caller].take_session(selector)?;
    let Role::Server(_, host) = &mut components[entry].role else {
        unreachable!()
    };
    let lent = host.buffer(session);
    host.close(memory, session);
    if let Some(space) = lent {
        components[caller].drop_buffer(space);
    }
    Ok(CallValue::Done)
}

/// Upgrades the session that a selector of the component at a place names with a further donation. Refuses with
/// `NotAScript`, then `Gone`, then `InvalidSession`, then `BadArgs`, then `OutOfRam`, then `OutOfCaps`.
#[inline(never)]
pub(crate) fn upgrade(
    memory: &mut Memory,
    components: &mut [Component],
    caller: usize,
    selector: u64,
    text: &[u8],
) -> Result<CallValue, Refusal>
    requires { IsCoreAt caller memory.old components.old }
    ensures { (places : Places)
        → GoesWith places (ModelledUpgrade selector text.now) caller result
        memory.old components.old memory.new components.new }
{
    let (entry, session) = components[caller].session(selector)?;
    let more = SessionArgs::read(text)?;
    let Role::Server(_, host) = &mut components[entry].role else {
        unreachable!()
    };
    host.raise(memory, session, more.ram(), more.caps())?;
    Ok(CallValue::Done)
}

/// Sends a request to the session that a selector of the component at a place names. Sets the reply to the request's log
/// lines and its result. A buffer that is created has a new selector, at the end of the reply; one that is freed loses its
/// regions. Refuses with `NotAScript`, then `Gone`, then `InvalidSession`.
#[inline(never)]
pub(crate) fn call(
    memory: &mut Memory,
    components: &mut [Component],
    caller: usize,
    selector: u64,
    request: &[u8],
    reply: &mut Reply,
)
    requires { IsCoreAt caller memory.old components.old }
    ensures { (places : Places) →
        Goes places (ModelledCallSession selector request.now) caller reply.new
        memory.old components.old memory.new components.new }
{
    let (entry, session) = match components[caller].session(selector) {
        Ok(named) => named,
        Err(refusal) => return reply.write_refusal(refusal),
    };
    reply.clear_lines();
    let Role::Server(_, host) = &mut components[entry].role else {
        unreachable!()
    };
    match host.serve(memory, session, request, reply) {
        Effect::Nothing => {}
        Effect::Buffer(space) => {
            let kept = components[caller].keep_buffer(space, Selector(selector as u32));
            reply.add_selector(kept);
        }
        Effect::Gone(space) => components[caller].drop_buffer(space),
    }
}

/// A session of the service is opened for the component at a place, by the text of arguments, or why not: `NotAScript`, then
/// `Gone`, then `BadArgs`, then `ServiceDenied`, then `OutOfRam`, then `OutOfCaps`, then `InsufficientRamQuota`, then
/// `InsufficientCapQuota`.
#[inline(never)]
pub(crate) fn open<R: Router>(
    memory: &mut Memory,
    components: &mut [Component],
    routes: &R,
    caller: usize,
    service: &[u8],
    text: &[u8],
) -> Result<CallValue, Refusal>
    requires at { IsCoreAt caller memory.old components.old }
    requires routes { Agrees (R.places routes.now) (R.leads routes.now) memory.old components.old }
    ensures { GoesWith (R.places routes.now) (ModelledOpen service.now text.now) caller result
        memory.old components.old memory.new components.new }
{
    let client = &components[caller];
    let Role::Script(script) = &client.role else {
        return Err(client.refusal());
    };
    let account = script.account;
    let args = SessionArgs::read(text)?;
    let Some(entry) = routes.provider(caller, service, args.label()) else {
        return Err(Refusal::ServiceDenied);
    };
    let label = label_of(client.name.as_slice(), args.label());
    let Role::Server(_, host) = &mut components[entry].role else {
        unreachable!()
    };
    let session = host.open(memory, account, &label, args.ram(), args.caps())?;
    Ok(CallValue::Selected(components[caller].keep_session(entry, session)))
}
