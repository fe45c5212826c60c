//! The values of calls that are not refused.
ghost use Rattle.std.specs.Prelude.{◌≡◌};
ghost use Rattle.own_model.specs.Reply.{reply_text};
ghost use Rattle.pd_core.specs.Answer.{reply_of, told_alone};

use core_calls::{Quotas, Reply, Reserve};
use trade_base::{Refusal, Selector};

/// The value of a call that is not refused.
#[derive(Clone, Copy)]
pub(crate) enum CallValue {
    /// A new capability has this selector.
    Selected(Selector),
    /// A new region starts at this address.
    Attached(u64),
    /// The call is done.
    Done,
    /// The use and the limits of the caller's account.
    Quotas(Quotas),
    /// What the caller has in reserve.
    Reserved(Reserve),
}

/// Sets the reply to a call's value or its refusal, without log lines. The function is inlined, so that the outcome is not
/// built before it is written.
#[inline(always)]
pub(crate) fn tell(outcome: Result<CallValue, Refusal>, reply: &mut Reply)
    ensures { reply.new ≡ told_alone (reply_text (reply_of outcome)) }
{
    match outcome {
        Ok(CallValue::Selected(selector)) => reply.write_selector(selector),
        Ok(CallValue::Attached(address)) => reply.write_address(address),
        Ok(CallValue::Done) => reply.write_done(),
        Ok(CallValue::Quotas(quotas)) => reply.write_quotas(quotas),
        Ok(CallValue::Reserved(reserve)) => reply.write_reserve(reserve),
        Err(refusal) => reply.write_refusal(refusal),
    }
}
