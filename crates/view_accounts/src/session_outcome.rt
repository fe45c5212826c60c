//! What the outcome of a call states of the sessions of its caller.
ghost use Rattle.std.specs.Prelude.{◌≡◌, ◌<◌, ◌^◌, ℕ, length, nat_le, if◌then◌else◌, true, false, Some, None};
ghost use Rattle.trade_base.specs.declared.refusal.Refusal.{Refusal};
ghost use Rattle.own_model.specs.Reply.{reply_text};
ghost use Rattle.own_model.specs.Reply.Reply.{Selected, Done, Refused};
ghost use Rattle.core_calls.specs.Outcome.{IsText};
ghost use Rattle.view_accounts.specs.Peaks.{is_open};

use core_calls::Outcome;
use run_lines::{Core, Router};

/// Which session a call opened if it opens one, and whether a call that replies nothing is done.
#[derive(Clone, Copy)]
pub(crate) struct SessionOutcome {
    /// The selector of the session.
    pub opened: Option<u64>,
    pub is_done: bool,
}

impl SessionOutcome {
    /// Reads an outcome of a call of a component.
    pub(crate) fn of<R: Router + Drop>(
        core: &Core<R>,
        component: usize,
        outcome: Outcome,
    ) -> SessionOutcome
        requires component { component < length core.now.entries }
        ensures opened { (selector : ℕ) → IsText outcome (reply_text (Selected selector)) →
            is_open component selector core.now ≡ true → result.opened ≡ Some selector }
        ensures done { IsText outcome (reply_text Done) → result.is_done ≡ true }
        ensures refused { (refusal : Refusal) → IsText outcome (reply_text (Refused refusal)) →
            result ≡ record { opened = None; is_done = false } }
    {
        let last = core.last_selector(component);
        match outcome {
            Outcome::Selected(selector) => SessionOutcome {
                opened: up_to(last, u64::from(selector.0)),
                is_done: false,
            },
            Outcome::Done => SessionOutcome {
                opened: None,
                is_done: true,
            },
            _ => SessionOutcome {
                opened: None,
                is_done: false,
            },
        }
    }
}

// A selector, or nothing if it is greater than the last one.
fn up_to(last: u64, selector: u64) -> Option<u64>
    ensures value { result ≡ (if nat_le selector last then Some selector else None) }
    ensures fits { selector < 2 ^ 64 }
{
    if selector <= last {
        Some(selector)
    } else {
        None
    }
}
