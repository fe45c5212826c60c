//! The outcomes of calls and requests, as a meter classifies them.
ghost use Rattle.std.specs.Prelude.{◌≡◌, ◌||◌, codes};
ghost use Rattle.std.specs.Str.{bytes_eq};
ghost use Rattle.trade_base.specs.Refusal.{refusal_name};
ghost use Rattle.trade_base.specs.declared.refusal.Refusal.TheVariants.{InvalidSession as Unnamed, OutOfCaps as NoCaps, OutOfRam as NoRam, ServiceDenied as Denied};
ghost use Rattle.core_calls.specs.Quotas.{quotas_account};
ghost use Rattle.budget_theorems.specs.Request.{shows_session_short};
ghost use Rattle.budget_meter.specs.Outcomes.{grants, is_denied, is_done, is_unnamed, lacks, lacks_session};
ghost use Rattle.budget_meter.specs.RequestTests.{is_granted, shows_charge};

use core_calls::{Answer, FileError, Outcome, ServiceOutcome};
use pd_core::Quotas;
use trade_base::Refusal;

/// Returns whether a service did what was requested.
pub(crate) fn is_granted(reply: Answer<'_>) -> bool
    ensures { result ≡ is_granted reply.entry.text.now }
{
    grants(reply.outcome)
}

fn grants(outcome: Outcome) -> bool
    ensures { result ≡ grants outcome }
{
    match outcome {
        Outcome::Served(ServiceOutcome::Refused(_) | ServiceOutcome::BadKind) => false,
        Outcome::Served(_) => true,
        _ => false,
    }
}

/// Returns whether a service did what was requested and its reply is `OK` alone.
pub(crate) fn is_plain_done(reply: Answer<'_>) -> bool
    ensures { result ≡ bytes_eq reply.entry.text.now (codes "OK") }
{
    is_done(reply.outcome)
}

fn is_done(outcome: Outcome) -> bool
    ensures { result ≡ is_done outcome }
{
    matches!(outcome, Outcome::Served(ServiceOutcome::Done))
}

/// Returns whether the session's account is short of quota for a request.
pub(crate) fn is_short(reply: Answer<'_>) -> bool
    ensures { result ≡ shows_session_short reply.entry.text.now }
{
    lacks_session(reply.outcome)
}

fn lacks_session(outcome: Outcome) -> bool
    ensures { result ≡ lacks_session outcome }
{
    matches!(
        outcome,
        Outcome::Served(ServiceOutcome::Refused(FileError::OutOfRam | FileError::OutOfCaps))
    )
}

/// Returns whether the caller's account is short of quota for a call.
pub(crate) fn is_short_of_quota(reply: Answer<'_>) -> bool
    ensures { result ≡ (bytes_eq reply.entry.text.now (refusal_name NoRam)
        || bytes_eq reply.entry.text.now (refusal_name NoCaps)) }
{
    lacks(reply.outcome)
}

fn lacks(outcome: Outcome) -> bool
    ensures { result ≡ lacks outcome }
{
    matches!(
        outcome,
        Outcome::Refused(Refusal::OutOfRam | Refusal::OutOfCaps)
    )
}

/// Returns whether a call is refused because the service is denied.
pub(crate) fn is_service_denied(reply: Answer<'_>) -> bool
    ensures { result ≡ bytes_eq reply.entry.text.now (refusal_name Denied) }
{
    is_denied(reply.outcome)
}

fn is_denied(outcome: Outcome) -> bool
    ensures { result ≡ is_denied outcome }
{
    matches!(outcome, Outcome::Refused(Refusal::ServiceDenied))
}

/// Returns whether a call is refused because no session has the selector.
pub(crate) fn is_unknown_session(reply: Answer<'_>) -> bool
    ensures { result ≡ bytes_eq reply.entry.text.now (refusal_name Unnamed) }
{
    is_unnamed(reply.outcome)
}

fn is_unnamed(outcome: Outcome) -> bool
    ensures { result ≡ is_unnamed outcome }
{
    matches!(outcome, Outcome::Refused(Refusal::InvalidSession))
}

/// Returns whether a request tried to charge a capability: the account is short of quota, or uses one more.
pub(crate) fn shows_charge(reply: Answer<'_>, before: Quotas, after: Quotas) -> bool
    ensures { result
        ≡ shows_charge reply.entry.text.now (quotas_account before) (quotas_account after) }
{
    is_short(reply) || before.caps_used < after.caps_used
}
