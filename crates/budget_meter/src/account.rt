//! The meter of a component's own account, call by call.
ghost use Rattle.std.specs.Prelude.{◌≡◌, ◌∷◌, ◌++◌, ◌<◌, ◌&&◌, ◌+◌, [], true, false, List, if◌then◌else◌, nat_le, nat_lt, IfSome, IfNone};
ghost use Rattle.own_model.specs.Amounts.{Amounts};
ghost use Rattle.own_model.specs.Call.{Call as Said, is_exit};
ghost use Rattle.own_model.specs.Call.Call.{New};
ghost use Rattle.own_model.specs.Growth.{Shape, larger_growth};
ghost use Rattle.own_model.specs.OwnState.{OwnState};
ghost use Rattle.own_model.specs.OwnStep.{entry_step, own_run, own_step};
ghost use Rattle.own_model.specs.StartList.{Entry};
ghost use Rattle.core_calls.specs.Quotas.{quotas_account};
ghost use Rattle.core_calls.specs.Call.{model_call};
ghost use Rattle.budget_theorems.specs.Need.{budgeted};
ghost use Rattle.budget_theorems.specs.Shortfall.{shows_shortfall};
ghost use Rattle.budget_theorems.specs.Test.{entry_tests, growth_tests};
ghost use Rattle.budget_meter.specs.NeededAmounts.{amount_tests, is_of_chunk, shows_growth};
ghost use Rattle.budget_meter.specs.Metered.{HasObserved, HasReply, Stands, is_script as is_script_of};
ghost use Rattle.budget_meter.specs.Needs.{amounts_of, shown_in, shown_of, together};
ghost use Rattle.budget_meter.specs.Run.{IsLeft, Shows};

use crate::budget::Budget;
use crate::growth::{FIRST_PAGES, take_growth};
use crate::meter::{Meter, limits_of};
use crate::needed_amounts::{LEAST_LARGE, asked_when_told};
use crate::outcomes::is_short_of_quota;
use core_calls::{Answer, Call};
use pd_core::Quotas;

/// A meter of a component's account: the minimum budget that passes all tests which the account passed so far.
#[derive(Clone, Copy)]
pub struct AccountMeter {
    pub meter: Meter,
    /// Whether calls of the component are answered at all: those of servers and inits are not.
    pub is_script: bool,
    pub is_gone: bool,
    /// The account after the last call.
    pub account: Quotas,
    /// The growth number of the component's heap.
    pub pages: u32,
}

impl AccountMeter {
    /// Creates the meter of an account with which a component starts, before its first call.
    #[tactic(auto, using(crate::proofs::HeardLemmas::begun))]
    pub fn new(account: Quotas, is_script: bool) -> AccountMeter
        ensures { (entry : Entry) (s : OwnState) → is_script ≡ is_script_of entry.kind →
            s.gone ≡ false → quotas_account account ≡ s.account → s.heap.shape.growth ≡ 4 →
            HasObserved entry [] (record { ram = account.ram_limit.0; caps = account.caps_limit.0 })
            s result }
    {
        AccountMeter {
            meter: Meter::new(limits_of(account)),
            is_script,
            is_gone: false,
            account,
            pages: FIRST_PAGES,
        }
    }

    /// Returns the minimum budget that passes the tests so far.
    pub fn least(&self) -> Budget
        ensures { result ≡ self.now.meter.least }
    {
        self.meter.least
    }

    /// Observes a call, with its reply and the account that it left.
    pub fn hear(&mut self, call: Call<'_>, reply: Answer<'_>, after: Quotas)
        ensures { (entry : Entry) (calls : List Said) (budget : Amounts) (s : OwnState) →
            HasObserved entry calls budget s self.old →
            HasReply reply.entry.text.now after
            (own_step entry (model_call call.entry) (own_run entry calls (budgeted budget s))) →
            HasObserved entry (calls ++ model_call call.entry ∷ []) budget s self.new }
    {
        if self.is_script && !self.is_gone {
            self.take(call, reply, after);
            self.account = after;
            self.is_gone = is_exit(call);
        }
    }

    /// Observes a call of a run, and returns whether the account is short of quota for it.
    pub fn follow(&mut self, call: Call<'_>, reply: Answer<'_>, after: Quotas) -> bool
        ensures on { result ≡ false →
            (entry : Entry) (calls rest : List Said) (budget : Amounts) (s now : OwnState) →
            IsLeft entry calls (model_call call.entry ∷ rest) budget s now self.old →
            HasReply reply.entry.text.now after (own_step entry (model_call call.entry) now) →
            IsLeft entry calls rest budget s (own_step entry (model_call call.entry) now).next
            self.new }
        ensures end { result ≡ true →
            (entry : Entry) (calls rest : List Said) (budget : Amounts) (s now : OwnState) →
            IsLeft entry calls (model_call call.entry ∷ rest) budget s now self.old →
            HasReply reply.entry.text.now after (own_step entry (model_call call.entry) now) →
            Shows entry calls s budget true self.new.meter }
    {
        self.hear(call, reply, after);
        is_in_want(call, reply)
    }

    // Measures the tests of a call that is answered.
    fn take(&mut self, call: Call<'_>, reply: Answer<'_>, after: Quotas)
        ensures shown { (entry : Entry) (s : OwnState) → Stands self.old s →
            HasReply reply.entry.text.now after (entry_step entry (model_call call.entry) s) →
            shown_in self.new.meter ≡ together (shown_in self.old.meter)
            (shown_of (amounts_of self.old.meter.start) s.account
            (entry_tests entry (model_call call.entry) s)) }
        ensures pages { (entry : Entry) (s : OwnState) → Stands self.old s →
            HasReply reply.entry.text.now after (entry_step entry (model_call call.entry) s) →
            is_exit (model_call call.entry) ≡ false →
            self.new.pages ≡ (entry_step entry (model_call call.entry) s).next.heap.shape.growth }
        ensures start { self.new.meter.start ≡ self.old.meter.start }
        ensures script { self.new.is_script ≡ self.old.is_script }
        ensures gone { self.new.is_gone ≡ self.old.is_gone }
    {
        match chunk_size(call) {
            Some(n) => if shows_growth(reply, self.account, after) {
                let before = self.account;
                self.pages = take_growth(&mut self.meter, self.pages, n, before, after);
            },
            None => if let Some(asked) = asked_when_told(call, reply) {
                self.meter.take(self.account, asked, false);
            },
        }
    }
}

// The bytes of a block of the heap for a call, if the block may be in a chunk.
fn chunk_size(call: Call<'_>) -> Option<u64>
    ensures some { IfSome result (λ n. model_call call.entry ≡ New n) }
    ensures small { IfSome result (λ n. n < 65536) }
    ensures none { IfNone result (is_of_chunk (model_call call.entry) ≡ false) }
{
    match call {
        Call::New(n) if n < LEAST_LARGE => Some(n),
        _ => None,
    }
}

fn is_exit(call: Call<'_>) -> bool
    ensures { result ≡ is_exit (model_call call.entry) }
{
    matches!(call, Call::Exit)
}

// Whether the reply to a call for a block in a chunk shows that the heap had to grow.
fn shows_growth(reply: Answer<'_>, before: Quotas, after: Quotas) -> bool
    ensures { result ≡ shows_growth reply.entry.text.now (quotas_account before) (quotas_account after) }
{
    is_short_of_quota(reply) || before.caps_used < after.caps_used
}

// Whether an account is short of quota for an answered call. A `request` is refused by the reserve, and a session's request
// is answered by its server.
fn is_in_want(call: Call<'_>, reply: Answer<'_>) -> bool
    ensures { result ≡ shows_shortfall (model_call call.entry) reply.entry.text.now }
{
    match call {
        Call::Request(_) | Call::CallSession { .. } => false,
        _ => is_short_of_quota(reply),
    }
}
