//! The needs of accounts: the minimum budgets with which the tests that passed so far still pass.
ghost use Rattle.std.specs.Prelude.{◌≡◌, ◌≢◌, ◌∷◌, ◌++◌, ◌<◌, ℕ, [], List, length, false, Some, IfNone, IfOk, IfSome, None, OnOk};
ghost use Rattle.std.specs.Option.{option_copied};
ghost use Rattle.own_model.specs.Amounts.{no_amounts};
ghost use Rattle.own_model.specs.Call.{Call as Said};
ghost use Rattle.own_model.specs.Listed.{Listed, reserve_of, start_list_of};
ghost use Rattle.own_model.specs.OwnState.{OwnState};
ghost use Rattle.own_model.specs.OwnStep.{own_run, own_step};
ghost use Rattle.own_model.specs.StartList.{Entry as AnEntry, entries_of};
ghost use Rattle.own_model.specs.Transcript.{calls_in, heard};
ghost use Rattle.own_model.specs.Transcript.Heard.{Caller};
ghost use Rattle.own_model.specs.World.{World, account_at};
ghost use Rattle.core_calls.specs.Quotas.{quotas_account};
ghost use Rattle.core_calls.specs.Call.{model_call};
ghost use Rattle.run_lines.specs.Accounts.{listed_at};
ghost use Rattle.run_lines.specs.Machine.{world_of};
ghost use Rattle.line_grammar.specs.Read.{IsReadAs};
ghost use Rattle.budget_meter.specs.Metered.{HasObserved, HasReply};
ghost use Rattle.budget_meter.specs.Needs.{amounts_of};
ghost use Rattle.view_accounts.specs.Meters.{IsFresh, SeesNeeds, meter_at, metered, needed_in, needed_of, needs_of_sessions};
ghost use Rattle.view_accounts.specs.Kept.{SeesPeaks, peaked};
ghost use Rattle.view_accounts.specs.KeptSessions.{SeesSessions};
ghost use Rattle.view_accounts.specs.Needs.{added, counts_below, lies_below, limits, needed_below, needed_running, summed};
ghost use Rattle.run_scenario.specs.Observation.{IsAnsweredAfter};

use crate::peaks::Peaks;
use crate::session_needs::SessionNeeds;
use crate::session_outcome::SessionOutcome;
use budget_meter::{AccountMeter, Budget};
use core_calls::{Answer, Call, Quotas};
use list_parser::{Binary, ListEntry, StartList};
use run_lines::{Core, NamedCall, Router};
use run_scenario::{ObservedCall, caller_of, said_in};
use std::alloc::{AllocError, Global};

/// The need of an account, and whether its component has exited.
#[derive(Clone, Copy, PartialEq, Eq)]
pub(crate) struct AccountNeed {
    pub need: Budget,
    pub is_gone: bool,
}

impl AccountNeed {
    /// Returns the need of an account whose component is there.
    pub(crate) fn of(need: Budget) -> AccountNeed
        ensures { needed_in result ≡ record { need = amounts_of need; gone = false } }
    {
        AccountNeed {
            need,
            is_gone: false,
        }
    }

    // Returns the need that a meter measured.
    fn by(meter: &AccountMeter) -> AccountNeed
        ensures { needed_in result ≡ metered meter.now }
    {
        AccountNeed {
            need: meter.least(),
            is_gone: meter.is_gone,
        }
    }
}

/// The needs of the accounts after the lines so far.
#[derive(Drop)]
pub(crate) struct Needs {
    /// The components in the order of the list. Only those of scripts are used.
    pub meters: Vec<AccountMeter>,
    pub sessions: SessionNeeds,
    // How many lines were answered, or the largest number of 64 bits.
    lines: u64,
}

impl Needs {
    /// Returns the needs before the first line. The error is that the host is out of memory.
    pub(crate) fn new<R: Router + Drop>(alloc: Global, core: &Core<R>) -> Result<Needs, AllocError>
        ensures meters { (listed : Listed) → core.now ≡ world_of listed →
            IfOk result (λ needs. SeesNeeds needs.meters.items core.now []) }
        ensures sessions { (listed : Listed) → core.now ≡ world_of listed →
            IfOk result (λ needs. SeesSessions needs.lines needs.sessions listed core.now []) }
    {
        let mut meters = Vec::new(alloc);
        for component in 0..core.count() {
            meters.push(meter_of(core.account(component)))?;
        }
        Ok(Needs {
            meters,
            sessions: SessionNeeds::new(alloc),
            lines: 0,
        })
    }

    /// Returns the need of the machine's init, which is that of its list.
    pub(crate) fn init(&self, list: &StartList) -> AccountNeed
        ensures { needed_in result ≡ needed_below None (needed_of self.now.meters.items) list.now }
    {
        AccountNeed::of(self.below(list, None))
    }

    /// Returns the need of the component at a place; an init's is the need of its list.
    pub(crate) fn component(&self, list: &StartList, place: usize) -> AccountNeed
        ensures { needed_in result ≡ needed_running (listed_at list.now place).binary
            (needed_of self.now.meters.items) list.now place }
    {
        let Some(entry) = list.entries().get(place) else {
            return self.script(place);
        };
        match entry.binary() {
            Binary::Script => self.script(place),
            Binary::Server(_) | Binary::Declared(_) => AccountNeed::of(Budget { ram: 0, caps: 0 }),
            Binary::Init => AccountNeed::of(self.below(list, Some(entry.path()))),
        }
    }

    /// Returns the need of the session that a selector of a component names, or zero if no such session is open.
    pub(crate) fn session(&self, component: usize, selector: u64) -> AccountNeed
        ensures { needed_in result ≡ record {
          need = needs_of_sessions self.now.sessions.opened component selector;
          gone = false;
        } }
    {
        AccountNeed::of(self.sessions.needed(component, selector))
    }

    // Returns the need of the script at a place, or zero after the last.
    fn script(&self, place: usize) -> AccountNeed
        ensures { needed_in result ≡ needed_of self.now.meters.items place }
    {
        match self.meters.get(place) {
            Some(meter) => AccountNeed::by(meter),
            None => AccountNeed::of(Budget { ram: 0, caps: 0 }),
        }
    }

    // Returns the need of the scripts below an init, by its path, each with the reserve that its list gives it.
    fn below(&self, list: &StartList, init: Option<&[u8]>) -> Budget
        ensures { amounts_of result ≡ summed (option_copied init.entry)
            (needed_of self.now.meters.items) no_amounts 0 list.now.entries }
    {
        let mut sum = Budget { ram: 0, caps: 0 };
        let entries = list.entries();
        for (place, entry) in entries.iter().enumerate() {
            if counts_below(init, entry) {
                sum = added(sum, added(self.script(place).need, reserve_of(entry)));
            }
        }
        sum
    }

    /// Observes an answer, with the core after it and the peaks before it. The error is that the host is out of memory.
    pub(crate) fn hear<R: Router + Drop>(
        &mut self,
        core: &Core<R>,
        list: &StartList,
        heard: &ObservedCall<'_>,
        peaks: &Peaks,
    ) -> Result<(), AllocError>
        requires listed { core.now.entries ≡ entries_of (start_list_of list.now) }
        requires read { IsReadAs heard.now.line.now heard.now.call }
        ensures meters { (start : World) (earlier : List (List ℕ)) →
            SeesNeeds self.old.meters.items start earlier →
            IsAnsweredAfter start earlier heard.now.line.now core.now heard.now.answer →
            OnOk result (SeesNeeds self.new.meters.items start (earlier ++ heard.now.line.now ∷ [])) }
        ensures sessions { (start : World) (earlier : List (List ℕ)) →
            SeesPeaks (peaked peaks.now.init) peaks.now.components.items peaks.now.sessions list.now
            start earlier →
            SeesSessions self.old.lines self.old.sessions list.now start earlier →
            IsAnsweredAfter start earlier heard.now.line.now core.now heard.now.answer →
            OnOk result (SeesSessions self.new.lines self.new.sessions list.now start
            (earlier ++ heard.now.line.now ∷ [])) }
    {
        let line = self.lines.saturating_add(1);
        self.lines = line;
        let Some((component, call)) = made_in(list, heard.line, heard.call) else {
            return Ok(());
        };
        let reply = Answer {
            outcome: heard.answer.outcome,
            text: heard.answer.reply,
        };
        self.observe_own(component, call, reply, core.account(component));
        let outcome = SessionOutcome::of(core, component, heard.answer.outcome);
        self.sessions
            .hear(core, component, call, reply, outcome, peaks, line)
    }

    // Observes a call of a component, with its reply and the account after it.
    fn observe_own(&mut self, component: usize, call: Call<'_>, reply: Answer<'_>, after: Quotas)
        ensures count { length self.new.meters.items ≡ length self.old.meters.items }
        ensures others { (place : ℕ) → place ≢ component →
            meter_at self.new.meters.items place ≡ meter_at self.old.meters.items place }
        ensures own { component < length self.old.meters.items →
            (entry : AnEntry) (calls : List Said) (s : OwnState) →
            HasObserved entry calls (limits s.account) s (meter_at self.old.meters.items component) →
            HasReply reply.entry.text.now after (own_step entry (model_call call.entry) (own_run entry calls s)) →
            HasObserved entry (calls ++ model_call call.entry ∷ []) (limits s.account) s
            (meter_at self.new.meters.items component) }
        ensures sessions { self.new.sessions ≡ self.old.sessions }
        ensures lines { self.new.lines ≡ self.old.lines }
    {
        if component < self.meters.len() {
            let mut meter = self.meters[component];
            meter.hear(call, reply, after);
            self.meters[component] = meter;
        }
    }
}

// Returns the meter of a script that begins with an account.
fn meter_of(account: Quotas) -> AccountMeter
    ensures { IsFresh (quotas_account account) result }
{
    AccountMeter::new(account, true)
}

// Returns whether an entry is a script below the init of this path; every script is below the machine's init, which has no path.
fn counts_below(init: Option<&[u8]>, entry: &ListEntry) -> bool
    ensures { result ≡ counts_below (option_copied init.entry) entry.now }
{
    entry.is_script()
        && match init {
            Some(init) => lies_below(init, entry.path()),
            None => true,
        }
}

// Returns whether a path is below the path of an init.
fn lies_below(init: &[u8], path: &[u8]) -> bool
    ensures { result ≡ lies_below (Some init.now) path.now }
{
    if !path.starts_with(init) {
        return false;
    }
    path[init.len()..].starts_with(b"/")
}

// Returns the reserve of an entry.
fn reserve_of(entry: &ListEntry) -> Budget
    ensures { amounts_of result ≡ reserve_of entry.now }
{
    let reserve = entry.reserve_at_start();
    Budget {
        ram: reserve.ram.0,
        caps: u64::from(reserve.caps.0),
    }
}

// Returns the sum of two budgets, each part at most what 64 bits hold.
fn added(one: Budget, other: Budget) -> Budget
    ensures { amounts_of result ≡ added (amounts_of one) (amounts_of other) }
{
    Budget {
        ram: one.ram.saturating_add(other.ram),
        caps: one.caps.saturating_add(other.caps),
    }
}

/// Returns the component that makes the call of an engine's line, and the call, if it has both. `call` is what was parsed of the
/// line.
#[tactic(auto, using(crate::proofs::HearLemmas::calls_none, crate::proofs::HearLemmas::calls_nobody, crate::proofs::HearLemmas::calls_one))]
pub(crate) fn made_in<'a>(
    list: &StartList,
    line: &[u8],
    call: Option<NamedCall<'a>>,
) -> Option<(usize, Call<'a>)>
    requires { IsReadAs line.now call }
    ensures some { IfSome result (λ made. heard (entries_of (start_list_of list.now)) line.now
        ≡ Caller (record { component = made.0; call = model_call made.1 })) }
    ensures none { IfNone result
        (calls_in (heard (entries_of (start_list_of list.now)) line.now) ≡ []) }
    ensures inside { IfSome result (λ made. made.0 < length list.now.entries) }
{
    let (name, call) = said_in(line, call)?;
    let component = caller_of(list, name)?;
    Some((component, call))
}
