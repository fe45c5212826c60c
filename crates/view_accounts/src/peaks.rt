//! The peaks of accounts: the most that was in use after any line.
ghost use Rattle.std.specs.Prelude.{◌≡◌, ◌≢◌, ◌<◌, ◌≤◌, ◌==◌, ◌&&◌, ℕ, true, length, if◌then◌else◌, None, IfOk, OnOk};
ghost use Rattle.std.specs.Option.{option_map, option_or};
ghost use Rattle.own_model.specs.Listed.{start_list_of};
ghost use Rattle.own_model.specs.Routes.{label_with};
ghost use Rattle.own_model.specs.Session.{Session as Opened, given};
ghost use Rattle.own_model.specs.StartList.{entries_of};
ghost use Rattle.own_model.specs.World.{account_at, machine_init};
ghost use Rattle.core_calls.specs.Quotas.{quotas_account};
ghost use Rattle.core_calls.specs.Call.{model_call};
ghost use Rattle.view_accounts.specs.Kept.{begun_with, found, grown, in_use, noted_after, noted_exited, noted_in, noted_more, noted_named, noted_opened, peak_at, peaked};

use crate::needs::made_in;
use crate::session_outcome::SessionOutcome;
use crate::session_table::SessionTable;
use core_calls::{Call, Quotas};
use list_parser::StartList;
use list_routes::route;
use run_lines::{Core, LineRunFault, Router, Sink, WriteBuffer};
use run_scenario::{CallObserver, ObservedCall};
use session_proto::SessionArgs;
use std::alloc::{AllocError, Global};
use trade_base::{Caps, Ram};

/// The most of an account that was in use after any line, in bytes and capabilities.
#[derive(Clone, Copy, PartialEq, Eq)]
pub(crate) struct Peak {
    pub ram: Ram,
    pub caps: Caps,
}

impl Peak {
    /// Returns the peak of an account at the start: what is in use then.
    pub(crate) fn of(account: Quotas) -> Peak
        ensures { peaked result ≡ in_use (quotas_account account) }
    {
        Peak {
            ram: account.ram_used,
            caps: account.caps_used,
        }
    }

    /// Returns the peak after a line with this account: the larger of both, for RAM and for capabilities.
    pub(crate) fn raised(self, account: Quotas) -> Peak
        ensures { peaked result ≡ grown (peaked self) (quotas_account account) }
    {
        Peak {
            ram: Ram(self.ram.0.max(account.ram_used.0)),
            caps: Caps(self.caps.0.max(account.caps_used.0)),
        }
    }
}

/// An open session: its client and selector, its server, its label, and its peak.
#[derive(Drop)]
pub(crate) struct SessionPeak {
    pub component: usize,
    pub selector: u64,
    /// The place of the server, to which the call that opened the session was routed.
    pub server: Option<usize>,
    pub label: Vec<u8>,
    pub peak: Peak,
}

impl SessionPeak {
    /// Returns the session with the peak after a line with this account.
    fn raised(self, account: Quotas) -> SessionPeak
        ensures noted { noted_in result ≡ noted_more (noted_in self) (quotas_account account) }
        ensures component { result.component ≡ self.component }
        ensures selector { result.selector ≡ self.selector }
    {
        SessionPeak {
            component: self.component,
            selector: self.selector,
            server: self.server,
            label: self.label,
            peak: self.peak.raised(account),
        }
    }
}

// The arguments with which a component opens a session.
#[derive(Clone, Copy)]
struct Opening<'a> {
    component: usize,
    service: &'a [u8],
    args: &'a [u8],
}

/// The peaks of all accounts after the lines so far.
#[derive(Drop)]
pub(crate) struct Peaks {
    alloc: Global,
    pub init: Peak,
    pub components: Vec<Peak>,
    /// The sessions that are open now.
    pub sessions: SessionTable<SessionPeak>,
}

impl Peaks {
    /// Returns the peaks before the first line. The error is that the host is out of memory.
    pub(crate) fn new<R: Router + Drop>(alloc: Global, core: &Core<R>) -> Result<Peaks, AllocError>
        ensures init { IfOk result (λ peaks. peaked peaks.init ≡ in_use (machine_init core.now)) }
        ensures count { IfOk result (λ peaks.
            length peaks.components.items ≡ length core.now.entries) }
        ensures components { IfOk result (λ peaks. (place : ℕ) → place < length core.now.entries →
            peak_at peaks.components.items place ≡ in_use (account_at core.now place)) }
        ensures sessions { IfOk result (λ peaks. (component selector : ℕ) →
            found peaks.sessions component selector ≡ None) }
    {
        let mut components = Vec::new(alloc);
        for component in 0..core.count() {
            components.push(Peak::of(core.account(component)))?;
        }
        Ok(Peaks {
            alloc,
            init: Peak::of(core.init_account()),
            components,
            sessions: SessionTable::new(alloc),
        })
    }

    /// Returns the peak of the component at a place, or zero after the last.
    pub(crate) fn component(&self, place: usize) -> Peak
        ensures { peaked result ≡ peak_at self.now.components.items place }
    {
        match self.components.get(place) {
            Some(peak) => *peak,
            None => Peak {
                ram: Ram(0),
                caps: Caps(0),
            },
        }
    }

    /// Returns the open session that a selector of a component names, if it is kept.
    pub(crate) fn session(&self, component: usize, selector: u64) -> Option<&SessionPeak>
        ensures { option_map (λ session. noted_in session.now) result
            ≡ found self.now.sessions component selector }
    {
        self.sessions.get(component, selector)
    }

    // Raises the peak of a component by what its account has in use now.
    fn raise_component<R: Router + Drop>(&mut self, core: &Core<R>, component: usize)
        requires component { component < length core.now.entries }
        ensures init { self.new.init ≡ self.old.init }
        ensures count { length self.new.components.items ≡ length self.old.components.items }
        ensures others { (place : ℕ) → place ≢ component →
            peak_at self.new.components.items place ≡ peak_at self.old.components.items place }
        ensures own { component < length self.old.components.items →
            peak_at self.new.components.items component
            ≡ grown (peak_at self.old.components.items component) (account_at core.now component) }
        ensures sessions { self.new.sessions ≡ self.old.sessions }
    {
        if component < self.components.len() {
            let peak = self.components[component].raised(core.account(component));
            self.components[component] = peak;
        }
    }

    // Follows the sessions of a component in one of its calls, by the outcome of the call.
    fn follow<R: Router + Drop>(
        &mut self,
        core: &Core<R>,
        list: &StartList,
        component: usize,
        call: Call<'_>,
        outcome: SessionOutcome,
    ) -> Result<(), AllocError>
        requires component { component < length core.now.entries }
        requires listed { core.now.entries ≡ entries_of (start_list_of list.now) }
        ensures init { self.new.init ≡ self.old.init }
        ensures components { self.new.components.items ≡ self.old.components.items }
        ensures sessions { OnOk result ((c q : ℕ) → found self.new.sessions c q
            ≡ noted_after list.now core.now component (model_call call.entry) outcome c q
            (found self.old.sessions c q)) }
    {
        match call {
            Call::Open { service, args } => {
                let opening = Opening {
                    component,
                    service,
                    args,
                };
                self.keep_opened(core, list, opening, outcome)
            }
            Call::Upgrade { selector, .. }
            | Call::CallSession { selector, .. }
            | Call::Close(selector) => self.raise_session(core, component, selector),
            Call::Exit => {
                self.end_all(component, outcome);
                Ok(())
            }
            _ => Ok(()),
        }
    }

    // Keeps the session that a call opened, if it opened one.
    fn keep_opened<R: Router + Drop>(
        &mut self,
        core: &Core<R>,
        list: &StartList,
        opening: Opening<'_>,
        outcome: SessionOutcome,
    ) -> Result<(), AllocError>
        requires component { opening.component < length core.now.entries }
        requires listed { core.now.entries ≡ entries_of (start_list_of list.now) }
        ensures init { self.new.init ≡ self.old.init }
        ensures components { self.new.components.items ≡ self.old.components.items }
        ensures sessions { OnOk result ((c q : ℕ) → found self.new.sessions c q
            ≡ noted_opened list.now core.now opening.entry.component opening.entry.service.now
            opening.entry.args.now outcome.opened c q (found self.old.sessions c q)) }
    {
        match outcome.opened {
            Some(selector) => self.keep_new(core, list, opening, selector),
            None => Ok(()),
        }
    }

    // Keeps the session that a selector names, if there is one, with these arguments.
    fn keep_new<R: Router + Drop>(
        &mut self,
        core: &Core<R>,
        list: &StartList,
        opening: Opening<'_>,
        selector: u64,
    ) -> Result<(), AllocError>
        requires component { opening.component < length core.now.entries }
        requires listed { core.now.entries ≡ entries_of (start_list_of list.now) }
        ensures init { self.new.init ≡ self.old.init }
        ensures components { self.new.components.items ≡ self.old.components.items }
        ensures sessions { OnOk result ((c q : ℕ) → found self.new.sessions c q
            ≡ option_or (if c == opening.entry.component && q == selector
            then begun_with list.now core.now opening.entry.service.now opening.entry.args.now
            opening.entry.component selector else None)
            (found self.old.sessions c q)) }
    {
        let component = opening.component;
        let Some(account) = core.session_account(component, selector) else {
            return Ok(());
        };
        let given = label_given(opening.args);
        let session = SessionPeak {
            component,
            selector,
            server: route(list, component, opening.service, given),
            label: label_of(self.alloc, list.label(component), given)?,
            peak: Peak::of(account),
        };
        self.sessions.set(component, selector, session)
    }

    // Raises the peak of the session under a selector by what its account has in use now, or forgets the session if it is closed.
    fn raise_session<R: Router + Drop>(
        &mut self,
        core: &Core<R>,
        component: usize,
        selector: u64,
    ) -> Result<(), AllocError>
        requires component { component < length core.now.entries }
        ensures init { self.new.init ≡ self.old.init }
        ensures components { self.new.components.items ≡ self.old.components.items }
        ensures sessions { OnOk result ((c q : ℕ) → found self.new.sessions c q
            ≡ noted_named core.now component selector c q (found self.old.sessions c q)) }
    {
        let Some(session) = self.sessions.take(component, selector) else {
            return Ok(());
        };
        match core.session_account(component, selector) {
            Some(account) => self
                .sessions
                .set(component, selector, session.raised(account)),
            None => Ok(()),
        }
    }

    // Forgets all sessions of a component if it exited.
    fn end_all(&mut self, component: usize, outcome: SessionOutcome)
        ensures init { self.new.init ≡ self.old.init }
        ensures components { self.new.components.items ≡ self.old.components.items }
        ensures sessions { (c q : ℕ) → found self.new.sessions c q
            ≡ noted_exited component outcome.is_done c (found self.old.sessions c q) }
    {
        if outcome.is_done {
            self.sessions.take_all(component);
        }
    }
}

impl CallObserver for Peaks {
    ghost use Rattle.std.specs.Prelude.{[], true};
    ghost use Rattle.view_accounts.specs.Kept.{SeesPeaks, peaked};

    ghost tells = { λ _ _ _ _ _. [] };

    ghost takes = { true };

    ghost sees = { λ peaks. SeesPeaks (peaked peaks.init) peaks.components.items peaks.sessions };

    fn tell<R: Router + Drop, K: Sink>(
        &mut self,
        core: &Core<R>,
        list: &StartList,
        heard: &ObservedCall<'_>,
        _gathered: &mut WriteBuffer,
        _writer: &mut K,
    ) -> Result<(), LineRunFault> {
        let Some((component, call)) = made_in(list, heard.line, heard.call) else {
            return Ok(());
        };
        let outcome = SessionOutcome::of(core, component, heard.answer.outcome);
        self.raise_component(core, component);
        self.follow(core, list, component, call, outcome)?;
        Ok(())
    }
}

// The label that a client gives with the arguments of a session: none where they are no arguments.
fn label_given(args: &[u8]) -> &[u8]
    ensures label { result.now ≡ (given args.now).label }
    ensures short { length result.now ≤ 64 }
{
    match SessionArgs::read(args) {
        Ok(args) => args.label(),
        Err(_) => b"",
    }
}

// Returns the label of a session: the client's name, an arrow and the label in the arguments, or the client's name alone.
fn label_of(alloc: Global, client: &[u8], given: &[u8]) -> Result<Vec<u8>, AllocError>
    ensures { IfOk result (λ label. label.items ≡ label_with client.now given.now) }
{
    let mut label = Vec::new(alloc);
    label.extend_from_slice(client)?;
    if !given.is_empty() {
        label.extend_from_slice(b" -> ")?;
        label.extend_from_slice(given)?;
    }
    Ok(label)
}
