//! The needs of sessions, of open ones and of closed ones.
ghost use Rattle.std.specs.Prelude.{◌≡◌, ◌++◌, [], ◌<◌, ◌==◌, ℕ, List, Option, length, true, false, None, IfOk, OnOk};
ghost use Rattle.std.specs.Option.{option_map};
ghost use Rattle.core_calls.specs.Call.{model_call};
ghost use Rattle.own_model.specs.Call.Call.{Close, Exit};
ghost use Rattle.view_accounts.specs.ClosedSessions.{Closes, ClosesAll, closed_of, closing_of, closings, ended_at, ended_from};
ghost use Rattle.view_accounts.specs.Kept.{found, noted_in};
ghost use Rattle.view_accounts.specs.Meters.{needed_of_session};
ghost use Rattle.view_accounts.specs.Peaks.{session_at};
ghost use Rattle.view_accounts.specs.SessionNeeds.{Asks, Begins, ChangesAt, Ends, EndsAll, HearsCall, Opens, Raises};
ghost use Rattle.view_accounts.specs.SessionTable.{value_at};

use crate::peaks::{Peaks, SessionPeak};
use crate::session_outcome::SessionOutcome;
use crate::session_table::SessionTable;
use budget_meter::{Budget, SessionMeter};
use core_calls::{Answer, Call};
use run_lines::{Core, Router};
use std::alloc::{AllocError, Global};

/// What the account of an open session needs.
#[derive(Drop)]
pub(crate) struct MeteredSession {
    /// The number of the line that opened it.
    earlier: u64,
    pub need: Budget,
    meter: SessionMeter,
}

/// A closed session, as it was before its close, and the need of its account.
#[derive(Drop)]
pub(crate) struct ClosedSession {
    pub session: SessionPeak,
    pub need: Budget,
}

// The selector of a session that ends, and what its account needed.
#[derive(Clone, Copy)]
struct Ended {
    earlier: u64,
    selector: u64,
    need: Budget,
}

/// The sessions so far.
#[derive(Drop)]
pub(crate) struct SessionNeeds {
    alloc: Global,
    /// Those that are open now.
    pub opened: SessionTable<MeteredSession>,
    /// Those that were closed, in this order.
    pub closed: Vec<ClosedSession>,
}

impl SessionNeeds {
    /// Returns the sessions before the first line: none.
    pub(crate) fn new(alloc: Global) -> SessionNeeds
        ensures opened { (component selector : ℕ) → value_at result.opened component selector ≡ None }
        ensures closed { result.closed.items ≡ [] }
    {
        SessionNeeds {
            alloc,
            opened: SessionTable::new(alloc),
            closed: Vec::new(alloc),
        }
    }

    /// Returns the need of the session that a selector of a component names, or zero if no such session is open.
    pub(crate) fn needed(&self, component: usize, selector: u64) -> Budget
        ensures { result ≡ needed_of_session self.now.opened component selector }
    {
        match self.opened.get(component, selector) {
            Some(session) => session.need,
            None => Budget { ram: 0, caps: 0 },
        }
    }

    /// Observes a component's call that opens, calls, upgrades or ends a session, with its reply and its outcome, the core after
    /// it, the peaks before it, and the number of its line. The error is that the host is out of memory.
    #[tactic(auto, using(crate::proofs::ClosingLemmas::closed_still))]
    pub(crate) fn hear<R: Router + Drop>(
        &mut self,
        core: &Core<R>,
        component: usize,
        call: Call<'_>,
        reply: Answer<'_>,
        outcome: SessionOutcome,
        peaks: &Peaks,
        line: u64,
    ) -> Result<(), AllocError>
        requires { component < length core.now.entries }
        ensures opened { OnOk result ((c q : ℕ) → HearsCall line core.now component (model_call call.entry)
            outcome reply.entry.text.now c q
            (value_at self.old.opened c q) (value_at self.new.opened c q)) }
        ensures closed { OnOk result (Closes (found peaks.now.sessions component) self.old.opened component
            (model_call call.entry) outcome.is_done
            (closed_of self.old.closed.items) (closed_of self.new.closed.items)) }
    {
        match call {
            Call::Open { .. } => self.begin(core, component, outcome, line),
            Call::CallSession { selector, request } => {
                self.ask(core, component, selector, request, reply)
            }
            Call::Upgrade { selector, .. } => self.raise(core, component, selector),
            Call::Close(selector) => self.end(component, selector, outcome, peaks),
            Call::Exit => self.end_all(component, outcome, peaks),
            _ => Ok(()),
        }
    }

    // Keeps the session whose selector a component got, if it got one.
    fn begin<R: Router + Drop>(
        &mut self,
        core: &Core<R>,
        component: usize,
        outcome: SessionOutcome,
        line: u64,
    ) -> Result<(), AllocError>
        requires { component < length core.now.entries }
        ensures opened { OnOk result ((c q : ℕ) → Opens line core.now component outcome.opened c q
            (value_at self.old.opened c q) (value_at self.new.opened c q)) }
        ensures closed { self.new.closed ≡ self.old.closed }
    {
        match outcome.opened {
            Some(selector) => self.begin_under(core, component, selector, line),
            None => Ok(()),
        }
    }

    // Keeps the session under a selector of a component, if one is open there.
    fn begin_under<R: Router + Drop>(
        &mut self,
        core: &Core<R>,
        component: usize,
        selector: u64,
        line: u64,
    ) -> Result<(), AllocError>
        requires { component < length core.now.entries }
        ensures opened { OnOk result ((c q : ℕ) → ChangesAt component selector
            (Begins line (session_at component selector core.now)) c q
            (value_at self.old.opened c q) (value_at self.new.opened c q)) }
        ensures closed { self.new.closed ≡ self.old.closed }
    {
        let Some(account) = core.session_account(component, selector) else {
            return Ok(());
        };
        let kinds = core.session_kinds(component, selector);
        let meter = SessionMeter::new(self.alloc, account, kinds)?;
        let session = MeteredSession {
            earlier: line,
            need: meter.least(),
            meter,
        };
        self.opened.set(component, selector, session)
    }

    // Observes a request of a session.
    fn ask<R: Router + Drop>(
        &mut self,
        core: &Core<R>,
        component: usize,
        selector: u64,
        request: &[u8],
        reply: Answer<'_>,
    ) -> Result<(), AllocError>
        requires { component < length core.now.entries }
        ensures opened { OnOk result ((c q : ℕ) → ChangesAt component selector
            (Asks request.now reply.entry.text.now (session_at component selector core.now)) c q
            (value_at self.old.opened c q) (value_at self.new.opened c q)) }
        ensures closed { self.new.closed ≡ self.old.closed }
    {
        let Some(account) = core.session_account(component, selector) else {
            return Ok(());
        };
        let Some(mut session) = self.opened.take(component, selector) else {
            return Ok(());
        };
        session.meter.hear(request, reply, account)?;
        session.need = session.meter.least();
        self.opened.set(component, selector, session)
    }

    // Observes an upgrade of a session.
    fn raise<R: Router + Drop>(
        &mut self,
        core: &Core<R>,
        component: usize,
        selector: u64,
    ) -> Result<(), AllocError>
        requires { component < length core.now.entries }
        ensures opened { OnOk result ((c q : ℕ) → ChangesAt component selector
            (Raises (session_at component selector core.now)) c q
            (value_at self.old.opened c q) (value_at self.new.opened c q)) }
        ensures closed { self.new.closed ≡ self.old.closed }
    {
        let Some(account) = core.session_account(component, selector) else {
            return Ok(());
        };
        let Some(mut session) = self.opened.take(component, selector) else {
            return Ok(());
        };
        session.meter.raise(account);
        session.need = session.meter.least();
        self.opened.set(component, selector, session)
    }

    // Keeps the session under a selector of a component as closed, if its call closed it.
    #[tactic(auto, using(crate::proofs::ClosingLemmas::closes_one, crate::proofs::ClosingLemmas::closes_none))]
    fn end(
        &mut self,
        component: usize,
        selector: u64,
        outcome: SessionOutcome,
        peaks: &Peaks,
    ) -> Result<(), AllocError>
        ensures opened { OnOk result ((c q : ℕ) → ChangesAt component selector (Ends outcome.is_done) c q
            (value_at self.old.opened c q) (value_at self.new.opened c q)) }
        ensures closed { OnOk result (Closes (found peaks.now.sessions component) self.old.opened component
            (Close selector) outcome.is_done
            (closed_of self.old.closed.items) (closed_of self.new.closed.items)) }
    {
        if !outcome.is_done {
            return Ok(());
        }
        match self.opened.take(component, selector) {
            Some(session) => {
                let ended = Ended {
                    earlier: session.earlier,
                    selector,
                    need: session.need,
                };
                self.keep_closed(component, ended, peaks)
            }
            None => Ok(()),
        }
    }

    // Keeps all sessions of a component as closed if it exited, in the order in which they were opened.
    fn end_all(
        &mut self,
        component: usize,
        outcome: SessionOutcome,
        peaks: &Peaks,
    ) -> Result<(), AllocError>
        ensures opened { OnOk result ((c q : ℕ) → EndsAll component outcome.is_done c
            (value_at self.old.opened c q) (value_at self.new.opened c q)) }
        ensures closed { OnOk result (Closes (found peaks.now.sessions component) self.old.opened component
            Exit outcome.is_done
            (closed_of self.old.closed.items) (closed_of self.new.closed.items)) }
    {
        if !outcome.is_done {
            return Ok(());
        }
        let ended = ended_of(self.alloc, self.opened.take_all(component))?;
        self.keep_all_closed(component, ended, peaks)
    }

    // Keeps sessions of a component as closed, in the order in which they were opened.
    fn keep_all_closed(
        &mut self,
        component: usize,
        mut ended: Vec<Ended>,
        peaks: &Peaks,
    ) -> Result<(), AllocError>
        ensures same { self.new.opened ≡ self.old.opened }
        ensures closed { OnOk result ((row : List (Option MeteredSession)) → ended.items ≡ ended_from 0 row →
            ClosesAll (found peaks.now.sessions component) component row
            (closed_of self.old.closed.items) (closed_of self.new.closed.items)) }
    {
        ended.sort_unstable_by_key(|session| session.earlier);
        self.keep_each_closed(component, ended.as_slice(), peaks)
    }

    // Keeps sessions of a component as closed, in this order.
    fn keep_each_closed(
        &mut self,
        component: usize,
        ended: &[Ended],
        peaks: &Peaks,
    ) -> Result<(), AllocError>
        ensures same { self.new.opened ≡ self.old.opened }
        ensures closed { OnOk result (closed_of self.new.closed.items ≡ closed_of self.old.closed.items
            ++ closings (found peaks.now.sessions component) component ended.now) }
    {
        for session in ended {
            self.keep_closed(component, *session, peaks)?;
        }
        Ok(())
    }

    // Keeps a session of a component as closed, as it was until then.
    #[tactic(auto, using(crate::proofs::ClosingLemmas::closed_more))]
    fn keep_closed(
        &mut self,
        component: usize,
        ended: Ended,
        peaks: &Peaks,
    ) -> Result<(), AllocError>
        ensures same { self.new.opened ≡ self.old.opened }
        ensures closed { OnOk result (closed_of self.new.closed.items ≡ closed_of self.old.closed.items
            ++ closing_of (found peaks.now.sessions component) component ended) }
    {
        let Some(session) = peaks.session(component, ended.selector) else {
            return Ok(());
        };
        let session = copied(self.alloc, component, ended.selector, session)?;
        self.closed.push(ClosedSession {
            session,
            need: ended.need,
        })?;
        Ok(())
    }
}

// The sessions of a component that end, by what it has under its selectors.
#[tactic(auto, using(crate::proofs::ClosingLemmas::ended_next))]
fn ended_of(alloc: Global, sessions: Vec<Option<MeteredSession>>) -> Result<Vec<Ended>, AllocError>
    ensures { IfOk result (λ ended. ended.items ≡ ended_from 0 sessions.items) }
{
    let mut ended = Vec::new(alloc);
    for (selector, session) in sessions.iter().enumerate() {
        add_ended(&mut ended, selector as u64, session.as_ref())?;
    }
    Ok(ended)
}

// Adds the session that ends under a selector, if there is one.
fn add_ended(
    ended: &mut Vec<Ended>,
    selector: u64,
    session: Option<&MeteredSession>,
) -> Result<(), AllocError>
    ensures { OnOk result (ended.new.items
        ≡ ended.old.items ++ ended_at selector (option_map (λ session. session.now) session.entry)) }
{
    if let Some(session) = session {
        ended.push(Ended {
            earlier: session.earlier,
            selector,
            need: session.need,
        })?;
    }
    Ok(())
}

// The values of a session once more, under a selector of a component.
fn copied(
    alloc: Global,
    component: usize,
    selector: u64,
    session: &SessionPeak,
) -> Result<SessionPeak, AllocError>
    ensures component { IfOk result (λ copy. copy.component ≡ component) }
    ensures selector { IfOk result (λ copy. copy.selector ≡ selector) }
    ensures noted { IfOk result (λ copy. noted_in copy ≡ noted_in session.now) }
{
    let mut label = Vec::new(alloc);
    label.extend_from_slice(session.label.as_slice())?;
    Ok(SessionPeak {
        component,
        selector,
        server: session.server,
        label,
        peak: session.peak,
    })
}
