//! The lines of a component that reach each of its sessions, if every account is ample.
ghost use Rattle.std.specs.Prelude.{◌≡◌, ◌∷◌, ◌+◌, true, false, length, replicate, List, if◌then◌else◌, None, OnOk, IfOk, ◌≢◌, IfErr, Some};
ghost use Rattle.list_parser.specs.Quota.{quota_fault};
ghost use Rattle.list_parser.specs.declared.fault.BootFault.TheVariants.{NoMemory};
ghost use Rattle.core_calls.specs.Call.{model_call, IsWellFormed};
ghost use Rattle.own_model.specs.SessionArgs.{arguments_of};
ghost use Rattle.budget_search.specs.ReachedSessions.{after_call, after_left_out, came_with, followed, followed_from, named_in, names, opens, reaches, sessions_of, upgrades, unopened, IsFollowed, Reach, Sessions};
ghost use Rattle.budget_search.specs.declared.component_line.ComponentLine.{ComponentLine};

use crate::ample_client::AmpleClient;
use crate::component_line::ComponentLine;
use crate::own_run::is_exit;
use budget_meter::{Budget, named_by};
use core_calls::{Call, Reply};
use init_core::{Router, boot};
use list_parser::{BootFault, StartList};
use std::alloc::{AllocError, Global};

/// The number of selectors of a component, with 0, which is none.
const SELECTORS: usize = 4097;

/// A session that a component opens.
#[derive(Drop)]
pub(crate) struct OpenedSession {
    /// The place of the line that opens the session, among the component's lines.
    pub(crate) step: usize,
    /// The selector of the session.
    pub(crate) selector: u64,
    /// The donation of its opening.
    pub(crate) donation: Budget,
    /// The sum of its upgrades' donations.
    pub(crate) raised: Budget,
    /// The places of the lines that reach the session, among the component's lines.
    pub(crate) steps: Vec<usize>,
}

/// The sessions of a component, in the order of their openings.
#[derive(Drop)]
pub(crate) struct OpenedSessions {
    pub(crate) opened: Vec<OpenedSession>,
    /// The session that each selector names.
    owners: Vec<Option<usize>>,
}

impl OpenedSessions {
    /// Returns the sessions of a component that has the whole machine of a list. The error is that of the boot, or that the host
    /// is out of memory.
    pub(crate) fn of(
        alloc: Global,
        list: &StartList,
        component: usize,
        steps: &[ComponentLine],
    ) -> Result<OpenedSessions, BootFault>
        ensures reached { IfOk result (λ sessions.
            Reach steps.now 0 (followed_from list.now component) (sessions_of sessions)) }
        ensures fault { IfErr result
            (λ fault. fault ≢ NoMemory → quota_fault list.now ≡ Some fault) }
    {
        let mut sessions = OpenedSessions::none(alloc)?;
        let reply = Reply::boot(alloc)?;
        let core = boot(alloc, list)?;
        let mut client = AmpleClient::new(core, component, reply);
        sessions.follow(alloc, &mut client, steps)?;
        Ok(sessions)
    }

    // Returns the sessions before the first line: none.
    fn none(alloc: Global) -> Result<OpenedSessions, AllocError>
        ensures { IfOk result (λ sessions. sessions_of sessions ≡ unopened) }
    {
        Ok(OpenedSessions {
            opened: Vec::new(alloc),
            owners: unnamed(alloc)?,
        })
    }

    // Follows a component's calls up to its exit.
    fn follow<R: Router + Drop>(
        &mut self,
        alloc: Global,
        client: &mut AmpleClient<R>,
        steps: &[ComponentLine],
    ) -> Result<(), BootFault>
        ensures sessions { OnOk result (Reach steps.now 0 (followed client.old (sessions_of self.old))
            (sessions_of self.new)) }
        ensures fault { IfErr result (λ fault. fault ≡ NoMemory) }
    {
        for place in 0..steps.len() {
            if !self.goes_on(alloc, client, &steps[place], place)? {
                return Ok(());
            }
        }
        Ok(())
    }

    // Takes the line at a place, and returns whether the run continues.
    fn goes_on<R: Router + Drop>(
        &mut self,
        alloc: Global,
        client: &mut AmpleClient<R>,
        step: &ComponentLine,
        place: usize,
    ) -> Result<bool, BootFault>
        ensures on { IfOk result (λ goes_on. goes_on ≡ true →
            (steps : List ComponentLine) (end : Sessions) →
            Reach steps (place + 1) (followed client.new (sessions_of self.new)) end →
            Reach (step.now ∷ steps) place (followed client.old (sessions_of self.old)) end) }
        ensures ends { IfOk result (λ goes_on. goes_on ≡ false →
            (steps : List ComponentLine) →
            Reach (step.now ∷ steps) place (followed client.old (sessions_of self.old))
            (sessions_of self.new)) }
        ensures fault { IfErr result (λ fault. fault ≡ NoMemory) }
    {
        let Some(call) = step.said() else {
            return Ok(true);
        };
        if step.is_left_out {
            self.leave_out(call, place)?;
            return Ok(true);
        }
        if is_exit(call) {
            return Ok(false);
        }
        self.go_on(alloc, client, call, place)?;
        Ok(true)
    }

    // Makes a call, and records the session that it reaches.
    fn go_on<R: Router + Drop>(
        &mut self,
        alloc: Global,
        client: &mut AmpleClient<R>,
        call: Call<'_>,
        place: usize,
    ) -> Result<(), BootFault>
        requires { IsWellFormed call }
        ensures sessions { OnOk result (IsFollowed false place (model_call call.entry)
            (followed client.old (sessions_of self.old))
            (followed client.new (sessions_of self.new))) }
        ensures fault { IfErr result (λ fault. fault ≡ NoMemory) }
    {
        client.make(alloc, call)?;
        let (selector, is_done) = (client.selector(), client.is_done());
        self.record(alloc, call, selector, is_done, place)
    }

    // Records the session that a call reaches, opens or closes, by the selector in its reply, and whether it is done.
    fn record(
        &mut self,
        alloc: Global,
        call: Call<'_>,
        selector: Option<u64>,
        is_done: bool,
        place: usize,
    ) -> Result<(), BootFault>
        requires { IsWellFormed call }
        ensures sessions { OnOk result (sessions_of self.new
            ≡ after_call (came_with selector is_done) place (model_call call.entry) (sessions_of self.old)) }
        ensures fault { IfErr result (λ fault. fault ≡ NoMemory) }
    {
        match call {
            Call::Open { args, .. } => self.open(alloc, selector, args, place),
            Call::CallSession { selector, .. } => self.reach(selector, place),
            Call::Upgrade { selector, args } => self.upgrade(is_done, selector, args, place),
            Call::Close(selector) => {
                self.close(is_done, selector);
                Ok(())
            }
            _ => Ok(()),
        }
    }

    // Records an upgrade of the session that a selector names, if it is done.
    fn upgrade(
        &mut self,
        is_done: bool,
        selector: u64,
        args: &[u8],
        place: usize,
    ) -> Result<(), BootFault>
        ensures sessions { OnOk result (sessions_of self.new
            ≡ (if is_done
            then reaches selector place (upgrades selector (arguments_of args.now) (sessions_of self.old))
            else sessions_of self.old)) }
        ensures fault { IfErr result (λ fault. fault ≡ NoMemory) }
    {
        if !is_done {
            return Ok(());
        }
        self.raise(selector, args);
        self.reach(selector, place)
    }

    // Records that a selector names no session any more, if its session is closed.
    fn close(&mut self, is_closed: bool, selector: u64)
        ensures { sessions_of self.new
            ≡ (if is_closed then names selector None (sessions_of self.old) else sessions_of self.old) }
    {
        if is_closed {
            self.set_owner(selector, None);
        }
    }

    // Records a request that isn't made.
    fn leave_out(&mut self, call: Call<'_>, place: usize) -> Result<(), BootFault>
        requires { IsWellFormed call }
        ensures sessions { OnOk result (sessions_of self.new
            ≡ after_left_out place (model_call call.entry) (sessions_of self.old)) }
        ensures fault { IfErr result (λ fault. fault ≡ NoMemory) }
    {
        match call {
            Call::CallSession { selector, .. } => self.reach(selector, place),
            _ => Ok(()),
        }
    }

    // Records the session that was opened, if the reply has its selector.
    fn open(
        &mut self,
        alloc: Global,
        selector: Option<u64>,
        args: &[u8],
        step: usize,
    ) -> Result<(), BootFault>
        ensures sessions { OnOk result (sessions_of self.new
            ≡ opens step (arguments_of args.now) selector (sessions_of self.old)) }
        ensures fault { IfErr result (λ fault. fault ≡ NoMemory) }
    {
        let Some(donation) = named_by(args) else {
            return Ok(());
        };
        let Some(selector) = selector else {
            return Ok(());
        };
        let count = self.count();
        self.set_owner(selector, Some(count));
        self.opened.push(OpenedSession {
            step,
            selector,
            donation,
            raised: Budget { ram: 0, caps: 0 },
            steps: Vec::new(alloc),
        })?;
        Ok(())
    }

    // Returns the number of sessions that were opened.
    fn count(&self) -> usize
        ensures { result ≡ length (sessions_of self.now).opened }
    {
        self.opened.len()
    }

    // Returns the session that a selector names, if it names one.
    fn owner(&self, selector: u64) -> Option<usize>
        ensures { result ≡ named_in (sessions_of self.now) selector }
    {
        *self.owners.get(selector as usize)?
    }

    // Records the session that a selector names from now on.
    fn set_owner(&mut self, selector: u64, owner: Option<usize>)
        ensures { sessions_of self.new ≡ names selector owner (sessions_of self.old) }
    {
        let place = selector as usize;
        if place < self.owners.len() {
            self.owners[place] = owner;
        }
    }

    // Records that a line reaches the session that a selector names.
    fn reach(&mut self, selector: u64, place: usize) -> Result<(), BootFault>
        ensures sessions { OnOk result (sessions_of self.new
            ≡ reaches selector place (sessions_of self.old)) }
        ensures fault { IfErr result (λ fault. fault ≡ NoMemory) }
    {
        let Some(owner) = self.owner(selector) else {
            return Ok(());
        };
        if owner >= self.opened.len() {
            return Ok(());
        }
        let opened = &mut self.opened[owner];
        opened.steps.push(place)?;
        Ok(())
    }

    // Records the donation of an upgrade for the session that a selector names.
    fn raise(&mut self, selector: u64, args: &[u8])
        ensures { sessions_of self.new
            ≡ upgrades selector (arguments_of args.now) (sessions_of self.old) }
    {
        let Some(owner) = self.owner(selector) else {
            return;
        };
        let Some(more) = named_by(args) else {
            return;
        };
        if owner >= self.opened.len() {
            return;
        }
        let opened = &mut self.opened[owner];
        opened.raised.ram = opened.raised.ram.saturating_add(more.ram);
        opened.raised.caps = opened.raised.caps.saturating_add(more.caps);
    }
}

// Returns the sessions that the selectors name: none.
fn unnamed(alloc: Global) -> Result<Vec<Option<usize>>, AllocError>
    ensures { IfOk result (λ owners. owners.items ≡ replicate 4097 None) }
{
    let mut owners = Vec::new(alloc);
    for count in 0..SELECTORS {
        owners.push(None)?;
    }
    Ok(owners)
}
