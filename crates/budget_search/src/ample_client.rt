//! A component with an ample account, whose sessions have enough.
ghost use Rattle.std.specs.Prelude.{◌≡◌, IfOk};
ghost use Rattle.std.specs.Option.{option_map};
ghost use Rattle.budget_search.specs.AmpleCalls.{upgrade_args};

use crate::donation::args_with;
use crate::session_client::is_done;
use budget_meter::Budget;
use core_calls::{Answer, Call, FileError, Outcome, Reply, ServiceOutcome};
use init_core::{Core, Router};
use session_proto::SessionArgs;
use std::alloc::{AllocError, Global};
use std::marker::Model;
use trade_base::PAGE;

/// The minimum donation with which a session opens, in bytes and capabilities.
const LEAST_DONATION: Budget = Budget { ram: 4096, caps: 2 };

/// The most upgrades for one request that is refused: the last one would be larger than any machine.
const MOST_UPGRADES: usize = 32;

/// A component with an ample account, on a machine where it makes its calls.
#[derive(Drop)]
pub struct AmpleClient<R: Router + Drop> {
    core: Core<R>,
    component: usize,
    reply: Reply,
}

impl<R: Router + Drop> Model for AmpleClient<R> {
    ghost use Rattle.std.specs.Coded.{codes};
    ghost use Rattle.init_core.specs.Boot.{coded_world};
    ghost use Rattle.budget_search.specs.AmpleCalls.{Client};

    ghost Value = { Client };

    ghost coded = { Prim.hlevel (codes, coded_world) };

    ghost view = { λ client. record {
      component = client.component;
      world = client.core;
      text = client.reply.text;
    } };
}

impl<R: Router + Drop> AmpleClient<R> {
    ghost use Rattle.std.specs.Prelude.{◌≡◌, ◌≢◌, ℕ, codes, IfNone, IfSome, OnOk, Some};
    ghost use Rattle.std.specs.Str.{bytes_eq};
    ghost use Rattle.own_model.specs.Call.Call.{CallSession, Open as Opening};
    ghost use Rattle.own_model.specs.Reply.{reply_text};
    ghost use Rattle.own_model.specs.Reply.Reply.{Selected};
    ghost use Rattle.core_calls.specs.Call.{model_call, IsWellFormed};
    ghost use Rattle.budget_search.specs.AmpleCalls.{after_step, ample_call, asked_again, made_with_enough};
    ghost use Rattle.budget_search.specs.Steps.{with_args};

    /// Returns the client for a component of a core that has made no call, with the reply that its calls write.
    pub fn new(core: Core<R>, component: usize, reply: Reply) -> AmpleClient<R>
        ensures { result ≡ record { component = component; world = core; text = reply.text } }
    {
        AmpleClient {
            core,
            component,
            reply,
        }
    }

    /// Makes a call. A session opens with a donation that suffices for its opening, and gets upgrades while its account refuses a
    /// request. The error is that the host is out of memory.
    pub fn make(&mut self, alloc: Global, call: Call<'_>) -> Result<(), AllocError>
        requires { IsWellFormed call }
        ensures { OnOk result (self.new ≡ made_with_enough (model_call call.entry) self.old) }
    {
        match call {
            Call::Open { service, args } => self.open(alloc, service, args),
            Call::CallSession { selector, request } => self.request(alloc, selector, request),
            _ => {
                self.step(call);
                Ok(())
            }
        }
    }

    /// Makes a call as it is. A component that isn't there makes none.
    pub fn step(&mut self, call: Call<'_>)
        requires { IsWellFormed call }
        ensures { self.new ≡ after_step (model_call call.entry) self.old }
    {
        if self.component < self.core.count() {
            self.core.step(self.component, call, &mut self.reply);
        }
    }

    /// Makes a call with other arguments if it opens a session, and any other call as it is.
    pub fn open_with(&mut self, call: Call<'_>, args: &[u8])
        requires { IsWellFormed call }
        ensures { self.new
            ≡ after_step (with_args (Some args.now) (model_call call.entry)) self.old }
    {
        match call {
            Call::Open { service, .. } => self.step(Call::Open { service, args }),
            _ => self.step(call),
        }
    }

    // Opens a session, with at least the minimum donation.
    fn open(&mut self, alloc: Global, service: &[u8], args: &[u8]) -> Result<(), AllocError>
        ensures { OnOk result (self.new
            ≡ after_step (ample_call (Opening service.now args.now)) self.old) }
    {
        let Ok(given) = SessionArgs::read(args) else {
            self.step(Call::Open { service, args });
            return Ok(());
        };
        let enough = Budget {
            ram: given.ram().0.max(LEAST_DONATION.ram),
            caps: u64::from(given.caps().0).max(LEAST_DONATION.caps),
        };
        let args = args_with(alloc, enough, args)?;
        self.step(Call::Open {
            service,
            args: args.as_slice(),
        });
        Ok(())
    }

    // Makes a request of a session, again after each upgrade while the session's account refuses it. The upgrades double, so that
    // the session gets less than twice what it needs.
    fn request(&mut self, alloc: Global, selector: u64, request: &[u8]) -> Result<(), AllocError>
        ensures { OnOk result (self.new
            ≡ made_with_enough (CallSession selector request.now) self.old) }
    {
        let mut times = 1u64;
        self.step(Call::CallSession { selector, request });
        for made in 0..MOST_UPGRADES {
            let args = match upgrade_for(alloc, self.reply.answer(), times)? {
                Some(args) => args,
                None => return Ok(()),
            };
            self.ask_again(selector, request, args.as_slice());
            times = times.saturating_mul(2);
        }
        Ok(())
    }

    // Upgrades a session, and makes a request of it again.
    fn ask_again(&mut self, selector: u64, request: &[u8], args: &[u8])
        ensures { self.new
            ≡ asked_again selector (CallSession selector request.now) args.now self.old }
    {
        self.step(Call::Upgrade { selector, args });
        self.step(Call::CallSession { selector, request });
    }

    /// Returns the text of the reply to the last call.
    pub fn text(&self) -> &[u8]
        ensures { result.now ≡ self.now.text }
    {
        self.reply.text()
    }

    /// Returns the reply to the last call.
    pub fn answer(&self) -> Answer<'_>
        ensures { result.text.now ≡ self.now.text }
    {
        self.reply.answer()
    }

    /// Returns whether the last call is done.
    pub fn is_done(&self) -> bool
        ensures { result ≡ bytes_eq self.now.text (codes "ok") }
    {
        is_done(self.reply.answer())
    }

    /// Returns the selector in the reply to the last call, if it has one.
    pub fn selector(&self) -> Option<u64>
        ensures some { IfSome result (λ selector. self.now.text ≡ reply_text (Selected selector)) }
        ensures none { IfNone result
            ((selector : ℕ) → self.now.text ≢ reply_text (Selected selector)) }
    {
        match self.reply.outcome() {
            Outcome::Selected(selector) => Some(u64::from(selector.0)),
            _ => None,
        }
    }
}

// Returns the arguments of an upgrade by so many pages or capabilities, if a session's account is short of quota.
fn upgrade_for(alloc: Global, answer: Answer<'_>, times: u64) -> Result<Option<Vec<u8>>, AllocError>
    ensures { IfOk result (λ args. option_map (λ text. text.items) args
        ≡ upgrade_args times answer.entry.text.now) }
{
    let Outcome::Served(ServiceOutcome::Refused(error)) = answer.outcome else {
        return Ok(None);
    };
    let ram = times.saturating_mul(PAGE);
    match error {
        FileError::OutOfRam => Ok(Some(format!(in alloc; "ram_quota={ram}")?.into_bytes())),
        FileError::OutOfCaps => Ok(Some(format!(in alloc; "cap_quota={times}")?.into_bytes())),
        _ => Ok(None),
    }
}
