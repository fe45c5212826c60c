//! A component: its role, and what its calls do.
ghost use Rattle.std.specs.Prelude.{◌≡◌, ◌≤◌, length};

use crate::script::Script;
use arrayvec::ArrayVec;
use cap_space::{Cap, CapSpace};
use core_calls::{Call, LONGEST_CLIENT, Reply};
use dataspace_core::Memory;
use heap_core::Heap;
use region_map::RegionMap;
use server_frame::Server;
use server_kinds::{AnyServer, FileService, LogService};
use sliced_heap::SlicedHeap;
use std::mem;
use trade_base::{AccountId, DsId, Refusal, Selector, SessionId};

/// The role of a component. A server answers the calls of others and is charged on the account; an init does neither.
#[derive(Drop)]
pub(crate) enum Role {
    /// A script, which makes calls.
    Script(Script),
    /// A server, which answers calls of sessions.
    Server(AccountId, AnyServer),
    /// An init: the components that it starts have accounts below this one.
    Init(AccountId),
    /// A script that has exited.
    Gone,
}

/// A component: its name, under which it opens sessions, and its role.
#[derive(Drop)]
pub struct Component {
    pub(crate) name: ArrayVec<u8, LONGEST_CLIENT>,
    pub(crate) role: Role,
}

impl Component {
    ghost use Rattle.std.specs.Prelude.{◌≡◌, ◌≤◌, ℕ, List, length, Some, None, IsSome, IfSome, IfOk, OnErr};
    ghost use Rattle.std.specs.FinMap.{get};
    ghost use Rattle.std.specs.Option.{option_or};
    ghost use Rattle.trade_base.specs.declared.refusal.Refusal.TheVariants.{NotAScript};
    ghost use Rattle.own_model.specs.OwnState.{new_selector};
    ghost use Rattle.own_model.specs.OwnStep.{own_step};
    ghost use Rattle.own_model.specs.Offer.Offer.{OffersLog, OffersFiles};
    ghost use Rattle.own_model.specs.StartList.Kind.{Script as AScript, Server as AServer, Init as AnInit};
    ghost use Rattle.pd_core.specs.Answer.{told, told_of};
    ghost use Rattle.core_calls.specs.Call.{model_call, IsPlain, IsWellFormed};
    ghost use Rattle.dataspace_core.specs.Store.{Store, parents_in, parent_in, ram_limits_in, caps_limits_in, IsLeafIn};
    ghost use Rattle.pd_core.specs.Exit.{places_or_refusal, refusal_of, IsScriptRole, HasSelectorsTo, ClosesBoth};
    ghost use Rattle.pd_core.specs.Sound.{session_at, buffer_at};
    ghost use Rattle.pd_core.specs.declared.component.Role.TheVariants.{Gone as GoneRole};
    ghost use Rattle.pd_core.specs.Component.{Place, entry_of, payer_of, reserve_of, offer_of, HasReserveApart, HasOwnReserve, tables_of, caps_of, HasNewHeap, own, IsSound, Keeps};
    ghost use Rattle.pd_core.specs.Core.{IsInitOf};
    ghost use Rattle.server_kinds.specs.Host.{offer_of as offer_of_host, HasNoSessions, IsNew};
    ghost use Rattle.pd_core.specs.Fresh.{IsNewServer};
    ghost use Rattle.pd_core.specs.Own.{Sessions, HasSessions};
    ghost use Rattle.pd_core.specs.SessionCalls.{named_in, with_session, with_buffer, without_selector, HasSelectorLeft, NamesBuffer, DropsBuffer};

    /// Creates a script with a name of at most 140 bytes. It is charged on the account, and has the account of its reserve,
    /// these capabilities and regions, and empty heaps.
    pub fn script(
        name: &[u8],
        account: AccountId,
        reserve: AccountId,
        caps: CapSpace,
        regions: RegionMap,
    ) -> Component
        requires { length name.now ≤ 140 }
        ensures entry { (place : Place) → entry_of place result ≡ record {
          name = place.name;
          label = name.now;
          kind = AScript;
          home = place.home;
          routes = place.routes;
        } }
        ensures account { payer_of result ≡ account.0 }
        ensures reserve { reserve_of result ≡ Some reserve.0 }
        ensures tables { tables_of result ≡ Some (caps, regions) }
        ensures heap { HasNewHeap result.role }
        ensures server { (store : Store) → IsNewServer store result.role }
        ensures service { offer_of result ≡ None }
    {
        Component {
            name: name_of(name),
            role: Role::Script(Script {
                account,
                reserve,
                caps,
                regions,
                heap: Heap::new(account),
                sliced: SlicedHeap::new(account),
            }),
        }
    }

    /// Creates a log server with a name of at most 140 bytes that is charged on the account.
    pub fn log(name: &[u8], account: AccountId, server: Server<LogService>) -> Component
        requires { length name.now ≤ 140 }
        ensures entry { (place : Place) → entry_of place result ≡ record {
          name = place.name;
          label = name.now;
          kind = AServer;
          home = place.home;
          routes = place.routes;
        } }
        ensures account { payer_of result ≡ account.0 }
        ensures reserve { reserve_of result ≡ None }
        ensures tables { tables_of result ≡ None }
        ensures heap { HasNewHeap result.role }
        ensures server { (store : Store) → HasNoSessions store server.sessions server.map →
            IsNewServer store result.role }
        ensures service { offer_of result ≡ Some OffersLog }
    {
        Component::server(name, account, AnyServer::Log(server))
    }

    /// Creates a file server with a name of at most 140 bytes that is charged on the account.
    pub fn files(name: &[u8], account: AccountId, server: Server<FileService>) -> Component
        requires { length name.now ≤ 140 }
        ensures entry { (place : Place) → entry_of place result ≡ record {
          name = place.name;
          label = name.now;
          kind = AServer;
          home = place.home;
          routes = place.routes;
        } }
        ensures account { payer_of result ≡ account.0 }
        ensures reserve { reserve_of result ≡ None }
        ensures tables { tables_of result ≡ None }
        ensures heap { HasNewHeap result.role }
        ensures server { (store : Store) → HasNoSessions store server.sessions server.map →
            IsNewServer store result.role }
        ensures service { offer_of result ≡ Some OffersFiles }
    {
        Component::server(name, account, AnyServer::Files(server))
    }

    /// Creates a server of any service, with a name of at most 140 bytes, that is charged on the account.
    pub fn server(name: &[u8], account: AccountId, host: AnyServer) -> Component
        requires { length name.now ≤ 140 }
        ensures entry { (place : Place) → entry_of place result ≡ record {
          name = place.name;
          label = name.now;
          kind = AServer;
          home = place.home;
          routes = place.routes;
        } }
        ensures account { payer_of result ≡ account.0 }
        ensures reserve { reserve_of result ≡ None }
        ensures tables { tables_of result ≡ None }
        ensures heap { HasNewHeap result.role }
        ensures server { (store : Store) → IsNew store host → IsNewServer store result.role }
        ensures service { offer_of result ≡ Some (offer_of_host host) }
    {
        Component {
            name: name_of(name),
            role: Role::Server(account, host),
        }
    }

    /// Creates an init with a name of at most 140 bytes that starts components below the account.
    pub fn init(name: &[u8], account: AccountId) -> Component
        requires { length name.now ≤ 140 }
        ensures entry { (place : Place) → entry_of place result ≡ record {
          name = place.name;
          label = name.now;
          kind = AnInit;
          home = place.home;
          routes = place.routes;
        } }
        ensures account { payer_of result ≡ account.0 }
        ensures init { IsInitOf result.role account.0 }
        ensures reserve { reserve_of result ≡ None }
        ensures tables { tables_of result ≡ None }
        ensures heap { HasNewHeap result.role }
        ensures server { (store : Store) → IsNewServer store result.role }
        ensures service { offer_of result ≡ None }
    {
        Component {
            name: name_of(name),
            role: Role::Init(account),
        }
    }

    /// Returns the session that a selector names, by its server's place and its key there. Refuses with `NotAScript`, then
    /// `Gone`, then `InvalidSession`.
    pub(crate) fn session(&self, selector: u64) -> Result<(usize, SessionId), Refusal>
        ensures named { result ≡ named_in self.now.role selector }
        ensures small { IfOk result (λ _. selector ≤ 4096) }
    {
        match &self.role {
            Role::Script(script) => {
                let _places = script.caps.places();
                match script.caps.get(selector) {
                    Some(Cap::Session { server, session }) => Ok((server, session)),
                    _ => Err(Refusal::InvalidSession),
                }
            }
            Role::Server(..) | Role::Init(_) => Err(Refusal::NotAScript),
            Role::Gone => Err(Refusal::Gone),
        }
    }

    /// Removes the session that a selector names, frees the selector, and returns the session. Refuses with `NotAScript`,
    /// then `Gone`, then `InvalidSession`.
    pub(crate) fn take_session(&mut self, selector: u64) -> Result<(usize, SessionId), Refusal>
        ensures named { result ≡ named_in self.old.role selector }
        ensures gone { IfOk result (λ _. self.new
            ≡ record self.old { role = without_selector self.old.role selector }) }
        ensures err { OnErr result (self.new ≡ self.old) }
    {
        match &mut self.role {
            Role::Script(script) => script
                .caps
                .take_session(selector)
                .ok_or(Refusal::InvalidSession),
            Role::Server(..) | Role::Init(_) => Err(Refusal::NotAScript),
            Role::Gone => Err(Refusal::Gone),
        }
    }

    /// Stores a new session, given by its server's place and its key there, and returns its selector.
    pub(crate) fn keep_session(&mut self, server: usize, session: SessionId) -> Selector
        requires room { HasSelectorLeft self.old.role }
        ensures least { result.0 ≡ new_selector (caps_of self.old) }
        ensures kept { self.new
            ≡ record self.old { role = with_session self.old.role result.0 server session } }
    {
        match &mut self.role {
            Role::Script(script) => script.caps.insert(Cap::Session { server, session }),
            Role::Server(..) | Role::Init(_) | Role::Gone => unreachable!(),
        }
    }

    /// Stores the buffer of the session under a selector, given by its dataspace, and returns the buffer's selector.
    pub(crate) fn keep_buffer(&mut self, space: DsId, session: Selector) -> Selector
        requires room { HasSelectorLeft self.old.role }
        ensures least { result.0 ≡ new_selector (caps_of self.old) }
        ensures kept { self.new
            ≡ record self.old { role = with_buffer self.old.role result.0 space session } }
    {
        match &mut self.role {
            Role::Script(script) => script.caps.insert(Cap::Buffer { space, session }),
            Role::Server(..) | Role::Init(_) | Role::Gone => unreachable!(),
        }
    }

    /// Frees the selector and the regions of a script's buffer. The buffer's dataspace need not exist.
    pub(crate) fn drop_buffer(&mut self, space: DsId)
        requires lent { NamesBuffer space.0 self.old.role }
        ensures { DropsBuffer space.0 self.old self.new }
    {
        match &mut self.role {
            Role::Script(script) => {
                let _ = script.caps.take_buffer(space);
                script.regions.detach_all(space);
            }
            Role::Server(..) | Role::Init(_) | Role::Gone => unreachable!(),
        }
    }

    /// Returns the refusal of all calls of a component that is no script or has exited.
    pub(crate) fn refusal(&self) -> Refusal
        ensures { Some result ≡ option_or (refusal_of self.now.role) (Some NotAScript) }
    {
        match &self.role {
            Role::Gone => Refusal::Gone,
            _ => Refusal::NotAScript,
        }
    }

    /// Returns the number of selectors for which a script has places. Refuses with `NotAScript`, then `Gone`.
    pub(crate) fn places(&self) -> Result<usize, Refusal>
        ensures told { result ≡ places_or_refusal self.now.role }
        ensures within { IfOk result (λ places. HasSelectorsTo places self.now.role) }
    {
        match &self.role {
            Role::Script(script) => Ok(script.caps.places()),
            _ => Err(self.refusal()),
        }
    }

    /// Ends a script without sessions and buffers: frees all that it holds, closes its account and its reserve, and returns
    /// their limits to its init's account.
    pub(crate) fn leave(&mut self, memory: &mut Memory)
        requires sound { IsSound memory.old self.old }
        requires script { IsScriptRole self.old.role }
        requires none { (selector : ℕ) → session_at (get (caps_of self.old) selector) ≡ None }
        requires unlent { (selector : ℕ) → buffer_at (get (caps_of self.old) selector)
            ≡ None }
        requires child { IsSome (get (parents_in memory.old) (payer_of self.old)) }
        requires leaf { IsLeafIn memory.old (payer_of self.old) }
        requires reserve { HasOwnReserve memory.old self.old.role }
        ensures gone { self.new ≡ record self.old { role = GoneRole } }
        ensures closes { IfSome (reserve_of self.old) (λ reserve.
            ClosesBoth (payer_of self.old) reserve (parent_in memory.old (payer_of self.old))
            memory.old memory.new) }
        ensures machine { ram_limits_in memory.new ≡ ram_limits_in memory.old }
        ensures caps { caps_limits_in memory.new ≡ caps_limits_in memory.old }
    {
        match mem::replace(&mut self.role, Role::Gone) {
            Role::Script(script) => {
                let reserve = script.reserve;
                script.end(memory);
                memory.close(reserve);
            }
            _ => unreachable!(),
        }
    }

    /// Carries out a call of the component and sets the reply to the result. The call is neither of sessions, nor of the
    /// reserve, nor an exit.
    pub(crate) fn step(&mut self, memory: &mut Memory, call: Call<'_>, reply: &mut Reply)
        requires sound { IsSound memory.old self.old }
        requires call { IsWellFormed call }
        requires plain { IsPlain call }
        requires reserve { HasReserveApart self.old.role }
        ensures outcome { (place : Place) (sessions : Sessions) →
            HasSessions sessions (caps_of self.old) →
            told reply.new (own sessions memory.new self.new)
            ≡ told_of (own_step (entry_of place self.old) (model_call call.entry)
            (own sessions memory.old self.old)) }
        ensures keeps { IsScriptRole self.old.role
            → Keeps memory.old self.old memory.new self.new }
        ensures stays { IsSome (refusal_of self.old.role) → (memory.new ≡ memory.old)
            × (self.new ≡ self.old) }
    {
        match &mut self.role {
            Role::Script(script) => script.step(memory, call, reply),
            Role::Server(..) | Role::Init(_) => reply.write_refusal(Refusal::NotAScript),
            Role::Gone => reply.write_refusal(Refusal::Gone),
        }
    }
}

// A component's name.
fn name_of(name: &[u8]) -> ArrayVec<u8, LONGEST_CLIENT>
    requires { length name.now ≤ 140 }
    ensures { result.items ≡ name.now }
{
    let mut copy = ArrayVec::<u8, LONGEST_CLIENT>::new();
    let _ = copy.try_extend_from_slice(name);
    copy
}
