//! The accounts of a core: their limits and their use.
ghost use Rattle.std.specs.Prelude.{◌≡◌, ◌+◌, Some};
ghost use Rattle.std.specs.FinMap.{get};
ghost use Rattle.std.specs.Option.{option_and_then, option_copied, option_map};
ghost use Rattle.own_model.specs.OwnState.{server_named, session_named};
ghost use Rattle.own_model.specs.Session.{Session as AnOpenSession, offer_of};
ghost use Rattle.own_model.specs.Transcript.{state_at};
ghost use Rattle.own_model.specs.World.{account_at};
ghost use Rattle.dataspace_core.specs.Store.{account_in, IsOpenIn};
ghost use Rattle.own_model.specs.StartList.{init_at};
ghost use Rattle.pd_core.specs.Answer.{quotas_account, CountsLimits};
ghost use Rattle.core_calls.specs.Quotas.{reserve_amounts};
ghost use Rattle.pd_core.specs.Core.{Places, world_of, IsCoreAt};
ghost use Rattle.object_kinds.specs.Offered.{offered_kinds};

use crate::component::{Component, Role};
use crate::machine::Core;
use crate::router::Router;
use core_calls::{Quotas, Reserve};
use dataspace_core::Memory;
use object_kinds::ObjectKind;
use trade_base::{AccountId, Caps, Ram, SessionId};

/// Returns the limits and the use of an account.
pub(crate) fn quotas_of(memory: &Memory, account: AccountId) -> Quotas
    requires { IsOpenIn memory.now account.0 }
    ensures { quotas_account result ≡ account_in memory.now account.0 }
{
    let (ram_used, caps_used) = memory.used(account);
    let (ram_limit, caps_limit) = memory.limits(account);
    Quotas {
        ram_used,
        ram_limit,
        caps_used,
        caps_limit,
    }
}

impl<R: Router + Drop> Core<R> {
    ghost use Rattle.std.specs.Prelude.{◌≡◌, ◌+◌, ◌<◌, ◌≤◌, ℕ, length, None, IfSome};
    ghost use Rattle.std.specs.FinMap.{get};
    ghost use Rattle.std.specs.Option.{option_and_then, option_copied, option_map};
    ghost use Rattle.own_model.specs.OwnState.{server_named, session_named};
    ghost use Rattle.own_model.specs.Session.{Session as AnOpenSession, offer_of};
    ghost use Rattle.own_model.specs.Transcript.{state_at};
    ghost use Rattle.own_model.specs.World.{account_at, machine_init};
    ghost use Rattle.own_model.specs.StartList.{init_at};
    ghost use Rattle.pd_core.specs.Answer.{quotas_account, CountsLimits};
    ghost use Rattle.core_calls.specs.Quotas.{reserve_amounts};
    ghost use Rattle.object_kinds.specs.Offered.{offered_kinds};

    /// Returns the number of components. Each has an entry, an own state, and a place among inits, where the machine's init
    /// is first.
    pub fn count(&self) -> usize
        ensures entries { result ≡ length self.now.entries }
        ensures states { result ≡ length self.now.states }
        ensures inits { length self.now.inits ≡ result + 1 }
    {
        self.components.as_slice().len()
    }

    /// Returns limits and use of the account of the component at a place. An init's account is what it has for the
    /// components that it starts.
    pub fn account(&self, component: usize) -> Quotas
        requires { component < length self.now.entries }
        ensures value { quotas_account result ≡ account_at self.now component }
        ensures limits { CountsLimits (quotas_account result) (init_at self.now.inits
            (component + 1))
            (state_at self.now.states component).account }
    {
        component_quotas(&self.memory, self.components.as_slice(), component)
    }

    /// Returns what the component at a place has in reserve.
    pub fn reserve(&self, component: usize) -> Reserve
        requires { component < length self.now.entries }
        ensures { reserve_amounts result ≡ (state_at self.now.states component).reserve }
    {
        component_reserve(&self.memory, self.components.as_slice(), component)
    }

    /// Returns the limits and the use of the account of the machine's init.
    pub fn init_account(&self) -> Quotas
        ensures { quotas_account result ≡ machine_init self.now }
    {
        quotas_of(&self.memory, self.memory.root())
    }

    /// Returns limits and use of a session's account. A selector of the component at a place names the session. Returns
    /// `None` if it names no session.
    pub fn session_account(&self, component: usize, selector: u64) -> Option<Quotas>
        requires { component < length self.now.entries }
        ensures { option_map quotas_account result
            ≡ option_map (λ (s : AnOpenSession). s.account)
            (session_named (get (state_at self.now.states component).selectors selector)) }
    {
        session_quotas(
            &self.memory,
            self.components.as_slice(),
            component,
            selector,
        )
    }

    /// Returns the kinds of objects that a session's server offers. A selector of the component at a place names the session.
    /// Returns `None` if the server offers no objects, and if the selector names no session.
    pub fn session_kinds(&self, component: usize, selector: u64) -> Option<&[ObjectKind]>
        requires { component < length self.now.entries }
        ensures { option_copied result
            ≡ option_and_then (λ (s : AnOpenSession). offered_kinds (offer_of s.state))
            (session_named (get (state_at self.now.states component).selectors selector)) }
    {
        session_kinds(
            &self.memory,
            self.components.as_slice(),
            component,
            selector,
        )
    }

    /// Returns the place of the component that serves a session. A selector of the component at a place names the session.
    /// Returns `None` if it names no session.
    pub fn server_of(&self, component: usize, selector: u64) -> Option<usize>
        requires { component < length self.now.entries }
        ensures { result
            ≡ server_named (get (state_at self.now.states component).selectors selector) }
    {
        let components = self.components.as_slice();
        match components[component].session(selector) {
            Ok((server, _)) => Some(server),
            Err(_) => None,
        }
    }

    /// Returns a selector of at most 4096 above which no selector of the component at a place names anything.
    pub fn last_selector(&self, component: usize) -> u64
        requires { component < length self.now.entries }
        ensures most { result ≤ 4096 }
        ensures none { (selector : ℕ) → result < selector →
            get (state_at self.now.states component).selectors selector ≡ None }
    {
        let components = self.components.as_slice();
        components[component].last_selector()
    }
}

impl Component {
    ghost use Rattle.std.specs.Prelude.{◌≡◌, ◌≤◌, ℕ, Some, IfSome};
    ghost use Rattle.std.specs.FinMap.{get};
    ghost use Rattle.std.specs.Option.{option_copied};
    ghost use Rattle.own_model.specs.Session.{Labelled, offer_of};
    ghost use Rattle.object_kinds.specs.Offered.{offered_kinds};
    ghost use Rattle.dataspace_core.specs.Store.{Store, IsOpenIn};
    ghost use Rattle.server_frame.specs.Frame.{AtRow, Row};
    ghost use Rattle.pd_core.specs.Answer.{quotas_account};
    ghost use Rattle.core_calls.specs.Quotas.{reserve_amounts};
    ghost use Rattle.pd_core.specs.Component.{kind_of, reserve_of, rows_of, own, IsSound, Serves};
    ghost use Rattle.own_model.specs.World.{account_by};
    ghost use Rattle.pd_core.specs.Core.{init_in};
    ghost use Rattle.pd_core.specs.Exit.{HasSelectorsTo};
    ghost use Rattle.pd_core.specs.Own.{Sessions};

    /// Returns limits and use of the component's account, all of them 0 after its exit.
    fn quotas(&self, memory: &Memory) -> Quotas
        requires { IsSound memory.now self.now }
        ensures { (sessions : Sessions) → quotas_account result
            ≡ account_by (kind_of self.now.role) (init_in memory.now self.now.role)
            (own sessions memory.now self.now).account }
    {
        match &self.role {
            Role::Script(script) => quotas_of(memory, script.account),
            Role::Server(account, _) => quotas_of(memory, *account),
            Role::Init(account) => quotas_of(memory, *account),
            Role::Gone => Quotas {
                ram_used: Ram(0),
                ram_limit: Ram(0),
                caps_used: Caps(0),
                caps_limit: Caps(0),
            },
        }
    }

    /// Returns what the component has in reserve: nothing for a server or after an exit.
    pub(crate) fn reserve(&self, memory: &Memory) -> Reserve
        requires { IfSome (reserve_of self.now) (IsOpenIn memory.now) }
        ensures { (sessions : Sessions) → reserve_amounts result
            ≡ (own sessions memory.now self.now).reserve }
    {
        match &self.role {
            Role::Script(script) => {
                let (ram, caps) = memory.limits(script.reserve);
                Reserve { ram, caps }
            }
            _ => Reserve {
                ram: Ram(0),
                caps: Caps(0),
            },
        }
    }

    /// Returns the greatest selector that the component has a place for, or 0 if it has none.
    #[tactic(auto, using(crate::proofs::QuotaLemmas::no_caps))]
    fn last_selector(&self) -> u64
        ensures all { HasSelectorsTo result self.now.role }
        ensures most { result ≤ 4096 }
    {
        match &self.role {
            Role::Script(script) => script.caps.places() as u64,
            Role::Server(..) | Role::Init(_) | Role::Gone => 0,
        }
    }

    /// Returns limits and use of the account of a session that the component serves.
    fn session_quotas(&self, memory: &Memory, id: SessionId) -> Quotas
        requires { Serves memory.now self.now id.0 }
        ensures { AtRow (rows_of memory.now self.now) id.0 (λ row.
            quotas_account result ≡ row.account) }
    {
        let Role::Server(_, host) = &self.role else {
            unreachable!()
        };
        quotas_of(memory, host.account(id))
    }

    /// Returns the kinds of objects that the component offers, or `None` if it offers none.
    fn kinds(&self) -> Option<&[ObjectKind]>
        ensures { (store : Store) (id : ℕ) (row : Row Labelled) →
            get (rows_of store self.now) id ≡ Some row →
            option_copied result ≡ offered_kinds (offer_of row.value.state) }
    {
        match &self.role {
            Role::Server(_, host) => host.kinds(),
            _ => None,
        }
    }
}

// The limits and the use of the account of the component at a place.
fn component_quotas(memory: &Memory, components: &[Component], place: usize) -> Quotas
    requires { IsCoreAt place memory.now components.now }
    ensures value { (places : Places) → quotas_account result
        ≡ account_at (world_of places memory.now components.now) place }
    ensures limits { (places : Places) → CountsLimits (quotas_account result)
        (init_at (world_of places memory.now components.now).inits (place + 1))
        (state_at (world_of places memory.now components.now).states place).account }
{
    components[place].quotas(memory)
}

// What the component at a place has in reserve.
fn component_reserve(memory: &Memory, components: &[Component], place: usize) -> Reserve
    requires { IsCoreAt place memory.now components.now }
    ensures { (places : Places) → reserve_amounts result
        ≡ (state_at (world_of places memory.now components.now).states place).reserve }
{
    components[place].reserve(memory)
}

// Limits and use of the account of the session that a selector names, or `None` if it names no session.
fn session_quotas(
    memory: &Memory,
    components: &[Component],
    place: usize,
    selector: u64,
) -> Option<Quotas>
    requires { IsCoreAt place memory.now components.now }
    ensures { (places : Places) → option_map quotas_account result
        ≡ option_map (λ (s : AnOpenSession). s.account) (session_named (get
        (state_at (world_of places memory.now components.now).states place).selectors selector)) }
{
    match components[place].session(selector) {
        Ok((server, session)) => Some(components[server].session_quotas(memory, session)),
        Err(_) => None,
    }
}

// The kinds of objects that the server of a session offers, whose selector this is, or `None`. The contract is about the memory.
fn session_kinds<'a>(
    memory: &Memory,
    components: &'a [Component],
    place: usize,
    selector: u64,
) -> Option<&'a [ObjectKind]>
    requires { IsCoreAt place memory.now components.now }
    ensures { (places : Places) → option_copied result
        ≡ option_and_then (λ (s : AnOpenSession). offered_kinds (offer_of s.state)) (session_named (get
        (state_at (world_of places memory.now components.now).states place).selectors selector)) }
{
    let _ = memory;
    match components[place].session(selector) {
        Ok((server, session)) => {
            let _ = session;
            components[server].kinds()
        }
        Err(_) => None,
    }
}
