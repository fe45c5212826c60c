//! Sessions, each on an account of its own.
ghost use Rattle.std.specs.Prelude.{◌≡◌, ◌*◌, ◌<◌, ◌≤◌, [], Some, None, is_some, IfOk, IfSome, OnOk, OnErr, length};
ghost use Rattle.std.specs.Result.{result_err};
ghost use Rattle.std.specs.FinMap.{get, insert};
ghost use Rattle.slab.specs.Slab.{ContainsKey, slab_len};
ghost use Rattle.slab.specs.Slab as slab;
ghost use Rattle.own_model.specs.Account.{shortage};
ghost use Rattle.own_model.specs.Donation.{raised};
ghost use Rattle.own_model.specs.Session.{donation_refusal};
ghost use Rattle.region_map.specs.Regions.{fresh_regions};
ghost use Rattle.dataspace_core.specs.Store.{Store, account_in, ram_limits_in, IsOpenIn, room_in, RaisesPart};
ghost use Rattle.server_frame.specs.Frame.{sessions_of, row_served, AtSession, IsServer, IsNoSession, OpensSession, ServesSession, ClosesSession};
ghost use Rattle.server_frame.specs.SessionBuffer.{key_of};

use crate::effect::Effect;
use crate::service::Service;
use crate::session_account::{close_session_account, open_session_account, test_donation};
use core_calls::{LONGEST_LABEL, Reply};
use dataspace_core::Memory;
use region_map::RegionMap;
use slab::Slab;
use std::alloc::Global;
use trade_base::{AccountId, Caps, DsId, NoMemory, Ram, Refusal, SessionId};

/// A session: its account, its client's account, and what the service stores for it.
#[derive(Drop)]
struct Session<T: Drop> {
    account: AccountId,
    client: AccountId,
    state: T,
}

/// A server: a service, its sessions, and the map at which all that they store is attached.
#[derive(Drop)]
pub struct Server<S: Service + Drop> {
    service: S,
    sessions: Slab<Session<S::State>>,
    map: RegionMap,
}

impl<S: Service + Drop> Server<S> {
    /// Returns a server without sessions, with at least `sessions` places, for a machine of `pages` pages. Returns
    /// `NoMemory` if the host is out of memory. No later call allocates memory of the host.
    pub fn boot(
        alloc: Global,
        service: S,
        sessions: usize,
        pages: usize,
    ) -> Result<Server<S>, NoMemory>
        requires pages { pages ≤ 4096 }
        ensures service { IfOk result (λ server. server.service ≡ service) }
        ensures none { IfOk result (λ server. server.sessions.slots ≡ []) }
        ensures places { IfOk result (λ server. sessions ≤ server.sessions.capacity) }
        ensures map { IfOk result (λ server. server.map ≡ fresh_regions 0 pages pages) }
        ensures server { IfOk result (λ server.
            (store : Store) → ram_limits_in store ≡ pages * 4096 →
            IsServer S.IsKept server.sessions store server.map) }
    {
        let table = Slab::with_capacity(alloc, sessions).map_err(|_| NoMemory)?;
        let map = RegionMap::boot(alloc, 0, pages, pages)?;
        Ok(Server {
            service,
            sessions: table,
            map,
        })
    }

    /// Returns the service.
    pub fn service(&self) -> &S
        ensures { result.now ≡ self.now.service }
    {
        &self.service
    }

    /// Returns whether a session is open under this key.
    pub fn is_open(&self, id: SessionId) -> bool
        ensures session { result ≡ is_some (slab.get self.now.sessions id.0) }
        ensures row { (store : Store) → result ≡ is_some (get
            (sessions_of (S.value self.now.service) S.buffer self.now.sessions store self.now.map) id.0) }
    {
        self.sessions.contains(id.0)
    }

    /// Returns the account of the open session under this key.
    pub fn account(&self, id: SessionId) -> AccountId
        requires { ContainsKey self.now.sessions id.0 }
        ensures session { IfSome (slab.get self.now.sessions id.0)
            (λ session. result ≡ session.account) }
        ensures row { (store : Store) →
            AtSession (S.value self.now.service) S.buffer self.now.sessions store self.now.map id.0 (λ row.
            result.0 ≡ row.key) }
    {
        self.sessions[id.0].account
    }

    /// Returns the dataspace that a session shares with its client as a buffer, or `None`.
    pub fn buffer(&self, id: SessionId) -> Option<DsId>
        requires { ContainsKey self.now.sessions id.0 }
        ensures session { IfSome (slab.get self.now.sessions id.0) (λ session.
            key_of result ≡ S.buffer session.state) }
        ensures row { (store : Store) →
            AtSession (S.value self.now.service) S.buffer self.now.sessions store self.now.map id.0 (λ row.
            key_of result ≡ row.buffer) }
    {
        self.service.buffer(&self.sessions[id.0].state)
    }

    /// Opens a session on an account of its own and returns its key. The donation of its client is RAM in bytes, and
    /// capabilities. The account is charged for the session and for an object of 256 bytes.
    ///
    /// Refuses with `OutOfRam`, then `OutOfCaps`, if the client's account does not cover the donation. Then refuses with
    /// `InsufficientRamQuota`, then `InsufficientCapQuota`, if the donation is less than a session uses from the start. A
    /// refused call changes nothing.
    pub fn open(
        &mut self,
        memory: &mut Memory,
        client: AccountId,
        label: &[u8],
        ram: Ram,
        caps: Caps,
    ) -> Result<SessionId, Refusal>
        requires server { IsServer S.IsKept self.old.sessions memory.old self.old.map }
        requires client { IsOpenIn memory.old client.0 }
        requires no_session { IsNoSession self.old.sessions client.0 }
        requires label { length label.now ≤ LONGEST_LABEL }
        requires place { donation_refusal (account_in memory.old client.0) ram.0 caps.0 ≡ None →
            slab_len self.old.sessions < self.old.sessions.capacity }
        requires room { donation_refusal (account_in memory.old client.0) ram.0 caps.0 ≡ None →
            0 < room_in memory.old }
        ensures refusal { result_err result
            ≡ donation_refusal (account_in memory.old client.0) ram.0 caps.0 }
        ensures server { IsServer S.IsKept self.new.sessions memory.new self.new.map }
        ensures opens { IfOk result (λ id.
            OpensSession client.0 ram.0 caps.0 id.0 (S.first self.old.service label.now) memory.old memory.new
            (sessions_of (S.value self.old.service) S.buffer self.old.sessions memory.old self.old.map)
            (sessions_of (S.value self.new.service) S.buffer self.new.sessions memory.new self.new.map)) }
        ensures service { self.new.service ≡ self.old.service }
        ensures places { self.new.sessions.capacity ≡ self.old.sessions.capacity }
        ensures machine { ram_limits_in memory.new ≡ ram_limits_in memory.old }
        ensures err { OnErr result (self.new ≡ self.old) }
        ensures memory_err { OnErr result (memory.new ≡ memory.old) }
    {
        test_donation(memory, client, ram, caps)?;
        let (account, heap) = open_session_account(memory, &mut self.map, client, ram, caps)?;
        let state = self.service.open(heap, label);
        let id = self.sessions.insert_reserved(Session {
            account,
            client,
            state,
        });
        Ok(SessionId(id))
    }

    /// Moves limits from the client's account to the session's account: RAM in bytes, and capabilities.
    ///
    /// Refuses with `OutOfRam`, then `OutOfCaps`, if the client's account does not cover them. A refused call changes
    /// nothing.
    pub fn upgrade(
        &mut self,
        memory: &mut Memory,
        id: SessionId,
        ram: Ram,
        caps: Caps,
    ) -> Result<(), Refusal>
        requires server { IsServer S.IsKept self.old.sessions memory.old self.old.map }
        requires open { ContainsKey self.old.sessions id.0 }
        ensures refusal { AtSession (S.value self.old.service) S.buffer
            self.old.sessions memory.old self.old.map id.0 (λ row.
            result_err result ≡ shortage (account_in memory.old row.client) ram.0 caps.0) }
        ensures server { IsServer S.IsKept self.new.sessions memory.new self.new.map }
        ensures raises { AtSession (S.value self.old.service) S.buffer
            self.old.sessions memory.old self.old.map id.0 (λ row.
            OnOk result (RaisesPart row.client row.key ram.0 caps.0 memory.old memory.new)) }
        ensures sessions { AtSession (S.value self.old.service) S.buffer
            self.old.sessions memory.old self.old.map id.0 (λ row.
            OnOk result (sessions_of (S.value self.new.service) S.buffer self.new.sessions memory.new self.new.map
            ≡ insert (sessions_of (S.value self.old.service) S.buffer self.old.sessions memory.old self.old.map) id.0
            (record row { account = raised row.account ram.0 caps.0 }))) }
        ensures same { self.new ≡ self.old }
        ensures machine { ram_limits_in memory.new ≡ ram_limits_in memory.old }
        ensures memory_err { OnErr result (memory.new ≡ memory.old) }
    {
        let session = &self.sessions[id.0];
        memory.raise(session.client, session.account, ram, caps)
    }

    /// Answers a request of a session and returns its effect on the session's buffer.
    pub fn serve(
        &mut self,
        memory: &mut Memory,
        id: SessionId,
        request: &[u8],
        reply: &mut Reply,
    ) -> Effect
        requires server { IsServer S.IsKept self.old.sessions memory.old self.old.map }
        requires open { ContainsKey self.old.sessions id.0 }
        requires reply { reply.old.lines ≡ [] }
        ensures server { IsServer S.IsKept self.new.sessions memory.new self.new.map }
        ensures text { AtSession (S.value self.old.service) S.buffer
            self.old.sessions memory.old self.old.map id.0 (λ row.
            reply.new.text ≡ (row_served (S.step self.old.service) request.now memory.old row).text) }
        ensures lines { AtSession (S.value self.old.service) S.buffer
            self.old.sessions memory.old self.old.map id.0 (λ row.
            reply.new.lines ≡ (row_served (S.step self.old.service) request.now memory.old row).lines) }
        ensures serves { AtSession (S.value self.old.service) S.buffer
            self.old.sessions memory.old self.old.map id.0 (λ row.
            ServesSession row id.0 result (row_served (S.step self.old.service) request.now memory.old row)
            memory.old memory.new
            (sessions_of (S.value self.old.service) S.buffer self.old.sessions memory.old self.old.map)
            (sessions_of (S.value self.new.service) S.buffer self.new.sessions memory.new self.new.map)) }
        ensures service { self.new.service ≡ self.old.service }
        ensures places { self.new.sessions.capacity ≡ self.old.sessions.capacity }
        ensures machine { ram_limits_in memory.new ≡ ram_limits_in memory.old }
    {
        let session = &mut self.sessions[id.0];
        self.service
            .serve(&mut session.state, memory, &mut self.map, request, reply)
    }

    /// Closes a session: frees all that it has and returns its account's limits to its client's account. The function is
    /// not inlined, because each call of its caller would clear a place for a session of this service.
    #[inline(never)]
    pub fn close(&mut self, memory: &mut Memory, id: SessionId)
        requires server { IsServer S.IsKept self.old.sessions memory.old self.old.map }
        requires open { ContainsKey self.old.sessions id.0 }
        ensures server { IsServer S.IsKept self.new.sessions memory.new self.new.map }
        ensures closes { ClosesSession id.0 memory.old memory.new
            (sessions_of (S.value self.old.service) S.buffer self.old.sessions memory.old self.old.map)
            (sessions_of (S.value self.new.service) S.buffer self.new.sessions memory.new self.new.map) }
        ensures service { self.new.service ≡ self.old.service }
        ensures places { self.new.sessions.capacity ≡ self.old.sessions.capacity }
        ensures machine { ram_limits_in memory.new ≡ ram_limits_in memory.old }
    {
        let closed = &mut self.sessions[id.0];
        let account = closed.account;
        let heap = self.service.end(&mut closed.state, memory, &mut self.map);
        let _gone = self.sessions.remove(id.0);
        close_session_account(memory, &mut self.map, account, heap);
    }
}
