//! A server of any of the services.
ghost use Rattle.std.specs.Prelude.{◌≡◌, ◌+◌, ◌*◌, ◌≤◌, [], length, is_some, IfOk, OnOk, OnErr};
ghost use Rattle.std.specs.FinMap.{get, insert};
ghost use Rattle.std.specs.Result.{result_err};
ghost use Rattle.own_model.specs.Account.{shortage};
ghost use Rattle.own_model.specs.Donation.{raised};
ghost use Rattle.own_model.specs.ObjectKinds.{AreObjectKinds};
ghost use Rattle.own_model.specs.Offer.{offer_of_service};
ghost use Rattle.own_model.specs.Offer.Offer.{OffersObjects};
ghost use Rattle.own_model.specs.Session.{donation_refusal, state_at_first};
ghost use Rattle.server_frame.specs.Memory.{Store, account_in, ram_limits_in, caps_limits_in, RaisesPart};
ghost use Rattle.server_frame.specs.Frame.{AtRow, row_served, sessions_of, IsServer, OpensSession, ServesSession, ClosesSession};
ghost use Rattle.server_kinds.specs.Host.{CanOpen};
ghost use Rattle.server_frame.specs.SessionBuffer.{key_of};
ghost use Rattle.server_frame.specs.Session.{service_step};

use file_service::FileService;
use log_service::LogService;
use object_kinds::ObjectKind;
use object_service::ObjectService;
use server_frame::{Effect, LONGEST_LABEL, Memory, Reply, Server, Service};
use std::alloc::Global;
use trade_base::{AccountId, BuiltInService, Caps, DsId, NoMemory, Ram, Refusal, SessionId};

/// A server of any service. Its calls are those of `Server`.
#[derive(Drop)]
pub enum AnyServer {
    /// A server of the log service.
    Log(Server<LogService>),
    /// A server of the file service.
    Files(Server<FileService>),
    /// A declared server.
    Declared(Server<ObjectService>),
}

impl AnyServer {
    ghost use Rattle.std.specs.Option.{option_copied};
    ghost use Rattle.object_kinds.specs.Offered.{offered_kinds};
    ghost use Rattle.server_kinds.specs.Host.{offer_of, rows_of, Admits, HasSession, IsNew, Serves, StaysServer};

    /// Returns a server of a built-in service without sessions, with places for `sessions`, on a machine of `pages` pages. Returns
    /// `NoMemory` if the host is out of memory.
    #[tactic(auto, using(crate::proofs::HostLaws::new_host))]
    pub fn boot(
        alloc: Global,
        service: BuiltInService,
        sessions: usize,
        pages: usize,
    ) -> Result<AnyServer, NoMemory>
        requires { pages ≤ 4096 }
        ensures service { IfOk result (λ host. offer_of host ≡ offer_of_service service) }
        ensures new { IfOk result (λ host. (store : Store) →
            ram_limits_in store ≡ pages * 4096 → caps_limits_in store ≤ sessions * 2 + 1 →
            IsNew store host) }
    {
        match service {
            BuiltInService::Log => {
                let server = Server::boot(alloc, LogService, sessions, pages)?;
                Ok(AnyServer::Log(server))
            }
            BuiltInService::Files => {
                let server = Server::boot(alloc, FileService, sessions, pages)?;
                Ok(AnyServer::Files(server))
            }
        }
    }

    /// Returns a declared server without sessions, which offers objects of these kinds, as `boot` returns one of a service.
    #[tactic(auto, using(crate::proofs::HostLaws::new_host))]
    pub fn boot_declared(
        alloc: Global,
        kinds: Vec<ObjectKind>,
        sessions: usize,
        pages: usize,
    ) -> Result<AnyServer, NoMemory>
        requires kinds { AreObjectKinds kinds.items }
        requires pages { pages ≤ 4096 }
        ensures offer { IfOk result (λ host. offer_of host ≡ OffersObjects kinds.items) }
        ensures new { IfOk result (λ host. (store : Store) →
            ram_limits_in store ≡ pages * 4096 → caps_limits_in store ≤ sessions * 2 + 1 →
            IsNew store host) }
    {
        let server = Server::boot(alloc, ObjectService::new(kinds), sessions, pages)?;
        Ok(AnyServer::Declared(server))
    }

    /// Returns the kinds of objects that a declared server offers, or `None` for a server of a built-in service.
    pub fn kinds(&self) -> Option<&[ObjectKind]>
        ensures { option_copied result ≡ offered_kinds (offer_of self.now) }
    {
        match self {
            AnyServer::Log(_) | AnyServer::Files(_) => None,
            AnyServer::Declared(server) => Some(server.service().kinds()),
        }
    }

    /// Returns whether a session is open under this key.
    pub fn is_open(&self, id: SessionId) -> bool
        ensures { (store : Store) → result ≡ is_some (get (rows_of store self.now) id.0) }
    {
        match self {
            AnyServer::Log(server) => server.is_open(id),
            AnyServer::Files(server) => server.is_open(id),
            AnyServer::Declared(server) => server.is_open(id),
        }
    }

    /// Returns the account of the open session under this key.
    pub fn account(&self, id: SessionId) -> AccountId
        requires { HasSession self.now id.0 }
        ensures { (store : Store) → AtRow (rows_of store self.now) id.0 (λ row.
            result.0 ≡ row.key) }
    {
        match self {
            AnyServer::Log(server) => server.account(id),
            AnyServer::Files(server) => server.account(id),
            AnyServer::Declared(server) => server.account(id),
        }
    }

    /// Returns the dataspace that a session shares with its client as a buffer, or `None`.
    pub fn buffer(&self, id: SessionId) -> Option<DsId>
        requires { HasSession self.now id.0 }
        ensures { (store : Store) → AtRow (rows_of store self.now) id.0 (λ row.
            key_of result ≡ row.buffer) }
    {
        match self {
            AnyServer::Log(server) => server.buffer(id),
            AnyServer::Files(server) => server.buffer(id),
            AnyServer::Declared(server) => server.buffer(id),
        }
    }

    /// Opens a session for a client's account with its donation: RAM in bytes, and capabilities. Refuses as `Server::open`
    /// does, and then changes nothing.
    pub fn open(
        &mut self,
        memory: &mut Memory,
        client: AccountId,
        label: &[u8],
        ram: Ram,
        caps: Caps,
    ) -> Result<SessionId, Refusal>
        requires admits { Admits memory.old self.old client.0 ram.0 caps.0 }
        requires label { length label.now ≤ LONGEST_LABEL }
        ensures refusal { result_err result
            ≡ donation_refusal (account_in memory.old client.0) ram.0 caps.0 }
        ensures opens { IfOk result (λ id.
            OpensSession client.0 ram.0 caps.0 id.0 (record {
              label = label.now;
              state = state_at_first (offer_of self.old);
            }) memory.old memory.new
            (rows_of memory.old self.old) (rows_of memory.new self.new)) }
        ensures stays { StaysServer memory.old self.old memory.new self.new }
        ensures err { OnErr result (self.new ≡ self.old) }
        ensures memory_err { OnErr result (memory.new ≡ memory.old) }
    {
        match self {
            AnyServer::Log(server) => open(server, memory, client, label, ram, caps),
            AnyServer::Files(server) => open(server, memory, client, label, ram, caps),
            AnyServer::Declared(server) => open(server, memory, client, label, ram, caps),
        }
    }

    /// Moves limits from the client's account to a session's account: RAM in bytes, and capabilities. Refuses with
    /// `OutOfRam`, then `OutOfCaps`, if the client's account does not cover them.
    pub fn raise(
        &mut self,
        memory: &mut Memory,
        id: SessionId,
        ram: Ram,
        caps: Caps,
    ) -> Result<(), Refusal>
        requires { Serves memory.old self.old id.0 }
        ensures refusal { AtRow (rows_of memory.old self.old) id.0 (λ row.
            result_err result ≡ shortage (account_in memory.old row.client) ram.0 caps.0) }
        ensures raises { AtRow (rows_of memory.old self.old) id.0 (λ row.
            OnOk result (RaisesPart row.client row.key ram.0 caps.0 memory.old memory.new)) }
        ensures sessions { AtRow (rows_of memory.old self.old) id.0 (λ row.
            OnOk result (rows_of memory.new self.new
            ≡ insert (rows_of memory.old self.old) id.0
            (record row { account = raised row.account ram.0 caps.0 }))) }
        ensures stays { StaysServer memory.old self.old memory.new self.new }
        ensures same { self.new ≡ self.old }
        ensures memory_err { OnErr result (memory.new ≡ memory.old) }
    {
        match self {
            AnyServer::Log(server) => server.upgrade(memory, id, ram, caps),
            AnyServer::Files(server) => server.upgrade(memory, id, ram, caps),
            AnyServer::Declared(server) => server.upgrade(memory, id, ram, caps),
        }
    }

    /// Answers a request of a session and returns its effect on the session's buffer.
    pub fn serve(
        &mut self,
        memory: &mut Memory,
        id: SessionId,
        request: &[u8],
        reply: &mut Reply,
    ) -> Effect
        requires serves { Serves memory.old self.old id.0 }
        requires reply { reply.old.lines ≡ [] }
        ensures text { AtRow (rows_of memory.old self.old) id.0 (λ row.
            reply.new.text ≡ (row_served service_step request.now memory.old row).text) }
        ensures lines { AtRow (rows_of memory.old self.old) id.0 (λ row.
            reply.new.lines ≡ (row_served service_step request.now memory.old row).lines) }
        ensures serves { AtRow (rows_of memory.old self.old) id.0 (λ row.
            ServesSession row id.0 result (row_served service_step request.now memory.old row)
            memory.old memory.new (rows_of memory.old self.old) (rows_of memory.new self.new)) }
        ensures stays { StaysServer memory.old self.old memory.new self.new }
    {
        match self {
            AnyServer::Log(server) => server.serve(memory, id, request, reply),
            AnyServer::Files(server) => server.serve(memory, id, request, reply),
            AnyServer::Declared(server) => server.serve(memory, id, request, reply),
        }
    }

    /// Closes a session and returns its account's limits to its client's account.
    pub fn close(&mut self, memory: &mut Memory, id: SessionId)
        requires { Serves memory.old self.old id.0 }
        ensures closes { ClosesSession id.0 memory.old memory.new
            (rows_of memory.old self.old) (rows_of memory.new self.new) }
        ensures stays { StaysServer memory.old self.old memory.new self.new }
    {
        match self {
            AnyServer::Log(server) => server.close(memory, id),
            AnyServer::Files(server) => server.close(memory, id),
            AnyServer::Declared(server) => server.close(memory, id),
        }
    }
}

// Opens a session of any server. Its contract is one fact, so that the proof is the same for all servers.
fn open<S: Service + Drop>(
    server: &mut Server<S>,
    memory: &mut Memory,
    client: AccountId,
    label: &[u8],
    ram: Ram,
    caps: Caps,
) -> Result<SessionId, Refusal>
    requires can { CanOpen S.IsKept
        server.old.sessions memory.old server.old.map client.0 ram.0 caps.0 }
    requires label { length label.now ≤ LONGEST_LABEL }
    ensures refusal { result_err result
        ≡ donation_refusal (account_in memory.old client.0) ram.0 caps.0 }
    ensures server { IsServer S.IsKept server.new.sessions memory.new server.new.map }
    ensures opens { IfOk result (λ id.
        OpensSession client.0 ram.0 caps.0 id.0 (S.first server.old.service label.now) memory.old memory.new
        (sessions_of (S.value server.old.service) S.buffer server.old.sessions memory.old server.old.map)
        (sessions_of (S.value server.new.service) S.buffer server.new.sessions memory.new server.new.map)) }
    ensures service { server.new.service ≡ server.old.service }
    ensures places { server.new.sessions.capacity ≡ server.old.sessions.capacity }
    ensures machine { ram_limits_in memory.new ≡ ram_limits_in memory.old }
    ensures err { OnErr result (server.new ≡ server.old) }
    ensures memory_err { OnErr result (memory.new ≡ memory.old) }
{
    server.open(memory, client, label, ram, caps)
}
