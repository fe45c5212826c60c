//! The trait of a service.
ghost use Rattle.std.specs.Prelude.{◌≡◌, ℕ, ◌≤◌, List, [], length, Option, None};
ghost use Rattle.own_model.specs.Account.{Account};
ghost use Rattle.dataspace_core.specs.Store.{account_in};
ghost use Rattle.dataspace_core.specs.Share.{Share};
ghost use Rattle.sliced_heap.specs.Heap.{payer_of, KeepsOthers};
ghost use Rattle.server_frame.specs.SessionBuffer.{AllLendAside, IsEffect, bytes_lent, key_of};
ghost use Rattle.server_frame.specs.Session.{Served, IsSessionAccount, IsSessionHeap, HasBlocksAlone, PaysFor, holding_at, holding_of};
ghost use Rattle.sliced_heap.specs.Sliced.{IsLinked};

use crate::effect::Effect;
use core_calls::{LONGEST_LABEL, Reply};
use dataspace_core::Memory;
use region_map::RegionMap;
use sliced_heap::SlicedHeap;
use trade_base::DsId;

/// A service: what a server stores for each session, and the replies to a session's requests.
///
/// All memory that a service stores for a session is charged to the session's account. A session may share one dataspace of
/// that account with its client, its buffer. The client writes to the buffer between requests.
pub trait Service {
    /// What the service stores for a session outside the memory.
    type State: Drop;

    // What a session is to its client, by the service, what it stores for the session, and what the session's account has.
    ghost Value: { Type 0 };

    ghost value: { Self → Self.State → Share → Value };

    // The key of the dataspace that a session shares with its client, if there is one.
    ghost buffer: { Self.State → Option ℕ };

    // The key of the account for which a session is stored.
    ghost payer: { Self.State → ℕ };

    // What is true of a session between its requests, by the key of its account and what that account has.
    ghost IsKept: { Self.State → ℕ → Share → Type 0 };

    // The value of a new session of the service with this label.
    ghost first: { Self → List ℕ → Value };

    // What a request of the service does, by the bytes of the buffer.
    ghost step: { Self → List ℕ → Account → Option (List ℕ) → Value → Served Value };

    /// Creates a session with this label. It owns the sliced heap of its account, to which all memory of the session is
    /// charged.
    fn open(&self, heap: SlicedHeap, label: &[u8]) -> Self::State
        requires { length label.now ≤ LONGEST_LABEL }
        ensures first { (share : Share) → HasBlocksAlone share →
            value self.now result share ≡ first self.now label.now }
        ensures kept { (share : Share) → HasBlocksAlone share → IsLinked share heap.first
            → IsKept result (payer_of heap) share }
        ensures buffer { buffer result ≡ None };

    /// Returns the dataspace that a session shares with its client as a buffer, or `None`.
    fn buffer(&self, state: &Self::State) -> Option<DsId>
        ensures { key_of result ≡ buffer state.now };

    /// Answers a request of a session and returns its effect on the session's buffer.
    fn serve(
        &self,
        state: &mut Self::State,
        memory: &mut Memory,
        map: &mut RegionMap,
        request: &[u8],
        reply: &mut Reply,
    ) -> Effect
        requires account { IsSessionAccount (payer state.old) memory.old map.old }
        requires kept { IsKept state.old (payer state.old)
            (holding_at (payer state.old) memory.old map.old) }
        requires reply { reply.old.lines ≡ [] }
        ensures served { record {
          text = reply.new.text;
          lines = reply.new.lines;
          account = account_in memory.new (payer state.new);
          value = value self.now state.new (holding_at (payer state.new) memory.new map.new);
          buffer = bytes_lent memory.new (buffer state.new);
        } ≡ step self.now request.now (account_in memory.old (payer state.old))
            (bytes_lent memory.old (buffer state.old))
            (value self.now state.old (holding_at (payer state.old) memory.old map.old)) }
        ensures effect { IsEffect result (buffer state.old) (buffer state.new) }
        ensures kept { IsKept state.new (payer state.new)
            (holding_at (payer state.new) memory.new map.new) }
        ensures account { IsSessionAccount (payer state.new) memory.new map.new }
        ensures payer { payer state.new ≡ payer state.old }
        ensures others { KeepsOthers (payer state.old) memory.old memory.new map.old map.new };

    /// Frees all that the service stores for a session, except the blocks of its sliced heap, and returns that heap. The
    /// session is over. It stays in its place, since a move would copy it.
    fn end(&self, state: &mut Self::State, memory: &mut Memory, map: &mut RegionMap) -> SlicedHeap
        requires account { IsSessionAccount (payer state.old) memory.old map.old }
        requires kept { IsKept state.old (payer state.old)
            (holding_at (payer state.old) memory.old map.old) }
        ensures blocks { HasBlocksAlone (holding_of result memory.new map.new) }
        ensures ram { (account_in memory.new (payer_of result)).ram_limit
            ≡ (account_in memory.old (payer state.old)).ram_limit }
        ensures caps { (account_in memory.new (payer_of result)).caps_limit
            ≡ (account_in memory.old (payer state.old)).caps_limit }
        ensures heap { IsSessionHeap result memory.new map.new }
        ensures payer { payer_of result ≡ payer state.old }
        ensures others { KeepsOthers (payer state.old) memory.old memory.new map.old map.new };

    // A session is stored for no account except the one that pays.
    ghost pays: { PaysFor IsKept payer };

    // A session's buffer is a dataspace of its account. Neither what the session is to its client nor what is true of it
    // depends on the buffer's bytes.
    ghost lends_aside: { (service : Self) → AllLendAside IsKept (value service) buffer };
}
