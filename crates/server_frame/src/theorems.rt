//! Theorems for callers: a server has a place for each session that its client covers, and a client's writes to a buffer
//! leave all else as it was. The functions do nothing at run time.
ghost use Rattle.server_frame.specs.Theorems.{TableHasPlace, OpensAnAccount, LentArePaid, WritesLeaveSessions};

use crate::service::Service;

/// States that a table with a place for each two capabilities has a place for each session that can be paid for. The memory
/// must have room for the accounts of sessions. An open leaves that room (`dataspace_core::accounts_find_places`).
pub fn sessions_find_places<S: Service>()
    ensures table { TableHasPlace S.IsKept }
    ensures opens { OpensAnAccount S.Value }
{}

/// States that a session's buffer is a dataspace of the session's account. Bytes that are written to it between calls leave
/// the server and what each of its sessions is to its client.
pub fn lent_bytes_are_the_clients<S: Service>()
    ensures paid { (service : S) → LentArePaid S.IsKept (S.value service) S.buffer }
    ensures writes { (service : S) → WritesLeaveSessions S.IsKept (S.value service) S.buffer }
{}
