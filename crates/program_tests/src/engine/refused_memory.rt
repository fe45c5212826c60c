//! A boot that is out of memory, since any one allocation is refused (`rt try --test --fail-alloc N`). One of two tries reports
//! only that, and the other try is answered as usual.

use crate::engine::rows::{SECOND_FIRST, SECOND_LAST, TWO_FILE_SERVERS};
use crate::engine::tries::one_is_as_usual;
use init_core::{BootFault, MACHINE_A, StartList, boot, route};
use pd_core::{AnyServer, Reply};
use std::alloc::Global;
use std::process::Abort;
use trade_base::BuiltInService;

/// A machine with two file servers, and an init that starts the script and routes its requests outward.
const BELOW_AN_INIT: &str = r#"{"machine":{"pages":64,"caps":64},
 "default-route":[{"service":"File_system","label":"alice","child":"files2"}],
 "start":[
  {"name":"files","quantum":"16K","caps":8,"provides":["File_system"]},
  {"name":"sub","binary":"init","quantum":"80K","caps":20,"config":{
   "default-route":[{"any-service":true,"parent":true}],
   "start":[{"name":"alice","binary":"script","quantum":"64K","caps":16,"reserve":"4K"}]}},
  {"name":"files2","binary":"files","quantum":"16K","caps":8,"provides":["File_system"]}]}"#;

/// An init within another.
const NESTED: &str = r#"{"machine":{"pages":64,"caps":64},
 "start":[
  {"name":"a","binary":"init","quantum":"0","caps":0,"config":{
   "default-route":[{"service":"LOG","label":"x","parent":true}],
   "start":[
    {"name":"b","binary":"init","quantum":"0","caps":0,"config":{
     "start":[{"name":"alice","binary":"script","quantum":"0","caps":0,"route":[]}]}},
    {"name":"log","quantum":"0","caps":0,"provides":["LOG"]}]}}]}"#;

/// Lists, a client of each, and the server to which its request for files is routed.
const MACHINES: &[(&str, usize, Option<usize>)] = &[
    (MACHINE_A, 2, Some(1)),
    (TWO_FILE_SERVERS, 2, None),
    (SECOND_FIRST, 2, Some(4)),
    (SECOND_LAST, 2, None),
    (BELOW_AN_INIT, 2, Some(3)),
    (NESTED, 2, None),
];

// Returns no answer if the host was out of memory.
fn unless_wanted(fault: &BootFault) -> Option<bool> {
    match fault {
        BootFault::NoMemory => None,
        _ => Some(false),
    }
}

// Returns whether a list boots with all its components.
fn boots(alloc: Global, list: &StartList) -> Option<bool> {
    match boot(alloc, list) {
        Ok(core) => Some(core.count() == list.count()),
        Err(fault) => unless_wanted(&fault),
    }
}

// Returns whether a client's request for files is routed to this server, and one of two boots succeeds.
fn is_led(alloc: Global, list: &StartList, client: usize, leads: Option<usize>) -> bool {
    client < list.count()
        && route(list, client, b"File_system", b"") == leads
        && one_is_as_usual(boots(alloc, list), boots(alloc, list))
}

// Returns whether a text is read as a list of which this is true.
fn is_read(alloc: Global, text: &str, client: usize, leads: Option<usize>) -> Option<bool> {
    match StartList::read(alloc, text.as_bytes()) {
        Ok(list) => Some(is_led(alloc, &list, client, leads)),
        Err(fault) => unless_wanted(&fault),
    }
}

// Checks that each list of a table is read and booted, each twice.
fn check_all(rt: &impl Abort, alloc: Global, rows: &[(&str, usize, Option<usize>)]) {
    for (text, client, leads) in rows {
        let first = is_read(alloc, text, *client, *leads);
        let second = is_read(alloc, text, *client, *leads);
        assert!(rt; one_is_as_usual(first, second), "{text}");
    }
}

#[test]
fn out_of_memory_for_a_machine(rt: HostRuntime) {
    check_all(&rt, rt.alloc(), MACHINES);
}

// Returns whether a server boots.
fn serves(alloc: Global, service: BuiltInService) -> bool {
    AnyServer::boot(alloc, service, 2048, 4096).is_ok()
}

#[test]
fn out_of_memory_for_a_server(rt: HostRuntime) {
    for service in [BuiltInService::Log, BuiltInService::Files] {
        let (first, second) = (serves(rt.alloc(), service), serves(rt.alloc(), service));
        assert!(rt; first || second, "one of two servers");
    }
}

// Returns whether a reply boots.
fn replies(alloc: Global) -> bool {
    Reply::boot(alloc).is_ok()
}

#[test]
fn out_of_memory_for_a_reply(rt: HostRuntime) {
    let (first, second) = (replies(rt.alloc()), replies(rt.alloc()));
    assert!(rt; first || second, "one of two replies");
}

// Returns whether a text that is no JSON is reported as such.
fn is_no_json(alloc: Global) -> Option<bool> {
    match StartList::read(alloc, b"{") {
        Err(BootFault::BadJson) => Some(true),
        Err(BootFault::NoMemory) => None,
        _ => Some(false),
    }
}

#[test]
fn out_of_memory_for_a_text_that_is_no_json(rt: HostRuntime) {
    assert!(rt; one_is_as_usual(is_no_json(rt.alloc()), is_no_json(rt.alloc())));
}
