//! The routes of requests of inits, which no line of a scenario can make.

use init_core::{StartList, route};
use std::process::Abort;
use std::test::Fail;

/// An init within another. Both route outward, and the machine's list decides by the names of the inits and the label.
const LED_OUT: &str = r#"{"machine":{"pages":64,"caps":64},
 "default-route":[
  {"service":"LOG","label":"b -> alice","child":"log"},
  {"service":"LOG","label_prefix":"b -> alice -> x","child":"log2"},
  {"service":"LOG","label_suffix":" -> z","child":"log"},
  {"service":"File_system","parent":true}],
 "start":[
  {"name":"log","quantum":"0","caps":0,"provides":["LOG"]},
  {"name":"log2","binary":"log","quantum":"0","caps":0,"provides":["LOG"]},
  {"name":"a","binary":"init","quantum":"0","caps":0,"config":{
   "default-route":[{"any-service":true,"parent":true}],
   "start":[
    {"name":"b","binary":"init","quantum":"0","caps":0,"config":{
     "start":[{"name":"alice","binary":"script","quantum":"0","caps":0}]}}]}}]}"#;

/// A session request: an init's path, the service, the label, and the path of the server to which it is routed, or `nobody`.
type InitRequest = (&'static str, &'static str, &'static str, &'static [u8]);

const WISHES: &[InitRequest] = &[
    ("a/b", "LOG", "alice", b"log"),
    ("a/b", "LOG", "alice -> xy", b"log2"),
    ("a/b", "LOG", "", b"nobody"),
    ("a/b", "LOG", "z", b"log"),
    ("a/b", "File_system", "alice", b"nobody"),
    ("a", "LOG", "b -> alice", b"log"),
    ("a", "LOG", "z", b"nobody"),
    ("a", "LOG", "b -> z", b"log"),
];

// Returns the path of the server to which a request is routed, or `nobody`. Returns none if the list doesn't have the client.
fn led<'a>(list: &'a StartList, client: &str, service: &str, label: &str) -> Option<&'a [u8]> {
    let client = list.find(client.as_bytes())?;
    if client >= list.count() || label.len() > 64 {
        return None;
    }
    match route(list, client, service.as_bytes(), label.as_bytes()) {
        Some(server) if server < list.count() => Some(list.name(server)),
        Some(_) => None,
        None => Some(b"nobody"),
    }
}

// Checks that each request of a table is routed to its server.
fn check_all(rt: &impl Abort, list: &StartList, wishes: &[InitRequest]) {
    for (client, service, label, want) in wishes {
        assert!(rt;
            led(list, client, service, label) == Some(*want),
            "of {label}"
        );
    }
}

#[test]
fn requests_of_inits_are_routed_outward(rt: HostRuntime) -> Result<(), Fail> {
    let list = StartList::read(rt.alloc(), LED_OUT.as_bytes())?;
    check_all(&rt, &list, WISHES);
    Ok(())
}
