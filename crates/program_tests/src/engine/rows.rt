//! Worked rows on other machines than the built-in one: each a scenario on the machine of a start list, and its transcript.

use cli_engine::{Task, run_bytes};
use std::alloc::{AllocError, Global};
use std::process::Abort;
use std::test::Fail;

/// A run that prints the replies only.
pub const PLAIN: Task<'static> = Task::Run {
    accounts: false,
    only: None,
};

/// A run that prints the replies, and the account list after them.
pub const LISTED: Task<'static> = Task::Run {
    accounts: true,
    only: None,
};

/// A worked row: a scenario on the machine of a start list, with its transcript.
#[derive(Clone, Copy)]
struct WorkedRow<'a> {
    /// What the row shows.
    shows: &'static str,
    /// The start list.
    list: &'static str,
    /// The task on the list's machine.
    task: Task<'static>,
    /// The lines of the scenario.
    scenario: &'a [u8],
    /// The transcript that is expected.
    transcript: &'a [u8],
}

/// A machine of one script, with more than the built-in machine gives one script.
const MACHINE_B: &str = r#"{"machine":{"pages":64,"caps":64},
 "start":[{"name":"alice","binary":"script","quantum":"160K","caps":40}]}"#;

/// The built-in machine with a second file server.
pub const TWO_FILE_SERVERS: &str = r#"{"machine":{"pages":64,"caps":64},
 "default-route":[{"any-service":true,"any-child":true}],
 "start":[
  {"name":"log","quantum":"16K","caps":8,"provides":["LOG"]},
  {"name":"files","quantum":"16K","caps":8,"provides":["File_system"]},
  {"name":"alice","binary":"script","quantum":"64K","caps":16},
  {"name":"bob","binary":"script","quantum":"64K","caps":16},
  {"name":"files2","binary":"files","quantum":"16K","caps":8,"provides":["File_system"]}]}"#;

/// The same machine, with a route of alice's whose first rule takes the second server.
pub const SECOND_FIRST: &str = r#"{"machine":{"pages":64,"caps":64},
 "default-route":[{"any-service":true,"any-child":true}],
 "start":[
  {"name":"log","quantum":"16K","caps":8,"provides":["LOG"]},
  {"name":"files","quantum":"16K","caps":8,"provides":["File_system"]},
  {"name":"alice","binary":"script","quantum":"64K","caps":16,
   "route":[{"service":"File_system","child":"files2"},{"any-service":true,"any-child":true}]},
  {"name":"bob","binary":"script","quantum":"64K","caps":16},
  {"name":"files2","binary":"files","quantum":"16K","caps":8,"provides":["File_system"]}]}"#;

/// The same machine, with a route of alice's whose last rule takes the second server.
pub const SECOND_LAST: &str = r#"{"machine":{"pages":64,"caps":64},
 "default-route":[{"any-service":true,"any-child":true}],
 "start":[
  {"name":"log","quantum":"16K","caps":8,"provides":["LOG"]},
  {"name":"files","quantum":"16K","caps":8,"provides":["File_system"]},
  {"name":"alice","binary":"script","quantum":"64K","caps":16,
   "route":[{"any-service":true,"any-child":true},{"service":"File_system","child":"files2"}]},
  {"name":"bob","binary":"script","quantum":"64K","caps":16},
  {"name":"files2","binary":"files","quantum":"16K","caps":8,"provides":["File_system"]}]}"#;

/// The built-in machine with a reserve of alice's.
const RESERVED: &str = r#"{"machine":{"pages":64,"caps":64},
 "default-route":[{"any-service":true,"any-child":true}],
 "start":[
  {"name":"log","quantum":"16K","caps":8,"provides":["LOG"]},
  {"name":"files","quantum":"16K","caps":8,"provides":["File_system"]},
  {"name":"alice","binary":"script","quantum":"64K","caps":16,"reserve":"8K","reserve-caps":2},
  {"name":"bob","binary":"script","quantum":"64K","caps":16}]}"#;

/// An init next to a log server, with two scripts of its own, of which one may log.
const NESTED: &str = r#"{"machine":{"pages":64,"caps":64},"start":[
  {"name":"log","quantum":"16K","caps":8,"provides":["LOG"]},
  {"name":"sub","binary":"init","quantum":"128K","caps":32,
   "route":[{"service":"LOG","label_prefix":"carol","child":"log"}],
   "config":{"default-route":[{"any-service":true,"parent":true}],"start":[
    {"name":"carol","binary":"script","quantum":"64K","caps":16},
    {"name":"dave","binary":"script","quantum":"32K","caps":8}]}}]}"#;

/// A log server, and a client with the capabilities of forty sessions.
const FORTY: &str = r#"{"machine":{"pages":128,"caps":128},
 "default-route":[{"any-service":true,"any-child":true}],
 "start":[{"name":"log","quantum":"16K","caps":8,"provides":["LOG"]},
          {"name":"alice","binary":"script","quantum":"400K","caps":80}]}"#;

/// A line that opens a session of the log.
const OPENED: &[u8] = b"alice open LOG ram_quota=4K, cap_quota=2\n";

const ROWS: &[WorkedRow<'static>] = &[
    WorkedRow {
        shows: "large_blocks_stand_alone, on a larger account",
        list: MACHINE_B,
        task: PLAIN,
        scenario: b"alice new 65535
alice new 65536
alice quota
alice del 0x100011000
alice quota
",
        transcript: b"alice: at 0x100000010
alice: at 0x100011000
alice: ram 135168/163840 caps 2/40
alice: ok
alice: ram 69632/163840 caps 1/40
",
    },
    WorkedRow {
        shows: "routes_decide_between_providers",
        list: TWO_FILE_SERVERS,
        task: PLAIN,
        scenario: b"alice open File_system ram_quota=4K, cap_quota=2\n",
        transcript: b"alice: Service_denied\n",
    },
    WorkedRow {
        shows: "routes_decide_between_providers, by an own route",
        list: SECOND_FIRST,
        task: PLAIN,
        scenario: b"alice open File_system ram_quota=4K, cap_quota=2\n",
        transcript: b"alice: cap 1\n",
    },
    WorkedRow {
        shows: "routes_decide_between_providers, by the first rule",
        list: SECOND_LAST,
        task: PLAIN,
        scenario: b"alice open File_system ram_quota=4K, cap_quota=2\n",
        transcript: b"alice: Service_denied\n",
    },
    WorkedRow {
        shows: "reserve_requests_and_yields",
        list: RESERVED,
        task: LISTED,
        scenario: b"alice reserve
alice alloc 65536
alice alloc 1
alice request ram_quota=4K
alice alloc 1
alice request ram_quota=8K, cap_quota=3
alice request cap_quota=3
alice request ram_quota=x
alice quota
alice yield ram_quota=1
alice free 2
alice yield ram_quota=4K, cap_quota=15
alice quota
alice reserve
bob request ram_quota=1
alice exit
",
        transcript: b"alice: ram 8192 caps 2
alice: cap 1
alice: Out_of_ram
alice: ok
alice: cap 2
alice: Out_of_ram
alice: Out_of_caps
alice: Bad_args
alice: ram 69632/69632 caps 2/16
alice: Out_of_ram
alice: ok
alice: ok
alice: ram 65536/65536 caps 1/1
alice: ram 8192 caps 17
bob: Out_of_ram
alice: ok
account init ram 0/163840 caps 0/32
account log ram 0/16384 caps 0/8
account files ram 0/16384 caps 0/8
account alice ram 0/0 caps 0/0
reserve alice ram 0 caps 0
account bob ram 0/65536 caps 0/16
total ram 262144 caps 64
",
    },
    WorkedRow {
        shows: "init_within_init",
        list: NESTED,
        task: LISTED,
        scenario: br#"sub/carol open LOG ram_quota=4K, cap_quota=2, label="main"
sub/carol call 1 WRITE 68690a
sub/dave open LOG ram_quota=4K, cap_quota=2
sub quota
carol quota
sub/dave exit
"#,
        transcript: b"sub/carol: cap 1
[sub -> carol -> main] hi
sub/carol: OK 3
sub/dave: Service_denied
sub: Unknown_component
carol: Unknown_component
sub/dave: ok
account init ram 0/114688 caps 0/24
account log ram 0/16384 caps 0/8
account sub ram 0/65536 caps 0/16
account sub/carol ram 0/61440 caps 0/14
account sub/dave ram 0/0 caps 0/0
session sub/carol 1 ram 4096/4096 caps 2/2
total ram 262144 caps 64
",
    },
];

// Returns whether a row has its transcript.
fn is_written(alloc: Global, row: &WorkedRow<'_>) -> bool {
    match run_bytes(alloc, row.list.as_bytes(), row.task, row.scenario) {
        Ok(written) => written.as_slice() == row.transcript,
        Err(_) => false,
    }
}

// Checks the transcript of each row of a table.
fn check_all<R: Abort + AllocGlobal>(rt: &R, rows: &[WorkedRow<'_>]) {
    for row in rows {
        assert!(rt; is_written(rt.alloc(), row), "{}", row.shows);
    }
}

#[test]
fn rows_on_other_machines(rt: HostRuntime) {
    check_all(&rt, ROWS);
}

/// Returns a text with this number of equal pieces in its middle. The error is out of memory.
pub fn repeated(
    alloc: Global,
    front: &[u8],
    piece: &[u8],
    times: usize,
    back: &[u8],
) -> Result<Vec<u8>, AllocError> {
    let mut text = Vec::from_slice(alloc, front)?;
    for _ in 0..times {
        text.extend_from_slice(piece)?;
    }
    text.extend_from_slice(back)?;
    Ok(text)
}

// Returns the transcript of forty sessions, and of one more than the client's capabilities cover.
fn forty_answered(alloc: Global) -> Result<Vec<u8>, AllocError> {
    let mut text = Vec::new(alloc);
    for selector in 1..=40u32 {
        let line = format!(in alloc; "alice: cap {selector}\n")?;
        text.extend_from_slice(line.as_bytes())?;
    }
    text.extend_from_slice(b"alice: Out_of_caps\nalice: ram 0/245760 caps 0/0\n")?;
    Ok(text)
}

#[test]
fn forty_sessions_on_one_server(rt: HostRuntime) -> Result<(), Fail> {
    let scenario = repeated(rt.alloc(), b"", OPENED, 41, b"alice quota\n")?;
    let transcript = forty_answered(rt.alloc())?;
    let row = WorkedRow {
        shows: "forty_sessions_on_one_server",
        list: FORTY,
        task: PLAIN,
        scenario: scenario.as_slice(),
        transcript: transcript.as_slice(),
    };
    assert!(rt; is_written(rt.alloc(), &row));
    Ok(())
}
