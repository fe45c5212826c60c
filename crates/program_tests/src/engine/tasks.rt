//! Tasks of a machine: the end of each as text and as status, and what it reads and writes.
use crate::devices::{TestReader, TestWriter};
use crate::engine::rows::{LISTED, PLAIN, repeated};
use crate::engine::tries::one_is_as_usual;
use cli_engine::{
    Input, Output, RunFault, Summary, Task, TaskFailure, boot_and_run, exit_status, run_bytes,
};
use init_core::{BootFault, MACHINE_A};
use std::alloc::Global;
use std::fmt::Display;
use std::io::ErrorKind;
use std::process::Abort;
use std::test::Fail;

/// The built-in machine, if alice had more than it.
pub const RICH: &str = r#"{"machine":{"pages":64,"caps":64},
 "default-route":[{"any-service":true,"any-child":true}],
 "start":[
  {"name":"log","quantum":"16K","caps":8,"provides":["LOG"]},
  {"name":"files","quantum":"16K","caps":8,"provides":["File_system"]},
  {"name":"alice","binary":"script","quantum":"300K","caps":16},
  {"name":"bob","binary":"script","quantum":"64K","caps":16}]}"#;

/// A task over a writer that accepts this number of bytes, one at a time, and then fails.
#[derive(Clone, Copy)]
struct TaskCase {
    shows: &'static str,
    list: &'static str,
    task: Task<'static>,
    room: usize,
    kind: Option<ErrorKind>,
    told: &'static str,
    status: u8,
    written: &'static [u8],
    reads: usize,
    writes: usize,
}

/// A check of a machine that boots.
const CHECK: TaskCase = TaskCase {
    shows: "a check tells ok and reads nothing",
    list: MACHINE_A,
    task: Task::Check,
    room: usize::MAX,
    kind: None,
    told: "",
    status: 0,
    written: b"ok\n",
    reads: 0,
    writes: 3,
};

/// A list that isn't covered.
const UNCOVERED: TaskCase = TaskCase {
    shows: "boot_refuses_what_is_not_covered",
    list: RICH,
    told: "boot: Quota_exceeded alice",
    status: 2,
    written: b"",
    writes: 0,
    ..CHECK
};

/// A writer that fails at once.
const UNWRITABLE: TaskCase = TaskCase {
    shows: "a write of ok that fails is tried once",
    room: 0,
    kind: Some(ErrorKind::Other),
    told: "run: Write_fault",
    status: 1,
    written: b"",
    writes: 1,
    ..CHECK
};

const CASES: &[TaskCase] = &[
    CHECK,
    UNCOVERED,
    TaskCase {
        task: PLAIN,
        ..UNCOVERED
    },
    TaskCase {
        task: LISTED,
        ..UNCOVERED
    },
    UNWRITABLE,
    TaskCase {
        shows: "a check over a writer that takes nothing",
        kind: None,
        ..UNWRITABLE
    },
    TaskCase {
        shows: "a check over a writer that takes two bytes",
        room: 2,
        written: b"ok",
        writes: 3,
        ..UNWRITABLE
    },
    TaskCase {
        shows: "a reply that can't be written is tried once",
        task: PLAIN,
        reads: 1,
        ..UNWRITABLE
    },
    TaskCase {
        shows: "an answer before the account list that can't be written is tried once",
        task: LISTED,
        reads: 1,
        ..UNWRITABLE
    },
];

// Returns whether a value is displayed as this text.
fn is_shown<D: Display>(alloc: Global, value: &D, text: &str) -> bool {
    match format!(in alloc; "{value}") {
        Ok(shown) => shown.as_str() == text,
        Err(_) => false,
    }
}

// Returns whether a task ends as its case states.
fn ends_so(alloc: Global, case: &TaskCase) -> bool {
    let mut source = Input::new(TestReader::new(b"alice quota\n", 100));
    let mut sink = Output::new(TestWriter {
        size: 1,
        room: case.room,
        kind: case.kind,
        ..TestWriter::new(alloc)
    });
    let text = case.list.as_bytes();
    let ended = boot_and_run(alloc, text, case.task, &mut source, &mut sink);
    is_told(alloc, &ended, case) && is_done(&source.into_inner(), &sink.into_inner(), case)
}

// Returns whether the end of a task has the text and the status of its case.
fn is_told(alloc: Global, ended: &Result<Summary, TaskFailure>, case: &TaskCase) -> bool {
    let is_told = match ended {
        Ok(_) => case.told.is_empty(),
        Err(failure) => is_shown(alloc, failure, case.told),
    };
    is_told && exit_status(ended) == case.status
}

// Returns whether the devices were used as the case states.
fn is_done(reader: &TestReader<'_>, writer: &TestWriter, case: &TaskCase) -> bool {
    writer.bytes.as_slice() == case.written
        && writer.writes == case.writes
        && reader.reads == case.reads
}

// Checks each task of a table.
fn check_all<R: Abort + AllocGlobal>(rt: &R, cases: &[TaskCase]) {
    for case in cases {
        assert!(rt; ends_so(rt.alloc(), case), "{}", case.shows);
    }
}

#[test]
fn tasks_over_writers_that_fail(rt: HostRuntime) {
    check_all(&rt, CASES);
}

/// Returns the fault of the run of a task on the built-in machine, if there is one.
pub fn fault_of(
    alloc: Global,
    task: Task<'_>,
    source: &mut Input<TestReader<'_>>,
    sink: &mut Output<TestWriter>,
) -> Option<RunFault> {
    match boot_and_run(alloc, MACHINE_A.as_bytes(), task, source, sink) {
        Err(TaskFailure::Run(fault)) => Some(fault),
        _ => None,
    }
}

// Returns whether a sink that has failed isn't written to for the next task.
fn is_tried_once(alloc: Global, task: Task<'_>, scenario: &[u8]) -> bool {
    let mut source = Input::new(TestReader::new(scenario, 100_000));
    let mut sink = Output::new(TestWriter {
        room: 0,
        ..TestWriter::new(alloc)
    });
    let first = fault_of(alloc, task, &mut source, &mut sink);
    let second = fault_of(alloc, Task::Check, &mut source, &mut sink);
    first == Some(RunFault::WriteFault) && second == first && sink.into_inner().writes == 1
}

// An account list or many replies are tried once too.
#[test]
fn writer_that_failed_is_not_tried_again(rt: HostRuntime) -> Result<(), Fail> {
    let alloc = rt.alloc();
    let many = repeated(alloc, b"", b"alice quota\n", 400, b"")?;
    assert!(rt; is_tried_once(alloc, LISTED, b"") && is_tried_once(alloc, PLAIN, &many));
    Ok(())
}

// Returns whether a scenario on the built-in machine stops with this text, and returns what was answered until then.
fn is_stopped(alloc: Global, scenario: &[u8], told: &str, written: &[u8]) -> bool {
    match run_bytes(alloc, MACHINE_A.as_bytes(), PLAIN, scenario) {
        Ok(_) => false,
        Err(stopped) => {
            is_shown(alloc, &stopped.failure, told) && stopped.written.as_slice() == written
        }
    }
}

// The second line has 1,048,578 bytes.
#[test]
fn bytes_stop_at_an_endless_line(rt: HostRuntime) -> Result<(), Fail> {
    let scenario = repeated(rt.alloc(), b"alice quota\n", b"xxxxxx", 174_763, b"")?;
    let written = b"alice: ram 0/65536 caps 0/16\n";
    assert!(rt; is_stopped(rt.alloc(), &scenario, "run: Read_fault", written));
    Ok(())
}

// Returns whether a run is answered. A run that is out of memory reports that, or has no transcript.
fn is_listed(alloc: Global) -> Option<bool> {
    match run_bytes(alloc, MACHINE_A.as_bytes(), LISTED, b"alice alloc 1\n") {
        Ok(written) => Some(written.starts_with(b"alice: cap 1\naccount init ")),
        Err(stopped) => {
            let is_wanted = matches!(
                stopped.failure,
                TaskFailure::Boot(BootFault::NoMemory) | TaskFailure::Run(RunFault::WriteFault)
            );
            if is_wanted && stopped.written.is_empty() {
                None
            } else {
                Some(false)
            }
        }
    }
}

#[test]
fn refused_memory_is_told_as_such(rt: HostRuntime) {
    assert!(rt; one_is_as_usual(is_listed(rt.alloc()), is_listed(rt.alloc())));
}
