//! Readers and writers that fail.
use crate::devices::{TestReader, TestWriter};
use init_core::{BootFault, MACHINE_A, StartList};
use line_names::NameTable;
use line_steps::RunPosition;
use run_lines::{Input, LineRunFault, Output};
use run_scenario::{ScenarioEnd, ScenarioInput, exit_status};
use std::alloc::Global;
use std::io::ErrorKind;
use std::process::Abort;
use view_accounts::accounts;
use view_diagnostics::{DiagnosticForm, Subject};
use view_runs::{CsvRows, TranscriptOptions, alone, run, trace};

/// The view of all lines, with the account list after the transcript.
const LISTED: TranscriptOptions<'static> = TranscriptOptions {
    only: None,
    accounts: true,
    numbers: false,
};

// Returns the ending of a run that a fault stopped.
fn stopped(lines: u64, complaints: u64, fault: LineRunFault) -> Option<ScenarioEnd> {
    Some(ScenarioEnd {
        lines,
        complaints,
        fault: Some(fault),
    })
}

/// The four commands that run a scenario.
#[derive(Clone, Copy)]
enum RunKind {
    Run,
    Trace,
    Accounts,
    Alone,
}

// Runs a scenario on a machine.
fn played(
    alloc: Global,
    machine: &str,
    kind: RunKind,
    reader: &mut Input<TestReader<'_>>,
    writer: &mut Output<TestWriter>,
    complaints: &mut Output<TestWriter>,
) -> Result<ScenarioEnd, BootFault> {
    let list = StartList::read(alloc, machine.as_bytes())?;
    let play = ScenarioInput {
        list: &list,
        scenario: Subject {
            file: b"it",
            form: DiagnosticForm::Text,
        },
        start: RunPosition::new(NameTable::new(alloc), &[])?,
    };
    match kind {
        RunKind::Run => run(alloc, play, LISTED, reader, writer, complaints),
        RunKind::Trace => trace(alloc, play, CsvRows, reader, writer, complaints),
        RunKind::Accounts => Ok(accounts(alloc, play, reader, writer, complaints)?.ending),
        RunKind::Alone => Ok(alone(alloc, play, b"alice", reader, writer, complaints)?.ending),
    }
}

// Returns the ending of a run on the built-in machine, over a reader that doesn't fail.
fn ending_of(
    alloc: Global,
    kind: RunKind,
    scenario: &[u8],
    writer: &mut Output<TestWriter>,
    complaints: &mut Output<TestWriter>,
) -> Option<ScenarioEnd> {
    let mut reader = Input::new(TestReader::new(scenario, usize::MAX));
    played(alloc, MACHINE_A, kind, &mut reader, writer, complaints).ok()
}

// Returns a writer that accepts all bytes.
fn taking(alloc: Global) -> Output<TestWriter> {
    Output::new(TestWriter::new(alloc))
}

// Returns a writer that fails once.
fn refusing(alloc: Global) -> Output<TestWriter> {
    Output::new(TestWriter {
        room: 0,
        kind: Some(ErrorKind::Other),
        ..TestWriter::new(alloc)
    })
}

/// The four commands, and what each has written when the second of two lines can't be read.
const BROKEN: &[(RunKind, &[u8])] = &[
    (RunKind::Run, b"alice: cap 1\n"),
    (
        RunKind::Trace,
        b"line,component,call,reply,ram_used,ram_limit,caps_used,caps_limit,session,\
          session_ram_used,session_ram_limit,session_caps_used,session_caps_limit,text\n\
          1,alice,alloc 4096,cap 1,4096,65536,1,16,,,,,,\n",
    ),
    (RunKind::Accounts, b""),
    (
        RunKind::Alone,
        b"1: alice alloc 4096\n  whole: alice: cap 1\n  alone: alice: cap 1\n",
    ),
];

// Returns whether a run whose second read fails, in its second line, has written this.
fn is_broken(alloc: Global, kind: RunKind, want: &[u8]) -> bool {
    let mut reader = Input::new(TestReader {
        failing: 2,
        ..TestReader::new(b"alice alloc 4K\nalice quo", usize::MAX)
    });
    let (mut writer, mut complaints) = (taking(alloc), taking(alloc));
    let ended = played(
        alloc,
        MACHINE_A,
        kind,
        &mut reader,
        &mut writer,
        &mut complaints,
    );
    ended.ok() == stopped(1, 0, LineRunFault::ReadFault)
        && writer.into_inner().bytes.as_slice() == want
        && complaints.into_inner().bytes.is_empty()
}

// Checks each command of a table.
fn check_all_broken<R: Abort + AllocGlobal>(rt: &R, rows: &[(RunKind, &[u8])]) {
    for (kind, want) in rows {
        assert!(rt; is_broken(rt.alloc(), *kind, want));
    }
}

#[test]
fn a_read_that_fails_ends_each_run(rt: HostRuntime) {
    check_all_broken(&rt, BROKEN);
}

/// The four commands.
const KINDS: &[RunKind] = &[
    RunKind::Run,
    RunKind::Trace,
    RunKind::Accounts,
    RunKind::Alone,
];

// Returns whether a writer that fails ends a run with this fault.
fn is_refused(
    alloc: Global,
    kind: RunKind,
    scenario: &[u8],
    writer: &mut Output<TestWriter>,
    ending: Option<ScenarioEnd>,
) -> bool {
    ending_of(alloc, kind, scenario, writer, &mut taking(alloc)) == ending
}

// Checks that a writer that has failed ends each run at once.
fn check_refused<R: Abort + AllocGlobal>(
    rt: &R,
    kinds: &[RunKind],
    writer: &mut Output<TestWriter>,
) {
    for kind in kinds {
        let at_once = stopped(0, 0, LineRunFault::WriteFault);
        assert!(rt; is_refused(rt.alloc(), *kind, b"alice quota\n", writer, at_once));
    }
}

// A writer that has failed isn't written to by any command.
#[test]
fn a_writer_that_fails_is_not_tried_again(rt: HostRuntime) {
    let scenario = b"alice alloc 4K\nalice quot\n";
    let mut writer = refusing(rt.alloc());
    let ending = stopped(2, 1, LineRunFault::WriteFault);
    assert!(rt; is_refused(rt.alloc(), RunKind::Run, scenario, &mut writer, ending));
    check_refused(&rt, KINDS, &mut writer);
    assert!(rt; writer.into_inner().writes == 1);
}

#[test]
fn complaints_that_fail_end_the_run(rt: HostRuntime) {
    let scenario = b"alice alloc 4K\nalice quot\nalice quot\n";
    let (mut writer, mut complaints) = (taking(rt.alloc()), refusing(rt.alloc()));
    let ended = ending_of(
        rt.alloc(),
        RunKind::Run,
        scenario,
        &mut writer,
        &mut complaints,
    );
    let is_tried_once = complaints.into_inner().writes == 1;
    assert!(rt; is_tried_once && ended == stopped(1, 0, LineRunFault::WriteFault));
}

// Returns whether a text that is no list has its exit status, and the scenario isn't read.
fn is_unread(alloc: Global) -> bool {
    let mut reader = Input::new(TestReader::new(b"alice quota\n", 100));
    let (mut writer, mut complaints) = (taking(alloc), taking(alloc));
    let unbooted = played(
        alloc,
        "{",
        RunKind::Run,
        &mut reader,
        &mut writer,
        &mut complaints,
    );
    exit_status(&unbooted) == 2 && reader.into_inner().reads == 0
}

#[test]
fn a_list_that_is_none_is_refused(rt: HostRuntime) {
    assert!(rt; is_unread(rt.alloc()));
}

#[test]
fn lines_and_complaints_are_counted(rt: HostRuntime) {
    let scenario = b"# a comment\n\nalice quot\nalice quota => ok\n";
    let (mut writer, mut complaints) = (taking(rt.alloc()), taking(rt.alloc()));
    let ended = ending_of(
        rt.alloc(),
        RunKind::Accounts,
        scenario,
        &mut writer,
        &mut complaints,
    );
    let ending = ScenarioEnd {
        lines: 4,
        complaints: 2,
        fault: None,
    };
    assert!(rt; ended == Some(ending));
}
