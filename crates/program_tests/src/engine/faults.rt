//! Runs over readers and writers that fail, or accept and return few bytes at a time.
ghost use Rattle.std.specs.Prelude.{◌≡◌};
ghost use Rattle.own_model.specs.Listed.{start_list_of};
ghost use Rattle.own_model.specs.StartList.{entries_of};

use crate::devices::{TestReader, TestWriter};
use crate::engine::rows::{PLAIN, repeated};
use crate::engine::tasks::fault_of;
use cli_engine::{Input, Output, RunFault, Sink, Source, Summary, TaskFailure, run, run_only};
use init_core::{MACHINE_A, StartList, boot};
use pd_core::{Core, Reply, Router};
use std::alloc::Global;
use std::io::ErrorKind;
use std::process::Abort;
use std::test::Fail;

const QUOTA: &[u8] = b"alice: ram 0/65536 caps 0/16\n";

const BOTH: &[u8] = b"alice quota\ncarol quota\n";

const BOTH_ANSWERED: &[u8] = b"alice: ram 0/65536 caps 0/16\ncarol: Unknown_component\n";

/// A session whose donation is too small at first.
const DONATION: &[u8] = b"alice open File_system ram_quota=4K, cap_quota=2
alice call 1 CREATE a
alice upgrade 1 ram_quota=4K
alice call 1 CREATE a
alice upgrade 1 cap_quota=1
alice call 1 CREATE a
alice call 1 STAT
alice quota
";

/// The transcript of these lines.
const DONATION_ANSWERED: &[u8] = b"alice: cap 1
alice: ERR OUT_OF_RAM
alice: ok
alice: ERR OUT_OF_CAPS
alice: ok
alice: OK
alice: OK ram 8192/8192 caps 3/3
alice: ram 0/57344 caps 0/13
";

/// The end of a run, its devices, and alice's account after it.
#[derive(Drop)]
struct FaultOutcome<'a> {
    ended: Result<Summary, RunFault>,
    read_failed: bool,
    write_failed: bool,
    reader: TestReader<'a>,
    writer: TestWriter,
    left: Vec<u8>,
}

// Runs a case on the built-in machine.
fn outcome_of<'a>(alloc: Global, case: &FaultCase<'a>) -> Result<FaultOutcome<'a>, TaskFailure> {
    let list = StartList::read(alloc, MACHINE_A.as_bytes())?;
    let mut core = boot(alloc, &list)?;
    outcome_on(alloc, &mut core, &list, case)
}

// Runs a case on a machine.
fn outcome_on<'a, R: Router + Drop>(
    alloc: Global,
    core: &mut Core<R>,
    list: &StartList,
    case: &FaultCase<'a>,
) -> Result<FaultOutcome<'a>, TaskFailure>
    requires { core.old.entries ≡ entries_of (start_list_of list.now) }
{
    let mut reply = Reply::boot(alloc)?;
    let mut source = Input::new(TestReader {
        failing: case.failing,
        kind: case.kind.unwrap_or(ErrorKind::UnexpectedEof),
        ..TestReader::new(case.scenario, case.given)
    });
    let mut sink = Output::new(TestWriter {
        size: case.taken,
        room: case.room,
        kind: case.kind,
        ..TestWriter::new(alloc)
    });
    let ended = run_some(core, list, &mut reply, case, &mut source, &mut sink);
    let left = left_of(alloc, core, list, &mut reply);
    Ok(FaultOutcome {
        ended,
        read_failed: source.failed(),
        write_failed: sink.failed(),
        reader: source.into_inner(),
        writer: sink.into_inner(),
        left,
    })
}

// Runs all lines, or those of one name, over these devices.
fn run_some<R: Router + Drop, S: Source, K: Sink>(
    core: &mut Core<R>,
    list: &StartList,
    reply: &mut Reply,
    case: &FaultCase<'_>,
    reader: &mut S,
    writer: &mut K,
) -> Result<Summary, RunFault>
    requires { core.old.entries ≡ entries_of (start_list_of list.now) }
    ensures { core.new.entries ≡ core.old.entries }
{
    match case.only {
        None => run(core, list, reply, reader, writer, case.max_lines),
        Some(name) => run_only(core, list, reply, name, reader, writer, case.max_lines),
    }
}

// Returns the reply about alice's account.
fn left_of<R: Router + Drop>(
    alloc: Global,
    core: &mut Core<R>,
    list: &StartList,
    reply: &mut Reply,
) -> Vec<u8>
    requires { core.old.entries ≡ entries_of (start_list_of list.now) }
{
    let mut quota = Input::new(TestReader::new(b"alice quota\n", 100));
    let mut told = Output::new(TestWriter::new(alloc));
    let _ = run(core, list, reply, &mut quota, &mut told, 1);
    told.into_inner().bytes
}

/// A run over devices that transfer `given` and `taken` bytes at a time. One read of the reader fails, and the writer fails after
/// `room` bytes.
#[derive(Clone, Copy)]
struct FaultCase<'a> {
    shows: &'static str,
    only: Option<&'static [u8]>,
    scenario: &'a [u8],
    given: usize,
    failing: usize,
    taken: usize,
    room: usize,
    kind: Option<ErrorKind>,
    max_lines: u64,
    ended: Result<Summary, RunFault>,
    written: &'a [u8],
    reads: usize,
    writes: usize,
    caps: u8,
}

/// Both lines at once, over devices that don't fail.
const CALM: FaultCase<'static> = FaultCase {
    shows: "two lines at once",
    only: None,
    scenario: BOTH,
    given: 100,
    failing: 0,
    taken: 100,
    room: usize::MAX,
    kind: None,
    max_lines: 10,
    ended: Ok(Summary { lines: 2 }),
    written: BOTH_ANSWERED,
    reads: 2,
    writes: 1,
    caps: b'0',
};

const CASES: &[FaultCase<'static>] = &[
    CALM,
    FaultCase {
        shows: "each line comes alone: answers are written before the next read",
        given: 12,
        reads: 3,
        writes: 2,
        ..CALM
    },
    FaultCase {
        shows: "short writes are resumed",
        taken: 2,
        writes: 27,
        ..CALM
    },
    FaultCase {
        shows: "failing_reader_keeps_what_was_answered",
        scenario: b"alice quota\nalice al",
        failing: 2,
        ended: Err(RunFault::ReadFault),
        written: QUOTA,
        ..CALM
    },
    FaultCase {
        shows: "failing_reader_keeps_what_was_answered, interrupted",
        scenario: b"alice quota\nalice al",
        failing: 2,
        kind: Some(ErrorKind::Interrupted),
        ended: Err(RunFault::ReadFault),
        written: QUOTA,
        ..CALM
    },
    FaultCase {
        shows: "one_line_too_many",
        scenario: b"alice quota\nbob quota\n",
        max_lines: 1,
        ended: Err(RunFault::TooManyLines),
        written: QUOTA,
        reads: 1,
        ..CALM
    },
    FaultCase {
        shows: "one_line_too_many, as many as allowed",
        scenario: b"alice quota\n",
        max_lines: 1,
        ended: Ok(Summary { lines: 1 }),
        written: QUOTA,
        ..CALM
    },
    FaultCase {
        shows: "two lines of two",
        max_lines: 2,
        ..CALM
    },
    FaultCase {
        shows: "lines that are skipped count",
        only: Some(b"alice"),
        scenario: b"alice quota\nbob quota\n\nbob quota\n",
        max_lines: 3,
        ended: Err(RunFault::TooManyLines),
        written: QUOTA,
        reads: 1,
        ..CALM
    },
    FaultCase {
        shows: "a writer that fails",
        room: 0,
        kind: Some(ErrorKind::Other),
        ended: Err(RunFault::WriteFault),
        written: b"",
        reads: 1,
        ..CALM
    },
    FaultCase {
        shows: "a writer that is interrupted",
        room: 0,
        kind: Some(ErrorKind::Interrupted),
        ended: Err(RunFault::WriteFault),
        written: b"",
        reads: 1,
        ..CALM
    },
    FaultCase {
        shows: "writer_that_takes_nothing",
        scenario: b"alice quota\n",
        room: 5,
        ended: Err(RunFault::WriteFault),
        written: b"alice",
        reads: 1,
        writes: 2,
        ..CALM
    },
    FaultCase {
        shows: "a writer that takes nothing at first",
        room: 0,
        ended: Err(RunFault::WriteFault),
        written: b"",
        reads: 1,
        ..CALM
    },
    FaultCase {
        shows: "a writer that takes one answer",
        room: 29,
        ended: Err(RunFault::WriteFault),
        written: QUOTA,
        reads: 1,
        writes: 2,
        ..CALM
    },
    FaultCase {
        shows: "a writer that takes a byte of the next",
        room: 30,
        ended: Err(RunFault::WriteFault),
        written: b"alice: ram 0/65536 caps 0/16\nc",
        reads: 1,
        writes: 2,
        ..CALM
    },
    FaultCase {
        shows: "a failed write before a line too many",
        room: 0,
        max_lines: 1,
        ended: Err(RunFault::WriteFault),
        written: b"",
        reads: 1,
        ..CALM
    },
    FaultCase {
        shows: "the same after some bytes",
        room: 5,
        max_lines: 1,
        ended: Err(RunFault::WriteFault),
        written: b"alice",
        reads: 1,
        writes: 2,
        ..CALM
    },
    FaultCase {
        shows: "the first read fails and isn't tried again",
        scenario: b"alice capalloc\nalice capalloc\n",
        given: 16,
        failing: 1,
        ended: Err(RunFault::ReadFault),
        written: b"",
        reads: 1,
        writes: 0,
        ..CALM
    },
    FaultCase {
        shows: "the second read fails and isn't tried again",
        scenario: b"alice capalloc\nalice capalloc\n",
        given: 16,
        failing: 2,
        ended: Err(RunFault::ReadFault),
        written: b"alice: cap 1\n",
        caps: b'1',
        ..CALM
    },
    FaultCase {
        shows: "the read at the end fails and isn't tried again",
        scenario: b"alice capalloc\nalice capalloc\n",
        given: 16,
        failing: 3,
        ended: Err(RunFault::ReadFault),
        written: b"alice: cap 1\nalice: cap 2\n",
        reads: 3,
        writes: 2,
        caps: b'2',
        ..CALM
    },
    FaultCase {
        shows: "a write that fails before the read that would",
        scenario: b"alice quota\nalice al",
        failing: 2,
        room: 5,
        ended: Err(RunFault::WriteFault),
        written: b"alice",
        reads: 1,
        writes: 2,
        ..CALM
    },
    FaultCase {
        shows: "one name's lines over a reader that fails",
        only: Some(b"carol"),
        failing: 2,
        ended: Err(RunFault::ReadFault),
        written: b"carol: Unknown_component\n",
        ..CALM
    },
];

// Returns whether a run ended as its case states.
fn is_so(ran: &FaultOutcome<'_>, case: &FaultCase<'_>) -> bool {
    has_written(ran, case)
        && ran.read_failed == (ran.ended == Err(RunFault::ReadFault))
        && ran.write_failed == (ran.ended == Err(RunFault::WriteFault))
        && ran.reader.reads == case.reads
        && ran.writer.writes == case.writes
        && ran
            .left
            .ends_with(&[b' ', case.caps, b'/', b'1', b'6', b'\n'])
}

// Returns whether a run ended as its case states, and wrote this until then.
fn has_written(ran: &FaultOutcome<'_>, case: &FaultCase<'_>) -> bool {
    ran.ended == case.ended && ran.writer.bytes.as_slice() == case.written
}

// Returns whether the run of a case ends as the case states.
fn ends_so(alloc: Global, case: &FaultCase<'_>) -> bool {
    match outcome_of(alloc, case) {
        Ok(ran) => is_so(&ran, case),
        Err(_) => false,
    }
}

// Returns whether the run of a case ends as the case states and writes this, however often its devices are used.
fn writes_so(alloc: Global, case: &FaultCase<'_>) -> bool {
    match outcome_of(alloc, case) {
        Ok(ran) => has_written(&ran, case),
        Err(_) => false,
    }
}

// Checks each run of a table.
fn check_all<R: Abort + AllocGlobal>(rt: &R, cases: &[FaultCase<'_>]) {
    for case in cases {
        assert!(rt; ends_so(rt.alloc(), case), "{}", case.shows);
    }
}

#[test]
fn devices_that_fail(rt: HostRuntime) {
    check_all(&rt, CASES);
}

// Returns whether this is written if each byte is read alone and this read fails.
fn is_left_by_read(alloc: Global, failing: usize, written: &[u8]) -> bool {
    let case = FaultCase {
        scenario: DONATION,
        given: 1,
        failing,
        kind: Some(ErrorKind::Other),
        ended: Err(RunFault::ReadFault),
        written,
        ..CALM
    };
    writes_so(alloc, &case)
}

// The replies are those of the lines before the read that fails.
#[test]
fn each_read_fails_in_turn(rt: HostRuntime) {
    let mut answers = DONATION_ANSWERED.split_inclusive(|byte| *byte == b'\n');
    let mut answered = 0usize;
    for end in 0..DONATION.len() {
        let written = &DONATION_ANSWERED[..DONATION_ANSWERED.len().min(answered)];
        assert!(rt;
            is_left_by_read(rt.alloc(), end.saturating_add(1), written),
            "read {end}"
        );
        if DONATION[end] == b'\n' {
            answered = answered.saturating_add(answers.next().unwrap_or(b"").len());
        }
    }
    assert!(rt; answered == DONATION_ANSWERED.len());
}

// Returns whether this is written if this number of bytes is read at once, and the next write fails.
fn is_left_by_write(alloc: Global, given: usize, written: &[u8]) -> bool {
    let case = FaultCase {
        scenario: DONATION,
        given,
        taken: 10,
        room: written.len(),
        ended: Err(RunFault::WriteFault),
        written,
        ..CALM
    };
    writes_so(alloc, &case)
}

// A write fails after each byte: the first bytes of the replies are written.
#[test]
fn each_write_fails_in_turn(rt: HostRuntime) {
    for room in 0..DONATION_ANSWERED.len() {
        let written = &DONATION_ANSWERED[..room];
        let is_left = is_left_by_write(rt.alloc(), 1, written)
            && is_left_by_write(rt.alloc(), 100_000, written);
        assert!(rt; is_left, "after {room} bytes");
    }
}

// Returns whether a hundred bytes were written in three writes, no fourth was tried, and no line was answered after that.
fn is_cut(ran: &FaultOutcome<'_>) -> bool {
    ran.ended == Err(RunFault::WriteFault)
        && ran.writer.writes == 3
        && ran.writer.bytes.len() == 100
        && ran
            .writer
            .bytes
            .starts_with(b"alice: cap 1\nalice: ram 0/65536 caps 1/16\nalice: ram")
        && ran.left.as_slice() == b"alice: ram 0/65536 caps 1/16\n".as_slice()
}

// Returns whether a scenario ends so over a writer that accepts a hundred bytes, in two writes.
fn is_cut_short(alloc: Global, scenario: &[u8]) -> bool {
    let case = FaultCase {
        scenario,
        given: 100_000,
        taken: 70,
        room: 100,
        max_lines: 1000,
        ..CALM
    };
    match outcome_of(alloc, &case) {
        Ok(ran) => is_cut(&ran),
        Err(_) => false,
    }
}

// The replies of a block fill more than is gathered at once, so a line is answered whose reply is cut; and none after it.
#[test]
fn writer_fails_while_more_is_gathered(rt: HostRuntime) -> Result<(), Fail> {
    let scenario = repeated(
        rt.alloc(),
        b"alice capalloc\n",
        b"alice quota\n",
        400,
        b"alice capalloc\n",
    )?;
    assert!(rt; is_cut_short(rt.alloc(), &scenario));
    Ok(())
}

// Returns whether a source that fails ends two runs, and neither writes.
fn ends_unread(alloc: Global, source: &mut Input<TestReader<'_>>) -> bool {
    let mut sink = Output::new(TestWriter::new(alloc));
    let first = fault_of(alloc, PLAIN, source, &mut sink);
    let second = fault_of(alloc, PLAIN, source, &mut sink);
    first == Some(RunFault::ReadFault) && second == first && sink.into_inner().bytes.is_empty()
}

// Returns whether a sink that fails ends a run, and the next run, whose source had failed too: the sink's fault comes first.
fn ends_unwritten(alloc: Global, source: &mut Input<TestReader<'_>>) -> bool {
    let mut quota = Input::new(TestReader::new(b"alice quota\n", 100));
    let mut sink = Output::new(TestWriter {
        room: 0,
        ..TestWriter::new(alloc)
    });
    let first = fault_of(alloc, PLAIN, &mut quota, &mut sink);
    let second = fault_of(alloc, PLAIN, source, &mut sink);
    first == Some(RunFault::WriteFault) && second == first && sink.into_inner().writes == 1
}

// If a device had failed before the run, neither device is used.
#[test]
fn failed_devices_are_not_tried(rt: HostRuntime) {
    let mut source = Input::new(TestReader {
        failing: 1,
        ..TestReader::new(b"alice quota\n", 100)
    });
    assert!(rt; ends_unread(rt.alloc(), &mut source) && ends_unwritten(rt.alloc(), &mut source));
    assert!(rt; source.into_inner().reads == 1);
}
