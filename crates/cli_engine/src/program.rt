//! The task of the program: from the text of a start list to the end of a scenario.
ghost use Rattle.std.specs.Prelude.{◌≡◌, ◌≤◌, ℕ, List, length, Bool, IfOk, IfErr, IfSome, OnOk, Err, [], true};
ghost use Rattle.std.specs.Option.{option_copied, option_map};
ghost use Rattle.std.specs.Io.KnownBytes.{Appends};
ghost use Rattle.own_model.specs.Listed.{Listed as Machine, start_list_of};
ghost use Rattle.own_model.specs.StartList.{entries_of};
ghost use Rattle.own_model.specs.Text.{lines_of};
ghost use Rattle.list_parser.specs.declared.fault.BootFault.{BootFault as Unbooted};
ghost use Rattle.list_parser.specs.declared.fault.BootFault.TheVariants.{NoMemory as NoRoom};
ghost use Rattle.cli_engine.specs.Program.{AsksFor, FailsFor, FailsIn, IsAnswered, IsBoundedFor, IsDone, StopsScenario, ok_line, scenario_text, status_of, written_for};
ghost use Rattle.run_lines.specs.Machine.{IsMachine, world_of};
ghost use Rattle.run_lines.specs.Causes.{is_write_fault};
ghost use Rattle.run_devices.specs.RunOutput.{AppendsPart};
ghost use Rattle.cli_engine.specs.Texts.{failure_text};
ghost use Rattle.cli_engine.specs.declared.program.TaskFailure.TheVariants.{Boot as Booting, Run as Running};
ghost use Rattle.cli_engine.specs.declared.program.Task.TheVariants.{Check as Checking, Run as Answering};
ghost use Rattle.run_lines.specs.declared.run_fault.RunFault.TheVariants.{WriteFault as Unwritten};

use crate::options::Options;
use core_calls::Reply;
use init_core::boot;
use list_parser::{BootFault, StartList};
use run_engine::{Summary, run_selected};
use run_lines::{
    Core, LineDispatcher, MAX_LINES, Output, Router, RunFault, Sink, Source, write_accounts,
    write_out,
};
use std::alloc::Global;
use std::fmt;
use std::fmt::{Display, Formatter};
use thiserror::Error;
use trade_base::NoMemory;

/// The output of a check of a machine that boots.
const OK: &[u8] = b"ok\n";

/// The task that the program does on a machine.
#[derive(Clone, Copy, PartialEq, Eq)]
pub enum Task<'a> {
    /// Boots the machine. No scenario is read.
    Check,
    /// Answers a scenario, and then writes the account list if `accounts` is set.
    Run {
        /// Whether the account list is written.
        accounts: bool,
        /// The name whose lines alone are answered, or `None` for all lines.
        only: Option<&'a [u8]>,
    },
}

/// Returns the task of the command line's options: a check if they ask for one, and otherwise a run.
pub fn task_of<'a>(options: &Options<'a>) -> Task<'a>
    ensures { AsksFor options.now.check options.now.accounts
        (option_map (λ name. name.now) options.now.only) result }
{
    if options.check() {
        return Task::Check;
    }
    Task::Run {
        accounts: options.accounts(),
        only: match options.only() {
            Some(name) => Some(name.as_bytes()),
            None => None,
        },
    }
}

/// The failure with which a task was not done to its end.
#[derive(Debug, Drop, Error)]
pub enum TaskFailure {
    /// No machine was booted. Nothing was read or written.
    Boot(BootFault),
    /// The run stopped, or the one write of a check failed.
    Run(RunFault),
}

impl Display for TaskFailure {
    ghost output = { failure_text ⟦<BootFault as Display>⟧.output };

    fn fmt<W: fmt::Write>(&self, f: &mut Formatter<W>) -> fmt::Result {
        match self {
            TaskFailure::Boot(fault) => write!(f, "boot: {fault}"),
            TaskFailure::Run(fault) => write!(f, "run: {fault}"),
        }
    }
}

impl From<BootFault> for TaskFailure {
    ghost from_gives = { λ fault failure. failure ≡ Booting fault };

    fn from(fault: BootFault) -> TaskFailure {
        TaskFailure::Boot(fault)
    }
}

impl From<NoMemory> for TaskFailure {
    ghost from_gives = { λ _ failure. failure ≡ Booting NoRoom };

    fn from(_want: NoMemory) -> TaskFailure {
        TaskFailure::Boot(BootFault::NoMemory)
    }
}

/// Boots the machine of a start list's text and does a task on it. A check writes `ok`; a run answers a scenario of at most
/// `MAX_LINES` lines.
///
/// The output of a run is the transcript from the machine's start, followed by the account list of the last states if
/// `accounts` is set. At a fault of the run it is the transcript of the lines answered by then, without an account list. The
/// sums of the account list are the machine's.
///
/// Returns `TaskFailure::Boot` if no machine boots, and then touches neither device. Returns `TaskFailure::Run` if the run stops or
/// a write fails. A check never reads.
#[tactic(auto, using(run_lines::proofs::MachineLemmas::tasks))]
pub fn boot_and_run<S: Source, K: Sink>(
    alloc: Global,
    text: &[u8],
    task: Task<'_>,
    reader: &mut S,
    writer: &mut K,
) -> Result<Summary, TaskFailure>
    ensures done { IfOk result (λ summary. IsDone task.entry text.now
        (S.remaining reader.old) summary.lines (K.contents writer.old) (K.contents writer.new)) }
    ensures few { IfOk result (λ summary. summary.lines ≤ MAX_LINES) }
    ensures fails { IfErr result (λ failure. FailsFor failure task.entry text.now MAX_LINES
        (S.remaining reader.old) (S.remaining reader.new) (S.has_failed reader.new)
        (K.contents writer.old) (K.contents writer.new)) }
    ensures unbooted { (fault : Unbooted) → result ≡ Err (Booting fault) →
        (reader.new ≡ reader.old) × (writer.new ≡ writer.old) }
    ensures unread { task.entry ≡ Checking → reader.new ≡ reader.old }
    ensures writing { result ≡ Err (Running Unwritten) → K.has_failed writer.new ≡ true }
{
    let list = StartList::read(alloc, text)?;
    let mut core = boot(alloc, &list)?;
    do_task(alloc, &mut core, &list, task, reader, writer)
}

// Does a task on the machine of a start list, which was booted just before.
#[tactic(auto, using(run_lines::proofs::MachineLemmas::tasks))]
fn do_task<R: Router + Drop, S: Source, K: Sink>(
    alloc: Global,
    core: &mut Core<R>,
    list: &StartList,
    task: Task<'_>,
    reader: &mut S,
    writer: &mut K,
) -> Result<Summary, TaskFailure>
    requires starts { core.old ≡ world_of list.now }
    ensures done { (text : List ℕ) → IsMachine text list.now →
        IfOk result (λ summary. IsDone task.entry text
        (S.remaining reader.old) summary.lines (K.contents writer.old) (K.contents writer.new)) }
    ensures few { IfOk result (λ summary. summary.lines ≤ MAX_LINES) }
    ensures fails { (text : List ℕ) → IsMachine text list.now →
        IfErr result (λ failure. FailsFor failure task.entry text MAX_LINES
        (S.remaining reader.old) (S.remaining reader.new) (S.has_failed reader.new)
        (K.contents writer.old) (K.contents writer.new)) }
    ensures unbooted { (fault : Unbooted) → result ≡ Err (Booting fault) →
        (reader.new ≡ reader.old) × (writer.new ≡ writer.old) }
    ensures unread { task.entry ≡ Checking → reader.new ≡ reader.old }
    ensures writing { result ≡ Err (Running Unwritten) → K.has_failed writer.new ≡ true }
{
    match task {
        Task::Check => match tell_ok(writer) {
            Ok(summary) => Ok(summary),
            Err(fault) => Err(TaskFailure::Run(fault)),
        },
        Task::Run { accounts, only } => {
            let mut reply = Reply::boot(alloc)?;
            let run = LineDispatcher { list, only };
            match answer_scenario(&run, core, &mut reply, accounts, reader, writer) {
                Ok(summary) => Ok(summary),
                Err(fault) => Err(TaskFailure::Run(fault)),
            }
        }
    }
}

// Answers a scenario, and then writes the account list if `accounts` is set.
#[tactic(auto, using(crate::proofs::TaskLemmas::scenarios))]
fn answer_scenario<R: Router + Drop, S: Source, K: Sink>(
    run: &LineDispatcher<'_>,
    core: &mut Core<R>,
    reply: &mut Reply,
    accounts: bool,
    reader: &mut S,
    writer: &mut K,
) -> Result<Summary, RunFault>
    requires listed { core.old.entries ≡ entries_of (start_list_of run.now.list.now) }
    ensures few { IfOk result (λ summary. summary.lines ≤ MAX_LINES) }
    ensures told { IfOk result (λ summary. IfSome (S.remaining reader.old) (λ input.
        IsAnswered
        (scenario_text accounts (option_copied run.now.only) run.now.list.now core.old input)
        input summary.lines (K.contents writer.old) (K.contents writer.new))) }
    ensures stops { IfErr result (λ fault. IfSome (S.remaining reader.old) (λ input.
        StopsScenario accounts (option_copied run.now.only) fault MAX_LINES run.now.list.now
        core.old input
        (S.remaining reader.new) (S.has_failed reader.new)
        (K.contents writer.old) (K.contents writer.new))) }
    ensures writing { K.has_failed writer.new ≡ is_write_fault result }
{
    match run_selected(run, core, reply, reader, writer, MAX_LINES) {
        Ok(summary) => if accounts {
            match write_accounts(core, run.list, writer) {
                Ok(()) => Ok(summary),
                Err(fault) => Err(fault),
            }
        } else {
            Ok(summary)
        },
        Err(fault) => Err(fault),
    }
}

// Writes that a machine boots. A writer that has failed is not tried again.
#[tactic(auto, using(run_devices::proofs::GatheredLemmas::told_in_part))]
fn tell_ok<K: Sink>(writer: &mut K) -> Result<Summary, RunFault>
    ensures none { IfOk result (λ summary. summary.lines ≡ 0) }
    ensures told { OnOk result (Appends (K.contents writer.old) (K.contents writer.new) ok_line) }
    ensures fault { IfErr result (λ fault. fault ≡ Unwritten) }
    ensures part { AppendsPart (K.contents writer.old) (K.contents writer.new) ok_line }
    ensures writing { K.has_failed writer.new ≡ is_write_fault result }
{
    if writer.failed() {
        return Err(RunFault::WriteFault);
    }
    if write_out(writer, OK) < OK.len() {
        return Err(RunFault::WriteFault);
    }
    Ok(Summary { lines: 0 })
}

/// A task that was not done to its end, and the bytes written by then.
#[derive(Drop)]
pub struct UnfinishedTask {
    /// The failure that stopped the task.
    pub failure: TaskFailure,
    /// The bytes that were written by then.
    pub written: Vec<u8>,
}

/// Does a task on the machine of a start list's text and on an input in memory, and returns the output: `ok` or a
/// transcript, with the account list if `accounts` is set.
///
/// Returns the failure and the bytes written by then. The failure is `Boot` if no machine boots, and `WriteFault` if the
/// host is out of memory for the output. It is `ReadFault` at a line of more than 1,048,576 bytes, and `TooManyLines` if the
/// input has more than `MAX_LINES` lines.
#[tactic(auto, using(crate::proofs::TaskLemmas::bounded_for))]
pub fn run_bytes(
    alloc: Global,
    text: &[u8],
    task: Task<'_>,
    input: &[u8],
) -> Result<Vec<u8>, UnfinishedTask>
    ensures written { IfOk result (λ written. (list : Machine) × IsMachine text.now list
        × (written.items ≡ written_for task.entry list input.now)) }
    ensures bounded { OnOk result (IsBoundedFor task.entry MAX_LINES input.now) }
    ensures fails { IfErr result (λ stopped.
        FailsIn stopped.failure task.entry text.now MAX_LINES input.now stopped.written.items) }
{
    let mut reader = input;
    let mut writer = Output::new(Vec::new(alloc));
    match boot_and_run(alloc, text, task, &mut reader, &mut writer) {
        Ok(_) => Ok(writer.into_inner()),
        Err(failure) => Err(UnfinishedTask {
            failure,
            written: writer.into_inner(),
        }),
    }
}

/// Returns the exit status of the program: 0 for a task that is done, 1 for a fault of the run, and 2 if no machine was
/// booted.
pub fn exit_status(ended: &Result<Summary, TaskFailure>) -> u8
    ensures { result ≡ status_of ended.now }
{
    match ended {
        Ok(_) => 0,
        Err(TaskFailure::Run(_)) => 1,
        Err(TaskFailure::Boot(_)) => 2,
    }
}
