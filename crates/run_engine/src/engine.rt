//! The engine's run: lines are read, answered and written.
ghost use Rattle.std.specs.Prelude.{◌≡◌, ◌≢◌, ◌≤◌, ◌∷◌, ◌||◌, true, false, IfSome, IfOk, IfErr, OnOk, None};
ghost use Rattle.std.specs.Option.{option_copied};
ghost use Rattle.own_model.specs.Listed.{start_list_of};
ghost use Rattle.own_model.specs.StartList.{entries_of};
ghost use Rattle.run_lines.specs.Answer.{answer_text};
ghost use Rattle.run_lines.specs.Answered.{after_all, output_of_lines};
ghost use Rattle.run_lines.specs.Faults.{Fails};
ghost use Rattle.run_devices.specs.RunOutput.{OutputsUnless};
ghost use Rattle.run_engine.specs.Runs.{Completes, EndsWith, FaultBefore, KeepsWorld, Runs};
ghost use Rattle.run_lines.specs.Causes.{HasCause, is_write_fault};
ghost use Rattle.run_engine.specs.Stops.{Stops};
ghost use Rattle.run_lines.specs.declared.line_run_fault.LineRunFault.TheVariants.{NoMemory as NoRoom, WriteFault as Unwritten};

use core_calls::Reply;
use list_parser::StartList;
use run_lines::{
    Buffers, Core, LineAnswer, LineDispatcher, LineHandler, LineRunFault, LineRunResult, Router,
    RunFault, Sink, Source, WriteBuffer, play,
};

/// The result of a run that reached the end of its input.
#[derive(Clone, Copy, PartialEq, Eq)]
pub struct Summary {
    /// The number of lines that were answered, or skipped if only one name's lines are answered.
    pub lines: u64,
}

/// Answers each line of the reader in order, at most `max_lines`, with the components that the list names. All output is
/// written before each read and before the run returns, including with a fault. A device that has failed is never tried
/// again.
///
/// Returns `WriteFault` if the writer had failed before, then `ReadFault` if the reader had. Otherwise returns the first
/// fault: `ReadFault` if a read fails or a line is too long, `WriteFault` if a write fails, `TooManyLines` if a line follows
/// the last one allowed.
///
/// The output is the transcript: each call is answered as its caller's own run on its own earlier calls answers it, for any calls
/// of other components. At a fault the same holds for the lines answered by then; after a write that failed, a part of
/// their transcript is written.
pub fn run<R: Router + Drop, S: Source, K: Sink>(
    core: &mut Core<R>,
    list: &StartList,
    reply: &mut Reply,
    reader: &mut S,
    writer: &mut K,
    max_lines: u64,
) -> Result<Summary, RunFault>
    requires listed { core.old.entries ≡ entries_of (start_list_of list.now) }
    ensures few { IfOk result (λ summary. summary.lines ≤ max_lines) }
    ensures done { IfOk result (λ summary. IfSome (S.remaining reader.old) (λ input.
        Completes None summary.lines core.old core.new input
        (K.contents writer.old) (K.contents writer.new))) }
    ensures keeps { KeepsWorld core.old core.new }
    ensures writing { K.has_failed writer.new ≡ is_write_fault result }
    ensures reading { OnOk result (S.has_failed reader.new ≡ false) }
    ensures stops { IfErr result (λ fault. IfSome (S.remaining reader.old) (λ input.
        Stops None fault max_lines core.old core.new input
        (S.remaining reader.new) (S.has_failed reader.new)
        (K.contents writer.old) (K.contents writer.new))) }
    ensures ok { IfErr result (λ fault. IfSome (S.remaining reader.old) (λ input.
        HasCause input max_lines (S.has_failed reader.new) (K.has_failed writer.new))) }
    ensures before { (K.has_failed writer.old || S.has_failed reader.old) ≡ true →
        FaultBefore result (S.has_failed reader.old) (K.has_failed writer.old)
        × (core.new ≡ core.old) × (reader.new ≡ reader.old) × (writer.new ≡ writer.old) }
{
    run_selected(
        &LineDispatcher { list, only: None },
        core,
        reply,
        reader,
        writer,
        max_lines,
    )
}

/// Runs all lines, or those of one name alone, as `run.only` states. Returns the faults of `run`.
pub fn run_selected<R: Router + Drop, S: Source, K: Sink>(
    run: &LineDispatcher<'_>,
    core: &mut Core<R>,
    reply: &mut Reply,
    reader: &mut S,
    writer: &mut K,
    max_lines: u64,
) -> Result<Summary, RunFault>
    requires listed { core.old.entries ≡ entries_of (start_list_of run.now.list.now) }
    ensures runs { Runs (option_copied run.now.only) result max_lines core.old core.new
        (S.remaining reader.old) (S.remaining reader.new)
        (S.has_failed reader.new) (K.has_failed writer.new)
        (K.contents writer.old) (K.contents writer.new) }
    ensures before { (K.has_failed writer.old || S.has_failed reader.old) ≡ true →
        FaultBefore result (S.has_failed reader.old) (K.has_failed writer.old)
        × (core.new ≡ core.old) × (reader.new ≡ reader.old) × (writer.new ≡ writer.old) }
{
    if writer.failed() {
        return Err(RunFault::WriteFault);
    }
    if reader.failed() {
        return Err(RunFault::ReadFault);
    }
    let mut engine = Engine { run: *run, reply };
    let mut buffers = Buffers::new();
    let played = play(&mut engine, core, &mut buffers, reader, writer, max_lines);
    outcome(played)
}

// The result of a run or its fault. The engine never asks the host for memory.
fn outcome(played: LineRunResult) -> Result<Summary, RunFault>
    requires room { IfSome played.fault (λ fault. fault ≢ NoRoom) }
    ensures { EndsWith played.fault played.lines result }
{
    match played.fault {
        None => Ok(Summary {
            lines: played.lines,
        }),
        Some(LineRunFault::ReadFault) => Err(RunFault::ReadFault),
        Some(LineRunFault::WriteFault) => Err(RunFault::WriteFault),
        Some(LineRunFault::TooManyLines) => Err(RunFault::TooManyLines),
        Some(LineRunFault::NoMemory) => unreachable!(),
    }
}

// A line handler that answers each line unchanged, or one name's lines alone.
#[derive(Drop)]
struct Engine<'a> {
    run: LineDispatcher<'a>,
    reply: &'a mut Reply,
}

impl LineHandler for Engine<'_> {
    ghost told = { λ engine. output_of_lines (option_copied engine.run.only) };

    ghost leads = { λ first start engine world lines. (engine.run ≡ first.run)
        × (world ≡ after_all (option_copied first.run.only) start lines) };

    ghost stops = { λ first start _ world fault lines. (fault ≡ Unwritten)
        × (world ≡ after_all (option_copied first.run.only) start lines) };

    ghost is_ready = { λ engine world _. world.entries
        ≡ entries_of (start_list_of engine.run.list.now) };

    #[inline(always)]
    fn play<R: Router + Drop, K: Sink>(
        &mut self,
        core: &mut Core<R>,
        line: &[u8],
        gathered: &mut WriteBuffer,
        writer: &mut K,
    ) -> Result<(), LineRunFault> {
        let answer = self.run.answer_short(core, line, self.reply);
        tell(answer, gathered, writer)
    }

    fn play_too_long<R: Router + Drop, K: Sink>(
        &mut self,
        _core: &mut Core<R>,
        gathered: &mut WriteBuffer,
        writer: &mut K,
    ) -> Result<(), LineRunFault> {
        let run = self.run;
        tell(run.answer_no_call(), gathered, writer)
    }
}

// Gathers an answer: its log lines, and then the name with the reply. A skipped line has no output.
#[inline(always)]
fn tell<K: Sink>(
    answer: Option<LineAnswer<'_>>,
    gathered: &mut WriteBuffer,
    writer: &mut K,
) -> Result<(), LineRunFault>
    requires { K.has_failed writer.old ≡ false }
    ensures told { OutputsUnless result (K.contents writer.old) gathered.old
        (K.contents writer.new) gathered.new (answer_text answer.entry) }
    ensures failing { Fails result (K.has_failed writer.new) false }
{
    if let Some(answer) = answer {
        gathered.put_answer(writer, answer.lines, answer.name, answer.reply)?;
    }
    Ok(())
}
