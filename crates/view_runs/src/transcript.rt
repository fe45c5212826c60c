//! The run of a scenario in the friendly form: its transcript, as the engine writes it.
ghost use Rattle.std.specs.Prelude.{◌≡◌, ◌≢◌, ◌≤◌, ◌++◌, ◌||◌, [], ⊤, false, true, is_err, IfNone, IfOk, IfErr, IfSome, OnErr, OnOk, Some};
ghost use Rattle.std.specs.Option.{option_copied};
ghost use Rattle.own_model.specs.AccountList.{account_list_text};
ghost use Rattle.own_model.specs.Listed.{start_list_of};
ghost use Rattle.own_model.specs.StartList.{Boots, entries_of};
ghost use Rattle.list_parser.specs.Quota.{quota_fault};
ghost use Rattle.list_parser.specs.declared.fault.BootFault.TheVariants.{NoMemory};
ghost use Rattle.run_lines.specs.Answer.{answer_text};
ghost use Rattle.run_devices.specs.RunOutput.{OutputsUnless};
ghost use Rattle.run_lines.specs.Causes.{HasCause};
ghost use Rattle.run_scenario.specs.Faults.{fault_before, unplayed};
ghost use Rattle.run_lines.specs.Faults.{is_write_fault};
ghost use Rattle.run_scenario.specs.LineSteps.{steps_of};
ghost use Rattle.run_scenario.specs.RunReports.{WritesAllReports, scope_of};
ghost use Rattle.run_scenario.specs.Writes.{Closes, IsRunFrom, start_at, start_on};
ghost use Rattle.view_runs.specs.Transcripts.{list_behind, number_before, run_behind, text_of_run_call, text_of_run, shown_of};
ghost use Rattle.run_lines.specs.declared.line_run_fault.LineRunFault.TheVariants.{NoMemory as NoRoom};
ghost use Rattle.view_diagnostics.specs.Diagnostics.{subject_at};

use init_core::boot;
use list_parser::{BootFault, StartList};
use run_lines::{
    Core, DeviceFault, LineDispatcher, LineRunFault, MAX_LINES, Router, Sink, Source, WriteBuffer,
    write_accounts,
};
use run_scenario::{
    BootedScenario, CallBuffers, CallObserver, ObservedCall, ScenarioEnd, ScenarioInput,
    ScenarioRunner, ScenarioState, play as play_lines, put_number,
};
use std::alloc::Global;

/// The parts of a run that are written.
#[derive(Clone, Copy, PartialEq, Eq)]
pub struct TranscriptOptions<'a> {
    /// The name whose lines alone are answered, or none if all are.
    pub only: Option<&'a [u8]>,
    /// Whether the account list is written after the transcript.
    pub accounts: bool,
    /// Whether the number of its line is written before the reply to each line of the scenario.
    pub numbers: bool,
}

/// Observes a run, and gathers each answer as the engine writes it.
#[derive(Drop)]
pub(crate) struct Transcript {
    /// Whether the number of its line is written before it.
    numbers: bool,
}

impl CallObserver for Transcript {
    ghost tells = { λ observer. text_of_run_call observer.numbers };

    ghost sees = { λ _ _ _ _. ⊤ };

    #[inline(always)]
    fn tell<R: Router + Drop, K: Sink>(
        &mut self,
        _core: &Core<R>,
        _list: &StartList,
        heard: &ObservedCall<'_>,
        gathered: &mut WriteBuffer,
        writer: &mut K,
    ) -> Result<(), LineRunFault> {
        put_heard(self.numbers, heard, gathered, writer)?;
        Ok(())
    }
}

// Gathers an answer; or writes it after the number of its line, so that errors of the line follow it.
#[inline(always)]
fn put_heard<K: Sink>(
    numbers: bool,
    heard: &ObservedCall<'_>,
    gathered: &mut WriteBuffer,
    writer: &mut K,
) -> Result<(), DeviceFault>
    requires { K.has_failed writer.old ≡ false }
    ensures told { OutputsUnless result (K.contents writer.old) gathered.old
        (K.contents writer.new) gathered.new
        (number_before numbers heard.now.number ++ answer_text (Some heard.now.answer)) }
    ensures failing { K.has_failed writer.new ≡ is_err result }
{
    if numbers {
        write_numbered(heard, gathered, writer)
    } else {
        let answer = heard.answer;
        gathered.put_answer(writer, answer.lines, answer.name, answer.reply)
    }
}

// Writes an answer after the number of its line.
fn write_numbered<K: Sink>(
    heard: &ObservedCall<'_>,
    gathered: &mut WriteBuffer,
    writer: &mut K,
) -> Result<(), DeviceFault>
    requires { K.has_failed writer.old ≡ false }
    ensures told { OutputsUnless result (K.contents writer.old) gathered.old
        (K.contents writer.new) gathered.new
        (number_before true heard.now.number ++ answer_text (Some heard.now.answer)) }
    ensures failing { K.has_failed writer.new ≡ is_err result }
{
    put_number(heard.number, gathered, writer)?;
    gathered.put(writer, b": ")?;
    let answer = heard.answer;
    gathered.put_answer(writer, answer.lines, answer.name, answer.reply)?;
    gathered.flush(writer)
}

/// Runs a scenario, or the lines of one name alone, and writes the transcript. With `numbers` each line's part is written after
/// its number. With `accounts` the account list is written after a run without a fault. Errors of lines are written as they are
/// found.
///
/// The output is the transcript of the calls that the scenario's lines make, and the account list of the world after them. At a
/// fault it is the transcript of the lines that were run, or a prefix of it if a write failed or the host is out of memory. It
/// stops for the causes of the engine's run, or if the host is out of memory at a line that isn't read or that expects a log
/// line. A device that had failed before is reported, the outputs first. Then, and if no machine boots, no device is touched.
#[tactic(auto, using(run_lines::proofs::MachineLemmas::listed_at_start))]
pub fn run<S: Source, K: Sink, E: Sink>(
    alloc: Global,
    play: ScenarioInput<'_>,
    showing: TranscriptOptions<'_>,
    reader: &mut S,
    writer: &mut K,
    complaints: &mut E,
) -> Result<ScenarioEnd, BootFault>
    ensures played { IfOk result (λ ending. fault_before (S.has_failed reader.old)
        (K.has_failed writer.old || E.has_failed complaints.old) ≡ None →
        IsRunFrom
        (start_on (option_copied showing.entry.only) play.entry.start play.entry.list.now)
        (text_of_run showing.entry play.entry.list.now) (run_behind showing.entry play.entry.list.now)
        false
        (WritesAllReports (scope_of (subject_at play.entry.scenario) play.entry.list.now)
        (start_on (option_copied showing.entry.only) play.entry.start play.entry.list.now)
        (E.contents complaints.old) (E.contents complaints.new))
        ending
        (S.remaining reader.old) (S.remaining reader.new)
        (S.has_failed reader.new) (K.contents writer.old) (K.contents writer.new)) }
    ensures few { IfOk result (λ ending. ending.lines ≤ MAX_LINES) }
    ensures writing { IfOk result (λ ending. (K.has_failed writer.new
        || E.has_failed complaints.new) ≡ is_write_fault ending.fault) }
    ensures reading { IfOk result (λ ending.
        IfNone ending.fault (S.has_failed reader.new ≡ false)) }
    ensures ok { IfOk result (λ ending. IfSome ending.fault (λ fault. fault ≢ NoRoom →
        IfSome (S.remaining reader.old) (λ input. HasCause input MAX_LINES
        (S.has_failed reader.new) (K.has_failed writer.new || E.has_failed complaints.new)))) }
    ensures before { IfOk result (λ ending. IfSome (fault_before (S.has_failed reader.old)
        (K.has_failed writer.old || E.has_failed complaints.old)) (λ fault.
        (ending ≡ unplayed fault)
        × (reader.new ≡ reader.old) × (writer.new ≡ writer.old)
        × (complaints.new ≡ complaints.old))) }
    ensures boots { OnOk result (Boots (start_list_of play.entry.list.now)) }
    ensures unbooted { IfErr result (λ fault. fault ≢ NoMemory →
        quota_fault play.entry.list.now ≡ Some fault) }
    ensures untouched { OnErr result
        ((reader.new ≡ reader.old) × (writer.new ≡ writer.old)
        × (complaints.new ≡ complaints.old)) }
{
    let buffers = CallBuffers::new(alloc)?;
    let core = boot(alloc, play.list)?;
    let state = ScenarioState::new(alloc, play.scenario, play.start);
    let run = LineDispatcher {
        list: play.list,
        only: showing.only,
    };
    let stage = BootedScenario {
        run,
        core,
        state,
        buffers,
    };
    Ok(run_on(stage, showing, reader, writer, complaints))
}

// Does the same on a machine that has booted.
fn run_on<R: Router + Drop, S: Source, K: Sink, E: Sink>(
    stage: BootedScenario<'_, '_, R>,
    showing: TranscriptOptions<'_>,
    reader: &mut S,
    writer: &mut K,
    complaints: &mut E,
) -> ScenarioEnd
    requires listed { stage.core.entries ≡ entries_of (start_list_of stage.run.list.now) }
    ensures played { fault_before (S.has_failed reader.old)
        (K.has_failed writer.old || E.has_failed complaints.old) ≡ None →
        IsRunFrom (start_at stage.entry.run.list.now (option_copied stage.entry.run.only) stage.entry.core
        stage.entry.state.position stage.entry.state.checker.expected)
        (shown_of showing.entry.numbers (option_copied stage.entry.run.only) stage.entry.core)
        (list_behind showing.entry.accounts (option_copied stage.entry.run.only)
        stage.entry.run.list.now stage.entry.core)
        false
        (WritesAllReports
        (scope_of (subject_at stage.entry.state.checker.scenario) stage.entry.run.list.now)
        (start_at stage.entry.run.list.now (option_copied stage.entry.run.only) stage.entry.core stage.entry.state.position
        stage.entry.state.checker.expected)
        (E.contents complaints.old) (E.contents complaints.new))
        result
        (S.remaining reader.old) (S.remaining reader.new)
        (S.has_failed reader.new) (K.contents writer.old) (K.contents writer.new) }
    ensures few { result.lines ≤ MAX_LINES }
    ensures writing { (K.has_failed writer.new || E.has_failed complaints.new)
        ≡ is_write_fault result.fault }
    ensures reading { IfNone result.fault (S.has_failed reader.new ≡ false) }
    ensures before { IfSome (fault_before (S.has_failed reader.old)
        (K.has_failed writer.old || E.has_failed complaints.old))
        (λ fault. (result ≡ unplayed fault)
        × (reader.new ≡ reader.old) × (writer.new ≡ writer.old)
        × (complaints.new ≡ complaints.old)) }
{
    let BootedScenario {
        run,
        mut core,
        mut state,
        mut buffers,
    } = stage;
    let mut observer = Transcript {
        numbers: showing.numbers,
    };
    let mut runner = ScenarioRunner {
        complaints,
        run: &run,
        state: &mut state,
        observer: &mut observer,
        buffers: &mut buffers,
        complained: 0,
    };
    let ending = play_lines(&mut runner, &mut core, b"", reader, writer);
    let accounts = showing.accounts;
    if accounts {
        close_with_list(ending, &core, run.list, writer)
    } else {
        ending
    }
}

// Writes the account list after a run that ended without a fault.
fn close_with_list<R: Router + Drop, K: Sink>(
    ending: ScenarioEnd,
    core: &Core<R>,
    list: &StartList,
    writer: &mut K,
) -> ScenarioEnd
    requires listed { core.now.entries ≡ entries_of (start_list_of list.now) }
    ensures closes { Closes ending result (K.contents writer.old) (K.contents writer.new)
        (account_list_text list.now core.now) }
    ensures failing { IfNone ending.fault (K.has_failed writer.new ≡ is_write_fault result.fault) }
    ensures stopped { IfSome ending.fault (λ _. (result ≡ ending) × (writer.new ≡ writer.old)) }
{
    if ending.fault.is_some() {
        return ending;
    }
    match write_accounts(core, list, writer) {
        Ok(()) => ending,
        Err(fault) => ending.stopped_by(LineRunFault::from(fault)),
    }
}
