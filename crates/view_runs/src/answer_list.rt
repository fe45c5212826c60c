//! The answered calls of a scenario, as values.
ghost use Rattle.std.specs.Prelude.{◌≡◌, ◌≢◌, ◌≤◌, ◌∷◌, ◌++◌, ◌||◌, [], false, true, IfOk, IfErr, IfNone, IfSome, OnErr, OnOk, None, Some, drop, length};
ghost use Rattle.own_model.specs.Listed.{start_list_of};
ghost use Rattle.own_model.specs.StartList.{Boots, entries_of};
ghost use Rattle.list_parser.specs.Quota.{quota_fault};
ghost use Rattle.list_parser.specs.declared.fault.BootFault.TheVariants.{NoMemory};
ghost use Rattle.run_lines.specs.Machine.{world_of};
ghost use Rattle.run_lines.specs.Causes.{HasCause};
ghost use Rattle.run_lines.specs.Faults.{is_write_fault};
ghost use Rattle.run_lines.specs.declared.line_run_fault.LineRunFault.TheVariants.{NoMemory as NoRoom};
ghost use Rattle.line_grammar.specs.Read.{IsReadAs};
ghost use Rattle.view_runs.specs.Answers.{IsAnsweredFrom, exchanges};
ghost use Rattle.run_scenario.specs.Faults.{fault_before, unplayed};
ghost use Rattle.view_runs.specs.Tracing.{call_text};
ghost use Rattle.run_scenario.specs.LineSteps.{steps_of};
ghost use Rattle.run_scenario.specs.RunReports.{WritesAllReports, scope_of};
ghost use Rattle.run_scenario.specs.Writes.{IsRunFrom, nothing_told, start_at, start_on, steps_on};
ghost use Rattle.view_diagnostics.specs.Diagnostics.{subject_at};

use core_calls::Answer;
use init_core::boot;
use list_parser::{BootFault, StartList};
use run_exchanges::Exchange;
use run_lines::{
    Core, LineDispatcher, LineRunFault, MAX_LINES, NamedCall, Router, Sink, Source, WriteBuffer,
};
use run_scenario::{
    BootedScenario, CallBuffers, CallObserver, ObservedCall, ScenarioEnd, ScenarioInput,
    ScenarioRunner, ScenarioState, play as play_lines, said_in,
};
use std::alloc::{AllocError, Global};
use std::mem;

/// The answered calls of a scenario, and how its run ended.
#[derive(Drop)]
pub struct AnswerList {
    /// How the run ended.
    pub ending: ScenarioEnd,
    /// The calls, in the order in which they were answered.
    pub exchanges: Vec<Exchange>,
}

/// Observes a run, and keeps its calls so far.
#[derive(Drop)]
pub(crate) struct ExchangeObserver {
    alloc: Global,
    kept: Vec<Exchange>,
}

impl CallObserver for ExchangeObserver {
    ghost use Rattle.std.specs.Prelude.{◌≡◌, [], true};
    ghost use Rattle.view_runs.specs.Answers.{exchanges};

    ghost tells = { λ _ _ _ _ _. [] };

    ghost takes = { true };

    ghost sees = { λ keeper _ start earlier. keeper.kept.items ≡ exchanges start earlier };

    fn tell<R: Router + Drop, K: Sink>(
        &mut self,
        _core: &Core<R>,
        _list: &StartList,
        heard: &ObservedCall<'_>,
        _gathered: &mut WriteBuffer,
        _writer: &mut K,
    ) -> Result<(), LineRunFault> {
        let exchange = exchange_of(self.alloc, heard)?;
        self.kept.push(exchange)?;
        Ok(())
    }
}

// Returns an answered call as a value.
fn exchange_of(alloc: Global, heard: &ObservedCall<'_>) -> Result<Exchange, AllocError>
    requires read { IsReadAs heard.now.line.now heard.now.call }
    ensures { IfOk result (λ exchange. exchange ≡ record {
      name = heard.now.answer.name.now;
      line = heard.now.line.now;
      call = call_text heard.now.line.now;
      reply = heard.now.answer.reply.now;
    }) }
{
    let start = start_of_call(heard.line, heard.call);
    let answer = Answer {
        outcome: heard.answer.outcome,
        text: heard.answer.reply,
    };
    Exchange::new(
        alloc,
        heard.number,
        heard.answer.name,
        heard.line,
        start,
        answer,
    )
}

// Returns the place of the call in a line of which this was read; 0 if the line makes no call.
fn start_of_call(line: &[u8], call: Option<NamedCall<'_>>) -> usize
    requires { IsReadAs line.now call }
    ensures { drop result line.now ≡ call_text line.now }
{
    match said_in(line, call) {
        Some((name, _)) => name.len().saturating_add(1),
        None => 0,
    }
}

/// Runs a scenario, and returns its answered calls. Only complaints are written, as they come. It stops as `run` does, and also if
/// the host is out of memory at a call.
#[tactic(auto, using(run_lines::proofs::MachineLemmas::listed_at_start))]
pub fn answers<S: Source, K: Sink, E: Sink>(
    alloc: Global,
    play: ScenarioInput<'_>,
    reader: &mut S,
    writer: &mut K,
    complaints: &mut E,
) -> Result<AnswerList, BootFault>
    ensures played { IfOk result (λ answers. fault_before (S.has_failed reader.old)
        (K.has_failed writer.old || E.has_failed complaints.old) ≡ None →
        IsRunFrom (start_on None play.entry.start play.entry.list.now) nothing_told
        nothing_told true
        (WritesAllReports (scope_of (subject_at play.entry.scenario) play.entry.list.now)
        (start_on None play.entry.start play.entry.list.now)
        (E.contents complaints.old) (E.contents complaints.new))
        answers.ending
        (S.remaining reader.old) (S.remaining reader.new)
        (S.has_failed reader.new) (K.contents writer.old) (K.contents writer.new)) }
    ensures answered { IfOk result (λ answers. fault_before (S.has_failed reader.old)
        (K.has_failed writer.old || E.has_failed complaints.old) ≡ None →
        IsAnsweredFrom (steps_on None play.entry.start play.entry.list.now)
        (world_of play.entry.list.now) answers.ending answers.exchanges.items
        (S.remaining reader.old) (S.remaining reader.new) (S.has_failed reader.new)) }
    ensures few { IfOk result (λ answers. answers.ending.lines ≤ MAX_LINES) }
    ensures writing { IfOk result (λ answers. (K.has_failed writer.new
        || E.has_failed complaints.new) ≡ is_write_fault answers.ending.fault) }
    ensures reading { IfOk result (λ answers.
        IfNone answers.ending.fault (S.has_failed reader.new ≡ false)) }
    ensures ok { IfOk result (λ answers. IfSome answers.ending.fault (λ fault. fault ≢ NoRoom →
        IfSome (S.remaining reader.old) (λ input. HasCause input MAX_LINES
        (S.has_failed reader.new) (K.has_failed writer.new || E.has_failed complaints.new)))) }
    ensures before { IfOk result (λ answers. IfSome (fault_before (S.has_failed reader.old)
        (K.has_failed writer.old || E.has_failed complaints.old)) (λ fault.
        (answers.ending ≡ unplayed fault)
        × (reader.new ≡ reader.old) × (writer.new ≡ writer.old)
        × (complaints.new ≡ complaints.old))) }
    ensures boots { OnOk result (Boots (start_list_of play.entry.list.now)) }
    ensures unbooted { IfErr result (λ fault. fault ≢ NoMemory →
        quota_fault play.entry.list.now ≡ Some fault) }
    ensures untouched { OnErr result
        ((reader.new ≡ reader.old) × (writer.new ≡ writer.old)
        × (complaints.new ≡ complaints.old)) }
{
    let buffers = CallBuffers::new(alloc)?;
    let core = boot(alloc, play.list)?;
    let state = ScenarioState::new(alloc, play.scenario, play.start);
    let run = LineDispatcher {
        list: play.list,
        only: None,
    };
    let stage = BootedScenario {
        run,
        core,
        state,
        buffers,
    };
    Ok(answers_on(alloc, stage, reader, writer, complaints))
}

// Does the same on a machine that has booted.
fn answers_on<R: Router + Drop, S: Source, K: Sink, E: Sink>(
    alloc: Global,
    stage: BootedScenario<'_, '_, R>,
    reader: &mut S,
    writer: &mut K,
    complaints: &mut E,
) -> AnswerList
    requires listed { stage.core.entries ≡ entries_of (start_list_of stage.run.list.now) }
    requires all { stage.run.only ≡ None }
    ensures played { fault_before (S.has_failed reader.old)
        (K.has_failed writer.old || E.has_failed complaints.old) ≡ None →
        IsRunFrom (start_at stage.entry.run.list.now None stage.entry.core stage.entry.state.position
        stage.entry.state.checker.expected) (λ _. []) (λ _. [])
        true
        (WritesAllReports
        (scope_of (subject_at stage.entry.state.checker.scenario) stage.entry.run.list.now)
        (start_at stage.entry.run.list.now None stage.entry.core stage.entry.state.position
        stage.entry.state.checker.expected)
        (E.contents complaints.old) (E.contents complaints.new))
        result.ending (S.remaining reader.old) (S.remaining reader.new)
        (S.has_failed reader.new) (K.contents writer.old) (K.contents writer.new) }
    ensures answered { fault_before (S.has_failed reader.old)
        (K.has_failed writer.old || E.has_failed complaints.old) ≡ None →
        IsAnsweredFrom (steps_of None stage.entry.core stage.entry.state.position) stage.entry.core
        result.ending result.exchanges.items (S.remaining reader.old) (S.remaining reader.new)
        (S.has_failed reader.new) }
    ensures few { result.ending.lines ≤ MAX_LINES }
    ensures writing { (K.has_failed writer.new || E.has_failed complaints.new)
        ≡ is_write_fault result.ending.fault }
    ensures reading { IfNone result.ending.fault (S.has_failed reader.new ≡ false) }
    ensures before { IfSome (fault_before (S.has_failed reader.old)
        (K.has_failed writer.old || E.has_failed complaints.old))
        (λ fault. (result.ending ≡ unplayed fault)
        × (reader.new ≡ reader.old) × (writer.new ≡ writer.old)
        × (complaints.new ≡ complaints.old)) }
{
    let BootedScenario {
        run,
        mut core,
        mut state,
        mut buffers,
    } = stage;
    let mut keeper = ExchangeObserver {
        alloc,
        kept: Vec::new(alloc),
    };
    let mut runner = ScenarioRunner {
        complaints,
        run: &run,
        state: &mut state,
        observer: &mut keeper,
        buffers: &mut buffers,
        complained: 0,
    };
    let ending = play_lines(&mut runner, &mut core, b"", reader, writer);
    let exchanges = taken(alloc, &mut runner);
    AnswerList { ending, exchanges }
}

// Takes the calls out of a run.
fn taken<E: Sink>(
    alloc: Global,
    runner: &mut ScenarioRunner<'_, '_, '_, '_, '_, '_, '_, ExchangeObserver, E>,
) -> Vec<Exchange>
    ensures kept { result.items ≡ runner.old.observer.now.kept.items }
    ensures same { runner.new.complaints ≡ runner.old.complaints }
{
    mem::replace(&mut runner.observer.kept, Vec::new(alloc))
}
