//! The rows of the account list with needs, peaks, servers and labels, after a run.
ghost use Rattle.std.specs.Prelude.{◌≡◌, ◌≢◌, ◌≤◌, ◌||◌, [], false, true, IfNone, IfOk, IfErr, IfSome, OnErr, OnOk, None, Some};
ghost use Rattle.own_model.specs.Listed.{start_list_of};
ghost use Rattle.own_model.specs.StartList.{Boots, entries_of};
ghost use Rattle.list_parser.specs.Quota.{quota_fault};
ghost use Rattle.list_parser.specs.declared.fault.BootFault.TheVariants.{NoMemory};
ghost use Rattle.run_lines.specs.Causes.{HasCause};
ghost use Rattle.run_lines.specs.Faults.{is_write_fault};
ghost use Rattle.view_accounts.specs.Accounting.{OfSessions, SeesAccounts};
ghost use Rattle.view_accounts.specs.Rows.{accounts_view};
ghost use Rattle.view_accounts.specs.RunRows.{ShowsRows, rows_kept};
ghost use Rattle.view_accounts.specs.ShownSessions.{ShowsSessions};
ghost use Rattle.run_lines.specs.Machine.{world_of};
ghost use Rattle.run_scenario.specs.Faults.{fault_before, unplayed};
ghost use Rattle.run_scenario.specs.LineSteps.{steps_of};
ghost use Rattle.run_scenario.specs.RunReports.{WritesAllReports, scope_of};
ghost use Rattle.run_scenario.specs.Writes.{IsRunFrom, nothing_told, start_at, start_on, steps_on};
ghost use Rattle.run_lines.specs.declared.line_run_fault.LineRunFault.TheVariants.{NoMemory as NoRoom};
ghost use Rattle.view_diagnostics.specs.Diagnostics.{subject_at};

use crate::account_rows::AccountRows;
use crate::accounting::Accounting;
use init_core::boot;
use list_parser::{BootFault, StartList};
use run_lines::{Core, LineDispatcher, MAX_LINES, Router, Sink, Source};
use run_scenario::{
    BootedScenario, CallBuffers, ScenarioEnd, ScenarioInput, ScenarioRunner, ScenarioState,
    play as play_lines,
};
use std::alloc::{AllocError, Global};

/// The account list of a scenario.
#[derive(Drop)]
pub struct AccountList {
    /// How the run ended.
    pub ending: ScenarioEnd,
    /// The rows after the last line that was run. The error is that the host is out of memory.
    pub rows: Result<AccountRows, AllocError>,
}

/// Runs a scenario, and returns the rows of the account list: the account of the machine's init, those of the components with
/// their reserves and their open sessions, the sums of all limits, and the closed sessions. A need is the minimum start budget
/// with which the tests that passed still pass; an init's is what its list needs. A peak is the most that was in use at the start
/// or after any line, of a session since its opening. Errors of lines are written as they are found, and nothing else. It stops as
/// `run` does, and also if the host is out of memory at a call.
#[tactic(auto, using(run_lines::proofs::MachineLemmas::listed_at_start))]
pub fn accounts<S: Source, K: Sink, E: Sink>(
    alloc: Global,
    play: ScenarioInput<'_>,
    reader: &mut S,
    writer: &mut K,
    complaints: &mut E,
) -> Result<AccountList, BootFault>
    ensures played { IfOk result (λ accounts. fault_before (S.has_failed reader.old)
        (K.has_failed writer.old || E.has_failed complaints.old) ≡ None →
        IsRunFrom (start_on None play.entry.start play.entry.list.now) nothing_told nothing_told true
        (WritesAllReports (scope_of (subject_at play.entry.scenario) play.entry.list.now)
        (start_on None play.entry.start play.entry.list.now)
        (E.contents complaints.old) (E.contents complaints.new))
        accounts.ending
        (S.remaining reader.old) (S.remaining reader.new)
        (S.has_failed reader.new) (K.contents writer.old) (K.contents writer.new)) }
    ensures shown { IfOk result (λ accounts. fault_before (S.has_failed reader.old)
        (K.has_failed writer.old || E.has_failed complaints.old) ≡ None →
        (sessions : OfSessions)
        × (ShowsRows sessions play.entry.list.now (world_of play.entry.list.now)
        (steps_on None play.entry.start play.entry.list.now) accounts.ending.fault
        (S.remaining reader.old) accounts.rows
        × ShowsSessions sessions play.entry.list.now (world_of play.entry.list.now)
        (steps_on None play.entry.start play.entry.list.now) accounts.ending.fault
        (S.remaining reader.old))) }
    ensures few { IfOk result (λ accounts. accounts.ending.lines ≤ MAX_LINES) }
    ensures writing { IfOk result (λ accounts. (K.has_failed writer.new
        || E.has_failed complaints.new) ≡ is_write_fault accounts.ending.fault) }
    ensures reading { IfOk result (λ accounts.
        IfNone accounts.ending.fault (S.has_failed reader.new ≡ false)) }
    ensures ok { IfOk result (λ accounts. IfSome accounts.ending.fault (λ fault. fault ≢ NoRoom →
        IfSome (S.remaining reader.old) (λ input. HasCause input MAX_LINES
        (S.has_failed reader.new) (K.has_failed writer.new || E.has_failed complaints.new)))) }
    ensures before { IfOk result (λ accounts. IfSome (fault_before (S.has_failed reader.old)
        (K.has_failed writer.old || E.has_failed complaints.old)) (λ fault.
        (accounts.ending ≡ unplayed fault)
        × (reader.new ≡ reader.old) × (writer.new ≡ writer.old)
        × (complaints.new ≡ complaints.old))) }
    ensures boots { OnOk result (Boots (start_list_of play.entry.list.now)) }
    ensures unbooted { IfErr result (λ fault. fault ≢ NoMemory →
        quota_fault play.entry.list.now ≡ Some fault) }
    ensures untouched { OnErr result
        ((reader.new ≡ reader.old) × (writer.new ≡ writer.old)
        × (complaints.new ≡ complaints.old)) }
{
    let buffers = CallBuffers::new(alloc)?;
    let core = boot(alloc, play.list)?;
    let mut observer = Accounting::new(alloc, &core)?;
    let state = ScenarioState::new(alloc, play.scenario, play.start);
    let run = LineDispatcher {
        list: play.list,
        only: None,
    };
    let stage = BootedScenario {
        run,
        core,
        state,
        buffers,
    };
    Ok(run_accounting(alloc, stage, &mut observer, reader, writer, complaints))
}

// Does the same on a machine that has booted, with the peaks and needs of its accounts.
fn run_accounting<R: Router + Drop, S: Source, K: Sink, E: Sink>(
    alloc: Global,
    stage: BootedScenario<'_, '_, R>,
    observer: &mut Accounting,
    reader: &mut S,
    writer: &mut K,
    complaints: &mut E,
) -> AccountList
    requires listed { stage.core.entries ≡ entries_of (start_list_of stage.run.list.now) }
    requires all { stage.run.only ≡ None }
    requires sees { SeesAccounts observer.old stage.run.list.now stage.core [] }
    ensures played { fault_before (S.has_failed reader.old)
        (K.has_failed writer.old || E.has_failed complaints.old) ≡ None →
        IsRunFrom (start_at stage.entry.run.list.now None stage.entry.core stage.entry.state.position
        stage.entry.state.checker.expected) (λ _. []) (λ _. []) true
        (WritesAllReports
        (scope_of (subject_at stage.entry.state.checker.scenario) stage.entry.run.list.now)
        (start_at stage.entry.run.list.now None stage.entry.core stage.entry.state.position
        stage.entry.state.checker.expected)
        (E.contents complaints.old) (E.contents complaints.new))
        result.ending (S.remaining reader.old) (S.remaining reader.new)
        (S.has_failed reader.new) (K.contents writer.old) (K.contents writer.new) }
    ensures shown { fault_before (S.has_failed reader.old)
        (K.has_failed writer.old || E.has_failed complaints.old) ≡ None →
        (sessions : OfSessions)
        × (ShowsRows sessions stage.entry.run.list.now stage.entry.core
        (steps_of None stage.entry.core stage.entry.state.position) result.ending.fault
        (S.remaining reader.old) result.rows
        × ShowsSessions sessions stage.entry.run.list.now stage.entry.core
        (steps_of None stage.entry.core stage.entry.state.position) result.ending.fault
        (S.remaining reader.old)) }
    ensures few { result.ending.lines ≤ MAX_LINES }
    ensures writing { (K.has_failed writer.new || E.has_failed complaints.new)
        ≡ is_write_fault result.ending.fault }
    ensures reading { IfNone result.ending.fault (S.has_failed reader.new ≡ false) }
    ensures before { IfSome (fault_before (S.has_failed reader.old)
        (K.has_failed writer.old || E.has_failed complaints.old))
        (λ fault. (result.ending ≡ unplayed fault)
        × (reader.new ≡ reader.old) × (writer.new ≡ writer.old)
        × (complaints.new ≡ complaints.old)) }
{
    let BootedScenario {
        run,
        mut core,
        mut state,
        mut buffers,
    } = stage;
    let mut runner = ScenarioRunner {
        complaints,
        run: &run,
        state: &mut state,
        observer,
        buffers: &mut buffers,
        complained: 0,
    };
    let ending = play_lines(&mut runner, &mut core, b"", reader, writer);
    let rows = rows_after(alloc, &core, run.list, &runner);
    AccountList { ending, rows }
}

// Returns the rows after a run.
fn rows_after<R: Router + Drop, E: Sink>(
    alloc: Global,
    core: &Core<R>,
    list: &StartList,
    runner: &ScenarioRunner<'_, '_, '_, '_, '_, '_, '_, Accounting, E>,
) -> Result<AccountRows, AllocError>
    requires listed { core.now.entries ≡ entries_of (start_list_of list.now) }
    ensures { IfOk result (λ rows. accounts_view rows ≡ rows_kept runner.now.observer.now list.now core.now) }
{
    AccountRows::of(alloc, core, list, runner.observer)
}
