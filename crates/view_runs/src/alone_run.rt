//! The replies to one component in the whole run, and in a run of its own lines alone.
ghost use Rattle.std.specs.Prelude.{◌≡◌, ◌≢◌, ◌≤◌, ◌∷◌, ◌++◌, ◌||◌, [], ℕ, List, codes, decimal, length, map, false, true, is_err, IfOk, IfErr, IfNone, IfSome, OnErr, OnOk, None, Some};
ghost use Rattle.std.specs.Option.{option_map_or};
ghost use Rattle.std.specs.Result.{result_err};
ghost use Rattle.own_model.specs.Listed.{start_list_of};
ghost use Rattle.own_model.specs.Reply.{printed};
ghost use Rattle.own_model.specs.StartList.{Boots, entries_of};
ghost use Rattle.list_parser.specs.Quota.{quota_fault};
ghost use Rattle.list_parser.specs.declared.fault.BootFault.TheVariants.{NoMemory};
ghost use Rattle.run_lines.specs.Answer.{answer_text};
ghost use Rattle.run_devices.specs.RunOutput.{OutputsUnless};
ghost use Rattle.line_grammar.specs.Read.{IsReadAs};
ghost use Rattle.run_lines.specs.Causes.{HasCause};
ghost use Rattle.run_scenario.specs.Faults.{fault_before, unplayed};
ghost use Rattle.run_lines.specs.Faults.{is_write_fault};
ghost use Rattle.view_runs.specs.Alone.{AreAlike, CountsAlone, SeesAlone, alone_behind, alone_sum, alone_call_text, alone_text, words_for};
ghost use Rattle.run_scenario.specs.RunCalls.{calls_answered, text_of_steps};
ghost use Rattle.run_scenario.specs.Texts.{in_brackets, line_text};
ghost use Rattle.run_scenario.specs.LineSteps.{steps_of};
ghost use Rattle.run_scenario.specs.RunReports.{WritesAllReports, scope_of};
ghost use Rattle.run_scenario.specs.Writes.{Closes, IsRunFrom, IsWrittenBy, start_at, start_on};
ghost use Rattle.run_lines.specs.declared.line_run_fault.LineRunFault.TheVariants.{NoMemory as NoRoom};
ghost use Rattle.view_diagnostics.specs.Diagnostics.{subject_at};

use crate::byte_text::{put_text_after, shown_in};
use crate::printed_bytes::put_printed;
use arrayvec::ArrayVec;
use core_calls::Reply;
use init_core::boot;
use list_parser::{BootFault, StartList};
use run_lines::{
    Core, DeviceFault, LineAnswer, LineDispatcher, LineRunFault, MAX_LINES, Router, Sink, Source,
    WriteBuffer,
};
use run_scenario::{
    CallBuffers, CallObserver, ObservedCall, ScenarioEnd, ScenarioInput, ScenarioRunner,
    ScenarioState, add, add_number, play as play_lines, put_number, put_three,
};
use std::alloc::Global;

/// The most bytes of a number with the text after it.
const LONGEST_NUMBER: usize = 40;

/// A second machine, on which the lines of one name alone are answered.
#[derive(Drop)]
pub(crate) struct SecondMachine<'a, Q: Router + Drop> {
    list: &'a StartList,
    name: &'a [u8],
    core: Core<Q>,
    reply: Reply,
    /// The number of lines of the name so far.
    lines: u64,
    /// The number of the first line whose answer differs, if there is one.
    difference: Option<u64>,
    ghost listed: { core.entries ≡ entries_of (start_list_of list.now) },
}

/// The comparison of the answers to a component in the whole run with those in a run of its own lines alone.
#[derive(Clone, Copy, PartialEq, Eq)]
pub struct AloneComparison {
    /// How the whole run ended.
    pub ending: ScenarioEnd,
    /// The number of the component's lines.
    pub lines: u64,
    /// The number of the first line whose answer differs alone, if there is one.
    pub difference: Option<u64>,
}

impl AloneComparison {
    ghost use Rattle.std.specs.Prelude.{◌≡◌, None};
    ghost use Rattle.std.specs.Result.{result_err};
    ghost use Rattle.run_lines.specs.Faults.{is_write_fault};
    ghost use Rattle.view_runs.specs.Alone.{alone_sum};
    ghost use Rattle.run_scenario.specs.Writes.{IsWrittenBy};

    /// Writes how many lines a component of this name has, and whether their answers are the same. An error is a failed write.
    #[tactic(auto, using(run_devices::proofs::GatheredLemmas::told_in_part))]
    pub fn write_sum<K: Sink>(self, name: &[u8], writer: &mut K) -> Result<(), LineRunFault>
        ensures written { self.difference ≡ None →
            IsWrittenBy result (K.contents writer.old) (K.contents writer.new)
            (alone_sum name.now self.lines) }
        ensures failing { K.has_failed writer.new ≡ is_write_fault (result_err result) }
    {
        if writer.failed() {
            return Err(LineRunFault::WriteFault);
        }
        let mut gathered = WriteBuffer::new();
        put_sum(name, self.lines, self.difference, &mut gathered, writer)?;
        gathered.flush(writer)?;
        Ok(())
    }

    // Writes the summary after a run that ended without a fault.
    fn close<K: Sink>(self, name: &[u8], writer: &mut K) -> AloneComparison
        ensures closes { IfNone self.ending.fault (self.difference ≡ None) →
            Closes self.ending result.ending (K.contents writer.old) (K.contents writer.new)
            (alone_sum name.now self.lines) }
        ensures lines { result.lines ≡ self.lines }
        ensures difference { result.difference ≡ self.difference }
        ensures failing { IfNone self.ending.fault
            (K.has_failed writer.new ≡ is_write_fault result.ending.fault) }
        ensures stopped { IfSome self.ending.fault
            (λ _. (result ≡ self) × (writer.new ≡ writer.old)) }
    {
        if self.ending.fault.is_some() {
            return self;
        }
        match self.write_sum(name, writer) {
            Ok(()) => self,
            Err(fault) => AloneComparison {
                ending: self.ending.stopped_by(fault),
                ..self
            },
        }
    }
}

/// Two machines that have booted, one for all lines and one for those of a name alone, and buffers for lines and replies.
#[derive(Drop)]
struct Machines<R: Router + Drop, Q: Router + Drop> {
    whole: Core<R>,
    alone: Core<Q>,
    /// For the second machine's replies.
    reply: Reply,
    buffers: CallBuffers,
}

/// The run of all lines on the machine of a list, and a name whose lines are answered alone too.
#[derive(Clone, Copy)]
struct AloneRun<'a> {
    run: LineDispatcher<'a>,
    name: &'a [u8],
}

impl<'a> AloneRun<'a> {
    fn new(list: &'a StartList, name: &'a [u8]) -> AloneRun<'a>
        ensures list { result.run.list.now ≡ list.now }
        ensures all { result.run.only ≡ None }
        ensures name { result.name.now ≡ name.now }
    {
        let run = LineDispatcher { list, only: None };
        AloneRun { run, name }
    }
}

impl<Q: Router + Drop> CallObserver for SecondMachine<'_, Q> {
    ghost tells = { λ second. alone_call_text second.name.now };

    ghost holds = { λ second. second.name.now };

    ghost sees = { λ second _. SeesAlone second.name.now second.core second.lines
        second.difference };

    fn tell<R: Router + Drop, K: Sink>(
        &mut self,
        _core: &Core<R>,
        _list: &StartList,
        heard: &ObservedCall<'_>,
        gathered: &mut WriteBuffer,
        writer: &mut K,
    ) -> Result<(), LineRunFault> {
        let run = LineDispatcher {
            list: self.list,
            only: Some(self.name),
        };
        let Some(alone) = run.answer_read(&mut self.core, heard.line, heard.call, &mut self.reply)
        else {
            return Ok(());
        };
        let alike = are_same(&alone, &heard.answer);
        self.lines = self.lines.saturating_add(1);
        self.difference = first_difference(self.difference, alike, heard.number);
        put_both(heard, &alone, gathered, writer)?;
        Ok(())
    }
}

// Whether two answers are the same.
fn are_same(one: &LineAnswer<'_>, other: &LineAnswer<'_>) -> bool
    ensures { one.now.lines.now ≡ other.now.lines.now → one.now.name.now ≡ other.now.name.now →
        one.now.reply.now ≡ other.now.reply.now → result ≡ true }
{
    one.lines == other.lines && one.name == other.name && one.reply == other.reply
}

// Returns the number of the first line whose answer differs, after one more line.
fn first_difference(difference: Option<u64>, alike: bool, number: u64) -> Option<u64>
    ensures { alike ≡ true → result ≡ difference }
{
    if alike || difference.is_some() {
        difference
    } else {
        Some(number)
    }
}

// Gathers a line with the text of its bytes, its answer in the whole run, and its answer alone.
fn put_both<K: Sink>(
    heard: &ObservedCall<'_>,
    alone: &LineAnswer<'_>,
    gathered: &mut WriteBuffer,
    writer: &mut K,
) -> Result<(), DeviceFault>
    requires works { K.has_failed writer.old ≡ false }
    requires read { IsReadAs heard.now.line.now heard.now.call }
    ensures told { OutputsUnless result (K.contents writer.old) gathered.old
        (K.contents writer.new) gathered.new
        ((decimal heard.now.number ++ codes ": " ++ map printed heard.now.line.now
        ++ option_map_or in_brackets (line_text heard.now.line.now) [] ++ 10 ∷ [])
        ++ (codes "  whole: " ++ answer_text (Some heard.now.answer))
        ++ (codes "  alone: " ++ answer_text (Some alone.now))) }
    ensures failing { K.has_failed writer.new ≡ is_err result }
{
    put_heard(heard, gathered, writer)?;
    put_side(b"  whole: ", &heard.answer, gathered, writer)?;
    put_side(b"  alone: ", alone, gathered, writer)
}

// Gathers a line after its number, and the text of its bytes after it.
fn put_heard<K: Sink>(
    heard: &ObservedCall<'_>,
    gathered: &mut WriteBuffer,
    writer: &mut K,
) -> Result<(), DeviceFault>
    requires works { K.has_failed writer.old ≡ false }
    requires read { IsReadAs heard.now.line.now heard.now.call }
    ensures told { OutputsUnless result (K.contents writer.old) gathered.old
        (K.contents writer.new) gathered.new
        (decimal heard.now.number ++ codes ": " ++ map printed heard.now.line.now
        ++ option_map_or in_brackets (line_text heard.now.line.now) [] ++ 10 ∷ []) }
    ensures failing { K.has_failed writer.new ≡ is_err result }
{
    put_line(heard.number, heard.line, gathered, writer)?;
    put_text_after(shown_in(heard.line, heard.call), gathered, writer)?;
    gathered.put(writer, b"\n")
}

// Gathers a line after its number, as the log prints bytes.
fn put_line<K: Sink>(
    number: u64,
    line: &[u8],
    gathered: &mut WriteBuffer,
    writer: &mut K,
) -> Result<(), DeviceFault>
    requires { K.has_failed writer.old ≡ false }
    ensures told { OutputsUnless result (K.contents writer.old) gathered.old
        (K.contents writer.new) gathered.new (decimal number ++ codes ": " ++ map printed line.now) }
    ensures failing { K.has_failed writer.new ≡ is_err result }
{
    put_number(number, gathered, writer)?;
    gathered.put(writer, b": ")?;
    put_printed(line, gathered, writer)
}

// Gathers an answer after the name of its side.
fn put_side<K: Sink>(
    side: &[u8],
    answer: &LineAnswer<'_>,
    gathered: &mut WriteBuffer,
    writer: &mut K,
) -> Result<(), DeviceFault>
    requires { K.has_failed writer.old ≡ false }
    ensures told { OutputsUnless result (K.contents writer.old) gathered.old
        (K.contents writer.new) gathered.new
        (side.now ++ answer_text (Some answer.now)) }
    ensures failing { K.has_failed writer.new ≡ is_err result }
{
    gathered.put(writer, side)?;
    gathered.put_answer(writer, answer.lines, answer.name, answer.reply)
}

/// Runs a scenario on a machine, and the lines of one name alone on a second machine. For each of these lines it writes the
/// number and the line, as the log prints bytes, with the text of its bytes. It also writes the line's answers in the whole run
/// and alone. At the end it writes how many these lines are, and that their answers are the same. They always are the same: each
/// component's answers are those of its own run. Errors of lines are written as they are found.
///
/// At a fault the output up to the fault is written, or a prefix of it if a write failed or the host is out of memory. It stops
/// as `run` does.
#[tactic(auto, using(run_lines::proofs::MachineLemmas::listed_at_start))]
pub fn alone<S: Source, K: Sink, E: Sink>(
    alloc: Global,
    play: ScenarioInput<'_>,
    name: &[u8],
    reader: &mut S,
    writer: &mut K,
    complaints: &mut E,
) -> Result<AloneComparison, BootFault>
    ensures played { IfOk result (λ compared. fault_before (S.has_failed reader.old)
        (K.has_failed writer.old || E.has_failed complaints.old) ≡ None →
        IsRunFrom (start_on None play.entry.start play.entry.list.now)
        (alone_text name.now play.entry.list.now) (alone_behind name.now) false
        (WritesAllReports (scope_of (subject_at play.entry.scenario) play.entry.list.now)
        (start_on None play.entry.start play.entry.list.now)
        (E.contents complaints.old) (E.contents complaints.new))
        compared.ending
        (S.remaining reader.old) (S.remaining reader.new)
        (S.has_failed reader.new) (K.contents writer.old) (K.contents writer.new)) }
    ensures summed { IfOk result (λ compared. fault_before (S.has_failed reader.old)
        (K.has_failed writer.old || E.has_failed complaints.old) ≡ None →
        IsRunFrom (start_on None play.entry.start play.entry.list.now)
        (alone_text name.now play.entry.list.now) (λ _. alone_sum name.now compared.lines)
        false
        (WritesAllReports (scope_of (subject_at play.entry.scenario) play.entry.list.now)
        (start_on None play.entry.start play.entry.list.now)
        (E.contents complaints.old) (E.contents complaints.new))
        compared.ending
        (S.remaining reader.old) (S.remaining reader.new)
        (S.has_failed reader.new) (K.contents writer.old) (K.contents writer.new)) }
    ensures counts { IfOk result (λ compared. fault_before (S.has_failed reader.old)
        (K.has_failed writer.old || E.has_failed complaints.old) ≡ None →
        IfNone compared.ending.fault (CountsAlone name.now
        (start_on None play.entry.start play.entry.list.now) (S.remaining reader.old)
        compared.ending.complaints compared.lines)) }
    ensures same { IfOk result (λ compared. fault_before (S.has_failed reader.old)
        (K.has_failed writer.old || E.has_failed complaints.old) ≡ None →
        IfNone compared.ending.fault (compared.difference ≡ None)) }
    ensures alike { AreAlike name.now }
    ensures few { IfOk result (λ compared. compared.ending.lines ≤ MAX_LINES) }
    ensures writing { IfOk result (λ compared. (K.has_failed writer.new
        || E.has_failed complaints.new) ≡ is_write_fault compared.ending.fault) }
    ensures reading { IfOk result (λ compared.
        IfNone compared.ending.fault (S.has_failed reader.new ≡ false)) }
    ensures ok { IfOk result (λ compared. IfSome compared.ending.fault (λ fault. fault ≢ NoRoom →
        IfSome (S.remaining reader.old) (λ input. HasCause input MAX_LINES
        (S.has_failed reader.new) (K.has_failed writer.new || E.has_failed complaints.new)))) }
    ensures before { IfOk result (λ compared. IfSome (fault_before (S.has_failed reader.old)
        (K.has_failed writer.old || E.has_failed complaints.old)) (λ fault.
        (compared.ending ≡ unplayed fault)
        × (reader.new ≡ reader.old) × (writer.new ≡ writer.old)
        × (complaints.new ≡ complaints.old))) }
    ensures boots { OnOk result (Boots (start_list_of play.entry.list.now)) }
    ensures unbooted { IfErr result (λ fault. fault ≢ NoMemory →
        quota_fault play.entry.list.now ≡ Some fault) }
    ensures untouched { OnErr result
        ((reader.new ≡ reader.old) × (writer.new ≡ writer.old)
        × (complaints.new ≡ complaints.old)) }
{
    let buffers = CallBuffers::new(alloc)?;
    let reply = Reply::boot(alloc)?;
    let whole = boot(alloc, play.list)?;
    let alone = boot(alloc, play.list)?;
    let mut state = ScenarioState::new(alloc, play.scenario, play.start);
    let machines = Machines {
        whole,
        alone,
        reply,
        buffers,
    };
    let named = AloneRun::new(play.list, name);
    Ok(run_alone(&named, machines, &mut state, reader, writer, complaints))
}

// The same on two machines that have booted.
fn run_alone<'a, R: Router + Drop, Q: Router + Drop, S: Source, K: Sink, E: Sink>(
    named: &AloneRun<'a>,
    machines: Machines<R, Q>,
    state: &mut ScenarioState<'_>,
    reader: &mut S,
    writer: &mut K,
    complaints: &mut E,
) -> AloneComparison
    requires listed { machines.whole.entries ≡ entries_of (start_list_of named.now.run.list.now) }
    requires all { named.now.run.only ≡ None }
    requires same { machines.alone ≡ machines.whole }
    ensures played { fault_before (S.has_failed reader.old)
        (K.has_failed writer.old || E.has_failed complaints.old) ≡ None →
        IsRunFrom (start_at named.now.run.list.now None machines.whole state.old.position state.old.checker.expected)
        (λ steps. text_of_steps (alone_call_text named.now.name.now machines.whole) None [] steps)
        (λ steps. alone_sum named.now.name.now
        (length (calls_answered (Some named.now.name.now) steps)))
        false
        (WritesAllReports (scope_of (subject_at state.old.checker.scenario) named.now.run.list.now)
        (start_at named.now.run.list.now None machines.whole state.old.position state.old.checker.expected)
        (E.contents complaints.old) (E.contents complaints.new))
        result.ending (S.remaining reader.old) (S.remaining reader.new)
        (S.has_failed reader.new) (K.contents writer.old) (K.contents writer.new) }
    ensures summed { fault_before (S.has_failed reader.old)
        (K.has_failed writer.old || E.has_failed complaints.old) ≡ None →
        IsRunFrom (start_at named.now.run.list.now None machines.whole state.old.position state.old.checker.expected)
        (λ steps. text_of_steps (alone_call_text named.now.name.now machines.whole) None [] steps)
        (λ _. alone_sum named.now.name.now result.lines)
        false
        (WritesAllReports (scope_of (subject_at state.old.checker.scenario) named.now.run.list.now)
        (start_at named.now.run.list.now None machines.whole state.old.position state.old.checker.expected)
        (E.contents complaints.old) (E.contents complaints.new))
        result.ending (S.remaining reader.old) (S.remaining reader.new)
        (S.has_failed reader.new) (K.contents writer.old) (K.contents writer.new) }
    ensures counts { fault_before (S.has_failed reader.old)
        (K.has_failed writer.old || E.has_failed complaints.old) ≡ None →
        IfNone result.ending.fault (CountsAlone named.now.name.now
        (start_at named.now.run.list.now None machines.whole state.old.position state.old.checker.expected)
        (S.remaining reader.old) result.ending.complaints result.lines) }
    ensures same { fault_before (S.has_failed reader.old)
        (K.has_failed writer.old || E.has_failed complaints.old) ≡ None →
        IfNone result.ending.fault (result.difference ≡ None) }
    ensures few { result.ending.lines ≤ MAX_LINES }
    ensures writing { (K.has_failed writer.new || E.has_failed complaints.new)
        ≡ is_write_fault result.ending.fault }
    ensures reading { IfNone result.ending.fault (S.has_failed reader.new ≡ false) }
    ensures before { IfSome (fault_before (S.has_failed reader.old)
        (K.has_failed writer.old || E.has_failed complaints.old))
        (λ fault. (result.ending ≡ unplayed fault)
        × (reader.new ≡ reader.old) × (writer.new ≡ writer.old)
        × (complaints.new ≡ complaints.old)) }
{
    let Machines {
        mut whole,
        alone,
        reply,
        mut buffers,
    } = machines;
    let name = named.name;
    let mut observer = SecondMachine {
        list: named.run.list,
        name,
        core: alone,
        reply,
        lines: 0,
        difference: None,
    };
    let mut runner = ScenarioRunner {
        complaints,
        run: &named.run,
        state,
        observer: &mut observer,
        buffers: &mut buffers,
        complained: 0,
    };
    let ending = play_lines(&mut runner, &mut whole, b"", reader, writer);
    let compared = AloneComparison {
        ending,
        lines: runner.observer.lines,
        difference: runner.observer.difference,
    };
    compared.close(name, writer)
}

// Returns the words between a number of lines and a name.
fn words_for(lines: u64) -> &'static [u8]
    ensures words { result.now ≡ words_for lines }
    ensures few { length result.now ≤ 10 }
{
    if lines == 1 {
        b" line of "
    } else {
        b" lines of "
    }
}

// Gathers how many lines there are, and whether the answers are the same.
fn put_sum<K: Sink>(
    name: &[u8],
    lines: u64,
    difference: Option<u64>,
    gathered: &mut WriteBuffer,
    writer: &mut K,
) -> Result<(), DeviceFault>
    requires { K.has_failed writer.old ≡ false }
    ensures told { difference ≡ None → OutputsUnless result (K.contents writer.old) gathered.old
        (K.contents writer.new) gathered.new (alone_sum name.now lines) }
    ensures failing { K.has_failed writer.new ≡ is_err result }
{
    if lines == 0 {
        return put_three(name, b": no line of the scenario", b"\n", gathered, writer);
    }
    let mut count: ArrayVec<u8, LONGEST_NUMBER> = ArrayVec::new();
    add_number(&mut count, lines);
    add(&mut count, words_for(lines));
    match difference {
        None => put_three(
            count.as_slice(),
            name,
            b": the same alone as in the whole run\n",
            gathered,
            writer,
        ),
        Some(line) => {
            put_three(
                count.as_slice(),
                name,
                b": alone it is otherwise from line ",
                gathered,
                writer,
            )?;
            put_number(line, gathered, writer)?;
            gathered.put(writer, b" on\n")
        }
    }
}
