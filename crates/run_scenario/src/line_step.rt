//! The step of a line: the line is resolved, and its call is answered and reported.
ghost use Rattle.std.specs.Prelude.{◌≡◌, ◌∷◌, ◌&&◌, [], ℕ, List, IfSome, false, is_some};
ghost use Rattle.std.specs.Prelude.{Option};
ghost use Rattle.std.specs.Option.{option_copied};
ghost use Rattle.own_model.specs.Listed.{start_list_of};
ghost use Rattle.own_model.specs.StartList.{entries_of};
ghost use Rattle.own_model.specs.World.{World};
ghost use Rattle.run_lines.specs.Answered.{after_all};
ghost use Rattle.run_lines.specs.Faults.{Fails};
ghost use Rattle.line_grammar.specs.Read.{IsReadAs, Reads};
ghost use Rattle.line_steps.specs.ResolvedViews.{HasParsedCall, resolved_view};
ghost use Rattle.run_scenario.specs.CallAnswers.{ReportsCalls, IsAnsweredCall, TakesStep, answer_of};
ghost use Rattle.run_scenario.specs.LineSteps.{calls_in, resolved_at};

use crate::call_observer::{CallObserver, ObservedCall};
use core_calls::Reply;
use line_steps::{LineBuffers, ResolvedLine, RunPosition, resolve};
use list_parser::StartList;
use run_lines::{
    Core, LineAnswer, LineDispatcher, LineRunFault, NamedCall, Router, Sink, WriteBuffer,
};
use std::alloc::Global;
use trade_base::NoMemory;

/// A line after substitution, and its answered call, if it has one that was answered.
#[derive(Drop)]
pub struct LineStep<'a> {
    pub resolved: ResolvedLine<'a>,
    pub answered: Option<ObservedCall<'a>>,
}

/// Buffers for a line that is filled and parsed, and for the reply to its call.
#[derive(Drop)]
pub struct CallBuffers {
    line: LineBuffers,
    reply: Reply,
}

impl CallBuffers {
    /// Returns empty buffers. The error is that the host is out of memory.
    pub fn new(alloc: Global) -> Result<CallBuffers, NoMemory> {
        Ok(CallBuffers {
            line: LineBuffers::new(),
            reply: Reply::boot(alloc)?,
        })
    }
}

/// Resolves a line at a position of the run, and answers its call, if it has one that isn't skipped.
pub fn take_step<'a, 'b, R: Router + Drop>(
    run: &LineDispatcher<'a>,
    core: &mut Core<R>,
    position: &RunPosition<'_>,
    line: &'b [u8],
    buffers: &'b mut CallBuffers,
) -> LineStep<'b>
where
    'a: 'b,
    requires listed { core.old.entries ≡ entries_of (start_list_of run.now.list.now) }
    ensures { TakesStep (option_copied run.now.only) position.now.number
        (resolved_at (option_copied run.now.only) position.now line.now) core.old core.new result }
{
    let resolved = resolve(run.only, position.known(), line, &mut buffers.line);
    let answered = answer_resolved(run, core, position, &resolved, &mut buffers.reply);
    LineStep { resolved, answered }
}

// Answers the call of a resolved line at a position of the run, if it has one that isn't skipped. The function isn't inlined, so that
// its result is written in its place once.
#[inline(never)]
fn answer_resolved<'a, 'b, R: Router + Drop>(
    run: &LineDispatcher<'a>,
    core: &mut Core<R>,
    position: &RunPosition<'_>,
    resolved: &ResolvedLine<'b>,
    reply: &'b mut Reply,
) -> Option<ObservedCall<'b>>
where
    'a: 'b,
    requires listed { core.old.entries ≡ entries_of (start_list_of run.now.list.now) }
    requires read { HasParsedCall resolved.now }
    ensures world { core.new ≡ after_all (option_copied run.now.only) core.old
        (calls_in (resolved_view resolved.now)) }
    ensures heard { IsAnsweredCall (option_copied run.now.only) core.old position.now.number
        (calls_in (resolved_view resolved.now)) result }
    ensures read { IfSome result (λ it. IsReadAs it.line.now it.call) }
{
    match resolved {
        ResolvedLine::Call(call) => answer(run, core, position, call.line, call.call, reply),
        _ => None,
    }
}

/// Answers a call in a plain line at a position of the run, or nothing if the call is skipped.
#[inline(always)]
pub fn answer_plain<'a, 'b, R: Router + Drop>(
    run: &LineDispatcher<'a>,
    core: &mut Core<R>,
    position: &RunPosition<'_>,
    line: &'b [u8],
    call: NamedCall<'b>,
    buffers: &'b mut CallBuffers,
) -> Option<ObservedCall<'b>>
where
    'a: 'b,
    requires listed { core.old.entries ≡ entries_of (start_list_of run.now.list.now) }
    requires read { Reads line.now call }
    ensures world { core.new ≡ after_all (option_copied run.now.only) core.old (line.now ∷ []) }
    ensures heard { IsAnsweredCall (option_copied run.now.only) core.old position.now.number
        (line.now ∷ []) result }
    ensures read { IfSome result (λ it. IsReadAs it.line.now it.call) }
{
    answer(run, core, position, line, Some(call), &mut buffers.reply)
}

// Answers the engine's line of a line at a position of the run. `call` is what was parsed of it.
#[inline(always)]
fn answer<'a, 'b, R: Router + Drop>(
    run: &LineDispatcher<'a>,
    core: &mut Core<R>,
    position: &RunPosition<'_>,
    line: &'b [u8],
    call: Option<NamedCall<'b>>,
    reply: &'b mut Reply,
) -> Option<ObservedCall<'b>>
where
    'a: 'b,
    requires listed { core.old.entries ≡ entries_of (start_list_of run.now.list.now) }
    requires read { IsReadAs line.now call }
    ensures world { core.new ≡ after_all (option_copied run.now.only) core.old (line.now ∷ []) }
    ensures heard { IsAnsweredCall (option_copied run.now.only) core.old position.now.number
        (line.now ∷ []) result }
    ensures read { IfSome result (λ it. IsReadAs it.line.now it.call) }
{
    let number = position.number();
    match run.answer_read(core, line, call, reply) {
        Some(answer) => Some(ObservedCall {
            number,
            line,
            call,
            answer,
        }),
        None => None,
    }
}

/// Returns the answer to a call, if the call was answered.
pub fn answer_in<'a>(heard: &Option<ObservedCall<'a>>) -> Option<LineAnswer<'a>>
    ensures { result ≡ answer_of heard.now }
{
    match heard {
        Some(heard) => Some(heard.answer),
        None => None,
    }
}

/// Reports a call to an observer, if the call was answered. The error is the observer's.
#[inline(always)]
pub fn report_call<R: Router + Drop, W: CallObserver, K: Sink>(
    observer: &mut W,
    core: &Core<R>,
    list: &StartList,
    heard: &Option<ObservedCall<'_>>,
    gathered: &mut WriteBuffer,
    writer: &mut K,
) -> Result<(), LineRunFault>
    requires listed { core.now.entries ≡ entries_of (start_list_of list.now) }
    requires read { IfSome heard.now (λ it. IsReadAs it.line.now it.call) }
    requires writes { K.has_failed writer.old ≡ false }
    ensures hears { (only : Option (List ℕ)) (number : ℕ) (old : World) (calls : List (List ℕ)) →
        core.now ≡ after_all only old calls → IsAnsweredCall only old number calls heard.now →
        ReportsCalls only (W.tells observer.old) (W.sees observer.old list.now) (W.sees observer.new list.now)
        number calls old core.now result
        (K.contents writer.old) gathered.old (K.contents writer.new) gathered.new }
    ensures same { W.tells observer.new ≡ W.tells observer.old }
    ensures held { W.holds observer.new ≡ W.holds observer.old }
    ensures failing { Fails result (K.has_failed writer.new) (is_some heard.now && W.takes) }
{
    match heard {
        Some(heard) => observer.tell(core, list, heard, gathered, writer),
        None => Ok(()),
    }
}
