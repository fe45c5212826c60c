//! The run of a scenario's lines with a line handler.
ghost use Rattle.std.specs.Prelude.{◌≡◌, ℕ, ◌+◌, ◌≤◌, ◌||◌, List, [], length, take, drop, true, false, IfNone, IfOk, OnOk};
ghost use Rattle.std.specs.Result.{result_err};
ghost use Rattle.own_model.specs.World.{World};
ghost use Rattle.run_lines.specs.Faults.{Fails, is_write_fault};
ghost use Rattle.run_lines.specs.Next.{AllWork, OutputsWork};
ghost use Rattle.run_lines.specs.LineRuns.{PlaysAll, HandlesLine, HandlesNext, ReadsOn, more_unless_stopped, point};

use crate::line_handler::LineHandler;
use crate::line_run_fault::LineRunFault;
use crate::lines::{Buffers, NextLine};
use line_grammar::LONGEST_LINE;
use pd_core::{Core, Router};
use run_devices::{Sink, Source};

/// The most lines that a scenario may have.
pub const MAX_LINES: u64 = 1_000_000;

/// How a run of lines ended.
#[derive(Clone, Copy, PartialEq, Eq)]
pub struct LineRunResult {
    /// The number of lines that were run.
    pub lines: u64,
    /// The fault that stopped the run before the end of its scenario, if any.
    pub fault: Option<LineRunFault>,
}

/// Runs each line of the reader in order, at most `max_lines`, after the bytes that are gathered already. All output is
/// written before each read and at the end. A device that has failed is never tried again. The result has the fault, if any:
/// `TooManyLines` if one more line begins, and otherwise the first fault of a device or of the handler.
pub fn play<P: LineHandler, R: Router + Drop, S: Source, K: Sink>(
    player: &mut P,
    core: &mut Core<R>,
    buffers: &mut Buffers,
    reader: &mut S,
    writer: &mut K,
    max_lines: u64,
) -> LineRunResult
    requires ready { P.is_ready player.old core.old max_lines }
    requires leads { P.leads player.old core.old player.old core.old [] }
    requires silent { P.told player.old core.old [] ≡ [] }
    requires fresh { buffers.old.ahead ≡ [] }
    requires works { AllWork (S.has_failed reader.old) (K.has_failed writer.old)
        (P.has_failed player.old) }
    ensures plays { PlaysAll (P.told player.old core.old)
        (P.leads player.old core.old player.new core.new)
        (P.stops player.old core.old player.new core.new)
        result.fault result.lines max_lines buffers.old.gathered
        (S.remaining reader.old) (S.remaining reader.new) (S.has_failed reader.new)
        (K.contents writer.old) (K.contents writer.new) }
    ensures few { result.lines ≤ max_lines }
    ensures writing { (K.has_failed writer.new || P.has_failed player.new)
        ≡ is_write_fault result.fault }
    ensures reading { IfNone result.fault (S.has_failed reader.new ≡ false) }
{
    for count in 0..max_lines {
        buffers.gathered.fits();
        match play_next(player, core, buffers, reader, writer) {
            Ok(true) => {}
            Ok(false) => {
                return LineRunResult {
                    lines: count,
                    fault: None,
                };
            }
            Err(fault) => {
                return LineRunResult {
                    lines: count,
                    fault: Some(fault),
                };
            }
        }
    }
    buffers.gathered.fits();
    match buffers.begins_line(reader, writer) {
        Ok(true) => LineRunResult {
            lines: max_lines,
            fault: Some(LineRunFault::TooManyLines),
        },
        Ok(false) => LineRunResult {
            lines: max_lines,
            fault: None,
        },
        Err(fault) => LineRunResult {
            lines: max_lines,
            fault: Some(LineRunFault::from(fault)),
        },
    }
}

// Runs the next line, and returns false if there is none.
fn play_next<P: LineHandler, R: Router + Drop, S: Source, K: Sink>(
    player: &mut P,
    core: &mut Core<R>,
    buffers: &mut Buffers,
    reader: &mut S,
    writer: &mut K,
) -> Result<bool, LineRunFault>
    requires ready { ((more : ℕ) × P.is_ready player.old core.old (more + 1)) }
    requires works { AllWork (S.has_failed reader.old) (K.has_failed writer.old)
        (P.has_failed player.old) }
    ensures ready { (more : ℕ) → P.is_ready player.old core.old (more + 1) →
        IfOk result (λ going. going ≡ true → P.is_ready player.new core.new more) }
    ensures next { (first : P) (start : World) (earlier : List (List ℕ)) →
        P.leads first start player.old core.old earlier →
        HandlesNext (P.told first start) (P.leads first start player.new core.new)
        (P.stops first start player.new core.new) earlier result (S.has_failed reader.new)
        (point buffers.old (S.remaining reader.old) (K.contents writer.old))
        (point buffers.new (S.remaining reader.new) (K.contents writer.new)) }
    ensures behind { (first : P) (start : World) (earlier : List (List ℕ)) →
        P.leads first start player.old core.old earlier →
        ReadsOn (point buffers.old (S.remaining reader.old) (K.contents writer.old))
        (point buffers.new (S.remaining reader.new) (K.contents writer.new)) }
    ensures works { OnOk result (AllWork (S.has_failed reader.new) (K.has_failed writer.new)
        (P.has_failed player.new)) }
    ensures writing { (K.has_failed writer.new || P.has_failed player.new)
        ≡ is_write_fault (result_err result) }
{
    match buffers.next_line(reader, writer) {
        Ok(NextLine::Line(count)) => {
            more_unless_stopped(play_ahead(player, core, buffers, count, writer))
        }
        Ok(NextLine::TooLong) => {
            more_unless_stopped(player.play_too_long(core, &mut buffers.gathered, writer))
        }
        Ok(NextLine::End) => Ok(false),
        Err(fault) => Err(LineRunFault::from(fault)),
    }
}

// Runs the line of `count` bytes at the front of the bytes ahead, and passes it with its newline.
fn play_ahead<P: LineHandler, R: Router + Drop, K: Sink>(
    player: &mut P,
    core: &mut Core<R>,
    buffers: &mut Buffers,
    count: usize,
    writer: &mut K,
) -> Result<(), LineRunFault>
    requires inside { count ≤ length buffers.old.ahead }
    requires short { count ≤ LONGEST_LINE }
    requires ready { ((more : ℕ) × P.is_ready player.old core.old (more + 1)) }
    requires works { OutputsWork (K.has_failed writer.old) (P.has_failed player.old) }
    ensures passed { buffers.new.ahead ≡ drop (count + 1) buffers.old.ahead }
    ensures ready { (more : ℕ) → P.is_ready player.old core.old (more + 1) →
        OnOk result (P.is_ready player.new core.new more) }
    ensures played { (first : P) (start : World) (earlier : List (List ℕ)) →
        P.leads first start player.old core.old earlier →
        HandlesLine (P.told first start) (P.leads first start player.new core.new)
        (P.stops first start player.new core.new) earlier (take count buffers.old.ahead) result
        (K.contents writer.old) buffers.old.gathered
        (K.contents writer.new) buffers.new.gathered }
    ensures failing { Fails result (K.has_failed writer.new || P.has_failed player.new) true }
{
    let line = &buffers.ahead.ahead()[..count];
    let played = player.play(core, line, &mut buffers.gathered, writer);
    buffers.ahead.pass(count + 1);
    played
}

// Returns true after a line, as there may be more, and the fault after a fault.
fn more_unless_stopped(played: Result<(), LineRunFault>) -> Result<bool, LineRunFault>
    ensures { result ≡ more_unless_stopped played }
{
    match played {
        Ok(()) => Ok(true),
        Err(fault) => Err(fault),
    }
}
