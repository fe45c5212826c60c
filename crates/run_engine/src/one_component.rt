//! The engine's run of one name's lines alone.
ghost use Rattle.std.specs.Prelude.{◌≡◌, ◌≤◌, ◌||◌, true, false, IfSome, IfOk, IfErr, OnOk, Some};
ghost use Rattle.own_model.specs.Listed.{start_list_of};
ghost use Rattle.own_model.specs.StartList.{entries_of};
ghost use Rattle.run_engine.specs.Runs.{Completes, FaultBefore, KeepsWorld};
ghost use Rattle.run_lines.specs.Causes.{HasCause, is_write_fault};
ghost use Rattle.run_engine.specs.Stops.{Stops};

use crate::engine::{Summary, run_selected};
use core_calls::Reply;
use list_parser::StartList;
use run_lines::{Core, LineDispatcher, Router, RunFault, Sink, Source};

/// Answers the lines of one name alone: those of at most `LONGEST_LINE` bytes that `read_line` parses as calls under it.
/// Every other line is counted and skipped: it has no output, and is read only as far as the name. All else, including the
/// faults, is as in `run`. The output is the transcript of the name's lines alone. It equals the part for these lines of the
/// transcript of all lines (`own_model`'s `lines_are_independent`).
pub fn run_only<R: Router + Drop, S: Source, K: Sink>(
    core: &mut Core<R>,
    list: &StartList,
    reply: &mut Reply,
    only: &[u8],
    reader: &mut S,
    writer: &mut K,
    max_lines: u64,
) -> Result<Summary, RunFault>
    requires listed { core.old.entries ≡ entries_of (start_list_of list.now) }
    ensures few { IfOk result (λ summary. summary.lines ≤ max_lines) }
    ensures done { IfOk result (λ summary. IfSome (S.remaining reader.old) (λ input.
        Completes (Some only.now) summary.lines core.old core.new input
        (K.contents writer.old) (K.contents writer.new))) }
    ensures keeps { KeepsWorld core.old core.new }
    ensures writing { K.has_failed writer.new ≡ is_write_fault result }
    ensures reading { OnOk result (S.has_failed reader.new ≡ false) }
    ensures stops { IfErr result (λ fault. IfSome (S.remaining reader.old) (λ input.
        Stops (Some only.now) fault max_lines core.old core.new input
        (S.remaining reader.new) (S.has_failed reader.new)
        (K.contents writer.old) (K.contents writer.new))) }
    ensures ok { IfErr result (λ fault. IfSome (S.remaining reader.old) (λ input.
        HasCause input max_lines (S.has_failed reader.new) (K.has_failed writer.new))) }
    ensures before { (K.has_failed writer.old || S.has_failed reader.old) ≡ true →
        FaultBefore result (S.has_failed reader.old) (K.has_failed writer.old)
        × (core.new ≡ core.old) × (reader.new ≡ reader.old) × (writer.new ≡ writer.old) }
{
    let run = LineDispatcher {
        list,
        only: Some(only),
    };
    run_selected(&run, core, reply, reader, writer, max_lines)
}
