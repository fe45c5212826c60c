//! The trait of a line handler.
ghost use Rattle.std.specs.Prelude.{◌≡◌, ℕ, ◌+◌, ◌<◌, ◌≤◌, ◌||◌, Bool, List, length, false, true, OnOk};
ghost use Rattle.own_model.specs.World.{World};
ghost use Rattle.run_lines.specs.Faults.{Fails};
ghost use Rattle.run_lines.specs.Next.{OutputsWork};
ghost use Rattle.run_lines.specs.LineRuns.{HandlesLine};
ghost use Rattle.run_lines.specs.declared.line_run_fault.LineRunFault.{LineRunFault as Fault};

use crate::line_run_fault::LineRunFault;
use line_grammar::LONGEST_LINE;
use pd_core::{Core, Router};
use run_devices::{Sink, WriteBuffer};

/// A handler of a scenario's lines on a machine: it parses each line, carries its call out, and gathers its output.
pub trait LineHandler {
    // The output of lines, by the handler and the world at the start.
    ghost told: { Self → World → List (List ℕ) → List ℕ };

    // A relation: the handler and the world at the start become this handler and this world by these lines.
    ghost leads: { Self → World → Self → World → List (List ℕ) → Type 0 };

    // The same relation, and at the last of these lines a fault has stopped the handler.
    ghost stops: { Self → World → Self → World → Fault → List (List ℕ) → Type 0 };

    // The handler can run this number of lines more.
    ghost is_ready: { Self → World → ℕ → Type 0 };

    // Whether a write of its own has failed, in addition to the output.
    ghost has_failed: { Self → Bool } = { λ _. false };

    /// Runs a line and gathers its output. Returns `WriteFault` if a write fails, and `NoMemory` if the host is out of
    /// memory.
    fn play<R: Router + Drop, K: Sink>(
        &mut self,
        core: &mut Core<R>,
        line: &[u8],
        gathered: &mut WriteBuffer,
        writer: &mut K,
    ) -> Result<(), LineRunFault>
        requires short { length line.now ≤ LONGEST_LINE }
        requires ready { ((more : ℕ) × is_ready self.old core.old (more + 1)) }
        requires works { OutputsWork (K.has_failed writer.old) (has_failed self.old) }
        ensures ready { (more : ℕ) → is_ready self.old core.old (more + 1) →
            OnOk result (is_ready self.new core.new more) }
        ensures played { (first : Self) (start : World) (earlier : List (List ℕ)) →
            leads first start self.old core.old earlier →
            HandlesLine (told first start) (leads first start self.new core.new)
            (stops first start self.new core.new) earlier line.now result
            (K.contents writer.old) gathered.old (K.contents writer.new) gathered.new }
        ensures failing { Fails result (K.has_failed writer.new || has_failed self.new) true };

    /// Runs a line of more than `LONGEST_LINE` bytes, which is passed already. Returns the faults of `play`.
    fn play_too_long<R: Router + Drop, K: Sink>(
        &mut self,
        core: &mut Core<R>,
        gathered: &mut WriteBuffer,
        writer: &mut K,
    ) -> Result<(), LineRunFault>
        requires ready { ((more : ℕ) × is_ready self.old core.old (more + 1)) }
        requires works { OutputsWork (K.has_failed writer.old) (has_failed self.old) }
        ensures ready { (more : ℕ) → is_ready self.old core.old (more + 1) →
            OnOk result (is_ready self.new core.new more) }
        ensures played { (first : Self) (start : World) (earlier : List (List ℕ))
            (line : List ℕ) → LONGEST_LINE < length line →
            leads first start self.old core.old earlier →
            HandlesLine (told first start) (leads first start self.new core.new)
            (stops first start self.new core.new) earlier line result
            (K.contents writer.old) gathered.old (K.contents writer.new) gathered.new }
        ensures failing { Fails result (K.has_failed writer.new || has_failed self.new) true };
}
