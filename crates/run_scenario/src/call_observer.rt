//! Observers of each answered call.
ghost use Rattle.std.specs.Prelude.{◌≡◌, ◌∷◌, ◌++◌, ℕ, Bool, List, [], false, OnOk};
ghost use Rattle.own_model.specs.Listed.{Listed, start_list_of};
ghost use Rattle.own_model.specs.StartList.{entries_of};
ghost use Rattle.own_model.specs.World.{World};
ghost use Rattle.run_devices.specs.RunOutput.{OutputsUnless};
ghost use Rattle.line_grammar.specs.Read.{IsReadAs};
ghost use Rattle.run_lines.specs.Faults.{Fails};
ghost use Rattle.run_scenario.specs.Observation.{IsAnsweredAfter};

use list_parser::StartList;
use run_lines::{Core, LineAnswer, LineRunFault, NamedCall, Router, Sink, WriteBuffer};

/// A call that was answered.
#[derive(Clone, Copy)]
pub struct ObservedCall<'a> {
    /// The number of the scenario's line with the call, from 1 on.
    pub number: u64,
    /// The engine's line.
    pub line: &'a [u8],
    /// The call that the engine parses of the line; nothing if it is no call.
    pub call: Option<NamedCall<'a>>,
    /// The answer to the call.
    pub answer: LineAnswer<'a>,
}

/// Observes each answer of a run.
pub trait CallObserver {
    // What is written for a call: by the world at the start, the calls that were answered before it, the number of its line, and
    // the engine's line.
    ghost tells: { Self → World → List (List ℕ) → ℕ → List ℕ → List ℕ };

    // Whether writing or keeping a call takes memory of the host.
    ghost takes: { Bool } = { false };

    // The value that the observer was made with, and keeps.
    ghost holds: { Self → List ℕ } = { λ _. [] };

    // On the machine of this list, from this world on, these calls are all that was observed.
    ghost sees: { Self → Listed → World → List (List ℕ) → Type 0 };

    /// Observes an answer, with the core after it, and gathers what is written for it. The error is a failed write, or that the
    /// host is out of memory.
    fn tell<R: Router + Drop, K: Sink>(
        &mut self,
        core: &Core<R>,
        list: &StartList,
        heard: &ObservedCall<'_>,
        gathered: &mut WriteBuffer,
        writer: &mut K,
    ) -> Result<(), LineRunFault>
        requires listed { core.now.entries ≡ entries_of (start_list_of list.now) }
        requires read { IsReadAs heard.now.line.now heard.now.call }
        requires writes { K.has_failed writer.old ≡ false }
        ensures told { (start : World) (earlier : List (List ℕ)) →
            sees self.old list.now start earlier →
            IsAnsweredAfter start earlier heard.now.line.now core.now heard.now.answer →
            OutputsUnless result (K.contents writer.old) gathered.old (K.contents writer.new)
            gathered.new
            (tells self.old start earlier heard.now.number heard.now.line.now) }
        ensures seen { (start : World) (earlier : List (List ℕ)) →
            sees self.old list.now start earlier →
            IsAnsweredAfter start earlier heard.now.line.now core.now heard.now.answer →
            OnOk result (sees self.new list.now start (earlier ++ heard.now.line.now ∷ [])) }
        ensures same { tells self.new ≡ tells self.old }
        ensures held { holds self.new ≡ holds self.old }
        ensures works { OnOk result (K.has_failed writer.new ≡ false) }
        ensures failing { Fails result (K.has_failed writer.new) takes };
}
