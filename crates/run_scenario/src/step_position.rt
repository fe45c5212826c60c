//! The position of a run after the step of a line.
ghost use Rattle.std.specs.Prelude.{◌≡◌, ℕ, List, OnOk, Option};
ghost use Rattle.line_steps.specs.ResolvedViews.{resolved_view};
ghost use Rattle.own_model.specs.World.{World};
ghost use Rattle.run_scenario.specs.CallAnswers.{TakesStep, answer_of};
ghost use Rattle.run_scenario.specs.LineSteps.{next_position, resolved_at, position_with};

use crate::line_step::{LineStep, answer_in};
use line_steps::{ResolvedLine, RunPosition};
use std::alloc::AllocError;

/// Moves a position past a line by the line's step, whose answer isn't checked: follows its directive, binds the names that its
/// reply binds, and enters and leaves the rounds after it. The error is that the host is out of memory.
pub fn move_past(position: &mut RunPosition<'_>, step: &LineStep<'_>) -> Result<(), AllocError>
    ensures { (only : Option (List ℕ)) (line : List ℕ) (old new : World) →
        TakesStep only position.old.number (resolved_at only position.old line) old new step.now →
        OnOk result (position.new ≡ next_position only old position.old line) }
{
    let _ = position.pass();
    bind(position, step)?;
    position.arrive()
}

// Follows the directive of a line, or binds the names that its reply binds, if its call was answered.
fn bind(position: &mut RunPosition<'_>, step: &LineStep<'_>) -> Result<(), AllocError>
    ensures { OnOk result (position.new ≡ position_with position.old (resolved_view step.now.resolved)
        (answer_of step.now.answered)) }
{
    match &step.resolved {
        ResolvedLine::Directive(directive) => position.follow(*directive),
        ResolvedLine::Call(call) => match answer_in(&step.answered) {
            Some(answer) => position.learn(&call.filled, answer.reply),
            None => Ok(()),
        },
        _ => Ok(()),
    }
}
