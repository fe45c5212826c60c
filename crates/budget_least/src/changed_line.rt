//! The lines of a scenario that change with the budgets.
ghost use Rattle.std.specs.Prelude.{◌≡◌, ◌++◌, if◌then◌else◌, map, option_to_list, None, OnOk, Some};
ghost use Rattle.std.specs.List.{slice_get};
ghost use Rattle.std.specs.Option.{option_copied, option_map};
ghost use Rattle.budget_least.specs.ChangedLines.{changed_lines, changed_number, is_same};
ghost use Rattle.budget_least.specs.ComponentLines.{line_of, lines_of};

use crate::lines_by_component::LinesByComponent;
use budget_search::ComponentLine;
use std::alloc::{AllocError, Global};

/// A line that changes with the budgets.
#[derive(Clone, Copy)]
pub(crate) struct ChangedLine {
    /// The component that makes its call.
    pub(crate) component: usize,
    /// The number of the scenario's line, from 1 on.
    pub(crate) number: u64,
}

impl LinesByComponent {
    ghost use Rattle.std.specs.Prelude.{◌≡◌, map, IfOk};
    ghost use Rattle.budget_least.specs.ChangedLines.{changed_numbers};
    ghost use Rattle.budget_least.specs.ComponentLines.{lines_in};

    /// Returns the places of lines that differ in another reading of the same scenario. The error is that the host is out of
    /// memory.
    pub(crate) fn changed(
        &self,
        alloc: Global,
        other: &LinesByComponent,
    ) -> Result<Vec<ChangedLine>, AllocError>
        ensures { IfOk result (λ changed. map (λ line. line.number) changed.items
            ≡ changed_numbers (lines_in self.now) (lines_in other.now)) }
    {
        let mut changed = Vec::new(alloc);
        for component in 0..self.steps.len() {
            let steps = self.of(component);
            let others = other.of(component);
            add_changed(&mut changed, component, steps, others)?;
        }
        Ok(changed)
    }
}

// Adds the lines of a component that are other lines in another reading.
fn add_changed(
    changed: &mut Vec<ChangedLine>,
    component: usize,
    steps: &[ComponentLine],
    others: &[ComponentLine],
) -> Result<(), AllocError>
    ensures { OnOk result (map (λ line. line.number) changed.new.items
        ≡ map (λ line. line.number) changed.old.items
        ++ changed_lines (lines_of steps.now) (lines_of others.now)) }
{
    let count = steps.len().max(others.len());
    for place in 0..count {
        let step = line_at(steps, place);
        let other = line_at(others, place);
        let number = changed_number(step, other);
        add_number(changed, component, number)?;
    }
    Ok(())
}

// Returns the line at a place, if there is one.
fn line_at(steps: &[ComponentLine], place: usize) -> Option<&ComponentLine>
    ensures { option_copied result ≡ slice_get steps.now place }
{
    steps.get(place)
}

// Adds a line of a component by its number, if there is one.
fn add_number(
    changed: &mut Vec<ChangedLine>,
    component: usize,
    number: Option<u64>,
) -> Result<(), AllocError>
    ensures { OnOk result (map (λ line. line.number) changed.new.items
        ≡ map (λ line. line.number) changed.old.items ++ option_to_list number) }
{
    if let Some(number) = number {
        changed.push(ChangedLine { component, number })?;
    }
    Ok(())
}

// Returns the number of a line, if another reading hasn't the same line at its place.
fn changed_number(step: Option<&ComponentLine>, other: Option<&ComponentLine>) -> Option<u64>
    ensures { result ≡ changed_number (option_map line_of (option_copied step.entry))
        (option_map line_of (option_copied other.entry)) }
{
    match (step, other) {
        (None, None) => None,
        (None, Some(other)) => Some(other.number),
        (Some(step), None) => Some(step.number),
        (Some(step), Some(other)) => unlike_number(step, other),
    }
}

// Returns the number of a line, if another one isn't the same line.
fn unlike_number(step: &ComponentLine, other: &ComponentLine) -> Option<u64>
    ensures { result ≡ (if is_same (line_of step.now) (line_of other.now) then None
        else Some step.now.number) }
{
    if step.is_like(other) {
        return None;
    }
    Some(step.number)
}
