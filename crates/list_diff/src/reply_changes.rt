//! Replies of a scenario that differ on two machines.
ghost use Rattle.std.specs.Prelude.{◌≡◌, ◌+◌, ◌++◌, ◌<◌, IfOk, OnOk, length};
ghost use Rattle.std.specs.Option.{option_copied};
ghost use Rattle.list_diff.specs.Replies.{AreCompared, IsStep, behind_if, compared_by_place, compared_line, first_if, has_new, has_old, is_sought, lacks_meaning, reply_to, same_reply, text_of};

use crate::line_outcomes::{LineOutcome, LineResult};
use std::alloc::{AllocError, Global};

/// The maximum number of lines between which lines of both texts are aligned again.
const NEAREST: usize = 32;

/// The lines of a scenario that are sought.
#[derive(Clone, Copy)]
pub enum ComparedLines {
    /// The lines whose replies differ, or that one machine alone answers.
    Changed,
    /// The lines that no machine understands.
    Misread,
}

/// A line of a scenario with what came of it on two machines.
#[derive(Clone, Copy)]
pub struct ReplyChange<'a> {
    /// The line on the machine before, if the scenario has it there.
    pub was: Option<LineResult<'a>>,
    /// The line on the machine after, if the scenario has it there.
    pub now: Option<LineResult<'a>>,
}

/// A step from one text to another.
#[derive(Clone, Copy)]
pub(crate) enum AlignmentStep {
    /// The first line of both texts stays.
    Kept,
    /// The first line of the text before is removed.
    Removed,
    /// The first line of the text after is added.
    Added,
}

impl AlignmentStep {
    // Returns whether the step takes a line of the text before.
    fn has_old(self) -> bool
        ensures { result ≡ has_old self }
    {
        match self {
            AlignmentStep::Kept | AlignmentStep::Removed => true,
            AlignmentStep::Added => false,
        }
    }

    // Returns whether the step takes a line of the text after.
    fn has_new(self) -> bool
        ensures { result ≡ has_new self }
    {
        match self {
            AlignmentStep::Kept | AlignmentStep::Added => true,
            AlignmentStep::Removed => false,
        }
    }
}

/// Returns the lines whose replies differ on two machines, or that one machine alone answers, in order; or those that no machine
/// understands. If both texts are the same, each line is aligned with itself. Else lines of the same text are aligned, and any other
/// line is removed or added: after a line that differs, the texts are aligned again at the nearest lines that are the same. Fails if
/// the host is out of memory.
pub fn compared_lines<'a>(
    alloc: Global,
    wanted: ComparedLines,
    before: &[LineResult<'a>],
    after: &[LineResult<'a>],
) -> Result<Vec<ReplyChange<'a>>, AllocError>
    ensures aligned { IfOk result (λ found. AreCompared wanted before.now after.now found.items) }
    ensures same { IfOk result (λ found. text_of before.now ≡ text_of after.now
        → found.items ≡ compared_by_place wanted before.now after.now) }
{
    let mut found = Vec::new(alloc);
    let (mut rest, mut rest_after) = (before, after);
    while !rest.is_empty() || !rest_after.is_empty() {
        let step = next_step(rest, rest_after);
        let was = first_if(step.has_old(), rest);
        add_line(
            &mut found,
            wanted,
            was,
            first_if(step.has_new(), rest_after),
        )?;
        rest = behind_if(step.has_old(), rest);
        rest_after = behind_if(step.has_new(), rest_after);
    }
    Ok(found)
}

// Returns the first line if a step takes it.
fn first_if<'a>(is_taken: bool, lines: &[LineResult<'a>]) -> Option<LineResult<'a>>
    ensures { result ≡ first_if is_taken lines.now }
{
    match lines.first() {
        Some(line) if is_taken => Some(*line),
        _ => None,
    }
}

// Returns the lines without the first if a step takes it.
fn behind_if<'b, 'a>(is_taken: bool, lines: &'b [LineResult<'a>]) -> &'b [LineResult<'a>]
    ensures { result.now ≡ behind_if is_taken lines.now }
{
    if is_taken && !lines.is_empty() {
        &lines[1..]
    } else {
        lines
    }
}

// Returns the next step from one text to another. Lines that both texts begin with stay. Else the step leads to the nearest lines
// that are the same, or if there are none it shortens the longer text.
fn next_step(before: &[LineResult<'_>], after: &[LineResult<'_>]) -> AlignmentStep
    requires { 0 < length before.now + length after.now }
    ensures { IsStep before.now after.now result }
{
    if after.is_empty() {
        AlignmentStep::Removed
    } else if before.is_empty() {
        AlignmentStep::Added
    } else if before[0].line == after[0].line {
        AlignmentStep::Kept
    } else if is_removal(before, after) {
        AlignmentStep::Removed
    } else {
        AlignmentStep::Added
    }
}

// Returns whether a line is removed on the way to the nearest lines that are the same, or from the longer text if there are none.
fn is_removal(before: &[LineResult<'_>], after: &[LineResult<'_>]) -> bool {
    for distance in 1..NEAREST {
        if let Some(removed) = removed_within(before, after, distance) {
            return removed > 0;
        }
    }
    before.len() >= after.len()
}

// Returns how many lines are removed, if lines are the same after so many lines that are removed or added.
fn removed_within(
    before: &[LineResult<'_>],
    after: &[LineResult<'_>],
    distance: usize,
) -> Option<usize> {
    for removed in 0..=distance {
        if let (Some(was), Some(now)) = (before.get(removed), after.get(distance - removed)) {
            if was.line == now.line {
                return Some(removed);
            }
        }
    }
    None
}

// Adds a line if it is sought.
fn add_line<'a>(
    found: &mut Vec<ReplyChange<'a>>,
    wanted: ComparedLines,
    was: Option<LineResult<'a>>,
    now: Option<LineResult<'a>>,
) -> Result<(), AllocError>
    ensures { OnOk result (found.new.items
        ≡ found.old.items ++ compared_line wanted was.entry now.entry) }
{
    if is_sought(wanted, was, now) {
        found.push(ReplyChange { was, now })?;
    }
    Ok(())
}

// Returns whether a line is sought.
fn is_sought(
    wanted: ComparedLines,
    was: Option<LineResult<'_>>,
    now: Option<LineResult<'_>>,
) -> bool
    ensures { result ≡ is_sought wanted was.entry now.entry }
{
    match wanted {
        ComparedLines::Changed => !is_same_reply(reply_of(was), reply_of(now)),
        ComparedLines::Misread => is_misread(was) && is_misread(now),
    }
}

// Returns whether a machine doesn't understand a line, or doesn't have it.
fn is_misread(line: Option<LineResult<'_>>) -> bool
    ensures { result ≡ lacks_meaning line.entry }
{
    match line {
        Some(line) => !line.is_understood,
        None => true,
    }
}

// Returns the reply to a line, if it was answered.
fn reply_of<'a>(line: Option<LineResult<'a>>) -> Option<&'a [u8]>
    ensures { option_copied result ≡ reply_to line.entry }
{
    match line {
        Some(line) => match line.outcome {
            LineOutcome::Answered(exchange) => Some(exchange.answer().text),
            LineOutcome::Faulty(_) | LineOutcome::Silent => None,
        },
        None => None,
    }
}

// Returns whether two replies are the same, or there is none.
fn is_same_reply(was: Option<&[u8]>, now: Option<&[u8]>) -> bool
    ensures { result ≡ same_reply (option_copied was.entry) (option_copied now.entry) }
{
    match (was, now) {
        (Some(was), Some(now)) => was == now,
        (None, None) => true,
        _ => false,
    }
}
