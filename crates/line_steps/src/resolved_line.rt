//! Lines of a scenario with the values of their names.

use line_friendly::FriendlyFault;
use line_grammar::NamedCall;
use line_names::{Directive, DirectiveFault, FilledLine, NameFault};

/// A line of a scenario with the values of its names.
#[derive(Drop)]
pub enum ResolvedLine<'a> {
    /// The line is too long to be read.
    TooLong,
    /// The line is another component's than the one whose lines are run.
    Skipped,
    /// A name in the line has a fault.
    BadName(NameFault),
    /// The line is a directive.
    Directive(Directive<'a>),
    /// The line is a directive that can't be followed, with its column, from 1 on.
    Misplaced(usize, DirectiveFault),
    /// The line is blank, or a comment.
    Nothing,
    /// The line is a log line that the next call is expected to finish.
    Log(&'a [u8]),
    /// The line is a call.
    Call(ScenarioCall<'a>),
    /// The line can't be parsed. The column of the fault is the one before substitution.
    BadLine(FriendlyFault),
}

/// A call in a line of a scenario.
#[derive(Drop)]
pub struct ScenarioCall<'a> {
    /// The line with the values of its names.
    pub filled: FilledLine<'a>,
    /// The engine's line.
    pub line: &'a [u8],
    /// The call that the engine parses of its line; nothing if it is no call.
    pub call: Option<NamedCall<'a>>,
    /// The expected reply.
    pub reply: Option<&'a [u8]>,
}
