//! The answer to a line.
ghost use Rattle.std.specs.Prelude.{◌≡◌};
ghost use Rattle.core_calls.specs.Outcome.{rendering};

use core_calls::Outcome;

/// The answer to a line: log lines, a name and a reply.
#[derive(Clone, Copy)]
pub struct LineAnswer<'a> {
    /// The log lines that its call finished, each as it is printed, with its newline.
    pub lines: &'a [u8],
    /// The caller's name, or `?` if the line is no call.
    pub name: &'a [u8],
    /// The text of the reply.
    pub reply: &'a [u8],
    /// The outcome, whose rendering is the text.
    pub outcome: Outcome,
    ghost rendered: { reply.now ≡ rendering outcome reply.now },
}
