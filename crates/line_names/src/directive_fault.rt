//! Directives that can't be followed in a run line by line.
ghost use Rattle.std.specs.Prelude.{◌≡◌, Some};
ghost use Rattle.line_names.specs.DirectiveFault.{why_misplaced};
ghost use Rattle.line_names.specs.Messages.{directive_message};
ghost use Rattle.line_names.specs.Views.{directive_view};

use crate::directives::Directive;
use std::fmt;

/// The reason why a directive can't be followed.
#[derive(Clone, Copy, PartialEq, Eq)]
pub enum DirectiveFault {
    /// The directive is `@repeat`.
    Repeat,
    /// The directive is `@end`.
    End,
    /// The line begins with `@` and is no directive.
    Unknown,
}

impl DirectiveFault {
    /// Returns the message about the directive, without a final stop.
    pub fn words(self) -> &'static str
        ensures { result.now ≡ directive_message self }
    {
        match self {
            DirectiveFault::Repeat => "`@repeat` needs a scenario that is a file",
            DirectiveFault::End => "`@end` needs a scenario that is a file",
            DirectiveFault::Unknown =>
                "unknown directive; expected `@set NAME VALUE`, `@repeat N [as NAME]` or `@end`",
        }
    }
}

impl fmt::Display for DirectiveFault {
    ghost output = { λ fault. Some (directive_message fault) };

    fn fmt<W: fmt::Write>(&self, f: &mut fmt::Formatter<W>) -> fmt::Result {
        f.write_str(self.words())
    }
}

impl Directive<'_> {
    /// Returns why the directive can't be followed, or nothing if it can.
    pub fn misplaced(self) -> Option<DirectiveFault>
        ensures { result ≡ why_misplaced (directive_view self.entry) }
    {
        match self {
            Directive::Repeat => Some(DirectiveFault::Repeat),
            Directive::End => Some(DirectiveFault::End),
            Directive::Unknown => Some(DirectiveFault::Unknown),
            _ => None,
        }
    }
}
