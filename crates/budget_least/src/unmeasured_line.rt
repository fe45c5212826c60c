//! Lines that aren't measured.
ghost use Rattle.std.specs.Prelude.{◌≡◌, Some};
ghost use Rattle.budget_least.specs.Unmeasured.{is_unbound, reason_text};

use budget_search::AccountBudgets;
use line_names::NameReason;
use line_steps::UnreadReason;
use std::alloc::{AllocError, Global};
use std::fmt;

/// The reason why a line isn't measured.
#[derive(Clone, Copy, PartialEq, Eq)]
pub enum UnmeasuredReason {
    /// The line can't be parsed.
    Unread(UnreadReason),
    /// A name in the line has another value in a run with the minimum budgets.
    Unsettled,
}

/// A line of a scenario that isn't measured.
#[derive(Drop)]
pub struct UnmeasuredLine {
    /// The number of the scenario's line, from 1 on.
    pub number: u64,
    /// The component that makes the call of the line, if the line begins with the name of one.
    pub component: Option<usize>,
    /// The reason why it isn't measured.
    pub why: UnmeasuredReason,
    /// The text of the line which the reason is about.
    pub(crate) token: String,
    /// Whether the line isn't measured in an earlier iteration of its round either.
    pub(crate) is_again: bool,
}

impl UnmeasuredLine {
    ghost use Rattle.std.specs.Prelude.{◌≡◌};
    ghost use Rattle.budget_least.specs.Unmeasured.{is_named_with};

    /// Returns whether the line is named with an account: a component's own, once.
    pub fn is_named_with(&self, account: &AccountBudgets) -> bool
        ensures { result ≡ is_named_with account.now self.now }
    {
        match self.component {
            Some(component) => !self.is_again
                && account.session().is_none()
                && component == account.component(),
            None => false,
        }
    }

    /// Returns the reason in words, for the text of an account.
    pub fn reason(&self) -> UnmeasuredWords<'_>
        ensures { result.line.now ≡ self.now }
    {
        UnmeasuredWords { line: self }
    }
}

/// The reason why a line isn't measured, in the text of an account.
#[derive(Clone, Copy)]
pub struct UnmeasuredWords<'a> {
    line: &'a UnmeasuredLine,
}

impl fmt::Display for UnmeasuredWords<'_> {
    ghost output = { λ words. Some (reason_text words.line.now) };

    fn fmt<W: fmt::Write>(&self, f: &mut fmt::Formatter<W>) -> fmt::Result {
        match self.line.why {
            UnmeasuredReason::Unsettled => f.write_str(
                "a name in it has another value with the minimum",
            ),
            UnmeasuredReason::Unread(why) if is_unbound(why) => {
                let name = self.line.token.as_str();
                write!(f, "{name} is unbound")
            }
            UnmeasuredReason::Unread(_) => f.write_str("it can't be parsed"),
        }
    }
}

// Returns whether a name in the line has no value.
fn is_unbound(why: UnreadReason) -> bool
    ensures { result ≡ is_unbound why }
{
    match why {
        UnreadReason::Name(fault) => matches!(fault.reason, NameReason::UnknownName),
        _ => false,
    }
}
