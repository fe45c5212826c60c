//! Why a text is no policy for a start list.

use crate::components::NamedKind;
use list_reach::Unnamed;
use std::{fmt, str};

/// A flaw of a line: why the line is no demand.
#[derive(Drop)]
pub enum PolicyFlaw<'a> {
    /// The line has none of the forms.
    NoDemand,
    /// The line has no `->`.
    NoArrow,
    /// Something follows the components that doesn't belong there.
    TooMuch,
    /// The label can't be given, or isn't between quotes.
    BadLabel,
    /// The budget isn't two amounts.
    BadBudget,
    /// Fewer than two components are to be isolated, or one of them is within another.
    NotApart,
    /// A path denotes no component of the kind.
    Unnamed(NamedKind, Unnamed<'a>),
    /// No line of the policy is a demand.
    NoDemands,
}

impl fmt::Display for PolicyFlaw<'_> {
    fn fmt<W: fmt::Write>(&self, f: &mut fmt::Formatter<W>) -> fmt::Result {
        match self {
            PolicyFlaw::NoDemand => f.write_str(
                "expected `deny`, `allow`, `only` or `isolate` and components, or components and `at most RAM, CAPS`",
            ),
            PolicyFlaw::NoArrow => f.write_str("expected `->` after the clients"),
            PolicyFlaw::TooMuch => f.write_str(
                "unexpected text after the components; `deny`, `allow` and `only` take `with label \"..\"`, `with prefix \"..\"` or `with suffix \"..\"`",
            ),
            PolicyFlaw::BadLabel => f.write_str(
                "expected a label in quotes that a client can give",
            ),
            PolicyFlaw::BadBudget => f.write_str(
                "expected an amount of RAM and a number of capabilities after `at most`",
            ),
            PolicyFlaw::NotApart => f.write_str(
                "expected two or more components, none of them within another",
            ),
            PolicyFlaw::Unnamed(kind, Unnamed::Nobody(path, _)) if path.is_empty() => {
                write!(f, "expected the path of {}, found nothing", words_of(*kind))
            }
            PolicyFlaw::Unnamed(kind, Unnamed::Nobody(path, _)) if is_pattern(path) => {
                let path = str::from_utf8(path).unwrap_or("");
                write!(f, "expected {} in `{path}`, found none", words_of(*kind))
            }
            PolicyFlaw::Unnamed(_, fault) => write!(f, "{fault}"),
            PolicyFlaw::NoDemands => f.write_str("expected at least one demand, found none"),
        }
    }
}

// Returns the words for a component of a kind.
fn words_of(kind: NamedKind) -> &'static str {
    match kind {
        NamedKind::Scripts => "a script",
        NamedKind::Servers => "a server that provides its service",
        NamedKind::Any => "a component",
    }
}

// Returns whether the last name of a path is `*` or `**`.
fn is_pattern(path: &[u8]) -> bool {
    let name = path.rsplit(|byte| *byte == b'/').next();
    name == Some(b"*".as_slice()) || name == Some(b"**".as_slice())
}

/// A fault of a policy: its place, and what is wrong there.
#[derive(Drop)]
pub struct PolicyFault<'a> {
    /// The number of the line, from 1 on, or 0 if no line is a demand.
    pub line: usize,
    /// The column in bytes, from 1 on: of a path that denotes no component, of a label, else of the line's first token.
    pub column: usize,
    /// What is wrong.
    pub flaw: PolicyFlaw<'a>,
}
