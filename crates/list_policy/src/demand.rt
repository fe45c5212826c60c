//! The demands of a policy's lines.
ghost use Rattle.std.specs.Prelude.{◌≡◌, filter, length};
ghost use Rattle.std.specs.List.{list_all, list_any};
ghost use Rattle.list_policy.specs.Demand.{are_apart, are_separate, belongs, concerns, is_inside, is_script, is_separate, is_server, names, party_of, same_number};
ghost use Rattle.list_policy.specs.Line.{line_at};

use list_labels::ClientLabel;
use list_parser::StartList;

/// The labels that a demand is about.
#[derive(Drop)]
pub enum LabelRange {
    /// All labels that a client can give.
    All,
    /// This label.
    Exactly(ClientLabel),
    /// All labels that a client can give and that begin with this text.
    Prefix(ClientLabel),
    /// All labels that a client can give and that end with this text.
    Suffix(ClientLabel),
}

/// A demand on components.
#[derive(Drop)]
pub enum Demand {
    /// No such label is routed to the server.
    Deny(LabelRange),
    /// Some such label is routed to the server.
    Allow(LabelRange),
    /// No such label of any other script is routed to the server.
    Only(LabelRange),
    /// No label is routed from one component's scripts to a server of another component.
    Isolate,
    /// The component has at most this budget.
    AtMost(BudgetLimit),
}

/// The most RAM and capabilities that a component may have, together with its reserve.
#[derive(Clone, Copy)]
pub struct BudgetLimit {
    /// The most RAM in bytes.
    pub ram: u64,
    /// The most capabilities.
    pub caps: u64,
}

/// A line of a policy: what it demands, and the numbers of the components that it names.
#[derive(Drop)]
pub struct PolicyLine {
    /// Its number in the text, from 1 on.
    pub number: usize,
    /// The column of its first token in bytes, from 1 on.
    pub column: usize,
    /// What it demands.
    pub demand: Demand,
    /// The numbers of the scripts that it names, or of the components that are isolated or have a budget.
    pub from: Vec<usize>,
    /// The numbers of the servers that it names.
    pub to: Vec<usize>,
}

/// Returns whether a line is about the requests of a component to a server. An `only` line is about the requests of all scripts
/// that it doesn't name, and an `isolate` line about those of the scripts of one component to the servers of another.
pub(crate) fn concerns(list: &StartList, line: &PolicyLine, client: usize, server: usize) -> bool
    ensures { result ≡ concerns list.now (line_at line.now) client server }
{
    let (from, to) = (line.from.as_slice(), line.to.as_slice());
    match &line.demand {
        Demand::Deny(_) | Demand::Allow(_) => names(to, server) && names(from, client),
        Demand::Only(_) => names(to, server) && is_script(list, client) && !names(from, client),
        Demand::Isolate => {
            is_script(list, client)
                && is_server(list, server)
                && are_apart(party_of(list, from, client), party_of(list, from, server))
        }
        Demand::AtMost(_) => false,
    }
}

/// Returns whether two or more components are named, and none of them is another one or within another one.
pub(crate) fn are_separate(list: &StartList, numbers: &[usize]) -> bool
    ensures { result ≡ are_separate list.now numbers.now }
{
    1 < numbers.len() && all_separate(list, numbers)
}

// Whether none of these components is another one of them or within another one.
fn all_separate(list: &StartList, numbers: &[usize]) -> bool
    ensures { result ≡ list_all (is_separate list.now numbers.now) numbers.now }
{
    numbers
        .iter()
        .all(|number| is_separate(list, numbers, *number))
}

// Whether one alone of these components is the component of a number or has it within.
fn is_separate(list: &StartList, numbers: &[usize], number: usize) -> bool
    ensures { result ≡ is_separate list.now numbers.now number }
{
    parties(list, numbers, number) == 1
}

// How many of these components are the component of a number or have it within.
fn parties(list: &StartList, numbers: &[usize], number: usize) -> usize
    ensures { result ≡ length (filter (belongs list.now number) numbers.now) }
{
    numbers
        .iter()
        .filter(|party| belongs(list, number, **party))
        .count()
}

// The place of the first of some components that is the component of a number or has it within.
fn party_of(list: &StartList, parties: &[usize], number: usize) -> Option<usize>
    ensures { result ≡ party_of list.now parties.now number }
{
    parties
        .iter()
        .position(|party| belongs(list, number, *party))
}

// Whether both are there and differ.
fn are_apart(one: Option<usize>, other: Option<usize>) -> bool
    ensures { result ≡ are_apart one other }
{
    match (one, other) {
        (Some(one), Some(other)) => one != other,
        _ => false,
    }
}

/// Returns whether the component of a number is that of another number, or is within it.
pub(crate) fn belongs(list: &StartList, number: usize, party: usize) -> bool
    ensures { result ≡ belongs list.now number party }
{
    match (list.entries().get(party), list.entries().get(number)) {
        (Some(party), Some(entry)) => is_inside(party.path(), entry.path()),
        _ => false,
    }
}

// Whether a path is another one, or is that of a component within.
fn is_inside(party: &[u8], path: &[u8]) -> bool
    ensures { result ≡ is_inside party.now path.now }
{
    path == party || path.starts_with(party) && path[party.len()..].starts_with(b"/")
}

/// Returns whether a number is one of these.
pub(crate) fn names(numbers: &[usize], number: usize) -> bool
    ensures { result ≡ names numbers.now number }
{
    numbers.iter().any(|other| same_number(number, *other))
}

// Whether both are one number.
fn same_number(one: usize, other: usize) -> bool
    ensures { result ≡ same_number one other }
{
    one == other
}

// Whether the component of a number is a script.
fn is_script(list: &StartList, number: usize) -> bool
    ensures { result ≡ is_script list.now number }
{
    match list.entries().get(number) {
        Some(entry) => entry.is_script(),
        None => false,
    }
}

// Whether the component of a number is a server.
fn is_server(list: &StartList, number: usize) -> bool
    ensures { result ≡ is_server list.now number }
{
    match list.entries().get(number) {
        Some(entry) => entry.is_server(),
        None => false,
    }
}
