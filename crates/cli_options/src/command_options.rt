//! The options of each command, as its arguments give them.

/// The condition under which lines are coloured.
#[derive(Clone, Copy, PartialEq, Eq)]
pub enum Color {
    /// On each stream that is a terminal.
    Auto,
    /// On each stream.
    Always,
    /// On no stream.
    Never,
}

/// The options of `run`. Paths are used as they are given, and `-` denotes standard input.
#[derive(Drop)]
pub struct RunOptions<'a> {
    /// The path of a start list, if one is named.
    pub machine: Option<&'a str>,
    /// The name whose lines alone are run, or none for all lines.
    pub only: Option<&'a str>,
    /// Whether the account list is printed after the last reply.
    pub accounts: bool,
    /// Whether the replies of a line are printed after its number.
    pub numbers: bool,
    /// The condition under which lines are coloured, or none if the argument names none.
    pub color: Option<Color>,
    /// Whether diagnostics are documents of JSON.
    pub json: bool,
    /// The path of the scenario.
    pub scenario: &'a str,
}

/// The options of `record`.
#[derive(Drop)]
pub struct RecordOptions<'a> {
    /// The path of a start list, if one is named.
    pub machine: Option<&'a str>,
    /// Whether each reply is recorded again.
    pub all: bool,
    /// Whether the recording replaces the scenario.
    pub write: bool,
    /// Whether diagnostics are documents of JSON.
    pub json: bool,
    /// The path of the scenario.
    pub scenario: &'a str,
}

/// The options of `check`.
#[derive(Drop)]
pub struct CheckOptions<'a> {
    /// Whether a finding is a fault.
    pub strict: bool,
    /// Whether a document of JSON is written in place of lines.
    pub json: bool,
    /// The path of a policy that the list is checked against, or none.
    pub policy: Option<&'a str>,
    /// The path of the start list.
    pub list: &'a str,
}

/// The options of `tree`.
#[derive(Drop)]
pub struct TreeOptions<'a> {
    /// Whether a graph is shown in place of a text.
    pub dot: bool,
    /// Whether a document of JSON is written in place of a text.
    pub json: bool,
    /// The path of the start list.
    pub list: &'a str,
}

/// The options of `reach`.
#[derive(Drop)]
pub struct ReachOptions<'a> {
    /// Whether a document of JSON is written in place of a table.
    pub json: bool,
    /// The paths of the scripts that are shown, or nothing for all scripts.
    pub from: Vec<&'a str>,
    /// The paths of the servers that are shown, or nothing for all servers.
    pub to: Vec<&'a str>,
    /// The path of the start list.
    pub list: &'a str,
}

/// The options of `route`, which describe a session request.
#[derive(Drop)]
pub struct RouteOptions<'a> {
    /// Whether diagnostics are documents of JSON.
    pub json: bool,
    /// The path of the start list.
    pub list: &'a str,
    /// The component that makes the request.
    pub client: &'a str,
    /// The service that is requested.
    pub service: &'a str,
    /// The arguments of the session, or nothing.
    pub args: &'a str,
}

/// The options of `trace`.
#[derive(Drop)]
pub struct TraceOptions<'a> {
    /// The path of a start list, if one is named.
    pub machine: Option<&'a str>,
    /// Whether documents of JSON are written in place of comma-separated values.
    pub json: bool,
    /// The path of the scenario.
    pub scenario: &'a str,
}

/// The options of `accounts`.
#[derive(Drop)]
pub struct AccountsOptions<'a> {
    /// The path of a start list, if one is named.
    pub machine: Option<&'a str>,
    /// Whether a document of JSON is written in place of a table.
    pub json: bool,
    /// The path of the scenario.
    pub scenario: &'a str,
}

/// The options of `least`.
#[derive(Drop)]
pub struct LeastOptions<'a> {
    /// The path of a start list, if one is named.
    pub machine: Option<&'a str>,
    /// Whether sessions keep the donations of the scenario, in place of the minimum.
    pub as_donated: bool,
    /// Whether a document of JSON is written in place of a text.
    pub json: bool,
    /// Whether the start list with the budgets in place is written.
    pub list: bool,
    /// Whether the scenario with the donations in place is written.
    pub donations: bool,
    /// Whether the safe budget of each account is written in place of the minimum.
    pub safe: bool,
    /// The path of the scenario.
    pub scenario: &'a str,
}

/// The options of `alone`.
#[derive(Drop)]
pub struct AloneOptions<'a> {
    /// The path of a start list, if one is named.
    pub machine: Option<&'a str>,
    /// Whether all scripts are compared, one after another.
    pub all: bool,
    /// Whether only the last line is printed of each script.
    pub summary: bool,
    /// Whether diagnostics are documents of JSON.
    pub json: bool,
    /// The component, or with `all` the path of the scenario.
    pub name: &'a str,
    /// The path of the scenario, or with `all` none.
    pub scenario: Option<&'a str>,
}

/// The options of `diff`.
#[derive(Drop)]
pub struct DiffOptions<'a> {
    /// Whether a document of JSON is written in place of lines.
    pub json: bool,
    /// The path of the start list before the change.
    pub before: &'a str,
    /// The path of the start list after the change.
    pub after: &'a str,
    /// The path of a scenario whose replies are compared, if one is.
    pub scenario: Option<&'a str>,
    /// The path of the scenario that is run on the list after, or none if `scenario` is.
    pub scenario_after: Option<&'a str>,
    /// The path of a policy whose breaches are compared, if one is.
    pub policy: Option<&'a str>,
}

/// The options of `test`.
#[derive(Drop)]
pub struct TestOptions<'a> {
    /// The path of a start list for scenarios that have no list next to them, or none for the built-in machine.
    pub machine: Option<&'a str>,
    /// The path of the JUnit document of all results, or none.
    pub junit: Option<&'a str>,
    /// The texts of which the path of a test has one, or nothing for all tests.
    pub filters: Vec<&'a str>,
    /// Whether each start list that a test uses is checked too, and a line of a policy that speaks of nothing fails its test.
    pub strict: bool,
    /// Whether the coverage of the scenarios is printed.
    pub coverage: bool,
    /// The percentage of rules and session requests that scenarios must cover, as text, or none.
    pub threshold: Option<&'a str>,
    /// Whether the coverage is printed as a document of JSON, in place of all lines.
    pub json: bool,
    /// The condition under which lines are coloured, or none if the argument names none.
    pub color: Option<Color>,
    /// The paths of scenarios, and of folders with scenarios.
    pub paths: Vec<&'a str>,
}
