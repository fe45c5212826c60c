//! The command line as a value: a command with its options.
ghost use Rattle.std.specs.Prelude.{◌≡◌, ◌≢◌, [], IfErr, IfOk, Some, codes, map, true, unwrap_or};
ghost use Rattle.clap.specs.Words.{FailsBy, all_of, fault_of, found_of, kind_of, rows_of, subcommand_of, subcommand_rows_of, takes};
ghost use Rattle.cli_options.specs.Line.{Asks, AsksAs, IsColor, IsCommand, first_or, is_set, program};

use crate::command_options::{
    AccountsOptions, AloneOptions, CheckOptions, Color, DiffOptions, LeastOptions, ReachOptions,
    RecordOptions, RouteOptions, RunOptions, TestOptions, TraceOptions, TreeOptions,
};
use crate::commands::commands;
use clap::error::ErrorKind;
use clap::{ArgMatches, Error};
use std::alloc::{AllocError, Global};
use std::convert::AsStr;

/// A command line: a command, and the values of names.
#[derive(Drop)]
pub struct CommandLine<'a> {
    /// The command, with its options.
    pub command: Command<'a>,
    /// The values of names, each `NAME=VALUE`, in their order.
    pub given: Vec<&'a str>,
}

/// A command of `nethrywel`, with its options.
#[derive(Drop)]
pub enum Command<'a> {
    /// Runs a scenario, and reports each reply that isn't as expected.
    Run(RunOptions<'a>),
    /// Writes a scenario with its replies.
    Record(RecordOptions<'a>),
    /// Prints the findings of a start list.
    Check(CheckOptions<'a>),
    /// Prints the components of a start list, and the servers that their requests are routed to.
    Tree(TreeOptions<'a>),
    /// Prints which scripts reach which servers, and with which labels.
    Reach(ReachOptions<'a>),
    /// Prints where a session request is routed to, and by which rules.
    Route(RouteOptions<'a>),
    /// Prints a table of all lines, with the use of quota after each line.
    Trace(TraceOptions<'a>),
    /// Prints all accounts after a scenario.
    Accounts(AccountsOptions<'a>),
    /// Prints the sufficient budgets of each account of a scenario.
    Least(LeastOptions<'a>),
    /// Prints the replies to a component in the whole run and alone.
    Alone(AloneOptions<'a>),
    /// Prints the differences between two start lists.
    Diff(DiffOptions<'a>),
    /// Runs scenarios as tests.
    Test(TestOptions<'a>),
    /// Prints a page of help: on a command or on calls, or without a topic on the program.
    Help(Option<&'a str>),
}

impl<'a> CommandLine<'a> {
    /// Parses the arguments of a command line, the program's own name first. Returns none without a command, or the error of
    /// `clap`.
    pub fn read<S: AsStr>(alloc: Global, words: &'a [S]) -> Result<Option<CommandLine<'a>>, Error>
        ensures request { IfOk result (λ request.
            AsksAs request (subcommand_of program (map S.text words.entry.now))) }
        ensures refusals { FailsBy (fault_of program (map S.text words.entry.now)) result }
        ensures takes { IfErr result (λ error.
            takes program (map S.text words.entry.now) ≡ true
            → kind_of error ≡ ErrorKind.OutOfMemory) }
    {
        let matches = commands(alloc)?.try_get_matches_from(words)?;
        Ok(CommandLine::in_matches(alloc, &matches)?)
    }

    // Returns the request that these matches name, if they name one.
    fn in_matches(
        alloc: Global,
        matches: &ArgMatches<'a>,
    ) -> Result<Option<CommandLine<'a>>, AllocError>
        ensures { IfOk result (λ request. AsksAs request (subcommand_rows_of matches.now)) }
    {
        match matches.subcommand() {
            Some((name, found)) => CommandLine::asked(alloc, name, found),
            None => Ok(None),
        }
    }

    // Returns the request of a command's name, by the matches after it.
    fn asked(
        alloc: Global,
        name: &'a str,
        found: &ArgMatches<'a>,
    ) -> Result<Option<CommandLine<'a>>, AllocError>
        ensures { IfOk result (λ request.
            AsksAs request (Some (name.entry.now, rows_of (found_of found.now)))) }
    {
        let Some(command) = Command::asked(alloc, name, found)? else {
            return Ok(None);
        };
        let given = words(alloc, found, "set")?;
        Ok(Some(CommandLine { command, given }))
    }
}

impl<'a> Command<'a> {
    /// Returns whether diagnostics are documents of JSON: whether the command has the flag `--json`.
    pub fn is_json(&self) -> bool {
        match self {
            Command::Run(asked) => asked.json,
            Command::Record(asked) => asked.json,
            Command::Check(asked) => asked.json,
            Command::Tree(asked) => asked.json,
            Command::Reach(asked) => asked.json,
            Command::Route(asked) => asked.json,
            Command::Trace(asked) => asked.json,
            Command::Accounts(asked) => asked.json,
            Command::Least(asked) => asked.json,
            Command::Alone(asked) => asked.json,
            Command::Diff(asked) => asked.json,
            Command::Test(asked) => asked.json,
            Command::Help(_) => false,
        }
    }

    // Returns the command of a name, by the matches after it.
    fn asked(
        alloc: Global,
        name: &'a str,
        found: &ArgMatches<'a>,
    ) -> Result<Option<Command<'a>>, AllocError>
        ensures { IfOk result (λ command.
            IsCommand command name.entry.now (rows_of (found_of found.now))) }
    {
        match name {
            "test" => Ok(Some(Command::test(alloc, found)?)),
            "reach" => Ok(Some(Command::reach(alloc, found)?)),
            _ => Ok(Command::of(name, found)),
        }
    }

    // Returns the command that runs scenarios as tests.
    fn test(alloc: Global, found: &ArgMatches<'a>) -> Result<Command<'a>, AllocError>
        ensures { IfOk result (λ command.
            Asks command (codes "test") (rows_of (found_of found.now))) }
    {
        Ok(Command::Test(TestOptions {
            machine: found.get_str("machine"),
            junit: found.get_str("junit"),
            filters: words(alloc, found, "filter")?,
            strict: is_set(found, "strict"),
            coverage: is_set(found, "coverage"),
            threshold: found.get_str("threshold"),
            json: is_set(found, "json"),
            color: colored(found),
            paths: words(alloc, found, "path")?,
        }))
    }

    // Returns the command that prints which scripts reach which servers.
    fn reach(alloc: Global, found: &ArgMatches<'a>) -> Result<Command<'a>, AllocError>
        ensures { IfOk result (λ command.
            Asks command (codes "reach") (rows_of (found_of found.now))) }
    {
        Ok(Command::Reach(ReachOptions {
            json: is_set(found, "json"),
            from: words(alloc, found, "from")?,
            to: words(alloc, found, "to")?,
            list: path(found, "list"),
        }))
    }

    // Returns the command of a name that takes no lists of arguments, by the matches after it.
    fn of(name: &'a str, found: &ArgMatches<'a>) -> Option<Command<'a>>
        requires test { name.now ≢ codes "test" }
        requires reach { name.now ≢ codes "reach" }
        ensures { IsCommand result name.entry.now (rows_of (found_of found.now)) }
    {
        match name {
            "run" => Some(Command::run(found)),
            "record" => Some(Command::record(found)),
            "check" => Some(Command::check(found)),
            "tree" => Some(Command::tree(found)),
            "route" => Some(Command::route(found)),
            "trace" => Some(Command::trace(found)),
            "accounts" => Some(Command::accounts(found)),
            "least" => Some(Command::least(found)),
            "alone" => Some(Command::alone(found)),
            "diff" => Some(Command::diff(found)),
            "help" => Some(Command::help(found)),
            _ => None,
        }
    }

    // Returns the command that runs a scenario.
    fn run(found: &ArgMatches<'a>) -> Command<'a>
        ensures { Asks result (codes "run") (rows_of (found_of found.now)) }
    {
        Command::Run(RunOptions {
            machine: found.get_str("machine"),
            only: found.get_str("only"),
            accounts: is_set(found, "accounts"),
            numbers: is_set(found, "numbers"),
            color: colored(found),
            json: is_set(found, "json"),
            scenario: path(found, "scenario"),
        })
    }

    // Returns the command that records a scenario.
    fn record(found: &ArgMatches<'a>) -> Command<'a>
        ensures { Asks result (codes "record") (rows_of (found_of found.now)) }
    {
        Command::Record(RecordOptions {
            machine: found.get_str("machine"),
            all: is_set(found, "all"),
            write: is_set(found, "write"),
            json: is_set(found, "json"),
            scenario: path(found, "scenario"),
        })
    }

    // Returns the command that prints the findings of a start list.
    fn check(found: &ArgMatches<'a>) -> Command<'a>
        ensures { Asks result (codes "check") (rows_of (found_of found.now)) }
    {
        Command::Check(CheckOptions {
            strict: is_set(found, "strict"),
            json: is_set(found, "json"),
            policy: found.get_str("policy"),
            list: path(found, "list"),
        })
    }

    // Returns the command that prints the components of a start list.
    fn tree(found: &ArgMatches<'a>) -> Command<'a>
        ensures { Asks result (codes "tree") (rows_of (found_of found.now)) }
    {
        Command::Tree(TreeOptions {
            dot: is_set(found, "dot"),
            json: is_set(found, "json"),
            list: path(found, "list"),
        })
    }

    // Returns the command that prints where a session request is routed to.
    fn route(found: &ArgMatches<'a>) -> Command<'a>
        ensures { Asks result (codes "route") (rows_of (found_of found.now)) }
    {
        Command::Route(RouteOptions {
            json: is_set(found, "json"),
            list: path(found, "list"),
            client: word(found, "client"),
            service: word(found, "service"),
            args: word(found, "args"),
        })
    }

    // Returns the command that prints a table of all lines.
    fn trace(found: &ArgMatches<'a>) -> Command<'a>
        ensures { Asks result (codes "trace") (rows_of (found_of found.now)) }
    {
        Command::Trace(TraceOptions {
            machine: found.get_str("machine"),
            json: is_set(found, "json"),
            scenario: path(found, "scenario"),
        })
    }

    // Returns the command that prints all accounts.
    fn accounts(found: &ArgMatches<'a>) -> Command<'a>
        ensures { Asks result (codes "accounts") (rows_of (found_of found.now)) }
    {
        Command::Accounts(AccountsOptions {
            machine: found.get_str("machine"),
            json: is_set(found, "json"),
            scenario: path(found, "scenario"),
        })
    }

    // Returns the command that prints the sufficient budgets of accounts.
    fn least(found: &ArgMatches<'a>) -> Command<'a>
        ensures { Asks result (codes "least") (rows_of (found_of found.now)) }
    {
        Command::Least(LeastOptions {
            machine: found.get_str("machine"),
            as_donated: is_set(found, "as-donated"),
            json: is_set(found, "json"),
            list: is_set(found, "list"),
            donations: is_set(found, "scenario"),
            safe: is_set(found, "safe"),
            scenario: path(found, "played"),
        })
    }

    // Returns the command that compares the runs of a component.
    fn alone(found: &ArgMatches<'a>) -> Command<'a>
        ensures { Asks result (codes "alone") (rows_of (found_of found.now)) }
    {
        Command::Alone(AloneOptions {
            machine: found.get_str("machine"),
            all: is_set(found, "all"),
            summary: is_set(found, "summary"),
            json: is_set(found, "json"),
            name: word(found, "name"),
            scenario: found.get_str("scenario"),
        })
    }

    // Returns the command that prints a page of help.
    fn help(found: &ArgMatches<'a>) -> Command<'a>
        ensures { Asks result (codes "help") (rows_of (found_of found.now)) }
    {
        Command::Help(found.get_str("topic"))
    }

    // Returns the command that compares two start lists.
    fn diff(found: &ArgMatches<'a>) -> Command<'a>
        ensures { Asks result (codes "diff") (rows_of (found_of found.now)) }
    {
        Command::Diff(DiffOptions {
            json: is_set(found, "json"),
            before: word(found, "before"),
            after: word(found, "after"),
            scenario: found.get_str("scenario"),
            scenario_after: found.get_str("scenario-after"),
            policy: found.get_str("policy"),
        })
    }
}

// Returns the condition under which lines are coloured: `auto` if none is given, or none if the argument names none.
fn colored(found: &ArgMatches<'_>) -> Option<Color>
    ensures { IsColor result (first_or (codes "auto") (codes "color")
        (rows_of (found_of found.now))) }
{
    color_named(found.get_str("color").unwrap_or("auto"))
}

// Returns the condition under which lines are coloured, by its name.
fn color_named(word: &str) -> Option<Color>
    ensures { IsColor result word.now }
{
    match word {
        "auto" => Some(Color::Auto),
        "always" => Some(Color::Always),
        "never" => Some(Color::Never),
        _ => None,
    }
}

// Returns a path, or standard input if none is given; `clap` requires one.
fn path<'a>(found: &ArgMatches<'a>, id: &str) -> &'a str
    ensures { result.now ≡ first_or (codes "-") id.now (rows_of (found_of found.now)) }
{
    found.get_str(id).unwrap_or("-")
}

// Returns an argument, or nothing if there is none.
fn word<'a>(found: &ArgMatches<'a>, id: &str) -> &'a str
    ensures { result.now ≡ first_or [] id.now (rows_of (found_of found.now)) }
{
    found.get_str(id).unwrap_or("")
}

// Returns all values of an argument.
fn words<'a>(alloc: Global, found: &ArgMatches<'a>, id: &str) -> Result<Vec<&'a str>, AllocError>
    ensures { IfOk result (λ words. map (λ word. word.now) words.items
        ≡ unwrap_or (all_of id.now (rows_of (found_of found.now))) []) }
{
    match found.get_strs(id) {
        Some(values) => Vec::from_slice(alloc, values),
        None => Ok(Vec::new(alloc)),
    }
}

// Returns whether a flag was used, for any text. `get_flag` reads only the texts `true` and `false`.
fn is_set(found: &ArgMatches<'_>, id: &str) -> bool
    ensures { result ≡ is_set id.now (rows_of (found_of found.now)) }
{
    found.get_one(id).unwrap_or(false)
}
