//! The options of the command line.
ghost use Rattle.std.specs.Prelude.{◌≡◌, IfErr, IfOk, MatchResult, codes, map, option_map, false, true};
ghost use Rattle.clap.specs.Words.{FailsBy, app_of, fault_of, first_of, found_of, kind_of, matches_of, new_app, rows_of, rule_of, takes, with_rule};
ghost use Rattle.cli_engine.specs.Options.{config_rule, flag_rule, is_set, only_rule, program};

use clap::error::ErrorKind;
use clap::{Arg, ArgAction, ArgMatches, Command, Error};
use std::alloc::{AllocError, Global};
use std::convert::AsStr;
use std::rt::Env;
use std::{env, io};

const ABOUT: &str = "Simulates one machine whose components trade quotas of RAM and capabilities.
Each line of standard input is a call of a component; replies are printed.";

const FORMS: &str = "A line is NAME CALL, with one space between two words. CALL is one of
  alloc N       capalloc      attach S        new N     open SERVICE ARGS
  free S        capfree S     attach_at S A   del A     upgrade S ARGS
  peek A LEN    quota         detach A        snew N    call S REQUEST
  poke A HEX    exit          reserve         sdel A    close S
  request ARGS  yield ARGS
N, S and LEN are decimal numbers, A is 0x and hexadecimal digits, HEX an even
number of those digits. ARGS and REQUEST are the rest of the line, or nothing.

docs/reference has the forms of lines, replies and start lists.";

/// The options that the program was started with.
#[derive(Clone, Copy, PartialEq, Eq)]
pub struct Options<'a> {
    check: bool,
    accounts: bool,
    only: Option<&'a str>,
    path: Option<&'a str>,
}

impl<'a> Options<'a> {
    /// Parses the arguments of a command line; the first is the program's own name. Returns an error, which may be the help,
    /// if the arguments are not accepted or the host is out of memory.
    pub fn read<S: AsStr>(alloc: Global, words: &'a [S]) -> Result<Options<'a>, Error>
        ensures check { IfOk result (λ options.
            options.check
            ≡ is_set (codes "check") (matches_of program (map S.text words.entry.now))) }
        ensures accounts { IfOk result (λ options.
            options.accounts
            ≡ is_set (codes "accounts") (matches_of program (map S.text words.entry.now))) }
        ensures only { IfOk result (λ options. option_map (λ name. name.now) options.only
            ≡ first_of (codes "only") (matches_of program (map S.text words.entry.now))) }
        ensures path { IfOk result (λ options. option_map (λ path. path.now) options.path
            ≡ first_of (codes "config") (matches_of program (map S.text words.entry.now))) }
        ensures refusals { FailsBy (fault_of program (map S.text words.entry.now)) result }
        ensures takes { IfErr result (λ error.
            takes program (map S.text words.entry.now) ≡ true
            → kind_of error ≡ ErrorKind.OutOfMemory) }
    {
        let matches = command(alloc)?.try_get_matches_from(words)?;
        Ok(Options {
            check: is_set(&matches, "check"),
            accounts: is_set(&matches, "accounts"),
            only: matches.get_str("only"),
            path: matches.get_str("config"),
        })
    }

    /// Returns whether the start list is only read and booted (`--check`).
    pub fn check(&self) -> bool
        ensures { result ≡ self.now.check }
    {
        self.check
    }

    /// Returns whether the account list is printed after the last reply.
    pub fn accounts(&self) -> bool
        ensures { result ≡ self.now.accounts }
    {
        self.accounts
    }

    /// Returns the name whose lines alone are answered, or `None` for all lines.
    pub fn only(&self) -> Option<&'a str>
        ensures { result ≡ self.now.only }
    {
        self.only
    }

    /// Returns the path of a start list, or `None` for the built-in machine.
    pub fn path(&self) -> Option<&'a str>
        ensures { result ≡ self.now.path }
    {
        self.path
    }
}

// The command line as `clap` reads it.
fn command<'a>(alloc: Global) -> Result<Command<'a>, Error>
    ensures { MatchResult result (λ made. app_of made ≡ program)
        (λ error. kind_of error ≡ ErrorKind.OutOfMemory) }
{
    let checking = flag(alloc, "check", "Only boot, print ok and read no scenario");
    let command = with_argument(bare(alloc), checking)?;
    let telling = flag(alloc, "accounts", "Print all accounts after the last reply");
    let command = with_argument(command, telling)?;
    let command = with_argument(command, only(alloc))?;
    let command = with_argument(command, config(alloc))?;
    Ok(command)
}

// The command without its arguments.
fn bare<'a>(alloc: Global) -> Command<'a>
    ensures { app_of result ≡ new_app (codes "scenario_run") }
{
    Command::new(alloc, "scenario_run")
        .about(ABOUT)
        .after_help(FORMS)
}

// Adds an argument that is an option of this command alone.
fn with_argument<'a>(command: Command<'a>, argument: Arg<'a>) -> Result<Command<'a>, AllocError>
    requires { argument.global ≡ false }
    ensures { IfOk result
        (λ made. app_of made ≡ with_rule (app_of command.entry) (rule_of argument.entry)) }
{
    let made = command.arg(argument)?;
    Ok(made)
}

// The name whose lines alone are answered.
fn only<'a>(alloc: Global) -> Arg<'a>
    ensures rule { rule_of result ≡ only_rule }
    ensures local { result.global ≡ false }
{
    Arg::new(alloc, "only")
        .long("only")
        .value_name("NAME")
        .help("Answer the lines of this component alone")
}

// The path of a start list.
fn config<'a>(alloc: Global) -> Arg<'a>
    ensures rule { rule_of result ≡ config_rule }
    ensures local { result.global ≡ false }
{
    Arg::new(alloc, "config").value_name("CONFIG").help(
        "A start list in JSON; without it a built-in machine boots",
    )
}

// A flag by its name.
fn flag<'a>(alloc: Global, name: &'a str, help: &'a str) -> Arg<'a>
    ensures rule { rule_of result ≡ flag_rule name.entry.now }
    ensures local { result.global ≡ false }
{
    Arg::new(alloc, name)
        .long(name)
        .action(ArgAction::SetTrue)
        .help(help)
}

// Whether a flag was used. `get_flag` states this only for a text that is `true` or `false`; this function for any.
fn is_set(matches: &ArgMatches<'_>, id: &str) -> bool
    ensures { result ≡ is_set id.now (rows_of (found_of matches.now)) }
{
    matches.get_one(id).unwrap_or(false)
}

/// Returns the arguments that the program was started with. Returns an error of the command line if one is not UTF-8, or if
/// the host is out of memory.
pub fn words_given<R: Env + AllocGlobal>(rt: &R) -> Result<Vec<String>, Error> {
    match env::args(rt) {
        Ok(words) => Ok(words.collect(rt.alloc())?),
        Err(fault) if fault.kind() == io::ErrorKind::OutOfMemory => Err(Error::from(AllocError)),
        Err(_) => Err(isnt_text(rt.alloc())?),
    }
}

// The error of an argument that is not UTF-8.
fn isnt_text(alloc: Global) -> Result<Error, Error> {
    Ok(command(alloc)?.error(
        ErrorKind::InvalidValue,
        "invalid UTF-8 was detected in one or more arguments",
    )?)
}
