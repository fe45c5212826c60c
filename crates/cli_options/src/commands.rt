//! The command line as `clap` reads it.
ghost use Rattle.std.specs.Prelude.{◌≡◌, ◌∷◌, [], IfErr, IfOk, MatchResult, false, map};
ghost use Rattle.clap.specs.Words.{App, HasKind, app_of, kind_of, rule_of, with_rule, with_subcommand};
ghost use Rattle.clap.specs.declared.builder.command.Command.TheViews.{out-Command};
ghost use Rattle.cli_options.specs.Line.{IsRefusal, IsTold, bare as bare_app, command_told, option_rule, program, rule_told, with_commands, word_rule};

use crate::command_table::{ArgumentForm, COMMANDS, CommandForm};
use crate::help;
use clap::error::ErrorKind;
use clap::{Arg, ArgAction, Command as Words, Error};
use std::alloc::{AllocError, Global};
use std::rt::Env;
use std::{env, io};

/// Returns the program with its commands. The error is out of memory.
pub(crate) fn commands<'a>(alloc: Global) -> Result<Words<'a>, Error>
    ensures { MatchResult result (λ made. app_of made ≡ program)
        (λ error. kind_of error ≡ ErrorKind.OutOfMemory) }
{
    let words = with_forms(alloc, bare(alloc), COMMANDS)?;
    Ok(words)
}

// Returns the program without its commands.
fn bare<'a>(alloc: Global) -> Words<'a>
    ensures { app_of result ≡ bare_app }
{
    Words::new(alloc, "nethrywel")
        .version(help::VERSION)
        .about(help::ABOUT)
        .after_help(help::FIRST_STEPS)
        .disable_help_subcommand(true)
}

// Adds the commands of a table.
fn with_forms<'a>(
    alloc: Global,
    words: Words<'a>,
    forms: &[CommandForm<'a>],
) -> Result<Words<'a>, AllocError>
    ensures { (app : App) → app_of words.entry ≡ app → IfOk result (λ made. app_of made
        ≡ with_commands app (map (λ form. (command_told form).top) forms.now)) }
{
    let mut words = words;
    for form in forms {
        words = with_form(alloc, words, form)?;
    }
    Ok(words)
}

// Adds a command.
fn with_form<'a>(
    alloc: Global,
    words: Words<'a>,
    form: &CommandForm<'a>,
) -> Result<Words<'a>, AllocError>
    ensures { IfOk result (λ made. app_of made
        ≡ with_subcommand (app_of words.entry) (command_told form.now).top) }
{
    let command = command(alloc, form)?;
    let words = words.subcommand(command)?;
    Ok(words)
}

// Returns a command of a table.
fn command<'a>(alloc: Global, form: &CommandForm<'a>) -> Result<Words<'a>, AllocError>
    ensures { IfOk result (IsTold form.now) }
{
    let mut command = Words::new(alloc, form.name).about(form.about);
    for word in form.words {
        command = with_argument(alloc, command, *word)?;
    }
    Ok(command)
}

// Adds an argument or an option to a command.
fn with_argument<'a>(
    alloc: Global,
    command: Words<'a>,
    word: ArgumentForm<'a>,
) -> Result<Words<'a>, AllocError>
    ensures rule { IfOk result (λ made. app_of made
        ≡ with_rule (app_of command.entry) (rule_told word.entry)) }
    ensures local { IfOk result (λ made. (out-Command made).has_globals
        ≡ (out-Command command.entry).has_globals) }
{
    let argument = argument(alloc, word);
    let command = command.arg(argument)?;
    Ok(command)
}

// Returns an argument or an option of a table.
fn argument<'a>(alloc: Global, word: ArgumentForm<'a>) -> Arg<'a>
    ensures rule { rule_of result ≡ rule_told word.entry }
    ensures local { result.global ≡ false }
{
    match word {
        ArgumentForm::Flag(id, help) => Arg::new(alloc, id)
            .long(id)
            .action(ArgAction::SetTrue)
            .help(help),
        ArgumentForm::Value(id, value, help) => option(alloc, id, value, help),
        ArgumentForm::Values(id, value, help) => {
            option(alloc, id, value, help).action(ArgAction::Append)
        }
        ArgumentForm::Needed(id, value, help) => place(alloc, id, value, help).required(true),
        ArgumentForm::Optional(id, value, help) => place(alloc, id, value, help),
        ArgumentForm::Several(id, value, help) => place(alloc, id, value, help)
            .required(true)
            .action(ArgAction::Append),
    }
}

// Returns an option with a value.
fn option<'a>(alloc: Global, id: &'a str, value: &'a str, help: &'a str) -> Arg<'a>
    ensures rule { rule_of result ≡ option_rule id.entry.now }
    ensures local { result.global ≡ false }
{
    Arg::new(alloc, id).long(id).value_name(value).help(help)
}

// Returns an argument that may be omitted.
fn place<'a>(alloc: Global, id: &'a str, value: &'a str, help: &'a str) -> Arg<'a>
    ensures rule { rule_of result ≡ word_rule id.entry.now }
    ensures local { result.global ≡ false }
{
    Arg::new(alloc, id).value_name(value).help(help)
}

/// Returns the error of a command line that names no command.
pub fn missing_command_error(alloc: Global) -> Result<Error, Error>
    ensures { IsRefusal ErrorKind.MissingSubcommand result }
{
    refused(
        alloc,
        ErrorKind::MissingSubcommand,
        "'nethrywel' requires a command: run, record, check, tree, reach, route, trace, accounts, alone, least, test, diff or help",
    )
}

/// Returns the error of `alone` with other arguments than a component and a scenario, or `--all` and a scenario.
pub fn alone_usage_error(alloc: Global) -> Result<Error, Error>
    ensures { IsRefusal ErrorKind.MissingRequiredArgument result }
{
    refused(
        alloc,
        ErrorKind::MissingRequiredArgument,
        "'nethrywel alone' takes NAME and SCENARIO, or --all and SCENARIO",
    )
}

/// Returns the error of `diff` with a scenario for the list after alone.
pub fn diff_usage_error(alloc: Global) -> Result<Error, Error>
    ensures { IsRefusal ErrorKind.MissingRequiredArgument result }
{
    refused(
        alloc,
        ErrorKind::MissingRequiredArgument,
        "'nethrywel diff' takes --scenario-after only together with SCENARIO",
    )
}

/// Returns the error of a `--color` that isn't auto, always or never.
pub fn color_value_error(alloc: Global) -> Result<Error, Error>
    ensures { IsRefusal ErrorKind.InvalidValue result }
{
    refused(
        alloc,
        ErrorKind::InvalidValue,
        "'--color <WHEN>' takes auto, always or never",
    )
}

/// Returns the arguments that the program was started with. An argument that isn't UTF-8 is an error of the command line.
pub fn words_given<R: Env + AllocGlobal>(rt: &R) -> Result<Vec<String>, Error>
    ensures { IfErr result (HasKind (ErrorKind.InvalidValue ∷ [])) }
{
    match env::args(rt) {
        Ok(words) => Ok(words.collect(rt.alloc())?),
        Err(fault) => Err(unread(rt.alloc(), &fault)),
    }
}

// Returns the error of arguments that can't be read.
fn unread(alloc: Global, fault: &io::Error) -> Error
    ensures { HasKind (ErrorKind.InvalidValue ∷ []) result }
{
    if fault.kind() == io::ErrorKind::OutOfMemory {
        return Error::from(AllocError);
    }
    match refused(
        alloc,
        ErrorKind::InvalidValue,
        "invalid UTF-8 was detected in one or more arguments",
    ) {
        Ok(error) | Err(error) => error,
    }
}

// Returns the error of a command line for this reason.
fn refused(alloc: Global, kind: ErrorKind, why: &str) -> Result<Error, Error>
    ensures { IsRefusal kind result }
{
    let mut words = commands(alloc)?;
    error_of(&mut words, kind, why)
}

// Returns the error of a command line of these commands.
fn error_of(words: &mut Words<'_>, kind: ErrorKind, why: &str) -> Result<Error, Error>
    ensures { IsRefusal kind result }
{
    Ok(words.error(kind, why)?)
}
