//! The program for people: reads the arguments, calls the function of the command, and ends with the exit status that this returns.
//! Example: `nethrywel run SCENARIO` is `run_scenario` of `cli_runs`.
#![tactic(auto)]

ghost use Rattle.std.specs.Prelude.{◌≡◌, ◌≢◌, ◌⊎◌, ◌&&◌, ℕ, List, IfSome, is_none, is_some, map, string_bytes};
ghost use Rattle.std.specs.Process.{exit_status};
ghost use Rattle.clap.specs.Words.{kind_of};
ghost use Rattle.cli_base.specs.Given.{HasUnread};
ghost use Rattle.cli_base.specs.Statuses.{EndsAs, IsZero};
ghost use Rattle.cli_options.specs.Inputs.{files_read};
ghost use Rattle.nethrywel.specs.CommandStatus.{AloneAnswers, AnswersBy, AnswersRequest, AnswersWords, DiffAnswers, HelpEnds, Helps, RefusesBy, RunAnswers, TestAnswers, lacks_scenario};

use clap::Error;
use clap::error::ErrorKind;
use cli_base::{
    Coloring, Host, REFUSED, Settings, Spot, UNWRITTEN, made_or_status, names_given, print_refusal,
    refuse_unread, report_error, status_of, unread_argument,
};
use cli_budgets::print_minimum_budgets;
use cli_lists::{check_list, compare_lists, show_reach, show_route, show_tree};
use cli_options::{
    AloneOptions, CALLS, Command, CommandLine, DiffOptions, RunOptions, TestOptions,
    alone_usage_error, color_value_error, diff_usage_error, missing_command_error,
};
use cli_runs::{
    list_accounts, record_scenario, run_scenario, show_all_alone, show_alone, trace_scenario,
};
use cli_tests::run_tests;
use std::process::ExitCode;
use view_diagnostics::DiagnosticForm;

fn main(rt: HostRuntime) -> ExitCode {
    answer_host(&rt)
}

// Runs the command that the host's arguments ask for, and returns the exit status. Arguments that aren't UTF-8 are refused.
fn answer_host<H: Host>(host: &H) -> ExitCode
    ensures known { IfSome (H.arguments_of host.now) (λ words.
        AnswersWords (H.text_at host.now) words (exit_status result)) }
    ensures any { (exit_status result ≡ 2)
        ⊎ ((words : List (List ℕ)) × AnswersWords (H.text_at host.now) words (exit_status result)) }
{
    ExitCode::from(answer_arguments(host))
}

// Runs the command that the host's arguments ask for, and returns the exit status as a number.
fn answer_arguments<H: Host>(host: &H) -> u8
    ensures known { IfSome (H.arguments_of host.now) (λ words.
        AnswersWords (H.text_at host.now) words result) }
    ensures any { (result ≡ 2)
        ⊎ ((words : List (List ℕ)) × AnswersWords (H.text_at host.now) words result) }
{
    match host.arguments() {
        Ok(words) => answer_words(host, words.as_slice()),
        Err(error) => refuse(host.rt(), &[], &error),
    }
}

// Runs the command that the arguments ask for, and returns the exit status.
fn answer_words<H: Host>(host: &H, words: &[String]) -> u8
    ensures { AnswersWords (H.text_at host.now) (map string_bytes words.now) result }
{
    let rt = host.rt();
    match CommandLine::read(rt.alloc(), words) {
        Ok(Some(request)) => answer_request(host, &request),
        Ok(None) => refuse_words(rt, missing_command_error(rt.alloc())),
        Err(error) => refuse(rt, words, &error),
    }
}

// Prints why these arguments are refused, or the help that they ask for, and returns the exit status.
fn refuse(rt: &HostRuntime, words: &[String], error: &Error) -> u8
    ensures { RefusesBy error.now result }
{
    let printed = print_refusal(rt, words, error);
    match error.kind() {
        ErrorKind::DisplayHelp | ErrorKind::DisplayVersion => status_of(rt, printed),
        ErrorKind::OutOfMemory => UNWRITTEN,
        _ => REFUSED,
    }
}

// Prints why arguments are refused, and returns the exit status.
fn refuse_words(rt: &HostRuntime, told: Result<Error, Error>) -> u8
    ensures { result ≡ 2 }
{
    match told {
        Ok(error) | Err(error) => {
            let _ = error.print(rt);
            REFUSED
        }
    }
}

// Runs the command of a request with the settings of the command line, and returns the exit status.
fn answer_request<H: Host>(host: &H, request: &CommandLine<'_>) -> u8
    ensures { AnswersRequest (H.text_at host.now) request.now result }
{
    let rt = host.rt();
    let form = if request.command.is_json() {
        DiagnosticForm::Json
    } else {
        DiagnosticForm::Text
    };
    if request.command.reads_input_twice() {
        let message = "expected `-` for one file, found it for several";
        report_error(rt, form, Spot::nowhere(), &message);
        return REFUSED;
    }
    match names_given(rt, request.given.as_slice(), form) {
        Ok(known) => {
            let given = request.given.as_slice();
            answer_named(host, &request.command, Settings::new(&known, given, form))
        }
        Err(status) => status,
    }
}

// Runs a command, unless no file that the command line names reads a name that it gives a value. Returns the exit status. `test` finds
// its files by itself.
fn answer_named<'a, H: Host>(host: &H, command: &'a Command<'a>, settings: Settings<'a>) -> u8
    ensures { EndsAs (HasUnread (H.text_at host.now) (files_read command.now) settings.entry.given.now)
        (AnswersBy (H.text_at host.now) command.now settings.entry) result }
{
    if let Command::Test(_) = command {
        return answer(host, command, settings);
    }
    let rt = host.rt();
    match made_or_status(rt, command.paths_read(rt.alloc())) {
        Ok(paths) => match unread_argument(host, settings.given, paths.as_slice()) {
            Some(argument) => refuse_unread(rt, settings.form, argument),
            None => answer(host, command, settings),
        },
        Err(status) => status,
    }
}

// Runs a command, and returns the exit status.
fn answer<'a, H: Host>(host: &H, command: &'a Command<'a>, settings: Settings<'a>) -> u8
    ensures { AnswersBy (H.text_at host.now) command.now settings.entry result }
{
    match command {
        Command::Run(asked) => answer_run(host, asked, settings),
        Command::Record(asked) => record_scenario(host, asked, settings),
        Command::Check(asked) => check_list(host, asked, settings),
        Command::Tree(asked) => show_tree(host, asked, settings),
        Command::Reach(asked) => show_reach(host, asked, settings),
        Command::Route(asked) => show_route(host, asked, settings),
        Command::Trace(asked) => trace_scenario(host, asked, settings),
        Command::Accounts(asked) => list_accounts(host, asked, settings),
        Command::Least(asked) => print_minimum_budgets(host, asked, settings),
        Command::Alone(asked) => answer_alone(host, asked, settings),
        Command::Diff(asked) => answer_diff(host, asked, settings),
        Command::Test(asked) => answer_test(host, asked, settings),
        Command::Help(topic) => print_help(host.rt(), *topic),
    }
}

// Prints a page of help, and returns the exit status: on calls, else what `--help` prints of the program or of a command.
fn print_help(rt: &HostRuntime, topic: Option<&str>) -> u8
    ensures { HelpEnds topic.entry result }
{
    match topic {
        Some("calls") => status_of(rt, print!(rt; "{CALLS}")),
        Some(command) => print_help_of(rt, &["nethrywel", command, "--help"]),
        None => print_help_of(rt, &["nethrywel", "--help"]),
    }
}

// Prints the help that these arguments ask for, or why they are refused, and returns the exit status.
fn print_help_of(rt: &HostRuntime, arguments: &[&str]) -> u8
    ensures { Helps (map (λ word. word.now) arguments.now) result }
{
    match CommandLine::read(rt.alloc(), arguments) {
        Ok(_) => 0,
        Err(error) => refuse(rt, &[], &error),
    }
}

// Runs a scenario, and returns the exit status.
fn answer_run<'a, H: Host>(host: &H, asked: &'a RunOptions<'a>, settings: Settings<'a>) -> u8
    ensures { RunAnswers (H.text_at host.now) asked.now settings.entry result }
{
    let rt = host.rt();
    let Some(color) = asked.color else {
        return refuse_words(rt, color_value_error(rt.alloc()));
    };
    run_scenario(host, asked, settings, Coloring::asked(rt, color))
}

// Prints the replies to a component, or to each script, in the whole run and alone. Returns the exit status.
fn answer_alone<'a, H: Host>(host: &H, asked: &'a AloneOptions<'a>, settings: Settings<'a>) -> u8
    ensures { AloneAnswers (H.text_at host.now) asked.now settings.entry asked.now.scenario result }
{
    let rt = host.rt();
    match asked.scenario {
        Some(scenario) => {
            if asked.all || asked.summary {
                return refuse_words(rt, alone_usage_error(rt.alloc()));
            }
            show_alone(host, asked, scenario, settings)
        }
        None => {
            if asked.all {
                return show_all_alone(host, asked, settings);
            }
            refuse_words(rt, alone_usage_error(rt.alloc()))
        }
    }
}

// Prints the differences between two start lists, and returns the exit status.
fn answer_diff<'a, H: Host>(host: &H, asked: &'a DiffOptions<'a>, settings: Settings<'a>) -> u8
    ensures { DiffAnswers (H.text_at host.now) asked.now settings.entry result }
{
    if lacks_scenario(asked) {
        let rt = host.rt();
        return refuse_words(rt, diff_usage_error(rt.alloc()));
    }
    compare_lists(host, asked, settings)
}

// Returns whether a scenario is given for the list after alone.
fn lacks_scenario(asked: &DiffOptions<'_>) -> bool
    ensures { result ≡ lacks_scenario asked.now }
{
    asked.scenario.is_none() && asked.scenario_after.is_some()
}

// Runs scenarios as tests, and returns the exit status.
fn answer_test<'a, H: Host>(host: &H, asked: &'a TestOptions<'a>, settings: Settings<'a>) -> u8
    ensures { TestAnswers (H.text_at host.now) asked.now settings.entry result }
{
    let rt = host.rt();
    let Some(color) = asked.color else {
        return refuse_words(rt, color_value_error(rt.alloc()));
    };
    run_tests(host, asked, settings, Coloring::asked(rt, color).out)
}
