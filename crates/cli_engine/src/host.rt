//! The program on its host: its arguments, the file of a start list, the standard streams and its exit status.
ghost use Rattle.std.specs.Prelude.{◌≡◌, is_some, IfSome, OnOk, Result};
ghost use Rattle.std.specs.Io.KnownBytes.{Appends};
ghost use Rattle.std.specs.Option.{option_map};
ghost use Rattle.std.specs.Process.{exit_status as status_told};
ghost use Rattle.cli_engine.specs.Ending.{EndsOn, HasResult, IsListText, program_status};
ghost use Rattle.cli_engine.specs.Program.{AsksFor};
ghost use Rattle.cli_engine.specs.Texts.{end_text};
ghost use Rattle.cli_engine.specs.declared.host.ProgramEnd.TheVariants.{Ended as Ending};
ghost use Rattle.cli_engine.specs.declared.program.Task.{Task as Tasks};
ghost use Rattle.cli_engine.specs.declared.program.TaskFailure.{TaskFailure as Failure};
ghost use Rattle.run_engine.specs.declared.engine.Summary.{Summary};

use crate::config::{ConfigFault, read_config_at};
use crate::options::{Options, words_given};
use crate::program::{Task, TaskFailure, boot_and_run, exit_status, task_of};
use clap::Error;
use list_parser::{BootFault, MACHINE_A};
use run_engine::Summary;
use run_lines::{Input, MAX_LINES, Output};
use std::convert::AsStr;
use std::fmt::Display;
use std::io;
use std::io::{Eprint, ErrorKind, Write};
use std::process::{ExitCode, Termination};
use std::rt::{Env, Files};

/// How the program ended.
#[derive(Drop)]
pub enum ProgramEnd {
    /// The arguments of the command line are not accepted, or ask for help.
    Refused(Error),
    /// The file of CONFIG is not read.
    NoConfig(ConfigFault),
    /// The task was started and has this result.
    Ended(Result<Summary, TaskFailure>),
}

impl Termination for ProgramEnd {
    /// Returns the exit status: `exit_status` for a task, 2 if CONFIG is not read or the arguments are not accepted, and 0
    /// for help. Prints nothing.
    fn report<R: Eprint>(self, _rt: &R) -> ExitCode
        ensures { status_told result ≡ program_status self }
    {
        let status = match &self {
            ProgramEnd::Refused(error) => { if error.use_stderr() { 2 } else { 0 } }
            ProgramEnd::NoConfig(_) => 2,
            ProgramEnd::Ended(ended) => exit_status(ended),
        };
        ExitCode::from(status)
    }
}

/// Does the task of the command line over the standard streams and returns how it ended. A failure is also printed on
/// standard error.
pub fn run_program<R: Env + Files + io::Input + Print + Eprint + AllocGlobal>(
    rt: &R,
) -> ProgramEnd {
    let end = match words_given(rt) {
        Ok(words) => run_words(rt, words.as_slice()),
        Err(error) => ProgramEnd::Refused(error),
    };
    let _ = tell(&end, &mut io::writer(rt), &mut ErrorPrinter { to: rt });
    end
}

// Prints why no task was started, the help, or why a task was not done to its end: the help on the first writer, all else on the
// second one. The error is a failed write.
fn tell<O: Write, E: Write>(end: &ProgramEnd, output: &mut O, errors: &mut E) -> io::Result<()>
    ensures fault { OnOk result (IfSome (end_text ⟦<BootFault as Display>⟧.output end.now)
        (Appends (E.contents errors.old) (E.contents errors.new))) }
    ensures quiet { (ended : Result Summary Failure) → end.now ≡ Ending ended → output.new ≡ output.old }
{
    match end {
        ProgramEnd::Refused(error) => {
            if error.use_stderr() {
                write!(errors, "{error}")
            } else {
                write!(output, "{error}")
            }
        }
        ProgramEnd::NoConfig(fault) => errors.writeln(format_args!("boot: {fault}")),
        ProgramEnd::Ended(Err(failure)) => errors.writeln(failure),
        ProgramEnd::Ended(Ok(_)) => Ok(()),
    }
}

// Standard error as a writer of text.
#[derive(Drop)]
struct ErrorPrinter<'a, R> {
    to: &'a R,
}

impl<R: Eprint> Write for ErrorPrinter<'_, R> {
    fn write(&mut self, buffer: &[u8]) -> io::Result<usize> {
        match str::from_utf8(buffer) {
            Ok(text) => {
                self.to.eprint(text)?;
                Ok(buffer.len())
            }
            Err(_) => Err(io::Error::from(ErrorKind::InvalidData)),
        }
    }

    fn flush(&mut self) -> io::Result<()> {
        Ok(())
    }
}

// Does the task of these arguments. The first argument is the program's own name.
fn run_words<R: Files + io::Input + Print + AllocGlobal, S: AsStr>(
    rt: &R,
    words: &[S],
) -> ProgramEnd {
    match Options::read(rt.alloc(), words) {
        Ok(options) => run_options(rt, &options),
        Err(error) => ProgramEnd::Refused(error),
    }
}

// Does the task of the options, on the machine of a file or on the built-in one.
fn run_options<R: Files + io::Input + Print + AllocGlobal>(
    rt: &R,
    options: &Options<'_>,
) -> ProgramEnd
    ensures { (asked : Tasks)
        × AsksFor options.now.check options.now.accounts (option_map (λ name. name.now) options.now.only) asked
        × EndsOn (IsListText R.File.remaining MACHINE_A.now (is_some options.now.path)) (is_some options.now.path)
        (λ ended text. (reader : R.Reader)
        × HasResult ended asked text MAX_LINES (R.Reader.remaining reader)) result }
{
    let task = task_of(options);
    match options.path() {
        Some(path) => match read_config_at(rt, path) {
            Ok(text) => ProgramEnd::Ended(run_task(rt, &text, task)),
            Err(fault) => ProgramEnd::NoConfig(fault),
        },
        None => ProgramEnd::Ended(run_task(rt, MACHINE_A.as_bytes(), task)),
    }
}

// Does a task on the machine of a text, over the standard streams.
fn run_task<R: io::Input + Print + AllocGlobal>(
    rt: &R,
    text: &[u8],
    task: Task<'_>,
) -> Result<Summary, TaskFailure>
    ensures { (reader : R.Reader)
        × HasResult result task.entry text.now MAX_LINES (R.Reader.remaining reader) }
{
    let mut reader = Input::new(rt.reader());
    let mut writer = Output::new(io::writer(rt));
    boot_and_run(rt.alloc(), text, task, &mut reader, &mut writer)
}
