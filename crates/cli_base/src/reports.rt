//! Diagnostics of a command, on standard error or in a text.
use crate::status::OUT_OF_MEMORY;
use crate::streams::{OutputStream as Stream, Writer, plain_writer, text_of};
use arrayvec::ArrayString;
use clap::Error;
use cli_options::CommandLine;
use run_devices::Sink;
use std::alloc::{AllocError, Global};
use std::fmt::{Display, Write};
use std::{fmt, io};
use view_diagnostics::{Counts, DiagnosticForm, Diagnostics, FilePlace, Severity, Subject};

/// The most bytes of an operating system's reason; the message of an error has at most 256.
const LONGEST_REASON: usize = 300;

/// The place that a diagnostic is about: a file, a line or a byte of it, or no file.
#[derive(Clone, Copy)]
pub struct Spot<'a> {
    file: &'a str,
    place: FilePlace,
}

impl<'a> Spot<'a> {
    /// Returns the place of a diagnostic that is about no file.
    pub fn nowhere() -> Spot<'a> {
        Spot::file("")
    }

    /// Returns the place of a diagnostic about a whole file.
    pub fn file(file: &'a str) -> Spot<'a> {
        Spot {
            file,
            place: FilePlace::Whole,
        }
    }

    /// Returns the place of a diagnostic about a line, from 1 on.
    pub fn line(file: &'a str, line: u64) -> Spot<'a> {
        Spot {
            file,
            place: FilePlace::Line(line),
        }
    }

    /// Returns the place of a diagnostic about a byte of a line, both from 1 on.
    pub fn byte(file: &'a str, line: u64, column: usize) -> Spot<'a> {
        Spot {
            file,
            place: FilePlace::Byte(line, column as u64),
        }
    }
}

/// Prints an error at its place on standard error, as text or JSON.
pub fn report_error<D: Display>(
    rt: &HostRuntime,
    form: DiagnosticForm,
    spot: Spot<'_>,
    message: &D,
) {
    report(rt, form, Severity::Error, spot, message);
}

/// Prints a diagnostic at its place on standard error, as text or JSON, or that the host is out of memory. A write that fails loses it.
pub fn report<D: Display>(
    rt: &HostRuntime,
    form: DiagnosticForm,
    severity: Severity,
    spot: Spot<'_>,
    message: &D,
) {
    let mut writer = plain_writer(rt, Stream::Complained(rt.stderr()));
    if write(rt, &mut writer, form, severity, spot, message).is_err() {
        let _ = eprintln!(rt; "error: {}", OUT_OF_MEMORY);
    }
}

/// Prints that a file can't be written, with the operating system's reason.
pub fn report_write_failure(rt: &HostRuntime, form: DiagnosticForm, path: &str, error: &io::Error) {
    report_error(
        rt,
        form,
        Spot::nowhere(),
        &format_args!("cannot write {path}: {}", SystemReason(*error)),
    );
}

/// Prints the help that arguments ask for, or why they are refused. There control characters of the arguments are escapes.
pub fn print_refusal(rt: &HostRuntime, words: &[String], error: &Error) -> io::Result<()> {
    if words.iter().any(|word| word.as_str().contains('\n')) {
        // (the same arguments without newlines are refused for the same reason)
        if let Ok(words) = shown_words(rt.alloc(), words) {
            if let Err(error) = CommandLine::read(rt.alloc(), words.as_slice()) {
                return print_error(rt, &error);
            }
        }
    }
    print_error(rt, error)
}

// Returns arguments with escapes in place of newlines. The error is out of memory.
fn shown_words(alloc: Global, words: &[String]) -> Result<Vec<String>, AllocError> {
    let mut shown = Vec::new(alloc);
    for word in words {
        let mut text = String::new(alloc);
        for character in word.as_str().chars() {
            match character {
                '\n' => text.push_str("\\n")?,
                character => text.push(character)?,
            }
        }
        shown.push(text)?;
    }
    Ok(shown)
}

// Prints an error of `clap`, or the help in its place, in which control characters except newlines are escapes.
fn print_error(rt: &HostRuntime, error: &Error) -> io::Result<()> {
    match error.to_string(rt.alloc()) {
        Ok(text) if error.use_stderr() => eprint!(rt; "{}", ShownLines(text.as_str())),
        _ => error.print(rt),
    }
}

// Lines without control characters.
#[derive(Clone, Copy)]
struct ShownLines<'a>(&'a str);

impl fmt::Display for ShownLines<'_> {
    fn fmt<W: fmt::Write>(&self, f: &mut fmt::Formatter<W>) -> fmt::Result {
        for character in self.0.chars() {
            if character.is_control() && character != '\n' {
                write!(f, "\\u{:04x}", character as u32)?;
            } else {
                f.write_char(character)?;
            }
        }
        Ok(())
    }
}

/// The operating system's reason of a failure, without its number.
#[derive(Clone, Copy)]
pub(crate) struct SystemReason(pub(crate) io::Error);

impl fmt::Display for SystemReason {
    fn fmt<W: fmt::Write>(&self, f: &mut fmt::Formatter<W>) -> fmt::Result {
        let mut reason = ArrayString::<LONGEST_REASON>::new();
        let _ = write!(reason, "{}", self.0);
        match reason.as_str().split_once(" (os error ") {
            Some((words, _)) => f.write_str(words),
            None => f.write_str(reason.as_str()),
        }
    }
}

/// Prints how many errors and warnings a command has printed. Prints nothing if there are none, and nothing in the JSON form.
pub fn summarize(rt: &HostRuntime, form: DiagnosticForm, counts: Counts) {
    if form == DiagnosticForm::Text && !counts.is_nothing() {
        let _ = eprintln!(rt; "{counts}");
    }
}

/// Prints how many errors a command has printed, as `summarize` does.
pub fn summarize_errors(rt: &HostRuntime, form: DiagnosticForm, errors: u64) {
    let counts = Counts {
        errors,
        warnings: 0,
    };
    summarize(rt, form, counts);
}

/// Renders an error at its place as a line of text. Returns an error if the host is out of memory.
pub fn error_line<D: Display>(
    rt: &HostRuntime,
    spot: Spot<'_>,
    message: &D,
) -> Result<Vec<u8>, AllocError> {
    diagnostic_line(rt, Severity::Error, spot, message)
}

/// Renders a diagnostic at its place as a line of text. Returns an error if the host is out of memory.
pub fn diagnostic_line<D: Display>(
    rt: &HostRuntime,
    severity: Severity,
    spot: Spot<'_>,
    message: &D,
) -> Result<Vec<u8>, AllocError> {
    let mut writer = plain_writer(rt, Stream::text(rt));
    write(
        rt,
        &mut writer,
        DiagnosticForm::Text,
        severity,
        spot,
        message,
    )?;
    if writer.failed() {
        return Err(AllocError);
    }
    Ok(text_of(rt, writer))
}

/// Writes a diagnostic. A write that fails loses it, and a writer that has failed isn't written to. The error is out of memory.
pub(crate) fn write<D: Display>(
    rt: &HostRuntime,
    writer: &mut Writer<'_>,
    form: DiagnosticForm,
    severity: Severity,
    spot: Spot<'_>,
    message: &D,
) -> Result<(), AllocError> {
    let text = message.to_string(rt.alloc())?;
    if writer.failed() {
        return Ok(());
    }
    let subject = Subject {
        file: spot.file.as_bytes(),
        form,
    };
    let mut diagnostics = Diagnostics::new(subject);
    let begun = diagnostics.begin(writer, spot.place, severity);
    if begun.is_ok() && diagnostics.put(writer, text.as_bytes()).is_ok() {
        let _ = diagnostics.end(writer);
    }
    Ok(())
}
