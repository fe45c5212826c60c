//! What a command line sets for each command: the values of names, and the form of diagnostics.
ghost use Rattle.std.specs.Prelude.{◌≡◌, ◌⊎◌, ℕ, List, filter, length, IfErr, IfOk, OnOk, Some};
ghost use Rattle.std.specs.Borrow.{Bor};
ghost use Rattle.std.specs.Str.{bytes_eq};
ghost use Rattle.std.specs.Option.{option_copied};
ghost use Rattle.line_names.specs.NameTable.{nothing};
ghost use Rattle.line_steps.specs.RunPosition.{first_position};
ghost use Rattle.std.specs.List.{list_all};
ghost use Rattle.cli_base.specs.Given.{given_by, given_by_all, is_setting, is_value_byte, name_in, value_in, HasNoSetting};
ghost use Rattle.cli_base.specs.Given.{names_of};

use crate::reports::{Spot, report_error};
use crate::status::{REFUSED, made_or_status};
use line_names::{NameTable, RoundMark, is_name};
use line_steps::RunPosition;
use std::alloc::{AllocError, Global};
use text_codec::find_byte;
use view_diagnostics::{DiagnosticForm, Subject};

/// What names denote, and the form of diagnostics.
#[derive(Clone, Copy)]
pub struct Settings<'a> {
    // Or nothing, where no name has a value.
    known: Option<&'a NameTable>,
    /// The arguments of `--set` that give names their values.
    pub given: &'a [&'a str],
    /// The form of diagnostics.
    pub form: DiagnosticForm,
}

impl<'a> Settings<'a> {
    /// Returns those by which names denote what these arguments give them.
    pub fn new(known: &'a NameTable, given: &'a [&'a str], form: DiagnosticForm) -> Settings<'a>
        ensures names { names_of result ≡ known.now }
        ensures given { result.given.now ≡ given.now }
    {
        Settings {
            known: Some(known),
            given,
            form,
        }
    }

    /// Returns settings without values of names, with this form of diagnostics.
    pub fn without_values(form: DiagnosticForm) -> Settings<'a> {
        Settings {
            known: None,
            given: &[],
            form,
        }
    }

    /// Returns a scenario's path as the subject of diagnostics, with their form.
    pub fn subject(self, scenario: &str) -> Subject<'_> {
        Subject {
            file: scenario.as_bytes(),
            form: self.form,
        }
    }

    /// Returns a copy of what the names denote.
    pub fn known(self, alloc: Global) -> Result<NameTable, AllocError>
        ensures { IfOk result (λ known. known ≡ names_of self.entry) }
    {
        match self.known {
            Some(known) => known.copy(alloc),
            None => Ok(NameTable::new(alloc)),
        }
    }

    /// Binds each name to its value. If the host is out of memory, prints that and returns the exit status 1.
    pub fn known_or_status(self, rt: &HostRuntime) -> Result<NameTable, u8>
        ensures known { IfOk result (λ known. known ≡ names_of self.entry) }
        ensures failed { IfErr result (λ status. status ≡ 1) }
    {
        made_or_status(rt, self.known(rt.alloc()))
    }

    /// Returns the state before the first line of a scenario with these round marks. The error is out of memory.
    pub fn start<'m>(
        self,
        alloc: Global,
        marks: &'m [RoundMark],
    ) -> Result<RunPosition<'m>, AllocError>
        ensures { IfOk result (λ start. start ≡ first_position (names_of self.entry) marks.now) }
    {
        RunPosition::new(self.known(alloc)?, marks)
    }

    /// Returns the same state as `start`. If the host is out of memory, prints that and returns the exit status 1.
    pub fn start_or_status<'m>(
        self,
        rt: &HostRuntime,
        marks: &'m [RoundMark],
    ) -> Result<RunPosition<'m>, u8>
        ensures start { IfOk result (λ start. start ≡ first_position (names_of self.entry) marks.now) }
        ensures failed { IfErr result (λ status. status ≡ 1) }
    {
        made_or_status(rt, self.start(rt.alloc(), marks))
    }
}

/// Returns the name in an argument of `--set`.
pub(crate) fn name_given(argument: &str) -> &[u8]
    ensures { result.now ≡ name_in argument.now }
{
    parted(argument.as_bytes()).0
}

/// Prints that no text reads the name of an argument of `--set`, and returns the exit status 2.
pub fn refuse_unread(rt: &HostRuntime, form: DiagnosticForm, argument: &str) -> u8
    ensures { result ≡ 2 }
{
    refuse(
        rt,
        form,
        argument,
        "expected a name that a start list or a scenario reads",
    );
    REFUSED
}

/// Returns what names denote by arguments of `--set`, each `NAME=VALUE`, or the exit status if one is none, a name is given twice or
/// the host is out of memory, which is printed.
pub fn names_given(
    rt: &HostRuntime,
    arguments: &[&str],
    form: DiagnosticForm,
) -> Result<NameTable, u8>
    ensures known { IfOk result (λ known. known ≡ given_by_all nothing arguments.now) }
    ensures failed { IfErr result (λ status. (status ≡ 1)
        ⊎ (status ≡ 2) × HasNoSetting arguments.now) }
{
    for argument in arguments {
        if !is_taken(rt, form, arguments, argument) {
            return Err(REFUSED);
        }
    }
    made_or_status(rt, known_by(rt.alloc(), arguments))
}

// What names denote by such arguments.
fn known_by(alloc: Global, arguments: &[&str]) -> Result<NameTable, AllocError>
    ensures { IfOk result (λ known. known ≡ given_by_all nothing arguments.now) }
{
    let mut known = NameTable::new(alloc);
    for argument in arguments {
        give(&mut known, argument.as_bytes())?;
    }
    Ok(known)
}

// Gives the name in an argument its value, if the argument has one.
fn give(known: &mut NameTable, argument: &[u8]) -> Result<(), AllocError>
    ensures { OnOk result (known.new ≡ given_by known.old argument.now) }
{
    let (name, value) = parted(argument);
    match value {
        Some(value) => known.give(name, value),
        None => Ok(()),
    }
}

// Returns whether an argument, one of these, gives a name a value that no other one gives. Otherwise prints why it doesn't.
fn is_taken(rt: &HostRuntime, form: DiagnosticForm, arguments: &[&str], argument: &str) -> bool
    ensures { result ≡ is_setting arguments.now argument.now }
{
    let (name, value) = parted(argument.as_bytes());
    let Some(value) = value else {
        refuse(rt, form, argument, "expected NAME=VALUE");
        return false;
    };
    if !is_name(name) {
        refuse(
            rt,
            form,
            argument,
            "expected a name of letters, digits and _ that begins with no digit",
        );
        return false;
    }
    if !is_value(value) {
        refuse(
            rt,
            form,
            argument,
            "expected a value without \", \\ and control characters",
        );
        return false;
    }
    if givers(arguments, name) > 1 {
        refuse(rt, form, argument, "expected each name once");
        return false;
    }
    true
}

// Returns how many arguments give a name a value.
fn givers(arguments: &[&str], name: &[u8]) -> usize
    ensures { result ≡ length (filter (λ (argument : Bor (List ℕ)). bytes_eq (name_in argument.now) name.now) arguments.now) }
{
    arguments
        .iter()
        .filter(|argument| names(argument, name))
        .count()
}

// Returns whether an argument gives this name a value.
fn names(argument: &str, name: &[u8]) -> bool
    ensures { result ≡ bytes_eq (name_in argument.now) name.now }
{
    name_given(argument) == name
}

// Returns whether each byte is allowed in a value.
fn is_value(bytes: &[u8]) -> bool
    ensures { result ≡ list_all is_value_byte bytes.now }
{
    bytes.iter().all(|byte| is_value_byte(*byte))
}

// Prints why an argument of `--set` is invalid.
fn refuse(rt: &HostRuntime, form: DiagnosticForm, argument: &str, why: &str) {
    report_error(
        rt,
        form,
        Spot::nowhere(),
        &format_args!("--set `{argument}`: {why}"),
    );
}

// Splits an argument at its first `=` into a name, and its value if there is one.
fn parted(argument: &[u8]) -> (&[u8], Option<&[u8]>)
    ensures name { result.0.now ≡ name_in argument.now }
    ensures value { option_copied result.1 ≡ value_in argument.now }
{
    match find_byte(b'=', argument) {
        Some(place) => (&argument[..place], Some(&argument[place + 1..])),
        None => (argument, None),
    }
}

// Returns whether a byte is allowed in a value: no quote, backslash or control character.
fn is_value_byte(byte: u8) -> bool
    ensures { result ≡ is_value_byte byte }
{
    byte != b'"' && byte != b'\\' && byte >= b' ' && byte != 127
}
