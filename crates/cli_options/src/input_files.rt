//! The files that a command reads, and whether two of them are standard input.
ghost use Rattle.std.specs.Prelude.{◌≡◌, ◌≤◌, ◌∷◌, ◌++◌, [], map, IfOk};
ghost use Rattle.std.specs.Option.{option_copied};
ghost use Rattle.cli_options.specs.Inputs.{diff_files, files_read, given, inputs, is_given_input, is_input, is_repeated, reads_twice};

use crate::command::Command;
use crate::command_options::DiffOptions;
use std::alloc::{AllocError, Global};

/// The path that denotes standard input.
const STANDARD_INPUT: &str = "-";

impl Command<'_> {
    /// Returns whether two of the files that the command reads are standard input: whether two of their paths are `-`.
    pub fn reads_input_twice(&self) -> bool
        ensures { result ≡ reads_twice self.now }
    {
        match self {
            Command::Run(asked) => are_both(asked.machine, asked.scenario),
            Command::Record(asked) => are_both(asked.machine, asked.scenario),
            Command::Check(asked) => are_both(asked.policy, asked.list),
            Command::Trace(asked) => are_both(asked.machine, asked.scenario),
            Command::Accounts(asked) => are_both(asked.machine, asked.scenario),
            Command::Least(asked) => are_both(asked.machine, asked.scenario),
            Command::Alone(asked) => match asked.scenario {
                Some(scenario) => are_both(asked.machine, scenario),
                None => are_both(asked.machine, asked.name),
            },
            Command::Diff(asked) => diff_reads_twice(asked),
            Command::Tree(_) | Command::Reach(_) | Command::Route(_) => false,
            Command::Test(_) | Command::Help(_) => false,
        }
    }

    /// Returns the paths of the files that the command line names for the command, except those of tests. Fails if the host is out of
    /// memory.
    pub fn paths_read(&self, alloc: Global) -> Result<Vec<&str>, AllocError>
        ensures { IfOk result (λ paths. map (λ path. path.now) paths.items ≡ files_read self.now) }
    {
        match self {
            Command::Run(asked) => both(alloc, asked.machine, asked.scenario),
            Command::Record(asked) => both(alloc, asked.machine, asked.scenario),
            Command::Check(asked) => both(alloc, asked.policy, asked.list),
            Command::Tree(asked) => both(alloc, None, asked.list),
            Command::Reach(asked) => both(alloc, None, asked.list),
            Command::Route(asked) => both(alloc, None, asked.list),
            Command::Trace(asked) => both(alloc, asked.machine, asked.scenario),
            Command::Accounts(asked) => both(alloc, asked.machine, asked.scenario),
            Command::Least(asked) => both(alloc, asked.machine, asked.scenario),
            Command::Alone(asked) => match asked.scenario {
                Some(scenario) => both(alloc, asked.machine, scenario),
                None => both(alloc, asked.machine, asked.name),
            },
            Command::Diff(asked) => diff_paths(alloc, asked),
            Command::Test(asked) => if_given(alloc, asked.machine),
            Command::Help(_) => Ok(Vec::new(alloc)),
        }
    }
}

// Returns the path of a file that may be given.
fn if_given<'a>(alloc: Global, path: Option<&'a str>) -> Result<Vec<&'a str>, AllocError>
    ensures { IfOk result (λ paths. map (λ path. path.now) paths.items ≡ given (option_copied path.entry)) }
{
    let mut paths = Vec::new(alloc);
    if let Some(path) = path {
        paths.push(path)?;
    }
    Ok(paths)
}

// Returns the path of a file that may be given, and that of another file.
fn both<'a>(
    alloc: Global,
    first: Option<&'a str>,
    second: &'a str,
) -> Result<Vec<&'a str>, AllocError>
    ensures { IfOk result (λ paths. map (λ path. path.now) paths.items
        ≡ given (option_copied first.entry) ++ second.now ∷ []) }
{
    let mut paths = if_given(alloc, first)?;
    paths.push(second)?;
    Ok(paths)
}

// Returns the paths of the files that `diff` reads.
fn diff_paths<'a>(alloc: Global, asked: &DiffOptions<'a>) -> Result<Vec<&'a str>, AllocError>
    ensures { IfOk result (λ paths. map (λ path. path.now) paths.items ≡ diff_files asked.now) }
{
    let mut paths = if_given(alloc, asked.scenario)?;
    paths.append(&mut if_given(alloc, asked.scenario_after)?)?;
    paths.append(&mut if_given(alloc, asked.policy)?)?;
    paths.push(asked.before)?;
    paths.push(asked.after)?;
    Ok(paths)
}

// Returns whether a file that may be given and another file are both standard input.
fn are_both(first: Option<&str>, second: &str) -> bool
    ensures { result ≡ is_repeated (given (option_copied first.entry) ++ second.now ∷ []) }
{
    is_given_input(first) && is_input(second)
}

// Returns whether two of the files that `diff` reads are standard input.
#[tactic(auto, using(crate::proofs::InputLemmas::counted))]
fn diff_reads_twice(asked: &DiffOptions<'_>) -> bool
    ensures { result ≡ is_repeated (diff_files asked.now) }
{
    let scenarios = inputs(asked.scenario) + inputs(asked.scenario_after);
    let lists = inputs(Some(asked.before)) + inputs(Some(asked.after));
    scenarios + inputs(asked.policy) + lists > 1
}

// Returns the number of files that are standard input, of one that may be given: 0 or 1.
fn inputs(path: Option<&str>) -> usize
    ensures count { result ≡ inputs (given (option_copied path.entry)) }
    ensures most { result ≤ 1 }
{
    usize::from(is_given_input(path))
}

// Returns whether a file is given and is standard input.
fn is_given_input(path: Option<&str>) -> bool
    ensures { result ≡ is_given_input (option_copied path.entry) }
{
    match path {
        Some(path) => is_input(path),
        None => false,
    }
}

// Returns whether a path denotes standard input.
fn is_input(path: &str) -> bool
    ensures { result ≡ is_input path.now }
{
    path == STANDARD_INPUT
}
