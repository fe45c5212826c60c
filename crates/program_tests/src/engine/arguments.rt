//! Arguments of the command line that no file of arguments can have, and a host that is out of memory while they are read.
use crate::engine::tries::one_is_as_usual;
use clap::error::ErrorKind;
use cli_engine::Options;
use std::alloc::Global;
use std::process::Abort;

/// The arguments of a command line, and what they ask for: whether a check, whose lines alone, and which file.
type ArgumentsCase = (
    &'static [&'static str],
    bool,
    Option<&'static str>,
    Option<&'static str>,
);

/// Command lines that no row of a file can have, or whose reading the program doesn't show. There are no arguments, an empty one,
/// and a flag as the program's own name.
const WORDS: &[ArgumentsCase] = &[
    (&[], false, None, None),
    (&["scenario_run", ""], false, None, Some("")),
    (&["", "check"], false, None, Some("check")),
    (&["--check"], false, None, None),
    (
        &["scenario_run", "--check", "--only", "a/b", "a.json"],
        true,
        Some("a/b"),
        Some("a.json"),
    ),
];

// Returns whether the arguments of a row are read as the row states.
fn is_read(alloc: Global, row: &ArgumentsCase) -> bool {
    let (words, check, only, path) = row;
    match Options::read(alloc, words) {
        Ok(options) => {
            options.check() == *check
                && options.only() == *only
                && options.path() == *path
                && !options.accounts()
        }
        Err(_) => false,
    }
}

// Checks that the arguments of each row are read as the row states.
fn are_read<R: Abort + AllocGlobal>(rt: &R, rows: &[ArgumentsCase]) {
    for row in rows {
        assert!(rt; is_read(rt.alloc(), row), "{:?}", row.3);
    }
}

#[test]
fn arguments_that_are_read(rt: HostRuntime) {
    are_read(&rt, WORDS);
}

// Returns whether arguments ask for a check of `a.json`, or the kind of the error.
fn asks_for_a_check(alloc: Global, words: &[&str]) -> Result<bool, ErrorKind> {
    match Options::read(alloc, words) {
        Ok(options) => Ok(options.check() && options.path() == Some("a.json")),
        Err(error) => Err(error.kind()),
    }
}

// Returns whether arguments are read as expected, or no answer if the host is out of memory.
fn is_told(alloc: Global, words: &[&str], want: Result<bool, ErrorKind>) -> Option<bool> {
    match asks_for_a_check(alloc, words) {
        Err(ErrorKind::OutOfMemory) => None,
        told => Some(told == want),
    }
}

// Returns whether one of two tries reads arguments as expected.
fn is_told_once(alloc: Global, words: &[&str], want: Result<bool, ErrorKind>) -> bool {
    one_is_as_usual(is_told(alloc, words, want), is_told(alloc, words, want))
}

#[test]
fn refused_memory_is_told_as_such(rt: HostRuntime) {
    let words = ["scenario_run", "--check", "a.json"];
    assert!(rt; is_told_once(rt.alloc(), &words, Ok(true)));
}

// The same of a line that isn't one.
#[test]
fn refused_memory_leaves_bad_lines_bad(rt: HostRuntime) {
    let words = ["scenario_run", "a.json", "b.json"];
    assert!(rt; is_told_once(rt.alloc(), &words, Err(ErrorKind::UnknownArgument)));
}
