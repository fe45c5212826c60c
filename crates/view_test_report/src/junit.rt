//! JUnit's XML, as systems for continuous integration read it.
ghost use Rattle.std.specs.Prelude.{◌≡◌, ◌==◌, ◌≤◌, ◌++◌, flat_map, length, position, IfOk, IfSome, OnOk};
ghost use Rattle.view_test_report.specs.Junit.{counted, first_line, junit_case, junit_document, junit_end, junit_failure, junit_front, numbered, thousandths, timed};

use crate::test_result::{TestResult, TimedResult, failures, total_milliseconds};
use crate::xml::add_between;
use std::alloc::{AllocError, Global};

/// The text before the number of trials.
const HEAD: &[u8] =
    b"<?xml version=\"1.0\" encoding=\"UTF-8\"?>\n<testsuites>\n<testsuite name=\"nethrywel\" tests=\"";

/// Renders the results of trials as a JUnit document. Returns an error if the host is out of memory.
pub fn junit_document(alloc: Global, trials: &[TimedResult]) -> Result<Vec<u8>, AllocError>
    ensures { IfOk result (λ text. text.items ≡ junit_document trials.now) }
{
    let mut text = Vec::new(alloc);
    let all = trials.len();
    let failed = failures(trials);
    let total = total_milliseconds(trials);
    add_front(alloc, &mut text, all, failed, total)?;
    add_cases(alloc, &mut text, trials)?;
    text.extend_from_slice(b"</testsuite>\n</testsuites>\n")?;
    Ok(text)
}

// Adds the text before the first trial: the number of trials, that of failures, and the time of all in milliseconds.
#[tactic(auto, unfolding(crate::specs::Junit::junit_front))]
fn add_front(
    alloc: Global,
    text: &mut Vec<u8>,
    all: usize,
    failed: usize,
    total: u64,
) -> Result<(), AllocError>
    ensures { OnOk result (text.new.items ≡ text.old.items ++ junit_front all failed total) }
{
    add_counts(alloc, text, all, failed)?;
    add_time(alloc, text, total)?;
    text.extend_from_slice(b">\n")
}

// Adds the text up to the number of failures.
#[tactic(auto, unfolding(crate::specs::Junit::counted))]
fn add_counts(
    alloc: Global,
    text: &mut Vec<u8>,
    all: usize,
    failed: usize,
) -> Result<(), AllocError>
    ensures { OnOk result (text.new.items ≡ text.old.items ++ counted all failed) }
{
    add_number(alloc, text, HEAD, all as u64)?;
    add_number(alloc, text, b"\" failures=\"", failed as u64)
}

// Adds the quote that ends an attribute, and after it a time in seconds as an attribute.
#[tactic(auto, unfolding(crate::specs::Junit::timed))]
fn add_time(alloc: Global, text: &mut Vec<u8>, milliseconds: u64) -> Result<(), AllocError>
    ensures { OnOk result (text.new.items ≡ text.old.items ++ timed milliseconds) }
{
    add_number(alloc, text, b"\" time=\"", milliseconds / 1000)?;
    add_thousandths(text, milliseconds)
}

// Adds a point, the three digits of thousandths of a second, and a quote.
#[tactic(auto, unfolding(crate::specs::Junit::thousandths))]
fn add_thousandths(text: &mut Vec<u8>, milliseconds: u64) -> Result<(), AllocError>
    ensures { OnOk result (text.new.items ≡ text.old.items ++ thousandths milliseconds) }
{
    let hundreds = (milliseconds / 100 % 10) as u8;
    let tens = (milliseconds / 10 % 10) as u8;
    let ones = (milliseconds % 10) as u8;
    text.extend_from_slice(&[b'.', b'0' + hundreds, b'0' + tens, b'0' + ones, b'"'])
}

// Adds a number after a text.
#[tactic(auto, unfolding(crate::specs::Junit::numbered))]
fn add_number(
    alloc: Global,
    text: &mut Vec<u8>,
    before: &[u8],
    number: u64,
) -> Result<(), AllocError>
    ensures { OnOk result (text.new.items ≡ text.old.items ++ numbered before.now number) }
{
    let digits = number.to_string(alloc)?;
    text.extend_from_slice(before)?;
    text.extend_from_slice(digits.as_bytes())
}

// Adds all trials.
fn add_cases(alloc: Global, text: &mut Vec<u8>, trials: &[TimedResult]) -> Result<(), AllocError>
    ensures { OnOk result (text.new.items ≡ text.old.items ++ flat_map junit_case trials.now) }
{
    for trial in trials {
        add_case(alloc, text, trial)?;
    }
    Ok(())
}

// Adds a trial.
#[tactic(auto, unfolding(crate::specs::Junit::junit_case))]
fn add_case(alloc: Global, text: &mut Vec<u8>, trial: &TimedResult) -> Result<(), AllocError>
    ensures { OnOk result (text.new.items ≡ text.old.items ++ junit_case trial.now) }
{
    let path = trial.result.name.as_bytes();
    add_between(
        text,
        b"<testcase classname=\"nethrywel\" name=\"",
        path,
        b"",
    )?;
    add_time(alloc, text, trial.milliseconds)?;
    add_end(text, &trial.result)
}

// Adds the end of a trial: why it failed, if it did.
fn add_end(text: &mut Vec<u8>, trial: &TestResult) -> Result<(), AllocError>
    ensures { OnOk result (text.new.items ≡ text.old.items ++ junit_end trial.now) }
{
    if trial.passed {
        text.extend_from_slice(b"/>\n")
    } else {
        add_failure(text, trial.told.as_slice())
    }
}

// Adds why a trial failed.
#[tactic(auto, unfolding(crate::specs::Junit::junit_failure))]
fn add_failure(text: &mut Vec<u8>, told: &[u8]) -> Result<(), AllocError>
    ensures { OnOk result (text.new.items ≡ text.old.items ++ junit_failure told.now) }
{
    add_between(text, b"><failure message=\"", first_line(told), b"\">")?;
    add_between(text, b"", told, b"</failure></testcase>\n")
}

// Returns the first of these lines, without its newline.
fn first_line(lines: &[u8]) -> &[u8]
    ensures { result.now ≡ first_line lines.now }
{
    match first_end(lines) {
        Some(end) => &lines[..end],
        None => lines,
    }
}

// Returns the position of the first newline, if there is one.
fn first_end(lines: &[u8]) -> Option<usize>
    ensures value { result ≡ position (λ byte. byte == 10) lines.now }
    ensures within { IfSome result (λ end. end ≤ length lines.now) }
{
    lines.iter().position(|byte| *byte == b'\n')
}
