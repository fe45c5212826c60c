//! The Test Anything Protocol, version 13.
ghost use Rattle.std.specs.Prelude.{◌≡◌, ◌++◌, string_bytes, IfOk, OnOk};
ghost use Rattle.view_test_report.specs.Tap.{named, noted, tap_plan, tap_point};

use crate::test_result::TestResult;
use crate::xml::add_digits;
use std::alloc::{AllocError, Global};

/// Renders the first lines of a report of this number of trials. The error is out of memory.
pub fn tap_plan(alloc: Global, count: usize) -> Result<String, AllocError>
    ensures { IfOk result (λ text. string_bytes text ≡ tap_plan count) }
{
    format!(in alloc; "TAP version 13\n1..{count}\n")
}

/// Renders the result of a trial with its number, from 1 on, and each line of its report after `# `. The error is out of memory.
pub fn tap_point(alloc: Global, number: usize, trial: &TestResult) -> Result<Vec<u8>, AllocError>
    ensures { IfOk result (λ text. text.items ≡ tap_point number trial.now) }
{
    let verdict = if trial.passed { "ok" } else { "not ok" };
    let mut text = format!(in alloc; "{verdict} {number} - ")?.into_bytes();
    add_name(&mut text, trial.name.as_bytes())?;
    text.push(b'\n')?;
    add_notes(&mut text, trial.told.as_slice())?;
    Ok(text)
}

/// Returns a path as a report has it: a backslash before each `#` and each backslash, and each byte that isn't printed in hexadecimal
/// digits. The error is out of memory.
pub fn printed_path(alloc: Global, path: &str) -> Result<String, AllocError> {
    let mut text = Vec::new(alloc);
    add_name(&mut text, path.as_bytes())?;
    String::from_utf8_lossy(alloc, text.as_slice())
}

// Adds a name: a backslash before each `#` and each backslash, and each byte that isn't printed in hexadecimal digits.
fn add_name(text: &mut Vec<u8>, name: &[u8]) -> Result<(), AllocError>
    ensures { OnOk result (text.new.items ≡ text.old.items ++ named name.now) }
{
    for byte in name {
        match *byte {
            b'#' => text.extend_from_slice(b"\\#")?,
            b'\\' => text.extend_from_slice(b"\\\\")?,
            byte if byte < b' ' || byte == 127 => add_digits(text, byte)?,
            byte => text.push(byte)?,
        }
    }
    Ok(())
}

// Adds lines, each after `# `.
fn add_notes(text: &mut Vec<u8>, lines: &[u8]) -> Result<(), AllocError>
    ensures { OnOk result (text.new.items ≡ text.old.items ++ noted lines.now) }
{
    let mut begins = true;
    for byte in lines {
        if begins {
            text.extend_from_slice(b"# ")?;
        }
        text.push(*byte)?;
        begins = *byte == b'\n';
    }
    if !begins {
        text.push(b'\n')?;
    }
    Ok(())
}
