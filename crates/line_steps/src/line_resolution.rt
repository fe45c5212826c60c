//! The resolution of a line: it is filled with the values of its names, and parsed.
ghost use Rattle.std.specs.Prelude.{◌≡◌, ◌≤◌, None, length};
ghost use Rattle.std.specs.Option.{option_copied};
ghost use Rattle.line_friendly.specs.Friendly.{said_of};
ghost use Rattle.line_names.specs.Views.{directive_view, filled_view};
ghost use Rattle.line_steps.specs.ResolvedLines.{first_token, is_other_path, is_skipped, resolved_content, resolved_directive, resolved_line, start_column};
ghost use Rattle.line_steps.specs.ResolvedViews.{HasParsedCall, resolved_view};

use crate::resolved_line::{ResolvedLine, ScenarioCall};
use line_friendly::{
    FriendlyFault, FriendlyLine, LineBuffer, next_word, read_friendly, trimmed_line,
};
use line_grammar::LONGEST_LINE;
use line_names::{Directive, FilledLine, NameTable, directive_of, fill, source_column};
use text_codec::is_path;

/// Buffers for a line that is filled, and for the engine's line that is made of it.
#[derive(Drop)]
pub struct LineBuffers {
    filled: LineBuffer,
    engine: LineBuffer,
}

impl LineBuffers {
    /// Returns empty buffers, to be used for one line after another.
    pub fn new() -> LineBuffers {
        LineBuffers {
            filled: LineBuffer::new(),
            engine: LineBuffer::new(),
        }
    }
}

/// Resolves a line of a scenario with the values of names, if all lines are run, or those of the component `only`. A line that is
/// too long, or is skipped, is neither filled nor parsed. The columns of faults are those of `line`.
pub fn resolve<'a>(
    only: Option<&[u8]>,
    known: &NameTable,
    line: &'a [u8],
    buffers: &'a mut LineBuffers,
) -> ResolvedLine<'a>
    ensures line { resolved_view result ≡ resolved_line (option_copied only.entry) known.now line.now }
    ensures call { HasParsedCall result }
{
    if line.len() > LONGEST_LINE {
        return ResolvedLine::TooLong;
    }
    if is_skipped(only, line) {
        return ResolvedLine::Skipped;
    }
    match fill(line, known, &mut buffers.filled) {
        Ok(filled) => match directive_of(filled.line) {
            Some(directive) => resolve_directive(line, directive),
            None => resolve_content(known, line, filled, &mut buffers.engine),
        },
        Err(fault) => ResolvedLine::BadName(fault),
    }
}

/// Returns whether a line is skipped if the lines of the component `only` alone are run: its first token is another path.
pub fn is_skipped(only: Option<&[u8]>, line: &[u8]) -> bool
    ensures { result ≡ is_skipped (option_copied only.entry) line.now }
{
    match only {
        Some(name) => is_other_path(first_token(line), name),
        None => false,
    }
}

// Returns the first token of a line, after a byte order mark and blanks.
fn first_token(line: &[u8]) -> &[u8]
    ensures { result.now ≡ first_token line.now }
{
    let (token, _) = next_word(trimmed_line(line));
    token
}

// Returns whether a token is a path other than a name.
fn is_other_path(token: &[u8], name: &[u8]) -> bool
    ensures { result ≡ is_other_path token.now name.now }
{
    token != name && is_path(token)
}

// Resolves a directive.
fn resolve_directive<'a>(line: &[u8], directive: Directive<'a>) -> ResolvedLine<'a>
    ensures line { resolved_view result
        ≡ resolved_directive line.now (directive_view directive.entry) }
    ensures call { HasParsedCall result }
{
    match directive.misplaced() {
        Some(why) => ResolvedLine::Misplaced(start_column(line), why),
        None => ResolvedLine::Directive(directive),
    }
}

// Returns the column of a line's first character, from 1 on.
fn start_column(line: &[u8]) -> usize
    ensures { result ≡ start_column line.now }
{
    line.len() - trimmed_line(line).len() + 1
}

// Resolves a filled line that is no directive.
fn resolve_content<'a>(
    known: &NameTable,
    line: &[u8],
    filled: FilledLine<'a>,
    engine: &'a mut LineBuffer,
) -> ResolvedLine<'a>
    ensures line { resolved_view result ≡ resolved_content known.now line.now
        (filled_view filled.entry) (said_of filled.entry.line.now) }
    ensures call { HasParsedCall result }
{
    match read_friendly(filled.line, engine) {
        Ok(FriendlyLine::Nothing) => ResolvedLine::Nothing,
        Ok(FriendlyLine::Log(text)) => ResolvedLine::Log(text),
        Ok(
            FriendlyLine::Call {
                line: call_line,
                call,
                reply,
            },
        ) => ResolvedLine::Call(ScenarioCall {
            filled,
            line: call_line,
            call,
            reply,
        }),
        Err(fault) => {
            let column = source_column(line, known, fault.column);
            ResolvedLine::BadLine(FriendlyFault { column, ..fault })
        }
    }
}
