//! The unfolding of lines, one after another.
ghost use Rattle.std.specs.Prelude.{◌≡◌, ◌+◌, ◌≤◌, length, IfOk, None, OnOk};
ghost use Rattle.line_rounds.specs.Structure.{kind_of};
ghost use Rattle.line_rounds.specs.Unfolding.{begun, counted, known_after, last_mark, mark_at_end, mark_of, most_lines, owned, round_border, round_counted, rounds_from, rounds_of, step_of, with_line, with_mark, within};
ghost use Rattle.line_rounds.specs.Views.{Makes, head_view, made_of, texts};

use crate::fault::{RoundPlace, RoundsFault, RoundsReason, UnfoldError};
use crate::lines::{RoundLineKind, kind_of};
use crate::round_head::{RoundHead, head_of};
use crate::structure::{body_of, place_of};
use line_friendly::{LineBuffer, trimmed_line};
use line_names::{Border, Directive, NameTable, RoundMark, directive_of, fill};
use std::alloc::{AllocError, Global};

/// The maximum number of lines that are run.
pub(crate) const MOST_LINES: usize = 1_000_000;

/// The result so far: a text, the number of its lines and of rounds without lines, its marks, and the values of names at its end.
#[derive(Drop)]
pub(crate) struct Unfolding {
    pub alloc: Global,
    pub text: Vec<u8>,
    pub count: usize,
    pub marks: Vec<RoundMark>,
    pub known: NameTable,
}

impl Unfolding {
    /// Unfolds lines from a number on, within rounds of at most this depth. The error is the first fault, or that the host is out
    /// of memory.
    #[cycle(rounds)]
    pub(crate) fn put_lines(
        &mut self,
        deep: usize,
        number: usize,
        lines: &[&[u8]],
    ) -> Result<(), UnfoldError>
        requires { number + length lines.now ≤ most_lines + 1 }
        ensures { Makes result
            (within deep number (made_of self.old) (texts lines.now)) (made_of self.new) }
    {
        if deep == 0 {
            return Err(UnfoldError::Fault(RoundsFault {
                at: RoundPlace {
                    line: number,
                    column: 1,
                },
                reason: RoundsReason::TooDeep,
            }));
        }
        let mut at = 0;
        while at < lines.len() {
            at += self.put_next(deep - 1, number + at, lines[at], &lines[at + 1..])?;
        }
        Ok(())
    }

    // Unfolds a line, by the lines after it, and returns how many lines that consumes.
    #[cycle(rounds)]
    fn put_next(
        &mut self,
        deep: usize,
        number: usize,
        line: &[u8],
        behind: &[&[u8]],
    ) -> Result<usize, UnfoldError>
        requires { number + length behind.now ≤ most_lines }
        ensures made { Makes result
            (step_of (within deep) number (made_of self.old) line.now (texts behind.now)
            (kind_of line.now))
            (made_of self.new) }
        ensures size { IfOk result
            (λ size. size ≡ 1 + owned (kind_of line.now) (texts behind.now)) }
        ensures inside { IfOk result (λ size. size ≤ 1 + length behind.now) }
    {
        match kind_of(line) {
            RoundLineKind::Plain => {
                self.put_line(place_of(number, line), line)?;
                Ok(1)
            }
            RoundLineKind::Ends => Ok(1),
            RoundLineKind::Repeats => {
                let body = body_of(behind);
                self.put_rounds(deep, number, line, body)?;
                Ok(1 + body.len())
            }
        }
    }

    // Unfolds the rounds that begin in the line of this number.
    #[cycle(rounds)]
    fn put_rounds(
        &mut self,
        deep: usize,
        number: usize,
        line: &[u8],
        body: &[&[u8]],
    ) -> Result<(), UnfoldError>
        requires { number + length body.now ≤ most_lines }
        ensures { Makes result
            (rounds_of (within deep) number (made_of self.old) line.now (texts body.now))
            (made_of self.new) }
    {
        let mut room = LineBuffer::new();
        let place = place_of(number, line);
        let head = head_of(&self.known, number, line, &mut room)?;
        let size = size_of(body);
        self.put_none(number, head, size)?;
        self.put_each(deep, place, head, body)?;
        self.put_mark(last_mark(number, size))?;
        Ok(())
    }

    // Unfolds each of these rounds.
    #[cycle(rounds)]
    fn put_each(
        &mut self,
        deep: usize,
        place: RoundPlace,
        head: RoundHead<'_>,
        body: &[&[u8]],
    ) -> Result<(), UnfoldError>
        requires { place.line + length body.now ≤ most_lines }
        ensures { Makes result
            (rounds_from (within deep) place (head_view head.entry) 0 head.entry.count
            (made_of self.old) (texts body.now))
            (made_of self.new) }
    {
        let size = size_of(body);
        for k in 0..head.count {
            let mark = mark_of(self.alloc, head, place.line, size, k)?;
            let before = self.count;
            self.put_mark(mark)?;
            self.put_lines(deep, place.line + 1, body)?;
            self.count_round(place, before)?;
        }
        Ok(())
    }

    // Adds the mark of rounds of which there are none, at their end.
    fn put_none(&mut self, line: usize, head: RoundHead<'_>, size: usize) -> Result<(), AllocError>
        requires { line + size ≤ most_lines }
        ensures { OnOk result (made_of self.new
            ≡ begun line size (head_view head.entry) (made_of self.old)) }
    {
        if head.count > 0 {
            return Ok(());
        }
        self.put_mark(mark_at_end(line, size))
    }

    // Adds a mark.
    fn put_mark(&mut self, mark: RoundMark) -> Result<(), AllocError>
        ensures { OnOk result (made_of self.new ≡ with_mark (made_of self.old) mark) }
    {
        self.known.cross(&mark)?;
        self.marks.push(mark)?;
        Ok(())
    }

    // Counts a round without lines; `before` is the number of lines before it.
    fn count_round(&mut self, place: RoundPlace, before: usize) -> Result<(), UnfoldError>
        ensures { Makes result (round_counted place before (made_of self.old))
            (made_of self.new) }
    {
        if self.count == before {
            self.count = counted(place, self.count)?;
        }
        Ok(())
    }

    // Adds a line that begins and ends no rounds.
    fn put_line(&mut self, place: RoundPlace, line: &[u8]) -> Result<(), UnfoldError>
        ensures { Makes result (with_line place (made_of self.old) line.now) (made_of self.new) }
    {
        self.count = counted(place, self.count)?;
        self.text.extend_from_slice(line)?;
        self.text.push(b'\n')?;
        set_names(&mut self.known, line)?;
        Ok(())
    }
}

// Returns the number of lines as the program's integer.
#[tactic(auto, using(crate::proofs::RoundLemmas::texts_length))]
fn size_of(lines: &[&[u8]]) -> usize
    ensures value { result ≡ length (texts lines.now) }
    ensures count { result ≡ length lines.now }
{
    lines.len()
}

// Returns the mark of rounds of which there are none.
fn mark_at_end(line: usize, size: usize) -> RoundMark
    requires { line + size ≤ most_lines }
    ensures { result ≡ mark_at_end line size }
{
    RoundMark::new(line as u64, Border::Enter, (line + size + 1) as u64)
}

// Returns the mark after the last round.
fn last_mark(line: usize, size: usize) -> RoundMark
    requires { line + size ≤ most_lines }
    ensures { result ≡ last_mark line size }
{
    let end = (line + size + 1) as u64;
    RoundMark::new(end, Border::Leave, end + 1)
}

// Returns the mark before a round, of rounds that begin in the line of this number and have `size` lines.
fn mark_of(
    alloc: Global,
    head: RoundHead<'_>,
    line: usize,
    size: usize,
    k: u64,
) -> Result<RoundMark, AllocError>
    requires { line + size ≤ most_lines }
    ensures { IfOk result (λ mark. mark ≡ mark_of (head_view head.entry) line size k) }
{
    let mark = round_border(line, size, k);
    match head.counter {
        Some(name) => mark.counting(alloc, name, k),
        None => Ok(mark),
    }
}

// Returns the same mark without a counter.
fn round_border(line: usize, size: usize, k: u64) -> RoundMark
    requires { line + size ≤ most_lines }
    ensures mark { result ≡ round_border line size k }
    ensures bare { result.counter ≡ None }
{
    let first = (line + 1) as u64;
    if k == 0 {
        RoundMark::new(line as u64, Border::Enter, first)
    } else {
        RoundMark::new((line + size + 1) as u64, Border::Again, first)
    }
}

// Returns the count with one more line, if that isn't too many.
fn counted(place: RoundPlace, count: usize) -> Result<usize, RoundsFault>
    ensures { result ≡ counted place count }
{
    if count < MOST_LINES {
        Ok(count + 1)
    } else {
        Err(RoundsFault {
            at: place,
            reason: RoundsReason::TooMany,
        })
    }
}

// Sets the names that a line sets.
fn set_names(known: &mut NameTable, line: &[u8]) -> Result<(), AllocError>
    ensures { OnOk result (known.new ≡ known_after known.old line.now) }
{
    if trimmed_line(line).first() != Some(&b'@') {
        return Ok(());
    }
    let mut room = LineBuffer::new();
    match fill(line, known, &mut room) {
        Ok(filled) => match directive_of(filled.line) {
            Some(Directive::Set(binding)) => known.bind(binding.name, binding.value),
            _ => Ok(()),
        },
        // Its value is known in the run only.
        Err(_) => match directive_of(line) {
            Some(Directive::Set(binding)) => known.bind(binding.name, b""),
            _ => Ok(()),
        },
    }
}
