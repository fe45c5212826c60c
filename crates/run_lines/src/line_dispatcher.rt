//! The dispatcher of lines: it parses a line and carries its call out.
ghost use Rattle.std.specs.Prelude.{◌≡◌, ◌≤◌, ◌∷◌, ℕ, List, [], true, false, length};
ghost use Rattle.std.specs.Option.{option_copied};
ghost use Rattle.own_model.specs.Call.{parsed_call};
ghost use Rattle.own_model.specs.Listed.{start_list_of};
ghost use Rattle.own_model.specs.LinesOfName.{is_under};
ghost use Rattle.own_model.specs.StartList.{entries_of};
ghost use Rattle.own_model.specs.World.{World, world_after_line};
ghost use Rattle.core_calls.specs.Call.{model_call, IsWellFormed};
ghost use Rattle.run_lines.specs.Answer.{AnswersLine, IsAnswer, IsRefusal};
ghost use Rattle.run_lines.specs.Answered.{BeginsAsSelected, BeginsWithName, IsNoCallOfName, after_all, hears, is_selected};
ghost use Rattle.line_grammar.specs.Read.{IsNoCall, IsReadAs, Reads};

use crate::line_answer::LineAnswer;
use core_calls::{Call, Outcome, Reply};
use line_grammar::{LONGEST_LINE, NamedCall, read_named};
use list_parser::StartList;
use pd_core::{Core, Router};
use trade_base::Refusal;

/// The name in the reply to a line that is no call.
const NOBODY: &[u8] = b"?";

/// A dispatcher of lines: the components that lines call, and the one whose lines are answered.
#[derive(Clone, Copy)]
pub struct LineDispatcher<'a> {
    /// The start list with the components' names.
    pub list: &'a StartList,
    /// The name whose lines alone are answered, or `None` for all lines.
    pub only: Option<&'a [u8]>,
}

impl<'a> LineDispatcher<'a> {
    /// Answers a line: carries its call out, and keeps the result in `reply` until the next one. A line of more than
    /// `LONGEST_LINE` bytes is no call. Returns `None` if a name is given and the line is not a call under it. Such a line
    /// is skipped and read only as far as the name.
    #[inline]
    pub fn answer<'b, R: Router + Drop>(
        &self,
        core: &mut Core<R>,
        line: &'b [u8],
        reply: &'b mut Reply,
    ) -> Option<LineAnswer<'b>>
    where
        'a: 'b,
        requires listed { core.old.entries ≡ entries_of (start_list_of self.now.list.now) }
        ensures world { core.new
            ≡ after_all (option_copied self.now.only) core.old (line.now ∷ []) }
        ensures answered { AnswersLine (option_copied self.now.only) core.old line.now result }
    {
        if line.len() > LONGEST_LINE {
            return self.answer_no_call();
        }
        self.answer_short(core, line, reply)
    }

    /// Answers a line of at most `LONGEST_LINE` bytes as `answer` does, without a test of the length.
    #[inline(always)]
    pub fn answer_short<'b, R: Router + Drop>(
        &self,
        core: &mut Core<R>,
        line: &'b [u8],
        reply: &'b mut Reply,
    ) -> Option<LineAnswer<'b>>
    where
        'a: 'b,
        requires short { length line.now ≤ LONGEST_LINE }
        requires listed { core.old.entries ≡ entries_of (start_list_of self.now.list.now) }
        ensures world { core.new
            ≡ after_all (option_copied self.now.only) core.old (line.now ∷ []) }
        ensures answered { AnswersLine (option_copied self.now.only) core.old line.now result }
    {
        if !may_mean(self.only, line) {
            return None;
        }
        match read_named(line) {
            Ok(said) => self.answer_said(core, said, reply),
            Err(_) => self.answer_no_call(),
        }
    }

    /// Answers a line that is parsed already, as `answer` does: `said` is its call, or `None` if it makes none.
    #[inline(always)]
    pub fn answer_read<'b, R: Router + Drop>(
        &self,
        core: &mut Core<R>,
        line: &'b [u8],
        said: Option<NamedCall<'b>>,
        reply: &'b mut Reply,
    ) -> Option<LineAnswer<'b>>
    where
        'a: 'b,
        requires read { IsReadAs line.now said }
        requires listed { core.old.entries ≡ entries_of (start_list_of self.now.list.now) }
        ensures world { core.new
            ≡ after_all (option_copied self.now.only) core.old (line.now ∷ []) }
        ensures answered { AnswersLine (option_copied self.now.only) core.old line.now result }
    {
        let _ = line;
        match said {
            Some(said) => self.answer_said(core, said, reply),
            None => self.answer_no_call(),
        }
    }

    // Answers a parsed line if its name's lines are answered.
    #[inline(always)]
    fn answer_said<'b, R: Router + Drop>(
        &self,
        core: &mut Core<R>,
        said: NamedCall<'b>,
        reply: &'b mut Reply,
    ) -> Option<LineAnswer<'b>>
    where
        'a: 'b,
        requires formed { IsWellFormed said.call }
        requires listed { core.old.entries ≡ entries_of (start_list_of self.now.list.now) }
        ensures world { (line : List ℕ) → Reads line said.entry →
            core.new ≡ after_all (option_copied self.now.only) core.old (line ∷ []) }
        ensures answered { (line : List ℕ) → Reads line said.entry →
            AnswersLine (option_copied self.now.only) core.old line result }
    {
        if means(self.only, said.name) {
            Some(self.answer_call(core, said.name, said.call, reply))
        } else {
            None
        }
    }

    /// Answers a line that is no call, on any machine, without a call. Returns `None` if a name is given: the line is
    /// skipped.
    #[inline(always)]
    pub fn answer_no_call<'b>(&self) -> Option<LineAnswer<'b>>
        ensures { (world : World) (line : List ℕ) → IsNoCall line →
            AnswersLine (option_copied self.now.only) world line result }
    {
        match self.only {
            None => Some(refused(NOBODY, Refusal::BadLine)),
            Some(_) => None,
        }
    }

    // Carries out a call under a name. An init makes no call: no component has its name.
    #[inline(always)]
    fn answer_call<'b, R: Router + Drop>(
        &self,
        core: &mut Core<R>,
        name: &'b [u8],
        call: Call<'_>,
        reply: &'b mut Reply,
    ) -> LineAnswer<'b>
    where
        'a: 'b,
        requires formed { IsWellFormed call }
        requires listed { core.old.entries ≡ entries_of (start_list_of self.now.list.now) }
        ensures world { core.new ≡ world_after_line core.old
            (hears core.old (record { name = name.now; call = model_call call.entry })) }
        ensures answered { IsAnswer core.old
            (hears core.old (record { name = name.now; call = model_call call.entry })) result }
    {
        let Some(component) = self.list.find(name) else {
            return refused(name, Refusal::UnknownComponent);
        };
        if self.list.is_init(component) {
            return refused(name, Refusal::UnknownComponent);
        }
        core.step(component, call, reply);
        LineAnswer {
            lines: reply.lines(),
            name: self.list.name(component),
            reply: reply.text(),
            outcome: reply.outcome(),
        }
    }
}

// A refusal under a name.
#[inline]
fn refused(name: &[u8], refusal: Refusal) -> LineAnswer<'_>
    ensures { IsRefusal name.now refusal result }
{
    LineAnswer {
        lines: b"",
        name,
        reply: refusal.name().as_bytes(),
        outcome: Outcome::Refused(refusal),
    }
}

// Whether calls under this name are answered.
fn means(only: Option<&[u8]>, name: &[u8]) -> bool
    ensures { result ≡ is_selected (option_copied only.entry) name.now }
{
    match only {
        Some(only) => name == only,
        None => true,
    }
}

// Whether a line may be a call that is answered: if not, only its first bytes were read.
fn may_mean(only: Option<&[u8]>, line: &[u8]) -> bool
    ensures front { result ≡ true → BeginsAsSelected (option_copied only.entry) line.now }
    ensures unsaid { result ≡ false → IsNoCallOfName (option_copied only.entry) line.now }
{
    match only {
        Some(name) => stands_before(name, line),
        None => true,
    }
}

// Whether a line begins with a name and a space.
#[tactic(auto, using(crate::proofs::AnsweringLemmas::fronts))]
fn stands_before(name: &[u8], line: &[u8]) -> bool
    ensures front { result ≡ true → BeginsWithName name.now line.now }
    ensures unsaid { result ≡ false → is_under name.now (parsed_call line.now) ≡ false }
{
    if line.len() <= name.len() {
        return false;
    }
    let behind = line[name.len()];
    if behind != b' ' {
        return false;
    }
    line.starts_with(name)
}
