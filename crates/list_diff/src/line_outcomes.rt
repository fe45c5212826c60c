//! What came of each line of a scenario on one machine.
ghost use Rattle.std.specs.Prelude.{◌≡◌, IfOk, None, OnOk, map};
ghost use Rattle.line_steps.specs.ResolvedViews.{call_view, resolved_view};
ghost use Rattle.list_diff.specs.LineResults.{bytes_of, call_in, fault_by, fault_in, followed_by, line_calls, made_by, made_in, resolved_on, run_after, understood_by};

use line_friendly::{FriendlyFault, can_pass, is_meant, is_passed};
use line_names::{DirectiveFault, NameFault};
use line_steps::{LineBuffers, ResolvedLine, RunPosition, ScenarioCall, resolve};
use run_exchanges::Exchange;
use std::alloc::{AllocError, Global};
use std::marker::Model;

/// The fault for which a line isn't resolved into a call.
#[derive(Clone, Copy)]
pub enum ResolutionFault {
    /// The line has more than 8192 bytes.
    TooLong,
    /// A name in the line has a fault, such as no value.
    Name(NameFault),
    /// The line is a directive that can't be followed.
    Misplaced(DirectiveFault),
    /// The line can't be parsed.
    Line(FriendlyFault),
}

/// What came of a line on one machine.
#[derive(Clone, Copy)]
pub enum LineOutcome<'a> {
    /// The line makes a call, which was answered.
    Answered(&'a Exchange),
    /// The line has a fault, and makes no call.
    Faulty(ResolutionFault),
    /// The line makes no call: it is blank, a comment, an expected log line or a directive.
    Silent,
}

/// A line of a scenario with what came of it on one machine.
#[derive(Clone, Copy)]
pub struct LineResult<'a> {
    /// The number of the line in the scenario, from 1 on. Lines in rounds have it once per round.
    pub number: u64,
    /// The line as the scenario has it, with its names.
    pub line: &'a [u8],
    /// What came of the line.
    pub outcome: LineOutcome<'a>,
    /// Whether the line was understood: it has no fault, and no reply that says otherwise, unless the line expects that.
    pub is_understood: bool,
}

/// Returns what came of each of these lines, which are those of a scenario's unfolded text. `start` is the position before the first
/// line, and `exchanges` are the answered calls of the run from there to its end. Fails if the host is out of memory.
pub fn line_results<'a>(
    alloc: Global,
    start: RunPosition<'_>,
    lines: &[&'a [u8]],
    exchanges: &'a [Exchange],
) -> Result<Vec<LineResult<'a>>, AllocError>
    ensures { IfOk result (λ results. map call_in results.items ≡ line_calls (record {
      position = start.entry;
      ahead = exchanges.now;
    }) (bytes_of lines.now)) }
{
    let mut run = FollowedRun {
        position: start,
        ahead: exchanges,
    };
    let mut results = Vec::new(alloc);
    let mut buffers = LineBuffers::new();
    for line in lines {
        let result = run.take_line(line, &mut buffers)?;
        results.push(result)?;
    }
    Ok(results)
}

// A run that is followed line by line: its position, and the answered calls that are still ahead.
#[derive(Drop)]
struct FollowedRun<'m, 'a> {
    position: RunPosition<'m>,
    ahead: &'a [Exchange],
}

impl<'m, 'a> Model for FollowedRun<'m, 'a> {
    ghost use Rattle.list_diff.specs.LineResults.{FollowedRun as Followed};

    ghost Value = { Followed };

    ghost view = { λ run. record {
      position = run.position;
      ahead = run.ahead.now;
    } };
}

impl<'a> FollowedRun<'_, 'a> {
    // Passes a line, and returns what came of it.
    fn take_line(
        &mut self,
        line: &'a [u8],
        buffers: &mut LineBuffers,
    ) -> Result<LineResult<'a>, AllocError>
        ensures result { IfOk result (λ result. call_in result ≡ record {
          number = self.old.position.number;
          line = line.now;
          made = made_by (resolved_on self.old line.now) self.old.ahead;
          fault = fault_by (resolved_on self.old line.now);
          understood = understood_by line.now (resolved_on self.old line.now) self.old.ahead;
        }) }
        ensures run { OnOk result (self.new ≡ run_after self.old line.now) }
    {
        let number = self.position.pass();
        let resolved = resolve(None, self.position.known(), line, buffers);
        let is_understood = self.understands(line, &resolved);
        let outcome = self.take(resolved)?;
        self.position.arrive()?;
        Ok(LineResult {
            number,
            line,
            outcome,
            is_understood,
        })
    }

    // Returns whether a line is understood that is resolved so.
    fn understands(&self, line: &[u8], resolved: &ResolvedLine<'_>) -> bool
        ensures { result ≡ understood_by line.now (resolved_view resolved.now) self.now.ahead }
    {
        match resolved {
            ResolvedLine::Call(call) => match self.ahead.first() {
                Some(exchange) => {
                    can_pass(call.reply, exchange.answer().text)
                        || is_passed(line)
                        || is_meant(line)
                }
                None => true,
            },
            ResolvedLine::TooLong
            | ResolvedLine::BadName(_)
            | ResolvedLine::Misplaced(_, _)
            | ResolvedLine::BadLine(_) => false,
            ResolvedLine::Directive(_)
            | ResolvedLine::Skipped
            | ResolvedLine::Nothing
            | ResolvedLine::Log(_) => true,
        }
    }

    // Returns what came of a resolved line, and follows its directive or binds its names.
    fn take(&mut self, resolved: ResolvedLine<'_>) -> Result<LineOutcome<'a>, AllocError>
        ensures made { IfOk result (λ outcome. made_in outcome
            ≡ made_by (resolved_view resolved.entry) self.old.ahead) }
        ensures fault { IfOk result (λ outcome. fault_in outcome ≡ fault_by (resolved_view resolved.entry)) }
        ensures run { OnOk result (self.new
            ≡ followed_by self.old (resolved_view resolved.entry) self.old.ahead) }
    {
        match resolved {
            ResolvedLine::Call(call) => self.take_call(&call),
            ResolvedLine::Directive(directive) => {
                self.position.follow(directive)?;
                Ok(LineOutcome::Silent)
            }
            ResolvedLine::TooLong => Ok(LineOutcome::Faulty(ResolutionFault::TooLong)),
            ResolvedLine::BadName(fault) => Ok(LineOutcome::Faulty(ResolutionFault::Name(fault))),
            ResolvedLine::Misplaced(_, why) => {
                Ok(LineOutcome::Faulty(ResolutionFault::Misplaced(why)))
            }
            ResolvedLine::BadLine(fault) => Ok(LineOutcome::Faulty(ResolutionFault::Line(fault))),
            ResolvedLine::Skipped | ResolvedLine::Nothing | ResolvedLine::Log(_) => {
                Ok(LineOutcome::Silent)
            }
        }
    }

    // Returns the next answered call, whose reply binds the names of its line.
    fn take_call(&mut self, call: &ScenarioCall<'_>) -> Result<LineOutcome<'a>, AllocError>
        ensures made { IfOk result (λ outcome. made_in outcome
            ≡ made_by (call_view call.now) self.old.ahead) }
        ensures fault { IfOk result (λ outcome. fault_in outcome ≡ None) }
        ensures run { OnOk result (self.new
            ≡ followed_by self.old (call_view call.now) self.old.ahead) }
    {
        match self.ahead.split_first() {
            Some((exchange, ahead)) => {
                self.position.learn(&call.filled, exchange.answer().text)?;
                self.ahead = ahead;
                Ok(LineOutcome::Answered(exchange))
            }
            None => Ok(LineOutcome::Silent),
        }
    }
}
