//! A call of a scenario with its answer.
ghost use Rattle.std.specs.Prelude.{◌≡◌, IfOk, drop};

use core_calls::{Answer, Outcome};
use std::alloc::{AllocError, Global};
use std::marker::Model;

/// A call of a scenario with its answer.
#[derive(Drop)]
pub struct Exchange {
    number: u64,
    name: Vec<u8>,
    line: Vec<u8>,
    /// The place in the engine's line at which the call begins.
    start: usize,
    outcome: Outcome,
    reply: Vec<u8>,
}

impl Model for Exchange {
    ghost use Rattle.std.specs.Prelude.{drop};
    ghost use Rattle.core_calls.specs.Outcome.{IsText};
    ghost use Rattle.run_exchanges.specs.Exchange.{Exchange as AnsweredCall};

    ghost Value = { AnsweredCall };

    ghost view = { λ exchange. record {
      name = exchange.name.items;
      line = exchange.line.items;
      call = drop exchange.start exchange.line.items;
      reply = exchange.reply.items;
    } };

    ghost invariant = { λ exchange. IsText exchange.outcome exchange.reply.items };
}

impl Exchange {
    /// Creates an exchange from the engine's line, whose line number in the scenario is counted from 1. `name` is the
    /// component's name in the reply, and the call begins at `start` of the engine's line. Returns an error if the host is
    /// out of memory.
    pub fn new(
        alloc: Global,
        number: u64,
        name: &[u8],
        line: &[u8],
        start: usize,
        answer: Answer<'_>,
    ) -> Result<Exchange, AllocError>
        ensures { IfOk result (λ exchange. exchange ≡ record {
          name = name.now;
          line = line.now;
          call = drop start line.now;
          reply = answer.entry.text.now;
        }) }
    {
        Ok(Exchange {
            number,
            name: Vec::from_slice(alloc, name)?,
            line: Vec::from_slice(alloc, line)?,
            start,
            outcome: answer.outcome,
            reply: Vec::from_slice(alloc, answer.text)?,
        })
    }

    /// Returns the number of the line in the scenario, counted from 1.
    pub fn number(&self) -> u64 {
        self.number
    }

    /// Returns the name of the component that makes the call, as the reply has it.
    pub fn name(&self) -> &[u8]
        ensures { result.now ≡ self.now.name }
    {
        self.name.as_slice()
    }

    /// Returns the line as the engine read it.
    pub fn line(&self) -> &[u8]
        ensures { result.now ≡ self.now.line }
    {
        self.line.as_slice()
    }

    /// Returns the call as it is in the line, or the whole line if it makes no call.
    pub fn call(&self) -> &[u8]
        ensures { result.now ≡ self.now.call }
    {
        let line = self.line.as_slice();
        &line[self.start.min(line.len())..]
    }

    /// Returns the outcome of the call with its rendering, the text of the reply.
    pub fn answer(&self) -> Answer<'_>
        ensures { result.text.now ≡ self.now.reply }
    {
        Answer {
            outcome: self.outcome,
            text: self.reply.as_slice(),
        }
    }
}
