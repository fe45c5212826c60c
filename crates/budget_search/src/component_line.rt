//! A line of a scenario as the line of its component.
ghost use Rattle.std.specs.Prelude.{◌≡◌, Some};
ghost use Rattle.core_calls.specs.Call.{model_call, IsWellFormed};
ghost use Rattle.budget_search.specs.Steps.{with_args};

use crate::donation::args_with;
use budget_meter::Budget;
use core_calls::Call;
use line_grammar::read_line;
use std::alloc::{AllocError, Global};

/// A line that a component says.
#[derive(Drop)]
pub struct ComponentLine {
    /// The number of the scenario's line, from 1 on.
    pub number: u64,
    /// Whether its refusal is expected, so that it is left out.
    pub is_left_out: bool,
    /// Whether the expected refusal may be a shortage of quota.
    pub may_be_short: bool,
    /// The line as the engine parses it.
    pub line: Vec<u8>,
    /// Whether the scenario's line can be written with another donation.
    pub can_donate: bool,
    /// The donation that was set for it, if one was.
    pub donation: Option<Budget>,
    /// The arguments with that donation.
    pub args: Option<Vec<u8>>,
}

impl ComponentLine {
    ghost use Rattle.std.specs.Prelude.{◌≡◌, ◌↔◌, IsTrue, None, IfSome, OnOk};
    ghost use Rattle.std.specs.Bool.{OnFalse, OnTrue};
    ghost use Rattle.std.specs.Option.{option_copied, option_map};
    ghost use Rattle.budget_meter.specs.Needs.{amounts_of};
    ghost use Rattle.budget_search.specs.Lines.{set_args, Donates, IsSameLine};
    ghost use Rattle.core_calls.specs.Call.{model_call, IsWellFormed};
    ghost use Rattle.budget_search.specs.Steps.{call_of, call_said, with_args};

    /// Returns the call that the line makes, with the arguments that were set.
    pub fn call(&self) -> Option<Call<'_>>
        ensures call { option_map model_call result ≡ call_of self.now }
        ensures well_formed { IfSome result IsWellFormed }
    {
        let call = self.said()?;
        match &self.args {
            Some(args) => Some(opening_with(call, args.as_slice())),
            None => Some(call),
        }
    }

    /// Returns the call as it is written in the line.
    pub fn said(&self) -> Option<Call<'_>>
        ensures call { option_map model_call result ≡ call_said self.now.line.items }
        ensures well_formed { IfSome result IsWellFormed }
    {
        match read_line(self.line.as_slice()) {
            Ok((_, call)) => Some(call),
            Err(_) => None,
        }
    }

    /// Returns the quota that the call of the line asks for, if the refusal of the call may be a shortage.
    pub fn asked(&self, asked: Option<Budget>) -> Option<Budget>
        ensures short { OnTrue self.now.may_be_short (result ≡ asked) }
        ensures other { OnFalse self.now.may_be_short (result ≡ None) }
    {
        if self.may_be_short { asked } else { None }
    }

    /// Returns whether a line makes the same call, or is left out too.
    pub fn is_like(&self, other: &ComponentLine) -> bool
        ensures { IsTrue result ↔ IsSameLine self.now other.now }
    {
        self.number == other.number
            && self.is_left_out == other.is_left_out
            && self.line.as_slice() == other.line.as_slice()
    }

    /// Sets the donation with which the line opens its session from now on, if the line can be written with it. The error is that
    /// the host is out of memory.
    pub fn donate(&mut self, alloc: Global, donation: Budget) -> Result<(), AllocError>
        ensures { OnOk result (Donates (amounts_of donation) self.old self.new) }
    {
        if !self.can_donate {
            return Ok(());
        }
        if let Some(Call::Open { args, .. }) = self.said() {
            let args = args_with(alloc, donation, args)?;
            self.donation = Some(donation);
            self.args = Some(args);
        }
        Ok(())
    }

    /// Returns the arguments with which it opens a session, if they differ from the written ones.
    pub fn args(&self) -> Option<&[u8]>
        ensures { option_copied result ≡ set_args self.now }
    {
        match &self.args {
            Some(args) => Some(args.as_slice()),
            None => None,
        }
    }
}

// Returns a call with other arguments, if it opens a session.
fn opening_with<'a>(call: Call<'a>, args: &'a [u8]) -> Call<'a>
    requires { IsWellFormed call }
    ensures call { model_call result ≡ with_args (Some args.now) (model_call call.entry) }
    ensures well_formed { IsWellFormed result }
{
    match call {
        Call::Open { service, .. } => Call::Open { service, args },
        _ => call,
    }
}
