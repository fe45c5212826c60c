//! The result of a run from a budget.
ghost use Rattle.std.specs.Prelude.{◌≡◌, ◌++◌, IfErr, OnOk};
ghost use Rattle.list_parser.specs.declared.fault.BootFault.TheVariants.{NoMemory};
ghost use Rattle.core_calls.specs.Quotas.{quotas_account};
ghost use Rattle.budget_meter.specs.NeededAmounts.{amount_tests};
ghost use Rattle.budget_meter.specs.Needs.{amounts_of};
ghost use Rattle.budget_search.specs.RunLines.{lines_in, no_lines, skipped_lines};
ghost use Rattle.budget_search.specs.Replies.{kept_text, with_reply};
ghost use Rattle.budget_search.specs.Shortages.{shortage_reply};

use budget_meter::{Budget, Meter};
use core_calls::{Answer, Outcome, Quotas, ServiceOutcome};
use list_parser::BootFault;
use std::alloc::Global;

/// The quota of which an account is short.
#[derive(Clone, Copy, PartialEq, Eq)]
pub enum Shortage {
    /// A component's own account is short of RAM.
    Ram,
    /// A component's own account is short of capabilities.
    Caps,
    /// A session's account is short of RAM.
    SessionRam,
    /// A session's account is short of capabilities.
    SessionCaps,
    /// The RAM of a donation is too little for a session.
    DonatedRam,
    /// The capabilities of a donation are too few for a session.
    DonatedCaps,
}

/// All shortages.
pub const SHORTAGES: [Shortage; 6] = [
    Shortage::Ram,
    Shortage::Caps,
    Shortage::SessionRam,
    Shortage::SessionCaps,
    Shortage::DonatedRam,
    Shortage::DonatedCaps,
];

impl Shortage {
    /// Returns the text of the reply that the caller gets.
    pub fn reply(self) -> &'static str
        ensures { result.now ≡ shortage_reply self }
    {
        match self {
            Shortage::Ram => "Out_of_ram",
            Shortage::Caps => "Out_of_caps",
            Shortage::SessionRam => "ERR OUT_OF_RAM",
            Shortage::SessionCaps => "ERR OUT_OF_CAPS",
            Shortage::DonatedRam => "Insufficient_ram_quota",
            Shortage::DonatedCaps => "Insufficient_cap_quota",
        }
    }
}

/// A line that is short of quota, and the quota of which it is short.
#[derive(Clone, Copy, PartialEq, Eq)]
pub struct RefusedLine {
    /// The number of the scenario's line, from 1 on.
    pub line: u64,
    /// The quota of which the line is short.
    pub shortage: Shortage,
}

/// A line that is left out, since its refusal is expected, and the minimum budget that covers what it asks for.
#[derive(Clone, Copy, PartialEq, Eq)]
pub struct SkippedLine {
    /// The number of the scenario's line, from 1 on.
    pub line: u64,
    /// The minimum budget that covers what the line asks for in addition to what its account uses.
    pub need: Budget,
}

/// The result of a run from a budget, up to the first line that is short of quota.
#[derive(Drop)]
pub struct BudgetTrial {
    /// The first line that is short of quota.
    pub(crate) refused: Option<RefusedLine>,
    /// The meter of the needs of the tests that passed.
    pub(crate) meter: Meter,
    /// The replies without limits, one in a line.
    pub(crate) replies: Vec<u8>,
    /// The lines that are left out.
    pub(crate) left_out: Vec<SkippedLine>,
}

impl BudgetTrial {
    /// Returns the result of a run before its first line.
    pub(crate) fn new(alloc: Global, start: Budget) -> BudgetTrial
        ensures lines { lines_in result ≡ no_lines }
        ensures start { result.meter.start ≡ start }
    {
        BudgetTrial {
            refused: None,
            meter: Meter::new(start),
            replies: Vec::new(alloc),
            left_out: Vec::new(alloc),
        }
    }

    /// Keeps the text of a reply, unless it has the limits of an account. The error is that the host is out of memory.
    pub(crate) fn keep_reply(&mut self, answer: Answer<'_>) -> Result<(), BootFault>
        ensures lines { lines_in self.new ≡ lines_in self.old }
        ensures meter { self.new.meter ≡ self.old.meter }
        ensures replies { OnOk result (self.new.replies.items
            ≡ with_reply answer.entry.outcome answer.entry.text.now self.old.replies.items) }
        ensures fault { IfErr result (λ fault. fault ≡ NoMemory) }
    {
        self.replies.extend_from_slice(kept_text(answer))?;
        self.replies.push(b'\n')?;
        Ok(())
    }

    /// Records a line that is left out, by the quota that it asks for in addition to what its account uses. The error is that the
    /// host is out of memory.
    pub(crate) fn leave_out(
        &mut self,
        line: u64,
        account: Quotas,
        asked: Option<Budget>,
    ) -> Result<(), BootFault>
        ensures refused { self.new.refused ≡ self.old.refused }
        ensures meter { self.new.meter ≡ self.old.meter }
        ensures left_out { OnOk result (self.new.left_out.items ≡ self.old.left_out.items
            ++ skipped_lines (amounts_of self.old.meter.start) (quotas_account account) line
            (amount_tests asked)) }
        ensures fault { IfErr result (λ fault. fault ≡ NoMemory) }
    {
        if let Some(asked) = asked {
            let need = self.meter.need(account, asked);
            self.left_out.push(SkippedLine { line, need })?;
        }
        Ok(())
    }
}

// Returns the text of a reply, or nothing if it has the limits of an account.
fn kept_text(answer: Answer<'_>) -> &[u8]
    ensures { result.now ≡ kept_text answer.entry.outcome answer.entry.text.now }
{
    match answer.outcome {
        Outcome::Quotas(_) | Outcome::Served(ServiceOutcome::Quotas(_)) => b"".as_slice(),
        _ => answer.text,
    }
}
