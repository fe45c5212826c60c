//! The donations of the lines that open sessions.
ghost use Rattle.std.specs.Prelude.{◌≡◌, ◌++◌, ◌∷◌, [], List, OnOk};
ghost use Rattle.std.specs.Option.{option_map};
ghost use Rattle.budget_meter.specs.Needs.{amounts_of};
ghost use Rattle.budget_search.specs.declared.account_budgets.AccountBudgets.{AccountBudgets};
ghost use Rattle.budget_least.specs.LineDonations.{donation_for, kept_for, larger};

use budget_meter::Budget;
use budget_search::{AccountBudgets, BudgetChoice};
use std::alloc::{AllocError, Global};

/// The donation of a line, by the sessions that it opens.
#[derive(Clone, Copy)]
enum LineDonation {
    /// The line opens no session.
    Unused,
    /// Each session of the line has this minimum. From this donation on, all larger ones suffice for each.
    Alike { least: Budget, safe: Budget },
    /// The minima of its sessions differ. From this donation on, all larger ones suffice for each.
    Unlike { safe: Budget },
    /// No donation suffices for a session of the line.
    Insufficient,
}

impl LineDonation {
    // Returns the donation of a line that opens one more session.
    fn with(self, account: &AccountBudgets) -> LineDonation
        ensures { (sessions : List AccountBudgets) → self ≡ kept_for sessions →
            result ≡ kept_for (sessions ++ account.now ∷ []) }
    {
        let (Some(least), Some(safe)) = (account.least(), account.safe()) else {
            return LineDonation::Insufficient;
        };
        match self {
            LineDonation::Unused => LineDonation::Alike { least, safe },
            LineDonation::Alike {
                least: other,
                safe: more,
            } => {
                let safe = larger(safe, more);
                if other == least {
                    LineDonation::Alike { least: other, safe }
                } else {
                    LineDonation::Unlike { safe }
                }
            }
            LineDonation::Unlike { safe: more } => LineDonation::Unlike {
                safe: larger(safe, more),
            },
            LineDonation::Insufficient => LineDonation::Insufficient,
        }
    }

    // Returns what the line donates by a choice, if a donation suffices for each of its sessions.
    fn donation(self, choice: BudgetChoice) -> Option<Budget>
        ensures { (sessions : List AccountBudgets) → self ≡ kept_for sessions →
            option_map amounts_of result ≡ donation_for choice sessions }
    {
        match (self, choice) {
            (LineDonation::Alike { least, .. }, BudgetChoice::Minimum) => Some(least),
            (LineDonation::Alike { safe, .. } | LineDonation::Unlike { safe }, _) => Some(safe),
            (LineDonation::Unused | LineDonation::Insufficient, _) => None,
        }
    }
}

// Returns the larger RAM and the larger number of capabilities of two budgets.
fn larger(one: Budget, other: Budget) -> Budget
    ensures { amounts_of result ≡ larger (amounts_of one) (amounts_of other) }
{
    Budget {
        ram: one.ram.max(other.ram),
        caps: one.caps.max(other.caps),
    }
}

/// The donations of all lines of a scenario: a line of a round donates the same in each iteration.
#[derive(Drop)]
pub(crate) struct LineDonations {
    /// The donations by the numbers of lines.
    lines: Vec<LineDonation>,
    /// Whether lines donate minima or safe donations.
    choice: BudgetChoice,
}

impl LineDonations {
    ghost use Rattle.std.specs.Prelude.{◌≡◌, ◌++◌, ◌∷◌, [], List, OnOk};
    ghost use Rattle.std.specs.Option.{option_map};
    ghost use Rattle.budget_meter.specs.Needs.{amounts_of};
    ghost use Rattle.budget_search.specs.declared.account_budgets.AccountBudgets.{AccountBudgets};
    ghost use Rattle.budget_least.specs.LineDonations.{HoldsFor, donation_for, sessions_at};

    /// Returns the donations before the first session.
    pub(crate) fn new(alloc: Global, choice: BudgetChoice) -> LineDonations
        ensures holds { HoldsFor result [] }
        ensures choice { result.choice ≡ choice }
    {
        LineDonations {
            lines: Vec::new(alloc),
            choice,
        }
    }

    /// Adds sessions, by what their accounts need. The error is that the host is out of memory.
    pub(crate) fn add_all(&mut self, accounts: &[AccountBudgets]) -> Result<(), AllocError>
        ensures holds { OnOk result ((before : List AccountBudgets) → HoldsFor self.old before →
            HoldsFor self.new (before ++ accounts.now)) }
        ensures choice { self.new.choice ≡ self.old.choice }
    {
        for account in accounts {
            self.add(account)?;
        }
        Ok(())
    }

    // Adds a session.
    fn add(&mut self, account: &AccountBudgets) -> Result<(), AllocError>
        ensures holds { OnOk result ((before : List AccountBudgets) → HoldsFor self.old before →
            HoldsFor self.new (before ++ account.now ∷ [])) }
        ensures choice { self.new.choice ≡ self.old.choice }
    {
        let Some(session) = account.session() else {
            return Ok(());
        };
        let place = session.line as usize;
        for _ in self.lines.len()..place.saturating_add(1) {
            self.lines.push(LineDonation::Unused)?;
        }
        if let Some(line) = self.lines.get_mut(place) {
            *line = line.with(account);
        }
        Ok(())
    }

    /// Returns the donation of the line of a number: the minimum of its sessions, or a donation from which on all suffice for each.
    pub(crate) fn of(&self, number: u64) -> Option<Budget>
        ensures { (sessions : List AccountBudgets) → HoldsFor self.now sessions →
            option_map amounts_of result
            ≡ donation_for self.now.choice (sessions_at number sessions) }
    {
        self.lines.get(number as usize)?.donation(self.choice)
    }
}
