//! The minimum start budget that suffices for the tests of an account.
ghost use Rattle.std.specs.Prelude.{◌≡◌, ◌+◌, ◌-◌, ◌^◌, ◌<◌, ◌∷◌, [], min, IfSome, IfNone};
ghost use Rattle.core_calls.specs.Quotas.{quotas_account};
ghost use Rattle.budget_meter.specs.Needs.{amounts_of, capped, need_in, shown_by, shown_in, shown_of, together};
ghost use Rattle.budget_meter.specs.SessionRuns.{opening_need};

use crate::budget::Budget;
use pd_core::Quotas;

/// The amounts that a session uses of its account from the start.
const SESSION: Budget = Budget { ram: 4096, caps: 2 };

/// A meter of a budget: what the tests that passed so far need of the budget with which an account started.
#[derive(Clone, Copy)]
pub struct Meter {
    /// The budget with which the account started.
    pub start: Budget,
    /// The greatest needs of the tests, RAM and capabilities separately.
    pub least: Budget,
    /// The greatest need in bytes of a test with a choice, or 0.
    pub choice: u64,
}

impl Meter {
    /// Creates a meter of a start budget, before any test.
    pub fn new(start: Budget) -> Meter
        ensures start { result.start ≡ start }
        ensures shown { shown_in result ≡ record { ram = 0; caps = 0; choice = 0 } }
    {
        Meter {
            start,
            least: Budget { ram: 0, caps: 0 },
            choice: 0,
        }
    }

    /// Creates a meter of a session's donation, after the test of the opening.
    pub fn opened(donation: Budget) -> Meter
        ensures start { result.start ≡ donation }
        ensures shown { shown_in result
            ≡ shown_by (amounts_of donation) (opening_need (amounts_of donation) ∷ []) }
    {
        let mut meter = Meter::new(donation);
        if SESSION.ram <= donation.ram {
            meter.least.ram = SESSION.ram;
            if SESSION.caps <= donation.caps {
                meter.least.caps = SESSION.caps;
            }
        }
        meter
    }

    /// Returns the need of a test of `asked` on an account: the use plus `asked`, less the amount by which the limit is
    /// above the start budget. It is at most `u64::MAX` of each.
    pub fn need(&self, account: Quotas, asked: Budget) -> Budget
        ensures { result ≡ capped (need_in self.now.start (quotas_account account) asked) }
    {
        Budget {
            ram: need_of(
                account.ram_used.0,
                asked.ram,
                self.start.ram,
                account.ram_limit.0,
            ),
            caps: need_of(
                u64::from(account.caps_used.0),
                asked.caps,
                self.start.caps,
                u64::from(account.caps_limit.0),
            ),
        }
    }

    /// Measures a test of `asked` on an account: its bytes if they are covered, and then its capabilities if they are
    /// covered too.
    pub fn take(&mut self, account: Quotas, asked: Budget, is_choice: bool)
        ensures shown { shown_in self.new ≡ together (shown_in self.old)
            (shown_of (amounts_of self.old.start) (quotas_account account)
            (record { ram = asked.ram; caps = asked.caps; choice = is_choice } ∷ [])) }
        ensures start { self.new.start ≡ self.old.start }
    {
        let Some(ram) = covered(account.ram_used.0, asked.ram, account.ram_limit.0) else {
            return;
        };
        let need = self.start.ram.saturating_sub(ram);
        self.least.ram = self.least.ram.max(need);
        if is_choice {
            self.choice = self.choice.max(need);
        }
        let (used, limit) = (
            u64::from(account.caps_used.0),
            u64::from(account.caps_limit.0),
        );
        if let Some(caps) = covered(used, asked.caps, limit) {
            self.least.caps = self.least.caps.max(self.start.caps.saturating_sub(caps));
        }
    }
}

// The least start budget of which a limit covers the use and what is asked for, at most `u64::MAX`.
fn need_of(used: u64, asked: u64, start: u64, limit: u64) -> u64
    ensures { result ≡ min (used + asked + start - limit) (2 ^ 64 - 1) }
{
    let all = u128::from(used) + u128::from(asked) + u128::from(start);
    let need = all.saturating_sub(u128::from(limit));
    u64::try_from(need).unwrap_or(u64::MAX)
}

// The rest of a limit after the use and what is asked for, if the limit covers both.
fn covered(used: u64, asked: u64, limit: u64) -> Option<u64>
    ensures some { IfSome result (λ left. used + asked + left ≡ limit) }
    ensures none { IfNone result (limit < used + asked) }
{
    limit.checked_sub(used.checked_add(asked)?)
}

/// Returns the limits of an account as a budget.
pub fn limits_of(account: Quotas) -> Budget
    ensures { amounts_of result
        ≡ record { ram = account.ram_limit.0; caps = account.caps_limit.0 } }
{
    Budget {
        ram: account.ram_limit.0,
        caps: u64::from(account.caps_limit.0),
    }
}
