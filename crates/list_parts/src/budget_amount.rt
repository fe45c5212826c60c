//! The budget of an entry as diagnostics print it.
ghost use Rattle.std.specs.Prelude.{◌≡◌, Some};
ghost use Rattle.list_parts.specs.PartTexts.{asked_caps, asked_ram, asked_text};

use std::fmt;

/// The amount that an entry asks for in its account, and in its reserve.
#[derive(Clone, Copy)]
pub struct BudgetAmount {
    /// The member that has the amount of the account.
    member: &'static str,
    /// The member that has the amount of the reserve.
    reserve_member: &'static str,
    own: u64,
    kept: u64,
}

impl BudgetAmount {
    /// Returns amounts of RAM in bytes, for the account and for the reserve.
    pub fn ram(own: u64, kept: u64) -> BudgetAmount
        ensures { asked_text result ≡ asked_ram own kept }
    {
        BudgetAmount {
            member: "quantum",
            reserve_member: "reserve",
            own,
            kept,
        }
    }

    /// Returns numbers of capabilities, for the account and for the reserve.
    pub fn caps(own: u32, kept: u32) -> BudgetAmount
        ensures { asked_text result ≡ asked_caps own kept }
    {
        BudgetAmount {
            member: "caps",
            reserve_member: "reserve-caps",
            own: u64::from(own),
            kept: u64::from(kept),
        }
    }
}

/// Writes the members and the amounts, without the reserve if its amount is 0.
impl fmt::Display for BudgetAmount {
    ghost output = { λ amount. Some (asked_text amount) };

    #[tactic(auto, unfolding(crate::specs::PartTexts::both_text))]
    fn fmt<W: fmt::Write>(&self, f: &mut fmt::Formatter<W>) -> fmt::Result {
        if self.kept == 0 {
            write!(f, "{}: {}", self.member, self.own)
        } else {
            write!(
                f,
                "{} and {}: {} + {}",
                self.member, self.reserve_member, self.own, self.kept
            )
        }
    }
}
