//! The accounts of a script's sessions, with those of one line that are alike in one.

use crate::account_budgets::{AccountBudgets, SessionKey};
use crate::line_numbers::LineNumbers;
use std::alloc::{AllocError, Global};

/// The accounts of the sessions of a script, in the order of their first openings.
#[derive(Drop)]
pub(crate) struct SessionAccounts {
    pub(crate) accounts: Vec<AccountBudgets>,
    /// The numbers of the lines that opened a session.
    lines: LineNumbers,
}

impl SessionAccounts {
    ghost use Rattle.std.specs.Prelude.{◌≡◌, ◌<◌, ◌∷◌, ◌++◌, [], true, is_some, length, slice_get, IfNone, IfOk, IfSome, OnOk, Some};
    ghost use Rattle.list_parser.specs.Budgets.{changed_at};
    ghost use Rattle.budget_search.specs.SessionAccounts.{with_one_more, HasLine, HaveLines, IsAlike, IsCounted, NoneIsAlike};
    ghost use Rattle.budget_search.specs.declared.account_budgets.AccountBudgets.{AccountBudgets};

    /// Returns no accounts.
    pub(crate) fn new(alloc: Global) -> SessionAccounts
        ensures { result.accounts.items ≡ [] }
    {
        SessionAccounts {
            accounts: Vec::new(alloc),
            lines: LineNumbers::new(alloc),
        }
    }

    /// Adds the account of a session: to one that is alike, if there is one, and else by itself. The error is that the host is out
    /// of memory.
    pub(crate) fn add(&mut self, account: AccountBudgets) -> Result<(), AllocError>
        ensures lines { OnOk result (HaveLines self.old → HaveLines self.new) }
        ensures counted { OnOk result (is_some account.session ≡ true → HaveLines self.old →
            IsCounted account self.old.accounts.items self.new.accounts.items) }
    {
        let Some(session) = account.session() else {
            return Ok(());
        };
        match self.place_counted(session, &account)? {
            Some(place) => {
                self.count(place);
                Ok(())
            }
            None => self.push(account),
        }
    }

    // Counts one session more with the account at a place.
    fn count(&mut self, place: usize)
        requires { place < length self.old.accounts.items }
        ensures accounts { self.new.accounts.items
            ≡ changed_at with_one_more self.old.accounts.items place }
        ensures lines { self.new.lines ≡ self.old.lines }
    {
        let other = &mut self.accounts[place];
        other.count = other.count.saturating_add(1);
    }

    // Adds an account after the others.
    fn push(&mut self, account: AccountBudgets) -> Result<(), AllocError>
        ensures accounts { OnOk result
            (self.new.accounts.items ≡ self.old.accounts.items ++ account ∷ []) }
        ensures lines { self.new.lines ≡ self.old.lines }
    {
        self.accounts.push(account)?;
        Ok(())
    }

    // Returns the place of an account that is alike, if there is one. The line of this session is among those of sessions from now
    // on: the accounts are compared only if it was before.
    fn place_counted(
        &mut self,
        session: SessionKey,
        account: &AccountBudgets,
    ) -> Result<Option<usize>, AllocError>
        ensures accounts { self.new.accounts ≡ self.old.accounts }
        ensures lines { OnOk result (HaveLines self.old → HaveLines self.new) }
        ensures line { OnOk result (HasLine self.new.lines (Some session)) }
        ensures there { IfOk result (λ found.
            IfSome found (λ place. place < length self.new.accounts.items)) }
        ensures alike { IfOk result (λ found. IfSome found (λ place. (other : AccountBudgets) →
            slice_get self.old.accounts.items place ≡ Some other → IsAlike other account.now)) }
        ensures none { IfOk result (λ found. IfNone found
            (account.now.session ≡ Some session → HaveLines self.old →
            NoneIsAlike account.now self.old.accounts.items)) }
    {
        let was = self.lines.add(session.line)?;
        if !was {
            return Ok(None);
        }
        Ok(self.place_alike(account))
    }

    // Returns the place of the first account that is alike, if there is one.
    fn place_alike(&self, account: &AccountBudgets) -> Option<usize>
        ensures there { IfSome result (λ place. place < length self.now.accounts.items) }
        ensures alike { IfSome result (λ place. (other : AccountBudgets) →
            slice_get self.now.accounts.items place ≡ Some other → IsAlike other account.now) }
        ensures none { IfNone result
            (NoneIsAlike account.now self.now.accounts.items) }
    {
        for place in 0..self.accounts.len() {
            if self.accounts[place].is_alike(account) {
                return Some(place);
            }
        }
        None
    }
}
