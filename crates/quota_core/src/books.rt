//! The accounts, and the operations on them.
ghost use Rattle.std.specs.Prelude.{◌≡◌, ◌≢◌, ◌+◌, ◌^◌, ◌<◌, ◌≤◌, Some, None, IsSome, IfOk, OnOk, OnErr};
ghost use Rattle.std.specs.Result.{result_err};
ghost use Rattle.std.specs.FinMap.{get};
ghost use Rattle.own_model.specs.Account.{shortage, charged, credited, WithinLimits};
ghost use Rattle.own_model.specs.Donation.{raised};
ghost use Rattle.quota_core.specs.Books.{IsOpen, account_at, fresh_books, with_account, with_child};
ghost use Rattle.quota_core.specs.Books.{IsChildOf, AreSiblings, HasNoChild, AreRelated, parent_at, with_moved};
ghost use Rattle.quota_core.specs.Books.{without_account, ram_limits, caps_limits, KeepsLimits, TakesOut, Moves, HasFewLimits};

use crate::account::Account;
use slab::Slab;
use std::alloc::Global;
use std::marker::Model;
use trade_base::{AccountId, Caps, NoMemory, Ram, Refusal};

// An account, and the key of the account under which it was opened. The root's parent is 0 and is never read.
#[derive(Drop)]
struct AccountEntry {
    account: Account,
    parent: AccountId,
}

/// The accounts of a machine, each under its key. The root has all limits that no other account has. Each other account
/// was opened under its parent, and its limits return to the parent when it closes.
///
/// Boot reserves all memory, so that no later call fails for lack of host memory.
#[derive(Drop)]
pub struct Books {
    entries: Slab<AccountEntry>,
    root: usize,
}

impl Model for Books {
    ghost use Rattle.quota_core.specs.Books.{Books as Numbers, coded_books, AreSound};
    ghost use Rattle.quota_core.specs.SlabBooks.{books_of};

    ghost Value = { Numbers };

    ghost coded = { coded_books };

    ghost view = { λ b. books_of b.entries b.root };

    ghost invariant = { λ b. AreSound (books_of b.entries b.root) };
}

#[tactic(auto, using(crate::proofs::SlabMap::slab_maps))]
impl Books {
    /// Creates books with one account, the root, which has all RAM (in bytes) and all capabilities. They have space for
    /// at least `accounts` accounts in all.
    ///
    /// Fails with `NoMemory` if the host has too little memory.
    pub fn boot(alloc: Global, ram: Ram, caps: Caps, accounts: usize) -> Result<Books, NoMemory>
        requires some { 1 ≤ accounts }
        requires few { accounts ≤ 4096 }
        ensures fresh { IfOk result (λ b. b ≡ fresh_books b.root ram.0 caps.0 (b.room + 1)) }
        ensures places { IfOk result (λ b. accounts ≤ b.room + 1) }
    {
        let mut entries = Slab::with_capacity(alloc, accounts).map_err(|_| NoMemory)?;
        let root = entries.insert_reserved(AccountEntry {
            account: Account::opened(ram, caps),
            parent: AccountId(0),
        });
        Ok(Books { entries, root })
    }

    /// Returns the key of the root account, which is always open.
    pub fn root(&self) -> AccountId
        ensures key { result.0 ≡ self.now.root }
        ensures open { IsOpen self.now result.0 }
    {
        AccountId(self.root)
    }

    /// Opens an account whose limits move from the parent: RAM in bytes, and capabilities. Returns the new account's key.
    ///
    /// Refuses with `OutOfRam` if the parent has less unused RAM, then with `OutOfCaps` if it has fewer unused
    /// capabilities.
    pub fn open(&mut self, parent: AccountId, ram: Ram, caps: Caps) -> Result<AccountId, Refusal>
        requires parent { IsOpen self.old parent.0 }
        requires room { 0 < self.old.room }
        ensures refusal { result_err result
            ≡ shortage (account_at self.old parent.0) ram.0 caps.0 }
        ensures ok { IfOk result
            (λ child. self.new ≡ with_child self.old parent.0 child.0 ram.0 caps.0) }
        ensures fresh { IfOk result (λ child. get self.old.accounts child.0 ≡ None) }
        ensures leaf { IfOk result (λ child. HasNoChild self.new child.0) }
        ensures err { OnErr result (self.new ≡ self.old) }
        ensures limits { KeepsLimits self.old self.new }
    {
        let account = self.part_with(parent, ram, caps)?;
        let child = self
            .entries
            .insert_reserved(AccountEntry { account, parent });
        Ok(AccountId(child))
    }

    /// Moves an amount of the parent's limits to its child: RAM in bytes, and capabilities.
    ///
    /// Refuses with `OutOfRam` if the parent has less unused RAM, then with `OutOfCaps` if it has fewer unused
    /// capabilities.
    pub fn raise(
        &mut self,
        parent: AccountId,
        child: AccountId,
        ram: Ram,
        caps: Caps,
    ) -> Result<(), Refusal>
        requires { IsChildOf self.old child.0 parent.0 }
        ensures refusal { result_err result
            ≡ shortage (account_at self.old parent.0) ram.0 caps.0 }
        ensures ok { OnOk result (self.new ≡ with_moved self.old parent.0 child.0 ram.0 caps.0) }
        ensures err { OnErr result (self.new ≡ self.old) }
        ensures limits { KeepsLimits self.old self.new }
        ensures related { AreRelated self.old child.0 parent.0 }
    {
        // The parent and its children are open accounts by the books' invariant.
        let _ = &self.entries;
        self.pass_on(parent, child, ram, caps)
    }

    /// Moves an amount of an account's limits to another account of the same parent: RAM in bytes, and capabilities.
    ///
    /// Refuses with `OutOfRam` if the source has less unused RAM, then with `OutOfCaps` if it has fewer unused
    /// capabilities.
    pub fn shift(
        &mut self,
        from: AccountId,
        to: AccountId,
        ram: Ram,
        caps: Caps,
    ) -> Result<(), Refusal>
        requires { AreSiblings self.old from.0 to.0 }
        ensures refusal { result_err result ≡ shortage (account_at self.old from.0) ram.0 caps.0 }
        ensures ok { OnOk result (self.new ≡ with_moved self.old from.0 to.0 ram.0 caps.0) }
        ensures err { OnErr result (self.new ≡ self.old) }
        ensures limits { KeepsLimits self.old self.new }
        ensures from { IsOpen self.old from.0 }
        ensures to { IsOpen self.old to.0 }
    {
        let _ = &self.entries;
        self.pass_on(from, to, ram, caps)
    }

    /// Closes an account that is not the root, has no child and has no use. Its limits return to its parent.
    pub fn close(&mut self, account: AccountId)
        requires child { IsSome (get self.old.parents account.0) }
        requires leaf { HasNoChild self.old account.0 }
        requires ram_used { (account_at self.old account.0).ram_used ≡ 0 }
        requires caps_used { (account_at self.old account.0).caps_used ≡ 0 }
        ensures closed { self.new ≡ without_account self.old account.0 }
        ensures limits { KeepsLimits self.old self.new }
        ensures related { AreRelated self.old account.0 (parent_at self.old account.0) }
    {
        let closed = self.entries.remove(account.0);
        self.take_over(closed.parent, closed.account);
    }

    // Moves an amount of an account's limits to another account.
    fn pass_on(
        &mut self,
        from: AccountId,
        to: AccountId,
        ram: Ram,
        caps: Caps,
    ) -> Result<(), Refusal>
        requires apart { from.0 ≢ to.0 }
        requires from { IsOpen self.old from.0 }
        requires to { IsOpen self.old to.0 }
        ensures { Moves from.0 to.0 ram.0 caps.0 result self.old self.new }
    {
        let limits = self.part_with(from, ram, caps)?;
        self.take_over(to, limits);
        Ok(())
    }

    // Takes an amount from an account's limits.
    fn part_with(&mut self, account: AccountId, ram: Ram, caps: Caps) -> Result<Account, Refusal>
        requires { IsOpen self.old account.0 }
        ensures taken { TakesOut account.0 ram.0 caps.0 result self.old self.new }
        ensures few { HasFewLimits self.old }
    {
        self.entries[account.0].account.part_with(ram, caps)
    }

    // Adds the limits of an account that is not in the books to those of another account.
    fn take_over(&mut self, account: AccountId, limits: Account)
        requires open { IsOpen self.old account.0 }
        requires ram { ram_limits self.old + limits.ram_limit < 2 ^ 64 }
        requires caps { caps_limits self.old + limits.caps_limit < 2 ^ 32 }
        ensures raised { self.new
            ≡ with_account self.old account.0
            (raised (account_at self.old account.0) limits.ram_limit limits.caps_limit) }
        ensures ram { ram_limits self.new ≡ ram_limits self.old + limits.ram_limit }
        ensures caps { caps_limits self.new ≡ caps_limits self.old + limits.caps_limit }
    {
        self.entries[account.0].account.take_over(limits);
    }

    /// Adds an amount to an account's use: RAM in bytes, and capabilities.
    ///
    /// Refuses with `OutOfRam` if the account has less unused RAM, then with `OutOfCaps` if it has fewer unused
    /// capabilities.
    pub fn charge(&mut self, account: AccountId, ram: Ram, caps: Caps) -> Result<(), Refusal>
        requires { IsOpen self.old account.0 }
        ensures refusal { result_err result
            ≡ shortage (account_at self.old account.0) ram.0 caps.0 }
        ensures ok { OnOk result
            (self.new
            ≡ with_account self.old account.0
            (charged (account_at self.old account.0) ram.0 caps.0)) }
        ensures err { OnErr result (self.new ≡ self.old) }
    {
        self.entries[account.0].account.charge(ram, caps)
    }

    /// Subtracts an amount from an account's use: RAM in bytes, and capabilities.
    pub fn credit(&mut self, account: AccountId, ram: Ram, caps: Caps)
        requires open { IsOpen self.old account.0 }
        requires ram_used { ram.0 ≤ (account_at self.old account.0).ram_used }
        requires caps_used { caps.0 ≤ (account_at self.old account.0).caps_used }
        ensures { self.new
            ≡ with_account self.old account.0
            (credited (account_at self.old account.0) ram.0 caps.0) }
    {
        self.entries[account.0].account.credit(ram, caps);
    }

    /// Returns an account's limits of RAM, in bytes, and of capabilities.
    pub fn limits(&self, account: AccountId) -> (Ram, Caps)
        requires { IsOpen self.now account.0 }
        ensures ram { result.0.0 ≡ (account_at self.now account.0).ram_limit }
        ensures caps { result.1.0 ≡ (account_at self.now account.0).caps_limit }
        ensures within { WithinLimits (account_at self.now account.0) }
    {
        self.entries[account.0].account.limits()
    }

    /// Returns an account's use of RAM, in bytes, and of capabilities.
    pub fn used(&self, account: AccountId) -> (Ram, Caps)
        requires { IsOpen self.now account.0 }
        ensures ram { result.0.0 ≡ (account_at self.now account.0).ram_used }
        ensures caps { result.1.0 ≡ (account_at self.now account.0).caps_used }
        ensures within { WithinLimits (account_at self.now account.0) }
    {
        self.entries[account.0].account.used()
    }
}
