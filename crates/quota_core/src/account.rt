//! One account of RAM and capabilities.
ghost use Rattle.std.specs.Prelude.{◌≡◌, ◌+◌, ◌^◌, ◌<◌, ◌≤◌, IfOk, OnOk, OnErr};
ghost use Rattle.std.specs.Result.{result_err};
ghost use Rattle.own_model.specs.Account.{shortage, charged, credited, opened, parted_with, WithinLimits};
ghost use Rattle.own_model.specs.Donation.{raised};

use std::marker::Model;
use trade_base::{Caps, Ram, Refusal};

// Limits and uses: RAM in bytes, and capabilities. No use exceeds its limit.
#[derive(Drop)]
pub(crate) struct Account {
    ram_limit: u64,
    ram_used: u64,
    caps_limit: u32,
    caps_used: u32,
}

impl Model for Account {
    ghost use Rattle.std.specs.Prelude.{◌≤◌};
    ghost use Rattle.own_model.specs.Account.{Account as Limited};

    ghost Value = { Limited };

    ghost view = { λ a.
        record {
          ram_limit = a.ram_limit;
          ram_used = a.ram_used;
          caps_limit = a.caps_limit;
          caps_used = a.caps_used;
        } };

    ghost invariant = { λ a. (a.ram_used ≤ a.ram_limit) × (a.caps_used ≤ a.caps_limit) };
}

impl Account {
    // Opens an account with these limits and no use.
    pub(crate) fn opened(ram: Ram, caps: Caps) -> Account
        ensures is { result ≡ opened ram.0 caps.0 }
        ensures ram { ram.0 < 2 ^ 64 }
        ensures caps { caps.0 < 2 ^ 32 }
    {
        Account {
            ram_limit: ram.0,
            ram_used: 0,
            caps_limit: caps.0,
            caps_used: 0,
        }
    }

    // Tests whether the unused part of the limits covers the amount. Fails with `OutOfRam` before `OutOfCaps`.
    fn covers(&self, ram: Ram, caps: Caps) -> Result<(), Refusal>
        ensures { result_err result ≡ shortage self.now ram.0 caps.0 }
    {
        if ram.0 > self.ram_limit - self.ram_used {
            return Err(Refusal::OutOfRam);
        }
        if caps.0 > self.caps_limit - self.caps_used {
            return Err(Refusal::OutOfCaps);
        }
        Ok(())
    }

    // Adds an amount to the use. Fails as `covers` does, and then changes nothing.
    pub(crate) fn charge(&mut self, ram: Ram, caps: Caps) -> Result<(), Refusal>
        ensures refusal { result_err result ≡ shortage self.old ram.0 caps.0 }
        ensures ok { OnOk result (self.new ≡ charged self.old ram.0 caps.0) }
        ensures err { OnErr result (self.new ≡ self.old) }
    {
        self.covers(ram, caps)?;
        self.ram_used += ram.0;
        self.caps_used += caps.0;
        Ok(())
    }

    // Subtracts an amount from the use.
    pub(crate) fn credit(&mut self, ram: Ram, caps: Caps)
        requires ram_used { ram.0 ≤ self.old.ram_used }
        requires caps_used { caps.0 ≤ self.old.caps_used }
        ensures { self.new ≡ credited self.old ram.0 caps.0 }
    {
        self.ram_used -= ram.0;
        self.caps_used -= caps.0;
    }

    // Moves an amount of the limits to a new account. Fails as `covers` does.
    pub(crate) fn part_with(&mut self, ram: Ram, caps: Caps) -> Result<Account, Refusal>
        ensures refusal { result_err result ≡ shortage self.old ram.0 caps.0 }
        ensures rest { OnOk result (self.new ≡ parted_with self.old ram.0 caps.0) }
        ensures part { IfOk result (λ part. part ≡ opened ram.0 caps.0) }
        ensures err { OnErr result (self.new ≡ self.old) }
    {
        self.covers(ram, caps)?;
        self.ram_limit -= ram.0;
        self.caps_limit -= caps.0;
        Ok(Account::opened(ram, caps))
    }

    // Adds the limits of another account to this account's limits.
    pub(crate) fn take_over(&mut self, other: Account)
        requires ram { self.old.ram_limit + other.ram_limit < 2 ^ 64 }
        requires caps { self.old.caps_limit + other.caps_limit < 2 ^ 32 }
        ensures { self.new ≡ raised self.old other.ram_limit other.caps_limit }
    {
        self.ram_limit += other.ram_limit;
        self.caps_limit += other.caps_limit;
    }

    // Returns the limits of RAM, in bytes, and of capabilities.
    pub(crate) fn limits(&self) -> (Ram, Caps)
        ensures ram { result.0.0 ≡ self.now.ram_limit }
        ensures caps { result.1.0 ≡ self.now.caps_limit }
        ensures within { WithinLimits self.now }
    {
        (Ram(self.ram_limit), Caps(self.caps_limit))
    }

    // Returns the use of RAM, in bytes, and of capabilities.
    pub(crate) fn used(&self) -> (Ram, Caps)
        ensures ram { result.0.0 ≡ self.now.ram_used }
        ensures caps { result.1.0 ≡ self.now.caps_used }
        ensures within { WithinLimits self.now }
    {
        (Ram(self.ram_used), Caps(self.caps_used))
    }
}
