//! Servers with guards.
ghost use Rattle.guard_theorems.specs.Theorems.{GuardedTranscript, GuardedWorlds, AccountsNeverDecide, ClosesAreCovered};

/// States that servers which pay from accounts of their own, and hold each session to its donation by a guard, answer all
/// lines as servers whose sessions have accounts of their own. They leave the same own states and accounts of inits. A
/// test of a server's account never decides, and the account covers each close.
pub fn guarded_servers_answer_alike()
    ensures transcript { GuardedTranscript }
    ensures worlds { GuardedWorlds }
    ensures tests { AccountsNeverDecide }
    ensures closes { ClosesAreCovered }
{}
