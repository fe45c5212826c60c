//! The pairs of a script and a server that a line of a policy is about, and whether the line speaks of anything.
ghost use Rattle.std.specs.Prelude.{◌≡◌, if◌then◌else◌, length};
ghost use Rattle.list_policy.specs.Line.{line_at};
ghost use Rattle.list_policy.specs.Pairs.{is_pair, are_parted, allows_all, says_nothing, pairs_among, total_below};

use crate::cuts::plus;
use crate::demand::{BudgetLimit, Demand, PolicyLine, belongs, concerns};
use list_parser::StartList;

/// The RAM of the largest machine in bytes.
const MOST_RAM: u64 = 16_777_216;

/// The capabilities of the largest machine.
const MOST_CAPS: u64 = 4096;

/// How many pairs of a script and a server a line of a policy is about.
#[derive(Clone, Copy)]
pub struct PairCount {
    /// All pairs.
    pub all: usize,
    /// The pairs that the tree keeps apart: no route can join them, since the server is in an init's list and the script isn't in it.
    pub by_tree: usize,
}

/// Which pairs are counted.
#[derive(Clone, Copy)]
enum PairKind {
    /// All pairs that a line is about.
    All,
    /// Those that the tree keeps apart.
    ByTree,
}

impl PolicyLine {
    /// Returns how many pairs of a script and a server the line is about in a start list.
    pub fn pairs(&self, list: &StartList) -> PairCount
        ensures all { result.all ≡ pairs_among list.now (line_at self.now) PairKind.All }
        ensures by_tree { result.by_tree ≡ pairs_among list.now (line_at self.now) PairKind.ByTree }
    {
        PairCount {
            all: pair_total(list, self, PairKind::All),
            by_tree: pair_total(list, self, PairKind::ByTree),
        }
    }

    /// Returns whether the line speaks of nothing in a start list: it is about no pair of a script and a server, or it allows the
    /// budget of the largest machine.
    pub fn is_void(&self, list: &StartList) -> bool
        ensures { result ≡ says_nothing list.now (line_at self.now) }
    {
        match &self.demand {
            Demand::AtMost(limit) => is_largest(*limit),
            Demand::Deny(_) | Demand::Allow(_) | Demand::Only(_) | Demand::Isolate => {
                pair_total(list, self, PairKind::All) == 0
            }
        }
    }
}

// Whether a limit is at least what the largest machine has.
fn is_largest(limit: BudgetLimit) -> bool
    ensures { result ≡ allows_all limit }
{
    MOST_RAM <= limit.ram && MOST_CAPS <= limit.caps
}

// How many pairs of a kind a line is about.
#[tactic(auto, using(crate::proofs::PairLemmas::total_more))]
fn pair_total(list: &StartList, line: &PolicyLine, kind: PairKind) -> usize
    ensures { result ≡ pairs_among list.now (line_at line.now) kind }
{
    let mut total = 0;
    for client in 0..list.entries().len() {
        total = plus(total, server_total(list, line, kind, client));
    }
    total
}

// How many of these pairs have a client.
#[tactic(auto, using(crate::proofs::PairLemmas::total_more))]
fn server_total(list: &StartList, line: &PolicyLine, kind: PairKind, client: usize) -> usize
    ensures { result ≡ total_below
        (λ server. if is_pair list.now (line_at line.now) kind client server then 1 else 0)
        (length list.now.entries) }
{
    let mut total = 0;
    for server in 0..list.entries().len() {
        total = plus(total, usize::from(counts(list, line, kind, client, server)));
    }
    total
}

// Whether a client and a server are a pair of a kind that a line is about.
fn counts(list: &StartList, line: &PolicyLine, kind: PairKind, client: usize, server: usize) -> bool
    ensures { result ≡ is_pair list.now (line_at line.now) kind client server }
{
    concerns(list, line, client, server)
        && match kind {
            PairKind::All => true,
            PairKind::ByTree => is_kept_by_tree(list, client, server),
        }
}

// Whether a server is in an init's list and a client isn't in it.
fn is_kept_by_tree(list: &StartList, client: usize, server: usize) -> bool
    ensures { result ≡ are_parted list.now client server }
{
    match list.entries().get(server) {
        Some(entry) => entry.home() > 0 && !belongs(list, client, entry.home() - 1),
        None => false,
    }
}
