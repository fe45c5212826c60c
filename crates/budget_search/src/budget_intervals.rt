//! All budgets under which an account isn't short of quota, from a few runs.
ghost use Rattle.std.specs.Prelude.{◌≡◌, ◌≤◌, ◌↔◌, ◌||◌, ◌∷◌, [], IsTrue, nat_le, suc, ℕ, Bool, List, Option, None, false, true, reverse, IfOk, IfSome, OnOk, ◌≢◌, IfErr};
ghost use Rattle.list_parser.specs.declared.fault.BootFault.{BootFault as Fault};
ghost use Rattle.list_parser.specs.declared.fault.BootFault.TheVariants.{NoMemory};
ghost use Rattle.std.specs.List.{AllByRecursion};
ghost use Rattle.std.specs.Option.{option_copied, option_map};
ghost use Rattle.own_model.specs.Amounts.{Amounts};
ghost use Rattle.budget_theorems.specs.Need.{Need, IsBelow};
ghost use Rattle.budget_theorems.specs.Intervals.{is_covered, interval_of, stretches};
ghost use Rattle.budget_meter.specs.Needs.{amounts_of};
ghost use Rattle.budget_search.specs.BudgetIntervals.{both_alike, chosen_of, covers, is_below, joined_with, likeness_of, lowest_of, safe_before, safe_of, serves, AreOrdered, ArePast, AreRows, BeginFrom, EndsAbove, Follows, IsAdded, IsFoundAlike, IsRowWithin, IsRun, FailsWithin, HasHighest, HasRunLines, gaps_after, left_out_at};
ghost use Rattle.budget_search.specs.RunLines.{RunLines, lines_in};
ghost use Rattle.budget_search.specs.declared.trial.RefusedLine.{RefusedLine};

use crate::trial::{BudgetTrial, RefusedLine, SkippedLine};
use budget_meter::Budget;
use list_parser::BootFault;
use std::alloc::Global;

/// Whether the replies under the budgets of an interval are those under the given budget.
#[derive(Clone, Copy, PartialEq, Eq)]
pub enum Likeness {
    /// They are the same.
    Same,
    /// They are the same under some budgets of the interval only.
    Mixed,
    /// They differ.
    Other,
}

impl Likeness {
    // Returns the likeness of two intervals in one.
    fn with(self, other: Likeness) -> Likeness
        ensures { result ≡ both_alike self other }
    {
        match (self, other) {
            (Likeness::Same, Likeness::Same) => Likeness::Same,
            (Likeness::Other, Likeness::Other) => Likeness::Other,
            _ => Likeness::Mixed,
        }
    }
}

/// Which of the sufficient budgets is written.
#[derive(Clone, Copy, PartialEq, Eq)]
pub enum BudgetChoice {
    /// The minimum.
    Minimum,
    /// The safe budget: the lowest from which on all suffice.
    Safe,
}

/// An interval of budgets under which an account isn't short of quota.
#[derive(Clone, Copy, PartialEq, Eq)]
pub struct BudgetInterval {
    /// The minimum RAM in bytes.
    pub ram_from: u64,
    /// The lowest RAM in bytes above the interval, if it has an end.
    pub ram_below: Option<u64>,
    /// The minimum capabilities.
    pub caps_from: u64,
    /// Whether the replies are those under the given budget.
    pub likeness: Likeness,
}

/// A range of RAM between two intervals, under which an account is short of quota.
#[derive(Clone, Copy, PartialEq, Eq)]
pub struct BudgetGap {
    /// The lowest RAM of the range in bytes.
    pub ram_from: u64,
    /// The lowest RAM in bytes above the range.
    pub ram_below: u64,
    /// The refused line with the highest RAM of the range.
    pub refused: Option<RefusedLine>,
}

impl BudgetInterval {
    // Returns one interval for two, if this one is directly above the other and both need the same capabilities.
    fn joined(self, below: BudgetInterval) -> Option<BudgetInterval>
        ensures covers { IfSome result (λ both. AreRows (self ∷ []) → AreRows (below ∷ []) →
            AreRows (both ∷ [])
            × ((budget : Amounts) →
            covers both budget ≡ (covers self budget || covers below budget))) }
        ensures from { IfSome result (λ both. both.ram_from ≡ below.ram_from) }
        ensures needs { IfSome result (λ both. both.caps_from ≡ below.caps_from) }
        ensures ends { IfSome result (λ both. both.ram_below ≡ self.ram_below) }
        ensures joined { IfSome result (λ both. both ≡ joined_with self below) }
    {
        if below.ram_below != Some(self.ram_from) || below.caps_from != self.caps_from {
            return None;
        }
        Some(BudgetInterval {
            ram_from: below.ram_from,
            likeness: self.likeness.with(below.likeness),
            ..self
        })
    }

    // Returns the safe budget of intervals, if this one is before others with this safe budget.
    fn safe_before(self, safe: Option<Budget>) -> Option<Budget>
        ensures { option_map amounts_of result
            ≡ safe_before self self.ram_below (option_map amounts_of safe) }
    {
        match (self.ram_below, safe) {
            (None, None) => Some(Budget {
                ram: self.ram_from,
                caps: self.caps_from,
            }),
            (Some(end), Some(safe)) if end == safe.ram => Some(Budget {
                ram: self.ram_from,
                caps: self.caps_from.max(safe.caps),
            }),
            (_, safe) => safe,
        }
    }
}

/// Runs of an account's calls, each up to its first shortfall.
pub(crate) trait BudgetTrials {
    // The capabilities that each run begins with.
    ghost caps: { Self → ℕ };

    // What the runs leave as it is.
    ghost Rest: { Type 0 };

    ghost rest: { Self → Rest };

    // The need of the run from a budget, and whether it is short of quota.
    ghost AreRuns: { Self → (Amounts → List Need) → (Amounts → Bool) → Type 0 };

    // What the run from a budget shows of its lines.
    ghost AreLines: { Self → (Amounts → RunLines) → Type 0 };

    // The errors of the run from so much RAM, except that the host is out of memory.
    ghost fails: { Self → ℕ → Fault → Type 0 };

    /// Runs the calls from this RAM in bytes. The error is that of the run.
    fn run(&mut self, alloc: Global, ram: u64) -> Result<BudgetTrial, BootFault>
        ensures run { IfOk result (λ trial. (each : Amounts → List Need) (want : Amounts → Bool) →
            AreRuns self.old each want →
            IsRun (each (record { ram = ram; caps = caps self.old }))
            (want (record { ram = ram; caps = caps self.old }))
            (record { ram = ram; caps = caps self.old }) trial) }
        ensures still { OnOk result ((each : Amounts → List Need) (want : Amounts → Bool) →
            AreRuns self.old each want → AreRuns self.new each want) }
        ensures lines { IfOk result (λ trial. (lines : Amounts → RunLines) →
            AreLines self.old lines →
            lines_in trial ≡ lines (record { ram = ram; caps = caps self.old })) }
        ensures lines_still { OnOk result ((lines : Amounts → RunLines) →
            AreLines self.old lines → AreLines self.new lines) }
        ensures caps { caps self.new ≡ caps self.old }
        ensures rest { rest self.new ≡ rest self.old }
        ensures fault { IfErr result (λ fault. fault ≢ NoMemory →
            (each : Amounts → List Need) (want : Amounts → Bool) →
            AreRuns self.old each want → fails self.old ram fault) }
        ensures same { (ram : ℕ) (fault : Fault) → fails self.new ram fault →
            fails self.old ram fault };

    /// Returns whether a line is left out.
    fn leaves_out(&self) -> bool
        ensures none { result ≡ false → (lines : Amounts → RunLines) → AreLines self.now lines →
            (budget : Amounts) → (lines budget).left_out ≡ [] };
}

/// All budgets under which an account isn't short of quota.
#[derive(Drop)]
pub struct BudgetIntervals {
    /// The intervals from the lowest RAM on.
    pub rows: Vec<BudgetInterval>,
    /// The ranges between the intervals.
    pub holes: Vec<BudgetGap>,
    /// The lines that are left out with the RAM of the first interval.
    pub left_out: Vec<SkippedLine>,
    /// The refused line with the highest RAM.
    pub refused: Option<RefusedLine>,
}

impl BudgetIntervals {
    /// Returns the intervals up to `top` bytes: the RAM that the runs cover. `given` is the replies under the given budget, if
    /// nothing is short of quota there. The error is that of a run.
    pub(crate) fn of<T: BudgetTrials>(
        alloc: Global,
        trials: &mut T,
        top: u64,
        given: Option<&[u8]>,
    ) -> Result<BudgetIntervals, BootFault>
        ensures exact { IfOk result (λ found. (each : Amounts → List Need)
            (want : Amounts → Bool) →
            T.AreRuns trials.old each want → (budget : Amounts) → budget.ram ≤ top →
            serves found.rows.items budget
            ≡ is_covered (stretches each want (T.caps trials.old) (suc top) top) budget) }
        ensures ordered { IfOk result (λ found. (each : Amounts → List Need)
            (want : Amounts → Bool) → T.AreRuns trials.old each want →
            AreOrdered (T.caps trials.old) top found.rows.items) }
        ensures lines { IfOk result (λ found. (lines : Amounts → RunLines) →
            T.AreLines trials.old lines →
            HasRunLines lines (record { ram = top; caps = T.caps trials.old }) found) }
        ensures still { OnOk result ((each : Amounts → List Need) (want : Amounts → Bool) →
            T.AreRuns trials.old each want → T.AreRuns trials.new each want) }
        ensures lines_still { OnOk result ((lines : Amounts → RunLines) →
            T.AreLines trials.old lines → T.AreLines trials.new lines) }
        ensures rest { T.rest trials.new ≡ T.rest trials.old }
        ensures fault { IfErr result (λ fault. fault ≢ NoMemory →
            (each : Amounts → List Need) (want : Amounts → Bool) →
            T.AreRuns trials.old each want → FailsWithin (T.fails trials.old) top fault) }
    {
        let mut found = BudgetIntervals {
            rows: Vec::new(alloc),
            holes: Vec::new(alloc),
            left_out: Vec::new(alloc),
            refused: None,
        };
        found.gather(alloc, trials, top, given)?;
        found.rows.as_mut_slice().reverse();
        found.fill_holes(alloc, trials)?;
        found.leave_out(alloc, trials)?;
        Ok(found)
    }

    // Collects the intervals from the highest RAM on.
    fn gather<T: BudgetTrials>(
        &mut self,
        alloc: Global,
        trials: &mut T,
        top: u64,
        given: Option<&[u8]>,
    ) -> Result<(), BootFault>
        requires none { self.old.rows.items ≡ [] }
        requires first { self.old.refused ≡ None }
        ensures exact { OnOk result ((each : Amounts → List Need) (want : Amounts → Bool) →
            T.AreRuns trials.old each want → (budget : Amounts) → budget.ram ≤ top →
            serves self.new.rows.items budget
            ≡ is_covered (stretches each want (T.caps trials.old) (suc top) top) budget) }
        ensures ordered { OnOk result ((each : Amounts → List Need) (want : Amounts → Bool) →
            T.AreRuns trials.old each want →
            AreOrdered (T.caps trials.old) top (reverse self.new.rows.items)) }
        ensures refused { OnOk result ((lines : Amounts → RunLines) →
            T.AreLines trials.old lines →
            self.new.refused ≡ (lines (record { ram = top; caps = T.caps trials.old })).refused) }
        ensures left_out { self.new.left_out ≡ self.old.left_out }
        ensures holes { self.new.holes ≡ self.old.holes }
        ensures still { OnOk result ((each : Amounts → List Need) (want : Amounts → Bool) →
            T.AreRuns trials.old each want → T.AreRuns trials.new each want) }
        ensures lines_still { OnOk result ((lines : Amounts → RunLines) →
            T.AreLines trials.old lines → T.AreLines trials.new lines) }
        ensures caps { T.caps trials.new ≡ T.caps trials.old }
        ensures rest { T.rest trials.new ≡ T.rest trials.old }
        ensures same { (ram : ℕ) (fault : Fault) → T.fails trials.new ram fault →
            T.fails trials.old ram fault }
        ensures fault { IfErr result (λ fault. fault ≢ NoMemory →
            (each : Amounts → List Need) (want : Amounts → Bool) →
            T.AreRuns trials.old each want → FailsWithin (T.fails trials.old) top fault) }
    {
        let mut ram = top;
        // Each run has less RAM than the one before.
        for made in 0..top {
            match self.take_run(alloc, trials, top, ram, given)? {
                Some(next) => ram = next,
                None => return Ok(()),
            }
        }
        let _next = self.take_run(alloc, trials, top, ram, given)?;
        Ok(())
    }

    // Makes the run from this RAM, accepts it, and returns the RAM of the next run, if there is one.
    fn take_run<T: BudgetTrials>(
        &mut self,
        alloc: Global,
        trials: &mut T,
        top: u64,
        ram: u64,
        given: Option<&[u8]>,
    ) -> Result<Option<u64>, BootFault>
        ensures follows { IfOk result (λ next. (each : Amounts → List Need)
            (want : Amounts → Bool) → T.AreRuns trials.old each want → ram ≤ top →
            AreRows self.old.rows.items →
            Follows each want (T.caps trials.old) ram top self.old.rows.items
            self.new.rows.items next) }
        ensures ordered { IfOk result (λ next. (each : Amounts → List Need)
            (want : Amounts → Bool) → T.AreRuns trials.old each want → ram ≤ top →
            AreOrdered (T.caps trials.old) top (reverse self.old.rows.items) →
            BeginFrom (suc ram) (reverse self.old.rows.items) →
            AreOrdered (T.caps trials.old) top (reverse self.new.rows.items)
            × IfSome next (λ n. BeginFrom (suc n) (reverse self.new.rows.items))) }
        ensures refused { OnOk result ((lines : Amounts → RunLines) →
            T.AreLines trials.old lines → HasHighest ram top
            (lines (record { ram = top; caps = T.caps trials.old })).refused self.old.refused →
            self.new.refused ≡ (lines (record { ram = top; caps = T.caps trials.old })).refused) }
        ensures left_out { self.new.left_out ≡ self.old.left_out }
        ensures holes { self.new.holes ≡ self.old.holes }
        ensures still { OnOk result ((each : Amounts → List Need) (want : Amounts → Bool) →
            T.AreRuns trials.old each want → T.AreRuns trials.new each want) }
        ensures lines_still { OnOk result ((lines : Amounts → RunLines) →
            T.AreLines trials.old lines → T.AreLines trials.new lines) }
        ensures caps { T.caps trials.new ≡ T.caps trials.old }
        ensures rest { T.rest trials.new ≡ T.rest trials.old }
        ensures same { (ram : ℕ) (fault : Fault) → T.fails trials.new ram fault →
            T.fails trials.old ram fault }
        ensures fault { IfErr result (λ fault. fault ≢ NoMemory →
            (each : Amounts → List Need) (want : Amounts → Bool) →
            T.AreRuns trials.old each want → T.fails trials.old ram fault) }
    {
        let trial = trials.run(alloc, ram)?;
        let choice = trial.meter.choice;
        self.take(trial, top, ram, given)?;
        if choice == 0 {
            return Ok(None);
        }
        Ok(Some(choice - 1))
    }

    // Accepts the run from this RAM, which is less than that of the runs before.
    fn take(
        &mut self,
        trial: BudgetTrial,
        top: u64,
        ram: u64,
        given: Option<&[u8]>,
    ) -> Result<(), BootFault>
        ensures rows { OnOk result ((needs : List Need) (want : Bool) (caps : ℕ) →
            IsRun needs want (record { ram = ram; caps = caps }) trial → ram ≤ top →
            AreRows self.old.rows.items → AreRows self.new.rows.items
            × ((budget : Amounts) → budget.ram ≤ top →
            serves self.new.rows.items budget
            ≡ (serves self.old.rows.items budget
            || is_covered (interval_of want (record { ram = ram; caps = caps }) needs []) budget))) }
        ensures ordered { OnOk result ((needs : List Need) (want : Bool) (caps : ℕ) →
            IsRun needs want (record { ram = ram; caps = caps }) trial → ram ≤ top →
            AreOrdered caps top (reverse self.old.rows.items) →
            BeginFrom (suc ram) (reverse self.old.rows.items) →
            AreOrdered caps top (reverse self.new.rows.items)
            × BeginFrom trial.meter.choice (reverse self.new.rows.items)) }
        ensures refused { OnOk result ((told : Option RefusedLine) →
            (ram ≡ top → trial.refused ≡ told) → HasHighest ram top told self.old.refused →
            self.new.refused ≡ told) }
        ensures left_out { self.new.left_out ≡ self.old.left_out }
        ensures holes { self.new.holes ≡ self.old.holes }
        ensures likeness { OnOk result (trial.refused ≡ None →
            IsAdded (likeness_of trial.replies.items (option_copied given.entry))
            self.old.rows.items self.new.rows.items) }
        ensures fault { IfErr result (λ fault. fault ≡ NoMemory) }
    {
        if trial.refused.is_some() {
            if ram == top {
                self.refused = trial.refused;
            }
            return Ok(());
        }
        let row = BudgetInterval {
            ram_from: trial.meter.least.ram,
            ram_below: end_above(ram, top),
            caps_from: trial.meter.least.caps,
            likeness: compare_replies(trial.replies.as_slice(), given),
        };
        self.add(row)?;
        Ok(())
    }

    // Adds an interval below the others, or joins it with the one above it.
    fn add(&mut self, row: BudgetInterval) -> Result<(), BootFault>
        ensures rows { OnOk result (AreRows self.old.rows.items → AreRows (row ∷ []) →
            AreRows self.new.rows.items
            × ((budget : Amounts) → serves self.new.rows.items budget
            ≡ (serves self.old.rows.items budget || covers row budget))) }
        ensures ordered { OnOk result ((caps top : ℕ) →
            AreOrdered caps top (reverse self.old.rows.items) →
            ArePast row.ram_below (reverse self.old.rows.items) →
            AreRows (row ∷ []) → IsRowWithin caps top row →
            AreOrdered caps top (reverse self.new.rows.items)
            × BeginFrom row.ram_from (reverse self.new.rows.items)) }
        ensures likeness { OnOk result
            (IsAdded row.likeness self.old.rows.items self.new.rows.items) }
        ensures refused { self.new.refused ≡ self.old.refused }
        ensures left_out { self.new.left_out ≡ self.old.left_out }
        ensures holes { self.new.holes ≡ self.old.holes }
        ensures fault { IfErr result (λ fault. fault ≡ NoMemory) }
    {
        if let Some(above) = self.rows.pop() {
            if let Some(both) = above.joined(row) {
                self.rows.push(both)?;
                return Ok(());
            }
            self.rows.push(above)?;
        }
        self.rows.push(row)?;
        Ok(())
    }

    // Finds the refused lines between the intervals.
    fn fill_holes<T: BudgetTrials>(
        &mut self,
        alloc: Global,
        trials: &mut T,
    ) -> Result<(), BootFault>
        requires none { self.old.holes.items ≡ [] }
        ensures rows { self.new.rows ≡ self.old.rows }
        ensures refused { self.new.refused ≡ self.old.refused }
        ensures left_out { self.new.left_out ≡ self.old.left_out }
        ensures gaps { OnOk result ((lines : Amounts → RunLines) →
            T.AreLines trials.old lines →
            self.new.holes.items ≡ gaps_after lines (T.caps trials.old) None self.old.rows.items) }
        ensures caps { T.caps trials.new ≡ T.caps trials.old }
        ensures same { (ram : ℕ) (fault : Fault) → T.fails trials.new ram fault →
            T.fails trials.old ram fault }
        ensures lines_still { OnOk result ((lines : Amounts → RunLines) →
            T.AreLines trials.old lines → T.AreLines trials.new lines) }
        ensures still { OnOk result ((each : Amounts → List Need) (want : Amounts → Bool) →
            T.AreRuns trials.old each want → T.AreRuns trials.new each want) }
        ensures rest { T.rest trials.new ≡ T.rest trials.old }
        ensures fault { IfErr result (λ fault. fault ≢ NoMemory → (top : ℕ) →
            AllByRecursion (λ row. row.ram_from ≤ top) self.old.rows.items →
            (each : Amounts → List Need) (want : Amounts → Bool) →
            T.AreRuns trials.old each want → FailsWithin (T.fails trials.old) top fault) }
    {
        let mut end = None;
        for row in self.rows.as_slice() {
            if let Some(ram_from) = end {
                if ram_from < row.ram_from {
                    let trial = trials.run(alloc, row.ram_from - 1)?;
                    self.holes.push(BudgetGap {
                        ram_from,
                        ram_below: row.ram_from,
                        refused: trial.refused,
                    })?;
                }
            }
            end = row.ram_below;
        }
        Ok(())
    }

    // Finds the lines that are left out with the RAM of the first interval.
    fn leave_out<T: BudgetTrials>(&mut self, alloc: Global, trials: &mut T) -> Result<(), BootFault>
        requires none { self.old.left_out.items ≡ [] }
        ensures rows { self.new.rows ≡ self.old.rows }
        ensures holes { self.new.holes ≡ self.old.holes }
        ensures refused { self.new.refused ≡ self.old.refused }
        ensures left_out { OnOk result ((lines : Amounts → RunLines) →
            T.AreLines trials.old lines → self.new.left_out.items
            ≡ left_out_at lines (T.caps trials.old) (lowest_of self.old.rows.items)) }
        ensures lines_still { OnOk result ((lines : Amounts → RunLines) →
            T.AreLines trials.old lines → T.AreLines trials.new lines) }
        ensures still { OnOk result ((each : Amounts → List Need) (want : Amounts → Bool) →
            T.AreRuns trials.old each want → T.AreRuns trials.new each want) }
        ensures rest { T.rest trials.new ≡ T.rest trials.old }
        ensures fault { IfErr result (λ fault. fault ≢ NoMemory → (top : ℕ) →
            AllByRecursion (λ row. row.ram_from ≤ top) self.old.rows.items →
            (each : Amounts → List Need) (want : Amounts → Bool) →
            T.AreRuns trials.old each want → FailsWithin (T.fails trials.old) top fault) }
    {
        let Some(lowest) = self.least() else {
            return Ok(());
        };
        if !trials.leaves_out() {
            return Ok(());
        }
        let trial = trials.run(alloc, lowest.ram)?;
        self.left_out = trial.left_out;
        Ok(())
    }

    /// Returns the minimum RAM, with the minimum capabilities that are sufficient there.
    pub(crate) fn least(&self) -> Option<Budget>
        ensures { option_map amounts_of result ≡ lowest_of self.now.rows.items }
    {
        let row = self.rows.first()?;
        Some(Budget {
            ram: row.ram_from,
            caps: row.caps_from,
        })
    }

    /// Returns the lowest RAM from which on all budgets are sufficient that have the capabilities returned with it, and no fewer.
    pub(crate) fn safe(&self) -> Option<Budget>
        ensures { option_map amounts_of result ≡ safe_of self.now.rows.items }
    {
        let rows = self.rows.as_slice();
        let mut safe = None;
        let mut place = rows.len();
        while place > 0 {
            place -= 1;
            safe = rows[place].safe_before(safe);
        }
        safe
    }

    /// Returns whether all that is found is the same.
    pub(crate) fn is_alike(&self, other: &BudgetIntervals) -> bool
        ensures { IsTrue result ↔ IsFoundAlike self.now other.now }
    {
        are_same_intervals(self.rows.as_slice(), other.rows.as_slice())
            && are_same_gaps(self.holes.as_slice(), other.holes.as_slice())
            && are_same_lines(self.left_out.as_slice(), other.left_out.as_slice())
            && self.refused == other.refused
    }

    /// Returns the budget that is written by a choice.
    pub(crate) fn chosen(&self, choice: BudgetChoice) -> Option<Budget>
        ensures { option_map amounts_of result ≡ chosen_of choice self.now.rows.items }
    {
        match choice {
            BudgetChoice::Minimum => self.least(),
            BudgetChoice::Safe => self.safe(),
        }
    }
}

// Returns whether intervals are the same as others.
fn are_same_intervals(intervals: &[BudgetInterval], others: &[BudgetInterval]) -> bool
    ensures { IsTrue result ↔ (intervals.now ≡ others.now) }
{
    intervals == others
}

// Returns whether gaps are the same as others.
fn are_same_gaps(gaps: &[BudgetGap], others: &[BudgetGap]) -> bool
    ensures { IsTrue result ↔ (gaps.now ≡ others.now) }
{
    gaps == others
}

// Returns whether lines that are left out are the same as others.
fn are_same_lines(lines: &[SkippedLine], others: &[SkippedLine]) -> bool
    ensures { IsTrue result ↔ (lines.now ≡ others.now) }
{
    lines == others
}

// Returns the end of an interval up to this RAM: none, if the RAM is the maximum of the search.
fn end_above(ram: u64, top: u64) -> Option<u64>
    ensures ends { ram ≤ top → (n : ℕ) → n ≤ top → is_below n result ≡ nat_le n ram }
    ensures within { ram ≤ top → IsBelow ram result }
    ensures above { ram ≤ top → EndsAbove ram top result }
{
    if ram == top {
        None
    } else {
        Some(ram.saturating_add(1))
    }
}

// Returns whether replies are those under the given budget; without these they count as the same.
fn compare_replies(replies: &[u8], given: Option<&[u8]>) -> Likeness
    ensures { result ≡ likeness_of replies.now (option_copied given.entry) }
{
    match given {
        Some(given) if replies != given => Likeness::Other,
        _ => Likeness::Same,
    }
}
