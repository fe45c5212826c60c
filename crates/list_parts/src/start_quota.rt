//! The RAM and the capabilities that inits have left while a machine starts.
ghost use Rattle.std.specs.Prelude.{◌≡◌, ◌+◌, ◌<◌, ◌∷◌, ◌++◌, [], IfOk, IfSome, Some, length, nat_lt, not};
ghost use Rattle.std.specs.Fmt.{WritesOnOk};
ghost use Rattle.std.specs.Option.{is_some, option_map};
ghost use Rattle.own_model.specs.Account.{parted_with, shortage};
ghost use Rattle.own_model.specs.Listed.{start_list_of, start_of};
ghost use Rattle.own_model.specs.StartList.{init_account, init_at, inits_kept, machine_account, no_account, with_started};
ghost use Rattle.list_parser.specs.Quota.{quota_fault};
ghost use Rattle.list_parser.specs.declared.fault.BootFault.TheVariants.{QuotaExceeded};
ghost use Rattle.list_parts.specs.Left.{budget_of, first_shortfall, lack_of};
ghost use Rattle.list_parts.specs.PartTexts.{amount_text, asked_text, excess_text, quota_text, shortfall_text};

use crate::budget_amount::BudgetAmount;
use crate::list_part::{EntrySteps, steps_to};
use arrayvec::ArrayVec;
use list_parser::{ListEntry, Path, StartList};
use std::alloc::{AllocError, Global};
use std::fmt;
use std::marker::Model;

/// The maximum number of inits: the machine's, and one at the place of each entry.
const MOST_INITS: usize = 33;

/// The RAM and the capabilities that an init has left.
#[derive(Clone, Copy, Default)]
pub struct StartQuota {
    /// RAM in bytes.
    pub ram: u64,
    /// Capabilities.
    pub caps: u32,
}

impl Model for StartQuota {
    ghost use Rattle.own_model.specs.Account.{Account, opened};

    ghost Value = { Account };

    ghost view = { λ left. opened left.ram left.caps };

    ghost inverse = { λ account. record { ram = account.ram_limit; caps = account.caps_limit } };
}

impl StartQuota {
    /// Returns the RAM and the capabilities of the whole machine.
    pub(crate) fn whole(list: &StartList) -> StartQuota
        ensures { result ≡ machine_account (start_list_of list.now) }
    {
        StartQuota {
            ram: u64::from(list.pages()) * 4096,
            caps: list.caps(),
        }
    }

    /// Returns 0 bytes and 0 capabilities, as a component that is no init has.
    pub(crate) fn nothing() -> StartQuota
        ensures { result ≡ no_account }
    {
        StartQuota { ram: 0, caps: 0 }
    }

    /// Returns the budget of an init's entry before the init starts anything, or nothing for another entry.
    pub(crate) fn of_init(list: &StartList, entry: &ListEntry) -> StartQuota
        ensures { result ≡ init_account (start_of list.now entry.now) }
    {
        if entry.is_init() {
            StartQuota {
                ram: entry.ram(),
                caps: entry.caps(),
            }
        } else {
            StartQuota::nothing()
        }
    }

    /// Returns whether this covers the account and the reserve of an entry together.
    pub(crate) fn covers(self, entry: &ListEntry) -> bool
        ensures { is_some (shortage self (budget_of entry.now).ram (budget_of entry.now).caps)
            ≡ not result }
    {
        let kept = entry.reserve_at_start();
        covers_both(self.ram, entry.ram(), kept.ram.0)
            && covers_both(
                u64::from(self.caps),
                u64::from(entry.caps()),
                u64::from(kept.caps.0),
            )
    }

    /// Returns what is left after an entry has received its account and its reserve.
    pub(crate) fn without(self, entry: &ListEntry) -> StartQuota
        ensures { result ≡ parted_with self (budget_of entry.now).ram (budget_of entry.now).caps }
    {
        let kept = entry.reserve_at_start();
        StartQuota {
            ram: self
                .ram
                .saturating_sub(entry.ram())
                .saturating_sub(kept.ram.0),
            caps: self
                .caps
                .saturating_sub(entry.caps())
                .saturating_sub(kept.caps.0),
        }
    }
}

/// Writes the RAM and the number of capabilities.
impl fmt::Display for StartQuota {
    ghost output = { λ left. Some (quota_text left.ram_limit left.caps_limit) };

    fn fmt<W: fmt::Write>(&self, f: &mut fmt::Formatter<W>) -> fmt::Result {
        write!(f, "{}, {} caps", Amount(self.ram), self.caps)
    }
}

/// An amount of RAM in bytes, printed in `K` if it is a multiple of 1024 bytes.
#[derive(Clone, Copy)]
pub struct Amount(pub u64);

impl fmt::Display for Amount {
    ghost output = { λ amount. Some (amount_text amount.0) };

    fn fmt<W: fmt::Write>(&self, f: &mut fmt::Formatter<W>) -> fmt::Result {
        if self.0 > 0 && self.0 % 1024 == 0 {
            write!(f, "{}K", self.0 / 1024)
        } else {
            write!(f, "{} bytes", self.0)
        }
    }
}

// Whether what is left covers two parts together. Their sum may be past 64 bits.
fn covers_both(left: u64, own: u64, kept: u64) -> bool
    ensures { nat_lt left (own + kept) ≡ not result }
{
    own <= left && kept <= left - own
}

/// The RAM and the capabilities that each init has left, by the init's number.
pub type InitQuotas = ArrayVec<StartQuota, MOST_INITS>;

/// Returns what the init of a number has left, or nothing if no init has the number.
pub fn left_of(inits: &InitQuotas, number: usize) -> StartQuota
    ensures { result ≡ init_at inits.now.items number }
{
    match inits.as_slice().get(number) {
        Some(left) => *left,
        None => StartQuota::nothing(),
    }
}

// Starts an entry: subtracts its budget from its init, and adds what it has as an init itself at the end.
fn start(inits: &mut InitQuotas, list: &StartList, entry: &ListEntry)
    requires { length inits.now.items < 33 }
    ensures { inits.new.items ≡ with_started inits.old.items (start_of list.now entry.now) }
{
    let home = entry.home();
    if home < inits.len() {
        let left = inits.as_slice()[home].without(entry);
        inits.as_mut_slice()[home] = left;
    }
    inits.push(StartQuota::of_init(list, entry));
}

/// A shortfall at the start: an entry whose budget is more than its init has left.
#[derive(Drop)]
pub struct EntryShortfall {
    /// The number of the entry among those of all lists.
    pub entry: usize,
    /// The steps to it.
    pub steps: EntrySteps,
    /// The path of the entry.
    pub path: Path,
    /// The RAM in bytes that the entry asks for in its account.
    pub ram: u64,
    /// The number of capabilities that the entry asks for there.
    pub caps: u32,
    /// The RAM in bytes that the entry asks for in its reserve.
    pub reserve_ram: u64,
    /// The number of capabilities that the entry asks for there.
    pub reserve_caps: u32,
    /// The RAM in bytes that the init had left.
    pub ram_left: u64,
    /// The number of capabilities that the init had left.
    pub caps_left: u32,
}

impl fmt::Display for EntryShortfall {
    ghost output = { λ lack. Some (shortfall_text lack) };

    fn fmt<W: fmt::Write>(&self, f: &mut fmt::Formatter<W>) -> fmt::Result {
        if covers_both(self.ram_left, self.ram, self.reserve_ram) {
            let asked = BudgetAmount::caps(self.caps, self.reserve_caps);
            show_excess(
                f,
                &self.steps,
                asked,
                "capabilities",
                u64::from(self.caps_left),
            )
        } else {
            let asked = BudgetAmount::ram(self.ram, self.reserve_ram);
            show_excess(f, &self.steps, asked, "bytes", self.ram_left)
        }
    }
}

// Writes that what the entry at some steps asks for is more than its init has left.
fn show_excess<W: fmt::Write>(
    f: &mut fmt::Formatter<W>,
    steps: &EntrySteps,
    asked: BudgetAmount,
    unit: &str,
    left: u64,
) -> fmt::Result
    ensures { WritesOnOk W.write_str_gives f.old result
        (excess_text steps.now (asked_text asked) unit.now left) f.new }
{
    write!(
        f,
        "{steps}: {asked} {unit} are more than the {left} that init has left"
    )
}

/// Returns the first entry whose budget its init doesn't cover, or none if the list boots. Fails if the host is out of memory.
#[tactic(auto, using(crate::proofs::LeftLemmas::lacking_first, crate::proofs::LeftLemmas::covered_first))]
pub fn first_shortfall(
    alloc: Global,
    list: &StartList,
) -> Result<Option<EntryShortfall>, AllocError>
    ensures first { IfOk result (λ lack. lack ≡ first_shortfall list.now) }
    ensures fault { IfOk result
        (λ lack. option_map (λ lack. QuotaExceeded lack.path) lack ≡ quota_fault list.now) }
{
    let entries = list.entries();
    let count = list.count();
    prove!(count <= 32);
    let mut inits = InitQuotas::new();
    inits.push(StartQuota::whole(list));
    for (number, entry) in entries.iter().enumerate() {
        let left = left_of(&inits, entry.home());
        if !left.covers(entry) {
            return Ok(Some(lack_of(alloc, list, left, number, entry)?));
        }
        start(&mut inits, list, entry);
    }
    Ok(None)
}

// An entry that isn't covered by what is left.
fn lack_of(
    alloc: Global,
    list: &StartList,
    left: StartQuota,
    number: usize,
    entry: &ListEntry,
) -> Result<EntryShortfall, AllocError>
    ensures { IfOk result (λ lack. lack ≡ lack_of list.now number left entry.now) }
{
    let kept = entry.reserve_at_start();
    Ok(EntryShortfall {
        entry: number,
        steps: steps_to(alloc, list, number)?,
        path: entry.to_path(),
        ram: entry.ram(),
        caps: entry.caps(),
        reserve_ram: kept.ram.0,
        reserve_caps: kept.caps.0,
        ram_left: left.ram,
        caps_left: left.caps,
    })
}

/// Returns what each init keeps after all entries have received their budgets.
pub fn kept(list: &StartList) -> InitQuotas
    ensures { result.items ≡ inits_kept (start_list_of list.now) }
{
    let entries = list.entries();
    let count = list.count();
    prove!(count <= 32);
    let mut inits = InitQuotas::new();
    inits.push(StartQuota::whole(list));
    for entry in entries {
        start(&mut inits, list, entry);
    }
    inits
}
