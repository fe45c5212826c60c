//! The report of budgets as text.
use budget_least::{Budget, BudgetReport, MachineSize};
use budget_meter::Bytes;
use budget_search::{AccountBudgets, Likeness, RefusedLine, SessionKey, SkippedLine};
use std::fmt;

/// A report of budgets as text: the lines of each account except a server's, the sum, and the smallest machine.
#[derive(Clone, Copy)]
pub(crate) struct BudgetText<'a>(pub(crate) &'a BudgetReport<'a>);

impl fmt::Display for BudgetText<'_> {
    fn fmt<W: fmt::Write>(&self, f: &mut fmt::Formatter<W>) -> fmt::Result {
        let report = self.0;
        for account in report.accounts() {
            let Some(entry) = report.list().entries().get(account.component()) else {
                continue;
            };
            if entry.is_server() {
                continue;
            }
            write!(f, "{}", entry.to_path())?;
            show_intervals(f, account)?;
            show_ranges(f, account)?;
            show_given(f, account)?;
            for line in report.unmeasured() {
                if line.is_named_with(account) {
                    let (number, reason) = (line.number, line.reason());
                    write!(f, "  line {number} isn't measured: {reason}\n")?;
                }
            }
        }
        match report.sum() {
            Some(sum) => write!(f, "sum with reserves: {}\n", AmountsText(sum))?,
            None => f.write_str("sum with reserves: none\n")?,
        }
        match report.machine() {
            Some(MachineSize { pages, caps }) => {
                write!(
                    f,
                    "smallest machine: {pages} pages and {caps} capabilities\n"
                )
            }
            None => f.write_str("smallest machine: none\n"),
        }
    }
}

// Writes the session of an account, and its intervals from the lowest RAM on.
fn show_intervals<W: fmt::Write>(
    f: &mut fmt::Formatter<W>,
    account: &AccountBudgets,
) -> fmt::Result {
    if let Some(SessionKey { selector, line }) = account.session() {
        write!(f, " session {selector} (line {line}")?;
        if account.count() > 1 {
            write!(f, ", {} times", account.count())?;
        }
        f.write_str(")")?;
    }
    let mut before = ": ";
    for row in account.rows() {
        write!(f, "{before}ram from {}", Bytes(row.ram_from))?;
        if let Some(ram) = row.ram_below {
            write!(f, " below {}", Bytes(ram))?;
        }
        let likeness = match row.likeness {
            Likeness::Same => "",
            Likeness::Mixed => ", in part other replies",
            Likeness::Other => ", other replies",
        };
        write!(f, ", caps from {}{likeness}", row.caps_from)?;
        before = "; ";
    }
    if account.rows().is_empty() {
        f.write_str(": no budget serves")?;
    }
    f.write_str("\n")
}

// Writes the safe budget, unless it is the minimum, the first line that is short of quota on the largest machine, if no budget
// suffices, and the ranges of RAM between two intervals.
fn show_ranges<W: fmt::Write>(f: &mut fmt::Formatter<W>, account: &AccountBudgets) -> fmt::Result {
    match (account.least(), account.safe()) {
        (Some(least), Some(safe)) if least == safe => {}
        (_, Some(safe)) => write!(f, "  safe from {}\n", AmountsText(safe))?,
        (Some(_), None) => f.write_str("  no budget is safe\n")?,
        (None, None) => {
            if let Some(refused) = account.found.refused {
                write!(
                    f,
                    "  with the most of a machine: {}\n",
                    RefusedText(refused)
                )?;
            }
        }
    }
    for gap in account.holes() {
        let (from, below) = (Bytes(gap.ram_from), Bytes(gap.ram_below));
        write!(f, "  {from} below {below}: ")?;
        if let Some(refused) = gap.refused {
            write!(f, "{}", RefusedText(refused))?;
        }
        f.write_str("\n")?;
    }
    Ok(())
}

// Writes the given budget of an account and its distance from the minimum, the reserve, if there is one, and the lines that are left
// out.
fn show_given<W: fmt::Write>(f: &mut fmt::Formatter<W>, account: &AccountBudgets) -> fmt::Result {
    let (given, reserve) = (account.given(), account.reserve);
    let budget = given.budget;
    write!(f, "  given {}: ", AmountsText(budget))?;
    if let Some(refused) = given.refused {
        write!(f, "{}; ", RefusedText(refused))?;
    }
    match account.least() {
        None => f.write_str("no budget serves\n")?,
        Some(least) if least == budget => f.write_str("the least\n")?,
        Some(least) if least.ram <= budget.ram && least.caps <= budget.caps => {
            write!(
                f,
                "{} could be saved\n",
                AmountsText(difference(budget, least))
            )?;
        }
        Some(least) => {
            write!(
                f,
                "{} less than the least\n",
                AmountsText(difference(least, budget))
            )?;
        }
    }
    if reserve.ram != 0 || reserve.caps != 0 {
        write!(f, "  beside a reserve of {}\n", AmountsText(reserve))?;
    }
    for line in account.left_out() {
        show_left_out(f, line, account.least())?;
    }
    Ok(())
}

// Returns how much larger a budget is than another one, in RAM and in capabilities.
fn difference(budget: Budget, other: Budget) -> Budget {
    Budget {
        ram: budget.ram.saturating_sub(other.ram),
        caps: budget.caps.saturating_sub(other.caps),
    }
}

// Writes a line that is left out, and until when it is refused.
fn show_left_out<W: fmt::Write>(
    f: &mut fmt::Formatter<W>,
    line: &SkippedLine,
    least: Option<Budget>,
) -> fmt::Result {
    let least = least.unwrap_or(Budget { ram: 0, caps: 0 });
    let (ram, caps) = (Bytes(line.need.ram), line.need.caps);
    write!(f, "  line {} is ", line.line)?;
    match (line.need.ram > least.ram, line.need.caps > least.caps) {
        (true, true) => {
            write!(
                f,
                "refused as long as ram is below {ram} or caps below {caps}\n"
            )
        }
        (true, false) => write!(f, "refused as long as ram is below {ram}\n"),
        (false, true) => write!(f, "refused as long as caps are below {caps}\n"),
        (false, false) => f.write_str("not refused for want with the least\n"),
    }
}

// RAM and capabilities, as text.
#[derive(Clone, Copy)]
struct AmountsText(Budget);

impl fmt::Display for AmountsText {
    fn fmt<W: fmt::Write>(&self, f: &mut fmt::Formatter<W>) -> fmt::Result {
        write!(f, "{} and {}", Bytes(self.0.ram), self.0.caps)
    }
}

// A line that is short of quota.
#[derive(Clone, Copy)]
struct RefusedText(RefusedLine);

impl fmt::Display for RefusedText {
    fn fmt<W: fmt::Write>(&self, f: &mut fmt::Formatter<W>) -> fmt::Result {
        write!(
            f,
            "line {} is refused, {}",
            self.0.line,
            self.0.shortage.reply()
        )
    }
}
