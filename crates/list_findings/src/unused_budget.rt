//! The budgets of servers that nothing uses.
ghost use Rattle.std.specs.Prelude.{◌≡◌, ◌++◌, IfOk, OnOk, Some};
ghost use Rattle.std.specs.Fmt.{WritesOnOk};
ghost use Rattle.std.specs.List.{flat_map};
ghost use Rattle.list_findings.specs.Spare.{advice_text, other_spare_text, spare_in, spare_of, spare_text};

use list_parser::{ListEntry, Path, StartList};
use list_parts::Amount;
use std::alloc::{AllocError, Global};
use std::fmt;

/// The unused budget of a server: what its account starts with and keeps, since no call charges it.
#[derive(Drop)]
pub struct UnusedBudget {
    /// The path of the server.
    pub path: Path,
    /// RAM in bytes.
    pub ram: u64,
    /// Capabilities.
    pub caps: u32,
}

impl fmt::Display for UnusedBudget {
    ghost output = { λ spare. Some (spare_text spare) };

    fn fmt<W: fmt::Write>(&self, f: &mut fmt::Formatter<W>) -> fmt::Result {
        write!(f, "{} has ", self.path)?;
        match (self.ram, self.caps) {
            (ram, 0) => write!(f, "{}", Amount(ram)),
            (0, caps) => write!(f, "{caps} caps"),
            (ram, caps) => write!(f, "{} and {caps} caps", Amount(ram)),
        }
    }
}

/// Advice on the unused budgets of the servers of a list.
#[derive(Clone, Copy)]
pub struct Advice<'a> {
    /// The unused budgets, one for each server that has any.
    pub servers: &'a [UnusedBudget],
}

impl fmt::Display for Advice<'_> {
    ghost output = { λ advice. Some (advice_text advice) };

    fn fmt<W: fmt::Write>(&self, f: &mut fmt::Formatter<W>) -> fmt::Result {
        f.write_str("servers use no budget of their own: ")?;
        match self.servers.split_first() {
            Some((spare, others)) => {
                write!(f, "{spare}")?;
                show_others(f, others)
            }
            None => Ok(()),
        }
    }
}

// Writes unused budgets, each after a comma.
fn show_others<W: fmt::Write>(f: &mut fmt::Formatter<W>, servers: &[UnusedBudget]) -> fmt::Result
    ensures { WritesOnOk W.write_str_gives f.old result (flat_map other_spare_text servers.now) f.new }
{
    for spare in servers {
        write!(f, ", {spare}")?;
    }
    Ok(())
}

/// Returns the unused budget of each server of a list that has RAM or capabilities. Fails if the host is out of memory.
pub fn spare_of(alloc: Global, list: &StartList) -> Result<Vec<UnusedBudget>, AllocError>
    ensures { IfOk result (λ spare. spare.items ≡ spare_of list.now) }
{
    let mut spare = Vec::new(alloc);
    for entry in list.entries() {
        add(&mut spare, entry)?;
    }
    Ok(spare)
}

// Adds the budget of an entry, if it is a server's and has RAM or capabilities.
fn add(spare: &mut Vec<UnusedBudget>, entry: &ListEntry) -> Result<(), AllocError>
    ensures { OnOk result (spare.new.items ≡ spare.old.items ++ spare_in entry.now) }
{
    if entry.is_server() && (entry.ram() > 0 || entry.caps() > 0) {
        spare.push(UnusedBudget {
            path: entry.to_path(),
            ram: entry.ram(),
            caps: entry.caps(),
        })?;
    }
    Ok(())
}
