//! The table of an account list.
use crate::account_rows::{AccountRow, AccountRows, SessionRow};
use crate::needs::AccountNeed;
use crate::peaks::Peak;
use core_calls::Quotas;
use std::alloc::{AllocError, Global};
use view_records::table_text;

/// The names of the columns.
const HEADER: [&str; 9] = [
    "account", "ram", "peak", "need", "limit", "caps", "peak", "need", "limit",
];

// The figures of a row: RAM and capabilities, each if there are some.
type Figures = [Option<(u128, u128)>; 4];

impl AccountRows {
    /// Returns the table: a header, the machine's init, each component with its reserve and its sessions below it, and the sums of
    /// all limits. The error is that the host is out of memory.
    pub fn table(&self, alloc: Global) -> Result<Vec<u8>, AllocError> {
        let mut table = Table {
            alloc,
            rows: Vec::new(alloc),
        };
        let mut header = Vec::new(alloc);
        for name in HEADER {
            header.push(Vec::from_slice(alloc, name.as_bytes())?)?;
        }
        table.rows.push(header)?;
        table.add_account(&self.init)?;
        for (place, component) in self.components.iter().enumerate() {
            table.add_account(&component.account)?;
            if let Some(reserve) = component.reserve {
                let limit = (u128::from(reserve.ram.0), u128::from(reserve.caps.0));
                table.add(
                    "  reserve".to_string(alloc)?,
                    [None, None, None, Some(limit)],
                )?;
            }
            for session in &component.sessions {
                table.add_session(session)?;
            }
            for session in &self.closed {
                if session.component == place {
                    table.add_session(session)?;
                }
            }
        }
        let limit = (self.total.ram, self.total.caps);
        table.add("total".to_string(alloc)?, [None, None, None, Some(limit)])?;
        table_text(alloc, table.rows.as_slice())
    }
}

// The rows of a table.
#[derive(Drop)]
struct Table {
    alloc: Global,
    rows: Vec<Vec<Vec<u8>>>,
}

impl Table {
    // Adds the row of an account.
    fn add_account(&mut self, row: &AccountRow) -> Result<(), AllocError> {
        let name = String::from_utf8_lossy(self.alloc, row.name.as_slice())?;
        let gone = if row.needed.is_gone { " gone" } else { "" };
        let title = format!(in self.alloc; "{name}{gone}")?;
        self.add(title, figures(Some(row.account), row.peak, row.needed))
    }

    // Adds the row of a session.
    fn add_session(&mut self, row: &SessionRow) -> Result<(), AllocError> {
        let closed = if row.account.is_some() { "" } else { "closed " };
        let server = String::from_utf8_lossy(self.alloc, row.server.as_slice())?;
        let label = String::from_utf8_lossy(self.alloc, row.label.as_slice())?;
        let selector = row.selector;
        let title = format!(in self.alloc; "  {closed}session {selector} {server} {label}")?;
        self.add(title, figures(row.account, row.peak, row.needed))
    }

    // Adds a row: its title, the figures of RAM, and those of capabilities.
    fn add(&mut self, title: String, figures: Figures) -> Result<(), AllocError> {
        let alloc = self.alloc;
        let mut row = Vec::new(alloc);
        row.push(title.into_bytes())?;
        for figure in figures {
            row.push(match figure {
                Some((ram, _)) if ram > 0 && ram % 1024 == 0 => {
                    let kilobytes = ram / 1024;
                    format!(in alloc; "{kilobytes}K")?.into_bytes()
                }
                Some((ram, _)) => format!(in alloc; "{ram}")?.into_bytes(),
                None => Vec::from_slice(alloc, b"-")?,
            })?;
        }
        for figure in figures {
            row.push(match figure {
                Some((_, caps)) => format!(in alloc; "{caps}")?.into_bytes(),
                None => Vec::from_slice(alloc, b"-")?,
            })?;
        }
        self.rows.push(row)?;
        Ok(())
    }
}

// Returns use, peak, need and limit of an account. A closed session has its peak and its need alone.
fn figures(account: Option<Quotas>, peak: Peak, needed: AccountNeed) -> Figures {
    let used = account.map(|it| (u128::from(it.ram_used.0), u128::from(it.caps_used.0)));
    let limit = account.map(|it| (u128::from(it.ram_limit.0), u128::from(it.caps_limit.0)));
    let need = (u128::from(needed.need.ram), u128::from(needed.need.caps));
    let peak = (u128::from(peak.ram.0), u128::from(peak.caps.0));
    [used, Some(peak), Some(need), limit]
}
