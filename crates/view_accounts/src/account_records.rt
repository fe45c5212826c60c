//! The rows of an account list as records.
ghost use Rattle.std.specs.Prelude.{◌≡◌, ◌∷◌, ◌++◌, [], map, IfOk, OnOk};
ghost use Rattle.std.specs.List.{flat_map};
ghost use Rattle.std.specs.Option.{option_map};
ghost use Rattle.core_calls.specs.Quotas.{quotas_account};
ghost use Rattle.own_model.specs.Account.{Account};
ghost use Rattle.view_records.specs.Cells.{cell_data};
ghost use Rattle.view_records.specs.Lists.{records_of};
ghost use Rattle.view_records.specs.Records.{if_number};
ghost use Rattle.view_accounts.specs.AccountRecords.{account_record, all_records, component_records, gone_cell, session_record, state_cell, sum_cell, total_record};
ghost use Rattle.view_accounts.specs.Rows.{account_view, accounts_view, component_view, session_view};

use crate::account_rows::{AccountRow, AccountRows, ComponentRows, SessionRow};
use core_calls::Quotas;
use std::alloc::{AllocError, Global};
use view_records::{Cell, RecordList};

impl AccountRows {
    /// Returns a record for each account, each reserve that is shown, each session and the sums of all limits. The error is that the
    /// host is out of memory.
    pub fn records(&self, alloc: Global) -> Result<RecordList, AllocError>
        ensures { IfOk result (λ records. records_of records ≡ all_records (accounts_view self.now)) }
    {
        let components = self.components.as_slice();
        let closed = self.closed.as_slice();
        let mut records = RecordList::new(alloc);
        add_account(&mut records, &self.init)?;
        add_components(&mut records, components)?;
        add_open(&mut records, components)?;
        add_total(&mut records, self)?;
        add_sessions(&mut records, closed)?;
        Ok(records)
    }
}

// Adds the accounts of components, each with its reserve if that is shown.
fn add_components(records: &mut RecordList, components: &[ComponentRows]) -> Result<(), AllocError>
    ensures { OnOk result (records_of records.new ≡ records_of records.old
        ++ flat_map component_records (map component_view components.now)) }
{
    for component in components {
        add_component(records, component)?;
    }
    Ok(())
}

// Adds the account of a component, and its reserve if that is shown.
fn add_component(records: &mut RecordList, component: &ComponentRows) -> Result<(), AllocError>
    ensures { OnOk result (records_of records.new ≡ records_of records.old
        ++ component_records (component_view component.now)) }
{
    add_account(records, &component.account)?;
    match component.reserve {
        Some(reserve) => records.add(&[
            ("kind", Cell::Word("reserve")),
            ("name", Cell::Text(component.account.name.as_slice())),
            ("ram", Cell::Number(reserve.ram.0)),
            ("caps", Cell::Number(u64::from(reserve.caps.0))),
        ]),
        None => Ok(()),
    }
}

// Adds the open sessions of components.
fn add_open(records: &mut RecordList, components: &[ComponentRows]) -> Result<(), AllocError>
    ensures { OnOk result (records_of records.new ≡ records_of records.old
        ++ flat_map (λ shown. map session_record shown.sessions) (map component_view components.now)) }
{
    for component in components {
        add_sessions(records, component.sessions.as_slice())?;
    }
    Ok(())
}

// Adds sessions.
fn add_sessions(records: &mut RecordList, sessions: &[SessionRow]) -> Result<(), AllocError>
    ensures { OnOk result (records_of records.new ≡ records_of records.old
        ++ map session_record (map session_view sessions.now)) }
{
    for session in sessions {
        add_session(records, session)?;
    }
    Ok(())
}

// Adds the sums of all limits.
fn add_total(records: &mut RecordList, rows: &AccountRows) -> Result<(), AllocError>
    ensures { OnOk result (records_of records.new
        ≡ records_of records.old ++ total_record (accounts_view rows.now).total ∷ []) }
{
    records.add(&[
        ("kind", Cell::Word("total")),
        ("ram", sum_cell(rows.total.ram)),
        ("caps", sum_cell(rows.total.caps)),
    ])
}

// Returns the cell of a sum, or null if the sum is wider than 64 bits.
fn sum_cell<'a>(sum: u128) -> Cell<'a>
    ensures { cell_data result ≡ sum_cell sum }
{
    match u64::try_from(sum) {
        Ok(sum) => Cell::Number(sum),
        Err(_) => Cell::Null,
    }
}

// Adds an account.
fn add_account(records: &mut RecordList, row: &AccountRow) -> Result<(), AllocError>
    ensures { OnOk result (records_of records.new
        ≡ records_of records.old ++ account_record (account_view row.now) ∷ []) }
{
    records.add(&[
        ("kind", Cell::Word("account")),
        ("name", Cell::Text(row.name.as_slice())),
        ("ram_used", Cell::Number(row.account.ram_used.0)),
        ("ram_limit", Cell::Number(row.account.ram_limit.0)),
        (
            "caps_used",
            Cell::Number(u64::from(row.account.caps_used.0)),
        ),
        (
            "caps_limit",
            Cell::Number(u64::from(row.account.caps_limit.0)),
        ),
        ("state", gone_cell(row.needed.is_gone)),
        ("ram_need", Cell::Number(row.needed.need.ram)),
        ("caps_need", Cell::Number(row.needed.need.caps)),
        ("ram_peak", Cell::Number(row.peak.ram.0)),
        ("caps_peak", Cell::Number(u64::from(row.peak.caps.0))),
    ])
}

// Returns the state of a component: whether it has exited.
fn gone_cell<'a>(is_gone: bool) -> Cell<'a>
    ensures { cell_data result ≡ gone_cell is_gone }
{
    if is_gone {
        Cell::Word("gone")
    } else {
        Cell::Absent
    }
}

// Adds a session.
fn add_session(records: &mut RecordList, row: &SessionRow) -> Result<(), AllocError>
    ensures { OnOk result (records_of records.new
        ≡ records_of records.old ++ session_record (session_view row.now) ∷ []) }
{
    let own = account_cells(row.account);
    records.add(&[
        ("kind", Cell::Word("session")),
        ("name", Cell::Text(row.name.as_slice())),
        ("session", Cell::Number(row.selector)),
        ("ram_used", own.ram_used),
        ("ram_limit", own.ram_limit),
        ("caps_used", own.caps_used),
        ("caps_limit", own.caps_limit),
        ("state", own.state),
        ("ram_need", Cell::Number(row.needed.need.ram)),
        ("caps_need", Cell::Number(row.needed.need.caps)),
        ("ram_peak", Cell::Number(row.peak.ram.0)),
        ("caps_peak", Cell::Number(u64::from(row.peak.caps.0))),
        ("server", Cell::Text(row.server.as_slice())),
        ("label", Cell::Text(row.label.as_slice())),
    ])
}

// The use and the limits of a session's account, and the session's state.
#[derive(Clone, Copy)]
struct AccountCells<'a> {
    ram_used: Cell<'a>,
    ram_limit: Cell<'a>,
    caps_used: Cell<'a>,
    caps_limit: Cell<'a>,
    state: Cell<'a>,
}

// Returns the use and the limits of an open session's account, or that the session is closed.
fn account_cells<'a>(account: Option<Quotas>) -> AccountCells<'a>
    ensures ram_used { cell_data result.ram_used
        ≡ if_number (option_map (λ (a : Account). a.ram_used) (option_map quotas_account account)) }
    ensures ram_limit { cell_data result.ram_limit
        ≡ if_number (option_map (λ (a : Account). a.ram_limit) (option_map quotas_account account)) }
    ensures caps_used { cell_data result.caps_used
        ≡ if_number (option_map (λ (a : Account). a.caps_used) (option_map quotas_account account)) }
    ensures caps_limit { cell_data result.caps_limit
        ≡ if_number (option_map (λ (a : Account). a.caps_limit) (option_map quotas_account account)) }
    ensures state { cell_data result.state ≡ state_cell (option_map quotas_account account) }
{
    match account {
        Some(account) => AccountCells {
            ram_used: Cell::Number(account.ram_used.0),
            ram_limit: Cell::Number(account.ram_limit.0),
            caps_used: Cell::Number(u64::from(account.caps_used.0)),
            caps_limit: Cell::Number(u64::from(account.caps_limit.0)),
            state: Cell::Absent,
        },
        None => AccountCells {
            ram_used: Cell::Absent,
            ram_limit: Cell::Absent,
            caps_used: Cell::Absent,
            caps_limit: Cell::Absent,
            state: Cell::Word("closed"),
        },
    }
}
