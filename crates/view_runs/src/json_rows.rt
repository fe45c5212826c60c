//! A trace as objects of JSON, a row a line.
ghost use Rattle.std.specs.Prelude.{◌≡◌, ◌++◌, IfOk};
ghost use Rattle.std.specs.Option.{option_copied, option_map};
ghost use Rattle.core_calls.specs.Quotas.{quotas_account};
ghost use Rattle.own_model.specs.Account.{Account};
ghost use Rattle.serde_json.specs.Written.{compact_text};
ghost use Rattle.view_records.specs.Cells.{cell_data};
ghost use Rattle.view_records.specs.JsonTexts.{object_of};
ghost use Rattle.view_runs.specs.JsonRows.{account_of, figure_cell, json_row, row_record, selector_cell};
ghost use Rattle.view_runs.specs.Rows.{printed_text, row_view, session_view};

use crate::row_format::RowFormat;
use crate::trace_row::{SessionAccount, TraceRow};
use core_calls::Quotas;
use run_lines::{LineRunFault, Sink, WriteBuffer};
use std::alloc::{AllocError, Global};
use view_records::{Cell, add_object};

/// The room for the text of a row: few rows are longer.
const ROOM: usize = 512;

/// A trace as objects of JSON: a line with an object for each call.
#[derive(Clone, Copy)]
pub struct JsonRows {
    /// The allocator of the objects.
    pub alloc: Global,
}

impl RowFormat for JsonRows {
    ghost use Rattle.std.specs.Prelude.{[], true};
    ghost use Rattle.view_runs.specs.JsonRows.{json_row};

    ghost front = { [] };

    ghost row_text = { json_row };

    ghost takes = { true };

    fn header(&self) -> &'static [u8] {
        b""
    }

    fn put_row<K: Sink>(
        &self,
        row: &TraceRow<'_>,
        gathered: &mut WriteBuffer,
        writer: &mut K,
    ) -> Result<(), LineRunFault> {
        let line = line_of(self.alloc, row)?;
        gathered.put(writer, line.as_slice())?;
        Ok(())
    }
}

// Returns the line of a row. The error is out of memory.
fn line_of(alloc: Global, row: &TraceRow<'_>) -> Result<Vec<u8>, AllocError>
    ensures { IfOk result (λ line. line.items ≡ json_row (row_view row.now)) }
{
    let Some(shown) = row.text else {
        return line_with(alloc, *row, None);
    };
    let text = shown.to_text(alloc)?;
    line_with(alloc, *row, Some(text.as_slice()))
}

// Returns the line of a row with this text of its call's bytes. The error is out of memory.
fn line_with<'a>(
    alloc: Global,
    row: TraceRow<'a>,
    text: Option<&'a [u8]>,
) -> Result<Vec<u8>, AllocError>
    requires { option_copied text ≡ printed_text row.text }
    ensures { IfOk result (λ line. line.items ≡ json_row (row_view row.entry)) }
{
    let mut line = add_row(alloc, Vec::with_capacity(alloc, ROOM)?, row, text)?;
    line.push(b'\n')?;
    Ok(line)
}

// Appends the object of a row with this text of its call's bytes. The error is out of memory.
fn add_row<'a>(
    alloc: Global,
    line: Vec<u8>,
    row: TraceRow<'a>,
    text: Option<&'a [u8]>,
) -> Result<Vec<u8>, AllocError>
    requires { option_copied text ≡ printed_text row.text }
    ensures { IfOk result (λ more. more.items
        ≡ line.items ++ compact_text (object_of (row_record (row_view row.entry)))) }
{
    let own = account_cells(row.account);
    let (selector, account) = session_parts(row.session);
    let session = account_cells(account);
    add_object(
        alloc,
        line,
        &[
            ("call", Cell::Text(row.call)),
            ("caps_limit", own.caps_limit),
            ("caps_used", own.caps_used),
            ("component", Cell::Text(row.component)),
            ("line", Cell::Number(row.number)),
            ("ram_limit", own.ram_limit),
            ("ram_used", own.ram_used),
            ("reply", Cell::Text(row.reply)),
            ("session", selector),
            ("session_caps_limit", session.caps_limit),
            ("session_caps_used", session.caps_used),
            ("session_ram_limit", session.ram_limit),
            ("session_ram_used", session.ram_used),
            ("text", Cell::if_text(text).or_null()),
        ],
    )
}

// The use and the limits of an account.
#[derive(Clone, Copy)]
struct AccountCells<'a> {
    ram_used: Cell<'a>,
    ram_limit: Cell<'a>,
    caps_used: Cell<'a>,
    caps_limit: Cell<'a>,
}

// Returns the use and the limits of an account, or null for each.
fn account_cells<'a>(account: Option<Quotas>) -> AccountCells<'a>
    ensures ram_used { cell_data result.ram_used
        ≡ figure_cell (λ (a : Account). a.ram_used) (option_map quotas_account account) }
    ensures ram_limit { cell_data result.ram_limit
        ≡ figure_cell (λ (a : Account). a.ram_limit) (option_map quotas_account account) }
    ensures caps_used { cell_data result.caps_used
        ≡ figure_cell (λ (a : Account). a.caps_used) (option_map quotas_account account) }
    ensures caps_limit { cell_data result.caps_limit
        ≡ figure_cell (λ (a : Account). a.caps_limit) (option_map quotas_account account) }
{
    match account {
        Some(account) => AccountCells {
            ram_used: Cell::Number(account.ram_used.0),
            ram_limit: Cell::Number(account.ram_limit.0),
            caps_used: Cell::Number(u64::from(account.caps_used.0)),
            caps_limit: Cell::Number(u64::from(account.caps_limit.0)),
        },
        None => AccountCells {
            ram_used: Cell::Null,
            ram_limit: Cell::Null,
            caps_used: Cell::Null,
            caps_limit: Cell::Null,
        },
    }
}

// Returns the selector of a session, or null, and the session's account.
fn session_parts<'a>(session: Option<SessionAccount>) -> (Cell<'a>, Option<Quotas>)
    ensures selector { cell_data result.0 ≡ selector_cell (option_map session_view session) }
    ensures account { option_map quotas_account result.1
        ≡ account_of (option_map session_view session) }
{
    match session {
        Some(session) => (Cell::Number(session.selector), Some(session.account)),
        None => (Cell::Null, None),
    }
}
