//! A trace as comma-separated values.
ghost use Rattle.std.specs.Prelude.{◌≡◌, ◌^◌, ◌<◌, ◌≤◌, ◌∷◌, ◌++◌, [], decimal, false, is_err};
ghost use Rattle.std.specs.Option.{option_map, unwrap_or};
ghost use Rattle.arrayvec.specs.ArrayVec.{array_vec_len};
ghost use Rattle.core_calls.specs.Quotas.{quotas_account};
ghost use Rattle.csv.specs.Writing.{default_writer, fields_text};
ghost use Rattle.run_devices.specs.RunOutput.{OutputsUnless};
ghost use Rattle.run_scenario.specs.Cells.{cell_text};
ghost use Rattle.view_runs.specs.CsvRows.{cells_of, figures, session_cells};
ghost use Rattle.view_runs.specs.Rows.{printed_text, session_view};

use crate::byte_text::put_text_cell;
use crate::row_format::RowFormat;
use crate::trace_row::{SessionAccount, TraceRow};
use arrayvec::ArrayVec;
use core_calls::Quotas;
use run_lines::{DeviceFault, LineRunFault, Sink, WriteBuffer};
use run_scenario::{add, add_account, add_cell, put_cell, put_number};

/// A trace as comma-separated values: the names of the columns, and a row for each call.
#[derive(Clone, Copy)]
pub struct CsvRows;

/// The names of the columns.
const HEADER: &[u8] =
    b"line,component,call,reply,ram_used,ram_limit,caps_used,caps_limit,session,session_ram_used,session_ram_limit,session_caps_used,session_caps_limit,text\n";

/// The most bytes of the figures of a row.
const LONGEST_FIGURES: usize = 200;

impl RowFormat for CsvRows {
    ghost use Rattle.std.specs.Prelude.{false};
    ghost use Rattle.view_runs.specs.CsvRows.{csv_header, csv_row};

    ghost front = { csv_header };

    ghost row_text = { csv_row };

    ghost takes = { false };

    fn header(&self) -> &'static [u8] {
        HEADER
    }

    fn put_row<K: Sink>(
        &self,
        row: &TraceRow<'_>,
        gathered: &mut WriteBuffer,
        writer: &mut K,
    ) -> Result<(), LineRunFault> {
        let figures = figures_of(row);
        put_cells(*row, figures.as_slice(), gathered, writer)?;
        Ok(())
    }
}

// Gathers a row: the cells before its figures, the figures, and the text of the call's bytes.
fn put_cells<K: Sink>(
    row: TraceRow<'_>,
    figures: &[u8],
    gathered: &mut WriteBuffer,
    writer: &mut K,
) -> Result<(), DeviceFault>
    requires { K.has_failed writer.old ≡ false }
    ensures told { OutputsUnless result (K.contents writer.old) gathered.old
        (K.contents writer.new) gathered.new
        (decimal row.entry.number ++ cell_text row.entry.component.now ++ cell_text row.entry.call.now
        ++ cell_text row.entry.reply.now ++ figures.now
        ++ cell_text (unwrap_or (printed_text row.entry.text) []) ++ 10 ∷ []) }
    ensures failing { K.has_failed writer.new ≡ is_err result }
    ensures fits { row.entry.number < 2 ^ 64 }
{
    put_front(row, gathered, writer)?;
    gathered.put(writer, figures)?;
    put_text_cell(row.text, gathered, writer)?;
    gathered.put(writer, b"\n")
}

// Gathers the cells of a row before its figures.
fn put_front<K: Sink>(
    row: TraceRow<'_>,
    gathered: &mut WriteBuffer,
    writer: &mut K,
) -> Result<(), DeviceFault>
    requires { K.has_failed writer.old ≡ false }
    ensures told { OutputsUnless result (K.contents writer.old) gathered.old
        (K.contents writer.new) gathered.new
        (decimal row.entry.number ++ cell_text row.entry.component.now ++ cell_text row.entry.call.now
        ++ cell_text row.entry.reply.now) }
    ensures failing { K.has_failed writer.new ≡ is_err result }
{
    put_number(row.number, gathered, writer)?;
    put_cell(row.component, gathered, writer)?;
    put_cell(row.call, gathered, writer)?;
    put_cell(row.reply, gathered, writer)
}

// Returns the cells of a row's accounts.
fn figures_of(row: &TraceRow<'_>) -> ArrayVec<u8, LONGEST_FIGURES>
    ensures { result.items ≡ fields_text default_writer
        (figures (option_map quotas_account row.now.account)
        (option_map session_view row.now.session)) }
{
    let mut text = ArrayVec::new();
    add_own(&mut text, row.account);
    add_session(&mut text, row.session);
    text
}

// Appends the cells of an account, or empty ones.
#[tactic(auto, using(crate::proofs::RowLemmas::empty_cells))]
fn add_own(text: &mut ArrayVec<u8, LONGEST_FIGURES>, account: Option<Quotas>)
    requires { text.old.items ≡ [] }
    ensures items { text.new.items
        ≡ fields_text default_writer (cells_of (option_map quotas_account account)) }
    ensures len { array_vec_len text.new ≤ 84 }
{
    match account {
        Some(account) => add_account(text, account),
        None => add(text, b",,,,"),
    }
}

// Appends the cells of a session, or empty ones.
#[tactic(auto, using(crate::proofs::RowLemmas::empty_cells))]
fn add_session(text: &mut ArrayVec<u8, LONGEST_FIGURES>, session: Option<SessionAccount>)
    requires { array_vec_len text.old ≤ 84 }
    ensures { text.new.items ≡ text.old.items
        ++ fields_text default_writer (session_cells (option_map session_view session)) }
{
    match session {
        Some(session) => {
            add_cell(text, session.selector);
            add_account(text, session.account);
        }
        None => add(text, b",,,,,"),
    }
}
