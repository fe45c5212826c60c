//! Cells of comma-separated values after the first of a row.
ghost use Rattle.std.specs.Prelude.{◌≡◌, ◌+◌, ◌≤◌, ◌∷◌, ◌++◌, [], decimal, false, is_err};
ghost use Rattle.arrayvec.specs.ArrayVec.{array_vec_len};
ghost use Rattle.csv.specs.Writing.{default_writer, escaped, field_text, fields_text, needs_byte, needs_quotes, quoted};
ghost use Rattle.core_calls.specs.Quotas.{quotas_account};
ghost use Rattle.run_devices.specs.RunOutput.{OutputsUnless};
ghost use Rattle.run_scenario.specs.Cells.{account_cells, cell_text};

use arrayvec::ArrayVec;
use core_calls::Quotas;
use run_lines::{DeviceFault, Sink, WriteBuffer};
use text_codec::{add, add_number};

/// Gathers one more cell with a text, in quotes if it needs them. The error is a failed write.
pub fn put_cell<K: Sink>(
    text: &[u8],
    gathered: &mut WriteBuffer,
    sink: &mut K,
) -> Result<(), DeviceFault>
    requires { K.has_failed sink.old ≡ false }
    ensures told { OutputsUnless result (K.contents sink.old) gathered.old
        (K.contents sink.new) gathered.new
        (cell_text text.now) }
    ensures failing { K.has_failed sink.new ≡ is_err result }
{
    gathered.put(sink, b",")?;
    if needs_quotes(text) {
        put_quoted(text, gathered, sink)
    } else {
        gathered.put(sink, text)
    }
}

// Returns whether a text has a byte that needs quotes.
fn needs_quotes(text: &[u8]) -> bool
    ensures { result ≡ needs_quotes default_writer text.now }
{
    text.iter().any(|byte| needs_byte(*byte))
}

/// Returns whether a byte needs quotes in a cell of a table.
pub fn needs_byte(byte: u8) -> bool
    ensures { result ≡ needs_byte default_writer byte }
{
    byte == b',' || byte == b'"' || byte == b'\r' || byte == b'\n'
}

// Gathers a text in quotes, with each quote in it doubled.
fn put_quoted<K: Sink>(
    text: &[u8],
    gathered: &mut WriteBuffer,
    sink: &mut K,
) -> Result<(), DeviceFault>
    requires { K.has_failed sink.old ≡ false }
    ensures told { OutputsUnless result (K.contents sink.old) gathered.old
        (K.contents sink.new) gathered.new
        (quoted default_writer text.now) }
    ensures failing { K.has_failed sink.new ≡ is_err result }
{
    gathered.put(sink, b"\"")?;
    put_escaped(text, gathered, sink)?;
    gathered.put(sink, b"\"")
}

// Gathers a text with each quote in it doubled.
fn put_escaped<K: Sink>(
    text: &[u8],
    gathered: &mut WriteBuffer,
    sink: &mut K,
) -> Result<(), DeviceFault>
    requires { K.has_failed sink.old ≡ false }
    ensures told { OutputsUnless result (K.contents sink.old) gathered.old
        (K.contents sink.new) gathered.new
        (escaped default_writer text.now) }
    ensures failing { K.has_failed sink.new ≡ is_err result }
{
    for place in 0..text.len() {
        put_byte(text[place], gathered, sink)?;
    }
    Ok(())
}

// Gathers a byte, a quote doubled.
#[tactic(auto, unfolding(csv::specs::Writing::escaped))]
fn put_byte<K: Sink>(byte: u8, gathered: &mut WriteBuffer, sink: &mut K) -> Result<(), DeviceFault>
    requires { K.has_failed sink.old ≡ false }
    ensures told { OutputsUnless result (K.contents sink.old) gathered.old
        (K.contents sink.new) gathered.new
        (escaped default_writer (byte ∷ [])) }
    ensures failing { K.has_failed sink.new ≡ is_err result }
{
    if byte == b'"' {
        gathered.put(sink, b"\"\"")
    } else {
        gathered.put(sink, &[byte])
    }
}

/// Appends one more cell with a number in decimal digits.
#[tactic(auto, using(crate::proofs::CellLemmas::plain_numbers))]
pub fn add_cell<const N: usize>(text: &mut ArrayVec<u8, N>, number: u64)
    requires { array_vec_len text.old + 21 ≤ N }
    ensures items { text.new.items ≡ text.old.items ++ cell_text (decimal number) }
    ensures len { array_vec_len text.new ≤ array_vec_len text.old + 21 }
{
    add(text, b",");
    add_number(text, number);
}

/// Appends four more cells with an account's use and limit of RAM and of capabilities.
#[tactic(auto, using(crate::proofs::CellLemmas::four_cells))]
pub fn add_account<const N: usize>(text: &mut ArrayVec<u8, N>, account: Quotas)
    requires { array_vec_len text.old + 84 ≤ N }
    ensures items { text.new.items
        ≡ text.old.items ++ fields_text default_writer (account_cells (quotas_account account)) }
    ensures len { array_vec_len text.new ≤ array_vec_len text.old + 84 }
{
    add_cell(text, account.ram_used.0);
    add_cell(text, account.ram_limit.0);
    add_cell(text, u64::from(account.caps_used.0));
    add_cell(text, u64::from(account.caps_limit.0));
}
