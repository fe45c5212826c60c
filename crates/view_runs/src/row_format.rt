//! The formats of a trace.
ghost use Rattle.std.specs.Prelude.{◌≡◌, Bool, List, ℕ, false};
ghost use Rattle.run_lines.specs.Faults.{Fails};
ghost use Rattle.run_devices.specs.RunOutput.{OutputsUnless};
ghost use Rattle.view_runs.specs.Rows.{row_view};
ghost use Rattle.view_runs.specs.Tracing.{TraceRow};

use crate::trace_row::TraceRow;
use run_lines::{LineRunFault, Sink, WriteBuffer};

/// A format of a trace.
pub trait RowFormat {
    // The text before the rows.
    ghost front: { List ℕ };

    // The text of a row.
    ghost row_text: { TraceRow → List ℕ };

    // Whether writing a row takes memory of the host.
    ghost takes: { Bool };

    /// Returns the text before the rows.
    fn header(&self) -> &'static [u8]
        ensures { result.now ≡ front };

    /// Gathers the text of a row. The error is a failed write, or that the host is out of memory.
    fn put_row<K: Sink>(
        &self,
        row: &TraceRow<'_>,
        gathered: &mut WriteBuffer,
        writer: &mut K,
    ) -> Result<(), LineRunFault>
        requires { K.has_failed writer.old ≡ false }
        ensures told { OutputsUnless result (K.contents writer.old) gathered.old
            (K.contents writer.new) gathered.new (row_text (row_view row.now)) }
        ensures failing { Fails result (K.has_failed writer.new) takes };
}
