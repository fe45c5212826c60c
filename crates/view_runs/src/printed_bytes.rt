//! Bytes as the log prints them.
ghost use Rattle.std.specs.Prelude.{◌≡◌, ◌∷◌, [], false, is_err, map};
ghost use Rattle.own_model.specs.Reply.{printed};
ghost use Rattle.run_devices.specs.RunOutput.{OutputsUnless};

use run_lines::{DeviceFault, Sink, WriteBuffer};

/// Gathers bytes as the log prints them: a byte is unchanged from 0x20 to 0x7e, and otherwise a dot. The error is a failed write.
pub(crate) fn put_printed<K: Sink>(
    bytes: &[u8],
    gathered: &mut WriteBuffer,
    sink: &mut K,
) -> Result<(), DeviceFault>
    requires { K.has_failed sink.old ≡ false }
    ensures told { OutputsUnless result (K.contents sink.old) gathered.old
        (K.contents sink.new) gathered.new (map printed bytes.now) }
    ensures failing { K.has_failed sink.new ≡ is_err result }
{
    for byte in bytes {
        put_byte(printed(*byte), gathered, sink)?;
    }
    Ok(())
}

// Gathers a byte.
fn put_byte<K: Sink>(byte: u8, gathered: &mut WriteBuffer, sink: &mut K) -> Result<(), DeviceFault>
    requires { K.has_failed sink.old ≡ false }
    ensures told { OutputsUnless result (K.contents sink.old) gathered.old
        (K.contents sink.new) gathered.new (byte ∷ []) }
    ensures failing { K.has_failed sink.new ≡ is_err result }
{
    gathered.put(sink, &[byte])
}

// Returns a byte as the log prints it.
fn printed(byte: u8) -> u8
    ensures { result ≡ printed byte }
{
    if (0x20..=0x7e).contains(&byte) {
        byte
    } else {
        b'.'
    }
}
