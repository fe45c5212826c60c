//! Bytes in memory of fixed capacity.
ghost use Rattle.std.specs.Prelude.{◌≡◌, ◌+◌, ◌*◌, ◌≤◌, [], ◌++◌, length, map, decimal, IfOk};
ghost use Rattle.hex.specs.Hex.{encode_lower};
ghost use Rattle.own_model.specs.Reply.{hex_text, printed, quota_text, share_text};
ghost use Rattle.core_calls.specs.Quotas.{quotas_account};

use crate::quotas::Quotas;
use std::alloc::Global;
use std::boxed::BoxedSlice;
use std::marker::Model;
use text_codec::{encode_hex, write_number};
use trade_base::NoMemory;

/// The most digits of a number.
const LONGEST_NUMBER: usize = 20;

/// A byte buffer of fixed capacity, all of which is allocated when it is created.
#[derive(Drop)]
pub(crate) struct BoundedBytes {
    bytes: BoxedSlice<u8>,
    /// The number of bytes that are written.
    len: usize,
}

impl Model for BoundedBytes {
    ghost use Rattle.std.specs.Prelude.{◌≤◌, take};
    ghost use Rattle.std.specs.Box.{boxed_slice_items, boxed_slice_len};
    ghost use Rattle.core_calls.specs.Written.{Written};

    ghost Value = { Written };

    ghost view = { λ written.
        record {
          text = take written.len
              (boxed_slice_items written.bytes);
          size = boxed_slice_len written.bytes;
        } };

    ghost invariant = { λ written. written.len ≤ boxed_slice_len written.bytes };
}

impl BoundedBytes {
    /// Allocates an empty buffer with room for `size` bytes. Returns `NoMemory` if the host is out of memory.
    pub(crate) fn boot(alloc: Global, size: usize) -> Result<BoundedBytes, NoMemory>
        ensures { IfOk result (λ written. written ≡ record { text = []; size = size }) }
    {
        let bytes = vec![in alloc; 0u8; size].map_err(|_| NoMemory)?;
        Ok(BoundedBytes {
            bytes: bytes.into_boxed_slice(),
            len: 0,
        })
    }

    /// Returns the bytes that are written, in order.
    pub(crate) fn text(&self) -> &[u8]
        ensures { result.now ≡ self.now.text }
    {
        &self.bytes[..self.len]
    }

    /// Removes all written bytes and keeps the capacity.
    pub(crate) fn clear(&mut self)
        ensures { self.new ≡ record self.old { text = [] } }
    {
        self.len = 0;
    }

    /// Replaces all written bytes with others, which must fit.
    #[inline]
    pub(crate) fn replace(&mut self, bytes: &[u8])
        requires { length bytes.now ≤ self.old.size }
        ensures replaced { self.new ≡ record self.old { text = bytes.now } }
        ensures len { length self.new.text ≡ length bytes.now }
    {
        self.clear();
        self.add(bytes);
    }

    /// Appends bytes, which must fit in the capacity.
    pub(crate) fn add(&mut self, more: &[u8])
        requires { length self.old.text + length more.now ≤ self.old.size }
        ensures added { self.new ≡ record self.old { text = self.old.text ++ more.now } }
        ensures len { length self.new.text ≡ length self.old.text + length more.now }
    {
        let end = self.len + more.len();
        self.bytes[self.len..end].copy_from_slice(more);
        self.len = end;
    }

    /// Appends a number in decimal digits, which are written in place.
    #[inline]
    pub(crate) fn add_number(&mut self, number: u64)
        requires { length self.old.text + LONGEST_NUMBER ≤ self.old.size }
        ensures added { self.new ≡ record self.old { text = self.old.text ++ decimal number } }
        ensures len { length self.new.text ≤ length self.old.text + LONGEST_NUMBER }
    {
        let end = write_number(number, &mut self.bytes, self.len);
        self.len = end;
    }

    /// Appends a use and a limit with a slash between them. There must be room for both.
    fn add_share(&mut self, used: u64, limit: u64)
        requires { length self.old.text + 41 ≤ self.old.size }
        ensures added { self.new
            ≡ record self.old { text = self.old.text ++ share_text used limit } }
        ensures len { length self.new.text ≤ length self.old.text + 41 }
    {
        self.add_number(used);
        self.add(b"/");
        self.add_number(limit);
    }

    /// Appends use and limit of RAM and of capabilities. There must be room for them.
    pub(crate) fn add_quotas(&mut self, quotas: Quotas)
        requires { length self.old.text + 100 ≤ self.old.size }
        ensures { self.new ≡ record self.old {
          text = self.old.text ++ quota_text (quotas_account quotas);
        } }
    {
        self.add(b"ram ");
        self.add_share(quotas.ram_used.0, quotas.ram_limit.0);
        self.add(b" caps ");
        self.add_share(
            u64::from(quotas.caps_used.0),
            u64::from(quotas.caps_limit.0),
        );
    }

    /// Appends bytes in hexadecimal digits with lower-case letters.
    #[tactic(auto, using(own_model::proofs::HexLemmas::hex_text_is))]
    pub(crate) fn add_hex(&mut self, bytes: &[u8])
        requires { length self.old.text + 2 * length bytes.now ≤ self.old.size }
        ensures { self.new ≡ record self.old { text = self.old.text ++ hex_text bytes.now } }
    {
        self.encode(bytes);
    }

    // Appends the hexadecimal digits as the library encodes them.
    fn encode(&mut self, bytes: &[u8])
        requires { length self.old.text + 2 * length bytes.now ≤ self.old.size }
        ensures { self.new
            ≡ record self.old { text = self.old.text ++ encode_lower bytes.now } }
    {
        let end = self.len + 2 * bytes.len();
        encode_hex(bytes, &mut self.bytes[self.len..end]);
        self.len = end;
    }

    /// Appends bytes as the log prints them, which must fit.
    pub(crate) fn add_printed(&mut self, more: &[u8])
        requires { length self.old.text + length more.now ≤ self.old.size }
        ensures added { self.new
            ≡ record self.old { text = self.old.text ++ map printed more.now } }
        ensures len { length self.new.text ≡ length self.old.text + length more.now }
    {
        let end = self.len + more.len();
        print_over(&mut self.bytes[self.len..end], more);
        self.len = end;
    }
}

/// Overwrites bytes with as many others, as the log prints them.
fn print_over(others: &mut [u8], bytes: &[u8])
    requires { length others.old ≡ length bytes.now }
    ensures { others.new ≡ map printed bytes.now }
{
    others.copy_from_slice(bytes);
    for byte in others.iter_mut() {
        *byte = printed(*byte);
    }
}

/// Returns a byte as the log prints it: unchanged from 0x20 to 0x7e, otherwise a dot.
fn printed(byte: u8) -> u8
    ensures { result ≡ printed byte }
{
    if (0x20..=0x7e).contains(&byte) {
        byte
    } else {
        b'.'
    }
}
