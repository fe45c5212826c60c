//! The reply to a call: finished log lines, the outcome and its text.
ghost use Rattle.std.specs.Prelude.{◌≡◌, ◌+◌, ◌*◌, ◌≤◌, [], ◌++◌, length, codes, IfOk};
ghost use Rattle.own_model.specs.Reply.{address_text, amounts_text, hex_text, log_text, quota_text, reply_text};
ghost use Rattle.own_model.specs.Reply.Reply.{Done as ModelledDone, Selected as ModelledSelected};
ghost use Rattle.trade_base.specs.Refusal.{refusal_name};
ghost use Rattle.core_calls.specs.Outcome.{IsText};
ghost use Rattle.core_calls.specs.Quotas.{quotas_account, reserve_amounts};
ghost use Rattle.core_calls.specs.ReplyText.{told_alone};

use crate::answer::Answer;
use crate::bounded_bytes::BoundedBytes;
use crate::outcome::Outcome;
use crate::quotas::Quotas;
use crate::reserve::Reserve;
use std::alloc::Global;
use std::marker::Model;
use text_codec::{MOST_HEX_DIGITS, write_hex};
use trade_base::{NoMemory, Refusal, Selector};

/// The most bytes of the text of a reply.
const LONGEST_TEXT: usize = 2100;

/// The most bytes of the finished lines, as they are printed.
pub const MOST_LINES: usize = 1 << 20;

/// A reply: finished log lines, the outcome of a call, and its rendering, the text. All memory is allocated when it is
/// created.
#[derive(Drop)]
pub struct Reply {
    pub(crate) lines: BoundedBytes,
    pub(crate) text: BoundedBytes,
    pub(crate) outcome: Outcome,
}

impl Model for Reply {
    ghost use Rattle.std.specs.Prelude.{◌≡◌};
    ghost use Rattle.core_calls.specs.Outcome.{IsText};
    ghost use Rattle.core_calls.specs.ReplyText.{Told};

    ghost Value = { Told };

    ghost view = { λ reply. record { lines = reply.lines.text; text = reply.text.text } };

    ghost invariant = { λ reply. (reply.lines.size ≡ 1048576) × (reply.text.size ≡ 2100)
        × IsText reply.outcome reply.text.text };
}

impl Reply {
    /// Returns a reply without log lines whose call is done. Returns `NoMemory` if the host is out of memory.
    pub fn boot(alloc: Global) -> Result<Reply, NoMemory>
        ensures { IfOk result (λ reply. reply ≡ told_alone (reply_text ModelledDone)) }
    {
        Ok(Reply {
            lines: BoundedBytes::boot(alloc, MOST_LINES)?,
            text: done_text(alloc)?,
            outcome: Outcome::Done,
        })
    }

    /// Returns the finished lines, each as it is printed, with its newline.
    pub fn lines(&self) -> &[u8]
        ensures { result.now ≡ self.now.lines }
    {
        self.lines.text()
    }

    /// Returns the text of the reply, which is the rendering of its outcome.
    pub fn text(&self) -> &[u8]
        ensures { result.now ≡ self.now.text }
    {
        self.text.text()
    }

    /// Returns the outcome of the call, whose rendering is the text.
    #[inline]
    pub fn outcome(&self) -> Outcome
        ensures { IsText result self.now.text }
    {
        self.outcome
    }

    /// Returns the outcome of the call together with its rendering.
    #[inline]
    pub fn answer(&self) -> Answer<'_>
        ensures { result.text.now ≡ self.now.text }
    {
        Answer {
            outcome: self.outcome,
            text: self.text.text(),
        }
    }

    /// Removes all finished lines and keeps outcome and text.
    pub fn clear_lines(&mut self)
        ensures { self.new ≡ record self.old { lines = [] } }
    {
        self.lines.clear();
    }

    /// Appends a finished line, which must still fit: the label in brackets, a space and the bytes. Bytes outside 0x20 to
    /// 0x7e are printed as dots.
    pub fn add_line(&mut self, label: &[u8], text: &[u8])
        requires { length self.old.lines + (length label.now + length text.now + 4) ≤ MOST_LINES }
        ensures added { self.new ≡ record self.old {
          lines = self.old.lines
              ++ log_text (record { label = label.now; text = text.now });
        } }
        ensures len { length self.new.lines
            ≡ length self.old.lines + (length label.now + length text.now + 4) }
    {
        self.lines.add(b"[");
        self.lines.add(label);
        self.lines.add(b"] ");
        self.lines.add_printed(text);
        self.lines.add(b"\n");
    }

    /// Sets the reply to the selector of a new capability, without log lines.
    #[inline(never)]
    pub fn write_selector(&mut self, selector: Selector)
        ensures { self.new ≡ told_alone (reply_text (ModelledSelected selector.0)) }
    {
        self.lines.clear();
        self.text.replace(b"cap ");
        self.text.add_number(u64::from(selector.0));
        self.outcome = Outcome::Selected(selector);
    }

    /// Sets the reply to the address at which a new region or block starts, without log lines.
    #[inline(never)]
    pub fn write_address(&mut self, address: u64)
        ensures { self.new ≡ told_alone (codes "at " ++ address_text address) }
    {
        let mut digits = [0; MOST_HEX_DIGITS];
        let start = write_hex(address, &mut digits);
        self.lines.clear();
        self.text.replace(b"at 0x");
        self.text.add(&digits[start..]);
        self.outcome = Outcome::Attached(address);
    }

    /// Sets the reply to bytes of the caller's memory in lower-case hexadecimal digits, without log lines.
    pub fn write_bytes(&mut self, bytes: &[u8])
        requires { 5 + 2 * length bytes.now ≤ LONGEST_TEXT }
        ensures { self.new ≡ told_alone (codes "data " ++ hex_text bytes.now) }
    {
        self.lines.clear();
        self.text.replace(b"data ");
        self.text.add_hex(bytes);
        self.outcome = Outcome::Bytes;
    }

    /// Sets the reply to a call that is done, without log lines.
    pub fn write_done(&mut self)
        ensures { self.new ≡ told_alone (reply_text ModelledDone) }
    {
        self.lines.clear();
        self.text.replace(b"ok");
        self.outcome = Outcome::Done;
    }

    /// Sets the reply to use and limit of RAM and of capabilities, without log lines.
    pub fn write_quotas(&mut self, quotas: Quotas)
        ensures { self.new ≡ told_alone (quota_text (quotas_account quotas)) }
    {
        self.lines.clear();
        self.text.clear();
        self.text.add_quotas(quotas);
        self.outcome = Outcome::Quotas(quotas);
    }

    /// Sets the reply to the amounts of a reserve, without log lines.
    pub fn write_reserve(&mut self, reserve: Reserve)
        ensures { self.new ≡ told_alone (amounts_text (reserve_amounts reserve)) }
    {
        self.lines.clear();
        self.text.replace(b"ram ");
        self.text.add_number(reserve.ram.0);
        self.text.add(b" caps ");
        self.text.add_number(u64::from(reserve.caps.0));
        self.outcome = Outcome::Reserved(reserve);
    }

    /// Sets the reply to the reason for which the call is refused, without log lines.
    #[inline(never)]
    pub fn write_refusal(&mut self, refusal: Refusal)
        ensures { self.new ≡ told_alone (refusal_name refusal) }
    {
        self.lines.clear();
        self.text.replace(refusal.name().as_bytes());
        self.outcome = Outcome::Refused(refusal);
    }
}

// The text of a reply that a call is done, with room for any other.
fn done_text(alloc: Global) -> Result<BoundedBytes, NoMemory>
    ensures { IfOk result (λ text. text
        ≡ record { text = reply_text ModelledDone; size = LONGEST_TEXT }) }
{
    let mut text = BoundedBytes::boot(alloc, LONGEST_TEXT)?;
    text.add(b"ok");
    Ok(text)
}
