//! A session of the log service: its label and its partial line.
ghost use Rattle.std.specs.Prelude.{◌≡◌, ◌+◌, ◌*◌, ◌<◌, ◌≤◌, [], ◌++◌, length, take, Some};
ghost use Rattle.arrayvec.specs.ArrayVec.{array_vec_len};
ghost use Rattle.own_model.specs.Reply.{log_text};
ghost use Rattle.own_model.specs.Text.{bytes_of_hex, hex_bytes};
ghost use Rattle.log_service.specs.Session.{Writes};

use arrayvec::ArrayVec;
use core_calls::{LONGEST_LABEL, MOST_LINES, Reply};
use server_frame::SlicedHeap;
use std::marker::Model;
use std::mem;
use text_codec::{decode_hex_from, find_byte};

/// The number of bytes at which a line is finished.
const LONGEST_LINE: usize = 200;

/// The number of bytes that are decoded at once.
const PIECE: usize = 256;

/// The most bytes by which one written byte lengthens the finished lines and the partial line: itself, and what surrounds a
/// line.
const MOST_ADDED: usize = LONGEST_LABEL + 5;

/// What the log service stores for a session. Contracts see its label, its partial line, and the unchanged sliced heap of
/// its account.
#[derive(Drop)]
pub struct LogSession {
    label: ArrayVec<u8, LONGEST_LABEL>,
    line: ArrayVec<u8, LONGEST_LINE>,
    heap: SlicedHeap,
}

impl Model for LogSession {
    ghost use Rattle.own_model.specs.LogService.{IsPartial};
    ghost use Rattle.log_service.specs.Session.{LabelledLine};

    ghost Value = { LabelledLine };

    ghost view = { λ s.
        record { label = s.label.items; partial = s.line.items; heap = s.heap } };

    ghost invariant = { λ s. IsPartial s.line.items };
}

impl LogSession {
    /// Creates a session of this label with an empty line.
    pub(crate) fn open(heap: SlicedHeap, label: &[u8]) -> LogSession
        requires { length label.now ≤ LONGEST_LABEL }
        ensures { result ≡ record { label = label.now; partial = []; heap = heap } }
    {
        let mut copy = ArrayVec::new();
        let _ = copy.try_extend_from_slice(label);
        LogSession {
            label: copy,
            line: ArrayVec::new(),
            heap,
        }
    }

    /// Returns the session's sliced heap, in whose place an empty one remains.
    pub(crate) fn take_heap(&mut self) -> SlicedHeap
        ensures { result ≡ self.old.heap }
    {
        let empty = SlicedHeap::new(self.heap.account());
        mem::replace(&mut self.heap, empty)
    }

    /// Writes the bytes that hexadecimal digits denote, and adds finished lines to the reply. The function is not inlined,
    /// because each call of its caller would clear its buffer.
    #[tactic(auto, using(text_codec::proofs::HexLemmas::decodings))]
    #[inline(never)]
    pub(crate) fn write(&mut self, hex: &[u8], reply: &mut Reply)
        requires hex { bytes_of_hex hex.now ≡ Some (hex_bytes hex.now) }
        requires room { length reply.old.lines + LONGEST_LINE + MOST_ADDED * length
            (hex_bytes hex.now) ≤ MOST_LINES }
        ensures { Writes self.old reply.old (hex_bytes hex.now) self.new reply.new }
    {
        let _ = &self.line;
        let count = hex.len() / 2;
        let mut buffer = [0; PIECE];
        let mut done = 0;
        while done < count {
            let bytes = &mut buffer[..(count - done).min(PIECE)];
            decode_hex_from(hex, done, bytes);
            self.write_bytes(bytes, reply);
            done += bytes.len();
        }
    }

    /// Writes bytes, and adds the lines that they finish to the reply.
    fn write_bytes(&mut self, bytes: &[u8], reply: &mut Reply)
        requires { length reply.old.lines + length self.old.partial + MOST_ADDED * length bytes.now
            ≤ MOST_LINES }
        ensures { Writes self.old reply.old bytes.now self.new reply.new }
    {
        let _ = &self.line;
        let mut done = 0;
        while done < bytes.len() {
            done += self.write_some(&bytes[done..], reply);
        }
    }

    /// Writes bytes up to the one that finishes the line, or all, and returns their number. They are copied as one run, so
    /// that the cost of a byte is small.
    fn write_some(&mut self, bytes: &[u8], reply: &mut Reply) -> usize
        requires some { 0 < length bytes.now }
        requires room { length reply.old.lines + length self.old.partial
            + MOST_ADDED * length bytes.now ≤ MOST_LINES }
        ensures some { 0 < result }
        ensures within { result ≤ length bytes.now }
        ensures writes { Writes self.old reply.old (take result bytes.now) self.new reply.new }
    {
        let room = LONGEST_LINE - self.line.len();
        let run = &bytes[..bytes.len().min(room)];
        match find_byte(b'\n', run) {
            Some(end) => {
                add_run(&mut self.line, &run[..end]);
                finish(&self.label, &mut self.line, reply);
                end + 1
            }
            None => {
                add_run(&mut self.line, run);
                if self.line.is_full() {
                    finish(&self.label, &mut self.line, reply);
                }
                run.len()
            }
        }
    }
}

/// Appends bytes to a line, which must have room for them.
fn add_run(line: &mut ArrayVec<u8, LONGEST_LINE>, run: &[u8])
    requires { array_vec_len line.old + length run.now ≤ LONGEST_LINE }
    ensures { line.new.items ≡ line.old.items ++ run.now }
{
    let _ = line.try_extend_from_slice(run);
}

/// Adds a line to the reply and clears the line.
fn finish(label: &[u8], line: &mut ArrayVec<u8, LONGEST_LINE>, reply: &mut Reply)
    requires { length reply.old.lines + (length label.now + array_vec_len line.old + 4)
        ≤ MOST_LINES }
    ensures line { line.new.items ≡ [] }
    ensures reply { reply.new
        ≡ record reply.old {
          lines = reply.old.lines
              ++ log_text (record { label = label.now; text = line.old.items });
        } }
    ensures len { length reply.new.lines
        ≡ length reply.old.lines + (length label.now + array_vec_len line.old + 4) }
{
    reply.add_line(label, line);
    line.clear();
}
