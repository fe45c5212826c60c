//! The amounts that calls and requests need of an account.
ghost use Rattle.std.specs.Prelude.{◌≡◌, ◌<◌, ◌+◌, ◌-◌, ◌^◌, ◌&&◌, ℕ, min, nat_lt, false, true, None, IfSome, IsSome};
ghost use Rattle.std.specs.Str.{bytes_eq};
ghost use Rattle.trade_base.specs.Page.{page_of, is_valid_size};
ghost use Rattle.trade_base.specs.Refusal.{refusal_name};
ghost use Rattle.trade_base.specs.declared.refusal.Refusal.TheVariants.{InvalidSession, ServiceDenied};
ghost use Rattle.own_model.specs.BestFit.{block_size};
ghost use Rattle.own_model.specs.Growth.{is_large};
ghost use Rattle.own_model.specs.OwnState.{OwnState};
ghost use Rattle.own_model.specs.OwnStep.{entry_step};
ghost use Rattle.own_model.specs.Reply.{reply_text};
ghost use Rattle.own_model.specs.SessionArgs.{arguments_of};
ghost use Rattle.own_model.specs.Sliced.{sliced_header, sliced_size};
ghost use Rattle.own_model.specs.StartList.{Entry};
ghost use Rattle.core_calls.specs.Call.{model_call};
ghost use Rattle.budget_theorems.specs.Test.{arguments_tests, entry_tests, test_of, tested_where};
ghost use Rattle.budget_meter.specs.Asked.{asked_by, block_tests, chunk_tests};
ghost use Rattle.budget_meter.specs.NeededAmounts.{AsksAs, amount_tests, is_of_chunk};

use crate::budget::Budget;
use crate::outcomes::{is_service_denied, is_unknown_session};
use core_calls::{Answer, Call, Outcome};
use session_proto::SessionArgs;
use trade_base::{PAGE, page_round};

/// The minimum size of a large block, which is in no chunk, in bytes.
pub(crate) const LEAST_LARGE: u64 = 65_536;

/// The minimum size of a block of a chunk, in bytes.
const LEAST_BLOCK: u64 = 48;

/// The bytes before the payload of a block.
const HEADER: u64 = 16;

/// The bytes before the payload of a sliced block.
const SLICED_HEADER: u64 = 32;

/// The bytes of the node of a file.
pub(crate) const NODE: u64 = 96;

/// Returns the amounts that a call needs of its caller's account, if any. For a block of the heap it is the minimum chunk. A
/// call for 0 bytes needs nothing, because it is refused with any account.
pub fn call_amounts(call: Call<'_>) -> Option<Budget>
    ensures { amount_tests result ≡ asked_by (model_call call.entry) }
{
    match call {
        Call::New(0) => None,
        Call::New(n) => least_chunk(n),
        _ => asked_when_told(
            call,
            Answer {
                outcome: Outcome::Done,
                text: b"ok",
            },
        ),
    }
}

/// Returns the amounts that an answered call tests, if it makes exactly one test: all calls except those for a block of a
/// chunk. A service that is denied, or a selector without a session, is found before any test.
pub(crate) fn asked_when_told(call: Call<'_>, reply: Answer<'_>) -> Option<Budget>
    ensures once { is_of_chunk (model_call call.entry) ≡ false → (entry : Entry) (s : OwnState) →
        reply.entry.text.now ≡ reply_text (entry_step entry (model_call call.entry) s).reply →
        amount_tests result ≡ entry_tests entry (model_call call.entry) s }
    ensures asked { is_of_chunk (model_call call.entry) ≡ false →
        bytes_eq reply.entry.text.now (refusal_name ServiceDenied) ≡ false →
        bytes_eq reply.entry.text.now (refusal_name InvalidSession) ≡ false →
        amount_tests result ≡ asked_by (model_call call.entry) }
{
    match call {
        Call::Alloc(n) => whole_pages(n),
        Call::New(n) => large_pages(n),
        Call::Snew(n) => sliced_pages(n),
        Call::Capalloc => Some(Budget { ram: 0, caps: 1 }),
        Call::Yield(args) => named_by(args),
        Call::Open { args, .. } => named_by_open(args, reply),
        Call::Upgrade { args, .. } => named_by_upgrade(args, reply),
        _ => None,
    }
}

// The amounts that a large block of the heap needs, if the block is large.
fn large_pages(n: u64) -> Option<Budget>
    ensures { is_large n ≡ true →
        amount_tests result ≡ tested_where (is_valid_size n) (test_of (page_of n) 1) }
{
    if n < LEAST_LARGE {
        return None;
    }
    whole_pages(n)
}

/// Returns the amounts that a sliced block needs.
pub(crate) fn sliced_pages(n: u64) -> Option<Budget>
    ensures { amount_tests result ≡ tested_where (nat_lt 0 n && is_valid_size (sliced_header + n))
        (test_of (sliced_size n) 1) }
{
    if n == 0 {
        return None;
    }
    whole_pages(n.checked_add(SLICED_HEADER)?)
}

// The donation in the arguments of an open, unless the service is denied.
fn named_by_open(args: &[u8], reply: Answer<'_>) -> Option<Budget>
    ensures told { bytes_eq reply.entry.text.now (refusal_name ServiceDenied) ≡ true → result ≡ None }
    ensures named { bytes_eq reply.entry.text.now (refusal_name ServiceDenied) ≡ false →
        amount_tests result ≡ arguments_tests (arguments_of args.now) }
{
    if is_service_denied(reply) {
        return None;
    }
    named_by(args)
}

// The donation in the arguments of an upgrade, unless no session has the selector.
fn named_by_upgrade(args: &[u8], reply: Answer<'_>) -> Option<Budget>
    ensures told { bytes_eq reply.entry.text.now (refusal_name InvalidSession) ≡ true → result ≡ None }
    ensures named { bytes_eq reply.entry.text.now (refusal_name InvalidSession) ≡ false →
        amount_tests result ≡ arguments_tests (arguments_of args.now) }
{
    if is_unknown_session(reply) {
        return None;
    }
    named_by(args)
}

/// Returns the RAM and the capabilities in session arguments, if they are in the grammar.
pub fn named_by(args: &[u8]) -> Option<Budget>
    ensures { amount_tests result ≡ arguments_tests (arguments_of args.now) }
{
    let args = SessionArgs::read(args).ok()?;
    Some(Budget {
        ram: args.ram().0,
        caps: u64::from(args.caps().0),
    })
}

/// Returns the amounts for whole pages of `n` bytes and one capability, or `None` if `n` is no valid size.
pub(crate) fn whole_pages(n: u64) -> Option<Budget>
    ensures tests { amount_tests result ≡ tested_where (is_valid_size n) (test_of (page_of n) 1) }
    ensures ram { IfSome result (λ asked. asked.ram ≡ page_of n) }
    ensures caps { IfSome result (λ asked. asked.caps ≡ 1) }
{
    if n == 0 {
        return None;
    }
    let ram = page_round(n)?;
    Some(Budget { ram, caps: 1 })
}

/// Returns the amounts for the minimum chunk that has room for a block of `n` bytes, or for a large block.
pub fn least_chunk(n: u64) -> Option<Budget>
    ensures ram { n < 65536 → IfSome result (λ asked. asked.ram ≡ page_of (block_size n)) }
    ensures caps { IfSome result (λ asked. asked.caps ≡ 1) }
    ensures small { n < 65536 → IsSome result }
    ensures chunk { n < 65536 → amount_tests result ≡ chunk_tests n }
    ensures asked { 0 < n → amount_tests result ≡ block_tests n }
{
    if n >= LEAST_LARGE {
        return whole_pages(n);
    }
    whole_pages(LEAST_BLOCK.max(HEADER + (n + 15) / 16 * 16))
}

/// Returns the amounts for a content of `end` bytes, if it is longer than the old one of `size` bytes. Both are capped at 64
/// bits.
pub(crate) fn longer(size: u64, end: u64) -> Option<Budget>
    ensures shown { (n : ℕ) → end ≡ min n (2 ^ 64 - 1) →
        AsksAs result (tested_where (nat_lt size n) (test_of (sliced_size n) 1)) }
    ensures asked { (n : ℕ) → end ≡ min n (2 ^ 64 - 1) → amount_tests result
        ≡ tested_where (nat_lt size n && is_valid_size (sliced_header + n)) (test_of (sliced_size n) 1) }
{
    if end <= size {
        return None;
    }
    whole_pages(end.saturating_add(SLICED_HEADER))
}
