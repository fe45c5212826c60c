//! The lines of a scenario with other donations.
ghost use Rattle.std.specs.Prelude.{◌≡◌, ◌++◌, ◌≤◌, drop, length, IfOk, OnOk};
ghost use Rattle.budget_least.specs.WrittenDonation.{args_of, before_arrow, blank_before, call_of, call_with, can_donate, donation_pairs, ends_pair, is_donation, kept_pair, kept_pairs, line_with, quoted_after, without_blanks};

use budget_meter::Budget;
use line_friendly::{arrow_of, end_of, is_passed, next_word, skip_blanks, trimmed_line};
use std::alloc::{AllocError, Global};
use text_codec::find_byte;

/// Returns whether the donation of a line can be written: the line opens a session, in words without names.
pub(crate) fn can_donate(line: &[u8]) -> bool
    ensures { result ≡ can_donate line.now }
{
    let (_, rest) = next_word(trimmed_line(line));
    let (call, rest) = next_word(rest);
    let (service, _) = next_word(rest);
    call == b"open".as_slice() && !service.is_empty() && find_byte(b'$', service).is_none()
}

/// Returns a line that opens a session with another donation: its pairs come before those of the line, which are kept except for
/// donations. The error is that the host is out of memory.
pub(crate) fn with_donation(
    alloc: Global,
    line: &[u8],
    donation: Budget,
) -> Result<Vec<u8>, AllocError>
    ensures { IfOk result (λ told. told.items
        ≡ line_with (record { ram = donation.ram; caps = donation.caps }) line.now) }
{
    let call = call_of(line);
    let mut told = call_with(alloc, call, donation)?;
    told.extend_from_slice(&line[call.len()..])?;
    Ok(told)
}

// Returns a call with another donation.
fn call_with(alloc: Global, call: &[u8], donation: Budget) -> Result<Vec<u8>, AllocError>
    ensures { IfOk result (λ told. told.items
        ≡ call_with (record { ram = donation.ram; caps = donation.caps }) call.now) }
{
    let args = args_of(call);
    let mut told = Vec::from_slice(alloc, &call[..call.len() - args.len()])?;
    told.extend_from_slice(blank_before(args))?;
    let (ram, caps) = (donation.ram, donation.caps);
    let pairs = format!(in alloc; "ram_quota={ram}, cap_quota={caps}")?;
    told.extend_from_slice(pairs.as_bytes())?;
    add_others(&mut told, args)?;
    Ok(told)
}

// Returns the blank before arguments that a call doesn't have yet.
fn blank_before(args: &[u8]) -> &'static [u8]
    ensures { result.now ≡ blank_before args.now }
{
    if args.is_empty() { b" " } else { b"" }
}

// Returns the part of a line up to the end of its call, without the blanks there.
fn call_of(line: &[u8]) -> &[u8]
    ensures value { result.now ≡ call_of line.now }
    ensures within { length result.now ≤ length line.now }
{
    if is_passed(line) {
        without_blanks(line)
    } else {
        without_blanks(before_arrow(&line[..end_of(line)]))
    }
}

// Returns a text without the white space at its end.
fn without_blanks(text: &[u8]) -> &[u8]
    ensures value { result.now ≡ without_blanks text.now }
    ensures within { length result.now ≤ length text.now }
{
    text.trim_ascii_end()
}

// Returns a text up to its last arrow outside of quotes, if there is one.
fn before_arrow(text: &[u8]) -> &[u8]
    ensures value { result.now ≡ before_arrow text.now }
    ensures within { length result.now ≤ length text.now }
{
    match arrow_of(text) {
        Some(place) => &text[..place],
        None => text,
    }
}

// Returns the arguments at the end of a call that opens a session.
fn args_of(call: &[u8]) -> &[u8]
    ensures value { result.now ≡ args_of call.now }
    ensures within { length result.now ≤ length call.now }
{
    let (_, rest) = next_word(trimmed_line(call));
    let (_, rest) = next_word(rest);
    let (_, rest) = next_word(rest);
    skip_blanks(rest)
}

// Adds the pairs of arguments, except for donations.
fn add_others(told: &mut Vec<u8>, args: &[u8]) -> Result<(), AllocError>
    ensures { OnOk result (told.new.items ≡ told.old.items ++ kept_pairs args.now) }
{
    let mut start = 0;
    let mut is_quoted = false;
    for place in 0..args.len() {
        let byte = args[place];
        if ends_pair(is_quoted, byte) {
            add_other(told, &args[start..place])?;
            start = place + 1;
        } else {
            is_quoted = quoted_after(is_quoted, byte);
        }
    }
    add_other(told, &args[start..])
}

// Returns whether a byte is a comma between two pairs.
fn ends_pair(is_quoted: bool, byte: u8) -> bool
    ensures { result ≡ ends_pair is_quoted byte }
{
    byte == b',' && !is_quoted
}

// Returns whether what follows a byte is in quotes.
fn quoted_after(is_quoted: bool, byte: u8) -> bool
    ensures { result ≡ quoted_after is_quoted byte }
{
    if byte == b'"' { !is_quoted } else { is_quoted }
}

// Adds a pair, unless it is a donation or nothing.
fn add_other(told: &mut Vec<u8>, pair: &[u8]) -> Result<(), AllocError>
    ensures { OnOk result (told.new.items ≡ told.old.items ++ kept_pair pair.now) }
{
    let pair = skip_blanks(pair);
    if pair.is_empty() || is_donation(pair) {
        return Ok(());
    }
    told.extend_from_slice(b", ")?;
    told.extend_from_slice(pair)
}

// Returns whether a pair is part of a donation.
fn is_donation(pair: &[u8]) -> bool
    ensures { result ≡ is_donation pair.now }
{
    pair.starts_with(b"ram_quota=") || pair.starts_with(b"cap_quota=")
}
