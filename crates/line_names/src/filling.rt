//! Lines that are filled with the values of their names.
ghost use Rattle.std.specs.Prelude.{◌≡◌, ◌+◌, ◌-◌, ◌<◌, ◌≤◌, ◌^◌, ◌==◌, [], drop, false, length, map, position, slice_index, IfOk, IfSome};
ghost use Rattle.std.specs.List.{position_or_len};
ghost use Rattle.std.specs.Option.{unwrap_or};
ghost use Rattle.line_names.specs.Filling.{body_of, filled, filled_from, filled_parts, front_length, is_directive, is_dollar, is_log, piece_at, source_column, source_from, stays, step_of, with_piece};
ghost use Rattle.line_names.specs.Views.{done_seen, filled_seen, hole_view, made_seen, made_view, piece_view, step_seen, zone_view};

use crate::bound_names::{BindingZone, BoundName, BoundNames, keep_bound_name, made_length};
use crate::fault::{NameFault, NameReason};
use crate::name_table::NameTable;
use crate::pieces::{Piece, piece_of};
use crate::texts::behind;
use line_friendly::{LineBuffer, arrow_of, end_of, trimmed_line};
use text_codec::find_byte;

/// A line with the values of its names. It has a star for each name that the reply binds.
#[derive(Drop)]
pub struct FilledLine<'a> {
    /// The line.
    pub line: &'a [u8],
    /// The part of the line that is the expected reply, if the reply is to bind names.
    pub expected: &'a [u8],
    /// The names that the reply binds.
    pub holes: BoundNames<'a>,
}

/// Fills a line with the values of its names, in `room` if it has names. The comment after a call is removed. A comment line, and
/// a line for the engine, stay unchanged. The error is the first fault of a name.
pub fn fill<'a>(
    line: &'a [u8],
    known: &NameTable,
    room: &'a mut LineBuffer,
) -> Result<FilledLine<'a>, NameFault>
    ensures { filled_seen result ≡ filled known.now line.now }
{
    if stays(line) {
        return Ok(FilledLine {
            line,
            expected: b"",
            holes: BoundNames::new(),
        });
    }
    fill_parts(front_length(line), body_of(line), known, room)
}

/// Returns the column of a line at which the source of the text at a column of the filled line begins. `known` must hold the
/// names with which the line was filled.
pub fn source_column(line: &[u8], known: &NameTable, column: usize) -> usize
    ensures { result ≡ source_column known.now line.now column }
{
    if stays(line) {
        column
    } else {
        1 + source_place(body_of(line), known, column.saturating_sub(1))
    }
}

// Returns whether a line stays unchanged.
fn stays(line: &[u8]) -> bool
    ensures { result ≡ stays line.now }
{
    // Most lines have no `$`.
    if find_byte(b'$', line).is_none() {
        return true;
    }
    matches!(trimmed_line(line).first(), Some(b'!' | b'#'))
}

// Returns the part of a line that is filled: a log line whole, and any other line up to its comment.
fn body_of(line: &[u8]) -> &[u8]
    ensures value { result.now ≡ body_of line.now }
    ensures within { length result.now ≤ length line.now }
{
    if is_log(line) {
        line
    } else {
        &line[..end_of(line)]
    }
}

// Returns the number of bytes before the expected reply.
fn front_length(line: &[u8]) -> usize
    ensures value { result ≡ front_length line.now }
    ensures within { result ≤ length (body_of line.now) }
{
    let body = body_of(line);
    if is_log(line) || is_directive(line) {
        return body.len();
    }
    match arrow_of(body) {
        Some(place) => place + 4,
        None => body.len(),
    }
}

// Returns whether a line expects a log line.
fn is_log(line: &[u8]) -> bool
    ensures { result ≡ is_log line.now }
{
    trimmed_line(line).starts_with(b"=> ")
}

// Returns whether the first character of a line is `@`.
pub(crate) fn is_directive(line: &[u8]) -> bool
    ensures { result ≡ is_directive line.now }
{
    trimmed_line(line).first() == Some(&b'@')
}

// Fills a line, whose first bytes are a call and whose other bytes are the expected reply.
fn fill_parts<'a>(
    count: usize,
    body: &'a [u8],
    known: &NameTable,
    room: &'a mut LineBuffer,
) -> Result<FilledLine<'a>, NameFault>
    requires { count ≤ length body.now }
    ensures { filled_seen result ≡ filled_parts known.now count body.now }
{
    let mut holes = BoundNames::new();
    let (front, expected) = body.split_at(count);
    room.clear();
    fill_text(
        front,
        known,
        BindingZone { limit: 0, start: 0 },
        0,
        room,
        &mut holes,
    )?;
    let start = made_length(room);
    let limit = count + quote_place(expected);
    fill_text(
        expected,
        known,
        BindingZone { limit, start },
        count,
        room,
        &mut holes,
    )?;
    let line = text_of(room);
    Ok(FilledLine {
        line,
        expected: behind(line, start),
        holes,
    })
}

// Returns the line in the buffer.
fn text_of(room: &LineBuffer) -> &[u8]
    ensures { result.now ≡ unwrap_or room.now [] }
{
    match room.text() {
        Some(text) => text,
        None => b"",
    }
}

// Returns the place of the first quote of a text, or its end.
#[tactic(auto, using(line_friendly::proofs::WordLemmas::places))]
fn quote_place(text: &[u8]) -> usize
    ensures value { result ≡ position_or_len (λ b. b == 34) text.now }
    ensures within { result ≤ length text.now }
{
    match find_byte(b'"', text) {
        Some(place) => place,
        None => text.len(),
    }
}

// Fills a text at a place of a line.
#[tactic(auto, using(crate::proofs::FillLemmas::fills))]
fn fill_text<'a>(
    text: &'a [u8],
    known: &NameTable,
    zone: BindingZone,
    place: usize,
    room: &mut LineBuffer,
    holes: &mut BoundNames<'a>,
) -> Result<(), NameFault>
    requires { place + length text.now < 2 ^ 64 }
    ensures { made_seen result room.new holes.new.items ≡ filled_from known.now (zone_view zone) 0
        place (made_view room.old holes.old.items) text.now }
{
    let mut at = 0;
    while at < text.len() {
        let rest = behind(text, at);
        match put_next(rest, known, zone, place + at, room, holes) {
            Ok(size) => at += size,
            Err(reason) => {
                return Err(NameFault {
                    reason,
                    column: place + at + 1,
                });
            }
        }
    }
    Ok(())
}

// Appends the result of the piece at the front of a text, and returns how many bytes the piece has.
fn put_next<'a>(
    text: &'a [u8],
    known: &NameTable,
    zone: BindingZone,
    place: usize,
    room: &mut LineBuffer,
    holes: &mut BoundNames<'a>,
) -> Result<usize, NameReason>
    requires { 0 < length text.now }
    ensures value { step_seen result room.new holes.new.items ≡ step_of known.now (zone_view zone)
        place (made_view room.old holes.old.items) text.now }
    ensures size { IfOk result (λ size. size ≡ (piece_at known.now text.now).size) }
    ensures some { IfOk result (λ size. 1 ≤ size) }
    ensures within { IfOk result (λ size. size ≤ length text.now) }
{
    let piece = piece_of(text, known)?;
    put_piece(&piece, zone, place, room, holes)?;
    Ok(piece.size)
}

// Appends the result of a piece at a place of a line.
fn put_piece<'a>(
    piece: &Piece<'a, '_>,
    zone: BindingZone,
    place: usize,
    room: &mut LineBuffer,
    holes: &mut BoundNames<'a>,
) -> Result<(), NameReason>
    ensures { done_seen result room.new holes.new.items ≡ with_piece (zone_view zone) place
        (made_view room.old holes.old.items) (piece_view piece.now) }
{
    keep_bound_name(holes, zone, place, room, piece.hole)?;
    room.put(piece.text.bytes());
    match room.text() {
        Some(_) => Ok(()),
        None => Err(NameReason::TooLong),
    }
}

// Returns how many bytes of a text are before the source of the byte at a place of the filled text.
#[tactic(auto, using(crate::proofs::FillLemmas::sources))]
fn source_place(text: &[u8], known: &NameTable, place: usize) -> usize
    ensures value { result ≡ source_from known.now 0 place text.now }
    ensures within { result ≤ length text.now }
{
    let mut at = 0;
    let mut left = place;
    while at < text.len() {
        let (length, size) = piece_lengths(behind(text, at), known);
        if left < length {
            return if text[at] == b'$' { at } else { at + left };
        }
        left -= length;
        at += size;
    }
    at
}

// Returns how many bytes the piece at the front of a text gives, and how many it has.
fn piece_lengths(text: &[u8], known: &NameTable) -> (usize, usize)
    requires { 0 < length text.now }
    ensures length { result.0 ≡ length (piece_at known.now text.now).text }
    ensures size { result.1 ≡ (piece_at known.now text.now).size }
    ensures some { 1 ≤ result.1 }
    ensures within { result.1 ≤ length text.now }
    ensures kept { is_dollar (slice_index text.now 0) ≡ false → result.0 ≤ result.1 }
{
    match piece_of(text, known) {
        Ok(piece) => (piece.text.bytes().len(), piece.size),
        Err(_) => (0, 1),
    }
}
