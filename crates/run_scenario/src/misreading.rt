//! What isn't understood in a line, as its reply says or by a name in its call.
ghost use Rattle.std.specs.Prelude.{◌≡◌, IfOk};

use crate::near_names::near_component;
use crate::source_line::{JudgedLine, SourceLine};
use crate::unknown_names::{KEYS, is_pair, is_provided, key_of, split_part, unread_key};
use core_calls::Call;
use line_friendly::{can_pass, is_misread, next_word, skip_blanks, trimmed_line};
use line_names::NameTable;
use line_steps::ScenarioCall;
use list_parser::{Binary, ListEntry, StartList};
use run_lines::NamedCall;
use std::alloc::{AllocError, Global};
use text_codec::find_byte;
use text_near_words::{nearest, word_away};
use trade_base::BuiltInService;

/// The words of the requests of a log session.
const LOG_REQUESTS: &[&str] = &["WRITE"];

/// The words of the requests of a file session.
const FILE_REQUESTS: &[&str] = &[
    "CREATE", "WRITE", "READ", "SIZE", "CLEAR", "DROP", "NAME", "STAT", "BUFFER", "UNBUFFER",
    "PUT", "GET",
];

/// The words of the requests of a session of a declared server.
const OBJECT_REQUESTS: &[&str] = &[
    "MAKE", "RESIZE", "DROP", "COUNT", "NAME", "STAT", "BUFFER", "UNBUFFER",
];

/// What a text of a line is meant to be.
#[derive(Clone, Copy)]
enum Meaning {
    /// A call.
    Call,
    /// The path of a component.
    Component,
    /// The path of a script.
    Script,
    /// Session arguments, or a part of them.
    Arguments,
    /// A request of a session.
    Request,
    /// The kind of an object.
    Kind,
    /// A service.
    Service,
    /// The key of a session argument.
    Key,
}

/// A text of a line that isn't understood.
#[derive(Clone, Copy)]
pub(crate) struct Misreading<'a> {
    meaning: Meaning,
    /// The column of the text in the line with the values of its names, from 1 on.
    pub(crate) column: usize,
    /// The text.
    pub(crate) text: &'a [u8],
}

impl<'a> Misreading<'a> {
    /// Returns the text of a line that isn't understood, as its reply says, or else by a name in its call. Returns nothing if there is
    /// none.
    pub(crate) fn of(
        list: &StartList,
        asked: JudgedLine<'a>,
        call: Option<NamedCall<'a>>,
        reply: &[u8],
    ) -> Option<Misreading<'a>> {
        if is_misread(reply) && !can_pass(asked.reply, reply) {
            return Some(Misreading::by_reply(asked.line, call, reply));
        }
        match call {
            Some(said) => Misreading::by_name(list, asked.line, said.call),
            None => None,
        }
    }

    // Returns the text of a line with this call that isn't understood, by the reply.
    fn by_reply(line: &'a [u8], call: Option<NamedCall<'a>>, reply: &[u8]) -> Misreading<'a> {
        let start = trimmed_line(line);
        let (name, _) = next_word(start);
        let (meaning, column, text) = match call {
            Some(said) if reply != b"Bad_line".as_slice() => match said.call {
                Call::CallSession { request, .. } if reply == b"ERR BAD_KIND".as_slice() => {
                    let (kind, _) = next_word(behind_words(request, 1));
                    (Meaning::Kind, column_of(line, behind_words(start, 4)), kind)
                }
                Call::CallSession { request, .. } if reply == b"ERR BAD_REQUEST".as_slice() => {
                    (
                        Meaning::Request,
                        column_of(line, behind_words(start, 3)),
                        request.trim_ascii_end(),
                    )
                }
                Call::Open { args, .. } | Call::Upgrade { args, .. }
                    if reply == b"Bad_args".as_slice() => {
                    of_arguments(column_of(line, behind_words(start, 3)), args)
                }
                Call::Request(args) | Call::Yield(args) if reply == b"Bad_args".as_slice() => {
                    of_arguments(column_of(line, behind_words(start, 2)), args)
                }
                _ => (
                    if reply == b"Not_a_script".as_slice() {
                        Meaning::Script
                    } else {
                        Meaning::Component
                    },
                    column_of(line, start),
                    name,
                ),
            },
            _ => (Meaning::Call, column_of(line, start), start),
        };
        Misreading {
            meaning,
            column,
            text,
        }
    }

    // Returns the service of a line's call that no entry of a list provides, or else its first key that isn't read, if there is one.
    fn by_name(list: &StartList, line: &'a [u8], call: Call<'a>) -> Option<Misreading<'a>> {
        let start = trimmed_line(line);
        let (args, words) = match call {
            Call::Open { service, .. } if !is_provided(list, service) => {
                return Some(Misreading {
                    meaning: Meaning::Service,
                    column: column_of(line, behind_words(start, 2)),
                    text: service,
                });
            }
            Call::Open { args, .. } | Call::Upgrade { args, .. } => (args, 3),
            Call::Request(args) | Call::Yield(args) => (args, 2),
            _ => return None,
        };
        let part = unread_key(args)?;
        let column = column_of(line, behind_words(start, words));
        Some(Misreading {
            meaning: Meaning::Key,
            column: column.saturating_add(before(args, part)),
            text: key_of(part),
        })
    }

    /// Returns the words before the text in a message.
    pub(crate) fn words(self) -> &'static [u8] {
        match self.meaning {
            Meaning::Call => b"expected a call, found",
            Meaning::Component => b"unknown component",
            Meaning::Script => b"expected a script, found the server",
            Meaning::Arguments => form_of_argument(self.text),
            Meaning::Request => b"unknown request",
            Meaning::Kind => b"unknown kind",
            Meaning::Service => b"unknown service",
            Meaning::Key => b"unknown session argument",
        }
    }

    /// Returns the whole message. The error is out of memory.
    fn message(self, alloc: Global, list: &StartList) -> Result<Vec<u8>, AllocError> {
        let mut message = Vec::from_slice(alloc, self.words())?;
        if self.text.is_empty() {
            message.extend_from_slice(b" nothing")?;
            return Ok(message);
        }
        message.extend_from_slice(b" `")?;
        message.extend_from_slice(self.text)?;
        message.extend_from_slice(b"`")?;
        if let Some(near) = self.near(alloc, list) {
            message.extend_from_slice(b"; did you mean `")?;
            message.extend_from_slice(near)?;
            message.extend_from_slice(b"`?")?;
        }
        Ok(message)
    }

    /// Returns the text that may be meant, by a start list. Returns none if the host is out of memory.
    pub(crate) fn near<'l>(self, alloc: Global, list: &'l StartList) -> Option<&'l [u8]> {
        let near = match self.meaning {
            Meaning::Component => return near_component(list, self.text),
            Meaning::Request => near_request(alloc, list, self.text),
            Meaning::Kind => near_kind(alloc, list, self.text),
            Meaning::Service => near_service(alloc, list, self.text),
            Meaning::Key => near_key(alloc, self.text),
            Meaning::Call | Meaning::Script | Meaning::Arguments => return None,
        };
        match near {
            Ok(Some(near)) => Some(near.as_bytes()),
            Ok(None) | Err(AllocError) => None,
        }
    }
}

/// The error of a line that isn't understood.
#[derive(Drop)]
pub struct LineError {
    /// The number of the line, from 1 on.
    pub number: u64,
    /// The column of the error in the line, from 1 on.
    pub column: usize,
    /// The message.
    pub message: Vec<u8>,
}

/// Returns the error of a line whose call isn't understood, by its reply on the machine of a list. `known` are the names that the line
/// was filled with. The error that is returned is out of memory.
pub fn misread_error(
    alloc: Global,
    list: &StartList,
    given: SourceLine<'_>,
    known: &NameTable,
    call: &ScenarioCall<'_>,
    reply: &[u8],
) -> Result<LineError, AllocError>
    ensures { IfOk result (λ error. error.number ≡ given.entry.number) }
{
    let asked = JudgedLine {
        given,
        line: call.filled.line,
        reply: call.reply,
    };
    let Some(found) = Misreading::of(list, asked, call.call, reply) else {
        return Ok(LineError {
            number: given.number,
            column: 1,
            message: Vec::from_slice(alloc, b"expected a call")?,
        });
    };
    Ok(LineError {
        number: given.number,
        column: asked.column(known, found.column),
        message: found.message(alloc, list)?,
    })
}

// Returns the column of the first token in the last bytes of a line, from 1 on.
fn column_of(line: &[u8], rest: &[u8]) -> usize {
    line.len().saturating_sub(skip_blanks(rest).len()) + 1
}

// Returns the text after the first tokens of a text.
fn behind_words(text: &[u8], count: usize) -> &[u8] {
    let mut rest = text;
    for _ in 0..count {
        let (_, behind) = next_word(rest);
        rest = behind;
    }
    rest
}

// Returns the number of bytes between the first token of a text and that of its last bytes.
fn before(text: &[u8], rest: &[u8]) -> usize {
    skip_blanks(text)
        .len()
        .saturating_sub(skip_blanks(rest).len())
}

// Returns the first part of session arguments at a column that isn't read, and its column.
fn of_arguments(column: usize, args: &[u8]) -> (Meaning, usize, &[u8]) {
    let unread = unread_part(args);
    let (part, _) = split_part(unread);
    (
        Meaning::Arguments,
        column.saturating_add(before(args, unread)),
        part.trim_ascii_end(),
    )
}

// Returns session arguments from their first part on that isn't read, without the blanks before it.
fn unread_part(args: &[u8]) -> &[u8] {
    let mut rest = Some(args);
    while let Some(parts) = rest {
        let (part, more) = split_part(parts);
        if !is_pair(part) {
            return skip_blanks(parts);
        }
        rest = more;
    }
    skip_blanks(args)
}

// Returns what is expected in place of a part of session arguments that isn't read.
fn form_of_argument(part: &[u8]) -> &'static [u8] {
    let key = match find_byte(b'=', part) {
        Some(end) => &part[..end],
        None => part,
    };
    if key == b"ram_quota".as_slice() {
        b"expected `ram_quota=N` with an amount of bytes, found"
    } else if key == b"cap_quota".as_slice() {
        b"expected `cap_quota=N` with a number of at most 4294967295, found"
    } else if key == b"label".as_slice() {
        b"expected `label=\"TEXT\"` with at most 64 bytes, found"
    } else {
        b"expected a session argument `KEY=VALUE`, found"
    }
}

// Returns the request at one edit from the first token of a request, among those of the services that a list can provide. The error is
// out of memory.
fn near_request(
    alloc: Global,
    list: &StartList,
    request: &[u8],
) -> Result<Option<&'static str>, AllocError> {
    let (word, _) = next_word(request);
    let mut words = Vec::new(alloc);
    for entry in list.entries() {
        words.extend_from_slice(requests_of(entry))?;
    }
    match str::from_utf8(word) {
        Ok(word) => word_away(alloc, words.as_slice(), 1, word),
        Err(_) => Ok(None),
    }
}

// Returns the service among those that the entries of a list provide that may be meant by another one. The error is out of memory.
fn near_service<'l>(
    alloc: Global,
    list: &'l StartList,
    service: &[u8],
) -> Result<Option<&'l str>, AllocError> {
    let mut words = Vec::new(alloc);
    for entry in list.entries() {
        if let Some(provided) = entry.service()
            && entry.provides()
        {
            words.push(provided)?;
        }
    }
    near_word(alloc, words.as_slice(), service)
}

// Returns the key of session arguments that may be meant by another one. The error is out of memory.
fn near_key(alloc: Global, key: &[u8]) -> Result<Option<&'static str>, AllocError> {
    near_word(alloc, KEYS, key)
}

// Returns the one of these words that may be meant by another text. The error is out of memory.
fn near_word<'l>(
    alloc: Global,
    words: &[&'l str],
    text: &[u8],
) -> Result<Option<&'l str>, AllocError> {
    match str::from_utf8(text) {
        Ok(text) => nearest(alloc, words, text),
        Err(_) => Ok(None),
    }
}

// Returns the words of the requests of the service that an entry can provide, if it is a server's.
fn requests_of(entry: &ListEntry) -> &'static [&'static str] {
    match entry.service() {
        Some(service) if service == BuiltInService::Files.name() => FILE_REQUESTS,
        Some(service) if service == BuiltInService::Log.name() => LOG_REQUESTS,
        Some(_) => OBJECT_REQUESTS,
        None => &[],
    }
}

// Returns the kind among those of a list's servers that may be meant by another one. The error is out of memory.
fn near_kind<'l>(
    alloc: Global,
    list: &'l StartList,
    kind: &[u8],
) -> Result<Option<&'l str>, AllocError> {
    let mut words = Vec::new(alloc);
    for entry in list.entries() {
        add_kinds(&mut words, entry.binary())?;
    }
    near_word(alloc, words.as_slice(), kind)
}

// Adds the names of the kinds that a server declares. The error is out of memory.
fn add_kinds<'l>(words: &mut Vec<&'l str>, binary: &'l Binary) -> Result<(), AllocError> {
    if let Binary::Declared(service) = binary {
        for kind in service.kinds() {
            words.push(kind.name())?;
        }
    }
    Ok(())
}
