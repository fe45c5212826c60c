//! Parsing of lines that make calls.
ghost use Rattle.std.specs.Prelude.{◌≡◌, IfSome, None, Some, [], IfOk, IfErr, OnErr, drop};
ghost use Rattle.std.specs.Option.{option_and_then, option_copied, option_map, unwrap_or};
ghost use Rattle.trade_base.specs.declared.refusal.Refusal.TheVariants.{BadLine};
ghost use Rattle.own_model.specs.Text.{address_of, number_of};
ghost use Rattle.own_model.specs.Call.{call_in, call_of, form_of, forms, name_of, of_none, of_text, of_two, some_bytes_of_hex, parsed_call, Spoken};
ghost use Rattle.own_model.specs.Call.Call.{AttachAt, Peek, Poke, Open, Upgrade, CallSession};
ghost use Rattle.core_calls.specs.Call.{model_call, IsWellFormed};
ghost use Rattle.line_grammar.specs.Read.{IsReadAs, spoken_as};

use core_calls::Call;
use text_codec::{read_address, read_hex, split_first_word, split_name, split_path};
use trade_base::{Refusal, read_number};

/// The longest line that is parsed as a call, in bytes and without its newline.
pub const LONGEST_LINE: usize = 8192;

/// A call with the path of the component that makes it.
#[derive(Clone, Copy)]
pub struct NamedCall<'a> {
    /// The path of the component.
    pub name: &'a [u8],
    /// The call that the component makes.
    pub call: Call<'a>,
}

/// Parses a line. Returns `None` if the line is no call, or is longer than `LONGEST_LINE` bytes.
pub fn call_in(line: &[u8]) -> Option<NamedCall<'_>>
    ensures { IsReadAs line.now result }
{
    if line.len() > LONGEST_LINE {
        return None;
    }
    read_named(line).ok()
}

/// Parses a line of any length into the component's path and the call. Returns `Refusal::BadLine` if the line is no call.
pub fn read_line(line: &[u8]) -> Result<(&[u8], Call<'_>), Refusal>
    ensures value { IfOk result (λ said.
        parsed_call line.now ≡ Some (record { name = said.0.now; call = model_call said.1 })) }
    ensures well_formed { IfOk result (λ said. IsWellFormed said.1) }
    ensures refused { IfErr result (λ refusal. refusal ≡ BadLine) }
    ensures none { OnErr result (parsed_call line.now ≡ None) }
{
    match read_named(line) {
        Ok(said) => Ok((said.name, said.call)),
        Err(refusal) => Err(refusal),
    }
}

/// Parses a line into one value: the call with the path of its component. Returns `Refusal::BadLine` if the line is no call.
pub fn read_named(line: &[u8]) -> Result<NamedCall<'_>, Refusal>
    ensures value { IfOk result (λ said. parsed_call line.now ≡ Some (spoken_as said)) }
    ensures well_formed { IfOk result (λ said. IsWellFormed said.call) }
    ensures refused { IfErr result (λ refusal. refusal ≡ BadLine) }
    ensures none { OnErr result (parsed_call line.now ≡ None) }
{
    let Some((name, Some(text))) = split_path(line) else {
        return Err(Refusal::BadLine);
    };
    match read_call(text) {
        Some(call) => Ok(NamedCall { name, call }),
        None => Err(Refusal::BadLine),
    }
}

/// Parses the call that a form and its arguments make.
fn read_call(text: &[u8]) -> Option<Call<'_>>
    ensures call { option_map model_call result ≡ form_of text.now }
    ensures well_formed { IfSome result IsWellFormed }
{
    let (form, arguments) = split_first_word(text);
    call_from(form, arguments)
}

/// Parses the call of a form by its token. The arguments are the text after the token and a space.
///
/// Each form returns as soon as it is found: a chain of `else if` would copy the call at each form. The forms are tested in
/// their order, in four functions.
fn call_from<'a>(word: &[u8], arguments: Option<&'a [u8]>) -> Option<Call<'a>>
    ensures call { option_map model_call result ≡ call_of word.now (option_copied arguments.entry) }
    ensures well_formed { IfSome result IsWellFormed }
{
    if word == b"alloc".as_slice() {
        return Some(Call::Alloc(number(arguments)?));
    }
    if word == b"free".as_slice() {
        return Some(Call::Free(number(arguments)?));
    }
    if word == b"attach".as_slice() {
        return Some(Call::Attach(number(arguments)?));
    }
    if word == b"attach_at".as_slice() {
        return read_attach_at(arguments?);
    }
    if word == b"detach".as_slice() {
        return Some(Call::Detach(address(arguments)?));
    }
    if word == b"peek".as_slice() {
        return read_peek(arguments?);
    }
    if word == b"poke".as_slice() {
        return read_poke(arguments?);
    }
    block_call_from(word, arguments)
}

/// Parses a call of capabilities or of blocks, or of a later form.
fn block_call_from<'a>(word: &[u8], arguments: Option<&'a [u8]>) -> Option<Call<'a>>
    ensures call { option_map model_call result
        ≡ call_in (drop 7 forms) word.now (option_copied arguments.entry) }
    ensures well_formed { IfSome result IsWellFormed }
{
    if word == b"capalloc".as_slice() {
        return read_none(Call::Capalloc, arguments);
    }
    if word == b"capfree".as_slice() {
        return Some(Call::Capfree(number(arguments)?));
    }
    if word == b"new".as_slice() {
        return Some(Call::New(number(arguments)?));
    }
    if word == b"del".as_slice() {
        return Some(Call::Del(address(arguments)?));
    }
    if word == b"snew".as_slice() {
        return Some(Call::Snew(number(arguments)?));
    }
    if word == b"sdel".as_slice() {
        return Some(Call::Sdel(address(arguments)?));
    }
    session_call_from(word, arguments)
}

/// Parses a call of sessions, or of a later form.
fn session_call_from<'a>(word: &[u8], arguments: Option<&'a [u8]>) -> Option<Call<'a>>
    ensures call { option_map model_call result
        ≡ call_in (drop 13 forms) word.now (option_copied arguments.entry) }
    ensures well_formed { IfSome result IsWellFormed }
{
    if word == b"open".as_slice() {
        return read_open(arguments?);
    }
    if word == b"upgrade".as_slice() {
        return read_upgrade(arguments?);
    }
    if word == b"call".as_slice() {
        return read_session_call(arguments?);
    }
    if word == b"close".as_slice() {
        return Some(Call::Close(number(arguments)?));
    }
    account_call_from(word, arguments)
}

/// Parses a call on the component's own account.
fn account_call_from<'a>(word: &[u8], arguments: Option<&'a [u8]>) -> Option<Call<'a>>
    ensures call { option_map model_call result
        ≡ call_in (drop 17 forms) word.now (option_copied arguments.entry) }
    ensures well_formed { IfSome result IsWellFormed }
{
    if word == b"exit".as_slice() {
        return read_none(Call::Exit, arguments);
    }
    if word == b"quota".as_slice() {
        return read_none(Call::Quota, arguments);
    }
    if word == b"reserve".as_slice() {
        return read_none(Call::Reserve, arguments);
    }
    if word == b"request".as_slice() {
        return Some(Call::Request(text_or_none(arguments)));
    }
    if word == b"yield".as_slice() {
        return Some(Call::Yield(text_or_none(arguments)));
    }
    None
}

/// Parses a number as the only argument.
fn number(arguments: Option<&[u8]>) -> Option<u64>
    ensures { result ≡ option_and_then number_of (option_copied arguments.entry) }
{
    read_number(arguments?)
}

/// Parses an address as the only argument.
fn address(arguments: Option<&[u8]>) -> Option<u64>
    ensures { result ≡ option_and_then address_of (option_copied arguments.entry) }
{
    read_address(arguments?)
}

/// Returns a call without arguments, if there are no arguments.
fn read_none<'a>(call: Call<'a>, arguments: Option<&[u8]>) -> Option<Call<'a>>
    requires { IsWellFormed call }
    ensures call { option_map model_call result
        ≡ of_none (model_call call.entry) (option_copied arguments.entry) }
    ensures well_formed { IfSome result IsWellFormed }
{
    if arguments.is_none() {
        Some(call)
    } else {
        None
    }
}

/// Parses a selector and an address, separated by a space.
fn read_attach_at(arguments: &[u8]) -> Option<Call<'_>>
    ensures call { option_map model_call result
        ≡ of_two AttachAt number_of address_of (Some arguments.now) }
    ensures well_formed { IfSome result IsWellFormed }
{
    let (selector, address) = split_first_word(arguments);
    let selector = read_number(selector)?;
    let address = read_address(address?)?;
    Some(Call::AttachAt { selector, address })
}

/// Parses an address and a count of bytes, separated by a space.
fn read_peek(arguments: &[u8]) -> Option<Call<'_>>
    ensures call { option_map model_call result
        ≡ of_two Peek address_of number_of (Some arguments.now) }
    ensures well_formed { IfSome result IsWellFormed }
{
    let (address, count) = split_first_word(arguments);
    let address = read_address(address)?;
    let count = read_number(count?)?;
    Some(Call::Peek { address, count })
}

/// Parses an address and the hexadecimal digits of at least one byte, separated by a space.
fn read_poke(arguments: &[u8]) -> Option<Call<'_>>
    ensures call { option_map model_call result
        ≡ of_two Poke address_of some_bytes_of_hex (Some arguments.now) }
    ensures well_formed { IfSome result IsWellFormed }
{
    let (address, hex) = split_first_word(arguments);
    let address = read_address(address)?;
    let hex = read_hex(hex?)?;
    Some(Call::Poke { address, hex })
}

/// Parses a service's name and, after a space, the arguments of a session, if there are any.
fn read_open(arguments: &[u8]) -> Option<Call<'_>>
    ensures call { option_map model_call result ≡ of_text Open name_of (Some arguments.now) }
    ensures well_formed { IfSome result IsWellFormed }
{
    let (service, args) = split_name(arguments)?;
    let args = text_or_none(args);
    Some(Call::Open { service, args })
}

/// Parses a selector and, after a space, the arguments of a session, if there are any.
fn read_upgrade(arguments: &[u8]) -> Option<Call<'_>>
    ensures call { option_map model_call result
        ≡ of_text Upgrade number_of (Some arguments.now) }
    ensures well_formed { IfSome result IsWellFormed }
{
    let (selector, args) = split_first_word(arguments);
    let selector = read_number(selector)?;
    let args = text_or_none(args);
    Some(Call::Upgrade { selector, args })
}

/// Parses a selector and, after a space, a request, if there is one.
fn read_session_call(arguments: &[u8]) -> Option<Call<'_>>
    ensures call { option_map model_call result
        ≡ of_text CallSession number_of (Some arguments.now) }
    ensures well_formed { IfSome result IsWellFormed }
{
    let (selector, request) = split_first_word(arguments);
    let selector = read_number(selector)?;
    let request = text_or_none(request);
    Some(Call::CallSession { selector, request })
}

/// Returns the text, or an empty one if it is left out.
fn text_or_none(text: Option<&[u8]>) -> &[u8]
    ensures { result.now ≡ unwrap_or (option_copied text.entry) [] }
{
    text.unwrap_or(b"")
}
