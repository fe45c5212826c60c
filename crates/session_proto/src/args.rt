//! The arguments with which a client opens or upgrades a session.
ghost use Rattle.std.specs.Prelude.{◌≡◌, ◌≤◌, length, true, None, Some, IfOk, IfErr, OnErr};
ghost use Rattle.std.specs.Option.{option_map, option_copied};
ghost use Rattle.trade_base.specs.declared.refusal.Refusal.TheVariants.{BadArgs};
ghost use Rattle.own_model.specs.Session.{given};
ghost use Rattle.own_model.specs.SessionArgs.{arguments_of, ram_of, caps_of, label_of};
ghost use Rattle.session_proto.specs.View.{model_pair, model_value, plain_pair};
ghost use Rattle.session_proto.specs.Pairs.{known, known_with, with_pair, told};

use crate::pair::{Pair, Value, read_pair};
use crate::plain::{PlainPair, read_plain};
use crate::text::{is_blank, split_piece};
use std::marker::Model;
use trade_base::{Caps, Ram, Refusal, read_amount, read_number};

/// The maximum number of bytes of a label.
const LONGEST_GIVEN: usize = 64;

/// The donation to a session, and the label with which a client requests the session.
#[derive(Drop)]
pub struct SessionArgs<'a> {
    ram: Ram,
    caps: Caps,
    label: &'a [u8],
}

impl<'a> Model for SessionArgs<'a> {
    ghost use Rattle.own_model.specs.SessionArgs.{Arguments};

    ghost Value = { Arguments };

    ghost view = { λ a. record { ram = a.ram.0; caps = a.caps.0; label = a.label.now } };
}

impl<'a> SessionArgs<'a> {
    /// Parses session arguments, or refuses with `BadArgs` if the text does not follow their grammar.
    pub fn read(text: &'a [u8]) -> Result<SessionArgs<'a>, Refusal>
        ensures value { IfOk result (λ args. arguments_of text.now ≡ Some args) }
        ensures refused { IfErr result (λ refusal. refusal ≡ BadArgs) }
        ensures none { OnErr result (arguments_of text.now ≡ None) }
    {
        match read_arguments(text) {
            Some(args) => Ok(args),
            None => Err(Refusal::BadArgs),
        }
    }

    /// Returns the RAM that the arguments donate, in bytes.
    pub fn ram(&self) -> Ram
        ensures { result.0 ≡ self.now.ram }
    {
        self.ram
    }

    /// Returns the number of capabilities that the arguments donate.
    pub fn caps(&self) -> Caps
        ensures { result.0 ≡ self.now.caps }
    {
        self.caps
    }

    /// Returns the label without its quotes, or the empty text if the arguments have none.
    pub fn label(&self) -> &'a [u8]
        ensures { result.now ≡ self.now.label }
    {
        self.label
    }

    /// Returns the label of the session arguments in a text, or the empty label if the text does not follow their
    /// grammar.
    pub fn label_given(text: &'a [u8]) -> &'a [u8]
        ensures label { result.now ≡ (given text.now).label }
        ensures short { length result.now ≤ 64 }
    {
        match SessionArgs::read(text) {
            Ok(args) => args.label(),
            Err(_) => b"",
        }
    }
}

/// Parses session arguments, or returns `None` if the text does not follow their grammar.
fn read_arguments(text: &[u8]) -> Option<SessionArgs<'_>>
    ensures { result ≡ arguments_of text.now }
{
    let mut found = Pairs {
        ram: None,
        caps: None,
        label: None,
    };
    if is_blank(text) {
        return Some(found.arguments());
    }
    let mut rest = Some(text);
    while let Some(pairs) = rest {
        if let Some((pair, more)) = read_plain(pairs) {
            let Some(next) = found.with_plain(pair) else {
                return None;
            };
            found = next;
            rest = more;
            continue;
        }
        let (piece, more) = split_piece(pairs);
        let Some(pair) = read_pair(piece) else {
            return None;
        };
        let Some(next) = found.with(pair) else {
            return None;
        };
        found = next;
        rest = more;
    }
    Some(found.arguments())
}

/// The values of the pairs parsed so far: for each key the value of its first pair.
#[derive(Clone, Copy)]
struct Pairs<'a> {
    ram: Option<Ram>,
    caps: Option<Caps>,
    label: Option<&'a [u8]>,
}

impl<'a> Pairs<'a> {
    /// Adds a pair, unless its key already has a value. Returns `None` if the value is invalid for its key.
    fn with(self, pair: Pair<'a>) -> Option<Pairs<'a>>
        ensures { option_map known result ≡ with_pair (known self.entry) (model_pair pair.entry) }
    {
        if pair.key == b"ram_quota".as_slice() {
            return self.with_ram(pair.value);
        }
        if pair.key == b"cap_quota".as_slice() {
            return self.with_caps(pair.value);
        }
        if pair.key == b"label".as_slice() {
            return self.with_label(pair.value);
        }
        Some(self)
    }

    /// Adds a pair whose key is known, as `with` does.
    #[inline(always)]
    fn with_plain(self, pair: PlainPair<'a>) -> Option<Pairs<'a>>
        ensures { option_map known result ≡ with_pair (known self.entry) (plain_pair pair.entry) }
    {
        match pair {
            PlainPair::Ram(text) => self.with_ram(Value::Bare(text)),
            PlainPair::Caps(text) => self.with_caps(Value::Bare(text)),
            PlainPair::Label(text) => self.with_label(Value::Quoted(text)),
        }
    }

    /// Adds the RAM of a value, unless there is one already.
    #[inline(always)]
    fn with_ram(self, value: Value<'_>) -> Option<Pairs<'a>>
        ensures { option_map known result
            ≡ option_map (λ ram. record (known self.entry) { ram = ram })
            (known_with (known self.entry).ram true ram_of (model_value value.entry)) }
    {
        if self.ram.is_some() {
            return Some(self);
        }
        let Some(ram) = read_ram(value) else {
            return None;
        };
        Some(Pairs {
            ram: Some(ram),
            ..self
        })
    }

    /// Adds the capabilities of a value, unless there are some already.
    #[inline(always)]
    fn with_caps(self, value: Value<'_>) -> Option<Pairs<'a>>
        ensures { option_map known result
            ≡ option_map (λ caps. record (known self.entry) { caps = caps })
            (known_with (known self.entry).caps true caps_of (model_value value.entry)) }
    {
        if self.caps.is_some() {
            return Some(self);
        }
        let Some(caps) = read_caps(value) else {
            return None;
        };
        Some(Pairs {
            caps: Some(caps),
            ..self
        })
    }

    /// Adds the label of a value, unless there is one already.
    #[inline(always)]
    fn with_label(self, value: Value<'a>) -> Option<Pairs<'a>>
        ensures { option_map known result
            ≡ option_map (λ label. record (known self.entry) { label = label })
            (known_with (known self.entry).label true label_of (model_value value.entry)) }
    {
        if self.label.is_some() {
            return Some(self);
        }
        let Some(label) = read_label(value) else {
            return None;
        };
        Some(Pairs {
            label: Some(label),
            ..self
        })
    }

    /// Returns the arguments. A key without a pair has the value 0, or the empty label.
    fn arguments(self) -> SessionArgs<'a>
        ensures { result ≡ told (known self.entry) }
    {
        SessionArgs {
            ram: self.ram.unwrap_or(Ram(0)),
            caps: self.caps.unwrap_or(Caps(0)),
            label: self.label.unwrap_or(&[]),
        }
    }
}

/// Parses RAM: an amount without quotes, in bytes.
fn read_ram(value: Value<'_>) -> Option<Ram>
    ensures { option_map (λ ram. ram.0) result ≡ ram_of (Some (model_value value.entry)) }
{
    match value {
        Value::Bare(text) => match read_amount(text) {
            Some(ram) => Some(Ram(ram)),
            None => None,
        },
        Value::Quoted(_) => None,
    }
}

/// Parses capabilities: a number below 2^32 without quotes.
fn read_caps(value: Value<'_>) -> Option<Caps>
    ensures { option_map (λ caps. caps.0) result ≡ caps_of (Some (model_value value.entry)) }
{
    match value {
        Value::Bare(text) => match u32::try_from(read_number(text)?) {
            Ok(caps) => Some(Caps(caps)),
            Err(_) => None,
        },
        Value::Quoted(_) => None,
    }
}

/// Parses a label: a quoted text of at most 64 bytes.
fn read_label(value: Value<'_>) -> Option<&[u8]>
    ensures { option_copied result ≡ label_of (Some (model_value value.entry)) }
{
    match value {
        Value::Quoted(text) if text.len() <= LONGEST_GIVEN => Some(text),
        _ => None,
    }
}
