//! A JSON text with other values of some of its members. Every other byte stays.
ghost use Rattle.std.specs.Prelude.{◌≡◌, IfOk, [], string_bytes, unwrap_or};
ghost use Rattle.serde_json.specs.Find.{as_str};
ghost use Rattle.serde_json.specs.View.{view};
ghost use Rattle.budget_least.specs.MemberValues.{innermost, is_between, is_step, leads_to, name_in, next_of, text_with, value_or};
ghost use Rattle.budget_least.specs.ValueWriters.{around_of, arounds_of, step_of, steps_of, values_of};

use serde_json::Value;
use std::alloc::{AllocError, Global};

/// A step from a value of a JSON text to a value in it.
#[derive(Clone, Copy)]
pub(crate) enum JsonStep {
    /// To the member of this name.
    Member(&'static str),
    /// To the element at this place, from 0 on.
    Element(usize),
}

/// A member of a JSON text, by the steps to it, and the text of its new value.
#[derive(Drop)]
pub(crate) struct MemberValue {
    pub(crate) steps: Vec<JsonStep>,
    pub(crate) text: String,
}

/// Returns a JSON text in which each of these members that is a text or a number has its new value. Fails if the host is out of
/// memory.
pub(crate) fn with_values(
    alloc: Global,
    text: &[u8],
    values: &[MemberValue],
) -> Result<Vec<u8>, AllocError>
    ensures { IfOk result (λ written. written.items ≡ text_with (values_of values.now) text.now) }
{
    let mut writer = ValueWriter {
        values,
        written: Vec::new(alloc),
        scalar: Vec::new(alloc),
        quote: Quote::Outside,
        containers: Vec::new(alloc),
    };
    for byte in text {
        writer.take(alloc, *byte)?;
    }
    writer.end_scalar(alloc)?;
    Ok(writer.written)
}

// The relation of a byte to texts in quotes.
#[derive(Clone, Copy)]
enum Quote {
    Outside,
    Inside,
    Escaped,
}

impl Quote {
    ghost use Rattle.std.specs.Prelude.{◌≡◌};
    ghost use Rattle.budget_least.specs.MemberValues.{ends, quote_after};

    // Returns whether a byte is outside of quotes and part of no value.
    fn ends(self, byte: u8) -> bool
        ensures { result ≡ ends self byte }
    {
        match self {
            Quote::Outside => is_between(byte),
            Quote::Inside | Quote::Escaped => false,
        }
    }

    // Returns the relation of the next byte, after this one.
    fn after(self, byte: u8) -> Quote
        ensures { result ≡ quote_after self byte }
    {
        match (self, byte) {
            (Quote::Escaped, _) | (Quote::Outside, b'"') => Quote::Inside,
            (Quote::Inside, b'\\') => Quote::Escaped,
            (Quote::Inside, b'"') => Quote::Outside,
            (quote, _) => quote,
        }
    }
}

// An array or an object whose end isn't reached.
#[derive(Drop)]
enum Container {
    // The place of the next element.
    Array(usize),
    // The name of the member whose value follows, or none before a name.
    Object(Option<String>),
}

// A text that is written again.
#[derive(Drop)]
struct ValueWriter<'v> {
    values: &'v [MemberValue],
    written: Vec<u8>,
    // The bytes of the name, the text or the number that isn't written yet.
    scalar: Vec<u8>,
    quote: Quote,
    containers: Vec<Container>,
}

impl ValueWriter<'_> {
    ghost use Rattle.std.specs.Prelude.{◌≡◌, ◌∷◌, ◌++◌, [], ℕ, List, OnOk, true};
    ghost use Rattle.budget_least.specs.MemberValues.{awaits_name, ends, entered, innermost, replaced, scalar_part, written_for, Part};
    ghost use Rattle.budget_least.specs.MemberValues.Part.{Scalar};
    ghost use Rattle.budget_least.specs.ValueWriters.{around_of, arounds_of, text_after, text_before};

    // Takes the next byte.
    fn take(&mut self, alloc: Global, byte: u8) -> Result<(), AllocError>
        ensures values { self.new.values ≡ self.old.values }
        ensures text { OnOk result ((rest : List ℕ) →
            text_before self.new rest ≡ text_before self.old (byte ∷ rest)) }
    {
        if self.quote.ends(byte) {
            return self.pass(alloc, byte);
        }
        self.quote = self.quote.after(byte);
        self.scalar.push(byte)?;
        Ok(())
    }

    // Takes the next byte, which is between two values.
    fn pass(&mut self, alloc: Global, byte: u8) -> Result<(), AllocError>
        requires { ends self.old.quote byte ≡ true }
        ensures values { self.new.values ≡ self.old.values }
        ensures text { OnOk result ((rest : List ℕ) →
            text_before self.new rest ≡ text_before self.old (byte ∷ rest)) }
    {
        self.end_scalar(alloc)?;
        self.enter(byte)?;
        self.written.push(byte)?;
        Ok(())
    }

    // Ends the name, the text or the number before this place, if there is one.
    fn end_scalar(&mut self, alloc: Global) -> Result<(), AllocError>
        ensures values { self.new.values ≡ self.old.values }
        ensures quote { self.new.quote ≡ self.old.quote }
        ensures ended { OnOk result (self.new.scalar.items ≡ []) }
        ensures text { OnOk result ((rest : List Part) →
            text_after self.new rest ≡ text_after self.old (scalar_part self.old.scalar.items ++ rest)) }
    {
        if self.scalar.is_empty() {
            return Ok(());
        }
        self.write_scalar(alloc)?;
        self.scalar.clear();
        Ok(())
    }

    // Writes the name, the text or the number that has ended, or the new value of its member.
    fn write_scalar(&mut self, alloc: Global) -> Result<(), AllocError>
        ensures values { self.new.values ≡ self.old.values }
        ensures quote { self.new.quote ≡ self.old.quote }
        ensures text { OnOk result ((rest : List Part) →
            text_after self.new rest ≡ text_after self.old (Scalar self.old.scalar.items ∷ rest)) }
    {
        if self.awaits_name() {
            let name = name_of(alloc, self.scalar.as_slice())?;
            self.set_top(Container::Object(Some(name)))?;
            return self.written.extend_from_slice(self.scalar.as_slice());
        }
        let value = value_or(
            self.values,
            self.containers.as_slice(),
            self.scalar.as_slice(),
        );
        self.written.extend_from_slice(value)
    }

    // Returns whether the innermost container is an object whose next member has no name yet.
    fn awaits_name(&self) -> bool
        ensures { result ≡ awaits_name (innermost (arounds_of self.now.containers.items)) }
    {
        matches!(self.containers.last(), Some(Container::Object(None)))
    }

    // Replaces the innermost container.
    #[tactic(auto, using(crate::proofs::ValueLemmas::replaced_by))]
    fn set_top(&mut self, container: Container) -> Result<(), AllocError>
        ensures rest { self.new ≡ record self.old { containers = self.new.containers } }
        ensures containers { OnOk result (arounds_of self.new.containers.items
            ≡ replaced (arounds_of self.old.containers.items) (around_of container)) }
    {
        if self.containers.pop().is_some() {
            self.containers.push(container)?;
        }
        Ok(())
    }

    // Enters or leaves a container, or passes to its next value, by a byte between two values.
    fn enter(&mut self, byte: u8) -> Result<(), AllocError>
        ensures rest { self.new ≡ record self.old { containers = self.new.containers } }
        ensures containers { OnOk result (arounds_of self.new.containers.items
            ≡ entered (arounds_of self.old.containers.items) byte) }
    {
        match byte {
            b'{' => self.containers.push(Container::Object(None))?,
            b'[' => self.containers.push(Container::Array(0))?,
            b'}' | b']' => {
                let _ = self.containers.pop();
            }
            b',' => {
                let next = next_of(self.containers.as_slice());
                self.set_top(next)?;
            }
            _ => {}
        }
        Ok(())
    }
}

// Returns the innermost container at its next value.
fn next_of(containers: &[Container]) -> Container
    ensures { around_of result ≡ next_of (innermost (arounds_of containers.now)) }
{
    match containers.last() {
        Some(Container::Array(place)) => Container::Array(place.saturating_add(1)),
        _ => Container::Object(None),
    }
}

// Returns the text of the new value of the member that is read in containers, or its own.
fn value_or<'v>(values: &'v [MemberValue], containers: &[Container], own: &'v [u8]) -> &'v [u8]
    ensures { result.now ≡ value_or (values_of values.now) (arounds_of containers.now) own.now }
{
    for value in values {
        if leads_to(value.steps.as_slice(), containers) {
            return value.text.as_bytes();
        }
    }
    own
}

// Returns whether steps lead to the value that is read within containers.
fn leads_to(steps: &[JsonStep], containers: &[Container]) -> bool
    ensures { result ≡ leads_to (steps_of steps.now) (arounds_of containers.now) }
{
    if steps.len() != containers.len() {
        return false;
    }
    for place in 0..steps.len() {
        if !is_step(steps[place], &containers[place]) {
            return false;
        }
    }
    true
}

// Returns whether a step leads to the value that is read in a container.
fn is_step(step: JsonStep, container: &Container) -> bool
    ensures { result ≡ is_step (step_of step) (around_of container.now) }
{
    match (step, container) {
        (JsonStep::Member(name), Container::Object(Some(key))) => name == key.as_str(),
        (JsonStep::Element(place), Container::Array(next)) => place == *next,
        _ => false,
    }
}

// Returns whether a byte outside of texts in quotes is part of no value.
fn is_between(byte: u8) -> bool
    ensures { result ≡ is_between byte }
{
    matches!(
        byte,
        b'{' | b'}' | b'[' | b']' | b',' | b':' | b' ' | b'\t' | b'\n' | b'\r'
    )
}

// Returns the name that a text in quotes denotes, or an empty one if it is no text.
fn name_of(alloc: Global, quoted: &[u8]) -> Result<String, AllocError>
    ensures { IfOk result (λ name. string_bytes name ≡ name_in quoted.now) }
{
    match Value::from_slice(alloc, quoted) {
        Ok(value) => Ok(text_of(alloc, value)),
        Err(error) => if error.is_memory() {
            Err(AllocError)
        } else {
            Ok(String::new(alloc))
        },
    }
}

// Returns a text, or an empty one if a value is no text.
fn text_of(alloc: Global, value: Value) -> String
    ensures { string_bytes result ≡ unwrap_or (as_str (view value)) [] }
{
    match value {
        Value::String(text) => text,
        _ => String::new(alloc),
    }
}
