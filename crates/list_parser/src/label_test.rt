//! Tests of labels: what a rule asks of the label that a client gives.
ghost use Rattle.std.specs.Prelude.{◌≡◌, nat_eq, string_bytes, IfOk};
ghost use Rattle.std.specs.List.{starts_with, ends_with};
ghost use Rattle.std.specs.Str.{bytes_eq};
ghost use Rattle.std.specs.Option.{option_map, option_copied};
ghost use Rattle.own_model.specs.Routes.{as_asked};
ghost use Rattle.list_parser.specs.Labels.{asked_of, passes};

use std::alloc::{AllocError, Global};
use std::marker::Model;

/// A test of a label: the whole label, how it begins, and how it ends, each if it is asked for.
#[derive(Drop)]
pub struct LabelTest {
    whole: Option<String>,
    prefix: Option<String>,
    suffix: Option<String>,
}

impl Model for LabelTest {
    ghost use Rattle.std.specs.Prelude.{string_bytes};
    ghost use Rattle.std.specs.Option.{option_map};
    ghost use Rattle.list_parser.specs.Labels.{AskedLabel};

    ghost Value = { AskedLabel };

    ghost view = { λ test. record {
      whole = option_map string_bytes test.whole;
      prefix = option_map string_bytes test.prefix;
      suffix = option_map string_bytes test.suffix;
    } };
}

impl LabelTest {
    /// Copies the texts of a test. Returns an error if the host is out of memory.
    pub(crate) fn new(
        alloc: Global,
        whole: Option<&str>,
        prefix: Option<&str>,
        suffix: Option<&str>,
    ) -> Result<LabelTest, AllocError>
        ensures { IfOk result (λ test. test ≡ asked_of
            (option_copied whole.entry)
            (option_copied prefix.entry)
            (option_copied suffix.entry)) }
    {
        Ok(LabelTest {
            whole: copied(alloc, whole)?,
            prefix: copied(alloc, prefix)?,
            suffix: copied(alloc, suffix)?,
        })
    }

    /// Copies the test with all its texts. Returns an error if the host is out of memory.
    pub fn copy(&self, alloc: Global) -> Result<LabelTest, AllocError>
        ensures { IfOk result (λ copy. copy ≡ self.now) }
    {
        LabelTest::new(alloc, self.whole(), self.prefix(), self.suffix())
    }

    /// Returns whether a label passes all parts of the test.
    pub fn holds(&self, label: &[u8]) -> bool
        ensures { result ≡ passes self.now label.now }
    {
        self.is_whole(label) && self.begins(label) && self.ends(label)
    }

    /// Returns whether a text is the whole label of the test, if there is one.
    fn is_whole(&self, text: &[u8]) -> bool
        ensures { result ≡ as_asked (bytes_eq text.now) self.now.whole }
    {
        match &self.whole {
            Some(asked) => text == asked.as_str().as_bytes(),
            None => true,
        }
    }

    /// Returns whether a text begins as the test asks.
    pub fn begins(&self, text: &[u8]) -> bool
        ensures { result ≡ as_asked (starts_with nat_eq text.now) self.now.prefix }
    {
        match &self.prefix {
            Some(asked) => text.starts_with(asked.as_str().as_bytes()),
            None => true,
        }
    }

    /// Returns whether a text ends as the test asks.
    pub fn ends(&self, text: &[u8]) -> bool
        ensures { result ≡ as_asked (ends_with nat_eq text.now) self.now.suffix }
    {
        match &self.suffix {
            Some(asked) => text.ends_with(asked.as_str().as_bytes()),
            None => true,
        }
    }

    /// Returns the whole label that the test asks for, if any.
    pub(crate) fn whole(&self) -> Option<&str>
        ensures { option_copied result ≡ self.now.whole }
    {
        text_of(&self.whole)
    }

    /// Returns how a label must begin, if the test asks for it.
    pub(crate) fn prefix(&self) -> Option<&str>
        ensures { option_copied result ≡ self.now.prefix }
    {
        text_of(&self.prefix)
    }

    /// Returns how a label must end, if the test asks for it.
    pub(crate) fn suffix(&self) -> Option<&str>
        ensures { option_copied result ≡ self.now.suffix }
    {
        text_of(&self.suffix)
    }
}

/// Returns the text, if there is one.
fn text_of(text: &Option<String>) -> Option<&str>
    ensures { option_copied result ≡ option_map string_bytes text.now }
{
    match text {
        Some(text) => Some(text.as_str()),
        None => None,
    }
}

/// Copies a text, if there is one, in exactly its size.
fn copied(alloc: Global, text: Option<&str>) -> Result<Option<String>, AllocError>
    ensures { IfOk result (λ copy. option_map string_bytes copy ≡ option_copied text.entry) }
{
    match text {
        Some(text) => Ok(Some(String::from_str(alloc, text)?)),
        None => Ok(None),
    }
}
