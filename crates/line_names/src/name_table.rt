//! The values of names.
ghost use Rattle.std.specs.Prelude.{◌≡◌, ◌<◌, ◌≤◌, [], length, map, OnErr, OnOk, IfOk};
ghost use Rattle.std.specs.Option.{option_copied};
ghost use Rattle.line_names.specs.NameTable.{entered, left, newest, nothing, value_of, with_bound, with_given};
ghost use Rattle.line_names.specs.Bindings.{binding_of, known_in};

use std::alloc::{AllocError, Global};
use std::marker::Model;

/// A name and its value.
#[derive(Drop)]
pub(crate) struct Binding {
    name: Vec<u8>,
    value: Vec<u8>,
}

/// The values of names: those given from outside, and those bound since, round by round.
#[derive(Drop)]
pub struct NameTable {
    alloc: Global,
    given: Vec<Binding>,
    bound: Vec<Binding>,
    /// The number of bindings at the start of each round that isn't left yet.
    rounds: Vec<usize>,
}

impl Model for NameTable {
    ghost use Rattle.line_names.specs.NameTable.{NameTable};
    ghost use Rattle.line_names.specs.Bindings.{known_in};

    ghost Value = { NameTable };

    ghost view = { λ known. known_in known.given.items known.bound.items known.rounds.items };
}

impl NameTable {
    /// Returns the values before the run: no name has one.
    pub fn new(alloc: Global) -> NameTable
        ensures { result ≡ nothing }
    {
        NameTable {
            alloc,
            given: Vec::new(alloc),
            bound: Vec::new(alloc),
            rounds: Vec::new(alloc),
        }
    }

    /// The same once more.
    pub fn copy(&self, alloc: Global) -> Result<NameTable, AllocError>
        ensures { IfOk result (λ copy. copy ≡ self.now) }
    {
        Ok(NameTable {
            alloc,
            given: copy_bindings(alloc, self.given.as_slice())?,
            bound: copy_bindings(alloc, self.bound.as_slice())?,
            rounds: Vec::from_slice(alloc, self.rounds.as_slice())?,
        })
    }

    /// Returns the value of a name: the given one, or else the newest that is bound to it.
    pub fn value(&self, name: &[u8]) -> Option<&[u8]>
        ensures { option_copied result ≡ value_of self.now name.now }
    {
        match newest(self.given.as_slice(), name) {
            Some(value) => Some(value),
            None => newest(self.bound.as_slice(), name),
        }
    }

    /// Gives a name a value from outside, which has precedence over all bindings of the name. The error is that the host is out
    /// of memory.
    pub fn give(&mut self, name: &[u8], value: &[u8]) -> Result<(), AllocError>
        ensures given { OnOk result (self.new ≡ with_given self.old name.now value.now) }
        ensures short { OnErr result (self.new ≡ self.old) }
    {
        let binding = make_binding(self.alloc, name, value)?;
        self.given.push(binding)?;
        Ok(())
    }

    /// Binds a name to a value until the innermost round ends. The error is that the host is out of memory.
    pub fn bind(&mut self, name: &[u8], value: &[u8]) -> Result<(), AllocError>
        ensures bound { OnOk result (self.new ≡ with_bound self.old name.now value.now) }
        ensures short { OnErr result (self.new ≡ self.old) }
    {
        let binding = make_binding(self.alloc, name, value)?;
        self.bound.push(binding)?;
        Ok(())
    }

    /// Begins a round, whose bindings end with it. The error is that the host is out of memory.
    pub fn enter(&mut self) -> Result<(), AllocError>
        ensures entered { OnOk result (self.new ≡ entered self.old) }
        ensures short { OnErr result (self.new ≡ self.old) }
    {
        let count = self.bound.len();
        self.rounds.push(count)?;
        Ok(())
    }

    /// Ends the innermost round, and removes its bindings. Outside of rounds it does nothing.
    #[tactic(auto, using(crate::proofs::KnownLemmas::left_behind))]
    pub fn leave(&mut self)
        ensures { self.new ≡ left self.old }
    {
        if let Some(count) = self.rounds.pop() {
            self.bound.truncate(count);
        }
    }
}

// Returns a name with its value.
fn make_binding(alloc: Global, name: &[u8], value: &[u8]) -> Result<Binding, AllocError>
    ensures name { IfOk result (λ binding. binding.name.items ≡ name.now) }
    ensures value { IfOk result (λ binding. binding.value.items ≡ value.now) }
{
    Ok(Binding {
        name: Vec::from_slice(alloc, name)?,
        value: Vec::from_slice(alloc, value)?,
    })
}

// Bindings once more.
fn copy_bindings(alloc: Global, bindings: &[Binding]) -> Result<Vec<Binding>, AllocError>
    ensures { IfOk result (λ copies. map binding_of copies.items ≡ map binding_of bindings.now) }
{
    let mut copies = Vec::new(alloc);
    for binding in bindings {
        copies.push(make_binding(alloc, &binding.name, &binding.value)?)?;
    }
    Ok(copies)
}

// Returns the value of the newest binding of a name.
#[tactic(auto, using(crate::proofs::KnownLemmas::newests))]
fn newest<'a>(bindings: &'a [Binding], name: &[u8]) -> Option<&'a [u8]>
    ensures { option_copied result ≡ newest name.now (map binding_of bindings.now) }
{
    let mut at = bindings.len();
    while at > 0 {
        at -= 1;
        let binding = &bindings[at];
        if binding.name.as_slice() == name {
            return Some(binding.value.as_slice());
        }
    }
    None
}
