//! The objects of a session of a declared server, as far as the tests of its requests depend on them.
ghost use Rattle.std.specs.Prelude.{◌≡◌, ◌<◌, ◌^◌, ◌∷◌, ◌++◌, [], length, position, IfOk, IfSome, OnOk};
ghost use Rattle.std.specs.Option.{option_copied};
ghost use Rattle.own_model.specs.Growth.{Shape};
ghost use Rattle.own_model.specs.Nodes.{with_first, without_first};
ghost use Rattle.own_model.specs.ObjectKinds.{kind_named};
ghost use Rattle.session_proto.specs.Objects.{model_request};
ghost use Rattle.budget_meter.specs.NeededAmounts.{amount_tests};
ghost use Rattle.budget_meter.specs.ObjectSizes.{has_name, new_size, size_named, with_size};
ghost use Rattle.budget_meter.specs.ObjectTests.{sizes_after, units_tests};

use crate::budget::Budget;
use crate::needed_amounts::sliced_pages;
use crate::outcomes::is_granted;
use core_calls::Answer;
use object_kinds::{ObjectKind, copy_kinds};
use session_proto::ObjectRequest;
use std::alloc::{AllocError, Global};
use std::marker::Model;

// An object of a session.
#[derive(Drop)]
struct ObjectSize {
    name: Vec<u8>,
    // The number of bytes of a unit.
    bytes: u16,
    units: u64,
}

impl Model for ObjectSize {
    ghost use Rattle.budget_meter.specs.ObjectSizes as sizes;

    ghost Value = { sizes.ObjectSize };

    ghost view = { λ object. record {
      name = object.name.items;
      bytes = object.bytes;
      units = object.units;
    } };
}

/// The kinds that a server offers, and the objects of a session in the order of their creation, by name and size.
#[derive(Drop)]
pub(crate) struct ObjectSizes {
    kinds: Vec<ObjectKind>,
    objects: Vec<ObjectSize>,
}

impl Model for ObjectSizes {
    ghost use Rattle.budget_meter.specs.ObjectSizes.{KnownObjects};

    ghost Value = { KnownObjects };

    ghost view = { λ sizes. record {
      kinds = sizes.kinds.items;
      objects = sizes.objects.items;
    } };
}

impl ObjectSizes {
    /// Returns the sizes of a new session of a server that offers these kinds. Returns an error if the host is out of memory.
    pub(crate) fn new(alloc: Global, kinds: &[ObjectKind]) -> Result<ObjectSizes, AllocError>
        ensures { IfOk result (λ sizes. sizes ≡ record { kinds = kinds.now; objects = [] }) }
    {
        Ok(ObjectSizes {
            kinds: copy_kinds(alloc, kinds)?,
            objects: Vec::new(alloc),
        })
    }

    /// Returns the kind that has a name, if there is one.
    pub(crate) fn kind(&self, name: &[u8]) -> Option<&ObjectKind>
        ensures { option_copied result ≡ kind_named name.now self.now.kinds }
    {
        self.kinds
            .iter()
            .find(|kind| kind.name().as_bytes() == name)
    }

    /// Returns the amounts that the contents of so many units of an object need, if it is there and has other units.
    pub(crate) fn resized(&self, name: &[u8], units: u64) -> Option<Budget>
        ensures { amount_tests result ≡ units_tests units (size_named name.now self.now.objects) }
    {
        let object = self.object(name)?;
        if object.units == units {
            return None;
        }
        sliced_pages(units.checked_mul(u64::from(object.bytes))?)
    }

    /// Records the effect of an answered request on the objects. Returns an error if the host is out of memory.
    pub(crate) fn keep(
        &mut self,
        alloc: Global,
        request: ObjectRequest<'_>,
        reply: Answer<'_>,
    ) -> Result<(), AllocError>
        ensures { OnOk result (self.new ≡ record self.old {
          objects = sizes_after self.old.kinds (Some (model_request request.entry)) reply.entry.text.now self.old.objects;
        }) }
    {
        if !is_granted(reply) {
            return Ok(());
        }
        match request {
            ObjectRequest::Make { kind, name } => self.add(alloc, kind, name)?,
            ObjectRequest::Resize { name, units } => self.set_units(name, units),
            ObjectRequest::Drop(name) => self.remove(name),
            _ => (),
        }
        Ok(())
    }

    // Adds an object without units, if there is its kind.
    fn add(&mut self, alloc: Global, kind: &[u8], name: &[u8]) -> Result<(), AllocError>
        ensures { OnOk result (self.new ≡ record self.old {
          objects = self.old.objects ++ new_size (kind_named kind.now self.old.kinds) name.now;
        }) }
    {
        let Some(kind) = self.kind(kind) else {
            return Ok(());
        };
        let bytes = kind.bytes();
        let mut kept = Vec::new(alloc);
        kept.extend_from_slice(name)?;
        self.objects.push(ObjectSize {
            name: kept,
            bytes,
            units: 0,
        })?;
        Ok(())
    }

    // Sets the units of the object that has a name, if there is one.
    fn set_units(&mut self, name: &[u8], units: u64)
        ensures { self.new ≡ record self.old {
          objects = with_first (has_name name.now) (with_size units) self.old.objects;
        } }
    {
        if let Some(place) = self.place(name) {
            self.objects[place].units = units;
        }
    }

    // Removes the object that has a name, if there is one.
    fn remove(&mut self, name: &[u8])
        ensures { self.new ≡ record self.old {
          objects = without_first (has_name name.now) self.old.objects;
        } }
    {
        if let Some(place) = self.place(name) {
            let _ = self.objects.remove(place);
        }
    }

    // The object that has a name.
    fn object(&self, name: &[u8]) -> Option<&ObjectSize>
        ensures { option_copied result ≡ size_named name.now self.now.objects }
    {
        self.objects
            .iter()
            .find(|object| object.name.as_slice() == name)
    }

    // The place of the object that has a name.
    fn place(&self, name: &[u8]) -> Option<usize>
        ensures place { result ≡ position (has_name name.now) self.now.objects }
        ensures within { IfSome result (λ place. place < length self.now.objects) }
    {
        self.objects
            .iter()
            .position(|object| object.name.as_slice() == name)
    }
}
