//! Services that servers declare in a start list.
ghost use Rattle.std.specs.Prelude.{◌≡◌};
ghost use Rattle.own_model.specs.ObjectKinds.{AreObjectKinds};

use crate::name::Name;
use object_kinds::ObjectKind;
use std::marker::Model;

/// A service that a server declares: its name, and the kinds of the objects that its sessions can have.
#[derive(Drop)]
pub struct DeclaredService {
    name: Name,
    kinds: Vec<ObjectKind>,
}

impl Model for DeclaredService {
    ghost use Rattle.own_model.specs.ObjectKinds.{AreObjectKinds};
    ghost use Rattle.list_parser.specs.DeclaredServers.{DeclaredService as Declared};

    ghost Value = { Declared };

    ghost view = { λ service. record { name = service.name; kinds = service.kinds.items } };

    ghost invariant = { λ service. AreObjectKinds service.kinds.items };
}

impl DeclaredService {
    /// Returns the service of a name and its kinds.
    pub(crate) fn new(name: Name, kinds: Vec<ObjectKind>) -> DeclaredService
        requires { AreObjectKinds kinds.items }
        ensures { result ≡ record { name = name; kinds = kinds.items } }
    {
        DeclaredService { name, kinds }
    }

    /// Returns the name of the service.
    pub fn name(&self) -> &Name
        ensures { result.now ≡ self.now.name }
    {
        &self.name
    }

    /// Returns the kinds of the service's objects, 0 to 16.
    pub fn kinds(&self) -> &[ObjectKind]
        ensures kinds { result.now ≡ self.now.kinds }
        ensures each { AreObjectKinds self.now.kinds }
    {
        self.kinds.as_slice()
    }
}
