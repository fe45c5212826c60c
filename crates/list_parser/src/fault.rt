//! The faults with which a machine does not boot.
ghost use Rattle.std.specs.Prelude.{◌≡◌};
ghost use Rattle.list_parser.specs.declared.fault.BootFault.TheVariants.{NoMemory};

use crate::name::{Name, Path};
use std::alloc::{AllocError, AllocFailed};
use std::fmt;
use thiserror::Error;
use trade_base::NoMemory as WantOfRoom;

/// The member of a start list that has a bad value.
#[derive(Clone, Copy, Debug, PartialEq, Eq)]
pub enum ConfigField {
    /// The text's length.
    Size,
    /// The machine.
    Machine,
    /// The machine's pages.
    Pages,
    /// The capabilities of the machine or of an entry.
    Caps,
    /// The rules for entries without a route of their own.
    DefaultRoute,
    /// The list of entries, or an entry that is no object.
    Start,
    /// An entry's name.
    Name,
    /// The binary that an entry runs.
    Binary,
    /// An entry's RAM.
    Quantum,
    /// The services that an entry provides.
    Provides,
    /// An entry's own rules.
    Route,
    /// The RAM of an entry's reserve.
    Reserve,
    /// The capabilities of an entry's reserve.
    ReserveCaps,
    /// The configuration of an entry that is an init.
    Config,
    /// The kinds of objects that a server declares.
    Kinds,
}

impl ConfigField {
    ghost use Rattle.list_parser.specs.FaultPlace.{member_of};

    /// Returns the name of the member, as the fault prints it.
    pub fn as_str(self) -> &'static str
        ensures { result.now ≡ member_of self }
    {
        match self {
            ConfigField::Size => "size",
            ConfigField::Machine => "machine",
            ConfigField::Pages => "pages",
            ConfigField::Caps => "caps",
            ConfigField::DefaultRoute => "default-route",
            ConfigField::Start => "start",
            ConfigField::Name => "name",
            ConfigField::Binary => "binary",
            ConfigField::Quantum => "quantum",
            ConfigField::Provides => "provides",
            ConfigField::Route => "route",
            ConfigField::Reserve => "reserve",
            ConfigField::ReserveCaps => "reserve-caps",
            ConfigField::Config => "config",
            ConfigField::Kinds => "kinds",
        }
    }
}

impl fmt::Display for ConfigField {
    fn fmt<W: fmt::Write>(&self, f: &mut fmt::Formatter<W>) -> fmt::Result {
        f.write_str(self.as_str())
    }
}

/// The fault with which a start list is not read or does not boot.
#[derive(Debug, Drop, Error)]
pub enum BootFault {
    /// The text is not JSON.
    #[error("Bad_json")]
    BadJson,
    /// A member is missing or has a bad value.
    #[error("Bad_config {0}")]
    BadConfig(ConfigField),
    /// An entry has the name of an earlier entry of its list.
    #[error("Duplicate_name {0}")]
    DuplicateName(Name),
    /// An entry runs a binary that does not exist.
    #[error("Unknown_binary {0}")]
    UnknownBinary(Name),
    /// The rest of its init's account does not cover the entry of this path.
    #[error("Quota_exceeded {0}")]
    QuotaExceeded(Path),
    /// The host is out of memory.
    #[error("No_memory")]
    NoMemory,
}

impl From<AllocError> for BootFault {
    ghost from_gives = { λ _ fault. fault ≡ NoMemory };

    fn from(_want: AllocError) -> BootFault {
        BootFault::NoMemory
    }
}

impl<T: Drop> From<AllocFailed<T>> for BootFault {
    ghost from_gives = { λ _ fault. fault ≡ NoMemory };

    fn from(_want: AllocFailed<T>) -> BootFault {
        BootFault::NoMemory
    }
}

impl From<WantOfRoom> for BootFault {
    ghost from_gives = { λ _ fault. fault ≡ NoMemory };

    fn from(_want: WantOfRoom) -> BootFault {
        BootFault::NoMemory
    }
}
