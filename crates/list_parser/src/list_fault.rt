//! Faults of start lists with their places.
ghost use Rattle.std.specs.Prelude.{◌≡◌};
ghost use Rattle.list_parser.specs.FaultPlace.{bad, bad_element, bad_member, bad_whole, fault_at, of_config, of_entry};
ghost use Rattle.list_parser.specs.declared.fault.BootFault.TheVariants.{NoMemory};

use crate::fault::{BootFault, ConfigField};
use std::alloc::{AllocError, AllocFailed};

/// The value that is expected in place of a bad one.
#[derive(Clone, Copy, PartialEq, Eq)]
pub enum ExpectedValue {
    /// An object.
    Object,
    /// A machine's pages or capabilities.
    MachineSize,
    /// A list of rules.
    Rules,
    /// A list of entries.
    Entries,
    /// No init, since inits nest at most 3 deep.
    NoInit,
    /// A name.
    Name,
    /// A name that no earlier entry has.
    NewName,
    /// A binary.
    Binary,
    /// An amount.
    Amount,
    /// A number of capabilities.
    Caps,
    /// No reserve, since the entry isn't a script's.
    NoReserve,
    /// The service of the entry's binary.
    Provides,
    /// The name of the service that the entry declares.
    DeclaredService,
    /// A list of kinds of objects.
    Kinds,
    /// A name that no earlier kind has.
    NewKind,
    /// The bytes of the block of a kind's objects.
    BlockBytes,
    /// The bytes of a unit of a kind's objects.
    UnitBytes,
    /// `true`.
    True,
    /// A text.
    Text,
    /// One of the two members that name the service of a rule.
    OneService,
    /// One of the three members that name the target of a rule.
    OneTarget,
}

/// A member of a list, an entry, a rule or a kind of objects.
#[derive(Clone, Copy)]
pub enum ListMember {
    /// The member of a list or an entry that a fault names.
    Field(ConfigField),
    /// A rule's `service`.
    Service,
    /// A rule's `any-service`.
    AnyService,
    /// A rule's `label`.
    Label,
    /// A rule's `label_prefix`.
    LabelPrefix,
    /// A rule's `label_suffix`.
    LabelSuffix,
    /// A rule's `child`.
    Child,
    /// A rule's `any-child`.
    AnyChild,
    /// A rule's `parent`.
    Parent,
    /// A kind's name, `kind`.
    Kind,
    /// A kind's `block`.
    Block,
    /// A kind's `bytes`.
    Bytes,
}

/// The part of a list or of an entry that has a fault. Places count from 0.
#[derive(Clone, Copy)]
pub enum FaultPart {
    /// The list or the entry itself.
    Whole,
    /// The machine of the list.
    Machine,
    /// A rule of the default route, or of the entry's own route, by its place.
    Rule(usize),
    /// A kind of objects that the entry declares, by its place.
    Kind(usize),
}

/// The place of a fault in the value of a start list.
#[derive(Clone, Copy)]
pub struct FaultPlace {
    /// The number of the entry among those of all lists, each init directly before its own; none for the machine's list.
    pub entry: Option<usize>,
    /// Whether the part is of the list that the entry starts.
    pub in_config: bool,
    /// The part.
    pub part: FaultPart,
    /// The bad member of the part, or none if the whole part is bad.
    pub member: Option<ListMember>,
    /// The value that is expected there.
    pub expected: ExpectedValue,
}

/// The reason for which a text has no value.
#[derive(Clone, Copy)]
pub enum JsonFault {
    /// The text is no JSON from a line and a column on, each from 1 on. The flag states that the text ends there.
    Syntax(usize, usize, bool),
    /// The host is out of memory.
    NoMemory,
}

/// The fault of the value of a start list, with its place.
#[derive(Drop)]
pub struct ListFault {
    /// The fault.
    pub fault: BootFault,
    /// The place of the fault, which is the whole list if the host is out of memory.
    pub place: FaultPlace,
}

/// What is bad in a rule or in a kind of objects: a member, or the whole value.
#[derive(Clone, Copy)]
pub(crate) struct Flaw {
    pub(crate) member: Option<ListMember>,
    pub(crate) expected: ExpectedValue,
}

impl Flaw {
    /// Returns the flaw of a member.
    pub(crate) fn of(member: ListMember, expected: ExpectedValue) -> Flaw
        ensures { result ≡ bad_member member expected }
    {
        Flaw {
            member: Some(member),
            expected,
        }
    }

    /// Returns the flaw of a whole value.
    pub(crate) fn whole(expected: ExpectedValue) -> Flaw
        ensures { result ≡ bad_whole expected }
    {
        Flaw {
            member: None,
            expected,
        }
    }
}

impl ListFault {
    /// Returns a fault of a list or an entry, at a part of it.
    pub(crate) fn at(
        fault: BootFault,
        part: FaultPart,
        member: Option<ListMember>,
        expected: ExpectedValue,
    ) -> ListFault
        ensures { result ≡ fault_at fault part member expected }
    {
        ListFault {
            fault,
            place: FaultPlace {
                entry: None,
                in_config: false,
                part,
                member,
                expected,
            },
        }
    }

    /// Returns the fault of a member of a list or an entry.
    pub(crate) fn bad(field: ConfigField, expected: ExpectedValue) -> ListFault
        ensures { result ≡ bad field expected }
    {
        ListFault::at(
            BootFault::BadConfig(field),
            FaultPart::Whole,
            Some(ListMember::Field(field)),
            expected,
        )
    }

    /// Returns the fault of a member that is a list with a bad element.
    pub(crate) fn bad_element(field: ConfigField, element: FaultPart, flaw: Flaw) -> ListFault
        ensures { result ≡ bad_element field element flaw }
    {
        ListFault::at(
            BootFault::BadConfig(field),
            element,
            flaw.member,
            flaw.expected,
        )
    }

    /// Returns the fault of an entry, given by its number.
    pub(crate) fn of_entry(self, number: usize) -> ListFault
        ensures { result ≡ of_entry number self }
    {
        let ListFault { fault, place } = self;
        let place = FaultPlace {
            entry: Some(number),
            ..place
        };
        ListFault { fault, place }
    }

    /// Returns the fault of what an entry starts.
    pub(crate) fn of_config(self) -> ListFault
        ensures { result ≡ of_config self }
    {
        let ListFault { fault, place } = self;
        let place = FaultPlace {
            in_config: true,
            ..place
        };
        ListFault { fault, place }
    }
}

impl From<AllocError> for ListFault {
    ghost from_gives = { λ _ fault. fault.fault ≡ NoMemory };

    fn from(_want: AllocError) -> ListFault {
        let fault = BootFault::NoMemory;
        ListFault::at(fault, FaultPart::Whole, None, ExpectedValue::Object)
    }
}

impl<T: Drop> From<AllocFailed<T>> for ListFault {
    ghost from_gives = { λ _ fault. fault.fault ≡ NoMemory };

    fn from(_want: AllocFailed<T>) -> ListFault {
        ListFault::from(AllocError)
    }
}
