//! The parse of a binary: first its word, then its service, then the kinds of its objects.
ghost use Rattle.std.specs.Prelude.{◌≡◌, ◌≢◌, IfOk, IfErr, Ok, Err};
ghost use Rattle.std.specs.Option.{option_map};
ghost use Rattle.std.specs.Result.{result_map_both};
ghost use Rattle.serde_json.specs.View.{view};
ghost use Rattle.own_model.specs.Listed.{serves};
ghost use Rattle.list_parser.specs.Depth.{runs_init, runs_script};
ghost use Rattle.list_parser.specs.Entries.{no_binary, provides_expected, with_kinds, word_of};
ghost use Rattle.list_parser.specs.Members.{name_in};
ghost use Rattle.list_parser.specs.View.{model_binary, model_known, model_named_binary, model_word};
ghost use Rattle.list_parser.specs.declared.fault.BootFault.TheVariants.{NoMemory};

use crate::binary::Binary;
use crate::declared_service::DeclaredService;
use crate::fault::{BootFault, ConfigField};
use crate::kinds::read_kinds;
use crate::list_fault::{ExpectedValue, FaultPart, ListFault, ListMember};
use crate::name::Name;
use serde_json::Value;
use std::alloc::Global;
use std::rc::Rc;
use trade_base::BuiltInService;

/// A binary that is known by its word alone.
#[derive(Clone, Copy, PartialEq, Eq)]
pub(crate) enum KnownBinary {
    /// A script.
    Script,
    /// A server of a service that the machine has built in.
    Server(BuiltInService),
    /// An init, which starts entries of its own.
    Init,
}

impl KnownBinary {
    /// Returns whether the binary provides a service, given by its name.
    pub(crate) fn serves(self, asked: &[u8]) -> bool
        ensures { result ≡ serves (model_known self) asked.now }
    {
        match self {
            KnownBinary::Script | KnownBinary::Init => false,
            KnownBinary::Server(service) => asked == service.name().as_bytes(),
        }
    }
}

/// The word of a binary: a known binary, or a server that declares its service.
#[derive(Clone, Copy)]
pub(crate) enum BinaryWord {
    /// A known binary.
    Known(KnownBinary),
    /// A server that declares its service.
    Declares,
}

impl BinaryWord {
    /// Parses the word of a binary. Refuses with `UnknownBinary` if no binary has it, or with `BadConfig` if it is no name.
    pub(crate) fn read(text: &str) -> Result<BinaryWord, ListFault>
        ensures { result_map_both model_word (λ fault. fault) result ≡ word_of text.now }
    {
        let bytes = text.as_bytes();
        if bytes == b"script".as_slice() {
            Ok(BinaryWord::Known(KnownBinary::Script))
        } else if bytes == b"init".as_slice() {
            Ok(BinaryWord::Known(KnownBinary::Init))
        } else if bytes == b"server".as_slice() {
            Ok(BinaryWord::Declares)
        } else {
            match BuiltInService::of_binary(text) {
                Some(service) => Ok(BinaryWord::Known(KnownBinary::Server(service))),
                None => Err(no_binary(text)),
            }
        }
    }

    /// Returns what is expected of the services that an entry of this binary provides.
    pub(crate) fn provides_expected(self) -> ExpectedValue
        ensures { result ≡ provides_expected (model_word self) }
    {
        match self {
            BinaryWord::Known(_) => ExpectedValue::Provides,
            BinaryWord::Declares => ExpectedValue::DeclaredService,
        }
    }
}

/// Returns the fault of a text that names no binary.
fn no_binary(text: &str) -> ListFault
    ensures { result ≡ no_binary (name_in text.now) }
{
    match Name::read(text) {
        Some(name) => ListFault::at(
            BootFault::UnknownBinary(name),
            FaultPart::Whole,
            Some(ListMember::Field(ConfigField::Binary)),
            ExpectedValue::Binary,
        ),
        None => ListFault::bad(ConfigField::Binary, ExpectedValue::Binary),
    }
}

/// A binary with its service, before the kinds of its objects are read.
#[derive(Drop)]
pub(crate) enum NamedBinary {
    /// A known binary.
    Known(KnownBinary),
    /// A server that declares a service of this name.
    Declared(Name),
}

impl NamedBinary {
    /// Returns whether the binary is a script.
    pub(crate) fn is_script(&self) -> bool
        ensures { result ≡ runs_script (model_named_binary self.now) }
    {
        matches!(self, NamedBinary::Known(KnownBinary::Script))
    }

    /// Returns whether the binary is an init.
    pub(crate) fn is_init(&self) -> bool
        ensures { result ≡ runs_init (model_named_binary self.now) }
    {
        matches!(self, NamedBinary::Known(KnownBinary::Init))
    }

    /// Reads the kinds of a server that declares its service. The entry of another binary ignores the member. Refuses as
    /// `read_kinds`.
    pub(crate) fn with_kinds(
        self,
        alloc: Global,
        member: Option<&Value>,
    ) -> Result<Binary, ListFault>
        ensures ok { IfOk result (λ binary. with_kinds (model_named_binary self)
            (option_map (λ value. view value.now) member.entry) ≡ Ok (model_binary binary)) }
        ensures err { IfErr result
            (λ fault. fault.fault ≢ NoMemory → with_kinds (model_named_binary self)
            (option_map (λ value. view value.now) member.entry) ≡ Err fault) }
    {
        match self {
            NamedBinary::Known(KnownBinary::Script) => Ok(Binary::Script),
            NamedBinary::Known(KnownBinary::Server(service)) => Ok(Binary::Server(service)),
            NamedBinary::Known(KnownBinary::Init) => Ok(Binary::Init),
            NamedBinary::Declared(name) => {
                let service = DeclaredService::new(name, read_kinds(alloc, member)?);
                Ok(Binary::Declared(Rc::new(alloc, service)?))
            }
        }
    }
}
