//! Binaries: what a component runs.
ghost use Rattle.std.specs.Prelude.{◌≡◌, IfOk, Ok};
ghost use Rattle.std.specs.Option.{option_copied};
ghost use Rattle.own_model.specs.Listed.{serves, service_in};
ghost use Rattle.list_parser.specs.Depth.{runs_init, runs_script, runs_server};
ghost use Rattle.list_parser.specs.Entries.{word_of};
ghost use Rattle.list_parser.specs.View.{model_binary, word_by};

use crate::declared_service::DeclaredService;
use std::alloc::AllocError;
use std::rc::Rc;
use trade_base::BuiltInService;

/// The binary that a component runs.
#[derive(Drop)]
pub enum Binary {
    /// A script, which makes the calls of a scenario.
    Script,
    /// A server of a service that the machine has built in.
    Server(BuiltInService),
    /// A server of a service that its entry declares.
    Declared(Rc<DeclaredService>),
    /// An init, which starts entries of its own.
    Init,
}

impl Binary {
    /// Returns whether the binary is a script.
    pub fn is_script(&self) -> bool
        ensures { result ≡ runs_script (model_binary self.now) }
    {
        matches!(self, Binary::Script)
    }

    /// Returns whether the binary is a server of any service.
    pub fn is_server(&self) -> bool
        ensures { result ≡ runs_server (model_binary self.now) }
    {
        matches!(self, Binary::Server(_) | Binary::Declared(_))
    }

    /// Returns whether the binary is an init.
    pub fn is_init(&self) -> bool
        ensures { result ≡ runs_init (model_binary self.now) }
    {
        matches!(self, Binary::Init)
    }

    /// Returns the name of the service that the binary can provide, if it is a server.
    pub fn service(&self) -> Option<&str>
        ensures { option_copied result ≡ service_in (model_binary self.now) }
    {
        match self {
            Binary::Script | Binary::Init => None,
            Binary::Server(service) => Some(service.name()),
            Binary::Declared(service) => Some(service.name().as_str()),
        }
    }

    /// Returns the name of the binary, as a start list has it: `server` for each server that declares its service.
    #[tactic(auto, using(crate::proofs::EntryLemmas::word_read_back))]
    pub fn as_str(&self) -> &'static str
        ensures { word_of result.now ≡ Ok (word_by (model_binary self.now)) }
    {
        match self {
            Binary::Script => "script",
            Binary::Server(service) => service.binary(),
            Binary::Declared(_) => "server",
            Binary::Init => "init",
        }
    }

    /// Returns whether the binary provides a service, given by its name.
    pub(crate) fn serves(&self, asked: &[u8]) -> bool
        ensures { result ≡ serves (model_binary self.now) asked.now }
    {
        match self {
            Binary::Script | Binary::Init => false,
            Binary::Server(service) => asked == service.name().as_bytes(),
            Binary::Declared(service) => asked == service.name().as_bytes(),
        }
    }

    /// Copies the binary. A copy shares the service that a server declares. Returns an error if the host is out of memory.
    pub(crate) fn copy(&self) -> Result<Binary, AllocError>
        ensures { IfOk result (λ copy. model_binary copy ≡ model_binary self.now) }
    {
        match self {
            Binary::Script => Ok(Binary::Script),
            Binary::Server(service) => Ok(Binary::Server(*service)),
            Binary::Declared(service) => Ok(Binary::Declared(service.clone()?)),
            Binary::Init => Ok(Binary::Init),
        }
    }
}
