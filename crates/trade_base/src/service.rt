//! The services of servers: the only table of their names.
/// The service that a server provides to its clients.
#[derive(Clone, Copy, Debug, PartialEq, Eq)]
pub enum BuiltInService {
    /// The service that writes the lines of each session.
    Log,
    /// The service that stores the files of each session.
    Files,
}

/// All services, in the order in which output lists them.
pub const SERVICES: [BuiltInService; 2] = [BuiltInService::Log, BuiltInService::Files];

impl BuiltInService {
    ghost use Rattle.std.specs.Prelude.{◌≡◌};
    ghost use Rattle.trade_base.specs.Service.{binary_name, served_by_binary, service_name};

    /// Returns the name by which clients request the service and start lists declare it: `LOG` or `File_system`.
    pub fn name(self) -> &'static str
        ensures { result.now ≡ service_name self }
    {
        match self {
            BuiltInService::Log => "LOG",
            BuiltInService::Files => "File_system",
        }
    }

    /// Returns the name of the binary that provides the service, as start lists have it: `log` or `files`.
    pub fn binary(self) -> &'static str
        ensures { result.now ≡ binary_name self }
    {
        match self {
            BuiltInService::Log => "log",
            BuiltInService::Files => "files",
        }
    }

    /// Returns the service that the binary of this name provides, or `None` if there is none.
    pub fn of_binary(name: &str) -> Option<BuiltInService>
        ensures { result ≡ served_by_binary name.now }
    {
        SERVICES
            .iter()
            .copied()
            .find(|service| name.as_bytes() == service.binary().as_bytes())
    }
}
