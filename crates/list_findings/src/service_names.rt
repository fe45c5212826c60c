//! The names of services as values of their own.
ghost use Rattle.std.specs.Prelude.{◌≡◌, Some};
ghost use Rattle.trade_base.specs.Service.{service_name};
ghost use Rattle.list_parser.specs.Services.{service_text};

use list_parser::{ListService, Name};
use trade_base::BuiltInService;

/// Returns the name of a service of a list.
pub(crate) fn name_of(service: ListService<'_>) -> Option<Name>
    ensures { result ≡ Some (service_text service.entry) }
{
    match service {
        ListService::BuiltIn(service) => built_in_name(service),
        ListService::Declared(name) => Some(name.copy()),
    }
}

/// Returns the name of a service that the machine has built in.
#[tactic(auto, using(crate::proofs::ServiceNames::service_is_named))]
pub(crate) fn built_in_name(service: BuiltInService) -> Option<Name>
    ensures { result ≡ Some (service_name service) }
{
    Name::read(service.name())
}
