//! The services of a start list by their numbers.
ghost use Rattle.std.specs.Prelude.{◌≡◌, ◌<◌, length, Some};
ghost use Rattle.std.specs.List.{slice_get};
ghost use Rattle.own_model.specs.Listed.{services_of};

use list_parser::StartList;

/// Returns the name of a service of a list by its number, in the order in which output lists services.
pub fn service_name(list: &StartList, number: usize) -> &str
    requires { number < length (services_of list.now.entries) }
    ensures { slice_get (services_of list.now.entries) number ≡ Some result.now }
{
    list.service(number).name()
}
