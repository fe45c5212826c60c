//! Names of components that are similar to an unknown one.
ghost use Rattle.std.specs.Prelude.{◌≡◌, ◌<◌, length, slice_get, true, Some, IfSome};
ghost use Rattle.std.specs.Option.{option_copied, option_map};
ghost use Rattle.line_friendly.specs.Forms.{is_one_edit};
ghost use Rattle.run_scenario.specs.Reports.{is_near, near_name};

use line_friendly::is_one_edit;
use list_parser::StartList;

/// Returns the most similar component of an unknown name: the first of the list, except inits, whose path differs in one byte
/// that is added, left out or replaced.
pub fn near_component<'a>(list: &'a StartList, name: &[u8]) -> Option<&'a [u8]>
    ensures near { IfSome result (λ near. is_one_edit near.now name.now ≡ true) }
    ensures first { option_copied result ≡ near_name list.now name.now }
{
    for component in 0..list.count() {
        if is_near(list, component, name) {
            return Some(list.name(component));
        }
    }
    None
}

// Returns whether a component is no init, and its path differs from a name in one byte.
fn is_near(list: &StartList, component: usize, name: &[u8]) -> bool
    requires { component < length list.now.entries }
    ensures { option_map (is_near name.now) (slice_get list.now.entries component) ≡ Some result }
{
    if list.is_init(component) {
        return false;
    }
    is_one_edit(list.name(component), name)
}
