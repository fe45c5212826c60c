//! The command `route`: the route path of a script's session request.
ghost use Rattle.std.specs.Prelude.{◌≡◌};
ghost use Rattle.cli_base.specs.Statuses.{EndsAs};
ghost use Rattle.cli_lists.specs.ListStatus.{EndsRouted, HasNoRequest, RouteEnds, fault_status, routed_status};

use crate::review::list_at;
use cli_base::{
    Host, OUT_OF_MEMORY, REFUSED, Settings, Spot, UNWRITTEN, report_error, status_after, status_of,
};
use cli_options::RouteOptions;
use list_parser::StartList;
use list_reach::{RoutePath, RoutePathFault};
use view_diagnostics::DiagnosticForm;

/// The exit status of a request that is denied.
const DENIED: u8 = 3;

/// Prints the route path of a script's session request. Returns the exit status: 0, 3 if the request is denied, 2 if the list,
/// the script or the arguments are refused.
pub fn show_route<H: Host>(host: &H, asked: &RouteOptions<'_>, settings: Settings<'_>) -> u8
    ensures { RouteEnds (H.text_at host.now) asked.now settings.entry result }
{
    match list_at(host, asked.list, settings) {
        Ok(list) => route_in(host.rt(), settings.form, &list, asked),
        Err(status) => status,
    }
}

// Prints the route path of a request in a start list, and returns the exit status.
fn route_in(
    rt: &HostRuntime,
    form: DiagnosticForm,
    list: &StartList,
    asked: &RouteOptions<'_>,
) -> u8
    ensures { EndsAs (HasNoRequest asked.now list.now) (EndsRouted asked.now list.now) result }
{
    match RoutePath::read(
        rt.alloc(),
        list,
        asked.client.as_bytes(),
        asked.service.as_bytes(),
        asked.args.as_bytes(),
    ) {
        Ok(path) => print_path(rt, &path),
        Err(fault) => report_no_path(rt, form, asked, fault),
    }
}

// Prints why a request has no route path, and returns the exit status: 1 if the host is out of memory, else 2.
fn report_no_path(
    rt: &HostRuntime,
    form: DiagnosticForm,
    asked: &RouteOptions<'_>,
    fault: RoutePathFault,
) -> u8
    ensures { result ≡ fault_status fault }
{
    let spot = Spot::file(asked.list);
    match fault {
        RoutePathFault::Nobody => report_error(
            rt,
            form,
            spot,
            &format_args!("unknown script `{}`", asked.client),
        ),
        RoutePathFault::BadArgs => report_error(
            rt,
            form,
            spot,
            &format_args!("Bad_args: `{}`", asked.args),
        ),
        RoutePathFault::NoMemory => report_error(rt, form, Spot::nowhere(), &OUT_OF_MEMORY),
    }
    fault_status(fault)
}

// Returns the exit status of a request without a route path: 1 if the host is out of memory, else 2.
fn fault_status(fault: RoutePathFault) -> u8
    ensures { result ≡ fault_status fault }
{
    match fault {
        RoutePathFault::Nobody | RoutePathFault::BadArgs => REFUSED,
        RoutePathFault::NoMemory => UNWRITTEN,
    }
}

// Returns the exit status of a request that is routed to this component: 0, or 3 if there is none.
fn routed_status(child: Option<usize>) -> u8
    ensures { result ≡ routed_status child }
{
    if child.is_some() { 0 } else { DENIED }
}

// Prints a route path, and returns the exit status.
fn print_path(rt: &HostRuntime, path: &RoutePath<'_>) -> u8
    ensures { EndsAs ⊥ (λ status. status ≡ routed_status path.now.child) result }
{
    let printed = status_of(rt, print!(rt; "{path}"));
    status_after(printed, routed_status(path.child()))
}
