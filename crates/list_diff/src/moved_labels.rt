//! Labels that a server gains or loses, and the rules by which a request with one of them is routed on both lists.
ghost use Rattle.std.specs.Prelude.{◌≡◌, ◌<◌, List, ℕ, length, IfOk, IfSome, option_map};
ghost use Rattle.std.specs.Option.{option_copied};
ghost use Rattle.list_reach.specs.RoutedLabels.{routed_on};
ghost use Rattle.list_reach.specs.RouteQuery.{script_named};
ghost use Rattle.list_diff.specs.Moves.{AreMoved, IsRoute};
ghost use Rattle.list_diff.specs.Routes.{routes};

use crate::reach_changes::CellPair;
use list_labels::{ClientLabel, SessionRequests};
use list_parser::{ListEntry, StartList};
use list_reach::{RoutePath, WitnessedSet};
use std::alloc::{AllocError, Global};

/// Labels of a client's requests that are routed to a server on one of two start lists alone, with the route paths of a request with
/// the witness.
#[derive(Drop)]
pub struct MovedLabels<'a> {
    /// The labels, with one of the shortest.
    pub set: WitnessedSet,
    /// The route path of a request with the witness before, if there is a witness and the list has the client.
    pub was: Option<RoutePath<'a>>,
    /// The route path of a request with the witness after, if there is a witness and the list has the client.
    pub now: Option<RoutePath<'a>>,
}

impl<'a> MovedLabels<'a> {
    /// Returns labels of a pair's requests, with the route paths of their witness on both lists. Fails if the host is out of memory.
    pub(crate) fn of(
        alloc: Global,
        before: &'a StartList,
        after: &'a StartList,
        pair: &CellPair<'a>,
        set: WitnessedSet,
    ) -> Result<MovedLabels<'a>, AllocError>
        ensures set { IfOk result (λ moved. moved.set ≡ set) }
        ensures routes { IfOk result (AreMoved before.now after.now pair.now) }
    {
        let was = route_of(alloc, before, pair, set.witness.as_ref())?;
        let now = route_of(alloc, after, pair, set.witness.as_ref())?;
        Ok(MovedLabels { set, was, now })
    }
}

// The route path of a request of a pair's script with a label, if there is a label and the list has the script.
fn route_of<'a>(
    alloc: Global,
    list: &'a StartList,
    pair: &CellPair<'a>,
    label: Option<&ClientLabel>,
) -> Result<Option<RoutePath<'a>>, AllocError>
    ensures { IfOk result (IsRoute list.now pair.now (option_copied label.entry)) }
{
    let Some(label) = label else {
        return Ok(None);
    };
    let Some(requests) = requests_of(list, pair.client, pair.service) else {
        return Ok(None);
    };
    let (list, client, service) = (requests.list, requests.client, requests.service);
    let course = RoutePath::of(alloc, list, client, service, label.as_bytes())?;
    Ok(Some(course))
}

/// Returns the requests of a script of a list, by its path, for a service, if the list has the script.
pub(crate) fn requests_of<'a>(
    list: &'a StartList,
    client: &ListEntry,
    service: &'a str,
) -> Option<SessionRequests<'a>>
    ensures there { IfSome result (λ requests. requests.client < length requests.list.now.entries) }
    ensures list { IfSome result (λ requests. requests.list.now ≡ list.now) }
    ensures service { IfSome result (λ requests. requests.service.now ≡ service.now) }
    ensures client { option_map (λ requests. requests.client) result
        ≡ script_named list.now client.now.path }
    ensures routes { (label : List ℕ)
        → routed_on result label ≡ routes list.now client.now.path service.now label }
{
    let client = list.find(client.path())?;
    if !list.entries()[client].is_script() {
        return None;
    }
    Some(SessionRequests {
        list,
        client,
        service: service.as_bytes(),
    })
}
