//! The route path of one session request: which rules decide it, list by list outward, and the server to which they route it.
ghost use Rattle.std.specs.Prelude.{◌≡◌, ◌<◌, ◌≤◌, length, IfErr, IfOk, IfSome};
ghost use Rattle.list_labels.specs.RouteSteps.{route_steps_of};
ghost use Rattle.list_labels.specs.GivenLabels.{leads_to};
ghost use Rattle.list_reach.specs.RouteQuery.{Answers, IsWhy, script_named};

use crate::component_numbers::{ComponentKind, is_sought};
use crate::texts::{EntryRuleText, PathText};
use list_labels::{ByteText, RouteStep, route_steps_of};
use list_parser::{Rule, StartList, Target};
use list_routes::route;
use session_proto::SessionArgs;
use std::alloc::{AllocError, Global};
use std::fmt;

/// The route path of a session request: its steps from the client's own list outward, and the component to which it is routed.
#[derive(Drop)]
pub struct RoutePath<'a> {
    list: &'a StartList,
    client: usize,
    hops: Vec<RouteStep>,
    child: Option<usize>,
}

impl<'a> RoutePath<'a> {
    /// Returns the route path of a client's request for a service with a label of at most 64 bytes. Fails if the host is out of
    /// memory.
    #[tactic(auto, unfolding(list_labels::specs::GivenLabels::leads_to))]
    pub fn of(
        alloc: Global,
        list: &'a StartList,
        client: usize,
        service: &[u8],
        label: &[u8],
    ) -> Result<RoutePath<'a>, AllocError>
        requires client { client < length list.now.entries }
        requires label { length label.now ≤ 64 }
        ensures list { IfOk result (λ course. course.list.now ≡ list.now) }
        ensures client { IfOk result (λ course. course.client ≡ client) }
        ensures child { IfOk result (λ course. course.child
            ≡ leads_to list.now client service.now label.now) }
        ensures hops { IfOk result (λ course. course.hops.items
            ≡ route_steps_of list.now client service.now label.now) }
    {
        Ok(RoutePath {
            list,
            client,
            hops: route_steps_of(alloc, list, client, service, label)?,
            child: route(list, client, service, label),
        })
    }

    /// Returns the route path of a script's request, by the script's path, for a service with these session arguments. Without
    /// arguments the label is empty. Errors in order: no script has the path; the arguments aren't in the grammar; out of memory.
    pub fn read(
        alloc: Global,
        list: &'a StartList,
        client: &[u8],
        service: &[u8],
        args: &[u8],
    ) -> Result<RoutePath<'a>, RoutePathFault>
        ensures answers { IfOk result (Answers list.now client.now service.now args.now) }
        ensures fault { IfErr result (IsWhy list.now client.now args.now) }
    {
        let Some(client) = script_named(list, client) else {
            return Err(RoutePathFault::Nobody);
        };
        let Ok(args) = SessionArgs::read(args) else {
            return Err(RoutePathFault::BadArgs);
        };
        match RoutePath::of(alloc, list, client, service, args.label()) {
            Ok(course) => Ok(course),
            Err(_) => Err(RoutePathFault::NoMemory),
        }
    }

    /// Returns the start list by which the request is routed.
    pub fn list(&self) -> &StartList
        ensures { result.now ≡ self.now.list.now }
    {
        self.list
    }

    /// Returns the number of the client among the entries of all lists.
    pub fn client(&self) -> usize
        ensures { result ≡ self.now.client }
    {
        self.client
    }

    /// Returns the steps, one for each list that is asked, from the client's own list outward.
    pub fn hops(&self) -> &[RouteStep]
        ensures { result.now ≡ self.now.hops.items }
    {
        self.hops.as_slice()
    }

    /// Returns the number of the component to which the request is routed, or none if it is denied.
    pub fn child(&self) -> Option<usize>
        ensures { result ≡ self.now.child }
    {
        self.child
    }
}

/// Why a request has no route path.
#[derive(Clone, Copy)]
pub enum RoutePathFault {
    /// No script has this path.
    Nobody,
    /// The session arguments aren't in the grammar.
    BadArgs,
    /// The host is out of memory.
    NoMemory,
}

// The number of the script of a path.
fn script_named(list: &StartList, path: &[u8]) -> Option<usize>
    ensures named { result ≡ script_named list.now path.now }
    ensures within { IfSome result (λ client. client < length list.now.entries) }
{
    let client = list.find(path)?;
    if is_sought(&list.entries()[client], ComponentKind::Script) {
        Some(client)
    } else {
        None
    }
}

/// Writes a line for each list, and then the component to which the request is routed, or the rule by which it is denied.
impl fmt::Display for RoutePath<'_> {
    fn fmt<W: fmt::Write>(&self, f: &mut fmt::Formatter<W>) -> fmt::Result {
        let list = self.list;
        let mut asks = list.entries().get(self.client);
        let mut last = None;
        for hop in self.hops.as_slice() {
            let Some(entry) = asks else {
                return show_end(f, list, self.child, last);
            };
            let rule = EntryRuleText::of(entry, hop.rule());
            write!(
                f,
                "{rule}, where the label is \"{}\"",
                ByteText::of(hop.seen())
            )?;
            show_target(f, list.rules_of(entry), hop.rule())?;
            last = Some(rule);
            asks = list.init_entry(entry.home());
        }
        show_end(f, list, self.child, last)
    }
}

// The component to which the request is routed, or the rule by which it is denied.
fn show_end<W: fmt::Write>(
    f: &mut fmt::Formatter<W>,
    list: &StartList,
    child: Option<usize>,
    last: Option<EntryRuleText<'_>>,
) -> fmt::Result {
    match (child, last) {
        (Some(child), _) => writeln!(f, "leads to {}", PathText::of(list, child)),
        (None, Some(last)) => writeln!(f, "denied by {last}"),
        (None, None) => f.write_str("denied by \n"),
    }
}

// The target of the rule at a place, if there is one, and the end of the line.
fn show_target<W: fmt::Write>(
    f: &mut fmt::Formatter<W>,
    rules: &[Rule],
    place: Option<usize>,
) -> fmt::Result {
    let rule = match place {
        Some(place) => rules.get(place),
        None => None,
    };
    match rule {
        Some(rule) => match rule.target() {
            Target::Child(name) => writeln!(f, ": child {}", name.as_str()),
            Target::AnyChild => f.write_str(": any-child\n"),
            Target::Parent => f.write_str(": parent\n"),
        },
        None => f.write_str("\n"),
    }
}
