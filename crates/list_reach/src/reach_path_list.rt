//! Each path by which scripts reach servers: a label, and the rules that route it to the server.
ghost use Rattle.std.specs.Prelude.{◌≡◌, ◌<◌, length, All, IfOk, OnOk};
ghost use Rattle.list_reach.specs.AllPaths.{AddsPaths, AreAllPaths, reached, reached_of, selected_child};
ghost use Rattle.list_reach.specs.Deciding.{IsDecision};
ghost use Rattle.list_reach.specs.Paths.{is_chosen};
ghost use Rattle.list_reach.specs.ScriptDecisions.{IsDecided};
ghost use Rattle.list_reach.specs.Table.{IsReachPath};

use crate::reach_filter::ReachFilter;
use crate::route_decisions::RouteDecision;
use crate::route_path::RoutePath;
use crate::route_summary::RouteSummary;
use crate::script_decisions::ScriptDecisions;
use crate::texts::PathText;
use list_labels::ClientLabel;
use list_parser::StartList;
use std::alloc::{AllocError, Global};
use std::fmt;

/// A label that is routed from a script to a server, with the rules by which it is routed.
#[derive(Drop)]
pub struct ReachPath<'a> {
    /// The number of the script.
    pub client: usize,
    /// The service.
    pub service: &'a str,
    /// The number of the server.
    pub server: usize,
    /// The label.
    pub label: ClientLabel,
    /// The rules by which the label is routed to the server.
    pub course: RoutePath<'a>,
}

/// The paths from scripts to servers: for each script and server, one for each sequence of rules that routes a label there.
#[derive(Drop)]
pub struct ReachPathList<'a> {
    list: &'a StartList,
    ways: Vec<ReachPath<'a>>,
}

impl<'a> ReachPathList<'a> {
    /// Returns the paths of a start list between the scripts and the servers that a filter selects. Fails if the host is out of
    /// memory.
    pub fn of(
        alloc: Global,
        list: &'a StartList,
        chosen: &ReachFilter,
    ) -> Result<ReachPathList<'a>, AllocError>
        ensures list { IfOk result (λ told. told.list.now ≡ list.now) }
        ensures ways { IfOk result (λ told. AreAllPaths list.now (is_chosen chosen.now.from.items)
            (is_chosen chosen.now.to.items) told.ways.items) }
    {
        let found = ScriptDecisions::all(alloc, list, chosen)?;
        let mut ways = Vec::new(alloc);
        for place in 0..found.len() {
            add_paths(alloc, &mut ways, list, chosen, &found[place])?;
        }
        Ok(ReachPathList { list, ways })
    }

    /// Returns the paths, script by script, and for each script service by service.
    pub fn as_slice(&self) -> &[ReachPath<'a>]
        ensures { result.now ≡ self.now.ways.items }
    {
        self.ways.as_slice()
    }
}

// Adds the paths of the decisions on a script's requests for a service.
#[tactic(auto, using(crate::proofs::AdditionLemmas::adds_none, crate::proofs::AdditionLemmas::adds_then))]
fn add_paths<'a>(
    alloc: Global,
    ways: &mut Vec<ReachPath<'a>>,
    list: &'a StartList,
    chosen: &ReachFilter,
    one: &ScriptDecisions<'a>,
) -> Result<(), AllocError>
    requires decided { IsDecided list.now one.now }
    requires told { All (IsReachPath list.now) ways.old.items }
    ensures { OnOk result (AddsPaths list.now ways.old.items
        (reached_of (is_chosen chosen.now.to.items) one.now) ways.new.items) }
{
    let trails = one.decisions.as_slice();
    for place in 0..trails.len() {
        add_path(alloc, ways, list, chosen, one, &trails[place])?;
    }
    Ok(())
}

// Adds the path of a decision on a script's requests for a service, if it routes to a selected server.
#[tactic(auto, using(crate::proofs::AdditionLemmas::adds_none, crate::proofs::AdditionLemmas::adds_one))]
fn add_path<'a>(
    alloc: Global,
    ways: &mut Vec<ReachPath<'a>>,
    list: &'a StartList,
    chosen: &ReachFilter,
    one: &ScriptDecisions<'a>,
    trail: &RouteDecision,
) -> Result<(), AllocError>
    requires client { one.now.client < length list.now.entries }
    requires trail { IsDecision list.now one.now.client one.now.service.now trail.now }
    requires told { All (IsReachPath list.now) ways.old.items }
    ensures { OnOk result (AddsPaths list.now ways.old.items
        (reached (is_chosen chosen.now.to.items) one.now.client one.now.service.now trail.now)
        ways.new.items) }
{
    let Some(server) = selected_child(chosen, trail.child()) else {
        return Ok(());
    };
    let label = trail.label().copy();
    let course = RoutePath::of(
        alloc,
        list,
        one.client,
        one.service.as_bytes(),
        label.as_bytes(),
    )?;
    ways.push(ReachPath {
        client: one.client,
        service: one.service,
        server,
        label,
        course,
    })?;
    Ok(())
}

// The server to which a decision routes, if it is selected.
fn selected_child(chosen: &ReachFilter, child: Option<usize>) -> Option<usize>
    ensures { result ≡ selected_child (is_chosen chosen.now.to.items) child }
{
    match child {
        Some(server) if chosen.has_server(server) => Some(server),
        _ => None,
    }
}

/// Writes an empty line, and then a line for each path, or nothing if there is no path.
impl fmt::Display for ReachPathList<'_> {
    fn fmt<W: fmt::Write>(&self, f: &mut fmt::Formatter<W>) -> fmt::Result {
        for way in self.ways.as_slice() {
            let client = PathText::of(self.list, way.client);
            write!(f, "\n{client} {} label \"{}\": ", way.service, way.label)?;
            let server = PathText::of(self.list, way.server);
            write!(f, "{} -> {server}", RouteSummary::of(&way.course))?;
        }
        f.write_str(if self.ways.is_empty() { "" } else { "\n" })
    }
}
