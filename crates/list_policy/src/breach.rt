//! The breaches of a line of a policy by a start list.
ghost use Rattle.std.specs.Prelude.{◌≡◌, ◌<◌, ◌++◌, ℕ, List, length, MatchOption, IfOk, OnOk};
ghost use Rattle.std.specs.Option.{option_to_list};
ghost use Rattle.own_model.specs.Listed.{Listed};
ghost use Rattle.list_reach.specs.Reach.{NoneRouted};
ghost use Rattle.list_reach.specs.RangeReach.{IsShortestInRange, NoneRoutedInRange};
ghost use Rattle.list_policy.specs.Demand.{AreBreaches, FindsAt, FindsBudget, FindsFor, FindsReach, IsBroken, IsKept, IsRoutedIn, IsRoutedThere, NoneRoutedIn, leads_there, named_label, service_at};
ghost use Rattle.list_policy.specs.Line.{line_at};

use crate::budget::excess_at;
use crate::demand::{BudgetLimit, Demand, LabelRange, PolicyLine, concerns};
use list_labels::{ClientLabel, LabelCondition, SessionRequests};
use list_parser::StartList;
use list_reach::shortest_in_range;
use list_routes::route;
use std::alloc::{AllocError, Global};

/// A breach of a line.
#[derive(Drop)]
pub enum Breach {
    /// The reach of a client to a server isn't as the line demands.
    Reach(ReachBreach),
    /// The component of this number has a larger budget than the line demands.
    Excess(usize),
}

/// A client and a server whose reach isn't as a line demands. The label is routed to the server and mustn't be, or isn't and must
/// be. There is no label if no label of the line's range is routed there.
#[derive(Drop)]
pub struct ReachBreach {
    /// The number of the client.
    pub client: usize,
    /// The number of the server.
    pub server: usize,
    /// The label by which the line is broken, if there is one.
    pub label: Option<ClientLabel>,
}

impl PolicyLine {
    /// Returns the breaches of the line by a start list, component by component and, for requests, server by server. Fails if the
    /// host is out of memory.
    #[tactic(auto, using(crate::proofs::BreachLemmas::client_more))]
    pub fn breaches(&self, alloc: Global, list: &StartList) -> Result<Vec<Breach>, AllocError>
        ensures { IfOk result (λ found. AreBreaches list.now (line_at self.now) found.items) }
    {
        let mut found = Vec::new(alloc);
        for client in 0..list.entries().len() {
            let mut more = breaches_by(alloc, list, self, client)?;
            found.append(&mut more)?;
        }
        Ok(found)
    }
}

// The breaches of a line by a component.
fn breaches_by(
    alloc: Global,
    list: &StartList,
    line: &PolicyLine,
    client: usize,
) -> Result<Vec<Breach>, AllocError>
    requires client { client < length list.now.entries }
    ensures { IfOk result (λ found. FindsFor list.now (line_at line.now) client found.items) }
{
    match &line.demand {
        Demand::AtMost(limit) => excesses(alloc, list, line, *limit, client),
        Demand::Deny(_) | Demand::Allow(_) | Demand::Only(_) | Demand::Isolate => {
            client_breaches(alloc, list, line, client)
        }
    }
}

// The excess of a component over a limit, if the line names it.
fn excesses(
    alloc: Global,
    list: &StartList,
    line: &PolicyLine,
    limit: BudgetLimit,
    number: usize,
) -> Result<Vec<Breach>, AllocError>
    ensures { IfOk result (λ found. FindsBudget list.now (line_at line.now) limit number found.items) }
{
    let mut found = Vec::new(alloc);
    if excess_at(list, line, limit, number) {
        found.push(Breach::Excess(number))?;
    }
    Ok(found)
}

// The breaches of a line by a client, server by server.
#[tactic(auto, using(crate::proofs::BreachLemmas::pair_more))]
fn client_breaches(
    alloc: Global,
    list: &StartList,
    line: &PolicyLine,
    client: usize,
) -> Result<Vec<Breach>, AllocError>
    requires client { client < length list.now.entries }
    ensures { IfOk result (λ found. FindsReach list.now (line_at line.now) client found.items) }
{
    let mut found = Vec::new(alloc);
    for server in 0..list.entries().len() {
        let breach = breach_if(alloc, list, line, client, server)?;
        add_if(&mut found, breach)?;
    }
    Ok(found)
}

// Adds a breach, if there is one.
fn add_if(found: &mut Vec<Breach>, breach: Option<Breach>) -> Result<(), AllocError>
    ensures { OnOk result (found.new.items ≡ found.old.items ++ option_to_list breach) }
{
    if let Some(breach) = breach {
        found.push(breach)?;
    }
    Ok(())
}

// The breach of a line by a client's requests to a server, if the line is about these and they break it.
fn breach_if(
    alloc: Global,
    list: &StartList,
    line: &PolicyLine,
    client: usize,
    server: usize,
) -> Result<Option<Breach>, AllocError>
    requires client { client < length list.now.entries }
    ensures { IfOk result (FindsAt list.now (line_at line.now) client server) }
{
    if !concerns(list, line, client, server) {
        return Ok(None);
    }
    match label_against(alloc, list, &line.demand, client, server)? {
        Some(label) => Ok(Some(Breach::Reach(ReachBreach {
            client,
            server,
            label,
        }))),
        None => Ok(None),
    }
}

// The label by which a client's requests to a server break a demand, or that they break it by none; none if they keep it.
fn label_against(
    alloc: Global,
    list: &StartList,
    demand: &Demand,
    client: usize,
    server: usize,
) -> Result<Option<Option<ClientLabel>>, AllocError>
    requires client { client < length list.now.entries }
    ensures { IfOk result (λ found. MatchOption found
        (IsKept list.now demand.now client (service_at list.now server) server)
        (IsBroken list.now demand.now client (service_at list.now server) server)) }
{
    match demand {
        Demand::Deny(range) | Demand::Only(range) => {
            match label_in(alloc, list, client, server, range)? {
                Some(label) => Ok(Some(Some(label))),
                None => Ok(None),
            }
        }
        Demand::Isolate => match label_there(alloc, list, client, server)? {
            Some(label) => Ok(Some(Some(label))),
            None => Ok(None),
        },
        Demand::Allow(range) => match label_in(alloc, list, client, server, range)? {
            Some(_) => Ok(None),
            None => Ok(Some(named_label(range))),
        },
        Demand::AtMost(_) => Ok(None),
    }
}

// The label of a range that has one label alone.
fn named_label(range: &LabelRange) -> Option<ClientLabel>
    ensures { result ≡ named_label range.now }
{
    match range {
        LabelRange::Exactly(label) => Some(label.copy()),
        LabelRange::All | LabelRange::Prefix(_) | LabelRange::Suffix(_) => None,
    }
}

/// Returns whether a client's request with a label for the server's service is routed to the server.
pub(crate) fn leads_there(
    list: &StartList,
    client: usize,
    server: usize,
    label: &ClientLabel,
) -> bool
    requires client { client < length list.now.entries }
    ensures { result ≡ leads_there list.now client (service_at list.now server) label.now server }
{
    match route(
        list,
        client,
        service_at(list, server).as_bytes(),
        label.as_bytes(),
    ) {
        Some(child) => child == server,
        None => false,
    }
}

// A label of a range that is routed from a client to a server, if there is one.
fn label_in(
    alloc: Global,
    list: &StartList,
    client: usize,
    server: usize,
    range: &LabelRange,
) -> Result<Option<ClientLabel>, AllocError>
    requires client { client < length list.now.entries }
    ensures { IfOk result (λ found. MatchOption found
        (NoneRoutedIn list.now client (service_at list.now server) server range.now)
        (IsRoutedIn list.now client (service_at list.now server) server range.now)) }
{
    match range {
        LabelRange::All => label_there(alloc, list, client, server),
        LabelRange::Exactly(label) => {
            if leads_there(list, client, server, label) {
                Ok(Some(label.copy()))
            } else {
                Ok(None)
            }
        }
        LabelRange::Prefix(front) => {
            label_matching(
                alloc,
                list,
                client,
                server,
                &LabelCondition::beginning(front),
            )
        }
        LabelRange::Suffix(end) => {
            label_matching(alloc, list, client, server, &LabelCondition::ending(end))
        }
    }
}

// A shortest label that matches a condition and is routed from a client to a server, if there is one.
fn label_matching(
    alloc: Global,
    list: &StartList,
    client: usize,
    server: usize,
    range: &LabelCondition,
) -> Result<Option<ClientLabel>, AllocError>
    requires client { client < length list.now.entries }
    ensures { IfOk result (λ found. MatchOption found
        (NoneRoutedInRange range.now list.now client (service_at list.now server) server)
        (IsShortestInRange range.now list.now client (service_at list.now server) server)) }
{
    let wishes = SessionRequests {
        list,
        client,
        service: service_at(list, server).as_bytes(),
    };
    shortest_in_range(alloc, wishes, range, server)
}

// A label that is routed from a client to a server, if there is one.
fn label_there(
    alloc: Global,
    list: &StartList,
    client: usize,
    server: usize,
) -> Result<Option<ClientLabel>, AllocError>
    requires client { client < length list.now.entries }
    ensures { IfOk result (λ found. MatchOption found
        (NoneRouted list.now client (service_at list.now server) server)
        (IsRoutedThere list.now client (service_at list.now server) server)) }
{
    label_matching(alloc, list, client, server, &LabelCondition::none())
}

/// Returns the name of the service of a server, by the server's number, or an empty text for another component.
pub(crate) fn service_at(list: &StartList, server: usize) -> &str
    ensures { result.now ≡ service_at list.now server }
{
    match list.entries().get(server) {
        Some(entry) => match entry.service() {
            Some(service) => service,
            None => "",
        },
        None => "",
    }
}
