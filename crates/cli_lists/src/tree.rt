//! The command `tree`: the components of a start list.
ghost use Rattle.cli_base.specs.Statuses.{EndsAs, IsZero};
ghost use Rattle.cli_lists.specs.ListStatus.{TreeEnds};

use crate::review::list_at;
use cli_base::{Host, Settings, made_or_status, print_documents, status_of};
use cli_options::TreeOptions;
use list_parser::StartList;
use list_review::{ListGraph, ListTree};

/// Prints the components of a start list as text, as a graph or as JSON. Returns the exit status: 0, or 2 if the list is refused.
pub fn show_tree<H: Host>(host: &H, asked: &TreeOptions<'_>, settings: Settings<'_>) -> u8
    ensures { TreeEnds (H.text_at host.now) asked.now settings.entry result }
{
    match list_at(host, asked.list, settings) {
        Ok(list) => print_list(host.rt(), asked, &list),
        Err(status) => status,
    }
}

// Prints the components of a start list as the command line asks, and returns the exit status.
fn print_list(rt: &HostRuntime, asked: &TreeOptions<'_>, list: &StartList) -> u8
    ensures { EndsAs ⊥ IsZero result }
{
    if asked.dot && !asked.json {
        return print_graph(rt, list);
    }
    match made_or_status(rt, ListTree::of(rt.alloc(), list)) {
        Ok(tree) => print_tree(rt, &tree, asked.json),
        Err(status) => status,
    }
}

// Prints a graph, and returns the exit status.
fn print_graph(rt: &HostRuntime, list: &StartList) -> u8
    ensures { EndsAs ⊥ IsZero result }
{
    match made_or_status(rt, ListGraph::of(rt.alloc(), list)) {
        Ok(graph) => status_of(rt, print!(rt; "{graph}")),
        Err(status) => status,
    }
}

// Prints a tree as text, or as a document for each of its lines. Returns the exit status.
fn print_tree(rt: &HostRuntime, tree: &ListTree<'_>, json: bool) -> u8
    ensures { EndsAs ⊥ IsZero result }
{
    if json {
        print_documents(rt, tree.documents(rt.alloc()))
    } else {
        status_of(rt, print!(rt; "{tree}"))
    }
}
