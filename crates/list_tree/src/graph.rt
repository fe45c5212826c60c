//! The components of a start list, and the servers to which their session requests are routed, as a graph.
ghost use Rattle.std.specs.Prelude.{IfOk};
ghost use Rattle.list_tree.specs.Nodes.{IsTreeOf};

use crate::rules_text::{RulesText, show_rule_lines};
use crate::tree::{ListTree, TreeNode, label_of, server_of};
use list_parser::{ListEntry, StartList};
use list_parts::{KindsText, binary_word};
use list_reach::{RouteDecision, ScriptDecisions};
use std::alloc::{AllocError, Global};
use std::fmt;

/// A start list as a graph in DOT. An init is a box around what it starts, and each other component is a node, by its path. An
/// edge denotes the rules that decide some of a script's requests for a service. The denied requests of a list's scripts have one
/// grey node.
#[derive(Drop)]
pub struct ListGraph<'a> {
    tree: ListTree<'a>,
}

impl<'a> ListGraph<'a> {
    /// Returns the graph of a start list. Fails if the host is out of memory.
    pub fn of(alloc: Global, list: &'a StartList) -> Result<ListGraph<'a>, AllocError>
        ensures { IfOk result (λ graph. IsTreeOf list.now graph.tree) }
    {
        Ok(ListGraph {
            tree: ListTree::of(alloc, list)?,
        })
    }

    // Writes the components, each within the boxes of the inits above it.
    fn show_nodes<W: fmt::Write>(&self, f: &mut fmt::Formatter<W>) -> fmt::Result {
        let mut boxes = 0;
        for node in &self.tree.nodes {
            let depth = node.depth();
            show_ends(f, depth, boxes)?;
            show_margin(f, depth)?;
            boxes = depth;
            if node.entry.is_init() {
                boxes = depth + 1;
                show_box(f, node, boxes)?;
                self.show_denied(f, usize::from(node.number) + 1, boxes)?;
            } else {
                show_leaf(f, node)?;
            }
        }
        show_ends(f, 0, boxes)
    }

    // Writes the node of what is denied of the scripts of an init's list, if something is, below so many inits.
    fn show_denied<W: fmt::Write>(
        &self,
        f: &mut fmt::Formatter<W>,
        init: usize,
        depth: usize,
    ) -> fmt::Result {
        for node in &self.tree.nodes {
            if node.entry.home() == init && has_denied(node) {
                show_margin(f, depth)?;
                show_denied_name(f, self.tree.list.init_entry(init))?;
                return f.write_str(" [shape=plaintext, fontcolor=gray, label=\"denied\"];\n");
            }
        }
        Ok(())
    }
}

impl fmt::Display for ListGraph<'_> {
    fn fmt<W: fmt::Write>(&self, f: &mut fmt::Formatter<W>) -> fmt::Result {
        let (list, keeps) = (self.tree.list, self.tree.keeps);
        let (pages, caps) = (list.pages(), list.caps());
        write!(
            f,
            "digraph machine {{\n  rankdir=LR;\n  label=\"{pages} pages, {caps} caps; init keeps {keeps}\";\n"
        )?;
        self.show_denied(f, 0, 0)?;
        self.show_nodes(f)?;
        for node in &self.tree.nodes {
            for one in &node.requests {
                for decision in one.decisions.as_slice() {
                    show_edge(f, list, one, decision)?;
                }
            }
        }
        f.write_str("}\n")
    }
}

// Returns whether some request of a component is denied.
fn has_denied(node: &TreeNode<'_>) -> bool {
    for one in &node.requests {
        for decision in one.decisions.as_slice() {
            if decision.child().is_none() {
                return true;
            }
        }
    }
    false
}

// Writes two spaces, and two for each init above.
fn show_margin<W: fmt::Write>(f: &mut fmt::Formatter<W>, depth: usize) -> fmt::Result {
    f.write_str("  ")?;
    f.write_repeated("  ", depth)
}

// Writes the ends of the boxes that have begun, to a depth.
fn show_ends<W: fmt::Write>(f: &mut fmt::Formatter<W>, depth: usize, boxes: usize) -> fmt::Result {
    for left in (depth..boxes).rev() {
        show_margin(f, left)?;
        f.write_str("}\n")?;
    }
    Ok(())
}

// Writes the name of the node of what the list of an init has denied.
fn show_denied_name<W: fmt::Write>(
    f: &mut fmt::Formatter<W>,
    init: Option<&ListEntry>,
) -> fmt::Result {
    match init {
        Some(init) => write!(f, "\"{}/(denied)\"", init.to_path()),
        None => f.write_str("\"(denied)\""),
    }
}

// Writes the begin of the box of an init, and its text, below so many inits and itself.
fn show_box<W: fmt::Write>(
    f: &mut fmt::Formatter<W>,
    node: &TreeNode<'_>,
    depth: usize,
) -> fmt::Result {
    write!(f, "subgraph \"cluster_{}\" {{\n", node.entry.to_path())?;
    show_margin(f, depth)?;
    f.write_str("label=\"")?;
    show_text(f, node)?;
    f.write_str("\";\n")
}

// Writes the node of a component. Paths have no character that is to be escaped.
fn show_leaf<W: fmt::Write>(f: &mut fmt::Formatter<W>, node: &TreeNode<'_>) -> fmt::Result {
    let entry = node.entry;
    let shape = if entry.is_server() { "box" } else { "ellipse" };
    write!(f, "\"{}\" [shape={shape}, label=\"", entry.to_path())?;
    show_text(f, node)?;
    f.write_str("\"];\n")
}

// Writes the text of a component: its path, what it has, what it provides, and the kinds that it declares.
fn show_text<W: fmt::Write>(f: &mut fmt::Formatter<W>, node: &TreeNode<'_>) -> fmt::Result {
    let entry = node.entry;
    let binary = entry.binary();
    write!(f, "{} ({})\\n", entry.to_path(), binary_word(binary))?;
    node.show_budget(f, "\\n")?;
    match entry.service() {
        Some(service) if entry.provides() => write!(f, "\\nprovides {service}")?,
        _ => {}
    }
    write!(f, "{}", KindsText::of("\\n", binary))
}

// Writes the edge of a decision, from the client to a server, or to the node of what its list has denied.
fn show_edge<W: fmt::Write>(
    f: &mut fmt::Formatter<W>,
    list: &StartList,
    one: &ScriptDecisions<'_>,
    decision: &RouteDecision,
) -> fmt::Result {
    let client = one.entry;
    write!(f, "  \"{}\" -> ", client.to_path())?;
    match server_of(list, decision) {
        Some(server) => write!(f, "\"{}\" [label=\"", server.to_path())?,
        None => {
            show_denied_name(f, list.init_entry(client.home()))?;
            f.write_str(" [color=gray, fontcolor=gray, label=\"")?;
        }
    }
    f.write_str(one.service)?;
    let places = decision.rules();
    show_rule_lines(
        f,
        &RulesText {
            list,
            client,
            places,
        },
    )?;
    if let Some(label) = label_of(one, decision) {
        write!(f, "\\nwith label \\\"{label}\\\"")?;
    }
    f.write_str("\"];\n")
}
