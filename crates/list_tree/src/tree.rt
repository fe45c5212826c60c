//! The components of a start list, and the servers to which their session requests are routed, as a value and as text.
ghost use Rattle.std.specs.Prelude.{◌≡◌, ◌<◌, ◌≤◌, Some, length, All, IfOk, OnOk};
ghost use Rattle.std.specs.List.{slice_get};
ghost use Rattle.std.specs.Option.{option_copied};
ghost use Rattle.own_model.specs.Listed.{start_list_of};
ghost use Rattle.own_model.specs.StartList.{inits_kept};
ghost use Rattle.list_tree.specs.Nodes.{AddsNode, IsNode, IsTreeOf, keeps_of, label_of, server_of};

use crate::rules_text::RulesText;
use list_labels::ClientLabel;
use list_parser::{ListEntry, StartList};
use list_parts::{InitQuotas, KindsText, StartQuota, binary_word, kept, left_of};
use list_reach::{RouteDecision, ScriptDecisions};
use std::alloc::{AllocError, Global};
use std::fmt;

/// The tree of a start list: its machine, what inits keep, and each component with its budget below its init. For each script and
/// service it has the server to which requests are routed, and the rules with their conditions on the label. It has a label, if
/// other labels are routed elsewhere.
#[derive(Drop)]
pub struct ListTree<'a> {
    pub(crate) list: &'a StartList,
    // The RAM and the capabilities that the machine's init keeps.
    pub(crate) keeps: StartQuota,
    pub(crate) nodes: Vec<TreeNode<'a>>,
}

/// A component of a tree.
#[derive(Drop)]
pub(crate) struct TreeNode<'a> {
    /// The number of the component, at most 31.
    pub number: u8,
    /// The component.
    pub entry: &'a ListEntry,
    /// The RAM and the capabilities that an init keeps.
    pub keeps: Option<StartQuota>,
    /// The decisions on the requests of a script, service by service; no others have any.
    pub requests: Vec<ScriptDecisions<'a>>,
}

impl<'a> ListTree<'a> {
    /// Returns the tree of a start list. Fails if the host is out of memory.
    pub fn of(alloc: Global, list: &'a StartList) -> Result<ListTree<'a>, AllocError>
        ensures { IfOk result (IsTreeOf list.now) }
    {
        let inits = kept(list);
        let count = list.count();
        prove!(count <= 32);
        let mut nodes = Vec::new(alloc);
        for (number, entry) in list.entries().iter().enumerate() {
            add_node(alloc, &mut nodes, list, &inits, number, entry)?;
        }
        Ok(ListTree {
            list,
            keeps: left_of(&inits, 0),
            nodes,
        })
    }
}

impl fmt::Display for ListTree<'_> {
    fn fmt<W: fmt::Write>(&self, f: &mut fmt::Formatter<W>) -> fmt::Result {
        let (list, keeps) = (self.list, self.keeps);
        let (pages, caps) = (list.pages(), list.caps());
        write!(
            f,
            "machine: {pages} pages, {caps} caps\ninit keeps: {keeps}\n"
        )?;
        for node in &self.nodes {
            show_component(f, node)?;
            for one in &node.requests {
                for decision in one.decisions.as_slice() {
                    f.write_repeated("  ", node.depth())?;
                    show_decision(f, list, one, decision)?;
                }
            }
        }
        Ok(())
    }
}

impl TreeNode<'_> {
    /// Writes the budget of the component, with a text between the account and the rest.
    pub(crate) fn show_budget<W: fmt::Write>(
        &self,
        f: &mut fmt::Formatter<W>,
        between: &str,
    ) -> fmt::Result {
        let entry = self.entry;
        let own = StartQuota {
            ram: entry.ram(),
            caps: entry.caps(),
        };
        write!(f, "{own}")?;
        if let Some(reserve) = entry.reserve() {
            let left = StartQuota {
                ram: reserve.ram.0,
                caps: reserve.caps.0,
            };
            write!(f, "{between}reserve {left}")?;
        }
        match self.keeps {
            Some(left) => write!(f, "{between}keeps {left}"),
            None => Ok(()),
        }
    }

    /// Returns the number of inits above the component.
    pub(crate) fn depth(&self) -> usize
        ensures { result ≤ 131 }
    {
        let path = self.entry.path();
        path.iter().filter(|sign| **sign == b'/').count()
    }
}

/// Returns the server to which a decision routes requests, or none if they are denied.
pub(crate) fn server_of<'a>(list: &'a StartList, decision: &RouteDecision) -> Option<&'a ListEntry>
    ensures { option_copied result ≡ server_of list.now decision.now }
{
    list.entries().get(decision.child()?)
}

/// Returns a label of one of the requests of a decision, if others are decided otherwise.
pub(crate) fn label_of<'a>(
    one: &ScriptDecisions<'_>,
    decision: &'a RouteDecision,
) -> Option<&'a ClientLabel>
    ensures { option_copied result ≡ label_of one.now decision.now }
{
    if one.decisions.as_slice().len() == 1 {
        None
    } else {
        Some(decision.label())
    }
}

// Adds the node of an entry, of a machine whose inits keep these.
fn add_node<'a>(
    alloc: Global,
    nodes: &mut Vec<TreeNode<'a>>,
    list: &'a StartList,
    inits: &InitQuotas,
    number: usize,
    entry: &'a ListEntry,
) -> Result<(), AllocError>
    requires number { number < length list.now.entries }
    requires few { number < 32 }
    requires entry { slice_get list.now.entries number ≡ Some entry.now }
    requires inits { inits.now.items ≡ inits_kept (start_list_of list.now) }
    requires nodes { All (IsNode list.now) nodes.old.items }
    ensures { OnOk result
        (AddsNode list.now nodes.old.items (number, entry.now) nodes.new.items) }
{
    nodes.push(TreeNode {
        number: number as u8,
        entry,
        keeps: keeps_of(inits, number, entry),
        requests: ScriptDecisions::of_entry(alloc, list, number, entry)?,
    })?;
    Ok(())
}

// Returns what the entry of a number keeps as an init.
fn keeps_of(inits: &InitQuotas, number: usize, entry: &ListEntry) -> Option<StartQuota>
    requires { number < 32 }
    ensures { result ≡ keeps_of inits.now.items (number, entry.now) }
{
    if entry.reserve().is_none() && entry.is_init() {
        Some(left_of(inits, number + 1))
    } else {
        None
    }
}

// Writes a component with its budget, what it provides, and the kinds that it declares.
fn show_component<W: fmt::Write>(f: &mut fmt::Formatter<W>, node: &TreeNode<'_>) -> fmt::Result {
    let entry = node.entry;
    f.write_repeated("  ", node.depth())?;
    write!(f, "{} ({}): ", entry.to_name(), binary_word(entry.binary()))?;
    node.show_budget(f, ", ")?;
    match entry.service() {
        Some(service) if entry.provides() => write!(f, ", provides {service}")?,
        Some(_) => f.write_str(", provides nothing")?,
        None => {}
    }
    write!(f, "{}\n", KindsText::of(", ", entry.binary()))
}

// Writes the server to which requests are routed, by which rules, and with which label, if others are routed elsewhere. The server
// has its path if several lists decide, else its name in the client's list.
fn show_decision<W: fmt::Write>(
    f: &mut fmt::Formatter<W>,
    list: &StartList,
    one: &ScriptDecisions<'_>,
    decision: &RouteDecision,
) -> fmt::Result {
    let places = decision.rules();
    write!(f, "  {} -> ", one.service)?;
    match server_of(list, decision) {
        Some(server) if places.len() > 1 => write!(f, "{}", server.to_path())?,
        Some(server) => write!(f, "{}", server.to_name())?,
        None => f.write_str("denied")?,
    }
    let client = one.entry;
    write!(
        f,
        " by {}",
        RulesText {
            list,
            client,
            places
        }
    )?;
    match label_of(one, decision) {
        Some(label) => write!(f, ", with label \"{label}\"\n"),
        None => f.write_str("\n"),
    }
}
