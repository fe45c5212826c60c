//! The tree of a start list as records.
ghost use Rattle.std.specs.Prelude.{◌≡◌, ◌∷◌, ◌++◌, [], map, IfOk, OnOk, Some, true};
ghost use Rattle.std.specs.List.{flat_map};
ghost use Rattle.std.specs.Option.{option_copied, option_map};
ghost use Rattle.own_model.specs.Account.{Account};
ghost use Rattle.list_parts.specs.Kinds.{kinds_data};
ghost use Rattle.view_records.specs.Cells.{cell_data};
ghost use Rattle.view_records.specs.JsonTexts.{json_text, list_data};
ghost use Rattle.view_records.specs.Lists.{records_of};
ghost use Rattle.view_records.specs.Records.{if_number, if_text, null_if_absent};
ghost use Rattle.list_tree.specs.DecisionTexts.{rules_text};
ghost use Rattle.list_tree.specs.Records.{component_record, decision_record, node_records, tree_records};

use crate::rules_text::RulesText;
use crate::tree::{ListTree, TreeNode, label_of, server_of};
use list_labels::ClientLabel;
use list_parser::{ListEntry, StartList};
use list_parts::{StartQuota, binary_word, kinds_of, provided_cell, reserve_cells};
use list_reach::{RouteDecision, ScriptDecisions};
use std::alloc::{AllocError, Global};
use view_records::{Cell, RecordList};

impl ListTree<'_> {
    /// Returns the tree as a JSON list. It has a record for the machine, for what its init keeps, and for each component, followed
    /// by those of its requests. Fails if the host is out of memory.
    pub fn documents(&self, alloc: Global) -> Result<Vec<u8>, AllocError>
        ensures { IfOk result (λ text. text.items ≡ json_text (tree_records self.now)) }
    {
        let (list, keeps) = (self.list, self.keeps);
        let mut records = RecordList::new(alloc);
        records.add(&[
            ("kind", Cell::Word("machine")),
            ("pages", Cell::Number(u64::from(list.pages()))),
            ("caps", Cell::Number(u64::from(list.caps()))),
        ])?;
        records.add(&[
            ("kind", Cell::Word("init")),
            ("keeps_ram", Cell::Number(keeps.ram)),
            ("keeps_caps", Cell::Number(u64::from(keeps.caps))),
        ])?;
        for node in &self.nodes {
            add_node(alloc, &mut records, list, node)?;
        }
        records.to_json()
    }
}

// Adds a component, and the decisions on its requests, service by service.
fn add_node<'a>(
    alloc: Global,
    records: &mut RecordList,
    list: &'a StartList,
    node: &'a TreeNode<'a>,
) -> Result<(), AllocError>
    ensures { OnOk result
        (records_of records.new ≡ records_of records.old ++ node_records list.now node.now) }
{
    add_component(alloc, records, node)?;
    for one in &node.requests {
        add_decisions(alloc, records, list, one)?;
    }
    Ok(())
}

// Adds a component.
fn add_component(
    alloc: Global,
    records: &mut RecordList,
    node: &TreeNode<'_>,
) -> Result<(), AllocError>
    ensures { OnOk result
        (records_of records.new ≡ records_of records.old ++ component_record node.now ∷ []) }
{
    let kinds = kinds_of(alloc, node.entry.binary())?;
    add_declared(records, node, kinds.as_ref())
}

// Adds a component with its budget, the service that it provides, and these kinds of the server that it declares.
fn add_declared<'a>(
    records: &mut RecordList,
    node: &'a TreeNode<'a>,
    kinds: Option<&'a RecordList>,
) -> Result<(), AllocError>
    requires { option_map (λ list. list_data (records_of list)) (option_copied kinds)
        ≡ kinds_data node.now.entry.now.binary }
    ensures { OnOk result
        (records_of records.new ≡ records_of records.old ++ component_record node.now ∷ []) }
{
    let entry = node.entry;
    let (reserve_ram, reserve_caps) = reserve_cells(entry.reserve());
    let (keeps_ram, keeps_caps) = keeps_cells(node.keeps);
    records.add(&[
        ("kind", Cell::Word("component")),
        ("name", Cell::Text(entry.path())),
        ("binary", Cell::Word(binary_word(entry.binary()))),
        ("ram", Cell::Number(entry.ram())),
        ("caps", Cell::Number(u64::from(entry.caps()))),
        ("reserve_ram", reserve_ram),
        ("reserve_caps", reserve_caps),
        ("keeps_ram", keeps_ram),
        ("keeps_caps", keeps_caps),
        ("provides", provided_cell(entry)),
        ("kinds", Cell::if_list(kinds)),
    ])
}

// Returns the RAM and the capabilities that an init keeps, if the component is one.
fn keeps_cells<'a>(keeps: Option<StartQuota>) -> (Cell<'a>, Cell<'a>)
    ensures ram { cell_data result.0 ≡ if_number (option_map (λ (left : Account). left.ram_limit) keeps) }
    ensures caps { cell_data result.1 ≡ if_number (option_map (λ (left : Account). left.caps_limit) keeps) }
{
    match keeps {
        Some(keeps) => (Cell::Number(keeps.ram), Cell::Number(u64::from(keeps.caps))),
        None => (Cell::Absent, Cell::Absent),
    }
}

// Returns the path of an entry, or null if there is none.
fn path_cell<'a>(entry: Option<&'a ListEntry>) -> Cell<'a>
    ensures { cell_data result
        ≡ null_if_absent (if_text (option_map (λ entry. entry.path) (option_copied entry.entry))) }
{
    match entry {
        Some(entry) => Cell::Text(entry.path()),
        None => Cell::Null,
    }
}

// Returns a label, or null if there is none.
fn label_cell<'a>(label: Option<&'a ClientLabel>) -> Cell<'a>
    ensures { cell_data result ≡ null_if_absent (if_text (option_copied label.entry)) }
{
    match label {
        Some(label) => Cell::Text(label.as_bytes()),
        None => Cell::Null,
    }
}

// Adds the decisions on a script's requests for a service.
fn add_decisions<'a>(
    alloc: Global,
    records: &mut RecordList,
    list: &'a StartList,
    one: &'a ScriptDecisions<'a>,
) -> Result<(), AllocError>
    ensures { OnOk result (records_of records.new
        ≡ records_of records.old ++ map (decision_record list.now one.now) one.now.decisions) }
{
    for decision in one.decisions.as_slice() {
        add_decision(alloc, records, list, one, decision)?;
    }
    Ok(())
}

// Adds a decision.
fn add_decision<'a>(
    alloc: Global,
    records: &mut RecordList,
    list: &'a StartList,
    one: &'a ScriptDecisions<'a>,
    decision: &'a RouteDecision,
) -> Result<(), AllocError>
    ensures { OnOk result (records_of records.new
        ≡ records_of records.old ++ decision_record list.now one.now decision.now ∷ []) }
{
    let rules = RulesText {
        list,
        client: one.entry,
        places: decision.rules(),
    };
    let by = rules.to_string(alloc)?;
    add_decided(records, list, one, decision, by.as_str())
}

// Adds a decision by these rules.
fn add_decided<'a>(
    records: &mut RecordList,
    list: &'a StartList,
    one: &'a ScriptDecisions<'a>,
    decision: &'a RouteDecision,
    by: &'a str,
) -> Result<(), AllocError>
    requires { by.now ≡ rules_text true list.now (Some one.now.entry.now) decision.now.rules }
    ensures { OnOk result (records_of records.new
        ≡ records_of records.old ++ decision_record list.now one.now decision.now ∷ []) }
{
    records.add(&[
        ("kind", Cell::Word("wish")),
        ("name", Cell::Text(one.entry.path())),
        ("service", Cell::Word(one.service)),
        ("to", path_cell(server_of(list, decision))),
        ("by", Cell::Word(by)),
        ("label", label_cell(label_of(one, decision))),
    ])
}
