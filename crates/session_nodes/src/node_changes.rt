//! The nodes of a session: how they are removed, and how a node gets another content.
ghost use Rattle.std.specs.Prelude.{◌≡◌, ◌≢◌, ◌+◌, ◌<◌, ◌≤◌, ◌==◌, true, length, if◌then◌else◌};
ghost use Rattle.sliced_heap.specs.Chain.{is_listed};
ghost use Rattle.session_nodes.specs.Calls.{HasBytes};
ghost use Rattle.session_nodes.specs.Index.{ChangesTails, previous_at};
ghost use Rattle.session_nodes.specs.Node.{value_of as node_value};
ghost use Rattle.session_nodes.specs.NodeList.{nodes_in, Finds, HasNodes, IsListed, IsOwn, LinksTo, PutsUser, Removes, Replaces, Unlists};
ghost use Rattle.session_nodes.specs.Order.{HasContent};
ghost use Rattle.session_nodes.specs.SessionHeaps.{stock_of, AreSoundHeaps, KeepsHeaps};

use crate::name_tree::PREVIOUS;
use crate::node::{NEXT, Node};
use crate::node_list::{FoundNode, NodeList};
use crate::recent::recent_without;
use dataspace_core::Memory;
use region_map::RegionMap;
use std::marker::Brand;
use std::sync::ledger::Blank;

impl NodeList {
    /// Removes a node that is found, and then frees its block and its content.
    pub fn remove(&mut self, memory: &mut Memory, map: &mut RegionMap, found: FoundNode)
        requires furnished { AreSoundHeaps self.old.heaps memory.old map.old }
        requires files { HasNodes self.old (stock_of self.old.heaps memory.old map.old) }
        requires found { Finds self.old
            (stock_of self.old.heaps memory.old map.old) found.node.name.items found }
        ensures removed { Removes self.old self.new found.address
            (stock_of self.old.heaps memory.old map.old)
            (stock_of self.new.heaps memory.new map.new) }
        ensures keeps { KeepsHeaps self.old.heaps self.new.heaps
            memory.old memory.new map.old map.new }
    {
        let FoundNode { address, node } = found;
        let previous = self.unlist(memory, map, address, &node);
        self.link(memory, map, previous, node.next);
        self.last = last_without(self.last, address, previous);
        self.recent = recent_without(self.recent, address, node.next);
        self.heaps.give_node(memory, map, address);
        if node.size > 0 {
            self.heaps.give_content(memory, map, node.content);
        }
    }

    /// Replaces the content of a node that is found, and then frees the old one. The new one is no content if it has no bytes.
    pub fn replace(
        &mut self,
        memory: &mut Memory,
        map: &mut RegionMap,
        found: FoundNode,
        content: u64,
        size: u64,
    )
        requires furnished { AreSoundHeaps self.old.heaps memory.old map.old }
        requires files { HasNodes self.old (stock_of self.old.heaps memory.old map.old) }
        requires found { Finds self.old
            (stock_of self.old.heaps memory.old map.old) found.node.name.items found }
        requires content { 0 < size
            → HasContent (stock_of self.old.heaps memory.old map.old).contents
            (record (node_value found.node) { content = content; size = size }) }
        requires own { 0 < size
            → IsOwn self.old.first
            (stock_of self.old.heaps memory.old map.old).nodes content }
        ensures replaced { Replaces self.old self.new found.address content size
            (stock_of self.old.heaps memory.old map.old)
            (stock_of self.new.heaps memory.new map.new) }
        ensures keeps { KeepsHeaps self.old.heaps self.new.heaps
            memory.old memory.new map.old map.new }
    {
        let FoundNode { address, node } = found;
        self.heaps
            .store_content(memory, map, address, content, size);
        if node.size > 0 {
            self.heaps.give_content(memory, map, node.content);
        }
    }

    /// Overwrites the block of a node after the bytes of the node, from an offset on.
    pub fn put_user(
        &self,
        memory: &mut Memory,
        map: &RegionMap,
        address: u64,
        offset: u64,
        bytes: &[u8],
    )
        requires furnished { AreSoundHeaps self.now.heaps memory.old map.now }
        requires nodes { HasNodes self.now (stock_of self.now.heaps memory.old map.now) }
        requires listed { is_listed
            (nodes_in self.now (stock_of self.now.heaps memory.old map.now)) address ≡ true }
        requires room { HasBytes (stock_of self.now.heaps memory.old map.now).nodes.payloads
            address 0 (offset + length bytes.now) }
        requires after { 96 ≤ offset }
        requires some { 1 ≤ length bytes.now }
        ensures put { PutsUser self.now address offset bytes.now
            (stock_of self.now.heaps memory.old map.now)
            (stock_of self.now.heaps memory.new map.now) }
        ensures keeps { KeepsHeaps self.now.heaps self.now.heaps
            memory.old memory.new map.now map.now }
    {
        self.heaps
            .put_block_bytes(memory, map, address, offset, bytes);
    }

    /// Removes a node from the tree, links the next node back to the previous one, and returns the previous one.
    fn unlist(&mut self, memory: &mut Memory, map: &RegionMap, address: u64, node: &Node) -> u64
        requires furnished { AreSoundHeaps self.old.heaps memory.old map.now }
        requires files { HasNodes self.old (stock_of self.old.heaps memory.old map.now) }
        requires listed { IsListed self.old
            (stock_of self.old.heaps memory.old map.now) address (node_value node.now) }
        ensures previous { result ≡ previous_at
            (stock_of self.old.heaps memory.old map.now).nodes address }
        ensures tails { ChangesTails (stock_of self.old.heaps memory.old map.now)
            (stock_of self.new.heaps memory.new map.now) }
        ensures unlists { Unlists self.old self.new address
            (stock_of self.old.heaps memory.old map.now)
            (stock_of self.new.heaps memory.new map.now) }
        ensures same { self.new ≡ record self.old { root = self.new.root } }
        ensures keeps { KeepsHeaps self.old.heaps self.new.heaps
            memory.old memory.new map.now map.now }
    {
        let previous = self.heaps.load_word(memory, map, address, PREVIOUS);
        self.root = self
            .heaps
            .leave::<Brand>(memory, map, self.root, &node.name, Blank::new(1));
        self.heaps.link_back(memory, map, node.next, previous);
        previous
    }

    /// Links a node to another one. The holder is the list itself if its address is 0.
    pub(crate) fn link(&mut self, memory: &mut Memory, map: &RegionMap, holder: u64, address: u64)
        requires furnished { AreSoundHeaps self.old.heaps memory.old map.now }
        requires there { holder ≢ 0
            → HasBytes
            (stock_of self.old.heaps memory.old map.now).nodes.payloads holder 0 96 }
        ensures links { LinksTo self.old.first holder address self.new.first
            (stock_of self.old.heaps memory.old map.now).nodes
            (stock_of self.new.heaps memory.new map.now).nodes }
        ensures rest { let new = stock_of self.new.heaps memory.new map.now in
            new ≡ record (stock_of self.old.heaps memory.old map.now) { nodes = new.nodes } }
        ensures same { self.new ≡ record self.old { first = self.new.first } }
        ensures keeps { KeepsHeaps self.old.heaps self.new.heaps
            memory.old memory.new map.now map.now }
    {
        if holder == 0 {
            self.first = address;
            return;
        }
        let word = address.to_le_bytes();
        self.heaps.put_bytes(memory, map, holder, NEXT, &word);
    }
}

/// Returns the last node's address after the node at an address is removed, given the node before it.
fn last_without(last: u64, address: u64, previous: u64) -> u64
    ensures { result ≡ (if last == address then previous else last) }
{
    if last == address { previous } else { last }
}
