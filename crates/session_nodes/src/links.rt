//! Links of nodes in the order of creation: walks along them, over the bytes of one page at a time, and links back.
ghost use Rattle.std.specs.Prelude.{◌≡◌, ◌≢◌, ℕ, ◌+◌, ◌-◌, ◌%◌, ◌<◌, ◌≤◌, length};
ghost use Rattle.session_nodes.specs.Calls.{HasBytes};
ghost use Rattle.session_nodes.specs.SessionHeaps.{stock_of, AreSoundHeaps, KeepsHeaps};
ghost use Rattle.session_nodes.specs.Index.{word_at, AreOnTheWay, LinksBack};
ghost use Rattle.session_nodes.specs.Links.{followed, ShowsLinks};

use crate::name_tree::PREVIOUS;
use crate::node::word_in;
use crate::session_heaps::SessionHeaps;
use dataspace_core::Memory;
use region_map::RegionMap;
use trade_base::PAGE;

/// The last offset of a word in a page.
const LAST_WORD: u64 = PAGE - 8;

impl SessionHeaps {
    /// Follows this number of links from the node at an address on, each the word at the offset `link` of a node's block.
    /// Returns the address to which they lead, or 0 after the last one.
    pub fn follow(&self, memory: &Memory, map: &RegionMap, from: u64, link: u64, count: u64) -> u64
        requires furnished { AreSoundHeaps self.now memory.now map.now }
        requires aligned { link % 8 ≡ 0 }
        requires within { link + 8 ≤ 96 }
        requires there { AreOnTheWay (stock_of self.now memory.now map.now).nodes link from count }
        ensures { result
            ≡ followed (word_at (stock_of self.now memory.now map.now).nodes link) count from }
    {
        let mut address = from;
        let mut left = count;
        'pages: while left > 0 && address != 0 {
            let (next, fewer) = self.follow_in_page(memory, map, address, link, left);
            address = next;
            left = fewer;
        }
        address
    }

    /// Links the node at an address, if there is one, back to another node.
    pub fn link_back(&self, memory: &mut Memory, map: &RegionMap, address: u64, previous: u64)
        requires furnished { AreSoundHeaps self.now memory.old map.now }
        requires there { address ≢ 0 → HasBytes
            (stock_of self.now memory.old map.now).nodes.payloads address 0 96 }
        ensures links { LinksBack address previous
            (stock_of self.now memory.old map.now)
            (stock_of self.now memory.new map.now) }
        ensures keeps { KeepsHeaps self.now self.now
            memory.old memory.new map.now map.now }
    {
        if address != 0 {
            let word = previous.to_le_bytes();
            self.put_bytes(memory, map, address, PREVIOUS, &word);
        }
    }

    /// Follows at least one of these links, and others while they lie in the same page. Returns the address to which they
    /// lead, and the number of links that are left.
    fn follow_in_page(
        &self,
        memory: &Memory,
        map: &RegionMap,
        from: u64,
        link: u64,
        count: u64,
    ) -> (u64, u64)
        requires furnished { AreSoundHeaps self.now memory.now map.now }
        requires aligned { link % 8 ≡ 0 }
        requires within { link + 8 ≤ 96 }
        requires some { 0 < count }
        requires block { from ≢ 0 }
        requires there { AreOnTheWay (stock_of self.now memory.now map.now).nodes link from count }
        ensures fewer { result.1 < count }
        ensures address { result.0 ≡ followed
            (word_at (stock_of self.now memory.now map.now).nodes link)
            (count - result.1) from }
    {
        map.lies_apart();
        let (ds, at) = self.find_node(memory, map, from);
        let offset = at + link;
        let page = memory.page(ds, offset);
        let front = from - offset % PAGE;
        follow_links(page, front, from, count)
    }
}

/// Follows at least one link, and others while the links lie in a page. The link of a block at the address `front` would be at
/// the page's front. Returns the address to which they lead, and the number of links that are left.
fn follow_links(page: &[u8], front: u64, from: u64, count: u64) -> (u64, u64)
    requires size { length page.now ≡ 4096 }
    requires some { 0 < count }
    requires above { 0 < front }
    requires low { front ≤ from }
    requires high { from ≤ front + 4088 }
    ensures fewer { result.1 < count }
    ensures address { (link : ℕ → ℕ) → ShowsLinks page.now front link from count →
        result.0 ≡ followed link (count - result.1) from }
{
    let mut address = word_in(page, (from - front) as usize);
    let mut left = count - 1;
    'links: while left > 0 && address >= front && address - front <= LAST_WORD {
        address = word_in(page, (address - front) as usize);
        left -= 1;
    }
    (address, left)
}
