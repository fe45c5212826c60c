//! Nodes in a memory, as their owner presents them.
ghost use Rattle.std.specs.Prelude.{◌≡◌, ℕ, ◌+◌, ◌≤◌};
ghost use Rattle.avl_tree.specs.View.{View, Plan, IsRelinked, IsStep};

/// The children of a node, each by its number or 0 for none, and the height of the node's subtree.
#[derive(Clone, Copy)]
pub struct Links {
    pub left: u64,
    pub right: u64,
    pub high: u64,
}

/// The direction in which a search for a key continues at a node.
#[derive(Clone, Copy)]
pub enum SearchStep {
    /// Continue at the left child: the key is before the node's key.
    Left(u64),
    /// Stop: the node has the key.
    Here,
    /// Continue at the right child: the key is after the node's key.
    Right(u64),
}

/// Nodes by their numbers in a memory. No node has number 0.
///
/// Contracts see a memory as a `View`: the links and the rank of each number, and the rest, by places. The `plan` states
/// which places a node occupies, and which of them a change of its links may change. Keys are ordered by their ranks.
pub trait Nodes {
    /// The memory in which the nodes are stored.
    type Memory;

    /// The key by which the nodes are ordered.
    type Key: Copy;

    /// The content of a place other than links and ranks.
    ghost Rest: { Type 0 };

    /// Which numbers are nodes.
    ghost IsNode: { Self → Self.Memory → ℕ → Type 0 };

    /// What a call preserves in addition to the view.
    ghost Keeps: { Self → Self.Memory → Self.Memory → Type 0 };

    ghost rank: { Self.Key → ℕ };

    ghost view: { Self → Self.Memory → View Rest };

    ghost plan: { Plan };

    /// The number of loads so far.
    ghost loads: { Self.Memory → ℕ };

    /// The maximum number of loads of one call.
    ghost cost: { ℕ };

    /// Compares a key with that of a node, and returns the direction in which the search continues.
    fn step(&self, memory: &mut Self::Memory, key: Self::Key, node: u64) -> SearchStep
        requires { IsNode self.now memory.old node }
        ensures step { IsStep (view self.now memory.old) (rank key) node result }
        ensures view { view self.now memory.new ≡ view self.now memory.old }
        ensures keeps { Keeps self.now memory.old memory.new }
        ensures loads { loads memory.new ≤ loads memory.old + cost };

    /// Loads the links and the height of a node.
    fn links(&self, memory: &mut Self::Memory, node: u64) -> Links
        requires { IsNode self.now memory.old node }
        ensures links { result ≡ (view self.now memory.old).links node }
        ensures view { view self.now memory.new ≡ view self.now memory.old }
        ensures keeps { Keeps self.now memory.old memory.new }
        ensures loads { loads memory.new ≤ loads memory.old + cost };

    /// Loads the height of a node's subtree.
    fn high(&self, memory: &mut Self::Memory, node: u64) -> u64
        requires { IsNode self.now memory.old node }
        ensures high { result ≡ ((view self.now memory.old).links node).high }
        ensures view { view self.now memory.new ≡ view self.now memory.old }
        ensures keeps { Keeps self.now memory.old memory.new }
        ensures loads { loads memory.new ≤ loads memory.old + cost };

    /// Stores the links and the height of a node. Nothing else changes.
    fn set_links(&self, memory: &mut Self::Memory, node: u64, links: Links)
        requires { IsNode self.now memory.old node }
        ensures links { IsRelinked plan (view self.now memory.old)
            (view self.now memory.new) node links }
        ensures keeps { Keeps self.now memory.old memory.new }
        ensures loads { loads memory.new ≡ loads memory.old };

    /// An unchanged memory is preserved.
    ghost keeps_same: { (nodes : Self) (memory : Self.Memory) → Keeps nodes memory memory };

    /// Preservation is transitive.
    ghost keeps_then: { (nodes : Self) (old between new : Self.Memory) →
        Keeps nodes old between → Keeps nodes between new → Keeps nodes old new };

    /// A preserved node stays a node.
    ghost keeps_node: { (nodes : Self) (old new : Self.Memory) (node : ℕ) →
        Keeps nodes old new → IsNode nodes old node → IsNode nodes new node };
}

/// A tree, by its root and its height; both are 0 for the empty tree.
#[derive(Clone, Copy)]
pub(crate) struct Subtree {
    pub(crate) root: u64,
    pub(crate) high: u64,
}

/// The two subtrees of a node.
#[derive(Clone, Copy)]
pub(crate) struct Subtrees {
    pub(crate) left: Subtree,
    pub(crate) right: Subtree,
}
