//! Trees loaded by their roots, and a node placed over two trees.
ghost use Rattle.std.specs.Prelude.{◌≡◌, ◌≢◌, ℕ, ◌+◌, ◌*◌, ◌^◌, ◌<◌, ◌≤◌, max};
ghost use Rattle.avl_tree.specs.Tree.{Tree, Node, root_of};
ghost use Rattle.avl_tree.specs.View.{Holds, IsRelinked};
ghost use Rattle.avl_tree.specs.Made.{IsSubtree, AreSubtrees, IsTold, ReadsSubtrees};

use super::node::{Links, Nodes, Subtree, Subtrees};

/// The empty tree.
pub(crate) const NO_LIMB: Subtree = Subtree { root: 0, high: 0 };

/// Loads the height of the tree with this root.
pub(crate) fn subtree_of<N: Nodes>(nodes: &N, memory: &mut N::Memory, root: u64) -> Subtree
    requires { root ≢ 0 → N.IsNode nodes.now memory.old root }
    ensures is { (t : Tree) → Holds (N.view nodes.now memory.old) t → root_of t ≡ root →
        IsSubtree t result }
    ensures view { N.view nodes.now memory.new ≡ N.view nodes.now memory.old }
    ensures keeps { N.Keeps nodes.now memory.old memory.new }
    ensures loads { N.loads memory.new ≤ N.loads memory.old + N.cost }
{
    if root == 0 {
        return NO_LIMB;
    }
    let high = nodes.high(memory, root);
    Subtree { root, high }
}

/// Returns the tree after a change, or loads the one with this root if `change` is `None`: root and height are then
/// unchanged.
pub(crate) fn subtree_now<N: Nodes>(
    nodes: &N,
    memory: &mut N::Memory,
    root: u64,
    change: Option<Subtree>,
) -> Subtree
    requires { root ≢ 0 → N.IsNode nodes.now memory.old root }
    ensures is { (old new : Tree) → IsTold old new change →
        Holds (N.view nodes.now memory.old) new →
        root_of old ≡ root → IsSubtree new result }
    ensures view { N.view nodes.now memory.new ≡ N.view nodes.now memory.old }
    ensures keeps { N.Keeps nodes.now memory.old memory.new }
    ensures loads { N.loads memory.new ≤ N.loads memory.old + N.cost }
{
    match change {
        Some(limb) => limb,
        None => subtree_of(nodes, memory, root),
    }
}

/// Loads the two subtrees of a node.
pub(crate) fn subtrees_of<N: Nodes>(nodes: &N, memory: &mut N::Memory, node: u64) -> Subtrees
    requires { ReadsSubtrees (N.IsNode nodes.now memory.old)
        (N.view nodes.now memory.old) node }
    ensures arms { (l : Tree) (s h : ℕ) (r : Tree) →
        Holds (N.view nodes.now memory.old) (Node l node s h r) → AreSubtrees l r result }
    ensures left_low { result.left.high < 2 ^ 18 }
    ensures right_low { result.right.high < 2 ^ 18 }
    ensures left_node { 1 ≤ result.left.high →
        N.IsNode nodes.now memory.old result.left.root }
    ensures right_node { 1 ≤ result.right.high →
        N.IsNode nodes.now memory.old result.right.root }
    ensures view { N.view nodes.now memory.new ≡ N.view nodes.now memory.old }
    ensures keeps { N.Keeps nodes.now memory.old memory.new }
    ensures loads { N.loads memory.new ≤ N.loads memory.old + 3 * N.cost }
{
    let links = nodes.links(memory, node);
    let left = subtree_of(nodes, memory, links.left);
    let right = subtree_of(nodes, memory, links.right);
    Subtrees { left, right }
}

/// Links a node over two trees, and returns the tree that it forms.
pub(crate) fn fork<N: Nodes>(
    nodes: &N,
    memory: &mut N::Memory,
    left: Subtree,
    node: u64,
    right: Subtree,
) -> Subtree
    requires node { N.IsNode nodes.now memory.old node }
    requires left_low { left.high < 2 ^ 20 }
    requires right_low { right.high < 2 ^ 20 }
    ensures limb { result ≡ record { root = node; high = 1 + max left.high right.high } }
    ensures links { IsRelinked N.plan (N.view nodes.now memory.old)
        (N.view nodes.now memory.new) node
        (record { left = left.root; right = right.root; high = 1 + max left.high right.high }) }
    ensures keeps { N.Keeps nodes.now memory.old memory.new }
    ensures loads { N.loads memory.new ≡ N.loads memory.old }
{
    let high = 1 + left.high.max(right.high);
    let links = Links {
        left: left.root,
        right: right.root,
        high,
    };
    nodes.set_links(memory, node, links);
    Subtree { root: node, high }
}
