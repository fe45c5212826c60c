//! The search tree. Its root denotes a tree, and 0 denotes the empty tree.
ghost use Rattle.std.specs.Prelude.{◌≡◌, ◌≢◌, ℕ, ◌+◌, ◌*◌, ◌≤◌};
ghost use Rattle.avl_tree.specs.Tree.{Tree, Node, high, found, inserted, removed, joined, first_of, rest_of};
ghost use Rattle.avl_tree.specs.View.{Stands, AreNodes, IsNew, HasTree, LacksNode, Becomes};
ghost use Rattle.avl_tree.specs.Made.{Forms, Reforms, root_after};

use super::node::{Nodes, SearchStep, Subtree};
use super::rotations::{balance, with_left, with_right};
use super::subtree::{NO_LIMB, fork, subtree_now, subtree_of};

/// Returns the first node whose key is not before `key`, or 0 if there is none.
pub fn find<N: Nodes>(nodes: &N, memory: &mut N::Memory, root: u64, key: N::Key) -> u64
    requires { HasTree (N.IsNode nodes.now memory.old) N.plan
        (N.view nodes.now memory.old) root }
    ensures found { (t : Tree) → Stands N.plan (N.view nodes.now memory.old) t root →
        result ≡ found (N.rank key) t }
    ensures view { N.view nodes.now memory.new ≡ N.view nodes.now memory.old }
    ensures keeps { N.Keeps nodes.now memory.old memory.new }
    ensures loads { (t : Tree) → Stands N.plan (N.view nodes.now memory.old) t root →
        N.loads memory.new ≤ N.loads memory.old + N.cost * high t }
{
    let mut node = root;
    let mut best = 0;
    while node != 0 {
        match nodes.step(memory, key, node) {
            SearchStep::Left(child) => {
                best = node;
                node = child;
            }
            SearchStep::Here => return node,
            SearchStep::Right(child) => node = child,
        }
    }
    best
}

/// Inserts a node with this key into the tree, and returns the new root.
pub fn insert<N: Nodes>(nodes: &N, memory: &mut N::Memory, root: u64, key: N::Key, node: u64) -> u64
    requires { LacksNode (N.IsNode nodes.now memory.old) N.plan
        (N.view nodes.now memory.old) root node (N.rank key) }
    ensures made { (t : Tree) → Stands N.plan (N.view nodes.now memory.old) t root →
        IsNew N.plan (N.view nodes.now memory.old) t node (N.rank key) →
        Becomes N.plan (N.view nodes.now memory.old) (N.view nodes.now memory.new)
        (inserted node (N.rank key) t) result }
    ensures keeps { N.Keeps nodes.now memory.old memory.new }
    ensures loads { (t : Tree) → Stands N.plan (N.view nodes.now memory.old) t root →
        IsNew N.plan (N.view nodes.now memory.old) t node (N.rank key) →
        N.loads memory.new ≤ N.loads memory.old + 10 * (N.cost * high t) }
{
    root_now(root, grow(nodes, memory, root, key, node))
}

/// Removes the node of a key from the tree, if there is one, and returns the new root.
pub fn remove<N: Nodes>(nodes: &N, memory: &mut N::Memory, root: u64, key: N::Key) -> u64
    requires { HasTree (N.IsNode nodes.now memory.old) N.plan
        (N.view nodes.now memory.old) root }
    ensures made { (t : Tree) → Stands N.plan (N.view nodes.now memory.old) t root →
        Becomes N.plan (N.view nodes.now memory.old) (N.view nodes.now memory.new)
        (removed (N.rank key) t) result }
    ensures keeps { N.Keeps nodes.now memory.old memory.new }
    ensures loads { (t : Tree) → Stands N.plan (N.view nodes.now memory.old) t root →
        N.loads memory.new ≤ N.loads memory.old + 10 * (N.cost * high t) }
{
    root_now(root, prune(nodes, memory, root, key))
}

/// Returns the root after a change of the tree with this root.
fn root_now(root: u64, change: Option<Subtree>) -> u64
    ensures { result ≡ root_after root change }
{
    match change {
        Some(limb) => limb.root,
        None => root,
    }
}

/// Inserts a node into the tree of a root. Returns the new tree, or `None` if root and height are unchanged.
fn grow<N: Nodes>(
    nodes: &N,
    memory: &mut N::Memory,
    root: u64,
    key: N::Key,
    node: u64,
) -> Option<Subtree>
    requires { LacksNode (N.IsNode nodes.now memory.old) N.plan
        (N.view nodes.now memory.old) root node (N.rank key) }
    ensures made { (t : Tree) → Stands N.plan (N.view nodes.now memory.old) t root →
        IsNew N.plan (N.view nodes.now memory.old) t node (N.rank key) →
        Reforms N.plan (N.view nodes.now memory.old) (N.view nodes.now memory.new) t
        (inserted node (N.rank key) t) result }
    ensures keeps { N.Keeps nodes.now memory.old memory.new }
    ensures loads { (t : Tree) → Stands N.plan (N.view nodes.now memory.old) t root →
        IsNew N.plan (N.view nodes.now memory.old) t node (N.rank key) →
        N.loads memory.new ≤ N.loads memory.old + 10 * (N.cost * high t) }
{
    if root == 0 {
        return Some(fork(nodes, memory, NO_LIMB, node, NO_LIMB));
    }
    match nodes.step(memory, key, root) {
        SearchStep::Left(child) => {
            let left = grow(nodes, memory, child, key, node);
            with_left(nodes, memory, root, left)
        }
        SearchStep::Here => None,
        SearchStep::Right(child) => {
            let right = grow(nodes, memory, child, key, node);
            with_right(nodes, memory, root, right)
        }
    }
}

/// Removes the node of a key from the tree of a root. Returns the new tree, or `None` if root and height are unchanged.
fn prune<N: Nodes>(nodes: &N, memory: &mut N::Memory, root: u64, key: N::Key) -> Option<Subtree>
    requires { HasTree (N.IsNode nodes.now memory.old) N.plan
        (N.view nodes.now memory.old) root }
    ensures made { (t : Tree) → Stands N.plan (N.view nodes.now memory.old) t root →
        Reforms N.plan (N.view nodes.now memory.old) (N.view nodes.now memory.new) t (removed
        (N.rank key) t) result }
    ensures keeps { N.Keeps nodes.now memory.old memory.new }
    ensures loads { (t : Tree) → Stands N.plan (N.view nodes.now memory.old) t root →
        N.loads memory.new ≤ N.loads memory.old + 10 * (N.cost * high t) }
{
    if root == 0 {
        return None;
    }
    match nodes.step(memory, key, root) {
        SearchStep::Left(child) => {
            let left = prune(nodes, memory, child, key);
            with_left(nodes, memory, root, left)
        }
        SearchStep::Here => Some(join(nodes, memory, root)),
        SearchStep::Right(child) => {
            let right = prune(nodes, memory, child, key);
            with_right(nodes, memory, root, right)
        }
    }
}

/// Joins the two subtrees of a node into one tree.
fn join<N: Nodes>(nodes: &N, memory: &mut N::Memory, node: u64) -> Subtree
    requires { (l : Tree) × (s h : ℕ) × (r : Tree) ×
        Stands N.plan (N.view nodes.now memory.old) (Node l node s h r) node ×
        AreNodes (N.IsNode nodes.now memory.old) (Node l node s h r) }
    ensures made { (l : Tree) (s h : ℕ) (r : Tree) →
        Stands N.plan (N.view nodes.now memory.old) (Node l node s h r) node →
        Forms N.plan (N.view nodes.now memory.old) (N.view nodes.now memory.new)
        (joined l r) result }
    ensures keeps { N.Keeps nodes.now memory.old memory.new }
    ensures loads { (l : Tree) (s h : ℕ) (r : Tree) →
        Stands N.plan (N.view nodes.now memory.old) (Node l node s h r) node →
        N.loads memory.new ≤ N.loads memory.old + 10 * (N.cost * high r) + 9 * N.cost }
{
    let links = nodes.links(memory, node);
    if links.left == 0 {
        return subtree_of(nodes, memory, links.right);
    }
    if links.right == 0 {
        return subtree_of(nodes, memory, links.left);
    }
    let parted = part_first(nodes, memory, links.right);
    let left = subtree_of(nodes, memory, links.left);
    let right = subtree_now(nodes, memory, links.right, parted.rest);
    balance(nodes, memory, left, parted.first, right)
}

/// The first node of a tree, and the remaining tree, or `None` if root and height are unchanged.
#[derive(Clone, Copy)]
struct FirstAndRest {
    first: u64,
    rest: Option<Subtree>,
}

/// Removes the first node from a nonempty tree, and returns both.
fn part_first<N: Nodes>(nodes: &N, memory: &mut N::Memory, root: u64) -> FirstAndRest
    requires { (t : Tree) × Stands N.plan (N.view nodes.now memory.old) t root ×
        AreNodes (N.IsNode nodes.now memory.old) t × (root ≢ 0) }
    ensures first { (t : Tree) → Stands N.plan (N.view nodes.now memory.old) t root →
        result.first ≡ (first_of t).0 }
    ensures made { (t : Tree) → Stands N.plan (N.view nodes.now memory.old) t root →
        Reforms N.plan (N.view nodes.now memory.old) (N.view nodes.now memory.new) t
        (rest_of t) result.rest }
    ensures keeps { N.Keeps nodes.now memory.old memory.new }
    ensures loads { (t : Tree) → Stands N.plan (N.view nodes.now memory.old) t root →
        N.loads memory.new ≤ N.loads memory.old + 10 * (N.cost * high t) }
{
    let links = nodes.links(memory, root);
    if links.left == 0 {
        return FirstAndRest {
            first: root,
            rest: Some(subtree_of(nodes, memory, links.right)),
        };
    }
    let parted = part_first(nodes, memory, links.left);
    let rest = with_left(nodes, memory, root, parted.rest);
    FirstAndRest {
        first: parted.first,
        rest,
    }
}
