//! Rebalancing of a node over two trees whose heights differ by at most two, by rotations.
ghost use Rattle.std.specs.Prelude.{◌≡◌, ℕ, ◌+◌, ◌*◌, ◌≤◌, Some};
ghost use Rattle.avl_tree.specs.Tree.{Tree, Node, high, balanced, rotated_right, rotated_left};
ghost use Rattle.avl_tree.specs.View.{AreNodes};
ghost use Rattle.avl_tree.specs.Made.{IsSlope, IsLeftNew, IsRightNew, Forms, Reforms, IsSame};

use super::node::{Nodes, Subtree};
use super::subtree::{fork, subtree_of, subtrees_of};

/// Builds a balanced tree of a node between two trees, and returns it. The heights of the two trees differ by at most
/// two, and those within each tree by at most one. Most nodes need no rotation: this test and `fork` are inlined into the
/// callers, and the rotations are not.
#[inline(always)]
pub(crate) fn balance<N: Nodes>(
    nodes: &N,
    memory: &mut N::Memory,
    left: Subtree,
    node: u64,
    right: Subtree,
) -> Subtree
    requires { (l : Tree) × (s : ℕ) × (r : Tree) ×
        IsSlope N.plan (N.view nodes.now memory.old) l node s r left right ×
        AreNodes (N.IsNode nodes.now memory.old) (Node l node s 0 r) }
    ensures made { (l : Tree) (s : ℕ) (r : Tree) →
        IsSlope N.plan (N.view nodes.now memory.old) l node s r left right →
        Forms N.plan (N.view nodes.now memory.old) (N.view nodes.now memory.new)
        (balanced l node s r) result }
    ensures keeps { N.Keeps nodes.now memory.old memory.new }
    ensures loads { N.loads memory.new ≤ N.loads memory.old + 6 * N.cost }
{
    if right.high + 1 < left.high {
        turn_right(nodes, memory, left, node, right)
    } else if left.high + 1 < right.high {
        turn_left(nodes, memory, left, node, right)
    } else {
        fork(nodes, memory, left, node, right)
    }
}

/// Builds the tree if the left tree is higher by two, by a single or double rotation to the right.
#[inline(never)]
fn turn_right<N: Nodes>(
    nodes: &N,
    memory: &mut N::Memory,
    left: Subtree,
    node: u64,
    right: Subtree,
) -> Subtree
    requires { (l : Tree) × (s : ℕ) × (r : Tree) ×
        IsSlope N.plan (N.view nodes.now memory.old) l node s r left right ×
        (high l ≡ high r + 2) × AreNodes (N.IsNode nodes.now memory.old)
        (Node l node s 0 r) }
    ensures made { (l : Tree) (s : ℕ) (r : Tree) →
        IsSlope N.plan (N.view nodes.now memory.old) l node s r left right →
        high l ≡ high r + 2 →
        Forms N.plan (N.view nodes.now memory.old) (N.view nodes.now memory.new)
        (rotated_right l node s r) result }
    ensures keeps { N.Keeps nodes.now memory.old memory.new }
    ensures loads { N.loads memory.new ≤ N.loads memory.old + 6 * N.cost }
{
    let under = subtrees_of(nodes, memory, left.root);
    if under.right.high <= under.left.high {
        let low = fork(nodes, memory, under.right, node, right);
        fork(nodes, memory, under.left, left.root, low)
    } else {
        let inner = subtrees_of(nodes, memory, under.right.root);
        let low = fork(nodes, memory, under.left, left.root, inner.left);
        let other = fork(nodes, memory, inner.right, node, right);
        fork(nodes, memory, low, under.right.root, other)
    }
}

/// Builds the tree if the right tree is higher by two, by a single or double rotation to the left.
#[inline(never)]
fn turn_left<N: Nodes>(
    nodes: &N,
    memory: &mut N::Memory,
    left: Subtree,
    node: u64,
    right: Subtree,
) -> Subtree
    requires { (l : Tree) × (s : ℕ) × (r : Tree) ×
        IsSlope N.plan (N.view nodes.now memory.old) l node s r left right ×
        (high r ≡ high l + 2) × AreNodes (N.IsNode nodes.now memory.old)
        (Node l node s 0 r) }
    ensures made { (l : Tree) (s : ℕ) (r : Tree) →
        IsSlope N.plan (N.view nodes.now memory.old) l node s r left right →
        high r ≡ high l + 2 →
        Forms N.plan (N.view nodes.now memory.old) (N.view nodes.now memory.new)
        (rotated_left l node s r) result }
    ensures keeps { N.Keeps nodes.now memory.old memory.new }
    ensures loads { N.loads memory.new ≤ N.loads memory.old + 6 * N.cost }
{
    let under = subtrees_of(nodes, memory, right.root);
    if under.left.high <= under.right.high {
        let low = fork(nodes, memory, left, node, under.left);
        fork(nodes, memory, low, right.root, under.right)
    } else {
        let inner = subtrees_of(nodes, memory, under.left.root);
        let low = fork(nodes, memory, inner.right, right.root, under.right);
        let other = fork(nodes, memory, left, node, inner.left);
        fork(nodes, memory, other, under.left.root, low)
    }
}

/// Replaces the left subtree of a node and rebalances. Returns `None` if the subtree's root and height are unchanged, or
/// those of the result are.
pub(crate) fn with_left<N: Nodes>(
    nodes: &N,
    memory: &mut N::Memory,
    node: u64,
    left: Option<Subtree>,
) -> Option<Subtree>
    requires { (l l' : Tree) × (s h : ℕ) × (r : Tree) ×
        IsLeftNew N.plan (N.view nodes.now memory.old) l l' node s h r left ×
        AreNodes (N.IsNode nodes.now memory.old) (Node l' node s h r) }
    ensures made { (l l' : Tree) (s h : ℕ) (r : Tree) →
        IsLeftNew N.plan (N.view nodes.now memory.old) l l' node s h r left →
        Reforms N.plan (N.view nodes.now memory.old) (N.view nodes.now memory.new)
        (Node l node s h r) (balanced l' node s r) result }
    ensures keeps { N.Keeps nodes.now memory.old memory.new }
    ensures loads { N.loads memory.new ≤ N.loads memory.old + 8 * N.cost }
{
    let left = left?;
    replace_left(nodes, memory, node, left)
}

/// Replaces the left subtree of a node by another tree and rebalances. Returns `None` if the result has the root and the
/// height that the node's tree had.
fn replace_left<N: Nodes>(
    nodes: &N,
    memory: &mut N::Memory,
    node: u64,
    left: Subtree,
) -> Option<Subtree>
    requires { (l l' : Tree) × (s h : ℕ) × (r : Tree) ×
        IsLeftNew N.plan (N.view nodes.now memory.old) l l' node s h r (Some left) ×
        AreNodes (N.IsNode nodes.now memory.old) (Node l' node s h r) }
    ensures made { (l l' : Tree) (s h : ℕ) (r : Tree) →
        IsLeftNew N.plan (N.view nodes.now memory.old) l l' node s h r (Some left) →
        Reforms N.plan (N.view nodes.now memory.old) (N.view nodes.now memory.new)
        (Node l node s h r) (balanced l' node s r) result }
    ensures keeps { N.Keeps nodes.now memory.old memory.new }
    ensures loads { N.loads memory.new ≤ N.loads memory.old + 8 * N.cost }
{
    let links = nodes.links(memory, node);
    let right = subtree_of(nodes, memory, links.right);
    let tree = balance(nodes, memory, left, node, right);
    unless_same(tree, node, links.high)
}

/// Replaces the right subtree of a node and rebalances. Returns `None` if the subtree's root and height are unchanged, or
/// those of the result are.
pub(crate) fn with_right<N: Nodes>(
    nodes: &N,
    memory: &mut N::Memory,
    node: u64,
    right: Option<Subtree>,
) -> Option<Subtree>
    requires { (l : Tree) × (s h : ℕ) × (r r' : Tree) ×
        IsRightNew N.plan (N.view nodes.now memory.old) l node s h r r' right ×
        AreNodes (N.IsNode nodes.now memory.old) (Node l node s h r') }
    ensures made { (l : Tree) (s h : ℕ) (r r' : Tree) →
        IsRightNew N.plan (N.view nodes.now memory.old) l node s h r r' right →
        Reforms N.plan (N.view nodes.now memory.old) (N.view nodes.now memory.new)
        (Node l node s h r) (balanced l node s r') result }
    ensures keeps { N.Keeps nodes.now memory.old memory.new }
    ensures loads { N.loads memory.new ≤ N.loads memory.old + 8 * N.cost }
{
    let right = right?;
    replace_right(nodes, memory, node, right)
}

/// Replaces the right subtree of a node by another tree and rebalances. Returns `None` if the result has the root and the
/// height that the node's tree had.
fn replace_right<N: Nodes>(
    nodes: &N,
    memory: &mut N::Memory,
    node: u64,
    right: Subtree,
) -> Option<Subtree>
    requires { (l : Tree) × (s h : ℕ) × (r r' : Tree) ×
        IsRightNew N.plan (N.view nodes.now memory.old) l node s h r r' (Some right) ×
        AreNodes (N.IsNode nodes.now memory.old) (Node l node s h r') }
    ensures made { (l : Tree) (s h : ℕ) (r r' : Tree) →
        IsRightNew N.plan (N.view nodes.now memory.old) l node s h r r' (Some right) →
        Reforms N.plan (N.view nodes.now memory.old) (N.view nodes.now memory.new)
        (Node l node s h r) (balanced l node s r') result }
    ensures keeps { N.Keeps nodes.now memory.old memory.new }
    ensures loads { N.loads memory.new ≤ N.loads memory.old + 8 * N.cost }
{
    let links = nodes.links(memory, node);
    let left = subtree_of(nodes, memory, links.left);
    let tree = balance(nodes, memory, left, node, right);
    unless_same(tree, node, links.high)
}

/// Returns `None` if the tree has this root and height, and otherwise the tree.
fn unless_same(tree: Subtree, root: u64, high: u64) -> Option<Subtree>
    ensures { IsSame tree root high result }
{
    if tree.root == root && tree.high == high {
        None
    } else {
        Some(tree)
    }
}
