//! Theorems on the definitions alone. They do nothing at run time.
ghost use Rattle.std.specs.Prelude.{◌≡◌, ℕ, ◌+◌, ◌*◌, ◌^◌, ◌<◌, ◌≤◌};
ghost use Rattle.avl_tree.specs.Tree.{Tree, high, tally, found, inserted, removed, same, ranked, is_at, IsFirst, IsBalanced, IsOrdered};

/// States that a balanced tree with less than `2 ^ n` nodes has a height of at most `2 * n + 1`.
pub fn trees_are_low()
    ensures { (t : Tree) → IsBalanced t → (n : ℕ) → tally (λ _ _. 1) t < 2 ^ n →
        high t ≤ 2 * n + 1 }
{}

/// States that insertion of a node with a new rank, and removal of a node, keep the ranks in order.
pub fn order_is_kept()
    ensures inserted { (low a s up : ℕ) (t : Tree) → low ≤ s → s < up →
        tally (ranked s) t ≡ 0 →
        IsOrdered low t up → IsOrdered low (inserted a s t) up }
    ensures removed { (low s up : ℕ) (t : Tree) → IsOrdered low t up →
        IsOrdered low (removed s t) up }
{}

/// States that the nodes after an insertion are the nodes before it and the new one, measured by any weight.
pub fn insertion_adds_one()
    ensures { (weight : ℕ → ℕ → ℕ) (a s : ℕ) (t : Tree) →
        tally weight (inserted a s t) ≡ weight a s + tally weight t }
{}

/// States that the nodes after a removal are the nodes before it except the one of the rank, measured by any weight.
pub fn removal_takes_one()
    ensures { (weight : ℕ → ℕ → ℕ) (a s up : ℕ) (t : Tree) → IsOrdered 0 t up →
        1 ≤ tally (same a s) t →
        tally weight (removed s t) + weight a s ≡ tally weight t }
{}

/// States that a search finds the first node of at least the rank, if no node has number 0.
pub fn found_node_is_first()
    ensures { (s up : ℕ) (t : Tree) → IsOrdered 0 t up → tally (is_at 0) t ≡ 0 →
        IsFirst s t (found s t) }
{}
