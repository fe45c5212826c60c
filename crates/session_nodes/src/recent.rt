//! The node that was found last by its place in the order of creation.
ghost use Rattle.std.specs.Prelude.{◌≡◌};
ghost use Rattle.session_nodes.specs.Index.{remembered_without};

/// A node that was found by its place in the order of creation: the place, and the address of the node.
#[derive(Clone, Copy, Drop)]
pub struct RecentNode {
    /// The number of nodes before it.
    pub place: u64,
    /// The address of the node.
    pub address: u64,
}

/// Returns the node that is remembered after the node at an address is removed, given the node after it, which takes the
/// place of a remembered node. The place of another node may have changed.
pub fn recent_without(recent: Option<RecentNode>, address: u64, next: u64) -> Option<RecentNode>
    ensures { result ≡ remembered_without recent address next }
{
    let node = recent?;
    if node.address != address || next == 0 {
        return None;
    }
    Some(RecentNode {
        address: next,
        ..node
    })
}
