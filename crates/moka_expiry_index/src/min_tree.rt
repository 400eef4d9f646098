//! A tree of least numbers in a `Vec`. Its root is node 1, and `2 k` and `2 k + 1` are below node
//! `k`. The leaves come after the inner nodes.
ghost use Rattle.std.specs.Prelude.{◌≡◌, ℕ, ◌+◌, ◌*◌, ◌^◌, ◌<◌, ◌≤◌, length, vec_len, IfNone, IfSome, OnOk, OnErr};
ghost use Rattle.moka_expiry_index.specs.MinTree.{AreLeast, leaf, leftmost, never, SetsLeaf, PreservesLeaves};

use std::alloc::AllocError;

/// The leaf of an empty slot. Only the last moment reaches it.
pub const NEVER: u64 = u64::MAX;

/// Returns the index of the first leaf that is at most a bound. Visits at most two nodes of each
/// level.
pub fn first_within(nodes: &[u64], size: usize, height: usize, bound: u64) -> Option<usize>
    requires least { AreLeast nodes.now size }
    requires long { length nodes.now ≡ 2 * size }
    requires high { size ≡ leftmost height 1 }
    ensures none { IfNone result ((i : ℕ) → i < size → bound < leaf nodes.now size i) }
    ensures within { IfSome result (λ i. i < size) }
    ensures at_most { IfSome result (λ i. leaf nodes.now size i ≤ bound) }
    ensures first { IfSome result (λ i. (j : ℕ) → j < i → bound < leaf nodes.now size j) }
{
    if nodes[1] > bound {
        return None;
    }
    let mut node = 1;
    for _ in 0..height {
        node = 2 * node;
        if nodes[node] > bound {
            node += 1;
        }
    }
    Some(node - size)
}

/// Sets a leaf. Visits at most three nodes of each level, and no level above one that stays as it
/// was.
pub fn set_leaf(nodes: &mut Vec<u64>, size: usize, index: usize, deadline: u64)
    requires least { AreLeast nodes.old.items size }
    requires long { vec_len nodes.old ≡ 2 * size }
    requires within { index < size }
    ensures least { AreLeast nodes.new.items size }
    ensures long { vec_len nodes.new ≡ 2 * size }
    ensures leaves { SetsLeaf nodes.old.items nodes.new.items size index deadline }
{
    let mut node = size + index;
    nodes[node] = deadline;
    while node > 1 {
        node /= 2;
        let least = nodes[2 * node].min(nodes[2 * node + 1]);
        if nodes[node] == least {
            return;
        }
        nodes[node] = least;
    }
}

/// Computes the inner nodes from the leaves. Visits each node.
pub fn rebuild(nodes: &mut Vec<u64>, size: usize)
    requires long { vec_len nodes.old ≡ 2 * size }
    ensures least { AreLeast nodes.new.items size }
    ensures long { vec_len nodes.new ≡ 2 * size }
    ensures leaves { PreservesLeaves nodes.old.items size nodes.new.items size }
{
    let mut node = size;
    while node > 1 {
        node -= 1;
        nodes[node] = nodes[2 * node].min(nodes[2 * node + 1]);
    }
}

/// Sets the leaves of all slots from `from` on to `NEVER`.
pub fn clear_from(nodes: &mut Vec<u64>, size: usize, from: usize)
    requires long { vec_len nodes.old ≡ 2 * size }
    ensures long { vec_len nodes.new ≡ 2 * size }
    ensures before { (i : ℕ) → i < from →
        leaf nodes.new.items size i ≡ leaf nodes.old.items size i }
    ensures behind { (i : ℕ) → from ≤ i → i < size → leaf nodes.new.items size i ≡ never }
{
    for index in from..size {
        nodes[size + index] = NEVER;
    }
}

/// Makes a tree of `wider` leaves, at least twice as many. The new ones are `NEVER`. Visits each
/// node.
///
/// # Errors
///
/// - `AllocError`: an allocation failed. The tree stays as it was.
pub fn widen(nodes: &mut Vec<u64>, size: usize, wider: usize) -> Result<(), AllocError>
    requires long { vec_len nodes.old ≡ 2 * size }
    requires wider { 2 * size ≤ wider }
    requires fits { 2 * wider < 2 ^ 64 }
    ensures least { OnOk result (AreLeast nodes.new.items wider) }
    ensures long { OnOk result (vec_len nodes.new ≡ 2 * wider) }
    ensures leaves { OnOk result (PreservesLeaves nodes.old.items size nodes.new.items wider) }
    ensures fresh { OnOk result
        ((i : ℕ) → size ≤ i → i < wider → leaf nodes.new.items wider i ≡ never) }
    ensures refused { OnErr result (nodes.new.items ≡ nodes.old.items) }
{
    nodes.resize(2 * wider, NEVER)?;
    for index in 0..size {
        nodes[wider + index] = nodes[size + index];
    }
    rebuild(nodes, wider);
    Ok(())
}
