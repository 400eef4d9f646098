//! Nodes in a `Vec`, each with links to its neighbours.
ghost use Rattle.std.specs.Prelude.{◌≡◌, ◌≢◌, ℕ, ◌<◌, ◌≤◌, ◌^◌, length, OnOk};
ghost use Rattle.moka_index.specs.Nodes.{node_at, next_of, row_of, Grows, SetsNext, SetsPrev};
ghost use Rattle.moka_index.specs.Nodes.{SetsOrder, SetsSame, IsMutual, Unlinks, LinksBefore, Relinks};

use moka_rows::rows::RowId;
use std::alloc::AllocError;

/// The neighbours of a number in its order, the next number with the same hash, and its hash.
///
/// The first two nodes are the ends of the two orders. Each order is a ring: its end links to the
/// first number, and the last number links to the end. A number in no order is isolated: it links
/// to itself.
#[derive(Clone, Copy)]
pub struct Node {
    /// The hash of the number's row.
    pub hash: u64,
    /// The number before it in its order, or the order's end.
    pub prev: RowId,
    /// The number after it in its order, or the order's end.
    pub next: RowId,
    /// The next number with the same hash, or an end if there is none.
    pub same: RowId,
    /// Whether the number is in the order of the resident rows.
    pub is_admitted: bool,
}

/// Returns the node of a number.
#[inline(always)]
pub fn read(nodes: &[Node], at: RowId) -> Node
    requires { at < length nodes.now }
    ensures { result ≡ node_at nodes.now at }
{
    let place = at as usize;
    nodes[place]
}

/// Returns the row that a link leads to, or `None` if it leads to an end.
#[inline(always)]
pub fn row(link: RowId) -> Option<RowId>
    ensures { result ≡ row_of link }
{
    if link < 2 { None } else { Some(link) }
}

/// Returns the first row of the order with this end, if there is one.
#[inline(always)]
pub fn first(nodes: &[Node], end: RowId) -> Option<RowId>
    requires { end < 2 }
    ensures { result ≡ row_of (next_of nodes.now end) }
{
    match nodes.get(end as usize) {
        Some(node) => row(node.next),
        None => None,
    }
}

/// Makes the nodes of all numbers below `places`. Each new node is isolated.
///
/// # Errors
///
/// - `AllocError`: an allocation failed. Each node stays as it was.
pub fn grow(nodes: &mut Vec<Node>, places: usize) -> Result<(), AllocError>
    requires fits { places ≤ 2 ^ 32 }
    requires few { length nodes.old.items ≤ 2 ^ 32 }
    ensures places { OnOk result (places ≤ length nodes.new.items) }
    ensures grown { Grows nodes.old.items nodes.new.items }
{
    nodes.reserve_exact(places.saturating_sub(nodes.len()))?;
    for place in nodes.len()..places {
        let link = place as RowId;
        nodes.push(Node {
            hash: 0,
            prev: link,
            next: link,
            same: 0,
            is_admitted: false,
        })?;
    }
    Ok(())
}

// Sets the number after this one.
#[inline(always)]
fn set_next(nodes: &mut [Node], at: RowId, to: RowId)
    requires { at < length nodes.old }
    ensures { SetsNext nodes.old nodes.new at to }
{
    nodes[at as usize].next = to;
}

// Sets the number before this one.
#[inline(always)]
fn set_prev(nodes: &mut [Node], at: RowId, to: RowId)
    requires { at < length nodes.old }
    ensures { SetsPrev nodes.old nodes.new at to }
{
    nodes[at as usize].prev = to;
}

/// Sets the order of a number.
#[inline(always)]
pub fn set_order(nodes: &mut Vec<Node>, at: RowId, is_admitted: bool)
    requires { at < length nodes.old.items }
    ensures { SetsOrder nodes.old.items nodes.new.items at is_admitted }
{
    nodes[at as usize].is_admitted = is_admitted;
}

/// Sets the hash of a number, and the next number with that hash.
#[inline(always)]
pub fn set_same(nodes: &mut Vec<Node>, at: RowId, hash: u64, same: RowId)
    requires { at < length nodes.old.items }
    ensures { SetsSame nodes.old.items nodes.new.items at hash same }
{
    nodes[at as usize].hash = hash;
    nodes[at as usize].same = same;
}

// Removes a number from between its neighbours.
#[inline(always)]
fn unlink_in(nodes: &mut [Node], at: RowId)
    requires within { at < length nodes.old }
    requires mutual { IsMutual nodes.old }
    ensures { Unlinks nodes.old nodes.new at }
{
    let Node { prev, next, .. } = read(nodes, at);
    set_next(nodes, prev, next);
    set_prev(nodes, next, prev);
    set_next(nodes, at, at);
    set_prev(nodes, at, at);
}

// Inserts an isolated number before another one.
#[inline(always)]
fn link_in(nodes: &mut [Node], at: RowId, before: RowId)
    requires at_within { at < length nodes.old }
    requires within { before < length nodes.old }
    requires mutual { IsMutual nodes.old }
    requires alone { next_of nodes.old at ≡ at }
    requires other { at ≢ before }
    ensures { LinksBefore nodes.old nodes.new at before }
{
    let prev = read(nodes, before).prev;
    set_next(nodes, prev, at);
    set_next(nodes, at, before);
    set_prev(nodes, at, prev);
    set_prev(nodes, before, at);
}

// Moves a number before another one. Writes six links, none of them twice unless both are
// neighbours.
#[inline(always)]
fn relink_in(nodes: &mut [Node], at: RowId, end: RowId)
    requires at_within { at < length nodes.old }
    requires within { end < length nodes.old }
    requires mutual { IsMutual nodes.old }
    requires other { at ≢ end }
    ensures { Relinks nodes.old nodes.new at end }
{
    let sides = read(nodes, at);
    set_next(nodes, sides.prev, sides.next);
    set_prev(nodes, sides.next, sides.prev);
    let last = read(nodes, end).prev;
    set_next(nodes, last, at);
    set_next(nodes, at, end);
    set_prev(nodes, at, last);
    set_prev(nodes, end, at);
}

/// Removes a number from between its neighbours.
#[inline(always)]
pub fn unlink(nodes: &mut Vec<Node>, at: RowId)
    requires within { at < length nodes.old.items }
    requires mutual { IsMutual nodes.old.items }
    ensures { Unlinks nodes.old.items nodes.new.items at }
{
    unlink_in(nodes, at);
}

/// Inserts an isolated number before another one.
#[inline(always)]
pub fn link_before(nodes: &mut Vec<Node>, at: RowId, before: RowId)
    requires at_within { at < length nodes.old.items }
    requires within { before < length nodes.old.items }
    requires mutual { IsMutual nodes.old.items }
    requires alone { next_of nodes.old.items at ≡ at }
    requires other { at ≢ before }
    ensures { LinksBefore nodes.old.items nodes.new.items at before }
{
    link_in(nodes, at, before);
}

/// Moves a number before another one.
#[inline(always)]
pub fn relink(nodes: &mut Vec<Node>, at: RowId, before: RowId)
    requires at_within { at < length nodes.old.items }
    requires within { before < length nodes.old.items }
    requires mutual { IsMutual nodes.old.items }
    requires other { at ≢ before }
    ensures { Relinks nodes.old.items nodes.new.items at before }
{
    relink_in(nodes, at, before);
}
