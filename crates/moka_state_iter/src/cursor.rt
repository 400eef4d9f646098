//! Iteration over owned caches, which are passed in anew at each call.
ghost use Rattle.std.specs.Prelude.{◌≡◌, ◌<◌, length, option_map, IfOk, IfErr, IfSome};
ghost use Rattle.std.specs.Arc.{arc_value};
ghost use Rattle.moka_iter.specs.Walks.{start, calls_left};
ghost use Rattle.moka_iter.specs.Cursors.{with_key};
ghost use Rattle.moka_state_iter.specs.States.{WalksTo};

use moka_expiration::view::StateView;
use moka_iter::position::{IterPosition, Segments};
use moka_policy::policy::{CacheTypes, Refused};
use moka_rows::rows::RowStore;
use moka_state::state::State;
use std::hash::Hash;
use std::marker::Model;
use std::sync::Arc;

// States as the segments of a walk, at one moment.
#[derive(Drop)]
struct StatesAt<'s, K: Hash + Drop, V: Clone, C: CacheTypes<K, V>, R: RowStore<K, V>> {
    states: &'s [State<K, V, C, R>],
    now: u64,
}

impl<'s, K: Hash + Drop, V: Clone, C: CacheTypes<K, V>, R: RowStore<K, V>> Segments<K, V>
    for StatesAt<'s, K, V, C, R> {
    ghost use Rattle.std.specs.Prelude.{length};
    ghost use Rattle.moka_state_iter.specs.States.{StateStands, StateFinds};

    ghost count = { λ it. length it.states.now };

    ghost stands = { λ it. StateStands K.eq V.is_clone V.is_infallible
        ⟦<C as StateView<K, V>>⟧.stands_for it.states.now it.now };

    ghost finds = { λ it. StateFinds K.eq V.is_clone V.is_infallible
        ⟦<C as StateView<K, V>>⟧.stands_for it.states.now it.now C.keeps };

    fn len(&self) -> usize {
        self.states.len()
    }

    fn keys(&self, segment: usize) -> Result<Vec<Arc<K>>, Refused> {
        self.states[segment].scan_keys()
    }

    fn get(&self, segment: usize, key: &Arc<K>) -> Result<Option<V>, Refused> {
        match self.states.get(segment) {
            Some(state) => state.scan_get(&**key, self.now),
            None => Ok(None),
        }
    }
}

/// Iterates over the segments of an owned cache. It lists a segment's stored keys when it reaches
/// the segment, and yields those that are live when they come.
///
/// It holds no reference to the states, so they may be changed between two calls. A key that is
/// removed or expired meanwhile is skipped. One that is overwritten comes with its new value. A new
/// one comes only if its segment was not reached yet.
#[derive(Drop)]
pub struct WalkCursor<K> {
    position: IterPosition<K>,
}

impl<K> Model for WalkCursor<K> {
    ghost use Rattle.moka_iter.specs.Walks.{Cursor};

    ghost Value = { Cursor K };

    ghost view = { λ it. it.position };
}

impl<K: Hash + Drop> WalkCursor<K> {
    /// Creates a cursor before its first key.
    pub fn new() -> Self
        ensures { result ≡ start }
    {
        WalkCursor {
            position: IterPosition::new(),
        }
    }

    /// Returns a key that is live at this moment with a clone of its value, or `None` at the end.
    /// Keys come in no order. Over the states of one cache no key comes twice.
    ///
    /// `now` is the moment of the call, in nanoseconds. Does not count as an access, and changes no
    /// state. The states have to be those of the calls before, in the same order.
    ///
    /// # Errors
    ///
    /// The cursor goes on at the next call.
    ///
    /// - `OutOfMemory`: allocating a segment's list of keys or cloning a value failed.
    ///
    /// # Complexity
    ///
    /// Does a lookup for each key that it skips. When it reaches a segment, it clones the `Arc`s of
    /// all its keys.
    ///
    /// ```
    /// let mut cursor = WalkCursor::new();
    /// while let Some(pair) = cursor.next(slice::from_ref(&*names), now) {
    ///     let (number, name) = pair?;
    ///     if name.len() != length {
    ///         names.invalidate(&*number, now);
    ///     }
    /// }
    /// ```
    pub fn next<V: Clone, C: CacheTypes<K, V>, R: RowStore<K, V>>(
        &mut self,
        states: &[State<K, V, C, R>],
        now: u64,
    ) -> Option<Result<(Arc<K>, V), Refused>>
        ensures step { WalksTo K.eq V.is_clone V.is_infallible ⟦<C as StateView<K, V>>⟧.stands_for
            states.now now self.old (option_map (with_key arc_value) result) self.new }

        // So a loop over a cursor ends.
        ensures nearer { IfSome result (λ _. calls_left (length states.now) self.new
            < calls_left (length states.now) self.old) }
        ensures kept { IfSome result
            (λ pair. IfOk pair (λ pair. C.keeps (arc_value pair.0) pair.1)) }
        ensures cause { IfSome result (λ pair. IfErr pair (λ cause. cause ≡ Refused.OutOfMemory)) }
    {
        let segments = StatesAt { states, now };
        self.position.next(&segments)
    }
}
