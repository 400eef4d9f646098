//! Iteration over caches that say by themselves which keys they have and what is live.
ghost use Rattle.std.specs.Prelude.{◌≡◌};
ghost use Rattle.moka_iter.specs.Walks.{start};

use crate::position::{IterPosition, Segments};
use moka_policy::policy::Refused;
use std::marker::{Model, PhantomData};
use std::sync::Arc;

/// What iteration asks of a cache.
///
/// A cache that others may change between two calls can say little about them: that values satisfy
/// `keeps`. One that stands still can say which keys are stored, and what is live.
pub trait ScanningGet<K, V> {
    ghost use Rattle.std.specs.Prelude.{ℕ, ◌≡◌, ◌≢◌, List, Option, None, Some, Result, Ok, map, IfOk, IsSome, IsOk};
    ghost use Rattle.std.specs.Arc.{arc_value};
    ghost use Rattle.moka_policy.specs.declared.policy.Refused.{Refused};
    ghost use Rattle.moka_iter.specs.Cursors.{key_list};
    ghost use Rattle.moka_iter.specs.Iters.{keys_if};

    /// What the cache may return when it is asked for its keys.
    ghost stands: { Self → Result (List K) Refused → Type 0 };

    /// What the cache may return when it is asked for a key's live value.
    ghost finds: { Self → K → Result (Option V) Refused → Type 0 };

    /// Returns the number of segments of keys: 1.
    fn num_cht_segments(&self) -> usize
        ensures { result ≡ 1 };

    /// Returns a clone of the live value for `key`, or `None`. Does not count as an access, and
    /// records nothing.
    fn scanning_get(&self, key: &Arc<K>) -> Result<Option<V>, Refused>
        ensures { finds self.now (arc_value key.now) result };

    /// Returns all stored keys, each once, for segment 0; `None` for any other segment, since there
    /// is none.
    fn keys(&self, segment: usize) -> Result<Option<Vec<Arc<K>>>, Refused>
        ensures first { segment ≡ 0 → stands self.now
            (key_list (keys_if (λ keys. map arc_value keys.items)) result) }
        ensures some { segment ≡ 0 → IfOk result (λ keys. IsSome keys) }
        ensures none { segment ≢ 0 → result ≡ Ok None };
}

// Caches as the segments of a walk.
#[derive(Drop)]
struct Caches<'i, G>(&'i [G]);

impl<'i, K, V, G: ScanningGet<K, V>> Segments<K, V> for Caches<'i, G> {
    ghost use Rattle.std.specs.Prelude.{length};
    ghost use Rattle.moka_iter.specs.Iters.{StandsAt, FindsAt};

    ghost count = { λ it. length it.0.now };

    ghost stands = { λ it. StandsAt G.stands G.finds it.0.now };

    ghost finds = { λ it. FindsAt G.stands G.finds it.0.now };

    fn len(&self) -> usize {
        self.0.len()
    }

    fn keys(&self, segment: usize) -> Result<Vec<Arc<K>>, Refused> {
        Ok(self.0[segment].keys(0)?.unwrap())
    }

    fn get(&self, segment: usize, key: &Arc<K>) -> Result<Option<V>, Refused> {
        match self.0.get(segment) {
            Some(cache) => cache.scanning_get(key),
            None => Ok(None),
        }
    }
}

/// Iterates over caches: yields the pairs that are live when they come. Over the segments of one
/// cache each key comes at most once.
#[derive(Drop)]
pub struct Iter<'i, K, V, G> {
    caches: &'i [G],
    position: IterPosition<K>,
    values: PhantomData<V>,
}

impl<'i, K, V, G> Model for Iter<'i, K, V, G> {
    ghost use Rattle.moka_iter.specs.Iters.{IterData};

    ghost Value = { IterData K G };

    ghost view = { λ it. record { caches = it.caches.now; cursor = it.position } };
}

impl<'i, K: Drop, V, G: ScanningGet<K, V>> Iter<'i, K, V, G> {
    /// Creates an iterator over these caches, before the first of them.
    pub fn new(caches: &'i [G]) -> Self
        ensures caches { result.caches ≡ caches.entry.now }
        ensures start { result.cursor ≡ start }
    {
        Iter {
            caches,
            position: IterPosition::new(),
            values: PhantomData,
        }
    }
}

impl<'i, K: Drop, V, G: ScanningGet<K, V>> Iterator for Iter<'i, K, V, G> {
    ghost use Rattle.std.specs.Prelude.{length, option_map};
    ghost use Rattle.std.specs.Arc.{arc_value};
    ghost use Rattle.std.specs.Iterator.{at_most};
    ghost use Rattle.moka_iter.specs.Walks.{calls_left};
    ghost use Rattle.moka_iter.specs.Cursors.{with_key};
    ghost use Rattle.moka_iter.specs.Iters.{IteratesTo};

    type Item = Result<(Arc<K>, V), Refused>;

    ghost next_gives = { λ old result new. IteratesTo G.stands G.finds old
        (option_map (with_key arc_value) result) new };

    ghost remaining = { λ it. at_most (calls_left (length it.caches) it.cursor) };

    fn next(&mut self) -> Option<Result<(Arc<K>, V), Refused>> {
        let caches = Caches(self.caches);
        self.position.next(&caches)
    }
}
