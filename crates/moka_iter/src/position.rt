//! Where a walk is, and how it goes on.
ghost use Rattle.std.specs.Prelude.{◌≡◌, ◌+◌, ◌-◌, ◌<◌, ◌^◌, [], Ok, Err, length, map, option_map, IfOk, IfErr, IfSome};
ghost use Rattle.std.specs.Arc.{arc_value};
ghost use Rattle.moka_policy.specs.declared.policy.Refused.{Refused};
ghost use Rattle.moka_iter.specs.Walks.{start, Advance, Advances, reply_of, calls_left};
ghost use Rattle.moka_iter.specs.Cursors.{key_list, with_key, Stops};

use moka_policy::policy::Refused;
use std::collections::VecDeque;
use std::marker::Model;
use std::sync::Arc;

/// What a walk asks of the segments that it goes over.
pub trait Segments<K, V> {
    ghost use Rattle.std.specs.Prelude.{ℕ, ◌≡◌, ◌<◌, List, Option, Result, map};
    ghost use Rattle.std.specs.Arc.{arc_value};
    ghost use Rattle.moka_policy.specs.declared.policy.Refused.{Refused};
    ghost use Rattle.moka_iter.specs.Cursors.{key_list};

    /// The number of segments.
    ghost count: { Self → ℕ };

    /// What a segment may return when it is asked for its keys.
    ghost stands: { Self → ℕ → Result (List K) Refused → Type 0 };

    /// What a segment may return when it is asked for a key's live value.
    ghost finds: { Self → ℕ → K → Result (Option V) Refused → Type 0 };

    /// Returns the number of segments.
    fn len(&self) -> usize
        ensures { result ≡ count self.now };

    /// Returns the keys that are stored in a segment, each once. The segment has to exist.
    fn keys(&self, segment: usize) -> Result<Vec<Arc<K>>, Refused>
        requires { segment < count self.now }
        ensures { stands self.now segment (key_list (λ keys. map arc_value keys.items) result) };

    /// Returns a clone of the live value for `key` in a segment, or `None`. If there is no such
    /// segment, nothing is live.
    fn get(&self, segment: usize, key: &Arc<K>) -> Result<Option<V>, Refused>
        ensures { finds self.now segment (arc_value key.now) result };
}

/// Where a walk is: the segments that it has reached, and the keys of the last of them that are
/// still to come.
#[derive(Drop)]
pub struct IterPosition<K> {
    // The keys of the segment that was reached last which are still to come.
    pending: Option<VecDeque<Arc<K>>>,
    reached: usize,
}

impl<K> Model for IterPosition<K> {
    ghost use Rattle.std.specs.Prelude.{◌≡◌, ◌<◌, ◌^◌, length, map, None};
    ghost use Rattle.std.specs.Arc.{arc_value};
    ghost use Rattle.moka_iter.specs.Walks.{Cursor};
    ghost use Rattle.moka_iter.specs.Cursors.{keys_in};

    ghost Value = { Cursor K };

    ghost view = { λ it. record {
      reached = it.reached;
      pending = keys_in (λ queue. map arc_value queue.items) it.pending;
    } };

    // before a segment was reached there are no keys
    ghost invariant = { λ it. (it.reached ≡ 0) → (it.pending ≡ None) };
}

impl<K: Drop> IterPosition<K> {
    /// Creates the position before the first segment.
    pub fn new() -> Self
        ensures { result ≡ start }
    {
        IterPosition {
            pending: None,
            reached: 0,
        }
    }

    /// Goes on to the next live pair, or returns `None` at the end.
    ///
    /// If a segment's keys or a key's value cannot be got, returns one `Err` with that error. The
    /// next call goes on behind that segment or key.
    pub fn next<V, S: Segments<K, V>>(
        &mut self,
        segments: &S,
    ) -> Option<Result<(Arc<K>, V), Refused>>
        ensures step { (it : Advance K V Refused)
            × Advances (S.count segments.now) (S.stands segments.now) (S.finds segments.now)
            self.old it self.new
            × (option_map (with_key arc_value) result ≡ reply_of it.ending) }
        ensures nearer { IfSome result (λ _. calls_left (S.count segments.now) self.new
            < calls_left (S.count segments.now) self.old) }
    {
        loop {
            if let Some(found) = self.next_pending(segments) {
                return Some(found);
            }
            if self.reached >= segments.len() {
                return None;
            }
            if let Err(refused) = self.reach(segments) {
                return Some(Err(refused));
            }
        }
    }

    // Reaches the next segment and takes its keys, unless listing them fails.
    fn reach<V, S: Segments<K, V>>(&mut self, segments: &S) -> Result<(), Refused>
        requires more { self.old.reached < S.count segments.now }
        requires fits { self.old.reached + 1 < 2 ^ 64 }
        ensures reached { self.new.reached ≡ self.old.reached + 1 }
        ensures keys { IfOk result (λ _. S.stands segments.now self.old.reached
            (Ok self.new.pending)) }
        ensures refused { IfErr result (λ e. (self.new.pending ≡ [])
            × S.stands segments.now self.old.reached (Err e)) }
    {
        let keys = segments.keys(self.reached);
        self.reached += 1;
        self.pending = None;
        self.pending = Some(VecDeque::from_vec(keys?));
        Ok(())
    }

    // Returns the next live pair of the segment that was reached last.
    fn next_pending<V, S: Segments<K, V>>(
        &mut self,
        segments: &S,
    ) -> Option<Result<(Arc<K>, V), Refused>>
        ensures reached { self.new.reached ≡ self.old.reached }
        ensures fits { length self.new.pending < 2 ^ 64 }
        ensures stops { Stops (S.finds segments.now (self.old.reached - 1)) self.old.pending
            (option_map (with_key arc_value) result) self.new.pending }
    {
        let mut pending = self.pending.take()?;
        let found = next_of_segment(&mut pending, segments, self.reached - 1);
        self.pending = Some(pending);
        found
    }
}

// Returns the next live pair of a segment among these keys.
fn next_of_segment<K: Drop, V, S: Segments<K, V>>(
    pending: &mut VecDeque<Arc<K>>,
    segments: &S,
    segment: usize,
) -> Option<Result<(Arc<K>, V), Refused>>
    ensures { Stops (S.finds segments.now segment) (map arc_value pending.old.items)
        (option_map (with_key arc_value) result) (map arc_value pending.new.items) }
{
    while let Some(key) = pending.pop_front() {
        match segments.get(segment, &key) {
            Ok(Some(value)) => return Some(Ok((key, value))),
            Ok(None) => {}
            Err(refused) => return Some(Err(refused)),
        }
    }
    None
}
