//! The laws of walks. Each is the contract of a function without code.
ghost use Rattle.std.specs.Prelude.{◌≡◌, ℕ, ◌+◌, ◌-◌, ◌≤◌, ◌<◌, Some, None, Err, List, [], ◌∷◌, length};
ghost use Rattle.std.specs.List.{AllByRecursion};
ghost use Rattle.moka_model.specs.MaintenanceLaws.{count};
ghost use Rattle.moka_iter.specs.Walks.{Cursor, at_segment, start, reply_of};
ghost use Rattle.moka_iter.specs.Histories.{History, live_in, WalksOn, RepliesNext};
ghost use Rattle.moka_iter.specs.WalkLaws.{WalkCall, pairs_of, replies_in, keys_taken, HaveAtMost, AreOfOneCache, StayOfOneCache, IsWalk};
ghost use Rattle.moka_iter.specs.WalkLaws.{YieldsJust, FailsForMemory, yields_early};
ghost use Rattle.moka_iter.specs.Iters.{IterData, IteratesJust, StandStill};
ghost use Rattle.moka_iter.specs.Walks.{Advance};
ghost use Rattle.moka_policy.specs.declared.policy.Refused.{Refused};
ghost use Rattle.moka_iter.specs.WalkLaws.{AreLive, HasEachOnce, HasEachOfOne};

use crate::iter::ScanningGet;

/// A walk at one moment, with nothing done in between and no error, yields exactly the live pairs.
///
/// Each pair that it yields is live, with a clone of its value (`live`). For each live key it
/// yields one pair: over the segments of one cache (`each_once`), and over a cache of one segment
/// (`of_one`).
pub fn a_walk_yields_what_lives<K: Eq, V: Clone, E>()
    ensures live { (histories : List (History K V E)) (now : ℕ) (pairs : List (K × V))
        → YieldsJust K.eq V.is_clone V.is_infallible histories now start pairs
        → AreLive K.eq histories now pairs V.is_clone }
    ensures each_once { (home : K → ℕ) (histories : List (History K V E)) (now : ℕ)
        (pairs : List (K × V)) → AreOfOneCache K.eq home histories
        → YieldsJust K.eq V.is_clone V.is_infallible histories now start pairs
        → HasEachOnce K.eq histories now pairs }
    ensures of_one { (history : History K V E) (now : ℕ) (pairs : List (K × V))
        → YieldsJust K.eq V.is_clone V.is_infallible (history ∷ []) now start pairs
        → HasEachOfOne K.eq (history ∷ []) now pairs }
{}

/// An iterator over caches that nobody uses meanwhile yields exactly the live pairs, if it meets no
/// error.
///
/// At each of its calls the caches say what the same histories hold at the same moment. Each pair
/// that it yields is live, with a clone of its value (`live`). Over the segments of one cache, or
/// one cache, it yields one pair for each live key (`each_once`, `of_one`).
pub fn an_iterator_yields_what_lives<K: Eq, V: Clone, E, G: ScanningGet<K, V>>()
    ensures live { (histories : List (History K V E)) (now : ℕ) (iter : IterData K G)
        (pairs : List (K × V)) → iter.cursor ≡ start
        → StandStill K.eq V.is_clone V.is_infallible G.stands G.finds iter.caches histories now
        → IteratesJust G.stands G.finds iter pairs
        → AreLive K.eq histories now pairs V.is_clone }
    ensures each_once { (home : K → ℕ) (histories : List (History K V E)) (now : ℕ)
        (iter : IterData K G) (pairs : List (K × V)) → iter.cursor ≡ start
        → StandStill K.eq V.is_clone V.is_infallible G.stands G.finds iter.caches histories now
        → IteratesJust G.stands G.finds iter pairs
        → AreOfOneCache K.eq home histories → HasEachOnce K.eq histories now pairs }
    ensures of_one { (history : History K V E) (now : ℕ) (iter : IterData K G)
        (pairs : List (K × V)) → iter.cursor ≡ start
        → StandStill K.eq V.is_clone V.is_infallible G.stands G.finds iter.caches (history ∷ []) now
        → IteratesJust G.stands G.finds iter pairs
        → HasEachOfOne K.eq (history ∷ []) now pairs }
{}

/// A walk fails only with `OutOfMemory`: at a live key whose value's clone can fail, or at a
/// segment whose keys could not be listed.
pub fn a_walk_fails_for_memory_alone<K: Eq, V: Clone, E>()
    ensures { (histories : List (History K V E)) (now : ℕ) (old : Cursor K) (e : Refused)
        (new : Cursor K)
        → RepliesNext K.eq V.is_clone V.is_infallible histories now old (Some (Err e)) new
        → FailsForMemory K.eq V.is_clone V.is_infallible histories now old e new }
{}

/// A segment is reached by the first call that needs it.
///
/// If a call reaches a further one, none of the keys that were still to come of the segment before
/// is live (`needed`). No call takes the keys of a second segment and yields a key of the first
/// (`not_early`).
pub fn a_segment_is_reached_when_it_is_needed<K: Eq, V: Clone, E>()
    ensures needed { (histories : List (History K V E)) (now : ℕ) (old new : Cursor K)
        (it : Advance K V Refused)
        → WalksOn K.eq V.is_clone V.is_infallible histories now old it new → 0 < old.reached
        → old.reached < new.reached
        → AllByRecursion (λ k. live_in K.eq histories now (old.reached - 1) k ≡ None) old.pending }
    ensures not_early { (histories : List (History K V E)) (now : ℕ) (k next : K) (v : V)
        → ¬ (WalksOn K.eq V.is_clone V.is_infallible histories now start (yields_early k v next)
        (at_segment 2 (next ∷ []))) }
{}

/// No walk yields a key twice, whatever is done to the caches between its calls, and at whatever
/// moments these are.
///
/// This holds over the segments of one cache, in which each key has its home (`segments`), and over
/// a cache of one segment (`of_one`).
pub fn no_key_comes_twice<K: Eq, V: Clone, E>()
    ensures segments { (home : K → ℕ) (calls : List (WalkCall K V E)) (new : Cursor K)
        → StayOfOneCache K.eq home calls
        → IsWalk K.eq V.is_clone V.is_infallible start calls new
        → (k : K) → count (λ pair. K.eq pair.0 k) (pairs_of calls) ≤ 1 }
    ensures of_one { (calls : List (WalkCall K V E)) (new : Cursor K) → HaveAtMost 1 calls
        → IsWalk K.eq V.is_clone V.is_infallible start calls new
        → (k : K) → count (λ pair. K.eq pair.0 k) (pairs_of calls) ≤ 1 }
{}

/// Every walk ends.
///
/// The calls that return something are at most as many as the keys that were taken and the segments
/// that were reached (`calls`). A walk reaches no more segments than there are (`segments`). At its
/// end it returns none, and stays there (`stays`).
pub fn every_walk_ends<K: Eq, V: Clone, E>()
    ensures calls { (calls : List (WalkCall K V E)) (new : Cursor K)
        → IsWalk K.eq V.is_clone V.is_infallible start calls new
        → replies_in calls ≤ keys_taken calls + new.reached }
    ensures segments { (most : ℕ) (calls : List (WalkCall K V E)) (new : Cursor K)
        → HaveAtMost most calls → IsWalk K.eq V.is_clone V.is_infallible start calls new
        → new.reached ≤ most }
    ensures stays { (histories : List (History K V E)) (now : ℕ) (old new : Cursor K)
        (it : Advance K V Refused)
        → WalksOn K.eq V.is_clone V.is_infallible histories now old it new → old.pending ≡ []
        → length histories ≤ old.reached
        → (reply_of it.ending ≡ None) × (new ≡ old) }
{}
