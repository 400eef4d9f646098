//! Laws about the bounded size of a cache, for every list of events, or every legal history.
ghost use Rattle.std.specs.Prelude.{◌≡◌, ◌↔◌, ℕ, Option, true, Some};
ghost use Rattle.moka_model.specs.Numbers.{stores_nothing};
ghost use Rattle.moka_laws.specs.Each.{AfterEvents, AfterSteps};
ghost use Rattle.moka_laws.specs.BoundLaws.{NoneWaitsThen, AllIsLiveThen, IsWithinThen, IsCountedWithinThen, ResidentsAreBounded};
ghost use Rattle.moka_laws.specs.BoundLaws.{NoMoreWait, StaysWithin, KeepsItsLimit, IsFullIfNoneIsLeft, NoneLeavesForSize};
ghost use Rattle.moka_laws.specs.BoundLaws.{JustTheDeadAreEvicted, AllTheLiveStay, DeadAreEvictedFirst, OthersLeaveForSize};
ghost use Rattle.moka_laws.specs.BoundLaws.{ExcessIsEvicted, ExcessLeavesForSize, AllButExcessStay, ShortestIsEvicted, AllButShortestStay};
ghost use Rattle.moka_laws.specs.BoundLaws.{PrefixLeaves, DrawsNone, PendingAreBounded, EntriesAreBounded, HoldsNothing, NothingEverStands};
ghost use Rattle.moka_laws.specs.BoundLaws.{NothingIsFound, NothingIsRemoved};

use moka_policy::policy::CacheTypes;

/// Equal keys have the same weight with each value: the weight does not depend on which of them is
/// written.
pub fn equal_keys_weigh_alike<K: Eq, V: Clone, C: CacheTypes<K, V>>()
    ensures { (weigher : C.Weigher) (a b : K) (v : V) → K.eq a b ≡ true
        → C.weight weigher a v ≡ C.weight weigher b v }
{}

/// After a full maintenance nothing is pending, all that is stored is live, and the weight is
/// within the capacity.
///
/// If every entry weighs 1, no more entries are stored than the capacity.
pub fn after_a_maintenance<K: Eq, V>()
    ensures none_waits { AfterEvents K V (NoneWaitsThen K.eq) }
    ensures all_live { AfterEvents K V (AllIsLiveThen K.eq) }
    ensures within { AfterEvents K V (IsWithinThen K.eq) }
    ensures count { AfterEvents K V (IsCountedWithinThen K.eq) }
{}

/// If every entry weighs 1, the size is bounded between maintenances too.
///
/// - Never are more entries resident than the capacity, for any list of events.
/// - Never are more entries stored than the capacity plus 64 (the flush point), if the flush limit
///   is not 0.
/// - Without a flush limit, never are more than 64 pending. This one holds for any weights.
pub fn the_size_stays_bounded<K: Eq, V, E>()
    ensures admitted { AfterEvents K V (ResidentsAreBounded K.eq) }
    ensures waiting { AfterSteps K V E (PendingAreBounded K.eq) }
    ensures all { AfterSteps K V E (EntriesAreBounded K.eq) }
{}

/// What holds after a maintenance within any limit.
///
/// No more entries are pending than before. Residents within the capacity stay so. No more entries
/// are evicted than the limit. If no part is left undone, it does what a full maintenance does.
pub fn within_any_limit<K: Eq, V>()
    ensures waiting { AfterEvents K V (NoMoreWait K.eq) }
    ensures admitted { AfterEvents K V (StaysWithin K.eq) }
    ensures left { AfterEvents K V (KeepsItsLimit K.eq) }
    ensures whole { AfterEvents K V (IsFullIfNoneIsLeft K.eq) }
{}

/// Without a capacity no entry is ever evicted for size, and a full maintenance evicts only the
/// entries that are not live.
pub fn without_a_capacity_nothing_leaves_for_size<K: Eq, V>()
    ensures never { AfterEvents K V (NoneLeavesForSize K.eq) }
    ensures just_the_dead { AfterEvents K V (JustTheDeadAreEvicted K.eq) }
{}

/// A capacity of 0, and no other, stores nothing.
pub fn no_other_capacity_stores_nothing()
    ensures { (capacity : Option ℕ) → (stores_nothing capacity ≡ true) ↔ (capacity ≡ Some 0) }
{}

/// With a capacity of 0 nothing is ever stored, found, counted or removed, and no write draws a
/// sequence number.
pub fn a_capacity_of_0_stores_nothing<K: Eq, V, E>()
    ensures orders { AfterSteps K V E (HoldsNothing K.eq) }
    ensures standing { AfterSteps K V E (NothingEverStands K.eq) }
    ensures looks { AfterSteps K V E (NothingIsFound K.eq) }
    ensures removals { AfterSteps K V E (NothingIsRemoved K.eq) }
    ensures drawn { AfterEvents K V (DrawsNone K.eq) }
{}

/// Under either policy a full maintenance first evicts the entries that are not live, residents
/// before pending ones: as `Explicit` if invalidated, else as `Expired`. All that it evicts after
/// them has the cause `Size`.
pub fn the_dead_leave_as_removed_or_expired<K: Eq, V>()
    ensures dead_first { AfterEvents K V (DeadAreEvictedFirst K.eq) }
    ensures causes { AfterEvents K V (OthersLeaveForSize K.eq) }
{}

/// Under LRU, if every entry weighs 1, only the access order decides what a full maintenance
/// evicts.
///
/// First the entries that are not live, residents before pending ones. Then, with the cause `Size`,
/// the least recently used live ones, as many as exceed the capacity; pending entries count as the
/// most recently used. The rest is resident, in that order.
pub fn what_is_least_recently_used_leaves<K: Eq, V>()
    ensures leaving { AfterEvents K V (ExcessIsEvicted K.eq) }
    ensures causes { AfterEvents K V (ExcessLeavesForSize K.eq) }
    ensures admitted { AfterEvents K V (AllButExcessStay K.eq) }
    ensures without_a_capacity { AfterEvents K V (AllTheLiveStay K.eq) }
{}

/// Under LRU, if no live pending entry is heavier than the capacity, a full maintenance evicts a
/// shortest prefix.
///
/// After the entries that are not live, it evicts the shortest prefix of the live ones, in access
/// order, that brings them within the capacity. The rest is resident, in that order.
pub fn the_shortest_front_leaves<K: Eq, V>()
    ensures leaving { AfterEvents K V (ShortestIsEvicted K.eq) }
    ensures admitted { AfterEvents K V (AllButShortestStay K.eq) }
{}

/// Under either policy and for all weights, a full maintenance evicts live residents by access
/// order.
///
/// Append the newly admitted entries to the live residents: what it evicts is a prefix of that
/// list.
pub fn a_front_of_the_order_of_use_leaves<K: Eq, V>()
    ensures { AfterEvents K V (PrefixLeaves K.eq) }
{}
