//! What the data of a cache of several segments means to the specification.
use moka_expiration::view::BehaviourView;
use moka_policy::policy::CacheTypes;
use std::hash::Hash;

/// What the data of a cache of several segments of these types means, and the relations between its
/// states. It follows from the types: every `CacheTypes` has it.
pub trait SegmentedStateView<K: Hash, V: Clone>: CacheTypes<K, V> {
    ghost use Rattle.std.specs.Prelude.{List};
    ghost use Rattle.moka_model.specs.Calls.{Call, Reply};
    ghost use Rattle.moka_segment_model.specs.Segments.{SegmentedSettings};
    ghost use Rattle.moka_segmented.specs.SegmentedData.{SegmentedData};

    /// What the cache was built with, in the specification's terms.
    ghost segmented_settings: { SegmentedData K V Self.Hasher Self.Weigher Self.Expiry
        Self.Frequency Self.Error
        → SegmentedSettings K V };

    /// The cache could have come from these calls under these settings. Each segment has its own
    /// list of them as its history, as a cache with its share.
    ghost all_stand_for: { SegmentedSettings K V
        → SegmentedData K V Self.Hasher Self.Weigher Self.Expiry Self.Frequency Self.Error
        → List (Call K V Self.Error)
        → Type 0 };

    /// This holds for all settings and calls that the cache could have come from.
    ghost at_each_list: { SegmentedData K V Self.Hasher Self.Weigher Self.Expiry Self.Frequency
        Self.Error
        → (SegmentedSettings K V → List (Call K V Self.Error) → Type 0)
        → Type 0 };

    /// Whatever calls the first cache could have come from, the second one could have come from
    /// those followed by this one.
    ghost follows_in: { SegmentedData K V Self.Hasher Self.Weigher Self.Expiry Self.Frequency
        Self.Error
        → Call K V Self.Error
        → SegmentedData K V Self.Hasher Self.Weigher Self.Expiry Self.Frequency Self.Error
        → Type 0 };

    /// Whatever calls the cache could have come from, this is what the call returns after them, up
    /// to cloning.
    ghost replies_in: { SegmentedData K V Self.Hasher Self.Weigher Self.Expiry Self.Frequency
        Self.Error
        → Call K V Self.Error
        → Reply K V Self.Error
        → Type 0 };
}

impl<K: Hash, V: Clone, C: CacheTypes<K, V>> SegmentedStateView<K, V> for C {
    ghost use Rattle.moka_segmented.specs.SegmentedData.{segmented_settings_by, segmented_view_by, AllStandForBy, AtEachListBy, FollowsInBy, RepliesInBy};

    ghost segmented_settings = { segmented_settings_by
        ⟦<C as BehaviourView<K, V>>⟧.behaviour
        (⟦<C as BehaviourView<K, V>>⟧.frequency C.Frequency.opened) };

    ghost all_stand_for = { AllStandForBy K.eq V.is_clone (segmented_view_by
        ⟦<C as BehaviourView<K, V>>⟧.behaviour
        ⟦<C as BehaviourView<K, V>>⟧.frequency
        C.Frequency.opened) };

    ghost at_each_list = { AtEachListBy K.eq V.is_clone (segmented_view_by
        ⟦<C as BehaviourView<K, V>>⟧.behaviour
        ⟦<C as BehaviourView<K, V>>⟧.frequency
        C.Frequency.opened) };

    ghost follows_in = { FollowsInBy K.eq V.is_clone (segmented_view_by
        ⟦<C as BehaviourView<K, V>>⟧.behaviour
        ⟦<C as BehaviourView<K, V>>⟧.frequency
        C.Frequency.opened) };

    ghost replies_in = { RepliesInBy K.eq V.is_clone (segmented_view_by
        ⟦<C as BehaviourView<K, V>>⟧.behaviour
        ⟦<C as BehaviourView<K, V>>⟧.frequency
        C.Frequency.opened) };
}

/// The specification at the types of a cache of several segments. It follows from the types: every
/// `CacheTypes` has it. The words of `specs/Ends.antt` say by it how calls end.
pub trait SegmentedCallView<K: Hash, V: Clone>: CacheTypes<K, V> {
    ghost use Rattle.moka_segmented.specs.SegmentedData.{SegmentedData};
    ghost use Rattle.moka_segmented.specs.Ends.{SegmentedSpec};

    /// Which keys are equal, what a clone is, and the relations of caches.
    ghost spec: { SegmentedSpec K V Self.Error
        (SegmentedData K V Self.Hasher Self.Weigher Self.Expiry Self.Frequency Self.Error) };
}

impl<K: Hash, V: Clone, C: CacheTypes<K, V>> SegmentedCallView<K, V> for C {
    ghost spec = { record {
      eq = K.eq;
      is_clone = V.is_clone;
      is_infallible = V.is_infallible;
      at_each = ⟦<C as SegmentedStateView<K, V>>⟧.at_each_list;
      stand_for = ⟦<C as SegmentedStateView<K, V>>⟧.all_stand_for;
      follows = ⟦<C as SegmentedStateView<K, V>>⟧.follows_in;
      replies_with = ⟦<C as SegmentedStateView<K, V>>⟧.replies_in;
    } };
}
