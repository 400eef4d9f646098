//! The specification at the types of a cache, for the words of contracts.
use moka_expiration::view::StateView;
use moka_policy::policy::CacheTypes;
use std::hash::Hash;

/// The specification at the types of a cache. It follows from the types: nothing has to be
/// implemented. The words of `specs/Ends.antt` say by it how calls end.
pub trait CallView<K: Hash, V: Clone>: CacheTypes<K, V> {
    ghost use Rattle.moka_expiration.specs.StateData.{StateData};
    ghost use Rattle.moka_state.specs.Ends.{Spec};

    /// Which keys are equal, what a clone is, and the relations of states.
    ghost spec: { Spec K V Self.Error
        (StateData K V Self.Hasher Self.Weigher Self.Expiry Self.Frequency Self.Error) };
}

impl<K: Hash, V: Clone, C: CacheTypes<K, V>> CallView<K, V> for C {
    ghost spec = { record {
      eq = K.eq;
      is_clone = V.is_clone;
      is_infallible = V.is_infallible;
      at_each = ⟦<C as StateView<K, V>>⟧.at_each_history;
      stands_for = ⟦<C as StateView<K, V>>⟧.stands_for;
      follows = ⟦<C as StateView<K, V>>⟧.follows;
      replies_with = ⟦<C as StateView<K, V>>⟧.replies_with;
    } };
}
