//! What the data that a cache stores means to the specification.
ghost use Rattle.std.specs.Prelude.{◌≡◌, None};
ghost use Rattle.moka_model.specs.SizeLaws.{WeighsOnes};
ghost use Rattle.moka_expiration.specs.StateData.{SettingsData};

use moka_policy::policy::{CacheTypes, FrequencySource};
use std::hash::Hash;

/// How caches of these types behave, as the specification says it. It follows from the types.
pub trait BehaviourView<K: Hash, V: Clone>: CacheTypes<K, V> {
    ghost use Rattle.std.specs.Prelude.{ℕ, List};
    ghost use Rattle.moka_model.specs.Lives.{Behaviour};
    ghost use Rattle.moka_expiration.specs.Behaviour.{BehaviourData};

    /// The behaviour of a cache.
    ghost behaviour: { BehaviourData Self.Hasher Self.Weigher Self.Expiry → Behaviour K V };

    /// The estimate of a source for a hash after it has noted these hashes too, in order.
    ghost frequency: { Self.Frequency → List ℕ → ℕ → ℕ };
}

impl<K: Hash, V: Clone, C: CacheTypes<K, V>> BehaviourView<K, V> for C {
    ghost use Rattle.moka_expiration.specs.Behaviour.{hash_by, behaviour_by};
    ghost use Rattle.moka_expiration.specs.StateData.{estimates};

    ghost behaviour = { behaviour_by
        (hash_by C.Hasher.build_hasher C.Hasher.Hasher.write C.Hasher.Hasher.finish K.hash_input)
        C.weight
        C.lifetimes };

    ghost frequency = { estimates C.Frequency.noted C.Frequency.count };
}

/// The state of a cache of these types, as the specification says it, and the relations in the
/// contracts of its calls. It follows from the types: nothing has to be implemented.
pub trait StateView<K: Hash, V: Clone>: CacheTypes<K, V> {
    ghost use Rattle.std.specs.Prelude.{List};
    ghost use Rattle.moka_model.specs.Lives.{Settings};
    ghost use Rattle.moka_model.specs.Steps.{AcceptedStep};
    ghost use Rattle.moka_model.specs.Calls.{Call, Reply};
    ghost use Rattle.moka_model.specs.StandsFor.{WholeView};
    ghost use Rattle.moka_expiration.specs.StateData.{SettingsData, StateData};

    /// The settings with which a cache was built.
    ghost settings: { SettingsData Self.Hasher Self.Weigher Self.Expiry → Settings K V };

    /// The state: its settings, its values and its turns.
    ghost view: { StateData K V Self.Hasher Self.Weigher Self.Expiry Self.Frequency Self.Error
        → WholeView K V Self.Error };

    /// These accepted steps are a history of the state, under these settings.
    ghost stands_for: { Settings K V
        → StateData K V Self.Hasher Self.Weigher Self.Expiry Self.Frequency Self.Error
        → List (AcceptedStep K V Self.Error)
        → Type 0 };

    /// This holds for every history of the state and its settings.
    ghost at_each_history: { StateData K V Self.Hasher Self.Weigher Self.Expiry Self.Frequency
        Self.Error
        → (Settings K V → List (AcceptedStep K V Self.Error) → Type 0)
        → Type 0 };

    /// Each history of the first state, followed by the call, is a history of the second.
    ghost follows: { StateData K V Self.Hasher Self.Weigher Self.Expiry Self.Frequency Self.Error
        → Call K V Self.Error
        → StateData K V Self.Hasher Self.Weigher Self.Expiry Self.Frequency Self.Error
        → Type 0 };

    /// This is a right result of the call, for every history of the state.
    ghost replies_with: { StateData K V Self.Hasher Self.Weigher Self.Expiry Self.Frequency
        Self.Error
        → Call K V Self.Error
        → Reply K V Self.Error
        → Type 0 };
}

impl<K: Hash, V: Clone, C: CacheTypes<K, V>> StateView<K, V> for C {
    ghost use Rattle.moka_expiration.specs.StateData.{settings_by, view_by, StandsForBy, AtEachHistoryBy, FollowsBy, RepliesWithBy};

    ghost settings = { settings_by
        ⟦<C as BehaviourView<K, V>>⟧.behaviour
        (⟦<C as BehaviourView<K, V>>⟧.frequency C.Frequency.opened) };

    ghost view = { view_by
        ⟦<C as BehaviourView<K, V>>⟧.behaviour
        ⟦<C as BehaviourView<K, V>>⟧.frequency
        C.Frequency.opened };

    ghost stands_for = { StandsForBy K.eq V.is_clone (view_by
        ⟦<C as BehaviourView<K, V>>⟧.behaviour
        ⟦<C as BehaviourView<K, V>>⟧.frequency
        C.Frequency.opened) };

    ghost at_each_history = { AtEachHistoryBy K.eq V.is_clone (view_by
        ⟦<C as BehaviourView<K, V>>⟧.behaviour
        ⟦<C as BehaviourView<K, V>>⟧.frequency
        C.Frequency.opened) };

    ghost follows = { FollowsBy K.eq V.is_clone (view_by
        ⟦<C as BehaviourView<K, V>>⟧.behaviour
        ⟦<C as BehaviourView<K, V>>⟧.frequency
        C.Frequency.opened) };

    ghost replies_with = { RepliesWithBy K.eq V.is_clone (view_by
        ⟦<C as BehaviourView<K, V>>⟧.behaviour
        ⟦<C as BehaviourView<K, V>>⟧.frequency
        C.Frequency.opened) };
}

/// Without a weigher each key weighs 1 with each value.
pub fn without_a_weigher_each_weighs_one<K: Hash, V: Clone, C: CacheTypes<K, V>>()
    ensures { (settings : SettingsData C.Hasher C.Weigher C.Expiry)
        → settings.behaviour.weigher ≡ None
        → WeighsOnes (⟦<C as StateView<K, V>>⟧.settings settings) }
{}
