//! The ready-made types of a recorded cache.
ghost use Rattle.std.specs.Prelude.{◌≡◌, false, refl};
ghost use Rattle.moka_model.specs.Lives.{no_lifetimes};

use crate::copies::CopiesCompose;
use crate::ready::FoldState;
use moka_policy::policy::{CacheTypes, ManualClock, NoExpiry, NoListener, NoPredicate, NoWeigher};
use moka_sketch::frequency_sketch::FrequencySketch;
use std::convert::Infallible;

/// The types of a recorded cache, for keys that no attacker picks: those of `Plain`.
///
/// It has no type parameters. The prover refuses a recorded cache whose types are made of many
/// others, as those of `ReadyTypes` are.
pub struct PlainRecorded;

impl<K: Eq + Drop, V: CopiesCompose> CacheTypes<K, V> for PlainRecorded {
    type Hasher = FoldState;

    type Weigher = NoWeigher;

    type Expiry = NoExpiry;

    type Predicate = NoPredicate;

    type Frequency = FrequencySketch<16>;

    type Listener = NoListener;

    type Clock = ManualClock;

    type Error = Infallible;

    ghost weight = { λ _ _ _. 1 };

    ghost equal_keys_weigh = { λ _ _ _ _ _. refl };

    ghost lifetimes = { λ _. no_lifetimes };

    ghost test = { λ _ _ _. false };

    ghost keeps = { λ _ _. Unit {0} };

    ghost equal_keys_keep = { λ _ _ _ _ _. tt };

    ghost copies_keep = { λ _ _ _ _ _. tt };

    ghost copies_compose = { V.copies_compose };
}
