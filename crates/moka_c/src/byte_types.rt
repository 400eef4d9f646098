//! The types of a cache of byte strings.
ghost use Rattle.std.specs.Prelude.{◌≡◌, false};
ghost use Rattle.std.proofs.Math.Path.{◌∙◌};
ghost use Rattle.moka_model.specs.Lives.{no_lifetimes};
ghost use Rattle.moka_c.specs.ByteWeights.{byte_weight, equal-keys-weigh};

use crate::key::Key;
use bytes::Bytes;
use moka_policy::policy::{CacheTypes, ManualClock, NoExpiry, NoListener, NoPredicate, Weigher};
use moka_presets::ready::FoldState;
use moka_sketch::frequency_sketch::FrequencySketch;
use std::convert::Infallible;

/// Weighs an entry by the bytes of its key and of its value, at most `u32::MAX`.
#[derive(Clone, Copy, Debug)]
pub struct ByBytes;

impl Weigher<Key, Bytes> for ByBytes {
    ghost weighs = { λ _ weight. weight ≡ byte_weight };

    fn weigh(&self, key: &Key, value: &Bytes) -> u32 {
        let bytes = key.as_slice().len().saturating_add(value.len());
        u32::try_from(bytes).unwrap_or(u32::MAX)
    }
}

/// The types of a cache of byte strings. Its hasher is for keys that no attacker picks.
pub struct ByteTypes;

impl CacheTypes<Key, Bytes> for ByteTypes {
    type Hasher = FoldState;

    type Weigher = ByBytes;

    type Expiry = NoExpiry;

    type Predicate = NoPredicate;

    type Frequency = FrequencySketch<16>;

    type Listener = NoListener;

    type Clock = ManualClock;

    type Error = Infallible;

    ghost weight = { λ _. byte_weight };

    ghost equal_keys_weigh = { λ _. equal-keys-weigh };

    ghost lifetimes = { λ _. no_lifetimes };

    ghost test = { λ _ _ _. false };

    ghost keeps = { λ _ _. Unit {0} };

    ghost equal_keys_keep = { λ _ _ _ _ _. tt };

    ghost copies_keep = { λ _ _ _ _ _. tt };

    ghost copies_compose = { λ _ _ _ a b. b ∙ a };
}
