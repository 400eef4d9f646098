//! The behaviour of a cache: its policy, the hashes of its keys, the weights of its entries, and
//! their own lifetimes.
ghost use Rattle.std.specs.Prelude.{◌≡◌, true, if◌then◌else◌, option_map, IfSome};
ghost use Rattle.std.specs.Arc.{arc_value};
ghost use Rattle.moka_model.specs.Lives.{rest, given};
ghost use Rattle.moka_policy.specs.Policy.{is_lru};
ghost use Rattle.moka_expiration.specs.ExpirationPolicy.{own_life, own_of};
ghost use Rattle.moka_expiration.specs.Behaviour.{BehaviourData, data_with};
ghost use Rattle.moka_expiration.specs.Plain.{IsPlain};

use crate::expiration_policy::{ExpirationPolicy, own_life_from, rest};
use crate::view::BehaviourView;
use moka_policy::policy::{CacheTypes, EvictionPolicy, Expiry, Weigher};
use moka_rows::rows::{EntryInfo, OwnLife};
use std::hash::{BuildHasher, Hash, Hasher};
use std::marker::Model;
use std::sync::Arc;

/// What a cache computes of its keys and values, and its eviction policy.
///
/// Without a weigher each entry weighs 1. Without an expiry no entry has a lifetime of its own.
#[derive(Drop)]
pub struct Behaviour<K: Hash + Drop, V: Clone, C: CacheTypes<K, V>> {
    policy: EvictionPolicy,
    hasher: Arc<C::Hasher>,
    weigher: Option<Arc<C::Weigher>>,
    expiry: Option<Arc<C::Expiry>>,
}

impl<K: Hash + Drop, V: Clone, C: CacheTypes<K, V>> Model for Behaviour<K, V, C> {
    ghost Value = { BehaviourData C.Hasher C.Weigher C.Expiry };

    ghost view = { λ behaviour. record {
      is_lru = is_lru behaviour.policy;
      hasher = arc_value behaviour.hasher;
      weigher = option_map arc_value behaviour.weigher;
      expiry = option_map arc_value behaviour.expiry;
    } };

    ghost invariant = { λ behaviour.
        IfSome behaviour.weigher (λ weigher.
        C.Weigher.weighs (arc_value weigher) (C.weight (arc_value weigher)))
        × IfSome behaviour.expiry (λ expiry.
        C.Expiry.gives (arc_value expiry) (C.lifetimes (arc_value expiry))) };
}

impl<K: Hash + Drop, V: Clone, C: CacheTypes<K, V>> Behaviour<K, V, C> {
    /// Creates a behaviour. The weigher and the expiry, if given, have to compute what the cache's
    /// types say.
    pub fn new(
        policy: EvictionPolicy,
        hasher: Arc<C::Hasher>,
        weigher: Option<Arc<C::Weigher>>,
        expiry: Option<Arc<C::Expiry>>,
    ) -> Self
        requires weighs { IfSome weigher (λ weigher.
            C.Weigher.weighs (arc_value weigher) (C.weight (arc_value weigher))) }
        requires gives { IfSome expiry (λ expiry.
            C.Expiry.gives (arc_value expiry) (C.lifetimes (arc_value expiry))) }
        ensures { result ≡ data_with (is_lru policy) (arc_value hasher)
            (option_map arc_value weigher) (option_map arc_value expiry) }
    {
        Behaviour {
            policy,
            hasher,
            weigher,
            expiry,
        }
    }

    /// Returns the eviction policy.
    #[inline(always)]
    pub fn policy(&self) -> EvictionPolicy
        ensures { is_lru result ≡ self.now.is_lru }
    {
        self.policy
    }

    /// Returns the hash of a key. Equal keys have the same hash.
    #[inline(always)]
    pub fn hash(&self, key: &K) -> u64
        ensures hash { result ≡ (⟦<C as BehaviourView<K, V>>⟧.behaviour self.now).hash key.now }
        ensures alike { (a b : K) → K.eq a b ≡ true →
            (⟦<C as BehaviourView<K, V>>⟧.behaviour self.now).hash a
            ≡ (⟦<C as BehaviourView<K, V>>⟧.behaviour self.now).hash b }
    {
        let mut state = self.hasher.build_hasher();
        key.hash(&mut state);
        state.finish()
    }

    /// Returns the weight of a value under a key.
    #[inline(always)]
    pub fn weight(&self, key: &K, value: &V) -> u32
        ensures { result
            ≡ (⟦<C as BehaviourView<K, V>>⟧.behaviour self.now).weight key.now value.now }
    {
        match &self.weigher {
            Some(weigher) => weigher.weigh(key, value),
            None => 1,
        }
    }

    /// Returns the own lifetime of a value that is written at `now` where no live value is.
    #[inline(always)]
    pub fn life_of_new(&self, key: &K, value: &V, now: u64) -> Option<OwnLife>
        ensures { option_map own_life result ≡ given
            ((⟦<C as BehaviourView<K, V>>⟧.behaviour self.now).lifetimes.created key.now value.now
            now)
            now }
    {
        match &self.expiry {
            Some(expiry) => own_life_from(expiry.expire_after_create(key, value, now), now),
            None => None,
        }
    }

    /// Returns the own lifetime of a value that is written at `now` over another one.
    ///
    /// `was` is the metadata of the old value, and `is_live` is whether that is live. Only a live
    /// value counts as updated; else the new one counts as created.
    #[inline(always)]
    pub fn life_of_overwrite(
        &self,
        key: &K,
        value: &V,
        was: EntryInfo,
        is_live: bool,
        now: u64,
    ) -> Option<OwnLife>
        ensures { let lives = (⟦<C as BehaviourView<K, V>>⟧.behaviour self.now).lifetimes in
            option_map own_life result ≡ given
            (if is_live then lives.updated key.now value.now now (rest (own_of was) now)
            else lives.created key.now value.now now)
            now }
    {
        if !is_live {
            return self.life_of_new(key, value, now);
        }
        let left = rest(was.own_life, now);
        match &self.expiry {
            Some(expiry) => own_life_from(expiry.expire_after_update(key, value, now, left), now),
            None => own_life_from(left, now),
        }
    }

    /// Returns the own lifetime of a live value that a recorded lookup finds at `now`.
    #[inline(always)]
    pub fn life_of_hit(&self, key: &K, value: &V, info: EntryInfo, now: u64) -> Option<OwnLife>
        ensures { let lives = (⟦<C as BehaviourView<K, V>>⟧.behaviour self.now).lifetimes in
            option_map own_life result ≡ given
            (lives.read key.now value.now now (rest (own_of info) now) info.last_modified)
            now }
    {
        let left = rest(info.own_life, now);
        let life = match &self.expiry {
            Some(expiry) => expiry.expire_after_read(key, value, now, left, info.last_modified),
            None => left,
        };
        own_life_from(life, now)
    }

    /// Returns whether nothing limits the life of a value with this metadata. Then no access and no
    /// overwrite gives the entry a lifetime of its own or a deadline.
    #[inline(always)]
    pub fn is_plain(&self, lives: &ExpirationPolicy, info: EntryInfo) -> bool
        ensures { result ≡ true → IsPlain self.now lives.now info }
    {
        match (
            &self.expiry,
            lives.time_to_live,
            lives.time_to_idle,
            info.own_life,
        ) {
            (None, None, None, None) => true,
            _ => false,
        }
    }
}
