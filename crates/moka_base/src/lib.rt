//! What the layers of the cache share: its policies, its notices, the definitions that every
//! contract cites, and the laws about them. Each name is exported under the path that users know.
#![tactic(auto)]

pub use moka_laws::{
    admission_laws, call_laws, frequency_laws, hiding_laws, laws, maintenance_laws, order_laws,
    own_life_laws, size_laws, sketch_laws, turn_laws,
};
#[doc(hidden)]
pub use moka_laws::{
    worked, worked_admission, worked_building, worked_calls, worked_expiry, worked_frequency,
    worked_maintenance, worked_size, worked_sketch, worked_turns,
};
pub use moka_model::{comp_result, notification, turns};
pub use moka_policy::{clock, expiry, frequency, listener, predicate, weigher};
pub use moka_sketch::frequency_sketch;

/// The types that a cache is made of, the hasher of number keys, and the errors of a cache's calls.
pub mod policy {
    pub use moka_policy::policy::{
        CacheTypes, Clock, CountTable, EvictionPolicy, ExpireBy, Expiry, FrequencySource, HoldsIf,
        ListenBy, Listener, ManualClock, NoExpiry, NoListener, NoPredicate, NoWeigher, NumberHash,
        Policy, Predicate, Refused, WeighBy, Weigher,
    };
    pub use moka_sketch::frequency_sketch::FrequencySketch;
}

/// What the modules have in common.
pub mod common {
    pub use moka_model::entry;
    pub use moka_policy::builder_utils;
}
