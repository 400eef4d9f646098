//! A bounded in-process cache with proofs: the front of the Rust crate `moka` 0.12.16, rewritten.
//!
//! This crate re-exports the public names. Those that moka has too are under its module paths.
#![tactic(auto)]

pub use moka_base::common::entry::Entry;
pub use moka_base::policy::{Expiry, Policy};
pub use moka_base::{notification, policy};
pub use moka_state::predicate_error::PredicateError;

/// What the modules have in common.
pub mod common {
    pub use moka_base::common::{builder_utils, entry};

    /// Iteration over caches.
    pub mod iter {
        pub use moka_iter::iter::{Iter, ScanningGet};
        pub use moka_state_iter::cursor::WalkCursor;
    }
}

/// The laws of walks.
pub use moka_iter::walk_laws;

/// Ready-made types of caches.
pub use moka_presets::{clock, copies, meant, ready};

/// Operations on a value, given the one before.
pub mod ops {
    /// The operations and the results of computes.
    pub mod compute {
        pub use moka_base::comp_result::CompResult;
        pub use moka_base::turns::Op;
    }
}

/// Caches that threads share, and the builder of all caches.
pub mod sync {
    pub use moka_iter::iter::Iter;
    pub use moka_state::predicate_id::PredicateId;
    pub use moka_sync::builder;
    pub use moka_sync::builder::CacheBuilder;
    pub use moka_sync::cache::Cache;
    pub use moka_sync::concurrent_cache_ext::ConcurrentCacheExt;
    pub use moka_sync::entry_selector::{OwnedKeyEntrySelector, RefKeyEntrySelector};
    pub use moka_sync::segment::SegmentedCache;

    /// The cache of one segment that threads share.
    pub mod cache {
        pub use moka_sync::cache::Cache;
        pub use moka_sync::concurrent_cache_ext::ConcurrentCacheExt;
    }

    /// Selectors: a key, for exactly one call. Those of shared caches, and those of owned ones.
    pub mod entry_selector {
        pub use moka_segmented::entry_selector::SegmentedEntrySelector;
        pub use moka_state::entry_selector::StateEntrySelector;
        pub use moka_sync::entry_selector::{OwnedKeyEntrySelector, RefKeyEntrySelector};
    }

    /// Single flight by hand: one caller computes the value of a key, others wait for the outcome.
    pub mod value_initializer {
        pub use moka_base::turns::{Kind, Outcome};
        pub use moka_state::answers::{
            Answer, Begun, BegunCompute, Collected, FinishRefused, Finished,
        };
        pub use moka_state::handles::{CollectRefused, Ticket, Turn};
        pub use moka_state::turn_name::TurnName;
    }

    /// A cache that threads share, with the history of its steps.
    pub mod recorded {
        pub use moka_jobs::job::{Job, run_both};
        pub use moka_recorded::built::Built;
        pub use moka_recorded::naming::Naming;
        pub use moka_recorded::receipt::{Receipt, StoredReceipt};
        pub use moka_recorded::recorded_cache::{
            CloseRefused, Entries, Opened, Pass, RecordedCache, Recording,
        };
        pub use moka_recorded::recorded_state::OverState;
        pub use moka_recorded::refused::GetWithRefused;
        pub use moka_recorded_laws::{get_laws, history_laws, legal_laws, run_laws};
    }

    /// The caches of several segments, owned and shared.
    pub mod segment {
        pub use moka_segmented::segment::{Segmented, SegmentedState};
        pub use moka_segmented::segmented_view::{SegmentedCallView, SegmentedStateView};
        pub use moka_sync::segment::SegmentedCache;
    }
}

/// Calls and their replies as data.
pub use moka_state::step;

/// The owned cache.
pub mod state {
    pub use moka_state::call_view::CallView;
    pub use moka_state::entry_selector::StateEntrySelector;
    pub use moka_state::expiring_rows::ExpiringRows;
    pub use moka_state::list_rows::ListRows;
    pub use moka_state::or_insert::OrInsertRefused;
    #[doc(hidden)]
    pub use moka_state::packed::PackedEntryInfo;
    pub use moka_state::predicate_error::PredicateError;
    pub use moka_state::predicate_id::PredicateId;
    #[doc(hidden)]
    pub use moka_state::rows::{Access, Order, Previous, Row, RowRef};
    pub use moka_state::rows::{EntryInfo, OwnLife, RowId, RowStore};
    pub use moka_state::slab_rows::SlabRows;
    pub use moka_state::state::{CacheState, InsertRefused, Settings, State};
    pub use moka_state::step::{Reply, Step};
    pub use moka_state::view::StateView;
}
