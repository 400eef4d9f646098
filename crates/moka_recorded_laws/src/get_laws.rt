//! The law of what a `get_with` of a recorded cache returned, once the cache is closed.
ghost use Rattle.moka_recorded_laws.specs.GetLaws.{ReturnsLiveOrFinished};
ghost use Rattle.moka_recorded_laws.specs.HistoryLaws.{OfEachLog};

use moka_expiration::view::StateView;
use moka_policy::policy::CacheTypes;
use std::hash::Hash;

/// What a `get_with` returned, on any thread, was live at a begin of its own, or is the outcome of
/// a turn that was finished after that begin.
///
/// The begin is in the history that closing the cache returns, with the number of the pass.
/// Values are the same up to clones.
pub fn what_get_with_returned_was_live_or_finished_later<
    K: Hash + Drop,
    V: Clone,
    C: CacheTypes<K, V>,
    F: FnOnce() -> V,
>()
    ensures { (init : F) → OfEachLog C C.Hasher C.Weigher C.Expiry C.Frequency C.Listener C.Clock
        C.Hasher.Hasher K.eq V.is_clone V.is_infallible C.test ⟦<C as StateView<K, V>>⟧.view
        (λ settings before log. ReturnsLiveOrFinished K.eq V.is_clone settings before log C.keeps
        (F.post init)) }
{}
