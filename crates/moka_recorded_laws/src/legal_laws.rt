//! Laws of closed histories, as contracts of functions without code.
ghost use Rattle.std.specs.Prelude.{◌≡◌};
ghost use Rattle.moka_recorded_laws.specs.LegalRun.{RecordsAreLegal};

use moka_expiration::view::StateView;
use moka_policy::policy::CacheTypes;
use std::hash::Hash;

/// If clones equal their originals, a closed history is itself a legal run.
///
/// A history has clones of the steps and replies of a run, so in general it is a run up to clones.
/// If values are numbers, say, each reply in the history is the right one for its step, after the
/// steps before it. The state stands for the steps that were accepted.
pub fn a_history_of_equal_clones_is_legal<K: Hash + Drop, V: Clone, C: CacheTypes<K, V>>()
    ensures { ((v w : V) → V.is_clone v w → w ≡ v)
        → RecordsAreLegal C C.Hasher C.Weigher C.Expiry C.Frequency C.Listener C.Clock
        C.Hasher.Hasher K.eq V.is_clone V.is_infallible C.test ⟦<C as StateView<K, V>>⟧.view }
{}
