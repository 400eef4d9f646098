//! Laws about the history of a cache: what a recorded cache returns when it is closed.
//!
//! A history has clones of the steps and replies of a run. So the laws of runs hold of it, up to
//! clones.
ghost use Rattle.std.specs.Prelude.{◌≡◌};
ghost use Rattle.moka_recorded_laws.specs.HistoryLaws.{OfEachRecord, OfEachLog, OpensInOnePass, SameUpToClones, steps_of, replies_of};
ghost use Rattle.moka_recorded_laws.specs.RunLaws.{OpensOnce, FindsLive, CollectsFinished, FinishesAfterOpening};

use moka_expiration::view::StateView;
use moka_policy::policy::CacheTypes;
use std::hash::Hash;

/// A turn is opened at one place of a history only, and so in one pass only.
///
/// Two replies `Run` with names of one number are the same entry (`place`). If the history has the
/// numbers of the passes, both have the same number (`pass`).
pub fn a_turn_is_opened_in_one_pass<K: Hash + Drop, V: Clone, C: CacheTypes<K, V>>()
    ensures place { OfEachRecord C C.Hasher C.Weigher C.Expiry C.Frequency C.Listener
        C.Clock C.Hasher.Hasher K.eq V.is_clone V.is_infallible C.test
        ⟦<C as StateView<K, V>>⟧.view
        (λ settings before history. OpensOnce (replies_of history)) }
    ensures pass { OfEachLog C C.Hasher C.Weigher C.Expiry C.Frequency C.Listener
        C.Clock C.Hasher.Hasher K.eq V.is_clone V.is_infallible C.test
        ⟦<C as StateView<K, V>>⟧.view (λ settings before log. OpensInOnePass log) }
{}

/// What a `get_with` returns was live at its own begin, or is the outcome of a turn that was
/// finished after it.
///
/// A begin that finds an entry returns the live value (`found`). A begin that waits for a turn, and
/// then collects an entry, returns the value that the turn was finished with, at a place between
/// the two (`collected`). A turn that a begin opened is finished at a later place (`finished`). The
/// values are the same up to clones.
pub fn what_was_returned_was_live_or_was_finished_later<
    K: Hash + Drop,
    V: Clone,
    C: CacheTypes<K, V>,
>()
    ensures found { OfEachRecord C C.Hasher C.Weigher C.Expiry C.Frequency C.Listener
        C.Clock C.Hasher.Hasher K.eq V.is_clone V.is_infallible C.test
        ⟦<C as StateView<K, V>>⟧.view
        (λ settings before history. FindsLive K.eq settings before (steps_of history)
        (replies_of history) (SameUpToClones V.is_clone)) }
    ensures collected { OfEachRecord C C.Hasher C.Weigher C.Expiry C.Frequency C.Listener
        C.Clock C.Hasher.Hasher K.eq V.is_clone V.is_infallible C.test
        ⟦<C as StateView<K, V>>⟧.view
        (λ settings before history. CollectsFinished (steps_of history) (replies_of history)
        (SameUpToClones V.is_clone)) }
    ensures finished { OfEachRecord C C.Hasher C.Weigher C.Expiry C.Frequency C.Listener
        C.Clock C.Hasher.Hasher K.eq V.is_clone V.is_infallible C.test
        ⟦<C as StateView<K, V>>⟧.view
        (λ settings before history. FinishesAfterOpening (steps_of history)
        (replies_of history)) }
{}

/// If clones equal their originals, values that are the same up to clones are equal.
pub fn equal_clones_are_one_value<V: Clone>()
    ensures { ((v w : V) → V.is_clone v w → w ≡ v) → (v w : V) → SameUpToClones V.is_clone v w
        → w ≡ v }
{}
