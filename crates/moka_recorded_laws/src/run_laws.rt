//! Laws about turns, for every run of steps that begins with no accepted steps.
ghost use Rattle.moka_recorded_laws.specs.RunLaws.{OfEachRun, accepted_before, OpensOnce, FindsLive, CollectsFinished, FinishesAfterOpening};

use moka_policy::policy::CacheTypes;

/// A turn is opened at one place of a run only.
///
/// Two replies `Run` with names of one number are the same reply.
pub fn a_turn_is_opened_at_one_place<K: Eq, V: Clone, C: CacheTypes<K, V>>()
    ensures { OfEachRun C C.Hasher C.Weigher C.Expiry C.Frequency C.Listener C.Clock C.Error
        C.Hasher.Hasher K.eq V.is_clone V.is_infallible C.test
        (λ settings steps replies. OpensOnce replies) }
{}

/// What a `get_with` returns was live at its own begin, or is the outcome of a turn that was
/// finished after it.
///
/// A begin that finds an entry returns a clone of the live value (`found`). A begin that waits for
/// a turn, and then collects an entry, returns a clone of the value that the turn was finished
/// with, at a place between the two (`collected`). A turn that a begin opened is finished at a
/// later place (`finished`).
pub fn what_is_returned_was_live_or_is_finished_later<K: Eq, V: Clone, C: CacheTypes<K, V>>()
    ensures found { OfEachRun C C.Hasher C.Weigher C.Expiry C.Frequency C.Listener C.Clock C.Error
        C.Hasher.Hasher K.eq V.is_clone V.is_infallible C.test
        (λ settings steps replies. FindsLive K.eq settings
        (accepted_before K.eq C.test settings steps replies) steps replies V.is_clone) }
    ensures collected { OfEachRun C C.Hasher C.Weigher C.Expiry C.Frequency C.Listener C.Clock
        C.Error C.Hasher.Hasher K.eq V.is_clone V.is_infallible C.test
        (λ settings steps replies. CollectsFinished steps replies V.is_clone) }
    ensures finished { OfEachRun C C.Hasher C.Weigher C.Expiry C.Frequency C.Listener C.Clock
        C.Error C.Hasher.Hasher K.eq V.is_clone V.is_infallible C.test
        (λ settings steps replies. FinishesAfterOpening steps replies) }
{}
