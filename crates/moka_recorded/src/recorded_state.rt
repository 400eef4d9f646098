//! An owned cache as a machine whose steps are recorded.
ghost use Rattle.std.specs.Prelude.{◌≡◌, ◌↔◌, List, [], IsTrue, IfOk, IfErr};

use crate::built::Built;
use crate::named::copy_name;
use moka_expiration::view::StateView;
use moka_policy::policy::{CacheTypes, Refused};
use moka_recording::machine::Machine;
use moka_rows::rows::RowStore;
use moka_state::state::State;
use moka_state::step::{Reply, Step};
use std::hash::Hash;

/// A machine over a state that was just built, which gives the state back.
///
/// A recorded cache is written over any such machine. The prover takes no function that is given a
/// state by value and is generic over its keys, its values and its types.
pub trait OverState<S: Drop, R: Drop>: Machine<S, R> + Sized {
    ghost use Rattle.std.specs.Prelude.{◌≡◌, List, []};

    /// The state.
    type State;

    /// The state was just built.
    ghost is_built: { Self.State → Type 0 };

    /// The settings of the state, with which it was built.
    ghost settings: { Self.State → Self.Built };

    /// The state stands for this history, the oldest step first. The history is legal under these
    /// settings.
    ghost is_record: { Self.Built → Self.State → List (S × R) → Type 0 };

    /// Creates the machine over a state.
    fn over(state: Self::State) -> Self
        requires { is_built state }
        ensures built { Self.built_with result ≡ settings state }
        ensures stands { Self.stands (settings state) result [] };

    /// Returns the state of the machine.
    fn into_state(self) -> Self::State
        ensures { (built : Self.Built) (h : List (S × R)) → Self.stands built self h →
            is_record built result h };
}

/// A state whose steps are recorded.
#[derive(Drop)]
pub struct RecordedState<K: Hash + Drop, V: Clone, C: CacheTypes<K, V>, R: RowStore<K, V>> {
    pub(crate) state: State<K, V, C, R>,
}

/// A reply, and the step with its reply twice more.
type Done<K, V, C> = (
    Reply<K, V, C>,
    (Step<K, V, C>, Reply<K, V, C>),
    (Step<K, V, C>, Reply<K, V, C>),
);

impl<K: Hash + Drop, V: Clone, C: CacheTypes<K, V>, R: RowStore<K, V>> Machine<
    Step<K, V, C>,
    Reply<K, V, C>,
> for RecordedState<K, V, C, R> {
    ghost use Rattle.moka_value_invariant.specs.Keeps.{HasKeptHistory};
    ghost use Rattle.moka_state.specs.Replies.{IsRefusal};
    ghost use Rattle.moka_state.specs.Step.{StepKeeps};
    ghost use Rattle.moka_state.specs.Recorded.{OneStep, OneReply, IsRecordUnder};
    ghost use Rattle.moka_recorded.specs.GivesBack.{GivesBack};
    ghost use Rattle.moka_recorded.specs.Keeps.{HandsOutKept};
    ghost use Rattle.moka_recorded.specs.StepForm.{IsOfForm};
    ghost use Rattle.moka_recorded.specs.Waking.{IsEnd, IsNotYet};

    type Built = Built<C::Hasher, C::Weigher, C::Expiry>;

    ghost built_with = { λ it. it.state.settings };

    ghost stands = { λ built it history. IsRecordUnder K.eq V.is_clone V.is_infallible C.test
        ⟦<C as StateView<K, V>>⟧.view (⟦<C as StateView<K, V>>⟧.settings built) it.state history
        × HasKeptHistory C.keeps K.eq V.is_clone (⟦<C as StateView<K, V>>⟧.view it.state) };

    ghost owes = { StepKeeps C.keeps C.Predicate.tests C.test };

    ghost fits = { λ step reply. IsOfForm step reply
        × HandsOutKept C.keeps C.test step reply
        × GivesBack V.is_clone step reply };

    ghost one_step = { OneStep V.is_clone };

    ghost one_reply = { OneReply V.is_clone };

    ghost ends = { IsEnd };

    ghost fails = { IsRefusal };

    ghost early = { IsNotYet };

    fn step_recorded(&mut self, step: Step<K, V, C>) -> Result<Done<K, V, C>, Refused> {
        let (reply, first, second) = self.state.step_recorded(step)?;
        Ok((reply, first, second))
    }

    fn is_end(step: &Step<K, V, C>) -> bool {
        matches!(step, Step::Finish { .. } | Step::Abandon { .. })
    }

    fn is_failure(reply: &Reply<K, V, C>) -> bool {
        matches!(reply, Reply::Refused(_) | Reply::PredicateRefused(_))
    }

    fn is_early(reply: &Reply<K, V, C>) -> bool {
        matches!(reply, Reply::NotYet)
    }

    fn still_waits(&self, step: &Step<K, V, C>) -> bool {
        let Step::Collect { name } = step else {
            return false;
        };
        match copy_name(name) {
            Ok(name) => self.state.is_open(name),
            Err(_) => false,
        }
    }
}

impl<K: Hash + Drop, V: Clone, C: CacheTypes<K, V>, R: RowStore<K, V>> OverState<
    Step<K, V, C>,
    Reply<K, V, C>,
> for RecordedState<K, V, C, R> {
    ghost use Rattle.std.specs.Prelude.{[]};
    ghost use Rattle.moka_state.specs.Recorded.{IsRecordUnder};

    type State = State<K, V, C, R>;

    ghost is_built = { λ state. ⟦<C as StateView<K, V>>⟧.stands_for
        (⟦<C as StateView<K, V>>⟧.settings state.settings) state [] };

    ghost settings = { λ state. state.settings };

    ghost is_record = { λ built. IsRecordUnder K.eq V.is_clone V.is_infallible C.test
        ⟦<C as StateView<K, V>>⟧.view (⟦<C as StateView<K, V>>⟧.settings built) };

    fn over(state: State<K, V, C, R>) -> Self {
        RecordedState { state }
    }

    fn into_state(self) -> State<K, V, C, R> {
        let RecordedState { state } = self;
        state
    }
}
