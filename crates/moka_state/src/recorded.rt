//! Recorded steps: each is done once, and returned twice more with its reply, for a history and for
//! the caller.
ghost use Rattle.std.specs.Prelude.{◌≡◌, IfOk, IfErr, OnErr};
ghost use Rattle.moka_state.specs.Recorded.{IsSaidAgain, IsStepCopy, OneReply, OneStep, Records, WantsMemory};
ghost use Rattle.moka_state.specs.Step.{StepKeeps, ReplyKeeps, call_of};
ghost use Rattle.moka_state.specs.Ends.{GoesOn, HandsOutAt, RepliesTo};

use crate::call_view::CallView;
use crate::handed_out::HandedOut;
use crate::state::State;
use crate::step::{Reply, Step};
use moka_expiration::view::StateView;
use moka_policy::policy::{CacheTypes, Refused};
use moka_rows::rows::RowStore;
use std::alloc::AllocError;
use std::hash::Hash;

/// A step and its reply.
pub type Entry<K, V, C> = (Step<K, V, C>, Reply<K, V, C>);

impl<K: Hash + Drop, V: Clone, C: CacheTypes<K, V>, R: RowStore<K, V>> State<K, V, C, R> {
    /// Does a step like [`State::step`], and also returns two clones of the step and of its reply:
    /// first for a history, then for the caller to keep.
    ///
    /// All clones are made before anything changes. A step that fails for another cause than memory
    /// succeeds here, with a reply that says so; it has changed nothing. An `Abandon` or a `Leave`
    /// shares its key, and does not allocate. Only values that the reply contains are cloned.
    ///
    /// # Errors
    ///
    /// - `OutOfMemory`: a clone failed, or the step itself failed with it. Nothing has changed.
    pub fn step_recorded(
        &mut self,
        step: Step<K, V, C>,
    ) -> Result<(Reply<K, V, C>, Entry<K, V, C>, Entry<K, V, C>), Refused>
        requires { StepKeeps C.keeps C.Predicate.tests C.test step }
        ensures reply { IfOk result
            (λ done. RepliesTo ⟦<C as CallView<K, V>>⟧.spec self.old (call_of C.test step) done.0) }
        ensures stands { IfOk result (λ done. GoesOn ⟦<C as CallView<K, V>>⟧.spec self.old
            (call_of C.test step) done.0 self.new) }
        ensures kept { IfOk result (λ done. ReplyKeeps C.keeps step done.0) }
        ensures given { IfOk result (λ done. ¬ (WantsMemory done.0)) }

        // Up to clones, both entries have the given step and the returned reply.
        ensures steps { IfOk result (λ done. OneStep V.is_clone step done.1.0 done.2.0) }
        ensures replies { IfOk result (λ done.
            ⟦<C as StateView<K, V>>⟧.at_each_history self.old (λ _ _.
            OneReply V.is_clone done.0 done.1.1 done.2.1)) }

        // If the state has a history, it has that history with one entry more afterwards.
        ensures record { IfOk result (λ done. Records K.eq V.is_clone V.is_infallible C.test
            ⟦<C as StateView<K, V>>⟧.view self.old self.new done.1) }
        ensures refused { OnErr result (self.new ≡ self.old) }
        ensures cause { IfErr result (λ cause. cause ≡ Refused.OutOfMemory) }
        ensures settings { self.new.settings ≡ self.old.settings }
    {
        let Ok((first, second)) = self.prepare_twice(&step) else {
            drop(step);
            return Err(Refused::OutOfMemory);
        };
        let reply = self.step(step);
        with_entries(reply, first, second)
    }

    // Clones a step twice, each time with what it will hand out.
    fn prepare_twice(
        &self,
        step: &Step<K, V, C>,
    ) -> Result<(Prepared<K, V, C>, Prepared<K, V, C>), AllocError>
        ensures steps { IfOk result (λ made. OneStep V.is_clone step.now made.0.step made.1.step) }
        ensures first { IfOk result (λ made. HandsOutAt ⟦<C as CallView<K, V>>⟧.spec self.now
            (call_of C.test step.now) made.0.out) }
        ensures second { IfOk result (λ made. HandsOutAt ⟦<C as CallView<K, V>>⟧.spec self.now
            (call_of C.test step.now) made.1.out) }
    {
        let first = self.prepare(step)?;
        match self.prepare(step) {
            Ok(second) => Ok((first, second)),
            Err(refused) => {
                drop(first);
                Err(refused)
            }
        }
    }

    // Clones a step, with what it will hand out.
    fn prepare(&self, step: &Step<K, V, C>) -> Result<Prepared<K, V, C>, AllocError>
        ensures step { IfOk result (λ made. IsStepCopy V.is_clone step.now made.step) }
        ensures out { IfOk result (λ made. HandsOutAt ⟦<C as CallView<K, V>>⟧.spec self.now
            (call_of C.test step.now) made.out) }
    {
        let copy = Step::clone(step)?;
        match self.clones_for_step(step) {
            Ok(out) => Ok(Prepared { step: copy, out }),
            Err(refused) => {
                drop(copy);
                Err(refused)
            }
        }
    }
}

// A clone of a step, and clones of what the step will hand out.
#[derive(Drop)]
struct Prepared<K: Eq + Drop, V: Clone, C: CacheTypes<K, V>> {
    step: Step<K, V, C>,
    out: HandedOut<K, V, C::Error>,
}

// Returns a reply, and it again beside each of two clones of its step. Fails if the step failed
// with `OutOfMemory`.
fn with_entries<K: Eq + Drop, V: Clone, C: CacheTypes<K, V>>(
    reply: Reply<K, V, C>,
    first: Prepared<K, V, C>,
    second: Prepared<K, V, C>,
) -> Result<(Reply<K, V, C>, Entry<K, V, C>, Entry<K, V, C>), Refused>
    ensures reply { IfOk result (λ done. done.0 ≡ reply) }
    ensures given { IfOk result (λ done. ¬ (WantsMemory done.0)) }
    ensures first { IfOk result (λ done. (done.1.0 ≡ first.step)
        × IsSaidAgain V.is_clone reply first.out done.1.1) }
    ensures second { IfOk result (λ done. (done.2.0 ≡ second.step)
        × IsSaidAgain V.is_clone reply second.out done.2.1) }
    ensures refused { IfErr result (λ cause. (cause ≡ Refused.OutOfMemory) × WantsMemory reply) }
{
    if reply.wants_memory() {
        drop((reply, first, second));
        return Err(Refused::OutOfMemory);
    }
    let first = entry_of(&reply, first);
    let second = entry_of(&reply, second);
    Ok((reply, first, second))
}

// Returns the entry of a reply for one clone of its step.
fn entry_of<K: Eq + Drop, V: Clone, C: CacheTypes<K, V>>(
    reply: &Reply<K, V, C>,
    prepared: Prepared<K, V, C>,
) -> Entry<K, V, C>
    ensures step { result.0 ≡ prepared.step }
    ensures reply { IsSaidAgain V.is_clone reply.now prepared.out result.1 }
{
    let Prepared { step, out } = prepared;
    (step, reply.with_clones(out))
}
