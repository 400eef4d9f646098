//! Computes with a closure, which runs with no lock held.
ghost use Rattle.std.specs.Prelude.{◌≡◌, Option, Result, IfOk, IfSome};
ghost use Rattle.std.specs.Arc.{arc_value};
ghost use Rattle.moka_state.specs.Begin.{EntryKeeps};
ghost use Rattle.moka_state.specs.Finish.{IsComputed, OutcomeKeeps};
ghost use Rattle.moka_guarded.specs.Kept.{ResultKeeps};

use crate::cache::Cache;
use moka_model::comp_result::CompResult;
use moka_model::entry::Entry;
use moka_model::turns::{Kind, Op, Outcome};
use moka_policy::policy::{CacheTypes, Refused};
use moka_state::answers::{FinishRefused, Finished, ShownTurn};
use moka_state::handles::Turn;
use std::hash::Hash;
use std::sync::{Arc, Wait};

impl<K: Hash + Drop, V: Clone, C: CacheTypes<K, V>, W: Wait> Cache<K, V, C, W> {
    // Asks the closure what to do with the value of a key, and does it, in one turn of a compute.
    pub(crate) fn compute_with<F: FnOnce(Option<Entry<K, V>>) -> Op<V> + Drop>(
        &self,
        key: Arc<K>,
        f: F,
    ) -> Result<CompResult<K, V>, Refused>
        requires asks { (shown : Option (Entry K V))
            → IfSome shown (EntryKeeps C.keeps (arc_value key)) → F.pre f shown }
        requires keeps { (shown : Option (Entry K V)) (op : Op V)
            → IfSome shown (EntryKeeps C.keeps (arc_value key)) → F.post f shown op
            → OutcomeKeeps {E = C.Error} (C.keeps (arc_value key)) (Outcome.Op op) }
        ensures { IfOk result (ResultKeeps C.keeps (arc_value key)) }
    {
        let ShownTurn { turn, shown } = self.ask_to_compute(key, true)?;
        self.end_compute(turn, f(shown))
    }

    // Does what `compute_with` does, for a closure that may fail. Then the turn is abandoned.
    pub(crate) fn try_compute_with<
        F: FnOnce(Option<Entry<K, V>>) -> Result<Op<V>, C::Error> + Drop,
    >(&self, key: Arc<K>, f: F) -> Result<Result<CompResult<K, V>, C::Error>, Refused>
        requires asks { (shown : Option (Entry K V))
            → IfSome shown (EntryKeeps C.keeps (arc_value key)) → F.pre f shown }
        requires keeps { (shown : Option (Entry K V)) (said : Result (Op V) C.Error)
            → IfSome shown (EntryKeeps C.keeps (arc_value key)) → F.post f shown said
            → IfOk said (λ op. OutcomeKeeps {E = C.Error} (C.keeps (arc_value key))
            (Outcome.Op op)) }
        ensures { IfOk result (λ tried. IfOk tried (ResultKeeps C.keeps (arc_value key))) }
    {
        let ShownTurn { turn, shown } = self.ask_to_compute(key, true)?;
        match f(shown) {
            Ok(op) => Ok(Ok(self.end_compute(turn, op)?)),
            Err(error) => {
                let _ = self.abandon(turn);
                Ok(Err(error))
            }
        }
    }

    // Does what `compute_with` does, for a closure that always puts a value. Returns the entry that
    // was put.
    pub(crate) fn upsert_with<F: FnOnce(Option<Entry<K, V>>) -> V + Drop>(
        &self,
        key: Arc<K>,
        f: F,
    ) -> Result<Entry<K, V>, Refused>
        requires asks { (shown : Option (Entry K V))
            → IfSome shown (EntryKeeps C.keeps (arc_value key)) → F.pre f shown }
        requires keeps { (shown : Option (Entry K V)) (v : V)
            → IfSome shown (EntryKeeps C.keeps (arc_value key)) → F.post f shown v
            → C.keeps (arc_value key) v }
        ensures { IfOk result (EntryKeeps C.keeps (arc_value key)) }
    {
        let ShownTurn { turn, shown } = self.ask_to_compute(key, false)?;
        self.end_with_put(turn, f(shown))
    }

    // Ends the turn of a compute with an operation. If that fails, abandons the turn.
    fn end_compute(&self, turn: Turn<K>, op: Op<V>) -> Result<CompResult<K, V>, Refused>
        requires kind { turn.key.kind ≡ Kind.Compute }
        requires kept { OutcomeKeeps {E = C.Error} (C.keeps (arc_value turn.key.key))
            (Outcome.Op op) }
        ensures given { IfOk result (IsComputed V.is_clone (arc_value turn.key.key) op) }
        ensures kept { IfOk result (ResultKeeps C.keeps (arc_value turn.key.key)) }
    {
        let refused = match self.finish(turn, Outcome::Op(op)) {
            Ok(Finished::Computed(computed)) => return Ok(computed),
            Ok(Finished::Answer(_)) => unreachable!(),
            Err(refused) => refused,
        };
        let FinishRefused {
            turn,
            outcome: _,
            cause,
        } = refused;
        let _ = self.abandon(turn);
        Err(cause)
    }

    // Ends the turn of a compute with a value that is put, and returns its entry.
    fn end_with_put(&self, turn: Turn<K>, value: V) -> Result<Entry<K, V>, Refused>
        requires kind { turn.key.kind ≡ Kind.Compute }
        requires kept { C.keeps (arc_value turn.key.key) value }
        ensures { IfOk result (EntryKeeps C.keeps (arc_value turn.key.key)) }
    {
        match self.end_compute(turn, Op::Put(value)) {
            Ok(CompResult::Inserted(entry)) => Ok(entry),
            Ok(CompResult::ReplacedWith(entry)) => Ok(entry),
            Ok(_) => unreachable!(),
            Err(cause) => Err(cause),
        }
    }
}
