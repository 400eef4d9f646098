//! Computes with a closure: begin, closure and finish at one moment.
ghost use Rattle.std.specs.Prelude.{◌≡◌, Option, Some, Result, false, true, IfOk, IfSome};
ghost use Rattle.std.specs.Arc.{arc_value};
ghost use Rattle.moka_model.specs.Entries.{entry_of};
ghost use Rattle.moka_turns.specs.Handles.{turn_name};
ghost use Rattle.moka_state.specs.Begin.{EntryKeeps};
ghost use Rattle.moka_state.specs.Compute.{IfWaits, IsCompute, ShownKeepsFor, as_begun_compute};
ghost use Rattle.moka_state.specs.ComputeForms.{IsErrorOf, IsUpserted, of_computing, of_trying, unless_failed};
ghost use Rattle.moka_state.specs.Finish.{IsComputed, OutcomeKeeps};
ghost use Rattle.moka_state.specs.Ends.{BeginsComputeAtOnce, Computes, EndsComputeAt, EndsTurnAs, EndsTurnAt, Tries, Upserts};

use crate::answers::{BegunCompute, FinishRefused, Finished, ShownTurn};
use crate::call_view::CallView;
use crate::state::State;
use moka_model::comp_result::CompResult;
use moka_model::entry::Entry;
use moka_model::turns::{Kind, Op, Outcome};
use moka_policy::policy::{CacheTypes, Refused};
use moka_rows::rows::RowStore;
use moka_turns::handles::Turn;
use std::hash::Hash;

// Converts the result of the begin of a compute that may not wait, and so has no ticket.
fn into_shown_turn<K, V>(
    begun: Result<BegunCompute<K, V>, Refused>,
) -> Result<ShownTurn<K, V>, Refused>
    requires { IfOk begun (IfWaits (false ≡ true)) }
    ensures { begun ≡ as_begun_compute result }
{
    match begun {
        Ok(BegunCompute::Run(turn, shown)) => Ok(ShownTurn { turn, shown }),
        Ok(BegunCompute::Wait(_ticket)) => unreachable!(),
        Err(refused) => Err(refused),
    }
}

impl<K: Hash + Drop, V: Clone, C: CacheTypes<K, V>, R: RowStore<K, V>> State<K, V, C, R> {
    /// Runs `f` on the live entry of `key`, and does what it returns, in one turn. The begin saves a
    /// clone of the live value, which an `Op::Nop` returns.
    #[doc(hidden)]
    pub fn compute_with<F: FnOnce(Option<Entry<K, V>>) -> Op<V> + Drop>(
        &mut self,
        key: K,
        f: F,
        now: u64,
    ) -> Result<CompResult<K, V>, Refused>
        requires asks { (shown : Option (Entry K V)) → IfSome shown (EntryKeeps C.keeps key)
            → F.pre f shown }
        requires keeps { (shown : Option (Entry K V)) (op : Op V)
            → IfSome shown (EntryKeeps C.keeps key) → F.post f shown op
            → OutcomeKeeps {E = C.Error} (C.keeps key) (Outcome.Op op) }
        ensures form { Computes ⟦<C as CallView<K, V>>⟧.spec Some (F.post f) key true now self.old
            self.new (of_computing result) }
        ensures settings { self.new.settings ≡ self.old.settings }
    {
        let ShownTurn { turn, shown } = self.begin_compute_now(key, true, now)?;
        self.end_compute(turn, f(shown), now)
    }

    /// Works like `compute_with`, but always puts the value that `f` returns, and returns its entry.
    /// Saves no clone.
    #[doc(hidden)]
    pub fn upsert_with<F: FnOnce(Option<Entry<K, V>>) -> V + Drop>(
        &mut self,
        key: K,
        f: F,
        now: u64,
    ) -> Result<Entry<K, V>, Refused>
        requires asks { (shown : Option (Entry K V)) → IfSome shown (EntryKeeps C.keeps key)
            → F.pre f shown }
        requires keeps { (shown : Option (Entry K V)) (v : V)
            → IfSome shown (EntryKeeps C.keeps key) → F.post f shown v → C.keeps key v }
        ensures form { Upserts ⟦<C as CallView<K, V>>⟧.spec (λ v. Some (Op.Put v)) (F.post f)
            IsUpserted key false now self.old self.new result }
        ensures kept { IfOk result (λ entry. C.keeps key (entry_of entry).value) }
        ensures settings { self.new.settings ≡ self.old.settings }
    {
        let ShownTurn { turn, shown } = self.begin_compute_now(key, false, now)?;
        self.end_with_put(turn, f(shown), now)
    }

    /// Works like `compute_with`, for a closure that may fail: then the turn is abandoned.
    #[doc(hidden)]
    pub fn try_compute_with<F: FnOnce(Option<Entry<K, V>>) -> Result<Op<V>, C::Error> + Drop>(
        &mut self,
        key: K,
        f: F,
        now: u64,
    ) -> Result<Result<CompResult<K, V>, C::Error>, Refused>
        requires asks { (shown : Option (Entry K V)) → IfSome shown (EntryKeeps C.keeps key)
            → F.pre f shown }
        requires keeps { (shown : Option (Entry K V)) (said : Result (Op V) C.Error)
            → IfSome shown (EntryKeeps C.keeps key) → F.post f shown said
            → IfOk said (λ op. OutcomeKeeps {E = C.Error} (C.keeps key) (Outcome.Op op)) }
        ensures form { Tries ⟦<C as CallView<K, V>>⟧.spec unless_failed (F.post f)
            (λ given. IsErrorOf given result) key true now self.old self.new (of_trying result) }
        ensures settings { self.new.settings ≡ self.old.settings }
    {
        let ShownTurn { turn, shown } = self.begin_compute_now(key, true, now)?;
        self.end_tried_compute(turn, f(shown), now)
    }

    // Begins a compute without waiting: fails with `TurnIsOpen` if a compute of the key is open. The
    // key moves into an `Arc` only if none is.
    fn begin_compute_now(
        &mut self,
        key: K,
        keep: bool,
        now: u64,
    ) -> Result<ShownTurn<K, V>, Refused>
        ensures begins { BeginsComputeAtOnce ⟦<C as CallView<K, V>>⟧.spec key keep now false
            self.old self.new (as_begun_compute result) }
        ensures named { IfOk (as_begun_compute result) (IsCompute key) }
        ensures kept { IfOk (as_begun_compute result) (ShownKeepsFor C.keeps key) }
        ensures settings { self.new.settings ≡ self.old.settings }
    {
        let hash = self.hash(&key);
        if self.has_to_refuse(&key, hash, Kind::Compute, false) {
            return Err(Refused::TurnIsOpen);
        }
        match self.share(key) {
            Ok(shared) => into_shown_turn(self.begin_computing(shared, hash, keep, now, false)),
            Err(_) => Err(Refused::OutOfMemory),
        }
    }

    // Finishes a compute with an operation. If that fails, abandons the turn and returns the cause.
    fn end_compute(
        &mut self,
        turn: Turn<K>,
        op: Op<V>,
        now: u64,
    ) -> Result<CompResult<K, V>, Refused>
        requires compute { turn.key.kind ≡ Kind.Compute }
        requires kept { OutcomeKeeps {E = C.Error} (C.keeps (arc_value turn.key.key))
            (Outcome.Op op) }
        ensures ends { EndsTurnAt ⟦<C as CallView<K, V>>⟧.spec (turn_name turn) (Outcome.Op op) now
            (of_computing result) self.old self.new }
        ensures computed { IfOk result (IsComputed V.is_clone (arc_value turn.key.key) op) }
        ensures settings { self.new.settings ≡ self.old.settings }
    {
        let refused = match self.finish(turn, Outcome::Op(op), now) {
            Ok(Finished::Computed(computed)) => return Ok(computed),
            Ok(Finished::Answer(_)) => unreachable!(),
            Err(refused) => refused,
        };
        let FinishRefused {
            turn,
            outcome: _,
            cause,
        } = refused;
        let _ = self.abandon(turn);
        Err(cause)
    }

    // Finishes a compute with a value that is put, and returns the value's entry.
    fn end_with_put(&mut self, turn: Turn<K>, value: V, now: u64) -> Result<Entry<K, V>, Refused>
        requires compute { turn.key.kind ≡ Kind.Compute }
        requires kept { C.keeps (arc_value turn.key.key) value }
        ensures ends { EndsTurnAs ⟦<C as CallView<K, V>>⟧.spec (turn_name turn)
            (Outcome.Op (Op.Put value)) now IsUpserted self.old self.new result }
        ensures kept { IfOk result
            (λ entry. C.keeps (arc_value turn.key.key) (entry_of entry).value) }
        ensures settings { self.new.settings ≡ self.old.settings }
    {
        match self.end_compute(turn, Op::Put(value), now) {
            Ok(CompResult::Inserted(entry)) => Ok(entry),
            Ok(CompResult::ReplacedWith(entry)) => Ok(entry),
            Ok(_) => unreachable!(),
            Err(cause) => Err(cause),
        }
    }

    // Finishes a compute with an operation, or abandons it and returns the error of its closure.
    fn end_tried_compute(
        &mut self,
        turn: Turn<K>,
        given: Result<Op<V>, C::Error>,
        now: u64,
    ) -> Result<Result<CompResult<K, V>, C::Error>, Refused>
        requires compute { turn.key.kind ≡ Kind.Compute }
        requires kept { IfOk given
            (λ op. OutcomeKeeps {E = C.Error} (C.keeps (arc_value turn.key.key)) (Outcome.Op op)) }
        ensures ends { EndsComputeAt ⟦<C as CallView<K, V>>⟧.spec (turn_name turn)
            (unless_failed given) now (of_trying result) self.old self.new }
        ensures error { IsErrorOf (Some given) result }
        ensures settings { self.new.settings ≡ self.old.settings }
    {
        match given {
            Ok(op) => match self.end_compute(turn, op, now) {
                Ok(computed) => Ok(Ok(computed)),
                Err(cause) => Err(cause),
            },
            Err(error) => {
                let _ = self.abandon(turn);
                Ok(Err(error))
            }
        }
    }
}
