//! A shared cache that keeps the history of its steps.
ghost use Rattle.std.specs.Prelude.{◌≡◌, ℕ, [], length, Some, IfOk, IfErr, OnErr, IsSomeAnd, vec_len, sum_by};
ghost use Rattle.std.specs.Arc.{arc_value};
ghost use Rattle.moka_state.specs.Recorded.{OneStep, OneReply};
ghost use Rattle.moka_state.specs.Step.{StepKeeps};
ghost use Rattle.moka_recording.specs.History.{Each};
ghost use Rattle.moka_recording.specs.Receipts.{AddsReceipt, AreApart, IsCovered, IsWhole, PlacesRise, Stand, fresh_passes, pairs};
ghost use Rattle.moka_recorded.specs.GivesBack.{GivesBack};
ghost use Rattle.moka_recorded.specs.Gets.{Gets, GetsRefused};
ghost use Rattle.moka_recorded.specs.Keeps.{HandsOutKept};
ghost use Rattle.moka_recorded.specs.StepForm.{IsOfForm};

use crate::ask::PassOf;
use crate::built::Built;
use crate::get_with;
use crate::recorded_state::{OverState, RecordedState};
pub use crate::refused::CloseRefused;
use crate::refused::GetWithRefused;
use moka_expiring_rows::expiring_rows::ExpiringRows;
use moka_policy::policy::{CacheTypes, Refused};
use moka_recording::machine::Machine;
use moka_recording::naming::Naming;
use moka_recording::receipt::Receipt;
use moka_recording::recorded::Recorded;
use moka_recording::{opened, pass};
use moka_rows::rows::RowStore;
use moka_state::step::{Reply, Step};
use std::alloc::Global;
use std::hash::Hash;
use std::marker::Model;
use std::sync::ledger::Blank;
use std::sync::{Arc, Wait};

/// A new table for the history of a recorded cache.
pub type Opened<K, V, C> = opened::Opened<
    Step<K, V, C>,
    Reply<K, V, C>,
    Built<
        <C as CacheTypes<K, V>>::Hasher,
        <C as CacheTypes<K, V>>::Weigher,
        <C as CacheTypes<K, V>>::Expiry,
    >,
>;

/// The right of one thread to call a recorded cache, with the receipts of its calls. Contracts see
/// its number, its receipts, and what the history has at their places.
///
/// The cache's name is a type parameter, so that no other cache accepts it.
pub type Pass<K, V, C, L> = pass::Pass<
    RecordedState<K, V, C, ExpiringRows<K, V>>,
    Step<K, V, C>,
    Reply<K, V, C>,
    L,
>;

/// A cache that threads share, each with its pass, and that keeps the history of its steps.
/// Contracts see how many passes it has, and the settings that it was built with.
///
/// Each step is done under one lock. The history has it with the number of its pass and its reply.
/// The caller gets a receipt, which the pass keeps too: the place in the history, and the reply.
/// `close` returns the history, legal under these settings, and the state that stands for it.
///
/// # Waiting
///
/// A call waits for the lock. The lock is held while a step clones values, hashes and compares
/// keys, weighs, asks the expiry and the predicate, and drops what it does not keep. Replaced and
/// removed entries become notices. None of this code may call the cache or wait for a thread that
/// does.
///
/// A `get_with` also waits while another caller has the turn of its key. It waits for ever if that
/// turn is never ended. So a thread that opened a turn by `call` ends it before it asks for the
/// same key, and an initializer does not ask for its own key.
pub type RecordedCache<K, V, C, L, W> = Recording<
    RecordedState<K, V, C, ExpiringRows<K, V>>,
    Step<K, V, C>,
    Reply<K, V, C>,
    L,
    W,
>;

/// A recorded cache, by its machine and the types of its steps and replies. Use it by the name
/// [`RecordedCache`].
#[derive(Drop)]
pub struct Recording<M: Machine<S, R>, S: Drop, R: Drop, L: Naming, W: Drop> {
    shared: Recorded<M, S, R, L, W>,
}

impl<M: Machine<S, R>, S: Drop, R: Drop, L: Naming, W: Drop> Model for Recording<M, S, R, L, W> {
    ghost use Rattle.moka_recording.specs.History.{RecordedData};

    ghost Value = { RecordedData M.Built };

    ghost view = { λ cache. cache.shared };
}

/// A history: each step with the number of its pass, and its reply.
pub type Entries<S, R> = Vec<(u64, S, R)>;

impl<M: OverState<S, R>, S: Drop, R: Drop, L: Naming, W: Drop> Recording<M, S, R, L, W> {
    /// Creates a recorded cache over a newly built owned cache, with `count` passes numbered from
    /// 0: one for each part of the ledger. It keeps the settings of the owned cache.
    ///
    /// The table is the one that `L` names. Write the caller as a function over any `L`, and call
    /// it with `Brand`. The proof says which table and which ledger it names.
    ///
    /// # Errors
    ///
    /// - `OutOfMemory`: an allocation failed.
    pub fn new(
        alloc: Global,
        state: M::State,
        opened: opened::Opened<S, R, M::Built>,
        blank: Blank,
        count: u64,
        waits: W,
    ) -> Result<(Self, Vec<pass::Pass<M, S, R, L>>), Refused>
        requires built { M.is_built state }
        requires table { opened.table ≡ L.table }
        requires empty { opened.history ≡ [] }
        requires name { blank.name ≡ L.name }
        requires parts { (blank.parts ≡ L.parts) × (count ≡ L.parts) }
        ensures count { IfOk result (λ made. made.0.count ≡ count) }
        ensures built { IfOk result (λ made. made.0.built ≡ Some (M.settings state)) }
        ensures passes { IfOk result (λ made. made.1.items ≡ fresh_passes count) }
        ensures cause { IfErr result (λ cause. cause ≡ Refused.OutOfMemory) }
    {
        let machine = M::over(state);
        let (shared, passes) = Recorded::new(alloc, machine, opened, blank, count, waits)?;
        Ok((Recording { shared }, passes))
    }

    /// Creates a recorded cache as [`new`](Self::new) does, and puts its passes into `passes`, in
    /// place of those that are there.
    ///
    /// For a program under proof. Of a function that has a recorded cache of a ready-made type and
    /// its passes in one value, the borrow checker gives no proof.
    ///
    /// # Errors
    ///
    /// - `OutOfMemory`: an allocation failed. `passes` is unchanged.
    pub fn new_into(
        alloc: Global,
        state: M::State,
        opened: opened::Opened<S, R, M::Built>,
        blank: Blank,
        count: u64,
        waits: W,
        passes: &mut Vec<pass::Pass<M, S, R, L>>,
    ) -> Result<Self, Refused>
        requires built { M.is_built state }
        requires table { opened.table ≡ L.table }
        requires empty { opened.history ≡ [] }
        requires name { blank.name ≡ L.name }
        requires parts { (blank.parts ≡ L.parts) × (count ≡ L.parts) }
        ensures count { IfOk result (λ cache. cache.count ≡ count) }
        ensures built { IfOk result (λ cache. cache.built ≡ Some (M.settings state)) }
        ensures passes { IfOk result (λ _. passes.new.items ≡ fresh_passes count) }
        ensures refused { OnErr result (passes.new ≡ passes.old) }
        ensures cause { IfErr result (λ cause. cause ≡ Refused.OutOfMemory) }
    {
        let (cache, made) = Self::new(alloc, state, opened, blank, count, waits)?;
        *passes = made;
        Ok(cache)
    }

    /// Returns the history and the owned cache, given all passes of this cache. Does not wait.
    ///
    /// The history is the record of a legal run under the settings that this cache was built with,
    /// and the returned state stands for it. It has as many entries as the passes have receipts.
    /// Each receipt is at its place, with the number of its pass. No two receipts have the same
    /// place, and each place is that of a receipt.
    ///
    /// # Errors
    ///
    /// - `PassesMissing`: these are not all of its passes. Hands back the cache and the passes.
    ///
    /// # Complexity
    ///
    /// Linear in the number of passes if they are in the order of their numbers, otherwise
    /// quadratic. Also drops all receipts.
    pub fn close(
        self,
        passes: Vec<pass::Pass<M, S, R, L>>,
    ) -> Result<(Entries<S, R>, M::State), CloseRefused<M, S, R, L, W>>
        ensures legal { IfOk result (λ closed. IsSomeAnd self.built (λ built.
            M.is_record built closed.1 (pairs closed.0.items))) }
        ensures count { IfOk result (λ closed.
            vec_len closed.0 ≡ sum_by (λ pass. length pass.receipts) passes.items) }
        ensures stand { IfOk result (λ closed.
            Each (Stand M.one_step M.one_reply closed.0.items) passes.items) }
        ensures rise { IfOk result (λ _. Each (λ pass. PlacesRise pass.receipts) passes.items) }
        ensures apart { IfOk result (λ _. AreApart passes.items) }
        ensures covered { IfOk result (λ closed. IsCovered closed.0.items passes.items) }
        ensures whole { IfOk result (λ _. IsWhole self.count passes.items) }
        ensures missing { IfErr result (λ refused.
            (refused ≡ CloseRefused.PassesMissing self passes)
            × ¬ (IsWhole self.count passes.items)) }
    {
        let Recording { shared } = self;
        match shared.close(passes) {
            Ok((entries, machine)) => Ok((entries, machine.into_state())),
            Err((shared, passes)) => {
                Err(CloseRefused::PassesMissing(Recording { shared }, passes))
            }
        }
    }
}

impl<
    K: Hash + Drop,
    V: Clone,
    C: CacheTypes<K, V>,
    R: RowStore<K, V>,
    L: Naming,
    W: Wait + Drop,
> Recording<RecordedState<K, V, C, R>, Step<K, V, C>, Reply<K, V, C>, L, W> {
    /// Makes one step, appends it to the history, and adds its receipt to the pass: the step, its
    /// reply, and its place in the history. That place is behind those of all earlier receipts of
    /// the pass.
    ///
    /// A step that fails otherwise than with `OutOfMemory` is in the history with its error, and
    /// has changed nothing. An accepted `Finish` or `Abandon` wakes the callers that wait in
    /// `get_with` for its turn.
    ///
    /// # Errors
    ///
    /// - `OutOfMemory`: an allocation failed. The pass has no new receipt, and the step is in no
    ///   history.
    pub fn call(
        &self,
        pass: &mut PassOf<K, V, C, R, L>,
        step: Step<K, V, C>,
    ) -> Result<Receipt<Reply<K, V, C>>, Refused>
        requires { StepKeeps C.keeps C.Predicate.tests C.test step }
        ensures receipt { IfOk result
            (AddsReceipt (OneStep V.is_clone) (OneReply V.is_clone) step pass.old pass.new) }
        ensures form { IfOk result (λ receipt. IsOfForm step receipt.reply) }
        ensures kept { IfOk result (λ receipt. HandsOutKept C.keeps C.test step receipt.reply) }
        ensures back { IfOk result (λ receipt. GivesBack V.is_clone step receipt.reply) }
        ensures refused { OnErr result (pass.new ≡ pass.old) }
        ensures cause { IfErr result (λ cause. cause ≡ Refused.OutOfMemory) }
    {
        self.shared.call(pass, step)
    }

    /// Returns a clone of the live value for `key` at the moment `now`, in nanoseconds, or computes
    /// and inserts it with `init`. Waits while another caller computes it.
    ///
    /// If the turn that it waits for is abandoned, it begins again, at most 199 times. `init` runs
    /// at most once, without the lock.
    ///
    /// Each of its steps leaves a receipt in the pass, which shows where the value came from. A
    /// wait adds a begin and two collects: one before it, one after it.
    ///
    /// # Errors
    ///
    /// If the call still has a turn or a ticket, `held` is the step that abandons or leaves it:
    /// pass that to `call`.
    ///
    /// - `OutOfMemory`: an allocation failed.
    /// - `NumbersUsedUp`: no sequence number is left, or the tickets of the turn cannot be counted
    ///   any further.
    /// - `UnknownTurn`: another caller ended its turn by name. Nothing is held.
    /// - `UnknownTicket`: another caller spent its ticket by name. Nothing is held.
    /// - `WaitsAbandoned`: it began 200 times, and each turn that it waited for was abandoned.
    ///   Nothing is held.
    pub fn get_with<F: FnOnce() -> V + Drop>(
        &self,
        pass: &mut PassOf<K, V, C, R, L>,
        key: Arc<K>,
        init: F,
        now: u64,
    ) -> Result<V, GetWithRefused<K, V, C>>
        requires asks { F.IsAlwaysCallable init }
        requires keeps { (v : V) → F.post init v → C.keeps (arc_value key) v }
        ensures done { IfOk result (λ v. Gets V.is_clone C.keeps (arc_value key) now
            (F.post init) pass.old v pass.new) }
        ensures kept { IfOk result (C.keeps (arc_value key)) }
        ensures refused { IfErr result (λ refused. GetsRefused V.is_clone C.keeps (arc_value key)
            now (F.post init) pass.old refused pass.new) }
    {
        get_with::get_with(&self.shared, pass, key, init, now)
    }
}
