//! A machine under a lock, with the history of its steps.
ghost use Rattle.std.specs.Prelude.{◌≡◌, ◌+◌, [], length, true, Some, None, IfOk, IfErr, OnErr, IsSomeAnd, vec_len, sum_by, IsTrue};
ghost use Rattle.moka_recording.specs.History.{Each, recorder, claimer};
ghost use Rattle.moka_recording.specs.Receipts.{pairs, Stand, AddsReceipt, fresh_passes, IsWhole, HasNumber, AreInOrder, PlacesRise, AreApart, IsCovered};
ghost use mathlib.Core.Logic.{◌↔◌};

use crate::guarded_machine::GuardedMachine;
use crate::law::{Announcement, Announces, Compares, Entry, Hands, History, Token};
use crate::machine::Machine;
use crate::naming::Naming;
use crate::opened::Opened;
use crate::pass::Pass;
use crate::receipt::Receipt;
use crate::witness::Witness;
use moka_policy::policy::Refused;
use std::alloc::Global;
use std::marker::{Brand, Model};
use std::sync::ledger::{Blank, Share};
use std::sync::{Condvar, Mutex, MutexGuard, Wait};

/// A machine that threads share, with the history of its steps. Contracts see how many passes it
/// has, and what the machine was built with.
#[derive(Drop)]
pub struct Recorded<M: Machine<S, R>, S: Drop, R: Drop, L: Naming, W: Drop> {
    history: History<S, R, M::Built>,
    guarded: Mutex<GuardedMachine<M, S, R, L>>,
    moved: Condvar,
    count: u64,
    waits: W,
    witness: Witness<S, R, M::Built>,
}

impl<M: Machine<S, R>, S: Drop, R: Drop, L: Naming, W: Drop> Model for Recorded<M, S, R, L, W> {
    ghost use Rattle.std.specs.Prelude.{◌≡◌, ℕ, [], IsSome};
    ghost use Rattle.moka_recording.specs.History.{RecordedData};

    ghost Value = { RecordedData M.Built };

    ghost view = { λ c. record { count = c.count; built = c.witness.token.me.0.heard } };

    ghost invariant = { λ c. (c.history.shared.table_id ≡ L.table)
        × (c.history.shared.table_id.words ≡ 1) × (c.count ≡ L.parts)
        × (c.witness.token.table_id ≡ L.table) × (c.witness.token.me.1 ≡ [])
        × IsSome c.witness.token.me.0.heard };
}

/// What `close` returns: the history and the machine, or the recorded machine and its passes back.
pub type Closed<M, S, R, L, W> = Result<
    (Vec<Entry<S, R>>, M),
    (Recorded<M, S, R, L, W>, Vec<Pass<M, S, R, L>>),
>;

// Creates the passes of a new machine, numbered from 0.
fn create_passes<M: Machine<S, R>, S: Drop, R: Drop, L: Naming>(
    alloc: Global,
    history: &History<S, R, M::Built>,
    token: &mut Token<S, R, M::Built>,
    all: &mut Share<L>,
    count: u64,
) -> Result<Vec<Pass<M, S, R, L>>, Refused>
    requires table { history.now.shared.table_id ≡ L.table }
    requires words { history.now.shared.table_id.words ≡ 1 }
    requires token { (token.old.table_id ≡ L.table)
        × (token.old.me ≡ (recorder None [] [] None, [])) }
    requires share { (all.old.parts ≡ count) × (all.old.amount ≡ 0) }
    ensures passes { IfOk result (λ passes. passes.items ≡ fresh_passes count) }
    ensures token { IfOk result (λ _. (token.new.table_id ≡ L.table)
        × (token.new.me ≡ (recorder None [] [] None, []))) }
    ensures share { IfOk result (λ _. (all.new.parts ≡ 0) × (all.new.amount ≡ 0)) }
    ensures cause { IfErr result (λ cause. cause ≡ Refused.OutOfMemory) }
{
    let mut passes = Vec::new(alloc);
    for number in 0..count {
        let share = all.split_off(1, 0);
        let theirs = history.shared.split_seat::<Hands>(token);
        let Ok(()) = passes.push(Pass::with_number(alloc, number, theirs, share)) else {
            return Err(Refused::OutOfMemory);
        };
    }
    Ok(passes)
}

// Announces what the machine was built with. Returns a token that claims it.
fn announce<M: Machine<S, R>, S: Drop, R: Drop, Z: Announcement<M::Built>>(
    history: &History<S, R, M::Built>,
    token: &mut Token<S, R, M::Built>,
    machine: &M,
) -> Token<S, R, M::Built>
    requires table { token.old.table_id ≡ history.now.shared.table_id }
    requires words { history.now.shared.table_id.words ≡ 1 }
    requires token { token.old.me ≡ (recorder None [] [] None, []) }
    requires built { Z.built ≡ Some (M.built_with machine.now) }
    ensures token { (token.new.table_id ≡ token.old.table_id)
        × (token.new.me ≡ (recorder (Some (M.built_with machine.now)) [] [] None, [])) }
    ensures witness { (result.table_id ≡ token.old.table_id)
        × (result.me ≡ (claimer [] (Some (M.built_with machine.now)), [])) }
{
    let _ = machine;
    history.shared.load::<Announces<Z>>(token, 0);
    history.shared.split_seat::<Hands>(token)
}

// Takes a pass back. Its receipts are then proved to agree with the history.
fn take_back<M: Machine<S, R>, S: Drop, R: Drop, L: Naming>(
    history: &History<S, R, M::Built>,
    token: &mut Token<S, R, M::Built>,
    rest: &mut Share<L>,
    entries: &Vec<Entry<S, R>>,
    pass: Pass<M, S, R, L>,
)
    requires table { history.now.shared.table_id ≡ L.table }
    requires words { history.now.shared.table_id.words ≡ 1 }
    requires token { (token.old.table_id ≡ L.table)
        × (token.old.me.0.is_recorder ≡ true)
        × (token.old.me.0.all ≡ entries.now.items) }
    ensures token { (token.new.table_id ≡ L.table)
        × (token.new.me.0.is_recorder ≡ true)
        × (token.new.me.0.all ≡ entries.now.items) }
    ensures parts { rest.new.parts ≡ rest.old.parts + 1 }
    ensures amount { rest.new.amount ≡ rest.old.amount + length pass.receipts }
    ensures stand { Stand M.one_step M.one_reply entries.now.items pass }
    ensures rise { PlacesRise pass.receipts }
{
    let Pass {
        number: _,
        receipts: _,
        token: theirs,
        share,
        machine: _,
    } = pass;
    history.shared.join_seat::<Hands>(token, theirs);
    history.shared.load::<Compares>(token, 0);
    rest.merge(share);
}

// Takes all passes back. Their receipts are then proved to agree with the history.
fn take_all_back<M: Machine<S, R>, S: Drop, R: Drop, L: Naming>(
    history: &History<S, R, M::Built>,
    token: &mut Token<S, R, M::Built>,
    rest: &mut Share<L>,
    entries: &Vec<Entry<S, R>>,
    passes: Vec<Pass<M, S, R, L>>,
)
    requires table { history.now.shared.table_id ≡ L.table }
    requires words { history.now.shared.table_id.words ≡ 1 }
    requires token { (token.old.table_id ≡ L.table)
        × (token.old.me.0.is_recorder ≡ true)
        × (token.old.me.0.all ≡ entries.now.items) }
    requires rest { (rest.old.parts ≡ 0) × (rest.old.amount ≡ 0) }
    ensures parts { rest.new.parts ≡ length passes.items }
    ensures amount { rest.new.amount ≡ sum_by (λ pass. length pass.receipts) passes.items }
    ensures stand { Each (Stand M.one_step M.one_reply entries.now.items) passes.items }
    ensures rise { Each (λ pass. PlacesRise pass.receipts) passes.items }
{
    for pass in passes {
        take_back(history, token, rest, entries, pass);
    }
}

// Returns whether these are all passes, each once. Takes no memory, so that a refused `close` can
// hand them back as they were.
fn are_all_passes<M: Machine<S, R>, S: Drop, R: Drop, L: Naming>(
    passes: &[Pass<M, S, R, L>],
    count: u64,
) -> bool
    ensures { IsTrue result ↔ IsWhole count passes.now }
{
    if passes.len() as u64 != count {
        return false;
    }
    if are_in_order(passes) {
        return true;
    }
    for number in 0..count {
        if !has_number(passes, number) {
            return false;
        }
    }
    true
}

// Returns whether the number of each pass is its index.
fn are_in_order<M: Machine<S, R>, S: Drop, R: Drop, L: Naming>(passes: &[Pass<M, S, R, L>]) -> bool
    ensures { IsTrue result ↔ AreInOrder passes.now }
{
    for index in 0..passes.len() {
        if passes[index].number() != index as u64 {
            return false;
        }
    }
    true
}

// Returns whether one of the passes has this number.
fn has_number<M: Machine<S, R>, S: Drop, R: Drop, L: Naming>(
    passes: &[Pass<M, S, R, L>],
    number: u64,
) -> bool
    ensures { IsTrue result ↔ HasNumber passes.now number }
{
    for pass in passes {
        if pass.number() == number {
            return true;
        }
    }
    false
}

impl<M: Machine<S, R>, S: Drop, R: Drop, L: Naming, W: Drop> Recorded<M, S, R, L, W> {
    /// Creates a recorded machine with an empty history, and its passes: one for each part of the
    /// ledger. It keeps what the machine was built with.
    ///
    /// # Errors
    ///
    /// - `OutOfMemory`: an allocation failed.
    pub fn new(
        alloc: Global,
        machine: M,
        opened: Opened<S, R, M::Built>,
        blank: Blank,
        count: u64,
        waits: W,
    ) -> Result<(Self, Vec<Pass<M, S, R, L>>), Refused>
        requires built { M.stands (M.built_with machine) machine [] }
        requires table { opened.table ≡ L.table }
        requires empty { opened.history ≡ [] }
        requires name { blank.name ≡ L.name }
        requires parts { (blank.parts ≡ L.parts) × (count ≡ L.parts) }
        ensures count { IfOk result (λ made. made.0.count ≡ count) }
        ensures built { IfOk result (λ made. made.0.built ≡ Some (M.built_with machine)) }
        ensures passes { IfOk result (λ made. made.1.items ≡ fresh_passes count) }
        ensures cause { IfErr result (λ cause. cause ≡ Refused.OutOfMemory) }
    {
        let Opened { table, mut token } = opened;
        let (book, mut rest) = blank.open::<L>();
        let passes = create_passes(alloc, &table, &mut token, &mut rest, count)?;
        let witness = announce::<M, S, R, Brand>(&table, &mut token, &machine);
        let guarded = GuardedMachine {
            machine,
            entries: Vec::new(alloc),
            token,
            book,
            rest,
        };
        let recorded = Recorded {
            history: table,
            guarded: Mutex::new(guarded),
            moved: Condvar::new(),
            count,
            waits,
            witness: Witness::new(witness),
        };
        Ok((recorded, passes))
    }

    /// Returns the history and the machine, given all of its passes. Does not wait.
    ///
    /// The history is legal from what the machine was built with. It has as many entries as the
    /// passes have receipts, and each receipt is at its place. The places of one pass rise. No two
    /// receipts have the same place, so each place is that of one receipt.
    ///
    /// # Errors
    ///
    /// - If these are not all of its passes, hands back the recorded machine and the passes.
    ///
    /// # Complexity
    ///
    /// Linear in the number of passes if they are in the order of their numbers, else quadratic.
    /// Also drops all receipts.
    pub fn close(self, passes: Vec<Pass<M, S, R, L>>) -> Closed<M, S, R, L, W>
        ensures legal { IfOk result (λ closed. IsSomeAnd self.built (λ built.
            M.stands built closed.1 (pairs closed.0.items))) }
        ensures count { IfOk result (λ closed.
            vec_len closed.0 ≡ sum_by (λ pass. length pass.receipts) passes.items) }
        ensures stand { IfOk result (λ closed.
            Each (Stand M.one_step M.one_reply closed.0.items) passes.items) }
        ensures whole { IfOk result (λ _. IsWhole self.count passes.items) }
        ensures rise { IfOk result (λ _.
            Each (λ pass. PlacesRise pass.receipts) passes.items) }
        ensures apart { IfOk result (λ _. AreApart passes.items) }
        ensures covered { IfOk result (λ closed. IsCovered closed.0.items passes.items) }
        ensures missing { IfErr result (λ back.
            (back.0 ≡ self) × (back.1 ≡ passes)
            × ¬ (IsWhole self.count passes.items)) }
    {
        if !are_all_passes(passes.as_slice(), self.count) {
            return Err((self, passes));
        }
        let Recorded {
            history,
            guarded,
            moved: _,
            count: _,
            waits: _,
            witness,
        } = self;
        let GuardedMachine {
            machine,
            entries,
            mut token,
            mut book,
            mut rest,
        } = guarded.into_inner();
        let witness = witness.into_token();
        history.shared.join_seat::<Hands>(&mut token, witness);
        history.shared.load::<Compares>(&mut token, 0);
        take_all_back(&history, &mut token, &mut rest, &entries, passes);
        book.audit(&mut rest);
        Ok((entries, machine))
    }
}

impl<M: Machine<S, R>, S: Drop, R: Drop, L: Naming, W: Wait + Drop> Recorded<M, S, R, L, W> {
    /// Returns the handle with which its locks wait.
    pub fn waits(&self) -> &W {
        &self.waits
    }

    /// Does one step. If it ends what other callers wait for, wakes them.
    ///
    /// A step that failed wakes nobody.
    ///
    /// # Errors
    ///
    /// - `OutOfMemory`: an allocation failed. The pass is unchanged.
    pub fn call(&self, pass: &mut Pass<M, S, R, L>, step: S) -> Result<Receipt<R>, Refused>
        requires owes { M.owes step }
        ensures receipt { IfOk result
            (AddsReceipt M.one_step M.one_reply step pass.old pass.new) }
        ensures fits { IfOk result (λ receipt. M.fits step receipt.reply) }
        ensures refused { OnErr result (pass.new ≡ pass.old) }
        ensures cause { IfErr result (λ cause. cause ≡ Refused.OutOfMemory) }
    {
        let is_end = M::is_end(&step);
        let mut guarded = self.guarded.lock(&self.waits);
        let done = guarded.add(&self.history, pass, step);
        // What is left of the step is dropped without the lock.
        drop(guarded);
        let Ok(receipt) = done else {
            return Err(Refused::OutOfMemory);
        };
        if is_end && !M::is_failure(&receipt.reply) {
            self.moved.notify_all();
        }
        Ok(receipt)
    }

    /// Does one step. If the machine calls the reply early, sleeps until the step would not be early
    /// any more.
    ///
    /// No wake-up is lost in between, since it goes to sleep under the lock of its own step. It
    /// wakes no other caller, whatever the step.
    ///
    /// # Errors
    ///
    /// - `OutOfMemory`: an allocation failed. The pass is unchanged.
    pub fn call_and_wait(&self, pass: &mut Pass<M, S, R, L>, step: S) -> Result<Receipt<R>, Refused>
        requires owes { M.owes step }
        ensures receipt { IfOk result
            (AddsReceipt M.one_step M.one_reply step pass.old pass.new) }
        ensures fits { IfOk result (λ receipt. M.fits step receipt.reply) }
        ensures refused { OnErr result (pass.new ≡ pass.old) }
        ensures cause { IfErr result (λ cause. cause ≡ Refused.OutOfMemory) }
    {
        let mut guarded = self.guarded.lock(&self.waits);
        match guarded.add(&self.history, pass, step) {
            Ok(receipt) => {
                if M::is_early(&receipt.reply) {
                    self.sleep(guarded, pass);
                }
                Ok(receipt)
            }
            Err(unused) => {
                // What is left of the step is dropped without the lock.
                drop(guarded);
                drop(unused);
                Err(Refused::OutOfMemory)
            }
        }
    }

    // Sleeps until the last step of the pass would not be early any more. The end of a step that
    // this caller does not wait for sends it back to sleep.
    fn sleep(&self, guarded: MutexGuard<'_, GuardedMachine<M, S, R, L>>, pass: &Pass<M, S, R, L>) {
        let mut guarded = guarded;
        for _ in self.waits.forever() {
            guarded = self.moved.wait(&self.waits, guarded);
            if !guarded.still_waits(pass) {
                return;
            }
        }
    }
}
