//! What the lock of a recorded machine guards.
ghost use Rattle.std.specs.Prelude.{◌≡◌, [], length, IfOk, OnErr};
ghost use Rattle.moka_recording.specs.Receipts.{AddsReceipt};

use crate::law::{Adds, Entry, Hands, History, Token};
use crate::machine::Machine;
use crate::naming::Naming;
use crate::pass::Pass;
use crate::receipt::{Receipt, StoredReceipt};
use std::marker::Model;
use std::mem;
use std::sync::ledger::{Book, Share};

/// A machine with the history of its steps. Contracts see both.
///
/// The machine stands for the history, from what it was built with. The one token that knows the
/// whole history and what was built knows these.
#[derive(Drop)]
pub struct GuardedMachine<M: Machine<S, R>, S: Drop, R: Drop, L: Naming> {
    pub(crate) machine: M,
    pub(crate) entries: Vec<Entry<S, R>>,
    pub(crate) token: Token<S, R, M::Built>,
    pub(crate) book: Book<L>,
    pub(crate) rest: Share<L>,
}

impl<M: Machine<S, R>, S: Drop, R: Drop, L: Naming> Model for GuardedMachine<M, S, R, L> {
    ghost use Rattle.std.specs.Prelude.{◌≡◌, ℕ, List, [], length, Some, None};
    ghost use Rattle.moka_recording.specs.History.{GuardedMachineData, recorder};
    ghost use Rattle.moka_recording.specs.Receipts.{pairs};

    ghost Value = { GuardedMachineData M S R };

    ghost view = { λ d. record { machine = d.machine; history = d.entries.items } };

    ghost invariant = { λ d. ((built : M.Built)
        × M.stands built d.machine (pairs d.entries.items)
        × (d.token.me ≡ (recorder (Some built) d.entries.items [] None, [])))
        × (d.token.table_id ≡ L.table) × (d.book.total ≡ length d.entries.items)
        × (d.rest.parts ≡ 0) × (d.rest.amount ≡ 0) };
}

impl<M: Machine<S, R>, S: Drop, R: Drop, L: Naming> GuardedMachine<M, S, R, L> {
    // Does one step and records it in the history and in the pass.
    //
    // Fails only if an allocation fails. The pass is then unchanged. If the machine never got the step,
    // hands it back, so that the caller drops it without the lock.
    pub(crate) fn add(
        &mut self,
        history: &History<S, R, M::Built>,
        pass: &mut Pass<M, S, R, L>,
        step: S,
    ) -> Result<Receipt<R>, Option<S>>
        requires table { history.now.shared.table_id ≡ L.table }
        requires words { history.now.shared.table_id.words ≡ 1 }
        requires owes { M.owes step }
        ensures place { IfOk result (λ receipt. receipt.place ≡ length self.old.history) }
        ensures receipt { IfOk result
            (AddsReceipt M.one_step M.one_reply step pass.old pass.new) }
        ensures fits { IfOk result (λ receipt. M.fits step receipt.reply) }
        ensures refused { OnErr result (pass.new ≡ pass.old) }
    {
        let Ok(()) = self.entries.reserve(1) else {
            return Err(Some(step));
        };
        let Ok(()) = pass.receipts.reserve(1) else {
            return Err(Some(step));
        };
        let Ok((reply, first, second)) = self.machine.step_recorded(step) else {
            return Err(None);
        };
        let place = self.entries.len() as u64;
        let entry = (pass.number, first.0, first.1);
        let spare = history.shared.split_seat::<Hands>(&mut self.token);
        let theirs = mem::replace(&mut pass.token, spare);
        history.shared.join_seat::<Hands>(&mut self.token, theirs);
        history
            .shared
            .compare_exchange_with::<Adds>(&mut self.token, 0, 0, 0, &entry);
        pass.token = history.shared.split_seat::<Hands>(&mut self.token);
        self.entries.push_reserved(entry);
        pass.receipts.push_reserved(StoredReceipt {
            place,
            step: second.0,
            reply: second.1,
        });
        self.book.add(&mut pass.share, 1);
        Ok(Receipt { place, reply })
    }

    // Returns whether the last step of a pass, if done now, would still be early.
    pub(crate) fn still_waits(&self, pass: &Pass<M, S, R, L>) -> bool {
        match pass.receipts.last() {
            Some(stored) => self.machine.still_waits(&stored.step),
            None => false,
        }
    }
}
