//! The right to call a recorded machine.
ghost use Rattle.std.specs.Prelude.{◌≡◌, [], None};
ghost use Rattle.moka_recording.specs.History.{claimer};
ghost use Rattle.moka_recording.specs.Receipts.{PlacesRise};

use crate::law::Token;
use crate::machine::Machine;
use crate::naming::Naming;
use crate::receipt::StoredReceipt;
use std::alloc::Global;
use std::marker::{Model, PhantomData};
use std::sync::ledger::Share;

/// The right of one thread to call a recorded machine, with the receipts of its calls. Contracts
/// see its number, its receipts, and what the history has at their places.
#[derive(Drop)]
pub struct Pass<M: Machine<S, R>, S: Drop, R: Drop, L: Naming> {
    pub(crate) number: u64,
    pub(crate) receipts: Vec<StoredReceipt<S, R>>,
    pub(crate) token: Token<S, R, M::Built>,
    pub(crate) share: Share<L>,
    pub(crate) machine: PhantomData<M>,
}

impl<M: Machine<S, R>, S: Drop, R: Drop, L: Naming> Model for Pass<M, S, R, L> {
    ghost use Rattle.std.specs.Prelude.{◌≡◌, [], length};
    ghost use Rattle.moka_recording.specs.Receipts.{PassData, AreOf, PlacesRise};

    ghost Value = { PassData S R };

    ghost view = { λ p. record {
      number = p.number;
      receipts = p.receipts.items;
      claims = p.token.me.0.claims;
    } };

    ghost invariant = { λ p. (p.token.table_id ≡ L.table) × (p.token.me.1 ≡ [])
        × AreOf M.one_step M.one_reply p.number p.token.me.0.claims p.receipts.items
        × PlacesRise p.receipts.items
        × (p.share.parts ≡ 1)
        × (p.share.amount ≡ length p.receipts.items) };
}

impl<M: Machine<S, R>, S: Drop, R: Drop, L: Naming> Pass<M, S, R, L> {
    // Creates a pass without receipts.
    pub(crate) fn with_number(
        alloc: Global,
        number: u64,
        token: Token<S, R, M::Built>,
        share: Share<L>,
    ) -> Self
        requires token { (token.table_id ≡ L.table) × (token.me ≡ (claimer [] None, [])) }
        requires share { (share.parts ≡ 1) × (share.amount ≡ 0) }
        ensures { result ≡ record { number = number; receipts = []; claims = [] } }
    {
        Pass {
            number,
            receipts: Vec::new(alloc),
            token,
            share,
            machine: PhantomData,
        }
    }

    /// Returns the number of the pass. The passes of a cache are numbered from 0.
    pub fn number(&self) -> u64
        ensures { result ≡ self.now.number }
    {
        self.number
    }

    /// Returns the receipts of the pass's calls, the oldest first. Their places rise.
    pub fn receipts(&self) -> &[StoredReceipt<S, R>]
        ensures receipts { result.now ≡ self.now.receipts }
        ensures rise { PlacesRise self.now.receipts }
    {
        self.receipts.as_slice()
    }
}
