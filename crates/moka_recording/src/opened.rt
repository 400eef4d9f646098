//! A new table for a history.
ghost use Rattle.std.specs.Prelude.{◌≡◌, [], IfOk, IfErr};

use crate::law::{History, Token};
use moka_policy::policy::Refused;
use std::alloc::Global;
use std::marker::Model;

/// A new table for the history of a recorded cache. Contracts see its name and its history.
#[derive(Drop)]
pub struct Opened<S: Drop, R: Drop, B> {
    pub(crate) table: History<S, R, B>,
    pub(crate) token: Token<S, R, B>,
}

impl<S: Drop, R: Drop, B> Model for Opened<S, R, B> {
    ghost use Rattle.std.specs.Prelude.{◌≡◌, [], None};
    ghost use Rattle.moka_recording.specs.History.{OpenedData, recorder};

    ghost Value = { OpenedData S R };

    ghost view = { λ o. record { table = o.table.shared.table_id; history = o.token.me.0.all } };

    ghost invariant = { λ o. (o.token.table_id ≡ o.table.shared.table_id)
        × (o.token.me ≡ (recorder None [] [] None, []))
        × (o.table.shared.table_id.words ≡ 1) };
}

impl<S: Drop, R: Drop, B> Opened<S, R, B> {
    /// Creates a table with an empty history.
    ///
    /// # Errors
    ///
    /// - `OutOfMemory`: an allocation failed.
    pub fn new(alloc: Global) -> Result<Self, Refused>
        ensures empty { IfOk result (λ opened. opened.history ≡ []) }
        ensures cause { IfErr result (λ cause. cause ≡ Refused.OutOfMemory) }
    {
        let Ok((table, token)) = History::of_words(alloc, &[0], &()) else {
            return Err(Refused::OutOfMemory);
        };
        Ok(Opened { table, token })
    }
}
