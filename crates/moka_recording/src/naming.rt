//! The names of recorded caches.
use std::marker::Brand;
use std::sync::ledger::Ledger;

/// Names one recorded cache: the table of its history, and the ledger that counts its receipts.
///
/// A pass of another cache has another type. Callers use [`Brand`], and say in the proof which
/// table and which ledger it names.
pub trait Naming: Ledger {
    ghost use Rattle.atomic_table.specs.Seated.{TableId};

    /// The table of the cache's history.
    ghost table: { TableId };
}

impl Naming for Brand {
    ghost use Rattle.moka_recording.specs.History.{no_table};

    ghost table = { no_table };
}
