//! What failed calls of a recorded cache hand back.
use crate::recorded_cache::Recording;
use moka_policy::policy::{CacheTypes, Refused};
use moka_recording::machine::Machine;
use moka_recording::naming::Naming;
use moka_recording::pass::Pass;
use moka_state::step::Step;
use std::error::Error;
use std::fmt;
use std::fmt::{Debug, Display, Formatter};

/// The error of `get_with` of a recorded cache.
///
/// If the call still has a turn or a ticket, `held` is the step that spends it: pass that to
/// `call`. If it is dropped instead, the turn stays open, and every later `get_with` of its key
/// waits for ever. So do not write `let Ok(value) = cache.get_with(..) else { .. }`.
#[derive(Drop)]
pub struct GetWithRefused<K: Eq, V: Clone, C: CacheTypes<K, V>> {
    /// Why the call failed.
    pub cause: Refused,
    /// The `Abandon` of its turn or the `Leave` of its ticket; `None` if it has neither.
    pub held: Option<Step<K, V, C>>,
}

impl<K: Eq + Debug, V: Clone + Debug, C: CacheTypes<K, V>> Debug for GetWithRefused<K, V, C> {
    fn fmt<O: fmt::Write>(&self, f: &mut Formatter<O>) -> fmt::Result {
        f.debug_struct("GetWithRefused")
            .field("cause", &self.cause)
            .field("held", &self.held)
            .finish()
    }
}

impl<K: Eq, V: Clone, C: CacheTypes<K, V>> Display for GetWithRefused<K, V, C> {
    fn fmt<O: fmt::Write>(&self, f: &mut Formatter<O>) -> fmt::Result {
        let cause = self.cause;
        match self.held {
            Some(_) => write!(
                f,
                "get_with failed ({cause}): make the step in `held`, which ends its turn or ticket"
            ),
            None => write!(f, "get_with failed ({cause}), and holds no turn or ticket"),
        }
    }
}

impl<K: Eq + Debug + Drop, V: Clone + Debug, C: CacheTypes<K, V>> Error
    for GetWithRefused<K, V, C> {}

/// Why a recorded cache could not be closed, with all that was passed in.
#[derive(Drop)]
pub enum CloseRefused<M: Machine<S, R>, S: Drop, R: Drop, L: Naming, W: Drop> {
    /// The passes are not exactly those that were created with the cache.
    PassesMissing(Recording<M, S, R, L, W>, Vec<Pass<M, S, R, L>>),
}

impl<M: Machine<S, R>, S: Drop, R: Drop, L: Naming, W: Drop> Debug for CloseRefused<M, S, R, L, W> {
    /// Writes how many passes were given. Shows neither the cache nor the receipts.
    fn fmt<O: fmt::Write>(&self, f: &mut Formatter<O>) -> fmt::Result {
        let CloseRefused::PassesMissing(_, passes) = self;
        let count = passes.len();
        write!(f, "PassesMissing({count} passes)")
    }
}

impl<M: Machine<S, R>, S: Drop, R: Drop, L: Naming, W: Drop> Display
    for CloseRefused<M, S, R, L, W> {
    fn fmt<O: fmt::Write>(&self, f: &mut Formatter<O>) -> fmt::Result {
        f.write_str(
            "the passes are not all passes of the recorded cache: cache and passes are handed back",
        )
    }
}

impl<M: Machine<S, R>, S: Drop, R: Drop, L: Naming, W: Drop> Error
    for CloseRefused<M, S, R, L, W> {}
