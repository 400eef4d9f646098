//! Replies a second time, with clones in place of what they hand out.
ghost use Rattle.std.specs.Prelude.{◌≡◌, ◌↔◌, IsSomeAnd, IsTrue};
ghost use Rattle.std.specs.Arc.{arc_value};
ghost use Rattle.moka_model.specs.Entries.{entry_of};
ghost use Rattle.moka_model.specs.CompResults.{of_computed};
ghost use Rattle.moka_model.specs.Calls as calls;
ghost use Rattle.moka_model.specs.Calls.{IsCopiedReply, IsCopiedEntry};
ghost use Rattle.moka_turns.specs.Handles.{name_by};
ghost use Rattle.moka_state.specs.HandedOut.{HandsOut};
ghost use Rattle.moka_state.specs.Recorded.{IsSaid, WantsMemory};
ghost use Rattle.moka_state.specs.Replies.{IsRefusal};

use crate::handed_out::HandedOut;
use crate::step::Reply;
use moka_model::comp_result::CompResult;
use moka_model::entry::Entry;
use moka_policy::policy::{CacheTypes, Refused};
use moka_predicate_ids::predicate_error::PredicateError;
use moka_turns::turn_name::TurnName;
use std::sync::Arc;

// Returns the same name, with this key.
fn name_with_key<K: Drop>(name: &TurnName<K>, key: Option<Arc<K>>) -> Option<TurnName<K>>
    ensures { IsSomeAnd key (λ own. arc_value own ≡ arc_value name.now.key)
        → IsSomeAnd result (λ again. name_by again ≡ name_by name.now) }
{
    match key {
        Some(key) => Some(TurnName {
            number: name.number,
            kind: name.kind,
            key,
        }),
        None => None,
    }
}

// Returns the same entry, with this key and this value.
fn entry_with_clones<K: Drop, V: Clone>(
    entry: &Entry<K, V>,
    key: Option<Arc<K>>,
    value: Option<V>,
) -> Option<Entry<K, V>>
    ensures { (e : calls.Entry K V) → IsCopiedEntry V.is_clone e (entry_of entry.now)
        → IsSomeAnd key (λ own. arc_value own ≡ e.key) → IsSomeAnd value (V.is_clone e.value)
        → IsSomeAnd result (λ again. IsCopiedEntry V.is_clone e (entry_of again)) }
{
    match (key, value) {
        (Some(key), Some(value)) => {
            let (fresh, replaced) = (entry.is_fresh(), entry.is_old_value_replaced());
            Some(Entry::new(key, value, fresh, replaced))
        }
        _ => None,
    }
}

// Returns the same result of a compute, with the given clones.
fn result_with_clones<K: Drop, V: Clone, E: Drop>(
    computed: &CompResult<K, V>,
    out: &mut HandedOut<K, V, E>,
) -> Option<CompResult<K, V>>
    ensures { (answer : calls.Reply K V E) → IsCopiedReply V.is_clone answer
        (of_computed computed.now) → HandsOut V.is_clone answer out.old → IsSomeAnd result
        (λ again. IsCopiedReply V.is_clone answer (of_computed again)) }
{
    match computed {
        CompResult::StillNone(_) => Some(CompResult::StillNone(out.key.take()?)),
        CompResult::Unchanged(entry) => {
            Some(CompResult::Unchanged(entry_with_clones(entry, out.key.take(), out.value.take())?))
        }
        CompResult::Inserted(entry) => {
            Some(CompResult::Inserted(entry_with_clones(entry, out.key.take(), out.value.take())?))
        }
        CompResult::ReplacedWith(entry) => {
            Some(CompResult::ReplacedWith(entry_with_clones(
                entry,
                out.key.take(),
                out.value.take(),
            )?))
        }
        CompResult::Removed(entry) => {
            Some(CompResult::Removed(entry_with_clones(entry, out.key.take(), out.value.take())?))
        }
    }
}

impl<K: Eq + Drop, V: Clone, C: CacheTypes<K, V>> Reply<K, V, C> {
    // Returns the reply of an accepted step with the given clones in it, or `None` if one is
    // missing.
    fn try_with_clones(&self, out: &mut HandedOut<K, V, C::Error>) -> Option<Reply<K, V, C>>
        ensures { (answer : calls.Reply K V C.Error) → IsSaid V.is_clone answer self.now
            → HandsOut V.is_clone answer out.old → IsSomeAnd result (IsSaid V.is_clone answer) }
    {
        match self {
            Reply::Found(_) => Some(Reply::Found(out.value.take())),
            Reply::Contains(is_live) => Some(Reply::Contains(*is_live)),
            Reply::Done => Some(Reply::Done),
            Reply::Counted(count) => Some(Reply::Counted(*count)),
            Reply::Left(has_left) => Some(Reply::Left(*has_left)),
            Reply::Noticed(_) => Some(Reply::Noticed(out.notice.take())),
            Reply::Entered(entry) => Some(Reply::Entered(entry_with_clones(
                entry,
                out.key.take(),
                out.value.take(),
            )?)),
            Reply::Run(name, None) => Some(Reply::Run(name_with_key(name, out.name.take())?, None)),
            Reply::Run(name, Some(entry)) => {
                let name = name_with_key(name, out.name.take())?;
                let entry = entry_with_clones(entry, out.key.take(), out.value.take())?;
                Some(Reply::Run(name, Some(entry)))
            }
            Reply::Wait(name) => Some(Reply::Wait(name_with_key(name, out.name.take())?)),
            Reply::Nothing => Some(Reply::Nothing),
            Reply::Failed(_) => Some(Reply::Failed(out.error.take()?)),
            Reply::Computed(computed) => Some(Reply::Computed(result_with_clones(computed, out)?)),
            Reply::NotYet => Some(Reply::NotYet),
            Reply::Abandoned => Some(Reply::Abandoned),
            Reply::Ended => Some(Reply::Ended),
            Reply::Refused(_) => None,
            Reply::PredicateRefused(_) => None,
        }
    }

    /// Returns the same reply, with the given clones, which are those of its step. If a clone is
    /// missing, as from another step, returns `Nothing`.
    pub(crate) fn with_clones(&self, out: HandedOut<K, V, C::Error>) -> Reply<K, V, C>
        ensures said { (answer : calls.Reply K V C.Error) → IsSaid V.is_clone answer self.now
            → HandsOut V.is_clone answer out → IsSaid V.is_clone answer result }
        ensures refused { IsRefusal self.now → result ≡ self.now }
    {
        let mut out = out;
        let again = match self {
            Reply::Refused(cause) => Reply::Refused(*cause),
            Reply::PredicateRefused(cause) => Reply::PredicateRefused(*cause),
            accepted => match accepted.try_with_clones(&mut out) {
                Some(reply) => reply,
                None => Reply::Nothing,
            },
        };
        drop(out);
        again
    }

    /// Checks whether the step failed for lack of memory.
    pub(crate) fn wants_memory(&self) -> bool
        ensures { IsTrue result ↔ WantsMemory self.now }
    {
        matches!(
            self,
            Reply::Refused(Refused::OutOfMemory)
                | Reply::PredicateRefused(PredicateError::OutOfMemory)
        )
    }
}
