//! The begin and collect steps of a `get_with` that waits for other callers' turns.
ghost use Rattle.std.specs.Prelude.{◌≡◌};

use crate::named::{Named, copy_name};
use crate::recorded_state::RecordedState;
use crate::refused::GetWithRefused;
use moka_model::turns::Kind;
use moka_policy::policy::{CacheTypes, Refused};
use moka_recording::naming::Naming;
use moka_recording::pass::Pass;
use moka_recording::recorded::Recorded;
use moka_rows::rows::RowStore;
use moka_single_flight::participant::Participant;
use moka_single_flight::replies::{Begun, Collected};
use moka_state::step::{Reply, Step};
use std::hash::Hash;
use std::sync::{Arc, Wait};

/// A recorded state that threads share.
pub(crate) type Shared<K, V, C, R, L, W> = Recorded<
    RecordedState<K, V, C, R>,
    Step<K, V, C>,
    Reply<K, V, C>,
    L,
    W,
>;

/// A pass of a recorded state.
pub type PassOf<K, V, C, R, L> = Pass<RecordedState<K, V, C, R>, Step<K, V, C>, Reply<K, V, C>, L>;

// A call of `get_with`: the cache, the key, and the moment in nanoseconds.
#[derive(Drop)]
pub(crate) struct GetWithCall<
    'a,
    K: Hash + Drop,
    V: Clone,
    C: CacheTypes<K, V>,
    R: RowStore<K, V>,
    L: Naming,
    W: Wait + Drop,
> {
    pub cache: &'a Shared<K, V, C, R, L, W>,
    pub key: Arc<K>,
    pub now: u64,
}

impl<
    'a,
    K: Hash + Drop,
    V: Clone,
    C: CacheTypes<K, V>,
    R: RowStore<K, V>,
    L: Naming,
    W: Wait + Drop,
> Participant<GetWithCall<'a, K, V, C, R, L, W>, V> for PassOf<K, V, C, R, L> {
    ghost use Rattle.std.specs.Arc.{arc_value};
    ghost use Rattle.moka_recorded.specs.Gets.{Begins, Collects, BeginRefused, CollectRefused};

    type Turn = Named<K>;

    type Ticket = Named<K>;

    type Refused = GetWithRefused<K, V, C>;

    ghost begun = { λ at. Begins V.is_clone C.keeps (arc_value at.key) at.now };

    ghost collected = { λ _. Collects V.is_clone C.keeps };

    ghost begin_refused = { λ at. BeginRefused V.is_clone C.keeps (arc_value at.key) at.now };

    ghost collect_refused = { λ _. CollectRefused V.is_clone C.keeps };

    fn begin(
        &mut self,
        at: &GetWithCall<'a, K, V, C, R, L, W>,
    ) -> Result<Begun<V, Named<K>, Named<K>>, GetWithRefused<K, V, C>> {
        let Ok(key) = at.key.clone() else {
            return Err(GetWithRefused {
                cause: Refused::OutOfMemory,
                held: None,
            });
        };
        let step = Step::Begin {
            key,
            kind: Kind::With,
            replace: None,
            now: at.now,
        };
        let Ok(receipt) = at.cache.call(self, step) else {
            return Err(GetWithRefused {
                cause: Refused::OutOfMemory,
                held: None,
            });
        };
        match receipt.reply {
            Reply::Entered(entry) => Ok(Begun::Found(entry.into_value())),
            Reply::Run(name, _) => Ok(Begun::Run(Named { name })),
            Reply::Wait(name) => Ok(Begun::Wait(Named { name })),
            Reply::Refused(cause) => Err(GetWithRefused { cause, held: None }),
            _ => unreachable!(),
        }
    }

    fn collect(
        &mut self,
        at: &GetWithCall<'a, K, V, C, R, L, W>,
        ticket: Named<K>,
    ) -> Result<Collected<V, Named<K>>, GetWithRefused<K, V, C>> {
        let Named { name } = ticket;
        let Ok(called) = copy_name(&name) else {
            return Err(GetWithRefused {
                cause: Refused::OutOfMemory,
                held: Some(Step::Leave { name }),
            });
        };
        let Ok(receipt) = at.cache.call_and_wait(self, Step::Collect { name: called }) else {
            return Err(GetWithRefused {
                cause: Refused::OutOfMemory,
                held: Some(Step::Leave { name }),
            });
        };
        match receipt.reply {
            Reply::Entered(entry) => Ok(Collected::Ready(entry.into_value())),
            Reply::NotYet => Ok(Collected::NotYet(Named { name })),
            Reply::Abandoned => Ok(Collected::Retry),
            Reply::Refused(cause) => Err(GetWithRefused { cause, held: None }),
            _ => unreachable!(),
        }
    }
}
