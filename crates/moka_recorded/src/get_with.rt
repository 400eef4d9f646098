//! `get_with` of a recorded cache.
ghost use Rattle.std.specs.Prelude.{◌≡◌, IfOk, IfErr};
ghost use Rattle.std.specs.Arc.{arc_value};
ghost use Rattle.moka_turns.specs.Handles.{name_by};
ghost use Rattle.moka_recorded.specs.Gets.{Finishes, FinishRefused, Gets, GetsRefused};

use crate::ask::{GetWithCall, PassOf, Shared};
use crate::named::{Named, copy_name};
use crate::refused::GetWithRefused;
use moka_model::turns::Outcome;
use moka_policy::policy::{CacheTypes, Refused};
use moka_recording::naming::Naming;
use moka_rows::rows::RowStore;
use moka_single_flight::replies::Joined;
use moka_single_flight::wait::{MAX_RETRIES, wait_for};
use moka_state::step::{Reply, Step};
use std::hash::Hash;
use std::sync::{Arc, Wait};

// Returns the live value of a key, or else what `init` returns, which runs without the lock.
pub(crate) fn get_with<K, V, C, R, L, W, F>(
    cache: &Shared<K, V, C, R, L, W>,
    pass: &mut PassOf<K, V, C, R, L>,
    key: Arc<K>,
    init: F,
    now: u64,
) -> Result<V, GetWithRefused<K, V, C>>
where
    K: Hash + Drop,
    V: Clone,
    C: CacheTypes<K, V>,
    R: RowStore<K, V>,
    L: Naming,
    W: Wait + Drop,
    F: FnOnce() -> V + Drop,
    requires asks { F.IsAlwaysCallable init }
    requires keeps { (v : V) → F.post init v → C.keeps (arc_value key) v }
    ensures done { IfOk result (λ v. Gets V.is_clone C.keeps (arc_value key) now
        (F.post init) pass.old v pass.new) }
    ensures kept { IfOk result (C.keeps (arc_value key)) }
    ensures refused { IfErr result (λ refused. GetsRefused V.is_clone C.keeps (arc_value key) now
        (F.post init) pass.old refused pass.new) }
{
    let at = GetWithCall { cache, key, now };
    match wait_for(cache.waits(), pass, &at, Some(MAX_RETRIES)) {
        Ok(Joined::Value(value)) => Ok(value),
        Ok(Joined::Turn(turn)) => {
            let value = init();
            finish(cache, pass, turn, value, now)
        }
        Ok(Joined::TooMany) => Err(GetWithRefused {
            cause: Refused::WaitsAbandoned,
            held: None,
        }),
        Err(refused) => Err(refused),
    }
}

// Finishes a turn with a value.
fn finish<K, V, C, R, L, W>(
    cache: &Shared<K, V, C, R, L, W>,
    pass: &mut PassOf<K, V, C, R, L>,
    turn: Named<K>,
    value: V,
    now: u64,
) -> Result<V, GetWithRefused<K, V, C>>
where
    K: Hash + Drop,
    V: Clone,
    C: CacheTypes<K, V>,
    R: RowStore<K, V>,
    L: Naming,
    W: Wait + Drop,
    requires { C.keeps (arc_value turn.name.key) value }
    ensures done { IfOk result (λ v. Finishes V.is_clone C.keeps (name_by turn.name) value now
        v pass.old pass.new) }
    ensures refused { IfErr result (λ refused. FinishRefused V.is_clone C.keeps
        (name_by turn.name) value now refused pass.old pass.new) }
{
    let Named { name } = turn;
    let Ok(called) = copy_name(&name) else {
        return Err(GetWithRefused {
            cause: Refused::OutOfMemory,
            held: Some(Step::Abandon { name }),
        });
    };
    let step = Step::Finish {
        name: called,
        outcome: Outcome::Value(value),
        now,
    };
    let Ok(receipt) = cache.call(pass, step) else {
        return Err(GetWithRefused {
            cause: Refused::OutOfMemory,
            held: Some(Step::Abandon { name }),
        });
    };
    match receipt.reply {
        Reply::Entered(entry) => Ok(entry.into_value()),
        Reply::Refused(Refused::NumbersUsedUp) => Err(GetWithRefused {
            cause: Refused::NumbersUsedUp,
            held: Some(Step::Abandon { name }),
        }),
        Reply::Refused(cause) => Err(GetWithRefused { cause, held: None }),
        _ => unreachable!(),
    }
}
