//! The calls of a recorded cache. Nothing else calls one: each call brings a large contract to the
//! proof of all that comes behind it, and here that is one line.
ghost use Rattle.std.specs.Prelude.{◌≡◌, ℕ, [], IfOk};
ghost use Rattle.moka_state.specs.Step.{StepKeeps};

use crate::act::{Act, Said, said_of, step_of};
use crate::marks::{Marks, Scarce, come, mark};
use crate::scene::Stage;
use moka_policy::policy::{CacheTypes, EvictionPolicy, Refused};
use moka_presets::ready::{FoldState, PlainRecorded};
use moka_recorded::naming::Naming;
use moka_recorded::recorded_cache;
use moka_recorded::recorded_cache::CloseRefused;
use moka_recorded::refused::GetWithRefused;
use moka_state::state::{CacheState, Settings};
use moka_state::step::{Reply, Step};
use moka_state::view::StateView;
use std::alloc::{AllocError, Global};
use std::rt::Clock;
use std::sync::atomic::Ordering;
use std::sync::{Arc, Wait};
use std::test::Fail;
use std::time::Duration;

pub(crate) type Opened<C> = recorded_cache::Opened<u64, Scarce, C>;

pub(crate) type Pass<C, L> = recorded_cache::Pass<u64, Scarce, C, L>;

pub(crate) type Recorded<C, L, W> = recorded_cache::RecordedCache<u64, Scarce, C, L, W>;

/// An owned cache.
pub(crate) type Owned<C> = CacheState<u64, Scarce, C>;

/// A step of a cache under test.
pub(crate) type ScarceStep<C> = Step<u64, Scarce, C>;

/// An entry of a history: the number of a pass, its step and the reply.
pub(crate) type Line<C> = (u64, ScarceStep<C>, Reply<u64, Scarce, C>);

/// Creates an owned cache with this capacity and this first sequence number. A value lives for 400
/// seconds, and for 100 after its last use.
pub(crate) fn state(
    alloc: Global,
    capacity: u64,
    first_number: u64,
) -> Result<Owned<PlainRecorded>, Refused>
    ensures { IfOk result (λ state. ⟦<PlainRecorded as StateView<u64, Scarce>>⟧.stands_for
        (⟦<PlainRecorded as StateView<u64, Scarce>>⟧.settings state.settings) state []) }
{
    let Ok(hasher) = Arc::new(alloc, FoldState::default()) else {
        return Err(Refused::OutOfMemory);
    };
    let settings = Settings {
        name: None,
        time_to_live: Some(Duration::from_secs(400)),
        time_to_idle: Some(Duration::from_secs(100)),
        max_capacity: Some(capacity),
        initial_capacity: 0,
        eviction_policy: EvictionPolicy::lru(),
        weigher: None,
        expiry: None,
        closures: false,
        flush_limit: None,
        first_number,
        hasher,
    };
    CacheState::new(alloc, settings)
}

/// What calls caches of the type `X` with passes of the type `P`. So a proof of what it is passed to
/// does not look into these types.
pub(crate) trait Calls<X, P> {
    /// Makes the call of a row once. Returns what came of it.
    fn call(&self, cache: &X, pass: &mut P, act: Act<'_>, now: u64) -> Said;
}

/// A cache with passes of the type `P`, and what calls it.
pub(crate) trait Called<P> {
    /// Makes the call of a row once. Returns what came of it.
    fn call(&self, pass: &mut P, act: Act<'_>, now: u64) -> Said;
}

#[derive(Drop)]
pub(crate) struct Lent<'a, D, X> {
    pub calls: &'a D,
    pub cache: &'a X,
}

impl<'a, D: Calls<X, P>, X, P> Called<P> for Lent<'a, D, X> {
    fn call(&self, pass: &mut P, act: Act<'_>, now: u64) -> Said {
        self.calls.call(self.cache, pass, act, now)
    }
}

impl<R: Clock + Copy, L: Naming, W: Wait + Drop> Calls<
    Recorded<PlainRecorded, L, W>,
    Pass<PlainRecorded, L>,
> for Stage<R> {
    fn call(
        &self,
        cache: &Recorded<PlainRecorded, L, W>,
        pass: &mut Pass<PlainRecorded, L>,
        act: Act<'_>,
        now: u64,
    ) -> Said {
        match act.name {
            "load" | "load_told" | "load_scarce" => load(self, cache, pass, act, now),
            "others" => others(cache, pass),
            _ => make(cache, pass, step_of(self.alloc, &self.marks, act, now)),
        }
    }
}

/// Makes a step. Returns what its reply says.
fn make<C: CacheTypes<u64, Scarce>, L: Naming, W: Wait + Drop>(
    cache: &Recorded<C, L, W>,
    pass: &mut Pass<C, L>,
    step: Result<ScarceStep<C>, AllocError>,
) -> Said
    requires { IfOk step (StepKeeps C.keeps C.Predicate.tests C.test) }
{
    let Ok(step) = step else {
        return Said::Refused(Refused::OutOfMemory);
    };
    match cache.call(pass, step) {
        Ok(receipt) => said_of(&receipt.reply),
        Err(cause) => Said::Refused(cause),
    }
}

/// Counts the entries of a cache. Returns how many the other passes have in the history.
fn others<C: CacheTypes<u64, Scarce>, L: Naming, W: Wait + Drop>(
    cache: &Recorded<C, L, W>,
    pass: &mut Pass<C, L>,
) -> Said {
    let all = match cache.call(pass, Step::EntryCount) {
        Ok(receipt) => receipt.place.wrapping_add(1),
        Err(cause) => return Said::Refused(cause),
    };
    Said::Counted(all.wrapping_sub(pass.receipts().len() as u64))
}

/// Loads a key by `get_with`.
fn load<R: Clock + Copy, C: CacheTypes<u64, Scarce>, L: Naming, W: Wait + Drop>(
    on: &Stage<R>,
    cache: &Recorded<C, L, W>,
    pass: &mut Pass<C, L>,
    act: Act<'_>,
    now: u64,
) -> Said
    requires { (k : ℕ) (v : _) → C.keeps k v }
{
    let marks: Result<_, _> = on.marks.clone();
    let (Ok(key), Ok(marks)) = (Arc::new(on.alloc, act.one), marks) else {
        return Said::Failed(Refused::OutOfMemory);
    };
    let (rt, value, scarce) = (on.rt, act.two, act.three);
    let told = (act.name == "load_told") as u64;
    let init = move || computed(&rt, marks, value, scarce, told);
    loaded(&on.marks, cache.get_with(pass, key, init, now))
}

/// Counts what came of a load, and returns it.
fn loaded<C: CacheTypes<u64, Scarce>>(
    marks: &Marks,
    loaded: Result<Scarce, GetWithRefused<u64, Scarce, C>>,
) -> Said {
    let (cause, held) = match loaded {
        Ok(value) => {
            mark(&marks.given);
            return Said::Given(value.number);
        }
        Err(GetWithRefused { cause, held }) => (cause, held),
    };
    let (is_ticket, name) = match held {
        Some(Step::Abandon { name }) => (false, name),
        Some(Step::Leave { name }) => (true, name),
        Some(_) => return Said::Other,
        None => {
            mark(&marks.failed);
            return Said::Failed(cause);
        }
    };
    mark(if is_ticket { &marks.left } else { &marks.held });
    Said::Holds(cause, is_ticket, name.number, *name.key)
}

/// Returns the value of a closure, once it was told as many as it may wait for.
fn computed(rt: &impl Clock, marks: Arc<Marks>, value: u64, scarce: u64, told: u64) -> Scarce {
    let earlier = marks.asks.fetch_add(1, Ordering::SeqCst);
    let wanted = if scarce > 0 {
        asleep(scarce, earlier)
    } else {
        told
    };
    come(rt, &marks.told, wanted);
    let number = if earlier < scarce { 0 } else { value };
    Scarce { number, marks }
}

/// Returns how many entries the loaders of a round, of which so many can fail, have made once the
/// closure of this number runs and all others that are left sleep.
///
/// Each began and collected too early once. In each round since then, who had the turn abandoned it,
/// and all that were left saw that, began again, and all but one collected too early.
fn asleep(scarce: u64, closure: u64) -> u64 {
    let loaders = scarce.wrapping_add(1);
    let mut entries = loaders.wrapping_mul(2).wrapping_add(closure);
    for earlier in 0..=closure {
        let others = scarce.saturating_sub(earlier);
        entries = entries.wrapping_add(others.wrapping_mul(3)).wrapping_add(2);
    }
    entries
}

/// What a closed cache gives: its history, and an owned cache.
pub(crate) type Closed<C> = (Vec<Line<C>>, Owned<C>);

/// Closes a cache: without its last pass, which is refused and takes nothing, and then with all of
/// its passes in another order.
pub(crate) fn close_all<C: CacheTypes<u64, Scarce>, L: Naming, W: Wait + Drop>(
    cache: Recorded<C, L, W>,
    passes: Vec<Pass<C, L>>,
) -> Result<Closed<C>, Fail> {
    let mut passes = passes;
    let Some(last) = passes.pop() else {
        return close(cache, passes);
    };
    match cache.close(passes) {
        Ok(closed) => {
            drop(closed);
            drop(last);
            Err(Fail::from("closed without a pass"))
        }
        Err(CloseRefused::PassesMissing(cache, left)) => close_reversed(cache, left, last),
    }
}

/// Closes a cache with all of its passes.
fn close<C: CacheTypes<u64, Scarce>, L: Naming, W: Wait + Drop>(
    cache: Recorded<C, L, W>,
    passes: Vec<Pass<C, L>>,
) -> Result<Closed<C>, Fail> {
    match cache.close(passes) {
        Ok(closed) => Ok(closed),
        Err(_) => Err(Fail::from("a pass is missing")),
    }
}

/// Calls by the last of those that are left, and closes a cache with one more pass before them, in
/// the other order.
fn close_reversed<C: CacheTypes<u64, Scarce>, L: Naming, W: Wait + Drop>(
    cache: Recorded<C, L, W>,
    left: Vec<Pass<C, L>>,
    last: Pass<C, L>,
) -> Result<Closed<C>, Fail> {
    let mut left = left;
    if let Some(pass) = left.last_mut() {
        make(&cache, pass, Ok(Step::WeightedSize));
    }
    if left.push(last).is_err() {
        drop(cache);
        drop(left);
        return Err(Fail::from("memory was refused"));
    }
    left.reverse();
    close(cache, left)
}
