//! Entries with a weight and a lifetime, given by types and by closures, and calls made as data.

ghost use Rattle.std.specs.Prelude.{◌≡◌, false, refl, IfOk};
ghost use Rattle.std.specs.List.{AllByRecursion};
ghost use Rattle.std.proofs.Math.Path.{◌∙◌};
ghost use Rattle.moka_state.specs.Step.{StepKeeps};
ghost use Rattle.examples.specs.Calls.{length_of, a_minute};

use anyhow::Result;
use moka::policy::{
    CacheTypes, CountTable, ExpireBy, Expiry, ManualClock, NoListener, NoPredicate, WeighBy,
    Weigher,
};
use moka::ready::FoldState;
use moka::state::{CacheState, Step};
use moka::sync::CacheBuilder;
use std::alloc::{AllocError, Global};
use std::convert::Infallible;
use std::marker::PhantomData;
use std::sync::Arc;
use std::time::Duration;

/// Weighs a name by its length in bytes, at most `u32::MAX`.
#[derive(Drop)]
struct ByLength;

impl Weigher<u64, String> for ByLength {
    ghost weighs = { λ _ weight. weight ≡ length_of };

    fn weigh(&self, _key: &u64, name: &String) -> u32 {
        u32::try_from(name.len()).unwrap_or(u32::MAX)
    }
}

/// Gives each name a lifetime of one minute from its last write. An access leaves it unchanged.
#[derive(Drop)]
struct OneMinute;

impl Expiry<u64, String> for OneMinute {
    ghost gives = { λ _ lives. lives ≡ a_minute };

    fn expire_after_create(&self, _key: &u64, _name: &String, _at: u64) -> Option<Duration> {
        Some(Duration::from_secs(60))
    }

    fn expire_after_read(
        &self,
        _key: &u64,
        _name: &String,
        _at: u64,
        rest: Option<Duration>,
        _written_at: u64,
    ) -> Option<Duration> {
        rest
    }

    fn expire_after_update(
        &self,
        _key: &u64,
        _name: &String,
        _at: u64,
        _rest: Option<Duration>,
    ) -> Option<Duration> {
        Some(Duration::from_secs(60))
    }
}

/// The types of a cache of names with weigher `W` and expiry `E`.
struct WeighedNames<W, E> {
    types: PhantomData<(W, E)>,
}

impl<W, E> CacheTypes<u64, String> for WeighedNames<W, E>
where
    W: Weigher<u64, String> + Drop,
    E: Expiry<u64, String> + Drop,
{
    type Hasher = FoldState;

    type Weigher = W;

    type Expiry = E;

    type Predicate = NoPredicate;

    type Frequency = CountTable<10>;

    type Listener = NoListener;

    type Clock = ManualClock;

    type Error = Infallible;

    ghost weight = { λ _. length_of };

    ghost equal_keys_weigh = { λ _ _ _ _ _. refl };

    ghost lifetimes = { λ _. a_minute };

    ghost test = { λ _ _ _. false };

    ghost keeps = { λ _ _. Unit {0} };

    ghost equal_keys_keep = { λ _ _ _ _ _. tt };

    ghost copies_keep = { λ _ _ _ _ _. tt };

    ghost copies_compose = { λ _ _ _ a b. b ∙ a };
}

// Creates a cache of names with a total weight of at most eight bytes.
fn build_cache<W, E>(
    alloc: Global,
    weigher: W,
    expiry: E,
) -> Result<CacheState<u64, String, WeighedNames<W, E>>>
where
    W: Weigher<u64, String> + Drop,
    E: Expiry<u64, String> + Drop,
    requires weighs { W.weighs weigher length_of }
    requires gives { E.gives expiry a_minute }
{
    let builder = CacheBuilder::new(8).weigher(weigher).expire_after(expiry);
    Ok(builder.build_state(alloc, FoldState::default())?)
}

// Returns two steps as data: an insert of `name` under key 97, and a `get` 5 ns later.
fn steps<C: CacheTypes<u64, String>>(
    alloc: Global,
    name: String,
) -> Result<Vec<Step<u64, String, C>>, AllocError>
    requires { C.keeps 97 name }
    ensures { IfOk result (λ steps.
        AllByRecursion (StepKeeps C.keeps C.Predicate.tests C.test) steps.items) }
{
    let key: Arc<u64> = Arc::new(alloc, 97)?;
    let again = key.clone()?;
    let mut steps = Vec::new(alloc);
    steps.push(Step::Insert {
        key,
        value: name,
        now: 0,
    })?;
    steps.push(Step::Get { key: again, now: 5 })?;
    Ok(steps)
}

// Returns the total weight after an insert of `name`, and after maintenance one minute later.
fn weights_of<W, E>(
    names: &mut CacheState<u64, String, WeighedNames<W, E>>,
    alloc: Global,
    name: String,
) -> Result<(u64, u64)>
where
    W: Weigher<u64, String> + Drop,
    E: Expiry<u64, String> + Drop,
{
    names.run(steps(alloc, name)?)?;
    let weight = names.weighted_size();
    names.run_pending_tasks(60_000_000_000);
    Ok((weight, names.weighted_size()))
}

// Returns the same for a new cache.
fn weights<W, E>(alloc: Global, weigher: W, expiry: E, name: String) -> Result<(u64, u64)>
where
    W: Weigher<u64, String> + Drop,
    E: Expiry<u64, String> + Drop,
    requires weighs { W.weighs weigher length_of }
    requires gives { E.gives expiry a_minute }
{
    let mut names = build_cache(alloc, weigher, expiry)?;
    weights_of(&mut names, alloc, name)
}

// Returns the same with closures as weigher and expiry.
fn weights_by_closures(alloc: Global, name: String) -> Result<(u64, u64)> {
    weights(
        alloc,
        WeighBy::new(|_key: &u64, name: &String| u32::try_from(name.len()).unwrap_or(u32::MAX)),
        ExpireBy::new(
            |_key: &u64, _name: &String, _at: u64| Some(Duration::from_secs(60)),
            |_key: &u64, _name: &String, _at: u64, rest: Option<Duration>, _written_at: u64| rest,
            |_key: &u64, _name: &String, _at: u64, _rest: Option<Duration>| {
                Some(Duration::from_secs(60))
            },
        ),
        name,
    )
}

/// Runs the example.
pub fn main(rt: HostRuntime) -> Result<()> {
    let name = String::from_str(rt.alloc(), "Alice")?;
    println!(rt; "{:?}", weights(rt.alloc(), ByLength, OneMinute, name)?)?;
    let name = String::from_str(rt.alloc(), "Bob")?;
    println!(rt; "{:?}", weights_by_closures(rt.alloc(), name)?)?;
    Ok(())
}
