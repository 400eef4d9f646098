//! The loads on which the caches are measured.
ghost use Rattle.std.specs.Prelude.{◌≢◌, Some};

use crate::numbers::Numbers;
use std::alloc::{AllocError, Global};

/// How long the entries of a cache live, in calls. Each call is one nanosecond after the one
/// before.
#[derive(Clone, Copy)]
pub(crate) enum Life {
    /// They never expire.
    Endless,
    /// So many calls after the write, by a time to live.
    ToLive(u64),
    /// So many calls after the last access, by a time to idle.
    ToIdle(u64),
    /// So many calls after the write, by an expiry for each entry.
    Own(u64),
}

/// What is done with each key of a load.
#[derive(Clone, Copy, PartialEq)]
pub(crate) enum Kind {
    /// Looks the key up, and inserts it if it is not found.
    Look,
    /// Inserts the key.
    Insert,
    /// Looks the key up. All keys were inserted before.
    Hit,
    /// Looks up a new key, and then inserts it.
    Miss,
    /// Overwrites the key. All keys were inserted before.
    Overwrite,
    /// Inserts a new key into a full cache.
    Replace,
    /// Makes this call about the key. All keys were inserted before.
    Known(Call),
    /// Makes this call about a new key.
    New(Call),
    /// Removes the key by this call. All keys were inserted before, and each comes once, all of them
    /// among the measured ones.
    Gone(Call),
    /// Makes this call once about all keys, which were inserted before.
    Once(Call),
}

/// Calls that are compared with others.
#[derive(Clone, Copy, PartialEq)]
pub(crate) enum Call {
    GetWith,
    OrInsert,
    /// A `get`, and an `insert` whatever was found.
    GetAndInsert,
    UpsertWith,
    /// `and_compute_with` that puts a value.
    ComputeWith,
    Invalidate,
    Remove,
    InvalidateAll,
    /// An invalidation by a predicate that holds of each entry.
    InvalidateIf,
    /// `invalidate_all` and the maintenance behind it, which queues a notice for each entry.
    Clear,
    /// Iterates over each pair.
    Walk,
}

/// A load: the capacity of the caches, the keys, and what is done with each.
#[derive(Clone, Copy)]
pub(crate) struct Load {
    /// The name in the table.
    pub name: &'static str,
    /// What is done with each key.
    pub kind: Kind,
    /// In entries. So many keys are inserted at first, where some are.
    pub capacity: u32,
    /// How many entries more the caches have room for.
    pub spare: u32,
    /// There are `2^octaves - 1` keys for lookups, each as frequent as its inverse.
    pub octaves: u32,
    /// How many calls are measured, after as many that are not.
    pub calls: u32,
    /// How long the entries live.
    pub life: Life,
    /// The greatest number of evictions in a flush.
    pub flush_limit: Option<u64>,
    /// How many turns of other keys are open.
    pub open_turns: u64,
    /// The initial capacity.
    pub initial_capacity: usize,
}

/// 100,000 of about a million keys.
pub(crate) const LOOKS: Load = Load {
    name: "looks",
    kind: Kind::Look,
    capacity: 100_000,
    spare: 0,
    octaves: 20,
    calls: 1_000_000,
    life: Life::Endless,
    flush_limit: None,
    open_turns: 0,
    initial_capacity: 0,
};

/// How many of the numbered loads each cache is measured on.
pub(crate) const LOADS: usize = 10;

/// The capacities of full caches that have room for all of their entries from the beginning.
const ROOMY: [u32; 5] = [1_000, 1_085, 20_000, 147_000, 1_000_000];

/// Returns the load with a number. Behind those on which each cache is measured come inserts of new
/// keys into a full cache with an initial capacity, at each capacity without a lifetime and with
/// one. The last three are of 1,000,000 entries: with a flush limit of 1, and where all entries
/// that are stored at first expire at once, without a flush limit and with one.
pub(crate) fn numbered(number: usize) -> Option<Load> {
    let hits = LOOKS.of("hits", Kind::Hit);
    let full = with_room(1_000_000, Life::Endless);
    let expired = with_room(1_000_000, Life::ToLive(1_000));
    Some(match number {
        0 => LOOKS,
        1 => LOOKS.of("inserts", Kind::Insert),
        2 => hits,
        3 => LOOKS.of("overwrites", Kind::Overwrite),
        4 => Load {
            calls: 250_000,
            ..LOOKS.living("looks, a time to live", Life::ToLive(100_000))
        },
        5 => LOOKS.sized(1_000, 14),
        6 => LOOKS.sized(10_000, 17),
        7 => LOOKS.sized(1_000_000, 24),
        8 => hits.sized(1_000, 14),
        9 => hits.sized(1_000_000, 24),
        10..=19 => {
            let capacity = *ROOMY.get(number.wrapping_sub(10) / 2)?;
            let life = if number % 2 == 0 {
                Life::Endless
            } else {
                Life::ToLive(u64::from(capacity))
            };
            with_room(capacity, life)
        }
        20 => full.limited(1),
        21 => expired,
        22 => expired.limited(1),
        _ => return None,
    })
}

/// Returns inserts of new keys into a full cache whose initial capacity is its capacity and a flush
/// more.
fn with_room(capacity: u32, life: Life) -> Load {
    Load {
        name: "new keys",
        kind: Kind::Replace,
        capacity,
        life,
        initial_capacity: (capacity as usize).saturating_add(65),
        ..LOOKS
    }
}

/// Returns a `get` of what is stored, and a `get_with`. There is room for more entries than there
/// are keys, since hashes distribute them a little unevenly over segments.
pub(crate) fn loaders(load: &Load, spare: u32) -> [Load; 2] {
    let load = Load { spare, ..*load };
    [
        load.of("hits", Kind::Hit),
        load.of("get_with", Kind::Known(Call::GetWith)),
    ]
}

/// Returns the loads on which threads look keys up.
pub(crate) fn lookups() -> [Load; 3] {
    let [hits, _] = loaders(&LOOKS, 20_000);
    [LOOKS, LOOKS.of("misses", Kind::Miss), hits]
}

/// Returns lookups and overwrites with and without lifetimes, at a capacity. Each lifetime is as
/// many calls as the capacity, so that about as many entries expire as are evicted for size.
pub(crate) fn with_lives(capacity: u32, octaves: u32) -> ([Load; 4], [Load; 2]) {
    let calls = u64::from(capacity);
    let looks = LOOKS.sized(capacity, octaves);
    let overwrites = looks.of("overwrites", Kind::Overwrite);
    let looks = [
        looks,
        looks.living("looks, a time to live", Life::ToLive(calls)),
        looks.living("looks, a time to idle", Life::ToIdle(calls)),
        looks.living("looks, an expiry", Life::Own(calls)),
    ];
    let life = Life::ToLive(calls);
    let living = overwrites.living("overwrites, a time to live", life);
    (looks, [overwrites, living])
}

/// Returns calls about keys that are stored, beside a `get`.
pub(crate) fn known_calls() -> [Load; 5] {
    let loader = LOOKS.of("get_with, 1 turn open", Kind::Known(Call::GetWith));
    [
        LOOKS.of("get", Kind::Hit),
        LOOKS.of("or_insert", Kind::Known(Call::OrInsert)),
        loader.open(loader.name, 1),
        loader.open("get_with, 1,000 open", 1_000),
        loader.open("get_with, 100,000 open", 100_000),
    ]
}

/// Returns computes of keys that are stored, beside a `get` and an `insert`.
pub(crate) fn computes() -> [Load; 3] {
    [
        LOOKS.of("get and insert", Kind::Known(Call::GetAndInsert)),
        LOOKS.of("and_upsert_with", Kind::Known(Call::UpsertWith)),
        LOOKS.of("and_compute_with", Kind::Known(Call::ComputeWith)),
    ]
}

/// Returns `get_with` of new keys, beside a `get` and an `insert`.
pub(crate) fn new_calls() -> [Load; 4] {
    let loader = LOOKS.of("get_with, 1 turn open", Kind::New(Call::GetWith));
    [
        LOOKS.of("get and insert", Kind::Miss),
        loader.open(loader.name, 1),
        loader.open("get_with, 1,000 open", 1_000),
        loader.open("get_with, 100,000 open", 100_000),
    ]
}

/// Returns calls about each of so many entries, of a full cache that has no maintenance to do.
pub(crate) fn calls_about_all(rows: u32) -> [Load; 6] {
    let all = Load {
        capacity: rows,
        calls: rows,
        ..LOOKS
    };
    [
        all.of("a walk", Kind::Once(Call::Walk)),
        all.of("invalidate", Kind::Gone(Call::Invalidate)),
        all.of("remove", Kind::Gone(Call::Remove)),
        all.of("invalidate_all", Kind::Once(Call::InvalidateAll)),
        all.of("by a predicate", Kind::Once(Call::InvalidateIf)),
        all.of("all, and the sweep behind", Kind::Once(Call::Clear)),
    ]
}

/// The capacities at which lifetimes are measured, each with the octaves of its keys.
pub(crate) const SIZES: [(u32, u32); 3] = [(10_000, 17), (100_000, 20), (1_000_000, 24)];

/// The capacities at which calls about all entries are measured.
pub(crate) const ROWS: [u32; 4] = [1_000, 10_000, 100_000, 1_000_000];

/// A load of few calls, for the run without arguments.
pub(crate) const SMALL: Load = Load {
    capacity: 100,
    octaves: 10,
    calls: 1_000,
    ..LOOKS
};

impl Load {
    /// Returns the same with another kind of calls.
    fn of(self, name: &'static str, kind: Kind) -> Load {
        Load { name, kind, ..self }
    }

    /// Returns the same at another capacity, with so many octaves of keys.
    fn sized(self, capacity: u32, octaves: u32) -> Load {
        Load {
            capacity,
            octaves,
            ..self
        }
    }

    /// Returns the same with a flush limit.
    fn limited(self, limit: u64) -> Load {
        Load {
            flush_limit: Some(limit),
            ..self
        }
    }

    /// Returns the same with a lifetime.
    fn living(self, name: &'static str, life: Life) -> Load {
        Load { name, life, ..self }
    }

    /// Returns the same with so many turns of other keys.
    fn open(self, name: &'static str, open_turns: u64) -> Load {
        Load {
            name,
            open_turns,
            ..self
        }
    }

    /// Returns the capacity of the caches.
    pub(crate) fn room(&self) -> u32 {
        self.capacity.saturating_add(self.spare)
    }

    /// Returns the flush limit, or `None` if there is none or it is 0.
    pub(crate) fn checked_flush_limit(&self) -> Option<u64>
        ensures { result ≢ Some 0 }
    {
        match self.flush_limit {
            Some(limit) if limit > 0 => Some(limit),
            _ => None,
        }
    }

    /// Returns the keys of the calls, in order: first those that are not measured, and then as many
    /// that are.
    pub(crate) fn keys(&self, alloc: Global) -> Result<Vec<u64>, AllocError> {
        let mut numbers = Numbers::new(20_261_123);
        let calls = self.calls.saturating_mul(2);
        let mut keys = Vec::with_capacity(alloc, calls as usize)?;
        for call in 0..calls {
            keys.push(match self.kind {
                Kind::Look => u64::from(numbers.skewed(self.octaves)),
                Kind::Insert | Kind::Miss | Kind::New(_) | Kind::Once(_) => u64::from(call),
                Kind::Replace => u64::from(self.capacity).wrapping_add(u64::from(call)),
                Kind::Hit | Kind::Overwrite | Kind::Known(_) => {
                    u64::from(numbers.below(self.capacity))
                }
                Kind::Gone(_) => scattered(u64::from(call), u64::from(self.capacity)),
            })?;
        }
        Ok(keys)
    }
}

/// Returns the key at a place of a scattered order: the factor shares no divisor with a power of
/// ten.
fn scattered(place: u64, rows: u64) -> u64 {
    place.wrapping_mul(7_368_787).checked_rem(rows).unwrap_or(0)
}
