//! The tables that are printed.
use crate::load::{
    LOADS, LOOKS, Load, ROWS, SIZES, SMALL, calls_about_all, computes, known_calls, loaders,
    lookups, new_calls, numbered, with_lives,
};
use crate::measure::{Hashing, Outcome, Which, measure_load, time_each};
use crate::shared::{OneLock, Segments};
use crate::threads::count_initializers;
use std::alloc::{AllocError, Global};
use std::rt::Runtime;
use std::sync::Wait;
use std::thread::Threads;
use std::time::Clock;
use std::{fs, io};

/// What is measured: a cache, its hasher, how many threads share it (0 if none does), and its name.
type Named = (Which, Hashing, usize, &'static str);

const SIP: Hashing = Hashing::Sip;

const FOLD: Hashing = Hashing::Fold;

/// The caches that are measured. The others are compared with the first.
const CACHES: [Named; 8] = [
    (Which::Theirs, SIP, 0, "the kit's lru, SipHash"),
    (Which::Lru, SIP, 0, "least recently used, SipHash"),
    (Which::Table, SIP, 0, "TinyLFU by a table, SipHash"),
    (Which::Sketch, SIP, 0, "TinyLFU by a sketch, SipHash"),
    (Which::Theirs, FOLD, 0, "the kit's lru, FoldHasher"),
    (Which::Lru, FOLD, 0, "least recently used, FoldHasher"),
    (Which::Table, FOLD, 0, "TinyLFU by a table, FoldHasher"),
    (Which::Sketch, FOLD, 0, "TinyLFU by a sketch, FoldHasher"),
];

/// An owned cache.
const STATE: [Named; 1] = [(Which::Lru, FOLD, 0, "state")];

/// An owned cache beside the shared ones, used by one thread.
const ALONE: [Named; 3] = [
    (Which::Lru, FOLD, 0, "state"),
    (Which::OneLock, FOLD, 0, "one lock"),
    (Which::Segments, FOLD, 0, "16 segments"),
];

/// What four threads share. The map and the kit's `lru` have one lock.
const TOGETHER: [Named; 4] = [
    (Which::OneLock, FOLD, 4, "one lock"),
    (Which::Map, FOLD, 4, "a map"),
    (Which::Theirs, FOLD, 4, "the kit's lru"),
    (Which::Segments, FOLD, 4, "16 segments"),
];

/// Does what the arguments ask for.
pub(crate) fn run<R: Runtime + Wait + Threads + Copy + Send + Sync>(
    rt: &R,
    alloc: Global,
    arguments: &[String],
) -> io::Result<()> {
    match arguments {
        [] => print_found(rt, alloc),
        [word, rounds] => match rounds.parse::<usize>() {
            Ok(rounds) => print_tables(rt, alloc, word.as_str(), rounds),
            Err(_) => print_usage(rt),
        },
        [word, cache, load, calls] => match (
            word.as_str(),
            cache.parse::<usize>(),
            load.parse::<usize>(),
            calls.parse::<u32>(),
        ) {
            ("one", Ok(cache), Ok(load), Ok(calls)) => print_one(rt, alloc, cache, load, calls),
            ("tails", Ok(cache), Ok(load), Ok(calls)) => print_tails(rt, alloc, cache, load, calls),
            _ => print_usage(rt),
        },
        _ => print_usage(rt),
    }
}

fn print_usage(rt: &impl io::Print) -> io::Result<()> {
    println!(rt;
        "usage: moka_bench [(times | calls | lives | shared) ROUNDS | (one | tails) CACHE LOAD CALLS]"
    )
}

/// Prints how many calls of small loads find their key, and how many initializers run.
fn print_found<R: Runtime + Wait + Threads + Copy + Send + Sync>(
    rt: &R,
    alloc: Global,
) -> io::Result<()> {
    print_found_of(rt, alloc, &SMALL, &CACHES)?;
    print_found_of(rt, alloc, &SMALL, &ALONE)?;
    for load in &loaders(&SMALL, 1_500) {
        print_found_of(rt, alloc, load, &TOGETHER)?;
    }
    let one_lock = count_initializers::<OneLock<R>, R>(rt, alloc)?;
    let segments = count_initializers::<Segments<R>, R>(rt, alloc)?;
    println!(rt; "one lock: 16 threads ask for one key, initializers: {one_lock}")?;
    println!(rt; "16 segments: 16 threads ask for one key, initializers: {segments}")
}

fn print_found_of<R: Wait + Clock + Threads + io::Print + Copy + Send + Sync>(
    rt: &R,
    alloc: Global,
    load: &Load,
    caches: &[Named],
) -> io::Result<()> {
    let keys = load.keys(alloc)?;
    for (which, hashing, threads, name) in caches {
        let found = measure_load(rt, alloc, *which, *hashing, *threads, load, &keys)?.hits;
        println!(rt; "{name}: {found} of {} {} found", load.calls, load.name)?;
    }
    Ok(())
}

/// Prints the tables that a word asks for: of each cache on each load, of lifetimes, of calls, or of
/// what is shared.
fn print_tables<R: Runtime + Wait + Threads + Copy + Send + Sync>(
    rt: &R,
    alloc: Global,
    word: &str,
    rounds: usize,
) -> io::Result<()> {
    match word {
        "times" => {
            for number in 0..LOADS {
                if let Some(load) = numbered(number) {
                    print_table(rt, alloc, rounds, &[load], &CACHES)?;
                }
            }
        }
        "lives" => {
            for (capacity, octaves) in SIZES {
                let (looks, overwrites) = with_lives(capacity, octaves);
                print_table(rt, alloc, rounds, &looks, &STATE)?;
                print_table(rt, alloc, rounds, &overwrites, &STATE)?;
            }
        }
        "calls" => {
            print_table(rt, alloc, rounds, &known_calls(), &STATE)?;
            print_table(rt, alloc, rounds, &computes(), &STATE)?;
            print_table(rt, alloc, rounds, &new_calls(), &STATE)?;
            for rows in ROWS {
                print_table(rt, alloc, rounds, &calls_about_all(rows), &STATE)?;
            }
        }
        "shared" => print_shared(rt, alloc, rounds)?,
        _ => print_usage(rt)?,
    }
    Ok(())
}

/// Prints what shared caches cost one thread, what four threads take that share them, and what
/// loaders cost these.
fn print_shared<R: Runtime + Wait + Threads + Copy + Send + Sync>(
    rt: &R,
    alloc: Global,
    rounds: usize,
) -> io::Result<()> {
    for load in lookups() {
        print_table(rt, alloc, rounds, &[load], &ALONE)?;
        print_table(rt, alloc, rounds, &[load], &TOGETHER)?;
    }
    for cache in TOGETHER {
        print_table(rt, alloc, rounds, &loaders(&LOOKS, 20_000), &[cache])?;
    }
    Ok(())
}

/// Prints a table of each cache on each load, from so many rounds. All are compared with the first
/// line.
fn print_table<R: Runtime + Wait + Threads + Copy + Send + Sync>(
    rt: &R,
    alloc: Global,
    rounds: usize,
    loads: &[Load],
    caches: &[Named],
) -> io::Result<()> {
    let mut all = Vec::with_capacity(alloc, rounds)?;
    for _ in 0..rounds {
        all.push(round(rt, alloc, loads, caches)?)?;
    }
    println!(rt;
        "\n| load | capacity | cache | threads | over the first | ns a call | found |\n|---|---|---|---|---|---|---|"
    )?;
    let mut place = 0_usize;
    for load in loads {
        for (_, _, threads, name) in caches {
            print!(rt;
                "| {} | {} | {name} | {threads} |",
                load.name, load.capacity
            )?;
            print_row(rt, alloc, load, &all, place)?;
            place = place.wrapping_add(1);
        }
    }
    Ok(())
}

/// Runs each cache once on each load, one after another, so that other work of the machine affects
/// all of them. Returns the results in their order.
fn round<R: Wait + Clock + Threads + Copy + Send + Sync>(
    rt: &R,
    alloc: Global,
    loads: &[Load],
    caches: &[Named],
) -> io::Result<Vec<Outcome>> {
    let mut round = Vec::new(alloc);
    for load in loads {
        let keys = load.keys(alloc)?;
        for (which, hashing, threads, _) in caches {
            round.push(measure_load(rt, alloc, *which, *hashing, *threads, load, &keys)?)?;
        }
    }
    Ok(round)
}

/// Prints the medians at a place of each round: the time as a multiple of that at the first place,
/// and the time of a call. Also prints how many of a thousand calls found their key.
fn print_row(
    rt: &impl io::Print,
    alloc: Global,
    load: &Load,
    rounds: &[Vec<Outcome>],
    place: usize,
) -> io::Result<()> {
    let (mut times, mut ratios, mut hits) = (Vec::new(alloc), Vec::new(alloc), 0_u64);
    for round in rounds {
        if let (Some(own), Some(first)) = (round.get(place), round.first()) {
            times.push(own.nanos)?;
            ratios.push(share(own.nanos, 100, first.nanos))?;
            hits = own.hits;
        }
    }
    let calls = u64::from(load.calls);
    let (time, ratio, hits) = (median(times), median(ratios), share(hits, 1_000, calls));
    println!(rt;
        " {}.{:02} | {} | {}.{:03} |",
        ratio / 100,
        ratio % 100,
        share(time, 1, calls),
        hits / 1_000,
        hits % 1_000
    )
}

/// Returns `number` times `parts` divided by `by`, or 0 if `by` is 0.
fn share(number: u64, parts: u64, by: u64) -> u64 {
    number.wrapping_mul(parts).checked_div(by).unwrap_or(0)
}

/// Returns the number in the middle of the sorted list.
fn median(mut numbers: Vec<u64>) -> u64 {
    numbers.sort_unstable();
    numbers.get(numbers.len() / 2).copied().unwrap_or(0)
}

/// Runs one load on one cache, with so many calls that are measured after as many that are not.
/// Prints the names of both, the nanoseconds of the measured calls, how many found their key, and
/// the most memory that the process used, in KiB. A number past the last cache stands for no cache.
fn print_one<R: Runtime + Wait + Threads + Copy + Send + Sync>(
    rt: &R,
    alloc: Global,
    cache: usize,
    load: usize,
    calls: u32,
) -> io::Result<()> {
    let (which, hashing, threads, name) = match CACHES.get(cache) {
        Some(named) => *named,
        None => (Which::Nothing, Hashing::Fold, 0, "no cache"),
    };
    let Some(load) = numbered(load) else {
        return print_usage(rt);
    };
    let load = Load { calls, ..load };
    let keys = load.keys(alloc)?;
    let outcome = measure_load(rt, alloc, which, hashing, threads, &load, keys.as_slice())?;
    let status = fs::read_to_string(rt, "/proc/self/status")?;
    let peak = peak_of(status.as_str()).unwrap_or("unknown");
    println!(rt;
        "{name}\t{}\t{}\t{}\t{peak}",
        load.name, outcome.nanos, outcome.hits
    )
}

/// Times each call of a load on a cache with LRU. Prints the names of both, and then the median, the
/// 99th of a hundred and the slowest, in nanoseconds.
fn print_tails<R: Runtime + Wait + Copy>(
    rt: &R,
    alloc: Global,
    cache: usize,
    load: usize,
    calls: u32,
) -> io::Result<()> {
    let (Some((Which::Lru, hashing, _, name)), Some(load)) = (CACHES.get(cache), numbered(load))
    else {
        return print_usage(rt);
    };
    let load = Load { calls, ..load };
    let keys = load.keys(alloc)?;
    let nanos = time_each(rt, alloc, *hashing, &load, keys.as_slice())?;
    let places = [
        nanos.len() / 2,
        (nanos.len() / 100).wrapping_mul(99),
        nanos.len().wrapping_sub(1),
    ];
    print!(rt; "{name}\t{}", load.name)?;
    for place in places {
        print!(rt; "\t{}", nanos.get(place).copied().unwrap_or(0))?;
    }
    println!(rt; "")
}

/// Returns the number in the line of the peak, as the system writes it for a process.
fn peak_of(status: &str) -> Option<&str> {
    let (_, behind) = status.split_once("VmHWM:")?;
    let (kib, _) = behind.split_once("kB")?;
    Some(kib.trim())
}
