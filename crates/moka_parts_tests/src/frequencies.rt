//! Sources of frequencies.

use moka_policy::policy::{CountTable, FrequencySource};
use moka_presets::frequency::NoFrequency;
use moka_sketch::frequency_sketch::FrequencySketch;
use std::alloc::Global;
use std::process::Abort;
use std::test::Fail;

/// Notes of hashes, each so many times, and what hashes are estimated at then.
type Case = (&'static [(u64, u64)], &'static [(u64, u8)]);

/// An estimate by one counter. It counts up to 15 and is halved at every tenth note.
const ONE: [Case; 6] = [
    (&[(3, 9)], &[(3, 9), (5, 9)]),
    (&[(3, 10)], &[(3, 5), (5, 5)]),
    (&[(3, 19)], &[(3, 14), (5, 14)]),
    (&[(3, 20)], &[(3, 7), (5, 7)]),
    (&[(3, 29)], &[(3, 15), (5, 15)]),
    (&[(3, 30)], &[(3, 7), (5, 7)]),
];

/// Hashes share one of 64 counters by their lowest bits.
const SIX_BITS: [Case; 1] = [(&[(5, 1), (69, 1), (133, 1)], &[(197, 3), (6, 0)])];

/// A sketch of four rows of four counters estimates by the least of four. Hashes that share all four;
/// that share three; four of which each shares another one with the first that is estimated. The
/// fortieth note halves all counters.
const SKETCHED: [Case; 6] = [
    (&[], &[(0, 0), (u64::MAX, 0)]),
    (&[(1, 2), (5, 1)], &[(9, 3), (2, 0)]),
    (&[(1, 3), (16_385, 1)], &[(16_385, 1), (1, 3), (2, 0)]),
    (
        &[(1, 1), (1 << 14, 1), (1 << 28, 1), (1 << 42, 1)],
        &[(4_398_314_962_945, 1), (1, 1)],
    ),
    (&[(1, 30), (2, 9)], &[(1, 15), (2, 9)]),
    (&[(1, 30), (2, 10)], &[(1, 7), (2, 5)]),
];

/// No note changes an estimate.
const NOTHING: [Case; 1] = [(
    &[(0, 1), (1, 2), (u64::MAX, 1)],
    &[(0, 0), (1, 0), (u64::MAX, 0)],
)];

/// Two notes of a hash and one of the same lowest bits, 0, 1, 12, 19 or 20. Then the estimate of a third
/// hash of these bits, and that of a hash which differs in the highest of them.
const BY_BITS: [[Case; 1]; 5] = [
    [(&[(5, 2), (6, 1)], &[(7, 3), (5, 3)])],
    [(&[(5, 2), (7, 1)], &[(9, 3), (4, 0)])],
    [(&[(5, 2), (4_101, 1)], &[(8_197, 3), (2_053, 0)])],
    [(&[(5, 2), (524_293, 1)], &[(1_048_581, 3), (262_149, 0)])],
    [(&[(5, 2), (1_048_581, 1)], &[(2_097_157, 3), (524_293, 0)])],
];

fn estimates<F: FrequencySource>(
    rt: &impl Abort,
    alloc: Global,
    cases: &[Case],
) -> Result<(), Fail> {
    for (notes, expected) in cases {
        let mut source: F = F::opening(alloc)?;
        for (hash, times) in *notes {
            for _ in 0..*times {
                source.note(*hash);
            }
        }
        for (hash, count) in *expected {
            assert_eq!(rt;
                source.estimate(*hash),
                *count,
                "hash {hash} after {notes:?}"
            );
        }
    }
    Ok(())
}

/// Each source estimates as its table says.
#[test]
fn each_source_estimates_notes(rt: HostRuntime) -> Result<(), Fail> {
    estimates::<CountTable<0>>(&rt, rt.alloc(), &ONE)?;
    estimates::<FrequencySketch<0>>(&rt, rt.alloc(), &ONE)?;
    estimates::<CountTable<6>>(&rt, rt.alloc(), &SIX_BITS)?;
    estimates::<FrequencySketch<2>>(&rt, rt.alloc(), &SKETCHED)?;
    estimates::<NoFrequency>(&rt, rt.alloc(), &NOTHING)
}

/// A table of any number of bits is made, and counts by as many of the lowest bits, 20 at most.
#[test]
fn a_table_of_any_size_counts_by_the_lowest_bits(rt: HostRuntime) -> Result<(), Fail> {
    let [no_bit, one, twelve, nineteen, twenty] = BY_BITS;
    estimates::<CountTable<0>>(&rt, rt.alloc(), &no_bit)?;
    estimates::<CountTable<1>>(&rt, rt.alloc(), &one)?;
    estimates::<CountTable<12>>(&rt, rt.alloc(), &twelve)?;
    estimates::<CountTable<19>>(&rt, rt.alloc(), &nineteen)?;
    estimates::<CountTable<20>>(&rt, rt.alloc(), &twenty)?;
    estimates::<CountTable<21>>(&rt, rt.alloc(), &twenty)?;
    estimates::<CountTable<24>>(&rt, rt.alloc(), &twenty)
}
