//! A sketch of four rows of counters. A hash has one counter in each row, and its estimate is the
//! least of the four.
ghost use Rattle.std.specs.Prelude.{◌≡◌, ◌*◌, ◌/◌, ◌<◌, length, map};
ghost use Rattle.moka_policy.specs.Frequency.{Counts, counter_count};
ghost use Rattle.moka_sketch.specs.Sketch.{IsSketch, place, counted_at, counted_in_each_row, none_noted, noted, estimated};

use moka_policy::policy::{FrequencySource, Refused};
use std::alloc::Global;
use std::marker::Model;

/// The greatest value of a counter.
const GREATEST_COUNT: u8 = 15;

/// The number of notes per counter of a row after which all counters are halved.
const NOTES_FOR_A_COUNTER: usize = 10;

/// The greatest number of bits of a hash that choose its counter in a row.
const GREATEST_BITS: u32 = 20;

/// How many bits apart in a hash the bits for one row and for the next begin.
const BITS_APART: u32 = 14;

/// A frequency source of four rows of `2^min(BITS, 20)` counters from 0 to 15, all 0 at first.
///
/// A hash uses one counter in each row. `min(BITS, 20)` bits of the hash choose it: those from bit
/// 0, 14, 28 and 42 on. A note adds 1 to all four, up to 15. Every ten notes per counter of a row
/// halve all counters, rounded down. The note itself is counted before that.
///
/// The estimate is the least of the four counters. It is at least the number of the hash's notes
/// since the last halving, up to 15. Other hashes raise it only if they use all four counters too.
///
/// A sketch admits best if a row has about twice as many counters as the cache has keys. `opening`
/// allocates one byte for each counter. `note` and `estimate` do not allocate.
///
/// # Complexity
///
/// `note` and `estimate` take constant time. A note that halves visits all counters.
#[derive(Debug, Drop)]
pub struct FrequencySketch<const BITS: u32> {
    counters: Vec<u8>,
    notes: usize,
}

impl<const BITS: u32> Model for FrequencySketch<BITS> {
    ghost Value = { Counts };

    ghost view = { λ sketch. record { counters = sketch.counters.items; notes = sketch.notes } };

    ghost invariant = { λ sketch. IsSketch BITS
        (record { counters = sketch.counters.items; notes = sketch.notes }) };
}

impl<const BITS: u32> FrequencySource for FrequencySketch<BITS> {
    ghost opened = { none_noted BITS };

    ghost noted = { noted BITS };

    ghost count = { estimated BITS };

    fn opening(alloc: Global) -> Result<Self, Refused> {
        let Ok(counters) = vec![in alloc; 0; 4 << BITS.min(GREATEST_BITS)] else {
            return Err(Refused::OutOfMemory);
        };
        Ok(FrequencySketch { counters, notes: 0 })
    }

    fn note(&mut self, hash: u64) {
        count_in_each_row(&mut self.counters, BITS, hash);
        self.notes += 1;
        if self.notes == NOTES_FOR_A_COUNTER << BITS.min(GREATEST_BITS) {
            halve(&mut self.counters);
            self.notes = 0;
        }
    }

    fn estimate(&self, hash: u64) -> u8 {
        let first = self.counters[place_of(BITS, 0, hash)].min(
            self.counters[place_of(BITS, 1, hash)],
        );
        let second = self.counters[place_of(BITS, 2, hash)].min(
            self.counters[place_of(BITS, 3, hash)],
        );
        first.min(second)
    }
}

/// Returns the index of a hash's counter in a row, among the counters of all rows.
fn place_of(bits: u32, row: u32, hash: u64) -> usize
    requires { row < 4 }
    ensures place { result ≡ place bits row hash }
    ensures within { result < 4 * counter_count bits }
{
    let bits = bits.min(GREATEST_BITS);
    let in_row = (hash >> (BITS_APART * row)) & ((1 << bits) - 1);
    ((row as usize) << bits) + in_row as usize
}

/// Adds 1 to each of the four counters of a hash, up to 15.
fn count_in_each_row(counters: &mut [u8], bits: u32, hash: u64)
    requires { length counters.old ≡ 4 * counter_count bits }
    ensures { counters.new ≡ counted_in_each_row bits counters.old hash }
{
    count_at(counters, place_of(bits, 0, hash));
    count_at(counters, place_of(bits, 1, hash));
    count_at(counters, place_of(bits, 2, hash));
    count_at(counters, place_of(bits, 3, hash));
}

/// Adds 1 to a counter, up to 15.
fn count_at(counters: &mut [u8], place: usize)
    requires { place < length counters.old }
    ensures { counters.new ≡ counted_at counters.old place }
{
    counters[place] = counters[place].saturating_add(1).min(GREATEST_COUNT);
}

/// Halves each counter, rounded down.
fn halve(counters: &mut [u8])
    ensures { counters.new ≡ map (λ count. count / 2) counters.old }
{
    for counter in counters.iter_mut() {
        *counter /= 2;
    }
}
