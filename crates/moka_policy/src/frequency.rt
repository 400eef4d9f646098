//! Frequency sources, which estimate how often hashes were noted, and a table of counters as one.
ghost use Rattle.std.specs.Prelude.{◌≡◌, ℕ, ◌/◌, ◌%◌, ◌^◌, ◌<◌, map, IfOk, IfErr};
ghost use Rattle.moka_policy.specs.declared.policy.Refused.{Refused};
ghost use Rattle.moka_policy.specs.Frequency.{Counts, IsTable, counter_of, none_noted, noted, estimated};

use crate::policy::Refused;
use std::alloc::Global;
use std::marker::Model;

/// Estimates how often each hash was noted. A cache notes the key's hash at each recorded lookup.
pub trait FrequencySource: Drop + Sized {
    /// The source that has noted nothing.
    ghost opened: { Self };

    /// The source after one more note of a hash.
    ghost noted: { Self → ℕ → Self };

    /// The estimate for a hash.
    ghost count: { Self → ℕ → ℕ };

    /// Creates a source that has noted nothing. Allocates all memory that the source needs.
    ///
    /// # Errors
    ///
    /// - `OutOfMemory`: an allocation failed.
    fn opening(alloc: Global) -> Result<Self, Refused>
        ensures opened { IfOk result (λ source. source ≡ opened) }
        ensures cause { IfErr result (λ cause. cause ≡ Refused.OutOfMemory) };

    /// Notes a hash. Cannot fail.
    fn note(&mut self, hash: u64)
        ensures { self.new ≡ noted self.old hash };

    /// Returns this source's estimate of how often the hash was noted. Does not note it.
    fn estimate(&self, hash: u64) -> u8
        ensures { result ≡ count self.now hash };
}

/// The greatest value of a counter.
const GREATEST_COUNT: u8 = 15;

/// The number of notes per counter after which all counters are halved.
const NOTES_FOR_A_COUNTER: usize = 10;

/// The greatest number of bits of a hash that are used.
const GREATEST_BITS: u32 = 20;

/// A frequency source of `2^min(BITS, 20)` counters from 0 to 15, all 0 at first.
///
/// The lowest `min(BITS, 20)` bits of a hash choose its counter. A note adds 1 to it, up to 15.
/// Every ten notes per counter halve all counters, rounded down. The note itself is counted before
/// that.
///
/// `opening` allocates one byte for each counter. `note` and `estimate` do not allocate.
///
/// # Complexity
///
/// `note` and `estimate` take constant time. A note that halves visits all counters.
#[derive(Debug, Drop)]
pub struct CountTable<const BITS: u32> {
    counters: Vec<u8>,
    notes: usize,
}

impl<const BITS: u32> Model for CountTable<BITS> {
    ghost Value = { Counts };

    ghost view = { λ table. record { counters = table.counters.items; notes = table.notes } };

    ghost invariant = { λ table. IsTable BITS
        (record { counters = table.counters.items; notes = table.notes }) };
}

impl<const BITS: u32> FrequencySource for CountTable<BITS> {
    ghost opened = { none_noted BITS };

    ghost noted = { noted BITS };

    ghost count = { estimated BITS };

    fn opening(alloc: Global) -> Result<Self, Refused> {
        let Ok(counters) = vec![in alloc; 0; 1 << BITS.min(GREATEST_BITS)] else {
            return Err(Refused::OutOfMemory);
        };
        Ok(CountTable { counters, notes: 0 })
    }

    #[inline(always)]
    fn note(&mut self, hash: u64) {
        let place = place_of(hash, self.counters.len());
        self.counters[place] = (self.counters[place] + 1).min(GREATEST_COUNT);
        self.notes += 1;
        if self.notes == NOTES_FOR_A_COUNTER * self.counters.len() {
            halve(&mut self.counters);
            self.notes = 0;
        }
    }

    #[inline(always)]
    fn estimate(&self, hash: u64) -> u8 {
        self.counters[place_of(hash, self.counters.len())]
    }
}

/// Returns the index of a hash's counter: the hash's lowest bits. `counters` is a power of two.
#[inline(always)]
fn place_of(hash: u64, counters: usize) -> usize
    requires { (bits : ℕ) × (counters ≡ 2 ^ bits) }
    ensures place { result ≡ hash % counters }
    ensures within { result < counters }
{
    (hash & (counters as u64 - 1)) as usize
}

/// Halves each counter, rounded down.
fn halve(counters: &mut [u8])
    ensures { counters.new ≡ map (λ count. count / 2) counters.old }
{
    for counter in counters.iter_mut() {
        *counter /= 2;
    }
}
