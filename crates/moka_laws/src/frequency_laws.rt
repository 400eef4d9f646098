//! Laws about frequency sources, and about the table of counters.
//!
//! Each is the contract of a function without code.
ghost use Rattle.std.specs.Prelude.{◌≡◌, ℕ, ◌<◌, ◌≤◌, List, [], reverse};
ghost use Rattle.moka_policy.specs.Frequency.{after_notes, estimate_after, count_after};
ghost use Rattle.moka_laws.specs.FrequencyLaws.{TakesOneMore, TakesInParts, CountsItsNotes, SharedEstimatesAlike};

use moka_policy::frequency::{CountTable, FrequencySource};

/// A source after some notes is the one that took each of them in order.
pub fn notes_come_in_order<F: FrequencySource>()
    ensures none { after_notes F.opened F.noted [] ≡ F.opened }
    ensures one_more { TakesOneMore F.opened F.noted }
    ensures parts { TakesInParts F.opened F.noted }
{}

/// A table of counters estimates for a hash what its counter keeps of all notes.
///
/// A counter keeps one for each note that uses it, up to 15. It is halved with every 10 notes for
/// each counter of the table. Before the first halving it is the number of those notes, up to 15.
pub fn a_table_keeps_its_notes<const BITS: u32>()
    ensures kept { (notes : List ℕ) (hash : ℕ)
        → ⟦<CountTable<BITS> as FrequencySource>⟧.count
        (after_notes ⟦<CountTable<BITS> as FrequencySource>⟧.opened
        ⟦<CountTable<BITS> as FrequencySource>⟧.noted (reverse notes)) hash
        ≡ count_after BITS hash notes }
    ensures counted { CountsItsNotes BITS }
    ensures at_most_15 { (notes : List ℕ) (hash : ℕ) → estimate_after BITS notes hash ≤ 15 }
    ensures shared { SharedEstimatesAlike BITS }
{}
