//! Laws about the frequency sketch, for every list of notes.
//!
//! Each is the contract of a function without code.
ghost use Rattle.std.specs.Prelude.{◌≡◌, ℕ, ◌<◌, ◌≤◌, List, [], reverse};
ghost use Rattle.moka_policy.specs.Frequency.{after_notes};
ghost use Rattle.moka_sketch.specs.Sketch.{least, estimate_after, count_after};
ghost use Rattle.moka_laws.specs.SketchLaws.{SharedEstimatesAlike, NoteRaises, NoteLowersNone, NoteIsHalved, HalvesEstimates, IsNotTooLow};
ghost use Rattle.moka_laws.specs.SketchLaws.{TakesTheLeast, IsExactAlone};

use moka_policy::frequency::FrequencySource;
use moka_sketch::frequency_sketch::FrequencySketch;

/// A sketch estimates for a hash the least of what its four counters keep of all notes.
///
/// A counter keeps one for each note that uses it, up to 15. It is halved with every 10 notes for
/// each counter of a row. An estimate is at most 15, and 0 before the first note. Hashes that share
/// all four counters have the same estimate.
pub fn a_sketch_takes_the_least_of_four<const BITS: u32>()
    ensures kept { (notes : List ℕ) (hash : ℕ)
        → ⟦<FrequencySketch<BITS> as FrequencySource>⟧.count
        (after_notes ⟦<FrequencySketch<BITS> as FrequencySource>⟧.opened
        ⟦<FrequencySketch<BITS> as FrequencySource>⟧.noted (reverse notes)) hash
        ≡ least (count_after BITS hash notes) }
    ensures at_most_15 { (notes : List ℕ) (hash : ℕ) → estimate_after BITS notes hash ≤ 15 }
    ensures nothing { (hash : ℕ) → estimate_after BITS [] hash ≡ 0 }
    ensures shared { SharedEstimatesAlike BITS }
{}

/// A note raises the estimate of its hash by 1, up to 15, and lowers none.
///
/// With every 10 notes for each counter of a row the estimates are halved, rounded down, after that
/// note is counted.
pub fn a_note_raises_an_estimate<const BITS: u32>()
    ensures raised { NoteRaises BITS }
    ensures not_lowered { NoteLowersNone BITS }
    ensures raised_and_halved { NoteIsHalved BITS }
    ensures halved { HalvesEstimates BITS }
{}

/// An estimate is never too low for the notes since the last halving.
///
/// It is at least how often its hash was noted since, up to 15. Before the first halving it is the
/// least, over the four rows, of how many notes used the hash's counter, up to 15. So it is exact
/// if only one hash is noted.
pub fn no_estimate_is_too_low<const BITS: u32>()
    ensures at_least { IsNotTooLow BITS }
    ensures counted { TakesTheLeast BITS }
    ensures alone { IsExactAlone BITS }
{}
