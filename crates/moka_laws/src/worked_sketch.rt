//! Worked cases of the frequency sketch. The prover computes each.
ghost use Rattle.std.specs.Prelude.{◌≡◌, [], ◌∷◌, ◌++◌, length, replicate};
ghost use Rattle.moka_policy.specs.Frequency.{counter_count};
ghost use Rattle.moka_sketch.specs.Sketch.{place, none_noted, estimate_after};

/// A sketch of one counter in each row counts every note, and is halved with each tenth one.
///
/// So 10 becomes 5, 15 becomes 7, and 15 (a counter's maximum) becomes 7 again.
pub fn a_sketch_of_four_counters()
    ensures counters { length (none_noted 0).counters ≡ 4 }
    ensures after_9 { estimate_after 0 (replicate 9 3) 3 ≡ 9 }
    ensures after_10 { estimate_after 0 (replicate 10 3) 3 ≡ 5 }
    ensures after_19 { estimate_after 0 (replicate 19 3) 3 ≡ 14 }
    ensures after_20 { estimate_after 0 (replicate 20 3) 3 ≡ 7 }
    ensures after_29 { estimate_after 0 (replicate 29 3) 3 ≡ 15 }
    ensures after_30 { estimate_after 0 (replicate 30 3) 3 ≡ 7 }
    ensures any_hash { estimate_after 0 (3 ∷ 4 ∷ 3 ∷ []) 5 ≡ 3 }
{}

/// A sketch of 2 bits has four counters in each row. Its rows use two bits of a hash each, from bit
/// 0, 14, 28 and 42 on.
///
/// So 1 and 16,385 share three counters and have separate estimates, while 1 and 5 share all four.
pub fn a_sketch_of_two_bits()
    ensures counters { length (none_noted 2).counters ≡ 16 }
    ensures first_row { place 2 0 7 ≡ 3 }
    ensures second_row { place 2 1 49_152 ≡ 7 }
    ensures third_row { place 2 2 268_435_456 ≡ 9 }
    ensures fourth_row { place 2 3 8_796_093_022_208 ≡ 14 }
    ensures all_shared { estimate_after 2 (1 ∷ 5 ∷ 1 ∷ []) 9 ≡ 3 }
    ensures three_shared { estimate_after 2 (1 ∷ 1 ∷ 1 ∷ 16_385 ∷ []) 16_385 ≡ 1 }
    ensures other_kept { estimate_after 2 (1 ∷ 1 ∷ 1 ∷ 16_385 ∷ []) 1 ≡ 3 }
    ensures never_noted { estimate_after 2 (1 ∷ 1 ∷ 1 ∷ 16_385 ∷ []) 2 ≡ 0 }
    ensures before_the_halving { estimate_after 2 (replicate 30 1 ++ replicate 9 2) 1 ≡ 15 }
    ensures other_before { estimate_after 2 (replicate 30 1 ++ replicate 9 2) 2 ≡ 9 }
    ensures halved { estimate_after 2 (replicate 30 1 ++ replicate 10 2) 1 ≡ 7 }
    ensures other_halved { estimate_after 2 (replicate 30 1 ++ replicate 10 2) 2 ≡ 5 }
{}

/// If four other hashes share one counter each with a hash, that hash counts as noted although it
/// was not.
pub fn a_sketch_that_is_too_high()
    ensures too_high { estimate_after 2 (1 ∷ 16_384 ∷ 268_435_456 ∷ 4_398_046_511_104 ∷ [])
        4_398_314_962_945 ≡ 1 }
    ensures once_each { estimate_after 2 (1 ∷ 16_384 ∷ 268_435_456 ∷ 4_398_046_511_104 ∷ []) 1 ≡ 1 }
{}

/// A sketch of more than 20 bits still has 2^20 counters in each row.
pub fn a_sketch_of_many_bits()
    ensures counters { counter_count 64 ≡ 1_048_576 }
    ensures last { place 64 3 18_446_744_073_709_551_615 ≡ 4_194_303 }
{}
