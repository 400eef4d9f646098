//! Worked cases of the table of counters. The prover computes each.
ghost use Rattle.std.specs.Prelude.{◌≡◌, ℕ, ◌%◌, [], ◌∷◌, ◌++◌, replicate};
ghost use Rattle.moka_policy.specs.Frequency.{Counts, counter_count, counter_of, estimated, estimate_after};

/// A table of one counter counts every note.
///
/// It is halved with the 10th, 20th and 30th note, after that is counted. So 10 becomes 5, 15
/// becomes 7, and 15 (a counter's maximum) becomes 7 again.
pub fn a_table_of_one_counter()
    ensures after_9 { estimate_after 0 (replicate 9 3) 3 ≡ 9 }
    ensures after_10 { estimate_after 0 (replicate 10 3) 3 ≡ 5 }
    ensures after_19 { estimate_after 0 (replicate 19 3) 3 ≡ 14 }
    ensures after_20 { estimate_after 0 (replicate 20 3) 3 ≡ 7 }
    ensures after_29 { estimate_after 0 (replicate 29 3) 3 ≡ 15 }
    ensures after_30 { estimate_after 0 (replicate 30 3) 3 ≡ 7 }
    ensures any_hash { estimate_after 0 (3 ∷ 4 ∷ 3 ∷ []) 5 ≡ 3 }
{}

/// A table of 6 bits has 64 counters. Hashes with the same lowest 6 bits share a counter, others do
/// not. All are halved with the 640th note, and not before.
pub fn a_table_of_six_bits()
    ensures counters { counter_count 6 ≡ 64 }
    ensures shared { (counts : Counts) (a b : ℕ) → a % 64 ≡ b % 64
        → estimated 6 counts a ≡ estimated 6 counts b }
    ensures low_bits { estimate_after 6 (5 ∷ 69 ∷ 133 ∷ []) 197 ≡ 3 }
    ensures apart { estimate_after 6 (5 ∷ 69 ∷ 133 ∷ []) 6 ≡ 0 }
    ensures before_the_halving { estimate_after 6 (replicate 9 6 ++ replicate 630 5) 5 ≡ 15 }
    ensures other_before { estimate_after 6 (replicate 9 6 ++ replicate 630 5) 6 ≡ 9 }
    ensures halved { estimate_after 6 (replicate 9 6 ++ replicate 631 5) 5 ≡ 7 }
    ensures other_halved { estimate_after 6 (replicate 9 6 ++ replicate 631 5) 6 ≡ 4 }
    ensures each_its_own { estimate_after 6 (5 ∷ 6 ∷ 5 ∷ []) 6 ≡ 1 }
{}

/// A table of more than 20 bits still has 2^20 counters.
pub fn a_table_of_many_bits()
    ensures counters { counter_count 64 ≡ 1_048_576 }
    ensures lowest { counter_of 64 1_048_577 ≡ 1 }
{}
