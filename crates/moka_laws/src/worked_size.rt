//! Worked cases of a bounded size. The prover computes each, except the maintenance of 64 keys,
//! which follows from the size laws.
ghost use Rattle.std.specs.Prelude.{◌≡◌, true, false, nat_eq, Some, None, [], ◌∷◌};
ghost use Rattle.moka_model.specs.declared.notification.RemovalCause.TheVariants.{Expired, Size};
ghost use Rattle.moka_model.specs.Events.{Looked, Written, Maintained, Passed};
ghost use Rattle.moka_model.specs.Removals.{removals};
ghost use Rattle.moka_model.specs.Numbers.{entry_count, next_number, is_flush_due, stores_nothing};
ghost use Rattle.moka_model.specs.OrderLaws.{lasts, uses};
ghost use Rattle.moka_model.specs.Calls.{write_events};
ghost use Rattle.moka_laws.specs.Worked.{seconds, written, left_as, found, counted};
ghost use Rattle.moka_laws.specs.WorkedSize.{at_capacity, ten_to_live_at_ten, third_comes, three_used, fourth_comes, skipped, all_come};
ghost use Rattle.moka_laws.specs.WorkedSize.{after_65, all_left};
ghost use Rattle.moka_laws.specs.Worked.{get_at, entry_count_of, evictions, resident_keys, pending_keys};

/// At a capacity of 2 a third key evicts the second, since the first was hit.
pub fn a_hit_keeps_a_key()
    ensures leaving { evictions (at_capacity 2) 5 third_comes ≡ left_as 2 20 Size ∷ [] }
    ensures admitted { resident_keys (at_capacity 2) (Maintained None 5 ∷ third_comes)
        ≡ 1 ∷ 3 ∷ [] }
    ensures before { removals nat_eq (at_capacity 2) third_comes ≡ [] }
    ensures found { get_at (at_capacity 2) 1 6 (Maintained None 5 ∷ third_comes) ≡ found (Some 10) }
    ensures gone { get_at (at_capacity 2) 2 6 (Maintained None 5 ∷ third_comes) ≡ found None }
{}

/// Three keys in access order: the third, the first, the second. So a fourth evicts the third.
pub fn three_keys_in_use()
    ensures uses { uses nat_eq (at_capacity 3) three_used
        ≡ 1 ∷ 2 ∷ 1 ∷ 2 ∷ 1 ∷ 2 ∷ 3 ∷ 3 ∷ 3 ∷ 1 ∷ 2 ∷ [] }
    ensures lasts { lasts nat_eq (uses nat_eq (at_capacity 3) three_used) ≡ 3 ∷ 1 ∷ 2 ∷ [] }
    ensures order { resident_keys (at_capacity 3) three_used ≡ 3 ∷ 1 ∷ 2 ∷ [] }
    ensures leaving { evictions (at_capacity 3) 12 fourth_comes ≡ left_as 3 30 Size ∷ [] }
    ensures order_then { resident_keys (at_capacity 3) (Maintained None 12 ∷ fourth_comes)
        ≡ 1 ∷ 2 ∷ 4 ∷ [] }
    ensures found { get_at (at_capacity 3) 4 13 (Maintained None 12 ∷ fourth_comes)
        ≡ found (Some 40) }
    ensures counted { entry_count_of (at_capacity 3) (Maintained None 12 ∷ fourth_comes)
        ≡ counted 3 }
{}

/// A TTL of 10 s at a capacity of 10: a maintenance at the deadline evicts the value as `Expired`,
/// one before it evicts nothing.
pub fn a_dead_value_leaves_as_expired()
    ensures before { evictions ten_to_live_at_ten 9_999_999_999 written ≡ [] }
    ensures at_end { evictions ten_to_live_at_ten (seconds 10) written ≡ left_as 1 7 Expired ∷ [] }
    ensures counted_before { entry_count nat_eq ten_to_live_at_ten (Looked 1 (seconds 10) ∷ written)
        ≡ 1 }
    ensures counted { entry_count nat_eq ten_to_live_at_ten (Maintained None (seconds 10) ∷ written)
        ≡ 0 }
{}

/// At a capacity of 0 an accepted write stores nothing, and draws no sequence number.
pub fn a_capacity_of_0()
    ensures skips { skipped ≡ Passed 0 ∷ [] }
    ensures not_found { get_at (at_capacity 0) 1 0 skipped ≡ found None }
    ensures counted { entry_count_of (at_capacity 0) skipped ≡ counted 0 }
    ensures none_drawn { next_number (at_capacity 0) skipped ≡ 0 }
{}

/// At a capacity of 1 a write is stored, as it is without a capacity, and one key is stored after a
/// maintenance.
pub fn a_capacity_of_1()
    ensures stores { stores_nothing (Some 1) ≡ false }
    ensures unbounded { stores_nothing None ≡ false }
    ensures writes { write_events nat_eq (at_capacity 1) 1 7 0 [] ≡ written }
    ensures found { get_at (at_capacity 1) 1 0 written ≡ found (Some 7) }
    ensures counted { entry_count_of (at_capacity 1) (Maintained None 1 ∷ written) ≡ counted 1 }
    ensures left { evictions (at_capacity 1) 2 (Written 2 8 1 ∷ written) ≡ left_as 1 7 Size ∷ [] }
    ensures stays { resident_keys (at_capacity 1) (Maintained None 2 ∷ Written 2 8 1 ∷ written)
        ≡ 2 ∷ [] }
{}

/// At a capacity of 10, 64 keys are pending. The next write flushes first: the first 54 are evicted
/// for size, in order, ten are admitted, and the new one is pending.
pub fn the_flush_point()
    ensures not_due { is_flush_due nat_eq (at_capacity 10) (all_come 63) ≡ false }
    ensures due { is_flush_due nat_eq (at_capacity 10) (all_come 64) ≡ true }
    ensures two_events { after_65 ≡ Written 65 65 1 ∷ Maintained None 1 ∷ all_come 64 }
    ensures none_left_before { removals nat_eq (at_capacity 10) (all_come 64) ≡ [] }
    ensures left { removals nat_eq (at_capacity 10) after_65 ≡ all_left 54 }
    ensures admitted { resident_keys (at_capacity 10) after_65
        ≡ 55 ∷ 56 ∷ 57 ∷ 58 ∷ 59 ∷ 60 ∷ 61 ∷ 62 ∷ 63 ∷ 64 ∷ [] }
    ensures waiting { pending_keys (at_capacity 10) after_65 ≡ 65 ∷ [] }
    ensures counted { entry_count_of (at_capacity 10) after_65 ≡ counted 11 }
    ensures found { get_at (at_capacity 10) 65 1 after_65 ≡ found (Some 65) }
{}
