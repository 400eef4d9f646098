//! Worked cases of replies. The prover computes each.
ghost use Rattle.std.specs.Prelude.{◌≡◌, nat_eq, Some, None, [], ◌∷◌};
ghost use Rattle.moka_model.specs.declared.notification.RemovalCause.TheVariants.{Expired};
ghost use Rattle.moka_laws.specs.Worked.{ten_to_live, replies, is_done, found, counted, notice_of, noticed};
ghost use Rattle.moka_laws.specs.WorkedAdmission.{weighed};
ghost use Rattle.moka_reply_laws.specs.WorkedReplies.{removed_early, got_early, one_waits, four_gigabytes, too_heavy};

/// A call at an earlier moment than the latest one is as of the latest.
///
/// With a TTL of 10 s a value expired at that moment. A `get` or a `remove` whose own moment is
/// earlier finds nothing, and the `remove` removes the value as `Expired`.
pub fn a_removal_at_an_earlier_moment()
    ensures remove { replies nat_eq ten_to_live removed_early []
        ≡ is_done ∷ is_done ∷ found None ∷ notice_of 1 10 Expired ∷ found (Some 20) ∷ [] }
    ensures get { replies nat_eq ten_to_live got_early []
        ≡ is_done ∷ is_done ∷ found None ∷ found (Some 20) ∷ noticed None ∷ [] }
{}

/// A pending entry is counted, and weighs, as a resident one.
///
/// Values weigh themselves. One of 10 is resident, and then one of 20 is pending. A removal takes
/// the weight away at once.
pub fn counts_while_one_is_pending()
    ensures { replies nat_eq weighed one_waits []
        ≡ is_done ∷ is_done ∷ counted 1 ∷ counted 10 ∷ is_done ∷ counted 2 ∷ counted 30
        ∷ is_done ∷ counted 1 ∷ counted 20 ∷ [] }
{}

/// A total weight above 2³² is exact. One above the greatest `u64` is returned as that.
pub fn great_weights()
    ensures exact { replies nat_eq weighed four_gigabytes []
        ≡ is_done ∷ is_done ∷ counted 4_294_967_297 ∷ [] }
    ensures greatest { replies nat_eq weighed too_heavy []
        ≡ is_done ∷ counted 18_446_744_073_709_551_615 ∷ is_done
        ∷ counted 18_446_744_073_709_551_615 ∷ [] }
{}
