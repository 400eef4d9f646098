//! Laws about the access order of the resident entries and the arrival order of the pending ones.
ghost use Rattle.std.specs.Prelude.{nat_eq, ◌≡◌, ◌<◌, List, [], ◌∷◌};
ghost use Rattle.moka_model.specs.Maintenance.{Queues};
ghost use Rattle.moka_model.specs.Lives.{Settings, Write};
ghost use Rattle.moka_model.specs.Events.{Event};
ghost use Rattle.moka_model.specs.Orders.{written_in, removed_in, orders};
ghost use Rattle.moka_model.specs.OrderLaws.{keys, HasOneEach, lasts, openings};
ghost use Rattle.moka_laws.specs.Worked.{without_lives, five_to_idle, seconds};
ghost use Rattle.moka_laws.specs.WorkedOrder.{three_come, first_again, second_hit, first_removed, first_anew, three_admitted};
ghost use Rattle.moka_laws.specs.Each.{AfterEvents};
ghost use Rattle.moka_laws.specs.PlaceLaws.{HoldsWhatStands, EachHeldStands, IsInOneOrder, WaitsByArrival, OlderWaitsFirst, StaysByUse};
ghost use Rattle.moka_laws.specs.PlaceLaws.{EachResidentWasUsed, LaterUsedBehind, InQueues, LookKeepsPending, OverwriteKeepsPending};
ghost use Rattle.moka_laws.specs.PlaceLaws.{RemovalTakesItsKey, NewKeyIsAppended, PendingIsHitInPlace, PendingIsOverwrittenInPlace};
ghost use Rattle.moka_laws.specs.PlaceLaws.{PendingIsTakenOut, ResidentIsHit, ResidentIsOverwritten, NoHitMovesNone, ResidentIsTakenOut};
ghost use Rattle.moka_laws.specs.PlaceLaws.{HidingKeepsKeys};
ghost use Rattle.moka_laws.specs.PlaceLaws.{looked_up, NoRemovalTakesNone};

/// The two orders hold exactly what is stored: the entry of a key is in one of them, once, and
/// nothing else is in either.
pub fn the_queues_hold_what_stands<K: Eq, V>()
    ensures held { AfterEvents K V (HoldsWhatStands K.eq) }
    ensures one_each { (settings : Settings K V) (h : List (Event K V))
        → HasOneEach K.eq (orders K.eq settings h) }
    ensures each_stands { AfterEvents K V (EachHeldStands K.eq) }
    ensures in_one_order { AfterEvents K V (IsInOneOrder K.eq) }
{}

/// A pending key keeps its place until it is removed. This holds for any two queues.
///
/// - Lookups, invalidations by a test and overwrites leave the pending keys in their order.
/// - A removal takes out only its own key.
/// - A write of a new key appends it.
pub fn a_hit_leaves_the_waiting_order_alone<K: Eq, V>()
    ensures look { InQueues K V (LookKeepsPending K.eq) }
    ensures overwrite { InQueues K V (OverwriteKeepsPending K.eq) }
    ensures removal { InQueues K V (RemovalTakesItsKey K.eq) }
    ensures opening { InQueues K V (NewKeyIsAppended K.eq) }
    ensures hit_in_place { InQueues K V (PendingIsHitInPlace K.eq) }
    ensures overwrite_in_place { InQueues K V (PendingIsOverwrittenInPlace K.eq) }
    ensures hiding { (q : Queues (Write K V)) → HidingKeepsKeys q }
    ensures removal_alone { InQueues K V (PendingIsTakenOut K.eq) }
{}

/// An access moves a resident key to the end of the access order. This holds for any two queues.
///
/// - A lookup that hits, and an overwrite, take the key's entry from its place and append it.
/// - A lookup that hits nothing changes neither order, nor does a removal of a key without an
///   entry.
pub fn a_use_moves_an_admitted_key_behind_all_others<K: Eq, V>()
    ensures hit { InQueues K V (ResidentIsHit K.eq) }
    ensures overwrite { InQueues K V (ResidentIsOverwritten K.eq) }
    ensures no_hit { InQueues K V (NoHitMovesNone K.eq) }
    ensures removal { InQueues K V (ResidentIsTakenOut K.eq) }
    ensures no_removal { InQueues K V (NoRemovalTakesNone K.eq) }
{}

/// Pending entries are in arrival order.
///
/// The pending keys are those of the writes that created an entry, each at the last such write, if
/// the key is still pending. Of two pending keys, the one that was created earlier comes first.
pub fn waiting_is_the_order_of_arrival<K: Eq, V>()
    ensures in_order { AfterEvents K V (WaitsByArrival K.eq) }
    ensures older_first { AfterEvents K V (OlderWaitsFirst K.eq) }
{}

/// Resident entries are in access order.
///
/// The resident keys are the accessed ones, each at the place of its last access, if the key is
/// resident. So each has a last access, and of two, the one accessed earlier comes first.
pub fn admitted_is_the_order_of_use<K: Eq, V>()
    ensures in_order { AfterEvents K V (StaysByUse K.eq) }
    ensures used { AfterEvents K V (EachResidentWasUsed K.eq) }
    ensures later_used_behind { AfterEvents K V (LaterUsedBehind K.eq) }
{}

/// Three keys arrive and are pending in that order. An overwrite and a hit keep it. A removal takes
/// out its key, which comes last when it is written anew.
pub fn waiting_keys()
    ensures come { keys (orders nat_eq without_lives three_come).waiting ≡ 1 ∷ 2 ∷ 3 ∷ [] }
    ensures overwritten { keys (orders nat_eq without_lives first_again).waiting ≡ 1 ∷ 2 ∷ 3 ∷ [] }
    ensures hit { keys (orders nat_eq without_lives second_hit).waiting ≡ 1 ∷ 2 ∷ 3 ∷ [] }
    ensures removed { keys (orders nat_eq without_lives first_removed).waiting ≡ 2 ∷ 3 ∷ [] }
    ensures anew { keys (orders nat_eq without_lives first_anew).waiting ≡ 2 ∷ 3 ∷ 1 ∷ [] }
    ensures openings { openings nat_eq without_lives first_anew ≡ 1 ∷ 2 ∷ 3 ∷ 1 ∷ [] }
    ensures lasts { lasts nat_eq (1 ∷ 2 ∷ 3 ∷ 1 ∷ []) ≡ 2 ∷ 3 ∷ 1 ∷ [] }
{}

/// Three keys are resident. A hit and an overwrite move their key to the end. A lookup of an
/// expired entry or of an absent key moves nothing, nor does a hit on a pending key.
pub fn admitted_keys()
    ensures hit { keys (looked_up nat_eq without_lives three_admitted 1 4).admitted
        ≡ 2 ∷ 3 ∷ 1 ∷ [] }
    ensures expired { looked_up nat_eq five_to_idle three_admitted 1 (seconds 5) ≡ three_admitted }
    ensures missing { looked_up nat_eq without_lives three_admitted 5 4 ≡ three_admitted }
    ensures waiting { keys (looked_up nat_eq without_lives three_admitted 4 4).admitted
        ≡ 1 ∷ 2 ∷ 3 ∷ [] }
    ensures overwritten { keys (written_in nat_eq without_lives 2 21 4 three_admitted).admitted
        ≡ 1 ∷ 3 ∷ 2 ∷ [] }
    ensures removed { keys (removed_in nat_eq without_lives 2 three_admitted).admitted
        ≡ 1 ∷ 3 ∷ [] }
    ensures anew { keys (written_in nat_eq without_lives 5 50 4 three_admitted).waiting
        ≡ 4 ∷ 5 ∷ [] }
{}
