//! Laws about notices: each written pair that is no longer stored is noticed, exactly once.
ghost use Rattle.std.specs.Prelude.{List};
ghost use Rattle.moka_model.specs.Lives.{Settings};
ghost use Rattle.moka_laws.specs.TicketLaws.{Made, AreMade};
ghost use Rattle.moka_reply_laws.specs.NoticeLaws.{NoticedOnce, StoredIsNotNoticed, UnwrittenIsNotNoticed, ConservedIsNoticedOnce};
ghost use Rattle.moka_reply_laws.specs.NoticeLaws.{ReturnedAndQueued};

/// Each pair of a key and a value is noticed exactly once when it is no longer stored.
///
/// It is stated for each test of pairs that does not distinguish equal keys. The notices are those
/// that calls returned so far, and then the queued ones.
///
/// - If one written pair passes the test and no stored one, exactly one notice passes it (`once`).
/// - If that pair is stored, or none was written, no notice passes it (`stored`, `unwritten`).
/// - The notices are all removals, in order (`in_order`).
pub fn a_pair_that_left_is_noticed_exactly_once<K: Eq, V, E>()
    ensures once { (settings : Settings K V) (made : List (Made K V E)) → AreMade K.eq settings made
        → NoticedOnce K.eq settings made }
    ensures stored { (settings : Settings K V) (made : List (Made K V E))
        → AreMade K.eq settings made → StoredIsNotNoticed K.eq settings made }
    ensures unwritten { (settings : Settings K V) (made : List (Made K V E))
        → AreMade K.eq settings made → UnwrittenIsNotNoticed K.eq settings made }
    ensures in_order { (settings : Settings K V) (made : List (Made K V E))
        → AreMade K.eq settings made → ReturnedAndQueued K.eq settings made }
{}

/// The same follows of a run that is conserved, whatever books it ends with.
pub fn what_is_conserved_is_noticed_exactly_once<K: Eq, V>()
    ensures { (settings : Settings K V) → ConservedIsNoticedOnce K.eq settings }
{}
