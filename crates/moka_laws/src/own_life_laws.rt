//! Laws about the lifetimes of single entries, for every list of events.
ghost use Rattle.std.specs.Prelude.{◌<◌};
ghost use Rattle.moka_model.specs.Lives.{Settings, Write};
ghost use Rattle.moka_laws.specs.Each.{AfterEvents};
ghost use Rattle.moka_laws.specs.OwnLifeLaws.{CreationGives, UpdateGives, AccessGives, OthersKeepIt, StartsByNow, RestIsCounted};
ghost use Rattle.moka_laws.specs.OwnLifeLaws.{HasNoneWithoutExpiry, EndsLater};

/// When the expiry is called to give the lifetime of an entry.
///
/// - It is called only after a write without a live value before it, after a write over a live
///   value, and after a recorded lookup that hits.
/// - Its arguments are the stored key, the stored value and the moment; after an overwrite or a hit
///   also the rest of the old lifetime, and after a hit the moment of the write.
/// - What it returns replaces the old lifetime, and counts from that moment.
/// - All other events keep the entry as it is, except that they may invalidate it.
pub fn the_expiry_is_asked_at_writes_and_hits<K: Eq, V>()
    ensures created { AfterEvents K V (CreationGives K.eq) }
    ensures updated { AfterEvents K V (UpdateGives K.eq) }
    ensures read { AfterEvents K V (AccessGives K.eq) }
    ensures kept { AfterEvents K V (OthersKeepIt K.eq) }
{}

/// An entry's own lifetime starts no later than the latest moment.
///
/// So its rest at that moment or later is its end minus the moment. That is more than 0 while the
/// entry is live.
pub fn what_is_left_of_a_life<K: Eq, V>()
    ensures from { AfterEvents K V (StartsByNow K.eq) }
    ensures left { AfterEvents K V (RestIsCounted K.eq) }
    ensures live { (settings : Settings K V) (w : Write K V) → EndsLater settings w }
{}

/// Without an expiry no entry has a lifetime of its own.
pub fn without_an_expiry_no_value_has_its_own_life<K: Eq, V>()
    ensures { AfterEvents K V (HasNoneWithoutExpiry K.eq) }
{}
