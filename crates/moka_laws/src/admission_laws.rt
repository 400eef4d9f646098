//! Laws about noted lookups and the admission of entries, for every list of events.
ghost use Rattle.std.specs.Prelude.{◌<◌};
ghost use Rattle.moka_laws.specs.Each.{AfterEvents, AcrossEvents};
ghost use Rattle.moka_laws.specs.AdmissionLaws.{NotesLooks, LooksAreNoted, NothingElseIsNoted, NotesLaterLooks, HasItsKeysHash};
ghost use Rattle.moka_laws.specs.AdmissionLaws.{EntersWithRoom, IsDroppedTooHeavy, EntersByUse, EntersExactly, EntersByFrequency};
ghost use Rattle.moka_laws.specs.AdmissionLaws.{IsDroppedByFrequency, IsDroppedIfEqual};

/// Each recorded lookup notes its key's hash once, in order, whether it finds a value or not.
/// Nothing else notes any.
///
/// So no write, removal, invalidation, maintenance or reading call changes a frequency.
pub fn recorded_looks_alone_are_noted<K, V>()
    ensures hashes { AfterEvents K V NotesLooks }
    ensures more { AcrossEvents K V NotesLaterLooks }
    ensures noted { AfterEvents K V LooksAreNoted }
    ensures nothing_else { AfterEvents K V NothingElseIsNoted }
{}

/// A stored entry has the hash of its stored key.
pub fn what_stands_has_its_keys_hash<K: Eq, V>()
    ensures { AfterEvents K V (HasItsKeysHash K.eq) }
{}

/// Under either policy, a single pending entry is admitted if there is room, and dropped if it is
/// heavier than the capacity.
///
/// It is the only pending one, and all residents are live and within the capacity. It becomes the
/// most recently used.
pub fn where_there_is_room_a_key_is_admitted<K: Eq, V>()
    ensures room { AfterEvents K V (EntersWithRoom K.eq) }
    ensures too_heavy { AfterEvents K V (IsDroppedTooHeavy K.eq) }
{}

/// Under LRU, a single pending entry no heavier than the capacity is admitted: exactly its victims,
/// the least recently used, are evicted.
pub fn least_recently_used_admits_each<K: Eq, V>()
    ensures { AfterEvents K V (EntersByUse K.eq) }
{}

/// When a single pending entry is admitted under TinyLFU. All residents are live and within the
/// capacity.
///
/// It is admitted exactly if there is room, or if it is no heavier than the capacity and its
/// frequency exceeds the sum of its victims' frequencies. Then the victims are evicted. Otherwise,
/// also if the frequencies are equal, it is dropped. A frequency is what the cache's source
/// estimates for a key's hash.
pub fn greater_frequency_is_admitted<K: Eq, V>()
    ensures exactly { AfterEvents K V (EntersExactly K.eq) }
    ensures wins { AfterEvents K V (EntersByFrequency K.eq) }
    ensures loses { AfterEvents K V (IsDroppedByFrequency K.eq) }
    ensures equal { AfterEvents K V (IsDroppedIfEqual K.eq) }
{}
