//! Worked cases of ids from generators that repeat one byte, and of texts that are no ids.
ghost use Rattle.std.specs.Prelude.{◌≡◌, length, codes};
ghost use Rattle.rand_core.specs.Stream.{next_u64};
ghost use Rattle.moka_predicate_ids.specs.PredicateId.{id_by, stream_after_id, IsIdText, counts_bytes, repeats};

/// The ids from generators that repeat one byte: all ones, all zeros, and another byte.
///
/// Only the digits of the version and the variant differ from those of the byte. The upper half of
/// a byte comes first.
pub fn ids_of_one_byte()
    ensures ones { id_by (repeats 255) ≡ codes "ffffffff-ffff-4fff-bfff-ffffffffffff" }
    ensures zeros { id_by (repeats 0) ≡ codes "00000000-0000-4000-8000-000000000000" }
    ensures others { id_by (repeats 26) ≡ codes "1a1a1a1a-1a1a-4a1a-9a1a-1a1a1a1a1a1a" }
    ensures characters { length (id_by (repeats 26)) ≡ 36 }
{}

/// An id draws sixteen bytes from a generator.
///
/// The generator here returns the number of bytes drawn so far: 16 after one id, and 32 after two.
pub fn an_id_draws_sixteen_bytes()
    ensures before { (next_u64 counts_bytes).0 ≡ 0 }
    ensures after { (next_u64 (stream_after_id counts_bytes)).0 ≡ 16 }
    ensures twice { (next_u64 (stream_after_id (stream_after_id counts_bytes))).0 ≡ 32 }
{}

/// Texts that do not have the form of an id.
///
/// One has another version, and one another variant. One has an upper-case letter, two have a
/// misplaced or missing hyphen, and two have a character too few or too many.
pub fn what_is_no_id()
    ensures version { ¬ (IsIdText (codes "1a1a1a1a-1a1a-5a1a-9a1a-1a1a1a1a1a1a")) }
    ensures variant { ¬ (IsIdText (codes "1a1a1a1a-1a1a-4a1a-ca1a-1a1a1a1a1a1a")) }
    ensures upper_case { ¬ (IsIdText (codes "1A1a1a1a-1a1a-4a1a-9a1a-1a1a1a1a1a1a")) }
    ensures hyphen { ¬ (IsIdText (codes "1a1a1a1-a1a1a-4a1a-9a1a-1a1a1a1a1a1a")) }
    ensures no_hyphen { ¬ (IsIdText (codes "1a1a1a1a-1a1a-4a1a-9a1a11a1a1a1a1a1a")) }
    ensures shorter { ¬ (IsIdText (codes "1a1a1a1a-1a1a-4a1a-9a1a-1a1a1a1a1a1")) }
    ensures longer { ¬ (IsIdText (codes "1a1a1a1a-1a1a-4a1a-9a1a-1a1a1a1a1a1a1")) }
{}
