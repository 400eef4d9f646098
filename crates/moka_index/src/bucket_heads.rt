//! An index from each hash to its first number.
ghost use Rattle.std.specs.Prelude.{◌≡◌, ◌≢◌, ℕ, ◌+◌, ◌<◌, ◌≤◌, Some, None, option_map, IfSome};
ghost use Rattle.std.specs.Prelude.{MatchOption, OnOk, slice_get};
ghost use Rattle.indexmap.specs.IndexMap.{spare, index_map_len};
ghost use Rattle.moka_index.specs.BucketHeads.{first_in, twice_of, Leads};

use crate::identity_hasher::IdentityHasher;
use indexmap::IndexMap;
use moka_rows::rows::RowId;
use std::alloc::AllocError;
use std::hash::BuildHasherDefault;

/// An index from a hash to its first number. It uses the hash as it is.
pub type BucketHeads = IndexMap<u64, RowId, BuildHasherDefault<IdentityHasher>>;

/// For how many places, at most, an index gets room twice over. It has room for 9 * 2^28 hashes at
/// most.
const MOST_DOUBLED: usize = 1 << 30;

/// Returns the first number of a hash, if it has one.
#[inline(always)]
pub fn first(bucket_heads: &BucketHeads, hash: u64) -> Option<RowId>
    ensures { result ≡ first_in bucket_heads.now hash }
{
    match bucket_heads.get(&hash) {
        Some(first) => Some(*first),
        None => None,
    }
}

/// Returns the place of a hash in the index, and its first number, if it has one.
#[inline(always)]
pub fn find_bucket(bucket_heads: &BucketHeads, hash: u64) -> Option<(usize, RowId)>
    ensures first { option_map (λ p. p.1) result ≡ first_in bucket_heads.now hash }
    ensures place { IfSome result (λ p. slice_get bucket_heads.now.entries p.0 ≡ Some (hash, p.1)) }
{
    match bucket_heads.get_full(&hash) {
        Some((place, _, first)) => Some((place, *first)),
        None => None,
    }
}

/// Makes room for twice as many hashes as there are `places`, or for 2^31 if that is fewer. Does
/// nothing if so many places are `known`.
///
/// A hash that leaves does not always give its room back. An index without room is built anew: in
/// place if it would be at most half full, and else in twice its memory. So an index with this room
/// does not allocate again.
///
/// # Errors
///
/// - `AllocError`: an allocation failed.
pub fn reserve_twice(
    bucket_heads: &mut BucketHeads,
    known: usize,
    places: usize,
) -> Result<(), AllocError>
    ensures made { OnOk result (known < places
        → twice_of places ≤ index_map_len bucket_heads.new + spare bucket_heads.new) }
    ensures same { bucket_heads.new.entries ≡ bucket_heads.old.entries }
    ensures room { spare bucket_heads.old ≤ spare bucket_heads.new }
{
    if places <= known {
        return Ok(());
    }
    let wanted = 2 * places.min(MOST_DOUBLED);
    bucket_heads.reserve(wanted.saturating_sub(bucket_heads.len()))
}

/// Puts a number before all others with its hash. Returns the one that was the first before, or 0.
#[inline(always)]
pub fn put_first(bucket_heads: &mut BucketHeads, hash: u64, number: RowId) -> RowId
    requires { 0 < spare bucket_heads.old }
    ensures before { MatchOption (first_in bucket_heads.old hash)
        (result ≡ 0) (λ first. result ≡ first) }
    ensures changed { first_in bucket_heads.new hash ≡ Some number }
    ensures others { (other : ℕ) → other ≢ hash
        → first_in bucket_heads.new other ≡ first_in bucket_heads.old other }
    ensures room { spare bucket_heads.old ≤ spare bucket_heads.new + 1 }
{
    match bucket_heads.insert(hash, number) {
        Ok(Some(before)) => before,
        Ok(None) => 0,
        Err(_) => unreachable!(),
    }
}

/// Sets the first number of the hash at a place.
#[inline(always)]
pub fn change_first(
    bucket_heads: &mut BucketHeads,
    place: usize,
    hash: u64,
    first: RowId,
    number: RowId,
)
    requires { slice_get bucket_heads.old.entries place ≡ Some (hash, first) }
    ensures { Leads bucket_heads.old bucket_heads.new hash (Some number) }
{
    if let Some(first) = bucket_heads.get_index_mut(place) {
        *first = number;
    }
}

/// Removes the hash at a place.
#[inline(always)]
pub fn drop_first(bucket_heads: &mut BucketHeads, place: usize, hash: u64, first: RowId)
    requires { slice_get bucket_heads.old.entries place ≡ Some (hash, first) }
    ensures { Leads bucket_heads.old bucket_heads.new hash None }
{
    bucket_heads.swap_remove_index(place);
}
