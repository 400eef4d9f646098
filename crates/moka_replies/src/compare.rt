//! Whether two replies are the same.
ghost use Rattle.std.specs.Prelude.{◌≡◌};
ghost use Rattle.std.specs.Option.{option_eq};
ghost use Rattle.moka_replies.specs.Same.{same_cause, same_entry, same_notice, same_predicate_error, same_refusal, same_reply, same_result, same_turn_name};

use moka_model::comp_result::CompResult;
use moka_model::entry::Entry;
use moka_model::notification::{Notice, RemovalCause};
use moka_policy::policy::{CacheTypes, Refused};
use moka_predicate_ids::predicate_error::PredicateError;
use moka_state::step::Reply;
use moka_turns::turn_name::TurnName;

/// Returns whether two replies are of one variant, and what it has is the same.
///
/// Keys, values and errors of initializers are compared by `==`. Flags, counts, causes, and numbers
/// and kinds of turns have to be the same.
///
/// # Complexity
///
/// Compares at most two pairs of keys, and one pair of values or of errors.
pub fn is_same_reply<K: Eq, V: Clone + PartialEq, C: CacheTypes<K, V>>(
    a: &Reply<K, V, C>,
    b: &Reply<K, V, C>,
) -> bool
where
    C::Error: PartialEq,
    ensures { result ≡ same_reply K.eq V.eq C.Error.eq a.now b.now }
{
    match (a, b) {
        (Reply::Found(found), Reply::Found(other)) => found == other,
        (Reply::Contains(is_live), Reply::Contains(other)) => is_live == other,
        (Reply::Counted(count), Reply::Counted(other)) => count == other,
        (Reply::Left(has_left), Reply::Left(other)) => has_left == other,
        (Reply::Noticed(notice), Reply::Noticed(other)) => are_same_notices(notice, other),
        (Reply::Entered(entry), Reply::Entered(other)) => is_same_entry(entry, other),
        (Reply::Run(name, entry), Reply::Run(other, shown)) => {
            is_same_turn_name(name, other) && are_same_entries(entry, shown)
        }
        (Reply::Wait(name), Reply::Wait(other)) => is_same_turn_name(name, other),
        (Reply::Failed(error), Reply::Failed(other)) => error == other,
        (Reply::Computed(result), Reply::Computed(other)) => is_same_result(result, other),
        (Reply::Refused(cause), Reply::Refused(other)) => is_same_refusal(*cause, *other),
        (Reply::PredicateRefused(cause), Reply::PredicateRefused(other)) => {
            is_same_predicate_error(*cause, *other)
        }
        (Reply::Done, Reply::Done)
        | (Reply::Nothing, Reply::Nothing)
        | (Reply::NotYet, Reply::NotYet)
        | (Reply::Abandoned, Reply::Abandoned)
        | (Reply::Ended, Reply::Ended) => true,
        _ => false,
    }
}

// Returns whether two causes of a removal are the same.
fn is_same_cause(a: RemovalCause, b: RemovalCause) -> bool
    ensures { result ≡ same_cause a b }
{
    a == b
}

// Returns whether two causes of a failed call are the same.
fn is_same_refusal(a: Refused, b: Refused) -> bool
    ensures { result ≡ same_refusal a b }
{
    a == b
}

// Returns whether two causes of a failed invalidation by a predicate are the same.
fn is_same_predicate_error(a: PredicateError, b: PredicateError) -> bool
    ensures { result ≡ same_predicate_error a b }
{
    a == b
}

// Returns whether two names of turns have the same number and kind, and equal keys.
fn is_same_turn_name<K: Eq>(a: &TurnName<K>, b: &TurnName<K>) -> bool
    ensures { result ≡ same_turn_name K.eq a.now b.now }
{
    a.number == b.number && a.kind == b.kind && *a.key == *b.key
}

// Returns whether two entries have equal keys, equal values, and the same flags.
fn is_same_entry<K: Eq, V: PartialEq>(a: &Entry<K, V>, b: &Entry<K, V>) -> bool
    ensures { result ≡ same_entry K.eq V.eq a.now b.now }
{
    *a.key() == *b.key()
        && *a.value() == *b.value()
        && a.is_fresh() == b.is_fresh()
        && a.is_old_value_replaced() == b.is_old_value_replaced()
}

// Returns whether there are two such entries, or none.
fn are_same_entries<K: Eq, V: PartialEq>(a: &Option<Entry<K, V>>, b: &Option<Entry<K, V>>) -> bool
    ensures { result ≡ option_eq (same_entry K.eq V.eq) a.now b.now }
{
    match (a, b) {
        (Some(entry), Some(other)) => is_same_entry(entry, other),
        (None, None) => true,
        _ => false,
    }
}

// Returns whether two notices have equal keys, equal values, and the same cause.
fn is_same_notice<K: Eq, V: PartialEq>(a: &Notice<K, V>, b: &Notice<K, V>) -> bool
    ensures { result ≡ same_notice K.eq V.eq a.now b.now }
{
    *a.key == *b.key && a.value == b.value && is_same_cause(a.cause, b.cause)
}

// Returns whether there are two such notices, or none.
fn are_same_notices<K: Eq, V: PartialEq>(a: &Option<Notice<K, V>>, b: &Option<Notice<K, V>>) -> bool
    ensures { result ≡ option_eq (same_notice K.eq V.eq) a.now b.now }
{
    match (a, b) {
        (Some(notice), Some(other)) => is_same_notice(notice, other),
        (None, None) => true,
        _ => false,
    }
}

// Returns whether two results of computes are of one variant, with the same entry or equal keys.
fn is_same_result<K: Eq, V: PartialEq>(a: &CompResult<K, V>, b: &CompResult<K, V>) -> bool
    ensures { result ≡ same_result K.eq V.eq a.now b.now }
{
    match (a, b) {
        (CompResult::StillNone(key), CompResult::StillNone(other)) => **key == **other,
        (CompResult::Unchanged(entry), CompResult::Unchanged(other))
        | (CompResult::Inserted(entry), CompResult::Inserted(other))
        | (CompResult::ReplacedWith(entry), CompResult::ReplacedWith(other))
        | (CompResult::Removed(entry), CompResult::Removed(other)) => is_same_entry(entry, other),
        _ => false,
    }
}
