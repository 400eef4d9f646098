//! The id of a mass invalidation by a predicate.
ghost use Rattle.std.specs.Prelude.{◌≡◌, IfOk};
ghost use Rattle.std.specs.String.{string_bytes};
ghost use Rattle.moka_predicate_ids.specs.PredicateId.{id_by, stream_after_id, IsIdText};

use rand_core::Rng;
use std::alloc::{AllocError, Global};
use uuid::Uuid;

/// The id of a mass invalidation by a predicate: the text of a version 4 UUID.
///
/// It has 36 characters: 32 lower-case hexadecimal digits, with hyphens after the 8th, the 12th,
/// the 16th and the 20th. The third group begins with `4`, and the fourth with `8`, `9`, `a` or
/// `b`. The rest comes from the caller's random generator. A generator that repeats itself gives
/// the same id again, which does no harm.
pub type PredicateId = String;

/// Creates an id from the next sixteen bytes of a random generator.
///
/// # Errors
///
/// - `AllocError`: allocating the text failed. The sixteen bytes are drawn then too.
#[tactic(auto, using(crate::proofs::Form::is_id_text))]
pub fn new_predicate_id<R: Rng>(alloc: Global, generator: &mut R) -> Result<PredicateId, AllocError>
    ensures id { IfOk result (λ id. string_bytes id ≡ id_by (R.stream generator.old)) }
    ensures form { IfOk result (λ id. IsIdText (string_bytes id)) }
    ensures drawn { R.stream generator.new ≡ stream_after_id (R.stream generator.old) }
{
    let mut buffer = Uuid::encode_buffer();
    let uuid = Uuid::new_v4(generator);
    String::from_str(alloc, uuid.hyphenated().encode_lower(&mut buffer))
}
