//! A law of the comparison of replies.
ghost use Rattle.std.specs.Prelude.{◌≡◌, true};
ghost use Rattle.moka_replies.specs.Same.{same_reply};

use moka_policy::policy::CacheTypes;
use moka_state::step::Reply;

/// Each reply is the same as itself, if values and errors have `Eq`.
pub fn a_reply_is_the_same_as_itself<K: Eq, V: Clone + Eq, C: CacheTypes<K, V>>(
    reply: &Reply<K, V, C>,
)
where
    C::Error: Eq,
    ensures { same_reply K.eq V.eq C.Error.eq reply.now reply.now ≡ true }
{}
