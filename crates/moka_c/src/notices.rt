//! Removal notices, as C gets them.
ghost use Rattle.std.specs.Prelude.{◌≡◌};
ghost use Rattle.moka_c.specs.Codes.{cause_number};

use moka_model::notification::RemovalCause;

/// A removal notice of a cache of numbers.
#[repr(C)]
#[derive(Clone, Copy)]
pub struct NumberNotice {
    /// The stored key.
    pub key: u64,
    /// The removed value.
    pub value: u64,
    /// The cause: 0 is expired, 1 explicit, 2 replaced, 3 size.
    pub cause: u32,
}

/// A removal notice of a cache of byte strings: how long its key and its value are.
#[repr(C)]
#[derive(Clone, Copy)]
pub struct BytesNotice {
    /// The length of the stored key.
    pub key_len: usize,
    /// The length of the removed value.
    pub value_len: usize,
    /// The cause: 0 is expired, 1 explicit, 2 replaced, 3 size.
    pub cause: u32,
}

/// Returns the number of a cause.
pub(crate) fn number_of(cause: RemovalCause) -> u32
    ensures { result ≡ cause_number cause }
{
    match cause {
        RemovalCause::Expired => 0,
        RemovalCause::Explicit => 1,
        RemovalCause::Replaced => 2,
        RemovalCause::Size => 3,
    }
}
