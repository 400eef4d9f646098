//! A hasher for keys that are hashes already.
ghost use Rattle.moka_index.specs.IdentityHasher.{hash_after};

use std::hash::Hasher;

/// Hashes a `u64` to itself. Of any other write it takes the first eight bytes, and ignores one
/// with fewer.
#[derive(Clone, Copy, Debug, Default, Drop)]
pub struct IdentityHasher {
    hash: u64,
}

impl Hasher for IdentityHasher {
    ghost write = { λ hasher bytes. record { hash = hash_after hasher.hash bytes } };

    ghost finish = { λ hasher. hasher.hash };

    #[inline(always)]
    fn finish(&self) -> u64 {
        self.hash
    }

    fn write(&mut self, bytes: &[u8]) {
        if let Some(word) = bytes.first_chunk::<8>() {
            *self = IdentityHasher {
                hash: u64::from_le_bytes(*word),
            };
        }
    }

    #[inline(always)]
    fn write_u64(&mut self, number: u64) {
        *self = IdentityHasher { hash: number };
    }
}
