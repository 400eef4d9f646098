//! The weigher of `blobs_heard`: a type of one's own, which names the weight that it computes.

ghost use Rattle.std.specs.Prelude.{◌≡◌, refl};
ghost use Rattle.examples.specs.Blobs.{bytes_in};

use moka::policy::Weigher;
use moka::ready::SteadyWeigher;

/// Weighs a byte string by its length.
#[derive(Drop)]
pub(crate) struct Bytes;

impl Weigher<u64, Vec<u8>> for Bytes {
    ghost weighs = { λ _ weight. weight ≡ bytes_in };

    fn weigh(&self, _number: &u64, blob: &Vec<u8>) -> u32 {
        u32::try_from(blob.len()).unwrap_or(u32::MAX)
    }
}

impl SteadyWeigher<u64, Vec<u8>> for Bytes {
    ghost weight = { λ _. bytes_in };

    ghost equal_keys_weigh = { λ _ _ _ _ _. refl };
}
