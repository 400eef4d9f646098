//! A frequency source that counts nothing.
ghost use Rattle.std.specs.Prelude.{◌≡◌, IfOk, IfErr, refl};

use moka_policy::policy::{FrequencySource, Refused};
use std::alloc::Global;

/// The estimate for each hash.
const NEVER_NOTED: u8 = 0;

/// A frequency source that counts nothing: every estimate is 0. It takes no memory.
///
/// It is for caches under [`EvictionPolicy::lru`], which asks for no estimate. There each lookup
/// saves the note of its hash. Under TinyLFU a full cache would admit no new entry.
///
/// [`EvictionPolicy::lru`]: moka_policy::policy::EvictionPolicy::lru
#[derive(Clone, Copy, Debug, Default)]
pub struct NoFrequency;

impl FrequencySource for NoFrequency {
    ghost opened = { record {} };

    ghost noted = { λ source _. source };

    ghost count = { λ _ _. 0 };

    fn opening(_alloc: Global) -> Result<Self, Refused> {
        Ok(NoFrequency)
    }

    #[inline(always)]
    fn note(&mut self, _hash: u64) {}

    #[inline(always)]
    fn estimate(&self, _hash: u64) -> u8 {
        NEVER_NOTED
    }
}
