//! What one worker does, and what is counted at the end.
ghost use Rattle.std.specs.Prelude.{◌≡◌, ◌+◌, ◌*◌, ◌<◌, ◌≤◌, IfOk};
ghost use Rattle.std.specs.String.{string_bytes};
ghost use Rattle.std.proofs.Math.Path.{◌∙◌, ap};
ghost use Rattle.std.proofs.lemmas.Bool.{eqb-true};
ghost use Rattle.mokabox_threads.specs.Threads.{value_text};

use crate::threads::{Counts, Gate};
use moka::policy::Refused;
use moka::ready::{Keeping, Keeps};
use moka::sync::Cache;
use std::alloc::Global;
use std::sync::Wait;

/// The value invariant of the shared cache: each value names its key.
pub(crate) struct Values;

impl Keeps<u64, String> for Values {
    ghost keeps = { λ key value. string_bytes value ≡ value_text key };

    ghost equal_keys_keep = { λ a b value same kept. kept ∙ ap value_text (eqb-true a b same) };

    ghost copies_keep = { λ key value copy is_copy kept. is_copy ∙ kept };
}

/// The cache that the workers share.
pub(crate) type Texts<W> = Cache<u64, String, Keeping<Values>, W>;

// How many keys each worker has.
const KEYS: u64 = 64;

/// Does the work of one worker: inserts its keys, looks up each, and invalidates every fourth.
pub(crate) fn work<W: Wait + Drop, G: Gate>(
    alloc: Global,
    texts: &Texts<W>,
    gate: &G,
    worker: u64,
) -> Result<(), Refused>
    requires { worker < 16 }
{
    gate.enter(worker);
    let first = KEYS * worker;
    for key in first..first + KEYS {
        texts.insert(key, value_of(alloc, key)?)?;
        texts.get(&key)?;
    }
    for fourth in 0..KEYS / 4 {
        texts.invalidate(&(first + 4 * fourth));
    }
    Ok(())
}

// Returns the value that a worker writes for a key.
fn value_of(alloc: Global, key: u64) -> Result<String, Refused>
    ensures { IfOk result (λ value. string_bytes value ≡ value_text key) }
{
    format!(in alloc; "value {key}").map_err(|_| Refused::OutOfMemory)
}

/// Looks up each key of the workers once, and counts how many are present.
pub(crate) fn count<W: Wait + Drop>(texts: &Texts<W>, workers: u64) -> Result<Counts, Refused>
    requires { workers ≤ 16 }
    ensures { IfOk result (λ counts. counts.present + counts.absent ≡ 64 * workers) }
{
    let mut present = 0;
    let mut absent = 0;
    for key in 0..KEYS * workers {
        if texts.get(&key)?.is_some() {
            present += 1;
        } else {
            absent += 1;
        }
    }
    Ok(Counts { present, absent })
}
