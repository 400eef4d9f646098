//! The value of a row, if it is live.
ghost use Rattle.std.specs.Prelude.{◌≡◌, ◌||◌, true, None, Some, if◌then◌else◌, IsOk, IfOk, IfErr};
ghost use Rattle.moka_model.specs.Lives.{has_come};
ghost use Rattle.moka_model.specs.Calls.{IsCopyOf};

use moka_policy::policy::Refused;
use moka_rows::rows::RowRef;

/// Returns a clone of a row's value, or `None` if that is not live at `now`. Then nothing is
/// cloned.
///
/// # Errors
///
/// - `OutOfMemory`: cloning the value failed.
#[inline(always)]
pub fn copy_of_live<K, V: Clone>(row: RowRef<'_, K, V>, now: u64) -> Result<Option<V>, Refused>
    ensures copy { IfOk result (IsCopyOf V.is_clone
        (if row.entry.info.is_hidden || has_come row.entry.info.deadline now then None
        else Some row.entry.value)) }
    ensures dead { (row.entry.info.is_hidden || has_come row.entry.info.deadline now) ≡ true →
        IsOk result }
    ensures infallible { V.is_infallible row.entry.value → IsOk result }
    ensures cause { IfErr result (λ cause. cause ≡ Refused.OutOfMemory) }
{
    if row.info().is_dead(now) {
        return Ok(None);
    }
    match row.value.clone() {
        Ok(value) => Ok(Some(value)),
        Err(_) => Err(Refused::OutOfMemory),
    }
}
