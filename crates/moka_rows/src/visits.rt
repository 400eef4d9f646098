//! The counter of the steps of a walk over rows.
ghost use Rattle.std.specs.Prelude.{◌≡◌};
ghost use Rattle.moka_rows.specs.Visits.{one_more};

/// Counts one step from a row to the next one. A count of `u128::MAX` stays as it is. No walk over
/// rows that fit in memory gets there.
#[inline(always)]
pub fn step(visits: &mut u128)
    ensures { visits.new ≡ one_more visits.old }
{
    *visits = visits.saturating_add(1);
}
