//! Worked cases of what a cache cannot be built with. The prover computes each.
ghost use Rattle.std.specs.Prelude.{◌≡◌, true, false, Some, None};
ghost use Rattle.moka_policy.specs.declared.builder_utils.BuildError.TheVariants.{TimeToLiveTooLong, TimeToIdleTooLong, ZeroFlushLimit};
ghost use Rattle.moka_policy.specs.declared.builder_utils.BuildError.TheVariants.{FlushLimitWithWeigher};
ghost use Rattle.moka_policy.specs.Building.{too_long_of, flush_refused_of};

/// A TTL and a TTI may last 31,536,000,000 seconds, and not a nanosecond longer. The TTL is checked
/// first.
pub fn the_longest_lifetimes()
    ensures allowed { too_long_of (Some 31_536_000_000_000_000_000)
        (Some 31_536_000_000_000_000_000) ≡ None }
    ensures absent { too_long_of None None ≡ None }
    ensures to_live { too_long_of (Some 31_536_000_000_000_000_001) None ≡ Some TimeToLiveTooLong }
    ensures to_idle { too_long_of (Some 31_536_000_000_000_000_000)
        (Some 31_536_000_000_000_000_001) ≡ Some TimeToIdleTooLong }
    ensures both { too_long_of (Some 31_536_000_000_000_000_001) (Some 31_536_000_000_000_000_001)
        ≡ Some TimeToLiveTooLong }
{}

/// A flush limit is at least 1, and goes with no weigher. That it is 0 is checked first.
pub fn flush_limits()
    ensures one { flush_refused_of (Some 1) false ≡ None }
    ensures absent { flush_refused_of None true ≡ None }
    ensures zero { flush_refused_of (Some 0) false ≡ Some ZeroFlushLimit }
    ensures beside_a_weigher { flush_refused_of (Some 1) true ≡ Some FlushLimitWithWeigher }
    ensures both { flush_refused_of (Some 0) true ≡ Some ZeroFlushLimit }
{}
