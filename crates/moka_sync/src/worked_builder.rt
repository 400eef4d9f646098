//! Worked cases of what a builder refuses, which the prover computes, and in which order it checks.
ghost use Rattle.std.specs.Prelude.{◌≡◌, Some, None, is_some, option_map};
ghost use Rattle.std.specs.Duration.{as_nanos};
ghost use Rattle.moka_policy.specs.Building.{too_long_of, flush_refused_of};
ghost use Rattle.moka_policy.specs.declared.builder_utils.BuildError.{BuildError};
ghost use Rattle.moka_policy.specs.declared.builder_utils.BuildError.TheVariants.{NoSegments, TooManySegments};
ghost use Rattle.moka_sync.specs.Builder.{BuilderData, segments_refused, build_refused};

/// A cache has at least one segment, and at most 2^63.
pub fn how_many_segments()
    ensures none { segments_refused 0 ≡ Some NoSegments }
    ensures one { segments_refused 1 ≡ None }
    ensures most { segments_refused 9223372036854775808 ≡ None }
    ensures too_many { segments_refused 9223372036854775809 ≡ Some TooManySegments }
{}

/// A lifetime that is too long is reported first, and then what is wrong with the flush limit.
pub fn lifetimes_are_checked_first<W, X, L>()
    ensures lifetimes { (builder : BuilderData W X L) (cause : BuildError)
        → too_long_of (option_map as_nanos builder.time_to_live)
        (option_map as_nanos builder.time_to_idle) ≡ Some cause
        → build_refused builder ≡ Some cause }
    ensures limit { (builder : BuilderData W X L)
        → too_long_of (option_map as_nanos builder.time_to_live)
        (option_map as_nanos builder.time_to_idle) ≡ None
        → build_refused builder ≡ flush_refused_of builder.flush_limit (is_some builder.weigher) }
{}
