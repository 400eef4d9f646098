//! Laws of what is counted, for every run of calls.
ghost use Rattle.std.specs.Prelude.{◌≡◌, ◌+◌, ℕ, List, min, Some};
ghost use Rattle.moka_model.specs.Lives.{Settings};
ghost use Rattle.moka_model.specs.Steps.{AcceptedStep, events_in};
ghost use Rattle.moka_model.specs.Calls.{Call, Reply, Accepted, accepted};
ghost use Rattle.moka_stats.specs.Statistics.{IsRun, counted, greatest_count, hits_in, lookup_of, lookup_count, lookups_in, misses_in};

/// The reply of a call says whether the call was a recorded lookup: its step has just as many
/// events that are.
pub fn a_reply_says_whether_it_was_a_lookup<K: Eq, V, E>()
    ensures { (settings : Settings K V) (steps : List (AcceptedStep K V E))
        (call : Call K V E) (it : Accepted K V E)
        → accepted K.eq settings steps call ≡ Some it
        → lookups_in it.step.events ≡ lookup_count (lookup_of call it.reply) }
{}

/// Hits and misses together are the recorded lookups of a run, from its first call on.
pub fn hits_and_misses_are_the_recorded_lookups<K: Eq, V, E>()
    ensures { (settings : Settings K V) (run : List (Call K V E × Reply K V E))
        (steps : List (AcceptedStep K V E))
        → IsRun K.eq settings run steps
        → hits_in run + misses_in run ≡ lookups_in (events_in steps) }
{}

/// The counts of a run are its hits and its misses, as long as they can be counted.
pub fn counts_are_exact<K, V, E>()
    ensures hits { (run : List (Call K V E × Reply K V E))
        → (counted run).hits ≡ min (hits_in run) greatest_count }
    ensures misses { (run : List (Call K V E × Reply K V E))
        → (counted run).misses ≡ min (misses_in run) greatest_count }
{}
