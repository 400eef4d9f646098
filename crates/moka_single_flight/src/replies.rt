//! What one call of the loop returns, and how the loop ends.

/// What a begin returns.
#[derive(Drop)]
pub enum Begun<V, T, K> {
    /// There is a value, so nothing is to be done.
    Found(V),
    /// Nobody else computes the value: here is the turn for it.
    Run(T),
    /// Another caller has the turn. The ticket is to be collected.
    Wait(K),
}

/// What a collect returns.
#[derive(Drop)]
pub enum Collected<V, K> {
    /// The turn has ended, and gave this value.
    Ready(V),
    /// The turn is still open. The ticket comes back, to be collected again.
    NotYet(K),
    /// The turn has ended and gave this caller nothing: it was abandoned, or it was a compute's. The
    /// caller begins again.
    Retry,
}

/// How the loop ends.
#[derive(Drop)]
pub enum Joined<V, T> {
    /// With a value, found or collected.
    Value(V),
    /// With a turn: this caller computes the value.
    Turn(T),
    /// With neither, after the greatest number of waits, each of which gave nothing.
    TooMany,
}
