//! Receipts: the evidence of a recorded step.

/// What a call returns: the place of its step in the history, and its reply.
#[derive(Debug, Drop)]
pub struct Receipt<R> {
    /// The place in the history, from 0.
    pub place: u64,
    /// The reply.
    pub reply: R,
}

/// A receipt as a pass stores it: with the step that was called.
#[derive(Debug, Drop)]
pub struct StoredReceipt<S, R> {
    /// The place in the history, from 0.
    pub place: u64,
    /// The step.
    pub step: S,
    /// The reply to the step.
    pub reply: R,
}
