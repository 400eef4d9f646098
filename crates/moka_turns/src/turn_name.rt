//! The name of a turn as data.
use moka_model::turns::Kind;
use std::sync::Arc;

/// The name of a turn and of its tickets, for calls that are data.
///
/// It is no turn and no ticket: having it gives no right to either.
#[derive(Debug, Drop)]
pub struct TurnName<K> {
    /// The sequence number that the turn drew.
    pub number: u64,
    /// Its kind.
    pub kind: Kind,
    /// Its key.
    pub key: Arc<K>,
}
