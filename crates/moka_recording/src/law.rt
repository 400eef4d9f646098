//! The ghost table of a history: one token knows the whole history and what the machine was built
//! with, each pass's token claims places of the history, and a witness claims what was built.
ghost use Rattle.std.specs.Prelude.{ℕ};

use atomic_table::{Join, Play, Seat, Split, Table, TableRule};
use std::alloc::Global;
use std::collections::LinkedList;
use std::marker::{Brand, PhantomData};

/// An entry of a history: the number of the pass that made the step, the step, and its reply.
pub type Entry<S, R> = (u64, S, R);

/// An entry at its place. Exists only in proofs.
pub struct Claim<S, R> {
    /// The place in the history, from 0.
    pub place: u64,
    /// The entry at that place.
    pub entry: Entry<S, R>,
}

/// What a token knows: the recorder the whole history and what the machine was built with, and each
/// token what it claims of these. Exists only in proofs.
pub struct View<S, R, B> {
    /// Whether the token is the recorder.
    pub is_recorder: bool,
    /// The whole history if the token is the recorder, else empty.
    pub all: LinkedList<Entry<S, R>>,
    /// What the recorder announced that the machine was built with.
    pub built: Option<B>,
    /// The places that the token claims.
    pub claims: LinkedList<Claim<S, R>>,
    /// What the token claims that the machine was built with.
    pub heard: Option<B>,
}

/// The rule of the table: there is one history and one announcement of what the machine was built
/// with, and every claim agrees with them.
pub struct Law;

impl<S, R, B> TableRule<Entry<S, R>, View<S, R, B>, ()> for Law {
    ghost use Rattle.moka_recording.specs.History.{HasOneHistory, recorder};
    ghost use Rattle.std.specs.Prelude.{[], None};

    ghost holds = { λ _. HasOneHistory };

    ghost first = { λ _. recorder None [] [] None };
}

/// The hand-over of claims between the recorder and another token.
pub struct Hands;

impl<S, R, B> Join<View<S, R, B>> for Hands {
    ghost use Rattle.moka_recording.specs.History.{with_claims, nobody};

    ghost both = { with_claims };

    ghost spent = { nobody };
}

impl<S, R, B> Split<View<S, R, B>> for Hands {
    ghost use Rattle.moka_recording.specs.History.{without_claims, claims_of};

    ghost left = { without_claims };

    ghost right = { claims_of };
}

/// The move by which the recorder adds an entry, and claims it.
pub struct Adds;

impl<S, R, B> Play<Entry<S, R>, View<S, R, B>> for Adds {
    ghost use Rattle.moka_recording.specs.History.{Added};

    ghost then = { Added };
}

/// The move by which the recorder learns that its claims agree with what it knows.
pub struct Compares;

impl<S, R, B> Play<Entry<S, R>, View<S, R, B>> for Compares {
    ghost use Rattle.moka_recording.specs.History.{Compared};

    ghost then = { Compared };
}

/// What a recorder announces. Callers use [`Brand`], and say in the proof what it is.
pub trait Announcement<B> {
    ghost use Rattle.std.specs.Prelude.{Option};

    /// What the machine was built with.
    ghost built: { Option B };
}

impl<B> Announcement<B> for Brand {
    ghost use Rattle.std.specs.Prelude.{None};

    ghost built = { None };
}

/// The move by which the recorder announces what the machine was built with, and claims it.
pub struct Announces<Z> {
    announcement: PhantomData<Z>,
}

impl<S, R, B, Z: Announcement<B>> Play<Entry<S, R>, View<S, R, B>> for Announces<Z> {
    ghost use Rattle.moka_recording.specs.History.{Announced};

    ghost then = { Announced Z.built };
}

/// The table of a history.
pub type History<S, R, B> = Table<Entry<S, R>, View<S, R, B>, (), Law, Global>;

/// A token of the table: it knows the history or some places of it.
pub type Token<S, R, B> = Seat<Entry<S, R>, View<S, R, B>>;
