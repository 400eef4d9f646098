//! The turns of the model: who computes a value, and who waits for it.

use crate::call::{Doing, End, Loads, TurnId, Turned};
use crate::model::{Made, Model, NONE_LEFT};
use crate::returned::Returned;
use crate::types::{Given, Name, plain};
use moka::policy::Refused;
use moka::sync::value_initializer::Kind;
use std::alloc::AllocError;

/// How a turn ended.
#[derive(Clone, Copy)]
enum Ending {
    /// With a value, which replaced a live one or did not.
    Value(u64, bool),
    Nothing,
    Failed(u64),
    Computed,
    Abandoned,
}

/// A turn. It stays in the list when it has ended.
#[derive(Clone, Copy)]
pub struct OneTurn {
    id: TurnId,
    /// The live value that the begin of a compute found.
    shown: Option<u64>,
    /// Whether that was kept.
    keeps: bool,
    /// How many callers wait for it or may still collect.
    unspent: u64,
    ending: Option<Ending>,
}

const NO_TURN: Returned = Returned::Refused(Refused::UnknownTurn);

const NO_TICKET: Returned = Returned::Refused(Refused::UnknownTicket);

/// Returns whether a turn of a kind may end so.
fn fits(kind: Kind, end: End) -> bool {
    match end {
        End::Value(_) => kind != Kind::Compute,
        End::Nothing => kind == Kind::Optionally,
        End::Failed(_) => kind == Kind::Try,
        End::Op(_) => kind == Kind::Compute,
    }
}

impl Model {
    /// Returns the open turn of a kind and a key.
    pub fn open_turn(&self, kind: Kind, key: Name) -> Option<OneTurn> {
        for turn in self.turns.iter() {
            if turn.ending.is_none() && turn.id.kind == kind && turn.id.key.0 == key.0 {
                return Some(*turn);
            }
        }
        None
    }

    /// Returns the turn of a name.
    fn named(&self, id: TurnId) -> Option<OneTurn> {
        for turn in self.turns.iter() {
            let is_same = turn.id.number == id.number && turn.id.kind == id.kind;
            if is_same && turn.id.key.0 == id.key.0 {
                return Some(*turn);
            }
        }
        None
    }

    fn open_as(&self, id: TurnId) -> Option<OneTurn> {
        let turn = self.named(id)?;
        if turn.ending.is_none() {
            Some(turn)
        } else {
            None
        }
    }

    /// Stores a changed turn.
    fn set_turn(&mut self, changed: OneTurn) {
        for turn in self.turns.iter_mut() {
            if turn.id.number == changed.id.number {
                *turn = changed;
            }
        }
    }

    /// Opens a turn, and returns its number.
    fn open(
        &mut self,
        kind: Kind,
        key: Name,
        shown: Option<u64>,
        keeps: bool,
    ) -> Result<u64, AllocError> {
        let number = self.next;
        self.turns.push(OneTurn {
            id: TurnId { kind, key, number },
            shown,
            keeps,
            unspent: 0,
            ending: None,
        })?;
        self.next = self.next.wrapping_add(1);
        Ok(number)
    }

    /// Waits for an open turn.
    fn wait(&mut self, turn: OneTurn, now: u64) -> Returned {
        let _ = self.record(now);
        self.set_turn(OneTurn {
            unspent: turn.unspent.wrapping_add(1),
            ..turn
        });
        Returned::Wait(turn.id.number)
    }

    /// Makes a call about a turn.
    pub fn by_turn(&mut self, call: Turned, now: u64) -> Made {
        match call {
            Turned::Begin(loads, _, key, unwanted) => self.begin_turn(loads, key, unwanted, now),
            Turned::BeginCompute(key, keeps) => self.begin_compute(key, keeps, now),
            Turned::Finish(id, end) => match self.open_as(id) {
                Some(turn) if fits(id.kind, end) => self.finish_turn(turn, end, now),
                _ => Ok(NO_TURN),
            },
            Turned::Abandon(id) => Ok(match self.open_as(id) {
                Some(turn) => {
                    self.set_turn(OneTurn {
                        ending: Some(Ending::Abandoned),
                        ..turn
                    });
                    Returned::Done
                }
                None => NO_TURN,
            }),
            Turned::Collect(id) => Ok(self.collect(id)),
            Turned::Leave(id) => Ok(match self.spent(id, true) {
                Some(_) => Returned::Done,
                None => NO_TICKET,
            }),
            Turned::IsOpen(id) => Ok(Returned::Is(self.open_as(id).is_some())),
        }
    }

    fn begin_turn(&mut self, loads: Loads, key: Name, unwanted: Option<u64>, now: u64) -> Made {
        if let Some(row) = self.acceptable(key, unwanted, now) {
            return Ok(Returned::Entry((row.key, row.given.number, false, false)));
        }
        if let Some(turn) = self.open_turn(loads.kind(), key) {
            return Ok(self.wait(turn, now));
        }
        if self.is_used_up() {
            return Ok(NONE_LEFT);
        }
        let _ = self.record(now);
        Ok(Returned::Run(self.open(loads.kind(), key, None, false)?))
    }

    fn begin_compute(&mut self, key: Name, keeps: bool, now: u64) -> Made {
        if let Some(turn) = self.open_turn(Kind::Compute, key) {
            return Ok(self.wait(turn, now));
        }
        if self.is_used_up() {
            return Ok(NONE_LEFT);
        }
        let shown = self.show(key, now);
        let value = shown.map(|row| row.given.number);
        let number = self.open(Kind::Compute, key, value, keeps)?;
        let shown = shown.map(|row| (row.key, row.given.number, false, false));
        Ok(Returned::Shows(number, shown))
    }

    /// Makes a loader, which does not wait.
    pub fn by_loader(
        &mut self,
        (loads, unwanted): (Loads, Option<u64>),
        end: End,
        key: Name,
        now: u64,
    ) -> Made {
        let kind = loads.kind();
        if self.open_turn(kind, key).is_some() {
            return Ok(match self.acceptable(key, unwanted, now) {
                Some(row) => Returned::Entry((row.key, row.given.number, false, false)),
                None => Returned::Refused(Refused::TurnIsOpen),
            });
        }
        match self.begin_turn(loads, key, unwanted, now)? {
            Returned::Run(number) => {
                self.computed = self.computed.wrapping_add(1);
                let ended = self.end_call(TurnId { kind, key, number }, end, now)?;
                Ok(if ended == Returned::Nothing {
                    Returned::None
                } else {
                    ended
                })
            }
            returned => Ok(returned),
        }
    }

    /// Makes a compute, which does not wait.
    pub fn compute(&mut self, doing: Doing, key: Name, now: u64) -> Made {
        let kind = Kind::Compute;
        if self.open_turn(kind, key).is_some() {
            return Ok(Returned::Refused(Refused::TurnIsOpen));
        }
        let (number, shown) = match self.begin_compute(key, true, now)? {
            Returned::Shows(number, shown) => (number, shown.map(|entry| entry.1)),
            returned => return Ok(returned),
        };
        self.computed = self.computed.wrapping_add(1);
        self.shown = shown;
        let id = TurnId { kind, key, number };
        let end = match (doing, shown) {
            // (this does not fit, so the turn is abandoned)
            (Doing::Fail(error), _) => End::Failed(error),
            (Doing::Count, None) => End::Op(Doing::Put(plain(1))),
            (Doing::Count, Some(value)) if value < 2 => End::Op(Doing::Put(plain(2))),
            (Doing::Count, _) => End::Op(Doing::Remove),
            (doing, _) => End::Op(doing),
        };
        let ended = self.end_call(id, end, now)?;
        Ok(match end {
            End::Failed(error) => Returned::Failed(error),
            _ => ended,
        })
    }

    /// Ends the turn of a call, or abandons it.
    fn end_call(&mut self, id: TurnId, end: End, now: u64) -> Made {
        let ended = self.by_turn(Turned::Finish(id, end), now)?;
        if let Returned::Refused(_) = ended {
            let _ = self.by_turn(Turned::Abandon(id), now)?;
        }
        Ok(ended)
    }

    /// Writes for a turn. Returns whether a live value stood there.
    fn put(&mut self, key: Name, given: Given) -> Result<bool, AllocError> {
        if !self.stores() {
            return Ok(false);
        }
        let at = self.latest;
        self.write(key, given, at)
    }

    fn finish_turn(&mut self, turn: OneTurn, end: End, now: u64) -> Made {
        let writes = matches!(end, End::Value(_) | End::Op(Doing::Put(_)));
        if writes && self.stores() && self.is_used_up() {
            return Ok(NONE_LEFT);
        }
        let _ = self.record(now);
        let key = turn.id.key;
        let (returned, ending) = match end {
            End::Value(given) => {
                let is_replaced = self.put(key, given)?;
                let entry = (key, given.number, true, is_replaced);
                (
                    Returned::Entry(entry),
                    Ending::Value(given.number, is_replaced),
                )
            }
            End::Nothing => (Returned::Nothing, Ending::Nothing),
            End::Failed(error) => (Returned::Failed(error), Ending::Failed(error)),
            End::Op(doing) => (self.finish_compute(turn, doing)?, Ending::Computed),
        };
        self.set_turn(OneTurn {
            ending: Some(ending),
            ..turn
        });
        Ok(returned)
    }

    fn finish_compute(&mut self, turn: OneTurn, doing: Doing) -> Made {
        let key = turn.id.key;
        let at = self.latest;
        Ok(match (doing, turn.shown) {
            (Doing::Put(given), shown) => {
                let _ = self.put(key, given)?;
                match shown {
                    Some(_) => {
                        Returned::Became("replaced-with", (key, given.number, true, true))
                    }
                    None => Returned::Became("inserted", (key, given.number, true, false)),
                }
            }
            (Doing::Remove, _) => {
                let live = self.live(key, at);
                self.take_away(key, at)?;
                match live {
                    Some(row) => Returned::Became("removed", (key, row.given.number, false, false)),
                    None => Returned::StillNone(key),
                }
            }
            (_, Some(value)) if turn.keeps => {
                Returned::Became("unchanged", (key, value, false, false))
            }
            _ => Returned::StillNone(key),
        })
    }

    /// Spends a ticket of a turn that has ended, or of any.
    fn spent(&mut self, id: TurnId, may_be_open: bool) -> Option<OneTurn> {
        let turn = self.named(id)?;
        if turn.unspent == 0 {
            return None;
        }
        if may_be_open || turn.ending.is_some() {
            self.set_turn(OneTurn {
                unspent: turn.unspent.wrapping_sub(1),
                ..turn
            });
        }
        Some(turn)
    }

    fn collect(&mut self, id: TurnId) -> Returned {
        let Some(turn) = self.spent(id, false) else {
            return NO_TICKET;
        };
        match turn.ending {
            None => Returned::NotYet,
            Some(Ending::Value(value, is_replaced)) => {
                Returned::Entry((id.key, value, false, is_replaced))
            }
            Some(Ending::Nothing) => Returned::Nothing,
            Some(Ending::Failed(error)) => Returned::Failed(error),
            Some(Ending::Computed) => Returned::Ended,
            Some(Ending::Abandoned) => Returned::Abandoned,
        }
    }
}
