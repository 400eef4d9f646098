//! A `get` returns while a call runs a closure, calls the listener, or drops what it no longer needs:
//! all that runs with no lock held. A predicate that decides on a replacement runs under the lock of
//! its segment alone. An iteration holds no lock between two of its steps.

use crate::calls::{Call, Given};
use crate::items::{Key, Value, Watch, mark, reaches, so_far};
use crate::world::{BOTH, FOURTH, Mode, OneLock, PLAIN, SECOND, Scene, THIRD, Whole, World, play};
use moka::policy::Refused;
use moka::sync::Iter;
use moka::sync::value_initializer::{Begun, Kind, Outcome};
use std::sync::atomic::Ordering;
use std::test::Fail;

/// What is done while another thread looks a key up: a call about key 1, or one that drops what it no
/// longer needs.
#[derive(Clone, Copy, Debug)]
pub(crate) enum Busy {
    Calls(Call),
    /// The key of an insert at a capacity of 0, or of an overwrite, behind so many inserts. Behind 64 the
    /// write runs a flush.
    DropsKey(u64),
    /// The value of a call at a capacity of 0, or of an `or_insert` that finds a live one.
    DropsValue(Call),
    DropsGivenValue,
    /// The value of an ended turn, once its last ticket is collected, or left.
    DropsTurnsValue(bool),
    /// The saved value of a compute that is abandoned.
    DropsSavedValue,
    DropsPredicate,
}

const NO_TICKET: Given = Err(Refused::UnknownTicket);

/// A key that is never stored.
const NONE: u64 = 1_000;

/// What is done, and the key that is looked up meanwhile.
const BUSY: [(Mode, Busy, u64); 28] = [
    (Mode::Waits, Busy::Calls(Call::With), 2),
    (Mode::Waits, Busy::Calls(Call::WithByRef), 2),
    (Mode::Waits, Busy::Calls(Call::Optionally), 2),
    (Mode::Waits, Busy::Calls(Call::Try), 2),
    (Mode::Waits, Busy::Calls(Call::Compute), 2),
    (Mode::Waits, Busy::Calls(Call::TryCompute), 2),
    (Mode::Waits, Busy::Calls(Call::Upsert), 2),
    // A predicate runs under the lock of its segment.
    (Mode::Waits, Busy::Calls(Call::WithIf), SECOND),
    (Mode::Waits, Busy::Calls(Call::WithIf), THIRD),
    (Mode::Waits, Busy::Calls(Call::WithIf), FOURTH),
    // These calls remove the expired entry of their key.
    (Mode::Listens(0), Busy::Calls(Call::Insert), 2),
    (Mode::Listens(0), Busy::Calls(Call::OrInsert), 2),
    (Mode::Listens(0), Busy::Calls(Call::OrDefault), 2),
    (Mode::Listens(0), Busy::Calls(Call::Invalidate), 2),
    (Mode::Listens(0), Busy::Calls(Call::Remove), 2),
    (Mode::Listens(0), Busy::Calls(Call::Tasks), 2),
    (Mode::Listens(0), Busy::Calls(Call::TasksUpTo), 2),
    (Mode::Listens(0), Busy::Calls(Call::With), 2),
    (Mode::Capacity(0), Busy::DropsKey(1), NONE),
    (Mode::Capacity(0), Busy::DropsValue(Call::Insert), NONE),
    (Mode::Capacity(0), Busy::DropsValue(Call::With), NONE),
    (Mode::Capacity(100), Busy::DropsKey(1), NONE),
    (Mode::Capacity(400), Busy::DropsKey(64), NONE),
    (Mode::Capacity(100), Busy::DropsGivenValue, NONE),
    (Mode::Capacity(100), Busy::DropsTurnsValue(true), NONE),
    (Mode::Capacity(100), Busy::DropsTurnsValue(false), NONE),
    (Mode::Capacity(100), Busy::DropsSavedValue, NONE),
    (Mode::Capacity(100), Busy::DropsPredicate, NONE),
];

/// A `get` returns while a closure of another call runs, while the listener does, and while something
/// is dropped that a call no longer needs. In another segment it does while a predicate runs.
#[test]
fn a_get_answers_meanwhile(rt: HostRuntime) -> Result<(), Fail> {
    for locks in BOTH {
        for (mode, busy, number) in BUSY {
            if locks == 4 || number < SECOND {
                let wanted = if number == NONE { 0 } else { 20 };
                let scene = (Scene::Answers(busy), (Ok(wanted), 0));
                play(rt, rt.alloc(), (locks, number), mode, scene)?;
            }
        }
    }
    Ok(())
}

impl<W: Whole> World<W> {
    pub(crate) fn is_busy(&self, busy: Busy) -> Given {
        let (mut key, mut value) = (Key::new(1), Value::new(11));
        match busy {
            Busy::Calls(_) | Busy::DropsPredicate => {}
            Busy::DropsKey(_) => key.watch = self.watch(),
            _ => value.watch = self.watch(),
        }
        match busy {
            Busy::Calls(call) | Busy::DropsValue(call) => self.make(1, value, call),
            Busy::DropsKey(count) => {
                for number in 0..count {
                    self.put(number.wrapping_add(1), 10)?;
                }
                self.insert(key, value)
            }
            Busy::DropsGivenValue => {
                self.put(1, 10)?;
                self.or_insert(1, value)
            }
            Busy::DropsTurnsValue(collects) => self.spends_a_ticket(value, collects),
            Busy::DropsSavedValue => {
                self.insert(key, value)?;
                self.compute_nothing(1)
            }
            Busy::DropsPredicate => self.hide(),
        }
    }

    /// Returns what waits for another thread when it is dropped.
    pub(crate) fn watch(&self) -> Option<Watch<W>> {
        let (marks, rt) = (self.marks.clone().ok()?, self.rt);
        Some(Watch { marks, rt })
    }

    /// Opens a turn, finishes it with a value, and spends its only ticket.
    fn spends_a_ticket(&self, value: Value<W>, collects: bool) -> Given {
        let turn = self.open(1, Kind::With);
        match self.begin(1, Kind::With, true) {
            Ok(Begun::Wait(ticket)) => {
                let finished = self.finish(turn, Outcome::Value(value));
                let spent = if collects {
                    self.collect(ticket)
                } else {
                    self.leave(ticket)
                };
                finished.and(spent)
            }
            Ok(Begun::Run(other)) => self.abandon(turn).and(self.abandon(other)).and(NO_TICKET),
            Ok(Begun::Found(_)) | Err(_) => self.abandon(turn).and(NO_TICKET),
        }
    }
}

/// The calls that fail once all sequence numbers are drawn, with the first number of a cache. A loader
/// and a compute draw the last one for their turn, which is open when their finish fails.
const REFUSED_CALLS: [(Call, u64); 5] = [
    (Call::Insert, u64::MAX - 2),
    (Call::OrInsert, u64::MAX - 2),
    (Call::OrDefault, u64::MAX - 2),
    (Call::With, u64::MAX - 3),
    (Call::Upsert, u64::MAX - 3),
];

/// A call that fails does not call the listener, even if another call's notice is queued.
///
/// If it called the listener, that would wait for its own caller, and so would all who ask for the key.
#[test]
fn a_failed_call_leaves_notices_to_others(rt: HostRuntime) -> Result<(), Fail> {
    for locks in BOTH {
        for (call, first) in REFUSED_CALLS {
            let wanted = (Err(Refused::NumbersUsedUp), 0);
            let scene = (Scene::LeavesNotice(call), wanted);
            play(rt, rt.alloc(), (locks, 1), Mode::Listens(first), scene)?;
        }
    }
    Ok(())
}

/// Each call with how often it reads the clock if its key is missing, and if that is live: once each
/// time that it takes the lock for a step with a moment. A loader looks with its begin, or before that if
/// its key is lent, and finishes on a miss; a compute begins and finishes; an iteration looks each key up.
const READINGS: [(Call, u64, u64); 19] = [
    (Call::Get, 1, 1),
    (Call::ContainsKey, 1, 1),
    (Call::Insert, 1, 1),
    (Call::OrInsert, 1, 1),
    (Call::OrDefault, 1, 1),
    (Call::Invalidate, 1, 1),
    (Call::Remove, 1, 1),
    (Call::InvalidateAll, 0, 0),
    (Call::Tasks, 1, 1),
    (Call::TasksUpTo, 1, 1),
    (Call::EntryCount, 0, 0),
    (Call::Begin, 1, 1),
    (Call::With, 2, 1),
    (Call::WithByRef, 3, 1),
    (Call::WithIf, 2, 1),
    (Call::SelectOrInsert, 2, 1),
    (Call::SelectOrDefault, 1, 1),
    (Call::Upsert, 2, 2),
    (Call::Walk, 0, 1),
];

/// A shared cache reads its clock once for each time that a call takes the lock.
#[test]
fn a_call_reads_the_clock_once_a_lock(rt: HostRuntime) -> Result<(), Fail> {
    for (call, missing, live) in READINGS {
        for (is_live, wanted) in [(false, missing), (true, live)] {
            let scene = (Scene::Reads(call, is_live), (Ok(wanted), 0));
            play(rt, rt.alloc(), (1, 1), PLAIN, scene)?;
        }
    }
    Ok(())
}

impl<W: Whole> World<W> {
    /// Makes a call. Returns how often it read the clock.
    pub(crate) fn counts_readings(&self, call: Call) -> Given {
        let before = self.readings();
        self.make(1, Value::new(11), call)?;
        Ok(self.readings().wrapping_sub(before))
    }
}

/// Two keys of each segment. The last segment, which an iteration reaches last, is written first.
pub(crate) const STORED: [u64; 8] = [
    FOURTH,
    FOURTH | 1,
    THIRD,
    THIRD | 1,
    SECOND,
    SECOND | 1,
    0,
    1,
];

/// A key of the first segment, which is written after an iteration has listed that segment's keys.
const LATE: u64 = 2;

impl<W: Whole> World<W> {
    /// Iterates. Where another thread writes, checks that each key that was stored before comes once,
    /// and no other.
    pub(crate) fn walk(&self, walk: Iter<'_, Key<W>, Value<W>, OneLock<W>>) -> Given {
        let mut came = Vec::new(self.alloc);
        for pair in walk {
            let (key, _) = pair?;
            if came.push(key.number).is_err() {
                return Err(Refused::OutOfMemory);
            }
            if let Scene::Walks = self.scene {
                self.comes(key.number);
            }
        }
        if let Scene::Walks = self.scene {
            assert_eq!(&self.rt; came.len(), STORED.len());
            for key in STORED {
                assert!(&self.rt; came.contains(&key), "a key that stood comes: {key}");
            }
        }
        Ok(0)
    }

    /// Tells the key that came, and waits for the writes of the other thread.
    fn comes(&self, number: u64) {
        self.marks.key.store(number, Ordering::SeqCst);
        mark(&self.marks.started);
        let steps = so_far(&self.marks.started);
        let is_written = reaches(&self.rt, &self.marks.done, steps);
        assert!(&self.rt; is_written, "a write returns between two steps");
    }

    /// At each step renews the key that came, overwrites a stored one, and writes one that was not.
    pub(crate) fn writes(&self) -> Given {
        for key in STORED {
            let steps = so_far(&self.marks.done).wrapping_add(1);
            reaches(&self.rt, &self.marks.started, steps);
            let came = so_far(&self.marks.key);
            self.erase(came);
            self.put(came, 20)?;
            self.put(key, 20)?;
            self.put(LATE, 20)?;
            mark(&self.marks.done);
        }
        Ok(0)
    }
}

/// A write returns between two steps of an iteration. A key that has come, is removed and is inserted
/// again does not come twice.
#[test]
fn a_write_answers_between_two_steps(rt: HostRuntime) -> Result<(), Fail> {
    let scene = (Scene::Walks, (Ok(0), 0));
    for locks in BOTH {
        play(rt, rt.alloc(), (locks, 1), PLAIN, scene)?;
    }
    Ok(())
}
