//! Draws settings, keys, values and calls.

use crate::call::{
    All, By, Call, Doing, End, Form, Hide, Loads, Look, Select, Turned, Walk, Write,
};
use crate::rules::{Rules, UNLIMITED};
use crate::types::{Given, Name, plain};
use moka::sync::value_initializer::Kind;
use rand_core::{Rng, SeedableRng};
use rand_xoshiro::SplitMix64;

/// Draws settings, keys, values and calls.
#[derive(Drop)]
pub struct Draws {
    generator: SplitMix64,
    /// How many keys there are.
    pub keys: u64,
    /// The quarter that all keys are of, or any.
    pub quarter: Option<u64>,
    /// How many values were drawn, where each value has a number of its own.
    own: Option<u64>,
    /// The number of the key that was drawn last.
    pub key: u64,
    /// The number of the value that was drawn last, until it is taken.
    pub last: Option<u64>,
    /// The numbers of some values that were drawn.
    recent: [u64; 8],
}

// Returns what the numbers of a key's own values end with.
fn ending(key: u64) -> u64 {
    (key % 64) | (key >> 32) % 2 << 6 | key >> 62 << 7
}

/// Returns whether a value is one of this key's own.
pub fn is_of(key: u64, value: u64) -> bool {
    value % 512 == ending(key)
}

impl Draws {
    /// Creates the draws of a seed. With `own` each value has a number of its own, by which its key
    /// is known, and the first of them has this place.
    pub fn new(seed: u64, own: Option<u64>) -> Draws {
        Draws {
            generator: SplitMix64::seed_from_u64(seed),
            keys: 4,
            quarter: None,
            own,
            key: 0,
            last: None,
            recent: [0; 8],
        }
    }

    /// Returns a number below `bound`, or 0 if that is 0.
    pub fn below(&mut self, bound: u64) -> u64 {
        self.generator.next_u64().checked_rem(bound).unwrap_or(0)
    }

    pub fn one_in(&mut self, times: u64) -> bool {
        self.below(times) == 0
    }

    pub fn maybe(&mut self, bound: u64) -> Option<u64> {
        if self.one_in(2) {
            Some(self.below(bound))
        } else {
            None
        }
    }

    pub fn rules(&mut self) -> Rules {
        let is_weighed = self.one_in(3);
        Rules {
            max_capacity: if self.one_in(4) {
                None
            } else {
                Some(self.below(12))
            },
            is_lru: !self.one_in(3),
            time_to_live: self.maybe(20),
            time_to_idle: self.maybe(20),
            closures: !self.one_in(8),
            flush_limit: if is_weighed || self.one_in(2) {
                None
            } else {
                Some(self.below(8).wrapping_add(1))
            },
            first_number: if self.one_in(6) {
                u64::MAX.wrapping_sub(self.below(400))
            } else {
                self.below(100)
            },
            is_weighed,
            may_expire: self.one_in(2),
            segments: if self.one_in(3) { Some(4) } else { None },
            is_owned: self.one_in(2),
            ..UNLIMITED
        }
    }

    /// Draws how many keys there are, and their quarter.
    pub fn choose_keys(&mut self) {
        self.keys = if self.one_in(3) { 40 } else { 4 };
        self.quarter = self.maybe(4);
    }

    pub fn key(&mut self) -> Name {
        let low = self.below(self.keys);
        let quarter = match self.quarter {
            Some(quarter) => quarter.wrapping_mul(1 << 62),
            None => self.below(4).wrapping_mul(1 << 62),
        };
        let unhashed = if self.one_in(4) { 1_u64 << 32 } else { 0 };
        self.key = low.wrapping_add(quarter).wrapping_add(unhashed);
        (self.key, if self.one_in(4) { self.below(3) } else { 0 })
    }

    // Returns the number of a new value.
    fn number(&mut self) -> u64 {
        let Some(own) = self.own else {
            return self.below(9);
        };
        let number = own.wrapping_mul(512).wrapping_add(ending(self.key));
        self.own = Some(own.wrapping_add(1));
        self.last = Some(number);
        if let Some(place) = self.recent.get_mut((own % 8) as usize) {
            *place = number;
        }
        number
    }

    /// Returns a number that a value may have.
    pub fn known(&mut self) -> u64 {
        match self.own {
            Some(_) => {
                let place = self.below(8) as usize;
                self.recent.get(place).copied().unwrap_or(0)
            }
            None => self.below(9),
        }
    }

    fn given(&mut self) -> Given {
        Given {
            weight: self.below(5) as u32,
            life: self.maybe(20),
            life_after_look: if self.one_in(3) {
                Some(self.below(20))
            } else {
                None
            },
            life_after_update: if self.one_in(3) {
                Some(self.below(20))
            } else {
                None
            },
            doubles: self.one_in(8),
            ..plain(self.number())
        }
    }

    fn optional(&mut self) -> Option<Given> {
        if self.one_in(3) {
            None
        } else {
            Some(self.given())
        }
    }

    fn tried(&mut self) -> Result<Given, u64> {
        if self.one_in(3) {
            Err(self.below(9))
        } else {
            Ok(self.given())
        }
    }

    fn form(&mut self) -> Form {
        match self.below(4) {
            0 => Form::With(self.given()),
            1 => Form::WithIf(self.given(), self.known()),
            2 => Form::Optionally(self.optional()),
            _ => Form::Try(self.tried()),
        }
    }

    // Returns an operation, or an error too if that may be.
    fn doing(&mut self, may_fail: bool) -> Doing {
        match self.below(6) {
            0 => Doing::Nop,
            1 => Doing::Remove,
            2 if self.own.is_none() => Doing::Count,
            3 if may_fail => Doing::Fail(self.below(9)),
            _ => Doing::Put(self.given()),
        }
    }

    fn select(&mut self) -> Select {
        match self.below(9) {
            0 => Select::OrInsert(self.given()),
            1 if self.own.is_none() => Select::OrDefault,
            2 => Select::OrInsertWith(self.given()),
            3 => Select::OrInsertWithIf(self.given(), self.known()),
            4 => Select::OrOptionally(self.optional()),
            5 => Select::OrTry(self.tried()),
            6 => Select::Compute(self.doing(false)),
            7 => Select::TryCompute(self.doing(true)),
            _ => Select::Upsert(self.given()),
        }
    }

    fn of_all(&mut self) -> All {
        match self.below(12) {
            0 => All::InvalidateAll,
            1 | 2 => All::Tasks,
            3 | 4 => All::TasksUpTo(self.below(6)),
            5 | 6 => All::EntryCount,
            _ => All::WeightedSize,
        }
    }

    /// Returns the begin of a turn of this key, and its kind.
    pub fn begin(&mut self, key: Name) -> (Kind, Turned) {
        let loads = match self.below(4) {
            0 => Loads::With,
            1 => Loads::Optionally,
            2 => Loads::Try,
            _ => return (Kind::Compute, Turned::BeginCompute(key, self.one_in(2))),
        };
        let by = match self.below(4) {
            0 => By::Ref,
            1 => By::Reusing,
            _ => By::Arc,
        };
        let unwanted = if self.one_in(3) {
            Some(self.known())
        } else {
            None
        };
        (loads.kind(), Turned::Begin(loads, by, key, unwanted))
    }

    /// Returns what a turn of this kind may be finished with.
    pub fn end(&mut self, kind: Kind) -> End {
        let is_other = self.one_in(2);
        match kind {
            Kind::Optionally if is_other => End::Nothing,
            Kind::Try if is_other => End::Failed(self.below(9)),
            Kind::Compute => End::Op(match self.below(3) {
                0 => Doing::Nop,
                1 => Doing::Remove,
                _ => Doing::Put(self.given()),
            }),
            _ => End::Value(self.given()),
        }
    }

    /// Returns a call that all kinds of caches have.
    pub fn call(&mut self) -> Call {
        let key = self.key();
        match self.below(24) {
            0..=3 => Call::Look(Look::Get, key),
            4 => Call::Look(Look::ContainsKey, key),
            5 => Call::Look(Look::Remove, key),
            6 => Call::Look(Look::Invalidate, key),
            7..=10 => Call::Write(Write::Insert(self.given()), key),
            11 => Call::Write(Write::OrInsert(self.given()), key),
            12 if self.own.is_none() => Call::Write(Write::OrDefault, key),
            13 => Call::Hide(Hide::Shared, self.known(), self.known()),
            14 | 15 => Call::Load(self.form(), key),
            16 => match self.form() {
                Form::WithIf(given, _) => Call::LoadByRef(Form::With(given), key),
                form => Call::LoadByRef(form, key),
            },
            17 | 18 => Call::Select(self.select(), key),
            19 => Call::SelectByRef(self.select(), key),
            20 => Call::Walk(Walk::Whole),
            21 => Call::Notices,
            _ => Call::OfAll(self.of_all()),
        }
    }
}
