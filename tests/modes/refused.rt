//! What the mode `memory` works on: the lines of a part, those behind a refused one, and what is known
//! of each call.

use crate::call::{All, By, Call, Form, Hide, Loads, Look, Select, Turned, Write};
use crate::kinds::CaseKind;
use crate::line::Line;
use crate::plain::read_rules;
use crate::returned::Reply;
use crate::rules::Rules;
use crate::run::{called, read_line};
use crate::types::{Left, Name};
use anyhow::Result;
use moka::common::builder_utils::BuildError;
use std::alloc::Global;
use std::sync::Arc;

/// What a line says in place of a result.
#[derive(Clone, Copy, PartialEq)]
pub enum Says {
    Nothing,
    /// `takes no memory`.
    Free,
    /// `from here`: no request before this line is refused.
    From,
    /// `shown`: the lines behind tell whether it was made.
    Shown,
    /// `not shown`.
    NotShown,
}

/// A line, and its place in its file.
#[derive(Clone, Copy)]
pub struct Placed {
    pub at: usize,
    pub line: Line,
    pub says: Says,
}

/// What a call returned, and what stands in the lists of the case.
#[derive(Clone, Copy, PartialEq)]
pub struct Mark {
    pub at: usize,
    pub is_behind: bool,
    pub reply: Reply,
    pub lists: u64,
    /// How many pairs came of each quarter of all keys: 16 bits for each.
    pub came: u64,
}

/// What is done with the requests of a case.
#[derive(Clone, Copy, PartialEq)]
pub enum Requests {
    /// So many are made first.
    First(u64),
    /// It is counted how many more are granted before the case, or before the line `from here`.
    Before,
    /// The same behind the case.
    Behind,
    /// None is refused. The line of this place counts as refused.
    Tell(usize),
}

/// A part of a file whose requests are refused.
#[derive(Drop)]
pub struct Case<'a> {
    pub file: &'a str,
    pub rules: Rules,
    pub lines: Vec<Placed>,
    /// What is made behind the refused line.
    pub behind: Vec<Placed>,
    pub kind: CaseKind,
    /// The line before which no request is refused.
    pub from: Option<usize>,
}

/// Where the lines behind a refused call are made.
#[derive(Clone, Copy)]
pub struct Seat {
    /// The key that their key 0 stands for.
    pub key: Name,
    /// The moment that their moment 0 stands for.
    pub now: u64,
    pub is_other: bool,
}

/// How many keys are in a quarter of all.
const QUARTER: u64 = 4_611_686_018_427_387_904;

impl Seat {
    /// Returns the key that a key of the lines behind stands for. It is in the quarter of key 0.
    fn key(self, key: Name) -> Name {
        if key.0 == 0 {
            return self.key;
        }
        let quarter = (self.key.0 / QUARTER).wrapping_mul(QUARTER);
        (key.0.wrapping_add(quarter), key.1)
    }

    /// Returns a call of the lines behind as it is made.
    pub fn call(self, call: Call) -> Call {
        match call {
            Call::Look(look, key) => Call::Look(look, self.key(key)),
            Call::Write(write, key) => Call::Write(write, self.key(key)),
            Call::Turn(Turned::Begin(loads, by, key, unwanted)) => {
                Call::Turn(Turned::Begin(loads, by, self.key(key), unwanted))
            }
            Call::Turn(Turned::BeginCompute(key, keep)) => {
                Call::Turn(Turned::BeginCompute(self.key(key), keep))
            }
            call => call,
        }
    }
}

/// Returns the key of a call.
fn key_of(call: Call) -> Option<Name> {
    match call {
        Call::Look(_, key) | Call::Write(_, key) => Some(key),
        Call::Load(_, key) | Call::LoadByRef(_, key) => Some(key),
        Call::Select(_, key) | Call::SelectByRef(_, key) => Some(key),
        Call::Turn(Turned::Begin(_, _, key, _) | Turned::BeginCompute(key, _)) => Some(key),
        Call::Turn(Turned::Finish(id, _) | Turned::Abandon(id)) => Some(id.key),
        Call::Turn(Turned::Collect(id) | Turned::Leave(id)) => Some(id.key),
        _ => None,
    }
}

/// Returns where the lines behind the line of this place are made: at its key, and at the latest
/// moment before it.
pub fn seat_of(lines: &[Placed], place: usize) -> Seat {
    let mut seat = Seat {
        key: (1, 0),
        now: 0,
        is_other: false,
    };
    for placed in lines.iter().take(place) {
        seat.now = seat.now.max(placed.line.moment);
        seat.key = key_of(placed.line.call).unwrap_or(seat.key);
    }
    if let Some(placed) = lines.get(place) {
        seat.key = key_of(placed.line.call).unwrap_or(seat.key);
        seat.is_other = placed.line.is_other;
    }
    seat
}

/// Returns a number for the lists that a call filled. It depends on their order.
pub fn number_of(pairs: &[(Name, u64)], lefts: &[Left]) -> u64 {
    let mut number = 7_u64;
    for (key, value) in pairs.iter() {
        number = number
            .wrapping_mul(1_000_003)
            .wrapping_add(key.0)
            .wrapping_mul(1_000_003)
            .wrapping_add(*value);
    }
    for (key, value, cause) in lefts.iter() {
        number = number
            .wrapping_mul(1_000_003)
            .wrapping_add(key.0)
            .wrapping_mul(1_000_003)
            .wrapping_add(*value)
            .wrapping_mul(1_000_003)
            .wrapping_add(*cause as u64);
    }
    number
}

/// Returns how many of the pairs are in each quarter of all keys.
pub fn came(pairs: &[(Name, u64)]) -> u64 {
    let mut came = 0_u64;
    for (key, _) in pairs.iter() {
        let quarter = (key.0 / QUARTER % 4) as u32;
        came = came.wrapping_add(1_u64.wrapping_shl(quarter.wrapping_mul(16)));
    }
    came
}

/// Returns whether a walk lacks one pair of all, or those of a quarter, or each.
pub fn lacks_little(came: u64, all: u64) -> bool {
    let mut quarters = 0_u64;
    let mut is_little = true;
    for quarter in 0..4_u32 {
        let shift = quarter.wrapping_mul(16);
        let (came, all) = (
            came.wrapping_shr(shift) % 65_536,
            all.wrapping_shr(shift) % 65_536,
        );
        if came != all {
            quarters = quarters.wrapping_add(1);
            is_little = is_little && (came == 0 || came.wrapping_add(1) == all);
        }
    }
    came == 0 || (quarters == 1 && is_little)
}

/// Returns whether a call that failed for want of memory may take some.
pub fn may_take(rules: Rules, call: Call) -> bool {
    match call {
        Call::Look(Look::ContainsKey | Look::Invalidate, _) => false,
        Call::Write(Write::Insert(_), _) => rules.max_capacity != Some(0),
        Call::OfAll(All::Clone | All::Debug) => true,
        Call::OfAll(_) => false,
        Call::Hide(Hide::Shared, _, _) => false,
        Call::Turn(Turned::Abandon(_) | Turned::Leave(_)) => false,
        _ => true,
    }
}

/// Returns whether a call begins a turn by hand.
pub fn begins(call: Call) -> bool {
    matches!(
        call,
        Call::Turn(Turned::Begin(_, _, _, _) | Turned::BeginCompute(_, _))
    )
}

/// Returns whether a call of a shared cache may wait for a turn.
pub fn may_wait(call: Call) -> bool {
    matches!(
        call,
        Call::Load(_, _) | Call::LoadByRef(_, _) | Call::Select(_, _) | Call::SelectByRef(_, _)
    )
}

/// Returns the begin that a loader or a compute made.
pub fn begin_of(call: Call) -> Option<Call> {
    let (turned, key) = match call {
        Call::Load(form, key) | Call::LoadByRef(form, key) => (loads_of(form), key),
        Call::Select(select, key) | Call::SelectByRef(select, key) => match select {
            Select::Compute(_) | Select::TryCompute(_) => {
                return Some(Call::Turn(Turned::BeginCompute(key, true)));
            }
            Select::Upsert(_) => return Some(Call::Turn(Turned::BeginCompute(key, false))),
            select => (selected_loads(select)?, key),
        },
        _ => return None,
    };
    let (loads, unwanted) = turned;
    Some(Call::Turn(Turned::Begin(loads, By::Ref, key, unwanted)))
}

/// Returns the kind of a loader's turn, and the value that it replaces.
pub fn loads_of(form: Form) -> (Loads, Option<u64>) {
    match form {
        Form::With(_) | Form::OlderWith(_) => (Loads::With, None),
        Form::WithIf(_, unwanted) => (Loads::With, Some(unwanted)),
        Form::Optionally(_) => (Loads::Optionally, None),
        Form::Try(_) | Form::OlderTry(_) => (Loads::Try, None),
    }
}

/// Returns the same of a selector's call, if it is a loader.
pub fn selected_loads(select: Select) -> Option<(Loads, Option<u64>)> {
    Some(match select {
        Select::OrInsertWith(_) => (Loads::With, None),
        Select::OrInsertWithIf(_, unwanted) => (Loads::With, Some(unwanted)),
        Select::OrOptionally(_) => (Loads::Optionally, None),
        Select::OrTry(_) => (Loads::Try, None),
        _ => return None,
    })
}

/// Returns what a line says in place of its results.
fn says_of(results: &str) -> Says {
    match results {
        "takes no memory" => Says::Free,
        "from here" => Says::From,
        "shown" => Says::Shown,
        "not shown" => Says::NotShown,
        _ => Says::Nothing,
    }
}

/// Reads the part with this number of a file. One that refuses clones has no lines.
pub fn read_part<'a>(case: Case<'a>, text: &str, part: usize) -> Result<Case<'a>> {
    let mut case = case;
    let mut parts = 0_usize;
    let mut refuses = false;
    for (at, line) in text.lines().enumerate() {
        let Some((line, results)) = called(line) else {
            continue;
        };
        if line.starts_with("new") {
            parts = parts.wrapping_add(1);
            if parts == part.wrapping_add(1) {
                case.rules = read_rules(case.file, at, line)?;
            }
        } else if parts == part.wrapping_add(1) {
            let (line, says) = (read_line(case.file, at, line)?, says_of(results));
            refuses = refuses || matches!(line.call, Call::RefuseClones(_, _));
            if says == Says::From {
                case.from = Some(case.lines.len());
            }
            case.lines.push(Placed { at, line, says })?;
        }
    }
    if refuses {
        case.lines.clear();
    }
    Ok(case)
}

/// Reads the lines behind a refused one.
pub fn read_behind(alloc: Global, file: &str, text: &str) -> Result<Vec<Placed>> {
    let mut behind = Vec::new(alloc);
    for (at, line) in text.lines().enumerate() {
        if let Some((line, _)) = called(line) {
            let line = read_line(file, at, line)?;
            behind.push(Placed {
                at,
                line,
                says: Says::Nothing,
            })?;
        }
    }
    Ok(behind)
}

/// Makes so many requests, and gives each back.
pub fn ask(alloc: Global, requests: u64) {
    for _ in 0..requests {
        let _ = Arc::new(alloc, 0_u64);
    }
}

/// Returns how many requests are granted before the one that is refused.
pub fn count(alloc: Global) -> u64 {
    for granted in 0..1_000_000_u64 {
        if Arc::new(alloc, 0_u64).is_err() {
            return granted;
        }
    }
    1_000_000
}

/// Builds a cache. Asks again where memory is refused.
pub fn built<S: Drop, F: Fn() -> Result<S, BuildError>>(build: &F) -> Result<S> {
    Ok(match build() {
        Err(BuildError::OutOfMemory) => build()?,
        built => built?,
    })
}

/// Creates room for the marks of a run.
pub fn room(alloc: Global, case: &Case<'_>) -> Vec<Mark> {
    let mut marks = Vec::new(alloc);
    let most = case
        .lines
        .len()
        .wrapping_mul(2)
        .wrapping_add(case.behind.len());
    for _ in 0..2 {
        let _ = marks.reserve(most);
    }
    marks
}

/// Returns how many marks differ. Prints each, but where a line is only told.
pub fn compare<P: Print>(
    rt: &P,
    case: &Case<'_>,
    first: &[Mark],
    twin: &[Mark],
    prints: bool,
) -> Result<u64> {
    let mut wrong = 0_u64;
    for (mark, wanted) in first.iter().zip(twin.iter()) {
        if mark == wanted {
            continue;
        }
        wrong = wrong.wrapping_add(1);
        if prints {
            let place = if mark.is_behind { " behind" } else { "" };
            println!(rt;
                "{}:{}{place}: {}: got {}, and its twin {}",
                case.file,
                mark.at.wrapping_add(1),
                case.kind.0,
                mark.reply,
                wanted.reply
            )?;
        }
    }
    Ok(wrong)
}
