//! The rows of a scene: `CALL NUMBER .. = WHAT IT SAYS`.
//!
//! | Call | Does |
//! |---|---|
//! | `get K`, `insert K V`, .. | the step of this name |
//! | `begin K`, `compute K` | begins a turn of the kind `With`, or a compute |
//! | `finish N K V`, `put N K V`, `abandon N K`, `collect N K`, `leave N K` | ends turn N of key K, or spends its ticket |
//! | `load K V` | `get_with`, by a closure that returns V |
//! | `load_told K V` | the same, once `tell` came |
//! | `load_scarce K V N` | the same in a round of N + 1 loaders; the first N closures return what has no clone |
//! | `end_held` | makes the step that a failed load handed back, if there is one |
//! | `write_all` | writes and reads 64 keys |
//! | `random S` | makes 400 random calls, drawn from the seed S |
//! | `at S` | sets the moment of the calls behind it, in seconds |
//! | `others`, `sees N` | counts the entries of the others; waits until they have N |
//! | `nap N` | sleeps N milliseconds, so that the others could go on |
//! | `asked N`, `join N`, `tell` | waits until N closures began, or N threads are done; lets closures return |
//! | `watch N` | tells how many entries the others have, until N threads are done |
//!
//! A row without a result may say anything. A call that is refused memory is made again, but not
//! `load_scarce`.
ghost use Rattle.std.specs.Prelude.{ℕ, IfOk};
ghost use Rattle.moka_state.specs.Step.{StepKeeps};

use crate::calls::ScarceStep;
use crate::marks::{Marks, Scarce};
use moka_model::turns::{Kind, Op, Outcome};
use moka_policy::policy::{CacheTypes, Refused};
use moka_state::step::{Reply, Step};
use moka_state::turn_name::TurnName;
use std::alloc::{AllocError, Global};
use std::sync::Arc;

/// A call: its name, the kind of its turn, and three numbers, 0 for those that are missing.
#[derive(Clone, Copy)]
pub(crate) struct Act<'a> {
    pub name: &'a str,
    pub kind: Kind,
    pub one: u64,
    pub two: u64,
    pub three: u64,
}

impl<'a> Act<'a> {
    /// Creates a call of two numbers.
    pub(crate) fn new(name: &'a str, one: u64, two: u64) -> Self {
        let (kind, three) = (Kind::With, 0);
        Act {
            name,
            kind,
            one,
            two,
            three,
        }
    }
}

/// Returns the number that a word says, if it says one.
pub(crate) fn number(word: Option<&str>) -> Option<u64> {
    word?.parse::<u64>().ok()
}

/// Reads a call, behind the number of its pass if there is one.
pub(crate) fn read(row: &str) -> Act<'_> {
    let mut words = row.split_whitespace();
    if number(row.split_whitespace().next()).is_some() {
        words.next();
    }
    let name = words.next().unwrap_or("");
    let kind = match name {
        "put" => Kind::Compute,
        _ => Kind::With,
    };
    Act {
        name,
        kind,
        one: number(words.next()).unwrap_or(0),
        two: number(words.next()).unwrap_or(0),
        three: number(words.next()).unwrap_or(0),
    }
}

/// What came of a call.
#[derive(Clone, Copy, Debug, PartialEq)]
pub(crate) enum Said {
    Done,
    Absent,
    Found(u64),
    Entered(u64),
    Counted(u64),
    Is(bool),
    /// A turn of this number was opened, or is waited for.
    Run(u64),
    Wait(u64),
    NotYet,
    Refused(Refused),
    /// A load returned this value; failed and held nothing; or held its turn, or its ticket if so, of
    /// this number and key.
    Given(u64),
    Failed(Refused),
    Holds(Refused, bool, u64, u64),
    Other,
}

/// Returns what a reply says.
pub(crate) fn said_of<C: CacheTypes<u64, Scarce>>(reply: &Reply<u64, Scarce, C>) -> Said {
    match reply {
        Reply::Done => Said::Done,
        Reply::Found(None) => Said::Absent,
        Reply::Found(Some(value)) => Said::Found(value.number),
        Reply::Contains(is_there) => Said::Is(*is_there),
        Reply::Counted(count) => Said::Counted(*count),
        Reply::Entered(entry) => Said::Entered(entry.value().number),
        Reply::Run(name, _) => Said::Run(name.number),
        Reply::Wait(name) => Said::Wait(name.number),
        Reply::NotYet => Said::NotYet,
        Reply::Refused(cause) => Said::Refused(*cause),
        _ => Said::Other,
    }
}

fn scarce(marks: &Arc<Marks>, number: u64) -> Result<Scarce, AllocError> {
    let marks = marks.clone()?;
    Ok(Scarce { number, marks })
}

/// Returns the step of a call that ends a turn or spends a ticket; of another one that which counts
/// the entries. What an operation does depends on its value.
fn turn_step<C: CacheTypes<u64, Scarce>>(
    alloc: Global,
    marks: &Arc<Marks>,
    act: Act<'_>,
    now: u64,
) -> Result<ScarceStep<C>, AllocError>
    requires { (k : ℕ) (v : _) → C.keeps k v }
    ensures { IfOk result (StepKeeps C.keeps C.Predicate.tests C.test) }
{
    let key = Arc::new(alloc, act.two)?;
    let (number, kind) = (act.one, act.kind);
    let name = TurnName { number, kind, key };
    let value = scarce(marks, act.three)?;
    let outcome = match (act.name == "put", kind, act.three % 4) {
        (true, _, 0) => Outcome::Op(Op::Nop),
        (true, _, 1) => Outcome::Op(Op::Remove),
        (true, _, _) => Outcome::Op(Op::Put(value)),
        (_, Kind::Optionally, 0) => Outcome::Nothing,
        _ => Outcome::Value(value),
    };
    Ok(match act.name {
        "finish" | "put" => Step::Finish { name, outcome, now },
        "abandon" => Step::Abandon { name },
        "collect" => Step::Collect { name },
        "leave" => Step::Leave { name },
        _ => Step::EntryCount,
    })
}

/// Returns the step of a call. The third number of a begin says what `replace_if` returns: 0
/// nothing, 1 yes, 2 no.
pub(crate) fn step_of<C: CacheTypes<u64, Scarce>>(
    alloc: Global,
    marks: &Arc<Marks>,
    act: Act<'_>,
    now: u64,
) -> Result<ScarceStep<C>, AllocError>
    requires { (k : ℕ) (v : _) → C.keeps k v }
    ensures { IfOk result (StepKeeps C.keeps C.Predicate.tests C.test) }
{
    let key = Arc::new(alloc, act.one)?;
    let value = scarce(marks, act.two)?;
    let (kind, keep) = (act.kind, true);
    let replace = match act.three % 3 {
        0 => None,
        three => Some(three == 1),
    };
    Ok(match act.name {
        "get" => Step::Get { key, now },
        "contains_key" => Step::ContainsKey { key, now },
        "insert" => Step::Insert { key, value, now },
        "or_insert" => Step::OrInsert { key, value, now },
        "invalidate" => Step::Invalidate { key, now },
        "remove" => Step::Remove { key, now },
        "invalidate_all" => Step::InvalidateAll,
        "run_pending_tasks" => Step::RunPendingTasks { now },
        "run_two_tasks" => Step::RunPendingTasksUpTo { limit: 2, now },
        "weighted_size" => Step::WeightedSize,
        "take_notice" => Step::TakeNotice,
        "compute" => Step::BeginCompute { key, keep, now },
        "begin" => Step::Begin {
            key,
            kind,
            replace,
            now,
        },
        _ => return turn_step(alloc, marks, act, now),
    })
}
