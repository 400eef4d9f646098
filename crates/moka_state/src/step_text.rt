//! `Debug` of steps and replies. A predicate or an error is written as `..`, so that it needs no
//! `Debug`.
use crate::step::{Reply, Step};
use moka_model::entry::Entry;
use moka_model::turns::{Kind, Outcome};
use moka_policy::policy::CacheTypes;
use moka_turns::turn_name::TurnName;
use std::fmt;
use std::fmt::{Debug, Formatter};

// Writes an outcome, without its error.
fn write_outcome<V: Debug, E, W: fmt::Write>(
    outcome: &Outcome<V, E>,
    f: &mut Formatter<W>,
) -> fmt::Result {
    match outcome {
        Outcome::Value(value) => write!(f, "Value({value:?})"),
        Outcome::Nothing => f.write_str("Nothing"),
        Outcome::Failed(_) => f.write_str("Failed(..)"),
        Outcome::Op(op) => write!(f, "Op({op:?})"),
    }
}

// Writes a step of a key and a moment.
fn write_look<K: Debug, W: fmt::Write>(
    name: &str,
    key: &K,
    now: u64,
    f: &mut Formatter<W>,
) -> fmt::Result {
    write!(f, "{name} {{ key: {key:?}, now: {now} }}")
}

// Writes a step of a key, a value and a moment.
fn write_write<K: Debug, V: Debug, W: fmt::Write>(
    name: &str,
    key: &K,
    value: &V,
    now: u64,
    f: &mut Formatter<W>,
) -> fmt::Result {
    write!(f, "{name} {{ key: {key:?}, value: {value:?}, now: {now} }}")
}

// Writes a `Begin`.
fn write_begin<K: Debug, W: fmt::Write>(
    key: &K,
    kind: Kind,
    replace: Option<bool>,
    now: u64,
    f: &mut Formatter<W>,
) -> fmt::Result {
    write!(
        f,
        "Begin {{ key: {key:?}, kind: {kind:?}, replace: {replace:?}, now: {now} }}"
    )
}

// Writes a `BeginCompute`.
fn write_begin_compute<K: Debug, W: fmt::Write>(
    key: &K,
    keep: bool,
    now: u64,
    f: &mut Formatter<W>,
) -> fmt::Result {
    write!(
        f,
        "BeginCompute {{ key: {key:?}, keep: {keep}, now: {now} }}"
    )
}

// Writes a `Finish`.
fn write_finish<K: Debug, V: Debug, E, W: fmt::Write>(
    name: &TurnName<K>,
    outcome: &Outcome<V, E>,
    now: u64,
    f: &mut Formatter<W>,
) -> fmt::Result {
    write!(f, "Finish {{ name: {name:?}, outcome: ")?;
    write_outcome(outcome, f)?;
    write!(f, ", now: {now} }}")
}

// Writes a step of nothing but a name.
fn write_of_turn<K: Debug, W: fmt::Write>(
    step: &str,
    name: &TurnName<K>,
    f: &mut Formatter<W>,
) -> fmt::Result {
    write!(f, "{step} {{ name: {name:?} }}")
}

// Writes a `RunPendingTasksUpTo`.
fn write_within<W: fmt::Write>(limit: u64, now: u64, f: &mut Formatter<W>) -> fmt::Result {
    write!(f, "RunPendingTasksUpTo {{ limit: {limit}, now: {now} }}")
}

// The parts are in functions of their own, since one large body is expensive to prove.
impl<K: Eq + Debug, V: Clone + Debug, C: CacheTypes<K, V>> Debug for Step<K, V, C> {
    fn fmt<W: fmt::Write>(&self, f: &mut Formatter<W>) -> fmt::Result {
        match self {
            Step::Get { key, now } => write_look("Get", key, *now, f),
            Step::ContainsKey { key, now } => write_look("ContainsKey", key, *now, f),
            Step::Insert { key, value, now } => write_write("Insert", key, value, *now, f),
            Step::OrInsert { key, value, now } => write_write("OrInsert", key, value, *now, f),
            Step::Invalidate { key, now } => write_look("Invalidate", key, *now, f),
            Step::Remove { key, now } => write_look("Remove", key, *now, f),
            Step::InvalidateAll => f.write_str("InvalidateAll"),
            Step::InvalidateIf { .. } => f.write_str("InvalidateIf { predicate: .. }"),
            Step::RunPendingTasks { now } => write!(f, "RunPendingTasks {{ now: {now} }}"),
            Step::RunPendingTasksUpTo { limit, now } => write_within(*limit, *now, f),
            Step::EntryCount => f.write_str("EntryCount"),
            Step::WeightedSize => f.write_str("WeightedSize"),
            Step::TakeNotice => f.write_str("TakeNotice"),
            Step::Begin {
                key,
                kind,
                replace,
                now,
            } => write_begin(key, *kind, *replace, *now, f),
            Step::BeginCompute { key, keep, now } => write_begin_compute(key, *keep, *now, f),
            Step::Finish { name, outcome, now } => write_finish(name, outcome, *now, f),
            Step::Abandon { name } => write_of_turn("Abandon", name, f),
            Step::Collect { name } => write_of_turn("Collect", name, f),
            Step::Leave { name } => write_of_turn("Leave", name, f),
        }
    }
}

// Writes a reply of one part.
fn write_one<T: Debug, W: fmt::Write>(name: &str, part: &T, f: &mut Formatter<W>) -> fmt::Result {
    write!(f, "{name}({part:?})")
}

// Writes a `Run`: the turn that was opened, and the entry that a compute gets.
fn write_run<K: Debug, V: Debug, W: fmt::Write>(
    name: &TurnName<K>,
    entry: &Option<Entry<K, V>>,
    f: &mut Formatter<W>,
) -> fmt::Result {
    write!(f, "Run({name:?}, {entry:?})")
}

impl<K: Eq + Debug, V: Clone + Debug, C: CacheTypes<K, V>> Debug for Reply<K, V, C> {
    fn fmt<W: fmt::Write>(&self, f: &mut Formatter<W>) -> fmt::Result {
        match self {
            Reply::Found(found) => write_one("Found", found, f),
            Reply::Contains(is_there) => write_one("Contains", is_there, f),
            Reply::Done => f.write_str("Done"),
            Reply::Counted(count) => write_one("Counted", count, f),
            Reply::Left(is_left) => write_one("Left", is_left, f),
            Reply::Noticed(notice) => write_one("Noticed", notice, f),
            Reply::Entered(entry) => write_one("Entered", entry, f),
            Reply::Run(name, entry) => write_run(name, entry, f),
            Reply::Wait(name) => write_one("Wait", name, f),
            Reply::Nothing => f.write_str("Nothing"),
            Reply::Failed(_) => f.write_str("Failed(..)"),
            Reply::Computed(result) => write_one("Computed", result, f),
            Reply::NotYet => f.write_str("NotYet"),
            Reply::Abandoned => f.write_str("Abandoned"),
            Reply::Ended => f.write_str("Ended"),
            Reply::Refused(refused) => write_one("Refused", refused, f),
            Reply::PredicateRefused(refused) => write_one("PredicateRefused", refused, f),
        }
    }
}
