//! `Debug` of each step, and of the outcomes of a finish.

use moka::policy::{ManualClock, NoExpiry, NoPredicate, NoWeigher};
use moka::ready::{FoldState, ReadyTypes};
use moka_model::turns::{Kind, Op, Outcome};
use moka_state::step::Step;
use moka_state::turn_name::TurnName;
use std::alloc::{AllocError, Global};
use std::sync::Arc;
use std::test::Fail;

type Types = ReadyTypes<FoldState, NoWeigher, NoExpiry, ManualClock, NoPredicate, u64>;

type NumberStep = Step<u64, u64, Types>;

/// The text of each step, about key 5 at moment 7. A turn has the number 3.
const TEXTS: [&str; 25] = [
    "Get { key: 5, now: 7 }",
    "ContainsKey { key: 5, now: 7 }",
    "Insert { key: 5, value: 50, now: 7 }",
    "OrInsert { key: 5, value: 50, now: 7 }",
    "Invalidate { key: 5, now: 7 }",
    "Remove { key: 5, now: 7 }",
    "InvalidateAll",
    "InvalidateIf { predicate: .. }",
    "RunPendingTasks { now: 7 }",
    "RunPendingTasksUpTo { limit: 2, now: 7 }",
    "EntryCount",
    "WeightedSize",
    "TakeNotice",
    "Begin { key: 5, kind: With, replace: None, now: 7 }",
    "Begin { key: 5, kind: Optionally, replace: Some(true), now: 7 }",
    "BeginCompute { key: 5, keep: true, now: 7 }",
    "Finish { name: TurnName { number: 3, kind: With, key: 5 }, outcome: Value(50), now: 7 }",
    "Finish { name: TurnName { number: 3, kind: Optionally, key: 5 }, outcome: Nothing, now: 7 }",
    "Finish { name: TurnName { number: 3, kind: Try, key: 5 }, outcome: Failed(..), now: 7 }",
    "Finish { name: TurnName { number: 3, kind: Compute, key: 5 }, outcome: Op(Put(50)), now: 7 }",
    "Finish { name: TurnName { number: 3, kind: Compute, key: 5 }, outcome: Op(Remove), now: 7 }",
    "Finish { name: TurnName { number: 3, kind: Compute, key: 5 }, outcome: Op(Nop), now: 7 }",
    "Abandon { name: TurnName { number: 3, kind: With, key: 5 } }",
    "Collect { name: TurnName { number: 3, kind: Try, key: 5 } }",
    "Leave { name: TurnName { number: 3, kind: Compute, key: 5 } }",
];

/// Returns the step of a text.
fn step_of(alloc: Global, text: &str) -> Result<NumberStep, AllocError> {
    let (key, value, now) = (Arc::new(alloc, 5)?, 50, 7);
    Ok(match text.split_whitespace().next().unwrap_or("") {
        "Get" => Step::Get { key, now },
        "ContainsKey" => Step::ContainsKey { key, now },
        "Insert" => Step::Insert { key, value, now },
        "OrInsert" => Step::OrInsert { key, value, now },
        "Invalidate" => Step::Invalidate { key, now },
        "Remove" => Step::Remove { key, now },
        "InvalidateAll" => Step::InvalidateAll,
        "InvalidateIf" => Step::InvalidateIf {
            predicate: Arc::new(alloc, NoPredicate)?,
        },
        "RunPendingTasks" => Step::RunPendingTasks { now },
        "RunPendingTasksUpTo" => Step::RunPendingTasksUpTo { limit: 2, now },
        "EntryCount" => Step::EntryCount,
        "WeightedSize" => Step::WeightedSize,
        "TakeNotice" => Step::TakeNotice,
        what => step_of_turn(alloc, text, what, key)?,
    })
}

/// Returns the step about a turn. Its kind says how it ends, but for a compute.
fn step_of_turn(
    alloc: Global,
    text: &str,
    what: &str,
    key: Arc<u64>,
) -> Result<NumberStep, AllocError> {
    let (kind, outcome) = match text {
        _ if text.contains("With") => (Kind::With, Outcome::Value(50)),
        _ if text.contains("Optionally") => (Kind::Optionally, Outcome::Nothing),
        _ if text.contains("Try") => (Kind::Try, Outcome::Failed(Arc::new(alloc, 9)?)),
        _ if text.contains("Put") => (Kind::Compute, Outcome::Op(Op::Put(50))),
        _ if text.contains("Remove") => (Kind::Compute, Outcome::Op(Op::Remove)),
        _ => (Kind::Compute, Outcome::Op(Op::Nop)),
    };
    let (number, keep, replace, now) = (3, true, text.contains("true").then_some(true), 7);
    if what == "Begin" {
        return Ok(Step::Begin {
            key,
            kind,
            replace,
            now,
        });
    }
    if what == "BeginCompute" {
        return Ok(Step::BeginCompute { key, keep, now });
    }
    let name = TurnName { number, kind, key };
    Ok(match what {
        "Finish" => Step::Finish { name, outcome, now },
        "Abandon" => Step::Abandon { name },
        "Collect" => Step::Collect { name },
        _ => Step::Leave { name },
    })
}

/// Each step is written with its name and its parts.
#[test]
fn each_step_is_written_in_full(rt: HostRuntime) -> Result<(), Fail> {
    for text in TEXTS {
        let step = step_of(rt.alloc(), text)?;
        assert_eq!(rt; format!(in rt.alloc(); "{step:?}")?.as_str(), text);
    }
    Ok(())
}
