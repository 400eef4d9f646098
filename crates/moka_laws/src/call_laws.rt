//! Laws about calls, for every list of accepted steps.
//!
//! They say what each call records and draws, when it may fail, and that all lists that calls make
//! are legal.
ghost use Rattle.moka_laws.specs.Each.{AfterSteps};
ghost use Rattle.moka_laws.specs.StepLaws.{StaysLegal, RecordsItsMoment, RecordsNoOther, InsertRunsOut, OrInsertRunsOut, WritesAloneRunOut};
ghost use Rattle.moka_laws.specs.StepLaws.{InsertTakesMemory, OthersTakeMemory, NoneIsLegal};
ghost use Rattle.std.specs.Prelude.{◌≡◌, ◌↔◌, ℕ, true, false, Some, List};
ghost use Rattle.moka_model.specs.Lives.{Settings};
ghost use Rattle.moka_model.specs.Steps.{AcceptedStep, events_in};
ghost use Rattle.moka_model.specs.Calls.{Call, Accepted, Left, RunPendingTasksUpTo, accepted};
ghost use Rattle.moka_laws.specs.Laws.{reply};
ghost use Rattle.moka_laws.specs.CallLaws.{looks, looks_of, EvictsAll, EvictsFewer, FlushesFirst};

/// The empty history is legal, and each call leaves a legal history legal.
pub fn calls_give_legal_lists<K: Eq, V, E>()
    ensures none { AfterSteps K V E (NoneIsLegal K.eq) }
    ensures next { AfterSteps K V E (StaysLegal K.eq) }
{}

/// The latest moment is the greatest one given to an accepted call that records its moment.
///
/// Calls that only read record none. A write that stores nothing records its moment too.
pub fn moments_are_recorded<K: Eq, V, E>()
    ensures { AfterSteps K V E (RecordsItsMoment K.eq) }
{}

/// The events of an accepted step are all at one moment: each records the call's moment, or none.
pub fn a_step_is_at_one_moment<K: Eq, V, E>()
    ensures { AfterSteps K V E (RecordsNoOther K.eq) }
{}

/// Which calls do a recorded lookup, of which key and at which moment.
///
/// - A `get`, an `or_insert` and an initializer's begin always do. That of a begin is turned down
///   exactly if the caller replaces a live value.
/// - A compute's begin does exactly if it opens its turn. No other call does.
pub fn lookups_are_recorded<K: Eq, V, E>()
    ensures { (settings : Settings K V) (steps : List (AcceptedStep K V E)) (call : Call K V E)
        (it : Accepted K V E)
        → accepted K.eq settings steps call ≡ Some it
        → looks it.step.events ≡ looks_of call it.reply }
{}

/// A write that finds 64 entries pending, or more, flushes first, within the flush limit.
///
/// The writes are an insert, an `or_insert` that finds nothing, and a finish with a value or a put.
/// At a capacity of 0 a write only records its moment.
pub fn a_write_flushes_first<K: Eq, V, E>()
    ensures { AfterSteps K V E (FlushesFirst K.eq) }
{}

/// A maintenance with a limit returns `true` exactly if one without a limit would evict more.
///
/// It returns `false` exactly if that would evict the same.
pub fn a_limited_maintenance_tells_what_is_left<K: Eq, V, E>()
    ensures left { (settings : Settings K V) (steps : List (AcceptedStep K V E)) (limit at : ℕ)
        → (reply K.eq settings (RunPendingTasksUpTo limit at) steps ≡ Some (Left true))
        ↔ EvictsFewer K.eq settings limit at (events_in steps) }
    ensures done { (settings : Settings K V) (steps : List (AcceptedStep K V E)) (limit at : ℕ)
        → (reply K.eq settings (RunPendingTasksUpTo limit at) steps ≡ Some (Left false))
        ↔ EvictsAll K.eq settings limit at (events_in steps) }
{}

/// Which calls run out of sequence numbers.
///
/// - An insert does exactly if something is stored and the next number is the greatest.
/// - An `or_insert` does exactly if, moreover, no value is live.
/// - No call that neither writes nor begins does.
pub fn writes_alone_run_out_of_numbers<K: Eq, V, E>()
    ensures write { AfterSteps K V E (InsertRunsOut K.eq) }
    ensures or_insert { AfterSteps K V E (OrInsertRunsOut K.eq) }
    ensures others { AfterSteps K V E (WritesAloneRunOut K.eq) }
{}

/// Which calls may run out of memory.
///
/// - An insert may exactly if the capacity is not 0.
/// - A `get` or a `remove` may exactly if it returns a value whose clone can fail.
/// - A collect may exactly if it returns an error, or a value of which some clone can fail to be
///   cloned.
/// - No other call that neither writes nor begins may.
pub fn writes_and_copies_alone_take_memory<K: Eq, V: Clone, E>()
    ensures write { AfterSteps K V E (InsertTakesMemory K.eq V.is_clone V.is_infallible) }
    ensures others { AfterSteps K V E (OthersTakeMemory K.eq V.is_clone V.is_infallible) }
{}
