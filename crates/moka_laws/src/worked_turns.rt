//! Worked cases of turns. The prover computes each.
ghost use Rattle.std.specs.Prelude.{◌≡◌, nat_eq, true, false, Some, None, [], ◌∷◌};
ghost use Rattle.moka_model.specs.declared.notification.RemovalCause.TheVariants.{Replaced};
ghost use Rattle.moka_model.specs.declared.turns.Kind.TheVariants.{With, Try, Compute};
ghost use Rattle.moka_model.specs.Calls.{Found, Contains, Done, Noticed, GaveError, StillNone, Unchanged, Inserted, ReplacedWith, Removed};
ghost use Rattle.moka_model.specs.Calls.{NotYet, WasAbandoned, HasEnded};
ghost use Rattle.moka_laws.specs.WorkedTurns.{entry, one_turn, two_kinds, abandoned, computes, turned_down, others, replies_of, opened};
ghost use Rattle.moka_laws.specs.WorkedTurns.{shown, waits, entered, replies, plain, stored_at_0, begun_at_5, accessed};
ghost use Rattle.moka_laws.specs.WorkedTurns.{LeavesLiveAt5, one_hit, computed_at_5, replaced, stored_meanwhile, invalidated_meanwhile};
ghost use Rattle.moka_laws.specs.WorkedTurns.{overwritten_meanwhile, short_lived, begun_expired, begun_hidden};
ghost use Rattle.moka_model.specs.declared.turns.Op.TheVariants.{Put, Remove, Nop};

/// Turns of initializers: one turn with a waiting caller, two kinds, an abandoned turn, and a
/// replaced value.
pub fn initializers()
    ensures of_one_turn { replies_of one_turn ≡ opened 0 With 5 ∷ waits 0 With 5 ∷ Some (Found None)
        ∷ entered 5 7 true false ∷ Some (Found (Some 7)) ∷ entered 5 7 false false ∷ None
        ∷ opened 2 With 5 ∷ [] }
    ensures of_two_kinds { replies_of two_kinds ≡ opened 0 With 5 ∷ waits 0 With 5 ∷ opened 1 Try 5
        ∷ Some (GaveError 9) ∷ Some NotYet ∷ entered 5 7 true false ∷ entered 5 7 false false ∷ [] }
    ensures of_none { replies_of abandoned ≡ opened 0 With 5 ∷ waits 0 With 5 ∷ Some Done
        ∷ Some WasAbandoned
        ∷ opened 1 With 5 ∷ [] }
    ensures replaced { replies_of turned_down ≡ Some Done ∷ opened 1 With 1 ∷ entered 1 31 true true
        ∷ entered 1 31 false false
        ∷ Some (Noticed (Some (record { key = 1; value = 30; cause = Replaced }))) ∷ [] }
{}

/// Turns of computes: a put, an overwrite, a removal and a `Nop`, a waiting caller, and a `Nop`
/// with and without a kept value.
pub fn of_computes()
    ensures four { replies_of computes ≡ opened 0 Compute 5 ∷ Some (Inserted (entry 5 1 true false))
        ∷ shown 2 5 1 ∷ Some (ReplacedWith (entry 5 2 true true)) ∷ shown 4 5 2
        ∷ Some (Removed (entry 5 2 false false)) ∷ Some (Contains false) ∷ opened 5 Compute 5
        ∷ waits 5 Compute 5 ∷ Some (StillNone 5) ∷ Some HasEnded ∷ [] }
    ensures kept { replies_of others ≡ entered 1 3 true false ∷ entered 1 3 false false
        ∷ shown 1 1 3 ∷ Some (StillNone 1) ∷ shown 2 1 3
        ∷ Some (Unchanged (entry 1 3 false false)) ∷ None ∷ None ∷ [] }
{}

/// A value is written at 0, and a compute at 5 finds it. The hit changes when it was last accessed,
/// and leaves it live, so the compute returns that value.
///
/// If the lifetime that the expiry gives for the hit ends at once, the finish finds nothing.
pub fn a_compute_after_a_while()
    ensures leaves_live { LeavesLiveAt5 plain stored_at_0 }
    ensures accessed_before { accessed stored_at_0 ≡ Some 0 }
    ensures accessed_then { accessed begun_at_5 ≡ Some 5 }
    ensures removes { replies_of (computed_at_5 Remove)
        ≡ Some Done ∷ shown 1 1 30 ∷ Some (Removed (entry 1 30 false false)) ∷ [] }
    ensures puts { replies_of (computed_at_5 (Put 31))
        ≡ Some Done ∷ shown 1 1 30 ∷ Some (ReplacedWith (entry 1 31 true true)) ∷ [] }
    ensures leaves { replies_of (computed_at_5 Nop)
        ≡ Some Done ∷ shown 1 1 30 ∷ Some (Unchanged (entry 1 30 false false)) ∷ [] }
    ensures ended { replies nat_eq one_hit (computed_at_5 Remove) []
        ≡ Some Done ∷ shown 1 1 30 ∷ Some (StillNone 1) ∷ [] }
{}

/// A ticket gets the flag of the turn's end: its value replaced a live one.
pub fn a_value_that_replaces()
    ensures { replies_of replaced ≡ Some Done ∷ opened 1 With 1 ∷ waits 1 With 1
        ∷ entered 1 31 true true ∷ entered 1 31 false true ∷ [] }
{}

/// Another call comes between the begin and the finish of a compute.
///
/// A put goes by what the begin found, a removal by what the finish finds. `Nop` returns what the
/// begin kept.
pub fn a_call_between()
    ensures puts_over_new { stored_meanwhile (Put 9) ≡ Some (Inserted (entry 5 9 true false)) }
    ensures removes_new { stored_meanwhile Remove ≡ Some (Removed (entry 5 8 false false)) }
    ensures leaves_new { stored_meanwhile Nop ≡ Some (StillNone 5) }
    ensures puts_anew { invalidated_meanwhile (Put 9) ≡ Some (ReplacedWith (entry 5 9 true true)) }
    ensures removes_nothing { invalidated_meanwhile Remove ≡ Some (StillNone 5) }
    ensures returns_kept { invalidated_meanwhile Nop ≡ Some (Unchanged (entry 5 8 false false)) }
    ensures puts_over_other { overwritten_meanwhile (Put 9)
        ≡ Some (ReplacedWith (entry 5 9 true true)) }
    ensures removes_other { overwritten_meanwhile Remove ≡ Some (Removed (entry 5 7 false false)) }
    ensures returns_first { overwritten_meanwhile Nop ≡ Some (Unchanged (entry 5 8 false false)) }
{}

/// A compute is shown no expired value and no invalidated one.
pub fn a_compute_is_shown_what_is_live()
    ensures expired { replies nat_eq short_lived begun_expired []
        ≡ Some Done ∷ opened 1 Compute 1 ∷ Some (Inserted (entry 1 31 true false)) ∷ [] }
    ensures hidden { replies_of begun_hidden ≡ Some Done ∷ Some Done ∷ opened 1 Compute 1 ∷ [] }
{}
