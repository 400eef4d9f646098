//! Laws about turns (single-flight permits), for every list of accepted steps, mostly the legal
//! ones.
//!
//! Each is the contract of a function without code, which the prover checks.
ghost use Rattle.std.specs.Prelude.{◌≡◌, ◌↔◌, true, ◌≤◌, ◌+◌, List};
ghost use Rattle.moka_model.specs.Turns.{HasOneOpen, Name};
ghost use Rattle.moka_model.specs.Steps.{turns};
ghost use Rattle.moka_laws.specs.TurnLaws.{NumbersName, TicketsMatch, CollectsGive, OpensExactly, ComputesAtOnce, ComputesExactly};
ghost use Rattle.moka_laws.specs.TurnLaws.{FindsAcceptable, MovesShow, HeldSuffice, FinishIsRejectedExactly, AbandonIsRejectedExactly};
ghost use Rattle.moka_laws.specs.TurnLaws.{CollectIsRejectedExactly, LeaveIsRejectedExactly, SpendsNoMore, EndsOnce, AreUnequal};
ghost use Rattle.moka_laws.specs.TurnLaws.{FinishTells};
ghost use Rattle.moka_laws.specs.Each.{AfterSteps, AfterCalls};
ghost use Rattle.moka_model.specs.Lives.{Settings};
ghost use Rattle.moka_laws.specs.TicketLaws.{Made, AreMade, steps_made, tickets_got, tickets_spent, unspent_of};

use moka_model::notification::RemovalCause;
use moka_model::turns::Op;

/// No number names two turns, and at most one turn is open for each key and kind.
///
/// So two callers never compute a value for the same key and kind at once, and kinds never share a
/// turn.
pub fn turns_are_told_apart<K: Eq, V, E>()
    ensures numbers { AfterCalls K V E K.eq (λ _ steps. NumbersName steps) }
    ensures one_open { AfterCalls K V E K.eq (λ _ steps. HasOneOpen K.eq (turns steps)) }
{}

/// When a begin opens a turn.
///
/// - That of an initializer exactly if no acceptable value is live and no turn of the key and kind
///   is open.
/// - That of a compute exactly if no compute of the key is open.
/// - A begin that returns a value returns one that is live and acceptable.
pub fn a_begin_opens_exactly_where_none_is_open<K: Eq, V, E>()
    ensures initializers { AfterSteps K V E (OpensExactly K.eq) }
    ensures computes { AfterSteps K V E (ComputesExactly K.eq) }
    ensures finds { AfterSteps K V E (FindsAcceptable K.eq) }
{}

/// What a compute returns that keeps a clone of the live value.
///
/// It finishes at the moment of its begin, with no step in between. If a value is live, its lookup
/// leaves it live at that moment: the lifetime that the expiry gives for a hit does not end at once.
///
/// - A put returns `ReplacedWith` if a value was live, else `Inserted`.
/// - A removal returns `Removed` with the live value, else `StillNone`.
/// - `Nop` returns `Unchanged` with the live value, else `StillNone`.
pub fn a_compute_in_one_go_is_answered_by_what_is_live<K: Eq, V, E>()
    ensures { AfterCalls K V E K.eq (ComputesAtOnce K.eq) }
{}

/// A finish with a value says whether that was written over a live one, and tickets get the same
/// flag.
///
/// It looks just before the write: after the flush, if the write flushes first.
pub fn a_finish_tells_what_its_write_replaced<K: Eq, V, E>()
    ensures { AfterSteps K V E (FinishTells K.eq) }
{}

/// Two [`Op`]s are equal exactly if both put equal values, both remove, or both do nothing.
pub fn ops_are_equal_where_they_do_the_same<V: PartialEq>()
    ensures puts { (v w : V) → ⟦<Op<V> as PartialEq>⟧.eq (Op.Put v) (Op.Put w) ≡ V.eq v w }
    ensures removes { ⟦<Op<V> as PartialEq>⟧.eq Op.Remove Op.Remove ≡ true }
    ensures nothing { ⟦<Op<V> as PartialEq>⟧.eq Op.Nop Op.Nop ≡ true }
    ensures puts_or_removes { (v : V) → AreUnequal ⟦<Op<V> as PartialEq>⟧.eq (Op.Put v) Op.Remove }
    ensures puts_or_nothing { (v : V) → AreUnequal ⟦<Op<V> as PartialEq>⟧.eq (Op.Put v) Op.Nop }
    ensures removes_or_nothing { AreUnequal ⟦<Op<V> as PartialEq>⟧.eq Op.Remove Op.Nop }
{}

/// Two causes are equal exactly if they are the same.
pub fn causes_are_equal_where_they_are_the_same()
    ensures { (a b : RemovalCause) → (⟦<RemovalCause as PartialEq>⟧.eq a b ≡ true) ↔ (a ≡ b) }
{}

/// The tickets of a name that calls got are as many as its spent and unspent ones together. A name
/// is a number, a kind and a key.
///
/// A call gets a ticket if it returns `Wait` with that name. A leave of the name spends one, and so
/// does a collect of the name that does not return `NotYet`. Since this holds of each prefix of the
/// calls, each ticket is spent after a wait of its own, of the same name.
pub fn tickets_match_the_waits_of_their_name<K: Eq, V, E>()
    ensures unspent { (settings : Settings K V) (made : List (Made K V E)) (name : Name K)
        → AreMade K.eq settings made
        → tickets_got K.eq name made
        ≡ tickets_spent K.eq name made + unspent_of K.eq name (turns (steps_made made)) }
    ensures spent { (settings : Settings K V) (made : List (Made K V E)) (name : Name K)
        → AreMade K.eq settings made
        → tickets_spent K.eq name made ≤ tickets_got K.eq name made }
{}

/// The waits for a turn are as many as its spent and unspent tickets together.
///
/// Since each prefix of a legal history is legal, each ticket is spent after a wait of its own.
pub fn tickets_match_the_waits<K: Eq, V, E>()
    ensures unspent { AfterCalls K V E K.eq (λ _ steps. TicketsMatch steps) }
    ensures spent { AfterCalls K V E K.eq (λ _ steps. SpendsNoMore steps) }
{}

/// A ticket gets the outcome of a turn of its name, which ended with that after every wait for it.
///
/// An abandoned turn gives no outcome to anyone. A turn ends at most once.
pub fn a_ticket_gets_the_outcome_of_its_turn<K: Eq, V, E>()
    ensures collects { AfterCalls K V E K.eq (CollectsGive K.eq) }
    ensures once { AfterCalls K V E K.eq (λ _ steps. EndsOnce steps) }
{}

/// Which calls of turns are rejected.
///
/// - A finish exactly if its outcome does not fit the kind, or no open turn has the name.
/// - An abandon exactly if no open turn has the name.
/// - A collect and a leave exactly if no turn of the name has an unspent ticket.
pub fn unknown_names_are_refused<K: Eq, V, E>()
    ensures finish { AfterSteps K V E (FinishIsRejectedExactly K.eq) }
    ensures abandon { AfterSteps K V E (AbandonIsRejectedExactly K.eq) }
    ensures collect { AfterSteps K V E (CollectIsRejectedExactly K.eq) }
    ensures leave { AfterSteps K V E (LeaveIsRejectedExactly K.eq) }
{}

/// What each step does to turns follows from its call and its result.
///
/// - A turn is opened if the result is `Run`, and waited for if it is `Wait`.
/// - A turn is ended by a finish with that outcome, or by an abandon.
/// - A ticket is spent by a leave, or by a collect whose result is not `NotYet`.
pub fn moves_show_in_calls_and_answers<K: Eq, V, E>()
    ensures { AfterCalls K V E K.eq (MovesShow K.eq) }
{}

/// A state may forget every turn that has ended and has no unspent tickets.
///
/// The other turns determine the result of every call, and each step makes them from those before
/// it.
pub fn other_turns_may_be_forgotten<K: Eq, V, E>()
    ensures { AfterCalls K V E K.eq (HeldSuffice K.eq) }
{}
