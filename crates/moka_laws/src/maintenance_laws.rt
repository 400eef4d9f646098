//! Laws about a maintenance of any two queues.
//!
//! Each is the contract of a function without code. It holds for every weight, capacity, liveness
//! test, admission rule, limit and pair of queues.
ghost use Rattle.std.specs.Prelude.{◌≡◌, ℕ, ◌<◌, Option, Some, None, List, take};
ghost use Rattle.moka_model.specs.Maintenance.{Part, done};
ghost use Rattle.moka_laws.specs.QueueLaws.{AtEach, AtEachCapacity, AtNoCapacity, AtEachLimit, AtEachRule, AtEachPending, FrontIsEnough};
ghost use Rattle.moka_laws.specs.QueueLaws.{NoneShorterIsEnough, NoneWaits, AllIsLive, DeadLeaveFirst, LiveLeaveBehind, FrontLeaves};
ghost use Rattle.moka_laws.specs.QueueLaws.{PartsGoOn, NoPartIsLeft, NothingIsLost, EvictsTheRest, LeavesTheSame, IsWithin};
ghost use Rattle.moka_laws.specs.QueueLaws.{JustTheDeadLeave, AllTheLivingStay, StaysInOrder, ShortestLeaves, ShortestIsMissing};
ghost use Rattle.moka_laws.specs.QueueLaws.{ExcessLeaves, ExcessIsMissing, JustTheDeadEverLeave, AllTheLivingEverStay, IsKept};
ghost use Rattle.moka_laws.specs.QueueLaws.{IsDoneWithin, NextExceeds, DropsTooHeavy, AdmitsWithRoom, AdmitsWinner, DropsLoser};
ghost use Rattle.moka_laws.specs.QueueLaws.{JudgesOneByOne};
ghost use Rattle.moka_laws.specs.QueueLaws.{FrontIsPrefix};

/// `front` is the length of the shortest prefix to evict.
///
/// Weight that fits on its own fits beside what that prefix leaves, and not beside what a shorter
/// one leaves.
pub fn the_front_is_shortest<X>()
    ensures enough { (weight : X → ℕ) (capacity : Option ℕ) → FrontIsEnough weight capacity }
    ensures none_shorter { (weight : X → ℕ) (capacity : Option ℕ)
        → NoneShorterIsEnough weight capacity }
    ensures within { (weight : X → ℕ) (capacity : Option ℕ) → FrontIsPrefix weight capacity }
{}

/// After a full maintenance nothing is pending, all that is stored is live, and its weight is
/// within the capacity, if there is one.
pub fn all_is_done<X>()
    ensures none_waits { AtEach X NoneWaits }
    ensures all_live { AtEach X AllIsLive }
    ensures within { AtEachCapacity X IsWithin }
{}

/// If all live elements fit the capacity, only the dead are evicted, residents before pending ones.
/// Each live pending one is admitted, in order, whatever the admission rule.
pub fn where_all_fit_just_the_dead_leave<X>()
    ensures leaving { AtEachCapacity X JustTheDeadLeave }
    ensures admitted { AtEachCapacity X AllTheLivingStay }
{}

/// The same holds without a capacity.
pub fn without_a_capacity<X>()
    ensures leaving { AtNoCapacity X JustTheDeadEverLeave }
    ensures admitted { AtNoCapacity X AllTheLivingEverStay }
{}

/// Nothing is lost or doubled, with or without a limit.
///
/// As many elements pass any test before a maintenance as pass it, together, among the evicted and
/// the remaining ones.
pub fn nothing_is_lost<X>()
    ensures { AtEachLimit X NothingIsLost }
{}

/// The dead are evicted first, residents before pending ones. All that is evicted after them is
/// live.
pub fn the_dead_leave_first<X>()
    ensures dead { AtEach X DeadLeaveFirst }
    ensures live { AtEach X LiveLeaveBehind }
{}

/// If every pending element wins, as under LRU, and none is heavier than the capacity, only the
/// access order decides.
///
/// After the dead, the shortest prefix of the live elements is evicted that brings them within the
/// capacity. The rest stays, in order.
pub fn the_order_of_use_decides<X>()
    ensures in_order { AtEachCapacity X StaysInOrder }
    ensures leaving { AtEachCapacity X ShortestLeaves }
    ensures admitted { AtEachCapacity X ShortestIsMissing }
{}

/// Whatever the weights and the admission rule, residents are evicted for size by access order.
///
/// Append the newly admitted to the live residents: what is evicted is a prefix of that list. The
/// weights and the rule only say how many, and which pending ones are admitted.
pub fn a_front_of_the_order_of_use_leaves<X>()
    ensures { AtEach X FrontLeaves }
{}

/// A maintenance evicts no more than its limit.
///
/// What is done is a prefix of the parts: all of them if there is no limit, or if it suffices.
/// Otherwise the next part would exceed the limit.
pub fn a_limit_is_kept<X>()
    ensures kept { (ps : List (Part X)) (limit : ℕ) → IsKept limit ps }
    ensures whole { (ps : List (Part X)) → done None ps ≡ ps }
    ensures enough { (ps : List (Part X)) (limit : ℕ) → IsDoneWithin limit ps }
    ensures front { (ps : List (Part X)) (limit : ℕ)
        → (n : ℕ) × (done (Some limit) ps ≡ take n ps) }
    ensures next { (ps : List (Part X)) (limit : ℕ) → NextExceeds limit ps }
{}

/// If every element weighs 1 and every pending one wins, as under LRU, the least recently used are
/// evicted after the dead.
///
/// They are as many as the live elements exceed the capacity.
pub fn the_least_recently_used_leave<X>()
    ensures leaving { AtEachCapacity X ExcessLeaves }
    ensures admitted { AtEachCapacity X ExcessIsMissing }
{}

/// A maintenance that a limit cut short is resumed by the next one.
///
/// The parts left undone are the parts of the next maintenance. Together they do what one without a
/// limit does. After a full maintenance nothing is left to do.
pub fn it_goes_on_where_it_ended<X>()
    ensures parts { AtEach X PartsGoOn }
    ensures leaving { AtEachLimit X EvictsTheRest }
    ensures after { AtEachLimit X LeavesTheSame }
    ensures nothing_to_do { AtEach X NoPartIsLeft }
{}

/// How a single pending element is judged, beside live residents within the capacity.
///
/// It is dropped if it is heavier than the capacity, and admitted if there is room. Otherwise its
/// victims are the shortest prefix of the residents that makes room. If it wins, they are evicted
/// and it is admitted; if not, it is dropped.
pub fn one_that_waits_is_judged<X>()
    ensures too_heavy { AtEachPending X DropsTooHeavy }
    ensures room { AtEachPending X AdmitsWithRoom }
    ensures wins { AtEachPending X AdmitsWinner }
    ensures loses { AtEachPending X DropsLoser }
{}

/// Pending elements are judged one by one, if all are live and the residents are within the
/// capacity.
///
/// The first is judged as if it were the only one. The rest is the maintenance of what that leaves.
pub fn those_that_wait_are_judged_one_by_one<X>()
    ensures { AtEachRule X JudgesOneByOne }
{}
