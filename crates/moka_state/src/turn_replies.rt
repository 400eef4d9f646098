//! The results of the calls of turns as replies, in which a turn or a ticket appears by its name.
ghost use Rattle.std.specs.Prelude.{Ok, IfOk, IsErr};
ghost use Rattle.moka_state.specs.Begin.{FoundKeeps};
ghost use Rattle.moka_state.specs.Compute.{ShownKeeps};
ghost use Rattle.moka_state.specs.Given.{of_answer, of_begin, of_begin_compute, of_collect, of_done, of_finish};
ghost use Rattle.moka_state.specs.Replies.{HasNoNotice, IsRefusal, Leaves, ReplyEntryKeeps, Says};

use crate::answers::{
    Answer, Begun, BegunCompute, CollectRefused, Collected, FinishRefused, Finished,
};
use crate::step::Reply;
use moka_policy::policy::{CacheTypes, Refused};
use moka_turns::by_name::{name_of_ticket, name_of_turn};

/// Converts the result of a begin into a reply.
pub(crate) fn begin_reply<K: Eq + Drop, V: Clone, C: CacheTypes<K, V>>(
    begun: Result<Begun<K, V>, Refused>,
) -> Reply<K, V, C>
    ensures says { Says K.eq V.is_clone V.is_infallible (of_begin begun) result }
    ensures leaves { Leaves K.eq begun result }
    ensures refused { IsRefusal result → IsErr begun }
    ensures kept { IfOk begun (FoundKeeps C.keeps) → ReplyEntryKeeps C.keeps result }
{
    match begun {
        Ok(Begun::Found(entry)) => Reply::Entered(entry),
        Ok(Begun::Run(turn)) => Reply::Run(name_of_turn(turn), None),
        Ok(Begun::Wait(ticket)) => Reply::Wait(name_of_ticket(ticket)),
        Err(cause) => Reply::Refused(cause),
    }
}

/// Converts the result of the begin of a compute into a reply.
pub(crate) fn compute_reply<K: Eq + Drop, V: Clone, C: CacheTypes<K, V>>(
    begun: Result<BegunCompute<K, V>, Refused>,
) -> Reply<K, V, C>
    ensures says { Says K.eq V.is_clone V.is_infallible (of_begin_compute begun) result }
    ensures leaves { Leaves K.eq begun result }
    ensures refused { IsRefusal result → IsErr begun }
    ensures kept { IfOk begun (ShownKeeps C.keeps) → ReplyEntryKeeps C.keeps result }
{
    match begun {
        Ok(BegunCompute::Run(turn, entry)) => Reply::Run(name_of_turn(turn), entry),
        Ok(BegunCompute::Wait(ticket)) => Reply::Wait(name_of_ticket(ticket)),
        Err(cause) => Reply::Refused(cause),
    }
}

// Converts the outcome of a loader's turn into a reply.
fn answer_reply<K: Eq + Drop, V: Clone, C: CacheTypes<K, V>>(
    answer: Answer<K, V, C::Error>,
) -> Reply<K, V, C>
    ensures says { Says K.eq V.is_clone V.is_infallible (Ok (of_answer answer)) result }
    ensures leaves { Leaves {B = Unit {0}} K.eq (Ok answer) result }
    ensures accepted { ¬ (IsRefusal result) }
    ensures no_notice { HasNoNotice result }
{
    match answer {
        Answer::Entry(entry) => Reply::Entered(entry),
        Answer::Nothing => Reply::Nothing,
        Answer::Failed(error) => Reply::Failed(error),
    }
}

/// Converts the result of a finish into a reply.
pub(crate) fn finish_reply<K: Eq + Drop, V: Clone, C: CacheTypes<K, V>>(
    finished: Result<Finished<K, V, C::Error>, FinishRefused<K, V, C::Error>>,
) -> Reply<K, V, C>
    ensures says { Says K.eq V.is_clone V.is_infallible (of_finish finished) result }
    ensures leaves { Leaves K.eq finished result }
    ensures refused { IsRefusal result → IsErr finished }
    ensures no_notice { HasNoNotice result }
{
    match finished {
        Ok(Finished::Answer(answer)) => answer_reply(answer),
        Ok(Finished::Computed(result)) => Reply::Computed(result),
        Err(
            FinishRefused {
                turn,
                outcome: _outcome,
                cause,
            },
        ) => {
            let _ = name_of_turn(turn);
            Reply::Refused(cause)
        }
    }
}

/// Converts the result of a collect into a reply.
pub(crate) fn collect_reply<K: Eq + Drop, V: Clone, C: CacheTypes<K, V>>(
    collected: Result<Collected<K, V, C::Error>, CollectRefused<K>>,
) -> Reply<K, V, C>
    ensures says { Says K.eq V.is_clone V.is_infallible (of_collect collected) result }
    ensures leaves { Leaves K.eq collected result }
    ensures refused { IsRefusal result → IsErr collected }
    ensures no_notice { HasNoNotice result }
{
    match collected {
        Ok(Collected::Ready(answer)) => answer_reply(answer),
        Ok(Collected::NotYet(ticket)) => {
            let _ = name_of_ticket(ticket);
            Reply::NotYet
        }
        Ok(Collected::Abandoned) => Reply::Abandoned,
        Ok(Collected::Ended) => Reply::Ended,
        Err(CollectRefused { ticket, cause }) => {
            let _ = name_of_ticket(ticket);
            Reply::Refused(cause)
        }
    }
}

/// Converts a result without a value into a reply.
pub(crate) fn done_reply<K: Eq + Drop, V: Clone, C: CacheTypes<K, V>>(
    done: Result<(), Refused>,
) -> Reply<K, V, C>
    ensures says { Says K.eq V.is_clone V.is_infallible (of_done done) result }
    ensures leaves { Leaves K.eq done result }
    ensures refused { IsRefusal result → IsErr done }
    ensures no_notice { HasNoNotice result }
{
    match done {
        Ok(()) => Reply::Done,
        Err(cause) => Reply::Refused(cause),
    }
}
