//! Tables of scenes.

use crate::scene::{EACH, play};
use std::alloc::Global;
use std::process::Abort;
use std::rt::Clock;
use std::sync::Wait;
use std::test::Fail;
use std::thread::Threads;

/// Scenes of one thread: the number of passes, the first sequence number and the capacity # rows of one thread # rows of
/// many # the order of the history # what came of the loads. Behind the rows a pass but the last calls once
/// more, since the cache is not closed without the last one.
const ALONE: [&str; 7] = [
    // Two passes call in turn.
    "2 0 200 # 0 insert 1 10 = Done; 1 get 1 = Found(10); 0 leave 7 1 = Refused(UnknownTicket) # # 0 1 0 0
        # [0, 0, 0, 0, 0, 0]",
    // A cache without passes is closed with none.
    "0 0 200 # # # # [0, 0, 0, 0, 0, 0]",
    // Three passes are handed in in another order.
    "3 0 200 # 2 insert 1 10 = Done; 0 insert 2 20 = Done; 0 insert 1 30 = Done; 1 get 1 = Found(30);
        2 get 2 = Found(20) # # 2 0 0 1 2 1 # [0, 0, 0, 0, 0, 0]",
    // A live value is returned: the closure does not run, and the history gets a begin.
    "1 0 200 # 0 insert 1 10 = Done; 0 load 1 9 = Given(10) # # 0 0 # [0, 1, 0, 0, 0, 0]",
    // The value of the closure is stored: the history gets a begin and a finish.
    "1 0 200 # 0 load 1 9 = Given(9); 0 get 1 = Found(9) # # 0 0 0 # [1, 1, 0, 0, 0, 0]",
    // Without a number for the turn nothing is held: the history gets the refused begin.
    "1 18446744073709551615 200 # 0 load 1 9 = Failed(NumbersUsedUp) # # 0 # [0, 0, 0, 0, 1, 0]",
    // Without a number for the write the turn is held, and ends by what is handed back.
    "1 18446744073709551614 200 # 0 load 1 9 = Holds(NumbersUsedUp, false, 18446744073709551614, 1); 0 end_held = Done;
        0 abandon 18446744073709551614 1 = Refused(UnknownTurn) # # 0 0 0 0 # [1, 0, 1, 0, 0, 0]",
];

/// Scenes of many threads. Who sleeps is known to sleep before it is to be woken, so no other schedule
/// makes one pass.
const TOGETHER: [&str; 11] = [
    // A load gets the value of a turn that a step opened, whichever comes first.
    "2 0 200 # 0 begin 1 = Run(0) # finish 0 1 7 = Entered(7); join 1 = Is(true) | load 1 9 = Given(7) #
        # [0, 1, 0, 0, 0, 0]",
    // A finish wakes a sleeper. It has three entries: a begin, a collect too early, and one that is not.
    "2 0 200 # 0 begin 1 = Run(0) # sees 2 = Is(true); nap 50; others = Counted(2); finish 0 1 7 = Entered(7);
        join 1 = Is(true) | load 1 9 = Given(7) # 0 1 1 0 1 0 # [0, 1, 0, 0, 0, 0]",
    // An abandon wakes a sleeper, whose closure runs.
    "2 0 200 # 0 begin 1 = Run(0) # sees 2 = Is(true); nap 50; others = Counted(2); abandon 0 1 = Done;
        join 1 = Is(true) | load 1 9 = Given(9) # 0 1 1 0 1 1 1 0 # [1, 1, 0, 0, 0, 0]",
    // Both wake two sleepers. After an abandon one closure runs, and both get its value.
    "3 0 200 # 0 begin 1 = Run(0) # sees 4 = Is(true); nap 50; others = Counted(4); finish 0 1 7 = Entered(7);
        join 2 = Is(true) | load 1 9 = Given(7) # # [0, 2, 0, 0, 0, 0]",
    "3 0 200 # 0 begin 1 = Run(0) # sees 4 = Is(true); nap 50; others = Counted(4); abandon 0 1 = Done;
        join 2 = Is(true) | load 1 9 = Given(9) # # [1, 2, 0, 0, 0, 0]",
    // Neither a finish of an unknown turn nor the end of a turn of another key wakes a sleeper.
    "2 0 200 # 0 begin 1 = Run(0) # sees 2 = Is(true); finish 7 1 8 = Refused(UnknownTurn);
        nap 50; others = Counted(2); finish 0 1 7 = Entered(7); join 1 = Is(true) | load 1 9 = Given(7)
        # 0 1 1 0 0 1 0 # [0, 1, 0, 0, 0, 0]",
    "2 0 200 # 0 begin 1 = Run(0); 0 begin 2 = Run(1) # sees 2 = Is(true); finish 1 2 8 = Entered(8);
        nap 50; others = Counted(2); finish 0 1 7 = Entered(7); join 1 = Is(true) | load 1 9 = Given(7)
        # 0 0 1 1 0 0 1 0 # [0, 1, 0, 0, 0, 0]",
    // A load whose ticket another caller spends fails, and holds nothing.
    "2 0 200 # 0 begin 1 = Run(0) # sees 2 = Is(true); leave 0 1 = Done; finish 0 1 7 = Entered(7);
        join 1 = Is(true) | load 1 9 = Failed(UnknownTicket) # 0 1 1 0 0 1 0 # [0, 0, 0, 0, 1, 0]",
    // A load whose turn another caller abandons fails, and holds nothing.
    "2 0 200 # # load_told 2 9 = Failed(UnknownTurn) | asked 1 = Is(true); abandon 0 2 = Done; tell
        # 0 1 0 0 # [1, 0, 0, 0, 1, 0]",
    // Two threads find each what they write, 64 times.
    "2 0 200 # # write_all 1 = Is(true) | write_all 65 = Is(true) # # [0, 0, 0, 0, 0, 0]",
    // 200 loaders wait for one turn, and each later turn is abandoned, since its value has no clone. So
    // all closures but one run. The last loader gives up behind 200 abandoned turns, and holds nothing.
    // Who gives up earlier is not alone, and who gives up later runs its closure.
    "201 0 200 # 0 begin 1 = Run(0) # sees 400 = Is(true); abandon 0 1 = Done; watch 200 = Is(true)
        | load_scarce 1 12 199; end_held # # [199, 0, 199, 0, 1, 0]",
];

/// Scenes of two threads that make random calls. The history has those of both.
const RANDOM: [&str; 2] = [
    "2 0 16 # # random 2 = Is(true); sees 400 = Is(true) | random 3 = Is(true); sees 400 = Is(true)",
    "2 0 4 # # random 4 = Is(true); sees 400 = Is(true) | random 5 = Is(true); sees 400 = Is(true)",
];

fn play_all<W>(rt: W, alloc: Global, scripts: &[&'static str]) -> Result<(), Fail>
where
    W: Wait + Clock + Threads + Abort + Copy + Drop + Send + Sync,
{
    for script in scripts {
        play(rt, alloc, script, 0)?;
    }
    Ok(())
}

/// Passes call and load in turn, as the table says. Each cache is closed with all of its passes in
/// another order, and not without one.
#[test]
fn passes_call_by_turns(rt: HostRuntime) -> Result<(), Fail> {
    play_all(rt, rt.alloc(), &ALONE)
}

/// Loads wait, wake, and give up, as the table says.
#[test]
fn loads_wait_for_turns(rt: HostRuntime) -> Result<(), Fail> {
    play_all(rt, rt.alloc(), &TOGETHER)
}

/// An owned cache, given the steps of a recorded history of random calls in their order, gives the
/// recorded replies.
#[test]
fn an_owned_cache_replays_random_calls(rt: HostRuntime) -> Result<(), Fail> {
    play_all(rt, rt.alloc(), &RANDOM)
}

const REFUSED_COLLECT: &str =
    "2 0 200 # 0 begin 1 = Run(0) # sees 2 = Is(true); finish 0 1 7 = Entered(7); join 1 = Is(true)
    | load 1 9; get 1 = Found(7); end_held; leave 0 1 = Refused(UnknownTicket); get 1 = Found(7)";

/// A waiter whose clone of the value is refused holds its ticket. The step that leaves it is made
/// later, behind another call, and spends it; the value stays. Each clone is refused in turn, so
/// that of the finish too, which is made again.
#[test]
fn a_refused_collect_holds_its_ticket(rt: HostRuntime) -> Result<(), Fail> {
    let (mut left, mut refusals) = (0_u64, 0_u64);
    for refused_clone in 1..=10 {
        let tally = play(rt, rt.alloc(), REFUSED_COLLECT, refused_clone)?;
        assert!(rt; tally[1].wrapping_add(tally[3]) == 1, "{tally:?}");
        left = left.wrapping_add(tally[3]);
        refusals = refusals.wrapping_add(tally[5]);
    }
    assert!(rt;
        left > 0 && refusals > 0,
        "{left} tickets are held, {refusals} calls are made again"
    );
    Ok(())
}

/// Calls that make requests of all kinds, and then calls that tell what these have left: values,
/// moments, the order of use, marks, notices and numbers of turns.
const REQUESTS: &str =
    "1 0 3 # 0 insert 1 10 = Done; 0 insert 2 20 = Done; 0 insert 1 11 = Done; 0 get 1 = Found(11);
        0 or_insert 3 30 = Entered(30); 0 or_insert 3 31 = Entered(30); 0 remove 2 = Found(20);
        0 begin 4 = Run(4); 0 begin 4 = Wait(4); 0 collect 4 4 = NotYet; 0 finish 4 4 40 = Entered(40);
        0 collect 4 4 = Entered(40); 0 take_notice; 0 begin 2 = Run(6); 0 leave 6 2 = Refused(UnknownTicket);
        0 abandon 6 2 = Done; 0 compute 1 = Run(7); 0 put 7 1 14; 0 run_pending_tasks = Done;
        0 at 50; 0 get 3 = Found(30); 0 get 2 = Absent; 0 insert 5 50 = Done; 0 run_pending_tasks = Done;
        0 contains_key 1; 0 contains_key 3 = Is(true); 0 contains_key 4; 0 contains_key 5 = Is(true);
        0 weighted_size = Counted(3); 0 load 6 60 = Given(60); 0 load 6 61 = Given(60);
        0 load 3 32 = Given(30); 0 at 120; 0 run_pending_tasks = Done; 0 contains_key 3 = Is(true);
        0 or_insert 2 21 = Entered(21); 0 remove 6; 0 invalidate 3 = Done; 0 get 3 = Absent; 0 begin 7;
        0 take_notice; 0 take_notice; 0 take_notice; 0 take_notice; 0 weighted_size; 0 invalidate_all = Done;
        0 get 2 = Absent; 0 run_pending_tasks = Done; 0 weighted_size = Counted(0); 0 take_notice";

/// A refused request changes nothing and is in no history: the cache goes on as one that was not
/// given the call. Passes if any one allocation fails.
#[test]
fn a_refused_request_changes_nothing(rt: HostRuntime) -> Result<(), Fail> {
    let [asks, given, held, left, failed, refusals] = play(rt, rt.alloc(), REQUESTS, 0)?;
    assert_eq!(rt; (asks, given, left), (held.saturating_add(1), 3, 0));
    assert!(rt; held.saturating_add(failed) <= refusals);
    Ok(())
}

/// The same where each clone of each call is refused, one after another. A refused `get_with` holds
/// its turn if it opened one, and what it holds ends that turn.
#[test]
fn a_refused_clone_changes_nothing(rt: HostRuntime) -> Result<(), Fail> {
    let [asks, given, held, left, failed, refusals] = play(rt, rt.alloc(), REQUESTS, EACH)?;
    assert_eq!(rt; (asks, given, left), (held.saturating_add(1), 3, 0));
    assert!(rt;
        held > 1 && failed > 1 && refusals > 30,
        "{held} {failed} {refusals}"
    );
    Ok(())
}
