//! Scenes: the rows of one thread and then those of many, on a new recorded cache. Behind them its
//! closed history is that of an owned cache which is given its steps.
ghost use Rattle.std.specs.Prelude.{◌≡◌, []};

use crate::act::number;
use crate::calls::{Calls, Closed, Lent, Line, Opened, Owned, Pass, Recorded, close_all, state};
use crate::marks::{Marks, Scarce, mark, so_far};
use crate::player::Player;
use moka_jobs::job::{Job, run_both};
use moka_policy::policy::CacheTypes;
use moka_presets::ready::PlainRecorded;
use moka_recorded::naming::Naming;
use moka_state::step::{Reply, Step};
use moka_state::view::StateView;
use std::alloc::{AllocError, Global};
use std::fmt::Debug;
use std::marker::Brand;
use std::process::Abort;
use std::rt::Clock;
use std::sync::atomic::Ordering;
use std::sync::ledger::Blank;
use std::sync::{Arc, Wait};
use std::test::Fail;
use std::thread::Threads;
use std::{slice, thread};

/// The number of a refused clone where each clone of each call is refused in turn.
pub(crate) const EACH: u64 = u64::MAX;

/// How many closures began, how many loads returned a value, held their turn, held their ticket, or
/// held nothing, and how many calls were refused memory and made again.
pub(crate) type Tally = [u64; 6];

/// A scene that is played.
#[derive(Drop)]
pub(crate) struct Stage<R> {
    pub rt: R,
    pub alloc: Global,
    pub marks: Arc<Marks>,
    /// Whether each clone of each call is refused.
    pub refuses: bool,
    script: String,
}

impl<R> Stage<R> {
    /// Returns a part of the script.
    fn part(&self, place: usize) -> &str {
        self.script.split('#').nth(place).unwrap_or("").trim()
    }

    /// Returns the rows of the thread of a pass.
    fn rows_of(&self, pass: u64) -> &str {
        let threads = self.part(2);
        let last = threads.split('|').count().saturating_sub(1);
        threads
            .split('|')
            .nth(last.min(pass as usize))
            .unwrap_or("")
    }

    /// Returns the number of passes, the first sequence number, or the capacity.
    fn number(&self, place: usize) -> u64 {
        number(self.part(0).split_whitespace().nth(place)).unwrap_or(0)
    }
}

/// Plays a scene, of which the clone of this number is refused. If memory is refused before the cache
/// is there, plays it anew.
///
/// The parts of its script have `#` between them: the number of passes, the first sequence number (the
/// greatest one is never drawn) and the capacity; rows of one thread, each with the number of its pass,
/// with `;` between them; rows of a thread for each pass, with `|` between them, the last for all
/// further ones; the numbers of the passes of all entries but those that count; the tally. An empty
/// order or tally is not compared.
pub(crate) fn play<W>(rt: W, alloc: Global, script: &str, refused_clone: u64) -> Result<Tally, Fail>
where
    W: Wait + Clock + Threads + Abort + Copy + Drop + Send + Sync,
{
    for _ in 0..2 {
        let Ok(marks) = Arc::new(alloc, Marks::default()) else {
            continue;
        };
        let Ok(text) = String::from_str(alloc, script) else {
            continue;
        };
        marks.refused_clone.store(refused_clone, Ordering::SeqCst);
        let on = Stage {
            rt,
            alloc,
            marks,
            refuses: refused_clone == EACH,
            script: text,
        };
        if run(rt, &on)? {
            let marks = &*on.marks;
            let tally = [
                so_far(&marks.asks),
                so_far(&marks.given),
                so_far(&marks.held),
                so_far(&marks.left),
                so_far(&marks.failed),
                so_far(&marks.refusals),
            ];
            let (text, wanted) = (text_of(alloc, &tally)?, on.part(4));
            assert!(rt;
                wanted.is_empty() || text.as_str() == wanted,
                "{tally:?}: {script}"
            );
            return Ok(tally);
        }
    }
    Err(Fail::from("refused twice"))
}

/// Plays a scene. Returns false if memory is refused before the cache is there.
fn run<W>(rt: W, on: &Stage<W>) -> Result<bool, Fail>
where
    W: Wait + Clock + Threads + Abort + Copy + Drop + Send + Sync,
{
    let (count, first, capacity) = (on.number(0), on.number(1), on.number(2));
    let Ok(mut twin) = state(on.alloc, capacity, first) else {
        return Ok(false);
    };
    let Ok(opened) = Opened::new(on.alloc) else {
        return Ok(false);
    };
    let Ok(state) = state(on.alloc, capacity, first) else {
        return Ok(false);
    };
    run_recorded::<Brand, W>(rt, on, state, opened, Blank::new(count), count, &mut twin)
}

fn run_recorded<L, W>(
    rt: W,
    on: &Stage<W>,
    state: Owned<PlainRecorded>,
    opened: Opened<PlainRecorded>,
    blank: Blank,
    count: u64,
    twin: &mut Owned<PlainRecorded>,
) -> Result<bool, Fail>
where
    L: Naming + Send + Sync,
    W: Wait + Clock + Threads + Abort + Copy + Drop + Send + Sync,
    requires built { ⟦<PlainRecorded as StateView<u64, Scarce>>⟧.stands_for
        (⟦<PlainRecorded as StateView<u64, Scarce>>⟧.settings state.settings) state [] }
    requires table { opened.table ≡ L.table }
    requires empty { opened.history ≡ [] }
    requires name { blank.name ≡ L.name }
    requires parts { (blank.parts ≡ L.parts) × (count ≡ L.parts) }
{
    let mut passes = Vec::new(on.alloc);
    let made = Recorded::<PlainRecorded, L, W>::new_into(
        on.alloc,
        state,
        opened,
        blank,
        count,
        rt,
        &mut passes,
    );
    let Ok(cache) = made else {
        return Ok(false);
    };
    play_rows(on, on, &cache, passes.as_mut_slice(), None);
    if !on.part(2).is_empty() {
        work_all(&rt, &cache, passes.as_mut_slice(), on);
    }
    on.marks.refused_clone.store(0, Ordering::SeqCst);
    let receipts = receipts_of(on.alloc, passes.as_slice());
    let closed = close_all(cache, passes)?;
    replay(rt, on.alloc, on.part(3), receipts?.as_slice(), closed, twin);
    Ok(true)
}

/// Plays the rows of the thread of a pass, or of the one thread of a scene. Each is played by the
/// pass whose number stands before it, or by the first.
fn play_rows<R: Clock + Abort + Copy, D: Calls<X, P>, X, P>(
    on: &Stage<R>,
    calls: &D,
    cache: &X,
    passes: &mut [P],
    thread: Option<u64>,
) {
    let rows = match thread {
        Some(pass) => on.rows_of(pass),
        None => on.part(1),
    };
    let lent = Lent { calls, cache };
    let mut player = Player::new(on);
    for row in rows.split(';') {
        let place = number(row.split_whitespace().next());
        if let Some(pass) = passes.get_mut(place.unwrap_or(0) as usize) {
            player.play(&lent, pass, row);
        }
    }
}

impl<R: Clock + Abort + Copy, L: Naming, W: Wait + Drop> Job<
    Recorded<PlainRecorded, L, W>,
    Pass<PlainRecorded, L>,
    (),
> for Stage<R> {
    fn work(&self, cache: &Recorded<PlainRecorded, L, W>, pass: &mut Pass<PlainRecorded, L>) {
        let thread = Some(pass.number());
        play_rows(self, self, cache, slice::from_mut(pass), thread);
        mark(&self.marks.done);
    }
}

/// Does a job with each part at once, each in a thread of its own.
fn work_all<R, X, P, J>(rt: &R, shared: &X, parts: &mut [P], job: &J)
where
    R: Threads + Sync,
    X: Sync,
    P: Send,
    J: Job<X, P, ()> + Sync,
{
    if parts.len() == 2 {
        run_both(rt, shared, parts, job, job);
        return;
    }
    let threads = parts.len().max(1);
    thread::for_each_mut(rt, parts, threads, &move |_, part| job.work(shared, part));
}

/// How many entries of a history are compared word by word.
const LONG: usize = 2_000;

/// A receipt: its place, the number of its pass, and as a text its step and its reply.
type Shown = (u64, u64, String);

/// Returns the receipts of all passes. One behind many others has no text.
fn receipts_of<C: CacheTypes<u64, Scarce>, L: Naming>(
    alloc: Global,
    passes: &[Pass<C, L>],
) -> Result<Vec<Shown>, AllocError> {
    let mut receipts = Vec::new(alloc);
    for pass in passes {
        for receipt in pass.receipts() {
            let text = match receipts.len() {
                0..=LONG => text_of(alloc, &(&receipt.step, &receipt.reply))?,
                _ => String::new(alloc),
            };
            if receipts.reserve(1).is_err() {
                receipts.reserve(1)?;
            }
            receipts.push((receipt.place, pass.number(), text))?;
        }
    }
    Ok(receipts)
}

/// Returns something as a text. Tries again if memory is refused.
pub(crate) fn text_of<T: Debug>(alloc: Global, it: &T) -> Result<String, AllocError> {
    match format!(in alloc; "{it:?}") {
        Ok(text) => Ok(text),
        Err(_) => format!(in alloc; "{it:?}"),
    }
}

/// Checks that each receipt stands at its place, and the numbers of the passes. Gives a twin the steps
/// of the history, and checks that it gives the same replies.
fn replay<R: Abort + Copy>(
    rt: R,
    alloc: Global,
    order: &str,
    receipts: &[Shown],
    (lines, state): Closed<PlainRecorded>,
    twin: &mut Owned<PlainRecorded>,
) {
    has_receipts(rt, alloc, receipts, lines.as_slice());
    if lines.len() > LONG {
        return;
    }
    has_order(rt, order, lines.as_slice());
    for (_, step, reply) in lines {
        let wanted = make_step(twin, step);
        alike(
            rt,
            text_of(alloc, &reply).ok(),
            text_of(alloc, &wanted).ok(),
        );
    }
    alike(rt, Some(state.entry_count()), Some(twin.entry_count()));
    alike(rt, Some(state.notice_count()), Some(twin.notice_count()));
}

/// Checks that two are alike. It alone has the assertion, which would drop all that its caller owns.
fn alike<R: Abort + Copy, T: Debug + PartialEq + Drop>(rt: R, left: Option<T>, right: Option<T>) {
    assert_eq!(rt; left, right);
}

/// Checks the numbers of the passes of all entries but those that count. An empty order says none.
fn has_order<R: Abort + Copy>(rt: R, order: &str, lines: &[Line<PlainRecorded>]) {
    let mut numbers = order.split_whitespace();
    for (pass, step, _) in lines {
        if !order.is_empty() && !matches!(step, Step::EntryCount) {
            assert_eq!(rt; number(numbers.next()), Some(*pass));
        }
    }
    assert_eq!(rt; numbers.next(), None);
}

/// Checks that each receipt is at its place. One entry at most has none: that of the call behind
/// them.
fn has_receipts<R: Abort + Copy>(
    rt: R,
    alloc: Global,
    receipts: &[Shown],
    lines: &[Line<PlainRecorded>],
) {
    let more = lines.len().saturating_sub(receipts.len());
    assert!(rt; more <= 1, "{more} entries have no receipt");
    for (place, number, text) in receipts {
        let Some((pass, step, reply)) = lines.get(*place as usize) else {
            panic!(rt; "no entry is at a receipt's place")
        };
        assert_eq!(rt; pass, number);
        if !text.is_empty() {
            assert_eq!(rt; text_of(alloc, &(step, reply)).ok().as_ref(), Some(text));
        }
    }
}

/// Makes a step of an owned cache.
fn make_step(
    twin: &mut Owned<PlainRecorded>,
    step: Step<u64, Scarce, PlainRecorded>,
) -> Reply<u64, Scarce, PlainRecorded> {
    twin.step(step)
}
