//! The maintenance of a table. It removes what is invalidated or expired, then shrinks to the
//! capacity, and then admits or drops each pending row.
ghost use Rattle.std.specs.Prelude.{◌≡◌, ℕ, ◌+◌, ◌≤◌, true, false, not, Some, None, List, [], ◌∷◌, ◌++◌, length, take, drop, if◌then◌else◌};
ghost use Rattle.moka_model.specs.declared.notification.RemovalCause.TheVariants.{Size};
ghost use Rattle.moka_model.specs.Maintenance.{front, dead_admitted, dead_waiting, over};
ghost use Rattle.moka_policy.specs.Policy.{is_lru};
ghost use Rattle.moka_rows.specs.declared.rows.Row.{Row};
ghost use Rattle.moka_rows.specs.Rows.{first_number, is_dead, NumbersDiffer};
ghost use Rattle.moka_expiration.specs.declared.expiration_policy.ExpirationPolicy.{ExpirationPolicy};
ghost use Rattle.moka_expiration.specs.ExpirationPolicy.{AreDated};
ghost use Rattle.moka_table.specs.Table.{entries, weight_of, AreShown};
ghost use Rattle.moka_housekeeper.specs.Maintain.{notice_for, notice_dead, notices_for, is_within, frequencies, hash_wins, judgements, drops, lets_leave, limit_less, DoesParts, JudgesFirst, IsMaintainedUpTo};
ghost use Rattle.moka_housekeeper.specs.Visits.{visits_sweeping, visits_first, visits_judging, visits_of};

use moka_model::notification::RemovalCause;
use moka_policy::frequency::FrequencySource;
use moka_policy::policy::EvictionPolicy;
use moka_rows::rows::{RowId, RowStore};
use moka_table::table::Table;

/// Runs a maintenance within a limit of removals, if there is one. Returns whether a part was left
/// undone.
///
/// First it removes each invalidated and each expired row. Then it evicts the least recently used
/// rows until the resident ones are within the capacity. Then it admits or drops each pending row,
/// as the policy says.
///
/// A row that is removed by itself is one part. A pending row is one part too, with the victims
/// that are evicted for it. The parts are done in order, up to the first that would remove more
/// rows than the limit still allows. If no part is left undone, no row is invalidated afterwards.
/// Does not allocate.
///
/// # Complexity
///
/// Visits the pending rows, the victims of each of them, and the rows that are removed. If a row
/// may be invalidated, it also visits each resident row. `visits` counts each step from a row to
/// the next one.
pub fn maintain_up_to<K: Eq + Drop, V: Drop, R: RowStore<K, V>, F: FrequencySource>(
    table: &mut Table<K, V, R>,
    capacity: Option<u64>,
    policy: EvictionPolicy,
    source: &F,
    now: u64,
    limit: Option<u64>,
    visits: &mut u128,
) -> bool
    // For any lives that give the rows the deadlines that they have.
    ensures maintained { (lives : ExpirationPolicy) → AreDated lives (entries table.old) →
        IsMaintainedUpTo lives (is_lru policy) (F.count source.now) capacity now limit
        table.old table.new result }
    ensures unlimited { limit ≡ None → result ≡ false }
    ensures visited { visits.new ≤ visits.old
        + visits_of (is_lru policy) (F.count source.now) capacity now table.old }
    ensures room { table.old.room ≤ table.new.room }
    ensures may_hide { result ≡ false → table.new.may_hide ≡ false }
{
    let mut limit = limit;
    if evict_dead_admitted(table, now, &mut limit, visits) {
        return true;
    }
    if sweep_waiting(table, now, &mut limit, visits) {
        return true;
    }
    table.clear_may_hide();
    if evict_over_capacity(table, capacity, &mut limit) {
        return true;
    }
    admit_or_drop_all(table, capacity, policy, source, &mut limit, visits)
}

/// Takes `count` from a limit, if it allows that many removals, and returns whether it does.
#[inline(always)]
fn take_budget(limit: &mut Option<u64>, count: usize) -> bool
    ensures lets { result ≡ lets_leave limit.old count }
    ensures rest { limit.new ≡ (if result then limit_less limit.old count else limit.old) }
{
    let Some(most) = *limit else {
        return true;
    };
    let count = count as u64;
    if most < count {
        return false;
    }
    *limit = Some(most - count);
    true
}

/// Removes the invalidated and the expired resident rows, in access order. Returns `true` if the
/// limit stopped it.
///
/// Visits no other row, unless a row may be invalidated. Then it visits each resident row.
#[inline(always)]
fn evict_dead_admitted<K: Eq + Drop, V: Drop, R: RowStore<K, V>>(
    table: &mut Table<K, V, R>,
    now: u64,
    limit: &mut Option<u64>,
    visits: &mut u128,
) -> bool
    ensures swept { DoesParts notice_dead limit.old
        (dead_admitted (λ p. not (is_dead now p)) [] table.old.admitted table.old.waiting)
        table.old table.new limit.new result }
    ensures visited { visits.new ≤ visits.old + visits_sweeping table.old }
    ensures room { table.old.room ≤ table.new.room }
{
    if table.may_hide() {
        evict_dead_by_walk(table, now, limit, visits)
    } else {
        evict_expired_admitted(table, now, limit)
    }
}

/// Removes the expired resident rows if none is invalidated. Visits no other. Returns `true` if the
/// limit stopped it.
#[inline(always)]
fn evict_expired_admitted<K: Eq + Drop, V: Drop, R: RowStore<K, V>>(
    table: &mut Table<K, V, R>,
    now: u64,
    limit: &mut Option<u64>,
) -> bool
    requires { AreShown table.old.admitted }
    ensures swept { DoesParts notice_dead limit.old
        (dead_admitted (λ p. not (is_dead now p)) [] table.old.admitted table.old.waiting)
        table.old table.new limit.new result }
    ensures room { table.old.room ≤ table.new.room }
{
    while let Some(expired) = table.first_expired(now) {
        if !take_budget(limit, 1) {
            return true;
        }
        table.evict(expired, RemovalCause::Expired);
    }
    false
}

/// Removes the invalidated and the expired resident rows by a walk over all of them. Returns `true`
/// if the limit stopped it.
fn evict_dead_by_walk<K: Eq + Drop, V: Drop, R: RowStore<K, V>>(
    table: &mut Table<K, V, R>,
    now: u64,
    limit: &mut Option<u64>,
    visits: &mut u128,
) -> bool
    ensures swept { DoesParts notice_dead limit.old
        (dead_admitted (λ p. not (is_dead now p)) [] table.old.admitted table.old.waiting)
        table.old table.new limit.new result }
    ensures visited { visits.new ≤ visits.old + length table.old.admitted }
    ensures room { table.old.room ≤ table.new.room }
{
    let mut cursor = table.first_admitted();
    while let Some(number) = cursor {
        // The next row is read while this one is still in the order.
        cursor = table.next(number, visits);
        let metadata = table.row(number).info();
        if metadata.is_dead(now) {
            if !take_budget(limit, 1) {
                return true;
            }
            table.evict(number, metadata.cause(now, RemovalCause::Expired));
        }
    }
    false
}

/// Removes the invalidated and the expired pending rows, in arrival order. Returns `true` if the
/// limit stopped it.
///
/// Visits each pending row, or none if no row of the table can be dead.
#[inline(always)]
fn sweep_waiting<K: Eq + Drop, V: Drop, R: RowStore<K, V>>(
    table: &mut Table<K, V, R>,
    now: u64,
    limit: &mut Option<u64>,
    visits: &mut u128,
) -> bool
    ensures swept { DoesParts notice_dead limit.old
        (dead_waiting (λ p. not (is_dead now p)) table.old.admitted [] table.old.waiting)
        table.old table.new limit.new result }
    ensures visited { visits.new ≤ visits.old + length table.old.waiting }
    ensures room { table.old.room ≤ table.new.room }
{
    if table.may_be_dead() {
        evict_dead_waiting(table, now, limit, visits)
    } else {
        false
    }
}

/// Removes the invalidated and the expired pending rows by a walk over all of them, in arrival
/// order. Returns `true` if the limit stopped it.
fn evict_dead_waiting<K: Eq + Drop, V: Drop, R: RowStore<K, V>>(
    table: &mut Table<K, V, R>,
    now: u64,
    limit: &mut Option<u64>,
    visits: &mut u128,
) -> bool
    ensures swept { DoesParts notice_dead limit.old
        (dead_waiting (λ p. not (is_dead now p)) table.old.admitted [] table.old.waiting)
        table.old table.new limit.new result }
    ensures visited { visits.new ≤ visits.old + length table.old.waiting }
    ensures room { table.old.room ≤ table.new.room }
{
    let mut cursor = table.first_waiting();
    while let Some(number) = cursor {
        // The next row is read while this one is still in the order.
        cursor = table.next(number, visits);
        let info = table.row(number).info();
        if info.is_dead(now) {
            if !take_budget(limit, 1) {
                return true;
            }
            table.evict(number, info.cause(now, RemovalCause::Expired));
        }
    }
    false
}

/// Evicts the least recently used rows until the resident ones are within the capacity. Takes no
/// step from row to row. Returns `true` if the limit stopped it.
#[inline(always)]
fn evict_over_capacity<K: Eq + Drop, V: Drop, R: RowStore<K, V>>(
    table: &mut Table<K, V, R>,
    capacity: Option<u64>,
    limit: &mut Option<u64>,
) -> bool
    ensures shrunk { DoesParts (notice_for Size) limit.old
        (over weight_of capacity table.old.admitted table.old.waiting)
        table.old table.new limit.new result }
    ensures room { table.old.room ≤ table.new.room }
    ensures may_hide { table.new.may_hide ≡ table.old.may_hide }
{
    while !fits(capacity, 0, table.admitted_weight()) {
        if !take_budget(limit, 1) {
            return true;
        }
        table.evict_first(RemovalCause::Size);
    }
    false
}

/// Judges each pending row, in order. Returns `true` if the limit stopped it.
///
/// Visits those that are judged, and for each the victims that it would need. Under
/// [`EvictionPolicy::lru`] and without a limit, it visits no victim.
#[inline(always)]
fn admit_or_drop_all<K: Eq + Drop, V: Drop, R: RowStore<K, V>, F: FrequencySource>(
    table: &mut Table<K, V, R>,
    capacity: Option<u64>,
    policy: EvictionPolicy,
    source: &F,
    limit: &mut Option<u64>,
    visits: &mut u128,
) -> bool
    ensures judged { DoesParts (notice_for Size) limit.old
        (judgements (is_lru policy) (F.count source.now) capacity table.old)
        table.old table.new limit.new result }
    ensures visited { visits.new ≤ visits.old + visits_judging (is_lru policy)
        (F.count source.now) capacity table.old.admitted table.old.waiting }
    ensures room { table.old.room ≤ table.new.room }
    ensures may_hide { table.new.may_hide ≡ table.old.may_hide }
{
    // Under LRU and without a limit each row wins, so no victims are counted.
    let is_counted = limit.is_some() || policy.is_tiny_lfu();
    if !is_counted {
        admit_all(table, capacity);
        return false;
    }
    while let Some(number) = table.first_waiting() {
        if admit_or_drop(table, capacity, policy, source, number, limit, visits) {
            return true;
        }
    }
    false
}

/// Judges each pending row, in order, as under [`EvictionPolicy::lru`] and without a limit: evicts
/// those that are heavier than the capacity, and admits all others. Takes no step from row to row.
#[inline(never)]
fn admit_all<K: Eq + Drop, V: Drop, R: RowStore<K, V>>(
    table: &mut Table<K, V, R>,
    capacity: Option<u64>,
)
    ensures judged { (frequency_of : ℕ → ℕ) → DoesParts (notice_for Size) None
        (judgements true frequency_of capacity table.old) table.old table.new None false }
    ensures room { table.old.room ≤ table.new.room }
    ensures may_hide { table.new.may_hide ≡ table.old.may_hide }
{
    while let Some(first) = table.first_waiting() {
        admit_first(table, capacity, first);
    }
}

/// Judges the first pending row, as under [`EvictionPolicy::lru`] and without a limit.
///
/// A row that is heavier than the capacity is evicted. For any other the least recently used rows
/// are evicted until it fits, and it is admitted.
#[inline(always)]
fn admit_first<K: Eq + Drop, V: Drop, R: RowStore<K, V>>(
    table: &mut Table<K, V, R>,
    capacity: Option<u64>,
    first: RowId,
)
    requires first { Some first ≡ first_number table.old.waiting }
    requires apart { NumbersDiffer (entries table.old) }
    ensures judged { (frequency_of : ℕ → ℕ)
        → (first : ℕ × Row K V) × (rest : List (ℕ × Row K V)) × JudgesFirst
        true frequency_of capacity None first rest table.old table.new None false }
    ensures room { table.old.room ≤ table.new.room }
    ensures may_hide { table.new.may_hide ≡ table.old.may_hide }
{
    let weight = table.row(first).info().policy_weight;
    if fits(capacity, weight, 0) {
        evict_until_fits(table, capacity, weight);
        table.admit(first);
    } else {
        drop_first(table, first, &mut None);
    }
}

/// Judges the first pending row. Returns `true` if the limit stopped it; then nothing has changed.
///
/// A row that is heavier than the capacity is evicted. The victims of any other are the least
/// recently used rows that have to be evicted to make room for it. If it has none or wins against
/// them, they are evicted and it is admitted. Otherwise it is evicted itself.
#[inline(always)]
fn admit_or_drop<K: Eq + Drop, V: Drop, R: RowStore<K, V>, F: FrequencySource>(
    table: &mut Table<K, V, R>,
    capacity: Option<u64>,
    policy: EvictionPolicy,
    source: &F,
    number: RowId,
    limit: &mut Option<u64>,
    visits: &mut u128,
) -> bool
    requires first { Some number ≡ first_number table.old.waiting }
    requires apart { NumbersDiffer (entries table.old) }
    ensures judged { (first : ℕ × Row K V) × (rest : List (ℕ × Row K V)) × JudgesFirst
        (is_lru policy) (F.count source.now) capacity limit.old first rest
        table.old table.new limit.new result }
    ensures visited { visits.new ≤ visits.old + visits_first (is_lru policy) capacity
        table.old.admitted table.old.waiting }
    ensures room { table.old.room ≤ table.new.room }
    ensures may_hide { table.new.may_hide ≡ table.old.may_hide }
{
    let weight = table.row(number).info().policy_weight;
    if !fits(capacity, weight, 0) {
        return drop_first(table, number, limit);
    }
    let count = victims(table, capacity, weight, visits);
    if count == 0 || wins(table, policy, source, table.hash(number), count, visits) {
        if !take_budget(limit, count) {
            return true;
        }
        evict_first(table, count);
        table.admit(number);
        false
    } else {
        drop_first(table, number, limit)
    }
}

/// Evicts the first pending row. Returns `true` if the limit stopped it; then nothing has changed.
#[inline(never)]
fn drop_first<K: Eq + Drop, V: Drop, R: RowStore<K, V>>(
    table: &mut Table<K, V, R>,
    number: RowId,
    limit: &mut Option<u64>,
) -> bool
    requires first { Some number ≡ first_number table.old.waiting }
    requires apart { NumbersDiffer (entries table.old) }
    ensures dropped { (row : Row K V) → (rest : List (ℕ × Row K V))
        → table.old.waiting ≡ (number, row) ∷ rest
        → DoesParts (notice_for Size) limit.old (drops table.old.admitted (number, row) rest ∷ [])
        table.old table.new limit.new result }
    ensures room { table.old.room ≤ table.new.room }
    ensures may_hide { table.new.may_hide ≡ table.old.may_hide }
{
    if !take_budget(limit, 1) {
        return true;
    }
    table.evict(number, RemovalCause::Size);
    false
}

/// Returns how many of the least recently used rows have to be evicted to make room for this much
/// more weight. Visits them.
#[inline(always)]
fn victims<K: Eq + Drop, V: Drop, R: RowStore<K, V>>(
    table: &Table<K, V, R>,
    capacity: Option<u64>,
    more: u32,
    visits: &mut u128,
) -> usize
    ensures count { result ≡ front weight_of capacity more table.now.admitted }
    ensures visited { visits.new ≤ visits.old + front weight_of capacity more table.now.admitted }
{
    let admitted = table.admitted_len();
    let mut weight = table.admitted_weight();
    let mut cursor = table.first_admitted();
    for count in 0..admitted {
        if fits(capacity, more, weight) {
            return count;
        }
        match cursor {
            Some(number) => {
                cursor = table.next(number, visits);
                weight -= u64::from(table.row(number).info().policy_weight);
            }
            None => unreachable!(),
        }
    }
    admitted
}

/// Returns whether a row with this hash wins against this many of the least recently used rows.
///
/// It does under [`EvictionPolicy::lru`]. Otherwise it does if the estimate for its hash is greater
/// than the sum of theirs.
#[inline(always)]
fn wins<K: Eq + Drop, V: Drop, R: RowStore<K, V>, F: FrequencySource>(
    table: &Table<K, V, R>,
    policy: EvictionPolicy,
    source: &F,
    hash: u64,
    count: usize,
    visits: &mut u128,
) -> bool
    requires { count ≤ length table.now.admitted }
    ensures wins { result ≡ hash_wins (is_lru policy) (F.count source.now) hash
        (take count table.now.admitted) }
    ensures visited { visits.new ≤ visits.old + (if is_lru policy then 0 else count) }
{
    !policy.is_tiny_lfu()
        || frequency_of_first(table, source, count, visits) < u128::from(source.estimate(hash))
}

/// Returns the sum of the estimates for the hashes of this many of the least recently used rows.
/// Visits them.
#[inline(always)]
fn frequency_of_first<K: Eq + Drop, V: Drop, R: RowStore<K, V>, F: FrequencySource>(
    table: &Table<K, V, R>,
    source: &F,
    count: usize,
    visits: &mut u128,
) -> u128
    requires { count ≤ length table.now.admitted }
    ensures sum { result ≡ frequencies (F.count source.now) (take count table.now.admitted) }
    ensures visited { visits.new ≤ visits.old + count }
{
    let mut frequency = 0;
    let mut cursor = table.first_admitted();
    for _ in 0..count {
        match cursor {
            Some(number) => {
                cursor = table.next(number, visits);
                frequency += u128::from(source.estimate(table.hash(number)));
            }
            None => unreachable!(),
        }
    }
    frequency
}

/// Evicts this many of the least recently used rows.
#[inline(always)]
fn evict_first<K: Eq + Drop, V: Drop, R: RowStore<K, V>>(table: &mut Table<K, V, R>, count: usize)
    requires { count ≤ length table.old.admitted }
    ensures admitted { table.new.admitted ≡ drop count table.old.admitted }
    ensures waiting { table.new.waiting ≡ table.old.waiting }
    ensures notices { table.new.notices ≡ table.old.notices ++ notices_for Size
        (take count table.old.admitted) }
    ensures room { table.old.room ≤ table.new.room }
    ensures may_hide { table.new.may_hide ≡ table.old.may_hide }
{
    for _ in 0..count {
        table.evict_first(RemovalCause::Size);
    }
}

/// Evicts the least recently used rows until this much more weight fits. Takes no step from row to
/// row.
#[inline(always)]
fn evict_until_fits<K: Eq + Drop, V: Drop, R: RowStore<K, V>>(
    table: &mut Table<K, V, R>,
    capacity: Option<u64>,
    more: u32,
)
    requires { is_within capacity (more + 0) ≡ true }
    ensures admitted { table.new.admitted
        ≡ drop (front weight_of capacity more table.old.admitted) table.old.admitted }
    ensures waiting { table.new.waiting ≡ table.old.waiting }
    ensures notices { table.new.notices ≡ table.old.notices ++ notices_for Size
        (take (front weight_of capacity more table.old.admitted) table.old.admitted) }
    ensures room { table.old.room ≤ table.new.room }
    ensures may_hide { table.new.may_hide ≡ table.old.may_hide }
{
    while !fits(capacity, more, table.admitted_weight()) {
        table.evict_first(RemovalCause::Size);
    }
}

/// Returns whether this much more weight fits beside a weight within the capacity, if there is one.
#[inline(always)]
fn fits(capacity: Option<u64>, more: u32, weight: u64) -> bool
    ensures { result ≡ is_within capacity (more + weight) }
{
    match capacity {
        None => true,
        Some(capacity) => match capacity.checked_sub(u64::from(more)) {
            None => false,
            Some(left) => weight <= left,
        },
    }
}
