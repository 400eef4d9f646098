//! Row stores by themselves: tables of calls, their room, long lists of calls, and what lookups read.
ghost use Rattle.std.specs.Prelude.{◌≡◌, true, ◌++◌, IsSome, IfSome};
ghost use Rattle.moka_rows.specs.Rows.{row_under};

use moka_expiring_rows::expiring_rows::ExpiringRows;
use moka_rows::list_rows::ListRows;
use moka_rows::packed::PackedEntryInfo;
use moka_rows::rows::{Access, EntryInfo, Row, RowId, RowRef, RowStore};
use moka_slab::slab_rows::SlabRows;
use std::alloc::{AllocError, Global};
use std::process::Abort;
use std::str::SplitWhitespace;
use std::sync::Arc;
use std::test::Fail;

type Lists = ListRows<u64, u64>;

type Slab = SlabRows<u64, u64>;

/// The store of the caches: rows in a slab, and the deadlines of the resident ones.
type Expiring = ExpiringRows<u64, u64>;

/// The result of a call: its parts, `-` for none, and nothing where a call has no result.
type Shown = Result<String, AllocError>;

/// How many keys there are.
const KEYS: u64 = 40;

/// A store, and in how many ways its keys are hashed.
#[derive(Drop)]
struct Table<R: RowStore<u64, u64>> {
    alloc: Global,
    rows: R,
    ways: u64,
}

/// Returns the deadline of a row that was used at a moment: 50 later, but none for each third moment.
fn deadline_at(moment: u64) -> Option<u64> {
    if moment % 3 == 0 {
        None
    } else {
        moment.checked_add(50)
    }
}

fn written_at(moment: u64) -> EntryInfo {
    EntryInfo {
        deadline: deadline_at(moment),
        ..EntryInfo::new(1, moment)
    }
}

/// Hashes keys all alike, in three ways, or each by itself.
fn hash_of(ways: u64, key: u64) -> u64 {
    match ways {
        1 => 7,
        3 => key % 3,
        _ => key.wrapping_mul(0x9e37_79b9_7f4a_7c15),
    }
}

/// Returns the row number of a key, and how many rows were read for it.
fn find<R: RowStore<u64, u64>>(rows: &R, ways: u64, key: u64) -> (Option<RowId>, u64)
    ensures { IfSome result.0
        (λ number. IsSome (row_under number (R.admitted rows.now ++ R.waiting rows.now))) }
{
    let mut reads = 0;
    let number = rows.find(&key, hash_of(ways, key), &mut reads);
    (number, reads)
}

fn waits<R: RowStore<u64, u64>>(rows: &R, number: RowId) -> bool
    requires { IsSome (row_under number (R.admitted rows.now ++ R.waiting rows.now)) }
    ensures { result ≡ true → IsSome (row_under number (R.waiting rows.now)) }
{
    !rows.is_admitted(number)
}

/// Shows the value of a row, and the moments of its last write and its last access.
fn content(alloc: Global, row: &RowRef<'_, u64, u64>) -> Shown {
    let info = row.info();
    format!(in alloc;
        "{} {} {}",
        row.value, info.last_modified, info.last_accessed
    )
}

/// Takes the next word as a number, 0 at the end.
fn number_in(words: &mut SplitWhitespace<'_>) -> u64 {
    words.next().unwrap_or("").parse::<u64>().unwrap_or(0)
}

impl<R: RowStore<u64, u64>> Table<R> {
    fn new(alloc: Global, ways: u64) -> Self {
        Table {
            alloc,
            rows: R::new(alloc),
            ways,
        }
    }

    /// Shows a row number as the key of its row, since stores number their rows as they like.
    fn shown(&self, number: Option<RowId>) -> Shown {
        for key in 0..KEYS {
            if number.is_some() && find(&self.rows, self.ways, key).0 == number {
                return format!(in self.alloc; "{key}");
            }
        }
        String::from_str(self.alloc, "-")
    }

    fn add(&mut self, key: u64, moment: u64) -> Shown {
        self.rows.reserve(1)?;
        let row = Row {
            key: Arc::new(self.alloc, key)?,
            hash: hash_of(self.ways, key),
            value: moment,
            info: PackedEntryInfo::new(written_at(moment)),
        };
        self.rows.add(row);
        Ok(String::new(self.alloc))
    }

    /// Looks at the row with this number, or behind it.
    fn look(&self, number: RowId, what: &str, at: u64) -> Shown
        requires { IsSome (row_under number (R.admitted self.now.rows ++ R.waiting self.now.rows)) }
    {
        let is_so = match what {
            "find" => return self.shown(Some(number)),
            "next" => return self.shown(self.rows.next(number, &mut 0)),
            "read" => return content(self.alloc, &self.rows.row(number)),
            "hash" => self.rows.hash(number) == self.rows.row(number).hash,
            "is_admitted" => self.rows.is_admitted(number),
            "is_hidden" => self.rows.row(number).info().is_hidden,
            "is_dead" => self.rows.row(number).info().is_dead(at),
            _ => return self.shown(None),
        };
        format!(in self.alloc; "{is_so}")
    }

    /// Changes the row with this number, or looks at it.
    fn change(&mut self, number: RowId, what: &str, one: u64, two: u64) -> Shown
        requires { IsSome (row_under number (R.admitted self.old.rows ++ R.waiting self.old.rows)) }
    {
        match what {
            "hide" => self.rows.hide(number),
            "access" => {
                let touch = Access {
                    last_accessed: one,
                    own_life: None,
                    deadline: deadline_at(one),
                };
                self.rows.touch(number, touch);
            }
            "admit" => {
                let waits = waits(&self.rows, number);
                if waits {
                    self.rows.admit(number);
                }
                return format!(in self.alloc; "{waits}");
            }
            "overwrite" => {
                let before = self.rows.overwrite(number, one, written_at(two));
                let written = before.info.last_modified;
                return format!(in self.alloc; "{} {written} {:?}", before.value, before.order);
            }
            "remove" => {
                let (row, order) = self.rows.remove(number);
                let content = content(self.alloc, &row.lend())?;
                return format!(in self.alloc; "{content} {order:?}");
            }
            _ => return self.look(number, what, one),
        }
        Ok(String::new(self.alloc))
    }

    /// Makes the call of a line: `CALL [KEY [NUMBER [NUMBER]]]`.
    fn call(&mut self, line: &str) -> Shown {
        let mut words = line.split_whitespace();
        let what = words.next().unwrap_or("");
        let (key, one, two) = (
            number_in(&mut words),
            number_in(&mut words),
            number_in(&mut words),
        );
        match what {
            "len" => self.rows.len().to_string(self.alloc),
            "waiting_len" => self.rows.waiting_len().to_string(self.alloc),
            "first_admitted" => self.shown(self.rows.first_admitted()),
            "first_waiting" => self.shown(self.rows.first_waiting()),
            "first_expired" => self.shown(self.rows.first_expired(key)),
            "take_first" => match self.rows.take_first_admitted() {
                Some(row) => content(self.alloc, &row.lend()),
                None => self.shown(None),
            },
            "reserve" => {
                self.rows.reserve(key as usize)?;
                Ok(String::new(self.alloc))
            }
            _ => match find(&self.rows, self.ways, key).0 {
                Some(number) => self.change(number, what, one, two),
                None if what == "add" => self.add(key, one),
                None => self.shown(None),
            },
        }
    }
}

/// Tables of calls, each of a new store. Keys 1, 4 and 7 have one hash if there are three.
const TABLES: [&str; 4] = [
    // Rows are added, changed and removed.
    "len = 0; find 1 = -; add 1 10; add 4 40; reserve 20; add 3 30; len = 3; hash 3 = true; find 1 = 1; find 4 = 4;
    find 3 = 3; find 7 = -; read 4 = 40 40 40; overwrite 4 41 50 = 40 40 Waiting; read 4 = 41 50 50; access 1 60;
    read 1 = 10 10 60; remove 4 = 41 50 50 Waiting; find 4 = -; len = 2; add 7 70; remove 1 = 10 10 60 Waiting;
    read 7 = 70 70 70; remove 3 = 30 30 30 Waiting; remove 7 = 70 70 70 Waiting; len = 0",
    // Rows are admitted and accessed. An access leaves a pending row in its place, and makes a resident one the most
    // recently used. A row that is removed from the middle is no longer the next of another.
    "admit 1 = -; take_first = -; first_waiting = -; first_admitted = -; add 1 10; add 2 20; add 3 30; add 4 40;
    waiting_len = 4; next 2 = 3; is_admitted 2 = false; access 1 50; first_waiting = 1; admit 1 = true;
    admit 3 = true; admit 3 = false; len = 4; waiting_len = 2; first_admitted = 1; first_waiting = 2; next 1 = 3;
    next 3 = -; next 2 = 4; is_admitted 3 = true; access 1 60; first_admitted = 3;
    overwrite 3 31 70 = 30 30 Admitted; first_admitted = 1; next 1 = 3; admit 2 = true;
    remove 3 = 31 70 70 Admitted; next 1 = 2; remove 4 = 40 40 40 Waiting; waiting_len = 0; first_waiting = -;
    len = 2; take_first = 10 10 60; first_admitted = 2; len = 1",
    // A pending row does not expire. A resident one is expired from its deadline on; an access gives it another, and
    // another place. Without a deadline it never expires.
    "add 1 10; add 2 20; add 3 31; first_expired 100 = -; admit 1 = true; admit 2 = true; admit 3 = true;
    first_expired 59 = -; first_expired 60 = 1; access 1 40; first_expired 69 = -; first_expired 90 = 2;
    overwrite 2 21 50 = 20 20 Admitted; first_expired 80 = -; first_expired 100 = 3; remove 3 = 31 31 31 Admitted;
    first_expired 89 = -; first_expired 100 = 1; access 1 60; first_expired 100 = 2; take_first = 21 50 50;
    first_expired 100 = -; access 1 18446744073709551565; first_expired 18446744073709551614 = -;
    first_expired 18446744073709551615 = 1",
    // Rows are hidden. They keep their place, and stay hidden when they are admitted or accessed. They are dead
    // before their deadline, which is unchanged. An overwrite shows a row, and a later one with its number is not
    // hidden.
    "add 1 10; add 2 20; add 3 31; add 4 40; hide 2; is_hidden 2 = true; is_hidden 1 = false; first_waiting = 1;
    next 1 = 2; next 2 = 3; read 2 = 20 20 20; waiting_len = 4; admit 1 = true; admit 2 = true; admit 3 = true;
    is_hidden 2 = true; hide 1; first_admitted = 1; next 1 = 2; next 2 = 3; is_dead 1 11 = true;
    is_dead 3 80 = false; is_dead 3 81 = true; first_expired 59 = -; first_expired 60 = 1; hide 1;
    is_hidden 1 = true; access 1 50; is_hidden 1 = true; first_admitted = 2; first_expired 70 = 2;
    overwrite 1 11 53 = 10 10 Admitted; is_hidden 1 = false; is_dead 1 102 = false; remove 2 = 20 20 20 Admitted;
    find 2 = -; add 5 50; is_hidden 5 = false; hide 4; remove 4 = 40 40 40 Waiting; hide 3; take_first = 31 31 31;
    first_admitted = 1; waiting_len = 1; len = 2",
];

/// Checks that each call returns what a table says, whichever hashes the keys have.
fn check<R: RowStore<u64, u64>>(rt: &impl Abort, alloc: Global, table: &str) -> Result<(), Fail> {
    for ways in [1, 3, 0] {
        let mut rows: Table<R> = Table::new(alloc, ways);
        for line in table.split(';') {
            let (call, wanted) = line.split_once(" = ").unwrap_or((line, ""));
            let result = rows.call(call)?;
            assert_eq!(rt; result.as_str(), wanted, "{line}, hashed in {ways} ways");
        }
    }
    Ok(())
}

fn check_each(rt: &impl Abort, alloc: Global, table: &str) -> Result<(), Fail> {
    check::<Lists>(rt, alloc, table)?;
    check::<Slab>(rt, alloc, table)?;
    check::<Expiring>(rt, alloc, table)
}

/// Each store returns what the tables say.
#[test]
fn each_store_answers_the_tables(rt: HostRuntime) -> Result<(), Fail> {
    for table in TABLES {
        check_each(&rt, rt.alloc(), table)?;
    }
    Ok(())
}

/// The calls of long lists.
const CALLS: &str =
    "add add add find hash read is_hidden is_admitted hide next admit access overwrite remove \
    remove admit take_first first_admitted first_waiting first_expired len waiting_len";

/// Returns a table of 3,000 pseudorandom calls about 40 keys, with the results of the plain store.
fn long_table(alloc: Global) -> Result<String, AllocError> {
    let mut rows: Table<Lists> = Table::new(alloc, 0);
    let mut table = String::from_str(alloc, "len = 0")?;
    let mut seed: u64 = 1;
    for moment in 0..3_000_u64 {
        seed = seed
            .wrapping_mul(6_364_136_223_846_793_005)
            .wrapping_add(1_442_695_040_888_963_407);
        let name = CALLS.split_whitespace().nth((seed >> 32) as usize % 22);
        let key = if name == Some("first_expired") {
            moment
        } else {
            (seed >> 16) % KEYS
        };
        let call = format!(in alloc; "{} {key} {moment} {moment}", name.unwrap_or("len"))?;
        let result = rows.call(call.as_str())?;
        table.push_str(format!(in alloc; ";{call} = {result}")?.as_str())?;
    }
    Ok(table)
}

/// All stores give the same results for a long list of calls.
#[test]
fn all_stores_answer_alike(rt: HostRuntime) -> Result<(), Fail> {
    let table = long_table(rt.alloc())?;
    check_each(&rt, rt.alloc(), table.as_str())
}

/// Returns for how many of the numbers below 1,100 an empty store makes no room, or counts less room
/// than it has made.
fn shortfalls<R: RowStore<u64, u64>>(alloc: Global) -> usize {
    let mut count = 0_usize;
    for more in 0..1_100 {
        let mut rows: R = R::new(alloc);
        if rows.reserve(more).is_err() || rows.room() < more {
            count = count.wrapping_add(1);
        }
    }
    count
}

/// Each store makes room for each small number of rows and counts it. The plain one makes none for
/// more rows than it has numbers.
#[test]
fn each_store_makes_room(rt: HostRuntime) -> Result<(), Fail> {
    assert_eq!(rt; shortfalls::<Lists>(rt.alloc()), 0);
    assert_eq!(rt; shortfalls::<Slab>(rt.alloc()), 0);
    assert_eq!(rt; shortfalls::<Expiring>(rt.alloc()), 0);
    assert!(rt; Lists::new(rt.alloc()).reserve(1 << 32).is_err());
    Ok(())
}

/// Returns how many rows a lookup of a key reads at most. First of the ten keys that are stored,
/// and then of the ten next ones, which are not.
fn most_reads<R: RowStore<u64, u64>>(alloc: Global, ways: u64) -> Result<(u64, u64), AllocError> {
    let mut rows: Table<R> = Table::new(alloc, ways);
    for key in 0..10_u64 {
        rows.call(format!(in alloc; "add {key} {key}")?.as_str())?;
    }
    let mut most = (0, 0);
    for key in 0..20 {
        match find(&rows.rows, ways, key) {
            (Some(_), reads) => most.0 = reads.max(most.0),
            (None, reads) => most.1 = reads.max(most.1),
        }
    }
    Ok(most)
}

/// A lookup in the slab reads only rows with the key's hash; in the plain store it may read all.
#[test]
fn a_slab_reads_the_rows_of_one_hash(rt: HostRuntime) -> Result<(), Fail> {
    for (ways, most) in [(1, (10, 10)), (3, (4, 4)), (0, (1, 0))] {
        assert_eq!(rt; most_reads::<Expiring>(rt.alloc(), ways)?, most);
        assert_eq!(rt; most_reads::<Lists>(rt.alloc(), ways)?, (10, 10));
    }
    Ok(())
}
