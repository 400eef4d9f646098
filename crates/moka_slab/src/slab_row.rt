//! Rows as the slab stores them: without their hash and without their lives.
ghost use Rattle.std.specs.Prelude.{◌≡◌};
ghost use Rattle.moka_rows.specs.Rows.{touched, overwritten, hidden};

use moka_ghost::snapshot::SharedSnapshot;
use moka_rows::rows::{Access, EntryInfo, OwnLife, Row};
use std::marker::Model;
use std::mem;
use std::sync::Arc;
use std::time::Duration;

/// The deadline of a row and its own lifetime. The row says which of them it has.
#[derive(Clone, Copy)]
pub(crate) struct Lives {
    pub deadline: u64,
    pub own_life: OwnLife,
}

/// A row without its hash, which its link has, and without its lives. A contract sees the whole
/// row.
#[derive(Drop)]
pub(crate) struct SlabRow<K, V> {
    key: Arc<K>,
    value: V,
    last_modified: u64,
    last_accessed: u64,
    policy_weight: u32,
    has_deadline: bool,
    has_own_life: bool,
    is_hidden: bool,
    hash: SharedSnapshot<u64>,
    own_life: SharedSnapshot<Option<OwnLife>>,
    deadline: SharedSnapshot<Option<u64>>,
}

impl<K, V> Model for SlabRow<K, V> {
    ghost use Rattle.std.specs.Prelude.{◌≡◌, is_some};
    ghost use Rattle.moka_rows.specs.declared.rows.Row.{Row};

    ghost Value = { Row K V };

    ghost view = { λ row. record {
      key = row.key;
      hash = row.hash.value;
      value = row.value;
      info = record {
        last_modified = row.last_modified;
        last_accessed = row.last_accessed;
        own_life = row.own_life.value;
        deadline = row.deadline.value;
        policy_weight = row.policy_weight;
        is_hidden = row.is_hidden;
      };
    } };

    ghost invariant = { λ row. (row.has_deadline ≡ is_some row.deadline.value)
        × (row.has_own_life ≡ is_some row.own_life.value) };
}

impl Lives {
    ghost use Rattle.moka_slab.specs.Lives.{AreLivesOf};

    /// Returns a deadline and an own lifetime together. One that is absent becomes 0.
    #[inline(always)]
    pub fn of(deadline: Option<u64>, own_life: Option<OwnLife>) -> Lives
        ensures { AreLivesOf deadline own_life result }
    {
        Lives {
            deadline: match deadline {
                Some(deadline) => deadline,
                None => 0,
            },
            own_life: match own_life {
                Some(own_life) => own_life,
                None => OwnLife {
                    from: 0,
                    life: Duration::ZERO,
                },
            },
        }
    }
}

impl<K, V> SlabRow<K, V> {
    ghost use Rattle.moka_slab.specs.Lives.{HasLives};

    /// Leaves out the hash and the lives of a row.
    #[inline(always)]
    pub fn new(row: Row<K, V>) -> Self
        ensures { result ≡ row }
    {
        let info = row.info();
        let hash = SharedSnapshot::of(&row.hash);
        let Row { key, value, .. } = row;
        SlabRow {
            key,
            value,
            last_modified: info.last_modified,
            last_accessed: info.last_accessed,
            policy_weight: info.policy_weight,
            has_deadline: info.deadline.is_some(),
            has_own_life: info.own_life.is_some(),
            is_hidden: info.is_hidden,
            hash,
            own_life: SharedSnapshot::of(&info.own_life),
            deadline: SharedSnapshot::of(&info.deadline),
        }
    }

    /// Returns the key.
    #[inline(always)]
    pub fn key(&self) -> &Arc<K>
        ensures { result.now ≡ self.now.key }
    {
        &self.key
    }

    /// Returns the value.
    #[inline(always)]
    pub fn value(&self) -> &V
        ensures { result.now ≡ self.now.value }
    {
        &self.value
    }

    /// Returns the metadata, given the lives of all rows and the place of those of this row.
    #[inline(always)]
    pub fn info(&self, lives: &[Lives], place: usize) -> EntryInfo
        requires { HasLives lives.now place self.now.info }
        ensures { result ≡ self.now.info }
    {
        let own_life = if self.has_own_life {
            Some(lives[place].own_life)
        } else {
            None
        };
        let deadline = if self.has_deadline {
            Some(lives[place].deadline)
        } else {
            None
        };
        EntryInfo {
            last_modified: self.last_modified,
            last_accessed: self.last_accessed,
            own_life,
            deadline,
            policy_weight: self.policy_weight,
            is_hidden: self.is_hidden,
        }
    }

    /// Applies an access, but for its lives.
    #[inline(always)]
    pub fn touch(&mut self, touch: Access)
        ensures { self.new ≡ touched touch self.old }
    {
        self.last_accessed = touch.last_accessed;
        self.has_own_life = touch.own_life.is_some();
        self.own_life = SharedSnapshot::of(&touch.own_life);
        self.has_deadline = touch.deadline.is_some();
        self.deadline = SharedSnapshot::of(&touch.deadline);
    }

    /// Replaces the value and its metadata, but for its lives. Returns the old value.
    #[inline(always)]
    pub fn overwrite(&mut self, value: V, info: EntryInfo) -> V
        ensures value { result ≡ self.old.value }
        ensures after { self.new ≡ overwritten value info self.old }
    {
        self.last_modified = info.last_modified;
        self.last_accessed = info.last_accessed;
        self.policy_weight = info.policy_weight;
        self.is_hidden = info.is_hidden;
        self.has_own_life = info.own_life.is_some();
        self.own_life = SharedSnapshot::of(&info.own_life);
        self.has_deadline = info.deadline.is_some();
        self.deadline = SharedSnapshot::of(&info.deadline);
        mem::replace(&mut self.value, value)
    }

    /// Marks the row invalidated.
    #[inline(always)]
    pub fn hide(&mut self)
        ensures { self.new ≡ hidden self.old }
    {
        self.is_hidden = true;
    }

    /// Returns the key and the value, for the removal of the row.
    #[inline(always)]
    pub fn into_key_and_value(self) -> (Arc<K>, V)
        ensures key { result.0 ≡ self.key }
        ensures value { result.1 ≡ self.value }
    {
        let SlabRow { key, value, .. } = self;
        (key, value)
    }
}
