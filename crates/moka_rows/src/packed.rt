//! The metadata of a row's value, packed into few bytes.
ghost use Rattle.std.specs.Prelude.{◌≡◌, true, if◌then◌else◌, Some, None};
ghost use Rattle.moka_rows.specs.Rows.{used_at};

use crate::rows::{Access, EntryInfo, OwnLife};
use std::marker::Model;
use std::time::Duration;

/// The metadata of a row's value, packed.
///
/// A contract sees it as an `EntryInfo`. The private fields do without the room that each `Option`
/// takes to say whether it has a value.
#[doc(hidden)]
#[derive(Drop)]
pub struct PackedEntryInfo {
    last_modified: u64,
    last_accessed: u64,
    deadline: u64,
    from: u64,
    life: Duration,
    policy_weight: u32,
    has_deadline: bool,
    has_own_life: bool,
    is_hidden: bool,
}

impl Model for PackedEntryInfo {
    ghost use Rattle.std.specs.Prelude.{if◌then◌else◌, Some, None};
    ghost use Rattle.moka_rows.specs.declared.rows.EntryInfo.{EntryInfo};

    ghost Value = { EntryInfo };

    ghost view = { λ s. record {
      last_modified = s.last_modified;
      last_accessed = s.last_accessed;
      own_life = if s.has_own_life then Some (record { from = s.from; life = s.life }) else None;
      deadline = if s.has_deadline then Some s.deadline else None;
      policy_weight = s.policy_weight;
      is_hidden = s.is_hidden;
    } };
}

/// Returns whether there is a value, and the value or else `otherwise`.
#[inline(always)]
fn pack_option<T: Copy>(value: Option<T>, otherwise: T) -> (bool, T)
    ensures { (if result.0 then Some result.1 else None) ≡ value }
{
    match value {
        Some(value) => (true, value),
        None => (false, otherwise),
    }
}

/// Returns the value if `is_there`, and else `None`.
#[inline(always)]
fn unpack_option<T: Copy>(is_there: bool, value: T) -> Option<T>
    ensures { result ≡ (if is_there then Some value else None) }
{
    if is_there { Some(value) } else { None }
}

impl PackedEntryInfo {
    /// Packs the metadata of a value.
    #[inline(always)]
    pub fn new(info: EntryInfo) -> Self
        ensures { result ≡ info }
    {
        let (has_deadline, deadline) = pack_option(info.deadline, 0);
        let none = OwnLife {
            from: 0,
            life: Duration::ZERO,
        };
        let (has_own_life, own) = pack_option(info.own_life, none);
        PackedEntryInfo {
            last_modified: info.last_modified,
            last_accessed: info.last_accessed,
            deadline,
            from: own.from,
            life: own.life,
            policy_weight: info.policy_weight,
            has_deadline,
            has_own_life,
            is_hidden: info.is_hidden,
        }
    }

    /// Returns the metadata, unpacked.
    #[inline(always)]
    pub fn info(&self) -> EntryInfo
        ensures { result ≡ self.now }
    {
        let own = OwnLife {
            from: self.from,
            life: self.life,
        };
        EntryInfo {
            last_modified: self.last_modified,
            last_accessed: self.last_accessed,
            own_life: unpack_option(self.has_own_life, own),
            deadline: unpack_option(self.has_deadline, self.deadline),
            policy_weight: self.policy_weight,
            is_hidden: self.is_hidden,
        }
    }

    /// Applies an access. An absent lifetime or deadline only clears its flag, and leaves the
    /// fields of its value unwritten.
    #[inline(always)]
    pub fn touch(&mut self, touch: Access)
        ensures { self.new ≡ used_at touch self.old }
    {
        self.last_accessed = touch.last_accessed;
        self.has_own_life = touch.own_life.is_some();
        if let Some(own) = touch.own_life {
            self.from = own.from;
            self.life = own.life;
        }
        self.has_deadline = touch.deadline.is_some();
        if let Some(deadline) = touch.deadline {
            self.deadline = deadline;
        }
    }

    /// Marks the value invalidated.
    #[inline(always)]
    pub fn hide(&mut self)
        ensures { self.new ≡ record self.old { is_hidden = true } }
    {
        self.is_hidden = true;
    }
}
