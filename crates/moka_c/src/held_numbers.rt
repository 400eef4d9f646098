//! The box of a cache of numbers, or none, as a struct that C may hold.
ghost use Rattle.std.specs.Prelude.{◌≡◌, Option, Some, None, IsSome};
ghost use Rattle.std.specs.Coded.{coded_option};
ghost use Rattle.moka_c.specs.Held.{box_held};
ghost use Rattle.moka_c.specs.contracts.numbers.Numbers.{the_row};
ghost use Rattle.moka_c.specs.declared.numbers.Numbers.{Numbers};

use crate::numbers::Numbers;
use crate::parts::Parts;
use std::alloc::Global;
use std::marker::Model;

/// The box of a cache of numbers, or none.
///
/// Its type names no type of the cache, since C may hold none that is read through a `&`.
#[repr(C)]
#[derive(Drop)]
pub struct HeldNumbers {
    at: *mut u8,
    alloc: Global,
    pub ghost held: { Option Numbers } by { coded_option the_row.coded },
}

impl Model for HeldNumbers {
    ghost also_owns = { λ h. box_held the_row h.alloc h.at h.held };
}

impl HeldNumbers {
    /// Holds the box of these parts.
    pub(crate) fn of_parts(parts: Parts<Numbers, Global>) -> HeldNumbers
        ensures { result.held ≡ Some parts.value }
    {
        let Parts { ptr, alloc } = parts;
        HeldNumbers {
            at: ptr.cast(),
            alloc,
        }
    }

    /// Holds none.
    pub(crate) fn empty(at: *mut u8, alloc: Global) -> HeldNumbers
        ensures { result.held ≡ None }
    {
        HeldNumbers { at, alloc }
    }

    /// Returns the parts of the box.
    pub(crate) fn into_parts(self) -> Parts<Numbers, Global>
        requires { IsSome self.held }
        ensures { self.held ≡ Some result.value }
    {
        let HeldNumbers { at, alloc } = self;
        Parts {
            ptr: at.cast(),
            alloc,
        }
    }
}

// The pointer owns its box alone.
unsafe impl Send for HeldNumbers {}
