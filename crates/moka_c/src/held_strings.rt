//! The box of a cache of byte strings, or none, as a struct that C may hold.
ghost use Rattle.std.specs.Prelude.{◌≡◌, Option, Some, None, IsSome};
ghost use Rattle.std.specs.Coded.{coded_option};
ghost use Rattle.moka_c.specs.Held.{box_held};
ghost use Rattle.moka_c.specs.contracts.byte_strings.ByteStrings.{the_row};
ghost use Rattle.moka_c.specs.declared.byte_strings.ByteStrings.{ByteStrings};

use crate::byte_strings::ByteStrings;
use crate::parts::Parts;
use std::alloc::Global;
use std::marker::Model;

/// The box of a cache of byte strings, or none.
///
/// Its type names no type of the cache, since C may hold none that is read through a `&`.
#[repr(C)]
#[derive(Drop)]
pub struct HeldStrings {
    at: *mut u8,
    alloc: Global,
    pub ghost held: { Option ByteStrings } by { coded_option the_row.coded },
}

impl Model for HeldStrings {
    ghost also_owns = { λ h. box_held the_row h.alloc h.at h.held };
}

impl HeldStrings {
    /// Holds the box of these parts.
    pub(crate) fn of_parts(parts: Parts<ByteStrings, Global>) -> HeldStrings
        ensures { result.held ≡ Some parts.value }
    {
        let Parts { ptr, alloc } = parts;
        HeldStrings {
            at: ptr.cast(),
            alloc,
        }
    }

    /// Holds none.
    pub(crate) fn empty(at: *mut u8, alloc: Global) -> HeldStrings
        ensures { result.held ≡ None }
    {
        HeldStrings { at, alloc }
    }

    /// Returns the parts of the box.
    pub(crate) fn into_parts(self) -> Parts<ByteStrings, Global>
        requires { IsSome self.held }
        ensures { self.held ≡ Some result.value }
    {
        let HeldStrings { at, alloc } = self;
        Parts {
            ptr: at.cast(),
            alloc,
        }
    }
}

// The pointer owns its box alone.
unsafe impl Send for HeldStrings {}
