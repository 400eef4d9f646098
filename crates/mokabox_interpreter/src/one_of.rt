//! The predicate of the command `invalidate-if`.
ghost use Rattle.std.specs.Prelude.{◌≡◌, IfOk};
ghost use Rattle.std.specs.String.{string_bytes};
ghost use Rattle.mokabox_interpreter.specs.Session.{holds_of};

use moka::policy::Predicate;
use mokabox_syntax::fields::Fields;
use std::alloc::{AllocError, Global};

/// A predicate that holds of each value that is one of some texts.
#[derive(Debug, Drop)]
pub struct OneOf {
    // Separated by single spaces.
    texts: String,
}

impl OneOf {
    /// Creates a predicate of these texts, which are separated by single spaces. Allocates a copy
    /// of them.
    pub fn new(alloc: Global, texts: &str) -> Result<OneOf, AllocError>
        ensures { IfOk result (λ it. string_bytes it.texts ≡ texts.now) }
    {
        let texts = String::from_str(alloc, texts)?;
        Ok(OneOf { texts })
    }
}

impl Predicate<u64, String> for OneOf {
    ghost tests = { λ it test. test ≡ holds_of it };

    fn holds(&self, _key: &u64, value: &String) -> bool {
        Fields::of(self.texts.as_str()).contains(value.as_str())
    }
}
