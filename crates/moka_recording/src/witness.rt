//! The evidence of what a recorded machine was built with.
ghost use Rattle.std.specs.Prelude.{◌≡◌};
ghost use base.Fml.{ftrue};

use crate::law::Token;
use std::marker::{Model, Send, Sync};

/// A token that claims what a recorded machine was built with.
///
/// Threads share it with the recorded machine. For the kit's token the prover has no proof that
/// threads may share one. For this type it has: a shared reference to it changes nothing.
pub(crate) struct Witness<S, R, B> {
    pub(crate) token: Token<S, R, B>,
}

impl<S, R, B> Model for Witness<S, R, B> {
    ghost also_owns = { λ _. ftrue };
}

unsafe impl<S: Send, R: Send, B> Send for Witness<S, R, B> {}

unsafe impl<S: Send, R: Send, B> Sync for Witness<S, R, B> {}

impl<S, R, B> Drop for Witness<S, R, B> {
    fn drop(self) {
        drop(self.into_token());
    }
}

impl<S, R, B> Witness<S, R, B> {
    // Creates a witness from its token.
    pub(crate) fn new(token: Token<S, R, B>) -> Self
        ensures { result.token ≡ token }
    {
        Witness { token }
    }

    // Returns the token.
    pub(crate) fn into_token(self) -> Token<S, R, B>
        ensures { result ≡ self.token }
    {
        let Self { token } = self;
        token
    }
}
