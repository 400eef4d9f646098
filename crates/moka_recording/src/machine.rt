//! The interface of a machine whose steps are recorded.
ghost use Rattle.std.specs.Prelude.{◌≡◌, List, [], ◌∷◌, ◌++◌, IfOk, IfErr, IsTrue};
ghost use mathlib.Core.Logic.{◌↔◌};

use moka_policy::policy::Refused;

/// A value that does steps, returns a reply to each, and stands for a history of its steps and
/// replies.
///
/// A step and its reply are needed three times: by the caller, in the history and in the caller's
/// pass. They are clones of one another, as far as their types have clones. So contracts say that
/// all three are of one call, in the machine's own sense.
pub trait Machine<S: Drop, R: Drop>: Drop {
    ghost use Rattle.std.specs.Prelude.{◌≡◌, List, [], ◌∷◌, ◌++◌, IfOk, IfErr, IsTrue};
    ghost use mathlib.Core.Logic.{◌↔◌};
    ghost use Rattle.moka_policy.specs.declared.policy.Refused.TheVariants.{OutOfMemory};

    /// What a machine was built with. Exists only in proofs.
    type Built;

    /// What the machine was built with.
    ghost built_with: { Self → Self.Built };

    /// The machine stands for this history, the oldest step first. The history is legal from what
    /// the machine was built with.
    ghost stands: { Self.Built → Self → List (S × R) → Type 0 };

    /// What a caller has to prove of a step.
    ghost owes: { S → Type 0 };

    /// What a caller learns of the reply to a step.
    ghost fits: { S → R → Type 0 };

    /// Three steps are of one call: the caller's, the history's and the pass's.
    ghost one_step: { S → S → S → Type 0 };

    /// Three replies are of one call: the caller's, the history's and the pass's.
    ghost one_reply: { R → R → R → Type 0 };

    /// A step may end what other callers wait for.
    ghost ends: { S → Type 0 };

    /// A reply says that its step failed, and changed nothing.
    ghost fails: { R → Type 0 };

    /// A reply says that its caller has to wait for another caller's step.
    ghost early: { R → Type 0 };

    /// Does a step. Returns its reply, and the step with its reply twice more: for the history and
    /// for a pass.
    ///
    /// # Errors
    ///
    /// - `OutOfMemory`: an allocation failed. The machine still stands for each history that it
    ///   stood for.
    fn step_recorded(&mut self, step: S) -> Result<(R, (S, R), (S, R)), Refused>
        requires { owes step }
        ensures stands { IfOk result (λ done. (b : Self.Built) (h : List (S × R)) →
            stands b self.old h → stands b self.new (h ++ done.1 ∷ [])) }
        ensures steps { IfOk result (λ done. one_step step done.1.0 done.2.0) }
        ensures replies { IfOk result (λ done. (b : Self.Built) (h : List (S × R)) →
            stands b self.old h → one_reply done.0 done.1.1 done.2.1) }
        ensures fits { IfOk result (λ done. (b : Self.Built) (h : List (S × R)) →
            stands b self.old h → fits step done.0) }
        ensures refused { IfErr result (λ _. (b : Self.Built) (h : List (S × R)) →
            stands b self.old h → stands b self.new h) }
        ensures cause { IfErr result (λ cause. cause ≡ OutOfMemory) };

    /// Returns whether a step may end what other callers wait for.
    fn is_end(step: &S) -> bool
        ensures { IsTrue result ↔ ends step.now };

    /// Returns whether a reply says that its step failed, and changed nothing.
    fn is_failure(reply: &R) -> bool
        ensures { IsTrue result ↔ fails reply.now };

    /// Returns whether a reply says that its caller has to wait for another caller's step.
    fn is_early(reply: &R) -> bool
        ensures { IsTrue result ↔ early reply.now };

    /// Returns whether the step, if done now, would still be early.
    ///
    /// A waiting caller goes back to sleep for as long as it is.
    fn still_waits(&self, step: &S) -> bool;
}
