//! Types of values of which a clone of a clone is a clone.
ghost use Rattle.std.specs.Prelude.{◌≡◌, refl};
ghost use Rattle.std.proofs.Common.{rules};
ghost use Rattle.std.proofs.Math.Path.{◌∙◌};
ghost use Rattle.moka_presets.specs.Copies.{below-composes, both-compose, each-composes};
ghost use Rattle.moka_presets.specs.Copies.{same-or-composes};

use std::borrow::{Cow, CowStr};
use std::collections::{BTreeMap, BTreeSet, HashMap, HashSet, VecDeque};
use std::hash::{BuildHasher, Hash};
use std::sync::Arc;
use std::time::Duration;

/// A type of values of which a clone of a clone is a clone, as a cache asks of its values.
///
/// For a struct or an enum of your own whose `Clone` is derived, the impl is one line, by the rules
/// `composing`:
///
/// ```
/// ghost use Rattle.moka.specs.Copies.{composing};
///
/// impl CopiesCompose for Visitor {
///     ghost copies_compose = { Prim.search composing };
/// }
/// ```
///
/// With type parameters that are `CopiesCompose`, the line also names their laws:
/// `Prim.search (T.copies_compose, composing)`. An `Arc` of any type needs no line.
pub trait CopiesCompose: Clone {
    /// A clone of a clone is a clone.
    ghost copies_compose: { (u v w : Self) → Self.is_clone u v → Self.is_clone v w
        → Self.is_clone u w };
}

impl CopiesCompose for () {
    ghost copies_compose = { λ _ _ _ a b. b ∙ a };
}

impl CopiesCompose for bool {
    ghost copies_compose = { λ _ _ _ a b. b ∙ a };
}

impl CopiesCompose for char {
    ghost copies_compose = { λ _ _ _ a b. b ∙ a };
}

impl CopiesCompose for u8 {
    ghost copies_compose = { λ _ _ _ a b. b ∙ a };
}

impl CopiesCompose for u16 {
    ghost copies_compose = { λ _ _ _ a b. b ∙ a };
}

impl CopiesCompose for u32 {
    ghost copies_compose = { λ _ _ _ a b. b ∙ a };
}

impl CopiesCompose for u64 {
    ghost copies_compose = { λ _ _ _ a b. b ∙ a };
}

impl CopiesCompose for u128 {
    ghost copies_compose = { λ _ _ _ a b. b ∙ a };
}

impl CopiesCompose for usize {
    ghost copies_compose = { λ _ _ _ a b. b ∙ a };
}

impl CopiesCompose for i8 {
    ghost copies_compose = { λ _ _ _ a b. b ∙ a };
}

impl CopiesCompose for i16 {
    ghost copies_compose = { λ _ _ _ a b. b ∙ a };
}

impl CopiesCompose for i32 {
    ghost copies_compose = { λ _ _ _ a b. b ∙ a };
}

impl CopiesCompose for i64 {
    ghost copies_compose = { λ _ _ _ a b. b ∙ a };
}

impl CopiesCompose for i128 {
    ghost copies_compose = { λ _ _ _ a b. b ∙ a };
}

impl CopiesCompose for isize {
    ghost copies_compose = { λ _ _ _ a b. b ∙ a };
}

impl CopiesCompose for f32 {
    ghost copies_compose = { λ _ _ _ a b. b ∙ a };
}

impl CopiesCompose for f64 {
    ghost copies_compose = { λ _ _ _ a b. b ∙ a };
}

impl CopiesCompose for &'static str {
    ghost copies_compose = { λ _ _ _ a b. b ∙ a };
}

impl CopiesCompose for String {
    ghost copies_compose = { λ _ _ _ a b. b ∙ a };
}

impl CopiesCompose for Duration {
    ghost copies_compose = { λ _ _ _ a b. b ∙ a };
}

impl<T: Drop> CopiesCompose for Arc<T> {
    ghost copies_compose = { λ _ _ _ a b. b ∙ a };
}

impl<T: CopiesCompose> CopiesCompose for Box<T> {
    ghost copies_compose = { λ u v w a b. T.copies_compose u.value v.value w.value a b };
}

impl<T: CopiesCompose> CopiesCompose for Option<T> {
    ghost copies_compose = { Prim.search (T.copies_compose, rules) };
}

impl<T: CopiesCompose, E: CopiesCompose> CopiesCompose for Result<T, E> {
    ghost copies_compose = { Prim.search (T.copies_compose, E.copies_compose, rules) };
}

impl<T: CopiesCompose> CopiesCompose for Vec<T> {
    ghost copies_compose = { λ u v w a b.
        (each-composes T.is_clone T.copies_compose u.items v.items w.items a.0 b.0, b.1 ∙ a.1) };
}

impl<T: CopiesCompose> CopiesCompose for VecDeque<T> {
    ghost copies_compose = { λ u v w a b.
        (each-composes T.is_clone T.copies_compose u.items v.items w.items a.0 b.0, b.1 ∙ a.1) };
}

impl<T: CopiesCompose, const N: usize> CopiesCompose for [T; N] {
    ghost copies_compose = { λ u v w a b. below-composes T.is_clone T.copies_compose N u v w a b };
}

impl<'a, T: CopiesCompose> CopiesCompose for Cow<'a, T> {
    ghost copies_compose = { λ u v w a b. same-or-composes T.is_clone T.copies_compose _ _ _ a b };
}

impl<'a> CopiesCompose for CowStr<'a> {
    ghost copies_compose = { λ _ _ _ a b. b ∙ a };
}

impl<K: Ord + CopiesCompose> CopiesCompose for BTreeSet<K> {
    ghost copies_compose = { λ u v w a b. each-composes K.is_clone K.copies_compose u.keys v.keys
        w.keys a b };
}

impl<K: Ord + CopiesCompose, V: CopiesCompose> CopiesCompose for BTreeMap<K, V> {
    ghost copies_compose = { λ u v w a b. each-composes _
        (both-compose K.is_clone V.is_clone K.copies_compose V.copies_compose) u.entries v.entries
        w.entries a b };
}

impl<K: Eq + Hash + CopiesCompose, S: BuildHasher + Clone> CopiesCompose for HashSet<K, S> {
    ghost copies_compose = { λ u v w a b. each-composes K.is_clone K.copies_compose u.keys v.keys
        w.keys a b };
}

impl<K: Eq + Hash + CopiesCompose, V: CopiesCompose, S: BuildHasher + Clone> CopiesCompose
    for HashMap<K, V, S> {
    ghost copies_compose = { λ u v w a b. each-composes _
        (both-compose K.is_clone V.is_clone K.copies_compose V.copies_compose) u.entries v.entries
        w.entries a b };
}

impl<A: CopiesCompose, B: CopiesCompose> CopiesCompose for (A, B) {
    ghost copies_compose = { λ u v w a b. (
      A.copies_compose u.0 v.0 w.0 a.0 b.0,
      B.copies_compose u.1 v.1 w.1 a.1 b.1,
    ) };
}

impl<A: CopiesCompose, B: CopiesCompose, C: CopiesCompose> CopiesCompose for (A, B, C) {
    ghost copies_compose = { λ u v w a b. (
      A.copies_compose u.0 v.0 w.0 a.0 b.0,
      B.copies_compose u.1 v.1 w.1 a.1 b.1,
      C.copies_compose u.2 v.2 w.2 a.2 b.2,
    ) };
}

impl<A: CopiesCompose, B: CopiesCompose, C: CopiesCompose, D: CopiesCompose> CopiesCompose
    for (A, B, C, D) {
    ghost copies_compose = { λ u v w a b. (
      A.copies_compose u.0 v.0 w.0 a.0 b.0,
      B.copies_compose u.1 v.1 w.1 a.1 b.1,
      C.copies_compose u.2 v.2 w.2 a.2 b.2,
      D.copies_compose u.3 v.3 w.3 a.3 b.3,
    ) };
}

impl<
    A: CopiesCompose,
    B: CopiesCompose,
    C: CopiesCompose,
    D: CopiesCompose,
    E: CopiesCompose,
> CopiesCompose for (A, B, C, D, E) {
    ghost copies_compose = { λ u v w a b. (
      A.copies_compose u.0 v.0 w.0 a.0 b.0,
      B.copies_compose u.1 v.1 w.1 a.1 b.1,
      C.copies_compose u.2 v.2 w.2 a.2 b.2,
      D.copies_compose u.3 v.3 w.3 a.3 b.3,
      E.copies_compose u.4 v.4 w.4 a.4 b.4,
    ) };
}

impl<
    A: CopiesCompose,
    B: CopiesCompose,
    C: CopiesCompose,
    D: CopiesCompose,
    E: CopiesCompose,
    F: CopiesCompose,
> CopiesCompose for (A, B, C, D, E, F) {
    ghost copies_compose = { λ u v w a b. (
      A.copies_compose u.0 v.0 w.0 a.0 b.0,
      B.copies_compose u.1 v.1 w.1 a.1 b.1,
      C.copies_compose u.2 v.2 w.2 a.2 b.2,
      D.copies_compose u.3 v.3 w.3 a.3 b.3,
      E.copies_compose u.4 v.4 w.4 a.4 b.4,
      F.copies_compose u.5 v.5 w.5 a.5 b.5,
    ) };
}
