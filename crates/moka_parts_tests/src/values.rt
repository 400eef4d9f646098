//! The types of values whose clones of clones are clones (`CopiesCompose`). Each impl is used once.
ghost use Rattle.moka_presets.specs.Copies.{composing};

use moka_presets::copies::CopiesCompose;
use std::alloc::AllocError;
use std::borrow::{Cow, CowStr};
use std::collections::{BTreeMap, BTreeSet, HashMap, HashSet, VecDeque};
use std::hash::RandomState;
use std::sync::Arc;
use std::test::Fail;
use std::time::Duration;

/// A struct of a user's own, with fields of many types.
#[derive(Clone, PartialEq, Drop)]
struct Page {
    title: String,
    body: Vec<u8>,
    author: Option<String>,
    life: Duration,
    marks: [u16; 3],
    pairs: Vec<(u64, String)>,
}

impl CopiesCompose for Page {
    ghost copies_compose = { Prim.search composing };
}

/// A struct of structs.
#[derive(Clone, Drop)]
struct Book {
    cover: Page,
    pages: Vec<Page>,
}

impl CopiesCompose for Book {
    ghost copies_compose = { Prim.search composing };
}

/// An enum of a user's own, with a type parameter.
#[derive(Clone, PartialEq, Drop)]
enum Form<T> {
    Point,
    Circle(u32, T),
    Named { name: String, parts: Vec<T> },
}

impl<T: CopiesCompose> CopiesCompose for Form<T> {
    ghost copies_compose = { Prim.search (T.copies_compose, composing) };
}

// Returns a clone of a clone.
fn copy_twice<T: CopiesCompose>(value: &T) -> Result<T, AllocError> {
    value.clone()?.clone()
}

/// A clone of a clone of a struct or an enum equals it.
#[test]
fn a_value_is_copied_on(rt: HostRuntime) -> Result<(), Fail> {
    let page = Page {
        title: String::from_str(rt.alloc(), "A")?,
        body: vec![in rt.alloc(); 1, 2]?,
        author: None,
        life: Duration::from_secs(1),
        marks: [1, 2, 3],
        pairs: Vec::new(rt.alloc()),
    };
    let form = Form::Named {
        name: String::from_str(rt.alloc(), "A")?,
        parts: vec![in rt.alloc(); page]?,
    };
    assert!(rt; copy_twice(&form)? == form);
    assert!(rt; copy_twice(&Form::Circle(1, 2_u8))? == Form::Circle(1, 2_u8));
    assert!(rt; copy_twice(&Form::<u8>::Point)? == Form::Point);
    Ok(())
}

// Compiles only for types that have `CopiesCompose`.
fn copies_on<T: CopiesCompose>() {}

/// Many types of std have `CopiesCompose`, and so has a struct of structs.
#[test]
fn many_types_are_copied_on(_rt: HostRuntime) -> Result<(), Fail> {
    copies_on::<(Book, Result<Option<u8>, String>, VecDeque<Box<String>>)>();
    copies_on::<(u128, i8, i16, i128, isize, f64)>();
    copies_on::<(f32, char, bool, &'static str, Arc<u8>, [Vec<u8>; 4])>();
    copies_on::<(Cow<'static, u64>, CowStr<'static>)>();
    copies_on::<(BTreeMap<u64, String>, BTreeSet<String>)>();
    copies_on::<(HashMap<u64, u8, RandomState>, HashSet<u8, RandomState>)>();
    Ok(())
}
