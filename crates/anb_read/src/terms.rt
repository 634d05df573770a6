//! Reads terms.

ghost use Rattle.std.specs.Prelude.{◌≡◌, ◌∷◌, [], map, IfOk};
ghost use Rattle.anb_syntax.specs.Words.{head, sign};
ghost use Rattle.anb_syntax.specs.Grammar.{trees_of};
ghost use Rattle.anb_syntax.specs.Views.{tree_of};
ghost use Rattle.anb_read.specs.Productions.{fault, begins_term, is_comma, many, with_front, term_at, hashed_at, keyed_at, pair_at, wrapped_at, named_at, after_name_at, applied_at, terms_at, some_terms_at, no_terms_at, comma_term_at, operator_at};
ghost use Rattle.anb_read.specs.Places.{toks, Finds};
ghost use Rattle.anb_read.specs.Trees.{keyed_word, keyed_tree};

use crate::places::Place;
use crate::refusal::{ReadNo, refusal, too_deep};
use crate::single::{begins_term, expect_sign, expect_word, is_sign, is_word, name};
use anb_syntax::Tree;
use std::alloc::{AllocError, Global};

/// An operator on a key and a body.
#[derive(Clone, Copy, Drop)]
pub(crate) enum Keyed {
    Mac,
    Seal,
}

impl Keyed {
    fn word(self) -> &'static [u8]
        ensures { result.now ≡ keyed_word self }
    {
        match self {
            Keyed::Mac => b"mac",
            Keyed::Seal => b"scrypt",
        }
    }

    fn tree(self, alloc: Global, key: Tree, body: Tree) -> Result<Tree, AllocError>
        ensures { IfOk result (λ t. tree_of t ≡ keyed_tree self (tree_of key) (tree_of body)) }
    {
        let key = Box::new(alloc, key)?;
        let body = Box::new(alloc, body)?;
        match self {
            Keyed::Mac => Ok(Tree::Mac(key, body)),
            Keyed::Seal => Ok(Tree::Seal(key, body)),
        }
    }
}

/// The refusal where no level is left.
fn no_level(text: &[u8], places: &[Place]) -> ReadNo
    ensures { result ≡ fault (begins_term (head (toks text.now places.now)))
        (toks text.now places.now) }
{
    if begins_term(text, places) {
        too_deep(text, places)
    } else {
        refusal(text, places)
    }
}

/// Passes an operator's word and the sign behind it.
#[tactic(auto, unfolding(crate::specs::Productions::operator_at))]
fn operator<'p>(word: &[u8], text: &[u8], places: &'p [Place]) -> Result<&'p [Place], ReadNo>
    ensures { Finds (λ r. (tt, toks text.now r.now)) result
        (operator_at word.now (toks text.now places.now)) }
{
    let places = expect_word(word, text, places)?;
    expect_sign(b'(', text, places)
}

/// Reads a term that may have so many levels.
#[cycle(term)]
pub(crate) fn term<'p>(
    alloc: Global,
    levels: u8,
    text: &[u8],
    places: &'p [Place],
) -> Result<(Tree, &'p [Place]), ReadNo>
    ensures { Finds (λ x. (tree_of x.0, toks text.now x.1.now)) result
        (term_at levels (toks text.now places.now)) }
{
    if levels == 0 {
        return Err(no_level(text, places));
    }
    if is_word(b"h", text, places) {
        hashed(alloc, levels - 1, text, places)
    } else if is_word(b"mac", text, places) {
        under_key(alloc, levels - 1, Keyed::Mac, text, places)
    } else if is_word(b"scrypt", text, places) {
        under_key(alloc, levels - 1, Keyed::Seal, text, places)
    } else if is_word(b"wrap", text, places) {
        wrapped(alloc, levels - 1, text, places)
    } else {
        named(alloc, levels - 1, text, places)
    }
}

/// Reads a hash.
#[cycle(term)]
#[tactic(auto, unfolding(crate::specs::Productions::hashed_at))]
fn hashed<'p>(
    alloc: Global,
    levels: u8,
    text: &[u8],
    places: &'p [Place],
) -> Result<(Tree, &'p [Place]), ReadNo>
    ensures { Finds (λ x. (tree_of x.0, toks text.now x.1.now)) result
        (hashed_at (term_at levels) (toks text.now places.now)) }
{
    let places = operator(b"h", text, places)?;
    let (inner, places) = term(alloc, levels, text, places)?;
    let places = expect_sign(b')', text, places)?;
    Ok((Tree::Hash(Box::new(alloc, inner)?), places))
}

/// Reads a term under an operator on a key and a body.
#[cycle(term)]
#[tactic(auto, unfolding(crate::specs::Productions::keyed_at))]
fn under_key<'p>(
    alloc: Global,
    levels: u8,
    operation: Keyed,
    text: &[u8],
    places: &'p [Place],
) -> Result<(Tree, &'p [Place]), ReadNo>
    ensures { Finds (λ x. (tree_of x.0, toks text.now x.1.now)) result
        (keyed_at (term_at levels) (keyed_word operation) (keyed_tree operation)
        (toks text.now places.now)) }
{
    let places = operator(operation.word(), text, places)?;
    let (key, body, places) = pair(alloc, levels, text, places)?;
    Ok((operation.tree(alloc, key, body)?, places))
}

/// Reads two terms and the signs behind them.
#[cycle(term)]
#[tactic(auto, unfolding(crate::specs::Productions::pair_at))]
fn pair<'p>(
    alloc: Global,
    levels: u8,
    text: &[u8],
    places: &'p [Place],
) -> Result<(Tree, Tree, &'p [Place]), ReadNo>
    ensures { Finds (λ x. ((tree_of x.0, tree_of x.1), toks text.now x.2.now)) result
        (pair_at (term_at levels) (toks text.now places.now)) }
{
    let (first, places) = term(alloc, levels, text, places)?;
    let (second, places) = comma_term(alloc, levels, text, places)?;
    let places = expect_sign(b')', text, places)?;
    Ok((first, second, places))
}

/// Reads a wrapped term.
#[cycle(term)]
#[tactic(auto, unfolding(crate::specs::Productions::wrapped_at))]
fn wrapped<'p>(
    alloc: Global,
    levels: u8,
    text: &[u8],
    places: &'p [Place],
) -> Result<(Tree, &'p [Place]), ReadNo>
    ensures { Finds (λ x. (tree_of x.0, toks text.now x.1.now)) result
        (wrapped_at (term_at levels) (toks text.now places.now)) }
{
    let places = operator(b"wrap", text, places)?;
    let (key, places) = term(alloc, levels, text, places)?;
    let places = expect_sign(b',', text, places)?;
    let (context, body, places) = pair(alloc, levels, text, places)?;
    let key = Box::new(alloc, key)?;
    let context = Box::new(alloc, context)?;
    let body = Box::new(alloc, body)?;
    Ok((Tree::Wrap(key, context, body), places))
}

/// Reads a name, and its arguments where they follow.
#[cycle(term)]
#[tactic(auto, unfolding(crate::specs::Productions::named_at, crate::specs::Productions::after_name_at, crate::specs::Productions::applied_at))]
fn named<'p>(
    alloc: Global,
    levels: u8,
    text: &[u8],
    places: &'p [Place],
) -> Result<(Tree, &'p [Place]), ReadNo>
    ensures { Finds (λ x. (tree_of x.0, toks text.now x.1.now)) result
        (named_at (term_at levels) (toks text.now places.now)) }
{
    let (name, places) = name(alloc, text, places)?;
    if !is_sign(b'(', text, places) {
        return Ok((Tree::Name(name), places));
    }
    let places = expect_sign(b'(', text, places)?;
    let (inner, places) = terms(alloc, levels, b')', text, places)?;
    Ok((Tree::Apply(name, inner), places))
}

/// Reads terms up to a sign, and the sign.
#[cycle(term)]
#[tactic(auto, unfolding(crate::specs::Productions::terms_at, crate::specs::Productions::no_terms_at))]
pub(crate) fn terms<'p>(
    alloc: Global,
    levels: u8,
    close: u8,
    text: &[u8],
    places: &'p [Place],
) -> Result<(Vec<Tree>, &'p [Place]), ReadNo>
    ensures { Finds (λ x. (trees_of (map tree_of x.0.items), toks text.now x.1.now)) result
        (terms_at (term_at levels) (sign close) (toks text.now places.now)) }
{
    if is_sign(close, text, places) {
        let places = expect_sign(close, text, places)?;
        return Ok((Vec::new(alloc), places));
    }
    some_terms(alloc, levels, close, text, places)
}

/// Reads one term or more up to a sign, and the sign.
#[cycle(term)]
#[tactic(auto, unfolding(crate::specs::Productions::some_terms_at))]
fn some_terms<'p>(
    alloc: Global,
    levels: u8,
    close: u8,
    text: &[u8],
    places: &'p [Place],
) -> Result<(Vec<Tree>, &'p [Place]), ReadNo>
    ensures { Finds (λ x. (trees_of (map tree_of x.0.items), toks text.now x.1.now)) result
        (some_terms_at (term_at levels) (sign close) (toks text.now places.now)) }
{
    let (first, places) = term(alloc, levels, text, places)?;
    let mut items = Vec::new(alloc);
    items.push(first)?;
    let (items, places) = more_terms(alloc, levels, items, text, places)?;
    let places = expect_sign(close, text, places)?;
    Ok((items, places))
}

/// Reads a comma and a term.
#[cycle(term)]
#[tactic(auto, unfolding(crate::specs::Productions::comma_term_at))]
fn comma_term<'p>(
    alloc: Global,
    levels: u8,
    text: &[u8],
    places: &'p [Place],
) -> Result<(Tree, &'p [Place]), ReadNo>
    ensures { Finds (λ x. (tree_of x.0, toks text.now x.1.now)) result
        (comma_term_at (term_at levels) (toks text.now places.now)) }
{
    let places = expect_sign(b',', text, places)?;
    term(alloc, levels, text, places)
}

/// Reads further terms behind those that it is given.
#[cycle(term)]
fn more_terms<'p>(
    alloc: Global,
    levels: u8,
    mut items: Vec<Tree>,
    text: &[u8],
    places: &'p [Place],
) -> Result<(Vec<Tree>, &'p [Place]), ReadNo>
    ensures { Finds (λ x. (map tree_of x.0.items, toks text.now x.1.now)) result
        (with_front (map tree_of items.items)
        (many is_comma (comma_term_at (term_at levels)) (toks text.now places.now))) }
{
    let mut rest = places;
    for _ in 0..places.len() {
        if !is_sign(b',', text, rest) {
            return Ok((items, rest));
        }
        let (item, after) = comma_term(alloc, levels, text, rest)?;
        items.push(item)?;
        rest = after;
    }
    Ok((items, rest))
}
