//! What is beyond a limit, by its number from 0.
ghost use Rattle.std.specs.Prelude.{◌≡◌, ◌-◌, ◌≤◌, map};
ghost use Rattle.anb_format.specs.Formats.{field_count};
ghost use Rattle.anb_syntax.specs.Grammar.{trees_of};
ghost use Rattle.anb_syntax.specs.Views.{format_of, tree_of};
ghost use Rattle.anb_protocol.specs.Checks.{tree_nodes, trees_nodes};
ghost use Rattle.anb_protocol.specs.Views.{pointed};
ghost use Rattle.anb_mistakes.specs.Beyond.{heavy_term, large_term, wide_format};

use crate::items::field_count;
use anb_syntax::{FormatItem, Tree};

/// The first format that has too many fields.
pub(crate) fn wide_format(formats: &[FormatItem]) -> usize
    ensures { result ≡ wide_format (map format_of formats.now) }
{
    for i in 0..formats.len() {
        let count = fields_in(&formats[i]);
        if count > 32 {
            return i;
        }
    }
    formats.len()
}

fn fields_in(format: &FormatItem) -> usize
    ensures { result ≡ field_count (format_of format.now).pieces }
{
    field_count(&format.pieces)
}

/// The first term that has more nodes than this.
pub(crate) fn large_term(most: usize, terms: &[&Tree]) -> usize
    requires { most ≤ 65536 }
    ensures { result ≡ large_term most (map tree_of (pointed terms.now)) }
{
    for i in 0..terms.len() {
        let left = left_of(most + 1, terms[i]);
        if left == 0 {
            return i;
        }
    }
    terms.len()
}

/// The first term that has, with those before it, more nodes than this.
pub(crate) fn heavy_term(most: usize, terms: &[&Tree]) -> usize
    requires { most ≤ 65536 }
    ensures { result ≡ heavy_term most (map tree_of (pointed terms.now)) }
{
    let mut left = most;
    for i in 0..terms.len() {
        let rest = left_of(left + 1, terms[i]);
        if rest == 0 {
            return i;
        }
        left = rest - 1;
    }
    terms.len()
}

/// What is left of a number when the nodes of a term are taken away.
#[cycle(nodes)]
fn left_of(number: usize, tree: &Tree) -> usize
    ensures { result ≡ number - tree_nodes (tree_of tree.now) }
{
    let number = number.saturating_sub(1);
    match tree {
        Tree::Name(_) => number,
        Tree::Apply(_, arguments) => left_of_all(number, arguments),
        Tree::Hash(body) => left_of(number, body),
        Tree::Mac(key, body) | Tree::Seal(key, body) => left_of(left_of(number, key), body),
        Tree::Wrap(key, context, body) => { left_of(left_of(left_of(number, key), context), body) }
    }
}

/// The same of several terms.
#[cycle(nodes)]
fn left_of_all(number: usize, trees: &Vec<Tree>) -> usize
    ensures { result ≡ number - trees_nodes (trees_of (map tree_of trees.now.items)) }
{
    let mut left = number;
    for tree in trees {
        left = left_of(left, tree);
    }
    left
}
