//! Counts that are above their limits.
ghost use Rattle.std.specs.Prelude.{◌≡◌, ◌<◌, ◌≤◌, ◌^◌, ◌++◌, ◌∷◌, List, ℕ, length, map, IfOk, None};
ghost use Rattle.std.specs.Option.{option_or};
ghost use Rattle.std.specs.List.{AllByRecursion, sum_by};
ghost use Rattle.anb_syntax.specs.Grammar.{trees_of, FormatItem as Item};
ghost use Rattle.anb_syntax.specs.Views.{tree_of, format_of, narration_of};
ghost use Rattle.anb_format.specs.Formats.{field_count};
ghost use Rattle.anb_protocol.specs.declared.refusals.Kind.TheVariants.{Name, Fields, TermNodes};
ghost use Rattle.anb_protocol.specs.Choices.{first};
ghost use Rattle.anb_protocol.specs.Names.{declared_names, roles, terms, used_name, uses as uses_in};
ghost use Rattle.anb_protocol.specs.Checks.{above, action_limit, all_limit, first_fault, format_limit, limit_checks, role_limit, term_limit, tree_nodes, trees_nodes};
ghost use Rattle.anb_protocol.specs.WellFormed.{IsCountable};
ghost use Rattle.anb_protocol.specs.Views.{pointed};
ghost use Rattle.anb_resolve.specs.Uses.{use_of};

use crate::uses::{Use, role_names, terms_of};
use anb_base::{NoMemory, Text};
use anb_format::Piece;
use anb_protocol::{Kind, ResolveNo};
use anb_syntax::{FormatItem, Narration, Tree};
use std::alloc::Global;

/// The first count of a narration that is above its limit, where these are its declared names and its
/// uses of names.
pub(crate) fn limit_fault(
    alloc: Global,
    n: &Narration,
    declared: &[&Text],
    uses: &[Use],
) -> Result<Option<ResolveNo>, NoMemory>
    requires countable { IsCountable (narration_of n.now) }
    requires declared { pointed declared.now ≡ declared_names (narration_of n.now) }
    requires uses { map use_of uses.now ≡ uses_in (narration_of n.now) }
    ensures { IfOk result (λ no. no ≡ first_fault limit_checks (narration_of n.now)) }
{
    match name_limit(&n.name, declared, uses) {
        Some(no) => return Ok(Some(no)),
        None => {}
    }
    match format_limit(n) {
        Some(no) => return Ok(Some(no)),
        None => {}
    }
    match field_limit(&n.formats) {
        Some(no) => return Ok(Some(no)),
        None => {}
    }
    match role_limit(alloc, n)? {
        Some(no) => return Ok(Some(no)),
        None => {}
    }
    match action_limit(n) {
        Some(no) => return Ok(Some(no)),
        None => {}
    }
    node_limits(alloc, n)
}

fn format_limit(n: &Narration) -> Option<ResolveNo>
    requires { length (narration_of n.now).formats < 2 ^ 32 }
    ensures { result ≡ format_limit (narration_of n.now) }
{
    above(64, Kind::Formats, n.formats.as_slice().len())
}

fn role_limit(alloc: Global, n: &Narration) -> Result<Option<ResolveNo>, NoMemory>
    requires { length (roles (narration_of n.now)) < 2 ^ 32 }
    ensures { IfOk result (λ no. no ≡ role_limit (narration_of n.now)) }
{
    let roles = role_names(alloc, n)?;
    Ok(above(32, Kind::Roles, roles.as_slice().len()))
}

fn action_limit(n: &Narration) -> Option<ResolveNo>
    requires { length (narration_of n.now).actions < 2 ^ 32 }
    ensures { result ≡ action_limit (narration_of n.now) }
{
    above(256, Kind::Actions, n.actions.as_slice().len())
}

/// The first term that has too many nodes, or all of them together.
fn node_limits(alloc: Global, n: &Narration) -> Result<Option<ResolveNo>, NoMemory>
    requires { sum_by tree_nodes (terms (narration_of n.now)) < 2 ^ 32 }
    ensures { IfOk result (λ no.
        no ≡ option_or (term_limit (narration_of n.now))
        (option_or (all_limit (narration_of n.now)) None)) }
{
    let terms = terms_of(alloc, n)?;
    match term_limit(&terms) {
        Some(no) => return Ok(Some(no)),
        None => {}
    }
    Ok(above(65536, Kind::AllNodes, all_nodes(&terms)))
}

fn above(most: usize, kind: Kind, count: usize) -> Option<ResolveNo>
    requires { count < 2 ^ 32 }
    ensures { result ≡ above most kind count }
{
    if count > most {
        Some(ResolveNo::Limit(kind, count as u32))
    } else {
        None
    }
}

/// The first of these names that is too long.
fn name_limit(title: &Text, declared: &[&Text], uses: &[Use]) -> Option<ResolveNo>
    requires { AllByRecursion (λ (x : List ℕ). length x < 2 ^ 32)
        (title.now ∷ pointed declared.now ++ map used_name (map use_of uses.now)) }
    ensures { result ≡ first (λ (x : List ℕ). above 64 Name (length x))
        (title.now ∷ pointed declared.now ++ map used_name (map use_of uses.now)) }
{
    if let Some(no) = above(64, Kind::Name, title.as_str().len()) {
        return Some(no);
    }
    for name in declared {
        if let Some(no) = above(64, Kind::Name, name.as_str().len()) {
            return Some(no);
        }
    }
    for used in uses {
        if let Some(no) = above(64, Kind::Name, used.name().as_str().len()) {
            return Some(no);
        }
    }
    None
}

/// The first format that has too many fields.
fn field_limit(formats: &[FormatItem]) -> Option<ResolveNo>
    requires { AllByRecursion (λ (f : Item). length f.pieces < 2 ^ 32) (map format_of formats.now) }
    ensures { result ≡ first (λ (f : Item). above 32 Fields (field_count f.pieces))
        (map format_of formats.now) }
{
    for format in formats {
        if let Some(no) = above(32, Kind::Fields, field_count(&format.pieces)) {
            return Some(no);
        }
    }
    None
}

/// How many fields these pieces have.
pub(crate) fn field_count(pieces: &[Piece]) -> usize
    ensures count { result ≡ field_count pieces.now }
    ensures below { result ≤ length pieces.now }
{
    let mut count = 0;
    for piece in pieces {
        if matches!(piece, Piece::Field(_)) {
            count += 1;
        }
    }
    count
}

/// The first of these terms that has too many nodes.
fn term_limit(terms: &[&Tree]) -> Option<ResolveNo>
    requires { sum_by tree_nodes (map tree_of (pointed terms.now)) < 2 ^ 32 }
    ensures { result ≡ first (λ t. above 1024 TermNodes (tree_nodes t))
        (map tree_of (pointed terms.now)) }
{
    for term in terms {
        if let Some(no) = above(1024, Kind::TermNodes, tree_nodes(term)) {
            return Some(no);
        }
    }
    None
}

/// How many nodes these terms have together.
fn all_nodes(terms: &[&Tree]) -> usize
    requires { sum_by tree_nodes (map tree_of (pointed terms.now)) < 2 ^ 32 }
    ensures { result ≡ sum_by tree_nodes (map tree_of (pointed terms.now)) }
{
    let mut count = 0;
    for term in terms {
        count += tree_nodes(term);
    }
    count
}

#[cycle(nodes)]
fn tree_nodes(tree: &Tree) -> usize
    requires { tree_nodes (tree_of tree.now) < 2 ^ 32 }
    ensures { result ≡ tree_nodes (tree_of tree.now) }
{
    match tree {
        Tree::Name(_) => 1,
        Tree::Apply(_, arguments) => 1 + trees_nodes(arguments),
        Tree::Hash(body) => 1 + tree_nodes(body),
        Tree::Mac(key, body) | Tree::Seal(key, body) => 1 + tree_nodes(key) + tree_nodes(body),
        Tree::Wrap(key, context, body) => {
            1 + tree_nodes(key) + tree_nodes(context) + tree_nodes(body)
        }
    }
}

#[cycle(nodes)]
fn trees_nodes(trees: &Vec<Tree>) -> usize
    requires { trees_nodes (trees_of (map tree_of trees.now.items)) < 2 ^ 32 }
    ensures { result ≡ trees_nodes (trees_of (map tree_of trees.now.items)) }
{
    let mut count = 0;
    for tree in trees {
        count += tree_nodes(tree);
    }
    count
}
