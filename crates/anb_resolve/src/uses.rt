//! The names of a narration, and how it uses them.
ghost use Rattle.std.specs.Prelude.{◌≡◌, ◌++◌, ◌∷◌, [], map, OnOk, IfOk};
ghost use Rattle.std.specs.List.{flat_map};
ghost use Rattle.std.specs.Str.{bytes_eq};
ghost use Rattle.anb_syntax.specs.Grammar.{trees_of, list_of, TypeItem as Types, FormatItem as Format, KnowItem as Know, ActionItem as Action};
ghost use Rattle.anb_syntax.specs.Views.{tree_of, type_of, format_of, know_of, action_of, narration_of};
ghost use Rattle.anb_protocol.specs.Names.{action_roles, action_uses, declared_names, distinct, first_new, item_atoms, know_uses, line_names, roles, terms, trees_uses, tree_uses, used_name, uses};
ghost use Rattle.anb_protocol.specs.Views.{pointed};
ghost use Rattle.anb_resolve.specs.Uses.{use_of};

use anb_base::{NoMemory, Text};
use anb_index::TextIndex;
use anb_protocol::Atom;
use anb_syntax::{ActionItem, FormatItem, KnowItem, Narration, Tree, TypeItem};
use std::alloc::Global;

/// How a name is used: as a role, as an atom, or as a format with so many arguments.
#[derive(Clone, Copy, Drop)]
pub(crate) enum Use<'a> {
    Role(&'a Text),
    Atom(&'a Text),
    Format(&'a Text, usize),
}

impl<'a> Use<'a> {
    ghost use Rattle.std.specs.Prelude.{◌≡◌};
    ghost use Rattle.anb_protocol.specs.Names.{used_name};
    ghost use Rattle.anb_resolve.specs.Uses.{use_of};

    /// The name.
    pub(crate) fn name(self) -> &'a Text
        ensures { result.now ≡ used_name (use_of self.entry) }
    {
        match self {
            Use::Role(name) | Use::Atom(name) | Use::Format(name, _) => name,
        }
    }
}

/// All uses of a narration, in text order.
pub(crate) fn uses_of<'a>(alloc: Global, n: &'a Narration) -> Result<Vec<Use<'a>>, NoMemory>
    ensures { IfOk result (λ v. map use_of v.items ≡ uses (narration_of n.now)) }
{
    let mut all = Vec::new(alloc);
    put_know_uses(&mut all, &n.knows)?;
    put_action_uses(&mut all, &n.actions)?;
    Ok(all)
}

fn put_know_uses<'a>(out: &mut Vec<Use<'a>>, knows: &'a Vec<KnowItem>) -> Result<(), NoMemory>
    ensures { OnOk result (map use_of out.new.items
        ≡ map use_of out.old.items ++ flat_map know_uses (map know_of knows.now.items)) }
{
    for item in knows {
        out.push(Use::Role(&item.role))?;
        put_trees_uses(out, &item.terms)?;
    }
    Ok(())
}

fn put_action_uses<'a>(out: &mut Vec<Use<'a>>, actions: &'a Vec<ActionItem>) -> Result<(), NoMemory>
    ensures { OnOk result (map use_of out.new.items
        ≡ map use_of out.old.items ++ flat_map action_uses (map action_of actions.now.items)) }
{
    for item in actions {
        out.push(Use::Role(&item.from))?;
        out.push(Use::Role(&item.to))?;
        put_tree_uses(out, &item.message)?;
    }
    Ok(())
}

/// Appends the uses in a term, from left to right.
#[cycle(uses)]
fn put_tree_uses<'a>(out: &mut Vec<Use<'a>>, tree: &'a Tree) -> Result<(), NoMemory>
    ensures { OnOk result (map use_of out.new.items
        ≡ map use_of out.old.items ++ tree_uses (tree_of tree.now)) }
{
    match tree {
        Tree::Name(name) => out.push(Use::Atom(name))?,
        Tree::Apply(name, arguments) => {
            out.push(Use::Format(name, arguments.as_slice().len()))?;
            put_trees_uses(out, arguments)?;
        }
        Tree::Hash(body) => put_tree_uses(out, body)?,
        Tree::Mac(key, body) => {
            put_tree_uses(out, key)?;
            put_tree_uses(out, body)?;
        }
        Tree::Seal(key, body) => {
            put_tree_uses(out, key)?;
            put_tree_uses(out, body)?;
        }
        Tree::Wrap(key, context, body) => {
            put_tree_uses(out, key)?;
            put_tree_uses(out, context)?;
            put_tree_uses(out, body)?;
        }
    }
    Ok(())
}

/// Appends those in each of these terms.
#[cycle(uses)]
fn put_trees_uses<'a>(out: &mut Vec<Use<'a>>, trees: &'a Vec<Tree>) -> Result<(), NoMemory>
    ensures { OnOk result (map use_of out.new.items
        ≡ map use_of out.old.items ++ trees_uses (trees_of (map tree_of trees.now.items))) }
{
    for tree in trees {
        put_tree_uses(out, tree)?;
    }
    Ok(())
}

/// The atoms of a narration, in memory of their own.
pub(crate) fn atoms_of(alloc: Global, types: &Vec<TypeItem>) -> Result<Vec<Atom>, NoMemory>
    ensures { IfOk result (λ v. v.items ≡ flat_map item_atoms (map type_of types.now.items)) }
{
    let mut all = Vec::new(alloc);
    for item in types {
        put_item_atoms(alloc, &mut all, item)?;
    }
    Ok(all)
}

/// Appends the names of a type item, each with its sort.
fn put_item_atoms(alloc: Global, out: &mut Vec<Atom>, item: &TypeItem) -> Result<(), NoMemory>
    ensures { OnOk result (out.new.items ≡ out.old.items ++ item_atoms (type_of item.now)) }
{
    for name in &item.names {
        let atom = Atom {
            name: name.copy(alloc)?,
            sort: item.sort,
        };
        out.push(atom)?;
    }
    Ok(())
}

/// The declared names, in text order.
pub(crate) fn declared_names<'a>(alloc: Global, n: &'a Narration) -> Result<Vec<&'a Text>, NoMemory>
    ensures { IfOk result (λ v. pointed v.items ≡ declared_names (narration_of n.now)) }
{
    let mut names = Vec::new(alloc);
    put_type_names(&mut names, &n.types)?;
    put_format_names(&mut names, &n.formats)?;
    Ok(names)
}

fn put_type_names<'a>(out: &mut Vec<&'a Text>, types: &'a Vec<TypeItem>) -> Result<(), NoMemory>
    ensures { OnOk result (pointed out.new.items
        ≡ pointed out.old.items ++ flat_map (λ (i : Types). i.names)
        (map type_of types.now.items)) }
{
    for item in types {
        put_names(out, &item.names)?;
    }
    Ok(())
}

fn put_names<'a>(out: &mut Vec<&'a Text>, names: &'a Vec<Text>) -> Result<(), NoMemory>
    ensures { OnOk result (pointed out.new.items ≡ pointed out.old.items ++ names.now.items) }
{
    for name in names {
        out.push(name)?;
    }
    Ok(())
}

fn put_format_names<'a>(
    out: &mut Vec<&'a Text>,
    formats: &'a Vec<FormatItem>,
) -> Result<(), NoMemory>
    ensures { OnOk result (pointed out.new.items
        ≡ pointed out.old.items ++ map (λ (f : Format). f.title)
        (map format_of formats.now.items)) }
{
    for format in formats {
        out.push(&format.name)?;
    }
    Ok(())
}

/// The names that head lines of knowledge.
pub(crate) fn line_names<'a>(alloc: Global, n: &'a Narration) -> Result<Vec<&'a Text>, NoMemory>
    ensures { IfOk result (λ v. pointed v.items ≡ line_names (narration_of n.now)) }
{
    let mut names = Vec::new(alloc);
    for item in &n.knows {
        names.push(&item.role)?;
    }
    Ok(names)
}

/// The names of the roles.
pub(crate) fn role_names<'a>(alloc: Global, n: &'a Narration) -> Result<Vec<&'a Text>, NoMemory>
    ensures { IfOk result (λ v. pointed v.items ≡ roles (narration_of n.now)) }
{
    let mut names = line_names(alloc, n)?;
    put_ends(&mut names, &n.actions)?;
    distinct(alloc, &names)
}

/// Appends the names at the two ends of each action.
fn put_ends<'a>(out: &mut Vec<&'a Text>, actions: &'a Vec<ActionItem>) -> Result<(), NoMemory>
    ensures { OnOk result (pointed out.new.items
        ≡ pointed out.old.items ++ flat_map action_roles (map action_of actions.now.items)) }
{
    for item in actions {
        out.push(&item.from)?;
        out.push(&item.to)?;
    }
    Ok(())
}

/// Each name once, where it stands first.
fn distinct<'a>(alloc: Global, names: &[&'a Text]) -> Result<Vec<&'a Text>, NoMemory>
    ensures { IfOk result (λ v. pointed v.items ≡ distinct bytes_eq (pointed names.now)) }
{
    let mut seen = TextIndex::new(alloc);
    let mut all = Vec::new(alloc);
    for name in names {
        put_new(&mut seen, &mut all, name)?;
    }
    Ok(all)
}

/// Appends a name to those that were seen, and to the others where it is new.
fn put_new<'a>(
    seen: &mut TextIndex<'a>,
    all: &mut Vec<&'a Text>,
    name: &'a Text,
) -> Result<(), NoMemory>
    ensures seen { OnOk result (seen.new ≡ seen.old ++ name.now ∷ []) }
    ensures new { OnOk result (pointed all.new.items
        ≡ pointed all.old.items ++ first_new bytes_eq seen.old name.now) }
{
    if seen.push(name.as_str())? {
        return Ok(());
    }
    all.push(name)?;
    Ok(())
}

/// The terms of a narration: what is known, and the messages.
pub(crate) fn terms_of<'a>(alloc: Global, n: &'a Narration) -> Result<Vec<&'a Tree>, NoMemory>
    ensures { IfOk result (λ v. map tree_of (pointed v.items) ≡ terms (narration_of n.now)) }
{
    let mut all = Vec::new(alloc);
    put_known_trees(&mut all, &n.knows)?;
    put_messages(&mut all, &n.actions)?;
    Ok(all)
}

fn put_known_trees<'a>(out: &mut Vec<&'a Tree>, knows: &'a Vec<KnowItem>) -> Result<(), NoMemory>
    ensures { OnOk result (map tree_of (pointed out.new.items)
        ≡ map tree_of (pointed out.old.items) ++ flat_map (λ (k : Know). list_of k.terms)
        (map know_of knows.now.items)) }
{
    for item in knows {
        put_trees(out, &item.terms)?;
    }
    Ok(())
}

fn put_trees<'a>(out: &mut Vec<&'a Tree>, trees: &'a Vec<Tree>) -> Result<(), NoMemory>
    ensures { OnOk result (map tree_of (pointed out.new.items)
        ≡ map tree_of (pointed out.old.items) ++ list_of (trees_of (map tree_of trees.now.items))) }
{
    for tree in trees {
        out.push(tree)?;
    }
    Ok(())
}

fn put_messages<'a>(out: &mut Vec<&'a Tree>, actions: &'a Vec<ActionItem>) -> Result<(), NoMemory>
    ensures { OnOk result (map tree_of (pointed out.new.items)
        ≡ map tree_of (pointed out.old.items) ++ map (λ (a : Action). a.message)
        (map action_of actions.now.items)) }
{
    for item in actions {
        out.push(&item.message)?;
    }
    Ok(())
}
