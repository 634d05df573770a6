//! The roles and the terms of a narration.
ghost use Rattle.std.specs.Prelude.{◌≡◌, ◌++◌, ◌∷◌, [], map, OnOk, IfOk};
ghost use Rattle.std.specs.List.{flat_map};
ghost use Rattle.std.specs.Str.{bytes_eq};
ghost use Rattle.anb_syntax.specs.Grammar.{trees_of, list_of, KnowItem as Know, ActionItem as Action};
ghost use Rattle.anb_syntax.specs.Views.{tree_of, know_of, action_of, narration_of};
ghost use Rattle.anb_protocol.specs.Names.{action_roles, distinct, first_new, line_names, roles, terms};
ghost use Rattle.anb_protocol.specs.Views.{pointed};

use anb_base::{NoMemory, Text};
use anb_index::TextIndex;
use anb_syntax::{ActionItem, KnowItem, Narration, Tree};
use std::alloc::Global;

/// The names of the roles.
pub(crate) fn role_names<'a>(alloc: Global, n: &'a Narration) -> Result<Vec<&'a Text>, NoMemory>
    ensures { IfOk result (λ v. pointed v.items ≡ roles (narration_of n.now)) }
{
    let mut names = line_names(alloc, n)?;
    put_ends(&mut names, &n.actions)?;
    distinct(alloc, &names)
}

/// The names that head lines of knowledge.
fn line_names<'a>(alloc: Global, n: &'a Narration) -> Result<Vec<&'a Text>, NoMemory>
    ensures { IfOk result (λ v. pointed v.items ≡ line_names (narration_of n.now)) }
{
    let mut names = Vec::new(alloc);
    for item in &n.knows {
        names.push(&item.role)?;
    }
    Ok(names)
}

/// Appends the names at the two ends of each action.
fn put_ends<'a>(out: &mut Vec<&'a Text>, actions: &'a Vec<ActionItem>) -> Result<(), NoMemory>
    ensures { OnOk result (pointed out.new.items
        ≡ pointed out.old.items ++ flat_map action_roles (map action_of actions.now.items)) }
{
    for item in actions {
        out.push(&item.from)?;
        out.push(&item.to)?;
    }
    Ok(())
}

/// Each name once, where it stands first.
fn distinct<'a>(alloc: Global, names: &[&'a Text]) -> Result<Vec<&'a Text>, NoMemory>
    ensures { IfOk result (λ v. pointed v.items ≡ distinct bytes_eq (pointed names.now)) }
{
    let mut seen = TextIndex::new(alloc);
    let mut all = Vec::new(alloc);
    for name in names {
        put_new(&mut seen, &mut all, name)?;
    }
    Ok(all)
}

/// Appends a name to those that were seen, and to the others where it is new.
fn put_new<'a>(
    seen: &mut TextIndex<'a>,
    all: &mut Vec<&'a Text>,
    name: &'a Text,
) -> Result<(), NoMemory>
    ensures seen { OnOk result (seen.new ≡ seen.old ++ name.now ∷ []) }
    ensures new { OnOk result (pointed all.new.items
        ≡ pointed all.old.items ++ first_new bytes_eq seen.old name.now) }
{
    if seen.push(name.as_str())? {
        return Ok(());
    }
    all.push(name)?;
    Ok(())
}

/// The terms of a narration: what is known, and the messages.
pub(crate) fn terms_of<'a>(alloc: Global, n: &'a Narration) -> Result<Vec<&'a Tree>, NoMemory>
    ensures { IfOk result (λ v. map tree_of (pointed v.items) ≡ terms (narration_of n.now)) }
{
    let mut all = Vec::new(alloc);
    put_known_trees(&mut all, &n.knows)?;
    put_messages(&mut all, &n.actions)?;
    Ok(all)
}

fn put_known_trees<'a>(out: &mut Vec<&'a Tree>, knows: &'a Vec<KnowItem>) -> Result<(), NoMemory>
    ensures { OnOk result (map tree_of (pointed out.new.items)
        ≡ map tree_of (pointed out.old.items) ++ flat_map (λ (k : Know). list_of k.terms)
        (map know_of knows.now.items)) }
{
    for item in knows {
        put_trees(out, &item.terms)?;
    }
    Ok(())
}

fn put_trees<'a>(out: &mut Vec<&'a Tree>, trees: &'a Vec<Tree>) -> Result<(), NoMemory>
    ensures { OnOk result (map tree_of (pointed out.new.items)
        ≡ map tree_of (pointed out.old.items) ++ list_of (trees_of (map tree_of trees.now.items))) }
{
    for tree in trees {
        out.push(tree)?;
    }
    Ok(())
}

fn put_messages<'a>(out: &mut Vec<&'a Tree>, actions: &'a Vec<ActionItem>) -> Result<(), NoMemory>
    ensures { OnOk result (map tree_of (pointed out.new.items)
        ≡ map tree_of (pointed out.old.items) ++ map (λ (a : Action). a.message)
        (map action_of actions.now.items)) }
{
    for item in actions {
        out.push(&item.message)?;
    }
    Ok(())
}
