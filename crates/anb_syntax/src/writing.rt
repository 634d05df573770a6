//! The canonical text of a narration.
ghost use Rattle.std.specs.Prelude.{◌≡◌, ◌++◌, ◌∷◌, [], map, OnOk, IfOk, if◌then◌else◌};
ghost use Rattle.std.specs.List.{flat_map};
ghost use Rattle.anb_syntax.specs.Words.{close_sign};
ghost use Rattle.anb_syntax.specs.Grammar.{trees_of, spell_tree, spell_trees, piece_word};
ghost use Rattle.anb_syntax.specs.Canon.{word_bytes, words_bytes, all_bytes, canon, spaced_first, lay_names, lay_type, lay_piece, lay_format, lay_know, lay_terms, lay_action, lay_suite, lay_formats, lay_knows};
ghost use Rattle.anb_syntax.specs.Views.{tree_of, type_of, format_of, know_of, action_of, narration_of};

use crate::narration::{ActionItem, FormatItem, KnowItem, Narration, Sort, Tree, TypeItem};
use anb_base::{Bytes, NoMemory, Suite, Text};
use anb_format::{FieldKind, Piece, literal_text};
use std::alloc::Global;

/// The canonical text of a narration: one line for each item, and the sections that have any. Its
/// end is LF.
pub fn text_of(alloc: Global, n: &Narration) -> Result<Bytes, NoMemory>
    ensures { IfOk result (λ text. text ≡ canon (narration_of n.now)) }
{
    let mut out = Vec::new(alloc);
    out.extend_from_slice(b"Protocol: ")?;
    put_name(&mut out, &n.name)?;
    out.extend_from_slice(b";")?;
    put_suite(&mut out, n.suite)?;
    out.extend_from_slice(b"\nTypes:")?;
    put_types(&mut out, &n.types)?;
    put_formats(alloc, &mut out, &n.formats)?;
    put_knows(&mut out, &n.knows)?;
    out.extend_from_slice(b"\nActions:")?;
    put_actions(&mut out, &n.actions)?;
    out.extend_from_slice(b"\n")?;
    Ok(Bytes::new(out))
}

fn put_name(out: &mut Vec<u8>, name: &Text) -> Result<(), NoMemory>
    ensures { OnOk result (out.new.items ≡ out.old.items ++ name.now) }
{
    out.extend_from_slice(name.as_str().as_bytes())?;
    Ok(())
}

/// Appends the line of the suite, which suite One has none of.
fn put_suite(out: &mut Vec<u8>, suite: Suite) -> Result<(), NoMemory>
    ensures { OnOk result (out.new.items ≡ out.old.items ++ all_bytes (lay_suite suite)) }
{
    match suite {
        Suite::One => {}
        Suite::Two => out.extend_from_slice(b"\nSuite: sha512;")?,
    }
    Ok(())
}

fn put_types(out: &mut Vec<u8>, types: &Vec<TypeItem>) -> Result<(), NoMemory>
    ensures { OnOk result (out.new.items
        ≡ out.old.items ++ all_bytes (flat_map lay_type (map type_of types.now.items))) }
{
    for item in types {
        put_type(out, item)?;
    }
    Ok(())
}

fn put_type(out: &mut Vec<u8>, item: &TypeItem) -> Result<(), NoMemory>
    ensures { OnOk result (out.new.items
        ≡ out.old.items ++ all_bytes (lay_type (type_of item.now))) }
{
    match item.sort {
        Sort::Agent => out.extend_from_slice(b"\n  Agent")?,
        Sort::Number => out.extend_from_slice(b"\n  Number")?,
        Sort::Key => out.extend_from_slice(b"\n  Key")?,
    }
    put_names(out, &item.names)?;
    out.extend_from_slice(b";")?;
    Ok(())
}

/// Appends names behind spaces, with a comma before each but the first.
fn put_names(out: &mut Vec<u8>, names: &Vec<Text>) -> Result<(), NoMemory>
    ensures { OnOk result (out.new.items ≡ out.old.items ++ all_bytes (lay_names names.now.items)) }
{
    let mut first = true;
    for name in names {
        out.extend_from_slice(if first { b" " } else { b", " })?;
        put_name(out, name)?;
        first = false;
    }
    Ok(())
}

/// Appends the section of formats, where there are any.
fn put_formats(alloc: Global, out: &mut Vec<u8>, formats: &Vec<FormatItem>) -> Result<(), NoMemory>
    ensures { OnOk result (out.new.items
        ≡ out.old.items ++ all_bytes (lay_formats (map format_of formats.now.items))) }
{
    if formats.is_empty() {
        return Ok(());
    }
    out.extend_from_slice(b"\nFormats:")?;
    for item in formats {
        put_format(alloc, out, item)?;
    }
    Ok(())
}

fn put_format(alloc: Global, out: &mut Vec<u8>, item: &FormatItem) -> Result<(), NoMemory>
    ensures { OnOk result (out.new.items
        ≡ out.old.items ++ all_bytes (lay_format (format_of item.now))) }
{
    out.extend_from_slice(b"\n  ")?;
    put_name(out, &item.name)?;
    out.extend_from_slice(b" =")?;
    put_pieces(alloc, out, &item.pieces)?;
    out.extend_from_slice(b";")?;
    Ok(())
}

fn put_pieces(alloc: Global, out: &mut Vec<u8>, pieces: &Vec<Piece>) -> Result<(), NoMemory>
    ensures { OnOk result (out.new.items
        ≡ out.old.items ++ all_bytes (map lay_piece pieces.now.items)) }
{
    for piece in pieces {
        put_piece(alloc, out, piece)?;
    }
    Ok(())
}

/// Appends a piece of a format, behind a space: its canonical literal, or the word of its kind.
pub fn put_piece(alloc: Global, out: &mut Vec<u8>, piece: &Piece) -> Result<(), NoMemory>
    ensures { OnOk result (out.new.items
        ≡ out.old.items ++ 32 ∷ word_bytes (piece_word piece.now)) }
{
    out.extend_from_slice(b" ")?;
    match piece {
        Piece::Lit(bytes) => {
            let text = literal_text(alloc, bytes.as_slice())?;
            out.extend_from_slice(text.as_slice())?;
        }
        Piece::Field(FieldKind::Len) => out.extend_from_slice(b"len")?,
        Piece::Field(FieldKind::Net) => out.extend_from_slice(b"net")?,
        Piece::Field(FieldKind::Hex) => out.extend_from_slice(b"hex")?,
        Piece::Field(FieldKind::Rest) => out.extend_from_slice(b"rest")?,
    }
    Ok(())
}

/// Appends the section of knowledge, where there is any.
fn put_knows(out: &mut Vec<u8>, knows: &Vec<KnowItem>) -> Result<(), NoMemory>
    ensures { OnOk result (out.new.items
        ≡ out.old.items ++ all_bytes (lay_knows (map know_of knows.now.items))) }
{
    if knows.is_empty() {
        return Ok(());
    }
    out.extend_from_slice(b"\nKnowledge:")?;
    for item in knows {
        put_know(out, item)?;
    }
    Ok(())
}

fn put_know(out: &mut Vec<u8>, item: &KnowItem) -> Result<(), NoMemory>
    ensures { OnOk result (out.new.items
        ≡ out.old.items ++ all_bytes (lay_know (know_of item.now))) }
{
    out.extend_from_slice(b"\n  ")?;
    put_name(out, &item.role)?;
    out.extend_from_slice(b":")?;
    put_known(out, &item.terms)?;
    Ok(())
}

/// Appends terms behind spaces, with a comma before each but the first, and a semicolon.
fn put_known(out: &mut Vec<u8>, terms: &Vec<Tree>) -> Result<(), NoMemory>
    ensures { OnOk result (out.new.items
        ≡ out.old.items ++ all_bytes (lay_terms (trees_of (map tree_of terms.now.items)))) }
{
    let mut first = true;
    for term in terms {
        if !first {
            out.extend_from_slice(b",")?;
        }
        put_spaced(out, term)?;
        first = false;
    }
    out.extend_from_slice(b";")?;
    Ok(())
}

fn put_actions(out: &mut Vec<u8>, actions: &Vec<ActionItem>) -> Result<(), NoMemory>
    ensures { OnOk result (out.new.items
        ≡ out.old.items ++ all_bytes (flat_map lay_action (map action_of actions.now.items))) }
{
    for action in actions {
        put_action(out, action)?;
    }
    Ok(())
}

fn put_action(out: &mut Vec<u8>, action: &ActionItem) -> Result<(), NoMemory>
    ensures { OnOk result (out.new.items
        ≡ out.old.items ++ all_bytes (lay_action (action_of action.now))) }
{
    out.extend_from_slice(b"\n  ")?;
    put_name(out, &action.from)?;
    out.extend_from_slice(b" -> ")?;
    put_name(out, &action.to)?;
    out.extend_from_slice(b":")?;
    put_spaced(out, &action.message)?;
    out.extend_from_slice(b";")?;
    Ok(())
}

/// Appends a term behind a space.
fn put_spaced(out: &mut Vec<u8>, tree: &Tree) -> Result<(), NoMemory>
    ensures { OnOk result (out.new.items
        ≡ out.old.items ++ all_bytes (spaced_first (spell_tree (tree_of tree.now)))) }
{
    out.extend_from_slice(b" ")?;
    put_tree(out, tree)?;
    Ok(())
}

/// Appends the canonical text of a term.
#[cycle(put)]
fn put_tree(out: &mut Vec<u8>, tree: &Tree) -> Result<(), NoMemory>
    ensures { OnOk result (out.new.items
        ≡ out.old.items ++ words_bytes (spell_tree (tree_of tree.now))) }
{
    match tree {
        Tree::Name(name) => put_name(out, name)?,
        Tree::Apply(name, arguments) => {
            put_name(out, name)?;
            out.extend_from_slice(b"(")?;
            put_arguments(out, arguments)?;
        }
        Tree::Hash(of) => {
            out.extend_from_slice(b"h(")?;
            put_tree(out, of)?;
            out.extend_from_slice(b")")?;
        }
        Tree::Mac(key, of) => {
            out.extend_from_slice(b"mac(")?;
            put_tree(out, key)?;
            put_further(out, of)?;
            out.extend_from_slice(b")")?;
        }
        Tree::Seal(key, of) => {
            out.extend_from_slice(b"scrypt(")?;
            put_tree(out, key)?;
            put_further(out, of)?;
            out.extend_from_slice(b")")?;
        }
        Tree::Wrap(key, context, of) => {
            out.extend_from_slice(b"wrap(")?;
            put_tree(out, key)?;
            put_further(out, context)?;
            put_further(out, of)?;
            out.extend_from_slice(b")")?;
        }
    }
    Ok(())
}

/// Appends a comma and the canonical text of a term.
#[cycle(put)]
fn put_further(out: &mut Vec<u8>, tree: &Tree) -> Result<(), NoMemory>
    ensures { OnOk result (out.new.items
        ≡ out.old.items ++ 44 ∷ words_bytes (spell_tree (tree_of tree.now))) }
{
    out.extend_from_slice(b",")?;
    put_tree(out, tree)?;
    Ok(())
}

/// Appends arguments with commas between them, and the sign that closes them.
#[cycle(put)]
fn put_arguments(out: &mut Vec<u8>, arguments: &Vec<Tree>) -> Result<(), NoMemory>
    ensures { OnOk result (out.new.items
        ≡ out.old.items ++ words_bytes
        (spell_trees close_sign (trees_of (map tree_of arguments.now.items)))) }
{
    let mut first = true;
    for argument in arguments {
        if first {
            put_tree(out, argument)?;
        } else {
            put_further(out, argument)?;
        }
        first = false;
    }
    out.extend_from_slice(b")")?;
    Ok(())
}
