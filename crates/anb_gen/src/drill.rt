//! The narration of a drill.
ghost use Rattle.std.specs.Prelude.{◌≡◌, ◌+◌, ◌%◌, ◌<◌, ◌≤◌, ◌==◌, length, map, IfOk};
ghost use Rattle.std.specs.List.{range_with_len};
ghost use Rattle.anb_base.specs.declared.TheConstants.{SMALL_FILE};
ghost use Rattle.anb_syntax.specs.Canon.{canon};
ghost use Rattle.anb_syntax.specs.Grammar.{atom, seal, IsSpellable};
ghost use Rattle.anb_syntax.specs.Sizes.{size};
ghost use Rattle.anb_syntax.specs.Views.{tree_of, type_of, format_of, know_of, action_of, narration_of};
ghost use Rattle.anb_gen.specs.Drill.{number_name, drill_types, pair_format, drill_know, opening, exchange, closing, drill_actions, drill_narration};

use anb_base::{Bytes, NoMemory, Suite, Text};
use anb_format::{FieldKind, Piece};
use anb_syntax::{ActionItem, FormatItem, KnowItem, Narration, Sort, Tree, TypeItem};
use std::alloc::Global;

/// The narration of a drill of `n` exchanges.
pub fn generate(alloc: Global, n: u32) -> Result<Narration, NoMemory>
    requires least { 1 ≤ n }
    requires most { n ≤ 200 }
    ensures drill { IfOk result (λ narration. narration_of narration ≡ drill_narration n) }
    // It can be spelled and is small, which calls on narrations ask for.
    ensures spellable { IfOk result (λ narration. IsSpellable (narration_of narration)) }
    ensures size { IfOk result (λ narration. size (narration_of narration) ≤ 4096) }
    // Its canonical text is short enough to be read.
    ensures short { IfOk result (λ narration.
        length (canon (narration_of narration)) < SMALL_FILE) }
{
    Ok(Narration {
        name: text(alloc, "Drill")?,
        suite: Suite::One,
        types: types(alloc, n)?,
        formats: vec![in alloc; pair_format(alloc)?]?,
        knows: vec![in alloc; knowledge(alloc, "A")?, knowledge(alloc, "B")?]?,
        actions: actions(alloc, n)?,
    })
}

fn types(alloc: Global, n: u32) -> Result<Vec<TypeItem>, NoMemory>
    ensures { IfOk result (λ types. map type_of types.items ≡ drill_types n) }
{
    let agents = TypeItem {
        sort: Sort::Agent,
        names: vec![in alloc; text(alloc, "A")?, text(alloc, "B")?]?,
    };
    let numbers = TypeItem {
        sort: Sort::Number,
        names: numbers(alloc, n)?,
    };
    let keys = TypeItem {
        sort: Sort::Key,
        names: vec![in alloc; text(alloc, "K")?, text(alloc, "L")?]?,
    };
    Ok(vec![in alloc; agents, numbers, keys]?)
}

/// The names of the numbers from 0 to `n`.
fn numbers(alloc: Global, n: u32) -> Result<Vec<Text>, NoMemory>
    ensures { IfOk result (λ names. names.items ≡ map number_name (range_with_len 0 (n + 1))) }
{
    let mut names = Vec::new(alloc);
    for i in 0..=n {
        names.push(number(alloc, i)?)?;
    }
    Ok(names)
}

fn pair_format(alloc: Global) -> Result<FormatItem, NoMemory>
    ensures { IfOk result (λ format. format_of format ≡ pair_format) }
{
    let head = Bytes::new(b"P".to_vec(alloc)?);
    Ok(FormatItem {
        name: text(alloc, "p")?,
        pieces: vec![in alloc;
            Piece::Lit(head),
            Piece::Field(FieldKind::Len),
            Piece::Field(FieldKind::Len),
        ]?,
    })
}

fn knowledge(alloc: Global, role: &str) -> Result<KnowItem, NoMemory>
    ensures { IfOk result (λ item. know_of item ≡ drill_know role.now) }
{
    Ok(KnowItem {
        role: text(alloc, role)?,
        terms: vec![in alloc; name(alloc, "A")?, name(alloc, "B")?, name(alloc, "K")?]?,
    })
}

fn actions(alloc: Global, n: u32) -> Result<Vec<ActionItem>, NoMemory>
    requires { 1 ≤ n }
    ensures { IfOk result (λ actions. map action_of actions.items ≡ drill_actions n) }
{
    let mut actions = vec![in alloc; opening(alloc)?]?;
    for i in 1..=n {
        actions.push(exchange(alloc, i)?)?;
    }
    actions.push(closing(alloc)?)?;
    Ok(actions)
}

fn opening(alloc: Global) -> Result<ActionItem, NoMemory>
    ensures { IfOk result (λ item. action_of item ≡ opening) }
{
    let first = Tree::Name(number(alloc, 0)?);
    let message = sealed(alloc, "L", first)?;
    action(alloc, "A", "B", message)
}

/// An exchange, which is counted from 1.
fn exchange(alloc: Global, i: u32) -> Result<ActionItem, NoMemory>
    requires { 1 ≤ i }
    ensures { IfOk result (λ item. action_of item ≡ exchange i) }
{
    let before = Tree::Name(number(alloc, i - 1)?);
    let arguments = vec![in alloc;
        Tree::Name(number(alloc, i)?),
        Tree::Hash(Box::new(alloc, before)?),
    ]?;
    let pair = Tree::Apply(text(alloc, "p")?, arguments);
    let message = sealed(alloc, "K", pair)?;
    if is_forth(i) {
        action(alloc, "A", "B", message)
    } else {
        action(alloc, "B", "A", message)
    }
}

/// Whether this exchange goes from `A` to `B`.
pub(crate) fn is_forth(i: u32) -> bool
    ensures { result ≡ (i % 2 == 1) }
{
    i % 2 == 1
}

fn closing(alloc: Global) -> Result<ActionItem, NoMemory>
    ensures { IfOk result (λ item. action_of item ≡ closing) }
{
    let key = name(alloc, "L")?;
    action(alloc, "A", "B", key)
}

fn action(alloc: Global, from: &str, to: &str, message: Tree) -> Result<ActionItem, NoMemory>
    ensures { IfOk result (λ item.
        action_of item ≡ record { from = from.now; to = to.now; message = tree_of message }) }
{
    Ok(ActionItem {
        from: text(alloc, from)?,
        to: text(alloc, to)?,
        message,
    })
}

fn sealed(alloc: Global, key: &str, of: Tree) -> Result<Tree, NoMemory>
    ensures { IfOk result (λ t. tree_of t ≡ seal (atom key.now) (tree_of of)) }
{
    let key = name(alloc, key)?;
    Ok(Tree::Seal(Box::new(alloc, key)?, Box::new(alloc, of)?))
}

fn name(alloc: Global, name: &str) -> Result<Tree, NoMemory>
    ensures { IfOk result (λ t. tree_of t ≡ atom name.now) }
{
    Ok(Tree::Name(text(alloc, name)?))
}

/// The name of a number.
fn number(alloc: Global, i: u32) -> Result<Text, NoMemory>
    ensures { IfOk result (λ name. name ≡ number_name i) }
{
    Ok(Text::new(format!(in alloc; "N{i}")?))
}

fn text(alloc: Global, s: &str) -> Result<Text, NoMemory>
    ensures { IfOk result (λ text. text ≡ s.now) }
{
    Ok(Text::new(String::from_str(alloc, s)?))
}
