//! The openings of a code behind its first arrival.
ghost use Rattle.std.specs.Prelude.{◌≡◌, ◌≤◌, ◌-◌, ℕ, List, map, drop, slice_get, count_by, Some, IfOk, All};
ghost use Rattle.std.specs.List.{AllByRecursion};
ghost use Rattle.anb_format.specs.Formats.{FormatValue, field_count, pieces_at};
ghost use Rattle.anb_term.specs.declared.term.Op.{Op};
ghost use Rattle.anb_term.specs.declared.term.Op.TheVariants as op;
ghost use Rattle.anb_term.specs.Tree.{Tree, node, trees_of};
ghost use Rattle.anb_term.specs.View.{tree_of};
ghost use Rattle.anb_plays.specs.Codes.{works, undo};
ghost use Rattle.anb_code.specs.Meaning.{act_of, acts_of};
ghost use Rattle.anb_code.specs.Verified.{HasItsFormat};
ghost use Rattle.anb_openings.specs.Openings.{is_arrival, is_exchange, is_opening, openings_of, parsed_format, parsed_at, HasOpening, IsOpening};

use anb_base::NoMemory;
use anb_code::{Instr, RoleCode};
use anb_format::Format;
use anb_term::{Op, Term};
use std::alloc::Global;

/// The instructions of a code that parse, unseal or unwrap behind its first arrival, by their numbers, in
/// order. One pass.
pub fn openings(alloc: Global, code: &RoleCode) -> Result<Vec<u32>, NoMemory>
    ensures are { IfOk result (λ openings. openings.items ≡ openings_of (acts_of code.now)) }
    ensures each { IfOk result (λ openings. All (HasOpening code.now) openings.items) }
{
    let mut openings = Vec::new(alloc);
    let mut came = false;
    for (i, instr) in code.instrs().iter().enumerate() {
        if came && is_opening(instr) {
            openings.push(i as u32 + 1)?;
        }
        came = came || is_arrival(instr);
    }
    Ok(openings)
}

fn is_opening(instr: &Instr) -> bool
    ensures { (formats : List FormatValue) → result ≡ is_opening (act_of formats instr.now) }
{
    matches!(
        instr,
        Instr::Parse(..) | Instr::Unseal(..) | Instr::Unwrap(..)
    )
}

fn is_arrival(instr: &Instr) -> bool
    ensures { (formats : List FormatValue) → result ≡ is_arrival (act_of formats instr.now) }
{
    matches!(instr, Instr::Recv)
}

/// The place of the format that an opening parses, where it is one of a format.
pub fn opened_format(code: &RoleCode, instruction: u32) -> Option<u16>
    requires { HasOpening code.now instruction }
    ensures { result ≡ parsed_at code.now instruction }
{
    format_of(&code.instrs()[instruction as usize - 1])
}

/// The place of the format that an instruction parses.
fn format_of(instr: &Instr) -> Option<u16>
    ensures { result ≡ parsed_format instr.now }
{
    match instr {
        Instr::Parse(format, _of) => Some(*format),
        Instr::Take(_) | Instr::Fresh | Instr::Recv | Instr::Send(_) => None,
        Instr::Hash(_) | Instr::Mac(..) | Instr::Seal(..) | Instr::Wrap(..) => None,
        Instr::Unseal(..) | Instr::Unwrap(..) | Instr::Build(..) | Instr::Equal(..) => None,
    }
}

/// The operator that an opening undoes, and the register that it undoes.
pub(crate) fn opening_at(code: &RoleCode, instruction: u32) -> (Op, u32)
    requires { HasOpening code.now instruction }
    ensures { (o : Op) (ks : List ℕ) (r : ℕ) → IsOpening (acts_of code.now) instruction o ks r
        → (result.0 ≡ o) × (result.1 ≡ r) }
{
    let formats = code.formats();
    undone_by(formats, &code.instrs()[instruction as usize - 1])
}

/// The operator and the register that an instruction undoes, if it does.
fn undone_by(formats: &[Format], instr: &Instr) -> (Op, u32)
    requires fields { AllByRecursion (λ format. field_count format.pieces ≤ 32) formats.now }
    requires format { HasItsFormat formats.now instr.now }
    ensures { (o : Op) (ks : List ℕ) (r : ℕ) → act_of formats.now instr.now ≡ works (undo o ks r)
        → (result.0 ≡ o) × (result.1 ≡ r) }
{
    match instr {
        Instr::Unseal(_key, of) => (Op::Seal, *of),
        Instr::Unwrap(_key, _context, of) => (Op::Wrap, *of),
        Instr::Parse(f, of) => (format_op(formats, *f), *of),
        Instr::Take(_) | Instr::Fresh | Instr::Recv | Instr::Send(_) => (Op::Hash, 0),
        Instr::Hash(_) | Instr::Mac(..) | Instr::Seal(..) | Instr::Wrap(..) => (Op::Hash, 0),
        Instr::Build(..) | Instr::Equal(..) => (Op::Hash, 0),
    }
}

/// The operator of the format at a place.
fn format_op(formats: &[Format], f: u16) -> Op
    requires fields { AllByRecursion (λ format. field_count format.pieces ≤ 32) formats.now }
    requires there { (format : FormatValue) × (slice_get formats.now f ≡ Some format) }
    ensures { result ≡ op.Format f (field_count (pieces_at formats.now f)) }
{
    Op::Format {
        index: f,
        arity: formats[f as usize].arity(),
    }
}

/// The operands of a term behind the first ones, which are keys.
pub(crate) fn operands_behind(alloc: Global, keys: u16, term: &Term) -> Result<Vec<Term>, NoMemory>
    ensures { IfOk result (λ parts. (o : Op) (ts : List Tree) → tree_of term.now ≡ node o (trees_of ts)
        → map tree_of parts.items ≡ drop keys ts) }
{
    match term {
        Term::Atom(_) => Ok(Vec::new(alloc)),
        Term::Node(_op, operands) => operands.copy_from(alloc, keys as usize),
    }
}

/// How many sends and receives stand among instructions.
pub(crate) fn count_exchanges(instrs: &[Instr]) -> usize
    ensures { result ≡ count_by is_exchange instrs.now }
{
    instrs
        .iter()
        .filter(|instr| matches!(instr, Instr::Recv | Instr::Send(_)))
        .count()
}
