//! Terms in postfix notation, so that a test names a term by a short text.
use anb_base::NoMemory;
use anb_term::{Op, Term, Terms};
use std::alloc::Global;

/// The operator that a letter stands for: `h` a hash, `s` a seal (key, body), `w` a wrap (key, context,
/// body), and three formats, `p` of two fields, `r` of one and `k` of none.
fn operator(letter: u8) -> Option<Op> {
    match letter {
        b'h' => Some(Op::Hash),
        b's' => Some(Op::Seal),
        b'w' => Some(Op::Wrap),
        b'p' => Some(Op::Format { index: 0, arity: 2 }),
        b'r' => Some(Op::Format { index: 2, arity: 1 }),
        b'k' => Some(Op::Format { index: 1, arity: 0 }),
        _ => None,
    }
}

/// The term that a sign makes: an operator of the last of these terms, which it takes, and anything
/// else the atom of its number.
fn term_by(alloc: Global, terms: &mut Vec<Term>, sign: u8) -> Result<Term, NoMemory> {
    match operator(sign) {
        None => Ok(Term::Atom(u32::from(sign.saturating_sub(b'0')))),
        Some(op) => {
            let rest = terms.len().saturating_sub(op.arity() as usize);
            let operands = terms.split_off(rest)?;
            Ok(Term::Node(op, Terms::new(operands)))
        }
    }
}

/// The terms of a text, a sign a byte: `01ph` is the hash of a pair of the atoms 0 and 1.
pub(crate) fn terms_of(alloc: Global, text: &str) -> Result<Vec<Term>, NoMemory> {
    let mut terms = Vec::new(alloc);
    for sign in text.as_bytes() {
        let term = term_by(alloc, &mut terms, *sign)?;
        terms.push(term)?;
    }
    Ok(terms)
}

/// The last term of a text.
pub(crate) fn term_of(alloc: Global, text: &str) -> Result<Term, NoMemory> {
    let mut terms = terms_of(alloc, text)?;
    match terms.pop() {
        Some(term) => Ok(term),
        None => Err(NoMemory),
    }
}
