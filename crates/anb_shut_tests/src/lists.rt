//! Lists that are shut, and lists that are not.
use anb_base::NoMemory;
use anb_reason::shut;
use anb_term::{Op, Term, Terms};
use std::alloc::Global;

/// The first atom, sealed under itself.
fn key_under_itself(alloc: Global) -> Result<Term, NoMemory> {
    let operands = vec![in alloc; Term::Atom(0), Term::Atom(0)]?;
    Ok(Term::Node(Op::Seal, Terms::new(operands)))
}

#[test]
fn a_key_under_itself_is_shut(rt: HostRuntime) -> Result<(), NoMemory> {
    let alloc = rt.alloc();
    let frame = vec![in alloc; key_under_itself(alloc)?]?;
    assert!(rt; shut(alloc, &frame, &frame, &Term::Atom(0))?);
    assert!(rt; !shut(alloc, &frame, &frame, &key_under_itself(alloc)?)?);
    let list = vec![in alloc; key_under_itself(alloc)?, Term::Atom(0)]?;
    assert!(rt; !shut(alloc, &frame, &list, &Term::Atom(0))?);
    assert!(rt; !shut(alloc, &list, &frame, &Term::Atom(1))?);
    Ok(())
}
