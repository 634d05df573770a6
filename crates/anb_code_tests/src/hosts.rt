//! Hosts over wires in memory.
use crate::starting::code;
use anb_base::{Bytes, MemWire, NoMemory};
use anb_code::RoleCode;
use anb_host::{Host, HostEnd, serve};
use std::alloc::Global;
use std::process::Abort;
use std::test::Fail;

/// A host of a code without takes, under a seed of zeros.
fn host<'c>(rt: &impl Abort, alloc: Global, code: &'c RoleCode) -> Result<Host<'c>, NoMemory> {
    assert!(rt; code.takes() == 0);
    Host::new(alloc, code, Vec::new(alloc), [0; 32])
}

/// A wire over three starts.
fn starts(alloc: Global) -> Result<MemWire, NoMemory> {
    let input = Vec::from_slice(alloc, b"\0\0\0\0\x01\0\0\0\0\0\0\0\0\0\x02")?;
    MemWire::new(alloc, Bytes::new(input), 3, 200, Vec::new(alloc))
}

/// How the host ends over the wire. The caller is told nothing of it, so that no later proof reads
/// what is known.
fn served(alloc: Global, host: &mut Host<'_>, wire: &mut MemWire, budget: u32) -> HostEnd {
    serve(alloc, host, wire, budget)
}

/// How an end and a wire are told.
fn told(alloc: Global, end: HostEnd, wire: &MemWire) -> Result<String, NoMemory> {
    Ok(format!(in alloc; "{end:?} {:?}", wire.taken_at())?)
}

/// What comes of a host over the starts, within this budget.
fn spent(alloc: Global, host: &mut Host<'_>, budget: u32) -> Result<String, NoMemory> {
    let mut wire = starts(alloc)?;
    let end = served(alloc, host, &mut wire, budget);
    told(alloc, end, &wire)
}

// Three starts, of which each is answered by a message of 32 bytes and the end: 46 bytes. Of the wire
// each byte that is taken tells how much was written before.
#[test]
fn a_budget_is_spent(rt: HostRuntime) -> Result<(), Fail> {
    let alloc = rt.alloc();
    let code = code(&rt, alloc, "code\nr0 = fresh\nsend r0\n")?;
    let mut host = host(&rt, alloc, &code)?;
    assert_eq!(rt;
        spent(alloc, &mut host, 2)?.as_str(),
        "Spent(2) [0, 0, 0, 0, 0, 46, 46, 46, 46, 46]"
    );
    Ok(())
}
