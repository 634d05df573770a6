//! Sessions over wires in memory.
use crate::starting::{code, start};
use anb_base::{Bytes, MemWire};
use anb_machine::Machine;
use anb_session::play;
use std::alloc::Global;
use std::test::Fail;

/// What comes of a machine that goes on over an input: how it ends, what is written, and for each
/// byte that is taken how much was written before.
fn goes_on(alloc: Global, machine: &mut Machine, input: &str) -> Result<String, Fail> {
    let input = Bytes::new(Vec::from_slice(alloc, input.as_bytes())?);
    let mut wire = MemWire::new(alloc, input, 3, 200, Vec::new(alloc))?;
    let end = play(alloc, machine, &mut wire);
    Ok(format!(in alloc; "{end:?} {:?} {:?}", wire.written(), wire.taken_at())?)
}

#[test]
fn a_machine_goes_on_over_another_wire_and_reads_no_sooner_than_it_must(
    rt: HostRuntime,
) -> Result<(), Fail> {
    let code = code(
        &rt,
        rt.alloc(),
        "code\nr0 = recv\nsend r0\nr1 = recv\nsend r1\n",
    )?;
    let mut machine = start(&rt, rt.alloc(), &code)?;
    let first = "Truncated { have: 1, need: 4 } [0, 0, 0, 1, 97] [0, 0, 0, 0, 0, 5]";
    let second = "Done [0, 0, 0, 0] [0, 0, 0, 0]";
    for (input, words) in [("\0\0\0\x01a\0", first), ("\0\0\0\0\0", second)] {
        assert_eq!(rt; goes_on(rt.alloc(), &mut machine, input)?.as_str(), words);
    }
    Ok(())
}
