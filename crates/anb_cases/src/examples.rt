//! Commands over copies of the examples of protocols: a file lists them, a line each, and for each the number
//! of its status is printed with its line. So the gate reads, compiles, replays and rehearses every example.

use anb_base::{Bytes, MemWire, NoMemory, Text};
use anb_real::RealShelf;
use anb_run::run;
use std::alloc::AllocError;
use std::{fs, io};

/// The file that lists the commands.
const COMMANDS: &str = "examples/commands";

/// How many bytes a command may write.
const ROOM: u32 = 1_048_576;

/// Runs the commands.
pub(crate) fn run_examples(rt: HostRuntime) -> io::Result<()> {
    let commands = fs::read_to_string(&rt, COMMANDS)?;
    for line in commands.lines() {
        println!(rt; "{} {line}", status(rt, line)?)?;
    }
    Ok(())
}

/// The number of the status of a command.
fn status(rt: HostRuntime, line: &str) -> io::Result<u8> {
    let alloc = rt.alloc();
    let mut words = Vec::new(alloc);
    for word in line.split(' ') {
        words.push(Text::new(String::from_str(alloc, word)?))?;
    }
    let mut shelf = RealShelf::new(rt);
    let mut wire = wire(rt)?;
    let mut err = self::wire(rt)?;
    Ok(run(alloc, &words, &mut shelf, &mut wire, &mut err, None).number())
}

/// A wire without input.
fn wire(rt: HostRuntime) -> io::Result<MemWire> {
    let alloc = rt.alloc();
    let none = Bytes::new(Vec::new(alloc));
    match MemWire::new(alloc, none, 4096, ROOM, Vec::new(alloc)) {
        Ok(wire) => Ok(wire),
        Err(NoMemory) => Err(AllocError.into()),
    }
}
