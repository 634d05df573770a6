//! Names of formats are turned into their numbers.
ghost use Rattle.std.specs.Prelude.{◌≡◌, ◌<◌, ◌≤◌, ◌^◌, length, map, position, All, IfOk};
ghost use Rattle.anb_format.specs.Formats.{IsSound};
ghost use Rattle.anb_code.specs.Spelling.{instr_of, is_named, place_of};
ghost use Rattle.anb_code.specs.Table.{HasCounts};

use crate::{Instr, RawFormat, RawInstr, Registers, What};
use anb_base::NoMemory;
use anb_format::Format;
use std::alloc::Global;

pub(crate) fn formats_of(alloc: Global, raw: Vec<RawFormat>) -> Result<Vec<Format>, NoMemory>
    requires pieces { All (λ format. length format.pieces < 2 ^ 32) raw.items }
    requires sound { All (λ format. IsSound format.pieces) raw.items }
    ensures { IfOk result (λ formats. formats.items ≡ raw.items) }
{
    let mut formats = Vec::new(alloc);
    for format in raw {
        formats.push(format_of(format))?;
    }
    Ok(formats)
}

fn format_of(raw: RawFormat) -> Format
    requires pieces { length raw.pieces < 2 ^ 32 }
    requires sound { IsSound raw.pieces }
    ensures { result ≡ raw }
{
    let RawFormat { name, pieces } = raw;
    Format::new(name, pieces)
}

pub(crate) fn instrs_of(
    alloc: Global,
    formats: &[Format],
    raw: Vec<RawInstr>,
) -> Result<Vec<Instr>, NoMemory>
    requires counts { All HasCounts raw.items }
    requires few { length formats.now < 2 ^ 16 }
    ensures { IfOk result (λ instrs. instrs.items ≡ map (instr_of formats.now) raw.items) }
{
    let mut instrs = Vec::new(alloc);
    for instr in raw {
        instrs.push(instr_of(formats, instr))?;
    }
    Ok(instrs)
}

fn instr_of(formats: &[Format], raw: RawInstr) -> Instr
    requires counts { HasCounts raw }
    requires few { length formats.now < 2 ^ 16 }
    ensures { result ≡ instr_of formats.now raw }
{
    let RawInstr {
        to: _,
        what,
        name,
        args,
    } = raw;
    match what {
        What::Take => Instr::Take(name),
        What::Fresh => Instr::Fresh,
        What::Recv => Instr::Recv,
        What::Hash => Instr::Hash(args[0]),
        What::Mac => Instr::Mac(args[0], args[1]),
        What::Seal => Instr::Seal(args[0], args[1]),
        What::Unseal => Instr::Unseal(args[0], args[1]),
        What::Wrap => Instr::Wrap(args[0], args[1], args[2]),
        What::Unwrap => Instr::Unwrap(args[0], args[1], args[2]),
        What::Build => Instr::Build(place_of(formats, name.as_str()), Registers::new(args)),
        What::Parse => Instr::Parse(place_of(formats, name.as_str()), args[0]),
        What::Equal => Instr::Equal(args[0], args[1]),
        What::Send => Instr::Send(args[0]),
    }
}

/// The place of the first format with this name, or that after the last.
fn place_of(formats: &[Format], name: &str) -> u16
    requires { length formats.now < 2 ^ 16 }
    ensures { result ≡ place_of formats.now name.now }
{
    match position(formats, name) {
        Some(place) => place as u16,
        None => formats.len() as u16,
    }
}

fn position(formats: &[Format], name: &str) -> Option<usize>
    ensures { result ≡ position (is_named name.now) formats.now }
{
    formats
        .iter()
        .position(|format| format.name().as_str() == name)
}
