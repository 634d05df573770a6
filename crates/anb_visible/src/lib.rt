//! Bytes of files as a terminal may have them: no control byte gets through, and all of it is UTF-8.
#![tactic(auto)]

ghost use Rattle.std.specs.Prelude.{◌≡◌, ◌++◌, ◌<◌, IfOk, OnOk};
ghost use Rattle.std.specs.Char.{digit_char};
ghost use Rattle.std.specs.List.{flat_map};
ghost use Rattle.anb_base.specs.Bytes.{IsBytes};
ghost use Rattle.anb_visible.specs.Visible.{IsClean, escaped, is_control, shown_byte, shown_run, visible};

use anb_base::NoMemory;
use std::alloc::Global;
use std::str;

/// The bytes with control bytes, and what isn't UTF-8, as `\x1b`. Line ends stay. It takes time and
/// memory in proportion to the bytes.
pub fn visible(alloc: Global, bytes: &[u8]) -> Result<Vec<u8>, NoMemory>
    ensures shown { IfOk result (λ v. v.items ≡ visible bytes.now) }
    ensures clean { IfOk result (λ v. IsClean v.items) }
{
    tell_bytes(bytes);
    shown(alloc, bytes)
}

/// Does nothing. Contracts then know that these are bytes.
fn tell_bytes(_bytes: &[u8])
    ensures { IsBytes _bytes.now }
{}

/// The bytes as they are shown.
fn shown(alloc: Global, bytes: &[u8]) -> Result<Vec<u8>, NoMemory>
    ensures { IfOk result (λ v. v.items ≡ visible bytes.now) }
{
    let mut out = Vec::new(alloc);
    let mut start = 0;
    for (i, b) in bytes.iter().enumerate() {
        if *b < 128 {
            put_run(&mut out, &bytes[start..i])?;
            put_byte(&mut out, *b)?;
            start = i + 1;
        }
    }
    put_run(&mut out, &bytes[start..])?;
    Ok(out)
}

/// Appends bytes from 80 up.
#[tactic(auto, using(crate::proofs::Runs::run_kept, crate::proofs::Runs::run_escaped))]
fn put_run(out: &mut Vec<u8>, run: &[u8]) -> Result<(), NoMemory>
    ensures { OnOk result (out.new.items ≡ out.old.items ++ shown_run run.now) }
{
    match str::from_utf8(run) {
        Ok(_text) => out.extend_from_slice(run)?,
        Err(_fault) => put_escapes(out, run)?,
    }
    Ok(())
}

/// Appends bytes as `\x1b`.
fn put_escapes(out: &mut Vec<u8>, run: &[u8]) -> Result<(), NoMemory>
    ensures { OnOk result (out.new.items ≡ out.old.items ++ flat_map escaped run.now) }
{
    for b in run {
        put_escaped(out, *b)?;
    }
    Ok(())
}

/// Appends a byte below 80.
fn put_byte(out: &mut Vec<u8>, b: u8) -> Result<(), NoMemory>
    ensures { OnOk result (out.new.items ≡ out.old.items ++ shown_byte b) }
{
    if is_control(b) {
        return put_escaped(out, b);
    }
    out.push(b)?;
    Ok(())
}

/// Whether it is a control byte that ends no line.
fn is_control(b: u8) -> bool
    ensures { result ≡ is_control b }
{
    (b < 32 && b != b'\n') || b == 127
}

/// Appends a byte as `\x1b`.
fn put_escaped(out: &mut Vec<u8>, b: u8) -> Result<(), NoMemory>
    ensures { OnOk result (out.new.items ≡ out.old.items ++ escaped b) }
{
    out.extend_from_slice(&[b'\\', b'x', digit(b / 16), digit(b % 16)])?;
    Ok(())
}

/// A hexadecimal digit.
fn digit(value: u8) -> u8
    requires { value < 16 }
    ensures { result ≡ digit_char value }
{
    if value < 10 {
        b'0' + value
    } else {
        b'a' + (value - 10)
    }
}
