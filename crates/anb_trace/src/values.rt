//! Bytes, and terms with bytes.
ghost use Rattle.std.specs.Prelude.{◌≡◌, ◌++◌, OnOk, map};
ghost use Rattle.std.specs.List.{AllByRecursion};
ghost use Rattle.hex.specs.Hex.{encode_lower};
ghost use Rattle.anb_term.specs.View.{tree_of};
ghost use Rattle.anb_protocol.specs.Texts.{IsTermOf};
ghost use Rattle.anb_trace.specs.Words.{bytes_line, value_line, value_lines};

use crate::subject::{put_term, term_at};
use anb_base::{Bytes, NoMemory};
use anb_protocol::Protocol;
use anb_term::Term;
use std::alloc::Global;

/// Appends bytes in hexadecimal.
pub(crate) fn put_hex(alloc: Global, out: &mut Vec<u8>, bytes: &[u8]) -> Result<(), NoMemory>
    ensures { OnOk result (out.new.items ≡ out.old.items ++ encode_lower bytes.now) }
{
    let digits = hex::encode(alloc, bytes)?;
    out.extend_from_slice(digits.as_str().as_bytes())?;
    Ok(())
}

/// Appends a line of bytes.
pub(crate) fn put_bytes_line(alloc: Global, out: &mut Vec<u8>, bytes: &[u8]) -> Result<(), NoMemory>
    ensures { OnOk result (out.new.items ≡ out.old.items ++ bytes_line bytes.now) }
{
    out.extend_from_slice(b"  ")?;
    put_hex(alloc, out, bytes)?;
    out.push(b'\n')?;
    Ok(())
}

/// Appends a line for each of these values, with its term.
pub(crate) fn put_value_lines(
    alloc: Global,
    out: &mut Vec<u8>,
    protocol: &Protocol,
    terms: &[Term],
    values: &[Bytes],
) -> Result<(), NoMemory>
    requires { AllByRecursion (IsTermOf protocol.now) (map tree_of terms.now) }
    ensures { OnOk result (out.new.items
        ≡ out.old.items ++ value_lines protocol.now (map tree_of terms.now) values.now) }
{
    for (i, value) in values.iter().enumerate() {
        let Some(term) = term_at(terms, i) else {
            return Ok(());
        };
        put_value_line(alloc, out, protocol, term, value.as_slice())?;
    }
    Ok(())
}

/// Appends the line of a value with its term.
fn put_value_line(
    alloc: Global,
    out: &mut Vec<u8>,
    protocol: &Protocol,
    term: &Term,
    bytes: &[u8],
) -> Result<(), NoMemory>
    requires { IsTermOf protocol.now (tree_of term.now) }
    ensures { OnOk result (out.new.items
        ≡ out.old.items ++ value_line protocol.now (tree_of term.now) bytes.now) }
{
    out.extend_from_slice(b"    ")?;
    put_term(alloc, out, protocol, term)?;
    out.extend_from_slice(b": ")?;
    put_hex(alloc, out, bytes)?;
    out.push(b'\n')?;
    Ok(())
}
