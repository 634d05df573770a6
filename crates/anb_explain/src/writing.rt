//! Numbers and terms behind a space.
ghost use Rattle.std.specs.Prelude.{◌≡◌, ◌++◌, ◌∷◌, OnOk, decimal};
ghost use Rattle.anb_term.specs.View.{tree_of};
ghost use Rattle.anb_protocol.specs.Texts.{IsTermOf, term_text};

use anb_base::NoMemory;
use anb_protocol::Protocol;
use anb_term::Term;
use itoa::Buffer;
use std::alloc::Global;

/// Appends a number behind a space.
pub(crate) fn put_number(out: &mut Vec<u8>, n: usize) -> Result<(), NoMemory>
    ensures { OnOk result (out.new.items ≡ out.old.items ++ 32 ∷ decimal n) }
{
    let mut buffer = Buffer::new();
    out.push(b' ')?;
    out.extend_from_slice(buffer.format(n).as_bytes())?;
    Ok(())
}

/// Appends the text of a term behind a space.
pub(crate) fn put_term(
    alloc: Global,
    out: &mut Vec<u8>,
    protocol: &Protocol,
    term: &Term,
) -> Result<(), NoMemory>
    requires { IsTermOf protocol.now (tree_of term.now) }
    ensures { OnOk result (out.new.items
        ≡ out.old.items ++ 32 ∷ term_text protocol.now (tree_of term.now)) }
{
    let text = protocol.text_of_term(alloc, term)?;
    out.push(b' ')?;
    out.extend_from_slice(text.as_str().as_bytes())?;
    Ok(())
}
