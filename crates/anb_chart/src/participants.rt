//! Names of participants, as Mermaid can take them.
ghost use Rattle.std.specs.Prelude.{◌≡◌, ◌++◌, OnOk};
ghost use Rattle.std.specs.Str.{str_eq_ignore_ascii_case};
ghost use Rattle.anb_chart.specs.Participants.{block_words, escaped, is_among, is_word, side_words, statement_words};

use anb_base::NoMemory;
use itoa::Buffer;

/// Appends a role's name. One that is a word of Mermaid's has an entity code in place of its first
/// letter.
pub(crate) fn put_escaped(out: &mut Vec<u8>, name: &[u8]) -> Result<(), NoMemory>
    ensures { OnOk result (out.new.items ≡ out.old.items ++ escaped name.now) }
{
    let [first, rest @ ..] = name else {
        return Ok(());
    };
    if !is_word(name) {
        out.extend_from_slice(name)?;
        return Ok(());
    }
    let mut buffer = Buffer::new();
    out.push(b'#')?;
    out.extend_from_slice(buffer.format(*first).as_bytes())?;
    out.push(b';')?;
    out.extend_from_slice(rest)?;
    Ok(())
}

/// Whether Mermaid keeps the name for itself.
fn is_word(name: &[u8]) -> bool
    ensures { result ≡ is_word name.now }
{
    is_statement_word(name) || is_block_word(name) || is_side_word(name)
}

fn is_statement_word(name: &[u8]) -> bool
    ensures { result ≡ is_among statement_words name.now }
{
    is_same(b"participant", name)
        || is_same(b"actor", name)
        || is_same(b"create", name)
        || is_same(b"destroy", name)
        || is_same(b"activate", name)
        || is_same(b"deactivate", name)
        || is_same(b"note", name)
        || is_same(b"over", name)
        || is_same(b"autonumber", name)
        || is_same(b"off", name)
}

fn is_block_word(name: &[u8]) -> bool
    ensures { result ≡ is_among block_words name.now }
{
    is_same(b"end", name)
        || is_same(b"box", name)
        || is_same(b"rect", name)
        || is_same(b"loop", name)
        || is_same(b"opt", name)
        || is_same(b"alt", name)
        || is_same(b"else", name)
        || is_same(b"par", name)
        || is_same(b"par_over", name)
        || is_same(b"and", name)
        || is_same(b"critical", name)
        || is_same(b"option", name)
        || is_same(b"break", name)
}

fn is_side_word(name: &[u8]) -> bool
    ensures { result ≡ is_among side_words name.now }
{
    is_same(b"sequenceDiagram", name)
        || is_same(b"title", name)
        || is_same(b"accTitle", name)
        || is_same(b"accDescr", name)
        || is_same(b"link", name)
        || is_same(b"links", name)
        || is_same(b"properties", name)
        || is_same(b"details", name)
}

/// Whether they are the same but for the case of letters.
fn is_same(word: &[u8], name: &[u8]) -> bool
    ensures { result ≡ str_eq_ignore_ascii_case word.now name.now }
{
    word.eq_ignore_ascii_case(name)
}
