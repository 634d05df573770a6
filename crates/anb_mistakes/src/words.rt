//! The words of the grammar as they are told.
ghost use Rattle.std.specs.Prelude.{◌≡◌, ◌++◌, IfOk, OnOk};
ghost use Rattle.anb_mistakes.specs.Words.{word_text, expected_text, other_words};

use crate::pointing::put;
use anb_base::NoMemory;
use anb_read::GrammarWord;
use std::alloc::Global;

/// What is told of the words that are expected.
pub(crate) fn expected_text(alloc: Global, words: &[GrammarWord]) -> Result<Vec<u8>, NoMemory>
    ensures { IfOk result (λ v. v.items ≡ expected_text words.now) }
{
    let mut out = Vec::from_slice(alloc, b"expected ")?;
    let [first, rest @ ..] = words else {
        return Ok(out);
    };
    put(&mut out, word_text(*first).as_bytes())?;
    put_others(&mut out, rest)?;
    Ok(out)
}

/// Appends the words behind the first.
fn put_others(out: &mut Vec<u8>, words: &[GrammarWord]) -> Result<(), NoMemory>
    ensures { OnOk result (out.new.items ≡ out.old.items ++ other_words words.now) }
{
    for (i, word) in words.iter().enumerate() {
        put(out, if i + 1 == words.len() { b" or " } else { b", " })?;
        put(out, word_text(*word).as_bytes())?;
    }
    Ok(())
}

/// A word, or what is told in place of one.
fn word_text(word: GrammarWord) -> &'static str
    ensures { result.now ≡ word_text word }
{
    match word {
        GrammarWord::Protocol => "`Protocol`",
        GrammarWord::Suite => "`Suite`",
        GrammarWord::Sha256 => "`sha256`",
        GrammarWord::Sha512 => "`sha512`",
        GrammarWord::Agent => "`Agent`",
        GrammarWord::Number => "`Number`",
        GrammarWord::Key => "`Key`",
        GrammarWord::Name => "a name",
        GrammarWord::Hash => "`h`",
        GrammarWord::Mac => "`mac`",
        GrammarWord::Seal => "`scrypt`",
        GrammarWord::Wrap => "`wrap`",
        GrammarWord::Literal => "a literal",
        GrammarWord::Len => "`len`",
        GrammarWord::Net => "`net`",
        GrammarWord::Hex => "`hex`",
        GrammarWord::Rest => "`rest`",
        GrammarWord::Colon => "`:`",
        GrammarWord::Equals => "`=`",
        GrammarWord::Arrow => "`->`",
        GrammarWord::Open => "`(`",
        GrammarWord::Comma => "`,`",
        GrammarWord::Close => "`)`",
        GrammarWord::Semicolon => "`;`",
        GrammarWord::Types => "`Types`",
        GrammarWord::Formats => "`Formats`",
        GrammarWord::Knowledge => "`Knowledge`",
        GrammarWord::Actions => "`Actions`",
        GrammarWord::Goals => "`Goals`",
        GrammarWord::End => "the end",
    }
}
