//! The words that a refused text could have gone on with.

ghost use Rattle.std.specs.Prelude.{◌≡◌, ◌≤◌, IfOk, List, ℕ, length, take, nat_lt};
ghost use Rattle.std.specs.List.{prefix_len};
ghost use Rattle.anb_base.specs.declared.TheConstants.{SMALL_FILE};
ghost use Rattle.anb_read.specs.Expected.{AreExpected, word_of};
ghost use Rattle.anb_read.specs.Expecting.{before, expects, goes_on};
ghost use Rattle.anb_read.specs.Laws.{ExpectedAreUnique};
ghost use Rattle.anb_read.specs.Places.{toks};
ghost use Rattle.anb_read.specs.declared.grammar.GrammarWord.TheVariants as grammar;
ghost use Rattle.anb_read.specs.Refusals.{IsRefusal};

use crate::grammar::{GrammarWord, grammar_words};
use crate::places::{Place, places};
use crate::refusal::ReadNo;
use crate::sections::narration;
use anb_base::NoMemory;
use std::alloc::Global;

/// The words of the grammar with which the tokens before the refused one go on to some narration. It
/// reads these tokens once for each word of the grammar.
pub fn expected(alloc: Global, text: &[u8], why: ReadNo) -> Result<Vec<GrammarWord>, NoMemory>
    requires size { length text.now ≤ SMALL_FILE }
    requires refused { IsRefusal text.now why }
    ensures { IfOk result (λ words. AreExpected text.now why words.items) }
{
    let all = places(alloc, text)?;
    let front = before(&all, why.offset());
    let named = goes_on(alloc, text, front, GrammarWord::Name)?;
    let mut words = Vec::new(alloc);
    for word in grammar_words() {
        if expects(alloc, text, front, named, word)? {
            words.push(word)?;
        }
    }
    Ok(words)
}

/// The tokens that begin before an offset.
fn before(places: &[Place], at: u32) -> &[Place]
    ensures { (text : List ℕ) → toks text result.now ≡ before at (toks text places.now) }
{
    let mut n = 0;
    'earlier: while n < places.len() && places[n].at() < at {
        n += 1;
    }
    &places[..n]
}

/// Whether a word is expected behind these tokens, where it is told whether names are.
fn expects(
    alloc: Global,
    text: &[u8],
    front: &[Place],
    named: bool,
    word: GrammarWord,
) -> Result<bool, NoMemory>
    requires size { length text.now ≤ SMALL_FILE }
    requires named { named ≡ goes_on (toks text.now front.now) (word_of grammar.Name) }
    ensures { IfOk result (λ yes. yes ≡ expects (toks text.now front.now) word) }
{
    if word.is_name_too() && named {
        return Ok(false);
    }
    goes_on(alloc, text, front, word)
}

/// Whether some narration begins with these tokens and this word.
fn goes_on(alloc: Global, text: &[u8], front: &[Place], word: GrammarWord) -> Result<bool, NoMemory>
    requires { length text.now ≤ SMALL_FILE }
    ensures { IfOk result (λ yes. yes ≡ goes_on (toks text.now front.now) (word_of word)) }
{
    let mut all = Vec::from_slice(alloc, front)?;
    all.push(Place::Given(word))?;
    match narration(alloc, text, &all) {
        Ok(_) => Ok(true),
        Err(ReadNo::Grammar { at: _ }) => Ok(false),
        Err(ReadNo::NoMemory) => Err(NoMemory),
        Err(_) => Ok(true),
    }
}

/// A law: what a text could have gone on with is one list.
pub fn expected_are_unique()
    ensures { ExpectedAreUnique }
{}
