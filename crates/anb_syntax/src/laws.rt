//! Laws of tokens and of canonical texts.
ghost use Rattle.anb_syntax.specs.Laws.{CanonicalIsText, LiteralsAreTokens, TokensAreUnique};

/// A law: a text has one list of tokens.
pub fn tokens_are_unique()
    ensures { TokensAreUnique }
{}

/// A law: a token is a literal of some bytes exactly where a literal of these bytes begins.
pub fn literals_are_tokens()
    ensures { LiteralsAreTokens }
{}

/// A law: a narration that is spellable is written in its canonical text.
pub fn canonical_is_text()
    ensures { CanonicalIsText }
{}
