//! The words of the grammar.

ghost use Rattle.std.specs.Prelude.{◌≡◌, List, ℕ};
ghost use Rattle.anb_read.specs.Expected.{grammar_words, is_name_too, word_of};
ghost use Rattle.anb_read.specs.Places.{word_in};

use crate::places::Word;

/// A word of the grammar: a reserved word, a word that is one at its place, a name or a literal of
/// whatever bytes, a sign, or the end.
#[derive(Clone, Copy, Debug, PartialEq, Eq, Drop)]
pub enum GrammarWord {
    Protocol,
    Suite,
    Sha256,
    Sha512,
    Agent,
    Number,
    Key,
    Name,
    Hash,
    Mac,
    Seal,
    Wrap,
    Literal,
    Len,
    Net,
    Hex,
    Rest,
    Colon,
    Equals,
    Arrow,
    Open,
    Comma,
    Close,
    Semicolon,
    Types,
    Formats,
    Knowledge,
    Actions,
    Goals,
    End,
}

/// All words, in the grammar's order.
pub(crate) fn grammar_words() -> [GrammarWord; 30]
    ensures { result ≡ grammar_words }
{
    [
        GrammarWord::Protocol,
        GrammarWord::Suite,
        GrammarWord::Sha256,
        GrammarWord::Sha512,
        GrammarWord::Agent,
        GrammarWord::Number,
        GrammarWord::Key,
        GrammarWord::Name,
        GrammarWord::Hash,
        GrammarWord::Mac,
        GrammarWord::Seal,
        GrammarWord::Wrap,
        GrammarWord::Literal,
        GrammarWord::Len,
        GrammarWord::Net,
        GrammarWord::Hex,
        GrammarWord::Rest,
        GrammarWord::Colon,
        GrammarWord::Equals,
        GrammarWord::Arrow,
        GrammarWord::Open,
        GrammarWord::Comma,
        GrammarWord::Close,
        GrammarWord::Semicolon,
        GrammarWord::Types,
        GrammarWord::Formats,
        GrammarWord::Knowledge,
        GrammarWord::Actions,
        GrammarWord::Goals,
        GrammarWord::End,
    ]
}

impl GrammarWord {
    /// Whether the word is a name at other places.
    pub(crate) fn is_name_too(self) -> bool
        ensures { result ≡ is_name_too self }
    {
        match self {
            GrammarWord::Sha256 | GrammarWord::Sha512 => true,
            GrammarWord::Len | GrammarWord::Net | GrammarWord::Hex | GrammarWord::Rest => true,
            _ => false,
        }
    }

    /// The word, and for names and literals one of them.
    pub(crate) fn word(self) -> Word<'static>
        ensures { (text : List ℕ) → word_in text result ≡ word_of self }
    {
        match self {
            GrammarWord::Protocol => Word::Name(b"Protocol"),
            GrammarWord::Suite => Word::Name(b"Suite"),
            GrammarWord::Sha256 => Word::Name(b"sha256"),
            GrammarWord::Sha512 => Word::Name(b"sha512"),
            GrammarWord::Agent => Word::Name(b"Agent"),
            GrammarWord::Number => Word::Name(b"Number"),
            GrammarWord::Key => Word::Name(b"Key"),
            GrammarWord::Name => Word::Name(b"x"),
            GrammarWord::Hash => Word::Name(b"h"),
            GrammarWord::Mac => Word::Name(b"mac"),
            GrammarWord::Seal => Word::Name(b"scrypt"),
            GrammarWord::Wrap => Word::Name(b"wrap"),
            GrammarWord::Literal => Word::Quotes,
            GrammarWord::Len => Word::Name(b"len"),
            GrammarWord::Net => Word::Name(b"net"),
            GrammarWord::Hex => Word::Name(b"hex"),
            GrammarWord::Rest => Word::Name(b"rest"),
            GrammarWord::Colon => Word::Sign(b':'),
            GrammarWord::Equals => Word::Sign(b'='),
            GrammarWord::Arrow => Word::Sign(b'-'),
            GrammarWord::Open => Word::Sign(b'('),
            GrammarWord::Comma => Word::Sign(b','),
            GrammarWord::Close => Word::Sign(b')'),
            GrammarWord::Semicolon => Word::Sign(b';'),
            GrammarWord::Types => Word::Name(b"Types"),
            GrammarWord::Formats => Word::Name(b"Formats"),
            GrammarWord::Knowledge => Word::Name(b"Knowledge"),
            GrammarWord::Actions => Word::Name(b"Actions"),
            GrammarWord::Goals => Word::Name(b"Goals"),
            GrammarWord::End => Word::End,
        }
    }
}
