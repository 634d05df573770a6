//! What is said of a line that isn't of the grammar.
ghost use Rattle.std.specs.Prelude.{◌≡◌};
ghost use Rattle.anb_value_mistakes.specs.Wording.{mend, message};

use crate::wrong::Wrong;

pub(crate) fn message(wrong: Wrong) -> &'static str
    ensures { result.now ≡ message wrong }
{
    match wrong {
        Wrong::Mark => "a byte order mark",
        Wrong::Colon => "`:` in the place of `=`",
        Wrong::NoEquals => "no `=`",
        Wrong::Name => "this byte stands in no name",
        Wrong::NoName => "no name",
        Wrong::NoValue => "no value",
        Wrong::Prefix => "`0x` in the place of `x`",
        Wrong::Apostrophe => "`'` in the place of `\"`",
        Wrong::Bare => "a value without quotes",
        Wrong::SeedBare => "a seed without `x`",
        Wrong::SeedLength => "a seed that hasn't 64 digits",
        Wrong::Digit => "no hexadecimal digit",
        Wrong::Odd => "an odd number of digits",
        Wrong::Unclosed => "no quote ends this value",
        Wrong::Escape => "no character is written so",
        Wrong::Byte => "this byte doesn't stand between quotes",
        Wrong::Comment => "a comment after a value",
        Wrong::Behind => "more after a value",
    }
}

pub(crate) fn mend(wrong: Wrong) -> &'static str
    ensures { result.now ≡ mend wrong }
{
    match wrong {
        Wrong::Mark => "save the file without it",
        Wrong::Colon => "a line is a name, `=` and a value",
        Wrong::NoEquals => "a line is a name, `=` and a value",
        Wrong::Name => "a name has letters, digits, `_`, `(`, `)` and `,`; the seed is `@seed`",
        Wrong::NoName => "a line is a name, `=` and a value",
        Wrong::NoValue => "a value is text in quotes, or `x` and two digits for each byte",
        Wrong::Prefix => "write `x` and two digits for each byte",
        Wrong::Apostrophe => "text stands between two `\"`",
        Wrong::Bare => "a value is text in quotes, or `x` and two digits for each byte",
        Wrong::SeedBare => "a seed is `x` and 64 digits",
        Wrong::SeedLength => "a seed is `x` and 64 digits",
        Wrong::Digit => "write `x` and two digits for each byte",
        Wrong::Odd => "write `x` and two digits for each byte",
        Wrong::Unclosed => "a value ends with the quote that it begins with",
        Wrong::Escape => "write `\\\"`, `\\\\`, or `\\x` and two digits",
        Wrong::Byte => "write `\\x` and two digits",
        Wrong::Comment => "a comment stands on a line of its own",
        Wrong::Behind => "a line ends with its value",
    }
}
