//! The article of a name.
ghost use Rattle.std.specs.Prelude.{◌≡◌};
ghost use Rattle.anb_trace.specs.Words.{article, is_letter, is_vowel, sounds_open, takes_an};

/// The article of a name, with a space behind.
pub(crate) fn article(name: &[u8]) -> &'static [u8]
    ensures { result.now ≡ article name.now }
{
    if takes_an(name) { b"an " } else { b"a " }
}

/// Whether `an` stands before a name.
fn takes_an(name: &[u8]) -> bool
    ensures { result ≡ takes_an name.now }
{
    match name {
        [] => false,
        [first] => sounds_open(*first),
        [first, next, ..] => {
            if is_letter(*next) {
                is_vowel(*first)
            } else {
                sounds_open(*first)
            }
        }
    }
}

/// Whether a letter is a vowel.
fn is_vowel(letter: u8) -> bool
    ensures { result ≡ is_vowel letter }
{
    b"aeiouAEIOU".contains(&letter)
}

/// Whether the name of a letter begins with a vowel, as that of `m` does.
fn sounds_open(letter: u8) -> bool
    ensures { result ≡ sounds_open letter }
{
    is_vowel(letter) || b"fhlmnrsxFHLMNRSX".contains(&letter)
}

fn is_letter(byte: u8) -> bool
    ensures { result ≡ is_letter byte }
{
    byte.is_ascii_alphabetic()
}
