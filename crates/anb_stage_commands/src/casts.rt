//! The programs of roles, as they stand among the words: each is a flag, a role's name, and the program.
ghost use Rattle.std.specs.Prelude.{◌≡◌, ◌++◌, [], ◌∷◌, filter, IfOk, OnOk};
ghost use Rattle.anb_stage_commands.specs.Asking.{casts_of, text_by};
ghost use Rattle.anb_stage_commands.specs.CastRoles.{first_absent};
ghost use Rattle.anb_stage_commands.specs.Words.{has_none_twice, is_cast, is_word, names_program, program_of, program_words};

use anb_base::{NoMemory, Text};
use anb_command::is_operand;
use anb_protocol::Protocol;
use std::alloc::Global;

/// Whether these three words say a program of a role.
pub(crate) fn is_cast(flag: &Text, role: &Text, program: &Text) -> bool
    ensures { result ≡ is_cast flag.now role.now program.now }
{
    flag.as_str() == "--as" && is_operand(role) && is_operand(program) && names_program(program)
}

/// Whether a program has a word.
fn names_program(program: &Text) -> bool
    ensures { result ≡ names_program program.now }
{
    program.as_str().as_bytes().iter().any(|byte| *byte != b' ')
}

/// Whether no role has two programs.
pub(crate) fn has_none_twice(casts: &[Text]) -> bool
    ensures { result ≡ has_none_twice (casts_of casts.now) }
{
    let mut rest = casts;
    while let [_, role, _, behind @ ..] = rest {
        if program_of(behind, role).is_some() {
            return false;
        }
        rest = behind;
    }
    true
}

/// The program of a role, where one is said.
pub(crate) fn program_of<'w>(casts: &'w [Text], role: &Text) -> Option<&'w Text>
    ensures { text_by result ≡ program_of (casts_of casts.now) role.now }
{
    let mut rest = casts;
    while let [_, name, program, behind @ ..] = rest {
        if name.as_str() == role.as_str() {
            return Some(program);
        }
        rest = behind;
    }
    None
}

/// The first role with a program that the protocol hasn't.
pub(crate) fn absent_role<'w>(protocol: &Protocol, casts: &'w [Text]) -> Option<&'w Text>
    ensures { text_by result ≡ first_absent protocol.now (casts_of casts.now) }
{
    let mut rest = casts;
    while let [_, role, _, behind @ ..] = rest {
        if protocol.role_of(role.as_str().as_bytes()).is_none() {
            return Some(role);
        }
        rest = behind;
    }
    None
}

/// The words of a program.
pub(crate) fn program_words(alloc: Global, program: &Text) -> Result<Vec<Text>, NoMemory>
    ensures { IfOk result (λ words. words.items ≡ program_words program.now) }
{
    let mut words = Vec::new(alloc);
    for word in program.as_str().split(' ') {
        put_word(alloc, &mut words, word)?;
    }
    Ok(words)
}

/// Appends a word, unless it is empty.
fn put_word(alloc: Global, words: &mut Vec<Text>, word: &str) -> Result<(), NoMemory>
    ensures { OnOk result
        (words.new.items ≡ words.old.items ++ filter is_word (word.now ∷ [])) }
{
    if word.is_empty() {
        return Ok(());
    }
    words.push(Text::new(String::from_str(alloc, word)?))?;
    Ok(())
}
