//! Where in a text stands what its narration is refused for.
ghost use Rattle.std.specs.Prelude.{◌≡◌, ◌≤◌, IfOk, List, ℕ, length, map};
ghost use Rattle.anb_base.specs.declared.TheConstants.{SMALL_FILE};
ghost use Rattle.anb_syntax.specs.Views.{narration_of, tok_of};
ghost use Rattle.anb_syntax.specs.Words.{head};
ghost use Rattle.anb_mistakes.specs.Spots.{a_format, a_line, a_role, a_sender, action as action_in, anything, applied, applied_but, before_uses, ends_types, behind as behind_in, behind_ends, behind_some, fault_spot, first_of, is_agent_sort, is_named, is_other, is_spot, item_at, message as message_in, misused, no_atom, not_applied, nth as nth_in, rest_spot, second as second_in, shape_spot, spot as spot_in, stands_behind, typed as typed_in, used as used_in};

use crate::items::{field_count, is_format, pieces_of, sort_of};
use crate::limits::limit_spot;
use crate::listing::{in_line, known};
use crate::tokens::{arguments, begins, is_sign, is_word, others};
use anb_base::NoMemory;
use anb_format::FormatNo;
use anb_protocol::{Item, ResolveNo};
use anb_syntax::{Narration, Sort, Token, TokenKind};
use std::alloc::Global;

/// What stands behind a name that is sought: a colon, an arrow, an opening sign, an equals sign, or
/// anything else; and where a number is told, another number of arguments than that.
#[derive(Clone, Copy, Drop)]
pub(crate) struct Follower {
    pub(crate) colon: bool,
    pub(crate) arrow: bool,
    pub(crate) paren: bool,
    pub(crate) equals: bool,
    pub(crate) other: bool,
    pub(crate) but: Option<usize>,
}

const NOTHING: Follower = Follower {
    colon: false,
    arrow: false,
    paren: false,
    equals: false,
    other: false,
    but: None,
};

fn anything() -> Follower
    ensures { result ≡ anything }
{
    Follower {
        colon: true,
        arrow: true,
        paren: true,
        equals: true,
        other: true,
        but: None,
    }
}

pub(crate) fn a_line() -> Follower
    ensures { result ≡ a_line }
{
    Follower {
        colon: true,
        ..NOTHING
    }
}

pub(crate) fn a_role() -> Follower
    ensures { result ≡ a_role }
{
    Follower {
        colon: true,
        arrow: true,
        ..NOTHING
    }
}

pub(crate) fn a_sender() -> Follower
    ensures { result ≡ a_sender }
{
    Follower {
        arrow: true,
        ..NOTHING
    }
}

pub(crate) fn a_format() -> Follower
    ensures { result ≡ a_format }
{
    Follower {
        equals: true,
        ..NOTHING
    }
}

fn applied_but(fields: usize) -> Follower
    ensures { result ≡ applied_but fields }
{
    Follower {
        paren: true,
        but: Some(fields),
        ..NOTHING
    }
}

/// Where a name of this sort is used as something else.
fn misused(narration: &Narration, name: &[u8]) -> Follower
    ensures { result ≡ misused (narration_of narration.now) name.now }
{
    if is_format(&narration.formats, name) {
        Follower {
            colon: true,
            arrow: true,
            other: true,
            ..NOTHING
        }
    } else if is_agent(sort_of(&narration.types, name)) {
        Follower {
            paren: true,
            ..NOTHING
        }
    } else {
        Follower {
            colon: true,
            arrow: true,
            paren: true,
            ..NOTHING
        }
    }
}

fn is_agent(sort: Option<Sort>) -> bool
    ensures { result ≡ is_agent_sort sort }
{
    match sort {
        Some(Sort::Agent) => true,
        _ => false,
    }
}

/// Whether a number of arguments is another one than this.
fn is_other(fields: Option<usize>, count: usize) -> bool
    ensures { result ≡ is_other fields count }
{
    match fields {
        None => true,
        Some(fields) => count != fields,
    }
}

/// Whether what is sought stands there.
fn stands_behind(behind: Follower, tokens: &[Token]) -> bool
    requires { length tokens.now ≤ SMALL_FILE }
    ensures { (text : List ℕ) → result ≡ stands_behind behind (map (tok_of text) tokens.now) }
{
    if begins(b':', tokens) {
        behind.colon
    } else if begins(b'-', tokens) {
        behind.arrow
    } else if begins(b'(', tokens) {
        behind.paren && is_other(behind.but, arguments(others(tokens)))
    } else if begins(b'=', tokens) {
        behind.equals
    } else {
        behind.other
    }
}

/// Whether a token is this name, or any where none is told.
fn is_named(name: &[u8], text: &[u8], token: Token) -> bool
    ensures { result ≡ is_named name.now (tok_of text.now token).word }
{
    match name {
        [] => match token.kind {
            TokenKind::Name => true,
            _ => false,
        },
        [_, ..] => is_word(name, text, token),
    }
}

/// Whether the first token is such a name.
fn is_spot(name: &[u8], behind: Follower, text: &[u8], tokens: &[Token]) -> bool
    requires { length tokens.now ≤ SMALL_FILE }
    ensures { result ≡ is_spot name.now behind (map (tok_of text.now) tokens.now) }
{
    match tokens {
        [] => false,
        [token, rest @ ..] => is_named(name, text, *token) && stands_behind(behind, rest),
    }
}

/// The tokens from the k-th such place on, counted from 0.
pub(crate) fn nth<'t>(
    name: &[u8],
    behind: Follower,
    k: usize,
    text: &[u8],
    tokens: &'t [Token],
) -> &'t [Token]
    requires { length tokens.now ≤ SMALL_FILE }
    ensures tokens { map (tok_of text.now) result.now
        ≡ nth_in name.now behind k (map (tok_of text.now) tokens.now) }
    ensures most { length result.now ≤ length tokens.now }
{
    let mut left = k;
    for i in 0..tokens.len() {
        if is_spot(name, behind, text, &tokens[i..]) {
            if left == 0 {
                return &tokens[i..];
            }
            left -= 1;
        }
    }
    &[]
}

/// The tokens behind the first of two words.
fn behind<'t>(one: &[u8], other: &[u8], text: &[u8], tokens: &'t [Token]) -> &'t [Token]
    ensures tokens { map (tok_of text.now) result.now
        ≡ behind_in one.now other.now (map (tok_of text.now) tokens.now) }
    ensures most { length result.now ≤ length tokens.now }
{
    for i in 0..tokens.len() {
        if is_word(one, text, tokens[i]) || is_word(other, text, tokens[i]) {
            return &tokens[i + 1..];
        }
    }
    &[]
}

/// The tokens from the first of the item on in which the offset stands.
pub(crate) fn item_at(at: u32, tokens: &[Token]) -> &[Token]
    ensures { (text : List ℕ) → map (tok_of text) result.now
        ≡ item_at at (map (tok_of text) tokens.now) }
{
    let mut first = 0;
    for i in 0..tokens.len() {
        if at <= tokens[i].at {
            return &tokens[first..];
        }
        if is_sign(b';', tokens[i]) {
            first = i + 1;
        }
    }
    &tokens[first..]
}

/// The tokens before formats, knowledge and actions.
fn before_uses<'t>(text: &[u8], tokens: &'t [Token]) -> &'t [Token]
    ensures tokens { map (tok_of text.now) result.now
        ≡ before_uses (map (tok_of text.now) tokens.now) }
    ensures most { length result.now ≤ length tokens.now }
{
    let mut n = 0;
    'types: while n < tokens.len() && !ends_types(text, tokens[n]) {
        n += 1;
    }
    &tokens[..n]
}

fn ends_types(text: &[u8], token: Token) -> bool
    ensures { result ≡ ends_types (tok_of text.now token).word }
{
    is_word(b"Formats", text, token)
        || is_word(b"Knowledge", text, token)
        || is_word(b"Actions", text, token)
}

/// The tokens where names are declared with their sorts.
fn typed<'t>(text: &[u8], tokens: &'t [Token]) -> &'t [Token]
    ensures tokens { map (tok_of text.now) result.now ≡ typed_in (map (tok_of text.now) tokens.now) }
    ensures most { length result.now ≤ length tokens.now }
{
    before_uses(text, behind(b"Types", b"Types", text, tokens))
}

/// The tokens where names are used.
pub(crate) fn used<'t>(text: &[u8], tokens: &'t [Token]) -> &'t [Token]
    ensures tokens { map (tok_of text.now) result.now ≡ used_in (map (tok_of text.now) tokens.now) }
    ensures most { length result.now ≤ length tokens.now }
{
    behind(b"Knowledge", b"Actions", text, tokens)
}

/// A name a second time.
fn second<'t>(name: &[u8], text: &[u8], tokens: &'t [Token]) -> &'t [Token]
    requires { length tokens.now ≤ SMALL_FILE }
    ensures tokens { map (tok_of text.now) result.now
        ≡ second_in name.now (map (tok_of text.now) tokens.now) }
    ensures most { length result.now ≤ length tokens.now }
{
    let types = typed(text, tokens);
    let twice = nth(name, anything(), 1, text, types);
    if !twice.is_empty() {
        return twice;
    }
    let format = nth(name, a_format(), 0, text, tokens);
    if !nth(name, anything(), 0, text, types).is_empty() && !format.is_empty() {
        return format;
    }
    let again = nth(name, a_format(), 1, text, tokens);
    if !again.is_empty() {
        return again;
    }
    nth(name, a_line(), 1, text, used(text, tokens))
}

/// The action of a number that counts from 1, by its sender.
fn action<'t>(number: u32, text: &[u8], tokens: &'t [Token]) -> &'t [Token]
    requires { length tokens.now ≤ SMALL_FILE }
    ensures tokens { map (tok_of text.now) result.now
        ≡ action_in number (map (tok_of text.now) tokens.now) }
    ensures most { length result.now ≤ length tokens.now }
{
    let number = (number as usize).saturating_sub(1);
    nth(b"", a_sender(), number, text, used(text, tokens))
}

/// The message of an action.
pub(crate) fn message<'t>(number: u32, text: &[u8], tokens: &'t [Token]) -> &'t [Token]
    requires { length tokens.now ≤ SMALL_FILE }
    ensures { map (tok_of text.now) result.now
        ≡ message_in number (map (tok_of text.now) tokens.now) }
{
    behind_ends(action(number, text, tokens))
}

/// What stands behind the ends of an action, and the signs between.
pub(crate) fn behind_ends(tokens: &[Token]) -> &[Token]
    ensures tokens { (text : List ℕ) → map (tok_of text) result.now
        ≡ behind_ends (map (tok_of text) tokens.now) }
    ensures most { length result.now ≤ length tokens.now }
{
    others(others(others(others(tokens))))
}

/// The first `rest` of a format.
fn rest_spot<'t>(name: &[u8], text: &[u8], tokens: &'t [Token]) -> &'t [Token]
    requires { length tokens.now ≤ SMALL_FILE }
    ensures tokens { map (tok_of text.now) result.now
        ≡ rest_spot name.now (map (tok_of text.now) tokens.now) }
    ensures most { length result.now ≤ length tokens.now }
{
    let format = in_line(nth(name, a_format(), 0, text, tokens));
    nth(b"rest", anything(), 0, text, format)
}

/// Where a format's shape is wrong.
fn shape_spot<'t>(why: FormatNo, name: &[u8], text: &[u8], tokens: &'t [Token]) -> &'t [Token]
    requires { length tokens.now ≤ SMALL_FILE }
    ensures tokens { map (tok_of text.now) result.now
        ≡ shape_spot why name.now (map (tok_of text.now) tokens.now) }
    ensures most { length result.now ≤ length tokens.now }
{
    match why {
        FormatNo::NoHead => nth(name, a_format(), 0, text, tokens),
        FormatNo::RestNotLast(_) => rest_spot(name, text, tokens),
    }
}

/// The tokens from where it stands on.
pub(crate) fn spot<'t>(
    alloc: Global,
    narration: &Narration,
    why: &ResolveNo,
    text: &[u8],
    tokens: &'t [Token],
) -> Result<&'t [Token], NoMemory>
    requires { length tokens.now ≤ SMALL_FILE }
    ensures tokens { IfOk result (λ s. map (tok_of text.now) s.now
        ≡ spot_in (narration_of narration.now) why.now (map (tok_of text.now) tokens.now)) }
    ensures most { IfOk result (λ s. length s.now ≤ length tokens.now) }
{
    match why {
        ResolveNo::Limit(kind, _) => limit_spot(alloc, narration, *kind, text, tokens),
        _ => Ok(fault_spot(narration, why, text, tokens)),
    }
}

/// The same where it isn't beyond a limit.
fn fault_spot<'t>(
    narration: &Narration,
    why: &ResolveNo,
    text: &[u8],
    tokens: &'t [Token],
) -> &'t [Token]
    requires { length tokens.now ≤ SMALL_FILE }
    ensures tokens { map (tok_of text.now) result.now
        ≡ fault_spot (narration_of narration.now) why.now (map (tok_of text.now) tokens.now) }
    ensures most { length result.now ≤ length tokens.now }
{
    let used = used(text, tokens);
    match why {
        ResolveNo::Limit(_, _) => tokens,
        ResolveNo::Twice(name) => second(name.as_str().as_bytes(), text, tokens),
        ResolveNo::Unknown(name) => { nth(name.as_str().as_bytes(), anything(), 0, text, used) }
        ResolveNo::WrongSort(name) => {
            let name = name.as_str().as_bytes();
            nth(name, misused(narration, name), 0, text, used)
        }
        ResolveNo::WrongCount(name) => {
            let name = name.as_str().as_bytes();
            let fields = field_count(pieces_of(&narration.formats, name));
            nth(name, applied_but(fields), 0, text, used)
        }
        ResolveNo::FormatShape(name, why) => {
            shape_spot(*why, name.as_str().as_bytes(), text, tokens)
        }
        ResolveNo::Overlap(_, name) => {
            nth(name.as_str().as_bytes(), a_format(), 0, text, tokens)
        }
        ResolveNo::SelfSend(number) => action(*number, text, tokens),
        ResolveNo::KnowledgeTwice(role, term) => {
            let line = nth(role.as_str().as_bytes(), a_line(), 0, text, used);
            known(term.as_str().as_bytes(), 1, text, in_line(line))
        }
        ResolveNo::Wide(Item::Know(role)) => {
            nth(role.as_str().as_bytes(), a_line(), 0, text, used)
        }
        ResolveNo::Wide(Item::Action(number)) => action(*number, text, tokens),
        ResolveNo::NoMemory => tokens,
    }
}
