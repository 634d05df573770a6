//! Schedules from their texts.
ghost use Rattle.std.specs.Prelude.{◌≡◌, ◌<◌, ◌≤◌, ◌+◌, ◌++◌, ℕ, [], ◌∷◌, length, map, filter, true, All, IfOk, OnOk, Some, None, Err};
ghost use Rattle.std.specs.List.{position_from};
ghost use Rattle.anb_protocol.specs.Protocols.{role_named};
ghost use Rattle.anb_base.specs.declared.TheConstants.{SMALL_FILE};
ghost use Rattle.anb_honest.specs.declared.TheConstants.{TURNS};
ghost use Rattle.anb_honest.specs.declared.words.ScheduleNo.TheVariants as refusal;
ghost use Rattle.anb_honest.specs.Words.{is_blank, is_word, names_none, words_of};

use anb_protocol::Protocol;
use std::alloc::{AllocFailed, Global};

/// Why a text is no schedule.
#[derive(Clone, Copy, Debug, PartialEq, Eq, Drop)]
pub enum ScheduleNo {
    /// This word names no role, the first such, numbered from 1.
    BadTurn(u32),
    NoMemory,
}

impl<T: Drop> From<AllocFailed<T>> for ScheduleNo {
    ghost from_gives = { λ _ refused. refused ≡ refusal.NoMemory };

    fn from(_failed: AllocFailed<T>) -> Self {
        ScheduleNo::NoMemory
    }
}

/// Reads a schedule: names of roles, between blanks. The answer has their numbers.
pub fn schedule(alloc: Global, p: &Protocol, text: &[u8]) -> Result<Vec<u32>, ScheduleNo>
    requires { length text.now ≤ SMALL_FILE }
    ensures turns { IfOk result (λ turns.
        map Some turns.items ≡ map (role_named p.now) (words_of text.now)) }
    ensures refused { (n : ℕ) → result ≡ Err (ScheduleNo.BadTurn n)
        → position_from (names_none p.now) 1 (words_of text.now) ≡ Some n }
    ensures roles { IfOk result (λ turns. All (λ role. role < length p.now.roles) turns.items) }
    ensures few { IfOk result (λ turns. length turns.items ≤ TURNS) }
{
    let mut turns = Vec::new(alloc);
    for word in text.split(|byte| is_blank(*byte)) {
        if let Err(no) = put_turn(p, &mut turns, word) {
            return Err(no);
        }
    }
    Ok(turns)
}

/// Appends the number of the role that a word names, unless the word is empty.
fn put_turn(p: &Protocol, turns: &mut Vec<u32>, word: &[u8]) -> Result<(), ScheduleNo>
    requires { length turns.old.items < SMALL_FILE }
    ensures turns { OnOk result (map Some turns.new.items
        ≡ map Some turns.old.items ++ map (role_named p.now) (filter is_word (word.now ∷ []))) }
    ensures refused { (n : ℕ) → result ≡ Err (ScheduleNo.BadTurn n)
        → (n ≡ length turns.old.items + 1) × (is_word word.now ≡ true)
        × (role_named p.now word.now ≡ None) }
{
    if word.is_empty() {
        return Ok(());
    }
    match p.role_of(word) {
        Some(role) => {
            turns.push(role)?;
            Ok(())
        }
        None => Err(ScheduleNo::BadTurn(turns.len() as u32 + 1)),
    }
}

fn is_blank(byte: u8) -> bool
    ensures { result ≡ is_blank byte }
{
    matches!(byte, b' ' | b'\t' | b'\n' | b'\r')
}
