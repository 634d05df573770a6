//! The words and the random bytes of the machine.

use anb_base::{NoMemory, Text};
use std::env::{Env, FillError};
use std::random::RandomSource;

/// The words behind the first ones. Where one isn't UTF-8 the list is empty: such a word fits no
/// command, and nor does a list without words.
pub fn words(rt: HostRuntime, skipped: usize) -> Result<Vec<Text>, NoMemory> {
    let mut words = Vec::new(rt.alloc());
    for place in skipped..usize::MAX {
        let Some(word) = word(rt, place)? else {
            break;
        };
        let Ok(word) = String::from_utf8(word) else {
            return Ok(Vec::new(rt.alloc()));
        };
        words.push(Text::new(word))?;
    }
    Ok(words)
}

/// The bytes of the word at this place, where there is one.
fn word(rt: HostRuntime, place: usize) -> Result<Option<Vec<u8>>, NoMemory> {
    for doublings in 8u32..32 {
        let mut word = vec![in rt.alloc(); 0u8; 1 << doublings]?;
        match rt.arg(place, &mut word) {
            Ok(len) => {
                word.truncate(len);
                return Ok(Some(word));
            }
            Err(FillError::NotPresent) => return Ok(None),
            Err(FillError::TooLong) => {}
        }
    }
    Err(NoMemory)
}

/// Random bytes of the machine, where it gives any.
pub fn seed(rt: HostRuntime) -> Option<[u8; 32]> {
    let mut seed = [0u8; 32];
    match rt.fill_bytes(&mut seed) {
        Ok(()) => Some(seed),
        Err(_) => None,
    }
}
