//! One run of a case, over a shelf, a store and a wire in memory.

ghost use Rattle.std.specs.Prelude.{◌≡◌, ℕ, IfOk};
ghost use Rattle.anb_partner.specs.Memory.{trials_of};
ghost use Rattle.anb_stage.specs.Memory.{child_at};

use crate::case::{Case, No};
use crate::children::children;
use crate::filling::filled;
use crate::stages::roles;
use crate::unfailing::run_unfailing;
use anb_base::{Bytes, MemShelf, MemWire, NeverFails, NoMemory, Text};
use anb_partner::MemTrials;
use anb_run::run_staging;
use anb_stage::MemSpawner;
use anb_store::{MemStore, Store};
use hex::FromHex;
use std::alloc::Global;

/// How many bytes a wire moves at once, and for how many there is room, where a case doesn't say it.
const PLENTY: u32 = 65_536;

/// How a run differs from what its case says.
#[derive(Clone, Copy)]
pub(crate) enum Turn {
    Whole,
    /// The call of the wire with this number, from 1, fails, and no other.
    FailsAt(u32),
    /// So many bytes of the input come.
    CutBehind(u32),
}

/// What a run leaves. A wire that never fails tells nothing.
#[derive(Drop)]
pub(crate) struct Ran {
    pub(crate) number: u8,
    pub(crate) wire: Option<MemWire>,
    pub(crate) spawner: MemSpawner,
    pub(crate) store: MemStore,
    pub(crate) trials: MemTrials,
    pub(crate) err: MemWire,
}

/// Runs the words of the case.
pub(crate) fn run_case(alloc: Global, case: Case, turn: Turn) -> Result<Ran, No> {
    let words = words_of(alloc, case)?;
    let seed = seed_of(alloc, case)?;
    let input = input_of(alloc, case, turn)?;
    let mut shelf = shelf_of(alloc, case)?;
    let fails = case.numbers(alloc, "sink fails")?;
    let mut err = MemWire::new(alloc, none(alloc), PLENTY, PLENTY, fails)?;
    let mut store = store_of(alloc, case)?;
    let mut spawner = roles(alloc, case)?;
    let mut trials = children(alloc, case)?;
    if case.is_set("unfailing wire")? {
        let mut wire = NeverFails::new(input);
        let number = unfailing_status(alloc, &words, &mut shelf, &mut wire, &mut err, seed);
        return Ok(Ran {
            number,
            wire: None,
            spawner,
            store,
            trials,
            err,
        });
    }
    let mut wire = wire_of(alloc, case, turn, input)?;
    let number = status_of(
        alloc,
        &words,
        &mut shelf,
        &mut spawner,
        &mut store,
        &mut trials,
        &mut wire,
        &mut err,
        seed,
    );
    Ok(Ran {
        number,
        wire: Some(wire),
        spawner,
        store,
        trials,
        err,
    })
}

/// The number of the status that comes of the words. A case needs nothing of what the call promises, and
/// without a contract none of it stands in the way of other proofs.
fn status_of(
    alloc: Global,
    words: &[Text],
    shelf: &mut MemShelf,
    spawner: &mut MemSpawner,
    store: &mut MemStore,
    trials: &mut MemTrials,
    wire: &mut MemWire,
    err: &mut MemWire,
    seed: Option<[u8; 32]>,
) -> u8
    requires unstarted { (role : ℕ) → (child_at spawner.old role).phase ≡ 0 }
    requires untried { (case : ℕ) → (trials_of trials.old case).phase ≡ 0 }
{
    let status = run_staging(alloc, words, shelf, spawner, store, trials, wire, err, seed);
    status.number()
}

/// The same over a wire that never fails.
fn unfailing_status(
    alloc: Global,
    words: &[Text],
    shelf: &mut MemShelf,
    wire: &mut NeverFails,
    err: &mut MemWire,
    seed: Option<[u8; 32]>,
) -> u8 {
    run_unfailing(alloc, words, shelf, wire, err, seed).number()
}

/// The words, of which `""` is the empty one. A space that a word has is written `\s`.
fn words_of(alloc: Global, case: Case) -> Result<Vec<Text>, No> {
    let Some(entry) = case.entry("words") else {
        return Err(No::Value("words"));
    };
    let mut words = Vec::new(alloc);
    for word in entry.value.split_whitespace() {
        let word = match word {
            "\"\"" => String::new(alloc),
            _ => filled(alloc, case.names, "words", word)?,
        };
        words.push(Text::new(word))?;
    }
    Ok(words)
}

/// The seed that is handed in: that of zero bytes where the case doesn't say it.
fn seed_of(alloc: Global, case: Case) -> Result<Option<[u8; 32]>, No> {
    let Some(entry) = case.entry("seed") else {
        return Ok(Some([0; 32]));
    };
    if entry.value.as_str() == "none" {
        return Ok(None);
    }
    match case.text(alloc, "seed")? {
        Some(digits) if entry.hex => match <[u8; 32] as FromHex>::from_hex(digits.as_str()) {
            Ok(seed) => Ok(Some(seed)),
            Err(_) => Err(No::Value("seed")),
        },
        _ => Err(No::Value("seed")),
    }
}

/// The files `n`, `v`, `t` and `r`. What is in `v` is in `v.values` too.
fn shelf_of(alloc: Global, case: Case) -> Result<MemShelf, No> {
    let mut files = Vec::new(alloc);
    files.push((name(alloc, "n")?, bytes_of(alloc, case, "n")?))?;
    files.push((name(alloc, "v")?, bytes_of(alloc, case, "v")?))?;
    files.push((name(alloc, "v.values")?, bytes_of(alloc, case, "v")?))?;
    files.push((name(alloc, "t")?, bytes_of(alloc, case, "t")?))?;
    files.push((name(alloc, "r")?, bytes_of(alloc, case, "r")?))?;
    let fails = case.numbers(alloc, "file fails")?;
    Ok(MemShelf::new(alloc, files, fails)?)
}

/// A store in which the files that are there before are kept, with nothing in them.
fn store_of(alloc: Global, case: Case) -> Result<MemStore, No> {
    let mut store = MemStore::new(alloc, case.numbers(alloc, "store fails")?);
    if let Some(there) = case.text(alloc, "there")? {
        for name in there.split_whitespace() {
            keep_empty(alloc, &mut store, name)?;
        }
    }
    Ok(store)
}

fn keep_empty(alloc: Global, store: &mut MemStore, name: &str) -> Result<(), No> {
    match store.replace(alloc, name, b"") {
        Ok(()) => Ok(()),
        Err(_) => Err(No::Value("there")),
    }
}

fn name(alloc: Global, name: &str) -> Result<Text, NoMemory>
    ensures { IfOk result (λ text. text ≡ name.now) }
{
    Ok(Text::new(String::from_str(alloc, name)?))
}

/// The bytes under this key, none where there is no such key.
fn bytes_of(alloc: Global, case: Case, key: &'static str) -> Result<Bytes, No> {
    match case.bytes(alloc, key)? {
        Some(bytes) => Ok(Bytes::new(bytes)),
        None => Ok(none(alloc)),
    }
}

fn none(alloc: Global) -> Bytes {
    Bytes::new(Vec::new(alloc))
}

/// What can be read.
fn input_of(alloc: Global, case: Case, turn: Turn) -> Result<Bytes, No> {
    let mut input = bytes_of(alloc, case, "input")?.into_vec();
    if let Turn::CutBehind(count) = turn {
        if count as usize > input.len() {
            return Err(No::Value("cut"));
        }
        input.truncate(count as usize);
    }
    Ok(Bytes::new(input))
}

fn wire_of(alloc: Global, case: Case, turn: Turn, input: Bytes) -> Result<MemWire, No> {
    let piece = case.number("piece")?.unwrap_or(PLENTY);
    let room = case.number("room")?.unwrap_or(PLENTY);
    if piece == 0 {
        return Err(No::Value("piece"));
    }
    let fails = match turn {
        Turn::FailsAt(call) => Vec::from_slice(alloc, &[call])?,
        _ => case.numbers(alloc, "wire fails")?,
    };
    Ok(MemWire::new(alloc, input, piece, room, fails)?)
}
