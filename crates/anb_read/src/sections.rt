//! Reads the sections of a narration.

ghost use Rattle.std.specs.Prelude.{◌≡◌, ◌≤◌, length, map, option_map};
ghost use Rattle.anb_base.specs.declared.TheConstants.{SMALL_FILE};
ghost use Rattle.anb_syntax.specs.Words.{suite_word, formats_word, knowledge_word};
ghost use Rattle.anb_syntax.specs.Grammar.{told};
ghost use Rattle.anb_syntax.specs.Views.{type_of, format_of, know_of, action_of, narration_of};
ghost use Rattle.anb_read.specs.Productions.{heading_at, title_at, suite_section, types_section, formats_section, knows_section, actions_section, ending_at, optional, is_word, narration_at};
ghost use Rattle.anb_read.specs.Places.{toks, Finds};
ghost use Rattle.anb_read.specs.Tellings.{written_of};

use crate::lists::many;
use crate::places::Place;
use crate::refusal::ReadNo;
use crate::single::{expect_end, expect_sign, expect_word, is_word, name, suite};
use anb_base::{Suite, Text};
use anb_syntax::{ActionItem, FormatItem, KnowItem, Narration, TypeItem};
use std::alloc::Global;

/// A narration as it is written, where a section may be left out.
#[derive(Drop)]
pub(crate) struct Written {
    pub(crate) name: Text,
    pub(crate) suite: Option<Suite>,
    pub(crate) types: Vec<TypeItem>,
    pub(crate) formats: Option<Vec<FormatItem>>,
    pub(crate) knows: Option<Vec<KnowItem>>,
    pub(crate) actions: Vec<ActionItem>,
    /// Whether goals stand behind it, which are not read.
    pub(crate) goals: bool,
}

/// The narration that is written so.
pub(crate) fn told(alloc: Global, written: Written) -> Narration
    ensures { narration_of result ≡ told (written_of written) }
{
    let Written {
        name,
        suite,
        types,
        formats,
        knows,
        actions,
        goals: _,
    } = written;
    let suite = match suite {
        Some(suite) => suite,
        None => Suite::One,
    };
    let formats = match formats {
        Some(formats) => formats,
        None => Vec::new(alloc),
    };
    let knows = match knows {
        Some(knows) => knows,
        None => Vec::new(alloc),
    };
    Narration {
        name,
        suite,
        types,
        formats,
        knows,
        actions,
    }
}

/// Passes the word of a section and its colon.
#[tactic(auto, unfolding(crate::specs::Productions::heading_at))]
fn heading<'p>(word: &[u8], text: &[u8], places: &'p [Place]) -> Result<&'p [Place], ReadNo>
    ensures { Finds (λ r. (tt, toks text.now r.now)) result
        (heading_at word.now (toks text.now places.now)) }
{
    let places = expect_word(word, text, places)?;
    expect_sign(b':', text, places)
}

/// Reads the protocol's name.
#[tactic(auto, unfolding(crate::specs::Productions::title_at))]
fn title<'p>(alloc: Global, text: &[u8], places: &'p [Place]) -> Result<(Text, &'p [Place]), ReadNo>
    ensures { Finds (λ x. (x.0, toks text.now x.1.now)) result
        (title_at (toks text.now places.now)) }
{
    let places = heading(b"Protocol", text, places)?;
    let (name, places) = name(alloc, text, places)?;
    let places = expect_sign(b';', text, places)?;
    Ok((name, places))
}

/// Reads the suite, where it is told.
#[tactic(auto, unfolding(crate::specs::Productions::optional, crate::specs::Productions::suite_section))]
fn told_suite<'p>(text: &[u8], places: &'p [Place]) -> Result<(Option<Suite>, &'p [Place]), ReadNo>
    ensures { Finds (λ x. (x.0, toks text.now x.1.now)) result
        (optional (is_word suite_word) suite_section (toks text.now places.now)) }
{
    if !is_word(b"Suite", text, places) {
        return Ok((None, places));
    }
    let places = heading(b"Suite", text, places)?;
    let (suite, places) = suite(text, places)?;
    let places = expect_sign(b';', text, places)?;
    Ok((Some(suite), places))
}

/// Reads the types.
#[tactic(auto, unfolding(crate::specs::Productions::types_section))]
fn types<'p>(
    alloc: Global,
    text: &[u8],
    places: &'p [Place],
) -> Result<(Vec<TypeItem>, &'p [Place]), ReadNo>
    requires { length text.now ≤ SMALL_FILE }
    ensures { Finds (λ x. (map type_of x.0.items, toks text.now x.1.now)) result
        (types_section (toks text.now places.now)) }
{
    let places = heading(b"Types", text, places)?;
    many(alloc, Vec::new(alloc), text, places)
}

/// Reads the formats, where they are told.
#[tactic(auto, unfolding(crate::specs::Productions::optional, crate::specs::Productions::formats_section))]
fn formats<'p>(
    alloc: Global,
    text: &[u8],
    places: &'p [Place],
) -> Result<(Option<Vec<FormatItem>>, &'p [Place]), ReadNo>
    requires { length text.now ≤ SMALL_FILE }
    ensures { Finds (λ x. (option_map (λ is. map format_of is.items) x.0, toks text.now x.1.now))
        result (optional (is_word formats_word) formats_section (toks text.now places.now)) }
{
    if !is_word(b"Formats", text, places) {
        return Ok((None, places));
    }
    let places = heading(b"Formats", text, places)?;
    let (formats, places) = many(alloc, Vec::new(alloc), text, places)?;
    Ok((Some(formats), places))
}

/// Reads the knowledge, where it is told.
#[tactic(auto, unfolding(crate::specs::Productions::optional, crate::specs::Productions::knows_section))]
fn knows<'p>(
    alloc: Global,
    text: &[u8],
    places: &'p [Place],
) -> Result<(Option<Vec<KnowItem>>, &'p [Place]), ReadNo>
    requires { length text.now ≤ SMALL_FILE }
    ensures { Finds (λ x. (option_map (λ is. map know_of is.items) x.0, toks text.now x.1.now))
        result (optional (is_word knowledge_word) (knows_section 64) (toks text.now places.now)) }
{
    if !is_word(b"Knowledge", text, places) {
        return Ok((None, places));
    }
    let places = heading(b"Knowledge", text, places)?;
    let (knows, places) = many(alloc, Vec::new(alloc), text, places)?;
    Ok((Some(knows), places))
}

/// Reads the actions.
#[tactic(auto, unfolding(crate::specs::Productions::actions_section))]
fn actions<'p>(
    alloc: Global,
    text: &[u8],
    places: &'p [Place],
) -> Result<(Vec<ActionItem>, &'p [Place]), ReadNo>
    requires { length text.now ≤ SMALL_FILE }
    ensures { Finds (λ x. (map action_of x.0.items, toks text.now x.1.now)) result
        (actions_section 64 (toks text.now places.now)) }
{
    let places = heading(b"Actions", text, places)?;
    many(alloc, Vec::new(alloc), text, places)
}

/// Reads the end, or the word and the sign behind which nothing is looked at.
#[tactic(auto, unfolding(crate::specs::Productions::ending_at, crate::specs::Productions::goals_at, crate::specs::Productions::end_at))]
fn ending<'p>(text: &[u8], places: &'p [Place]) -> Result<(bool, &'p [Place]), ReadNo>
    ensures { Finds (λ x. (x.0, toks text.now x.1.now)) result
        (ending_at (toks text.now places.now)) }
{
    if is_word(b"Goals", text, places) {
        let places = heading(b"Goals", text, places)?;
        return Ok((true, places));
    }
    let places = expect_end(text, places)?;
    Ok((false, places))
}

/// Reads a narration.
#[tactic(auto, unfolding(crate::specs::Productions::narration_at))]
pub(crate) fn narration<'p>(
    alloc: Global,
    text: &[u8],
    places: &'p [Place],
) -> Result<(Written, &'p [Place]), ReadNo>
    requires { length text.now ≤ SMALL_FILE }
    ensures { Finds (λ x. (written_of x.0, toks text.now x.1.now)) result
        (narration_at 64 (toks text.now places.now)) }
{
    let (name, places) = title(alloc, text, places)?;
    let (suite, places) = told_suite(text, places)?;
    let (types, places) = types(alloc, text, places)?;
    let (formats, places) = formats(alloc, text, places)?;
    let (knows, places) = knows(alloc, text, places)?;
    let (actions, places) = actions(alloc, text, places)?;
    let (goals, places) = ending(text, places)?;
    Ok((
        Written {
            name,
            suite,
            types,
            formats,
            knows,
            actions,
            goals,
        },
        places,
    ))
}
