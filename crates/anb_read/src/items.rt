//! Reads the items of the sections.

ghost use Rattle.std.specs.Prelude.{◌≡◌, ◌≤◌, List, ℕ, length, map};
ghost use Rattle.anb_base.specs.declared.TheConstants.{SMALL_FILE};
ghost use Rattle.anb_syntax.specs.Grammar as grammar;
ghost use Rattle.anb_syntax.specs.Views.{type_of, format_of, know_of, action_of};
ghost use Rattle.anb_format.specs.declared.pieces.Piece as pieces;
ghost use Rattle.anb_read.specs.Productions.{is_comma, is_piece, is_sort, is_some_name, comma_name_at, names_at, piece_at, type_at, format_at, know_at, action_at};
ghost use Rattle.anb_read.specs.Places.{toks, Finds};

use crate::lists::{Listed, many};
use crate::places::Place;
use crate::refusal::ReadNo;
use crate::single::{expect_sign, is_piece, is_sign, is_some_name, name, piece, sort, sort_of};
use crate::terms::{term, terms};
use anb_base::Text;
use anb_format::Piece;
use anb_syntax::{ActionItem, FormatItem, KnowItem, TypeItem};
use std::alloc::Global;

/// How many levels a term may have.
const LEVELS: u8 = 64;

/// A name behind a comma.
impl Listed for Text {
    ghost Told = { List ℕ };

    ghost view = { λ name. name };

    ghost starts = { is_comma };

    ghost item_at = { comma_name_at };

    fn begins(text: &[u8], places: &[Place]) -> bool {
        is_sign(b',', text, places)
    }

    #[tactic(auto, unfolding(crate::specs::Productions::comma_name_at))]
    fn read<'p>(
        alloc: Global,
        text: &[u8],
        places: &'p [Place],
    ) -> Result<(Self, &'p [Place]), ReadNo> {
        let places = expect_sign(b',', text, places)?;
        name(alloc, text, places)
    }
}

/// Reads names with commas between them, one at least.
#[tactic(auto, unfolding(crate::specs::Productions::names_at))]
fn names<'p>(
    alloc: Global,
    text: &[u8],
    places: &'p [Place],
) -> Result<(Vec<Text>, &'p [Place]), ReadNo>
    requires { length text.now ≤ SMALL_FILE }
    ensures { Finds (λ x. (x.0.items, toks text.now x.1.now)) result
        (names_at (toks text.now places.now)) }
{
    let (first, places) = name(alloc, text, places)?;
    let mut names = Vec::new(alloc);
    names.push(first)?;
    many(alloc, names, text, places)
}

impl Listed for TypeItem {
    ghost Told = { grammar.TypeItem };

    ghost view = { type_of };

    ghost starts = { is_sort };

    ghost item_at = { type_at };

    fn begins(text: &[u8], places: &[Place]) -> bool {
        sort_of(text, places).is_some()
    }

    #[tactic(auto, unfolding(crate::specs::Productions::type_at))]
    fn read<'p>(
        alloc: Global,
        text: &[u8],
        places: &'p [Place],
    ) -> Result<(Self, &'p [Place]), ReadNo> {
        let (sort, places) = sort(text, places)?;
        let (names, places) = names(alloc, text, places)?;
        let places = expect_sign(b';', text, places)?;
        Ok((TypeItem { sort, names }, places))
    }
}

impl Listed for Piece {
    ghost Told = { pieces.Piece };

    ghost view = { λ piece. piece };

    ghost starts = { is_piece };

    ghost item_at = { piece_at };

    fn begins(text: &[u8], places: &[Place]) -> bool {
        is_piece(text, places)
    }

    fn read<'p>(
        alloc: Global,
        text: &[u8],
        places: &'p [Place],
    ) -> Result<(Self, &'p [Place]), ReadNo> {
        piece(alloc, text, places)
    }
}

impl Listed for FormatItem {
    ghost Told = { grammar.FormatItem };

    ghost view = { format_of };

    ghost starts = { is_some_name };

    ghost item_at = { format_at };

    fn begins(text: &[u8], places: &[Place]) -> bool {
        is_some_name(text, places)
    }

    #[tactic(auto, unfolding(crate::specs::Productions::format_at))]
    fn read<'p>(
        alloc: Global,
        text: &[u8],
        places: &'p [Place],
    ) -> Result<(Self, &'p [Place]), ReadNo> {
        let (name, places) = name(alloc, text, places)?;
        let places = expect_sign(b'=', text, places)?;
        let (pieces, places) = many(alloc, Vec::new(alloc), text, places)?;
        let places = expect_sign(b';', text, places)?;
        Ok((FormatItem { name, pieces }, places))
    }
}

impl Listed for KnowItem {
    ghost Told = { grammar.KnowItem };

    ghost view = { know_of };

    ghost starts = { is_some_name };

    ghost item_at = { know_at 64 };

    fn begins(text: &[u8], places: &[Place]) -> bool {
        is_some_name(text, places)
    }

    #[tactic(auto, unfolding(crate::specs::Productions::know_at))]
    fn read<'p>(
        alloc: Global,
        text: &[u8],
        places: &'p [Place],
    ) -> Result<(Self, &'p [Place]), ReadNo> {
        let (role, places) = name(alloc, text, places)?;
        let places = expect_sign(b':', text, places)?;
        let (terms, places) = terms(alloc, LEVELS, b';', text, places)?;
        Ok((KnowItem { role, terms }, places))
    }
}

impl Listed for ActionItem {
    ghost Told = { grammar.ActionItem };

    ghost view = { action_of };

    ghost starts = { is_some_name };

    ghost item_at = { action_at 64 };

    fn begins(text: &[u8], places: &[Place]) -> bool {
        is_some_name(text, places)
    }

    #[tactic(auto, unfolding(crate::specs::Productions::action_at))]
    fn read<'p>(
        alloc: Global,
        text: &[u8],
        places: &'p [Place],
    ) -> Result<(Self, &'p [Place]), ReadNo> {
        let (from, places) = name(alloc, text, places)?;
        let places = expect_sign(b'-', text, places)?;
        let (to, places) = name(alloc, text, places)?;
        let places = expect_sign(b':', text, places)?;
        let (message, places) = term(alloc, LEVELS, text, places)?;
        let places = expect_sign(b';', text, places)?;
        Ok((ActionItem { from, to, message }, places))
    }
}
