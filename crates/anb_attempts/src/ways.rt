//! In what ways the bytes that an opening takes apart are made wrong.
ghost use Rattle.std.specs.Prelude.{◌≡◌, ◌++◌, ◌∷◌, [], map, filter, IfOk, OnOk};
ghost use Rattle.anb_attempts.specs.Attempts.{format_ways, is_tried, lack_by, lack_of_piece, tag_ways, ways_of, Lacks};
ghost use Rattle.anb_verdict.specs.Places.{place_value};

use crate::placing::copy_of;
use anb_base::NoMemory;
use anb_format::Format;
use anb_protocol::Protocol;
use anb_spoil::{Change, Row, Spoiling, Wrong, is_default, rows_of};
use anb_verdict::{Missing, Place};
use std::alloc::Global;

/// The ways to make bytes wrong that a role takes apart, where they are of the format at this place; or
/// sealed bytes.
pub(crate) fn ways_of(
    alloc: Global,
    p: &Protocol,
    all: bool,
    parsed: Option<u16>,
) -> Result<Vec<Wrong>, NoMemory>
    ensures { IfOk result (λ ways. ways.items ≡ ways_of p.now all parsed) }
{
    match parsed {
        None => tag_ways(alloc, all),
        Some(place) => match p.formats().get(place as usize) {
            Some(format) => format_ways(alloc, all, place, format),
            None => Ok(Vec::new(alloc)),
        },
    }
}

/// Those of bytes of a format: a row each.
fn format_ways(
    alloc: Global,
    all: bool,
    place: u16,
    format: &Format,
) -> Result<Vec<Wrong>, NoMemory>
    ensures { IfOk result (λ ways. ways.items ≡ format_ways all place format.now.pieces) }
{
    let rows = rows_of(alloc, format)?;
    let mut ways = Vec::new(alloc);
    put_ways(&mut ways, all, place, format, &rows)?;
    Ok(ways)
}

/// Appends the ways of these rows, as far as they are tried.
fn put_ways(
    ways: &mut Vec<Wrong>,
    all: bool,
    place: u16,
    format: &Format,
    rows: &[Row],
) -> Result<(), NoMemory>
    ensures { OnOk result (ways.new.items ≡ ways.old.items
        ++ map (Wrong.Spoilt place) (filter (is_tried all format.now.pieces) rows.now)) }
{
    for row in rows {
        put_way(ways, all, place, format, *row)?;
    }
    Ok(())
}

/// Appends the way of a row, where it is tried.
fn put_way(
    ways: &mut Vec<Wrong>,
    all: bool,
    place: u16,
    format: &Format,
    row: Row,
) -> Result<(), NoMemory>
    ensures { OnOk result (ways.new.items ≡ ways.old.items
        ++ map (Wrong.Spoilt place) (filter (is_tried all format.now.pieces) (row ∷ []))) }
{
    if is_tried(all, format, row) {
        ways.push(Wrong::Spoilt(place, row))?;
    }
    Ok(())
}

/// Whether a row is tried.
fn is_tried(all: bool, format: &Format, row: Row) -> bool
    ensures { result ≡ is_tried all format.now.pieces row }
{
    all || is_default(format, row)
}

/// Those of sealed bytes that get no false tag: the last byte is one of the body where there is any, and
/// the first one always one of the tag.
fn tag_ways(alloc: Global, all: bool) -> Result<Vec<Wrong>, NoMemory>
    ensures { IfOk result (λ ways. ways.items ≡ tag_ways all) }
{
    let last = Wrong::Changed(Change::LastByte);
    if all {
        return Ok(vec![in alloc; last, Wrong::Changed(Change::FirstByte)]?);
    }
    Ok(vec![in alloc; last]?)
}

/// What a program lacks that takes what is made wrong so at a place.
pub(crate) fn lack_by(alloc: Global, way: Wrong, place: &Place) -> Result<Option<Missing>, NoMemory>
    ensures { IfOk result (Lacks (place_value place.now) way) }
{
    let copy = copy_of(alloc, place)?;
    Ok(lack_at(way, copy))
}

fn lack_at(way: Wrong, place: Place) -> Option<Missing>
    ensures { result ≡ lack_by way place }
{
    match way {
        Wrong::Changed(_change) => Some(Missing::Tag(place)),
        Wrong::Spoilt(_format, Row::At(_place, spoiling)) => lack_of_piece(spoiling, place),
        Wrong::Spoilt(_format, Row::Behind) => Some(Missing::BytesBehind),
        Wrong::FalseTag(_suite, _way, _format) => Some(Missing::Tag(place)),
    }
}

/// The same of a piece that is written so. Where it is a sign beside a field, or the digits of one, the
/// title of the attempt says it.
fn lack_of_piece(spoiling: Spoiling, place: Place) -> Option<Missing>
    ensures { result ≡ lack_of_piece spoiling place }
{
    match spoiling {
        Spoiling::OtherByte => Some(Missing::Literal(place)),
        Spoiling::LongLength | Spoiling::LeadingZero => Some(Missing::NotMinimal),
        Spoiling::LengthBeyond => Some(Missing::BeyondEnd),
        Spoiling::Semicolon | Spoiling::Dot | Spoiling::Comma | Spoiling::Capitals => None,
    }
}
