//! What a narration declares of a name.
ghost use Rattle.std.specs.Prelude.{◌≡◌, ◌≤◌, ◌||◌, List, ℕ, bytes_eq, length, map};
ghost use Rattle.anb_index.specs.Places.{among};
ghost use Rattle.anb_format.specs.Formats.{field_count};
ghost use Rattle.anb_syntax.specs.Views.{format_of, type_of};
ghost use Rattle.anb_protocol.specs.Checks.{names_format};
ghost use Rattle.anb_mistakes.specs.Items.{is_format, pieces_of, sort_of};

use anb_base::Text;
use anb_format::Piece;
use anb_syntax::{FormatItem, Sort, TypeItem};

pub(crate) fn is_same(a: &[u8], b: &[u8]) -> bool
    ensures { result ≡ bytes_eq a.now b.now }
{
    a == b
}

/// Whether a name is one of these.
fn among(names: &[Text], name: &[u8]) -> bool
    ensures { result ≡ among names.now name.now }
{
    for each in names {
        if is_same(each.as_str().as_bytes(), name) {
            return true;
        }
    }
    false
}

/// The sort of a name, where it has one.
pub(crate) fn sort_of(types: &[TypeItem], name: &[u8]) -> Option<Sort>
    ensures { result ≡ sort_of (map type_of types.now) name.now }
{
    for item in types {
        if among(item.names.as_slice(), name) {
            return Some(item.sort);
        }
    }
    None
}

/// Whether a format has this name.
pub(crate) fn is_format(formats: &[FormatItem], name: &[u8]) -> bool
    ensures { result ≡ is_format (map format_of formats.now) name.now }
{
    for item in formats {
        if is_same(item.name.as_str().as_bytes(), name) {
            return true;
        }
    }
    false
}

/// The pieces of the first format with this name.
pub(crate) fn pieces_of<'n>(formats: &'n [FormatItem], name: &[u8]) -> &'n [Piece]
    ensures { result.now ≡ pieces_of (map format_of formats.now) name.now }
{
    for item in formats {
        if is_same(item.name.as_str().as_bytes(), name) {
            return item.pieces.as_slice();
        }
    }
    &[]
}

/// How many fields pieces have.
pub(crate) fn field_count(pieces: &[Piece]) -> usize
    ensures fields { result ≡ field_count pieces.now }
    ensures most { result ≤ length pieces.now }
{
    let mut count = 0;
    for piece in pieces {
        match piece {
            Piece::Lit(_) => {}
            Piece::Field(_) => count += 1,
        }
    }
    count
}
