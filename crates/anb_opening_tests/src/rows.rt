//! Values that are spoilt in the way of each row.
use anb_base::{Bytes, NoMemory, Text};
use anb_format::{FieldKind, Format, Piece};
use anb_spoil::{Wrong, rows_of, wrong_for};
use std::alloc::Global;
use std::process::Abort;
use std::test::Fail;

/// The literal `C` and one `len`.
fn challenge(alloc: Global) -> Result<Format, NoMemory> {
    let literal = Piece::Lit(Bytes::new(Vec::from_slice(alloc, b"C")?));
    let pieces = vec![in alloc; literal, Piece::Field(FieldKind::Len)]?;
    Ok(Format::new(Text::new(String::new(alloc)), pieces))
}

/// What the rows make of `C`, 1 and `x`: by the definition of LEB128 and of the format.
const SPOILT: [&[u8]; 4] = [b"B\x01x", b"C\x81\x00x", b"C\x02x", b"C\x01x\x00"];

#[test]
fn each_row_spoils_a_challenge(rt: HostRuntime) -> Result<(), Fail> {
    let alloc = rt.alloc();
    let formats = vec![in alloc; challenge(alloc)?]?;
    let rows = rows_of(alloc, &formats[0])?;
    assert_eq!(&rt; rows.len(), SPOILT.len());
    for (i, row) in rows.iter().enumerate() {
        let wrong = wrong_for(alloc, &formats, Wrong::Spoilt(0, *row), b"C\x01x")?;
        assert_made(&rt, wrong, SPOILT[i]);
    }
    Ok(())
}

#[test]
fn other_bytes_arent_spoilt(rt: HostRuntime) -> Result<(), Fail> {
    let alloc = rt.alloc();
    let formats = vec![in alloc; challenge(alloc)?]?;
    let rows = rows_of(alloc, &formats[0])?;
    for row in &rows {
        assert!(&rt; wrong_for(alloc, &formats, Wrong::Spoilt(0, *row), b"D\x01x")?.is_none());
        assert!(&rt; wrong_for(alloc, &formats, Wrong::Spoilt(1, *row), b"C\x01x")?.is_none());
    }
    Ok(())
}

/// Asserts that these bytes were made.
fn assert_made(rt: &impl Abort, wrong: Option<Bytes>, expected: &[u8]) {
    match wrong {
        Some(bytes) => assert_eq!(rt; bytes.as_slice(), expected),
        None => panic!(rt; "nothing was made"),
    }
}
