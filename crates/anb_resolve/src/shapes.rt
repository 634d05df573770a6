//! Formats that are misshapen or not apart.
ghost use Rattle.std.specs.Prelude.{◌≡◌, ◌<◌, ◌^◌, ◌++◌, ◌∷◌, [], List, length, map, take, IfOk, Some};
ghost use Rattle.std.specs.Option.{option_map};
ghost use Rattle.std.specs.List.{AllByRecursion};
ghost use Rattle.anb_format.specs.Formats.{FormatValue, IsSound};
ghost use Rattle.anb_syntax.specs.Grammar.{FormatItem as Item};
ghost use Rattle.anb_syntax.specs.Views.{format_of};
ghost use Rattle.anb_protocol.specs.declared.refusals.ResolveNo.TheVariants.{FormatShape};
ghost use Rattle.anb_protocol.specs.Choices.{first, first_after};
ghost use Rattle.anb_protocol.specs.Protocols.{format_value};
ghost use Rattle.anb_protocol.specs.Checks.{shape_fault, overlaps};

use anb_base::NoMemory;
use anb_format::{Format, FormatNo, apart, copy_pieces};
use anb_protocol::ResolveNo;
use anb_syntax::FormatItem;
use std::alloc::Global;

/// The first format whose pieces make none.
pub(crate) fn misshapen(
    alloc: Global,
    formats: &[FormatItem],
) -> Result<Option<ResolveNo>, NoMemory>
    requires { AllByRecursion (λ (f : Item). length f.pieces < 2 ^ 32) (map format_of formats.now) }
    ensures { IfOk result (λ no.
        no ≡ first (λ (f : Item). option_map (FormatShape f.title) (shape_fault f.pieces))
        (map format_of formats.now)) }
{
    for format in formats {
        match Format::check(&format.pieces) {
            Ok(()) => {}
            Err(no) => return misshapen_as(alloc, format, no),
        }
    }
    Ok(None)
}

fn misshapen_as(
    alloc: Global,
    format: &FormatItem,
    no: FormatNo,
) -> Result<Option<ResolveNo>, NoMemory>
    ensures { IfOk result (λ r. r ≡ Some (FormatShape format.now.name no)) }
{
    Ok(Some(ResolveNo::FormatShape(format.name.copy(alloc)?, no)))
}

/// The formats, in memory of their own.
pub(crate) fn formats_of(alloc: Global, items: &[FormatItem]) -> Result<Vec<Format>, NoMemory>
    requires few { AllByRecursion (λ (f : Item). length f.pieces < 2 ^ 32)
        (map format_of items.now) }
    requires sound { AllByRecursion (λ (f : Item). IsSound f.pieces) (map format_of items.now) }
    ensures { IfOk result (λ formats. formats.items ≡ map format_value (map format_of items.now)) }
{
    let mut formats = Vec::new(alloc);
    for item in items {
        formats.push(format_of(alloc, item)?)?;
    }
    Ok(formats)
}

fn format_of(alloc: Global, item: &FormatItem) -> Result<Format, NoMemory>
    requires few { length item.now.pieces.items < 2 ^ 32 }
    requires sound { IsSound item.now.pieces.items }
    ensures { IfOk result (λ format. format ≡ format_value (format_of item.now)) }
{
    let pieces = copy_pieces(alloc, &item.pieces)?;
    Ok(Format::new(item.name.copy(alloc)?, pieces))
}

/// The first two formats that aren't apart, by the later one and then the earlier one.
pub(crate) fn overlap(alloc: Global, formats: &[Format]) -> Result<Option<ResolveNo>, NoMemory>
    ensures { IfOk result (λ no. no ≡ first_after overlaps [] formats.now) }
{
    for (i, format) in formats.iter().enumerate() {
        let overlap = overlap_with(alloc, &formats[..i], format)?;
        match overlap {
            Some(no) => return Ok(Some(no)),
            None => {}
        }
    }
    Ok(None)
}

/// The first of these formats that isn't apart from a later one.
fn overlap_with(
    alloc: Global,
    before: &[Format],
    format: &Format,
) -> Result<Option<ResolveNo>, NoMemory>
    ensures { IfOk result (λ no. no ≡ overlaps before.now format.now) }
{
    for other in before {
        if !apart(other, format) {
            let names = (other.name().copy(alloc)?, format.name().copy(alloc)?);
            return Ok(Some(ResolveNo::Overlap(names.0, names.1)));
        }
    }
    Ok(None)
}
