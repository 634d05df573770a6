//! Names that are declared twice, not at all, or used as something else.
ghost use Rattle.std.specs.Prelude.{◌≡◌, ◌==◌, not, [], map, IfOk, IfNone};
ghost use Rattle.std.specs.List.{list_any};
ghost use Rattle.std.specs.Str.{bytes_eq};
ghost use Rattle.anb_index.specs.Places.{among};
ghost use Rattle.anb_format.specs.Formats.{field_count};
ghost use Rattle.anb_syntax.specs.Grammar.{FormatItem as Item};
ghost use Rattle.anb_syntax.specs.Views.{format_of, narration_of};
ghost use Rattle.anb_protocol.specs.declared.refusals.ResolveNo.TheVariants.{Unknown, WrongSort, WrongCount};
ghost use Rattle.anb_protocol.specs.Choices.{refuse_if, first};
ghost use Rattle.anb_protocol.specs.Names.{used_name, declared_names, uses as uses_in, atoms as atoms_in};
ghost use Rattle.anb_protocol.specs.Checks.{first_fault, name_checks, twice_among, names_format, is_missorted, has_count, is_miscounted};
ghost use Rattle.anb_protocol.specs.Views.{pointed};
ghost use Rattle.anb_resolve.specs.Uses.{use_of};

use crate::atoms::AtomIndex;
use crate::limits::field_count;
use crate::uses::{Use, line_names};
use anb_base::{NoMemory, Text};
use anb_index::TextIndex;
use anb_protocol::ResolveNo;
use anb_syntax::{FormatItem, Narration};
use std::alloc::Global;

/// The first name that is declared or used wrongly, where these are the declared names, the atoms and
/// the uses of names.
pub(crate) fn name_fault(
    alloc: Global,
    n: &Narration,
    declared: &[&Text],
    atoms: &AtomIndex,
    uses: &[Use],
) -> Result<Option<ResolveNo>, NoMemory>
    requires declared { pointed declared.now ≡ declared_names (narration_of n.now) }
    requires atoms { atoms.now ≡ atoms_in (narration_of n.now) }
    requires uses { map use_of uses.now ≡ uses_in (narration_of n.now) }
    ensures { IfOk result (λ no. no ≡ first_fault name_checks (narration_of n.now)) }
{
    let mut names = TextIndex::new(alloc);
    match twice(alloc, &mut names, declared)? {
        Some(no) => return Ok(Some(no)),
        None => {}
    }
    let mut heads = TextIndex::new(alloc);
    match twice(alloc, &mut heads, &line_names(alloc, n)?)? {
        Some(no) => return Ok(Some(no)),
        None => {}
    }
    match unknown(alloc, &names, uses)? {
        Some(no) => return Ok(Some(no)),
        None => {}
    }
    match wrong_sort(alloc, atoms, &n.formats, uses)? {
        Some(no) => return Ok(Some(no)),
        None => {}
    }
    wrong_count(alloc, &n.formats, uses)
}

/// The first of these names that is one of those before it. They go into an empty list.
fn twice<'a>(
    alloc: Global,
    seen: &mut TextIndex<'a>,
    names: &[&'a Text],
) -> Result<Option<ResolveNo>, NoMemory>
    requires { seen.old ≡ [] }
    ensures first { IfOk result (λ no. no ≡ twice_among (pointed names.now)) }
    ensures seen { IfOk result (λ no. IfNone no (seen.new ≡ pointed names.now)) }
{
    for name in names {
        if seen.push(name.as_str())? {
            return Ok(Some(ResolveNo::Twice(name.copy(alloc)?)));
        }
    }
    Ok(None)
}

/// The first use of a name that isn't declared.
fn unknown(alloc: Global, declared: &TextIndex, uses: &[Use]) -> Result<Option<ResolveNo>, NoMemory>
    ensures { IfOk result (λ no.
        no ≡ first (λ u. refuse_if (not (among declared.now (used_name u))) (Unknown (used_name u)))
        (map use_of uses.now)) }
{
    for used in uses {
        if !declared.contains(used.name().as_str()) {
            return Ok(Some(ResolveNo::Unknown(used.name().copy(alloc)?)));
        }
    }
    Ok(None)
}

/// The first use of a name that is of another sort.
fn wrong_sort(
    alloc: Global,
    atoms: &AtomIndex,
    formats: &[FormatItem],
    uses: &[Use],
) -> Result<Option<ResolveNo>, NoMemory>
    ensures { IfOk result (λ no.
        no ≡ first (λ u. refuse_if (is_missorted atoms.now (map format_of formats.now) u)
        (WrongSort (used_name u))) (map use_of uses.now)) }
{
    for used in uses {
        if is_missorted(atoms, formats, *used) {
            return Ok(Some(ResolveNo::WrongSort(used.name().copy(alloc)?)));
        }
    }
    Ok(None)
}

fn is_missorted(atoms: &AtomIndex, formats: &[FormatItem], used: Use) -> bool
    ensures { result ≡ is_missorted atoms.now (map format_of formats.now) (use_of used.entry) }
{
    match used {
        Use::Role(name) => !atoms.has_agent(name),
        Use::Atom(name) => names_format(formats, name),
        Use::Format(name, _) => !names_format(formats, name),
    }
}

fn names_format(formats: &[FormatItem], name: &Text) -> bool
    ensures { result ≡ names_format (map format_of formats.now) name.now }
{
    for format in formats {
        if format.name.as_str() == name.as_str() {
            return true;
        }
    }
    false
}

/// The first format with another number of arguments than fields.
fn wrong_count(
    alloc: Global,
    formats: &[FormatItem],
    uses: &[Use],
) -> Result<Option<ResolveNo>, NoMemory>
    ensures { IfOk result (λ no.
        no ≡ first (λ u. refuse_if (is_miscounted (map format_of formats.now) u)
        (WrongCount (used_name u))) (map use_of uses.now)) }
{
    for used in uses {
        if is_miscounted(formats, *used) {
            return Ok(Some(ResolveNo::WrongCount(used.name().copy(alloc)?)));
        }
    }
    Ok(None)
}

fn is_miscounted(formats: &[FormatItem], used: Use) -> bool
    ensures { result ≡ is_miscounted (map format_of formats.now) (use_of used.entry) }
{
    match used {
        Use::Format(name, count) => !counts_fields(formats, name, count),
        Use::Role(_) | Use::Atom(_) => false,
    }
}

/// Whether the first format of this name has so many fields.
fn counts_fields(formats: &[FormatItem], name: &Text, count: usize) -> bool
    ensures { result ≡ has_count (map format_of formats.now) name.now count }
{
    for format in formats {
        if format.name.as_str() == name.as_str() {
            return field_count(&format.pieces) == count;
        }
    }
    false
}
