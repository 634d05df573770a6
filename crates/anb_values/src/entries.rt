//! Labels against the names that are asked for, and the values of these.
ghost use Rattle.std.specs.Prelude.{◌≡◌, ◌∷◌, ◌++◌, ℕ, List, [], All, length, map, option_copied, Some, IfOk, IfErr, OnOk};
ghost use Rattle.anb_values.specs.Fit.{labels_of, line_faults, lines_faults, missing, value_of};
ghost use Rattle.anb_values.specs.Lines.{seed_label};
ghost use Rattle.anb_values.specs.Reading.{IsFirst};

use crate::ValuesNo;
use crate::lines::{Entry, SEED};
use anb_base::{ARRIVAL, Bytes, NoMemory, Text};
use anb_index::TextIndex;
use std::alloc::Global;

/// Each label is asked for and has one line, and no value is too long. Gives the labels.
pub(crate) fn check<'a>(
    alloc: Global,
    entries: &'a [Entry],
    names: &[Text],
) -> Result<TextIndex<'a>, ValuesNo>
    ensures fine { OnOk result (lines_faults (seed_label ∷ names.now) [] entries.now ≡ []) }
    ensures labels { IfOk result (λ labels. labels ≡ labels_of entries.now) }
    ensures refused { IfErr result
        (IsFirst (lines_faults (seed_label ∷ names.now) [] entries.now)) }
{
    let asked = asked_labels(alloc, names)?;
    let mut labels = TextIndex::new(alloc);
    for entry in entries {
        check_entry(alloc, &mut labels, entry, &asked)?;
    }
    Ok(labels)
}

/// The labels that are asked for.
fn asked_labels<'a>(alloc: Global, names: &'a [Text]) -> Result<TextIndex<'a>, NoMemory>
    ensures { IfOk result (λ asked. asked ≡ seed_label ∷ names.now) }
{
    let mut asked = TextIndex::new(alloc);
    asked.push(SEED)?;
    for name in names {
        asked.push(name.as_str())?;
    }
    Ok(asked)
}

/// Checks one line more, where these are the labels of those before it.
fn check_entry<'a>(
    alloc: Global,
    labels: &mut TextIndex<'a>,
    entry: &'a Entry,
    asked: &TextIndex,
) -> Result<(), ValuesNo>
    ensures fine { OnOk result (line_faults asked.now labels.old entry.now ≡ []) }
    ensures labels { OnOk result (labels.new ≡ labels.old ++ entry.now.label ∷ []) }
    ensures refused { IfErr result (IsFirst (line_faults asked.now labels.old entry.now)) }
{
    let label = entry.label.as_str();
    if !asked.contains(label) {
        return Err(ValuesNo::Extra(entry.label.copy(alloc)?));
    }
    if labels.push(label)? {
        return Err(ValuesNo::Twice(entry.label.copy(alloc)?));
    }
    if entry.value.as_slice().len() > ARRIVAL as usize {
        return Err(ValuesNo::Long(entry.label.copy(alloc)?));
    }
    Ok(())
}

/// The value of the first line with this label, where these are the labels of the lines.
fn value_of<'a>(entries: &'a [Entry], labels: &TextIndex, label: &str) -> Option<&'a Bytes>
    requires { labels.now ≡ labels_of entries.now }
    ensures { option_copied result ≡ value_of entries.now label.now }
{
    let place = labels.place_of(label)?;
    let entry = entries.get(place)?;
    Some(&entry.value)
}

/// The values of the names, in their order, where these are the labels of the lines.
pub(crate) fn values_of(
    alloc: Global,
    entries: &[Entry],
    labels: &TextIndex,
    names: &[Text],
) -> Result<Vec<Bytes>, ValuesNo>
    requires { labels.now ≡ labels_of entries.now }
    ensures none_missing { OnOk result (missing names.now entries.now ≡ []) }
    ensures values { IfOk result (λ values.
        map Some values.items ≡ map (value_of entries.now) names.now) }
    ensures refused { IfErr result (IsFirst (missing names.now entries.now)) }
{
    let mut values = Vec::new(alloc);
    for name in names {
        let Some(value) = value_of(entries, labels, name.as_str()) else {
            return Err(ValuesNo::Missing(name.copy(alloc)?));
        };
        values.push(value.copy(alloc)?)?;
    }
    Ok(values)
}

/// The seed, where these are the labels of the lines.
pub(crate) fn seed_of(entries: &[Entry], labels: &TextIndex) -> Option<[u8; 32]>
    requires labels { labels.now ≡ labels_of entries.now }
    requires whole { All (λ entry. entry.label ≡ seed_label → length entry.value ≡ 32) entries.now }
    ensures { result ≡ value_of entries.now seed_label }
{
    let value = value_of(entries, labels, SEED)?;
    let mut seed = [0; 32];
    seed.copy_from_slice(value.as_slice());
    Some(seed)
}
