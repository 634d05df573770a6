//! Marks by number: which of the numbers below a count stand in some list.
ghost use Rattle.std.specs.Prelude.{◌≡◌, ◌∷◌, ◌-◌, ◌≤◌, [], replicate, false, true, slice_index_or, if◌then◌else◌, IfOk};
ghost use Rattle.std.specs.List.{range_with_len};
ghost use Rattle.anb_protocol.specs.Seen.{marked};
ghost use Rattle.anb_report.specs.Looking.{repeated};

use anb_base::NoMemory;
use std::alloc::Global;

/// Marks for numbers below a count, where these are marked.
pub(crate) fn marks_of(alloc: Global, count: u32, numbers: &[u32]) -> Result<Vec<bool>, NoMemory>
    ensures { IfOk result (λ marks. marks.items ≡ marked (replicate count false) numbers.now) }
{
    let mut marks = vec![in alloc; false; count as usize]?;
    mark_all(&mut marks, numbers);
    Ok(marks)
}

/// Marks for numbers below a count, where those are marked that stand in a list more than once.
pub(crate) fn marks_of_repeated(
    alloc: Global,
    count: u32,
    numbers: &[u32],
) -> Result<Vec<bool>, NoMemory>
    ensures { IfOk result (λ marks.
        marks.items ≡ marked (replicate count false) (repeated numbers.now)) }
{
    let mut once = vec![in alloc; false; count as usize]?;
    let mut twice = vec![in alloc; false; count as usize]?;
    let many = numbers.len();
    for k in 0..many {
        mark_again(&mut once, &mut twice, numbers[many - 1 - k]);
    }
    Ok(twice)
}

/// Marks a number, and where it was marked, in the second marks too.
fn mark_again(once: &mut Vec<bool>, twice: &mut Vec<bool>, n: u32)
    ensures once { once.new.items ≡ marked once.old.items (n ∷ []) }
    ensures twice { twice.new.items ≡ marked twice.old.items
        (if slice_index_or once.old.items n true then n ∷ [] else []) }
{
    let was = mark(once, n);
    mark_if(twice, n, was);
}

/// Marks a number where a test says so.
pub(crate) fn mark_if(marks: &mut Vec<bool>, n: u32, so: bool)
    ensures { marks.new.items ≡ marked marks.old.items (if so then n ∷ [] else []) }
{
    if so {
        mark(marks, n);
    }
}

/// Marks these numbers.
pub(crate) fn mark_all(marks: &mut Vec<bool>, numbers: &[u32])
    ensures { marks.new.items ≡ marked marks.old.items numbers.now }
{
    for n in numbers {
        mark(marks, *n);
    }
}

/// Marks the numbers from one on up to another.
pub(crate) fn mark_between(marks: &mut Vec<bool>, start: u32, end: u32)
    requires { start ≤ end }
    ensures { marks.new.items ≡ marked marks.old.items (range_with_len start (end - start)) }
{
    for n in start..end {
        mark(marks, n);
    }
}

/// Marks a number, and says whether it was marked. One that has no mark counts as marked.
pub(crate) fn mark(marks: &mut Vec<bool>, n: u32) -> bool
    ensures was { result ≡ slice_index_or marks.old.items n true }
    ensures marks { marks.new.items ≡ marked marks.old.items (n ∷ []) }
{
    let Some(mark) = marks.get_mut(n as usize) else {
        return true;
    };
    let was = *mark;
    *mark = true;
    was
}

/// Whether a number is marked. One that has no mark counts as marked.
pub(crate) fn is_marked(marks: &[bool], n: u32) -> bool
    ensures { result ≡ slice_index_or marks.now n true }
{
    match marks.get(n as usize) {
        Some(mark) => *mark,
        None => true,
    }
}
