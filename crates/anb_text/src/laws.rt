//! Laws of role files.
ghost use Rattle.anb_text.specs.Laws.{CodesAreNotRefused, CodesAreUnique, EachIsEither, FaultsAreUnique, FilesAreUnique, NoneIsBoth, RefusalsAreUnique};

/// Law: two role files with one text have the same lines and spell the same code.
pub fn files_are_unique()
    ensures { FilesAreUnique }
{}

/// Law: two verified codes with a text in common, of either version, are the same.
pub fn codes_are_unique()
    ensures { CodesAreUnique }
{}

/// Law: a role file has no faulty line.
pub fn none_is_both()
    ensures { NoneIsBoth }
{}

/// Law: a text has one first faulty line at most.
pub fn faults_are_unique()
    ensures { FaultsAreUnique }
{}

/// Law: a text has one refusal at most, but for want of memory.
pub fn refusals_are_unique()
    ensures { RefusalsAreUnique }
{}

/// Law: no text of a verified code is refused, but for want of memory.
pub fn codes_are_not_refused()
    ensures { CodesAreNotRefused }
{}

/// Law: each text that isn't too long is that of a verified code, or is refused.
pub fn each_is_either()
    ensures { EachIsEither }
{}
