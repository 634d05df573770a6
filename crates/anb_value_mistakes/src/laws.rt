//! What holds of the texts that are written.
ghost use Rattle.anb_value_mistakes.specs.Laws.{MistakesAreFaults, MistakesTextsAreOne};

/// Law: one text is said of a file.
pub fn mistakes_texts_are_one()
    ensures { MistakesTextsAreOne }
{}

/// Law: nothing is said exactly where the file gives all values.
pub fn mistakes_are_faults()
    ensures { MistakesAreFaults }
{}
