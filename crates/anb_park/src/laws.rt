//! Laws of records.

ghost use Rattle.anb_park.specs.Records.{AcceptedIsNotRefused, HasOneCause, RecordsAreApart};

/// Law: a record that was written is refused for no cause.
pub fn accepted_is_not_refused()
    ensures { AcceptedIsNotRefused }
{}

/// Law: a record is refused for one cause at most.
pub fn has_one_cause()
    ensures { HasOneCause }
{}

/// Law: a record is that of one session.
pub fn records_are_apart()
    ensures { RecordsAreApart }
{}
