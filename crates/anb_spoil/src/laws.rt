//! Laws of spoilt bytes, each a function that does nothing.
ghost use Rattle.anb_spoil.specs.Laws.{ChangesDiffer, FalseTagsHoldTheMessage, FalseTagsStayShut, RetaggedIsFalse, RowsAreAll, RowsAreNear, RowsAreRefused, SpoiltIsRefused, WrongsDiffer};

/// A law: what a change makes of bytes differs from them.
pub fn changes_differ()
    ensures { ChangesDiffer }
{}

/// A law: what is spoilt in the way of a row is built of no arguments, so a reader that makes all
/// comparisons refuses it.
pub fn rows_are_refused()
    ensures { RowsAreRefused }
{}

/// A law: no row spoils anything but those that the format has.
pub fn rows_are_all()
    ensures { RowsAreAll }
{}

/// A law: what is spoilt in the way of a row has the right arguments where its pieces seem to
/// stand, but for the two rows that hide where digits end. So a reader that leaves out the
/// comparison has them.
pub fn rows_are_near()
    ensures { RowsAreNear }
{}

/// A law: what has a false tag isn't opened, whatever the message is and with no assumption on
/// hashes.
pub fn false_tags_stay_shut()
    ensures { FalseTagsStayShut }
{}

/// A law: whoever takes off the stream of a false tag, and doesn't compare the tag, has the
/// message.
pub fn false_tags_hold_the_message()
    ensures { FalseTagsHoldTheMessage }
{}

/// A law: sealed or wrapped bytes that get another tag are their message with a false tag.
pub fn retagged_is_false()
    ensures { RetaggedIsFalse }
{}

/// A law: bytes of a format that are spoilt in the way of a row are no bytes of that format.
pub fn spoilt_is_refused()
    ensures { SpoiltIsRefused }
{}

/// A law: what a right value is made differs from it; and with a false tag it differs from the closed
/// bytes that it is made of.
pub fn wrongs_differ()
    ensures { WrongsDiffer }
{}
