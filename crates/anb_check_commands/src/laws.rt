//! Laws on what is said, each a function that does nothing.
ghost use Rattle.anb_check_commands.specs.Laws.{LackIsSaidOnce, LackTextsAreOne, SendableLacksNothing};

use anb_mistakes::unsent_texts_are_unique;

/// Laws: a protocol in which a role can't send has one text of what the sender lacks, and one thing is
/// said of it in a file; and one in which each role can send has none.
pub fn lack_texts_are_one()
    ensures one { LackTextsAreOne }
    ensures said { LackIsSaidOnce }
    ensures none { SendableLacksNothing }
{
    unsent_texts_are_unique();
}
