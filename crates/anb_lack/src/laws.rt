//! What the lists of a text are worth: laws, each a function that does nothing.
ghost use Rattle.anb_lack.specs.Laws.{HadIsFrom, HadIsMade, KeysAreNotMade, LackingIsNotMade, MessageIsLacking};
ghost use Rattle.anb_lack.specs.Laws.{OriginsAreOne};

use anb_reason::shut_has_none;

/// Laws: what the role has can be made, from an event before the send on; a term is from one place; no
/// recipe gives what is listed as lacking, nor a key that is asked for, because the terms that it has are a
/// shut list; and the first that is lacking is the message.
pub fn lists_are_shown()
    ensures made { HadIsMade }
    ensures from { HadIsFrom }
    ensures one_origin { OriginsAreOne }
    ensures lacking { LackingIsNotMade }
    ensures keys { KeysAreNotMade }
    ensures message { MessageIsLacking }
{
    shut_has_none();
}
