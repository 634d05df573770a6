// What holds of sealing and wrapping: each function below is empty, and its contract is the law.
ghost use Rattle.anb_seal.specs.Laws.{UnsealsExactly, UnwrapsExactly, SealsApart, WrapsApart, SealsLonger, WrapsLonger, GivesBytes};

/// Sealed bytes hold exactly the message that is sealed to them.
pub fn unseals_exactly()
    ensures { UnsealsExactly }
{}

/// Wrapped bytes hold exactly the message that is wrapped to them.
pub fn unwraps_exactly()
    ensures { UnwrapsExactly }
{}

/// Under one key, two messages aren't sealed to the same bytes.
pub fn seals_apart()
    ensures { SealsApart }
{}

/// Under one key and one context, two messages aren't wrapped to the same bytes.
pub fn wraps_apart()
    ensures { WrapsApart }
{}

/// Sealed bytes are 32 longer than the message.
pub fn seals_longer()
    ensures { SealsLonger }
{}

/// Wrapped bytes are 32 longer than the message.
pub fn wraps_longer()
    ensures { WrapsLonger }
{}

/// What the operations give is bytes.
pub fn gives_bytes()
    ensures { GivesBytes }
{}
