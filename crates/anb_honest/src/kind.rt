//! How a role meets the outside.

/// What an instruction or an event does: it begins with what the role knows, makes a name, sends or
/// receives.
#[derive(Clone, Copy, Debug, PartialEq, Eq, Drop)]
pub(crate) enum Kind {
    Know,
    Make,
    Send,
    Receive,
}
