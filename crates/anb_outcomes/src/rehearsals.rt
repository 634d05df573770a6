//! What a rehearsal comes to.
use anb_base::Sent;
use std::marker::Model;

/// Messages in the order of their actions, which contracts see as a list.
#[derive(Debug, Drop)]
pub struct Messages {
    inner: Vec<Sent>,
}

impl Model for Messages {
    ghost use Rattle.std.specs.Prelude.{List};
    ghost use Rattle.anb_base.specs.declared.content.Sent.{Sent};

    ghost Value = { List Sent };

    ghost view = { λ m. m.inner.items };
}

impl Messages {
    ghost use Rattle.std.specs.Prelude.{◌≡◌};

    pub fn new(inner: Vec<Sent>) -> Self
        ensures { result ≡ inner.items }
    {
        Messages { inner }
    }

    pub fn as_slice(&self) -> &[Sent]
        ensures { result.now ≡ self.now }
    {
        self.inner.as_slice()
    }

    pub fn into_vec(self) -> Vec<Sent>
        ensures { result.items ≡ self }
    {
        let Messages { inner } = self;
        inner
    }
}

/// How many turns there were, how many of them were taken and how many passed over, and the
/// messages that were sent, in the order of their actions.
#[derive(Debug, Drop)]
pub struct Report {
    pub turns: u32,
    pub taken: u32,
    pub passed: u32,
    pub sent: Messages,
}
