//! What a branched text tells.
ghost use Rattle.std.specs.Prelude.{◌≡◌};
ghost use Rattle.anb_choice.specs.Lawful.{roles_in};
ghost use Rattle.anb_choice.specs.Views.{branched_of};

use crate::alike::among;
use anb_base::Text;
use anb_protocol::Protocol;

/// A choice at the end: the role that chooses, how many actions come before the choice, and for
/// each arm the protocol of the common actions with those of the arm. Arms are numbered from 1.
#[derive(Drop)]
pub struct Branched {
    pub chooser: Text,
    pub stem: u32,
    pub arms: Vec<Protocol>,
}

impl Branched {
    ghost use Rattle.std.specs.Prelude.{◌≡◌};
    ghost use Rattle.anb_index.specs.Places.{among};
    ghost use Rattle.anb_choice.specs.Lawful.{roles_in};
    ghost use Rattle.anb_choice.specs.Views.{branched_of};

    /// Whether there is a role with this name.
    pub fn has_role(&self, name: &Text) -> bool
        ensures { result ≡ among (roles_in (branched_of self.now)) name.now }
    {
        among(roles_in(self), name)
    }
}

/// The roles in the order of arm 1.
pub(crate) fn roles_in(b: &Branched) -> &[Text]
    ensures { result.now ≡ roles_in (branched_of b.now) }
{
    match b.arms.as_slice() {
        [one, ..] => one.roles(),
        [] => &[],
    }
}
