//! Which roles the arms have.
ghost use Rattle.std.specs.Prelude.{◌≡◌, ◌<◌, ◌^◌, length};
ghost use Rattle.std.specs.List.{list_all};
ghost use Rattle.anb_index.specs.Places.{among};
ghost use Rattle.anb_choice.specs.Branching.{other_roles};
ghost use Rattle.anb_choice.specs.Lawful.{are_same_names};
ghost use Rattle.anb_choice.specs.Views.{branched_of};

use crate::branched::{Branched, roles_in};
use anb_base::Text;

/// Whether the name is one of these.
pub(crate) fn among(names: &[Text], name: &Text) -> bool
    ensures { result ≡ among names.now name.now }
{
    names.iter().any(|other| other.as_str() == name.as_str())
}

fn all_among(names: &[Text], some: &[Text]) -> bool
    ensures { result ≡ list_all (among names.now) some.now }
{
    some.iter().all(|name| among(names, name))
}

/// Whether these are the same names, in whatever order.
fn are_same_names(ones: &[Text], others: &[Text]) -> bool
    ensures { result ≡ are_same_names ones.now others.now }
{
    all_among(others, ones) && all_among(ones, others)
}

/// The first arm, from 1, with other role names than the first.
pub(crate) fn other_roles(b: &Branched) -> Option<u32>
    requires { length b.now.arms.items < 2 ^ 32 }
    ensures { result ≡ other_roles (branched_of b.now) }
{
    let roles = roles_in(b);
    for (i, p) in b.arms.iter().enumerate() {
        if !are_same_names(roles, p.roles()) {
            return Some(i as u32 + 1);
        }
    }
    None
}
