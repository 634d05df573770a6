//! Where a wrong value stands.
ghost use Rattle.std.specs.Prelude.{◌≡◌, ◌+◌, ◌<◌, length, map, IfOk};
ghost use Rattle.anb_term.specs.View.{tree_of};
ghost use Rattle.anb_verdict.specs.Places.{place_value};
ghost use Rattle.anb_attempts.specs.Attempts.{place_at};

use anb_base::NoMemory;
use anb_protocol::Protocol;
use anb_term::Term;
use anb_verdict::{Place, place_of};
use std::alloc::Global;

/// The place of the spare name in what arrives; or what arrives at this event as a whole, where no
/// arrival has it.
pub(crate) fn place_at(
    alloc: Global,
    p: &Protocol,
    role: u32,
    arrivals: &[Term],
    event: u32,
) -> Result<Place, NoMemory>
    requires { role < length p.now.roles }
    ensures { IfOk result (λ place. place_value place
        ≡ place_at p.now role (map tree_of arrivals.now) event) }
{
    let spare = count_names(p)?;
    match place_of(alloc, p, role, arrivals, spare)? {
        Some(place) => Ok(place),
        None => Ok(Place {
            event: event as usize,
            path: Vec::new(alloc),
        }),
    }
}

/// How many names there are: the number of the spare name.
pub(crate) fn count_names(p: &Protocol) -> Result<u32, NoMemory>
    ensures { IfOk result (λ n. n ≡ length p.now.atoms) }
{
    match u32::try_from(p.declared().len()) {
        Ok(names) => Ok(names),
        // A protocol has few names.
        Err(_) => Err(NoMemory),
    }
}

/// The same place in memory of its own.
pub(crate) fn copy_of(alloc: Global, place: &Place) -> Result<Place, NoMemory>
    ensures { IfOk result (λ copy. place_value copy ≡ place_value place.now) }
{
    Ok(Place {
        event: place.event,
        path: Vec::from_slice(alloc, &place.path)?,
    })
}
