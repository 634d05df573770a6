//! What a case does.
use crate::place::Place;
use anb_base::Bytes;

/// What a case does.
#[derive(Drop)]
pub enum Title {
    /// All is sent as it is narrated.
    Narrated,
    /// The bytes at a place of what comes are changed, as these words say.
    Changed(Place, Bytes),
    /// What is at these places, which the role takes unchecked, has so many bytes; this event is the
    /// first.
    Sized {
        event: usize,
        places: Vec<Place>,
        bytes: u32,
    },
    /// What comes is of an earlier session.
    Earlier(usize),
}
