//! Checks.

use anb_close::{Made, Opening};

/// What a role demands of the values of entries: that an opening's undoing is defined, or that an
/// entry and a composition have the same value.
#[derive(Drop)]
pub enum Check {
    Open(Opening),
    Equal(u32, Made),
}
