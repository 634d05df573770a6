//! What C has of a session: a flag, and a pointer whose type it isn't told.

ghost use Rattle.std.specs.Prelude.{◌≡◌, ◌⊎◌, pos, IfSome, IfNone, IsSome, Option, Some, None};
ghost use Rattle.anb_c.specs.declared.session.Session.{Session};
ghost use Rattle.anb_c.specs.Holding.{is_some};

use crate::session::Session;
use crate::statuses::{DONE, NO_MEMORY};
use anb_erased::Loose;
use std::alloc::Global;
use std::marker::Model;

/// A pointer to a session's box, or none. Dropping it frees nothing.
#[repr(C)]
#[derive(Drop)]
pub struct Held {
    at: *mut u8,
    pub ghost session: { Option Session },
}

impl Model for Held {
    ghost use Rattle.anb_c.specs.Holding.{holds};

    ghost also_owns = { λ h. holds h.session h.at };
}

impl Held {
    /// Holds nothing.
    pub(crate) fn empty() -> Held
        ensures { result.session ≡ None }
    {
        Held {
            at: std::ptr::null_mut(),
        }
    }

    /// Holds the session of a box that was taken apart.
    pub(crate) fn of(loose: Loose<Session, Global>) -> Held
        ensures { result.session ≡ Some loose.value }
    {
        let Loose { at, alloc: _ } = loose;
        Held { at: at as *mut u8 }
    }

    /// The box of the session that is held, taken apart.
    pub(crate) fn into_loose(self, alloc: Global) -> Loose<Session, Global>
        requires { IsSome self.session }
        ensures { self.session ≡ Some result.value }
    {
        let Held { at } = self;
        Loose {
            at: at as *mut Session,
            alloc,
        }
    }
}

/// A session as C has it: zero bytes before it is opened and after it is closed.
#[repr(C)]
#[derive(Drop)]
pub struct Handle {
    pub(crate) live: bool,
    pub held: Held,
    ghost tied: { live ≡ is_some held.session },
}

/// Takes the session out, and leaves none there.
pub(crate) fn take_out(alloc: Global, handle: &mut Handle) -> Option<Box<Session>>
    ensures some { IfSome result (λ session. handle.old.held.session ≡ Some session.value) }
    ensures none { IfNone result (handle.old.held.session ≡ None) }
    ensures left { handle.new.held.session ≡ None }
{
    let empty = Handle {
        live: false,
        held: Held::empty(),
    };
    let Handle { live, held } = std::mem::replace(handle, empty);
    if live {
        Some(held.into_loose(alloc).into_box())
    } else {
        None
    }
}

/// Holds this session, where none was held.
pub(crate) fn put_in(handle: &mut Handle, session: Box<Session>)
    requires { handle.old.held.session ≡ None }
    ensures { handle.new.held.session ≡ Some session.value }
{
    *handle = Handle {
        live: true,
        held: Held::of(Loose::of(session)),
    };
}

/// Holds this new session, where none was held and there is memory for its box.
pub(crate) fn keep(alloc: Global, handle: &mut Handle, session: Session) -> i32
    requires { handle.old.held.session ≡ None }
    ensures { ((result ≡ pos 0) × (handle.new.held.session ≡ Some session))
        ⊎ ((result ≡ pos 99) × (handle.new.held.session ≡ None)) }
{
    match Box::new(alloc, session) {
        Ok(session) => {
            put_in(handle, session);
            DONE
        }
        Err(_) => NO_MEMORY,
    }
}
