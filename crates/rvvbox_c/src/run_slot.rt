//! A place of the host's for a pointer to a session.
ghost use Rattle.std.specs.Prelude.{◌≡◌, Option, None, Some};
ghost use Rattle.std.specs.Option.{option_map};
ghost use Rattle.rvvbox_c.specs.RunSlot.{RunView, run_slot_owns};

use crate::loose::Loose;
use crate::running::Run;
use std::alloc::Global;
use std::marker::Model;
use std::{mem, ptr};

/// A pointer to a session that the library has made, or null: what C declares as
/// `struct rvvbox_session *`.
#[repr(C)]
pub struct RunSlot {
    at: *mut u8,
    pub ghost held: { Option RunView },
}

impl Model for RunSlot {
    ghost also_owns = { λ s. run_slot_owns s.at s.held };
}

unsafe impl Send for RunSlot {}

impl RunSlot {
    /// Null.
    fn empty() -> RunSlot
        ensures { result.held ≡ None }
    {
        RunSlot {
            at: ptr::null_mut(),
        }
    }

    /// A pointer to a session.
    fn of(run: Loose<Run, Global>) -> RunSlot
        ensures { result.held ≡ Some run.value }
    {
        let Loose { at, alloc: _alloc } = run;
        RunSlot { at: at as *mut u8 }
    }

    /// The session, if there is one.
    fn into_loose(self, alloc: Global) -> Option<Loose<Run, Global>>
        ensures { option_map (λ l. l.value) result ≡ self.held }
    {
        let RunSlot { at } = self;
        if at.is_null() {
            None
        } else {
            Some(Loose {
                at: at as *mut Run,
                alloc,
            })
        }
    }

    /// Takes the session out.
    fn into_box(self, alloc: Global) -> Option<Box<Run>>
        ensures { option_map (λ b. b.value) result ≡ self.held }
    {
        self.into_loose(alloc).map(Loose::into_box)
    }

    /// Puts a session here, and lets go the one that was.
    pub(crate) fn put(&mut self, alloc: Global, run: Box<Run>)
        ensures { self.new.held ≡ Some run.value }
    {
        let before = mem::replace(self, RunSlot::of(Loose::of(run)));
        before.close(alloc);
    }

    /// Lets go the session, and what it keeps.
    pub(crate) fn close(self, alloc: Global) {
        if let Some(mut run) = self.into_box(alloc) {
            if let Some(kept) = run.take(alloc) {
                drop(kept);
            }
        }
    }
}
