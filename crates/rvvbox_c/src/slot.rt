//! A place of the host's for a pointer to a kernel.
ghost use Rattle.std.specs.Prelude.{◌≡◌, Option, None, Some};
ghost use Rattle.std.specs.Option.{option_map};
ghost use Rattle.rvvbox_c.specs.Slots.{KernelView, slot_owns};

use crate::kept::Kernel;
use crate::loose::Loose;
use std::alloc::Global;
use std::marker::Model;
use std::{mem, ptr};

/// A pointer to a kernel that the library has made, or null: what C declares as
/// `struct rvvbox_kernel *`.
#[repr(C)]
pub struct Slot {
    at: *mut u8,
    pub ghost held: { Option KernelView },
}

impl Model for Slot {
    ghost also_owns = { λ s. slot_owns s.at s.held };
}

unsafe impl Send for Slot {}

impl Slot {
    /// Null.
    fn empty() -> Slot
        ensures { result.held ≡ None }
    {
        Slot {
            at: ptr::null_mut(),
        }
    }

    /// A pointer to a kernel.
    fn of(kernel: Loose<Kernel, Global>) -> Slot
        ensures { result.held ≡ Some kernel.value }
    {
        let Loose { at, alloc: _alloc } = kernel;
        Slot { at: at as *mut u8 }
    }

    /// The kernel, if there is one.
    fn into_loose(self, alloc: Global) -> Option<Loose<Kernel, Global>>
        ensures { option_map (λ l. l.value) result ≡ self.held }
    {
        let Slot { at } = self;
        if at.is_null() {
            None
        } else {
            Some(Loose {
                at: at as *mut Kernel,
                alloc,
            })
        }
    }

    /// Takes the kernel out.
    fn into_box(self, alloc: Global) -> Option<Box<Kernel>>
        ensures { option_map (λ b. b.value) result ≡ self.held }
    {
        self.into_loose(alloc).map(Loose::into_box)
    }

    /// Puts a kernel here, and lets go the one that was.
    pub(crate) fn put(&mut self, alloc: Global, kernel: Box<Kernel>)
        ensures { self.new.held ≡ Some kernel.value }
    {
        let before = mem::replace(self, Slot::of(Loose::of(kernel)));
        before.close(alloc);
    }

    /// Lets go the kernel, and what it keeps.
    pub(crate) fn close(self, alloc: Global) {
        if let Some(mut kernel) = self.into_box(alloc) {
            if let Some(kept) = kernel.take(alloc) {
                drop(kept);
            }
        }
    }
}
