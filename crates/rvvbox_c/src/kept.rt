//! An accepted image that a host keeps for many runs, on its threads.
ghost use Rattle.std.specs.Prelude.{◌≡◌, IfErr, IfOk, Option, None, Some};
ghost use Rattle.std.specs.Arc.{arc_value};
ghost use Rattle.std.specs.Option.{option_map};
ghost use Rattle.rvvbox_c.specs.Holds.{HeldView, kernel_owns};

use crate::held::Held;
use crate::loose::Loose;
use block_checker::Accepted;
use std::alloc::{AllocError, Global};
use std::marker::Model;
use std::sync::Arc;
use std::{mem, ptr};

/// An accepted image that may be shared with others of its kind, or none, where the pointer is
/// null. The host has a pointer to it, and nothing else.
#[repr(C)]
#[derive(Drop)]
pub struct Kernel {
    at: *mut u8,
    pub ghost kept: { Option HeldView },
}

impl Model for Kernel {
    ghost also_owns = { λ k. kernel_owns k.at k.kept };
}

unsafe impl Send for Kernel {}

impl Kernel {
    /// A kernel that keeps nothing.
    fn empty() -> Kernel
        ensures { result.kept ≡ None }
    {
        Kernel {
            at: ptr::null_mut(),
        }
    }

    /// A kernel that keeps what is held.
    fn of(held: Loose<Held, Global>) -> Kernel
        ensures { result.kept ≡ Some held.value }
    {
        let Loose { at, alloc: _alloc } = held;
        Kernel { at: at as *mut u8 }
    }

    /// What is kept, if anything is.
    fn into_loose(self, alloc: Global) -> Option<Loose<Held, Global>>
        ensures { option_map (λ l. l.value) result ≡ self.kept }
    {
        let Kernel { at } = self;
        if at.is_null() {
            None
        } else {
            Some(Loose {
                at: at as *mut Held,
                alloc,
            })
        }
    }

    /// A kernel of an accepted image, in memory of its own.
    pub(crate) fn made(alloc: Global, accepted: Arc<Accepted>) -> Result<Box<Kernel>, AllocError>
        ensures { IfOk result (λ b. b.value.kept ≡ Some accepted) }
    {
        let Ok(held) = Box::new(alloc, Held::of(accepted)) else {
            return Err(AllocError);
        };
        let Ok(mut kernel) = Box::new(alloc, Kernel::empty()) else {
            return Err(AllocError);
        };
        kernel.keep(alloc, held);
        Ok(kernel)
    }

    /// Takes out what is kept.
    pub(crate) fn take(&mut self, alloc: Global) -> Option<Box<Held>>
        ensures taken { option_map (λ b. b.value) result ≡ self.old.kept }
        ensures empty { self.new.kept ≡ None }
    {
        let held = mem::replace(self, Kernel::empty());
        held.into_loose(alloc).map(Loose::into_box)
    }

    /// Keeps what is held, and lets go what was kept.
    pub(crate) fn keep(&mut self, alloc: Global, held: Box<Held>)
        ensures { self.new.kept ≡ Some held.value }
    {
        let before = mem::replace(self, Kernel::of(Loose::of(held)));
        if let Some(loose) = before.into_loose(alloc) {
            drop(loose.into_box());
        }
    }
}

/// One more kernel of the same image.
pub(crate) fn another(alloc: Global, held: &Box<Held>) -> Result<Box<Kernel>, AllocError>
    ensures { IfOk result (λ b. option_map arc_value b.value.kept
        ≡ Some (arc_value held.now.value)) }
{
    Kernel::made(alloc, Arc::try_clone(held.accepted())?)
}
