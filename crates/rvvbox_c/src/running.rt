//! A run that a host goes on with by a number of steps at a time.
ghost use Rattle.std.specs.Prelude.{◌≡◌, IfErr, IfOk, Option, None, Some};
ghost use Rattle.std.specs.Option.{option_map};
ghost use Rattle.rvvbox_c.specs.Running.{StandingView, run_kept, run_owns};

use crate::loose::Loose;
use crate::opened::Open;
use crate::standing::Standing;
use sandbox_run::Spare;
use std::alloc::{AllocError, Global};
use std::marker::Model;
use std::{mem, ptr};

/// What a session holds, or nothing, where the pointer is null. The host has a pointer to it, and
/// nothing else: what C declares as `struct rvvbox_session`.
#[repr(C)]
#[derive(Drop)]
pub struct Run {
    at: *mut u8,
    pub ghost kept: { Option StandingView },
}

impl Model for Run {
    ghost also_owns = { λ r. run_owns r.at r.kept };
}

unsafe impl Send for Run {}

impl Run {
    /// A session that keeps nothing.
    fn empty() -> Run
        ensures { result.kept ≡ None }
    {
        Run {
            at: ptr::null_mut(),
        }
    }

    /// A session that keeps what is held.
    fn of(held: Loose<Standing, Global>) -> Run
        ensures { result.kept ≡ Some held.value }
    {
        let Loose { at, alloc: _alloc } = held;
        Run { at: at as *mut u8 }
    }

    /// What is kept, if anything is.
    fn into_loose(self, alloc: Global) -> Option<Loose<Standing, Global>>
        ensures { option_map (λ l. l.value) result ≡ self.kept }
    {
        let Run { at } = self;
        if at.is_null() {
            None
        } else {
            Some(Loose {
                at: at as *mut Standing,
                alloc,
            })
        }
    }

    /// A session of a run, in memory of its own.
    pub(crate) fn made(alloc: Global, opened: Open) -> Result<Box<Run>, AllocError>
        ensures { IfOk result (λ b. run_kept b.value.kept ≡ Some opened) }
    {
        let held = boxed(alloc, opened)?;
        let Ok(mut run) = Box::new(alloc, Run::empty()) else {
            return Err(AllocError);
        };
        run.keep(alloc, held);
        Ok(run)
    }

    /// Puts a run into a session, in place of the one that it keeps.
    pub(crate) fn put(&mut self, alloc: Global, opened: Open) -> Result<(), AllocError>
        ensures put { IfOk result (λ _. run_kept self.new.kept ≡ Some opened) }
        ensures refused { IfErr result (λ _. self.old.kept ≡ None) }
        ensures kept { IfErr result (λ _. self.new.kept ≡ self.old.kept) }
    {
        let held = match self.take(alloc) {
            None => boxed(alloc, opened)?,
            Some(mut held) => {
                held.put(opened);
                held
            }
        };
        self.keep(alloc, held);
        Ok(())
    }

    /// Takes out what a run left that was closed.
    pub(crate) fn take_spare(&mut self, alloc: Global) -> Option<Spare>
        ensures { run_kept self.new.kept ≡ run_kept self.old.kept }
    {
        let mut held = self.take(alloc)?;
        let spare = held.take_spare();
        self.keep(alloc, held);
        spare
    }

    /// Holds this for the next run, where there is room.
    pub(crate) fn hold_spare(&mut self, alloc: Global, spare: Option<Spare>)
        ensures { run_kept self.new.kept ≡ run_kept self.old.kept }
    {
        if let Some(mut held) = self.take(alloc) {
            held.hold_spare(spare);
            self.keep(alloc, held);
        }
    }

    /// Takes out what is held.
    pub(crate) fn take(&mut self, alloc: Global) -> Option<Box<Standing>>
        ensures taken { option_map (λ b. b.value) result ≡ self.old.kept }
        ensures empty { self.new.kept ≡ None }
    {
        let held = mem::replace(self, Run::empty());
        held.into_loose(alloc).map(Loose::into_box)
    }

    /// Keeps what is held, and lets go what was kept.
    pub(crate) fn keep(&mut self, alloc: Global, held: Box<Standing>)
        ensures { self.new.kept ≡ Some held.value }
    {
        let before = mem::replace(self, Run::of(Loose::of(held)));
        if let Some(loose) = before.into_loose(alloc) {
            drop(loose.into_box());
        }
    }
}

/// A run that a session can hold, in memory of its own.
fn boxed(alloc: Global, opened: Open) -> Result<Box<Standing>, AllocError>
    ensures { IfOk result (λ b. b.value ≡ Some opened) }
{
    match Box::new(alloc, Standing::of(opened)) {
        Ok(held) => Ok(held),
        Err(_) => Err(AllocError),
    }
}
