//! The addresses at which a run that goes on stops.
ghost use Rattle.std.specs.Prelude.{◌≡◌, None, Some, IfErr, OnOk};
ghost use Rattle.monitor.specs.Breakpoints.{delete_fault, set_fault, with_breakpoint};
ghost use Rattle.monitor.specs.Breakpoints.{without_breakpoint};

use crate::commands::MonError;
use arrayvec::ArrayVec;

/// Sets a breakpoint. One that is there stays.
pub(crate) fn set(breakpoints: &mut ArrayVec<u32, 16>, address: u32) -> Result<(), MonError>
    ensures refused { IfErr result (λ e. (set_fault address breakpoints.old.items ≡ Some e)
        × (breakpoints.new.items ≡ breakpoints.old.items)) }
    ensures done { OnOk result ((set_fault address breakpoints.old.items ≡ None)
        × (breakpoints.new.items ≡ with_breakpoint address breakpoints.old.items)) }
{
    if breakpoints.contains(&address) {
        return Ok(());
    }
    if breakpoints.is_full() {
        return Err(MonError::TooManyBreakpoints);
    }
    breakpoints.push(address);
    Ok(())
}

/// Removes an address.
fn remove(breakpoints: &mut ArrayVec<u32, 16>, address: u32)
    ensures { breakpoints.new.items ≡ without_breakpoint address breakpoints.old.items }
{
    breakpoints.retain(|b| *b != address);
}

/// Deletes a breakpoint.
pub(crate) fn delete(breakpoints: &mut ArrayVec<u32, 16>, address: u32) -> Result<(), MonError>
    ensures refused { IfErr result (λ e. (delete_fault address breakpoints.old.items ≡ Some e)
        × (breakpoints.new.items ≡ breakpoints.old.items)) }
    ensures done { OnOk result ((delete_fault address breakpoints.old.items ≡ None)
        × (breakpoints.new.items ≡ without_breakpoint address breakpoints.old.items)) }
{
    if !breakpoints.contains(&address) {
        return Err(MonError::NotThere);
    }
    remove(breakpoints, address);
    Ok(())
}
