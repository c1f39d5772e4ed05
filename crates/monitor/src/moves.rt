//! Steps of a run that a command asks for.
ghost use Rattle.std.specs.Prelude.{◌≡◌};
ghost use Rattle.monitor.specs.Moves.{GoesOn, Steps};

use sandbox_run::Session;
use std::alloc::Allocator;

/// Does one step, and then goes on to a breakpoint or the end. A run that has ended stays as it is.
pub fn go_on<const VLENB: usize, A: Allocator>(session: &mut Session<VLENB, A>, breakpoints: &[u32])
    ensures { GoesOn VLENB breakpoints.now session.old session.new }
{
    if session.step().is_none() {
        return;
    }
    'stepping: while !breakpoints.contains(&session.pc()) && session.step().is_some() {}
}

/// Does at most `most` steps.
pub fn step_at_most<const VLENB: usize, A: Allocator>(session: &mut Session<VLENB, A>, most: u32)
    ensures { Steps VLENB most session.old session.new }
{
    'stepping: for _done in 0..most {
        if session.step().is_none() {
            return;
        }
    }
}
