//! Laws of runs: functions that do nothing, with the law as contract.
ghost use Rattle.sandbox_run.specs.Back.{RunsHandBack};
ghost use Rattle.sandbox_run.specs.Headline.{AcceptedRuns};
ghost use Rattle.sandbox_run.specs.HostLaws.{MoreStepsChangeNothing, StartsAreAlike};
ghost use Rattle.sandbox_run.specs.HostLaws.{StepsAreUnique, TriesAreRuns};
ghost use Rattle.sandbox_run.specs.Laws.{ExitIsNoCode};
ghost use Rattle.sandbox_run.specs.Stops.{AcceptedStops};
ghost use Rattle.sandbox_run.specs.Whole.{SessionsAreRuns};

use block_checker::Accepted;
use machine::laws::{runs_are_permitted, runs_keep_memory, steps_read_inside, steps_write_inside};
use region_mem::fetches_nothing_above;
use std::alloc::Allocator;

/// The theorem on accepted images. Run with any contents of buffers of the declared sizes and any
/// scalars in the declared intervals, such an image meets no illegal instruction and no access
/// fault, touches no byte that it may not, and ends within the number of instructions that its
/// certificate states. The states of the run are those of the instructions' meaning, element by
/// element: what [`Session::run`](crate::Session::run) leads to is the last of them.
pub fn accepted_runs<A: Allocator>(accepted: &Accepted<A>)
    ensures { AcceptedRuns accepted.now }
{
    accepted.runs_end();
    runs_are_permitted();
    runs_keep_memory();
    steps_write_inside();
    steps_read_inside();
}

/// Where a run ends there is no code: at its start and after any stores, no word is fetched from
/// there.
pub fn exit_is_no_code()
    ensures { ExitIsNoCode }
{
    fetches_nothing_above();
}

/// What a run of any image hands back, from each state that it leads to: scalars as they were
/// passed, buffers of their sizes, and those that are only read byte for byte.
pub fn runs_hand_back()
    ensures { RunsHandBack }
{
    runs_keep_memory();
}

/// Wherever a run of an accepted image on matching arguments is stopped, no later than at its end,
/// the steps done are at most the bound, each of them was permitted by the areas and rights of the
/// start, and memory keeps those, what was passed, and each byte that may not be written.
pub fn accepted_stops<A: Allocator>(accepted: &Accepted<A>)
    ensures { AcceptedStops accepted.now }
{
    accepted.runs_end();
    runs_are_permitted();
    runs_keep_memory();
}

/// A run of an accepted image on matching arguments, from `open` to `close`: the state that it
/// starts in, how many steps it does, the one state in which it has ended, and the arguments that
/// come back there. Each session that is opened on them, once it has ended, stands there after as
/// many steps, and `close` hands these arguments back.
pub fn sessions_are_runs<A: Allocator>(accepted: &Accepted<A>)
    ensures { SessionsAreRuns accepted.now }
{
    accepted.runs_end();
    runs_keep_memory();
    let _segments = accepted.image().segments();
    let _contents = accepted.certificate().contents();
}

/// For an accepted image, arguments that match and at least as many steps as its bound, what
/// [`try_run`](crate::try_run) answers is `Ended`, with the steps, the registers and the buffers of
/// the run that a session does.
pub fn tries_are_runs<A: Allocator>(accepted: &Accepted<A>)
    ensures { TriesAreRuns accepted.now }
{
    accepted.runs_end();
}

/// A run that ends or faults with one number of steps allowed does the same with any greater one. A
/// run that is out of steps goes on from where it stands.
pub fn more_steps_change_nothing()
    ensures { MoreStepsChangeNothing }
{}

/// A run from a state ends after one number of steps, and in one state.
pub fn steps_are_unique()
    ensures { StepsAreUnique }
{}

/// Two images with the same entry and segments start alike on the same parameters and arguments,
/// whatever their certificates: so their runs are the same, and leave the same buffers.
pub fn starts_are_alike()
    ensures { StartsAreAlike }
{}
