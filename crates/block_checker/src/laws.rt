//! The law of the check, the contract of a function that does nothing when it runs. It stands on those of what is known of a machine.
ghost use Rattle.block_checker.specs.Sound.{PassingRunsEnd};

use abs_state::{
    blocks_are_held, edges_are_taken, edges_keep, entries_are_held, implied_ends, implied_fits,
    one_edge, steps_are_held, steps_count, steps_go_on, straight_edges,
};

/// What passes the check ends within the number that its certificate states, without a fault, on all arguments that match.
pub fn passing_runs_end()
    ensures { PassingRunsEnd }
{
    blocks_are_held();
    entries_are_held();
    steps_are_held();
    steps_count();
    steps_go_on();
    edges_are_taken();
    edges_keep();
    one_edge();
    straight_edges();
    implied_ends();
    implied_fits();
}
