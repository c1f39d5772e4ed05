//! Laws of what a run and a block start with, each the contract of a function that does nothing when it runs.
ghost use Rattle.abs_state.specs.StartLaws.{BlocksAreHeld, EntriesAreHeld};

/// Where a machine stands at the start of a block of a certificate, and all that the block states is true of it, what is known
/// where the block begins is true of it.
pub fn blocks_are_held()
    ensures { BlocksAreHeld }
{}

/// What is known where a run begins is true of the machine that it starts with, on arguments that match the parameters of a
/// certificate, and the numbers that they pass in a0 to a7 are what the parameters ask for.
pub fn entries_are_held()
    ensures { EntriesAreHeld }
{}
