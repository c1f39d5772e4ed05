//! Laws of the definitions, each on a function that does nothing.

ghost use Rattle.machine.specs.Kept.{RunsKeep};
ghost use Rattle.machine.specs.Permitted.{RunsArePermitted, StepsArePermitted};
ghost use Rattle.machine.specs.Touches.{StepsReadInside, StepsWriteInside};

use region_mem::stores_keep_extents;

/// A step that is no fault fetches its word, loads and stores only where it may: each byte lies in a region with the right.
/// A vector load or store is permitted at every active element.
pub fn steps_are_permitted()
    ensures { StepsArePermitted }
{}

/// So is every step of a run up to a state that it reaches: no byte is fetched, loaded or stored without the right.
pub fn runs_are_permitted()
    ensures { RunsArePermitted }
{
    steps_are_permitted();
}

/// A run moves no region of memory, changes neither its rights nor what was passed, and changes no byte that may not be
/// written: so a buffer to read and the segments without the right to write stay as they were.
pub fn runs_keep_memory()
    ensures { RunsKeep }
{}

/// A step changes no byte of memory outside the accesses of its instruction that write.
pub fn steps_write_inside()
    ensures { StepsWriteInside }
{}

/// What a step makes of the scalar and vector registers, its fault and what it stores depend on no byte of memory but those
/// of its word and those that its instruction reads: two machines that agree in these, in their registers, and in where the
/// regions lie and their rights, go the same way, and write the same bytes.
pub fn steps_read_inside()
    ensures { StepsReadInside }
{
    stores_keep_extents();
}
