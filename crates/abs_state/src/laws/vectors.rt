//! Laws of one vector instruction, each the contract of a function that does nothing when it runs.
ghost use Rattle.abs_state.specs.VectorLaws.{ChecksAreLegal, CutAreTrue, StatedAreTrue};
ghost use Rattle.abs_state.specs.VectorLaws.{TransfersArePermitted};
ghost use Rattle.abs_state.specs.VectorLaws.{TransfersKeepMemory, UntouchedAreTrue, VsetsAreHeld};

/// What is known after an instruction that sets vtype and vl is true of the machine that it leads to.
pub fn vsets_are_held()
    ensures { VsetsAreHeld }
{
    cut_are_true();
}

/// An instruction that passes the test on legality is legal.
pub fn checks_are_legal()
    ensures { ChecksAreLegal }
{}

/// The accesses of a vector load or store that passes are permitted.
pub fn transfers_are_permitted()
    ensures { TransfersArePermitted }
{}

/// The stores of a vector instruction keep of memory what a step has to keep.
pub fn transfers_keep_memory()
    ensures { TransfersKeepMemory }
{}

/// What an instruction states of its destination is true of the registers that it leaves.
pub fn stated_are_true()
    ensures { StatedAreTrue }
{}

/// Facts on groups that share no register with a destination stay true where only that is written.
pub fn untouched_are_true()
    ensures { UntouchedAreTrue }
{}

/// Facts that are cut stay true where vl changes.
pub fn cut_are_true()
    ensures { CutAreTrue }
{}
