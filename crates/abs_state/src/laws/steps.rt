//! Laws of one step, each the contract of a function that does nothing when it runs.
ghost use Rattle.abs_state.specs.StepLaws.{CsrStepsHold, ScalarStepsHold, StepsAreHeld, StepsCount};
ghost use Rattle.abs_state.specs.StepLaws.{StepsGoOn};

use super::vectors::{
    checks_are_legal, stated_are_true, transfers_are_permitted, transfers_keep_memory,
    untouched_are_true, vsets_are_held,
};
use rv_decode::laws::meanings_fit;
use vector_core::laws::steps_keep_vectors;

/// What is known after an instruction of RV32I or M is true of the hart and memory to which it leads.
pub fn scalar_steps_hold()
    ensures { ScalarStepsHold }
{}

/// The same of an instruction on a CSR.
pub fn csr_steps_hold()
    ensures { CsrStepsHold }
{}

/// What is known after an instruction is true of the machine to which it leads, or would lead if a jump there were aligned.
pub fn steps_are_held()
    ensures { StepsAreHeld }
{
    meanings_fit();
    scalar_steps_hold();
    csr_steps_hold();
    vsets_are_held();
    steps_keep_vectors();
    checks_are_legal();
    transfers_are_permitted();
    transfers_keep_memory();
    stated_are_true();
    untouched_are_true();
}

/// Each instruction counts as one.
pub fn steps_count()
    ensures { StepsCount }
{}

/// An instruction that is no branch, jump or ecall leads to the next word.
pub fn steps_go_on()
    ensures { StepsGoOn }
{}
