//! Jumps and branches ("Control Transfer Instructions"). A target that is not a multiple of four is
//! refused before anything is written.

ghost use Rattle.region_mem.specs.Faults.{Steps};
ghost use Rattle.scalar_core.specs.Step.{branch_step, branch_to as branch_to_of};
ghost use Rattle.scalar_core.specs.Step.{jal_step, jalr_step, jump_and_link as jump_and_link_of};

use crate::arithmetic::is_taken;
use crate::hart::Scalar;
use region_mem::Fault;
use rv_decode::{Condition, Reg};

/// jal: jumps by an offset from pc.
#[inline]
#[tactic(auto, unfolding(crate::specs::Step::jal_step))]
pub(crate) fn jal(scalar: &mut Scalar, rd: Reg, offset: i32) -> Result<(), Fault>
    ensures { Steps (jal_step rd offset scalar.old) scalar.old scalar.new result }
{
    let target = scalar.pc().wrapping_add_signed(offset);
    jump_and_link(scalar, rd, target)
}

/// jalr: jumps by an offset from rs1, with bit 0 of the target cleared.
#[inline]
#[tactic(auto, unfolding(crate::specs::Step::jalr_step))]
pub(crate) fn jalr(scalar: &mut Scalar, rd: Reg, rs1: Reg, offset: i32) -> Result<(), Fault>
    ensures { Steps (jalr_step rd rs1 offset scalar.old) scalar.old scalar.new result }
{
    let target = scalar.reg(rs1).wrapping_add_signed(offset);
    jump_and_link(scalar, rd, target - target % 2)
}

/// Jumps to the target, and leaves the next word's address in `rd`.
#[inline]
#[tactic(auto, unfolding(crate::specs::Step::jump_to, crate::specs::Step::jump_and_link))]
fn jump_and_link(scalar: &mut Scalar, rd: Reg, target: u32) -> Result<(), Fault>
    ensures { Steps (jump_and_link_of rd target scalar.old) scalar.old scalar.new result }
{
    if target % 4 != 0 {
        return Err(Fault::JumpMisaligned(target));
    }
    let link = scalar.next_pc();
    scalar.set_reg(rd, link);
    scalar.set_pc(target);
    Ok(())
}

/// A branch: jumps by an offset from pc where the two registers meet the condition.
#[inline]
#[tactic(auto, unfolding(crate::specs::Step::branch_step))]
pub(crate) fn branch(
    scalar: &mut Scalar,
    condition: Condition,
    rs1: Reg,
    rs2: Reg,
    offset: i32,
) -> Result<(), Fault>
    ensures { Steps (branch_step condition rs1 rs2 offset scalar.old) scalar.old scalar.new result }
{
    let taken = is_taken(condition, scalar.reg(rs1), scalar.reg(rs2));
    let target = scalar.pc().wrapping_add_signed(offset);
    branch_to(scalar, taken, target)
}

/// Jumps to the target where the branch is taken, and else goes to the next word.
#[inline]
#[tactic(auto, unfolding(crate::specs::Step::jump_to, crate::specs::Step::branch_to))]
fn branch_to(scalar: &mut Scalar, taken: bool, target: u32) -> Result<(), Fault>
    ensures { Steps (branch_to_of taken target scalar.old) scalar.old scalar.new result }
{
    if !taken {
        scalar.advance();
        return Ok(());
    }
    if target % 4 != 0 {
        return Err(Fault::JumpMisaligned(target));
    }
    scalar.set_pc(target);
    Ok(())
}
