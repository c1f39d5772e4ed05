//! One step of a vector instruction.

ghost use Rattle.region_mem.specs.Faults.{Steps};
ghost use Rattle.rv_decode.specs.Needs.{needs_of};
ghost use Rattle.vector_core.specs.Setup.{IsReady};
ghost use Rattle.vector_core.specs.Step.{IsJudged, legal_step, vector_step};

use crate::arithmetic::arith;
use crate::configuration::set_type;
use crate::loads_stores::step_memory;
use crate::masks::apply_mask;
use crate::moves::apply_move;
use crate::permutations::permute;
use crate::reductions::reduce;
use crate::setup::Setup;
use crate::state::VectorState;
use region_mem::{Fault, Regions};
use rv_decode::{Insn, VMem};
use scalar_core::Scalar;
use std::alloc::Allocator;
use vreg_groups::{Vconfig, Vtype, legal_access_type, legal_type};

/// The step of an instruction that is legal.
#[tactic(auto, unfolding(crate::specs::Step::legal_step, crate::specs::Step::arith_step, crate::specs::Permutations::perm_step, crate::specs::Reductions::reduce_step, rv_decode::specs::Needs::needs_of))]
fn step_legal<const VLENB: usize, A: Allocator>(
    vectors: &mut VectorState<VLENB>,
    scalar: &mut Scalar,
    setup: &Setup,
    insn: &Insn,
    memory: &mut Regions<A>,
) -> Result<(), Fault>
    requires { IsReady VLENB setup.now (needs_of insn.now) }
    ensures { Steps (legal_step VLENB setup.now insn.now scalar.old vectors.old memory.old)
        (scalar.old, vectors.old, memory.old) (scalar.new, vectors.new, memory.new) result }
{
    match insn {
        Insn::Scalar(_) | Insn::Csr(_) => return Ok(()),
        Insn::VMem(insn) => return step_memory(vectors, scalar, setup, insn, memory),
        Insn::VSet(insn) => set_type(vectors, scalar, insn),
        Insn::VArith(insn) => {
            let saturated = arith(&mut vectors.registers, scalar, setup, insn);
            if saturated {
                scalar.set_vxsat(1);
            }
        }
        Insn::VMask(insn) => apply_mask(vectors, scalar, setup, insn),
        Insn::VPerm(insn) => permute(&mut vectors.registers, scalar, setup, insn),
        Insn::VReduce(insn) => reduce(&mut vectors.registers, setup, insn),
        Insn::VMove(insn) => apply_move(vectors, scalar, setup, insn),
    }
    scalar.advance();
    Ok(())
}

/// One step by a vector instruction `insn`, as the meaning of the word at pc. One of a scalar class does nothing here.
///
/// An instruction that is not legal under vtype is `Illegal` with the word. A load or store is `LoadFault` or `StoreFault`
/// with the address of the lowest-numbered active element that is not permitted. A step that faults changes nothing; any
/// other moves pc on to the next word.
#[tactic(auto, unfolding(crate::specs::Step::vector_step))]
pub fn step_vector<const VLENB: usize, A: Allocator>(
    vectors: &mut VectorState<VLENB>,
    scalar: &mut Scalar,
    word: u32,
    insn: Insn,
    memory: &mut Regions<A>,
) -> Result<(), Fault>
    ensures { Steps (vector_step VLENB insn word scalar.old vectors.old memory.old)
        (scalar.old, vectors.old, memory.old) (scalar.new, vectors.new, memory.new) result }
{
    vectors.state_law();
    let Some(vtype) = legal_type(&vectors.config, &insn) else {
        return Err(Fault::Illegal(word));
    };
    let setup = vectors.setup(vtype);
    step_legal(vectors, scalar, &setup, &insn, memory)
}

/// What legality says of an instruction under vtype: the vector type that it works under, or `None` where it is not legal.
/// It depends on nothing else, so it may be remembered as long as vtype stays.
#[tactic(auto, unfolding(vreg_groups::specs::Legality::is_legal))]
pub fn judge(config: &Vconfig, insn: &Insn) -> Option<Vtype>
    ensures { IsJudged config.now.vtype insn.now result }
{
    legal_type(config, insn)
}

/// As [`step_vector`], where `judge` told before what legality says of the instruction under vtype as it stands.
#[tactic(auto, unfolding(crate::specs::Step::vector_step, vreg_groups::specs::Legality::is_legal))]
pub fn step_known<const VLENB: usize, A: Allocator>(
    vectors: &mut VectorState<VLENB>,
    scalar: &mut Scalar,
    word: u32,
    insn: &Insn,
    judged: Option<Vtype>,
    memory: &mut Regions<A>,
) -> Result<(), Fault>
    requires { IsJudged vectors.old.config.vtype insn.now judged }
    ensures { Steps (vector_step VLENB insn.now word scalar.old vectors.old memory.old)
        (scalar.old, vectors.old, memory.old) (scalar.new, vectors.new, memory.new) result }
{
    vectors.state_law();
    vectors.length_law();
    let Some(vtype) = judged else {
        return Err(Fault::Illegal(word));
    };
    let setup = vectors.setup(vtype);
    step_legal(vectors, scalar, &setup, insn, memory)
}

/// As [`step_vector`] by a vector load or store.
#[tactic(auto, unfolding(crate::specs::Step::vector_step, crate::specs::Step::legal_step, rv_decode::specs::Needs::needs_of))]
pub fn step_access<const VLENB: usize, A: Allocator>(
    vectors: &mut VectorState<VLENB>,
    scalar: &mut Scalar,
    word: u32,
    access: &VMem,
    memory: &mut Regions<A>,
) -> Result<(), Fault>
    ensures { Steps
        (vector_step VLENB (Insn.VMem access.now) word scalar.old vectors.old memory.old)
        (scalar.old, vectors.old, memory.old) (scalar.new, vectors.new, memory.new) result }
{
    vectors.state_law();
    match legal_access_type(&vectors.config, access) {
        None => Err(Fault::Illegal(word)),
        Some(vtype) => {
            let setup = vectors.setup(vtype);
            step_memory(vectors, scalar, &setup, access, memory)
        }
    }
}
