//! Vector loads and stores.

ghost use Rattle.std.specs.Prelude.{◌≡◌};
ghost use Rattle.region_mem.specs.Faults.{Steps};
ghost use Rattle.rv_decode.specs.Needs.{needs_of_access};
ghost use Rattle.rv_decode.specs.declared.instructions.Direction.TheVariants.{Load, Store};
ghost use Rattle.vector_core.specs.LoadsStores.{direction_step, memory_step, stride_of};
ghost use Rattle.vector_core.specs.Setup.{IsReady};

use crate::setup::Setup;
use crate::state::VectorState;
use region_mem::{Fault, Regions};
use rv_decode::{Addressing, Direction, VMem};
use scalar_core::Scalar;
use std::alloc::Allocator;
use vector_mem::{load, store};

// x[rs2], of a strided access.
fn stride(scalar: &Scalar, insn: &VMem) -> u32
    ensures { result ≡ stride_of insn.now.place scalar.now }
{
    let place = insn.place;
    match place {
        Addressing::Strided { rs2, .. } => scalar.reg(rs2),
        Addressing::Unit { .. }
        | Addressing::Indexed { .. }
        | Addressing::Mask
        | Addressing::Whole { .. } => 0,
    }
}

/// A vector load.
#[tactic(auto, unfolding(crate::specs::LoadsStores::direction_step))]
fn step_load<const VLENB: usize, A: Allocator>(
    vectors: &mut VectorState<VLENB>,
    scalar: &mut Scalar,
    setup: &Setup,
    insn: &VMem,
    memory: &Regions<A>,
) -> Result<(), Fault>
    requires ready { IsReady VLENB setup.now (needs_of_access insn.now) }
    requires direction { insn.now.direction ≡ Load }
    ensures { Steps (direction_step Load VLENB setup.now insn.now scalar.old vectors.old memory.now)
        (scalar.old, vectors.old, memory.now) (scalar.new, vectors.new, memory.now) result }
{
    let base = scalar.reg(insn.rs1);
    let stride = stride(scalar, insn);
    load(insn, &mut vectors.registers, setup, base, stride, memory)?;
    scalar.advance();
    Ok(())
}

/// A vector store.
#[tactic(auto, unfolding(crate::specs::LoadsStores::direction_step))]
fn step_store<const VLENB: usize, A: Allocator>(
    vectors: &VectorState<VLENB>,
    scalar: &mut Scalar,
    setup: &Setup,
    insn: &VMem,
    memory: &mut Regions<A>,
) -> Result<(), Fault>
    requires ready { IsReady VLENB setup.now (needs_of_access insn.now) }
    requires direction { insn.now.direction ≡ Store }
    ensures { Steps
        (direction_step Store VLENB setup.now insn.now scalar.old vectors.now memory.old)
        (scalar.old, vectors.now, memory.old) (scalar.new, vectors.now, memory.new) result }
{
    let base = scalar.reg(insn.rs1);
    let stride = stride(scalar, insn);
    store(insn, &vectors.registers, setup, base, stride, memory)?;
    scalar.advance();
    Ok(())
}

/// A vector load or store.
#[tactic(auto, unfolding(crate::specs::LoadsStores::memory_step))]
pub fn step_memory<const VLENB: usize, A: Allocator>(
    vectors: &mut VectorState<VLENB>,
    scalar: &mut Scalar,
    setup: &Setup,
    insn: &VMem,
    memory: &mut Regions<A>,
) -> Result<(), Fault>
    requires { IsReady VLENB setup.now (needs_of_access insn.now) }
    ensures { Steps (memory_step VLENB setup.now insn.now scalar.old vectors.old memory.old)
        (scalar.old, vectors.old, memory.old) (scalar.new, vectors.new, memory.new) result }
{
    let direction = insn.direction;
    match direction {
        Direction::Load => step_load(vectors, scalar, setup, insn, memory),
        Direction::Store => step_store(vectors, scalar, setup, insn, memory),
    }
}
