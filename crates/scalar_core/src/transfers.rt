//! Loads and stores ("Load and Store Instructions"). An address need not be a multiple of the
//! access's size.

ghost use Rattle.std.specs.Prelude.{◌≡◌};
ghost use Rattle.region_mem.specs.Faults.{Steps};
ghost use Rattle.region_mem.specs.Memory.{IsAccessSize};
ghost use Rattle.scalar_core.specs.Step.{load_step, loaded as loaded_of, store_step};
ghost use Rattle.scalar_core.specs.Step.{size_of_load as size_of_load_of};
ghost use Rattle.scalar_core.specs.Step.{size_of_store as size_of_store_of};

use crate::hart::Scalar;
use region_mem::{Fault, Regions};
use rv_decode::{LoadKind, Reg, Width};
use std::alloc::Allocator;

/// A load from rs1 and an offset into `rd`.
#[inline]
#[tactic(auto, unfolding(crate::specs::Step::load_step, crate::specs::Step::load_from))]
pub(crate) fn load<A: Allocator>(
    scalar: &mut Scalar,
    kind: LoadKind,
    rd: Reg,
    rs1: Reg,
    offset: i32,
    memory: &Regions<A>,
) -> Result<(), Fault>
    ensures { Steps (load_step kind rd rs1 offset scalar.old memory.now)
        scalar.old scalar.new result }
{
    let address = scalar.reg(rs1).wrapping_add_signed(offset);
    match memory.load(address, size_of_load(kind)) {
        None => Err(Fault::LoadFault(address)),
        Some(number) => {
            scalar.set_reg(rd, loaded(kind, number));
            scalar.advance();
            Ok(())
        }
    }
}

/// How many bytes a load reads.
#[inline]
#[tactic(auto, unfolding(crate::specs::Step::size_of_load))]
fn size_of_load(kind: LoadKind) -> usize
    ensures value { result ≡ size_of_load_of kind }
    ensures size { IsAccessSize result }
{
    usize::from(kind.width().bytes())
}

/// What a load puts into its register: the number, extended to 32 bits by its sign or by zeros.
#[inline]
#[tactic(auto, unfolding(crate::specs::Step::loaded))]
fn loaded(kind: LoadKind, number: u32) -> u32
    ensures { result ≡ loaded_of kind number }
{
    match kind {
        LoadKind::Byte => i32::from(((number % 256) as u8).cast_signed()).cast_unsigned(),
        LoadKind::Half => i32::from(((number % 65536) as u16).cast_signed()).cast_unsigned(),
        LoadKind::Word | LoadKind::ByteUnsigned | LoadKind::HalfUnsigned => number,
    }
}

/// A store of rs2's low bytes at rs1 and an offset.
#[inline]
#[tactic(auto, unfolding(crate::specs::Step::store_step, crate::specs::Step::store_from))]
pub(crate) fn store<A: Allocator>(
    scalar: &mut Scalar,
    size: Width,
    rs1: Reg,
    rs2: Reg,
    offset: i32,
    memory: &mut Regions<A>,
) -> Result<(), Fault>
    ensures { Steps (store_step size rs1 rs2 offset scalar.old memory.old)
        (scalar.old, memory.old) (scalar.new, memory.new) result }
{
    let address = scalar.reg(rs1).wrapping_add_signed(offset);
    let stored = memory.store(address, size_of_store(size), scalar.reg(rs2));
    if !stored {
        return Err(Fault::StoreFault(address));
    }
    scalar.advance();
    Ok(())
}

/// How many bytes a store writes.
#[inline]
#[tactic(auto, unfolding(crate::specs::Step::size_of_store))]
fn size_of_store(size: Width) -> usize
    ensures value { result ≡ size_of_store_of size }
    ensures size { IsAccessSize result }
{
    usize::from(size.bytes())
}
