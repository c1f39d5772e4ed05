//! The first state of a run.

ghost use Rattle.std.specs.Prelude.{◌≡◌, length, IfOk, IfErr};
ghost use Rattle.region_mem.specs.Parameter.{AreArguments};
ghost use Rattle.scalar_core.specs.Entry.{entry_number};
ghost use Rattle.machine.specs.Start.{passed_at, passed_number as passed_number_of};
ghost use Rattle.machine.specs.Start.{start as start_of, start_hart as start_hart_of};
ghost use Rattle.vreg_groups.specs.VectorLength.{IsVlenb};

use crate::machine::Machine;
use crate::spare::Spare;
use elf_image::Image;
use region_mem::{Arg, Args, Bytes, Parameters, Regions};
use rv_decode::Reg;
use scalar_core::{EntryValue, Scalar, entry_value};
use std::alloc::{AllocError, Allocator};
use vector_core::VectorState;
use vreg_groups::Agnostic;

/// What an argument at a place passes.
#[tactic(auto, unfolding(crate::specs::Start::passed_number))]
fn passed_number<A: Allocator>(parameters: &Parameters, place: usize, arg: &Arg<Bytes<A>>) -> u32
    ensures { result ≡ passed_number_of parameters.now place arg.now }
{
    match arg {
        Arg::None => 0,
        Arg::Scalar(value) => *value,
        Arg::Buffer(_) => parameters.address(place).unwrap_or(0),
    }
}

/// What a register holds at the start.
fn start_number<A: Allocator>(
    parameters: &Parameters,
    places: &[Arg<Bytes<A>>],
    register: u8,
) -> u32
    requires { length places.now ≡ 8 }
    ensures { result ≡ entry_number (passed_at parameters.now places.now) register }
{
    match entry_value(register) {
        EntryValue::Number(number) => number,
        EntryValue::Passed(place) => passed_number(parameters, place, &places[place]),
    }
}

/// The scalar registers at the start.
#[tactic(auto, unfolding(crate::specs::Start::start_hart))]
fn start_hart<A: Allocator>(entry: u32, parameters: &Parameters, places: &[Arg<Bytes<A>>]) -> Scalar
    requires { length places.now ≡ 8 }
    ensures { result ≡ start_hart_of entry parameters.now places.now }
{
    let mut hart = Scalar::new(entry);
    for register in 1..32_u8 {
        hart.set_reg(
            Reg::new(register),
            start_number(parameters, places, register),
        );
    }
    hart
}

/// What `spare` holds, or a stack and words in memory of their own.
fn take_or_make<A: Allocator + Copy>(
    alloc: A,
    spare: &mut Option<Spare<A>>,
) -> Result<Spare<A>, AllocError> {
    match spare.take() {
        Some(spare) => Ok(spare),
        None => Spare::new(alloc),
    }
}

/// The machine at the start, on what `spare` holds; or want of memory, with the arguments as they
/// came. What `spare` held is then there again.
#[tactic(auto, unfolding(crate::specs::Start::start))]
pub fn start_with<const VLENB: usize, A: Allocator + Copy, B: Allocator>(
    alloc: A,
    image: &Image<B>,
    parameters: &Parameters,
    args: Args<Bytes<A>>,
    agnostic: Agnostic,
    spare: &mut Option<Spare<A>>,
) -> Result<Machine<VLENB, A>, (AllocError, Args<Bytes<A>>)>
    requires length { IsVlenb VLENB }
    requires matching { AreArguments parameters.now args.places }
    ensures start { IfOk result
        (λ m. m ≡ start_of VLENB agnostic image.now parameters.now args.places) }
    ensures back { IfErr result (λ e. e.1 ≡ args) }
{
    let hart = start_hart(image.entry(), parameters, &args.places);
    let Spare { stack, memo } = match take_or_make(alloc, spare) {
        Ok(taken) => taken,
        Err(error) => return Err((error, args)),
    };
    match Regions::on(alloc, image, parameters, args, stack) {
        Ok(memory) => Ok(Machine {
            hart,
            vectors: VectorState::new(agnostic),
            memory,
            memo,
        }),
        Err((error, args, stack)) => {
            *spare = Some(Spare { stack, memo });
            Err((error, args))
        }
    }
}

/// The same on memory of its own.
pub fn start<const VLENB: usize, A: Allocator + Copy, B: Allocator>(
    alloc: A,
    image: &Image<B>,
    parameters: &Parameters,
    args: Args<Bytes<A>>,
    agnostic: Agnostic,
) -> Result<Machine<VLENB, A>, (AllocError, Args<Bytes<A>>)>
    requires length { IsVlenb VLENB }
    requires matching { AreArguments parameters.now args.places }
    ensures start { IfOk result
        (λ m. m ≡ start_of VLENB agnostic image.now parameters.now args.places) }
    ensures back { IfErr result (λ e. e.1 ≡ args) }
{
    start_with(alloc, image, parameters, args, agnostic, &mut None)
}
