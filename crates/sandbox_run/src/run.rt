//! Whole runs.

ghost use Rattle.std.specs.Prelude.{◌≡◌, ◌⊎◌, None, IfOk, IfErr, IfSome, IsErrAnd};
ghost use Rattle.region_mem.specs.Parameter.{AreArguments, argument_error};
ghost use Rattle.sandbox_run.specs.Answer.{answer_of, final_of, last_pc, steps_of};
ghost use Rattle.sandbox_run.specs.Errors.{open_error_of};
ghost use Rattle.machine.specs.Run.{outcome, OutcomeIsFirst, RunsGoOn};
ghost use Rattle.machine.specs.Start.{start as start_of};
ghost use Rattle.machine.specs.Rooms.{StateFitsInMemory};
ghost use Rattle.vreg_groups.specs.VectorLength.{IsVlenb};

use crate::outcome::{Final, OpenError, Outcome, TriedRun};
use elf_image::Image;
use machine::{Machine, start};
use region_mem::{Args, Bytes, Parameters};
use std::alloc::{Allocator, Global};
use vreg_groups::Agnostic;

/// Runs an image, accepted or not, with every test at each step, for at most `max` steps.
///
/// The answer is the outcome of the run from the first state: ended, out of steps or trapped,
/// whichever comes first and in this order at one state, with the registers, the vector registers
/// and the arguments of the state in which it stops. A fault changes nothing and is not counted as
/// a step.
///
/// VLENB, the length of a vector register in bytes, is 16, 32 or 64. Memory for the run is taken at
/// its start alone.
///
/// # Errors
/// Arguments that do not match the parameters, in the order of [`Parameters::matches`]; `NoMemory`
/// where memory for the run was refused. The arguments come back as they were.
pub fn try_run<const VLENB: usize>(
    alloc: Global,
    image: &Image,
    parameters: &Parameters,
    args: Args,
    agnostic: Agnostic,
    max: u64,
) -> Result<Outcome<VLENB>, (OpenError, Args)>
    requires { IsVlenb VLENB }
    ensures outcome { IfOk result (λ answer. answer ≡ answer_of VLENB
        (outcome VLENB max (start_of VLENB agnostic image.now parameters.now args.places))) }
    ensures refused { IfSome (argument_error parameters.now args.places)
        (λ error. IsErrAnd result (λ e. e.0 ≡ open_error_of error)) }
    ensures memory { AreArguments parameters.now args.places
        → IfErr result (λ e. e.0 ≡ OpenError.NoMemory) }
    ensures back { IfErr result (λ e. e.1 ≡ args) }
{
    try_run_in(alloc, image, parameters, args, agnostic, max)
}

/// As [`try_run`], with the run's memory and the buffers of the arguments from any allocator, whose
/// values are small enough for the state of a run, which holds some, to fit in memory.
pub fn try_run_in<const VLENB: usize, A: Allocator + Copy, B: Allocator>(
    alloc: A,
    image: &Image<B>,
    parameters: &Parameters,
    args: Args<Bytes<A>>,
    agnostic: Agnostic,
    max: u64,
) -> Result<Outcome<VLENB, Bytes<A>>, (OpenError, Args<Bytes<A>>)>
    requires length { IsVlenb VLENB }
    requires fits { StateFitsInMemory VLENB.row A.row A.Allocator }
    ensures outcome { IfOk result (λ answer. answer ≡ answer_of VLENB
        (outcome VLENB max (start_of VLENB agnostic image.now parameters.now args.places))) }
    ensures refused { IfSome (argument_error parameters.now args.places)
        (λ error. IsErrAnd result (λ e. e.0 ≡ open_error_of error)) }
    ensures memory { AreArguments parameters.now args.places
        → IfErr result (λ e. e.0 ≡ OpenError.NoMemory) }
    ensures back { IfErr result (λ e. e.1 ≡ args) }
{
    tried(alloc, image, parameters, args, agnostic, max, &mut None)
}

/// As [`try_run`], and tells from where the last step was done. Where a run traps at a fetch, that
/// is where it jumped from.
pub fn try_run_with_last<const VLENB: usize>(
    alloc: Global,
    image: &Image,
    parameters: &Parameters,
    args: Args,
    agnostic: Agnostic,
    max: u64,
) -> Result<TriedRun<VLENB>, (OpenError, Args)>
    requires { IsVlenb VLENB }
    ensures outcome { IfOk result (λ tried. tried.outcome ≡ answer_of VLENB
        (outcome VLENB max (start_of VLENB agnostic image.now parameters.now args.places))) }
    ensures last { IfOk result (λ tried. tried.last ≡ last_pc VLENB
        (start_of VLENB agnostic image.now parameters.now args.places)
        (steps_of VLENB tried.outcome)) }
    ensures refused { IfSome (argument_error parameters.now args.places)
        (λ error. IsErrAnd result (λ e. e.0 ≡ open_error_of error)) }
    ensures memory { AreArguments parameters.now args.places
        → IfErr result (λ e. e.0 ≡ OpenError.NoMemory) }
    ensures back { IfErr result (λ e. e.1 ≡ args) }
{
    let mut last = None;
    match tried(alloc, image, parameters, args, agnostic, max, &mut last) {
        Ok(outcome) => Ok(TriedRun { outcome, last }),
        Err(refused) => Err(refused),
    }
}

/// As [`try_run_in`], and leaves in `last` from where the last step was done.
fn tried<const VLENB: usize, A: Allocator + Copy, B: Allocator>(
    alloc: A,
    image: &Image<B>,
    parameters: &Parameters,
    args: Args<Bytes<A>>,
    agnostic: Agnostic,
    max: u64,
    last: &mut Option<u32>,
) -> Result<Outcome<VLENB, Bytes<A>>, (OpenError, Args<Bytes<A>>)>
    requires length { IsVlenb VLENB }
    requires fits { StateFitsInMemory VLENB.row A.row A.Allocator }
    ensures outcome { IfOk result (λ answer. answer ≡ answer_of VLENB
        (outcome VLENB max (start_of VLENB agnostic image.now parameters.now args.places))) }
    ensures last { IfOk result (λ answer. last.new ≡ last_pc VLENB
        (start_of VLENB agnostic image.now parameters.now args.places) (steps_of VLENB answer)) }
    ensures refused { IfSome (argument_error parameters.now args.places)
        (λ error. IsErrAnd result (λ e. e.0 ≡ open_error_of error)) }
    ensures memory { AreArguments parameters.now args.places
        → IfErr result (λ e. e.0 ≡ OpenError.NoMemory) }
    ensures back { IfErr result (λ e. e.1 ≡ args) }
{
    if let Err(error) = parameters.matches(&args) {
        return Err((OpenError::from(error), args));
    }
    match start::<VLENB, A, B>(alloc, image, parameters, args, agnostic) {
        Ok(machine) => Ok(run(machine, max, last)),
        Err((_, args)) => Err((OpenError::NoMemory, args)),
    }
}

/// The run from a state on, with at most `max` steps. It leaves in `last` from where the last one was
/// done.
#[tactic(auto, unfolding(machine::specs::Run::outcome))]
fn run<const VLENB: usize, A: Allocator>(
    mut machine: Machine<VLENB, A>,
    max: u64,
    last: &mut Option<u32>,
) -> Outcome<VLENB, Bytes<A>>
    ensures outcome { result ≡ answer_of VLENB (outcome VLENB max machine) }
    ensures last { last.new ≡ last_pc VLENB machine (steps_of VLENB result) }
{
    *last = None;
    let mut steps = 0u64;
    'stepping: loop {
        if machine.has_ended() {
            return Outcome::Ended(finish(machine, steps));
        }
        if steps == max {
            return Outcome::OutOfSteps(finish(machine, steps));
        }
        let pc = machine.hart.pc();
        if let Err(fault) = machine.step() {
            return Outcome::Trapped(fault, finish(machine, steps));
        }
        *last = Some(pc);
        steps += 1;
    }
}

/// The last state of a run, taken apart.
fn finish<const VLENB: usize, A: Allocator>(
    machine: Machine<VLENB, A>,
    steps: u64,
) -> Final<VLENB, Bytes<A>>
    ensures { result ≡ final_of VLENB steps machine }
{
    let registers = machine.registers();
    let Machine {
        vectors,
        memory,
        ..
    } = machine;
    Final {
        steps,
        registers,
        vectors: vectors.into_registers(),
        args: memory.into_args(),
    }
}

/// A law, which does nothing when it runs: the outcome of a run is the first of these, in this
/// order at one state: it has ended, it has done `max` steps, its next step is a fault.
pub fn outcome_is_first()
    ensures { OutcomeIsFirst }
{}

/// A law, which does nothing when it runs: a run from the state after j steps goes on as the run
/// does.
pub fn runs_go_on()
    ensures { RunsGoOn }
{}
