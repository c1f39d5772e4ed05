//! The state of a run, and one step.

ghost use Rattle.std.specs.Prelude.{◌≡◌};
ghost use Rattle.region_mem.specs.Faults.{Steps};
ghost use Rattle.region_mem.specs.Memory.{args_of};

use crate::memo::Memo;
use crate::registers::Registers;
use crate::spare::Spare;
use region_mem::{Args, Bytes, Fault, Regions};
use scalar_core::Scalar;
use std::alloc::{Allocator, Global};
use std::marker::Model;
use vector_core::VectorState;

/// The scalar registers, the vector registers, and memory.
#[derive(Drop)]
pub struct Machine<const VLENB: usize, A: Allocator = Global> {
    /// The scalar half of the hart.
    pub hart: Scalar,
    /// The vector half of the hart.
    pub vectors: VectorState<VLENB>,
    /// Memory.
    pub memory: Regions<A>,
    // What the words mean that were met before. Contracts do not see it.
    pub(crate) memo: Memo<A>,
}

impl<const VLENB: usize, A: Allocator> Model for Machine<VLENB, A> {
    ghost use Rattle.machine.specs.Machine.{Machine};

    ghost Value = { Machine };

    ghost view = { λ m. record { hart = m.hart; vectors = m.vectors; memory = m.memory } };
}

impl<const VLENB: usize, A: Allocator> Machine<VLENB, A> {
    ghost use Rattle.machine.specs.Run.{has_ended as has_ended_of};
    ghost use Rattle.machine.specs.MachineStep.{step as step_of};
    ghost use Rattle.machine.specs.Registers.{registers_of};

    /// Whether the run has ended, which is where pc is EXIT.
    pub fn has_ended(&self) -> bool
        ensures { result ≡ has_ended_of self.now }
    {
        self.hart.has_ended()
    }

    /// pc, x0 to x31, vl, vtype, vxrm and vxsat.
    pub fn registers(&self) -> Registers
        ensures { result ≡ registers_of self.now }
    {
        let config = self.vectors.config();
        Registers {
            pc: self.hart.pc(),
            x: self.hart.registers(),
            vl: config.vl,
            vtype: config.vtype,
            vxrm: self.hart.vxrm(),
            vxsat: self.hart.vxsat(),
        }
    }

    /// Fetches the word at pc, looks up what it means and carries it out. A fault changes nothing.
    #[tactic(auto, unfolding(crate::specs::MachineStep::step))]
    pub fn step(&mut self) -> Result<(), Fault>
        ensures { Steps (step_of VLENB self.old) self.old self.new result }
    {
        let pc = self.hart.pc();
        let Some(word) = self.memory.fetch_next(pc) else {
            return Err(Fault::FetchFault(pc));
        };
        self.memo.carry_out(
            &mut self.hart,
            &mut self.vectors,
            &mut self.memory,
            pc,
            word,
        )
    }

    /// Takes the arguments out: buffers as they stand, scalars as they were passed. The stack and
    /// the words that were met are left for another run.
    pub fn into_spare(self) -> (Args<Bytes<A>>, Option<Spare<A>>)
        ensures { result.0.places ≡ args_of self.memory }
    {
        let Machine { memory, memo, .. } = self;
        let (args, stack) = memory.into_parts();
        let spare = match stack {
            Some(stack) => Some(Spare { stack, memo }),
            None => None,
        };
        (args, spare)
    }
}
