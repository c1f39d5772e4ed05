//! The vector half of a hart's state.

ghost use Rattle.std.specs.Prelude.{◌≡◌, ◌<◌, ◌+◌, ◌*◌, slice_index};
ghost use Rattle.vector_core.specs.Vectors.{new_vectors, IsVectors};
ghost use Rattle.vreg_groups.specs.VectorLength.{IsLength, IsVlenb};
ghost use Rattle.vreg_groups.specs.VectorType.{type_in, vtype_of};
ghost use Rattle.vector_core.specs.Setup.{setup_of};

use crate::setup::Setup;
use rv_decode::Reg;
use std::marker::Model;
use vreg_groups::{Agnostic, Vconfig, VregFile, Vtype};

/// The vector registers, of `VLENB` bytes each (16, 32 or 64), vtype and vl, and what becomes of agnostic elements throughout
/// the run.
#[derive(Drop)]
pub struct VectorState<const VLENB: usize> {
    pub(crate) registers: VregFile<VLENB>,
    pub(crate) config: Vconfig,
    pub(crate) agnostic: Agnostic,
}

impl<const VLENB: usize> Model for VectorState<VLENB> {
    ghost use Rattle.vreg_groups.specs.VectorLength.{IsConfig, IsVlenb};
    ghost use Rattle.vector_core.specs.Vectors.{Vectors};

    ghost Value = { Vectors };

    ghost view = { λ v.
        record { registers = v.registers; config = v.config; agnostic = v.agnostic } };

    ghost invariant = { λ v. IsVlenb VLENB × IsConfig VLENB v.config };
}

impl<const VLENB: usize> VectorState<VLENB> {
    /// The state where a run starts: registers of zeros, vill set and vl 0.
    pub fn new(agnostic: Agnostic) -> Self
        requires { IsVlenb VLENB }
        ensures { result ≡ new_vectors VLENB agnostic }
    {
        VectorState {
            registers: VregFile::new(),
            config: Vconfig::none(),
            agnostic,
        }
    }

    /// A law of every state: VLEN is 128, 256 or 512, and vl at most VLMAX.
    pub fn state_law(&self)
        ensures { IsVectors VLENB self.now }
    {
        let _ = &self.config;
    }

    /// Another: vl fits the type that an instruction works under.
    #[tactic(auto, using(crate::proofs::Lengths::length_fits), unfolding(vreg_groups::specs::VectorLength::IsConfig))]
    pub(crate) fn length_law(&self)
        ensures { IsLength VLENB (type_in (vtype_of self.now.config.vtype)) self.now.config.vl }
    {
        let _ = &self.config;
    }

    /// vtype and vl.
    pub fn config(&self) -> Vconfig
        ensures { result ≡ self.now.config }
    {
        self.config
    }

    /// What becomes of agnostic elements.
    pub fn agnostic(&self) -> Agnostic
        ensures { result ≡ self.now.agnostic }
    {
        self.agnostic
    }

    /// What an instruction works under, by the vector type that legality decoded.
    pub(crate) fn setup(&self, vtype: Vtype) -> Setup
        ensures { result ≡ setup_of vtype self.now }
    {
        Setup {
            vtype,
            vl: self.config.vl as usize,
            agnostic: self.agnostic,
        }
    }

    /// The vector registers.
    pub fn registers(&self) -> &VregFile<VLENB>
        ensures { result.now ≡ self.now.registers }
    {
        &self.registers
    }

    /// The vector registers alone.
    pub fn into_registers(self) -> VregFile<VLENB>
        ensures { result ≡ self.entry.registers }
    {
        let VectorState {
            registers,
            config: _,
            agnostic: _,
        } = self;
        registers
    }

    /// Byte `i` of a register.
    pub fn byte(&self, register: Reg, i: usize) -> u8
        requires { i < VLENB }
        ensures { result ≡ slice_index self.now.registers (register * VLENB + i) }
    {
        self.registers.byte(register, i)
    }
}
