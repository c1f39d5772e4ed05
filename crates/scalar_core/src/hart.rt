//! The scalar half of a hart's state.

ghost use Rattle.std.specs.Prelude.{◌≡◌, ◌<◌, ◌==◌, ◌+◌, ◌*◌, ◌/◌, ◌%◌, ◌^◌, ℕ, slice_index};
ghost use Rattle.scalar_core.specs.Hart.{IsHart, advanced, at_pc, exit, new_hart, next_pc};
ghost use Rattle.scalar_core.specs.Hart.{reg_of, with_reg};

use rv_decode::Reg;
use std::marker::Model;

/// The address that ends a run: a run has ended where pc is this.
pub const EXIT: u32 = 0xffff_fff0;

/// pc, x0 to x31, and the CSRs vxrm (the rounding mode of fixed-point vector instructions) and
/// vxsat (their saturation flag). x0 is always 0.
#[derive(Drop)]
pub struct Scalar {
    pc: u32,
    x: [u32; 32],
    vxrm: u32,
    vxsat: u32,
}

impl Model for Scalar {
    ghost use Rattle.std.specs.Prelude.{◌≡◌, ◌<◌, slice_index};
    ghost use Rattle.scalar_core.specs.Hart.{Hart};

    ghost Value = { Hart };

    ghost view = { λ s. record { pc = s.pc; x = s.x; vxrm = s.vxrm; vxsat = s.vxsat } };

    ghost invariant = { λ s. (slice_index s.x 0 ≡ 0) × (s.vxrm < 4) × (s.vxsat < 2) };
}

impl Scalar {
    /// The state at this pc whose registers, vxrm and vxsat are all 0.
    pub fn new(pc: u32) -> Scalar
        ensures { result ≡ new_hart pc }
    {
        Scalar {
            pc,
            x: [0; 32],
            vxrm: 0,
            vxsat: 0,
        }
    }

    /// The address of the instruction that comes next.
    pub fn pc(&self) -> u32
        ensures { result ≡ self.now.pc }
    {
        self.pc
    }

    /// The address of the word after the one at pc, modulo 2^32.
    pub(crate) fn next_pc(&self) -> u32
        ensures { result ≡ next_pc self.now }
    {
        self.pc.wrapping_add(4)
    }

    /// Whether the run has ended, which is where pc is [`EXIT`].
    pub fn has_ended(&self) -> bool
        ensures { result ≡ (self.now.pc == exit) }
    {
        self.pc == EXIT
    }

    /// The number in a register; x0 reads 0.
    pub fn reg(&self, register: Reg) -> u32
        ensures { result ≡ reg_of register self.now }
    {
        let x = &self.x;
        x[register.number() as usize]
    }

    /// The numbers in x0 to x31.
    pub fn registers(&self) -> [u32; 32]
        ensures { result ≡ self.now.x }
    {
        self.x
    }

    /// The rounding mode of fixed-point vector instructions ("Vector Fixed-Point Rounding Mode
    /// Register vxrm" of the "V" extension).
    pub fn vxrm(&self) -> u32
        ensures value { result ≡ self.now.vxrm }
        ensures bound { result < 4 }
    {
        self.vxrm
    }

    /// The saturation flag of fixed-point vector instructions ("Vector Fixed-Point Saturation Flag
    /// vxsat" of the "V" extension).
    pub fn vxsat(&self) -> u32
        ensures value { result ≡ self.now.vxsat }
        ensures bound { result < 2 }
    {
        self.vxsat
    }

    /// vcsr, which shows vxsat at bit 0 and vxrm at bits 2:1.
    pub(crate) fn vcsr(&self) -> u32
        ensures { result ≡ 2 * self.now.vxrm + self.now.vxsat }
    {
        2 * self.vxrm + self.vxsat
    }

    /// Writes a register; a write to x0 has no effect.
    #[tactic(auto, unfolding(crate::specs::Hart::with_reg))]
    pub fn set_reg(&mut self, register: Reg, value: u32)
        ensures { self.new ≡ with_reg register value self.old }
    {
        let number = register.number() as usize;
        if number != 0 {
            self.x[number] = value;
        }
    }

    /// Goes to an address.
    pub fn set_pc(&mut self, pc: u32)
        ensures { self.new ≡ at_pc pc self.old }
    {
        self.pc = pc;
    }

    /// Goes to the next word.
    pub fn advance(&mut self)
        ensures { self.new ≡ advanced self.old }
    {
        self.pc = self.pc.wrapping_add(4);
    }

    /// Writes vxrm by the number's low two bits; the others are ignored.
    pub fn set_vxrm(&mut self, value: u32)
        ensures { self.new ≡ record self.old { vxrm = value % 4 } }
    {
        self.vxrm = value % 4;
    }

    /// Writes vxsat by the number's low bit; the others are ignored.
    pub fn set_vxsat(&mut self, value: u32)
        ensures { self.new ≡ record self.old { vxsat = value % 2 } }
    {
        self.vxsat = value % 2;
    }

    /// Writes vxsat by bit 0 of the number and vxrm by bits 2:1; the others are ignored.
    pub(crate) fn set_vcsr(&mut self, value: u32)
        ensures { self.new ≡ record self.old { vxrm = value / 2 % 4; vxsat = value % 2 } }
    {
        self.set_vxrm(value / 2);
        self.set_vxsat(value);
    }

    /// A law, which does nothing when it runs: each state is that of a hart, with 32 registers of
    /// 32 bits, and x0 is 0.
    pub fn state_law(&self)
        ensures { IsHart self.now }
    {
        let _pc = self.pc;
        let _count = count_of(&self.x);
    }
}

/// How many numbers there are; each fits 32 bits.
fn count_of(numbers: &[u32]) -> usize
    ensures { (k : ℕ) → slice_index numbers.now k < 2 ^ 32 }
{
    numbers.len()
}
