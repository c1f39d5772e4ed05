//! What an instruction makes of what is known, and where it leads.
ghost use Rattle.std.specs.Prelude.{◌≡◌, ◌<◌, ◌+◌, length, IfErr, IfOk, OnErr, OnOk, Ok, Err};
ghost use Rattle.abs_transfer.specs.Scalar.{scalar_after};
ghost use Rattle.abs_state.specs.After.{after_of, jump_way as jump_way_of, way_of};

use crate::state::{Abstract, MOST_WORDS, Way};
use abs_domain::{MOST_ATOMS, Numbers, Why, Zone, known};
use abs_transfer::{address_range, after_csr, after_scalar};
use arrayvec::ArrayVec;
use rv_decode::{CsrInsn, Insn, ScalarInsn, integer_computation, vector_arithmetic};
use scalar_core::EXIT;
use std::alloc::Allocator;

/// To one address.
fn to(target: u32) -> Way
    ensures { result ≡ Way.To target }
{
    Way::To { target }
}

/// A jump to an address, if it is known, with its bit 0 cleared.
#[tactic(auto, unfolding(crate::specs::After::jump_way))]
fn jump_way(address: Option<u32>) -> Way
    ensures { result ≡ jump_way_of address }
{
    match address {
        Some(address) => to(address - address % 2),
        None => Way::Unknown,
    }
}

/// Where an instruction of RV32I or M at `pc` leads, by what is known of the numbers before it.
#[tactic(auto, unfolding(crate::specs::After::way_of))]
fn way<A: Allocator>(pc: u32, insn: &ScalarInsn, numbers: &Numbers<A>) -> Way
    ensures { result ≡ way_of pc insn.now numbers.now }
{
    let next = pc.wrapping_add(4);
    match *insn {
        ScalarInsn::Jal { offset, .. } => to(pc.wrapping_add_signed(offset)),
        ScalarInsn::Jalr { rs1, offset, .. } => jump_way(known(address_range(
            numbers, rs1, offset,
        ))),
        ScalarInsn::Branch {
            condition,
            rs1,
            rs2,
            offset,
        } => Way::Fork {
            condition,
            rs1,
            rs2,
            target: pc.wrapping_add_signed(offset),
            next,
        },
        ScalarInsn::Load { .. }
        | ScalarInsn::Store { .. }
        | ScalarInsn::Fence
        | integer_computation!() => to(next),
        ScalarInsn::Ecall => to(EXIT),
    }
}

/// Puts what an instruction of RV32I or M makes of the numbers into them. The answer is where it leads.
fn put<A: Allocator>(
    numbers: &mut Numbers<A>,
    pc: u32,
    insn: ScalarInsn,
    zones: &ArrayVec<Zone, 25>,
) -> Result<Way, Why>
    requires { length numbers.old.atoms < MOST_ATOMS }
    ensures way { IfOk result (λ way. way ≡ way_of pc insn numbers.old) }
    ensures ok { OnOk result (scalar_after pc insn zones.now.items numbers.old ≡ Ok numbers.new) }
    ensures err { IfErr result (λ why.
        scalar_after pc insn zones.now.items numbers.old ≡ Err why) }
    ensures kept { OnErr result (numbers.new ≡ numbers.old) }
{
    let way = way(pc, &insn, numbers);
    after_scalar(numbers, pc, insn, zones.as_slice())?;
    Ok(way)
}

impl<A: Allocator> Abstract<A> {
    /// An instruction of RV32I or M.
    #[tactic(auto, unfolding(crate::specs::After::after_of, crate::specs::After::taken), using(crate::proofs::Growth::scalar_grows))]
    fn take_scalar(&mut self, pc: u32, insn: ScalarInsn) -> Result<(), Why>
        requires { self.old.words < MOST_WORDS }
        ensures ok { OnOk result (after_of pc (Insn.Scalar insn) self.old ≡ Ok self.new) }
        ensures err { IfErr result (λ why. after_of pc (Insn.Scalar insn) self.old ≡ Err why) }
        ensures kept { OnErr result (self.new ≡ self.old) }
        ensures counts { OnOk result (self.new.words ≡ self.old.words + 1) }
    {
        self.way = put(&mut self.numbers, pc, insn, &self.zones)?;
        self.words += 1;
        Ok(())
    }

    /// An instruction on a CSR.
    #[tactic(auto, unfolding(crate::specs::After::after_of, crate::specs::After::taken), using(crate::proofs::Growth::csr_grows))]
    fn take_csr(&mut self, pc: u32, insn: CsrInsn)
        requires { self.old.words < MOST_WORDS }
        ensures state { after_of pc (Insn.Csr insn) self.old ≡ Ok self.new }
        ensures counts { self.new.words ≡ self.old.words + 1 }
    {
        after_csr(&mut self.numbers, self.vlenb, insn);
        self.words += 1;
        self.way = to(pc.wrapping_add(4));
    }

    /// What the instruction at `pc` makes of what is known, after fewer than [`MOST_WORDS`]
    /// instructions. Where it is refused nothing is changed: a vector instruction has to be legal
    /// ([`Why::IllegalWord`]), for which vtype may have to be known ([`Why::VtypeUnknown`]), and what a load or store
    /// accesses has to lie in one of the zones, whatever its address may be ([`Why::AccessNotProved`],
    /// [`Why::ReadOnly`]).
    #[tactic(auto, unfolding(crate::specs::After::after_of))]
    pub fn after(&mut self, pc: u32, insn: &Insn) -> Result<(), Why>
        requires { self.old.words < MOST_WORDS }
        ensures ok { OnOk result (after_of pc insn.now self.old ≡ Ok self.new) }
        ensures err { IfErr result (λ why. after_of pc insn.now self.old ≡ Err why) }
        ensures kept { OnErr result (self.new ≡ self.old) }
        ensures counts { OnOk result (self.new.words ≡ self.old.words + 1) }
    {
        match *insn {
            Insn::Scalar(insn) => self.take_scalar(pc, insn),
            Insn::Csr(insn) => {
                self.take_csr(pc, insn);
                Ok(())
            }
            Insn::VSet(insn) => {
                self.take_vset(pc, insn);
                Ok(())
            }
            Insn::VMem(_) | vector_arithmetic!() => self.take_vector(pc, insn),
        }
    }
}
