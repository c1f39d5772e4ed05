//! The operands of vector instructions: what is read from registers, and what is written to them.

ghost use Rattle.std.specs.Prelude.{◌≡◌, false, IfSome, length, map, replicate};
ghost use Rattle.rv_decode.specs.Needs.{second as second_group};
ghost use Rattle.rv_decode.specs.declared.extents.Eew.TheVariants.{Same};
ghost use Rattle.vreg_groups.specs.Elements.{active_of, mask_bits};
ghost use Rattle.vreg_groups.specs.Group.{IsGroupInside, body_of, written};
ghost use Rattle.vreg_groups.specs.Legality.{IsInside};
ghost use Rattle.vreg_groups.specs.NewElements.{policy_of};
ghost use Rattle.rv_decode.specs.Instructions.{bytes_of_width};
ghost use Rattle.vector_core.specs.Operands.{bits_written, results_written, second_of};
ghost use Rattle.vector_mem.specs.Accesses.{low_bits};
ghost use Rattle.vector_core.specs.Setup.{IsSetup, group_at};

use crate::elements::{VectorElement, low_bits};
use crate::setup::Setup;
use rv_decode::{Eew, Reg, Source};
use scalar_core::Scalar;
use vreg_groups::{Group, MOST_ELEMENTS, VregFile};

/// Reads the body's elements, of SEW, of the group that begins at `first`.
pub fn read_body<E: VectorElement, const VLENB: usize>(
    registers: &VregFile<VLENB>,
    setup: &Setup,
    first: Reg,
    out: &mut [E],
)
    requires len { length out.old ≡ setup.now.vl }
    requires width { E.sew ≡ setup.now.vtype.sew }
    requires setup { IsSetup VLENB setup.now }
    requires inside { IsGroupInside setup.now.vtype first Same }
    ensures { map E.Element.number out.new ≡ body_of VLENB (group_at setup.now first Same)
        registers.now }
{
    let group = setup.group::<VLENB>(first, Eew::Same);
    group.read(registers, out);
}

/// Reads the elements of the second operand.
#[tactic(auto, unfolding(crate::specs::Operands::second_of))]
pub fn read_second<E: VectorElement, const VLENB: usize>(
    registers: &VregFile<VLENB>,
    scalar: &Scalar,
    setup: &Setup,
    b: Source,
    out: &mut [E],
)
    requires len { length out.old ≡ setup.now.vl }
    requires width { E.sew ≡ setup.now.vtype.sew }
    requires setup { IsSetup VLENB setup.now }
    requires inside { IfSome (second_group b) (IsInside setup.now.vtype) }
    ensures { map E.Element.number out.new ≡ second_of VLENB setup.now scalar.now b registers.now }
{
    match b {
        Source::Vector(vs1) => read_body(registers, setup, vs1, out),
        Source::Scalar(rs1) => splat_low(scalar.reg(rs1), out),
        Source::Immediate(imm) => splat_low(imm.cast_unsigned(), out),
    }
}

/// Writes the element in the low bits of a number to each place.
#[tactic(auto, using(vector_mem::specs::StepLemmas::splat_numbers))]
fn splat_low<E: VectorElement>(n: u32, out: &mut [E])
    ensures { map E.Element.number out.new ≡ replicate (length out.old)
        (low_bits (bytes_of_width E.sew) n) }
{
    splat(low_bits(n), out);
}

#[tactic(auto, using(std::proofs::lemmas::List::take_more_set, std::proofs::lemmas::List::replicate_more, std::proofs::lemmas::List::take_all))]
pub fn splat<E: VectorElement>(value: E, out: &mut [E])
    ensures { out.new ≡ replicate (length out.old) value }
{
    for element in out.iter_mut() {
        *element = value;
    }
}

/// Reads the body's bits of a mask.
pub fn read_bits<const VLENB: usize>(
    registers: &VregFile<VLENB>,
    setup: &Setup,
    mask: Reg,
    bits: &mut [bool],
)
    requires len { length bits.old ≡ setup.now.vl }
    requires setup { IsSetup VLENB setup.now }
    ensures { bits.new ≡ mask_bits VLENB mask setup.now.vl registers.now }
{
    registers.read_mask(mask, bits);
}

/// Writes the body's results to the group of a destination: nothing where vl is 0.
#[tactic(auto, unfolding(crate::specs::Operands::results_written))]
pub fn write_results<E: VectorElement, const VLENB: usize>(
    registers: &mut VregFile<VLENB>,
    setup: &Setup,
    group: &Group<VLENB>,
    masked: bool,
    results: &[E],
)
    requires size { E.SIZE ≡ group.now.bytes }
    requires setup { IsSetup VLENB setup.now }
    ensures { registers.new ≡ results_written VLENB setup.now group.now masked
        (map E.Element.number results.now) registers.old }
{
    if setup.vl == 0 {
        return;
    }
    if !masked && results.len() == setup.vl {
        write_whole(registers, setup, group, results);
        return;
    }
    write_active(registers, setup, group, masked, results);
}

/// The same where the body has elements, by the list of those that are active. It is apart, so that where this is not
/// needed there is no room for it.
#[inline(never)]
fn write_active<E: VectorElement, const VLENB: usize>(
    registers: &mut VregFile<VLENB>,
    setup: &Setup,
    group: &Group<VLENB>,
    masked: bool,
    results: &[E],
)
    requires size { E.SIZE ≡ group.now.bytes }
    requires setup { IsSetup VLENB setup.now }
    ensures { registers.new ≡ written VLENB group.now (policy_of setup.now.agnostic setup.now.vtype)
        (map E.Element.number results.now) (active_of VLENB masked setup.now.vl registers.old)
        registers.old }
{
    let mut bits = [false; MOST_ELEMENTS];
    let active = &mut bits[..setup.vl];
    registers.read_active(masked, active);
    group.write(registers, results, active, setup.policy());
}

/// The same where all of the body has results, each of them active.
fn write_whole<E: VectorElement, const VLENB: usize>(
    registers: &mut VregFile<VLENB>,
    setup: &Setup,
    group: &Group<VLENB>,
    results: &[E],
)
    requires size { E.SIZE ≡ group.now.bytes }
    requires length { length results.now ≡ setup.now.vl }
    ensures { registers.new ≡ written VLENB group.now (policy_of setup.now.agnostic setup.now.vtype)
        (map E.Element.number results.now) (active_of VLENB false setup.now.vl registers.old)
        registers.old }
{
    group.write_all(registers, results, setup.policy());
}

/// Writes the body's bits to a destination that is a mask: nothing where vl is 0.
#[tactic(auto, unfolding(crate::specs::Operands::bits_written))]
pub fn write_bits<const VLENB: usize>(
    registers: &mut VregFile<VLENB>,
    setup: &Setup,
    vd: Reg,
    masked: bool,
    results: &[bool],
)
    requires { IsSetup VLENB setup.now }
    ensures { registers.new ≡ bits_written VLENB setup.now vd masked results.now registers.old }
{
    if setup.vl != 0 {
        let mut bits = [false; MOST_ELEMENTS];
        let active = &mut bits[..setup.vl];
        registers.read_active(masked, active);
        registers.write_mask(vd, results, active, setup.mask_policy());
    }
}
