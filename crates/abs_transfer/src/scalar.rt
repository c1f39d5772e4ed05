//! What each scalar instruction makes of what is known, or why it is refused.
ghost use Rattle.std.specs.Prelude.{◌≡◌, ◌<◌, ◌≤◌, length, IfErr, OnErr, OnOk, Ok, Err};
ghost use Rattle.scalar_core.specs.Arithmetic.{unsigned};
ghost use Rattle.scalar_core.specs.Step.{size_of_load as size_of_load_of};
ghost use Rattle.scalar_core.specs.Step.{size_of_store as size_of_store_of};
ghost use Rattle.abs_domain.specs.Numbers.{value_at, with_result};
ghost use Rattle.abs_domain.specs.Effects.{immediate_effect as immediate_effect_of};
ghost use Rattle.abs_domain.specs.Effects.{register_effect as register_effect_of};
ghost use Rattle.abs_domain.specs.Effects.{load_effect as load_effect_of};
ghost use Rattle.abs_domain.specs.Effects.{shift_effect as shift_effect_of};
ghost use Rattle.abs_domain.specs.Effects.{constant_effect as constant_effect_of};
ghost use Rattle.abs_transfer.specs.Scalar.{address_range as address_range_of};
ghost use Rattle.abs_transfer.specs.Scalar.{if_allowed, scalar_after as scalar_after_of};
ghost use Rattle.abs_transfer.specs.Scalar.{load_check as load_check_of};
ghost use Rattle.abs_transfer.specs.Scalar.{store_check as store_check_of};

use abs_domain::{
    MOST_ATOMS, Numbers, Value, Why, Zone, computed_range, constant_effect, immediate_effect,
    load_allowed, load_effect, offset_form, offset_range, register_effect, shift_effect,
    store_allowed,
};
use linear_facts::Range;
use rv_decode::{ImmediateOp, LoadKind, Reg, RegisterOp, ScalarInsn, ShiftOp, Width};
use std::alloc::Allocator;

/// How many bytes a load reads.
#[tactic(auto, unfolding(scalar_core::specs::Step::size_of_load))]
fn size_of_load(kind: LoadKind) -> u64
    ensures value { result ≡ size_of_load_of kind }
    ensures few { result ≤ 4 }
{
    u64::from(kind.width().bytes())
}

/// How many bytes a store writes.
#[tactic(auto, unfolding(scalar_core::specs::Step::size_of_store))]
fn size_of_store(size: Width) -> u64
    ensures value { result ≡ size_of_store_of size }
    ensures few { result ≤ 4 }
{
    u64::from(size.bytes())
}

/// What is known of a register.
fn value_in<A: Allocator>(numbers: &Numbers<A>, register: Reg) -> Value<'_>
    ensures { result ≡ value_at numbers.now register }
{
    numbers.value(usize::from(register.number()))
}

/// The range of an address: the number of rs1 and a signed offset.
#[tactic(auto, unfolding(crate::specs::Scalar::address_range))]
pub fn address_range<A: Allocator>(numbers: &Numbers<A>, rs1: Reg, offset: i32) -> Range
    ensures { result ≡ address_range_of rs1 (unsigned offset) numbers.now }
{
    let n = offset.cast_unsigned();
    let base = value_in(numbers, rs1);
    let form = offset_form(base.form, n);
    computed_range(offset_range(n, base.range), form.range_of(&numbers.table()))
}

/// The answer on a store of this many bytes.
#[tactic(auto, unfolding(crate::specs::Scalar::store_check))]
fn store_check<A: Allocator>(
    numbers: &Numbers<A>,
    rs1: Reg,
    offset: i32,
    size: u64,
    zones: &[Zone],
) -> Result<(), Why>
    requires { size ≤ 4 }
    ensures { result ≡ store_check_of rs1 offset size zones.now numbers.now }
{
    let range = address_range(numbers, rs1, offset);
    store_allowed(u64::from(range.lo), u64::from(range.hi) + size, zones)
}

/// A number that stands in the instruction, or is an address beside it.
fn constant<A: Allocator>(numbers: &mut Numbers<A>, rd: Reg, n: u32)
    requires { length numbers.old.atoms < MOST_ATOMS }
    ensures { numbers.new ≡ with_result rd (constant_effect_of n) numbers.old }
{
    numbers.set_result(rd, constant_effect(n));
}

/// An instruction on a register and an immediate.
fn immediate<A: Allocator>(numbers: &mut Numbers<A>, op: ImmediateOp, rd: Reg, rs1: Reg, imm: i32)
    requires { length numbers.old.atoms < MOST_ATOMS }
    ensures { numbers.new ≡ with_result rd
        (immediate_effect_of op (value_at numbers.old rs1) (unsigned imm)) numbers.old }
{
    let effect = immediate_effect(op, &value_in(numbers, rs1), imm);
    numbers.set_result(rd, effect);
}

/// A shift by an amount that stands in the instruction.
fn shift<A: Allocator>(numbers: &mut Numbers<A>, op: ShiftOp, rd: Reg, rs1: Reg, amount: u32)
    requires { length numbers.old.atoms < MOST_ATOMS }
    ensures { numbers.new ≡ with_result rd
        (shift_effect_of op (value_at numbers.old rs1) amount) numbers.old }
{
    let effect = shift_effect(op, &value_in(numbers, rs1), amount);
    numbers.set_result(rd, effect);
}

/// An instruction on two registers.
fn registers<A: Allocator>(numbers: &mut Numbers<A>, op: RegisterOp, rd: Reg, rs1: Reg, rs2: Reg)
    requires { length numbers.old.atoms < MOST_ATOMS }
    ensures { numbers.new ≡ with_result rd
        (register_effect_of op (value_at numbers.old rs1) (value_at numbers.old rs2)) numbers.old }
{
    let effect = register_effect(op, &value_in(numbers, rs1), &value_in(numbers, rs2));
    numbers.set_result(rd, effect);
}

/// A load, where it is allowed.
#[tactic(auto, unfolding(crate::specs::Scalar::if_allowed, crate::specs::Scalar::load_check))]
fn load<A: Allocator>(
    numbers: &mut Numbers<A>,
    kind: LoadKind,
    rd: Reg,
    rs1: Reg,
    offset: i32,
    zones: &[Zone],
) -> Result<(), Why>
    requires { length numbers.old.atoms < MOST_ATOMS }
    ensures ok { OnOk result
        (if_allowed (load_check_of rs1 offset (size_of_load_of kind) zones.now numbers.old)
        (with_result rd (load_effect_of kind) numbers.old) ≡ Ok numbers.new) }
    ensures err { IfErr result (λ why.
        if_allowed (load_check_of rs1 offset (size_of_load_of kind) zones.now numbers.old)
        (with_result rd (load_effect_of kind) numbers.old) ≡ Err why) }
    ensures kept { OnErr result (numbers.new ≡ numbers.old) }
{
    let range = address_range(numbers, rs1, offset);
    let end = u64::from(range.hi) + size_of_load(kind);
    load_allowed(u64::from(range.lo), end, zones)?;
    numbers.set_result(rd, load_effect(kind));
    Ok(())
}

/// What an instruction of RV32I or M at `pc` makes of what is known. Where it is refused nothing is changed: a load or
/// store has to lie in one of the zones, whatever its address may be.
#[tactic(auto, unfolding(crate::specs::Scalar::scalar_after, crate::specs::Scalar::if_allowed))]
pub fn after_scalar<A: Allocator>(
    numbers: &mut Numbers<A>,
    pc: u32,
    insn: ScalarInsn,
    zones: &[Zone],
) -> Result<(), Why>
    requires { length numbers.old.atoms < MOST_ATOMS }
    ensures ok { OnOk result (scalar_after_of pc insn zones.now numbers.old ≡ Ok numbers.new) }
    ensures err { IfErr result (λ why. scalar_after_of pc insn zones.now numbers.old ≡ Err why) }
    ensures kept { OnErr result (numbers.new ≡ numbers.old) }
{
    match insn {
        ScalarInsn::Lui { rd, imm } => constant(numbers, rd, imm),
        ScalarInsn::Auipc { rd, imm } => constant(numbers, rd, pc.wrapping_add(imm)),
        ScalarInsn::Jal { rd, .. } => constant(numbers, rd, pc.wrapping_add(4)),
        ScalarInsn::Jalr { rd, .. } => constant(numbers, rd, pc.wrapping_add(4)),
        ScalarInsn::Load {
            kind,
            rd,
            rs1,
            offset,
        } => return load(numbers, kind, rd, rs1, offset, zones),
        ScalarInsn::Store {
            size,
            rs1,
            offset,
            ..
        } => return store_check(numbers, rs1, offset, size_of_store(size), zones),
        ScalarInsn::Immediate { op, rd, rs1, imm } => immediate(numbers, op, rd, rs1, imm),
        ScalarInsn::ShiftImmediate {
            op,
            rd,
            rs1,
            amount,
        } => shift(numbers, op, rd, rs1, amount),
        ScalarInsn::Register { op, rd, rs1, rs2 } => registers(numbers, op, rd, rs1, rs2),
        ScalarInsn::Branch { .. } | ScalarInsn::Fence | ScalarInsn::Ecall => (),
    }
    Ok(())
}
