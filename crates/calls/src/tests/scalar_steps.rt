//! How a step is called. What every instruction gives is tried against QEMU by the crate `conformance`.

use crate::tests::assertions::{assert_same, found};
use crate::tests::fixture::memory;
use region_mem::Fault::JumpMisaligned;
use region_mem::{Fault, Regions};
use rv_decode::{ImmediateOp, Reg, ScalarInsn, decode};
use scalar_core::{EXIT, Op, Scalar, step_op, step_scalar};
use std::process::Abort;
use vreg_groups::Vconfig;

fn step(
    rt: impl Abort + Copy,
    scalar: &mut Scalar,
    word: u32,
    memory: &mut Regions,
) -> Result<(), Fault> {
    let insn = found!(rt; decode(word));
    let config = Vconfig { vtype: 0xd0, vl: 3 };
    step_scalar(scalar, insn, memory, &config, 16)
}

#[test]
fn a_jump_that_is_refused_and_a_return(rt: HostRuntime) {
    let mut memory = memory(rt, rt.alloc());
    let mut scalar = Scalar::new(0x1000);
    let link = Reg::new(1);
    scalar.set_reg(link, EXIT);
    let refused = step(rt, &mut scalar, 0x0020_00e7, &mut memory); // jalr x1, 2(x0)
    assert_same!(rt; refused, Err(JumpMisaligned(2)));
    assert_same!(rt; scalar.reg(link), EXIT);
    assert_same!(rt; scalar.pc(), 0x1000);
    let returned = step(rt, &mut scalar, 0x0000_8067, &mut memory); // ret
    assert_same!(rt; returned, Ok(()));
    assert_same!(rt; scalar.has_ended(), true);
}

#[test]
fn an_instruction_in_flat_form(rt: HostRuntime) {
    let mut memory = memory(rt, rt.alloc());
    let mut scalar = Scalar::new(0x1000);
    let (rd, rs1) = (Reg::new(5), Reg::new(6));
    scalar.set_reg(rs1, 5);
    let op = ImmediateOp::Slti;
    let slti = Op::of(ScalarInsn::Immediate {
        op,
        rd,
        rs1,
        imm: -1,
    });
    assert_same!(rt; step_op(&mut scalar, &slti, &mut memory), Ok(()));
    assert_same!(rt; scalar.reg(rd), 0); // 5 is above -1, though below it as an unsigned number
    let jump = Op::of(ScalarInsn::Jal { rd, offset: 6 });
    assert_same!(rt; step_op(&mut scalar, &jump, &mut memory), Err(JumpMisaligned(0x100a)));
    assert_same!(rt; scalar.pc(), 0x1004);
}
