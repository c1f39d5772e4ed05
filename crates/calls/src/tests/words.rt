//! How the calls are used. The words come from the LLVM assembler; the whole table is tried against it by the crate
//! `conformance`.

use crate::tests::assertions::assert_same;
use rv_decode::*;
use std::process::Abort;

#[test]
fn widths_and_operands(rt: HostRuntime) {
    for (width, bits, bytes) in [(Width::W8, 8, 1), (Width::W16, 16, 2), (Width::W32, 32, 4)] {
        assert_same!(rt; width.bits(), bits);
        assert_same!(rt; width.bytes(), bytes);
    }
    for (kind, width) in [
        (LoadKind::ByteUnsigned, Width::W8),
        (LoadKind::Half, Width::W16),
    ] {
        assert_same!(rt; kind.width(), width);
    }
    // vzext.vf4 reads elements of a quarter of SEW
    assert_same!(rt; Fraction::Quarter.eew(), Eew::Quarter);
    expect_operands(rt);
}

/// Those of vmsltu.vx v1, v4, x9, v0.t.
fn expect_operands(rt: impl Abort + Copy) {
    let insn = Insn::VArith(VArith::Compare {
        op: CompareOp::Ltu,
        vd: Reg::new(1),
        vs2: Reg::new(4),
        b: Source::Scalar(Reg::new(9)),
        masked: true,
    });
    let operands = needs(&insn);
    let bits = Operand {
        first: Reg::new(1),
        extent: Extent::Mask,
    };
    assert_same!(rt; operands.destination, Some(bits));
    assert_same!(rt; operands.vs1, None);
    assert_same!(rt; operands.is_masked, true);
}

#[test]
fn a_word_of_each_scalar_class(rt: HostRuntime) {
    // lb x13, -2048(x14)
    let insn = Insn::Scalar(ScalarInsn::Load {
        kind: LoadKind::Byte,
        rd: Reg::new(13),
        rs1: Reg::new(14),
        offset: -2048,
    });
    assert_same!(rt; decode(0x8007_0683), Some(insn));
    // csrrs x3, vxrm, x4
    let insn = Insn::Csr(CsrInsn {
        action: CsrAction::Set,
        csr: CsrName::Vxrm,
        source: CsrSource::Register(Reg::new(4)),
        rd: Reg::new(3),
    });
    assert_same!(rt; decode(0x00a2_21f3), Some(insn));
    // vsetvli x5, x12, e8, m1, ta, ma
    let insn = Insn::VSet(VSet::Vsetvli {
        rd: Reg::new(5),
        rs1: Reg::new(12),
        vtype: 0xc0,
    });
    assert_same!(rt; decode(0x0c06_72d7), Some(insn));
    assert_same!(rt; decode(0x0010_0073), None); // ebreak
}

const TWO_REGISTERS: Addressing = Addressing::Whole {
    width: Width::W16,
    count: Count::Two,
};

#[test]
fn a_word_of_each_vector_class(rt: HostRuntime) {
    // vand.vi v15, v29, -1, v0.t
    let insn = Insn::VArith(VArith::Int {
        op: IntOp::And,
        vd: Reg::new(15),
        vs2: Reg::new(29),
        b: Source::Immediate(-1),
        masked: true,
    });
    assert_same!(rt; decode(0x25df_b7d7), Some(insn));
    for (word, place) in [
        // vluxei16.v v8, (x10), v4, v0.t
        (
            0x0445_5407,
            Addressing::Indexed {
                width: Width::W16,
                vs2: Reg::new(4),
                ordered: false,
                masked: true,
            },
        ),
        (0x2285_5407, TWO_REGISTERS), // vl2re16.v v8, (x10)
    ] {
        let insn = Insn::VMem(VMem {
            direction: Direction::Load,
            place,
            values: Reg::new(8),
            rs1: Reg::new(10),
        });
        assert_same!(rt; decode(word), Some(insn));
    }
    assert_same!(rt; decode(0x2285_5487), None); // two registers from v9 on
}

#[test]
fn a_word_of_each_class_on_elements(rt: HostRuntime) {
    // vcpop.m x5, v3, v0.t
    let insn = Insn::VMask(VMask::Count {
        rd: Reg::new(5),
        vs2: Reg::new(3),
        masked: true,
    });
    assert_same!(rt; decode(0x4038_22d7), Some(insn));
    // vslideup.vi v8, v4, 31
    let insn = Insn::VPerm(VPerm::SlideUp {
        vd: Reg::new(8),
        vs2: Reg::new(4),
        offset: Offset::Immediate(31),
        masked: false,
    });
    assert_same!(rt; decode(0x3a4f_b457), Some(insn));
    // vredmaxu.vs v2, v8, v3, v0.t
    let insn = Insn::VReduce(VReduce::Fold {
        op: FoldOp::Maxu,
        vd: Reg::new(2),
        vs2: Reg::new(8),
        vs1: Reg::new(3),
        masked: true,
    });
    assert_same!(rt; decode(0x1881_a157), Some(insn));
    // vmv4r.v v8, v12
    let insn = Insn::VMove(VMove::Whole {
        count: Count::Four,
        vd: Reg::new(8),
        vs2: Reg::new(12),
    });
    assert_same!(rt; decode(0x9ec1_b457), Some(insn));
    assert_same!(rt; decode(0x9ec1_3457), None); // three registers
}
