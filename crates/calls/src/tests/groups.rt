//! How a legal instruction's groups are resolved, read and written.

use crate::tests::assertions::assert_same;
use rv_decode::{Eew, Insn, IntOp, Reg, Source, VArith, Width};
use vreg_groups::{
    Agnostic, Avl, Group, Lmul, Policy, Vconfig, VregFile, Vtype, legal, legal_type, type_in, vset,
};

/// e16, m1, ta, mu
const E16: Vtype = Vtype {
    sew: Width::W16,
    lmul: Lmul::One,
    vta: true,
    vma: false,
};

#[test]
fn elements_in_bits_and_legality_under_a_type(rt: HostRuntime) {
    for (eew, bits) in [
        (Eew::Quarter, 4),
        (Eew::Half, 8),
        (Eew::Double, 32),
        (Eew::Fixed(Width::W8), 8),
    ] {
        assert_same!(rt; E16.eew_bits(eew), bits);
    }
    assert_same!(rt; type_in(Some(E16)), E16);
    assert_same!(rt; type_in(None).sew, Width::W8);
    // vadd.vv v4,v2,v1
    let sum = Insn::VArith(VArith::Int {
        op: IntOp::Add,
        vd: Reg::new(4),
        vs2: Reg::new(2),
        b: Source::Vector(Reg::new(1)),
        masked: false,
    });
    assert_same!(rt; legal_type(&Vconfig::none(), &sum), None);
    // vl is 3 of the 8 that e16, m1 has at VLEN 128, with the tail agnostic
    let config = vset(16, Vconfig::none(), Avl::Of(3), 0x48);
    assert_same!(rt; config.vl, 3);
    assert_same!(rt; legal_type(&config, &sum), Vtype::from_bits(0x48));
    // a group of two registers begins at an even one
    assert_same!(rt; legal(&vset(16, config, Avl::Greatest, 0x49), &sum), false);
}

#[tactic(auto, unfolding(vreg_groups::specs::VectorType::vlmax_of, vreg_groups::specs::Legality::count_of, vreg_groups::specs::Legality::element_bits, vreg_groups::specs::Legality::group_count, vreg_groups::specs::Legality::emul_eighths))]
#[test]
fn a_group_is_written_and_read(rt: HostRuntime) {
    let mut registers = VregFile::<16>::new();
    let group = Group::<16>::new(&E16, 3, Reg::new(4), Eew::Same);
    let policy = Policy::of(Agnostic::Ones, &E16);
    group.write(
        &mut registers,
        &[1u16, 2, 0x304],
        &[true, false, true],
        policy,
    );
    let mut values = [0u16; 3];
    group.read(&registers, values.as_mut_slice());
    assert_same!(rt; values, [1, 0, 0x304]);
    assert_same!(rt; registers.byte(Reg::new(4), 5), 3);
    assert_same!(rt; registers.byte(Reg::new(4), 6), 0xff);
    assert_same!(rt; registers.byte(Reg::new(5), 0), 0);
    // The body, by its elements and by its bytes.
    group.write_all(&mut registers, &[1u16, 2, 0x304], policy);
    assert_same!(rt; group.body_bytes(&registers), [1, 0, 2, 0, 4, 3].as_slice());
    group.write_bytes(&mut registers, &[5, 6, 7, 8, 9, 10], policy);
    assert_same!(rt;
        group.body_bytes(&registers),
        [5, 6, 7, 8, 9, 10].as_slice()
    );
    assert_same!(rt; registers.byte(Reg::new(4), 6), 0xff);
}

#[test]
fn registers_are_written_by_their_bytes(rt: HostRuntime) {
    let mut registers = VregFile::<16>::new();
    registers.set_register_bytes(Reg::new(4), &[11; 16]);
    assert_same!(rt; registers.group(Reg::new(4), 1), [11; 16].as_slice());
    assert_same!(rt; registers.byte(Reg::new(5), 0), 0);
    registers
        .group_mut(Reg::new(4), 2)
        .copy_from_slice(&[7; 32]);
    assert_same!(rt; registers.group(Reg::new(4), 2), [7; 32].as_slice());
    assert_same!(rt; registers.byte(Reg::new(3), 15), 0);
    assert_same!(rt; registers.byte(Reg::new(5), 15), 7);
    assert_same!(rt; registers.byte(Reg::new(6), 0), 0);
}
