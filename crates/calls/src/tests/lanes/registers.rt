//! Operations where the registers lie: vd is v8, vs2 v16 and vs1 v24, each a group of eight.
ghost use Rattle.std.specs.Prelude.{◌≡◌, ◌+◌, ◌*◌, ◌≤◌, length};
ghost use Rattle.rv_decode.specs.Instructions.{bytes_of_width};
ghost use Rattle.rv_decode.specs.declared.extents.Eew.TheVariants.{Same};
ghost use Rattle.vreg_groups.specs.Group.{IsGroupInside};
ghost use Rattle.vreg_groups.specs.Setup.{IsSetup};

use crate::tests::assertions::assert_same;
use crate::tests::lanes::fixed_point::{FIXED_OPERATIONS, MODES};
use crate::tests::lanes::integers::{MULTIPLY_ADDS, OPERATIONS};
use crate::tests::lanes::lengths::{LENGTHS, MOST, bytes};
use lane_file::{ByteLane, Second, fixed, int, multiply_add};
use lane_fixed::{FixedLane, RoundingMode, compute};
use lane_int::{Lane, has_chunk};
use rv_decode::{FixedOp, IntOp, MultiplyAddOp, Reg, Width};
use std::process::Abort;
use vreg_groups::{Agnostic, Element, Lmul, Setup, VregFile, Vtype};

/// Whether an operation is masked, and what becomes of the elements that are not written.
const CASES: [(bool, Agnostic); 3] = [
    (false, Agnostic::Keep),
    (true, Agnostic::Keep),
    (true, Agnostic::Ones),
];

/// Elements of one width. A group has `$most` of them at VLEN 512.
macro_rules! try_width {
    ($rt:ident, $element:ident, $width:ident, $most:literal) => {
        for c in 0..CASES.len() {
            let (masked, agnostic) = CASES[c];
            for k in 0..LENGTHS.len() {
                let setup = Setup {
                    vtype: Vtype {
                        sew: Width::$width,
                        lmul: Lmul::Eight,
                        vta: true,
                        vma: true,
                    },
                    vl: LENGTHS[k].min($most),
                    agnostic,
                };
                try_operations::<$element>(&$rt, &setup, masked, &[0; MOST], $most);
            }
        }
    };
}

#[tactic(auto, unfolding(vreg_groups::specs::VectorType::vlmax_of, vreg_groups::specs::Legality::count_of, vreg_groups::specs::Legality::element_bits, vreg_groups::specs::Legality::group_count, vreg_groups::specs::Legality::emul_eighths))]
#[test]
fn groups_at_each_length(rt: HostRuntime) {
    try_width!(rt, u8, W8, 512);
    try_width!(rt, u16, W16, 256);
    try_width!(rt, u32, W32, 128);
}

/// Registers whose bytes differ.
fn registers() -> VregFile<64> {
    let mut registers = VregFile::<64>::new();
    fill(&mut registers, Reg::new(0), 1);
    fill(&mut registers, Reg::new(8), 2);
    fill(&mut registers, Reg::new(16), 3);
    fill(&mut registers, Reg::new(24), 4);
    registers
}

fn fill(registers: &mut VregFile<64>, first: Reg, seed: u32)
    requires { first + 8 ≤ 32 }
{
    let bytes = bytes(seed);
    registers.set_register_bytes(first, &bytes[..]);
}

/// An operation that is tried.
#[derive(Clone, Copy)]
enum Tried {
    Int(IntOp),
    MultiplyAdd(MultiplyAddOp),
    Fixed(FixedOp, RoundingMode),
}

/// Each operation under one setup, masked or not.
fn try_operations<E: ByteLane + Element + FixedLane + PartialEq>(
    rt: impl Abort + Copy,
    setup: &Setup,
    masked: bool,
    blank: &[E; MOST],
    most: usize,
)
    requires setup { IsSetup 64 setup.now }
    requires size { E.Lane.size ≡ bytes_of_width setup.now.vtype.sew }
    requires room { E.Element.SIZE * most ≤ 512 }
    requires few { most ≤ 512 }
    requires vd_inside { IsGroupInside setup.now.vtype 8 Same }
    requires vs2_inside { IsGroupInside setup.now.vtype 16 Same }
    requires vs1_inside { IsGroupInside setup.now.vtype 24 Same }
{
    for j in 0..OPERATIONS.len() {
        try_group::<E>(rt, setup, Tried::Int(OPERATIONS[j]), masked, blank, most);
    }
    for j in 0..MULTIPLY_ADDS.len() {
        let op = Tried::MultiplyAdd(MULTIPLY_ADDS[j]);
        try_group::<E>(rt, setup, op, masked, blank, most);
    }
    for j in 0..FIXED_OPERATIONS.len() {
        for m in 0..MODES.len() {
            let op = Tried::Fixed(FIXED_OPERATIONS[j], MODES[m]);
            try_group::<E>(rt, setup, op, masked, blank, most);
        }
    }
}

fn try_group<E: ByteLane + Element + FixedLane + PartialEq>(
    rt: impl Abort + Copy,
    setup: &Setup,
    op: Tried,
    masked: bool,
    blank: &[E; MOST],
    most: usize,
)
    requires setup { IsSetup 64 setup.now }
    requires size { E.Lane.size ≡ bytes_of_width setup.now.vtype.sew }
    requires room { E.Element.SIZE * most ≤ 512 }
    requires few { most ≤ 512 }
    requires vd_inside { IsGroupInside setup.now.vtype 8 Same }
    requires vs2_inside { IsGroupInside setup.now.vtype 16 Same }
    requires vs1_inside { IsGroupInside setup.now.vtype 24 Same }
{
    let mut registers = registers();
    let mut a = group(&registers, Reg::new(16), blank, most);
    let b = group(&registers, Reg::new(24), blank, most);
    let mut expected = group(&registers, Reg::new(8), blank, most);
    let answer = run::<E>(&mut registers, setup, op, masked);
    assert_same!(rt; answer.is_some(), can_be_done(op));
    if let Some(saturated) = answer {
        let values = &mut expected;
        let is_any = compute_each(op, setup, masked, &registers, &mut a, &b, values, most);
        assert_same!(rt; saturated, is_any);
    }
    let values = group(&registers, Reg::new(8), blank, most);
    assert_same!(rt; &values[..], &expected[..]);
}

/// The elements of the group that begins at `first`.
fn group<E: Element>(
    registers: &VregFile<64>,
    first: Reg,
    blank: &[E; MOST],
    most: usize,
) -> [E; MOST]
    requires first { first ≤ 24 }
    requires room { E.SIZE * most ≤ 512 }
    requires few { most ≤ 512 }
{
    let mut elements = *blank;
    registers.read_group(first, &mut elements[..most]);
    elements
}

/// Computes the elements of vd one by one, over what they are and over `a`. Tells whether an active one saturates. None
/// is written where vl is 0.
fn compute_each<E: Element + Lane + FixedLane>(
    op: Tried,
    setup: &Setup,
    masked: bool,
    registers: &VregFile<64>,
    a: &mut [E; MOST],
    b: &[E; MOST],
    values: &mut [E; MOST],
    most: usize,
) -> bool
    requires { most ≤ 512 }
{
    if setup.vl == 0 {
        return false;
    }
    let (a, b) = (&mut a[..], &b[..]);
    let mut is_any = false;
    for i in 0..most {
        if i < setup.vl && (!masked || registers.bit(Reg::new(0), i)) {
            let saturates = compute_one(op, &mut a[i..i + 1], &b[i..i + 1], values[i]);
            values[i] = a[i];
            is_any = is_any || saturates;
        } else {
            values[i] = left(values[i], setup.agnostic);
        }
    }
    is_any
}

/// The call: vd is v8, vs2 v16 and vs1 v24. Whether it saturated; None where it was not done.
fn run<E: ByteLane>(
    registers: &mut VregFile<64>,
    setup: &Setup,
    op: Tried,
    masked: bool,
) -> Option<bool>
    requires setup { IsSetup 64 setup.now }
    requires size { E.Lane.size ≡ bytes_of_width setup.now.vtype.sew }
    requires vd_inside { IsGroupInside setup.now.vtype 8 Same }
    requires vs2_inside { IsGroupInside setup.now.vtype 16 Same }
    requires vs1_inside { IsGroupInside setup.now.vtype 24 Same }
{
    let (vd, vs2) = (Reg::new(8), Reg::new(16));
    let second = Second::<E>::Group(Reg::new(24));
    let is_done = match op {
        Tried::Int(op) => int(registers, setup, op, vd, vs2, second, masked),
        Tried::MultiplyAdd(op) => multiply_add(registers, setup, op, vd, vs2, second, masked),
        Tried::Fixed(op, mode) => {
            return fixed(registers, setup, op, mode, vd, vs2, second, masked);
        }
    };
    is_done.then_some(false)
}

fn can_be_done(op: Tried) -> bool {
    match op {
        Tried::Int(op) => has_chunk(op),
        Tried::MultiplyAdd(_) => true,
        Tried::Fixed(op, _) => !matches!(op, FixedOp::Smul),
    }
}

/// Writes over the element of `a` what the call on one element makes of it, and tells whether it saturates.
fn compute_one<E: Lane + FixedLane>(op: Tried, a: &mut [E], b: &[E], old: E) -> bool
    requires a_one { length a.old ≡ 1 }
    requires b_one { length b.now ≡ 1 }
{
    match op {
        Tried::Int(op) => {
            a[0] = E::int_result(op, a[0], b[0]);
            false
        }
        Tried::MultiplyAdd(op) => {
            a[0] = E::multiply_add(op, a[0], b[0], old);
            false
        }
        Tried::Fixed(op, mode) => compute(op, mode, a, b, &[true]),
    }
}

/// What an element becomes that no result is written to.
fn left<E: Element>(old: E, agnostic: Agnostic) -> E {
    match agnostic {
        Agnostic::Keep => old,
        Agnostic::Ones => E::ones(),
    }
}
