//! How a step is made: a vset, a load, a sum, a store, and a fault; and instructions of two widths, whose results are worked
//! out by hand from the standard. The words come from the LLVM assembler.

use crate::tests::assertions::{assert_same, given};
use crate::tests::fixture::memory;
use region_mem::{Fault, Regions};
use rv_decode::{Reg, decode};
use scalar_core::Scalar;
use std::process::Abort;
use vector_core::{VectorState, judge, step_known, step_vector};
use vreg_groups::{Agnostic, Vconfig};

/// A step by a word, which is judged before or by the step.
fn step(
    vectors: &mut VectorState<16>,
    scalar: &mut Scalar,
    memory: &mut Regions,
    word: u32,
    is_judged: bool,
) -> Result<(), Fault> {
    let Some(insn) = decode(word) else {
        return Err(Fault::Illegal(word));
    };
    if is_judged {
        let judged = judge(&vectors.config(), &insn);
        step_known(vectors, scalar, word, &insn, judged, memory)
    } else {
        step_vector(vectors, scalar, word, insn, memory)
    }
}

/// Words that raise bytes, and what each gives. The first has no vector type yet.
const RAISED: [(u32, Result<(), Fault>); 5] = [
    (0x0281_3457, Err(Fault::Illegal(0x0281_3457))), // vadd.vi v8,v8,2
    (0xcc01_f3d7, Ok(())), // vsetivli x7,3,e8,m1,ta,ma
    (0x0205_0407, Ok(())), // vle8.v v8,(x10)
    (0x0281_3457, Ok(())), // vadd.vi v8,v8,2
    (0x0205_0427, Ok(())), // vse8.v v8,(x10)
];

/// Asserts that bytes are raised, and that two bytes of a last store may be written.
fn assert_raised(rt: impl Abort + Copy, memory: &mut Regions, is_judged: bool) {
    let mut vectors = VectorState::<16>::new(Agnostic::Ones);
    let mut scalar = Scalar::new(0x1000);
    scalar.set_reg(Reg::new(10), 0x2000);
    for k in 0..RAISED.len() {
        let (word, given) = RAISED[k];
        assert_same!(rt; step(&mut vectors, &mut scalar, memory, word, is_judged), given);
    }
    assert_same!(rt; vectors.config(), Vconfig { vtype: 0xc0, vl: 3 });
    assert_same!(rt; memory.load(0x2000, 4), Some(0xff00_0403));
    assert_same!(rt; vectors.byte(Reg::new(8), 3), 0xff);
    assert_same!(rt; scalar.pc(), 0x1010);
    scalar.set_reg(Reg::new(10), 0x200e); // vse8.v v8,(x10)
    let refused = step(&mut vectors, &mut scalar, memory, 0x0205_0427, is_judged);
    assert_same!(rt; refused, Err(Fault::StoreFault(0x2010)));
    assert_same!(rt; memory.byte(0x200e), Some(0x0f));
    assert_same!(rt; vectors.into_registers().byte(Reg::new(8), 0), 3);
}

#[test]
fn bytes_are_raised_in_memory(rt: HostRuntime) {
    for is_judged in [false, true] {
        assert_raised(rt, &mut memory(rt, rt.alloc()), is_judged);
    }
}

/// A word, the first two bytes of v10 after it, and vxsat.
type Step = (u32, u32, u32);

/// An active element alone saturates.
const SATURATING: [Step; 3] = [
    (0x9c84_0557, 0, 0), // vsmul.vv v10,v8,v8,v0.t
    (0x9e84_0557, 0x7f7f, 1), // vsmul.vv v10,v8,v8
    (0x8280_b557, 0x8181, 1), // vsaddu.vi v10,v8,1
];

/// Elements of two widths.
const WIDE: [Step; 6] = [
    (0xea86_6557, 0x8100, 0), // vwmulsu.vx v10,v8,x12: -128 * 254
    (0xdea6_6557, 0x8102, 0), // vwsub.wx v10,v10,x12: less -2
    (0xfe86_6557, 0x8002, 0), // vwmaccsu.vx v10,x12,v8: and 128 * -2
    (0xb6a4_b557, 0xc0c0, 0), // vnsra.wi v10,v10,9: -63.99, down
    (0xea86_6557, 0x8100, 0), // vwmulsu.vx v10,v8,x12
    (0xbaa4_b557, 0x4141, 0), // vnclipu.wi v10,v10,9: 64.5, half up
];

/// The halves of elements are extended.
const HALVES: [Step; 2] = [
    (0x4a83_a557, 0xff80, 0), // vsext.vf2 v10,v8
    (0x4a83_2557, 0x80, 0), // vzext.vf2 v10,v8
];

/// Asserts what the words make of a state with vl 3 under e8,m1 or e16,m1, whose v8 has bytes 80 and whose x12 is fe.
fn assert_steps(rt: impl Abort + Copy, memory: &mut Regions, vsetivli: u32, steps: &[Step]) {
    let mut vectors = VectorState::<16>::new(Agnostic::Keep);
    let mut scalar = Scalar::new(0x1000);
    scalar.set_reg(Reg::new(11), 0x8080);
    scalar.set_reg(Reg::new(12), 0xfe);
    for word in [vsetivli, 0x5e05_c457] { // vmv.v.x v8,x11
        given!(rt; step(&mut vectors, &mut scalar, memory, word, false));
    }
    for (word, bytes, vxsat) in steps {
        let came = step(&mut vectors, &mut scalar, memory, *word, false);
        let low = u32::from(vectors.byte(Reg::new(10), 0));
        let number = low + 0x100 * u32::from(vectors.byte(Reg::new(10), 1));
        assert_same!(rt; (came, number, scalar.vxsat()), (Ok(()), *bytes, *vxsat));
    }
}

#[test]
fn elements_are_computed(rt: HostRuntime) {
    let mut memory = memory(rt, rt.alloc());
    for (vsetivli, steps) in [
        (0xcc01_f3d7, SATURATING.as_slice()), // vsetivli x7,3,e8,m1,ta,ma
        (0xcc01_f3d7, WIDE.as_slice()),
        (0xcc81_f3d7, HALVES.as_slice()), // vsetivli x7,3,e16,m1,ta,ma
    ] {
        assert_steps(rt, &mut memory, vsetivli, steps);
    }
}
