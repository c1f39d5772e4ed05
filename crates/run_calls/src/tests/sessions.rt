//! What a session of an accepted kernel shows at each step. The steps are counted by hand. Why none is opened, and what a
//! run comes to, is tried by `conformance`, on the rows of `sessions.txt`.

use crate::tests::assertions::{assert_same, given};
use crate::tests::kernels::accepted;
use cert_note::Vlen::V128;
use region_mem::{Arg, Args, Bytes};
use rv_decode::Reg;
use sample_kernels::SUM;
use sandbox_run::Session;
use std::alloc::Global;
use std::process::Abort;
use vreg_groups::Agnostic;

/// A buffer of `size` bytes, each 3, where there is one, a number, and another, where there is
/// one.
pub(crate) fn args(
    rt: impl Abort + Copy,
    alloc: Global,
    size: Option<usize>,
    number: u32,
    other: Option<u32>,
) -> Args {
    let buffer = match size {
        Some(size) => Arg::Buffer(Bytes::new(given!(rt; vec![in alloc; 3u8; size]))),
        None => Arg::None,
    };
    let other = match other {
        Some(other) => Arg::Scalar(other),
        None => Arg::None,
    };
    Args {
        places: [
            buffer,
            Arg::Scalar(number),
            other,
            Arg::None,
            Arg::None,
            Arg::None,
            Arg::None,
            Arg::None,
        ],
    }
}

/// How many steps have been made, and where the run is then.
const STEPS: [(u64, u32); 7] = [
    (1, 0x1_0004),
    (2, 0x1_0008),
    (3, 0x1_000c),
    (4, 0x1_0010),
    (5, 0x1_0014),
    (6, 0x1_0018),
    (7, 0xffff_fff0),
];

fn assert_step(rt: impl Abort + Copy, session: &mut Session<16>, steps: u64, pc: u32) {
    assert_same!(rt; session.step(), Some(()));
    assert_same!(rt; (session.steps(), session.pc()), (steps, pc));
    assert_same!(rt; session.registers().pc, pc);
    session.stands();
}

/// The first word of the code, the last byte of the buffer, and the last register, and then each step of a run over one byte.
fn assert_steps(rt: impl Abort + Copy, session: &mut Session<16>) {
    assert_same!(rt; session.is_ended(), false);
    assert_same!(rt; session.fetch(0x1_0000), Some(0x0005_8c63));
    assert_same!(rt; session.fetch(0x4000_0000), None);
    assert_same!(rt; session.peek(0x4000_03ff), Some(3));
    assert_same!(rt; session.peek(0x4000_0400), None);
    assert_same!(rt; session.vector(Reg::new(31)), [0; 16].as_slice());
    for k in 0..STEPS.len() {
        let (steps, pc) = STEPS[k];
        assert_step(rt, session, steps, pc);
    }
    assert_same!(rt; session.is_ended(), true);
    assert_same!(rt; session.step(), None);
    assert_same!(rt; session.run(), 7);
    assert_same!(rt; session.steps(), 7);
}

#[test]
fn shows_each_step(rt: HostRuntime) {
    let alloc = rt.alloc();
    let accepted = accepted(rt, alloc, SUM, V128);
    let args = args(rt, alloc, Some(1024), 1, None);
    let opened = Session::<16>::open(alloc, &accepted, args, Agnostic::Ones, 7);
    let mut session = given!(rt; opened);
    assert_steps(rt, &mut session);
    assert_same!(rt; matches!(&session.close().places[1], Arg::Scalar(1)), true);
}
