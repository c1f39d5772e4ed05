//! A machine, step by step. The steps are counted by hand.

ghost use Rattle.vreg_groups.specs.VectorLength.{IsVlenb};

use crate::tests::assertions::{assert_same, found};
use crate::tests::kernels::image_of;
use crate::tests::runs::{args, byte_parameters, is_buffer};
use machine::{Machine, Spare, start, start_with};
use region_mem::{Args, Fault};
use sample_kernels::ADD_BYTES;
use std::alloc::{AllocError, Global};
use std::process::Abort;
use vreg_groups::Agnostic;

/// Where the kernel that adds bytes starts, on what there is or on memory of its own.
fn started<const VLENB: usize>(
    rt: impl Abort + Copy,
    alloc: Global,
    spare: Option<&mut Option<Spare>>,
) -> Result<Machine<VLENB>, (AllocError, Args)>
    requires { IsVlenb VLENB }
{
    let image = image_of(rt, alloc, ADD_BYTES);
    let parameters = found!(rt; byte_parameters());
    let args = args(rt, alloc, &[0xff, 1, 2], &[1, 1, 0xff], 3);
    if parameters.matches(&args).is_err() {
        panic!(rt; "no match");
    }
    match spare {
        Some(spare) => start_with::<VLENB, Global, Global>(
            alloc,
            &image,
            &parameters,
            args,
            Agnostic::Keep,
            spare,
        ),
        None => start::<VLENB, Global, Global>(alloc, &image, &parameters, args, Agnostic::Keep),
    }
}

/// Asserts that six steps lead to the end, and hands out what is left.
fn assert_ends<const VLENB: usize>(
    rt: impl Abort + Copy,
    started: Result<Machine<VLENB>, (AllocError, Args)>,
) -> Option<Spare> {
    let Ok(mut machine) = started else {
        panic!(rt; "it does not start");
    };
    for _ in 0..6_u8 {
        assert_same!(rt; machine.has_ended(), false);
        assert_same!(rt; machine.step(), Ok(()));
    }
    assert_same!(rt; machine.has_ended(), true);
    assert_same!(rt; machine.registers().vl, 3);
    assert_same!(rt; machine.step(), Err(Fault::FetchFault(0xffff_fff0)));
    let (args, left) = machine.into_spare();
    assert_same!(rt; is_buffer(&args.places[0], &[0, 2, 1]), true);
    left
}

/// The second machine takes what the first one left.
#[test]
fn steps_to_the_end(rt: HostRuntime) {
    let alloc = rt.alloc();
    let spare = &mut assert_ends(rt, started::<16>(rt, alloc, None));
    assert_same!(rt; spare.is_some(), true);
    let _left = assert_ends(rt, started::<32>(rt, alloc, Some(spare)));
    assert_same!(rt; spare.is_some(), false);
}
