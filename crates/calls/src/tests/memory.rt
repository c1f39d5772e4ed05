//! How a run's memory is made, used and given back.
use crate::tests::assertions::{assert_same, assert_text, found, given, opaque};
use elf_image::Image;
use region_mem::{
    Arg, ArgError, Args, Bytes, Fault, Mode, Param, Parameters, Regions, Right, Stack,
    args_bring_bytes,
};
use std::alloc::Global;
use std::process::Abort;

/// An executable of one segment that may be read and fetched, 8 bytes at 0x1_0000.
const FILE: [u8; 92] = [
    0x7f, 0x45, 0x4c, 0x46, 1, 1, 1, 0, 0, 0, 0, 0, 0, 0, 0, 0, 2, 0, 243, 0, 1, 0, 0, 0, 0, 0, 1,
    0, 52, 0, 0, 0, 0, 0, 0, 0, 0, 0, 0, 0, 52, 0, 32, 0, 1, 0, 0, 0, 0, 0, 0, 0, 1, 0, 0, 0, 84,
    0, 0, 0, 0, 0, 1, 0, 0, 0, 1, 0, 8, 0, 0, 0, 8, 0, 0, 0, 5, 0, 0, 0, 4, 0, 0, 0, 1, 2, 3, 4, 5,
    6, 7, 8,
];

/// A buffer of two bytes that may be read, a scalar from 1 to 9, and a buffer of three that may be written.
const PARAMETERS: [Param; 8] = [
    Param::Buffer {
        mode: Mode::Read,
        size: 2,
    },
    Param::Scalar { lo: 1, hi: 9 },
    Param::Buffer {
        mode: Mode::ReadWrite,
        size: 3,
    },
    Param::None,
    Param::None,
    Param::None,
    Param::None,
    Param::None,
];

fn args(rt: impl Abort + Copy, alloc: Global, scalar: u32) -> Args {
    Args {
        places: [
            buffer(rt, alloc, &[0x21, 0x22]),
            Arg::Scalar(scalar),
            buffer(rt, alloc, &[0x31, 0x32, 0x33]),
            Arg::None,
            Arg::None,
            Arg::None,
            Arg::None,
            Arg::None,
        ],
    }
}

fn buffer(rt: impl Abort + Copy, alloc: Global, bytes: &[u8]) -> Arg {
    Arg::Buffer(Bytes::new(given!(rt; Vec::from_slice(alloc, bytes))))
}

fn expect_buffer(rt: impl Abort + Copy, arg: &Arg, bytes: &[u8]) {
    match arg {
        Arg::Buffer(buffer) => assert_same!(rt; buffer.as_slice(), bytes),
        Arg::None | Arg::Scalar(_) => panic!(rt; "no buffer"),
    }
}

fn expect_args(rt: impl Abort + Copy, args: &Args, third: &[u8]) {
    args_bring_bytes(args);
    expect_buffer(rt, &args.places[0], &[0x21, 0x22]);
    assert_same!(rt; matches!(&args.places[1], Arg::Scalar(5)), true);
    expect_buffer(rt, &args.places[2], third);
}

/// The memory of a run of the image on this stack. Stops where memory is refused, and asserts that the arguments have come
/// back as they were.
fn started(rt: impl Abort + Copy, alloc: Global, image: &Image, stack: Stack) -> Regions {
    let parameters = found!(rt; Parameters::new(PARAMETERS));
    assert_same!(rt; parameters.address(2), Some(0x4000_2000));
    let args = args(rt, alloc, 5);
    if parameters.matches(&args).is_err() {
        panic!(rt; "no match");
    }
    match opaque(Regions::on(alloc, image, &parameters, args, stack)) {
        Ok(regions) => regions,
        Err((_, args, _)) => {
            expect_args(rt, &args, &[0x31, 0x32, 0x33]);
            panic!(rt; "no memory")
        }
    }
}

/// The memory of a run, on this stack.
fn regions_on(rt: impl Abort + Copy, alloc: Global, stack: Stack) -> Regions {
    let image: Image = given!(rt; elf_image::read(alloc, &FILE));
    started(rt, alloc, &image, stack)
}

/// Asserts that each byte of the stack is 0.
fn expect_clear_stack(rt: impl Abort + Copy, regions: &Regions) {
    let stack = found!(rt; regions.window(0x2fff_0000, 0x1_0000));
    assert_same!(rt; stack.iter().all(|byte| *byte == 0), true);
}

fn expect_numbers(rt: impl Abort + Copy, regions: &Regions) {
    assert_same!(rt; regions.fetch(0x1_0004), Some(0x0807_0605));
    assert_same!(rt; regions.fetch(0x4000_2000), None);
    assert_same!(rt; regions.load(0x4000_2000, 2), Some(0x3231));
    assert_same!(rt; regions.load(0x4000_2002, 2), None);
    assert_same!(rt; regions.byte(0x2fff_ffff), Some(0));
}

fn expect_windows(rt: impl Abort + Copy, regions: &Regions) {
    assert_same!(rt; regions.permits(Right::Write, 0x2fff_0000, 0x1_0000), true);
    assert_same!(rt; regions.window(0x1_0006, 2), Some([7, 8].as_slice()));
    assert_same!(rt; regions.window(0x1_0006, 3), None);
    assert_same!(rt; regions.has_window(0x1_0006, 2), false);
}

#[test]
fn runs_memory(rt: HostRuntime) {
    let stack = given!(rt; Stack::new(rt.alloc()));
    let mut regions = regions_on(rt, rt.alloc(), stack);
    expect_numbers(rt, &regions);
    expect_windows(rt, &regions);
    assert!(rt; regions.has_window(0x4000_2001, 2));
    regions.set_window(0x4000_2001, &[0x41, 0x42]);
    assert_same!(rt; regions.store(0x4000_2001, 1, 0xffff_ff77), true);
    assert_same!(rt; regions.store(0x4000_0000, 1, 0), false);
    assert_same!(rt; regions.store(0x4000_2002, 2, 0), false);
    expect_args(rt, &regions.into_args(), &[0x31, 0x77, 0x42]);
}

/// The first run: it writes last below what it wrote before. Hands the stack out.
fn first_run(rt: impl Abort + Copy, alloc: Global) -> Option<Stack> {
    let mut first = regions_on(rt, alloc, given!(rt; Stack::new(alloc)));
    assert_same!(rt; first.store(0x2fff_fffc, 4, 0xffff_ffff), true);
    assert!(rt; first.has_window(0x2fff_9000, 3));
    first.set_window(0x2fff_9000, &[1, 2, 3]);
    assert_same!(rt; first.store(0x2fff_8001, 2, 0xffff), true);
    assert_same!(rt; first.store(0x2fff_9004, 1, 0xff), true);
    let (args, stack) = first.into_parts();
    expect_args(rt, &args, &[0x31, 0x32, 0x33]);
    stack
}

/// The second run: it meets a stack of zeros, and writes its first byte.
fn second_run(rt: impl Abort + Copy, alloc: Global, stack: Stack) -> Option<Stack> {
    let mut second = regions_on(rt, alloc, stack);
    expect_clear_stack(rt, &second);
    expect_numbers(rt, &second);
    assert_same!(rt; second.store(0x2fff_0000, 1, 1), true);
    second.into_parts().1
}

/// The third run meets a stack of zeros too.
#[test]
fn uses_a_stack_again(rt: HostRuntime) {
    let alloc = rt.alloc();
    let stack = found!(rt; first_run(rt, alloc));
    let stack = found!(rt; second_run(rt, alloc, stack));
    let third = regions_on(rt, alloc, stack);
    expect_clear_stack(rt, &third);
    expect_args(rt, &third.into_args(), &[0x31, 0x32, 0x33]);
}

#[test]
fn tells_what_is_wrong(rt: HostRuntime) {
    let alloc = rt.alloc();
    let parameters = found!(rt; Parameters::new(PARAMETERS));
    let error = parameters.matches(&args(rt, alloc, 10));
    assert_same!(rt; error, Err(ArgError::ScalarOutOfInterval(1)));
    assert_text(
        rt,
        alloc,
        &ArgError::WrongSize(7),
        "argument 7 is a buffer of the wrong size",
    );
    let fault = Fault::FetchFault(0x20);
    assert_text(
        rt,
        alloc,
        &fault,
        "no instruction may be fetched at 00000020",
    );
    assert_same!(rt; fault.name(), "FetchFault");
    assert_same!(rt; fault.number(), 0x20);
}
