//! What a run hands back where it does not start, and the texts of the reasons. What runs leave is tried by `conformance`, on
//! the rows of `runs.txt`.
use crate::tests::assertions::{assert_same, assert_text, found, given, opaque};
use crate::tests::kernels::image_of;
use elf_image::Image;
use region_mem::{Arg, Args, Bytes, Fault, Mode, Param, Parameters};
use sample_kernels::ADD_BYTES;
use sandbox_run::{OpenError, Outcome, try_run, try_run_with_last};
use std::alloc::Global;
use std::process::Abort;
use vreg_groups::Agnostic;

/// A buffer of these bytes, or nothing where there are none.
fn buffer(rt: impl Abort + Copy, alloc: Global, bytes: &[u8]) -> Arg {
    if bytes.is_empty() {
        return Arg::None;
    }
    Arg::Buffer(Bytes::new(given!(rt; Vec::from_slice(alloc, bytes))))
}

pub(crate) fn is_buffer(arg: &Arg, bytes: &[u8]) -> bool {
    match arg {
        Arg::Buffer(buffer) => buffer.as_slice() == bytes,
        Arg::None => bytes.is_empty(),
        Arg::Scalar(_) => false,
    }
}

/// Two buffers, and a number.
pub(crate) fn args(
    rt: impl Abort + Copy,
    alloc: Global,
    first: &[u8],
    second: &[u8],
    number: u32,
) -> Args {
    Args {
        places: [
            buffer(rt, alloc, first),
            buffer(rt, alloc, second),
            Arg::Scalar(number),
            Arg::None,
            Arg::None,
            Arg::None,
            Arg::None,
            Arg::None,
        ],
    }
}

/// Two buffers of three bytes and the number of bytes.
pub(crate) fn byte_parameters() -> Option<Parameters> {
    let buffer = |mode| Param::Buffer { mode, size: 3 };
    let none = Param::None;
    Parameters::new([
        buffer(Mode::ReadWrite),
        buffer(Mode::Read),
        Param::Scalar { lo: 0, hi: 3 },
        none,
        none,
        none,
        none,
        none,
    ])
}

/// A scalar above its interval, and no buffer where one is wanted.
#[test]
fn hands_arguments_back(rt: HostRuntime) {
    let alloc = rt.alloc();
    let image = image_of(rt, alloc, ADD_BYTES);
    let parameters = found!(rt; byte_parameters());
    let scalar = OpenError::ScalarOutOfInterval(2);
    expect_back(rt, alloc, &image, &parameters, &[7, 8], 4, scalar);
    expect_back(
        rt,
        alloc,
        &image,
        &parameters,
        &[],
        9,
        OpenError::WrongKind(0),
    );
}

/// Asserts that no run is started with this buffer and this number, and that they come back.
fn expect_back(
    rt: impl Abort + Copy,
    alloc: Global,
    image: &Image,
    parameters: &Parameters,
    first: &[u8],
    number: u32,
    error: OpenError,
) {
    let args = args(rt, alloc, first, &[1, 2, 3], number);
    let ran = try_run::<16>(alloc, image, parameters, args, Agnostic::Keep, 10);
    let Err((came, args)) = opaque(ran) else {
        panic!(rt; "it runs");
    };
    assert_same!(rt; came, error);
    assert_same!(rt; is_buffer(&args.places[0], first), true);
    assert_same!(rt; is_buffer(&args.places[1], &[1, 2, 3]), true);
    assert_same!(rt; matches!(args.places[2], Arg::Scalar(came) if came == number), true);
}

/// addi x0,x0,0; jalr x0,0(x0), which leads to where no code is.
const JUMP_TO_ZERO: &str = "00000013 00000067";

/// No step, one, and the jump, behind which the run traps.
#[test]
fn tells_where_the_last_step_was(rt: HostRuntime) {
    let alloc = rt.alloc();
    let image = image_of(rt, alloc, JUMP_TO_ZERO);
    let parameters = found!(rt; byte_parameters());
    let trap = Some(Fault::FetchFault(0));
    expect_last(rt, alloc, &image, &parameters, 0, None, None);
    expect_last(rt, alloc, &image, &parameters, 1, Some(0x10000), None);
    expect_last(rt, alloc, &image, &parameters, 9, Some(0x10004), trap);
}

/// Asserts where the last of so many steps was, and what fault was met.
fn expect_last(
    rt: impl Abort + Copy,
    alloc: Global,
    image: &Image,
    parameters: &Parameters,
    max: u64,
    last: Option<u32>,
    fault: Option<Fault>,
) {
    let args = args(rt, alloc, &[7, 8, 9], &[1, 2, 3], 3);
    let ran = try_run_with_last::<16>(alloc, image, parameters, args, Agnostic::Keep, max);
    let Ok(tried) = opaque(ran) else {
        panic!(rt; "it does not run");
    };
    assert_same!(rt; tried.last, last);
    let met = match tried.outcome {
        Outcome::Trapped(fault, _) => Some(fault),
        Outcome::Ended(_) | Outcome::OutOfSteps(_) => None,
    };
    assert_same!(rt; met, fault);
}

const REASONS: [(OpenError, &str); 6] = [
    (
        OpenError::WrongKind(0),
        "the argument at place 0 is of the wrong kind",
    ),
    (
        OpenError::ScalarOutOfInterval(7),
        "the scalar at place 7 is outside its interval",
    ),
    (
        OpenError::WrongSize(2),
        "the buffer at place 2 is of the wrong size",
    ),
    (OpenError::BoundTooLarge, "the run may take too many steps"),
    (
        OpenError::WrongVlen,
        "the image was accepted for another vector length",
    ),
    (OpenError::NoMemory, "out of memory"),
];

#[test]
fn prints_reasons(rt: HostRuntime) {
    for k in 0..REASONS.len() {
        let (error, expected) = &REASONS[k];
        assert_text(rt, rt.alloc(), error, expected);
    }
}
