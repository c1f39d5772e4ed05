//! Runs and sessions. Each of their allocations fails in turn: the answer is want of memory there,
//! and the arguments come back as they were.
use crate::refusing::Refusing;
use crate::tests::assertions::{assert_same, found, given, opaque};
use crate::tests::kernels::{bytes_of, put};
use crate::tests::want_of_memory::{Heap, MANY, file, served, until_served};
use block_checker::{Accepted, check};
use elf_image::Image;
use region_mem::{Arg, Args, Bytes, Mode, Param, Parameters, Regions};
use sandbox_run::{OpenError, Outcome, open_in, try_run_in};
use std::alloc::Global;
use std::process::Abort;
use vreg_groups::{Agnostic, Vlen};

/// Three bytes that are written, three that are read, and their number.
const PARAMETERS: [Param; 8] = [
    Param::Buffer {
        mode: Mode::ReadWrite,
        size: 3,
    },
    Param::Buffer {
        mode: Mode::Read,
        size: 3,
    },
    Param::Scalar { lo: 3, hi: 3 },
    Param::None,
    Param::None,
    Param::None,
    Param::None,
    Param::None,
];

fn buffer<'a>(rt: impl Abort + Copy, heap: Heap<'a>, bytes: &[u8]) -> Arg<Bytes<Heap<'a>>> {
    Arg::Buffer(Bytes::new(given!(rt; Vec::from_slice(heap, bytes))))
}

fn args(rt: impl Abort + Copy, heap: Heap<'_>) -> Args<Bytes<Heap<'_>>> {
    Args {
        places: [
            buffer(rt, heap, &[0xff, 1, 2]),
            buffer(rt, heap, &[1, 1, 0xff]),
            Arg::Scalar(3),
            Arg::None,
            Arg::None,
            Arg::None,
            Arg::None,
            Arg::None,
        ],
    }
}

fn is_buffer(arg: &Arg<Bytes<Heap<'_>>>, bytes: &[u8]) -> bool {
    match arg {
        Arg::Buffer(buffer) => buffer.as_slice() == bytes,
        Arg::None | Arg::Scalar(_) => false,
    }
}

/// Whether these are the arguments of `args`, but for the bytes that are written.
fn are_args(args: &Args<Bytes<Heap<'_>>>, written: &[u8]) -> bool {
    is_buffer(&args.places[0], written)
        && is_buffer(&args.places[1], &[1, 1, 0xff])
        && matches!(&args.places[2], Arg::Scalar(3))
        && args
            .places
            .iter()
            .skip(3)
            .all(|arg| matches!(arg, Arg::None))
}

/// Asserts that these are the arguments, as they were before the run.
fn assert_back(rt: impl Abort + Copy, args: &Args<Bytes<Heap<'_>>>) {
    assert_same!(rt; are_args(args, &[0xff, 1, 2]), true);
}

/// What each run of these tests is started with: the image of `file`, its parameters, and memory that
/// is enough for arguments.
#[derive(Drop)]
struct Start {
    image: Image,
    parameters: Parameters,
    ample: Refusing<Global>,
}

fn prepared(rt: impl Abort + Copy, alloc: Global) -> Start {
    let file = file(rt, alloc);
    Start {
        image: given!(rt; elf_image::read(alloc, &file)),
        parameters: found!(rt; Parameters::new(PARAMETERS)),
        ample: Refusing::new(alloc, MANY),
    }
}

/// Asserts that a memory is started with the arguments, or wanting and they come back, and tells
/// whether it is started. The arguments take memory of another allocator.
fn is_started<'a>(rt: impl Abort + Copy, heap: Heap<'a>, after: u64, start: &'a Start) -> bool {
    let args = args(rt, &start.ample);
    if start.parameters.matches(&args).is_err() {
        panic!(rt; "no match");
    }
    match served(
        rt,
        heap,
        after,
        Regions::new(heap, &start.image, &start.parameters, args),
    ) {
        Ok(regions) => {
            assert_same!(rt; regions.byte(0x2_0000), Some(0xde));
            assert_back(rt, &regions.into_args());
            true
        }
        Err((_, args)) => {
            assert_back(rt, &args);
            false
        }
    }
}

/// The list of regions, the bytes of two segments and those of the stack.
#[test]
fn starting_a_memory(rt: HostRuntime) {
    let start = prepared(rt, rt.alloc());
    until_served(rt, rt.alloc(), |heap, after| {
        is_started(rt, heap, after, &start)
    });
}

/// What a call gives that is served. Nothing where memory was wanting, and then it asserts that
/// error, and that the arguments come back.
fn opened_or_wanting<T>(
    rt: impl Abort + Copy,
    heap: Heap<'_>,
    after: u64,
    answer: Result<T, (OpenError, Args<Bytes<Heap<'_>>>)>,
) -> Option<T> {
    match served(rt, heap, after, answer) {
        Ok(value) => Some(value),
        Err((error, args)) => {
            assert_same!(rt; error, OpenError::NoMemory);
            assert_back(rt, &args);
            None
        }
    }
}

/// Asserts that the image is run, to its end after six steps, or memory wanting, and tells whether it is run.
fn is_run<'a>(rt: impl Abort + Copy, heap: Heap<'a>, after: u64, start: &'a Start) -> bool {
    let (args, keep) = (args(rt, &start.ample), Agnostic::Keep);
    let (image, parameters) = (&start.image, &start.parameters);
    let ran = try_run_in::<16, Heap<'_>, Global>(heap, image, parameters, args, keep, 9);
    let Some(outcome) = opened_or_wanting(rt, heap, after, ran) else {
        return false;
    };
    let Outcome::Ended(end) = opaque(outcome) else {
        panic!(rt; "the run ends");
    };
    assert_same!(rt; end.steps, 6);
    assert_same!(rt; are_args(&end.args, &[0, 2, 1]), true);
    true
}

/// A run takes the memory of its regions alone, a list of them, the bytes of two segments and those
/// of the stack. No step takes any.
#[test]
fn running(rt: HostRuntime) {
    let start = prepared(rt, rt.alloc());
    until_served(rt, rt.alloc(), |heap, after| {
        is_run(rt, heap, after, &start)
    });
}

/// As the certificate of `file`, but its block has no fact and takes one step.
const ONE_STEP: &str = "\
010001000203000003000000000000000201000003000000000000000100000003000000030000000000000000000000\
000000000000000000000000000000000000000000000000000000000000000000000000000000000000000000000000\
00000000010000000000010001000000000000000000000000000000";

/// Asserts that a session is opened, which runs to its end, or memory wanting, and tells whether it
/// is opened.
fn is_opened(rt: impl Abort + Copy, heaps: [Heap<'_>; 2], after: u64, accepted: &Accepted) -> bool {
    let [heap, ample] = heaps;
    let (args, keep) = (args(rt, ample), Agnostic::Keep);
    let opened = open_in::<16, Heap<'_>, Global>(heap, accepted, args, keep, 1);
    let Some(mut session) = opened_or_wanting(rt, heap, after, opened) else {
        return false;
    };
    assert_same!(rt; session.run(), 1);
    assert_same!(rt; are_args(&session.close(), &[0xff, 1, 2]), true);
    true
}

/// A session takes the memory of its regions alone, as a run does. No step takes any. The image is that of `file` with ecall
/// as its first word.
#[test]
fn opening(rt: HostRuntime) {
    let alloc = rt.alloc();
    let mut file = file(rt, alloc);
    put(rt, &mut file, 0x94, &[0x73, 0, 0, 0]);
    let image = given!(rt; elf_image::read(alloc, &file));
    let certificate = given!(rt; cert_note::read(alloc, &bytes_of(rt, alloc, ONE_STEP)));
    let accepted = given!(rt; check(alloc, image, certificate, Vlen::V128));
    let ample = Refusing::new(alloc, MANY);
    until_served(rt, alloc, |heap, after| {
        is_opened(rt, [heap, &ample], after, &accepted)
    });
}
