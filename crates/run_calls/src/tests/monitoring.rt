//! What a monitor and a listing tell over a sink that fails: a run of the loop over strips, whose
//! texts are cut at each of their bytes.

ghost use Rattle.std.specs.Prelude.{◌≡◌, ◌≤◌, length};

use crate::tests::assertions::{assert_same, given};
use crate::tests::kernels::accepted;
use crate::tests::sessions::args;
use block_checker::Accepted;
use cert_note::Vlen;
use monitor::{Flow, MonError, Monitor};
use rv_listing::{Failed, Outlet, Over, Piece, Sink, Stream, print, put_all, put_listing};
use sample_kernels::RAISE;
use sandbox_run::Session;
use std::alloc::Global;
use std::io;
use std::process::Abort;
use vreg_groups::Agnostic;

/// Keeps what it is given, until it has no room.
#[derive(Drop)]
struct Recorder {
    bytes: Vec<u8>,
    room: usize,
    failures: u64,
}

impl Recorder {
    fn new(alloc: Global, room: usize) -> Recorder {
        Recorder {
            bytes: Vec::new(alloc),
            room,
            failures: 0,
        }
    }
}

impl Sink for Recorder {
    ghost use Rattle.std.specs.Prelude.{Some};

    ghost contents = { λ r. Some r.bytes.items };

    ghost failures = { λ r. r.failures };

    fn write(&mut self, bytes: &[u8]) -> Result<usize, Failed> {
        let n = bytes.len().min(self.room);
        if n < bytes.len() && n == 0 || self.bytes.extend_from_slice(&bytes[..n]).is_err() {
            self.failures = self.failures.saturating_add(1);
            return Err(Failed);
        }
        self.room -= n;
        Ok(n)
    }
}

/// Holds what it takes back until it is flushed, which can fail.
#[derive(Drop)]
struct Buffered {
    held: Vec<u8>,
    passed: usize,
    fails: bool,
}

impl Outlet for Buffered {
    ghost use Rattle.std.specs.Prelude.{Some, take};

    ghost contents = { λ b. Some b.held.items };

    ghost passed = { λ b. Some (take b.passed b.held.items) };

    fn write(&mut self, bytes: &[u8]) -> io::Result<usize> {
        self.held.extend_from_slice(bytes)?;
        Ok(bytes.len())
    }

    fn flush(&mut self) -> io::Result<()> {
        if self.fails {
            return Err(io::Error::from(io::ErrorKind::BrokenPipe));
        }
        self.passed = self.held.len();
        Ok(())
    }
}

#[test]
fn what_is_printed_is_passed_on(rt: HostRuntime) {
    expect_passed(rt, rt.alloc(), false, Ok(()), 2);
    expect_passed(rt, rt.alloc(), true, Err(Failed), 0);
}

/// Asserts what is passed on where the flush fails or not.
fn expect_passed(
    rt: impl Abort + Copy,
    alloc: Global,
    fails: bool,
    expected: Result<(), Failed>,
    passed: usize,
) {
    let mut out = Over::new(Buffered {
        held: Vec::new(alloc),
        passed: 0,
        fails,
    });
    assert_same!(rt; print(&mut out, b"ab".as_slice()), expected);
    assert_same!(rt; out.pass_on(), expected);
    let buffered = out.into_inner();
    assert_same!(rt; buffered.held.as_slice(), b"ab".as_slice());
    assert_same!(rt; buffered.passed, passed);
}

#[test]
fn a_listing_is_cut(rt: HostRuntime) {
    let whole = b"vadd.vx vd=3 rs1=7 vs2=2 vm=0";
    for room in 0..whole.len() {
        let mut out = Recorder::new(rt.alloc(), room);
        let result = put_listing(&mut out, 0x0023_c1d7, 0x1_0000);
        assert_same!(rt; result, Err(Failed));
        assert_same!(rt; out.bytes.as_slice(), &whole[..room]);
        assert_same!(rt; out.failures, 1);
    }
}

#[test]
fn pieces_make_a_text(rt: HostRuntime) {
    let mut out = Over::new(Vec::new(rt.alloc()));
    let result = put_all(
        &mut out,
        &[
            Piece::Text("at "),
            Piece::Word(0x1_0004),
            Piece::Text(" "),
            Piece::Number(17),
            Piece::Signed(-3),
        ],
    );
    assert_same!(rt; result, Ok(()));
    assert_same!(rt; out.into_inner().as_slice(), b"at 00010004 17-3".as_slice());
}

/// Commands on a run over nine words, and the answer to each.
const STRIPS: [(&str, &str); 11] = [
    ("b 10004", "break 00010004\n"),
    ("c", "at 00010004 step 1\n"),
    ("c", "at 00010004 step 9\n"),
    ("c", "at 00010004 step 17\n"),
    ("v 8", "v08=04030303040303030403030304030303\n"),
    ("s 0", "at 00010004 step 17\n"),
    (
        "l 10004 2",
        "00010004 0d05f2d7 vsetvli rd=5 rs1=11 imm=208\n\
00010008 02056407 vle32.v vd=8 rs1=10 vm=1\n",
    ),
    (
        "csr",
        "pc=00010004 vl=4 vtype=000000d0 vxrm=0 vxsat=0 vlenb=16\n",
    ),
    ("m 40000000 5", "40000000=0403030304\n"),
    ("c", "ended step 26\n"),
    ("c", "ended step 26\n"),
];

/// Gives the commands over a sink with so much room. Each is carried out; it fails where its text
/// has no room.
fn assert_cut(
    rt: impl Abort + Copy,
    monitor: &mut Monitor<'_, 16>,
    out: &mut Recorder,
    room: usize,
) {
    let mut told = 0usize;
    for k in 0..STRIPS.len() {
        let (line, text) = STRIPS[k];
        told = told.saturating_add(text.len());
        let expected = if told <= room {
            Ok(Flow::Go)
        } else {
            Err(MonError::Write)
        };
        assert_same!(rt; monitor.command(line, out), expected);
    }
}

/// Gives a command, and asserts the answer to it.
fn assert_told(
    rt: impl Abort + Copy,
    alloc: Global,
    monitor: &mut Monitor<'_, 16>,
    line: &str,
    text: &str,
) {
    let mut out = Over::new(Vec::new(alloc));
    assert_same!(rt; monitor.command(line, &mut out), Ok(Flow::Go));
    assert_same!(rt; out.into_inner().as_slice(), text.as_bytes());
}

/// Asserts that the run stands at its end, with its breakpoint, where the texts had so much room,
/// and that what was written is the beginning of the whole.
fn assert_whole_run(
    rt: impl Abort + Copy,
    alloc: Global,
    session: &mut Session<16>,
    whole: &[u8],
    room: usize,
)
    requires { room ≤ length whole.now }
{
    let mut monitor = Monitor::new(session);
    let mut out = Recorder::new(alloc, room);
    assert_cut(rt, &mut monitor, &mut out, room);
    assert_same!(rt; out.bytes.as_slice(), &whole[..room]);
    assert_same!(rt; out.failures > 0, room < whole.len());
    assert_told(rt, alloc, &mut monitor, "s 0", "ended step 26\n");
    assert_told(rt, alloc, &mut monitor, "d 10004", "gone 00010004\n");
}

/// Runs of the loop over nine words: one for each room that is too small for the texts of the strips, one behind the other, and
/// one for a room that is not.
#[test]
fn a_failure_cuts_the_text_alone(rt: HostRuntime) {
    let alloc = rt.alloc();
    let accepted = accepted(rt, alloc, RAISE, Vlen::V128);
    let whole = whole_text(rt, alloc);
    for room in 0..=whole.len() {
        let mut session = opened(rt, alloc, &accepted);
        assert_whole_run(rt, alloc, &mut session, whole.as_slice(), room);
    }
}

/// The texts of the strips, one behind the other.
fn whole_text(rt: impl Abort + Copy, alloc: Global) -> Vec<u8> {
    let mut whole = Vec::new(alloc);
    for k in 0..STRIPS.len() {
        given!(rt; whole.extend_from_slice(STRIPS[k].1.as_bytes()));
    }
    whole
}

/// A session of the loop over nine words.
fn opened(rt: impl Abort + Copy, alloc: Global, accepted: &Accepted) -> Session<16> {
    let args = args(rt, alloc, Some(4096), 9, None);
    given!(rt; Session::<16>::open(alloc, accepted, args, Agnostic::Keep, 8194))
}
