//! Subcommands on files in memory. All is known of these files.
use crate::tests::assertions::given;
use crate::tests::performances::{performed, performed_words};
use crate::tests::system::{IMAGE, JOB};
use commands::{
    Counted, MakePaths, Memory, Over, Status, Store, StoreError, check_memory, make_memory,
    mon_job_within, mon_memory, run_memory, try_memory,
};
use hex::decode;
use std::alloc::Global;
use std::io::ErrorKind;
use std::process::Abort;

/// What `check` tells of a file of three bytes, where it is to explain.
const SHORT: &str = "refused: TooShort
  the file is shorter than an ELF header
  size of the file: 3
  wanted: at least 52, an ELF header
";

/// What `try` tells of the run of one instruction, with the registers.
const SHOWN: &str = "ended: 1 steps
x00=00000000 x01=fffffff0 x02=30000000 x03=00000000
x04=00000000 x05=00000000 x06=00000000 x07=00000000
x08=00000000 x09=00000000 x10=00000000 x11=00000000
x12=00000000 x13=00000000 x14=00000000 x15=00000000
x16=00000000 x17=00000000 x18=00000000 x19=00000000
x20=00000000 x21=00000000 x22=00000000 x23=00000000
x24=00000000 x25=00000000 x26=00000000 x27=00000000
x28=00000000 x29=00000000 x30=00000000 x31=00000000
pc=fffffff0 vl=0 vtype=80000000 vxrm=0 vxsat=0 vlenb=16
";

/// An image, and a job on it.
fn files(rt: impl Abort + Copy, alloc: Global) -> Memory {
    let mut memory = Memory::new(alloc);
    let image = given!(rt; decode(alloc, IMAGE));
    given!(rt; memory.write("one.elf", &image));
    given!(rt; memory.write("one.toml", JOB.as_bytes()));
    memory
}

/// Asserts how a subcommand ended, and what it printed.
fn expect(rt: impl Abort + Copy, came: Status, output: Over<Vec<u8>>, status: Status, text: &str) {
    assert!(rt; came == status);
    assert!(rt; output.into_inner().as_slice() == text.as_bytes());
}

/// A stream that keeps what it takes.
fn kept(alloc: Global) -> Over<Vec<u8>> {
    Over::new(Vec::new(alloc))
}

#[test]
fn checks_runs_and_tries_files_in_memory(rt: HostRuntime) {
    let alloc = rt.alloc();
    let mut memory = files(rt, alloc);
    let (mut one, mut two, mut three) = (kept(alloc), kept(alloc), kept(alloc));
    let mut errors = kept(alloc);
    let came = check_memory(alloc, "one.elf", false, &mut memory, &mut one, &mut errors);
    expect(rt, came, one, Status::Done, "accepted: bound 1 + 0 * x0\n");
    let came = run_memory(
        alloc,
        "one.toml",
        false,
        false,
        &mut memory,
        &mut two,
        &mut errors,
    );
    expect(rt, came, two, Status::Done, "ended: 1 steps\n");
    let came = try_memory(
        alloc,
        "one.toml",
        false,
        true,
        &mut memory,
        &mut three,
        &mut errors,
    );
    expect(rt, came, three, Status::Done, SHOWN);
    assert!(rt; errors.into_inner().is_empty());
}

#[test]
fn watches_a_run_of_files_in_memory(rt: HostRuntime) {
    let alloc = rt.alloc();
    let mut memory = files(rt, alloc);
    let (mut output, mut errors) = (kept(alloc), kept(alloc));
    let mut input = Counted::new(b"c\nq\n".as_slice());
    let (out, err) = (&mut output, &mut errors);
    let came = mon_memory(alloc, "one.toml", false, &mut memory, &mut input, out, err);
    expect(rt, came, output, Status::Done, "ended step 1\n");
    assert!(rt; errors.into_inner().is_empty());
}

#[test]
fn makes_no_certificate_of_an_image_that_has_one(rt: HostRuntime) {
    let alloc = rt.alloc();
    let mut memory = files(rt, alloc);
    let (mut output, mut errors) = (kept(alloc), kept(alloc));
    let paths = MakePaths {
        image: "one.elf",
        job: "one.toml",
        out: "two.elf",
    };
    let came = make_memory(alloc, paths, false, &mut memory, &mut output, &mut errors);
    expect(rt, came, output, Status::Refused, "");
    assert!(rt; memory.get("two.elf").is_none());
    assert!(rt; memory.get("one.toml") == Some(JOB.as_bytes()));
}

#[test]
fn explains_why_a_file_in_memory_is_no_image(rt: HostRuntime) {
    let alloc = rt.alloc();
    let mut memory = files(rt, alloc);
    given!(rt; memory.write("short.elf", b"abc"));
    let (mut output, mut errors) = (kept(alloc), kept(alloc));
    let came = check_memory(
        alloc,
        "short.elf",
        true,
        &mut memory,
        &mut output,
        &mut errors,
    );
    expect(rt, came, output, Status::Refused, "");
    assert!(rt; errors.into_inner().as_slice() == SHORT.as_bytes());
}

#[test]
fn tells_no_more_of_an_input_that_is_read_too_often(rt: HostRuntime) {
    let alloc = rt.alloc();
    let mut memory = files(rt, alloc);
    let (mut output, mut errors) = (kept(alloc), kept(alloc));
    let mut input = Counted::new(b"c\n".as_slice());
    let (out, err) = (&mut output, &mut errors);
    let came = mon_job_within(
        alloc,
        "one.toml",
        true,
        &mut memory,
        &mut input,
        out,
        err,
        1,
    );
    assert!(rt; came == Status::File);
    assert!(rt; errors.into_inner().as_slice() == b"file: -\n".as_slice());
}

#[test]
fn tells_control_characters_by_their_codes(rt: HostRuntime) {
    let alloc = rt.alloc();
    let mut memory = Memory::new(alloc);
    let job = "image = \"a\\n\\u001b\\u009b.elf\"\nvlen = 128\nagnostic = \"keep\"\nmax = 1\n";
    given!(rt; memory.write("two.toml", job.as_bytes()));
    let came = performed(
        rt,
        alloc,
        "rvvbox try two.toml",
        &mut memory,
        b"".as_slice(),
    );
    assert!(rt; came.output.is_empty());
    assert!(rt; came.errors.as_slice() == b"file: a\\u{a}\\u{1b}\\u{9b}.elf\n".as_slice());
}

#[test]
fn writes_and_reads_no_file_that_is_refused(rt: HostRuntime) {
    let mut memory = Memory::new(rt.alloc());
    given!(rt; memory.write("one", b"1".as_slice()));
    given!(rt; memory.write("one", b"2".as_slice()));
    given!(rt; memory.refuse_writes("one"));
    assert!(rt; memory.write("one", b"3".as_slice()).is_err());
    assert!(rt; memory.get("one") == Some(b"2".as_slice()));
    given!(rt; memory.refuse_reads("one"));
    for path in ["one", "two"] {
        assert!(rt; memory.read(rt.alloc(), path, 1).err() == Some(StoreError::Failed));
        assert!(rt; memory.last_failure() == Some(ErrorKind::NotFound));
    }
}

/// Asserts that words are refused, and that what is printed of them shows a text, and no control character but ends of lines.
fn shows(rt: impl Abort + Copy, alloc: Global, words: &[&str], shown: &str) {
    let mut memory = Memory::new(alloc);
    let came = performed_words(alloc, words, &mut memory, b"".as_slice());
    assert!(rt; came.status == Status::Usage);
    let errors = given!(rt; str::from_utf8(came.errors.as_slice()));
    assert!(rt; errors.contains(shown));
    assert!(rt; !errors.chars().any(|c| c.is_control() && c != '\n'));
}

#[test]
fn tells_control_characters_of_words_by_their_codes(rt: HostRuntime) {
    let alloc = rt.alloc();
    let flag = "--ex\u{9b}plain";
    shows(
        rt,
        alloc,
        &["rvvbox", "ch\u{1b}[2Jeck"],
        "'ch\\u{1b}[2Jeck'",
    );
    shows(
        rt,
        alloc,
        &["rvvbox", "check", "one", flag],
        "'--ex\\u{9b}plain'",
    );
    shows(
        rt,
        alloc,
        &["rvvbox", "check", "one", "t\nwo"],
        "'t\\u{a}wo'",
    );
}
