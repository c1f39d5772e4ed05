//! The program on files of the system.
use crate::tests::assertions::given;
use crate::tests::performances::performed;
use commands::{Counted, Disk, Over, Status, Store, mon_job_within};
use hex::decode;
use std::alloc::{AllocError, Global};
use std::fs;
use std::process::Abort;

/// ret, with a certificate that states a bound of one instruction.
pub(crate) const IMAGE: &str = "\
7f454c460101010000000000000000000200f30001000000000001003400000000000000000000003400200002000000\
000000000100000074000000000001000000010004000000040000000500000004000000040000007800000000000000\
000000009c0000009c000000040000000400000067800000070000008600000001000000525656424f58000001000100\
000000000000000000000000000000000000000000000000000000000000000000000000000000000000000000000000\
000000000000000000000000000000000000000000000000000000000000000000000000000000000000000000000000\
01000000000001000100000000000000000000010000000001f0fffffff0ffffffff0000";

/// A job on it.
pub(crate) const JOB: &str = "image = \"one.elf\"\nvlen = 128\nagnostic = \"keep\"\nmax = 1\n";

/// Asserts what comes of words on an input of one line.
fn expect<S: Store>(rt: impl Abort + Copy, alloc: Global, store: &mut S, words: &str, text: &str) {
    let came = performed(rt, alloc, words, store, b"c\n".as_slice());
    assert!(rt; came.status == Status::Done);
    assert!(rt; came.output.as_slice() == text.as_bytes());
    assert!(rt; came.errors.is_empty());
}

/// Asserts the same of `mon` with two reads of its input at most.
fn expect_monitor<S: Store>(rt: impl Abort + Copy, alloc: Global, store: &mut S) {
    let (mut output, mut errors) = (Over::new(Vec::new(alloc)), Over::new(Vec::new(alloc)));
    let mut input = Counted::new(b"c\n".as_slice());
    let (out, err) = (&mut output, &mut errors);
    let came = mon_job_within(alloc, "one.toml", false, store, &mut input, out, err, 2);
    assert!(rt; came == Status::Done);
    assert!(rt; output.into_inner().as_slice() == b"ended step 1\n".as_slice());
    assert!(rt; errors.into_inner().is_empty());
}

#[test]
fn performs_on_files_of_the_system(rt: HostRuntime) {
    let mut disk = Disk::new(&rt);
    let image = given!(rt; decode(rt.alloc(), IMAGE));
    given!(rt; disk.write("one.elf", &image));
    given!(rt; disk.write("one.toml", JOB.as_bytes()));
    for (words, text) in [
        ("rvvbox check one.elf", "accepted: bound 1 + 0 * x0\n"),
        ("rvvbox run one.toml", "ended: 1 steps\n"),
        ("rvvbox try one.toml", "ended: 1 steps\n"),
        ("rvvbox mon one.toml", "ended step 1\n"),
    ] {
        expect(rt, rt.alloc(), &mut disk, words, text);
    }
    expect_monitor(rt, rt.alloc(), &mut disk);
    given!(rt; fs::remove_file(&rt, "one.elf"));
    given!(rt; fs::remove_file(&rt, "one.toml"));
}

#[test]
fn says_what_the_system_says(rt: HostRuntime) {
    let mut disk = Disk::new(&rt);
    let words = "rvvbox check --explain none.elf";
    let came = performed(rt, rt.alloc(), words, &mut disk, b"".as_slice());
    let lines = "file: none.elf\n  the system says: entity not found\n";
    assert!(rt; came.output.is_empty());
    assert!(rt; came.errors.as_slice() == lines.as_bytes());
}

/// The bytes of a file of a little more than 16 MiB.
fn large(alloc: Global) -> Result<Vec<u8>, AllocError> {
    let mut bytes = vec![in alloc; 7u8; 16_777_217]?;
    bytes[4_194_304] = 9;
    bytes[16_777_216] = 8;
    Ok(bytes)
}

/// Asserts that a file that was written is read with the same bytes.
fn writes_and_reads<S: Store>(
    rt: impl Abort + Copy,
    alloc: Global,
    store: &mut S,
    path: &str,
    bytes: &[u8],
) {
    given!(rt; store.write(path, bytes));
    let read = given!(rt; store.read(alloc, path, usize::MAX));
    assert!(rt; read.as_slice() == bytes);
}

#[test]
fn writes_and_reads_files_of_the_system(rt: HostRuntime) {
    let path = "limits.bin";
    let bytes = given!(rt; large(rt.alloc()));
    let mut disk = Disk::new(&rt);
    writes_and_reads(rt, rt.alloc(), &mut disk, path, &bytes);
    let first = given!(rt; disk.read(rt.alloc(), path, 4_194_305));
    assert!(rt; first.len() == 4_194_305 && bytes.as_slice().starts_with(first.as_slice()));
    writes_and_reads(rt, rt.alloc(), &mut disk, path, &[]);
    given!(rt; fs::remove_file(&rt, path));
}
