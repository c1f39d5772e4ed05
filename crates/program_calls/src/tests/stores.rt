//! A store without memory, and words that the system does not give.
use crate::tests::performances::performed;
use command_line::end_without_words;
use commands::{Over, Status, Store, StoreError};
use std::alloc::Global;
use std::io;
use std::io::{Eprint, ErrorKind};
use std::process::{Abort, ExitCode, Termination};

/// Has no memory for any file, whatever the system says.
#[derive(Drop)]
struct Poor;

impl Store for Poor {
    ghost use Rattle.std.specs.Prelude.{Some};
    ghost use Rattle.std.specs.declared.io.ErrorKind.TheVariants.{NotFound};

    ghost failure = { λ _. Some NotFound };

    fn read(&mut self, _alloc: Global, _path: &str, _most: usize) -> Result<Vec<u8>, StoreError> {
        Err(StoreError::NoMemory)
    }

    fn write(&mut self, _path: &str, _bytes: &[u8]) -> Result<(), StoreError> {
        Err(StoreError::NoMemory)
    }

    fn last_failure(&self) -> Option<ErrorKind> {
        Some(ErrorKind::NotFound)
    }
}

#[test]
fn tells_no_more_where_memory_runs_out(rt: HostRuntime) {
    let words = "rvvbox check --explain any";
    let came = performed(rt, rt.alloc(), words, &mut Poor, b"".as_slice());
    assert!(rt; came.errors.as_slice() == b"out of memory\n".as_slice());
}

/// Asserts how the program ends where the system gives it no words.
fn expect_end(
    rt: impl Abort + Eprint + Copy,
    alloc: Global,
    kind: ErrorKind,
    status: Status,
    code: u8,
    text: &str,
) {
    let mut errors = Over::new(Vec::new(alloc));
    let ended = end_without_words(io::Error::from(kind), &mut errors);
    assert!(rt; ended.status() == status);
    assert!(rt; ended.report(&rt) == ExitCode::from(code));
    assert!(rt; errors.into_inner().as_slice() == text.as_bytes());
}

#[test]
fn ends_without_words_of_the_system(rt: HostRuntime) {
    let alloc = rt.alloc();
    let (data, memory) = (ErrorKind::InvalidData, ErrorKind::OutOfMemory);
    let not_utf8 = "error: the words are not UTF-8\n";
    expect_end(rt, alloc, data, Status::Usage, 2, not_utf8);
    expect_end(rt, alloc, memory, Status::Memory, 4, "out of memory\n");
}
