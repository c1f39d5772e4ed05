//! `Disk` over a system whose reader gives one byte at a time, and that can fail at each of its calls.
ghost use Rattle.std.specs.Prelude.{◌≡◌, ◌++◌, OnOk};

use crate::tests::assertions::given;
use commands::{Counts, Disk, Store, StoreError, System};
use std::alloc::Global;
use std::io;
use std::io::{ErrorKind, Read, Write};

/// Gives its bytes one at a time.
#[derive(Drop)]
struct Slow {
    bytes: Vec<u8>,
    done: usize,
}

impl Read for Slow {
    fn read(&mut self, buf: &mut [u8]) -> io::Result<usize> {
        if buf.is_empty() || self.done >= self.bytes.len() {
            return Ok(0);
        }
        buf[0] = self.bytes[self.done];
        self.done += 1;
        Ok(1)
    }
}

/// What a drawer refuses.
#[derive(Clone, Copy, PartialEq, Eq)]
enum Refused {
    Nothing,
    Open,
    Create,
    Write,
    Close,
}

/// A system of one file.
#[derive(Drop)]
struct Drawer {
    alloc: Global,
    path: String,
    bytes: Vec<u8>,
    refused: Refused,
    counts: Counts,
}

impl Drawer {
    /// An error, where this is what the drawer refuses.
    fn unless(&self, call: Refused, kind: ErrorKind) -> io::Result<()> {
        if self.refused == call {
            Err(io::Error::from(kind))
        } else {
            Ok(())
        }
    }

    /// What reads the file at a path.
    fn slow(&self, path: &str) -> io::Result<Slow> {
        self.unless(Refused::Open, ErrorKind::PermissionDenied)?;
        if self.path.as_str() != path {
            return Err(io::Error::from(ErrorKind::NotFound));
        }
        let bytes = Vec::from_slice(self.alloc, self.bytes.as_slice())?;
        Ok(Slow { bytes, done: 0 })
    }

    /// What a file is written to.
    fn empty(&self) -> io::Result<Vec<u8>> {
        self.unless(Refused::Create, ErrorKind::PermissionDenied)?;
        Ok(Vec::new(self.alloc))
    }

    /// Writes bytes to a file.
    fn add(&self, file: &mut Vec<u8>, bytes: &[u8]) -> io::Result<()>
        ensures { OnOk result (file.new.items ≡ file.old.items ++ bytes.now) }
    {
        self.unless(Refused::Write, ErrorKind::StorageFull)?;
        file.write_all(bytes)
    }

    /// A path to keep a file at.
    fn label(&self, path: &str) -> io::Result<String> {
        self.unless(Refused::Close, ErrorKind::OutOfMemory)?;
        Ok(String::from_str(self.alloc, path)?)
    }
}

impl System for Drawer {
    type Reader = Slow;

    type Writer = Vec<u8>;

    ghost reads = { λ drawer. drawer.counts.reads };

    ghost failures = { λ drawer. drawer.counts.failures };

    fn open(&mut self, path: &str) -> io::Result<Slow> {
        let came = self.slow(path);
        self.counts.count_call(&came);
        came
    }

    fn read(&mut self, file: &mut Slow, buf: &mut [u8]) -> io::Result<usize> {
        let came = file.read(buf);
        self.counts.count(&came);
        came
    }

    fn create(&mut self, _path: &str) -> io::Result<Vec<u8>> {
        let came = self.empty();
        self.counts.count_call(&came);
        came
    }

    fn write(&mut self, file: &mut Vec<u8>, bytes: &[u8]) -> io::Result<()> {
        let came = self.add(file, bytes);
        self.counts.count_call(&came);
        came
    }

    fn close(&mut self, path: &str, file: Vec<u8>) -> io::Result<()> {
        let came = self.label(path);
        self.counts.count_call(&came);
        self.path = came?;
        self.bytes = file;
        Ok(())
    }
}

/// A drawer without a file at any path that is asked for.
fn empty_drawer(alloc: Global, refused: Refused) -> Disk<Drawer> {
    Disk::over(Drawer {
        alloc,
        path: String::new(alloc),
        bytes: Vec::new(alloc),
        refused,
        counts: Counts::none(),
    })
}

#[test]
fn writes_and_reads_as_far_as_needed(rt: HostRuntime) {
    let alloc = rt.alloc();
    let mut disk = empty_drawer(alloc, Refused::Nothing);
    given!(rt; disk.write("a", b"abc".as_slice()));
    for (most, first) in [(0, ""), (2, "ab"), (3, "abc"), (usize::MAX, "abc")] {
        let bytes = given!(rt; disk.read(alloc, "a", most));
        assert!(rt; bytes.as_slice() == first.as_bytes());
        assert!(rt; disk.last_failure().is_none());
    }
    assert!(rt; disk.read(alloc, "b", 1).err() == Some(StoreError::Failed));
    assert!(rt; disk.last_failure() == Some(ErrorKind::NotFound));
}

#[test]
fn tells_which_call_failed(rt: HostRuntime) {
    let alloc = rt.alloc();
    let (denied, memory) = (ErrorKind::PermissionDenied, ErrorKind::OutOfMemory);
    for (refused, kind, error) in [
        (Refused::Create, denied, StoreError::Failed),
        (Refused::Write, ErrorKind::StorageFull, StoreError::Failed),
        (Refused::Close, memory, StoreError::NoMemory),
    ] {
        let mut disk = empty_drawer(alloc, refused);
        assert!(rt; disk.write("a", b"abc".as_slice()).err() == Some(error));
        assert!(rt; disk.last_failure() == Some(kind));
    }
    let mut disk = empty_drawer(alloc, Refused::Open);
    given!(rt; disk.write("a", b"abc".as_slice()));
    assert!(rt; disk.read(alloc, "a", 3).err() == Some(StoreError::Failed));
    assert!(rt; disk.last_failure() == Some(denied));
}
