//! How a file of a system is read, to its end or to as many bytes as are needed.
use crate::tests::assertions::given;
use commands::{
    Counts, Disk, MOST_READS, Store, StoreError, System, needs_in_numbers, read_some,
    reads_in_numbers,
};
use std::alloc::Global;
use std::io;
use std::io::{ErrorKind, Read, Write};

/// Gives one byte at each read, `left` times. After that it is at its end.
#[derive(Clone, Copy, Drop)]
struct Drip {
    left: u64,
}

impl Read for Drip {
    fn read(&mut self, buf: &mut [u8]) -> io::Result<usize> {
        if self.left == 0 || buf.is_empty() {
            return Ok(0);
        }
        self.left -= 1;
        buf[0] = 7;
        Ok(1)
    }
}

/// Is interrupted once, gives a byte, and then fails.
#[derive(Clone, Copy, Drop)]
struct Broken {
    reads: u8,
}

impl Read for Broken {
    fn read(&mut self, buf: &mut [u8]) -> io::Result<usize> {
        self.reads = self.reads.saturating_add(1);
        match self.reads {
            1 => Err(io::Error::from(ErrorKind::Interrupted)),
            2 if !buf.is_empty() => {
                buf[0] = 7;
                Ok(1)
            }
            _ => Err(io::Error::from(ErrorKind::NotConnected)),
        }
    }
}

/// A system that has this reader at each path.
#[derive(Drop)]
struct Everywhere<R> {
    reader: R,
    counts: Counts,
}

impl<R> Everywhere<R> {
    fn new(reader: R) -> Everywhere<R> {
        Everywhere {
            reader,
            counts: Counts::none(),
        }
    }
}

impl<R: Read + Copy + Drop> System for Everywhere<R> {
    type Reader = R;

    type Writer = Vec<u8>;

    ghost reads = { λ system. system.counts.reads };

    ghost failures = { λ system. system.counts.failures };

    fn open(&mut self, _path: &str) -> io::Result<R> {
        Ok(self.reader)
    }

    fn read(&mut self, file: &mut R, buf: &mut [u8]) -> io::Result<usize> {
        let came = file.read(buf);
        self.counts.count(&came);
        came
    }

    fn create(&mut self, _path: &str) -> io::Result<Vec<u8>> {
        let came = Err(io::Error::from(ErrorKind::PermissionDenied));
        self.counts.count_call(&came);
        came
    }

    fn write(&mut self, file: &mut Vec<u8>, bytes: &[u8]) -> io::Result<()> {
        let came = file.write_all(bytes);
        self.counts.count_call(&came);
        came
    }

    fn close(&mut self, _path: &str, _file: Vec<u8>) -> io::Result<()> {
        Ok(())
    }
}

/// How many bytes are read from a reader that gives `left`, in at most eight reads and as far as `most`, or why they are not.
fn read_of(alloc: Global, left: u64, most: usize) -> Result<usize, StoreError> {
    let mut system = Everywhere::new(Drip { left });
    Ok(read_some(&mut system, alloc, "a", 8, most)?.len())
}

#[test]
fn reads_to_the_end(rt: HostRuntime) {
    for (left, most, answer) in [
        (7, usize::MAX, Ok(7)),
        (0, 0, Ok(0)),
        (u64::MAX, usize::MAX, Err(StoreError::Failed)),
        (8, 9, Err(StoreError::Failed)),
        (u64::MAX, 7, Ok(7)),
        (u64::MAX, 0, Ok(0)),
    ] {
        assert!(rt; read_of(rt.alloc(), left, most) == answer);
    }
}

#[test]
fn reads_so_often_at_most(rt: HostRuntime) {
    reads_in_numbers();
    needs_in_numbers();
    assert!(rt; MOST_READS == 4_294_967_296);
}

#[test]
fn fails_as_the_reader_does(rt: HostRuntime) {
    let mut disk = Disk::over(Everywhere::new(Broken { reads: 0 }));
    assert!(rt; disk.read(rt.alloc(), "a", 9).err() == Some(StoreError::Failed));
    assert!(rt; disk.last_failure() == Some(ErrorKind::NotConnected));
}

#[test]
fn tells_why_a_file_was_not_read(rt: HostRuntime) {
    for (error, text) in [
        (StoreError::Failed, "the file was not read or written"),
        (StoreError::NoMemory, "out of memory"),
    ] {
        let told = given!(rt; format!(in rt.alloc(); "{error}"));
        assert_eq!(rt; told.as_str(), text);
    }
}
