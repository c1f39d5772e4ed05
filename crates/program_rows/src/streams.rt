//! Streams in memory. Some of them fail.
use std::io;
use std::io::{Read, Write};

/// How standard input is read.
#[derive(Clone, Copy)]
pub(crate) struct Manner {
    /// Whether it gives its bytes one by one, and is interrupted once before the last.
    pub drips: bool,
    /// The failure that comes behind its bytes, in place of their end.
    pub failure: Option<io::ErrorKind>,
}

/// Standard input: the bytes that are left of it.
#[derive(Drop)]
pub(crate) struct Input<'a> {
    pub bytes: &'a [u8],
    pub manner: Manner,
}

impl Read for Input<'_> {
    fn read(&mut self, buf: &mut [u8]) -> io::Result<usize> {
        if self.bytes.is_empty() {
            return match self.manner.failure {
                Some(kind) => Err(io::Error::from(kind)),
                None => Ok(0),
            };
        }
        if self.manner.drips && self.bytes.len() == 1 {
            self.manner.drips = false;
            return Err(io::Error::from(io::ErrorKind::Interrupted));
        }
        let most = if self.manner.drips { 1 } else { buf.len() };
        let count = most.min(buf.len()).min(self.bytes.len());
        let (now, later) = self.bytes.split_at(count);
        buf[..count].copy_from_slice(now);
        self.bytes = later;
        Ok(count)
    }
}

/// Standard output.
#[derive(Drop)]
pub(crate) enum Output {
    /// Keeps what it takes.
    Kept(Vec<u8>),
    /// Takes no byte.
    Broken,
    /// Takes every byte, and fails to pass them on.
    Stuck,
}

impl Write for Output {
    fn write(&mut self, buf: &[u8]) -> io::Result<usize> {
        match self {
            Output::Kept(bytes) => bytes.write(buf),
            Output::Broken => Err(io::Error::from(io::ErrorKind::Other)),
            Output::Stuck => Ok(buf.len()),
        }
    }

    fn flush(&mut self) -> io::Result<()> {
        match self {
            Output::Kept(_) => Ok(()),
            Output::Broken | Output::Stuck => Err(io::Error::from(io::ErrorKind::Other)),
        }
    }
}
