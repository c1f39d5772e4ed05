//! What the input of `mon` comes from, and how reads are counted.
ghost use Rattle.std.specs.Prelude.{◌≡◌, true};
ghost use Rattle.std.specs.Result.{is_err};
ghost use Rattle.rv_listing.specs.Sinks.{counted};
ghost use Rattle.file_store.specs.Sources.{has_failed};

use std::io;
use std::io::{ErrorKind, Read};

/// What gives bytes, and counts its reads, and those of them that failed.
pub trait Source {
    ghost use Rattle.std.specs.Prelude.{◌≡◌, ℕ, List, Option, None, true};
    ghost use Rattle.std.specs.Io.KnownBytes.{ReadConsumes};
    ghost use Rattle.std.specs.Io.{ReadsAtMost};
    ghost use Rattle.rv_listing.specs.Sinks.{counted};
    ghost use Rattle.file_store.specs.Sources.{has_failed};

    // The bytes that reads will give from here on, where they are known.
    ghost remaining: { Self → Option (List ℕ) } = { λ _. None };

    // How often it was read from, up to 2^64 - 1.
    ghost reads: { Self → ℕ };

    // How many of the reads failed, up to 2^64 - 1.
    ghost failures: { Self → ℕ };

    /// Reads some bytes, and answers how many: none at the end alone, or without room for one. A read that was interrupted may
    /// be begun again, and does not count as failed.
    fn read(&mut self, buf: &mut [u8]) -> io::Result<usize>
        ensures bound { ReadsAtMost result buf.new }
        ensures bytes { ReadConsumes (remaining self.old) (remaining self.new) result buf.new }
        ensures reads { reads self.new ≡ counted true (reads self.old) }
        ensures failures { failures self.new
            ≡ counted (has_failed result) (failures self.old) };
}

/// How often something was read from, and how many calls failed, each up to 2^64 - 1.
#[derive(Clone, Copy, Debug, PartialEq, Eq)]
pub struct Counts {
    reads: u64,
    failures: u64,
}

impl Counts {
    /// Nothing was counted.
    pub fn none() -> Counts
        ensures { result ≡ record { reads = 0; failures = 0 } }
    {
        Counts {
            reads: 0,
            failures: 0,
        }
    }

    /// Counts a read. One that was interrupted may be begun again, and does not count as failed.
    pub fn count(&mut self, came: &io::Result<usize>)
        ensures reads { self.new.reads ≡ counted true self.old.reads }
        ensures failures { self.new.failures
            ≡ counted (has_failed came.now) self.old.failures }
    {
        self.reads = self.reads.saturating_add(1);
        if has_failed(came) {
            self.count_failure();
        }
    }

    /// Counts a call that is no read, where it failed.
    pub fn count_call<T>(&mut self, came: &io::Result<T>)
        ensures reads { self.new.reads ≡ self.old.reads }
        ensures failures { self.new.failures
            ≡ counted (is_err came.now) self.old.failures }
    {
        if came.is_err() {
            self.count_failure();
        }
    }

    fn count_failure(&mut self)
        ensures reads { self.new.reads ≡ self.old.reads }
        ensures failures { self.new.failures ≡ counted true self.old.failures }
    {
        self.failures = self.failures.saturating_add(1);
    }
}

/// Whether a read failed.
fn has_failed(came: &io::Result<usize>) -> bool
    ensures { result ≡ has_failed came.now }
{
    match came {
        Ok(_) => false,
        Err(error) => match error.kind() {
            ErrorKind::Interrupted => false,
            _ => true,
        },
    }
}

/// Any reader, with counts of its reads.
#[derive(Drop)]
pub struct Counted<R> {
    reader: R,
    counts: Counts,
}

impl<R> Counted<R> {
    /// The reader, which was not read from.
    pub fn new(reader: R) -> Counted<R>
        ensures reader { result.reader ≡ reader }
        ensures counts { result.counts ≡ record { reads = 0; failures = 0 } }
    {
        Counted {
            reader,
            counts: Counts::none(),
        }
    }
}

impl<R: Read> Source for Counted<R> {
    ghost remaining = { λ counted. R.remaining counted.reader };

    ghost reads = { λ counted. counted.counts.reads };

    ghost failures = { λ counted. counted.counts.failures };

    fn read(&mut self, buf: &mut [u8]) -> io::Result<usize> {
        let came = self.reader.read(buf);
        self.counts.count(&came);
        came
    }
}
