//! What opens and makes the files of the system.
ghost use Rattle.std.specs.Prelude.{◌≡◌};

use crate::sources::Counts;
use std::io::{Read, Write};
use std::rt::Files;
use std::{fs, io};

/// Files by their paths, each read and written by its own handle.
pub trait System {
    ghost use Rattle.std.specs.Prelude.{◌≡◌, IfOk, OnOk, Option, None, List, [], ℕ, true};
    ghost use Rattle.std.specs.Result.{is_err};
    ghost use Rattle.std.specs.Io.KnownBytes.{Appends, ReadConsumes};
    ghost use Rattle.std.specs.Io.{ReadsAtMost};
    ghost use Rattle.rv_listing.specs.Sinks.{counted};
    ghost use Rattle.file_store.specs.Sources.{has_failed};
    ghost use Rattle.file_store.specs.System.{IsClosed, IsEmpty, IsOpened, IsPut, Known};

    /// What reads a file.
    type Reader: Read + Drop;

    /// What writes one.
    type Writer: Write + Drop;

    // what the files have, where that is known
    ghost known: { Self → Option Known } = { λ _. None };

    // How often its files were read from, up to 2^64 - 1.
    ghost reads: { Self → ℕ };

    // How many of these reads, and of all other calls, failed, up to 2^64 - 1.
    ghost failures: { Self → ℕ };

    /// The file at `path`, to be read from its first byte.
    fn open(&mut self, path: &str) -> io::Result<Self::Reader>
        ensures opened { IfOk result (λ file.
            IsOpened (known self.old) path.now (Self.Reader.remaining file)) }
        ensures kept { known self.new ≡ known self.old }
        ensures reads { reads self.new ≡ reads self.old }
        ensures failures { failures self.new ≡ counted (is_err result) (failures self.old) };

    /// Reads some bytes of a file that is open, and answers how many: none at the end alone, or
    /// without room for one. A read that was interrupted may be begun again, and does not count as failed.
    fn read(&mut self, file: &mut Self::Reader, buf: &mut [u8]) -> io::Result<usize>
        ensures bound { ReadsAtMost result buf.new }
        ensures bytes { ReadConsumes (Self.Reader.remaining file.old)
            (Self.Reader.remaining file.new) result buf.new }
        ensures kept { known self.new ≡ known self.old }
        ensures reads { reads self.new ≡ counted true (reads self.old) }
        ensures failures { failures self.new ≡ counted (has_failed result) (failures self.old) };

    /// A file without a byte at `path`, in place of what was there, to be written.
    fn create(&mut self, path: &str) -> io::Result<Self::Writer>
        ensures empty { IfOk result (λ file.
            IsEmpty (known self.old) (Self.Writer.contents file)) }
        ensures put { OnOk result (IsPut (known self.old) (known self.new) path.now []) }
        ensures reads { reads self.new ≡ reads self.old }
        ensures failures { failures self.new ≡ counted (is_err result) (failures self.old) };

    /// Writes all of some bytes to a file that was made, behind those that it has taken.
    fn write(&mut self, file: &mut Self::Writer, bytes: &[u8]) -> io::Result<()>
        ensures taken { OnOk result (Appends (Self.Writer.contents file.old)
            (Self.Writer.contents file.new) bytes.now) }
        ensures kept { known self.new ≡ known self.old }
        ensures reads { reads self.new ≡ reads self.old }
        ensures failures { failures self.new ≡ counted (is_err result) (failures self.old) };

    /// Ends the writing of the file at `path`: from then on it has what its writer took.
    fn close(&mut self, path: &str, file: Self::Writer) -> io::Result<()>
        ensures closed { OnOk result (IsClosed (known self.old) (known self.new) path.now
            (Self.Writer.contents file)) }
        ensures reads { reads self.new ≡ reads self.old }
        ensures failures { failures self.new ≡ counted (is_err result) (failures self.old) };
}

/// The files that the handle `rt` opens. A path that is not absolute starts at the working directory.
#[derive(Drop)]
pub struct Native<'a, R> {
    rt: &'a R,
    counts: Counts,
}

impl<'a, R> Native<'a, R> {
    /// The files that the handle `rt` opens.
    pub fn new(rt: &'a R) -> Native<'a, R>
        ensures { result.rt ≡ rt.entry }
    {
        Native {
            rt,
            counts: Counts::none(),
        }
    }
}

impl<'a, R: Files> System for Native<'a, R> {
    type Reader = R::File;

    type Writer = R::File;

    ghost reads = { λ native. native.counts.reads };

    ghost failures = { λ native. native.counts.failures };

    fn open(&mut self, path: &str) -> io::Result<R::File> {
        let came = fs::open(self.rt, path);
        self.counts.count_call(&came);
        came
    }

    fn read(&mut self, file: &mut R::File, buf: &mut [u8]) -> io::Result<usize> {
        let came = file.read(buf);
        self.counts.count(&came);
        came
    }

    fn create(&mut self, path: &str) -> io::Result<R::File> {
        let came = fs::create(self.rt, path);
        self.counts.count_call(&came);
        came
    }

    fn write(&mut self, file: &mut R::File, bytes: &[u8]) -> io::Result<()> {
        let came = file.write_all(bytes);
        self.counts.count_call(&came);
        came
    }

    // The handle is closed where it is let go.
    fn close(&mut self, _path: &str, _file: R::File) -> io::Result<()> {
        Ok(())
    }
}
