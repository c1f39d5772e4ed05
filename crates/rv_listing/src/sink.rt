//! Where texts are written to.
ghost use Rattle.std.specs.Io.KnownBytes.{WriteAppends};
ghost use Rattle.std.specs.Prelude.{◌≡◌, ◌≤◌, IfOk, OnOk, length};
ghost use Rattle.std.specs.Result.{is_err};
ghost use Rattle.rv_listing.specs.Sinks.{IsPassedOn, Told, counted, has_failed};

use std::error::Error;
use std::io::{ErrorKind, Write};
use std::{fmt, io};

/// How often a write that is interrupted is begun again.
const MOST_TRIES: u64 = 1 << 32;

/// A write failed.
#[derive(Clone, Copy, Debug, PartialEq, Eq)]
pub struct Failed;

impl fmt::Display for Failed {
    ghost use Rattle.std.specs.Prelude.{Some};
    ghost use Rattle.rv_listing.specs.Sinks.{failed_text};

    ghost output = { λ _. Some failed_text };

    fn fmt<W: fmt::Write>(&self, f: &mut fmt::Formatter<W>) -> fmt::Result {
        f.write_str("the text could not be written")
    }
}

impl Error for Failed {}

/// What takes bytes, and counts the writes that failed.
pub trait Sink {
    ghost use Rattle.std.specs.Prelude.{ℕ, List, Option, None};

    // The bytes that it has taken, where they are known.
    ghost contents: { Self → Option (List ℕ) } = { λ _. None };

    // How many writes have failed, up to 2^64 - 1.
    ghost failures: { Self → ℕ };

    /// Takes some of the bytes, from the first on, and answers how many. A write that took none, of
    /// some, counts as failed.
    fn write(&mut self, bytes: &[u8]) -> Result<usize, Failed>
        ensures bound { IfOk result (λ n. n ≤ length bytes.now) }
        ensures bytes { WriteAppends (contents self.old) (contents self.new) result bytes.now }
        ensures counts { failures self.new
            ≡ counted (has_failed result bytes.now) (failures self.old) };
}

/// A sink that passes on what it has taken.
pub trait Stream: Sink {
    ghost use Rattle.std.specs.Prelude.{ℕ, List, Option, None};
    ghost use Rattle.std.specs.Io.KnownBytes.{Keeps};

    // The bytes that it has passed on, where they are known.
    ghost passed: { Self → Option (List ℕ) } = { λ _. None };

    /// Passes on all that it has taken. Where it does not, that counts as a failed write.
    fn pass_on(&mut self) -> Result<(), Failed>
        ensures bytes { Keeps (Self.contents self.old) (Self.contents self.new) }
        ensures passed { OnOk result (IsPassedOn (passed self.new) (Self.contents self.new)) }
        ensures counts { Self.failures self.new
            ≡ counted (is_err result) (Self.failures self.old) };
}

/// What a stream writes to, which may hold bytes back until it is flushed.
pub trait Outlet {
    ghost use Rattle.std.specs.Prelude.{ℕ, List, Option, None};
    ghost use Rattle.std.specs.Io.KnownBytes.{Keeps, WriteAppends};

    // The bytes that it has taken, where they are known.
    ghost contents: { Self → Option (List ℕ) } = { λ _. None };

    // Those that it holds back no more, where they are known.
    ghost passed: { Self → Option (List ℕ) } = { λ _. None };

    /// Takes some of the bytes, from the first on, and answers how many.
    fn write(&mut self, bytes: &[u8]) -> io::Result<usize>
        ensures bound { IfOk result (λ n. n ≤ length bytes.now) }
        ensures bytes { WriteAppends (contents self.old) (contents self.new) result bytes.now };

    /// Holds none of its bytes back any more.
    fn flush(&mut self) -> io::Result<()>
        ensures bytes { Keeps (contents self.old) (contents self.new) }
        ensures passed { OnOk result (IsPassedOn (passed self.new) (contents self.new)) };
}

impl<W: Write> Outlet for W {
    ghost contents = { λ writer. W.contents writer };

    fn write(&mut self, bytes: &[u8]) -> io::Result<usize> {
        Write::write(self, bytes)
    }

    fn flush(&mut self) -> io::Result<()> {
        Write::flush(self)
    }
}

/// Any outlet, with a count of the writes that failed.
#[derive(Drop)]
pub struct Over<T> {
    writer: T,
    failures: u64,
}

impl<T> Over<T> {
    /// The writer, with no failures so far.
    pub fn new(writer: T) -> Over<T>
        ensures { result ≡ record { writer = writer; failures = 0 } }
    {
        Over {
            writer,
            failures: 0,
        }
    }

    /// The writer.
    pub fn into_inner(self) -> T
        ensures { result ≡ self.writer }
    {
        self.writer
    }
}

impl<T: Outlet> Sink for Over<T> {
    ghost contents = { λ over. T.contents over.writer };

    ghost failures = { λ over. over.failures };

    fn write(&mut self, bytes: &[u8]) -> Result<usize, Failed> {
        match write_some(&mut self.writer, bytes) {
            Ok(n) if n > 0 || bytes.is_empty() => Ok(n),
            Ok(_) => {
                self.failures = self.failures.saturating_add(1);
                Ok(0)
            }
            Err(_) => {
                self.failures = self.failures.saturating_add(1);
                Err(Failed)
            }
        }
    }
}

impl<T: Outlet> Stream for Over<T> {
    ghost passed = { λ over. T.passed over.writer };

    fn pass_on(&mut self) -> Result<(), Failed> {
        match self.writer.flush() {
            Ok(()) => Ok(()),
            Err(_) => {
                self.failures = self.failures.saturating_add(1);
                Err(Failed)
            }
        }
    }
}

/// Writes some of the bytes. A write that is interrupted is begun again.
fn write_some<W: Outlet>(writer: &mut W, bytes: &[u8]) -> io::Result<usize>
    ensures bound { IfOk result (λ n. n ≤ length bytes.now) }
    ensures bytes { WriteAppends (W.contents writer.old) (W.contents writer.new) result bytes.now }
{
    for _ in 0..MOST_TRIES {
        match writer.write(bytes) {
            Err(error) if error.kind() == ErrorKind::Interrupted => {}
            wrote => return wrote,
        }
    }
    Err(io::Error::from(ErrorKind::Interrupted))
}

/// Writes all bytes of a text, or what the sink takes of them before a write fails.
pub fn put<S: Sink>(out: &mut S, text: &[u8]) -> Result<(), Failed>
    ensures { Told result (S.contents out.old) (S.contents out.new)
        (S.failures out.old) (S.failures out.new) text.now }
{
    let mut done = 0;
    'writing: while done < text.len() {
        match out.write(&text[done..]) {
            Ok(0) => return Err(Failed),
            Ok(n) => done += n,
            Err(error) => return Err(error),
        }
    }
    Ok(())
}

/// Writes all bytes of a text, and has the stream pass on all that it has taken.
pub fn print<S: Stream>(out: &mut S, text: &[u8]) -> Result<(), Failed>
    ensures told { Told result (S.contents out.old) (S.contents out.new)
        (S.failures out.old) (S.failures out.new) text.now }
    ensures passed { OnOk result (IsPassedOn (S.passed out.new) (S.contents out.new)) }
{
    put(out, text)?;
    out.pass_on()
}
