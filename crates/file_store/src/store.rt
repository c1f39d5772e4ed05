//! Where a job's files are read and written.
ghost use Rattle.std.specs.Io.KnownBytes.{Consumes, IsAtEnd};
ghost use Rattle.std.specs.Prelude.{◌≡◌, ◌≤◌, ◌<◌, ◌+◌, IfErr, IfOk, None, Ok, OnOk, Some, length};
ghost use Rattle.std.specs.Result.{is_err};
ghost use Rattle.std.specs.IoError.{error_kind};
ghost use Rattle.rv_listing.specs.Sinks.{IsCounted};
ghost use Rattle.file_store.specs.Store.{failure_of, if_failed, said, store_error_of};
ghost use Rattle.file_store.specs.Sources.{IsUnread, source};
ghost use Rattle.file_store.specs.System.{IsFirst, IsPut};
ghost use Rattle.file_store.specs.declared.store.StoreError.TheVariants as store_error;

use crate::system::{Native, System};
use std::alloc::{AllocError, Global};
use std::error::Error;
use std::io::{ErrorKind, Read};
use std::{fmt, io};

/// How often a file, or the input of `mon`, is read from before it counts as one that never ends.
pub const MOST_READS: u64 = 1 << 32;

/// Law: how often that is, in numbers.
pub fn reads_in_numbers()
    ensures { MOST_READS ≡ 0x1_0000_0000 }
{}

/// The kind of the error of a file that counts as one that never ends. The system says none of this kind.
const ENDLESS: ErrorKind = ErrorKind::Other;

/// Why a file was not read or written.
#[derive(Clone, Copy, Debug, PartialEq, Eq)]
pub enum StoreError {
    /// The file was not read or written.
    Failed,
    /// Memory ran out.
    NoMemory,
}

impl fmt::Display for StoreError {
    fn fmt<W: fmt::Write>(&self, f: &mut fmt::Formatter<W>) -> fmt::Result {
        match self {
            StoreError::Failed => write!(f, "the file was not read or written"),
            StoreError::NoMemory => write!(f, "out of memory"),
        }
    }
}

impl Error for StoreError {}

impl From<AllocError> for StoreError {
    ghost from_gives = { λ _ reason. reason ≡ store_error.NoMemory };

    fn from(_error: AllocError) -> StoreError {
        StoreError::NoMemory
    }
}

impl From<io::Error> for StoreError {
    ghost from_gives = { λ error reason. reason ≡ store_error_of (error_kind error) };

    fn from(error: io::Error) -> StoreError {
        match error.kind() {
            ErrorKind::OutOfMemory => StoreError::NoMemory,
            _ => StoreError::Failed,
        }
    }
}

/// Files by their paths.
pub trait Store {
    ghost use Rattle.std.specs.Prelude.{◌≡◌, IfErr, IfOk, MatchResult, OnOk, Option, None};
    ghost use Rattle.std.specs.declared.io.ErrorKind.{ErrorKind};
    ghost use Rattle.file_store.specs.Store.{IsWritable, files_of, if_failed};
    ghost use Rattle.file_store.specs.Sources.{Input, IsGivenUp, IsHeard, IsRefused, IsWithin};
    ghost use Rattle.file_store.specs.System.{IsFirst, IsPut, Known};
    ghost use Rattle.file_store.specs.Written.{GainsOnOk, Held};

    // the files, where they are known
    ghost held: { Self → Option Held } = { λ _. None };

    // what the files of the system have, where they are the files and that is known
    ghost known: { Self → Option Known } = { λ _. None };

    // how often files were read from, and how many calls failed, where that is counted
    ghost input: { Self → Option Input } = { λ _. None };

    // what the system said of the last call, where that failed and the system said why
    ghost failure: { Self → Option ErrorKind } = { λ _. None };

    /// The bytes of the file at `path`. Of those behind the first `most` of them none are needed, so a store that does not say
    /// what it holds may leave them out.
    fn read(&mut self, alloc: Global, path: &str, most: usize) -> Result<Vec<u8>, StoreError>
        ensures bytes { MatchResult result
            (λ bytes. (files_of (held self.old)).holds path.now bytes.items)
            ((files_of (held self.old)).unread path.now) }
        ensures first { IfOk result (λ bytes.
            IsFirst (known self.old) path.now most bytes.items) }
        ensures kept { held self.new ≡ held self.old }
        ensures stays { known self.new ≡ known self.old }
        ensures unread { IfErr result (λ error. if_failed error
            (IsGivenUp MOST_READS (input self.old) (input self.new))) }
        ensures few { IsWithin MOST_READS (input self.old) (input self.new) }
        ensures heard { OnOk result (IsHeard (input self.old) (input self.new)) }
        ensures done { OnOk result (failure self.new ≡ None) };

    /// Makes a file at `path` that has these bytes, in place of what was there.
    fn write(&mut self, path: &str, bytes: &[u8]) -> Result<(), StoreError>
        ensures wrote { GainsOnOk (held self.old) (held self.new) (path.now, bytes.now) result }
        ensures put { OnOk result (IsPut (known self.old) (known self.new) path.now bytes.now) }
        ensures may { OnOk result (IsWritable (held self.old) path.now) }
        ensures error { IfErr result ((files_of (held self.old)).unwritten path.now) }
        ensures refused { IfErr result (λ error. IsRefused (input self.old) (input self.new)) }
        ensures heard { OnOk result (IsHeard (input self.old) (input self.new)) }
        ensures done { OnOk result (failure self.new ≡ None) };

    /// What the system said of the last call, where that failed and the system said why.
    fn last_failure(&self) -> Option<ErrorKind>
        ensures { result ≡ failure self.now };
}

/// The files of a system.
#[derive(Drop)]
pub struct Disk<D> {
    system: D,
    failure: Option<ErrorKind>,
}

/// What the system says where an error is of this kind, if it says anything.
fn said(kind: ErrorKind) -> Option<ErrorKind>
    ensures { result ≡ said kind }
{
    if kind == ENDLESS { None } else { Some(kind) }
}

impl<'a, R> Disk<Native<'a, R>> {
    /// The files that the handle `rt` opens.
    pub fn new(rt: &'a R) -> Disk<Native<'a, R>>
        ensures { result.system.rt ≡ rt.entry }
    {
        Disk::over(Native::new(rt))
    }
}

impl<D> Disk<D> {
    /// The files of this system.
    pub fn over(system: D) -> Disk<D>
        ensures { result.system ≡ system }
    {
        Disk {
            system,
            failure: None,
        }
    }

    /// What came of a call. What the system says where it failed is kept, if it says anything.
    fn kept<T>(&mut self, came: io::Result<T>) -> Result<T, StoreError>
        ensures failure { self.new.failure ≡ failure_of came }
        ensures value { IfOk result (λ value. came ≡ Ok value) }
        ensures error { IfErr result (λ reason.
            IfErr came (λ error. reason ≡ store_error_of (error_kind error))) }
        ensures same { is_err result ≡ is_err came }
        ensures system { self.new.system ≡ self.old.system }
    {
        match came {
            Ok(value) => {
                self.failure = None;
                Ok(value)
            }
            Err(error) => {
                self.failure = said(error.kind());
                Err(StoreError::from(error))
            }
        }
    }
}

impl<D: System> Store for Disk<D> {
    ghost failure = { λ disk. disk.failure };

    ghost known = { λ disk. D.known disk.system };

    ghost input = { λ disk. Some (source None (D.reads disk.system) (D.failures disk.system)) };

    fn read(&mut self, alloc: Global, path: &str, most: usize) -> Result<Vec<u8>, StoreError> {
        let came = read_file(&mut self.system, alloc, path, MOST_READS, most);
        self.kept(came)
    }

    fn write(&mut self, path: &str, bytes: &[u8]) -> Result<(), StoreError> {
        let came = write_file(&mut self.system, path, bytes);
        self.kept(came)
    }

    fn last_failure(&self) -> Option<ErrorKind> {
        self.failure
    }
}

/// The first bytes of the file of a system at a path: at most `most` of them, in at most `reads`
/// reads. Where there are fewer, the last of these finds the end.
pub fn read_some<D: System>(
    system: &mut D,
    alloc: Global,
    path: &str,
    reads: u64,
    most: usize,
) -> Result<Vec<u8>, StoreError>
    ensures first { IfOk result (λ bytes. IsFirst (D.known system.old) path.now most bytes.items) }
    ensures most { IfOk result (λ bytes. length bytes.items ≤ most) }
    ensures kept { D.known system.new ≡ D.known system.old }
    ensures few { D.reads system.new ≤ D.reads system.old + reads }
    ensures heard { OnOk result (D.failures system.new ≡ D.failures system.old) }
    ensures unread { IfErr result (λ error. if_failed error (IsUnread reads
        (source None (D.reads system.old) (D.failures system.old))
        (source None (D.reads system.new) (D.failures system.new)))) }
{
    Ok(read_file(system, alloc, path, reads, most)?)
}

/// The same, with what the system says where it fails.
fn read_file<D: System>(
    system: &mut D,
    alloc: Global,
    path: &str,
    reads: u64,
    most: usize,
) -> io::Result<Vec<u8>>
    ensures first { IfOk result (λ bytes. IsFirst (D.known system.old) path.now most bytes.items) }
    ensures most { IfOk result (λ bytes. length bytes.items ≤ most) }
    ensures kept { D.known system.new ≡ D.known system.old }
    ensures few { D.reads system.new ≤ D.reads system.old + reads }
    ensures heard { OnOk result (D.failures system.new ≡ D.failures system.old) }
    ensures unread { IfErr result (λ error. if_failed (store_error_of (error_kind error))
        (IsUnread reads
        (source None (D.reads system.old) (D.failures system.old))
        (source None (D.reads system.new) (D.failures system.new)))) }
{
    let mut file = system.open(path)?;
    read_opened(system, &mut file, alloc, reads, most)
}

/// The first bytes of a file of a system that is open, behind those that were read before.
fn read_opened<D: System>(
    system: &mut D,
    file: &mut D::Reader,
    alloc: Global,
    reads: u64,
    most: usize,
) -> io::Result<Vec<u8>>
    ensures bytes { IfOk result (λ bytes.
        Consumes (D.Reader.remaining file.old) (D.Reader.remaining file.new) bytes.items) }
    ensures most { IfOk result (λ bytes. length bytes.items ≤ most) }
    ensures end { IfOk result (λ bytes. length bytes.items < most
        → IsAtEnd (D.Reader.remaining file.new)) }
    ensures kept { D.known system.new ≡ D.known system.old }
    ensures few { D.reads system.new ≤ D.reads system.old + reads }
    ensures heard { OnOk result (D.failures system.new ≡ D.failures system.old) }
    ensures unread { IfErr result (λ error. if_failed (store_error_of (error_kind error))
        (IsUnread reads
        (source None (D.reads system.old) (D.failures system.old))
        (source None (D.reads system.new) (D.failures system.new)))) }
{
    let mut bytes = Vec::new(alloc);
    let mut chunk = [0u8; 4096];
    for _ in 0..reads {
        let room = (most - bytes.len()).min(4096);
        if room == 0 {
            return Ok(bytes);
        }
        match system.read(file, &mut chunk[..room]) {
            Ok(0) => return Ok(bytes),
            Ok(n) => bytes.extend_from_slice(&chunk[..n])?,
            Err(error) if error.kind() == ErrorKind::Interrupted => {}
            Err(error) => return Err(error),
        }
    }
    Err(io::Error::from(ENDLESS))
}

/// Makes a file of a system at a path, with these bytes.
fn write_file<D: System>(system: &mut D, path: &str, bytes: &[u8]) -> io::Result<()>
    ensures put { OnOk result
        (IsPut (D.known system.old) (D.known system.new) path.now bytes.now) }
    ensures heard { OnOk result (D.failures system.new ≡ D.failures system.old) }
    ensures refused { IfErr result (λ error.
        IsCounted (D.failures system.old) (D.failures system.new)) }
{
    let mut file = system.create(path)?;
    system.write(&mut file, bytes)?;
    system.close(path, file)
}
