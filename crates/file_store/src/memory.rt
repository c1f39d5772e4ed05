//! Files in memory, and exactly what is read and written of them.
ghost use Rattle.std.specs.Prelude.{◌≡◌, [], MatchResult, None, Some, IfOk, map};
ghost use Rattle.std.specs.Prelude.{option_map};
ghost use Rattle.file_store.specs.Store.{is_among, last_at};
ghost use Rattle.file_store.specs.Memory.{entry_of, held_by, path_of, with_unread, with_unwritten};

use crate::store::{Store, StoreError};
use std::alloc::{AllocError, Global};
use std::io::ErrorKind;

/// A file: its path and its bytes.
#[derive(Drop)]
struct File {
    path: String,
    bytes: Vec<u8>,
}

/// Files in memory, and the paths that can't be read or written. The newest file at a path is the one there.
#[derive(Drop)]
pub struct Memory {
    alloc: Global,
    files: Vec<File>,
    unread: Vec<String>,
    unwritten: Vec<String>,
    failure: Option<ErrorKind>,
}

/// A file with these bytes.
fn file_of(alloc: Global, path: &str, bytes: &[u8]) -> Result<File, AllocError>
    ensures { IfOk result (λ file. entry_of file ≡ (path.now, bytes.now)) }
{
    Ok(File {
        path: String::from_str(alloc, path)?,
        bytes: Vec::from_slice(alloc, bytes)?,
    })
}

/// The bytes of the newest file at a path.
#[tactic(auto, unfolding(crate::specs::Store::last_at))]
fn newest<'a>(files: &'a [File], path: &str) -> Option<&'a [u8]>
    ensures { option_map (λ bytes. bytes.now) result ≡ last_at path.now
        (map entry_of files.now) None }
{
    let mut found: Option<&'a [u8]> = None;
    for file in files {
        if file.path.as_str() == path {
            found = Some(file.bytes.as_slice());
        }
    }
    found
}

/// Whether a path is one of these.
#[tactic(auto, unfolding(crate::specs::Store::is_among))]
fn is_among(path: &str, paths: &[String]) -> bool
    ensures { result ≡ is_among path.now (map path_of paths.now) }
{
    for one in paths {
        if one.as_str() == path {
            return true;
        }
    }
    false
}

impl Memory {
    /// No file.
    pub fn new(alloc: Global) -> Memory
        ensures { held_by result ≡ record { files = []; unread = []; unwritten = [] } }
    {
        Memory {
            alloc,
            files: Vec::new(alloc),
            unread: Vec::new(alloc),
            unwritten: Vec::new(alloc),
            failure: None,
        }
    }

    /// The bytes of the newest file at a path, where there is one.
    pub fn get(&self, path: &str) -> Option<&[u8]>
        ensures { option_map (λ bytes. bytes.now) result
            ≡ last_at path.now (held_by self.now).files None }
    {
        newest(&self.files, path)
    }

    /// From now on the file at a path can't be read.
    pub fn refuse_reads(&mut self, path: &str) -> Result<(), AllocError>
        ensures { MatchResult result
            (λ _. held_by self.new ≡ with_unread path.now (held_by self.old))
            (λ _. held_by self.new ≡ held_by self.old) }
    {
        let path = String::from_str(self.alloc, path)?;
        match self.unread.push(path) {
            Ok(()) => Ok(()),
            Err(_) => Err(AllocError),
        }
    }

    /// From now on the file at a path can't be written.
    pub fn refuse_writes(&mut self, path: &str) -> Result<(), AllocError>
        ensures { MatchResult result
            (λ _. held_by self.new ≡ with_unwritten path.now (held_by self.old))
            (λ _. held_by self.new ≡ held_by self.old) }
    {
        let path = String::from_str(self.alloc, path)?;
        match self.unwritten.push(path) {
            Ok(()) => Ok(()),
            Err(_) => Err(AllocError),
        }
    }
}

impl Store for Memory {
    ghost use Rattle.std.specs.Prelude.{Some};
    ghost use Rattle.file_store.specs.Memory.{held_by};

    ghost failure = { λ memory. memory.failure };

    ghost held = { λ memory. Some (held_by memory) };

    fn read(&mut self, alloc: Global, path: &str, _most: usize) -> Result<Vec<u8>, StoreError> {
        self.failure = Some(ErrorKind::NotFound);
        if is_among(path, self.unread.as_slice()) {
            return Err(StoreError::Failed);
        }
        let found = newest(self.files.as_slice(), path);
        match found {
            Some(bytes) => {
                let bytes = Vec::from_slice(alloc, bytes)?;
                self.failure = None;
                Ok(bytes)
            }
            None => Err(StoreError::Failed),
        }
    }

    fn write(&mut self, path: &str, bytes: &[u8]) -> Result<(), StoreError> {
        self.failure = Some(ErrorKind::PermissionDenied);
        if is_among(path, self.unwritten.as_slice()) {
            return Err(StoreError::Failed);
        }
        let file = file_of(self.alloc, path, bytes)?;
        match self.files.push(file) {
            Ok(()) => {
                self.failure = None;
                Ok(())
            }
            Err(_) => Err(StoreError::NoMemory),
        }
    }

    fn last_failure(&self) -> Option<ErrorKind> {
        self.failure
    }
}
