//! Files in memory, in the place of those of the system.
use crate::spelling::{File, file_of};
use commands::{Store, StoreError};
use std::alloc::{AllocError, Global};
use std::io;

/// Files in memory, and a line for each call. Some files may fail to be read or written. What is written can be read.
#[derive(Drop)]
pub(crate) struct Shelf {
    pub alloc: Global,
    pub files: Vec<File>,
    pub written: Vec<File>,
    pub calls: String,
    last: Option<io::ErrorKind>,
}

/// The newest file at a path.
fn newest<'a>(files: &'a [File], path: &str) -> Option<&'a File> {
    files.iter().rev().find(|file| file.path.as_str() == path)
}

impl Shelf {
    /// No file, and no call.
    pub(crate) fn new(alloc: Global) -> Shelf {
        Shelf {
            alloc,
            files: Vec::new(alloc),
            written: Vec::new(alloc),
            calls: String::new(alloc),
            last: None,
        }
    }

    /// The bytes of the newest file at a path.
    pub(crate) fn get(&self, path: &str) -> Option<&[u8]> {
        let file = newest(&self.written, path).or(newest(&self.files, path))?;
        Some(file.bytes.as_slice())
    }

    fn fails(&self, path: &str) -> bool {
        newest(&self.files, path).is_some_and(|file| file.fails)
    }

    /// Adds what is written.
    fn keep(&mut self, path: &str, bytes: &[u8]) -> Result<(), AllocError> {
        let file = file_of(self.alloc, path, bytes)?;
        self.written.push(file)?;
        Ok(())
    }

    fn log(&mut self, call: &str, path: &str) -> Result<(), AllocError> {
        self.calls.push_str(call)?;
        self.calls.push_str(path)?;
        self.calls.push('\n')
    }
}

impl Store for Shelf {
    ghost failure = { λ shelf. shelf.last };

    fn read(&mut self, alloc: Global, path: &str, _most: usize) -> Result<Vec<u8>, StoreError> {
        self.log(": read ", path)?;
        self.last = Some(io::ErrorKind::NotFound);
        if self.fails(path) {
            return Err(StoreError::Failed);
        }
        let bytes = Vec::from_slice(alloc, self.get(path).ok_or(StoreError::Failed)?)?;
        self.last = None;
        Ok(bytes)
    }

    fn write(&mut self, path: &str, bytes: &[u8]) -> Result<(), StoreError> {
        self.log(": write ", path)?;
        self.keep(path, bytes)?;
        if self.fails(path) {
            self.last = Some(io::ErrorKind::PermissionDenied);
            return Err(StoreError::Failed);
        }
        self.last = None;
        Ok(())
    }

    fn last_failure(&self) -> Option<io::ErrorKind> {
        self.last
    }
}
