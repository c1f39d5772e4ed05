//! Files that are spelled by lines. `@file PATH` begins a file, to which the lines behind it add:
//!
//! | Line | What it adds |
//! |---|---|
//! | `|TEXT` | this text, with its end |
//! | `@hex DIGITS ..` | bytes of two digits each |
//! | `@code WORD ..` | a static image whose one segment is this code, at 0x10000 |
//! | `@zeros N` | `N` zeros |
//! | `@times N DIGITS` | these bytes `N` times |
//! | `@at PLACE DIGITS` | none: the bytes from this place of the file on become these |
//! | `@cut N` | none: the file ends behind `N` bytes |
//! | `@as PATH` | none: the file lies at this path |
//!
//! `@fails PATH` begins a file that can be neither read nor written. What stands behind ` -- ` in a line that begins with `@`
//! says what it is, and spells nothing.
use crate::error::CaseError;
use hex::decode;
use sample_kernels::HEADERS;
use std::alloc::{AllocError, Global};

/// A file: its path, its bytes, and whether it fails.
#[derive(Drop)]
pub(crate) struct File {
    pub path: String,
    pub bytes: Vec<u8>,
    pub fails: bool,
}

/// A file with these bytes.
pub(crate) fn file_of(alloc: Global, path: &str, bytes: &[u8]) -> Result<File, AllocError> {
    let path = String::from_str(alloc, path)?;
    let bytes = Vec::from_slice(alloc, bytes)?;
    Ok(File {
        path,
        bytes,
        fails: false,
    })
}

/// Whether these are files with the same paths and bytes, in the same order.
pub(crate) fn are_alike(files: &[File], others: &[File]) -> bool {
    files.len() == others.len()
        && files.iter().zip(others).all(|(file, other)| file.path == other.path
            && file.bytes == other.bytes)
}

/// What a line spells: a word, and what stands behind it.
fn parts(line: &str) -> (&str, &str) {
    let (line, _) = line.split_once(" -- ").unwrap_or((line, ""));
    line.split_once(' ').unwrap_or((line, ""))
}

/// A number in decimal digits.
pub(crate) fn number(text: &str) -> Result<usize, CaseError> {
    text.parse().map_err(|_| CaseError::NoCase)
}

/// Begins the file that a line names, or changes the newest.
pub(crate) fn spell(alloc: Global, files: &mut Vec<File>, line: &str) -> Result<(), CaseError> {
    let (word, rest) = parts(line);
    if matches!(word, "@file" | "@fails") {
        files.push(file_of(alloc, rest, &[])?)?;
    }
    let newest = files.last_mut().ok_or(CaseError::NoCase)?;
    match word {
        "@file" => {}
        "@fails" => newest.fails = true,
        "@as" => newest.path = String::from_str(alloc, rest)?,
        _ => add(alloc, &mut newest.bytes, line)?,
    }
    Ok(())
}

/// Adds what a line spells.
fn add(alloc: Global, bytes: &mut Vec<u8>, line: &str) -> Result<(), CaseError> {
    if let Some(text) = line.strip_prefix("|") {
        bytes.extend_from_slice(text.as_bytes())?;
        bytes.push(b'\n')?;
        return Ok(());
    }
    let (word, rest) = parts(line);
    match word {
        "@hex" => add_hex(alloc, bytes, rest),
        "@code" => add_code(alloc, bytes, rest),
        "@zeros" => add_times(alloc, bytes, rest, "00"),
        "@times" => {
            let (count, digits) = rest.split_once(' ').ok_or(CaseError::NoCase)?;
            add_times(alloc, bytes, count, digits)
        }
        "@at" => put_at(alloc, bytes, rest),
        "@cut" => {
            bytes.truncate(number(rest)?);
            Ok(())
        }
        _ => Err(CaseError::NoCase),
    }
}

fn add_hex(alloc: Global, bytes: &mut Vec<u8>, text: &str) -> Result<(), CaseError> {
    for digits in text.split_whitespace() {
        bytes.extend_from_slice(&decode(alloc, digits)?)?;
    }
    Ok(())
}

fn add_times(
    alloc: Global,
    bytes: &mut Vec<u8>,
    count: &str,
    digits: &str,
) -> Result<(), CaseError> {
    let count = number(count)?;
    let more = decode(alloc, digits)?;
    if let [byte] = more.as_slice() {
        let length = bytes.len().saturating_add(count);
        bytes.resize(length, *byte)?;
        return Ok(());
    }
    for _ in 0..count {
        bytes.extend_from_slice(&more)?;
    }
    Ok(())
}

/// Puts bytes at a place, which they end within the file.
fn put_at(alloc: Global, bytes: &mut Vec<u8>, text: &str) -> Result<(), CaseError> {
    let (place, digits) = text.split_once(' ').ok_or(CaseError::NoCase)?;
    let mut place = number(place)?;
    for byte in &decode(alloc, digits)? {
        *bytes.get_mut(place).ok_or(CaseError::NoCase)? = *byte;
        place = place.saturating_add(1);
    }
    Ok(())
}

/// The image of code.
fn add_code(alloc: Global, bytes: &mut Vec<u8>, text: &str) -> Result<(), CaseError> {
    let mut code = Vec::new(alloc);
    for word in text.split_whitespace() {
        let word = u32::from_str_radix(word, 16).map_err(|_| CaseError::NoCase)?;
        code.extend_from_slice(&word.to_le_bytes())?;
    }
    let size = u32::try_from(code.len()).unwrap_or(0).to_le_bytes();
    add_hex(alloc, bytes, HEADERS)?;
    bytes.extend_from_slice(&size)?;
    bytes.extend_from_slice(&size)?;
    bytes.extend_from_slice(&[5, 0, 0, 0, 4, 0, 0, 0])?;
    bytes.extend_from_slice(&code)?;
    Ok(())
}
