//! Tables of cases: text files with a case in each line.

use crate::fields::RowError;
use std::alloc::{AllocError, Global};
use std::rt::Files;
use std::{fs, io};

/// How many rows that differ are shown.
const MOST_SHOWN: u64 = 10;

/// What the rows of a table are tried on.
pub trait Table {
    /// Tries one row: None where it came out as expected, else what came in place of what.
    fn difference(&mut self, alloc: Global, row: &str) -> Result<Option<String>, RowError>;
}

/// The text for a row's answer: None where it is the expected one.
pub(crate) fn unlike(
    alloc: Global,
    expected: &str,
    came: &str,
) -> Result<Option<String>, RowError> {
    if came == expected {
        return Ok(None);
    }
    Ok(Some(format!(in alloc; "should be {expected}, came {came}")?))
}

/// Whether a line is a row: neither empty nor a comment.
fn is_row(line: &str) -> bool {
    !matches!(line.as_bytes().first(), None | Some(b'#'))
}

/// The text for a row, None where it came out as expected.
fn told<T: Table>(alloc: Global, table: &mut T, row: &str) -> Result<Option<String>, AllocError> {
    match table.difference(alloc, row) {
        Ok(difference) => Ok(difference),
        Err(RowError::NoMemory) => Err(AllocError),
        Err(error) => Ok(Some(error.to_string(alloc)?)),
    }
}

/// How many rows of a table were tried, and how many of them differ.
struct Tally {
    rows: u64,
    differing: u64,
}

/// Tries each row of the text of a table, and prints the first that differ, by their lines.
fn try_rows<R: AllocGlobal + Print, T: Table>(
    rt: &R,
    path: &str,
    text: &str,
    table: &mut T,
) -> io::Result<Tally> {
    let mut rows = 0u64;
    let mut differing = 0u64;
    for (index, line) in text.lines().enumerate() {
        if !is_row(line) {
            continue;
        }
        rows = rows.saturating_add(1);
        if let Some(difference) = told(rt.alloc(), table, line)? {
            differing = differing.saturating_add(1);
            if differing <= MOST_SHOWN {
                println!(rt; "{path}:{}: {difference}", index.saturating_add(1))?;
            }
        }
    }
    Ok(Tally { rows, differing })
}

/// Tries each row of the file at `path`, and prints the first rows that differ, by their lines, and how many rows came
/// out as expected. Tells whether all did.
pub(crate) fn run_table<R: Files + AllocGlobal + Print, T: Table>(
    rt: &R,
    name: &str,
    path: &str,
    table: &mut T,
) -> io::Result<bool> {
    let text = fs::read_to_string(rt, path)?;
    let Tally { rows, differing } = try_rows(rt, path, text.as_str(), table)?;
    println!(rt;
        "{name}: {} of {rows} as expected",
        rows.saturating_sub(differing)
    )?;
    Ok(differing == 0)
}
