//! Rows `WORD TEXT`: what a word means.

use crate::fields::{RowError, hex};
use crate::table::Table;
use rv_listing::{Over, put_listing};
use std::alloc::{AllocError, Global};

/// Where the words of the table lie.
const ADDRESS: u32 = 0x1_0000;

/// The table of words.
#[derive(Drop)]
pub struct Words;

impl Table for Words {
    fn difference(&mut self, alloc: Global, row: &str) -> Result<Option<String>, RowError> {
        let (word, expected) = row.split_once(' ').ok_or(RowError::NoRow)?;
        let word = hex(word)?;
        let mut out = Over::new(Vec::new(alloc));
        put_listing(&mut out, word, ADDRESS).map_err(|_| RowError::NoMemory)?;
        let bytes = out.into_inner();
        let came = std::str::from_utf8(bytes.as_slice()).map_err(|_| RowError::NoRow)?;
        if came == expected {
            return Ok(None);
        }
        Ok(Some(unlike(alloc, word, expected, came)?))
    }
}

/// The text for a word whose listing is not the expected one.
fn unlike(alloc: Global, word: u32, expected: &str, came: &str) -> Result<String, AllocError> {
    format!(in alloc; "{word:08x} should be {expected}, came {came}")
}
