//! Rows `VTYPE WORD L`: whether a vector word is legal, 1 or 0.

use crate::fields::{RowError, flag, hex, next};
use crate::table::Table;
use rv_decode::decode;
use std::alloc::Global;
use vreg_groups::{Vconfig, legal};

/// The table of legality.
#[derive(Drop)]
pub struct Legality;

impl Table for Legality {
    fn difference(&mut self, alloc: Global, row: &str) -> Result<Option<String>, RowError> {
        let mut fields = row;
        let vtype = hex(next(&mut fields))?;
        let word = hex(next(&mut fields))?;
        let expected = flag(next(&mut fields))?;
        if is_legal(vtype, word) == Some(expected) {
            return Ok(None);
        }
        unlike_legal(alloc, vtype, word, expected)
    }
}

/// Whether a word is legal under a vector type; None where it means nothing.
fn is_legal(vtype: u32, word: u32) -> Option<bool> {
    let config = Vconfig { vtype, vl: 0 };
    let Some(insn) = decode(word) else {
        return None;
    };
    Some(legal(&config, &insn))
}

/// The text for a word that is not as legal as expected, or means nothing.
fn unlike_legal(
    alloc: Global,
    vtype: u32,
    word: u32,
    expected: bool,
) -> Result<Option<String>, RowError> {
    Ok(Some(format!(in alloc; "{word:08x} under vtype {vtype:08x}: legal should be {expected}")?))
}
