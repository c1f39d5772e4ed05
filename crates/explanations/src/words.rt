//! A word at an address: its line, and how it is listed.
ghost use Rattle.std.specs.Prelude.{◌≡◌, IfOk, string_bytes};
ghost use Rattle.std.specs.Str.Lossy.{utf8_lossy};
ghost use Rattle.rv_listing.specs.Listing.{listing_text};

use crate::address::Address;
use rv_listing::{Over, put_listing};
use std::alloc::{AllocError, Allocator};
use std::fmt;

/// A word as it is listed.
///
/// # Errors
/// An allocation was refused.
pub fn listed<A: Allocator + Copy>(alloc: A, word: u32, pc: u32) -> Result<String<A>, AllocError>
    ensures { IfOk result (λ text. string_bytes text ≡ utf8_lossy (listing_text pc word)) }
{
    let mut out = Over::new(Vec::new(alloc));
    match put_listing(&mut out, word, pc) {
        Ok(()) => {
            let bytes = out.into_inner();
            String::from_utf8_lossy(alloc, bytes.as_slice())
        }
        Err(_) => Err(AllocError),
    }
}

/// An address and the word there, if there is one, as a line.
#[derive(Clone, Copy)]
pub struct WordLine(pub u32, pub Option<u32>);

impl fmt::Display for WordLine {
    ghost use Rattle.std.specs.Prelude.{Some};
    ghost use Rattle.explanations.specs.Words.{word_line};

    ghost output = { λ line. Some (word_line line.0 line.1) };

    fn fmt<W: fmt::Write>(&self, f: &mut fmt::Formatter<W>) -> fmt::Result {
        let pc = Address(u64::from(self.0));
        match self.1 {
            None => writeln!(f, "  at {pc}: no word"),
            Some(word) => {
                let word = Address(u64::from(word));
                writeln!(f, "  at {pc}: {word}")
            }
        }
    }
}
