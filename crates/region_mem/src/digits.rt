//! Addresses and words, as they are told.
use std::fmt;

/// A number as eight digits of base 16 or more, as addresses and words are told.
#[derive(Clone, Copy, PartialEq, Eq)]
pub struct Digits(pub u64);

impl fmt::Display for Digits {
    ghost use Rattle.std.specs.Prelude.{Some};
    ghost use Rattle.region_mem.specs.Digits.{digits_text};

    ghost output = { λ digits. Some (digits_text digits.0) };

    fn fmt<W: fmt::Write>(&self, f: &mut fmt::Formatter<W>) -> fmt::Result {
        let number = self.0;
        write!(f, "{number:08x}")
    }
}
