//! Why bytes are no certificate.
ghost use Rattle.std.specs.Prelude.{◌≡◌};
ghost use Rattle.cert_note.specs.Reading.{fault_of};
ghost use Rattle.cert_note.specs.Refusals.{refusal_text};

use std::error::Error;
use std::fmt;

/// Why bytes are no certificate: the first field in their order that is missing or wrong. The order of the fields
/// stands at [`crate::read`]. `NoMemory` alone says nothing of the bytes.
#[derive(Clone, Copy, Debug, PartialEq, Eq)]
pub enum CertError {
    /// The bytes end before or within a field.
    Short,
    /// The version is neither 1 nor 2, the vector length is not 1 (128 bits), 2 (256 bits) or 3 (512 bits), or the byte
    /// behind it is not 0.
    Version,
    /// A parameter's kind is above 2; its mode is not 1 or 3 for a buffer, or not 0 for anything else; the two bytes
    /// behind them are not 0; a buffer's size is above 16 MiB; a scalar's low is above its high; or a number that the
    /// kind has no use for is not 0.
    Parameter,
    /// A block's start is no multiple of 4, or not above the start of the block before it.
    BlockOrder,
    /// Whether the vector type is known is neither 0 nor 1, or the vector type is not one that is supported, or not 0
    /// where it is not known.
    ///
    /// Or in a fact on a register: its number is not 1 to 32, or not above that of the fact before it; its low is above
    /// its high; or its interval is that of all numbers and it has no equality.
    ///
    /// Or in a fact on vector registers: the group is not 1, 2, 4 or 8 registers from a multiple of that number on, or
    /// not behind the group of the fact before it; the width is not 8, 16 or 32 bits; the count is above the elements
    /// of the group; a byte that has to be 0 is not; the low is above the high; the high does not fit the width; or the
    /// interval is that of all numbers of that width.
    Fact,
    /// An equality has more than 8 terms; an atom is neither a register from 1 on, vl nor the place of a scalar
    /// parameter, or is not above the atom before it; a coefficient is 0; or an atom is a register, or vl, that has an
    /// equality itself in the same block.
    Equality,
    /// A budget's register is not 0 though its factor is 0, or is not 1 to 31 though its factor is not 0.
    ///
    /// Or in version 2: the second factor is not 0 though the factor is 0; the second register is not 0 though the
    /// second factor is 0; or it is not above the first register, or above 31, though the second factor is not 0.
    Budget,
    /// Bytes stand behind the last block.
    TrailingBytes,
    /// There are more than 1,024 blocks, or more than 32 facts of one kind in a block, or a byte behind these counts is
    /// not 0.
    TooMany,
    /// In an order: a register is not 1 to 32, or has an equality in the same block; the greater one is not above that of
    /// the order before it; or both are one.
    Order,
    /// An allocation was refused.
    NoMemory,
}

/// Why bytes are no certificate, and where reading them stopped.
#[derive(Clone, Copy, Debug, PartialEq, Eq)]
pub struct CertRefusal {
    /// Why they are none.
    pub error: CertError,
    /// The number of the block in which the first fault lies, from 0 on. `None` where it lies in no block, and where
    /// memory ran out.
    pub block: Option<u16>,
    /// How many bytes were read when the error was told: the field in question ends there. `None` where memory ran out.
    pub place: Option<usize>,
}

/// The first fault of bytes, and how many of them stand behind the field in question.
#[derive(Clone, Copy)]
pub struct Fault {
    pub error: CertError,
    pub left: usize,
}

/// A fault of the field that these bytes stand behind.
pub(crate) fn fault_of(error: CertError, behind: &[u8]) -> Fault
    ensures { result ≡ fault_of error behind.now }
{
    let left = behind.len();
    Fault { error, left }
}

impl CertError {
    /// Why the bytes are refused, in words.
    fn words(self) -> &'static str
        ensures { result.now ≡ refusal_text self }
    {
        match self {
            CertError::Short => "the certificate is cut off",
            CertError::Version => "the certificate's version is not known",
            CertError::Parameter => "a parameter is wrong",
            CertError::BlockOrder => "the blocks are out of order",
            CertError::Fact => "a fact is wrong",
            CertError::Equality => "an equality is wrong",
            CertError::Budget => "a budget is wrong",
            CertError::TrailingBytes => "bytes stand behind the certificate",
            CertError::TooMany => "there are too many blocks or facts",
            CertError::Order => "an order is wrong",
            CertError::NoMemory => "out of memory",
        }
    }
}

impl fmt::Display for CertError {
    ghost use Rattle.std.specs.Prelude.{Some};
    ghost use Rattle.cert_note.specs.Refusals.{refusal_text};

    ghost output = { λ error. Some (refusal_text error) };

    fn fmt<W: fmt::Write>(&self, f: &mut fmt::Formatter<W>) -> fmt::Result {
        f.write_str(self.words())
    }
}

impl Error for CertError {}
