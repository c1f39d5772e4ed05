//! Why bytes are no certificate: where reading stopped, and what is wanted there.
ghost use Rattle.std.specs.Prelude.{◌≡◌};
ghost use Rattle.cert_note.specs.Reading.{IsRefusal};
ghost use Rattle.explanations.specs.Certificate.{IsReason, bytes_told, last_bytes, reason_of};
ghost use Rattle.explanations.specs.Certificate.{wanted};

use crate::address::Byte;
use cert_note::{CertError, CertRefusal};
use std::fmt;

/// How many of the bytes that were read are told at most.
const MOST_TOLD: usize = 4;

/// The last bytes that were read, in the file's order. At most four are kept. They are told as a line.
#[derive(Clone, Copy, PartialEq, Eq)]
pub enum LastBytes {
    /// There is none.
    None,
    /// One alone was read.
    One(u8),
    /// Two were read.
    Two(u8, u8),
    /// Three were read.
    Three(u8, u8, u8),
    /// Four or more were read.
    Four(u8, u8, u8, u8),
}

/// Why bytes are no certificate, and where reading them stopped.
#[derive(Clone, Copy, PartialEq, Eq)]
pub struct CertificateReason {
    /// Why the bytes are no certificate.
    pub error: CertError,
    /// How many bytes there are.
    pub size: usize,
    /// How many bytes were read when the error was told: the field in question ends there. `None` where the bytes do
    /// not tell this error.
    pub place: Option<usize>,
    /// The last bytes that were read: those in front of that place. `None` where none was read, and where the bytes do not
    /// tell this error.
    pub last: LastBytes,
    /// The number of the block there, from 0 on. `None` where it is no block, and where the bytes do not tell this error.
    pub block: Option<u16>,
}

/// Bytes as they are kept: the first four at most.
fn bytes_told(bytes: &[u8]) -> LastBytes
    ensures { result ≡ bytes_told bytes.now }
{
    match bytes {
        [] => LastBytes::None,
        [first] => LastBytes::One(*first),
        [first, second] => LastBytes::Two(*first, *second),
        [first, second, third] => LastBytes::Three(*first, *second, *third),
        [first, second, third, fourth, ..] => LastBytes::Four(*first, *second, *third, *fourth),
    }
}

/// The last bytes that were read, of those in front of a place.
#[tactic(auto, using(std::proofs::lemmas::List::take_min))]
fn last_bytes(bytes: &[u8], place: Option<usize>) -> LastBytes
    ensures { result ≡ last_bytes bytes.now place }
{
    let Some(place) = place else {
        return LastBytes::None;
    };
    let read = &bytes[..place.min(bytes.len())];
    bytes_told(&read[read.len().saturating_sub(MOST_TOLD)..])
}

/// Why bytes are no certificate, by the evidence that was kept when they were read.
pub fn refusal_reason(bytes: &[u8], refusal: CertRefusal) -> CertificateReason
    ensures value { result ≡ reason_of bytes.now refusal }
    ensures reason { IsRefusal bytes.now refusal → IsReason bytes.now refusal.error result }
{
    CertificateReason {
        error: refusal.error,
        size: bytes.len(),
        place: refusal.place,
        last: last_bytes(bytes, refusal.place),
        block: refusal.block,
    }
}

/// What is wanted, by the error.
fn wanted(error: CertError) -> &'static str
    ensures { result.now ≡ wanted error }
{
    match error {
        CertError::Short => "  wanted: more bytes\n",
        CertError::Version => "  wanted: version 1 or 2, then 1, 2 or 3 for VLEN 128, 256 or 512\n",
        CertError::Parameter => {
            "  wanted: a kind of 0 to 2, a mode (of a buffer 1 or 3, else 0), zeros, \
             and its numbers\n"
        }
        CertError::BlockOrder => "  wanted: a multiple of 4 above the start of the block before\n",
        CertError::Fact => {
            "  wanted: for the vtype 0 and 0, or 1 and a supported one\n  \
             or: a register of 1 to 32 above the one before, an interval, \
             an equality if it is of all numbers\n  \
             or: a group behind the one before, its width, its count, zeros, \
             an interval not of all numbers\n"
        }
        CertError::Equality => "  wanted: at most 8 terms, rising atoms without an equality\n",
        CertError::Budget => "  wanted: a register exactly where its factor is not 0\n",
        CertError::TrailingBytes => "  wanted: no bytes behind the last block\n",
        CertError::TooMany => {
            "  wanted: at most 1024 blocks, or at most 32 facts of a kind, \
             or a zero behind these counts\n"
        }
        CertError::Order => "  wanted: two registers without an equality, the greater one rising\n",
        CertError::NoMemory => "",
    }
}

/// Behind which byte reading stopped, and how many there are, as a line.
#[derive(Clone, Copy)]
struct PlaceLine {
    place: Option<usize>,
    size: usize,
}

impl fmt::Display for PlaceLine {
    ghost use Rattle.std.specs.Prelude.{Some};
    ghost use Rattle.explanations.specs.Certificate.{place_line};

    ghost output = { λ line. Some (place_line line.place line.size) };

    fn fmt<W: fmt::Write>(&self, f: &mut fmt::Formatter<W>) -> fmt::Result {
        let size = self.size;
        match self.place {
            Some(place) => writeln!(f, "  reading stopped behind byte {place} of {size}"),
            None => Ok(()),
        }
    }
}

impl fmt::Display for LastBytes {
    ghost use Rattle.std.specs.Prelude.{Some};
    ghost use Rattle.explanations.specs.Certificate.{last_line};

    ghost output = { λ last. Some (last_line last) };

    fn fmt<W: fmt::Write>(&self, f: &mut fmt::Formatter<W>) -> fmt::Result {
        match *self {
            LastBytes::None => Ok(()),
            LastBytes::One(first) => writeln!(f, "  the last byte read: 0x{}", Byte(first)),
            LastBytes::Two(first, second) => {
                let (first, second) = (Byte(first), Byte(second));
                writeln!(f, "  the last bytes read: 0x{first} 0x{second}")
            }
            LastBytes::Three(first, second, third) => {
                let (first, second, third) = (Byte(first), Byte(second), Byte(third));
                writeln!(f, "  the last bytes read: 0x{first} 0x{second} 0x{third}")
            }
            LastBytes::Four(first, second, third, fourth) => {
                let (first, second) = (Byte(first), Byte(second));
                let (third, fourth) = (Byte(third), Byte(fourth));
                writeln!(
                    f,
                    "  the last bytes read: 0x{first} 0x{second} 0x{third} 0x{fourth}"
                )
            }
        }
    }
}

/// The block there, as a line.
#[derive(Clone, Copy)]
struct BlockLine(Option<u16>);

impl fmt::Display for BlockLine {
    ghost use Rattle.std.specs.Prelude.{Some};
    ghost use Rattle.explanations.specs.Certificate.{block_line};

    ghost output = { λ line. Some (block_line line.0) };

    fn fmt<W: fmt::Write>(&self, f: &mut fmt::Formatter<W>) -> fmt::Result {
        match self.0 {
            Some(block) => writeln!(f, "  in block {block}, counted from 0"),
            None => Ok(()),
        }
    }
}

impl fmt::Display for CertificateReason {
    ghost use Rattle.std.specs.Prelude.{Some};
    ghost use Rattle.explanations.specs.Certificate.{certificate_text};

    ghost output = { λ reason. Some (certificate_text reason) };

    fn fmt<W: fmt::Write>(&self, f: &mut fmt::Formatter<W>) -> fmt::Result {
        let place = PlaceLine {
            place: self.place,
            size: self.size,
        };
        let last = self.last;
        let block = BlockLine(self.block);
        let wanted = wanted(self.error);
        write!(f, "{place}{last}{block}{wanted}")
    }
}
