//! Why no certificate is made of an image for a job: the word that does not fit, a parameter that there
//! can't be, or why the file takes no certificate.
ghost use Rattle.std.specs.Prelude.{◌≡◌, IfOk, position};
ghost use Rattle.job_reasons.specs.Make.{IsWordReason, attach_reason, certificate_size};
ghost use Rattle.job_reasons.specs.Make.{is_invalid, parameter_reason};
ghost use Rattle.job_reasons.specs.Make.{bare_wanted, row_more, row_wanted};

use cert_maker::{LoopRow, Misfit};
use elf_image::{
    E_PHNUM, ElfError, Image, MAX_FILE_SIZE, MAX_PROGRAM_HEADERS, half_at, is_too_short,
};
use explanations::{WordLine, listed};
use region_mem::{MAX_BUFFER_SIZE, Param};
use std::alloc::{AllocError, Global};
use std::fmt;

/// Why no certificate is made.
#[derive(Drop)]
pub enum MakeReason {
    /// There is nothing to tell.
    Untold,
    /// There is no word of code at an address.
    NoWord {
        pc: u32,
        row: LoopRow,
    },
    /// The word at an address does not fit; it is listed as this text.
    Word {
        pc: u32,
        word: u32,
        listing: String,
        row: LoopRow,
    },
    /// The `lo` of the scalar at a place is above its `hi`.
    Empty {
        place: usize,
        lo: u32,
        hi: u32,
    },
    /// The buffer at a place is too large.
    LargeBuffer {
        place: usize,
        size: u32,
    },
    /// The file has a certificate already, of this number of bytes.
    Certified(usize),
    /// The file has too many program headers, or is too large with a certificate of `certificate` bytes.
    LargeFile {
        size: usize,
        headers: u16,
        certificate: usize,
    },
}

/// Why no certificate is made of an image: this word does not fit.
///
/// # Errors
/// An allocation was refused.
pub(crate) fn word_reason(alloc: Global, misfit: Misfit) -> Result<MakeReason, AllocError>
    ensures { IfOk result (IsWordReason misfit) }
{
    let Misfit { pc, word, row } = misfit;
    let Some(word) = word else {
        return Ok(MakeReason::NoWord { pc, row });
    };
    let listing = listed(alloc, word, pc)?;
    Ok(MakeReason::Word {
        pc,
        word,
        listing,
        row,
    })
}

/// Whether there can't be such a parameter.
#[tactic(auto, unfolding(region_mem::specs::Parameter::is_valid))]
fn is_invalid(param: &Param) -> bool
    ensures { result ≡ is_invalid param.now }
{
    match *param {
        Param::None => false,
        Param::Scalar { lo, hi } => hi < lo,
        Param::Buffer { mode: _, size } => MAX_BUFFER_SIZE < size,
    }
}

fn first_invalid(params: &[Param]) -> Option<usize>
    ensures { result ≡ position is_invalid params.now }
{
    params.iter().position(|param| is_invalid(param))
}

/// Why there are no such parameters: the first that there can't be.
pub fn parameter_reason(params: &[Param; 8]) -> MakeReason
    ensures { result ≡ parameter_reason params.now }
{
    let Some(place) = first_invalid(params.as_slice()) else {
        return MakeReason::Untold;
    };
    match params.get(place) {
        Some(Param::Scalar { lo, hi }) => MakeReason::Empty {
            place,
            lo: *lo,
            hi: *hi,
        },
        Some(Param::Buffer { mode: _, size }) => MakeReason::LargeBuffer { place, size: *size },
        Some(Param::None) | None => MakeReason::Untold,
    }
}

/// How many bytes an image's certificate has.
fn certificate_size(image: &Image) -> usize
    ensures { result ≡ certificate_size image.now.certificate }
{
    match image.certificate() {
        Some(bytes) => bytes.len(),
        None => 0,
    }
}

/// Why a certificate of `certificate` bytes is not attached to the file of an image. `Untold` where there
/// is nothing to tell.
pub fn attach_reason(file: &[u8], image: &Image, certificate: usize, error: ElfError) -> MakeReason
    ensures { result ≡ attach_reason file.now image.now.certificate certificate error }
{
    match error {
        ElfError::CertificateThere => MakeReason::Certified(certificate_size(image)),
        ElfError::TooLarge => {
            if is_too_short(file) {
                return MakeReason::Untold;
            }
            MakeReason::LargeFile {
                size: file.len(),
                headers: half_at(E_PHNUM, file),
                certificate,
            }
        }
        ElfError::TooShort
        | ElfError::BadMagic
        | ElfError::BadClass
        | ElfError::BadType
        | ElfError::BadMachine
        | ElfError::BadFlags
        | ElfError::BadHeaderTable
        | ElfError::NotStatic
        | ElfError::SegmentOutOfFile
        | ElfError::SegmentOutOfPlace
        | ElfError::SegmentsOverlap
        | ElfError::WriteAndExecute
        | ElfError::EntryNotCode
        | ElfError::TwoCertificates
        | ElfError::NoMemory => MakeReason::Untold,
    }
}

/// What is wanted of a row, as a line.
fn row_wanted(row: LoopRow) -> &'static str
    ensures { result.now ≡ row_wanted row }
{
    match row {
        LoopRow::Count => {
            "  wanted: beqz n,end, where n is a scalar: row 1 of a plain loop (docs/MAKE.md)\n"
        }
        LoopRow::Length => { "  wanted: vsetvli t,n: row 2 of a plain loop (docs/MAKE.md)\n" }
        LoopRow::Access | LoopRow::Shift | LoopRow::Later => {
            "  wanted: what goes on with these words: rows 3 to 8 of a plain loop (docs/MAKE.md)\n"
        }
    }
}

/// What is wanted besides of what stands there, as a line.
fn row_more(row: LoopRow) -> &'static str
    ensures { result.now ≡ row_more row }
{
    match row {
        LoopRow::Access => {
            "  wanted of a load or store: a buffer of all elements, and mode rw where it is stored to\n"
        }
        LoopRow::Shift => {
            "  wanted of a shift: by 1 at elements of 16 bits, by 2 at 32, and none at 8\n"
        }
        LoopRow::Count | LoopRow::Length | LoopRow::Later => "",
    }
}

/// What is wanted of a row, in lines.
#[derive(Clone, Copy)]
struct RowLines(LoopRow);

impl fmt::Display for RowLines {
    ghost use Rattle.std.specs.Prelude.{Some};
    ghost use Rattle.job_reasons.specs.Make.{row_lines};

    ghost output = { λ lines. Some (row_lines lines.0) };

    fn fmt<W: fmt::Write>(&self, f: &mut fmt::Formatter<W>) -> fmt::Result {
        let wanted = row_wanted(self.0);
        let more = row_more(self.0);
        write!(f, "{wanted}{more}")
    }
}

/// What is wanted of a file that is to have a certificate.
#[derive(Clone, Copy)]
struct RoomWanted;

impl fmt::Display for RoomWanted {
    ghost use Rattle.std.specs.Prelude.{Some};
    ghost use Rattle.job_reasons.specs.Make.{room_wanted};

    ghost output = { λ _wanted. Some room_wanted };

    fn fmt<W: fmt::Write>(&self, f: &mut fmt::Formatter<W>) -> fmt::Result {
        let most = MAX_PROGRAM_HEADERS - 1;
        write!(
            f,
            "  wanted: at most {most} of them, and at most {MAX_FILE_SIZE} bytes with one more and the \
             certificate\n"
        )
    }
}

/// A scalar whose `lo` is above its `hi`, in lines.
#[derive(Clone, Copy)]
struct EmptyLines(usize, u32, u32);

impl fmt::Display for EmptyLines {
    ghost use Rattle.std.specs.Prelude.{Some};
    ghost use Rattle.job_reasons.specs.Make.{empty_lines};

    ghost output = { λ lines. Some (empty_lines lines.0 lines.1 lines.2) };

    fn fmt<W: fmt::Write>(&self, f: &mut fmt::Formatter<W>) -> fmt::Result {
        let EmptyLines(place, lo, hi) = *self;
        write!(
            f,
            "  lo of the param at place {place}: {lo}\n  wanted: at most its hi, {hi}\n"
        )
    }
}

/// A buffer that is too large, in lines.
#[derive(Clone, Copy)]
struct LargeBufferLines(usize, u32);

impl fmt::Display for LargeBufferLines {
    ghost use Rattle.std.specs.Prelude.{Some};
    ghost use Rattle.job_reasons.specs.Make.{large_buffer_lines};

    ghost output = { λ lines. Some (large_buffer_lines lines.0 lines.1) };

    fn fmt<W: fmt::Write>(&self, f: &mut fmt::Formatter<W>) -> fmt::Result {
        let LargeBufferLines(place, size) = *self;
        write!(
            f,
            "  size of the param at place {place}: {size}\n  wanted: at most {MAX_BUFFER_SIZE}\n"
        )
    }
}

/// What is wanted of an image that is to have a certificate.
fn bare_wanted() -> &'static str
    ensures { result.now ≡ bare_wanted }
{
    "  wanted: an image with no certificate\n"
}

/// The sizes of a file and of its certificate, a line each.
#[derive(Clone, Copy)]
struct SizeLines(usize, usize);

impl fmt::Display for SizeLines {
    ghost use Rattle.std.specs.Prelude.{Some};
    ghost use Rattle.job_reasons.specs.Make.{size_lines};

    ghost output = { λ lines. Some (size_lines lines.0 lines.1) };

    fn fmt<W: fmt::Write>(&self, f: &mut fmt::Formatter<W>) -> fmt::Result {
        let SizeLines(file, certificate) = *self;
        write!(
            f,
            "  size of the file: {file}\n  size of the certificate: {certificate}\n"
        )
    }
}

impl fmt::Display for MakeReason {
    ghost use Rattle.std.specs.Prelude.{Some};
    ghost use Rattle.job_reasons.specs.Make.{make_text};

    ghost output = { λ reason. Some (make_text reason) };

    fn fmt<W: fmt::Write>(&self, f: &mut fmt::Formatter<W>) -> fmt::Result {
        match self {
            MakeReason::Untold => Ok(()),
            MakeReason::NoWord { pc, row } => {
                let line = WordLine(*pc, None);
                let wanted = RowLines(*row);
                write!(f, "{line}{wanted}")
            }
            MakeReason::Word {
                pc,
                word,
                listing,
                row,
            } => {
                let line = WordLine(*pc, Some(*word));
                let wanted = RowLines(*row);
                write!(f, "{line}  that is {listing}\n{wanted}")
            }
            MakeReason::Empty { place, lo, hi } => write!(f, "{}", EmptyLines(*place, *lo, *hi)),
            MakeReason::LargeBuffer { place, size } => {
                write!(f, "{}", LargeBufferLines(*place, *size))
            }
            MakeReason::Certified(size) => {
                let wanted = bare_wanted();
                write!(f, "  there: a certificate of {size} bytes\n{wanted}")
            }
            MakeReason::LargeFile {
                size,
                headers,
                certificate,
            } => {
                let sizes = SizeLines(*size, *certificate);
                let wanted = RoomWanted;
                write!(f, "{sizes}  program headers: {headers}\n{wanted}")
            }
        }
    }
}
