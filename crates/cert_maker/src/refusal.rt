//! Why no certificate was made, with what is known of the word that does not fit.
ghost use Rattle.std.specs.Prelude.{◌≡◌};
ghost use Rattle.cert_maker.specs.Refusal.{error_of, misfit_at, row_behind, row_of, scalar_row};
ghost use Rattle.cert_maker.specs.declared.refusal.MakeRefusal.TheVariants.{NoMemory};

use crate::errors::MakeError;
use elf_image::Image;
use rv_decode::{Insn, ScalarInsn, decode, vector_arithmetic};
use std::alloc::{AllocError, Allocator};

/// The rows of a plain loop, as docs/MAKE.md has them. One of them is wanted at an address.
#[derive(Clone, Copy)]
pub enum LoopRow {
    /// The first, at the entry.
    Count,
    /// The second, behind it.
    Length,
    /// One behind these, where a vector load or store stands.
    Access,
    /// One behind these, where a shift by a number stands.
    Shift,
    /// One behind these, where anything else stands.
    Later,
}

/// The word that does not fit, and which row is wanted in its place.
#[derive(Clone, Copy)]
pub struct Misfit {
    /// The address.
    pub pc: u32,
    /// The word of code that stands there, if one does.
    pub word: Option<u32>,
    /// Which row is wanted.
    pub row: LoopRow,
}

/// Why no certificate was made.
#[derive(Clone, Copy)]
pub enum MakeRefusal {
    /// The words from the entry on are not a loop of the class: this is the first that breaks a condition together with
    /// those before it.
    Misfit(Misfit),
    /// An allocation was refused.
    NoMemory,
}

impl MakeRefusal {
    /// The error by itself.
    pub fn error(self) -> MakeError
        ensures { result ≡ error_of self }
    {
        match self {
            MakeRefusal::Misfit(misfit) => MakeError::NotALoopOfTheClass(misfit.pc),
            MakeRefusal::NoMemory => MakeError::NoMemory,
        }
    }
}

/// Which row is wanted where a scalar instruction stands behind the second one.
fn scalar_row(insn: ScalarInsn) -> LoopRow
    ensures { result ≡ scalar_row insn }
{
    match insn {
        ScalarInsn::ShiftImmediate { .. } => LoopRow::Shift,
        ScalarInsn::Lui { .. }
        | ScalarInsn::Auipc { .. }
        | ScalarInsn::Jal { .. }
        | ScalarInsn::Jalr { .. }
        | ScalarInsn::Branch { .. }
        | ScalarInsn::Load { .. }
        | ScalarInsn::Store { .. }
        | ScalarInsn::Immediate { .. }
        | ScalarInsn::Register { .. }
        | ScalarInsn::Fence
        | ScalarInsn::Ecall => LoopRow::Later,
    }
}

/// Which row is wanted behind the second one, by what stands there.
fn row_behind(insn: Option<Insn>) -> LoopRow
    ensures { result ≡ row_behind insn }
{
    match insn {
        None => LoopRow::Later,
        Some(Insn::VMem(_)) => LoopRow::Access,
        Some(Insn::Scalar(insn)) => scalar_row(insn),
        Some(Insn::Csr(_) | Insn::VSet(_) | vector_arithmetic!()) => LoopRow::Later,
    }
}

/// Which row is wanted at an address, for a loop that begins at the entry, by what stands there.
fn row_of(entry: u32, pc: u32, insn: Option<Insn>) -> LoopRow
    ensures { result ≡ row_of entry pc insn }
{
    if pc == entry {
        LoopRow::Count
    } else if u64::from(pc) == u64::from(entry) + 4 {
        LoopRow::Length
    } else {
        row_behind(insn)
    }
}

/// The word at an address of an image, which does not fit.
pub(crate) fn misfit_at<A: Allocator>(image: &Image<A>, pc: u32) -> Misfit
    ensures { result ≡ misfit_at image.now pc }
{
    let word = image.code_at(pc);
    let insn = match word {
        Some(word) => decode(word),
        None => None,
    };
    let row = row_of(image.entry(), pc, insn);
    Misfit { pc, word, row }
}

impl From<AllocError> for MakeRefusal {
    ghost from_gives = { λ _ r. r ≡ NoMemory };

    fn from(_e: AllocError) -> MakeRefusal {
        MakeRefusal::NoMemory
    }
}
