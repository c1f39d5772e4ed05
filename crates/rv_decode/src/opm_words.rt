//! The words of the category OPM, by funct6: OPMVV, OPMVX.

ghost use Rattle.std.specs.Prelude.{◌≡◌, option_to_list};
ghost use Rattle.rv_decode.specs.Rows.{meanings_by_rows};
ghost use Rattle.rv_decode.specs.Operations.{rows_of, vectors, scalars};
ghost use Rattle.rv_decode.specs.Vector.{low_opm, high_opm, opm};

use crate::arith_words::{extend, fixed, int, multiply_add, wide, widen, widen_multiply_add};
use crate::element_words::{
    compress, fold, from_scalar, logic, set_mask, slide_one_down, slide_one_up, to_scalar,
};
use crate::word::{bits, register};
use crate::{
    FixedOp, FoldOp, Insn, IntOp, LogicOp, MultiplyAddOp, Source, WideOp, WidenMultiplyAddOp,
    WidenOp,
};

/// OPMVV: the second operand is vs1.
#[tactic(auto, using(crate::proofs::Halves::opm_below, crate::proofs::Halves::opm_above))]
pub(crate) fn decode_opmvv(word: u32) -> Option<Insn>
    ensures { option_to_list result ≡ meanings_by_rows (rows_of vectors opm) word }
{
    if bits(word, 26, 6) < 0x20 {
        low_opmvv(word)
    } else {
        high_opmvv(word)
    }
}

#[tactic(auto, unfolding(crate::specs::Vector::low_opm, crate::specs::Vector::extend_rows, crate::specs::ElementWords::to_scalar_rows, crate::specs::ElementWords::set_mask_rows))]
fn low_opmvv(word: u32) -> Option<Insn>
    ensures { option_to_list result ≡ meanings_by_rows (rows_of vectors low_opm) word }
{
    let b = Source::Vector(register(word, 15));
    match bits(word, 26, 6) {
        0x00 => Some(fold(word, FoldOp::Sum)),
        0x01 => Some(fold(word, FoldOp::And)),
        0x02 => Some(fold(word, FoldOp::Or)),
        0x03 => Some(fold(word, FoldOp::Xor)),
        0x04 => Some(fold(word, FoldOp::Minu)),
        0x05 => Some(fold(word, FoldOp::Min)),
        0x06 => Some(fold(word, FoldOp::Maxu)),
        0x07 => Some(fold(word, FoldOp::Max)),
        0x08 => Some(fixed(word, FixedOp::Aaddu, b)),
        0x09 => Some(fixed(word, FixedOp::Aadd, b)),
        0x0a => Some(fixed(word, FixedOp::Asubu, b)),
        0x0b => Some(fixed(word, FixedOp::Asub, b)),
        0x10 => to_scalar(word),
        0x12 => extend(word),
        0x14 => set_mask(word),
        0x17 => compress(word),
        0x18 => logic(word, LogicOp::Andn),
        0x19 => logic(word, LogicOp::And),
        0x1a => logic(word, LogicOp::Or),
        0x1b => logic(word, LogicOp::Xor),
        0x1c => logic(word, LogicOp::Orn),
        0x1d => logic(word, LogicOp::Nand),
        0x1e => logic(word, LogicOp::Nor),
        0x1f => logic(word, LogicOp::Xnor),
        _ => None,
    }
}

#[tactic(auto, unfolding(crate::specs::Vector::high_opm))]
fn high_opmvv(word: u32) -> Option<Insn>
    ensures { option_to_list result ≡ meanings_by_rows (rows_of vectors high_opm) word }
{
    let b = Source::Vector(register(word, 15));
    match bits(word, 26, 6) {
        0x20 => Some(int(word, IntOp::Divu, b)),
        0x21 => Some(int(word, IntOp::Div, b)),
        0x22 => Some(int(word, IntOp::Remu, b)),
        0x23 => Some(int(word, IntOp::Rem, b)),
        0x24 => Some(int(word, IntOp::Mulhu, b)),
        0x25 => Some(int(word, IntOp::Mul, b)),
        0x26 => Some(int(word, IntOp::Mulhsu, b)),
        0x27 => Some(int(word, IntOp::Mulh, b)),
        0x29 => Some(multiply_add(word, MultiplyAddOp::Madd, b)),
        0x2b => Some(multiply_add(word, MultiplyAddOp::Nmsub, b)),
        0x2d => Some(multiply_add(word, MultiplyAddOp::Macc, b)),
        0x2f => Some(multiply_add(word, MultiplyAddOp::Nmsac, b)),
        0x30 => Some(widen(word, WidenOp::Addu, b)),
        0x31 => Some(widen(word, WidenOp::Add, b)),
        0x32 => Some(widen(word, WidenOp::Subu, b)),
        0x33 => Some(widen(word, WidenOp::Sub, b)),
        0x34 => Some(wide(word, WideOp::Addu, b)),
        0x35 => Some(wide(word, WideOp::Add, b)),
        0x36 => Some(wide(word, WideOp::Subu, b)),
        0x37 => Some(wide(word, WideOp::Sub, b)),
        0x38 => Some(widen(word, WidenOp::Mulu, b)),
        0x3a => Some(widen(word, WidenOp::Mulsu, b)),
        0x3b => Some(widen(word, WidenOp::Mul, b)),
        0x3c => Some(widen_multiply_add(word, WidenMultiplyAddOp::Maccu, b)),
        0x3d => Some(widen_multiply_add(word, WidenMultiplyAddOp::Macc, b)),
        0x3f => Some(widen_multiply_add(word, WidenMultiplyAddOp::Maccsu, b)),
        _ => None,
    }
}

/// OPMVX: the second operand is x[rs1].
#[tactic(auto, using(crate::proofs::Halves::opm_below, crate::proofs::Halves::opm_above))]
pub(crate) fn decode_opmvx(word: u32) -> Option<Insn>
    ensures { option_to_list result ≡ meanings_by_rows (rows_of scalars opm) word }
{
    if bits(word, 26, 6) < 0x20 {
        low_opmvx(word)
    } else {
        high_opmvx(word)
    }
}

#[tactic(auto, unfolding(crate::specs::Vector::low_opm, crate::specs::Vector::extend_rows, crate::specs::ElementWords::to_scalar_rows, crate::specs::ElementWords::set_mask_rows))]
fn low_opmvx(word: u32) -> Option<Insn>
    ensures { option_to_list result ≡ meanings_by_rows (rows_of scalars low_opm) word }
{
    let b = Source::Scalar(register(word, 15));
    match bits(word, 26, 6) {
        0x08 => Some(fixed(word, FixedOp::Aaddu, b)),
        0x09 => Some(fixed(word, FixedOp::Aadd, b)),
        0x0a => Some(fixed(word, FixedOp::Asubu, b)),
        0x0b => Some(fixed(word, FixedOp::Asub, b)),
        0x0e => Some(slide_one_up(word)),
        0x0f => Some(slide_one_down(word)),
        0x10 => from_scalar(word),
        _ => None,
    }
}

#[tactic(auto, unfolding(crate::specs::Vector::high_opm))]
fn high_opmvx(word: u32) -> Option<Insn>
    ensures { option_to_list result ≡ meanings_by_rows (rows_of scalars high_opm) word }
{
    let b = Source::Scalar(register(word, 15));
    match bits(word, 26, 6) {
        0x20 => Some(int(word, IntOp::Divu, b)),
        0x21 => Some(int(word, IntOp::Div, b)),
        0x22 => Some(int(word, IntOp::Remu, b)),
        0x23 => Some(int(word, IntOp::Rem, b)),
        0x24 => Some(int(word, IntOp::Mulhu, b)),
        0x25 => Some(int(word, IntOp::Mul, b)),
        0x26 => Some(int(word, IntOp::Mulhsu, b)),
        0x27 => Some(int(word, IntOp::Mulh, b)),
        0x29 => Some(multiply_add(word, MultiplyAddOp::Madd, b)),
        0x2b => Some(multiply_add(word, MultiplyAddOp::Nmsub, b)),
        0x2d => Some(multiply_add(word, MultiplyAddOp::Macc, b)),
        0x2f => Some(multiply_add(word, MultiplyAddOp::Nmsac, b)),
        0x30 => Some(widen(word, WidenOp::Addu, b)),
        0x31 => Some(widen(word, WidenOp::Add, b)),
        0x32 => Some(widen(word, WidenOp::Subu, b)),
        0x33 => Some(widen(word, WidenOp::Sub, b)),
        0x34 => Some(wide(word, WideOp::Addu, b)),
        0x35 => Some(wide(word, WideOp::Add, b)),
        0x36 => Some(wide(word, WideOp::Subu, b)),
        0x37 => Some(wide(word, WideOp::Sub, b)),
        0x38 => Some(widen(word, WidenOp::Mulu, b)),
        0x3a => Some(widen(word, WidenOp::Mulsu, b)),
        0x3b => Some(widen(word, WidenOp::Mul, b)),
        0x3c => Some(widen_multiply_add(word, WidenMultiplyAddOp::Maccu, b)),
        0x3d => Some(widen_multiply_add(word, WidenMultiplyAddOp::Macc, b)),
        0x3e => Some(widen_multiply_add(word, WidenMultiplyAddOp::Maccus, b)),
        0x3f => Some(widen_multiply_add(word, WidenMultiplyAddOp::Maccsu, b)),
        _ => None,
    }
}
