//! The words of the category OPI, by funct6: OPIVV, OPIVX, OPIVI.

ghost use Rattle.std.specs.Prelude.{◌≡◌, option_to_list};
ghost use Rattle.rv_decode.specs.Rows.{meanings_by_rows};
ghost use Rattle.rv_decode.specs.Operations.{I, U, operand, rows_of, vectors, scalars, immediates};
ghost use Rattle.rv_decode.specs.Vector.{low_opi, high_opi, opi};

use crate::arith_words::{carry, carry_out, clip, compare, fixed, int, merge_or_copy, narrow};
use crate::element_words::{gather, gather16, slide_down, slide_up, whole, widen_sum};
use crate::word::{bits, register, signed};
use crate::{
    CarryOp, CarryOutOp, ClipOp, CompareOp, FixedOp, Insn, IntOp, NarrowOp, Offset, Source,
};

/// OPIVV: the second operand is vs1.
#[tactic(auto, using(crate::proofs::Halves::opi_below, crate::proofs::Halves::opi_above))]
pub(crate) fn decode_opivv(word: u32) -> Option<Insn>
    ensures { option_to_list result ≡ meanings_by_rows (rows_of vectors opi) word }
{
    if bits(word, 26, 6) < 0x20 {
        low_opivv(word)
    } else {
        high_opivv(word)
    }
}

#[tactic(auto, unfolding(crate::specs::Vector::low_opi))]
fn low_opivv(word: u32) -> Option<Insn>
    ensures { option_to_list result ≡ meanings_by_rows (rows_of vectors low_opi) word }
{
    let b = Source::Vector(register(word, 15));
    match bits(word, 26, 6) {
        0x00 => Some(int(word, IntOp::Add, b)),
        0x02 => Some(int(word, IntOp::Sub, b)),
        0x04 => Some(int(word, IntOp::Minu, b)),
        0x05 => Some(int(word, IntOp::Min, b)),
        0x06 => Some(int(word, IntOp::Maxu, b)),
        0x07 => Some(int(word, IntOp::Max, b)),
        0x09 => Some(int(word, IntOp::And, b)),
        0x0a => Some(int(word, IntOp::Or, b)),
        0x0b => Some(int(word, IntOp::Xor, b)),
        0x0c => Some(gather(word, b)),
        0x0e => Some(gather16(word)),
        0x10 => carry(word, CarryOp::Adc, b),
        0x11 => Some(carry_out(word, CarryOutOp::Madc, b)),
        0x12 => carry(word, CarryOp::Sbc, b),
        0x13 => Some(carry_out(word, CarryOutOp::Msbc, b)),
        0x17 => merge_or_copy(word, b),
        0x18 => Some(compare(word, CompareOp::Eq, b)),
        0x19 => Some(compare(word, CompareOp::Ne, b)),
        0x1a => Some(compare(word, CompareOp::Ltu, b)),
        0x1b => Some(compare(word, CompareOp::Lt, b)),
        0x1c => Some(compare(word, CompareOp::Leu, b)),
        0x1d => Some(compare(word, CompareOp::Le, b)),
        _ => None,
    }
}

#[tactic(auto, unfolding(crate::specs::Vector::high_opi, crate::specs::ElementWords::whole_rows))]
fn high_opivv(word: u32) -> Option<Insn>
    ensures { option_to_list result ≡ meanings_by_rows (rows_of vectors high_opi) word }
{
    let b = Source::Vector(register(word, 15));
    match bits(word, 26, 6) {
        0x20 => Some(fixed(word, FixedOp::Saddu, b)),
        0x21 => Some(fixed(word, FixedOp::Sadd, b)),
        0x22 => Some(fixed(word, FixedOp::Ssubu, b)),
        0x23 => Some(fixed(word, FixedOp::Ssub, b)),
        0x25 => Some(int(word, IntOp::Sll, b)),
        0x27 => Some(fixed(word, FixedOp::Smul, b)),
        0x28 => Some(int(word, IntOp::Srl, b)),
        0x29 => Some(int(word, IntOp::Sra, b)),
        0x2a => Some(fixed(word, FixedOp::Ssrl, b)),
        0x2b => Some(fixed(word, FixedOp::Ssra, b)),
        0x2c => Some(narrow(word, NarrowOp::Srl, b)),
        0x2d => Some(narrow(word, NarrowOp::Sra, b)),
        0x2e => Some(clip(word, ClipOp::Clipu, b)),
        0x2f => Some(clip(word, ClipOp::Clip, b)),
        0x30 => Some(widen_sum(word, false)),
        0x31 => Some(widen_sum(word, true)),
        _ => None,
    }
}

/// OPIVX: the second operand is x[rs1].
#[tactic(auto, using(crate::proofs::Halves::opi_below, crate::proofs::Halves::opi_above))]
pub(crate) fn decode_opivx(word: u32) -> Option<Insn>
    ensures { option_to_list result ≡ meanings_by_rows (rows_of scalars opi) word }
{
    if bits(word, 26, 6) < 0x20 {
        low_opivx(word)
    } else {
        high_opivx(word)
    }
}

#[tactic(auto, unfolding(crate::specs::Vector::low_opi))]
fn low_opivx(word: u32) -> Option<Insn>
    ensures { option_to_list result ≡ meanings_by_rows (rows_of scalars low_opi) word }
{
    let b = Source::Scalar(register(word, 15));
    let offset = Offset::Scalar(register(word, 15));
    match bits(word, 26, 6) {
        0x00 => Some(int(word, IntOp::Add, b)),
        0x02 => Some(int(word, IntOp::Sub, b)),
        0x03 => Some(int(word, IntOp::Rsub, b)),
        0x04 => Some(int(word, IntOp::Minu, b)),
        0x05 => Some(int(word, IntOp::Min, b)),
        0x06 => Some(int(word, IntOp::Maxu, b)),
        0x07 => Some(int(word, IntOp::Max, b)),
        0x09 => Some(int(word, IntOp::And, b)),
        0x0a => Some(int(word, IntOp::Or, b)),
        0x0b => Some(int(word, IntOp::Xor, b)),
        0x0c => Some(gather(word, b)),
        0x0e => Some(slide_up(word, offset)),
        0x0f => Some(slide_down(word, offset)),
        0x10 => carry(word, CarryOp::Adc, b),
        0x11 => Some(carry_out(word, CarryOutOp::Madc, b)),
        0x12 => carry(word, CarryOp::Sbc, b),
        0x13 => Some(carry_out(word, CarryOutOp::Msbc, b)),
        0x17 => merge_or_copy(word, b),
        0x18 => Some(compare(word, CompareOp::Eq, b)),
        0x19 => Some(compare(word, CompareOp::Ne, b)),
        0x1a => Some(compare(word, CompareOp::Ltu, b)),
        0x1b => Some(compare(word, CompareOp::Lt, b)),
        0x1c => Some(compare(word, CompareOp::Leu, b)),
        0x1d => Some(compare(word, CompareOp::Le, b)),
        0x1e => Some(compare(word, CompareOp::Gtu, b)),
        0x1f => Some(compare(word, CompareOp::Gt, b)),
        _ => None,
    }
}

#[tactic(auto, unfolding(crate::specs::Vector::high_opi, crate::specs::ElementWords::whole_rows))]
fn high_opivx(word: u32) -> Option<Insn>
    ensures { option_to_list result ≡ meanings_by_rows (rows_of scalars high_opi) word }
{
    let b = Source::Scalar(register(word, 15));
    match bits(word, 26, 6) {
        0x20 => Some(fixed(word, FixedOp::Saddu, b)),
        0x21 => Some(fixed(word, FixedOp::Sadd, b)),
        0x22 => Some(fixed(word, FixedOp::Ssubu, b)),
        0x23 => Some(fixed(word, FixedOp::Ssub, b)),
        0x25 => Some(int(word, IntOp::Sll, b)),
        0x27 => Some(fixed(word, FixedOp::Smul, b)),
        0x28 => Some(int(word, IntOp::Srl, b)),
        0x29 => Some(int(word, IntOp::Sra, b)),
        0x2a => Some(fixed(word, FixedOp::Ssrl, b)),
        0x2b => Some(fixed(word, FixedOp::Ssra, b)),
        0x2c => Some(narrow(word, NarrowOp::Srl, b)),
        0x2d => Some(narrow(word, NarrowOp::Sra, b)),
        0x2e => Some(clip(word, ClipOp::Clipu, b)),
        0x2f => Some(clip(word, ClipOp::Clip, b)),
        _ => None,
    }
}

fn signed_immediate(word: u32) -> Source
    ensures { result ≡ operand I word }
{
    Source::Immediate(signed(16, bits(word, 15, 5)))
}

fn unsigned_immediate(word: u32) -> Source
    ensures { result ≡ operand U word }
{
    Source::Immediate(bits(word, 15, 5) as i32)
}

/// OPIVI: the second operand is an immediate, unsigned for shifts and the narrowing forms.
#[tactic(auto, using(crate::proofs::Halves::opi_below, crate::proofs::Halves::opi_above))]
pub(crate) fn decode_opivi(word: u32) -> Option<Insn>
    ensures { option_to_list result ≡ meanings_by_rows (rows_of immediates opi) word }
{
    if bits(word, 26, 6) < 0x20 {
        low_opivi(word)
    } else {
        high_opivi(word)
    }
}

#[tactic(auto, unfolding(crate::specs::Vector::low_opi))]
fn low_opivi(word: u32) -> Option<Insn>
    ensures { option_to_list result ≡ meanings_by_rows (rows_of immediates low_opi) word }
{
    let unsigned = unsigned_immediate(word);
    let b = signed_immediate(word);
    let offset = Offset::Immediate(bits(word, 15, 5));
    match bits(word, 26, 6) {
        0x00 => Some(int(word, IntOp::Add, b)),
        0x03 => Some(int(word, IntOp::Rsub, b)),
        0x09 => Some(int(word, IntOp::And, b)),
        0x0a => Some(int(word, IntOp::Or, b)),
        0x0b => Some(int(word, IntOp::Xor, b)),
        0x0c => Some(gather(word, unsigned)),
        0x0e => Some(slide_up(word, offset)),
        0x0f => Some(slide_down(word, offset)),
        0x10 => carry(word, CarryOp::Adc, b),
        0x11 => Some(carry_out(word, CarryOutOp::Madc, b)),
        0x17 => merge_or_copy(word, b),
        0x18 => Some(compare(word, CompareOp::Eq, b)),
        0x19 => Some(compare(word, CompareOp::Ne, b)),
        0x1c => Some(compare(word, CompareOp::Leu, b)),
        0x1d => Some(compare(word, CompareOp::Le, b)),
        0x1e => Some(compare(word, CompareOp::Gtu, b)),
        0x1f => Some(compare(word, CompareOp::Gt, b)),
        _ => None,
    }
}

#[tactic(auto, unfolding(crate::specs::Vector::high_opi, crate::specs::ElementWords::whole_rows))]
fn high_opivi(word: u32) -> Option<Insn>
    ensures { option_to_list result ≡ meanings_by_rows (rows_of immediates high_opi) word }
{
    let unsigned = unsigned_immediate(word);
    let b = signed_immediate(word);
    match bits(word, 26, 6) {
        0x20 => Some(fixed(word, FixedOp::Saddu, b)),
        0x21 => Some(fixed(word, FixedOp::Sadd, b)),
        0x25 => Some(int(word, IntOp::Sll, unsigned)),
        0x27 => whole(word),
        0x28 => Some(int(word, IntOp::Srl, unsigned)),
        0x29 => Some(int(word, IntOp::Sra, unsigned)),
        0x2a => Some(fixed(word, FixedOp::Ssrl, unsigned)),
        0x2b => Some(fixed(word, FixedOp::Ssra, unsigned)),
        0x2c => Some(narrow(word, NarrowOp::Srl, unsigned)),
        0x2d => Some(narrow(word, NarrowOp::Sra, unsigned)),
        0x2e => Some(clip(word, ClipOp::Clipu, unsigned)),
        0x2f => Some(clip(word, ClipOp::Clip, unsigned)),
        _ => None,
    }
}
