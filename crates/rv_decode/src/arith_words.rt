//! What the words of vector arithmetic mean, a function for each shape of operands.

ghost use Rattle.std.specs.Prelude.{◌≡◌, option_to_list, [], ◌∷◌};
ghost use Rattle.rv_decode.specs.Rows.{meanings_by_rows, row};
ghost use Rattle.rv_decode.specs.Operations.{vm, vs2};
ghost use Rattle.rv_decode.specs.Vector.{int as int_of, multiply_add as multiply_add_of};
ghost use Rattle.rv_decode.specs.Vector.{carry as carry_of, carry_out as carry_out_of};
ghost use Rattle.rv_decode.specs.Vector.{merge as merge_of, copy as copy_of, compare as compare_of};
ghost use Rattle.rv_decode.specs.Vector.{fixed as fixed_of};
ghost use Rattle.rv_decode.specs.Vector.{widen as widen_of, wide as wide_of};
ghost use Rattle.rv_decode.specs.Vector.{widen_multiply_add as widen_multiply_add_of};
ghost use Rattle.rv_decode.specs.Vector.{narrow as narrow_of, clip as clip_of, extend as extend_of};
ghost use Rattle.rv_decode.specs.Vector.{extend_rows};

use crate::word::{bits, operation, register};
use crate::{
    CarryOp, CarryOutOp, ClipOp, CompareOp, FixedOp, Fraction, Insn, IntOp, MultiplyAddOp,
    NarrowOp, Source, VArith, WideOp, WidenMultiplyAddOp, WidenOp,
};

/// The single-width integer operations.
pub(crate) fn int(word: u32, op: IntOp, b: Source) -> Insn
    ensures { result ≡ int_of op b word }
{
    operation!(word, VArith::Int(op, b))
}

/// vmadd to vnmsac.
pub(crate) fn multiply_add(word: u32, op: MultiplyAddOp, b: Source) -> Insn
    ensures { result ≡ multiply_add_of op b word }
{
    operation!(word, VArith::MultiplyAdd(op, b))
}

/// vadc and vsbc: with vm 0 alone.
pub(crate) fn carry(word: u32, op: CarryOp, b: Source) -> Option<Insn>
    ensures { option_to_list result ≡ meanings_by_rows (row (vm 0 ∷ []) (carry_of op b) ∷ []) word }
{
    match bits(word, 25, 1) {
        0 => Some(Insn::VArith(VArith::Carry {
            op,
            vd: register(word, 7),
            vs2: register(word, 20),
            b,
        })),
        _ => None,
    }
}

/// vmadc and vmsbc: a carry is read where vm is 0.
pub(crate) fn carry_out(word: u32, op: CarryOutOp, b: Source) -> Insn
    ensures { result ≡ carry_out_of op b word }
{
    let with_carry = bits(word, 25, 1) == 0;
    Insn::VArith(VArith::CarryOut {
        op,
        vd: register(word, 7),
        vs2: register(word, 20),
        b,
        with_carry,
    })
}

/// vmerge with vm 0, vmv.v with vm 1 and vs2 0.
pub(crate) fn merge_or_copy(word: u32, b: Source) -> Option<Insn>
    ensures { option_to_list result ≡ meanings_by_rows
        (row (vm 0 ∷ []) (merge_of b) ∷ row (vm 1 ∷ vs2 0 ∷ []) (copy_of b) ∷ []) word }
{
    match bits(word, 25, 1) {
        0 => Some(Insn::VArith(VArith::Merge {
            vd: register(word, 7),
            vs2: register(word, 20),
            b,
        })),
        1 if bits(word, 20, 5) == 0 => Some(Insn::VArith(VArith::Copy {
            vd: register(word, 7),
            b,
        })),
        _ => None,
    }
}

/// vmseq to vmsgt.
pub(crate) fn compare(word: u32, op: CompareOp, b: Source) -> Insn
    ensures { result ≡ compare_of op b word }
{
    operation!(word, VArith::Compare(op, b))
}

/// The fixed-point operations of one width.
pub(crate) fn fixed(word: u32, op: FixedOp, b: Source) -> Insn
    ensures { result ≡ fixed_of op b word }
{
    operation!(word, VArith::Fixed(op, b))
}

/// vwaddu to vwmul, of two operands of SEW.
pub(crate) fn widen(word: u32, op: WidenOp, b: Source) -> Insn
    ensures { result ≡ widen_of op b word }
{
    operation!(word, VArith::Widen(op, b))
}

/// vwaddu.w to vwsub.w.
pub(crate) fn wide(word: u32, op: WideOp, b: Source) -> Insn
    ensures { result ≡ wide_of op b word }
{
    operation!(word, VArith::Wide(op, b))
}

/// vwmaccu to vwmaccsu.
pub(crate) fn widen_multiply_add(word: u32, op: WidenMultiplyAddOp, b: Source) -> Insn
    ensures { result ≡ widen_multiply_add_of op b word }
{
    operation!(word, VArith::WidenMultiplyAdd(op, b))
}

/// vnsrl and vnsra.
pub(crate) fn narrow(word: u32, op: NarrowOp, b: Source) -> Insn
    ensures { result ≡ narrow_of op b word }
{
    operation!(word, VArith::Narrow(op, b))
}

/// vnclipu and vnclip.
pub(crate) fn clip(word: u32, op: ClipOp, b: Source) -> Insn
    ensures { result ≡ clip_of op b word }
{
    operation!(word, VArith::Clip(op, b))
}

fn extended(word: u32, signed: bool, of: Fraction) -> Insn
    ensures { result ≡ extend_of signed of word }
{
    operation!(word, VArith::Extend(signed, of))
}

/// vzext and vsext: the place of vs1 says which.
#[tactic(auto, unfolding(crate::specs::Vector::extend_rows))]
pub(crate) fn extend(word: u32) -> Option<Insn>
    ensures { option_to_list result ≡ meanings_by_rows extend_rows word }
{
    match bits(word, 15, 5) {
        4 => Some(extended(word, false, Fraction::Quarter)),
        5 => Some(extended(word, true, Fraction::Quarter)),
        6 => Some(extended(word, false, Fraction::Half)),
        7 => Some(extended(word, true, Fraction::Half)),
        _ => None,
    }
}
