//! What the words of masks, permutations, reductions and moves mean.

ghost use Rattle.std.specs.Prelude.{◌≡◌, option_to_list, [], ◌∷◌};
ghost use Rattle.rv_decode.specs.Rows.{meanings_by_rows, row};
ghost use Rattle.rv_decode.specs.Operations.{vm, vs2};
ghost use Rattle.rv_decode.specs.ElementWords.{logic as logic_of, set_first as set_first_of};
ghost use Rattle.rv_decode.specs.ElementWords.{slide_up as slide_up_of};
ghost use Rattle.rv_decode.specs.ElementWords.{slide_down as slide_down_of};
ghost use Rattle.rv_decode.specs.ElementWords.{slide_one_up as slide_one_up_of};
ghost use Rattle.rv_decode.specs.ElementWords.{slide_one_down as slide_one_down_of};
ghost use Rattle.rv_decode.specs.ElementWords.{gather as gather_of, gather16 as gather16_of};
ghost use Rattle.rv_decode.specs.ElementWords.{compress as compress_of};
ghost use Rattle.rv_decode.specs.ElementWords.{fold as fold_of, widen_sum as widen_sum_of};
ghost use Rattle.rv_decode.specs.ElementWords.{from_scalar as from_x};
ghost use Rattle.rv_decode.specs.ElementWords.{whole as whole_of, to_scalar_rows, set_mask_rows};
ghost use Rattle.rv_decode.specs.ElementWords.{whole_rows};

use crate::word::{bits, operation, register};
use crate::{Count, FirstOp, FoldOp, Insn, LogicOp, Offset, Source, VMask, VMove, VPerm, VReduce};

/// vmandn to vmxnor: with vm 1 alone.
pub(crate) fn logic(word: u32, op: LogicOp) -> Option<Insn>
    ensures { option_to_list result ≡ meanings_by_rows (row (vm 1 ∷ []) (logic_of op) ∷ []) word }
{
    match bits(word, 25, 1) {
        1 => Some(Insn::VMask(VMask::Logic {
            op,
            vd: register(word, 7),
            vs2: register(word, 20),
            vs1: register(word, 15),
        })),
        _ => None,
    }
}

/// vmv.x.s with vm 1, vcpop and vfirst: the place of vs1 says which.
#[tactic(auto, unfolding(crate::specs::ElementWords::to_scalar_rows))]
pub(crate) fn to_scalar(word: u32) -> Option<Insn>
    ensures { option_to_list result ≡ meanings_by_rows to_scalar_rows word }
{
    let rd = register(word, 7);
    let vs2 = register(word, 20);
    let masked = bits(word, 25, 1) == 0;
    match bits(word, 15, 5) {
        0x00 if bits(word, 25, 1) == 1 => Some(Insn::VMove(VMove::ToScalar { rd, vs2 })),
        0x10 => Some(Insn::VMask(VMask::Count { rd, vs2, masked })),
        0x11 => Some(Insn::VMask(VMask::First { rd, vs2, masked })),
        _ => None,
    }
}

fn set_first(word: u32, op: FirstOp) -> Insn
    ensures { result ≡ set_first_of op word }
{
    operation!(word, VMask::SetFirst(op))
}

/// vmsbf, vmsof, vmsif, viota, and vid with vs2 0: the place of vs1 says which.
#[tactic(auto, unfolding(crate::specs::ElementWords::set_mask_rows))]
pub(crate) fn set_mask(word: u32) -> Option<Insn>
    ensures { option_to_list result ≡ meanings_by_rows set_mask_rows word }
{
    let vd = register(word, 7);
    let masked = bits(word, 25, 1) == 0;
    match bits(word, 15, 5) {
        0x01 => Some(set_first(word, FirstOp::Before)),
        0x02 => Some(set_first(word, FirstOp::Only)),
        0x03 => Some(set_first(word, FirstOp::Including)),
        0x10 => Some(Insn::VMask(VMask::Iota {
            vd,
            vs2: register(word, 20),
            masked,
        })),
        0x11 if bits(word, 20, 5) == 0 => Some(Insn::VMask(VMask::Index { vd, masked })),
        _ => None,
    }
}

/// vslideup.
pub(crate) fn slide_up(word: u32, offset: Offset) -> Insn
    ensures { result ≡ slide_up_of offset word }
{
    operation!(word, VPerm::SlideUp(offset))
}

/// vslidedown.
pub(crate) fn slide_down(word: u32, offset: Offset) -> Insn
    ensures { result ≡ slide_down_of offset word }
{
    operation!(word, VPerm::SlideDown(offset))
}

/// vslide1up.
pub(crate) fn slide_one_up(word: u32) -> Insn
    ensures { result ≡ slide_one_up_of word }
{
    let rs1 = register(word, 15);
    operation!(word, VPerm::SlideOneUp(rs1))
}

/// vslide1down.
pub(crate) fn slide_one_down(word: u32) -> Insn
    ensures { result ≡ slide_one_down_of word }
{
    let rs1 = register(word, 15);
    operation!(word, VPerm::SlideOneDown(rs1))
}

/// vrgather.
pub(crate) fn gather(word: u32, b: Source) -> Insn
    ensures { result ≡ gather_of b word }
{
    operation!(word, VPerm::Gather(b))
}

/// vrgatherei16.
pub(crate) fn gather16(word: u32) -> Insn
    ensures { result ≡ gather16_of word }
{
    let vs1 = register(word, 15);
    operation!(word, VPerm::Gather16(vs1))
}

/// vcompress: with vm 1 alone.
pub(crate) fn compress(word: u32) -> Option<Insn>
    ensures { option_to_list result ≡ meanings_by_rows (row (vm 1 ∷ []) compress_of ∷ []) word }
{
    match bits(word, 25, 1) {
        1 => Some(Insn::VPerm(VPerm::Compress {
            vd: register(word, 7),
            vs2: register(word, 20),
            vs1: register(word, 15),
        })),
        _ => None,
    }
}

/// vredsum to vredmax.
pub(crate) fn fold(word: u32, op: FoldOp) -> Insn
    ensures { result ≡ fold_of op word }
{
    let vs1 = register(word, 15);
    operation!(word, VReduce::Fold(op, vs1))
}

/// vwredsumu and vwredsum.
pub(crate) fn widen_sum(word: u32, signed: bool) -> Insn
    ensures { result ≡ widen_sum_of signed word }
{
    let vs1 = register(word, 15);
    operation!(word, VReduce::WidenSum(signed, vs1))
}

/// vmv.s.x: with vm 1 and vs2 0 alone.
pub(crate) fn from_scalar(word: u32) -> Option<Insn>
    ensures { option_to_list result ≡ meanings_by_rows (row (vm 1 ∷ vs2 0 ∷ []) from_x ∷ []) word }
{
    if bits(word, 25, 1) == 1 && bits(word, 20, 5) == 0 {
        Some(Insn::VMove(VMove::FromScalar {
            vd: register(word, 7),
            rs1: register(word, 15),
        }))
    } else {
        None
    }
}

fn move_of(word: u32, count: Count) -> Insn
    ensures { result ≡ whole_of count word }
{
    Insn::VMove(VMove::Whole {
        count,
        vd: register(word, 7),
        vs2: register(word, 20),
    })
}

/// vmv1r to vmv8r, with vm 1 alone: the immediate is one less than the number of registers.
#[tactic(auto, unfolding(crate::specs::ElementWords::whole_rows))]
pub(crate) fn whole(word: u32) -> Option<Insn>
    ensures { option_to_list result ≡ meanings_by_rows whole_rows word }
{
    if bits(word, 25, 1) == 0 {
        return None;
    }
    match bits(word, 15, 5) {
        0 => Some(move_of(word, Count::One)),
        1 => Some(move_of(word, Count::Two)),
        3 => Some(move_of(word, Count::Four)),
        7 => Some(move_of(word, Count::Eight)),
        _ => None,
    }
}
