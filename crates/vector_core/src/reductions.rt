//! Reductions: each reads element 0 of vs1 and the active elements of vs2, folds them, and writes element 0 of vd.

ghost use Rattle.std.specs.Prelude.{◌≡◌, ◌*◌};
ghost use Rattle.std.specs.Mem.{FitsInMemory};
ghost use Rattle.rv_decode.specs.Needs.{needs_of_reduce};
ghost use Rattle.rv_decode.specs.Instructions.{bytes_of_width};
ghost use Rattle.vector_core.specs.Integer.{lane_width};
ghost use Rattle.vector_core.specs.Reductions.{reduce_of, sum_width};
ghost use Rattle.vector_core.specs.Rooms.{IsRoom};
ghost use Rattle.vector_core.specs.Setup.{IsReady};
ghost use Rattle.vector_core.specs.Shapes.{FoldShape, WidenSumShape, reduce_shape_of};

use crate::elements::{VectorElement, zero};
use crate::fold_elements::extended_sum;
use crate::operands::read_body;
use crate::rooms::{body_law, on_sew, with_room};
use crate::setup::Setup;
use crate::shapes::of_shape;
use crate::singles::write_first;
use rv_decode::{VReduce, Width};
use vreg_groups::{MOST_ELEMENTS, VregFile};

/// Element 0 of vd is the fold of element 0 of vs1 with the active elements of vs2.
#[tactic(auto, unfolding(rv_decode::specs::Needs::needs_of_reduce))]
fn fold_elements<E: VectorElement, const MOST: usize, const VLENB: usize>(
    registers: &mut VregFile<VLENB>,
    setup: &Setup,
    insn: &VReduce,
)
    requires shape { reduce_shape_of insn.now ≡ FoldShape }
    requires room { IsRoom VLENB E.row E.SIZE MOST }
    requires fits { FitsInMemory E.row }
    requires width { E.sew ≡ setup.now.vtype.sew }
    requires ready { IsReady VLENB setup.now (needs_of_reduce insn.now) }
    ensures { registers.new ≡ reduce_of VLENB setup.now insn.now registers.old }
{
    of_shape!(VReduce::Fold(op, vd, vs2, vs1, masked) = insn);
    let mut bits = [false; MOST_ELEMENTS];
    let active = &mut bits[..setup.vl];
    registers.read_active(*masked, active);
    body_law::<VLENB>(setup);
    let mut a = [zero::<E>(); MOST];
    let a = &mut a[..setup.vl];
    let start = registers.first_element::<E>(*vs1);
    read_body(registers, setup, *vs2, a);
    let value = lane_masks::fold(*op, start, a, active);
    write_first(registers, setup, *vd, value);
}

/// The same, by the width of elements.
fn fold<const VLENB: usize>(registers: &mut VregFile<VLENB>, setup: &Setup, insn: &VReduce)
    requires shape { reduce_shape_of insn.now ≡ FoldShape }
    requires ready { IsReady VLENB setup.now (needs_of_reduce insn.now) }
    ensures { registers.new ≡ reduce_of VLENB setup.now insn.now registers.old }
{
    on_sew!(setup, fold_elements(registers, setup, insn))
}

/// Element 0 of vd, of 2*SEW, is the sum of element 0 of vs1, of 2*SEW, with the active elements of vs2, which are
/// extended.
#[tactic(auto, unfolding(rv_decode::specs::Needs::needs_of_reduce, crate::specs::Reductions::widen_sum_of, crate::specs::Reductions::reduce_of))]
fn widen_sum_of<W: VectorElement, N: VectorElement, const MOST: usize, const VLENB: usize>(
    registers: &mut VregFile<VLENB>,
    setup: &Setup,
    insn: &VReduce,
)
    requires shape { reduce_shape_of insn.now ≡ WidenSumShape }
    requires room { IsRoom VLENB N.row N.SIZE MOST }
    requires fits { FitsInMemory W.row }
    requires width { N.sew ≡ setup.now.vtype.sew }
    requires wide_size { W.SIZE ≡ 2 * bytes_of_width setup.now.vtype.sew }
    requires wide_width { lane_width W.sew ≡ sum_width setup.now.vtype.sew }
    requires ready { IsReady VLENB setup.now (needs_of_reduce insn.now) }
    ensures { registers.new ≡ reduce_of VLENB setup.now insn.now registers.old }
{
    of_shape!(VReduce::WidenSum(signed, vd, vs2, vs1, masked) = insn);
    let mut bits = [false; MOST_ELEMENTS];
    let active = &mut bits[..setup.vl];
    registers.read_active(*masked, active);
    body_law::<VLENB>(setup);
    let mut a = [zero::<N>(); MOST];
    let a = &mut a[..setup.vl];
    let start = registers.first_element::<W>(*vs1);
    read_body(registers, setup, *vs2, a);
    let value = extended_sum(*signed, start, a, active);
    write_first(registers, setup, *vd, value);
}

/// The same, by the width of elements: at SEW 32 it is not legal.
#[tactic(auto, unfolding(rv_decode::specs::Needs::needs_of_reduce, vreg_groups::specs::Legality::element_bits))]
fn widen_sum<const VLENB: usize>(registers: &mut VregFile<VLENB>, setup: &Setup, insn: &VReduce)
    requires shape { reduce_shape_of insn.now ≡ WidenSumShape }
    requires ready { IsReady VLENB setup.now (needs_of_reduce insn.now) }
    ensures { registers.new ≡ reduce_of VLENB setup.now insn.now registers.old }
{
    let VReduce::WidenSum { .. } = insn else {
        unreachable!()
    };
    let sew = setup.vtype.sew;
    match sew {
        Width::W8 => with_room!(
            widen_sum_of < u16,
            u8 > (128, 256, 512)(registers, setup, insn)
        ),
        Width::W16 => with_room!(
            widen_sum_of < u32,
            u16 > (64, 128, 256)(registers, setup, insn)
        ),
        Width::W32 => unreachable!(),
    }
}

/// What a reduction does to the registers.
pub fn reduce<const VLENB: usize>(registers: &mut VregFile<VLENB>, setup: &Setup, insn: &VReduce)
    requires { IsReady VLENB setup.now (needs_of_reduce insn.now) }
    ensures { registers.new ≡ reduce_of VLENB setup.now insn.now registers.old }
{
    match insn {
        VReduce::Fold { .. } => fold(registers, setup, insn),
        VReduce::WidenSum { .. } => widen_sum(registers, setup, insn),
    }
}
