//! Instructions with a group of 2*SEW, by their shapes.

ghost use Rattle.std.specs.Prelude.{◌≡◌, ◌≤◌, ◌*◌, ◌/◌, true};
ghost use Rattle.rv_decode.specs.Needs.{needs_of_arith};
ghost use Rattle.rv_decode.specs.declared.extents.Eew.TheVariants.{Double};
ghost use Rattle.vreg_groups.specs.Group.{IsGroupInside};
ghost use Rattle.vreg_groups.specs.Legality.{eew_bits};
ghost use Rattle.vector_core.specs.Arithmetic.{arith_of, has_doubles};
ghost use Rattle.vector_core.specs.Rooms.{IsRoom};
ghost use Rattle.vector_core.specs.Setup.{IsReady, IsSetup};

use crate::elements::{VectorElement, zero};
use crate::narrowing::{clip, narrow};
use crate::resizing::HalfOf;
use crate::rooms::with_room;
use crate::setup::Setup;
use crate::widening::{wide, widen, widen_multiply_add};
use rv_decode::{VArith, Width};
use scalar_core::Scalar;
use vreg_groups::VregFile;

/// What such an instruction does to the registers. Tells whether an active element saturated.
#[tactic(auto, using(crate::proofs::Inside::doubles_inside), unfolding(vreg_groups::specs::Legality::element_bits))]
pub fn doubles<const VLENB: usize>(
    registers: &mut VregFile<VLENB>,
    scalar: &Scalar,
    setup: &Setup,
    insn: &VArith,
) -> bool
    requires doubles { has_doubles insn.now ≡ true }
    requires ready { IsReady VLENB setup.now (needs_of_arith insn.now) }
    ensures { arith_of VLENB setup.now scalar.now insn.now registers.old
        ≡ record { registers = registers.new; saturated = result } }
{
    let vl = double_vl::<VLENB>(setup);
    let sew = setup.vtype.sew;
    match sew {
        Width::W8 => {
            with_room!(
                doubles_of < u8,
                u16 > (64, 128, 256)(registers, scalar, setup, insn, vl)
            )
        }
        Width::W16 => {
            with_room!(
                doubles_of < u16,
                u32 > (32, 64, 128)(registers, scalar, setup, insn, vl)
            )
        }
        Width::W32 => unreachable!(),
    }
}

/// vl, which is such that eight registers hold the body at 2*SEW.
fn double_vl<const VLENB: usize>(setup: &Setup) -> usize
    requires setup { IsSetup VLENB setup.now }
    requires inside { IsGroupInside setup.now.vtype 0 Double }
    ensures meaning { result ≡ setup.now.vl }
    ensures room { eew_bits setup.now.vtype.sew Double / 8 * result ≤ 8 * VLENB }
{
    setup.vl
}

/// The same on elements of one width and its double.
#[tactic(auto, unfolding(crate::specs::Arithmetic::arith_of, crate::specs::Arithmetic::has_doubles))]
fn doubles_of<N: HalfOf<W>, W: VectorElement, const MOST: usize, const VLENB: usize>(
    registers: &mut VregFile<VLENB>,
    scalar: &Scalar,
    setup: &Setup,
    insn: &VArith,
    vl: usize,
) -> bool
    requires narrow_room { IsRoom VLENB N.row W.SIZE MOST }
    requires room { IsRoom VLENB W.row W.SIZE MOST }
    requires vl { vl ≡ setup.now.vl }
    requires body { W.SIZE * vl ≤ 8 * VLENB }
    requires width { N.sew ≡ setup.now.vtype.sew }
    requires doubles { has_doubles insn.now ≡ true }
    requires ready { IsReady VLENB setup.now (needs_of_arith insn.now) }
    ensures { arith_of VLENB setup.now scalar.now insn.now registers.old
        ≡ record { registers = registers.new; saturated = result } }
{
    let mut a = [zero::<N>(); MOST];
    let mut x = [zero::<W>(); MOST];
    let mut y = [zero::<W>(); MOST];
    let (a, x, y) = (&mut a[..vl], &mut x[..vl], &mut y[..vl]);
    match insn {
        VArith::Widen { .. } => widen(registers, scalar, setup, insn, a, x, y),
        VArith::Wide { .. } => wide(registers, scalar, setup, insn, a, x, y),
        VArith::WidenMultiplyAdd { .. } => {
            widen_multiply_add::<N, W, MOST, VLENB>(registers, scalar, setup, insn, a, x, y);
        }
        VArith::Narrow { .. } => narrow(registers, scalar, setup, insn, a, x, y),
        VArith::Clip { .. } => {
            return clip::<N, W, MOST, VLENB>(registers, scalar, setup, insn, a, x);
        }
        VArith::Int { .. }
        | VArith::MultiplyAdd { .. }
        | VArith::Carry { .. }
        | VArith::CarryOut { .. }
        | VArith::Merge { .. }
        | VArith::Copy { .. }
        | VArith::Compare { .. }
        | VArith::Fixed { .. }
        | VArith::Extend { .. } => unreachable!(),
    }
    false
}
