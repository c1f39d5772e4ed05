//! Instructions on masks: each resolves its operands, reads them, computes and writes.

ghost use Rattle.std.specs.Prelude.{◌≡◌, Ok, length};
ghost use Rattle.region_mem.specs.Memory.{Memory};
ghost use Rattle.rv_decode.specs.Needs.{needs_of_mask};
ghost use Rattle.rv_decode.specs.declared.extents.Eew.TheVariants.{Same};
ghost use Rattle.vreg_groups.specs.Group.{IsGroupInside};
ghost use Rattle.scalar_core.specs.Hart.{advanced};
ghost use Rattle.vector_core.specs.Masks.{count_of, first_of, index_of, iota_of, logic_of};
ghost use Rattle.vector_core.specs.Masks.{mask_step, set_and_active, set_first_of};
ghost use Rattle.vector_core.specs.Rooms.{IsRoom};
ghost use Rattle.vector_core.specs.Setup.{IsReady, IsSetup};

use crate::elements::{VectorElement, zero};
use crate::operands::{write_bits, write_results};
use crate::rooms::{body_law, on_sew, with_room};
use crate::setup::Setup;
use crate::state::VectorState;
use lane_masks::{combine, set_first};
use rv_decode::{Eew, FirstOp, LogicOp, Reg, VMask, Width};
use scalar_core::Scalar;
use vreg_groups::{MOST_ELEMENTS, VregFile};

/// Reads the bits of vs2 below vl that are set and active.
#[tactic(auto, unfolding(crate::specs::Masks::set_and_active))]
fn read_set_and_active<const VLENB: usize>(
    registers: &VregFile<VLENB>,
    setup: &Setup,
    vs2: Reg,
    masked: bool,
    bits: &mut [bool],
)
    requires len { length bits.old ≡ setup.now.vl }
    requires setup { IsSetup VLENB setup.now }
    ensures { bits.new ≡ set_and_active VLENB setup.now vs2 masked registers.now }
{
    let mut others = [false; MOST_ELEMENTS];
    let active = &mut others[..setup.vl];
    registers.read_mask(vs2, bits);
    registers.read_active(masked, active);
    combine(LogicOp::And, bits, active);
}

/// The bits of vd are an operation on those of vs2 and vs1.
#[tactic(auto, unfolding(crate::specs::Masks::logic_of))]
fn logic<const VLENB: usize>(
    registers: &mut VregFile<VLENB>,
    setup: &Setup,
    op: LogicOp,
    vd: Reg,
    vs2: Reg,
    vs1: Reg,
)
    requires { IsSetup VLENB setup.now }
    ensures { registers.new ≡ logic_of VLENB setup.now op vd vs2 vs1 registers.old }
{
    let mut results = [false; MOST_ELEMENTS];
    let results = &mut results[..setup.vl];
    let mut others = [false; MOST_ELEMENTS];
    let b = &mut others[..setup.vl];
    registers.read_mask(vs2, results);
    registers.read_mask(vs1, b);
    combine(op, results, b);
    write_bits(registers, setup, vd, false, results);
}

/// How many bits of vs2 are set and active.
#[tactic(auto, unfolding(crate::specs::Masks::count_of))]
fn count<const VLENB: usize>(
    registers: &VregFile<VLENB>,
    setup: &Setup,
    vs2: Reg,
    masked: bool,
) -> u32
    requires { IsSetup VLENB setup.now }
    ensures { result ≡ count_of VLENB setup.now vs2 masked registers.now }
{
    let mut bits = [false; MOST_ELEMENTS];
    let bits = &mut bits[..setup.vl];
    read_set_and_active(registers, setup, vs2, masked, bits);
    lane_masks::count(bits) as u32
}

/// The number of the first bit of vs2 that is set and active, or -1.
#[tactic(auto, unfolding(crate::specs::Masks::first_of))]
fn first<const VLENB: usize>(
    registers: &VregFile<VLENB>,
    setup: &Setup,
    vs2: Reg,
    masked: bool,
) -> u32
    requires { IsSetup VLENB setup.now }
    ensures { result ≡ first_of VLENB setup.now vs2 masked registers.now }
{
    let mut bits = [false; MOST_ELEMENTS];
    let bits = &mut bits[..setup.vl];
    read_set_and_active(registers, setup, vs2, masked, bits);
    match lane_masks::first(bits) {
        Some(first) => first as u32,
        None => 0xffff_ffff,
    }
}

/// The bits of vd lie before, up to or at the first bit of vs2 that is set and active.
#[tactic(auto, unfolding(crate::specs::Masks::set_first_of))]
fn set_around_first<const VLENB: usize>(
    registers: &mut VregFile<VLENB>,
    setup: &Setup,
    op: FirstOp,
    vd: Reg,
    vs2: Reg,
    masked: bool,
)
    requires { IsSetup VLENB setup.now }
    ensures { registers.new ≡ set_first_of VLENB setup.now op vd vs2 masked registers.old }
{
    let mut bits = [false; MOST_ELEMENTS];
    let bits = &mut bits[..setup.vl];
    read_set_and_active(registers, setup, vs2, masked, bits);
    set_first(op, bits);
    write_bits(registers, setup, vd, masked, bits);
}

/// Each element of vd, is how many bits of vs2 below it are set and active.
#[tactic(auto, unfolding(crate::specs::Masks::iota_of))]
fn iota_elements<E: VectorElement, const MOST: usize, const VLENB: usize>(
    registers: &mut VregFile<VLENB>,
    setup: &Setup,
    vd: Reg,
    vs2: Reg,
    masked: bool,
)
    requires room { IsRoom VLENB E.row E.SIZE MOST }
    requires width { E.sew ≡ setup.now.vtype.sew }
    requires setup { IsSetup VLENB setup.now }
    requires inside { IsGroupInside setup.now.vtype vd Same }
    ensures { registers.new ≡ iota_of VLENB setup.now vd vs2 masked registers.old }
{
    let destination = setup.group(vd, Eew::Same);
    body_law::<VLENB>(setup);
    let mut a = [zero::<E>(); MOST];
    let a = &mut a[..setup.vl];
    let mut bits = [false; MOST_ELEMENTS];
    let bits = &mut bits[..setup.vl];
    read_set_and_active(registers, setup, vs2, masked, bits);
    lane_masks::iota(bits, a);
    write_results(registers, setup, &destination, masked, a);
}

/// The same, by the width of elements.
fn iota<const VLENB: usize>(
    registers: &mut VregFile<VLENB>,
    setup: &Setup,
    vd: Reg,
    vs2: Reg,
    masked: bool,
)
    requires setup { IsSetup VLENB setup.now }
    requires inside { IsGroupInside setup.now.vtype vd Same }
    ensures { registers.new ≡ iota_of VLENB setup.now vd vs2 masked registers.old }
{
    on_sew!(setup, iota_elements(registers, setup, vd, vs2, masked))
}

/// Each element of vd, is its own number.
#[tactic(auto, unfolding(crate::specs::Masks::index_of))]
fn index_elements<E: VectorElement, const MOST: usize, const VLENB: usize>(
    registers: &mut VregFile<VLENB>,
    setup: &Setup,
    vd: Reg,
    masked: bool,
)
    requires room { IsRoom VLENB E.row E.SIZE MOST }
    requires width { E.sew ≡ setup.now.vtype.sew }
    requires setup { IsSetup VLENB setup.now }
    requires inside { IsGroupInside setup.now.vtype vd Same }
    ensures { registers.new ≡ index_of VLENB setup.now vd masked registers.old }
{
    let destination = setup.group(vd, Eew::Same);
    body_law::<VLENB>(setup);
    let mut a = [zero::<E>(); MOST];
    let a = &mut a[..setup.vl];
    lane_masks::index(a);
    write_results(registers, setup, &destination, masked, a);
}

/// The same, by the width of elements.
fn index<const VLENB: usize>(registers: &mut VregFile<VLENB>, setup: &Setup, vd: Reg, masked: bool)
    requires setup { IsSetup VLENB setup.now }
    requires inside { IsGroupInside setup.now.vtype vd Same }
    ensures { registers.new ≡ index_of VLENB setup.now vd masked registers.old }
{
    on_sew!(setup, index_elements(registers, setup, vd, masked))
}

/// The step of an instruction on masks, but for pc.
#[tactic(auto, unfolding(rv_decode::specs::Needs::needs_of_mask, crate::specs::Masks::mask_step))]
pub fn apply_mask<const VLENB: usize>(
    vectors: &mut VectorState<VLENB>,
    scalar: &mut Scalar,
    setup: &Setup,
    insn: &VMask,
)
    requires { IsReady VLENB setup.now (needs_of_mask insn.now) }
    ensures { (m : Memory) → mask_step VLENB setup.now insn.now scalar.old vectors.old m
        ≡ Ok (advanced scalar.new, vectors.new, m) }
{
    let registers = &mut vectors.registers;
    match insn {
        VMask::Logic { op, vd, vs2, vs1 } => logic(registers, setup, *op, *vd, *vs2, *vs1),
        VMask::Count { rd, vs2, masked } => {
            scalar.set_reg(*rd, count(registers, setup, *vs2, *masked));
        }
        VMask::First { rd, vs2, masked } => {
            scalar.set_reg(*rd, first(registers, setup, *vs2, *masked));
        }
        VMask::SetFirst {
            op,
            vd,
            vs2,
            masked,
        } => set_around_first(registers, setup, *op, *vd, *vs2, *masked),
        VMask::Iota { vd, vs2, masked } => iota(registers, setup, *vd, *vs2, *masked),
        VMask::Index { vd, masked } => index(registers, setup, *vd, *masked),
    }
}
