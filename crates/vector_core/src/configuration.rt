//! The instructions that set vtype and vl.

ghost use Rattle.std.specs.Prelude.{◌≡◌, Ok};
ghost use Rattle.scalar_core.specs.Hart.{advanced};
ghost use Rattle.vector_core.specs.Configuration.{avl_of, request_of, vset_step};
ghost use Rattle.region_mem.specs.Memory.{Memory};

use crate::state::VectorState;
use rv_decode::{Reg, VSet};
use scalar_core::Scalar;
use vreg_groups::{Avl, vset};

/// What an instruction asks for: the register that gets the new vl, the application vector length, and the bits of vtype.
#[derive(Clone, Copy)]
pub struct Request {
    pub rd: Reg,
    pub avl: Avl,
    pub vtype: u32,
}

/// The application vector length: x[rs1]; with rs1 = x0 the greatest, or the present vl where rd is x0 too.
fn avl(rd: Reg, rs1: Reg, scalar: &Scalar) -> Avl
    ensures { result ≡ avl_of rd rs1 scalar.now }
{
    if rs1.number() != 0 {
        Avl::Of(scalar.reg(rs1))
    } else if rd.number() != 0 {
        Avl::Greatest
    } else {
        Avl::Keep
    }
}

#[tactic(auto, unfolding(crate::specs::Configuration::request_of))]
fn requested(insn: &VSet, scalar: &Scalar) -> Request
    ensures { result ≡ request_of insn.now scalar.now }
{
    match insn {
        VSet::Vsetvli { rd, rs1, vtype } => Request {
            rd: *rd,
            avl: avl(*rd, *rs1, scalar),
            vtype: *vtype,
        },
        VSet::Vsetivli { rd, avl, vtype } => Request {
            rd: *rd,
            avl: Avl::Of(*avl),
            vtype: *vtype,
        },
        VSet::Vsetvl { rd, rs1, rs2 } => Request {
            rd: *rd,
            avl: avl(*rd, *rs1, scalar),
            vtype: scalar.reg(*rs2),
        },
    }
}

/// Sets vtype and vl, and gives rd the new vl.
#[tactic(auto, unfolding(crate::specs::Configuration::vset_step))]
pub fn set_type<const VLENB: usize>(
    vectors: &mut VectorState<VLENB>,
    scalar: &mut Scalar,
    insn: &VSet,
)
    ensures { (m : Memory) → vset_step VLENB insn.now scalar.old vectors.old m
        ≡ Ok (advanced scalar.new, vectors.new, m) }
{
    let request = requested(insn, scalar);
    let config = vset(VLENB, vectors.config, request.avl, request.vtype);
    vectors.config = config;
    scalar.set_reg(request.rd, config.vl);
}
